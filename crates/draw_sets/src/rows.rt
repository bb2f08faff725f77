//! The statements of a text, by the transition or connection that contains them.
use draw_text::{BlockTable, Kind, Names, Part, process_parts, push_bytes};
use sdl_lex::{line_of, tokens};
use sdl_rules::expand;
use sdl_tree::parse;
use std::alloc::{AllocError, Global};

/// A statement.
#[derive(Drop)]
pub(crate) struct Row {
    /// Its line number, from 1.
    pub(crate) line: usize,
    /// The statement, joined to one line.
    pub(crate) text: Vec<u8>,
    /// The connection to which a JOIN jumps; empty for any other statement.
    pub(crate) joined: Vec<u8>,
}

/// A transition or a connection with its statements.
#[derive(Drop)]
pub(crate) struct Section {
    /// The name of its process.
    pub(crate) process: Vec<u8>,
    /// The titles of the transition, one for each of its states and inputs.
    pub(crate) titles: Vec<Vec<u8>>,
    /// The name of the connection; empty for a transition.
    pub(crate) connection: Vec<u8>,
    /// The statements, in the order of the text.
    pub(crate) rows: Vec<Row>,
}

/// The keyword of a statement, with the space after it.
fn word_of(kind: Kind) -> &'static [u8] {
    match kind {
        Kind::Output => b"OUTPUT ",
        Kind::Question => b"DECISION ",
        Kind::NextState => b"NEXTSTATE ",
        Kind::Join => b"JOIN ",
        Kind::Stop => b"STOP",
        _ => b"",
    }
}

/// The separator between the lines of a statement when they are joined to one.
fn between(kind: Kind) -> &'static [u8] {
    match kind {
        Kind::Task => b", ",
        _ => b" ",
    }
}

/// A statement joined to one line.
fn one_line(alloc: Global, part: &Part) -> Result<Vec<u8>, AllocError> {
    let mut line = Vec::new(alloc);
    push_bytes(&mut line, word_of(part.kind))?;
    for byte in &part.text {
        if *byte == b'\n' {
            push_bytes(&mut line, between(part.kind))?;
        } else {
            line.push(*byte)?;
        }
    }
    Ok(line)
}

/// The connection to which a statement jumps; empty if it is no JOIN.
fn joined_by(alloc: Global, part: &Part) -> Result<Vec<u8>, AllocError> {
    match part.kind {
        Kind::Join => Vec::from_slice(alloc, part.text.as_slice()),
        _ => Ok(Vec::new(alloc)),
    }
}

/// The line number of a statement; 0 for ELSE, whose place isn't known.
fn line_at(source: &str, place: u32) -> usize {
    if place == 0 {
        0
    } else {
        line_of(source, place)
    }
}

/// A statement of a text.
fn row_of(alloc: Global, source: &str, part: &Part) -> Result<Row, AllocError> {
    let text = one_line(alloc, part)?;
    let joined = joined_by(alloc, part)?;
    Ok(Row {
        line: line_at(source, part.at),
        text,
        joined,
    })
}

/// The names at the beginnings of lines.
fn names_in(alloc: Global, text: &[u8]) -> Result<Vec<Vec<u8>>, AllocError> {
    let mut names = Vec::new(alloc);
    let mut name = Vec::new(alloc);
    let mut is_over = false;
    for byte in text {
        if *byte == b'\n' {
            names.push(name)?;
            name = Vec::new(alloc);
            is_over = false;
        } else if !byte.is_ascii_alphanumeric() && *byte != b'_' {
            is_over = true;
        } else if !is_over {
            name.push(*byte)?;
        }
    }
    names.push(name)?;
    Ok(names)
}

/// Two names with a mark between them.
fn named(alloc: Global, one: &[u8], mark: &[u8], other: &[u8]) -> Result<Vec<u8>, AllocError> {
    let mut name = Vec::new(alloc);
    push_bytes(&mut name, one)?;
    push_bytes(&mut name, mark)?;
    push_bytes(&mut name, other)?;
    Ok(name)
}

/// Appends the titles of a state's inputs.
fn push_titles(
    alloc: Global,
    titles: &mut Vec<Vec<u8>>,
    state: &[u8],
    inputs: &[Vec<u8>],
) -> Result<(), AllocError> {
    for input in inputs {
        let title = named(alloc, state, b"/", input)?;
        titles.push(title)?;
    }
    Ok(())
}

/// The titles of a transition of these states and inputs.
fn input_titles(
    alloc: Global,
    process: &[u8],
    states: &[u8],
    takes: &[u8],
) -> Result<Vec<Vec<u8>>, AllocError> {
    let inputs = names_in(alloc, takes)?;
    let states = names_in(alloc, states)?;
    let mut titles = Vec::new(alloc);
    for state in &states {
        let own = named(alloc, process, b" ", state)?;
        push_titles(alloc, &mut titles, &own, &inputs)?;
    }
    Ok(titles)
}

/// A section without statements.
fn section_of(
    alloc: Global,
    process: &[u8],
    titles: Vec<Vec<u8>>,
    connection: &[u8],
) -> Result<Section, AllocError> {
    let process = Vec::from_slice(alloc, process)?;
    let connection = Vec::from_slice(alloc, connection)?;
    Ok(Section {
        process,
        titles,
        connection,
        rows: Vec::new(alloc),
    })
}

/// The title of START.
fn start_titles(alloc: Global, process: &[u8]) -> Result<Vec<Vec<u8>>, AllocError> {
    let title = named(alloc, process, b" ", b"START")?;
    let mut titles = Vec::new(alloc);
    titles.push(title)?;
    Ok(titles)
}

/// The line number of the last statement; 0 if there is none.
fn last_line(rows: &[Row]) -> usize {
    match rows.last() {
        Some(row) => row.line,
        None => 0,
    }
}

/// Adds a statement to the last section. ELSE gets the line number of the statement before it.
fn push_row(sections: &mut Vec<Section>, mut row: Row) -> Result<(), AllocError> {
    match sections.pop() {
        Some(mut section) => {
            if row.line == 0 {
                row.line = last_line(&section.rows);
            }
            section.rows.push(row)?;
            sections.push(section)?;
            Ok(())
        }
        None => Ok(()),
    }
}

/// Adds a statement to the last section, except a TASK that does nothing.
fn push_statement(
    alloc: Global,
    source: &str,
    sections: &mut Vec<Section>,
    part: &Part,
) -> Result<(), AllocError> {
    if part.kind == Kind::Task && part.text.is_empty() {
        return Ok(());
    }
    let row = row_of(alloc, source, part)?;
    push_row(sections, row)
}

/// Adds a part of a process: as a new section, or as a statement of the last one.
fn push_part(
    alloc: Global,
    source: &str,
    sections: &mut Vec<Section>,
    process: &[u8],
    states: &[u8],
    part: &Part,
) -> Result<(), AllocError> {
    match part.kind {
        Kind::Start => {
            let titles = start_titles(alloc, process)?;
            sections.push(section_of(alloc, process, titles, b"")?)?;
            Ok(())
        }
        Kind::Input => {
            let titles = input_titles(alloc, process, states, &part.text)?;
            sections.push(section_of(alloc, process, titles, b"")?)?;
            Ok(())
        }
        Kind::Connector => {
            let none = Vec::new(alloc);
            sections.push(section_of(alloc, process, none, &part.text)?)?;
            Ok(())
        }
        Kind::State | Kind::Save | Kind::Fork | Kind::Branch | Kind::Meet => Ok(()),
        _ => push_statement(alloc, source, sections, part),
    }
}

/// Appends the sections of a process.
fn push_sections(
    alloc: Global,
    source: &str,
    sections: &mut Vec<Section>,
    process: &[u8],
    parts: &[Part],
) -> Result<(), AllocError> {
    let mut states: &[u8] = b"";
    for part in parts {
        if part.kind == Kind::State {
            states = part.text.as_slice();
        }
        push_part(alloc, source, sections, process, states, part)?;
    }
    Ok(())
}

/// The sections of a block.
fn block_sections(
    alloc: Global,
    source: &str,
    table: &BlockTable<'_>,
) -> Result<Vec<Section>, AllocError> {
    let mut sections = Vec::new(alloc);
    for process in table.tables() {
        let names = Names {
            block: table,
            process,
        };
        let parts = process_parts(alloc, &names)?;
        let own = process.process().name.name;
        push_sections(alloc, source, &mut sections, own.as_bytes(), &parts)?;
    }
    Ok(sections)
}

/// Returns the transitions and connections of an accepted text, with their statements, in which values replace the
/// synonyms; none if the text is refused.
pub(crate) fn sections_of(alloc: Global, source: &str) -> Result<Vec<Section>, AllocError> {
    let Ok(tokens) = tokens(alloc, source) else {
        return Ok(Vec::new(alloc));
    };
    let Ok(block) = parse(alloc, &tokens) else {
        return Ok(Vec::new(alloc));
    };
    let expansion = expand(alloc, &block)?;
    match BlockTable::new(alloc, &expansion.block) {
        Ok(table) => block_sections(alloc, source, &table),
        Err(_) => Ok(Vec::new(alloc)),
    }
}
