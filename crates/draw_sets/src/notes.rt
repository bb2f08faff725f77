//! The statements in which transitions of two texts differ, below the lines that name the transitions.
ghost use Rattle.std.specs.Prelude.{◌∷◌, All, List, ℕ, IfOk, OnOk};
ghost use Rattle.draw_sets.specs.Noting.{AreAdded, AreNoted, AreWritten, IsBegun, IsBelow, IsInLine};

use crate::below::{push_below, push_name};
use crate::joins::{connection, is_marked, mark, no_marks, reached, same, titled};
use crate::rows::{Row, Section, sections_of};
use draw_text::push_bytes;
use std::alloc::{AllocError, Global};

/// The number of equal statements at the beginning.
fn alike(one: &[Row], other: &[Row]) -> usize {
    let mut count: usize = 0;
    for (left, right) in one.iter().zip(other.iter()) {
        if !same(&left.text, &right.text) {
            return count;
        }
        count = count.saturating_add(1);
    }
    count
}

/// The number of equal statements at the end.
fn alike_at_end(one: &[Row], other: &[Row]) -> usize {
    let mut count: usize = 0;
    for (left, right) in one.iter().rev().zip(other.iter().rev()) {
        if !same(&left.text, &right.text) {
            return count;
        }
        count = count.saturating_add(1);
    }
    count
}

/// Whether all statements are equal.
fn are_alike(one: &[Row], other: &[Row]) -> bool {
    one.len() == other.len() && alike(one, other) == one.len()
}

/// Appends a line number.
fn push_line(alloc: Global, text: &mut Vec<u8>, line: usize) -> Result<(), AllocError> {
    let digits = format!(in alloc; "{line} ")?;
    push_bytes(text, digits.as_bytes())
}

/// Appends the lines of statements, except `first` at the beginning and `last` at the end.
fn push_rows(
    alloc: Global,
    text: &mut Vec<u8>,
    sign: &[u8],
    rows: &[Row],
    first: usize,
    last: usize,
) -> Result<(), AllocError> {
    let end = rows.len().saturating_sub(last);
    for (index, row) in rows.iter().enumerate() {
        if index >= first && index < end {
            push_bytes(text, sign)?;
            push_line(alloc, text, row.line)?;
            push_bytes(text, &row.text)?;
            push_bytes(text, b"\n")?;
        }
    }
    Ok(())
}

/// Appends the lines from the first statement that differs to the last.
fn push_changes(
    alloc: Global,
    text: &mut Vec<u8>,
    olds: &[Row],
    news: &[Row],
) -> Result<(), AllocError> {
    let first = alike(olds, news);
    let least = olds.len().min(news.len()).saturating_sub(first);
    let last = alike_at_end(olds, news).min(least);
    push_rows(alloc, text, b"- ", olds, first, last)?;
    push_rows(alloc, text, b"+ ", news, first, last)
}

/// Whether the connection of this name in the other text has other statements.
fn is_changed(section: &Section, news: &[Section]) -> bool {
    match connection(news, &section.process, &section.connection) {
        Some(other) => !are_alike(&section.rows, &other.rows),
        None => false,
    }
}

/// Appends the lines of the changed connections that a transition reaches, and marks these.
fn push_blamed(
    alloc: Global,
    text: &mut Vec<u8>,
    blamed: &mut Vec<bool>,
    olds: &[Section],
    news: &[Section],
    from: &Section,
) -> Result<(), AllocError> {
    let marks = reached(alloc, olds, from)?;
    for (index, section) in olds.iter().enumerate() {
        if is_marked(&marks, index) && is_changed(section, news) {
            push_bytes(text, b"by CONNECTION ")?;
            push_bytes(text, &section.connection)?;
            push_bytes(text, b"\n")?;
            mark(blamed, index);
        }
    }
    Ok(())
}

/// The title on the line of a changed transition: its first two words after the sign; empty for any other line.
fn title_in(alloc: Global, line: &[u8]) -> Result<Vec<u8>, AllocError> {
    let mut title = Vec::new(alloc);
    let mut spaces: usize = 0;
    for (index, byte) in line.iter().enumerate() {
        if index == 0 && *byte != b'~' {
            return Ok(title);
        }
        if *byte == b' ' {
            spaces = spaces.saturating_add(1);
        }
        if index > 1 && spaces < 3 {
            title.push(*byte)?;
        }
    }
    Ok(title)
}

/// The statements in which a transition of both texts differs, by its line; empty for any other line.
fn notes_of(
    alloc: Global,
    blamed: &mut Vec<bool>,
    olds: &[Section],
    news: &[Section],
    line: &[u8],
) -> Result<Vec<u8>, AllocError> {
    let mut notes = Vec::new(alloc);
    let title = title_in(alloc, line)?;
    let Some(old) = titled(olds, &title) else {
        return Ok(notes);
    };
    let Some(new) = titled(news, &title) else {
        return Ok(notes);
    };
    push_changes(alloc, &mut notes, &old.rows, &new.rows)?;
    push_blamed(alloc, &mut notes, blamed, olds, news, old)?;
    Ok(notes)
}

/// Appends a line; if it is that of a transition of both texts, with the statements that differ below it.
fn push_noted(
    alloc: Global,
    text: &mut Vec<u8>,
    blamed: &mut Vec<bool>,
    olds: &[Section],
    news: &[Section],
    line: &[u8],
) -> Result<(), AllocError>
    ensures { OnOk result (IsBelow text.old.items line.now text.new.items) }
{
    let notes = notes_of(alloc, blamed, olds, news, line)?;
    push_below(text, line, &notes)
}

/// The name of a connection, after that of its process.
fn connection_name(alloc: Global, section: &Section) -> Result<Vec<u8>, AllocError>
    ensures { IfOk result (λ name. All IsInLine name.items) }
{
    let mut name = Vec::new(alloc);
    push_name(&mut name, &section.process)?;
    push_name(&mut name, b" ")?;
    push_name(&mut name, &section.connection)?;
    Ok(name)
}

/// Appends the lines of a connection of both texts, with the statements that differ.
fn push_connection(
    alloc: Global,
    text: &mut Vec<u8>,
    section: &Section,
    other: &Section,
) -> Result<(), AllocError>
    ensures { OnOk result (AreAdded text.old.items text.new.items) }
{
    let name = connection_name(alloc, section)?;
    let mut notes = Vec::new(alloc);
    push_changes(alloc, &mut notes, &section.rows, &other.rows)?;
    push_bytes(text, b"~ CONNECTION ")?;
    push_below(text, &name, &notes)?;
    Ok(())
}

/// The connection of this name in the other text, if the section is marked.
fn marked<'a>(is_marked: bool, section: &Section, news: &'a [Section]) -> Option<&'a Section> {
    if is_marked {
        connection(news, &section.process, &section.connection)
    } else {
        None
    }
}

/// Appends the lines of a connection, if it is marked and both texts have it.
fn push_marked(
    alloc: Global,
    text: &mut Vec<u8>,
    is_marked: bool,
    section: &Section,
    news: &[Section],
) -> Result<(), AllocError>
    ensures { OnOk result (AreAdded text.old.items text.new.items) }
{
    match marked(is_marked, section, news) {
        Some(other) => push_connection(alloc, text, section, other),
        None => Ok(()),
    }
}

/// Appends the lines of the marked connections, with the statements that differ.
fn push_connections(
    alloc: Global,
    text: &mut Vec<u8>,
    blamed: &[bool],
    olds: &[Section],
    news: &[Section],
) -> Result<(), AllocError>
    ensures { OnOk result (AreAdded text.old.items text.new.items) }
{
    for (index, section) in olds.iter().enumerate() {
        push_marked(alloc, text, is_marked(blamed, index), section, news)?;
    }
    Ok(())
}

/// Adds a byte to the current line. At a line end, the line is written with the statements that differ below it.
fn push_byte(
    alloc: Global,
    text: &mut Vec<u8>,
    line: &mut Vec<u8>,
    blamed: &mut Vec<bool>,
    olds: &[Section],
    news: &[Section],
    byte: u8,
) -> Result<(), AllocError>
    ensures { OnOk result ((all rest : List ℕ) → IsBegun all (byte ∷ rest) line.old.items text.old.items → IsBegun all rest line.new.items text.new.items) }
{
    if byte == b'\n' {
        push_noted(alloc, text, blamed, olds, news, line)?;
        line.clear();
        return Ok(());
    }
    line.push(byte)?;
    Ok(())
}

/// Returns lines, with the statements that differ below each, and marks the connections that they reach.
fn lines_noted(
    alloc: Global,
    blamed: &mut Vec<bool>,
    olds: &[Section],
    news: &[Section],
    lines: &[u8],
) -> Result<Vec<u8>, AllocError>
    ensures { IfOk result (λ v. AreWritten lines.now v.items) }
{
    let mut text = Vec::new(alloc);
    let mut line = Vec::new(alloc);
    for byte in lines {
        push_byte(alloc, &mut text, &mut line, blamed, olds, news, *byte)?;
    }
    push_bytes(&mut text, &line)?;
    Ok(text)
}

/// Returns the lines of transitions in which two texts differ, each unchanged. Below one that both texts have follow
/// the statements that differ, numbered, and the changed connections that it reaches, which come after all lines.
///
/// # Errors
///
/// Out of memory.
pub fn with_statements(
    alloc: Global,
    old_text: &str,
    new_text: &str,
    lines: &[u8],
) -> Result<Vec<u8>, AllocError>
    ensures { IfOk result (λ v. AreNoted lines.now v.items) }
{
    let olds = sections_of(alloc, old_text)?;
    let news = sections_of(alloc, new_text)?;
    let mut blamed = no_marks(alloc, &olds)?;
    let mut text = lines_noted(alloc, &mut blamed, &olds, &news, lines)?;
    push_connections(alloc, &mut text, &blamed, &olds, &news)?;
    Ok(text)
}
