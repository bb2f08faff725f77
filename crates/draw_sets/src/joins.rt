//! The transitions and connections of a text by name, and those that a transition reaches by JOINs.
use crate::rows::{Row, Section};
use std::alloc::{AllocError, Global};

/// The number of connections through which a JOIN is followed.
const FOLLOWED: usize = 16;

/// Whether two names differ at most in the case of letters.
pub(crate) fn same(one: &[u8], other: &[u8]) -> bool {
    one.eq_ignore_ascii_case(other)
}

/// Whether a name is one of these.
fn is_among(names: &[Vec<u8>], name: &[u8]) -> bool {
    for other in names {
        if same(other, name) {
            return true;
        }
    }
    false
}

/// The transition with a title.
pub(crate) fn titled<'a>(sections: &'a [Section], title: &[u8]) -> Option<&'a Section> {
    for section in sections {
        if is_among(&section.titles, title) {
            return Some(section);
        }
    }
    None
}

/// Whether a section is the connection of a process with a name.
fn is_connection(section: &Section, process: &[u8], name: &[u8]) -> bool {
    !name.is_empty() && same(&section.connection, name) && same(&section.process, process)
}

/// The connection of a process with a name.
pub(crate) fn connection<'a>(
    sections: &'a [Section],
    process: &[u8],
    name: &[u8],
) -> Option<&'a Section> {
    for section in sections {
        if is_connection(section, process, name) {
            return Some(section);
        }
    }
    None
}

/// Whether one of these statements jumps to a connection.
fn joins(rows: &[Row], name: &[u8]) -> bool {
    for row in rows {
        if !row.joined.is_empty() && same(&row.joined, name) {
            return true;
        }
    }
    false
}

/// A mark for each section, none of them set.
pub(crate) fn no_marks(alloc: Global, sections: &[Section]) -> Result<Vec<bool>, AllocError> {
    let mut marks = Vec::new(alloc);
    for _ in sections {
        marks.push(false)?;
    }
    Ok(marks)
}

/// Sets a mark.
pub(crate) fn mark(marks: &mut Vec<bool>, index: usize) {
    if let Some(mark) = marks.get_mut(index) {
        *mark = true;
    }
}

/// Whether a mark is set.
pub(crate) fn is_marked(marks: &[bool], index: usize) -> bool {
    match marks.get(index) {
        Some(mark) => *mark,
        None => false,
    }
}

/// Marks the connections of a process to which some statements jump.
fn mark_joined(marks: &mut Vec<bool>, sections: &[Section], process: &[u8], rows: &[Row]) {
    for (index, section) in sections.iter().enumerate() {
        if !section.connection.is_empty()
            && same(&section.process, process)
            && joins(rows, &section.connection)
        {
            mark(marks, index);
        }
    }
}

/// Marks the connections to which the marked connections jump.
fn mark_more(marks: &mut Vec<bool>, sections: &[Section], process: &[u8]) {
    for (index, section) in sections.iter().enumerate() {
        if is_marked(marks, index) {
            mark_joined(marks, sections, process, &section.rows);
        }
    }
}

/// The connections that a transition reaches.
pub(crate) fn reached(
    alloc: Global,
    sections: &[Section],
    from: &Section,
) -> Result<Vec<bool>, AllocError> {
    let mut marks = no_marks(alloc, sections)?;
    mark_joined(&mut marks, sections, &from.process, &from.rows);
    for _ in 0..FOLLOWED {
        mark_more(&mut marks, sections, &from.process);
    }
    Ok(marks)
}
