//! Notes for names that are declared twice, or not at all (S1, S2).
use crate::contexts::{Class, class_of};
use crate::declared::{Declared, find_any, find_before, find_near};
use crate::notes::Notes;
use crate::reading::Reading;
use crate::saying::{push_all, push_number};
use std::alloc::{AllocError, Global};

/// The hint which statement uses a name of kind `found` if a name of kind `wanted` was required; none for other kinds.
fn instead(wanted: Class, found: Class) -> Option<&'static str> {
    match (wanted, found) {
        (Class::Connection, Class::State) => Some(": write NEXTSTATE "),
        (Class::State, Class::Connection) => Some(": write JOIN "),
        _ => None,
    }
}

/// Adds the kind that a name is declared as, and the line of its declaration, to the hint.
fn push_declared(
    alloc: Global,
    notes: &mut Notes,
    read: &Reading<'_>,
    found: Declared,
) -> Result<(), AllocError> {
    let name = read.spelled(found.index);
    let hint = &mut notes.hint;
    push_all(hint, &[name, " is a "])?;
    push_all(hint, &[found.class.text(), ", line "])?;
    push_number(alloc, &mut notes.hint, read.line(found.index))
}

/// Adds the hint for a name that is declared as another kind than the required one.
fn push_other(
    alloc: Global,
    notes: &mut Notes,
    read: &Reading<'_>,
    found: Declared,
    wanted: Class,
) -> Result<(), AllocError> {
    push_declared(alloc, notes, read, found)?;
    match instead(wanted, found.class) {
        Some(word) => {
            notes.hint.push_str(word)?;
            notes.hint.push_str(read.spelled(found.index))
        }
        None => Ok(()),
    }
}

/// Adds the hint where a name with nearly this spelling is declared.
fn push_near(
    alloc: Global,
    notes: &mut Notes,
    read: &Reading<'_>,
    near: Declared,
) -> Result<(), AllocError> {
    let name = read.spelled(near.index);
    push_all(&mut notes.hint, &[name, " is declared in line "])?;
    push_number(alloc, &mut notes.hint, read.line(near.index))
}

/// Adds what could be meant by a name that isn't declared as the required kind.
pub fn push_hint(
    alloc: Global,
    notes: &mut Notes,
    read: &Reading<'_>,
    all: &[Declared],
    index: usize,
    class: Class,
) -> Result<(), AllocError> {
    match find_near(read, all, index, class) {
        Some(near) => push_near(alloc, notes, read, near),
        None => match find_any(read, all, index) {
            Some(found) => push_other(alloc, notes, read, found, class),
            None => Ok(()),
        },
    }
}

/// Notes for a name that isn't declared as the required kind (S2).
pub fn unknown_name(
    alloc: Global,
    notes: &mut Notes,
    read: &Reading<'_>,
    all: &[Declared],
    index: usize,
) -> Result<(), AllocError> {
    let class = class_of(read, index);
    if class.is_local() {
        let process = read.spelled(read.process(index));
        push_all(&mut notes.said, &[process, " has no "])?;
    } else {
        notes.said.push_str("there is no ")?;
    }
    push_all(&mut notes.said, &[class.text(), " "])?;
    notes.said.push_str(read.spelled(index))?;
    push_hint(alloc, notes, read, all, index, class)
}

/// Notes for a name declared twice in its kind, or a signal or timer that a state takes or saves twice (S1).
pub fn double_name(
    alloc: Global,
    notes: &mut Notes,
    read: &Reading<'_>,
    all: &[Declared],
    index: usize,
) -> Result<(), AllocError> {
    let name = read.spelled(index);
    match find_before(read, all, index) {
        Some((first, class)) => {
            push_all(&mut notes.said, &["the ", class.text(), " "])?;
            push_all(
                &mut notes.said,
                &[name, " has a name that is there already"],
            )?;
            push_declared(alloc, notes, read, first)
        }
        None => push_all(
            &mut notes.said,
            &[name, " is taken or saved already in this state"],
        ),
    }
}
