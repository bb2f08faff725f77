//! Notes for transitions without an end and statements that can't be reached (S4).
use crate::contexts::Class;
use crate::declared::{Declared, find_as};
use crate::names::push_hint;
use crate::notes::Notes;
use crate::reading::Reading;
use crate::saying::push_all;
use sdl_lex::Word;
use std::alloc::{AllocError, Global};

/// The note for a NEXTSTATE whose state has no STATE.
fn no_state(
    alloc: Global,
    notes: &mut Notes,
    read: &Reading<'_>,
    all: &[Declared],
    name_at: usize,
) -> Result<(), AllocError> {
    let process = read.spelled(read.process(name_at));
    let name = read.spelled(name_at);
    push_all(&mut notes.said, &[process, " has no STATE ", name])?;
    push_hint(alloc, notes, read, all, name_at, Class::State)
}

/// The note for a transition without an end.
fn no_end(notes: &mut Notes) -> Result<(), AllocError> {
    notes.said.push_str("this transition has no end")?;
    notes
        .hint
        .push_str("write NEXTSTATE, STOP or JOIN after its last statement")
}

/// The note for a statement after a DECISION none of whose answers goes on.
fn never_reached(notes: &mut Notes) -> Result<(), AllocError> {
    notes.said.push_str("nothing comes to this statement")?;
    notes.hint.push_str("each answer of the DECISION before it has an end of its own")
}

/// The notes for S4 at a NEXTSTATE, at the word that begins a transition, or at a statement.
pub fn stray_end(
    alloc: Global,
    notes: &mut Notes,
    read: &Reading<'_>,
    all: &[Declared],
    index: usize,
) -> Result<(), AllocError> {
    let name_at = index.saturating_add(1);
    match read.word(index) {
        Some(Word::NextState) if find_as(read, all, name_at, Class::State).is_none() => {
            no_state(alloc, notes, read, all, name_at)
        }
        Some(Word::Start) | Some(Word::Input) | Some(Word::Connection) => no_end(notes),
        _ => never_reached(notes),
    }
}
