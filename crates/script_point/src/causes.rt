//! Notes for each refusal that the tokens of the text explain.
use crate::declared::declarations;
use crate::ends::stray_end;
use crate::expected::unexpected;
use crate::names::{double_name, unknown_name};
use crate::notes::Notes;
use crate::reading::Reading;
use crate::saying::push_all;
use mtp2_text::LoadFault;
use sdl_lex::{LexFault, Word};
use sdl_sound::RuleFault;
use sdl_tree::ParseFault;
use std::alloc::{AllocError, Global};

/// The byte at a place of a text, or 0 past its end.
fn byte_at(text: &str, place: u32) -> u8 {
    match text.as_bytes().get(place as usize) {
        Some(byte) => *byte,
        None => 0,
    }
}

/// The note for a fault of the lexis (L1 to L3).
fn of_lexis(text: &str, fault: LexFault) -> &'static str {
    match fault {
        LexFault::BadCharacter(_) => "nothing begins with this",
        LexFault::OpenComment(place) => {
            if byte_at(text, place) == b'/' {
                "this comment has no end"
            } else {
                "this quoted text has no end"
            }
        }
        LexFault::TooLong(place) => {
            if byte_at(text, place).is_ascii_digit() {
                "a number is 2147483647 at most"
            } else {
                "a name has 32 octets at most"
            }
        }
        LexFault::NoMemory => "",
    }
}

/// The note for a text that doesn't parse (P1, P2).
fn of_tree(
    alloc: Global,
    notes: &mut Notes,
    read: &Reading<'_>,
    fault: ParseFault,
) -> Result<(), AllocError> {
    match fault {
        ParseFault::Unexpected(index) => unexpected(alloc, notes, read, index),
        ParseFault::TooDeep(at) => notes.said.push_str(if read.is_name(read.index_at(at)) {
            "the expression of this synonym is more than 32 levels high"
        } else {
            "this statement is more than 32 levels high"
        }),
        ParseFault::NoMemory => Ok(()),
    }
}

/// The note for a JOIN that leads back to its own CONNECTION (S7).
fn of_cycle(notes: &mut Notes, read: &Reading<'_>, index: usize) -> Result<(), AllocError> {
    match read.last_word(index, Word::Connection) {
        Some(begins) => {
            let name = read.spelled(begins.saturating_add(1));
            push_all(
                &mut notes.said,
                &["this JOIN leads back to its own CONNECTION ", name],
            )
        }
        None => Ok(()),
    }
}

/// The note for a bad divisor (S9): the operator is the token before it.
fn of_divisor(notes: &mut Notes, read: &Reading<'_>, index: usize) -> Result<(), AllocError> {
    let sign = read.spelled(index.saturating_sub(1));
    push_all(
        &mut notes.said,
        &[
            "a literal or synonym of 1 or more is expected right of `",
            sign,
            "`",
        ],
    )
}

/// The note for a double name (S1), an unknown name (S2) or a missing end (S4) at the token with this index.
fn of_names(
    alloc: Global,
    notes: &mut Notes,
    read: &Reading<'_>,
    fault: &RuleFault,
    index: usize,
) -> Result<(), AllocError> {
    let all = declarations(alloc, read)?;
    match fault {
        RuleFault::DoubleName(_) => double_name(alloc, notes, read, &all, index),
        RuleFault::UnknownName(_) => unknown_name(alloc, notes, read, &all, index),
        _ => stray_end(alloc, notes, read, &all, index),
    }
}

/// The note for a broken rule, if the tokens explain it.
fn of_rule(
    alloc: Global,
    notes: &mut Notes,
    read: &Reading<'_>,
    fault: &RuleFault,
) -> Result<(), AllocError> {
    match fault {
        RuleFault::DoubleName(at) | RuleFault::UnknownName(at) | RuleFault::NoState(at) => {
            of_names(alloc, notes, read, fault, read.index_at(*at))
        }
        RuleFault::JoinCycle(at) => of_cycle(notes, read, read.index_at(*at)),
        RuleFault::BadDivisor(at) => of_divisor(notes, read, read.index_at(*at)),
        _ => Ok(()),
    }
}

/// Adds the notes of a refusal that its tokens explain: of L, P, S1, S2, S4, S7 and S9; it adds none for others.
pub fn add_notes(
    alloc: Global,
    notes: &mut Notes,
    read: &Reading<'_>,
    fault: &LoadFault,
) -> Result<(), AllocError> {
    match fault {
        LoadFault::Lex { fault, .. } => notes.said.push_str(of_lexis(read.text, *fault)),
        LoadFault::Parse { fault, .. } => of_tree(alloc, notes, read, *fault),
        LoadFault::Rule { fault, .. } => of_rule(alloc, notes, read, fault),
        LoadFault::NoMemory => Ok(()),
    }
}
