//! Notes beside a word that the lines point at.

use std::alloc::Global;

/// Notes beside a word that the lines point at. Each is one line at most, and empty if there is no note.
#[derive(Debug, Drop)]
pub struct Notes {
    /// What is wrong, after the name of the fault.
    pub said: String,
    /// What the word is, after its carets.
    pub under: String,
    /// What may be written in its place, in a separate line.
    pub hint: String,
}

impl Notes {
    /// No notes.
    pub fn new(alloc: Global) -> Notes {
        Notes {
            said: String::new(alloc),
            under: String::new(alloc),
            hint: String::new(alloc),
        }
    }
}

/// The notes of a refusal, and the place where it was found if it names none.
#[derive(Debug, Drop)]
pub struct Explained {
    /// The notes.
    pub notes: Notes,
    /// The place of the token that exceeds a limit (S10), reads a variable unset (S11) or runs off (S4).
    pub found: Option<u32>,
}
