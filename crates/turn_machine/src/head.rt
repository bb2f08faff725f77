//! Whose turn it is, and of which transition.

use turn_code::{Place, ProcessNumber};

/// A turn's actor, its number, and the transition that it makes: input `input_number` at a place of a process.
#[derive(Clone, Copy)]
pub struct TurnHead {
    /// The actor whose turn it is.
    pub actor: u16,
    /// The number of the turn.
    pub turn: u64,
    /// The actor's process.
    pub process: ProcessNumber,
    /// START, or the state.
    pub place: Place,
    /// The number of the input at that place; 0 at START.
    pub input_number: usize,
}
