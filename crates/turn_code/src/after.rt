//! The result of an instruction.

use crate::instruction::Receiver;
use crate::machine::End;
use crate::numbers::{SignalNumber, TimerNumber};

/// An effect of an instruction, in words. It is small: copying it copies no list.
#[derive(Clone, Copy)]
pub enum BareEffect {
    /// This signal is sent to this receiver, with this many of these words.
    Output(SignalNumber, Receiver, u8, [i32; 4]),
    /// A timer is set to the clock plus this many ticks.
    Set(TimerNumber, i32),
    /// A timer is stopped.
    Reset(TimerNumber),
}

/// Where the code goes on.
#[derive(Clone, Copy)]
pub enum Next {
    /// At this place.
    Goes(usize),
    /// The transition is over.
    Ends(End),
}

/// The result of an instruction.
#[derive(Clone, Copy)]
pub struct BareAfter {
    /// The effect, if there is one.
    pub effect: Option<BareEffect>,
    /// Where the code goes on.
    pub next: Next,
}
