//! The events that a deframer reports.
use arrayvec::ArrayVec;
use std::alloc::{AllocError, AllocFailed};
use thiserror::Error;

/// An event that a receiver of line bits reports.
#[derive(Debug, Drop, PartialEq, Eq)]
pub enum LineEvent {
    /// The octets of a correct signal unit, without flags.
    Unit(ArrayVec<u8, 278>),
    /// The content between two flags is no correct signal unit.
    Errored,
    /// 128 line bits passed in counting mode.
    SixteenOctets,
}

/// The value that fills the unused room of an array of events.
impl Default for LineEvent {
    ghost use Rattle.std.specs.Prelude.{◌≡◌};
    ghost use Rattle.bit_line.specs.declared.events.LineEvent.TheVariants.{Errored};

    ghost is_default = { λ event. event ≡ Errored };

    fn default() -> Self {
        LineEvent::Errored
    }
}

/// Memory for the events ran out.
#[derive(Clone, Copy, Debug, Drop, Error, PartialEq, Eq)]
#[error("NoMemory")]
pub struct NoMemory;

impl From<AllocError> for NoMemory {
    fn from(_error: AllocError) -> Self {
        NoMemory
    }
}

impl<T: Drop> From<AllocFailed<T>> for NoMemory {
    fn from(_error: AllocFailed<T>) -> Self {
        NoMemory
    }
}
