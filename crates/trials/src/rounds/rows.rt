//! The rows of measurements of sets and their books.

use crate::rounds::sets::Set;

/// A measurement of a set.
#[derive(Clone, Copy)]
pub enum Row {
    /// Turns of the counter by jobs.
    Counter,
    /// Turns of the profile's processes; a new book is opened for each link.
    Standard,
    /// Instructions of the long piece, whose job is copied for each run.
    Long,
    /// Turns of the counter that its book makes.
    CounterOwn,
    /// Turns of the profile's processes that their book makes, while their link starts and stops.
    StandardOwn,
    /// Turns of the profile's processes by jobs, while their link starts and stops.
    StandardJob,
    /// Instructions of the long piece, run on borrowed code.
    Straight,
    /// Turns of the counter in a room.
    CounterRoom,
    /// Turns of the profile's processes in a room, while their link starts and stops.
    StandardRoom,
}

/// All rows, in their order.
pub const ROWS: [Row; 9] = [
    Row::Counter,
    Row::Standard,
    Row::Long,
    Row::CounterOwn,
    Row::StandardOwn,
    Row::StandardJob,
    Row::Straight,
    Row::CounterRoom,
    Row::StandardRoom,
];

impl Row {
    /// The set that the row is measured on.
    pub fn set(self) -> Set {
        match self {
            Row::Counter | Row::CounterOwn | Row::CounterRoom => Set::Counter,
            Row::Standard | Row::StandardOwn | Row::StandardJob | Row::StandardRoom => {
                Set::Standard
            }
            Row::Long | Row::Straight => Set::Long,
        }
    }

    /// The name of the row.
    pub fn name(self) -> &'static str {
        match self {
            Row::Counter => "counter",
            Row::Standard => "standard",
            Row::Long => "long",
            Row::CounterOwn => "counter_own",
            Row::StandardOwn => "standard_own",
            Row::StandardJob => "standard_job",
            Row::Straight => "straight",
            Row::CounterRoom => "counter_room",
            Row::StandardRoom => "standard_room",
        }
    }
}
