//! The input port of a process: the signals that wait for it, and the signals of its own timers.
#![tactic(auto)]

mod queue;
mod save;

pub use queue::{Arrival, Item, Port, PutError};
pub use save::Saved;
