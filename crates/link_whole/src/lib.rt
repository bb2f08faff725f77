//! From a text in one call: a text loaded and run on events, and a terminal over the program's own set of
//! processes.
#![tactic(auto)]

mod laws;
mod opening;
mod running;
#[cfg(test)]
mod tests;

pub use actor_book::Scheduled;
pub use actor_machine::{Event, Reply};
pub use laws::{events_run_as_read, schedules_run_as_read};
pub use link_term::{CallError, OpenError, Terminal};
pub use opening::{NewError, NewInMode, new_terminal};
pub use running::{TextRun, run_text};
pub use turn_verify::{LoadFault, load};
