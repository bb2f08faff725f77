//! A signalling link terminal's actors and transceiver (Q.703): what the environment offers to the actors, how they run
//! to rest, and their signals to the environment.
#![tactic(auto)]

mod commands;
mod known;
mod laws;
mod names;
mod processes;
mod resting;
mod routes;
mod wanted;
mod words;

pub use actor_book::{Book, Limits};
pub use commands::Command;
pub use laws::{accepted_messages_wait_in_order, rests_are_runs, unacknowledged_messages_stay};
pub use names::{
    NO_ACTOR, NO_SIGNAL, Names, Notices, Options, Orders, Outputs, Parties, Periods, is_there,
};
pub use processes::{LOW, Processes};
pub use wanted::Wanted;
pub use words::{OptionName, ProcessName, SignalName};
