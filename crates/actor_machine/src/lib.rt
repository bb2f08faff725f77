//! The behaviour of the processes of a link, on lists: actors with ports, timers, a clock and signals that wait for the
//! environment. It is a machine whose steps are the events of a link (Z.100, the behaviour of processes).
#![tactic(auto)]

mod actor;
mod event;
mod found;
pub mod laws;
mod name;
pub mod name_laws;
mod number;
mod reply;

pub use actor::{Actor, Given, Standing};
pub use event::{Event, Offer};
pub use found::Found;
pub use name::ActorName;
pub use number::{first_of, number_of};
pub use reply::{Begun, Cause, Emitted, Lost, Refusal, Reply, Report};
