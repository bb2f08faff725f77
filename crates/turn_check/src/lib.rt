//! Valid sets of processes: `verify` checks a draft rule by rule, and the type of an accepted one keeps it valid.
#![tactic(auto)]

mod answers;
mod fault;
mod limits;
mod names;
mod numbers;
mod verified;
mod walk;

pub use answers::initial_values_of;
pub use fault::{Spot, VerifyFault};
pub use turn_rules::Transition;
pub use verified::{Verified, verify};
