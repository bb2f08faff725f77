//! Which control path reads a variable before it is set (S11), or else which variables are set in each state.
#![tactic(auto)]

mod firsts;
mod flow;
mod laws;
mod order;
mod paths;
mod places;
mod search;
mod sets;
mod settled;
mod spelled;
mod summaries;
mod walker;
mod walks;

pub use laws::chances_law;
pub use paths::{Graph, Passage, Summary, first_unset};
pub use settled::{Unset, settle};
