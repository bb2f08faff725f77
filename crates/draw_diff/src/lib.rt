//! Compares two sets of processes by names: their declarations, and the transitions whose code differs.
#![tactic(auto)]

mod alone;
mod comparing;
mod counts;
mod items;
mod laws;
mod lines;
mod names;
mod pieces;
mod renaming;
mod side;
mod walk;
mod ways;

pub use comparing::{Difference, compare};
pub use counts::{lines_in, ways_in};
pub use laws::runs_law;
