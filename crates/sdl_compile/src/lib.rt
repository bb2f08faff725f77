//! From a sound block to a draft: a piece for each transition, what is said of each place of it, and that each
//! place keeps the rules of a valid draft.
#![tactic(auto)]

mod block;
mod compiling;
mod counts;
mod entries;
mod facts;
pub mod laws;
mod marks;
mod piece;
mod process;
mod sets;
mod setting;
mod state;
mod totals;
mod variables;

pub use compiling::compile;
pub use laws::set_law;
pub use sdl_rules::{Expansion, Known, Resolved, expand, plain_law};
pub use totals::Counts;
