//! `load`: from a text to the set of its block, or to the refusal of the first layer that refuses, with its line if it
//! has one.
#![tactic(auto)]

mod laws;
mod loading;
mod meanings;

pub use laws::as_written;
pub use loading::{LoadFault, load};
pub use meanings::{BlockSynonyms, meaning};
pub use turn_check::Verified;
