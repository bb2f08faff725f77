//! Defines when a block of processes is sound (Z.100, and the limits of this profile), and how a broken rule is
//! printed. Each rule has a module in `specs`, and the crates above decide the rules. The lemmas on lists and on views
//! of the tree are for those crates.
#![tactic(auto)]

mod fault;
mod parts;
mod standing;

pub use fault::{ControlPath, Limit, RuleFault, Step};
pub use parts::{both, is_division, one_of};
pub use standing::standing_inputs;
