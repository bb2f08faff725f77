//! The command `check` for process texts: whether a text is accepted, and what its transitions cost.
#![tactic(auto)]

mod answers;
mod checking;
mod costs;
mod ends;
mod extents;
mod limits;
mod operands;
mod receivers;
mod sets;
mod sort_notes;
mod sorts;
mod synonym_sorts;
mod telling;

pub use checking::{check, check_telling, refuse_limit, refuse_set, tell_refusal, write_refusal};
pub use script_point::in_front;
pub use sets::{FoundSet, Refusal, SetFault, SetWord, find_set, load_set};
