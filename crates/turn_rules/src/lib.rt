//! The rules V1 to V9 for one transition of a draft: whether the whole and each of its places keep them. A table of the
//! draft's routes serves the rules on receivers. `turn_check` goes through a whole draft.
#![tactic(auto)]

mod check;
mod entry;
mod indexed;
mod party_set;
mod places;
mod route_table;
mod routes;
mod tables;
mod transition;

pub use check::{Broken, check_transition};
pub use entry::process_keeps_limits;
pub use indexed::IndexedDraft;
pub use transition::{Transition, input_transition, start_transition};
