//! What a name, an expression, a DECISION or an end is asked for by itself: names that are known (S2), sorts
//! (S3), ends of transitions (S4), answers (S8), divisors (S9); and who sends and gets a signal by the routes.
#![tactic(auto)]

mod constants;
mod decisions;
mod divisors;
mod ends;
mod going;
mod known;
mod names;
mod operands;
mod recipients;
mod sender;
mod sent;
mod sorts;
mod values;

pub use constants::{constant_misfit, constant_sort, wrong_in_constant};
pub use decisions::unanswered_decision;
pub use divisors::{bad_in, bad_in_action};
pub use ends::stray_end;
pub use going::goes_on;
pub use known::KnownSenders;
pub use names::{
    unknown_connector, unknown_in_action, unknown_in_block, unknown_in_expression,
    unknown_in_inputs, unknown_in_parts,
};
pub use operands::{wrong_in, wrong_in_action};
pub use recipients::{Recipients, find_receivers};
pub use sender::{Numbered, Sender, nobody};
pub use sent::{Sent, is_marked, senders_at};
pub use sorts::{is_truth, sort_in};
pub use values::{wrong_declaration, wrong_in_ranges};
