//! Where JOINs lead (S7) and an order of connections; what transitions cost: the longest path, the most
//! operands at once, effects and size; and the limits (S10).
#![tactic(auto)]

mod counts;
mod graph;
mod joins;
mod laws;
mod limits;
mod measures;
mod order;

pub use joins::{find_links, reached_from, reached_in, targets_in};
pub use laws::budget_law;
pub use limits::first_limit;
pub use measures::{Measure, code_size, measure_all};
pub use order::find_orders;
