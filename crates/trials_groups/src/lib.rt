//! Trials of link sets: two back to back whose lines a seeded schedule cuts and heals, two with link management on
//! lines with faults, and each public call of a set once.
#![tactic(auto)]

mod calling;
mod calls;
mod counts;
mod dice;
mod each_call;
mod far_end;
mod full_set;
mod keeping;
mod messages;
mod opening;
mod pair;
mod run;
mod schedule;
mod set_end;
mod shown;
mod tended;
mod tended_channel;
mod tended_end;
mod tended_orders;
mod tended_pair;
mod tended_run;
mod tended_script;
mod tended_side;
mod tending;
mod working;

pub use calling::make_calls;
pub use calls::Stopped;
pub use full_set::FullSet;
pub use tended::run_tended;
pub use tended_script::run_script;
pub use working::run_sets;
