//! The command `soak`: threads serve links while a script offers signals; then counts are compared with journals.
#![tactic(auto)]

mod client;
mod finding_lines;
mod findings;
mod script;
mod soak_faults;
mod soaking;

pub use client::Open;
pub use findings::agree;
pub use script::{Soak, Step, soak_script};
pub use soak_faults::soak_line_fault;
pub use soaking::{soak, soak_telling, soaked};
