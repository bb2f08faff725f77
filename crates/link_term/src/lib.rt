//! A signalling link terminal (Q.703): line octets and commands go in, line octets and reports come out.
#![tactic(auto)]

mod answers;
mod calls;
mod laws;
mod opening;
mod reading;
mod sending;
mod terminal;

pub use answers::CallError;
pub use laws::{accepted_messages_are_delivered, cuttings_agree, unacknowledged_messages_stay};
pub use link_processes::{Command, Names};
pub use opening::OpenError;
pub use terminal::Terminal;
