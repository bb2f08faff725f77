//! Scripts for terminals and link sets.
#![tactic(auto)]

mod commands;
mod group_commands;
mod group_script;
mod heads;
mod octets;
mod orders;
mod play_faults;
mod reasons;
mod script;
mod unit_words;
mod verbs;
mod words;

pub use commands::{TermCommand, term_command_in};
pub use group_commands::GroupCommand;
pub use group_script::{GroupSaid, GroupScript, PlayScript, play_script_in};
pub use heads::{GroupHead, TermHead};
pub use octets::octets_in;
pub use orders::{Order, mode_named, order_in};
pub use play_faults::play_fault;
pub use resend_store::{Mode, RoundLimits};
pub use script::{AnyScript, TermSaid, TermScript, any_script};
pub use script_lines::count;
pub use verbs::{TermVerb, term_verb_in};
pub use words::GroupWord;
