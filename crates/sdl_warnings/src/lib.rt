//! Warnings about accepted texts: states, connections and answers that are never reached, and unused names. `warnings`
//! returns those of a block; specs/Warned defines them.
#![tactic(auto)]

mod collected;
mod connections;
mod decisions;
mod exits;
mod parts;
mod reaching;
mod reads;
mod saves;
mod sendings;
mod signals;
mod states;
mod synonyms;
mod timers;
mod told;
mod uses;
mod values;
mod variables;
mod warning;
mod ways;

pub use collected::warnings;
pub use warning::{Kind, Warning};
