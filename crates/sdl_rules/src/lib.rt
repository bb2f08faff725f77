//! From a block to the same block with its tables, known to be sound: the rules that statements are asked for
//! one by one, and all rules in their order.
#![tactic(auto)]

mod back_table;
mod copies;
mod declaring;
mod distinct;
mod expansion;
mod expressions;
mod gathered;
mod known;
mod known_synonyms;
mod laws;
mod lost;
mod processes;
mod reaching;
mod receivers;
mod resolved;
mod sender_table;
mod sight;
mod sources;
mod statements;
mod strays;
mod texts;
mod transitions;
mod values;

pub use expansion::{Expansion, Misdeclared, expand};
pub use known_synonyms::Known;
pub use laws::{plain_law, synonyms_law};
pub use resolved::{Resolved, resolve};
pub use sdl_measures::{Measure, budget_law};
pub use sdl_unset::chances_law;
pub use strays::Strays;
