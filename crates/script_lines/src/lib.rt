//! Book scripts: lines, words, commands, the actor that a word names, and the lines that are printed.
#![tactic(auto)]

mod commands;
mod line_faults;
mod lines;
mod names;
mod numbers;
mod refusals;
mod reply_lines;
mod script;
mod settings;
mod shown;
mod verbs;
mod word;
mod words;

pub use commands::{Command, Offer, command_in};
pub use line_faults::{LineFault, MANY, book_line_fault, number_fault, verb_fault, words_fault};
pub use lines::{Line, lines_in};
pub use numbers::{count, value};
pub use refusals::refused_line;
pub use reply_lines::{begun_line, finished_line, skipped_line, standing_line, taken_line};
pub use script::{Said, Script, ScriptFault, book_script};
pub use settings::{Setting, Settings};
pub use shown::shown_line;
pub use verbs::{Call, Verb, verb_in};
pub use word::{Called, actor_called};
pub use words::words_in;
