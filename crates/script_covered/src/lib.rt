//! The coverage of a text by turns: transitions, answers and lines, each with its count, in the format of lcov.
#![tactic(auto)]

mod coverage;
pub mod laws;
mod lcov;
mod line_numbers;
mod marks;
mod rows;
mod sections;
mod text_coverage;
mod values;
mod ways;

pub use sdl_lex::tokens;
pub use sdl_rules::expand;
pub use sdl_tables::BlockTable;
pub use sdl_tree::parse;
pub use text_coverage::TextCoverage;
