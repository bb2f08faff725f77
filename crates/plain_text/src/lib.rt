//! Texts in and lines out: reads whole texts from a stream, in parts of any size, and writes lines to one.
#![tactic(auto)]

mod check;
mod lines;
mod reading;
mod told;

pub use lines::{DONE, FAILED, REFUSED, USAGE, refuse, write_line};
pub use reading::{MOST_BYTES, MOST_READS, TextRead, line_at_limit, read_text};
pub use told::{Errors, NamedReader, Teller};
