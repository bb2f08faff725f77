//! From a transition to its code: copies without TASKs in which all is quoted, what its names stand for,
//! INPUT's places, its text, and the connections that it comes to, each once.
#![tactic(auto)]

mod bodies;
mod copies;
mod emit;
mod landing;
mod marks;
mod names;
mod placing;
mod ranges;
mod texts;
mod trimmed;
mod uses;

pub use bodies::{Body, text_size};
pub use names::Names;
pub use placing::{connection_places, place_connections};
pub use sdl_measures::Measure;
pub use texts::emit_piece;
pub use trimmed::{trim_connections, trim_transition};
pub use uses::{UseTable, find_uses};
