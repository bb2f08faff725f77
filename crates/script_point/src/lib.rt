//! Shows why a text is refused: line and column, the line itself, and carets under the word.
#![tactic(auto)]

mod causes;
mod contexts;
mod declared;
mod ends;
mod expected;
mod fronts;
mod lines;
mod names;
mod notes;
mod pointing;
mod reading;
mod saying;
mod shown;
mod statements;
mod unset;
mod words;

pub use causes::add_notes;
pub use fronts::in_front;
pub use lines::{line_begin, line_end};
pub use mtp2_text::{LimitName, OwnSet, TextLimits, text_limits};
pub use notes::{Explained, Notes};
pub use pointing::{point_out, tokens_of};
pub use reading::Reading;
pub use saying::{ListedWord, push_all, push_items, push_number};
pub use shown::{Word, point, point_head, point_nowhere};
pub use statements::{Found, PlacedPart, process_at, standing_at};
pub use unset::unset_read;
