//! Runs book scripts on a link.
#![tactic(auto)]

mod answers;
mod calls;
mod names;
mod offers;
mod opened;
mod player;
mod playing;
mod printer;
mod route_faults;

pub use answers::{text_line, value_line};
pub use calls::state_line;
pub use opened::open_player;
pub use plain_text::{DONE, FAILED, refuse, write_line};
pub use player::{MISSED, Player};
pub use playing::play_book;
pub use printer::Printer;
pub use route_faults::{RouteFault, route_fault};
pub use script_lines::refused_line;
