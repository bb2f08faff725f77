//! Scripts of one end of a link or of a set of links, as they run: what each command makes of the terminal or
//! of the set, and the lines that are printed for it.
#![tactic(auto)]

mod answers;
mod calls;
mod hearing;
mod lines;
mod opened;
mod opening;
mod orders;
mod outputs;
mod player;
mod playing;
mod retrievals;
mod saying;
mod set_answers;
mod shown;
mod terminals;
mod told;
mod unit_line;

pub use answers::{answer, message};
pub use link_term::{OpenError, Terminal};
pub use opened::open_group;
pub use orders::command_of;
pub use player::GroupPlayer;
pub use playing::play_group;
pub use resend_store::{Measure, Mode, RoundLimits, all_measures};
pub use script_book::{MISSED, Player, open_player, state_line, text_line, value_line};
pub use terminals::{TermPlayer, asks_told, new_player, play_terminal, refuse_set};
pub use told::report_text;
pub use unit_line::line_of_unit;
