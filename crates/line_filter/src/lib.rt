//! A terminal on a line as a filter: it sends one octet for each received, and eight octets are a millisecond.
//!
//! The terminal is any type that returns units, takes octets, and lets milliseconds pass.
#![tactic(auto)]

mod desk;
mod ends;
mod filter;
mod laws;
mod lines;
mod orders;
mod reports;
mod says;
mod stream;
mod terminal;
mod times;
mod voice;
mod writing;

pub use desk::{Desk, look_anew, tell, tell_kept};
pub use ends::ends_run;
pub use filter::{Bits, MOST_AHEAD, run_line};
pub use laws::{what_goes_out_was_said, what_waits_is_never_lost};
pub use lines::{MOST_OCTETS, OrderLines};
pub use orders::{NoOrders, Orders};
pub use reports::{Reports, Wait};
pub use says::{LineSays, is_tag, joined, line_says};
pub use stream::LineOrders;
pub use su_octets::Unit;
pub use terminal::{Answer, LineTerminal};
pub use times::millisecond;
pub use voice::Voice;
