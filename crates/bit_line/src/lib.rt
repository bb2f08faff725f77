//! The line of MTP level 2 (ITU-T Q.703): zero insertion, flags, and the events of a receiver.
//!
//! A `Stuffer` makes line bits of signal units. A `Receiver` finds the signal units in line bits,
//! however they are cut into octets and slices, and counts octets while it finds none. Line bits are
//! packed into octets with the low bit first.
#![tactic(auto)]

mod content;
mod counter;
mod data;
mod deframer;
mod events;
mod front;
mod gate;
pub mod laws;
mod long;
mod part;
mod receiver;
mod reports;
mod run;
mod short;
mod stuffer;
mod taken;
mod window;

pub use deframer::Deframer;
pub use events::{LineEvent, NoMemory};
pub use stuffer::Stuffer;
