//! A signalling gateway of M3UA (RFC 4666, 4) with one ASP and one AS: its table of states, what the messages of the
//! ASP are to it, what it sends, and what it does with messages of both directions.
#![tactic(auto)]

mod asking;
mod contexts;
mod destinations;
mod gateway;
mod hearing;
pub mod laws;
mod queue;
mod registering;
mod sending;
mod states;
mod table;
mod traffic;

pub use asking::request_of;
pub use destinations::{Status, statuses};
pub use gateway::{Delivery, Gateway, MOST_KEPT, MOST_WAITING};
pub use hearing::Request;
pub use registering::registered;
pub use sending::{answer, data, destination};
pub use states::{Asp, Server, State};
pub use table::{Action, Happening};
