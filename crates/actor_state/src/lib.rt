//! The state of a link in memory: its actors, its timers, and the signals for the environment. Each change is one part
//! of a step of the link's machine.
#![tactic(auto)]

mod actors;
mod clock;
mod effects;
mod link_actors;
mod look;
mod offer;
mod open;
mod refusal;
mod ring;
mod scratch;
mod turn;

pub use effects::NumberedActor;
pub use link_actors::LinkActors;
pub use refusal::with_room;
