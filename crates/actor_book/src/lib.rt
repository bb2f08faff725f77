//! The book of a link: its actors with their ports, timers and clock, the signals that wait for the environment, and a
//! journal of events. Each call is one event. At any time the state is the replay of the journal on the state where it
//! begins.
#![tactic(auto)]

mod book;
mod calls;
mod event_runs;
mod jobs;
mod laws;
mod limits;
mod readers;
mod refused;
mod replies;
mod rooms;
mod schedule;
mod steps;
mod turn;
mod turns;
mod whole;

pub use actor_machine::{
    ActorName, Begun, Cause, Emitted, Event, Lost, Offer, Refusal, Report, Standing, number_of,
};
pub use book::Book;
pub use calls::{Passed, Taken};
pub use event_runs::run_events;
pub use laws::{
    failed_tries_change_nothing, lack_of_room_is_exact, schedules_are_by_text,
    schedules_keep_books, turns_are_of_the_least,
};
pub use limits::Limits;
pub use rooms::RoomRefusal;
pub use schedule::{Scheduled, run_schedule};
pub use turn::{REST, Turn, one_turn, rest};
