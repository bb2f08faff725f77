//! Turns: a job is a transition with an input that fits it, and a job that has run is `Done`. A transition can also run
//! without a job, on code borrowed from its set.
#![tactic(auto)]

mod copy;
mod done;
mod ended;
mod ending;
mod execute;
mod fit;
mod head;
mod job;
mod received;
mod room;
mod same_turn;
mod values;
mod wording;
mod work;

pub use done::{Done, run};
pub use ended::Ended;
pub use ending::{new_machine, run_in};
pub use fit::fits;
pub use head::TurnHead;
pub use job::Job;
pub use received::Received;
pub use room::{Held, Room};
pub use same_turn::{is_turn, runs_piece};
pub use wording::{word_of, words_of};
pub use work::Work;
