//! One end of a link on its line.

pub mod end;
pub mod measured;
pub mod opening;
pub mod orders;
pub mod running;
pub mod texts;
pub mod turns;
