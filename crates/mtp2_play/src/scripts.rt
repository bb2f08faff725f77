//! The commands that run a script: `play` and `soak`.

pub mod play;
pub mod soak;
