//! The command `frame`: reads one signal unit from hexadecimal digits, and prints its fields.
#![tactic(auto)]

mod command;
mod line_bits;
#[cfg(test)]
mod tests;

pub use command::{FrameFault, frame};
