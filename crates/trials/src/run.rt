//! Runs as they are written.

use resend_store::Mode;
use std::str::SplitWhitespace;

/// A run over a line.
#[derive(Clone, Copy)]
pub struct Run {
    pub mode: Mode,
    pub seed: u32,
    /// Of this many bits one is flipped, one dropped and one doubled; 0 for none.
    pub rate: u32,
    /// The number of messages each way, and how many of them each end gets in a round.
    pub messages: u32,
    pub given: u32,
    /// The number of units one way before as many go the other way.
    pub units: u32,
}

/// The mode of a word.
fn mode_of(word: &str) -> Option<Mode> {
    match word {
        "basic" => Some(Mode::Basic),
        "cyclic" => Some(Mode::Cyclic),
        _ => None,
    }
}

/// The next word, as a number.
pub fn number(words: &mut SplitWhitespace<'_>) -> Option<u32> {
    match words.next() {
        Some(word) => word.parse::<u32>().ok(),
        None => None,
    }
}

/// The run of these words, if they are exactly one.
pub fn run_of(line: &str) -> Option<Run> {
    let mut words = line.split_whitespace();
    let run = Run {
        mode: mode_of(words.next()?)?,
        seed: number(&mut words)?,
        rate: number(&mut words)?,
        messages: number(&mut words)?,
        given: number(&mut words)?,
        units: number(&mut words)?,
    };
    match words.next() {
        None => Some(run),
        Some(_) => None,
    }
}
