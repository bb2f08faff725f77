//! The runs as written in a text.

use resend_store::Mode;
use std::str::SplitWhitespace;

/// A run of two sets back to back.
#[derive(Clone, Copy)]
pub struct Run {
    pub mode: Mode,
    /// How many links they have, 1 to 16.
    pub links: usize,
    pub seed: u32,
    /// How many messages each end is to take.
    pub messages: u32,
    /// One in so many changeover messages is lost; 0 for none.
    pub lost: u32,
    /// Whether changeover messages are repeated late, and links fail two at a time.
    pub late: bool,
}

/// The mode of a word.
fn mode_of(word: &str) -> Option<Mode> {
    match word {
        "basic" => Some(Mode::Basic),
        "cyclic" => Some(Mode::Cyclic),
        _ => None,
    }
}

/// The next word, as a number.
fn number(words: &mut SplitWhitespace<'_>) -> Option<u32> {
    match words.next() {
        Some(word) => word.parse::<u32>().ok(),
        None => None,
    }
}

/// The run of five words.
fn plain_run(words: &mut SplitWhitespace<'_>) -> Option<Run> {
    Some(Run {
        mode: mode_of(words.next()?)?,
        links: number(words)? as usize,
        seed: number(words)?,
        messages: number(words)?,
        lost: number(words)?,
        late: false,
    })
}

/// The run of a line of exactly five words; `late` may follow.
pub fn run_of(line: &str) -> Option<Run> {
    let mut words = line.split_whitespace();
    let mut run = plain_run(&mut words)?;
    match words.next() {
        None => return Some(run),
        Some(word) => run.late = word == "late",
    }
    match words.next() {
        None if run.late => Some(run),
        _ => None,
    }
}
