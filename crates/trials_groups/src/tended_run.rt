//! The runs of two sets with link management, as written in a text.

use resend_store::Mode;
use std::str::SplitWhitespace;

/// A run.
#[derive(Clone, Copy)]
pub struct TendedRun {
    pub mode: Mode,
    /// How many links there are, 1 to 16.
    pub links: usize,
    pub seed: u32,
    /// For how many seconds faults occur; 40 more follow without any.
    pub seconds: u32,
    /// The mean number of milliseconds between two faults; 0 for none.
    pub faults: u32,
    /// How many messages a second each end is given.
    pub rate: u32,
    /// Whether octets arrive by a clock; otherwise as many as were sent.
    pub clocked: bool,
    /// Whether links are tested.
    pub tests: bool,
    /// Whether orders are given too, as often as faults.
    pub orders: bool,
    /// Whether all lines are cut one after another, and stay cut for long.
    pub staggered: bool,
    /// Whether the number of messages is shown.
    pub sums: bool,
    /// Whether all reports are shown.
    pub loud: bool,
}

fn mode_of(word: &str) -> Option<Mode> {
    match word {
        "basic" => Some(Mode::Basic),
        "cyclic" => Some(Mode::Cyclic),
        _ => None,
    }
}

fn number(words: &mut SplitWhitespace<'_>) -> Option<u32> {
    match words.next() {
        Some(word) => word.parse::<u32>().ok(),
        None => None,
    }
}

/// Applies one more word. `q703` changes nothing here: the opener of the sets chooses their processes.
fn with_word(run: TendedRun, word: &str) -> Option<TendedRun> {
    match word {
        "fifo" => Some(TendedRun {
            clocked: false,
            ..run
        }),
        "untested" => Some(TendedRun {
            tests: false,
            ..run
        }),
        "orders" => Some(TendedRun {
            orders: true,
            ..run
        }),
        "staggered" => Some(TendedRun {
            staggered: true,
            ..run
        }),
        "q703" => Some(run),
        "sums" => Some(TendedRun { sums: true, ..run }),
        "loud" => Some(TendedRun { loud: true, ..run }),
        _ => None,
    }
}

/// The run of a line.
pub fn tended_run_of(line: &str) -> Option<TendedRun> {
    let mut words = line.split_whitespace();
    let mut run = TendedRun {
        mode: mode_of(words.next()?)?,
        links: number(&mut words)? as usize,
        seed: number(&mut words)?,
        seconds: number(&mut words)?,
        faults: number(&mut words)?,
        rate: number(&mut words)?,
        clocked: true,
        tests: true,
        orders: false,
        staggered: false,
        sums: false,
        loud: false,
    };
    for _word in 0..7u8 {
        match words.next() {
            Some(word) => run = with_word(run, word)?,
            None => return Some(run),
        }
    }
    Some(run)
}
