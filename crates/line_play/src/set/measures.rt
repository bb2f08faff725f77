//! The counts of a link since they were last reset.
ghost use Rattle.std.specs.Prelude.{◌≡◌, None};
ghost use Rattle.line_play.specs.SetCounting.{since_count, since_aborted, begun_at};

use link_transceiver::Measures;
use script_ends::{Measure, Terminal};

/// The measurements of a terminal when its counts were last reset.
#[derive(Clone, Copy)]
pub(crate) struct Begun {
    pub(crate) measures: Measures,
    pub(crate) aborted: u64,
}

/// The counts of a terminal since they were last reset, or since it was made.
#[derive(Drop)]
pub struct Since {
    pub(crate) begun: Option<Begun>,
}

impl Since {
    /// Counts since the terminal was made.
    pub fn new() -> Since
        ensures { result.begun ≡ None }
    {
        Since { begun: None }
    }

    /// Counts since now.
    pub fn now(terminal: &Terminal) -> Since
        ensures { result ≡ begun_at terminal.now }
    {
        Since {
            begun: Some(Begun {
                measures: terminal.measures(),
                aborted: terminal.aborted(),
            }),
        }
    }

    /// Returns a count.
    pub fn count(&self, terminal: &Terminal, measure: Measure) -> u64
        ensures { result ≡ since_count measure self.now.begun terminal.now }
    {
        let count = terminal.measures().count(measure);
        match self.begun {
            Some(begun) => count.saturating_sub(begun.measures.count(measure)),
            None => count,
        }
    }

    /// Returns the number of aborted proving periods.
    pub fn aborted(&self, terminal: &Terminal) -> u64
        ensures { result ≡ since_aborted self.now.begun terminal.now }
    {
        match self.begun {
            Some(begun) => terminal.aborted().saturating_sub(begun.aborted),
            None => terminal.aborted(),
        }
    }
}
