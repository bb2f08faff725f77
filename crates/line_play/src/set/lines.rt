//! The source and sink of the octets of lines.
ghost use Rattle.std.specs.Prelude.{List, [], ◌∷◌, Option};
ghost use Rattle.line_play.specs.LineTraffic.{Traffic, octets_go, Grows, arrived};

use std::io;

/// The answer of a line when it is asked for octets.
#[derive(Clone, Copy, Debug, PartialEq, Eq)]
pub enum LineNews {
    /// This many octets came since the last call; 0 if none came.
    Octets(usize),
    /// The line has ended.
    Ended,
    /// The line has failed.
    Failed,
    /// The line was opened again.
    Opened,
    /// The line isn't open.
    Closed,
}

/// The lines of a link set.
pub trait Lines {
    // the octets received from lines and given to them, and the states that lines reported, in order, if that is known
    ghost traffic: { Self → Option (List Traffic) };

    /// Begins a round, at this millisecond.
    fn begin(&mut self, now: u64)
        ensures { Grows (traffic self.old) (traffic self.new) [] };

    /// Takes the octets that came on a line since the last call; they are put into `part`, the oldest first.
    fn take(&mut self, link: usize, part: &mut [u8]) -> LineNews
        ensures { Grows (traffic self.old) (traffic self.new) (arrived link part.new result) };

    /// Sends octets on a line. They are lost if it isn't open.
    fn give(&mut self, link: usize, octets: &[u8])
        ensures { Grows (traffic self.old) (traffic self.new) (octets_go link octets.now ∷ []) };

    /// Returns whether the run ends because no line could be opened for long; an error if one of them had failed.
    fn are_over(&mut self) -> io::Result<bool>
        ensures { Grows (traffic self.old) (traffic self.new) [] };
}
