//! The destination of reports.
ghost use Rattle.std.specs.Prelude.{◌≡◌, OnOk};
ghost use Rattle.line_filter.specs.Reporting.{Stand, MovesOn, TellsLine, waiting_count};

use std::io;

/// Whether a reported line waits while its reader is away, and what it counts as then.
#[derive(Clone, Copy, Debug, PartialEq, Eq)]
pub enum Wait {
    /// It doesn't wait. It is lost, and counted.
    Never,
    /// It waits: a message for level 3.
    Message,
    /// It waits: a line of the answer to an order.
    Answer,
    /// It waits: any other line.
    Other,
}

/// A destination of reports, which takes a line at a time.
pub trait Reports {
    // the lines written, those that wait after them, and how many were lost since
    ghost stand: { Self → Stand };

    /// Reports a line, including its line feed. While the reader is away, a line that has to wait is queued after those
    /// that already wait; any other line is written whole at once, or counted as lost.
    fn tell(&mut self, wait: Wait, line: &[u8]) -> io::Result<()>
        ensures { OnOk result (TellsLine (stand self.old) (stand self.new) (record { wait = wait; octets = line.now })) };

    /// Writes waiting lines, the first ones first, as far as there is room for them.
    fn move_on(&mut self) -> io::Result<()>
        ensures { OnOk result (MovesOn (stand self.old) (stand self.new)) };

    /// Opens the file of reports again by its name, since it may have been moved away. Returns whether it could be
    /// opened; else the file that was open stays in use. Does nothing if reports don't go to a file.
    fn reopen(&mut self) -> io::Result<bool>
        ensures { OnOk result (stand self.new ≡ stand self.old) };

    /// The number of waiting messages for level 3.
    fn messages(&self) -> usize
        ensures { result ≡ waiting_count Wait.Message (stand self.now) };

    /// The number of waiting lines of answers.
    fn answers(&self) -> usize
        ensures { result ≡ waiting_count Wait.Answer (stand self.now) };
}
