//! The outcome of a command line.

use mtp2_words::Source;

/// The outcome of a command line: an exit status, or a request that workers serve links for a script.
#[derive(Clone, Copy)]
pub enum Handled<'a> {
    /// The command is over, with this exit status.
    Over(u8),
    /// Workers are to serve links for a script; the number is that of the workers.
    Soak(Source<'a>, usize),
}
