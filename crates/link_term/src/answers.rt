//! Why a call of a terminal is refused.

use actor_machine::Refusal;
use std::fmt;
use thiserror::Error;

/// Why a command or a tick did not happen.
#[derive(Clone, Copy, PartialEq, Eq, Debug, Error)]
pub enum CallError {
    /// The book refuses the call. The state stays the same.
    Refused(Refusal),
    /// There is no memory to make room in the journal. Nothing changes.
    NoMemory,
}

impl fmt::Display for CallError {
    ghost use Rattle.std.specs.Prelude.{Some};
    ghost use Rattle.link_term.specs.Printed.{call_error_text};

    ghost output = { λ e. Some (call_error_text e) };

    fn fmt<W: fmt::Write>(&self, f: &mut fmt::Formatter<W>) -> fmt::Result {
        match self {
            Self::Refused(refusal) => f.write_str(refusal.name()),
            Self::NoMemory => f.write_str("out of memory"),
        }
    }
}
