//! The reasons why tokens have no tree.
use std::fmt;
use thiserror::Error;

/// Why tokens have no tree.
#[derive(Clone, Copy, Debug, PartialEq, Eq, Drop, Error)]
pub enum ParseFault {
    /// The tokens don't read as a tree. The index of the first token that doesn't fit, or the number of
    /// tokens if they end too early.
    Unexpected(usize),
    /// The tree is higher than [`MAX_HEIGHT`](crate::MAX_HEIGHT). The place in the text, in bytes, of
    /// the first TASK, OUTPUT, SET or DECISION that is too high.
    TooDeep(u32),
    /// Memory ran out.
    NoMemory,
}

impl fmt::Display for ParseFault {
    ghost use Rattle.std.specs.Prelude.{Some};
    ghost use Rattle.sdl_tree.specs.Printed.{fault_text};

    ghost output = { λ e. Some (fault_text e) };

    fn fmt<W: fmt::Write>(&self, f: &mut fmt::Formatter<W>) -> fmt::Result {
        f.write_str(match self {
            Self::Unexpected(_) => "P1 Unexpected",
            Self::TooDeep(_) => "P2 TooDeep",
            Self::NoMemory => "out of memory",
        })
    }
}
