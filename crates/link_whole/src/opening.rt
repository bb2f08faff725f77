//! A new terminal over a set of the program.
ghost use Rattle.std.specs.Prelude.{IfOk, IfErr};
ghost use Rattle.link_whole.specs.Opening.{IsNew, IsRefusedNew, IsNewStandard, IsRefusedStandard};

use link_term::{OpenError, Terminal};
use mtp2_text::{STANDARD, standard};
use resend_store::Mode;
use std::alloc::Global;
use std::fmt;
use thiserror::Error;
use turn_verify::LoadFault;

/// Why there is no terminal over the program's own set.
#[derive(Debug, Drop, Error)]
pub enum NewError {
    /// The text of the processes is refused, or memory runs out as it is loaded.
    Load(LoadFault),
    /// There is no terminal over the text's set.
    Open(OpenError),
}

impl fmt::Display for NewError {
    ghost use Rattle.std.specs.Prelude.{Some};
    ghost use Rattle.link_whole.specs.Printed.{new_error_text};

    ghost output = { λ e. Some (new_error_text e) };

    fn fmt<W: fmt::Write>(&self, f: &mut fmt::Formatter<W>) -> fmt::Result {
        match self {
            Self::Load(fault) => write!(f, "{fault}"),
            Self::Open(error) => write!(f, "{error}"),
        }
    }
}

/// A terminal over the set of the text [`STANDARD`], as [`Terminal::of_set`].
///
/// # Errors
///
/// The fault that `load` returns for the text (the table of texts shows none), or that of [`Terminal::of_set`].
pub fn new_terminal(alloc: Global, mode: Mode) -> Result<Terminal, NewError>
    ensures ok { IfOk result (IsNew STANDARD.now mode) }
    ensures err { IfErr result (IsRefusedNew STANDARD.now) }
{
    match standard(alloc) {
        Ok(set) => match Terminal::of_set(alloc, mode, &set) {
            Ok(terminal) => Ok(terminal),
            Err(error) => Err(NewError::Open(error)),
        },
        Err(fault) => Err(NewError::Load(fault)),
    }
}

/// What is made in a mode of error correction, over a set of the program.
pub trait NewInMode: Sized {
    ghost use Rattle.resend_store.specs.declared.messages.Mode.{Mode as AnyMode};
    ghost use Rattle.link_whole.specs.declared.opening.NewError.{NewError as AnyError};

    // what a new one is
    ghost is_new: { AnyMode → Self → Type 0 };

    // why there is none
    ghost is_refused: { AnyError → Type 0 };

    /// A new one in this mode.
    ///
    /// # Errors
    ///
    /// The fault that `load` returns for the set's text, or that memory ran out.
    fn new(alloc: Global, mode: Mode) -> Result<Self, NewError>
        ensures ok { IfOk result (is_new mode) }
        ensures err { IfErr result is_refused };
}

/// [`new_terminal`] as `Terminal::new`.
impl NewInMode for Terminal {
    ghost is_new = { IsNewStandard };

    ghost is_refused = { IsRefusedStandard };

    fn new(alloc: Global, mode: Mode) -> Result<Terminal, NewError> {
        new_terminal(alloc, mode)
    }
}
