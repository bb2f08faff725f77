//! Why a call was refused. Each refusal leaves the sender or receiver as it was.

ghost use Rattle.std.specs.Prelude.{Some};
ghost use Rattle.resend_store.specs.Printed.{put_error_text, ack_error_text, retrieve_error_text, unit_error_text};

use std::fmt;
use thiserror::Error;

/// Why a sender didn't take a message.
#[derive(Clone, Copy, Debug, PartialEq, Eq, Error)]
pub enum PutError {
    /// 1,024 messages or more wait, or for a diverted message 1,151 are kept (E1).
    Full,
}

/// Why a sender didn't take a backward number.
#[derive(Clone, Copy, Debug, PartialEq, Eq, Error)]
pub enum AckError {
    /// It acknowledges more than was sent.
    BadAck,
}

/// Why a sender didn't return its messages.
#[derive(Clone, Copy, Debug, PartialEq, Eq, Error)]
pub enum RetrieveError {
    /// The number acknowledges more than was sent.
    BadAck,
    /// Memory ran out.
    NoMemory,
}

/// Why a receiver refused a unit.
#[derive(Clone, Copy, Debug, PartialEq, Eq, Error)]
pub enum UnitError {
    /// The forward indicator bit changed, but no negative acknowledgement requested that.
    BadIndicator,
}

impl fmt::Display for PutError {
    ghost output = { λ e. Some (put_error_text e) };

    fn fmt<W: fmt::Write>(&self, f: &mut fmt::Formatter<W>) -> fmt::Result {
        f.write_str(match self {
            Self::Full => "E1 Full",
        })
    }
}

impl fmt::Display for AckError {
    ghost output = { λ e. Some (ack_error_text e) };

    fn fmt<W: fmt::Write>(&self, f: &mut fmt::Formatter<W>) -> fmt::Result {
        f.write_str(match self {
            Self::BadAck => "E2 BadAck",
        })
    }
}

impl fmt::Display for RetrieveError {
    ghost output = { λ e. Some (retrieve_error_text e) };

    fn fmt<W: fmt::Write>(&self, f: &mut fmt::Formatter<W>) -> fmt::Result {
        f.write_str(match self {
            Self::BadAck => "E2 BadAck",
            Self::NoMemory => "NoMemory",
        })
    }
}

impl fmt::Display for UnitError {
    ghost output = { λ e. Some (unit_error_text e) };

    fn fmt<W: fmt::Write>(&self, f: &mut fmt::Formatter<W>) -> fmt::Result {
        f.write_str(match self {
            Self::BadIndicator => "E3 BadIndicator",
        })
    }
}
