//! Why a call of a link set is refused.

ghost use Rattle.std.specs.Prelude.{Some};
ghost use Rattle.group_changeover.specs.Printed.{send_error_text, bind_error_text, fail_error_text, retrieve_error_text, abandon_error_text, divert_fault_text, rebalance_error_text, link_error_text, line_error_text};

use std::fmt;
use thiserror::Error;

/// Why a message isn't taken.
#[derive(Clone, Copy, Debug, PartialEq, Eq, Error)]
pub enum SendError {
    /// It is bound to a link: the link must be named.
    Bound,
    /// Its selection has no link, or that link isn't in changeover and is out of service, held or not admitted.
    NoLink,
    /// Its link is in changeover.
    Waiting,
    /// 1,024 messages or more wait with its link.
    Full,
}

/// Why a message that is bound to a link isn't taken.
#[derive(Clone, Copy, Debug, PartialEq, Eq, Error)]
pub enum BindError {
    /// There is no such link, or it is out of service or held.
    NoLink,
    /// It holds 1,151 messages.
    Full,
}

/// Why no changeover begins.
#[derive(Clone, Copy, Debug, PartialEq, Eq, Error)]
pub enum FailError {
    /// There is no such link.
    NoLink,
    /// Its changeover is under way.
    Waiting,
}

/// Why messages aren't handed out.
#[derive(Clone, Copy, Debug, PartialEq, Eq, Error)]
pub enum RetrieveError {
    /// There is no such link, or no changeover of it is under way.
    NoLink,
    /// They are already handed out, or there is no answer and the changeover began fewer than 1,400 ticks ago.
    Waiting,
    /// It isn't known whether so many messages have arrived.
    Unsure(usize),
    /// Memory ran out.
    NoMemory,
}

/// Why messages aren't given up.
#[derive(Clone, Copy, Debug, PartialEq, Eq, Error)]
pub enum AbandonError {
    /// There is no such link, or no changeover of it is under way.
    NoLink,
    /// `retrieve` isn't refused as unsure.
    Waiting,
    /// Memory ran out.
    NoMemory,
}

/// Why retrieved messages aren't diverted.
#[derive(Clone, Copy, Debug, PartialEq, Eq, Error)]
pub enum DivertFault {
    /// No link may take them: neither their own link nor one not in changeover is in service, not held and admitted.
    NoLink,
    /// The link that must take those of a selection, or all of them if they go back, would hold more than 1,151.
    Full,
}

/// Why a set isn't rebalanced.
#[derive(Clone, Copy, Debug, PartialEq, Eq, Error)]
pub enum RebalanceError {
    /// A changeover is under way.
    Waiting,
    /// A selection that would move has messages held by its link.
    NotEmpty,
}

/// Why a call to a link does nothing.
#[derive(Clone, Copy, Debug, PartialEq, Eq, Error)]
pub enum LinkError {
    /// There is no such link.
    NoLink,
}

/// Why nothing is sent on a link.
#[derive(Clone, Copy, Debug, PartialEq, Eq, Error)]
pub enum LineError {
    /// There is no such link.
    NoLink,
    /// Memory ran out.
    NoMemory,
}

impl fmt::Display for SendError {
    ghost output = { λ e. Some (send_error_text e) };

    fn fmt<W: fmt::Write>(&self, f: &mut fmt::Formatter<W>) -> fmt::Result {
        f.write_str(match self {
            Self::Bound => "K5 Bound",
            Self::NoLink => "K1 NoLink",
            Self::Waiting => "K2 Waiting",
            Self::Full => "E1 Full",
        })
    }
}

impl fmt::Display for BindError {
    ghost output = { λ e. Some (bind_error_text e) };

    fn fmt<W: fmt::Write>(&self, f: &mut fmt::Formatter<W>) -> fmt::Result {
        f.write_str(match self {
            Self::NoLink => "K1 NoLink",
            Self::Full => "E1 Full",
        })
    }
}

impl fmt::Display for FailError {
    ghost output = { λ e. Some (fail_error_text e) };

    fn fmt<W: fmt::Write>(&self, f: &mut fmt::Formatter<W>) -> fmt::Result {
        f.write_str(match self {
            Self::NoLink => "K1 NoLink",
            Self::Waiting => "K2 Waiting",
        })
    }
}

impl fmt::Display for RetrieveError {
    ghost output = { λ e. Some (retrieve_error_text e) };

    fn fmt<W: fmt::Write>(&self, f: &mut fmt::Formatter<W>) -> fmt::Result {
        match self {
            Self::NoLink => f.write_str("K1 NoLink"),
            Self::Waiting => f.write_str("K2 Waiting"),
            Self::Unsure(count) => write!(f, "K4 Unsure {count}"),
            Self::NoMemory => f.write_str("out of memory"),
        }
    }
}

impl fmt::Display for AbandonError {
    ghost output = { λ e. Some (abandon_error_text e) };

    fn fmt<W: fmt::Write>(&self, f: &mut fmt::Formatter<W>) -> fmt::Result {
        f.write_str(match self {
            Self::NoLink => "K1 NoLink",
            Self::Waiting => "K2 Waiting",
            Self::NoMemory => "out of memory",
        })
    }
}

impl fmt::Display for DivertFault {
    ghost output = { λ e. Some (divert_fault_text e) };

    fn fmt<W: fmt::Write>(&self, f: &mut fmt::Formatter<W>) -> fmt::Result {
        f.write_str(match self {
            Self::NoLink => "K1 NoLink",
            Self::Full => "E1 Full",
        })
    }
}

impl fmt::Display for RebalanceError {
    ghost output = { λ e. Some (rebalance_error_text e) };

    fn fmt<W: fmt::Write>(&self, f: &mut fmt::Formatter<W>) -> fmt::Result {
        f.write_str(match self {
            Self::Waiting => "K2 Waiting",
            Self::NotEmpty => "K3 NotEmpty",
        })
    }
}

impl fmt::Display for LinkError {
    ghost output = { λ e. Some (link_error_text e) };

    fn fmt<W: fmt::Write>(&self, f: &mut fmt::Formatter<W>) -> fmt::Result {
        f.write_str(match self {
            Self::NoLink => "K1 NoLink",
        })
    }
}

impl fmt::Display for LineError {
    ghost output = { λ e. Some (line_error_text e) };

    fn fmt<W: fmt::Write>(&self, f: &mut fmt::Formatter<W>) -> fmt::Result {
        f.write_str(match self {
            Self::NoLink => "K1 NoLink",
            Self::NoMemory => "out of memory",
        })
    }
}
