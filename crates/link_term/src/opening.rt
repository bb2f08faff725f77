//! New terminals.
ghost use Rattle.std.specs.Prelude.{◌≡◌, All, IfOk, IfErr};
ghost use Rattle.actor_machine.specs.Kept.{opened_book};
ghost use Rattle.link_processes.specs.Known.{AreNames};
ghost use Rattle.link_processes.specs.Wanted.{wanted, Has};
ghost use Rattle.link_term.specs.Opening.{PORT, ENVIRONMENT, JOURNAL, IsOver, IsOverWithin, IsRefusedOver};

use crate::terminal::Terminal;
use link_processes::{Book, Limits, Names, Wanted};
use resend_store::{Mode, RoundLimits, USUAL_LIMITS};
use std::alloc::{AllocError, Global};
use std::fmt;
use thiserror::Error;
use turn_check::Verified;

/// Why there is no terminal over a set.
#[derive(Clone, Copy, PartialEq, Eq, Debug, Error)]
pub enum OpenError {
    /// `X2 NoName`: the set doesn't meet a requirement of a terminal. It is the first one, in the order in which they
    /// are checked.
    NoName(Wanted),
    /// Memory runs out.
    NoMemory,
}

impl fmt::Display for OpenError {
    ghost use Rattle.std.specs.Prelude.{Some};
    ghost use Rattle.link_term.specs.Printed.{open_error_text};

    ghost output = { λ e. Some (open_error_text e) };

    fn fmt<W: fmt::Write>(&self, f: &mut fmt::Formatter<W>) -> fmt::Result {
        match self {
            Self::NoName(name) => write!(f, "X2 NoName {name}"),
            Self::NoMemory => f.write_str("out of memory"),
        }
    }
}

/// How many signals a port of a terminal may hold.
const PORT: usize = 64;

/// How many signals may wait for a terminal's environment.
const ENVIRONMENT: usize = 1_024;

/// How many events a terminal's journal may hold.
const JOURNAL: usize = 65_536;

/// The book of a terminal's set.
fn open_book(alloc: Global, set: &Verified) -> Result<Book, AllocError>
    ensures { IfOk result (λ b. b ≡ opened_book set.now PORT ENVIRONMENT JOURNAL) }
{
    match Limits::new(PORT, ENVIRONMENT, JOURNAL) {
        Some(limits) => Book::open(alloc, set, limits),
        None => unreachable!(),
    }
}

/// A terminal over a set that meets all requirements, with these numbers.
fn open_terminal(
    alloc: Global,
    set: &Verified,
    names: Names,
    limits: RoundLimits,
    mode: Mode,
) -> Result<Terminal, AllocError>
    requires names { AreNames set.now names }
    requires all { All (Has set.now) wanted }
    ensures { IfOk result (IsOverWithin set.now limits mode) }
{
    let book = open_book(alloc, set)?;
    Terminal::of_book(alloc, book, names, limits, mode)
}

impl Terminal {
    /// A terminal over a set of processes (Q.703), out of service and before its power is switched on.
    ///
    /// The set needs these names, case ignored. Processes: LSC, AERM, SUERM, TXC, RC and CC. Routes from ENV to LSC
    /// with PowerOn, StartLink, StopLink, Emergency, Calm, LocalOut and LocalBack; to CC with Busy and Free; to AERM
    /// and to SUERM with Good and Errored; to TXC with AckSeen(Boolean) and MsuSent; to RC with Bad and Unit(Integer).
    /// Routes from some process to ENV with Fresh, Take(Boolean), Line(Integer), Withhold(Boolean), InServiceNow,
    /// Down(Integer), RemoteOut and RemoteBack. All else is free, except these optional names, allowed only in this
    /// form: from ENV to LSC Flush and Continue, to CC Overload, to RC Odd(Integer), to AERM and SUERM
    /// Counting(Boolean), both or neither; from some process to ENV Deliver(Boolean), Clear and Cleared.
    ///
    /// # Errors
    ///
    /// `X2 NoName` with the first required name that is missing, has other parameters or no such route, or the first
    /// optional name on a route from or to ENV in another form. `NoMemory`, for a set without such faults.
    pub fn of_set(alloc: Global, mode: Mode, set: &Verified) -> Result<Terminal, OpenError>
        ensures ok { IfOk result (IsOver set.now mode) }
        ensures err { IfErr result (IsRefusedOver set.now) }
    {
        Terminal::of_set_within(alloc, USUAL_LIMITS, mode, set)
    }

    /// As `of_set`, with these limits of forced retransmission (Q.703, 6.4). They apply only in cyclic retransmission.
    ///
    /// # Errors
    ///
    /// Those of `of_set`.
    pub fn of_set_within(
        alloc: Global,
        limits: RoundLimits,
        mode: Mode,
        set: &Verified,
    ) -> Result<Terminal, OpenError>
        ensures ok { IfOk result (IsOverWithin set.now limits mode) }
        ensures err { IfErr result (IsRefusedOver set.now) }
    {
        match Names::find(set) {
            Ok(names) => match open_terminal(alloc, set, names, limits, mode) {
                Ok(terminal) => Ok(terminal),
                Err(_) => Err(OpenError::NoMemory),
            },
            Err(name) => Err(OpenError::NoName(name)),
        }
    }
}
