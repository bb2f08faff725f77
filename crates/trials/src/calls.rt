//! Calls of a terminal, and why they stop a trial. Trials show behaviour that no contract states.
ghost use Rattle.std.specs.Prelude.{◌≤◌, length};

use link_processes::Command;
use link_transceiver::Report;
use link_whole::{CallError, NewError, NewInMode, OpenError, Terminal};
use resend_store::{Mode, Msu};
use std::alloc::{AllocError, Global};

/// Why a trial stopped.
#[derive(Clone, Copy)]
pub enum Stopped {
    /// Memory ran out.
    NoMemory,
    /// A terminal couldn't be made or refused a command; or a text or its limits are refused.
    Refused,
    /// A line is no step, run or round, or its kind of trial doesn't exist.
    BadLine,
    /// The clock can't be read.
    NoClock,
}

impl From<AllocError> for Stopped {
    fn from(_error: AllocError) -> Stopped {
        Stopped::NoMemory
    }
}

/// Why a trial stops when a terminal refuses a call.
fn why_stopped(error: CallError) -> Stopped {
    match error {
        CallError::NoMemory => Stopped::NoMemory,
        CallError::Refused(_) => Stopped::Refused,
    }
}

/// A new terminal.
pub fn terminal(alloc: Global, mode: Mode) -> Result<Terminal, Stopped> {
    match Terminal::new(alloc, mode) {
        Ok(terminal) => Ok(terminal),
        Err(error) => Err(why_not_made(&error)),
    }
}

/// Why a trial stops when a terminal can't be made.
fn why_not_made(error: &NewError) -> Stopped {
    match error {
        NewError::Load(_) => Stopped::Refused,
        NewError::Open(error) => why_not_opened(error),
    }
}

/// Why a trial stops when a terminal can't be made from a set.
fn why_not_opened(error: &OpenError) -> Stopped {
    match error {
        OpenError::NoName(_) => Stopped::Refused,
        OpenError::NoMemory => Stopped::NoMemory,
    }
}

/// Gives a terminal a command.
pub fn tell(terminal: &mut Terminal, command: Command) -> Result<(), Stopped> {
    match terminal.command(command) {
        Ok(()) => Ok(()),
        Err(error) => Err(why_stopped(error)),
    }
}

/// Lets milliseconds pass at a terminal.
pub fn pass(terminal: &mut Terminal, ticks: u64) -> Result<(), Stopped> {
    match terminal.tick(ticks) {
        Ok(_) => Ok(()),
        Err(error) => Err(why_stopped(error)),
    }
}

/// Gives a terminal a message to send, and returns whether it took it.
pub fn put(terminal: &mut Terminal, msu: Msu) -> bool
    requires { 2 ≤ length msu.sif.items }
{
    terminal.put(msu).is_ok()
}

/// The number of messages at a terminal that haven't been sent yet in this spell.
pub fn waiting(terminal: &Terminal) -> usize {
    terminal.held().saturating_sub(terminal.sent())
}

/// The line octets of this many units.
pub fn speak(terminal: &mut Terminal, units: usize) -> Result<Vec<u8>, Stopped> {
    match terminal.line_out(units) {
        Ok(octets) => Ok(octets),
        Err(_) => Err(Stopped::NoMemory),
    }
}

/// Gives a terminal line octets, and returns how many it took.
pub fn take(terminal: &mut Terminal, octets: &[u8]) -> usize
    ensures { result ≤ length octets.now }
{
    terminal.line_in(octets)
}

/// Gives a terminal line octets, and returns whether it took all of them.
pub fn hear(terminal: &mut Terminal, octets: &[u8]) -> bool {
    take(terminal, octets) == octets.len()
}

/// The next report of a terminal.
pub fn next_report(terminal: &mut Terminal) -> Option<Report> {
    terminal.report()
}
