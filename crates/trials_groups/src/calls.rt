//! Calls of a set. One that runs out of memory is made once more, since it changed nothing. Contracts end here.

use group_changeover::{AbandonError, LineError, RetrieveError};
use line_tending::{CommandError, Group};
use link_processes::Command;
use link_term::CallError;
use std::alloc::AllocError;

/// Why a trial stopped.
#[derive(Clone, Copy)]
pub enum Stopped {
    /// Memory ran out.
    NoMemory,
    /// A terminal wasn't made or refused a command, or there is no such link.
    Refused,
    /// A line isn't a run.
    BadLine,
}

impl From<AllocError> for Stopped {
    fn from(_error: AllocError) -> Stopped {
        Stopped::NoMemory
    }
}

/// Why a link refused a command; none for Start before the messages of its changeover are retrieved.
fn why_untold(error: CommandError) -> Option<Stopped> {
    match error {
        CommandError::Waiting => None,
        CommandError::NoMemory => Some(Stopped::NoMemory),
        CommandError::NoLink => Some(Stopped::Refused),
        CommandError::Refused(_) => Some(Stopped::Refused),
    }
}

/// Gives a command to a link. Returns whether it accepted it: Start may have to wait.
fn tell_once(group: &mut Group, link: usize, command: Command) -> Result<bool, Stopped> {
    match group.command(link, command) {
        Ok(()) => Ok(true),
        Err(error) => match why_untold(error) {
            Some(stopped) => Err(stopped),
            None => Ok(false),
        },
    }
}

/// As `tell_once`, tried once more if memory runs out.
pub fn tell(group: &mut Group, link: usize, command: Command) -> Result<bool, Stopped> {
    match tell_once(group, link, command) {
        Err(Stopped::NoMemory) => tell_once(group, link, command),
        told => told,
    }
}

/// Lets milliseconds pass.
fn pass_once(group: &mut Group, ticks: u64) -> Result<(), Stopped> {
    match group.tick(ticks) {
        Ok(_) => Ok(()),
        Err(CallError::NoMemory) => Err(Stopped::NoMemory),
        Err(CallError::Refused(_)) => Err(Stopped::Refused),
    }
}

/// As `pass_once`, tried once more if memory runs out.
pub fn pass(group: &mut Group, ticks: u64) -> Result<(), Stopped> {
    match pass_once(group, ticks) {
        Err(Stopped::NoMemory) => pass_once(group, ticks),
        passed => passed,
    }
}

/// The line octets of so many units of a link.
fn speak_once(group: &mut Group, link: usize, units: usize) -> Result<Vec<u8>, Stopped> {
    match group.line_out(link, units) {
        Ok(octets) => Ok(octets),
        Err(LineError::NoMemory) => Err(Stopped::NoMemory),
        Err(LineError::NoLink) => Err(Stopped::Refused),
    }
}

/// As `speak_once`, tried once more if memory runs out.
pub fn speak(group: &mut Group, link: usize, units: usize) -> Result<Vec<u8>, Stopped> {
    match speak_once(group, link, units) {
        Err(Stopped::NoMemory) => speak_once(group, link, units),
        spoken => spoken,
    }
}

/// Gives a link line octets. Returns how many it took; none if there is no such link.
pub fn take(group: &mut Group, link: usize, octets: &[u8]) -> usize {
    group.line_in(link, octets).unwrap_or(0)
}

/// Retrieves the messages of a link, and returns how many there are. Tried once more if memory runs out.
pub fn retrieve(group: &mut Group, link: usize) -> Result<usize, RetrieveError> {
    match group.retrieve(link) {
        Err(RetrieveError::NoMemory) => group.retrieve(link),
        handed => handed,
    }
}

/// Gives up the unsure messages, and returns how many are retrieved. Tried once more if memory runs out.
pub fn abandon(group: &mut Group, link: usize) -> Result<usize, AbandonError> {
    match group.abandon(link) {
        Err(AbandonError::NoMemory) => group.abandon(link),
        handed => handed,
    }
}

/// Whether a link is in service.
pub fn serves(group: &Group, link: usize) -> bool {
    match group.terminal(link) {
        Some(terminal) => terminal.in_service(),
        None => false,
    }
}
