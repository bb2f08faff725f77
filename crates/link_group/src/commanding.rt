//! Commands to a link.
ghost use Rattle.std.specs.Prelude.{◌≡◌, ◌<◌, ◌++◌, length, Some, IfOk};
ghost use Rattle.link_group.specs.Commanding.{command_error_text, is_start, is_barred, starts_anew, marked, cleared_of, clears, cleared_by, Commands};
ghost use Rattle.group_changeover.specs.Bound.{unbound};
ghost use Rattle.link_group.specs.OneLink.{fault_of, held, with_availability};

use crate::link::Link;
use actor_machine::Refusal;
use link_processes::Command;
use link_term::CallError;
use std::fmt;
use thiserror::Error;

/// Why a command isn't given to a link.
#[derive(Clone, Copy, Debug, PartialEq, Eq, Error)]
pub enum CommandError {
    /// There is no such link.
    NoLink,
    /// The command is Start, and the messages of a changeover aren't retrieved yet.
    Waiting,
    /// The terminal refuses the command.
    Refused(Refusal),
    /// There is no memory to make room in the terminal's journal.
    NoMemory,
}

impl fmt::Display for CommandError {
    ghost output = { λ e. Some (command_error_text e) };

    fn fmt<W: fmt::Write>(&self, f: &mut fmt::Formatter<W>) -> fmt::Result {
        match self {
            Self::NoLink => f.write_str("K1 NoLink"),
            Self::Waiting => f.write_str("K2 Waiting"),
            Self::Refused(refusal) => f.write_str(refusal.name()),
            Self::NoMemory => f.write_str("out of memory"),
        }
    }
}

/// Whether a command starts a link.
pub fn is_start(command: Command) -> bool
    ensures { result ≡ is_start command }
{
    match command {
        Command::Start => true,
        Command::PowerOn
        | Command::Stop
        | Command::Emergency
        | Command::Calm
        | Command::Outage
        | Command::Back
        | Command::Busy
        | Command::Free
        | Command::Flush
        | Command::Continue
        | Command::Overload => false,
    }
}

impl Link {
    /// Whether a command has to wait until messages are retrieved.
    fn bars(&self, command: Command) -> bool
        ensures { result ≡ is_barred command self.now }
    {
        if !is_start(command) {
            return false;
        }
        match self.availability.changing {
            Some(changing) => changing.retrieval.is_none(),
            None => false,
        }
    }

    /// Whether a command that its terminal accepts restarts the link.
    fn starts_anew(&self, command: Command) -> bool
        ensures { result ≡ starts_anew command self.now }
    {
        if !is_start(command) {
            return false;
        }
        !self.terminal.in_service()
    }

    /// Marks the link as restarted, if so.
    fn mark(&mut self, anew: bool)
        ensures { self.new ≡ with_availability (marked anew self.old.availability) self.old }
    {
        if anew {
            self.availability.anew = true;
        }
    }

    /// Clears the buffers if the text requested it. Returns how many messages not bound to the link went.
    #[tactic(auto, using(crate::proofs::Renewing::unbound_among))]
    fn clear(&mut self) -> usize
        ensures count { result ≡ length (unbound self.old.points (cleared_of self.old.terminal)) }
        ensures kept { held self.old ≡ cleared_of self.old.terminal ++ held self.new }
        ensures link { self.new ≡ clears self.old }
    {
        let cleared = self.terminal.to_clear();
        let bound = self.bound_among(cleared);
        let _cleared = self.terminal.obey_clear();
        self.availability = self.availability.fewer(cleared);
        cleared - bound
    }

    /// Gives the terminal a command, then clears the buffers if requested. Returns how many unbound messages went.
    ///
    /// # Errors
    ///
    /// `K2 Waiting` for Start in a changeover whose messages aren't retrieved yet: nothing changes. Otherwise those of
    /// `Terminal::command`.
    pub(crate) fn command(&mut self, command: Command) -> Result<usize, CommandError>
        ensures did { Commands command (fault_of result) self.old self.new }
        ensures cleared { IfOk result (λ count. count ≡ length (cleared_by command self.old)) }
    {
        if self.bars(command) {
            return Err(CommandError::Waiting);
        }
        let anew = self.starts_anew(command);
        match self.terminal.command(command) {
            Ok(()) => {
                self.mark(anew);
                Ok(self.clear())
            }
            Err(CallError::Refused(refusal)) => Err(CommandError::Refused(refusal)),
            Err(CallError::NoMemory) => Err(CommandError::NoMemory),
        }
    }
}
