//! Commands, ticks, and units to send.
ghost use Rattle.std.specs.Prelude.{◌≡◌, true, false, None, IsOk, OnOk, OnErr, IfOk, IfErr, IfSome};
ghost use Rattle.su_octets.specs.Whole.{IsWhole};
ghost use Rattle.actor_machine.specs.Ledger.{ask};
ghost use Rattle.actor_machine.specs.declared.event.Event.TheVariants.{Advance};
ghost use Rattle.actor_machine.specs.declared.reply.Reply.TheVariants as reply;
ghost use Rattle.link_processes.specs.Offering.{command_event};
ghost use Rattle.link_processes.specs.Machine.{offered, sent, tidied, is_low, tick_refusal};
ghost use Rattle.link_term.specs.Kept.{Keeps, Sends};
ghost use Rattle.link_term.specs.Term.{with_processes, IsAnswer, IsTickError, Leaves};

use crate::answers::CallError;
use crate::terminal::Terminal;
use actor_machine::Refusal;
use link_processes::Command;
use std::alloc::AllocError;
use su_octets::Unit;

impl Terminal {
    /// Gives a command to the actors, which then run to rest. If fewer than half of the journal's places are free, room
    /// is made there first.
    ///
    /// # Errors
    ///
    /// `NoMemory` if making room runs out of memory: nothing changes. Otherwise the refusals of `Book::offer`.
    pub fn command(&mut self, command: Command) -> Result<(), CallError>
        ensures answer { let t = tidied self.old.processes in IsAnswer (λ _. reply.Offered) result (ask t.book (command_event t.names command)).answer }
        ensures ok { let t = tidied self.old.processes in OnOk result (self.new ≡ with_processes self.old (offered (command_event t.names command) t)) }
        ensures keeps { Keeps self.old self.new }
        ensures err { IfErr result (Leaves self.old self.new) }
    {
        if self.processes.tidy().is_err() {
            return Err(CallError::NoMemory);
        }
        self.processes.command(command).map_err(CallError::Refused)
    }

    /// Lets so many ticks pass, one per millisecond, and the actors run to rest. Returns how many timers were due.
    /// Makes room in the journal first, as `command` does.
    ///
    /// # Errors
    ///
    /// `NoMemory` as for `command`, but not right after `make_room`. Otherwise what `advance_refusal` says.
    pub fn tick(&mut self, ticks: u64) -> Result<usize, CallError>
        ensures answer { IsAnswer reply.Passed result (ask (tidied self.old.processes).book (Advance ticks)).answer }
        ensures ok { OnOk result (self.new ≡ with_processes self.old (offered (Advance ticks) (tidied self.old.processes))) }
        ensures passes { OnOk result (tick_refusal ticks (tidied self.old.processes) ≡ None) }
        ensures refuses { IfErr result (IsTickError ticks self.old.processes) }
        ensures sure { is_low self.old.processes ≡ false → tick_refusal ticks self.old.processes ≡ None → IsOk result }
        ensures keeps { Keeps self.old self.new }
        ensures err { IfErr result (Leaves self.old self.new) }
    {
        if self.processes.tidy().is_err() {
            return Err(CallError::NoMemory);
        }
        self.processes.tick(ticks).map_err(CallError::Refused)
    }

    /// The next unit to send; none before the first Line signal (Q.703, sections 5, 6, 9 and 11). Transmission control
    /// is told of each message sent. Makes room in the journal first, as `command` does.
    ///
    /// # Errors
    ///
    /// If making room runs out of memory. Then nothing changes.
    pub fn unit_out(&mut self) -> Result<Option<Unit>, AllocError>
        ensures unit { IfOk result (λ unit. unit ≡ (sent (tidied self.old.processes)).unit) }
        ensures ok { OnOk result (self.new ≡ with_processes self.old (sent (tidied self.old.processes)).processes) }
        ensures whole { IfOk result (λ unit. IfSome unit IsWhole) }
        ensures sends { Sends 1 self.old self.new }
        ensures err { OnErr result (self.new ≡ self.old) }
        ensures low { OnErr result (is_low self.old.processes ≡ true) }
    {
        self.processes.tidy()?;
        Ok(self.processes.send_unit())
    }

    /// Makes room in the journal if fewer than half of its places are free, as a command, a tick or a unit would. The
    /// next such call then needs no memory for that.
    ///
    /// # Errors
    ///
    /// If memory runs out. Then nothing changes.
    pub fn make_room(&mut self) -> Result<(), AllocError>
        ensures ok { OnOk result (self.new ≡ with_processes self.old (tidied self.old.processes)) }
        ensures room { OnOk result (is_low self.new.processes ≡ false) }
        ensures transceiver { self.new.processes.transceiver ≡ self.old.processes.transceiver }
        ensures err { OnErr result (self.new ≡ self.old) }
        ensures low { OnErr result (is_low self.old.processes ≡ true) }
    {
        self.processes.tidy()
    }

    /// Why `tick` would refuse so many ticks now, if it would, in this order: `W1 TooFar` for more than 65,535, `W2
    /// ClockFull` past clock 2^62, `B8 JournalFull`. If it is none right after `make_room`, `tick` succeeds.
    pub fn advance_refusal(&self, ticks: u64) -> Option<Refusal>
        ensures { result ≡ tick_refusal ticks self.now.processes }
    {
        self.processes.tick_refusal(ticks)
    }
}
