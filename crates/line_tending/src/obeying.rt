//! Orders to a set and its links.
ghost use Rattle.std.specs.Prelude.{◌≡◌, ◌≤◌, ◌∷◌, [], true, false, Some, Err, IfErr, OnOk, OnErr, map, min, take, slice_get};
ghost use Rattle.group_changeover.specs.Labels.{label_in};
ghost use Rattle.group_changeover.specs.Sharing.{link_of, selections};
ghost use Rattle.link_group.specs.Commanding.{is_start};
ghost use Rattle.link_group.specs.Lines.{ByCommand, IsCommandError};
ghost use Rattle.link_group.specs.OneLink.{fault_of};
ghost use Rattle.link_group.specs.Reading.{message_at};
ghost use Rattle.line_tending.specs.Cares.{LAST};
ghost use Rattle.line_tending.specs.Giving.{IsLeft, IsDisobeyed};
ghost use Rattle.line_tending.specs.Readers.{is_put_off};
ghost use Rattle.line_tending.specs.Orders.{after_order};
ghost use Rattle.line_tending.specs.Rounds.{Acts, Adds, AddsOrders};
ghost use Rattle.line_tending.specs.Sending.{tended_send_fault, size_of, octets_in, held_by, is_full_of, is_full_at, finds_no_room};

use crate::tended_set::TendedSet;
use crate::told::Table;
use group_changeover::{Label, SendError};
use link_group::{CommandError, is_start};
use link_processes::Command;
use resend_store::Msu;

/// The number of messages with which a link is full.
const MOST_HELD: usize = 256;

/// The number of octets with which a link is full: 450 ms of a line, before any changeover order or answer is sent.
const MOST_OCTETS: usize = 3_000;

impl TendedSet {
    /// The octets of the message at a place among those that a link holds, or 0.
    fn octets_at(&self, link: usize, place: usize) -> usize
        ensures { result ≡ size_of (message_at place (slice_get self.now.set.links link)) }
    {
        match self.set.held_at(link, place) {
            Some(msu) => msu.sif.len() + 1,
            None => 0,
        }
    }

    /// The octets of the first `held` messages that a link holds.
    fn octets_held(&self, link: usize, held: usize) -> usize
        ensures { result ≡ min LAST (octets_in (take held (held_by (slice_get self.now.set.links link)))) }
    {
        let mut octets: usize = 0;
        for place in 0..held {
            octets = octets.saturating_add(self.octets_at(link, place));
        }
        octets
    }

    /// Whether a link is full.
    fn is_full(&self, link: usize) -> bool
        ensures { result ≡ is_full_of (slice_get self.now.set.links link) }
    {
        let held = self.set.held(link).unwrap_or(0);
        if held >= MOST_HELD {
            return true;
        }
        self.octets_held(link, held) >= MOST_OCTETS
    }

    /// Whether the link of a selection is full and not in changeover.
    fn lacks_room(&self, selection: u8) -> bool
        ensures { result ≡ is_full_at self.now.set (link_of self.now.set.table selection) }
    {
        match self.set.link_of(selection) {
            Some(link) => !self.set.in_changeover(link) && self.is_full(link),
            None => false,
        }
    }

    /// Whether a message isn't bound to a link and the link of its selection has no room for it.
    fn is_refused(&self, label: Label, msu: &Msu) -> bool
        requires { label_in msu.now.sif.items ≡ Some label }
        ensures { result ≡ finds_no_room self.now.set msu.now }
    {
        if self.set.is_bound(msu) {
            return false;
        }
        self.lacks_room(label.sls)
    }

    /// Takes a message to send, whose field begins with this label.
    ///
    /// # Errors
    ///
    /// `E1 Full` also if the link of its selection isn't in changeover but holds 256 messages or 3,000 octets, unless
    /// the message is bound to a link. Else those of [`link_group::Group::send`]. Nothing changes then.
    #[tactic(auto, unfolding(crate::specs::Sending::tended_send_fault))]
    pub fn send(&mut self, label: Label, msu: Msu) -> Result<(), SendError>
        requires { label_in msu.sif.items ≡ Some label }
        ensures fault { fault_of result ≡ tended_send_fault self.old.set msu }
        ensures ok { OnOk result (Acts (msu ∷ []) [] self.old self.new) }
        ensures err { OnErr result (self.new ≡ self.old) }
    {
        if self.is_refused(label, &msu) {
            return Err(SendError::Full);
        }
        match self.set.send(label, msu) {
            Ok(()) => Ok(()),
            Err(error) => Err(error),
        }
    }

    /// Gives a command to a link, unless it would end what holds because of the reader of messages.
    fn give_or_put_off(&mut self, link: usize, command: Command) -> Result<(), CommandError>
        ensures adds { Adds self.old self.new }
        ensures given { OnOk result (is_put_off self.old.reader command ≡ false → ByCommand command link self.old.set self.new.set) }
        ensures put_off { OnOk result (is_put_off self.old.reader command ≡ true → self.new ≡ self.old) }
        ensures err { IfErr result (IsLeft (IsCommandError command link self.old.set self.new.set)) }
    {
        if self.reader().puts_off(command) {
            return Ok(());
        }
        self.give(link, command)
    }

    /// Gives a command to a link, or puts it off, and records its effect in the link's state.
    fn carry_out(&mut self, link: usize, command: Command) -> Result<(), CommandError>
        ensures adds { AddsOrders self.old self.new }
        ensures given { OnOk result (is_put_off self.old.reader command ≡ false → ByCommand command link self.old.set self.new.set) }
        ensures put_off { OnOk result (is_put_off self.old.reader command ≡ true → self.new ≡ record self.old { ordered = self.new.ordered }) }
        ensures ordered { OnOk result (self.new.ordered ≡ after_order link command self.old.ordered) }
        ensures kept { OnErr result (self.new.ordered ≡ self.old.ordered) }
        ensures err { IfErr result (IsLeft (IsCommandError command link self.old.set self.new.set)) }
    {
        match self.give_or_put_off(link, command) {
            Ok(()) => {
                self.keep(link, self.care(link).obeyed(command));
                self.note_order(link, command);
                Ok(())
            }
            Err(error) => Err(error),
        }
    }

    /// Obeys an order to a link. With Start the link is started once that is due. While the reader of messages is away,
    /// Back and Free are kept until it is back.
    ///
    /// # Errors
    ///
    /// Those of [`link_group::Group::command`]; nothing changes in the set then, unless memory ran out while reporting
    /// unsure messages. For Start only that the link doesn't exist.
    pub fn obey(&mut self, link: usize, command: Command) -> Result<(), CommandError>
        ensures adds { AddsOrders self.old self.new }
        ensures start { OnOk result (is_start command ≡ true → self.new ≡ self.old) }
        ensures put_off { OnOk result (is_put_off self.old.reader command ≡ true → self.new ≡ record self.old { ordered = self.new.ordered }) }
        ensures ordered { OnOk result (is_start command ≡ false → self.new.ordered ≡ after_order link command self.old.ordered) }
        ensures kept { OnErr result (self.new.ordered ≡ self.old.ordered) }
        ensures other { OnOk result (is_start command ≡ false → is_put_off self.old.reader command ≡ false → ByCommand command link self.old.set self.new.set) }
        ensures none { self.old.plan.links ≤ link → result ≡ Err CommandError.NoLink }
        ensures err { IfErr result (IsDisobeyed command link self.old self.new) }
    {
        if link >= self.len() {
            return Err(CommandError::NoLink);
        }
        let care = self.care(link).asked(command, self.ticks);
        self.keep(link, care);
        if is_start(command) {
            return Ok(());
        }
        self.carry_out(link, command)
    }

    /// The links of selections, for the answer to a question.
    pub fn shared_out(&self) -> Table
        ensures { result.0 ≡ map (link_of self.now.set.table) selections }
    {
        Table(self.table())
    }
}
