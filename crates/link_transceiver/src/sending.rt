//! The units sent.
ghost use Rattle.std.specs.Prelude.{◌≡◌, ◌<◌, IfSome};
ghost use Rattle.resend_store.specs.Messages.{IsMessage};
ghost use Rattle.su_octets.specs.Whole.{IsWhole, IsWholeHead};
ghost use Rattle.link_transceiver.specs.TransceiverState.{IsBackward};
ghost use Rattle.link_transceiver.specs.Going.{gives, backward_out, head_with, idle_head, quiet, filled, status_gone, fill_in_gone, sender_gone, message_gone, gone};

use crate::offers::{Notice, Offer, Party, UnitOut};
use crate::signals::{BUSY, Backward, LineKind};
use crate::transceiver::Transceiver;
use resend_store::{Msu, Outgoing, Sender};
use su_octets::{Head, Unit};

impl Transceiver {
    /// The next unit to send, and the offer that goes with it; none before the first `EnvSignal::Line`.
    ///
    /// A requested busy unit is sent first. Otherwise the last other `EnvSignal::Line` decides: LSSUs with its code,
    /// fill-in units, or the sender's units (Q.703, 11.1.3 and sections 5, 6 and 9). While level 3 holds the link,
    /// fill-in units replace the sender's. A unit without a message has the numbers of a fill-in unit.
    #[tactic(auto, unfolding(crate::specs::Going::gone))]
    pub fn unit_out(&mut self) -> Option<UnitOut>
        ensures out { result ≡ (gone self.old).out }
        ensures transceiver { self.new ≡ (gone self.old).transceiver }
        ensures whole { IfSome result (λ out. IsWhole out.unit) }
    {
        if self.busy {
            self.busy = false;
            return Some(self.status(BUSY));
        }
        match self.line {
            None => None,
            Some(LineKind::Status(code)) => Some(self.status(code)),
            Some(LineKind::FillIn) => Some(self.fill_in()),
            Some(LineKind::Messages) => Some(self.message()),
        }
    }

    /// A link status signal unit with this code.
    fn status(&self, code: u8) -> UnitOut
        ensures out { Some result ≡ (status_gone self.now code).out }
        ensures whole { IsWhole result.unit }
    {
        quiet(Unit::Lssu(self.idle_head(), code, None))
    }

    /// A fill-in unit.
    fn fill_in(&self) -> UnitOut
        ensures out { Some result ≡ (fill_in_gone self.now).out }
        ensures whole { IsWhole result.unit }
    {
        quiet(Unit::Fisu(self.idle_head()))
    }

    /// A message, or a fill-in unit if none is to be sent.
    fn message(&mut self) -> UnitOut
        ensures out { Some result ≡ (message_gone self.old).out }
        ensures transceiver { self.new ≡ (message_gone self.old).transceiver }
        ensures whole { IsWhole result.unit }
    {
        if self.hold.is_held() {
            self.fill_in()
        } else {
            self.next_unit()
        }
    }

    /// The head of a unit that doesn't come from the sender.
    #[tactic(auto, unfolding(crate::specs::Going::idle_head, crate::specs::Going::idle_fsn))]
    fn idle_head(&self) -> Head
        ensures value { result ≡ idle_head self.now }
        ensures whole { IsWholeHead result }
    {
        self.head_with(self.sender.fsn(), self.sender.fib())
    }

    /// A head with this forward number and bit.
    fn head_with(&self, fsn: u8, fib: u8) -> Head
        requires fsn { fsn < 128 }
        requires fib { fib < 2 }
        ensures value { result ≡ head_with self.now fsn fib }
        ensures whole { IsWholeHead result }
    {
        let Backward { bsn, bib } = self.backward_out();
        Head { bsn, bib, fsn, fib }
    }

    /// The backward number and bit to send.
    fn backward_out(&self) -> Backward
        ensures value { result ≡ backward_out self.now }
        ensures whole { IsBackward result }
    {
        match self.withheld {
            Some(backward) => backward,
            None => self.backward(),
        }
    }

    /// The sender's next unit.
    fn next_unit(&mut self) -> UnitOut
        ensures out { Some result ≡ (sender_gone self.old (gives self.old.sender)).out }
        ensures transceiver { self.new ≡ (sender_gone self.old (gives self.old.sender)).transceiver }
        ensures whole { IsWhole result.unit }
    {
        let Outgoing { fsn, fib, msu } = give(&mut self.sender);
        if msu.is_some() {
            self.spare = 0;
        }
        filled(self.head_with(fsn, fib), msu)
    }
}

/// The next unit of a sender.
#[tactic(auto, unfolding(crate::specs::Going::gives))]
fn give(sender: &mut Sender) -> Outgoing
    ensures unit { result ≡ (gives sender.old).unit }
    ensures left { sender.new ≡ (gives sender.old).left }
    ensures number { result.fsn < 128 }
    ensures indicator { result.fib < 2 }
    ensures message { IfSome result.msu IsMessage }
{
    sender.next_unit()
}

/// A unit with this head, with or without a message.
fn filled(head: Head, msu: Option<Msu>) -> UnitOut
    requires head { IsWholeHead head }
    requires message { IfSome msu IsMessage }
    ensures value { result ≡ filled head msu }
    ensures whole { IsWhole result.unit }
{
    match msu {
        Some(Msu { sio, sif }) => UnitOut {
            unit: Unit::Msu(head, sio, sif),
            offer: Some(Offer {
                to: Party::Txc,
                notice: Notice::MsuSent,
            }),
        },
        None => quiet(Unit::Fisu(head)),
    }
}

/// A unit whose sending isn't reported to any actor.
fn quiet(unit: Unit) -> UnitOut
    ensures { result ≡ quiet unit }
{
    UnitOut { unit, offer: None }
}
