//! A terminal's actors and its transceiver.
ghost use Rattle.std.specs.Prelude.{◌≡◌, ◌+◌, ◌<◌, ◌≤◌, ◌↔◌, [], true, false, length, drop, All, None, Some, Err, IfOk, OnOk, OnErr, IfErr, IfSome};
ghost use Rattle.resend_store.specs.Messages.{IsMessage};
ghost use Rattle.resend_store.specs.Window.{retrieved, count_known};
ghost use Rattle.su_octets.specs.Whole.{IsWhole};
ghost use Rattle.actor_machine.specs.Ledger.{ask};
ghost use Rattle.actor_machine.specs.declared.event.Event.TheVariants.{Advance};
ghost use Rattle.actor_machine.specs.declared.reply.Reply.TheVariants as reply;
ghost use Rattle.actor_book.specs.Answered.{answer_by};
ghost use Rattle.link_transceiver.specs.Laws.{Loses};
ghost use Rattle.link_transceiver.specs.Limits.{KEPT_MESSAGES};
ghost use Rattle.link_transceiver.specs.TransceiverState.{kept_of, sent_of};
ghost use Rattle.link_processes.specs.Known.{is_there};
ghost use Rattle.link_processes.specs.Offering.{command_event, offer_event};
ghost use Rattle.link_processes.specs.Machine.{with_book, with_transceiver, heard, rested, offered, all_offered, noted_by, unit_taken, error_taken, octets_taken, told_of, none_out, handed_out, buffers_emptied, clear_obeyed, to_clear, hears_counting, differs, counting_told, sent, tidied, is_low, tick_refusal};

use crate::commands::{Command, command_number, command_signal};
use crate::laws::{accepted_messages_wait_in_order, unacknowledged_messages_stay};
use crate::names::{Names, actor_of, is_there, notice_signal, notice_values};
use actor_book::Book;
use actor_machine::Refusal;
use link_transceiver::{
    Measures, Notice, Offer, Party, Transceiver, UnitOut, counting_offers, error_offers, seen_of,
};
use resend_store::{Msu, RetrieveError};
use std::alloc::AllocError;
use std::collections::VecDeque;
use su_octets::Unit;

/// `tidy` makes room if fewer places of the journal than this are free.
pub const LOW: usize = 32_768;

/// The actors of a terminal, its transceiver, and the numbers of the signals between the two.
///
/// Only `tidy` and `retrieve` can run out of memory.
#[derive(Drop)]
pub struct Processes {
    pub book: Book,
    pub transceiver: Transceiver,
    pub names: Names,
    /// Whether octets are counted, as the monitors were last told.
    pub counting: bool,
    /// What was measured (ITU-T Q.752).
    pub measures: Measures,
    /// How many proving periods were aborted. The count stops at 2^64 - 1.
    pub aborted: u64,
}

/// Whether the two differ.
fn differs(on: bool, told: bool) -> bool
    ensures { result ≡ differs on told }
{
    if on { !told } else { told }
}

impl Processes {
    /// Gives the actors a command, and lets them run to rest.
    ///
    /// # Errors
    ///
    /// Those of `Book::offer`. Then nothing changes.
    #[tactic(auto, unfolding(crate::specs::Machine::offered))]
    pub fn command(&mut self, command: Command) -> Result<(), Refusal>
        ensures answer { answer_by (λ _. reply.Offered) result ≡ (ask self.old.book (command_event self.old.names command)).answer }
        ensures ok { OnOk result (self.new ≡ offered (command_event self.old.names command) self.old) }
        ensures keeps { Loses [] self.old.transceiver.sender self.new.transceiver.sender }
        ensures err { OnErr result (self.new ≡ self.old) }
    {
        unacknowledged_messages_stay();
        let actor = command_number(&self.names, command);
        let signal = command_signal(&self.names, command);
        match self.book.offer(actor, signal, &[]) {
            Ok(_) => {
                self.rest();
                Ok(())
            }
            Err(refusal) => Err(refusal),
        }
    }

    /// Lets so many ticks pass, and the actors run to rest. Returns how many timers were due.
    ///
    /// # Errors
    ///
    /// Those of `tick_refusal`. Then nothing changes.
    #[tactic(auto, unfolding(crate::specs::Machine::offered))]
    pub fn tick(&mut self, ticks: u64) -> Result<usize, Refusal>
        ensures answer { answer_by reply.Passed result ≡ (ask self.old.book (Advance ticks)).answer }
        ensures passes { OnOk result (tick_refusal ticks self.old ≡ None) }
        ensures refuses { IfErr result (λ refusal. tick_refusal ticks self.old ≡ Some refusal) }
        ensures ok { OnOk result (self.new ≡ offered (Advance ticks) self.old) }
        ensures keeps { Loses [] self.old.transceiver.sender self.new.transceiver.sender }
        ensures err { OnErr result (self.new ≡ self.old) }
    {
        unacknowledged_messages_stay();
        match self.book.advance(ticks) {
            Ok(passed) => {
                let before = self.transceiver.glance();
                self.measures.pass(ticks, &before);
                self.rest();
                Ok(passed.due)
            }
            Err(refusal) => Err(refusal),
        }
    }

    /// Why so many ticks can't pass now, if they can't: `W1 TooFar`, `W2 ClockFull`, `B8 JournalFull`.
    pub fn tick_refusal(&self, ticks: u64) -> Option<Refusal>
        ensures { result ≡ tick_refusal ticks self.now }
    {
        self.book.advance_refusal(ticks)
    }

    /// Offers a signal to an actor, and lets the actors run to rest. An offer that the book refuses is dropped.
    #[tactic(auto, unfolding(crate::specs::Machine::offered))]
    fn offer(&mut self, offer: Offer)
        ensures { self.new ≡ offered (offer_event self.old.names offer) self.old }
    {
        let actor = actor_of(&self.names.parties, offer.to);
        let signal = notice_signal(&self.names, offer.notice);
        let values = notice_values(offer.notice);
        let _refused = self.book.offer(actor, signal, values.as_slice()).is_err();
        self.rest();
    }

    /// Makes these offers in order, each followed by a rest.
    #[tactic(auto, unfolding(crate::specs::Machine::all_offered))]
    fn offer_all(&mut self, offers: &[Offer])
        ensures { self.new ≡ all_offered offers.now self.old }
    {
        for offer in offers {
            self.offer(*offer);
        }
    }

    /// Hands out, in order, what the far side may lack (Q.704, retrieval), as `Transceiver::retrieve`. If messages were
    /// unacknowledged, transmission control is then told that none is, so that it awaits no acknowledgement.
    ///
    /// # Errors
    ///
    /// Those of `Transceiver::retrieve`. Then nothing changes.
    #[tactic(auto, unfolding(crate::specs::Machine::handed_out))]
    pub fn retrieve(&mut self, accepted: Option<u8>) -> Result<VecDeque<Msu>, RetrieveError>
        requires { IfSome accepted (λ fsn. fsn < 128) }
        ensures bad { (result ≡ Err RetrieveError.BadAck) ↔ (sent_of self.old.transceiver < count_known self.old.transceiver.sender accepted) }
        ensures messages { IfOk result (λ messages. messages.items ≡ retrieved self.old.transceiver.sender accepted) }
        ensures whole { IfOk result (λ messages. All IsMessage messages.items) }
        ensures ok { OnOk result (self.new ≡ handed_out accepted self.old) }
        ensures err { OnErr result (self.new ≡ self.old) }
    {
        let sent = self.transceiver.sent();
        match self.transceiver.retrieve(accepted) {
            Ok(messages) => {
                self.measures.calm();
                self.tell_none_out(sent > 0);
                Ok(messages)
            }
            Err(why) => Err(why),
        }
    }

    /// How many messages `obey_clear` would clear: all held ones if an actor requested clearing, otherwise none.
    pub fn to_clear(&self) -> usize
        ensures value { result ≡ to_clear self.now }
        ensures within { result ≤ length (kept_of self.now.transceiver) }
    {
        if self.transceiver.is_to_clear() {
            self.transceiver.held()
        } else {
            0
        }
    }

    /// Clears the buffers if an actor requested it (Q.703, figure 13). All held messages go, and are counted. The
    /// actors learn that none is unacknowledged, and run to rest. Returns how many messages went.
    #[tactic(auto, unfolding(crate::specs::Machine::clear_obeyed))]
    pub fn obey_clear(&mut self) -> usize
        ensures count { result ≡ to_clear self.old }
        ensures processes { self.new ≡ clear_obeyed self.old }
        ensures kept { kept_of self.new.transceiver ≡ drop result (kept_of self.old.transceiver) }
    {
        unacknowledged_messages_stay();
        if !self.transceiver.is_to_clear() {
            return 0;
        }
        let kept = self.transceiver.held();
        self.empty_buffers();
        kept
    }

    /// Clears the buffers.
    #[tactic(auto, unfolding(crate::specs::Machine::buffers_emptied))]
    fn empty_buffers(&mut self)
        ensures { self.new ≡ buffers_emptied self.old }
    {
        self.transceiver.clear();
        self.measures.calm();
        self.offer(Offer {
            to: Party::Txc,
            notice: Notice::AckSeen(false),
        });
    }

    /// Whether the set has a signal for octet counting.
    pub fn hears_counting(&self) -> bool
        ensures { result ≡ hears_counting self.now }
    {
        is_there(self.names.options.counting)
    }

    /// Tells both error rate monitors whether octets are counted (Q.703, 4.1.4), if the set has the signal and this
    /// differs from what they were last told. At first they are counted.
    #[tactic(auto, unfolding(crate::specs::Machine::counting_told))]
    pub fn tell_counting(&mut self, on: bool)
        ensures processes { self.new ≡ counting_told on self.old }
        ensures messages { self.new.transceiver.messages ≡ self.old.transceiver.messages }
    {
        accepted_messages_wait_in_order();
        if self.hears_counting() && differs(on, self.counting) {
            self.counting = on;
            self.offer_all(&counting_offers(on));
        }
    }

    /// Tells transmission control that no message is unacknowledged, if some were.
    fn tell_none_out(&mut self, were: bool)
        ensures { self.new ≡ told_of (none_out were) self.old }
    {
        if were {
            self.offer(Offer {
                to: Party::Txc,
                notice: Notice::AckSeen(false),
            });
        }
    }

    /// Takes a unit without errors: first the stores get it, then the actors their offers.
    #[tactic(auto, unfolding(crate::specs::Machine::unit_taken))]
    pub fn take_unit(&mut self, unit: Unit)
        requires whole { IsWhole unit }
        requires room { length self.old.transceiver.messages < KEPT_MESSAGES }
        ensures processes { self.new ≡ unit_taken unit self.old }
        ensures few { length self.new.transceiver.messages ≤ length self.old.transceiver.messages + 1 }
    {
        accepted_messages_wait_in_order();
        let before = self.transceiver.glance();
        let seen = seen_of(&unit);
        let offers = self.transceiver.on_unit(unit);
        let after = self.transceiver.glance();
        self.measures.on_unit(&before, seen, &after);
        self.offer_all(offers.as_slice());
    }

    /// Takes a unit with errors.
    #[tactic(auto, unfolding(crate::specs::Machine::error_taken))]
    pub fn take_error(&mut self)
        ensures processes { self.new ≡ error_taken self.old }
        ensures messages { self.new.transceiver.messages ≡ self.old.transceiver.messages }
    {
        accepted_messages_wait_in_order();
        self.measures.on_error();
        self.offer_all(&error_offers());
    }

    /// Takes sixteen octets without a unit.
    #[tactic(auto, unfolding(crate::specs::Machine::octets_taken))]
    pub fn take_sixteen(&mut self)
        ensures processes { self.new ≡ octets_taken self.old }
        ensures messages { self.new.transceiver.messages ≡ self.old.transceiver.messages }
    {
        accepted_messages_wait_in_order();
        self.measures.on_octets();
        self.offer_all(&error_offers());
    }

    /// The next unit to send; none before the first Line signal. Transmission control is told of each message sent.
    #[tactic(auto, unfolding(crate::specs::Machine::sent))]
    pub fn send_unit(&mut self) -> Option<Unit>
        ensures unit { result ≡ (sent self.old).unit }
        ensures processes { self.new ≡ (sent self.old).processes }
        ensures kept { kept_of self.new.transceiver ≡ kept_of self.old.transceiver }
        ensures one_sent { sent_of self.new.transceiver ≤ sent_of self.old.transceiver + 1 }
        ensures whole { IfSome result IsWhole }
    {
        unacknowledged_messages_stay();
        let before = self.transceiver.glance();
        match self.transceiver.unit_out() {
            Some(UnitOut { unit, offer }) => {
                let after = self.transceiver.glance();
                self.measures.on_sent(&before, seen_of(&unit), &after);
                self.tell(offer);
                Some(unit)
            }
            None => None,
        }
    }

    /// Makes an offer, if there is one.
    fn tell(&mut self, offer: Option<Offer>)
        ensures { self.new ≡ told_of offer self.old }
    {
        if let Some(offer) = offer {
            self.offer(offer);
        }
    }

    /// Makes room in the journal if fewer than [`LOW`] places of it are free and it holds events.
    ///
    /// # Errors
    ///
    /// If memory runs out while there is too little room. Then nothing changes.
    #[tactic(auto, unfolding(crate::specs::Machine::tidied, actor_machine::specs::Ledger::rebased))]
    pub fn tidy(&mut self) -> Result<(), AllocError>
        ensures ok { OnOk result (self.new ≡ tidied self.old) }
        ensures room { OnOk result (is_low self.new ≡ false) }
        ensures transceiver { self.new.transceiver ≡ self.old.transceiver }
        ensures err { OnErr result (self.new ≡ self.old) }
        ensures low { OnErr result (is_low self.old ≡ true) }
    {
        if self.is_low() {
            self.book.rebase()?;
        }
        Ok(())
    }

    /// Whether the journal holds events, and fewer than [`LOW`] places of it are free.
    fn is_low(&self) -> bool
        ensures { result ≡ is_low self.now }
    {
        !self.book.journal().is_empty() && self.book.room() < LOW
    }
}
