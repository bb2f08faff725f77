//! The sending side.
ghost use Rattle.std.specs.Prelude.{◌≡◌, ◌+◌, ◌-◌, ◌<◌, ◌≤◌, ◌↔◌, None, length, All, IfOk, OnOk, OnErr, IfSome, slice_get};
ghost use Rattle.std.specs.Option.{option_copied};
ghost use Rattle.resend_store.specs.Limits.{MOST_KEPT, MOST_UNACKNOWLEDGED, MOST_WAITING};
ghost use Rattle.resend_store.specs.Messages.{IsMessage};
ghost use Rattle.resend_store.specs.Steps.{settled, gives};
ghost use Rattle.resend_store.specs.Window.{IsWindow, waiting, start, start_within, with_put, may_send, unit_at, fill_in, repeats, sends_new, cycles, next, count_by, without, after_back, retrieved, count_known, emptied, without_at, refreshed, round_left, reaches_number};

use crate::messages::{
    MAX_KEPT, MAX_UNACKNOWLEDGED, MAX_WAITING, Mode, Msu, Outgoing, RoundLimits, USUAL_LIMITS,
};
use crate::numbers::{minus, plus};
use crate::refusals::{AckError, PutError, RetrieveError};
use crate::store::{Store, drop_front};
use std::alloc::{AllocError, Global};
use std::collections::VecDeque;
use std::marker::Model;

/// The messages of one link that are not acknowledged, and their numbers (Q.703, sections 5 and 6).
///
/// `new` allocates all memory. After that only `retrieve` can fail because memory runs out.
#[derive(Debug, Drop)]
pub struct Sender {
    mode: Mode,
    /// The numbers of unacknowledged messages and octets that force cyclic retransmission.
    limits: RoundLimits,
    store: Store,
    /// Forward sequence number of the first kept message.
    first: u8,
    fib: u8,
    /// How many of the last sent messages the current retransmission still has to repeat.
    again: u8,
    forced: bool,
    /// The index of the message that the ordinary cycle repeats next.
    turn: u8,
}

impl Model for Sender {
    ghost use Rattle.resend_store.specs.Window.{Window};

    ghost Value = { Window };

    ghost use Rattle.resend_store.specs.SenderInside.{window_of, IsSender};

    ghost view = { window_of };

    ghost invariant = { IsSender };
}

impl Sender {
    /// An empty sender, whose first message will have the number 0 and the bit 1.
    pub fn new(alloc: Global, mode: Mode) -> Result<Sender, AllocError>
        ensures { IfOk result (λ sender. sender ≡ start mode) }
    {
        Sender::within(alloc, USUAL_LIMITS, mode)
    }

    /// As `new`, with these limits of forced retransmission.
    pub fn within(alloc: Global, limits: RoundLimits, mode: Mode) -> Result<Sender, AllocError>
        ensures { IfOk result (λ sender. sender ≡ start_within limits mode) }
    {
        Ok(Sender {
            mode,
            limits,
            store: Store::new(alloc)?,
            first: 0,
            fib: 1,
            again: 0,
            forced: false,
            turn: 0,
        })
    }

    /// The number of kept messages, unacknowledged and waiting.
    pub fn held(&self) -> usize
        ensures value { result ≡ length self.now.kept }
        ensures window { IsWindow self.now }
    {
        self.store.len()
    }

    /// The kept message at an index, the oldest at 0.
    pub fn held_at(&self, place: usize) -> Option<&Msu>
        ensures { option_copied result ≡ slice_get self.now.kept place }
    {
        self.store.get(place)
    }

    /// The number of messages that are sent and not acknowledged.
    pub fn sent(&self) -> usize
        ensures { result ≡ self.now.sent }
    {
        usize::from(self.store.sent())
    }

    /// The forward sequence number of a unit without a message: the one before that of the next new message.
    pub fn fsn(&self) -> u8
        ensures value { result ≡ (fill_in self.now).unit.fsn }
        ensures within { result < 128 }
    {
        minus(plus(self.first, self.store.sent()), 1)
    }

    /// The forward indicator bit to send.
    pub fn fib(&self) -> u8
        ensures value { result ≡ self.now.fib }
        ensures within { result < 2 }
    {
        self.fib
    }

    /// How many messages the current round of forced retransmission still has to send; `None` if no round is under way.
    pub fn round_left(&self) -> Option<u8>
        ensures { result ≡ round_left self.now }
    {
        if self.forced { Some(self.again) } else { None }
    }

    /// Whether the number of unacknowledged messages reaches its limit, which forces retransmission.
    pub fn reaches_number(&self) -> bool
        ensures { result ≡ reaches_number self.now }
    {
        self.store.sent() >= self.limits.messages
    }

    /// Takes a message to send, with a field of 2 octets or more. It waits after all others.
    ///
    /// `Full` if `MAX_WAITING` or more wait. Then nothing changes, and the message is dropped. To keep it, call `held`
    /// and `sent` first.
    pub fn put(&mut self, msu: Msu) -> Result<(), PutError>
        requires { 2 ≤ length msu.sif.items }
        ensures full { (result ≡ Err PutError.Full) ↔ (MOST_WAITING ≤ length (waiting self.old)) }
        ensures ok { OnOk result (self.new ≡ with_put self.old msu) }
        ensures err { OnErr result (self.new ≡ self.old) }
    {
        if self.store.len() - self.store.sent() as usize >= MAX_WAITING {
            return Err(PutError::Full);
        }
        self.store.push(msu);
        Ok(())
    }

    /// Takes a message that was retrieved from another link (Q.704, changeover), with a field of 2 octets or more.
    ///
    /// `Full` if `MAX_KEPT` are unacknowledged or wait. Then nothing changes.
    pub fn put_diverted(&mut self, msu: Msu) -> Result<(), PutError>
        requires { 2 ≤ length msu.sif.items }
        ensures full { (result ≡ Err PutError.Full) ↔ (MOST_KEPT ≤ length self.old.kept) }
        ensures ok { OnOk result (self.new ≡ with_put self.old msu) }
        ensures err { OnErr result (self.new ≡ self.old) }
    {
        if self.store.len() >= MAX_KEPT {
            return Err(PutError::Full);
        }
        self.store.push(msu);
        Ok(())
    }

    /// Removes and drops the waiting message at an index.
    pub fn drop_waiting(&mut self, place: usize)
        requires waits { self.old.sent ≤ place }
        requires there { place < length self.old.kept }
        ensures { self.new ≡ without_at self.old place }
    {
        self.store.remove(place);
    }

    /// Returns the next unit to send (Q.703, sections 5 and 6).
    ///
    /// Basic error correction: the next message of a retransmission under way; else a new one, if one waits and fewer
    /// than `MAX_UNACKNOWLEDGED` are unacknowledged; else no message. Cyclic retransmission: a new one, or else the
    /// unacknowledged ones in turn; but while retransmission is forced, whole rounds of those.
    pub fn next_unit(&mut self) -> Outgoing
        ensures unit { result ≡ (next self.old).unit }
        ensures left { self.new ≡ (next self.old).left }
        ensures number { result.fsn < 128 }
        ensures indicator { result.fib < 2 }
        ensures message { IfSome result.msu IsMessage }
    {
        self.settle();
        self.give()
    }

    /// Takes the backward number, 0 to 127, and bit of a correct unit. Returns how many messages it acknowledges.
    /// With basic error correction, a bit unlike the forward one requests all unacknowledged messages again.
    ///
    /// `BadAck` if the number acknowledges more messages than are sent and not acknowledged. Then nothing changes.
    pub fn on_back(&mut self, bsn: u8, bib: u8) -> Result<usize, AckError>
        requires { bsn < 128 }
        ensures bad { (result ≡ Err AckError.BadAck) ↔ (self.old.sent < count_by self.old bsn) }
        ensures count { IfOk result (λ count. count ≡ count_by self.old bsn) }
        ensures ok { OnOk result (self.new ≡ after_back self.old bsn bib) }
        ensures err { OnErr result (self.new ≡ self.old) }
    {
        let sent = self.store.sent();
        let count = self.count_by(bsn);
        if count > sent {
            return Err(AckError::BadAck);
        }
        self.release(count);
        if self.mode == Mode::Basic && bib != self.fib {
            self.fib = 1 - self.fib;
            self.again = sent - count;
        }
        Ok(count as usize)
    }

    /// Hands out, in order, the messages that the far side may lack (Q.704, retrieval): those after the number, 0 to
    /// 127, that it accepted last. If that is not known, those not sent since both directions last started over.
    /// Nothing is kept then, and numbers continue after the last acknowledged one.
    ///
    /// `BadAck` if the number acknowledges more than is sent; else `NoMemory` if memory runs out. Nothing changes then.
    pub fn retrieve(&mut self, accepted: Option<u8>) -> Result<VecDeque<Msu>, RetrieveError>
        requires { IfSome accepted (λ fsn. fsn < 128) }
        ensures bad { (result ≡ Err RetrieveError.BadAck) ↔ (self.old.sent < count_known self.old accepted) }
        ensures messages { IfOk result (λ messages. messages.items ≡ retrieved self.old accepted) }
        ensures whole { IfOk result (λ messages. All IsMessage messages.items) }
        ensures ok { OnOk result (self.new ≡ emptied self.old accepted) }
        ensures err { OnErr result (self.new ≡ self.old) }
    {
        let sent = self.store.sent();
        let count = accepted.map_or(0, |fsn| self.count_by(fsn));
        if sent < count {
            return Err(RetrieveError::BadAck);
        }
        let gone = if accepted.is_some() { count } else { sent };
        let mut messages = self.store.take_all().map_err(|_| RetrieveError::NoMemory)?;
        drop_front(&mut messages, gone);
        self.first = plus(self.first, count);
        self.again = 0;
        self.forced = false;
        self.turn = 0;
        Ok(messages)
    }

    /// Drops all kept messages, as `retrieve` without a number does, but hands out none (Q.703, figure 13). The numbers
    /// continue after the last acknowledged one.
    pub fn clear(&mut self)
        ensures { self.new ≡ emptied self.old None }
    {
        self.store.clear();
        self.again = 0;
        self.forced = false;
        self.turn = 0;
    }

    /// Starts over, as when the link is aligned again: all kept messages wait, and numbers and bits are at their start.
    pub fn fresh(&mut self)
        ensures { self.new ≡ refreshed self.old }
    {
        self.store.unsend();
        self.first = 0;
        self.fib = 1;
        self.again = 0;
        self.forced = false;
        self.turn = 0;
    }

    /// The number of messages that a backward number acknowledges.
    fn count_by(&self, bsn: u8) -> u8
        requires { bsn < 128 }
        ensures value { result ≡ count_by self.now bsn }
        ensures within { result < 128 }
    {
        minus(bsn, minus(self.first, 1))
    }

    /// Removes the first `count` messages, which are acknowledged.
    fn release(&mut self, count: u8)
        requires { count ≤ self.old.sent }
        ensures { self.new ≡ without self.old count }
    {
        self.store.release(count);
        self.first = plus(self.first, count);
        self.again = self.again.min(self.store.sent());
        self.turn = self.turn.saturating_sub(count);
    }

    /// If a forced round is over: begins another one if a limit is still reached, otherwise ends forced retransmission.
    fn settle(&mut self)
        ensures settled { self.new ≡ settled self.old }
        ensures window { IsWindow self.old }
    {
        if self.forced && self.again == 0 {
            if self.store.reaches_limit(self.limits) {
                self.again = self.store.sent();
            } else {
                self.forced = false;
            }
        }
    }

    /// The next unit to send, after `settle`.
    fn give(&mut self) -> Outgoing
        ensures unit { result ≡ (gives self.old).unit }
        ensures left { self.new ≡ (gives self.old).left }
        ensures number { result.fsn < 128 }
        ensures indicator { result.fib < 2 }
        ensures message { IfSome result.msu IsMessage }
    {
        if self.again > 0 {
            return self.repeat();
        }
        if self.may_send() {
            return self.send();
        }
        if self.mode == Mode::Cyclic && self.store.sent() > 0 {
            return self.cycle();
        }
        self.filled_in()
    }

    /// Whether a new message may go out now.
    fn may_send(&self) -> bool
        ensures { result ≡ may_send self.now }
    {
        let sent = self.store.sent() as usize;
        sent < self.store.len() && sent < MAX_UNACKNOWLEDGED
    }

    /// The next message of the retransmission under way.
    fn repeat(&mut self) -> Outgoing
        requires { 0 < self.old.again }
        ensures unit { result ≡ (repeats self.old).unit }
        ensures left { self.new ≡ (repeats self.old).left }
        ensures message { IfSome result.msu IsMessage }
    {
        let unit = self.unit_at(self.store.sent() - self.again);
        self.again -= 1;
        unit
    }

    /// The first waiting message, which goes out for the first time.
    fn send(&mut self) -> Outgoing
        requires waiting { self.old.sent < length self.old.kept }
        requires window { self.old.sent < MOST_UNACKNOWLEDGED }
        requires settled { self.old.again ≡ 0 }
        ensures unit { result ≡ (sends_new self.old).unit }
        ensures left { self.new ≡ (sends_new self.old).left }
        ensures message { IfSome result.msu IsMessage }
    {
        let unit = self.unit_at(self.store.sent());
        self.store.send_one();
        if self.mode == Mode::Cyclic && self.store.reaches_limit(self.limits) {
            self.forced = true;
            self.again = self.store.sent();
        }
        unit
    }

    /// The next message of the ordinary cycle.
    fn cycle(&mut self) -> Outgoing
        requires cyclic { self.old.mode ≡ Mode.Cyclic }
        requires sent { 0 < self.old.sent }
        ensures unit { result ≡ (cycles self.old).unit }
        ensures left { self.new ≡ (cycles self.old).left }
        ensures message { IfSome result.msu IsMessage }
    {
        let unit = self.unit_at(self.turn);
        self.turn = if self.turn + 1 == self.store.sent() {
            0
        } else {
            self.turn + 1
        };
        unit
    }

    /// A fill-in unit, which carries no message (Q.703, sections 5 and 6).
    fn filled_in(&self) -> Outgoing
        ensures { result ≡ (fill_in self.now).unit }
    {
        Outgoing {
            fsn: self.fsn(),
            fib: self.fib,
            msu: None,
        }
    }

    /// The unit for the kept message at an index.
    fn unit_at(&self, place: u8) -> Outgoing
        requires { place < 128 }
        ensures unit { result ≡ unit_at self.now place }
        ensures message { IfSome result.msu IsMessage }
    {
        Outgoing {
            fsn: plus(self.first, place),
            fib: self.fib,
            msu: self.store.get(place as usize).map(Msu::copied),
        }
    }
}
