//! One link of a set.
ghost use Rattle.std.specs.Prelude.{◌≡◌, ◌+◌, ◌≤◌, All, drop, length, slice_get, IfSome, IfOk, OnOk, OnErr, Some, None};
ghost use Rattle.resend_store.specs.Messages.{IsMessage};
ghost use Rattle.group_changeover.specs.Changeovers.{IsKind};
ghost use Rattle.link_term.specs.Kept.{window_of};
ghost use Rattle.group_changeover.specs.Saying.{count_in};
ghost use Rattle.link_group.specs.Failing.{fail_fault_of, changeover_begins_at, order_of, count_heard, replies, hears};
ghost use Rattle.link_group.specs.OneLink.{fault_of, carries, shares, gives_messages, is_own_out, has_outage, put_fault, puts, bind_fault, bound_by, bound_among, unknown, window, held, count_of, hold_by, unsure_by, retrieve_fault, retrieve_refusal, accepted_of, lacking, handed_by, emptied_behind, hands_out, abandon_fault, abandon_refusal};

use crate::hand::Hand;
use group_changeover::{
    AbandonError, Availability, BindError, Changing, FailError, Kind, Points, RetrieveError,
    SendError, counts_of, leave_out,
};
use link_term::Terminal;
use link_transceiver::{Hold, LineKind};
use resend_store::Msu;
use std::alloc::AllocError;
use std::collections::VecDeque;

/// A link: its terminal, its marks and its hand.
#[derive(Drop)]
pub struct Link {
    /// The points that the link connects.
    pub points: Points,
    pub terminal: Terminal,
    pub availability: Availability,
    /// The messages retrieved in its changeover and not diverted yet.
    pub hand: Hand,
}

/// Drops the first message, if there is one.
fn drop_one(messages: &mut VecDeque<Msu>)
    requires { All IsMessage messages.old.items }
    ensures items { messages.new.items ≡ drop 1 messages.old.items }
    ensures whole { All IsMessage messages.new.items }
{
    match messages.pop_front() {
        Some(_first) => {}
        None => {}
    }
}

/// Drops so many messages from the front, or all if there are fewer.
fn drop_front(messages: &mut VecDeque<Msu>, count: usize)
    requires { All IsMessage messages.old.items }
    ensures items { messages.new.items ≡ drop count messages.old.items }
    ensures whole { All IsMessage messages.new.items }
{
    for _front in 0..count {
        drop_one(messages);
    }
}

/// Takes the messages after so many accepted ones out of a terminal.
fn take_behind(terminal: &mut Terminal, accepted: usize) -> Result<VecDeque<Msu>, AllocError>
    ensures messages { IfOk result (λ messages. messages.items ≡ lacking (window_of terminal.old) (Some accepted)) }
    ensures whole { IfOk result (λ messages. All IsMessage messages.items) }
    ensures ok { OnOk result (terminal.new ≡ emptied_behind (Some accepted) terminal.old) }
    ensures err { OnErr result (terminal.new ≡ terminal.old) }
{
    let _window = terminal.held();
    let known = accepted.min(terminal.sent());
    let number = (usize::from(terminal.acknowledged()) + known) % 128;
    match terminal.retrieve_telling(Some(number as u8)) {
        Ok(mut messages) => {
            drop_front(&mut messages, accepted - known);
            Ok(messages)
        }
        Err(_) => Err(AllocError),
    }
}

/// As `take_behind`; without a number, takes the messages not sent since both directions last restarted.
fn take_out(terminal: &mut Terminal, accepted: Option<usize>) -> Result<VecDeque<Msu>, AllocError>
    ensures messages { IfOk result (λ messages. messages.items ≡ lacking (window_of terminal.old) accepted) }
    ensures whole { IfOk result (λ messages. All IsMessage messages.items) }
    ensures ok { OnOk result (terminal.new ≡ emptied_behind accepted terminal.old) }
    ensures err { OnErr result (terminal.new ≡ terminal.old) }
{
    if let Some(accepted) = accepted {
        return take_behind(terminal, accepted);
    }
    match terminal.retrieve_telling(None) {
        Ok(messages) => Ok(messages),
        Err(_) => Err(AllocError),
    }
}

/// How long a link is held, by its changeover.
fn hold_by(changing: Option<Changing>) -> Hold
    ensures { result ≡ hold_by changing }
{
    match changing {
        Some(changing) if !changing.is_out() => Hold::Kept,
        _ => Hold::UntilAnew,
    }
}

impl Link {
    /// Whether the link may take messages: it is in service, and not held.
    pub fn carries(&self) -> bool
        ensures { result ≡ carries self.now }
    {
        self.terminal.in_service() && !self.terminal.holding().is_held()
    }

    /// Whether the link may be given selections and other links' retrieved messages: level 3 admits it too.
    pub(crate) fn shares(&self) -> bool
        ensures { result ≡ shares self.now }
    {
        self.carries() && self.availability.admitted
    }

    /// Whether this side has a processor outage: status 4 is sent.
    pub fn is_own_out(&self) -> bool
        ensures { result ≡ is_own_out self.now }
    {
        match self.terminal.goes_out() {
            Some(LineKind::Status(code)) => code == 4,
            _ => false,
        }
    }

    /// Whether its actors allow messages to be sent.
    pub fn gives_messages(&self) -> bool
        ensures { result ≡ gives_messages self.now }
    {
        match self.terminal.goes_out() {
            Some(LineKind::Messages) => true,
            _ => false,
        }
    }

    /// Whether the far side or this side has a processor outage.
    pub(crate) fn has_outage(&self) -> bool
        ensures { result ≡ has_outage self.now }
    {
        self.terminal.far_out() || self.is_own_out()
    }

    /// Takes a message to send.
    #[tactic(auto, unfolding(crate::specs::OneLink::put_fault, crate::specs::OneLink::puts))]
    pub(crate) fn put(&mut self, msu: Msu) -> Result<(), SendError>
        requires { 2 ≤ length msu.sif.items }
        ensures fault { fault_of result ≡ put_fault self.old }
        ensures ok { OnOk result (self.new ≡ puts msu self.old) }
        ensures err { OnErr result (self.new ≡ self.old) }
    {
        if self.availability.is_changing() {
            return Err(SendError::Waiting);
        }
        if !self.shares() {
            return Err(SendError::NoLink);
        }
        match self.terminal.put(msu) {
            Ok(()) => Ok(()),
            Err(_) => Err(SendError::Full),
        }
    }

    /// Takes a message that is bound to the link.
    #[tactic(auto, unfolding(crate::specs::OneLink::bind_fault, crate::specs::OneLink::puts))]
    pub(crate) fn bind(&mut self, msu: Msu) -> Result<(), BindError>
        requires { 2 ≤ length msu.sif.items }
        ensures fault { fault_of result ≡ bind_fault self.old }
        ensures ok { OnOk result (self.new ≡ puts msu self.old) }
        ensures err { OnErr result (self.new ≡ self.old) }
    {
        if !self.carries() {
            return Err(BindError::NoLink);
        }
        match self.terminal.put_diverted(msu) {
            Ok(()) => Ok(()),
            Err(_) => Err(BindError::Full),
        }
    }

    /// Whether the held message at a place is bound to the link.
    fn is_bound_at(&self, place: usize) -> bool
        ensures { result ≡ bound_by self.now.points (slice_get (held self.now) place) }
    {
        match self.terminal.held_at(place) {
            Some(msu) => self.points.is_bound(msu),
            None => false,
        }
    }

    /// 1 if the held message at a place is bound to the link, otherwise 0.
    #[tactic(auto, using(crate::proofs::Renewing::one_more, crate::proofs::Renewing::none_more))]
    fn one_bound(&self, place: usize) -> usize
        ensures more { length (bound_among self.now (place + 1)) ≡ length (bound_among self.now place) + result }
        ensures within { result ≤ 1 }
    {
        if self.is_bound_at(place) { 1 } else { 0 }
    }

    /// How many of the first so many held messages are bound to the link.
    pub(crate) fn bound_among(&self, count: usize) -> usize
        ensures value { result ≡ length (bound_among self.now count) }
        ensures within { result ≤ count }
    {
        let mut bound = 0;
        for place in 0..count {
            bound += self.one_bound(place);
        }
        bound
    }

    /// How many messages not bound to the link are unacknowledged.
    #[tactic(auto, using(crate::proofs::Renewing::unknown_is))]
    pub(crate) fn unknown(&self) -> usize
        ensures { result ≡ unknown self.now }
    {
        let _window = self.terminal.held();
        let sent = self.terminal.sent();
        sent - self.bound_among(sent)
    }

    /// How many of the held messages a number acknowledges; none if that is more than were sent.
    fn count_of(&self, fsn: u8) -> Option<usize>
        ensures { result ≡ count_of (window self.now) fsn }
    {
        let count = (usize::from(fsn) + 128 - usize::from(self.terminal.acknowledged())) % 128;
        if count <= self.terminal.sent() {
            Some(count)
        } else {
            None
        }
    }

    /// How many of the held messages a changeover message acknowledges.
    fn count_heard(&self, kind: Kind) -> Option<usize>
        ensures { result ≡ count_heard kind self.now }
    {
        match kind.number() {
            Some(fsn) => self.count_of(fsn),
            None => None,
        }
    }

    /// Why it isn't known which of the sent messages arrived, if it isn't.
    fn unsure(&self, changing: Changing) -> Option<RetrieveError>
        ensures { result ≡ unsure_by (unknown self.now) (count_in changing.answer) }
    {
        if changing.count().is_some() {
            return None;
        }
        let sent = self.unknown();
        if sent == 0 {
            None
        } else {
            Some(RetrieveError::Unsure(sent))
        }
    }

    /// Why its messages can't be retrieved, if they can't.
    #[tactic(auto, unfolding(crate::specs::OneLink::retrieve_fault, crate::specs::OneLink::retrieve_fault_in))]
    fn retrieve_fault(&self) -> Option<RetrieveError>
        ensures { result ≡ retrieve_fault self.now }
    {
        let Some(changing) = self.availability.changing else {
            return Some(RetrieveError::NoLink);
        };
        if changing.is_out() {
            return Some(RetrieveError::Waiting);
        }
        if changing.is_waiting() {
            return Some(RetrieveError::Waiting);
        }
        self.unsure(changing)
    }

    /// How many of the held messages the far side accepted, if it reported that.
    #[tactic(auto, unfolding(crate::specs::OneLink::accepted_of))]
    pub(crate) fn accepted(&self) -> Option<usize>
        ensures { result ≡ accepted_of self.now }
    {
        match self.availability.changing {
            Some(changing) => changing.count(),
            None => None,
        }
    }

    /// Retrieves the link's messages into its hand. Returns how many there are.
    #[tactic(auto, unfolding(crate::specs::OneLink::hands_out))]
    fn hand_out(&mut self, accepted: Option<usize>) -> Result<usize, AllocError>
        ensures count { IfOk result (λ count. count ≡ length (handed_by self.old accepted)) }
        ensures ok { OnOk result (self.new ≡ hands_out accepted self.old) }
        ensures err { OnErr result (self.new ≡ self.old) }
    {
        match take_out(&mut self.terminal, accepted) {
            Ok(mut messages) => {
                leave_out(self.points, &mut messages);
                self.terminal.hold(Hold::UntilAnew);
                self.availability = self.availability.with_retrieval(counts_of(&messages));
                let count = messages.len();
                self.hand = Hand::of(messages);
                Ok(count)
            }
            Err(_) => Err(AllocError),
        }
    }

    /// Retrieves the messages that the far side may lack. Returns how many there are.
    pub(crate) fn retrieve(&mut self) -> Result<usize, RetrieveError>
        ensures fault { retrieve_refusal result ≡ retrieve_fault self.old }
        ensures count { IfOk result (λ count. count ≡ length (handed_by self.old (accepted_of self.old))) }
        ensures ok { OnOk result (self.new ≡ hands_out (accepted_of self.old) self.old) }
        ensures err { OnErr result (self.new ≡ self.old) }
    {
        if let Some(fault) = self.retrieve_fault() {
            return Err(fault);
        }
        let accepted = self.accepted();
        match self.hand_out(accepted) {
            Ok(count) => Ok(count),
            Err(_) => Err(RetrieveError::NoMemory),
        }
    }

    /// Retrieves the messages not sent since both directions last restarted, if it isn't known which others arrived.
    /// Returns how many there are.
    #[tactic(auto, unfolding(crate::specs::OneLink::abandon_fault))]
    pub(crate) fn abandon(&mut self) -> Result<usize, AbandonError>
        ensures fault { abandon_refusal result ≡ abandon_fault self.old }
        ensures count { IfOk result (λ count. count ≡ length (handed_by self.old None)) }
        ensures ok { OnOk result (self.new ≡ hands_out None self.old) }
        ensures err { OnErr result (self.new ≡ self.old) }
    {
        match self.retrieve_fault() {
            Some(RetrieveError::Unsure(_)) => match self.hand_out(None) {
                Ok(count) => Ok(count),
                Err(_) => Err(AbandonError::NoMemory),
            },
            Some(RetrieveError::NoLink) => Err(AbandonError::NoLink),
            _ => Err(AbandonError::Waiting),
        }
    }

    /// Begins the link's changeover, unless one goes on, and holds the link. Returns the order for the other point.
    pub(crate) fn fail(&mut self) -> Result<Kind, FailError>
        ensures fault { fault_of result ≡ fail_fault_of self.old }
        ensures order { IfOk result (λ kind. kind ≡ order_of self.old) }
        ensures whole { IfOk result IsKind }
        ensures ok { OnOk result (self.new ≡ changeover_begins_at self.old) }
        ensures err { OnErr result (self.new ≡ self.old) }
    {
        if self.availability.is_changing() {
            return Err(FailError::Waiting);
        }
        let kind = self.availability.order(self.terminal.accepted());
        self.availability = self.availability.changeover_begins();
        self.terminal.hold(Hold::Kept);
        Ok(kind)
    }

    /// Takes a changeover message about the link from the other point. Returns the answer, if there is one.
    pub(crate) fn hear(&mut self, kind: Kind) -> Option<Kind>
        ensures reply { result ≡ replies kind self.old }
        ensures whole { IfSome result IsKind }
        ensures heard { self.new ≡ hears kind self.old }
    {
        let answer = self.availability.answer(self.count_heard(kind));
        let reply = self.availability.reply(kind, self.terminal.accepted());
        let holds = self.availability.is_held_by(kind);
        self.availability = self.availability.begun_by(kind).told(answer);
        if holds {
            self.terminal.hold(hold_by(self.availability.changing));
        }
        reply
    }
}
