//! What a received unit leads to.
ghost use Rattle.std.specs.Prelude.{◌≡◌, ◌+◌, ◌<◌, ◌≤◌, ◌++◌, true, false, length, is_some, IfOk, OnOk, OnErr};
ghost use Rattle.std.specs.Option.{option_to_list};
ghost use Rattle.arrayvec.specs.ArrayVec.{array_vec_len};
ghost use Rattle.resend_store.specs.Window.{count_by};
ghost use Rattle.su_octets.specs.Whole.{IsWhole, IsWholeHead};
ghost use Rattle.link_transceiver.specs.Limits.{KEPT_MESSAGES};
ghost use Rattle.link_transceiver.specs.Judging.{acknowledged, accepts, hears, sets_aside, hearing, is_abnormal, fault_in, received, stored, bsn_heeded, head_heeded, fault_of, discarded, led, heard, through, by_stores, judged, acknowledgement_offers, fault_offers, sign_by};
ghost use Rattle.link_transceiver.specs.Offers.{to_monitors, unit_seen, odd_seen};

use crate::faults::Fault;
use crate::offers::{Notice, Offer, Party, to_monitors};
use crate::transceiver::Transceiver;
use arrayvec::ArrayVec;
use resend_store::{AckError, Msu, Receiver, Sender, UnitError, Verdict};
use su_octets::{Head, Unit};

/// The number by which fill-in and message signal units are reported.
const FILL_IN_OR_MESSAGE: u8 = 8;

/// The offers for one unit.
pub type Offers = ArrayVec<Offer, 5>;

impl Transceiver {
    /// Takes a unit without errors, and returns the offers for it, in this order (Q.703, sections 5, 6 and 10): `Good`
    /// to both monitors; `AckSeen` if it acknowledges messages; `Bad` if two of the last three units had an abnormal
    /// backward number, or two an abnormal forward indicator; `Unit` with its kind.
    ///
    /// While units are taken (`EnvSignal::Take`), a fill-in or message signal unit first goes through the stores. An
    /// accepted message waits to be handed out. While level 3 holds the link or messages aren't to be delivered
    /// (`EnvSignal::Deliver`), a message is judged and then discarded.
    ///
    /// If abnormal units are reported (`tell_odd`), `Odd` replaces `Unit` for such a unit. The next unit is only
    /// judged: it acknowledges nothing, requests nothing and isn't accepted. Its offers are `Good`, and `Bad` and `Odd`
    /// if it is abnormal itself (Q.703, 5.3 and 6.3.1).
    #[tactic(auto, unfolding(crate::specs::Judging::judged))]
    pub fn on_unit(&mut self, unit: Unit) -> Offers
        requires whole { IsWhole unit }
        requires room { length self.old.messages < KEPT_MESSAGES }
        ensures transceiver { self.new ≡ (judged self.old unit).transceiver }
        ensures offers { result.items ≡ (judged self.old unit).offers }
    {
        match unit {
            Unit::Fisu(head) => self.pass(&head, None),
            Unit::Msu(head, sio, sif) => self.pass(&head, Some(Msu { sio, sif })),
            Unit::Lssu(_, status, _) => around(None, None, Some(unit_seen(status % 8))),
        }
    }

    /// Takes a fill-in or message signal unit.
    #[tactic(auto, unfolding(crate::specs::Judging::by_stores))]
    fn pass(&mut self, head: &Head, msu: Option<Msu>) -> Offers
        requires whole { IsWholeHead head.now }
        requires room { length self.old.messages < KEPT_MESSAGES }
        ensures transceiver { self.new ≡ (by_stores self.old head.now msu).transceiver }
        ensures offers { result.items ≡ to_monitors Notice.Good ++ (by_stores self.old head.now msu).offers }
    {
        if self.take {
            self.go_through(head, msu)
        } else {
            around(None, None, Some(unit_seen(FILL_IN_OR_MESSAGE)))
        }
    }

    /// Takes a fill-in or message signal unit while units are taken.
    fn go_through(&mut self, head: &Head, msu: Option<Msu>) -> Offers
        requires whole { IsWholeHead head.now }
        requires room { length self.old.messages < KEPT_MESSAGES }
        ensures transceiver { self.new ≡ (through self.old (heard self.old head.now msu)).transceiver }
        ensures offers { result.items ≡ to_monitors Notice.Good ++ (through self.old (heard self.old head.now msu)).offers }
    {
        let odd = self.odd;
        let behind = self.behind_odd;
        let (count, fault) = self.hear_unit(head, msu);
        around(
            self.seen(count),
            self.failing(fault),
            sign_of(odd, behind, fault),
        )
    }

    /// Passes a unit through the stores, or only judges it if it follows an abnormal one. Notes whether this one is
    /// abnormal. Returns how many messages it acknowledges, and its fault.
    #[tactic(auto, unfolding(crate::specs::Judging::heard))]
    fn hear_unit(&mut self, head: &Head, msu: Option<Msu>) -> (usize, Option<Fault>)
        requires whole { IsWholeHead head.now }
        requires room { length self.old.messages < KEPT_MESSAGES }
        ensures transceiver { self.new ≡ (heard self.old head.now msu).transceiver }
        ensures count { result.0 ≡ (heard self.old head.now msu).count }
        ensures fault { result.1 ≡ (heard self.old head.now msu).fault }
    {
        let head = self.heed(head);
        let odd = self.odd;
        let (count, fault) = self.lead(&head, msu);
        self.behind_odd = odd && fault.is_some();
        (count, fault)
    }

    /// Passes a unit through the stores, or only judges it if it follows an abnormal one.
    fn lead(&mut self, head: &Head, msu: Option<Msu>) -> (usize, Option<Fault>)
        requires whole { IsWholeHead head.now }
        requires room { length self.old.messages < KEPT_MESSAGES }
        ensures transceiver { self.new ≡ (led self.old head.now msu).transceiver }
        ensures count { result.0 ≡ (led self.old head.now msu).count }
        ensures fault { result.1 ≡ (led self.old head.now msu).fault }
    {
        if self.behind_odd {
            let fault = self.discard(head);
            (0, fault)
        } else {
            self.store(head, msu)
        }
    }

    /// Judges a unit that follows an abnormal one, remembers it among the last three, and returns its fault.
    fn discard(&mut self, head: &Head) -> Option<Fault>
        requires { head.now.bsn < 128 }
        ensures transceiver { self.new ≡ (discarded self.old head.now).transceiver }
        ensures fault { result ≡ (discarded self.old head.now).fault }
    {
        let fault = self.fault_of(head);
        self.faults.remember(fault);
        fault
    }

    /// The fault of a unit.
    #[tactic(auto, unfolding(crate::specs::Judging::fault_of))]
    fn fault_of(&self, head: &Head) -> Option<Fault>
        requires { head.now.bsn < 128 }
        ensures { result ≡ fault_of self.now head.now }
    {
        if self.count_of(head.bsn) > self.sender.sent() {
            return Some(Fault::AbnormalBsn);
        }
        fault_in(set_aside(&self.receiver, head))
    }

    /// How many messages a backward number acknowledges.
    fn count_of(&self, bsn: u8) -> usize
        requires { bsn < 128 }
        ensures { result ≡ count_by self.now.sender bsn }
    {
        (usize::from(bsn) + 128 - usize::from(self.acknowledged())) % 128
    }

    /// The backward number that counts: the last acknowledged one, if this one acknowledges only cleared messages.
    #[tactic(auto, unfolding(crate::specs::Judging::bsn_heeded))]
    fn heed_bsn(&self, bsn: u8) -> u8
        requires { bsn < 128 }
        ensures value { result ≡ bsn_heeded self.now bsn }
        ensures within { result < 128 }
    {
        if self.spare > 0 && self.count_of(bsn) <= usize::from(self.spare) {
            self.acknowledged()
        } else {
            bsn
        }
    }

    /// The head with the backward number that counts.
    fn heed(&self, head: &Head) -> Head
        requires whole { IsWholeHead head.now }
        ensures value { result ≡ head_heeded self.now head.now }
        ensures whole { IsWholeHead result }
    {
        Head {
            bsn: self.heed_bsn(head.bsn),
            bib: head.bib,
            fsn: head.fsn,
            fib: head.fib,
        }
    }

    /// Passes a unit through the stores, and returns how many messages it acknowledges, and its fault.
    #[tactic(auto, unfolding(crate::specs::Judging::stored))]
    fn store(&mut self, head: &Head, msu: Option<Msu>) -> (usize, Option<Fault>)
        requires whole { IsWholeHead head.now }
        requires room { length self.old.messages < KEPT_MESSAGES }
        ensures transceiver { self.new ≡ (stored self.old head.now msu).transceiver }
        ensures count { result.0 ≡ (stored self.old head.now msu).count }
        ensures fault { result.1 ≡ (stored self.old head.now msu).fault }
    {
        match acknowledge(&mut self.sender, head) {
            Ok(count) => {
                let fault = self.receive(head, msu);
                (count, fault)
            }
            Err(AckError::BadAck) => {
                let fault = Some(Fault::AbnormalBsn);
                self.faults.remember(fault);
                (0, fault)
            }
        }
    }

    /// The offer for acknowledged messages, if there are any.
    #[tactic(auto, unfolding(crate::specs::Judging::acknowledgement_offers))]
    fn seen(&self, count: usize) -> Option<Offer>
        ensures { option_to_list result ≡ acknowledgement_offers self.now count }
    {
        if count == 0 {
            return None;
        }
        Some(Offer {
            to: Party::Txc,
            notice: Notice::AckSeen(self.sender.sent() > 0),
        })
    }

    /// The offer for two of the last three units with one kind of fault.
    #[tactic(auto, unfolding(crate::specs::Judging::fault_offers))]
    fn failing(&self, fault: Option<Fault>) -> Option<Offer>
        ensures { option_to_list result ≡ fault_offers self.now fault }
    {
        if !(self.faults.is_failing() && (!self.odd || fault.is_some())) {
            return None;
        }
        Some(Offer {
            to: Party::Rc,
            notice: Notice::Bad,
        })
    }

    /// Whether received messages are accepted.
    fn accepts(&self) -> bool
        ensures { result ≡ accepts self.now }
    {
        self.deliver && !self.hold.is_held()
    }

    /// Passes a unit to the receiver, and returns its fault.
    fn receive(&mut self, head: &Head, msu: Option<Msu>) -> Option<Fault>
        requires room { length self.old.messages < KEPT_MESSAGES }
        ensures transceiver { self.new ≡ received (hearing (accepts self.old) self.old.receiver head.now (is_some msu)) msu self.old }
        ensures fault { result ≡ fault_in (hearing (accepts self.old) self.old.receiver head.now (is_some msu)).verdict }
    {
        let heard = hear_by(self.accepts(), &mut self.receiver, head, msu.is_some());
        let fault = fault_in(heard);
        self.faults.remember(fault);
        if let (Ok(Verdict::Accept), Some(msu)) = (heard, msu) {
            self.messages.push(msu);
        }
        fault
    }
}

/// How many messages a unit acknowledges. Returns `BadAck` if that is more than were sent.
#[tactic(auto, unfolding(crate::specs::Judging::acknowledged))]
fn acknowledge(sender: &mut Sender, head: &Head) -> Result<usize, AckError>
    requires { head.now.bsn < 128 }
    ensures abnormal { OnErr result (is_abnormal sender.old head.now.bsn ≡ true) }
    ensures err { OnErr result (sender.new ≡ sender.old) }
    ensures normal { OnOk result (is_abnormal sender.old head.now.bsn ≡ false) }
    ensures count { IfOk result (λ count. count ≡ count_by sender.old head.now.bsn) }
    ensures ok { OnOk result (sender.new ≡ acknowledged sender.old head.now.bsn head.now.bib) }
{
    sender.on_back(head.bsn, head.bib)
}

/// The receiver's verdict on a unit, depending on whether messages are accepted.
#[tactic(auto, unfolding(crate::specs::Judging::hearing))]
fn hear_by(
    accepting: bool,
    receiver: &mut Receiver,
    head: &Head,
    has_msu: bool,
) -> Result<Verdict, UnitError>
    ensures verdict { result ≡ (hearing accepting receiver.old head.now has_msu).verdict }
    ensures known { receiver.new ≡ (hearing accepting receiver.old head.now has_msu).known }
{
    if accepting {
        hear(receiver, head, has_msu)
    } else {
        set_aside(receiver, head)
    }
}

/// The receiver's verdict on a unit while messages are discarded. The receiver doesn't change.
#[tactic(auto, unfolding(crate::specs::Judging::sets_aside), using(crate::proofs::Aside::known_stays))]
fn set_aside(receiver: &Receiver, head: &Head) -> Result<Verdict, UnitError>
    ensures verdict { result ≡ (sets_aside receiver.now head.now.fib).verdict }
    ensures known { receiver.now ≡ (sets_aside receiver.now head.now.fib).known }
{
    receiver.set_aside(head.fib)
}

/// The receiver's verdict on a unit.
#[tactic(auto, unfolding(crate::specs::Judging::hears))]
fn hear(receiver: &mut Receiver, head: &Head, has_msu: bool) -> Result<Verdict, UnitError>
    ensures verdict { result ≡ (hears receiver.old head.now.fsn head.now.fib has_msu).verdict }
    ensures known { receiver.new ≡ (hears receiver.old head.now.fsn head.now.fib has_msu).known }
{
    receiver.on_unit(head.fsn, head.fib, has_msu)
}

/// The fault of a unit, by the receiver's verdict on it.
fn fault_in(heard: Result<Verdict, UnitError>) -> Option<Fault>
    ensures { result ≡ fault_in heard }
{
    match heard {
        Ok(_) => None,
        Err(_) => Some(Fault::AbnormalFib),
    }
}

/// The offer that reports a unit's kind.
fn unit_seen(kind: u8) -> Offer
    ensures { result ≡ unit_seen kind }
{
    Offer {
        to: Party::Rc,
        notice: Notice::Unit(kind),
    }
}

/// The offer that reports a unit discarded for a fault.
fn odd_seen(code: u8) -> Offer
    ensures { result ≡ odd_seen code }
{
    Offer {
        to: Party::Rc,
        notice: Notice::Odd(code),
    }
}

/// The offer to reception control for a unit that went through the stores.
fn sign_of(odd: bool, behind: bool, fault: Option<Fault>) -> Option<Offer>
    ensures { option_to_list result ≡ sign_by odd behind fault }
{
    if !odd {
        return Some(unit_seen(FILL_IN_OR_MESSAGE));
    }
    match fault {
        Some(Fault::AbnormalBsn) => Some(odd_seen(1)),
        Some(Fault::AbnormalFib) => Some(odd_seen(2)),
        None => {
            if behind {
                None
            } else {
                Some(unit_seen(FILL_IN_OR_MESSAGE))
            }
        }
    }
}

/// All offers for a unit: to the monitors, then for acknowledgements, then for faults, then its kind.
fn around(seen: Option<Offer>, failing: Option<Offer>, sign: Option<Offer>) -> Offers
    ensures { result.items ≡ to_monitors Notice.Good ++ option_to_list seen ++ option_to_list failing ++ option_to_list sign }
{
    let [alignment, service] = to_monitors(Notice::Good);
    let mut offers = Offers::new();
    offers.push(alignment);
    offers.push(service);
    add(&mut offers, seen);
    add(&mut offers, failing);
    add(&mut offers, sign);
    offers
}

/// Adds an offer, if there is one.
fn add(offers: &mut Offers, offer: Option<Offer>)
    requires { array_vec_len offers.old < 5 }
    ensures items { offers.new.items ≡ offers.old.items ++ option_to_list offer }
    ensures len { array_vec_len offers.new ≤ array_vec_len offers.old + 1 }
{
    if let Some(offer) = offer {
        offers.push(offer);
    }
}
