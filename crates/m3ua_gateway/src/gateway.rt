//! A gateway with the messages that it holds.
ghost use Rattle.std.specs.Prelude.{◌≡◌, ◌+◌, ◌<◌, ◌≤◌, ◌&&◌, not, true, false, [], length, Some, IfOk, IsTrue, is_some, if◌then◌else◌};
ghost use Rattle.std.specs.Vec.{vec_capacity};
ghost use Rattle.std.specs.Option.{option_copied};
ghost use Rattle.m3ua_gateway.specs.States.{server_in, is_pending, is_active};
ghost use Rattle.m3ua_gateway.specs.Table.{step};
ghost use Rattle.m3ua_gateway.specs.Life.{happens, comes, delivers, takes, drops, born, counted, strange_in, is_fit, first_of, without_first, account_of, account_with, account_after, result_of, standing, while_pending, after_delivery, GREATEST};
ghost use Rattle.m3ua_gateway.specs.declared.states.State.TheVariants as state;
ghost use Rattle.m3ua_gateway.specs.Holding.{sent_in, lost_in};
ghost use Rattle.m3ua_gateway.specs.Asking.{is_data, deed_of};

use crate::queue::{first_in, is_fit, place_in};
use crate::states::State;
use crate::table::{Action, Happening};
use resend_store::Msu;
use std::alloc::{AllocError, Global};
use std::marker::Model;

/// The most messages that are kept while the AS is pending.
pub const MOST_KEPT: usize = 256;

/// The most messages of the ASP that wait for the set.
pub const MOST_WAITING: usize = 1024;

/// What becomes of a message that the set delivered.
#[derive(Drop)]
pub enum Delivery {
    /// It is to be sent as DATA.
    Send(Msu),
    /// It is kept: the AS is pending.
    Kept,
    /// It is lost: it can't be DATA, or no AS is there for it, or there is no room.
    Lost,
}

/// A gateway: where its ASP and its AS are, the messages that it holds for both directions, and how many were lost or
/// refused.
#[derive(Drop)]
pub struct Gateway {
    state: State,
    kept: Vec<Msu>,
    waiting: Vec<Msu>,
    lost: u64,
    refused: u64,
}

impl Model for Gateway {
    ghost use Rattle.std.specs.Prelude.{◌≤◌, length};
    ghost use Rattle.std.specs.Vec.{vec_capacity};
    ghost use Rattle.m3ua_gateway.specs.Life.{Account};

    ghost Value = { Account };

    ghost view = { λ g. record { holds = record { state = g.state; kept = g.kept.items; waiting = g.waiting.items }; lost = g.lost; refused = g.refused } };

    ghost invariant = { λ g. (256 ≤ vec_capacity g.kept) × (length g.kept.items ≤ 256) × (1024 ≤ vec_capacity g.waiting) × (length g.waiting.items ≤ 1024) };
}

/// A count that stops at its greatest value.
fn counted(count: u64, more: usize) -> u64
    ensures { result ≡ counted (count + more) }
{
    count.saturating_add(more as u64)
}

/// How many DATA a happening refuses in each state.
fn strange_in(happening: Happening) -> usize
    ensures { result ≡ strange_in happening }
{
    match happening {
        Happening::Data | Happening::OtherData | Happening::LongData => 1,
        Happening::StrayData | Happening::RefusedData => 1,
        Happening::Ended | Happening::Expired | Happening::Up | Happening::Down => 0,
        Happening::Active | Happening::ActiveWithOthers | Happening::Inactive => 0,
        Happening::InactiveWithOthers | Happening::Stray => 0,
        Happening::OtherMode | Happening::Beat | Happening::Audit | Happening::Register => 0,
        Happening::Congestion | Happening::Error | Happening::Other | Happening::Refused => 0,
        Happening::Reach => 0,
    }
}

/// Whether what is kept is sent.
fn releases(from: State, to: State) -> bool
    ensures { result ≡ (is_pending (server_in from) && is_active to) }
{
    from.is_pending() && to.is_active()
}

/// Whether what is kept is lost.
fn loses(from: State, to: State) -> bool
    ensures { result ≡ (is_pending (server_in from) && (not (is_pending (server_in to)) && not (is_active to))) }
{
    from.is_pending() && !to.is_pending() && !to.is_active()
}

/// Throws away what is there, if so.
fn clear_if(yes: bool, messages: &mut Vec<Msu>)
    ensures items { messages.new.items ≡ (if yes then [] else messages.old.items) }
    ensures capacity { vec_capacity messages.new ≡ vec_capacity messages.old }
    ensures few { length messages.new.items ≤ length messages.old.items }
{
    if yes {
        messages.clear();
    }
}

/// How many there are, if so.
fn count_if(yes: bool, messages: &[Msu]) -> usize
    ensures { result ≡ (if yes then length messages.now else 0) }
{
    if yes { messages.len() } else { 0 }
}

impl Gateway {
    /// A gateway that holds nothing, whose ASP is down.
    ///
    /// # Errors
    ///
    /// Out of memory.
    pub fn new(alloc: Global) -> Result<Gateway, AllocError>
        ensures { IfOk result (λ g. g ≡ account_of born) }
    {
        let kept = Vec::with_capacity(alloc, MOST_KEPT)?;
        let waiting = Vec::with_capacity(alloc, MOST_WAITING)?;
        Ok(Gateway {
            state: State::Down,
            kept,
            waiting,
            lost: 0,
            refused: 0,
        })
    }

    /// Where the ASP and the AS are.
    pub fn state(&self) -> State
        ensures { result ≡ self.now.holds.state }
    {
        self.state
    }

    /// How many messages of the set are kept for the ASP.
    pub fn kept(&self) -> usize
        ensures { result ≡ length self.now.holds.kept }
    {
        self.kept.as_slice().len()
    }

    /// How many messages of the ASP wait for the set.
    pub fn waiting(&self) -> usize
        ensures value { result ≡ length self.now.holds.waiting }
        ensures within { result ≤ 1024 }
    {
        self.waiting.as_slice().len()
    }

    /// Whether something that happens can be heard: DATA for level 4 only while fewer than 1,024 messages wait.
    pub fn has_room(&self, happening: Happening) -> bool
        ensures room { IsTrue result → is_data happening ≡ true → length self.now.holds.waiting < 1024 }
        ensures open { length self.now.holds.waiting < 1024 → IsTrue result }
        ensures others { is_data happening ≡ false → IsTrue result }
    {
        if happening.is_data() {
            self.waiting() < MOST_WAITING
        } else {
            true
        }
    }

    /// How many messages of the set were lost.
    pub fn lost(&self) -> u64
        ensures { result ≡ self.now.lost }
    {
        self.lost
    }

    /// How many DATA were refused.
    pub fn refused(&self) -> u64
        ensures { result ≡ self.now.refused }
    {
        self.refused
    }

    /// What the gateway does if this happens, in order.
    pub fn actions(&self, happening: Happening) -> &'static [Action]
        ensures { result.now ≡ (step self.now.holds.state happening).1 }
    {
        self.state.step(happening).1
    }

    /// The messages that are sent if this happens, in order: `Release` stands for them.
    pub fn released(&self, happening: Happening) -> &[Msu]
        ensures { result.now ≡ (result_of self.now (happens happening)).sent }
    {
        let (state, _) = self.state.step(happening);
        if releases(self.state, state) {
            self.kept.as_slice()
        } else {
            &[]
        }
    }

    /// Something happens, but no DATA that carries a message for level 4. What [`released`](Gateway::released) says is
    /// to be sent before.
    pub fn happens(&mut self, happening: Happening)
        requires { is_data happening ≡ false }
        ensures { self.new ≡ account_after self.old (happens happening) }
    {
        let (state, _) = self.state.step(happening);
        let lose = loses(self.state, state);
        let release = releases(self.state, state);
        self.lost = counted(self.lost, count_if(lose, self.kept.as_slice()));
        self.refused = counted(self.refused, strange_in(happening));
        clear_if(release, &mut self.kept);
        clear_if(lose, &mut self.kept);
        self.state = state;
    }

    /// DATA comes that carries this message for level 4: it waits for the set while the AS is active, and is refused
    /// otherwise. [`actions`](Gateway::actions) at `Data` says how it is answered.
    pub fn comes(&mut self, msu: Msu)
        requires room { length self.old.holds.waiting < 1024 }
        ensures { self.new ≡ account_after self.old (comes msu) }
    {
        if self.state.is_active() {
            self.waiting.push_reserved(msu);
        } else {
            self.refused = counted(self.refused, 1);
        }
    }

    /// Something happens, and a message carries this MTP message.
    fn hears_with(&mut self, happening: Happening, msu: Msu)
        requires room { is_data happening ≡ true → length self.old.holds.waiting < 1024 }
        ensures { self.new ≡ account_after self.old (deed_of happening (Some msu)) }
    {
        if happening.is_data() {
            self.comes(msu);
        } else {
            self.happens(happening);
        }
    }

    /// Something happens. `message` is the MTP message that the ASP's message carries, if it carries one. At `Data` it
    /// [`comes`](Gateway::comes), and there must be one, and room for it; otherwise it is passed over.
    pub fn hears(&mut self, happening: Happening, message: Option<Msu>)
        requires carried { is_data happening ≡ true → is_some message ≡ true }
        requires room { is_data happening ≡ true → length self.old.holds.waiting < 1024 }
        ensures { self.new ≡ account_after self.old (deed_of happening message) }
    {
        match message {
            None => self.happens(happening),
            Some(msu) => self.hears_with(happening, msu),
        }
    }

    /// Loses a message.
    fn lose(&mut self, msu: &Msu) -> Delivery
        ensures account { self.new ≡ account_with self.old (after_delivery (standing self.old.holds) msu.now state.Down) }
        ensures sent { sent_in result ≡ [] }
        ensures lost { lost_in result ≡ 1 }
    {
        self.lost = counted(self.lost, 1);
        Delivery::Lost
    }

    /// Keeps a message, if there is room.
    fn keep(&mut self, msu: Msu) -> Delivery
        ensures account { self.new ≡ record {
          holds = (while_pending (standing self.old.holds) msu).holds;
          lost = counted (self.old.lost + length (while_pending (standing self.old.holds) msu).lost);
          refused = self.old.refused;
        } }
        ensures sent { sent_in result ≡ [] }
        ensures lost { lost_in result ≡ length (while_pending (standing self.old.holds) msu).lost }
    {
        if self.kept.as_slice().len() < MOST_KEPT {
            self.kept.push_reserved(msu);
            Delivery::Kept
        } else {
            self.lost = counted(self.lost, 1);
            Delivery::Lost
        }
    }

    /// Passes on a message that can be DATA, by the state.
    fn passes(&mut self, msu: Msu) -> Delivery
        ensures account { self.new ≡ account_with self.old (after_delivery (standing self.old.holds) msu self.old.holds.state) }
        ensures sent { sent_in result ≡ (after_delivery (standing self.old.holds) msu self.old.holds.state).sent }
        ensures lost { lost_in result ≡ length (after_delivery (standing self.old.holds) msu self.old.holds.state).lost }
    {
        if self.state.is_active() {
            Delivery::Send(msu)
        } else if self.state.is_pending() {
            self.keep(msu)
        } else {
            self.lose(&msu)
        }
    }

    /// The set delivers a message. One without a routing label, or with a service indicator under 3, is lost: it isn't
    /// for level 4 (Q.704, 14.2.1).
    pub fn delivers(&mut self, msu: Msu) -> Delivery
        ensures account { self.new ≡ account_after self.old (delivers msu) }
        ensures sent { sent_in result ≡ (result_of self.old (delivers msu)).sent }
        ensures lost { lost_in result ≡ length (result_of self.old (delivers msu)).lost }
    {
        if is_fit(&msu) {
            self.passes(msu)
        } else {
            self.lose(&msu)
        }
    }

    /// The first message of a selection that waits for the set.
    pub fn first(&self, selection: u8) -> Option<&Msu>
        ensures { option_copied result ≡ first_of selection self.now.holds.waiting }
    {
        first_in(selection, self.waiting.as_slice())
    }

    /// Removes the first message of a selection that waits.
    fn remove_first(&mut self, selection: u8) -> Option<Msu>
        ensures value { result ≡ first_of selection self.old.holds.waiting }
        ensures account { self.new ≡ record self.old { holds = record self.old.holds { waiting = without_first selection self.old.holds.waiting } } }
        ensures counts { (self.old.lost ≤ GREATEST) × (self.old.refused ≤ GREATEST) }
    {
        match place_in(selection, self.waiting.as_slice()) {
            None => None,
            Some(place) => Some(self.waiting.remove(place)),
        }
    }

    /// The set takes the first message of a selection that waits.
    pub fn take_first(&mut self, selection: u8) -> Option<Msu>
        ensures value { result ≡ first_of selection self.old.holds.waiting }
        ensures account { self.new ≡ account_after self.old (takes selection) }
    {
        self.remove_first(selection)
    }

    /// The set refuses the first message of a selection that waits, for good.
    pub fn drop_first(&mut self, selection: u8) -> Option<Msu>
        ensures value { result ≡ first_of selection self.old.holds.waiting }
        ensures account { self.new ≡ account_after self.old (drops selection) }
    {
        match self.remove_first(selection) {
            None => None,
            Some(msu) => {
                self.refused = counted(self.refused, 1);
                Some(msu)
            }
        }
    }
}
