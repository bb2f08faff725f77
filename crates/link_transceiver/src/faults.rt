//! The faults of the last units.
ghost use Rattle.std.specs.Prelude.{◌≡◌, ◌≤◌, ◌∷◌, [], count_by};
ghost use Rattle.link_transceiver.specs.Faults.{no_faults, with_newest, is_failing, is_abnormal_bsn, is_abnormal_fib};

use std::marker::Model;

/// The fault of a unit whose check bits are right (Q.703, 5.3).
#[derive(Clone, Copy, Debug, PartialEq, Eq)]
pub enum Fault {
    /// Its backward sequence number acknowledges messages that weren't sent.
    AbnormalBsn,
    /// Its forward indicator bit changed, although no retransmission was requested.
    AbnormalFib,
}

/// The faults of the last three units that went through the stores. Contracts see a list, the newest first.
#[derive(Debug, Drop)]
pub(crate) struct LastThree {
    newest: Option<Fault>,
    middle: Option<Fault>,
    oldest: Option<Fault>,
}

impl Model for LastThree {
    ghost use Rattle.std.specs.Prelude.{List, Option, ◌∷◌, []};
    ghost use Rattle.link_transceiver.specs.declared.faults.Fault.{Fault};

    ghost Value = { List (Option Fault) };

    ghost view = { λ r. r.newest ∷ r.middle ∷ r.oldest ∷ [] };
}

impl LastThree {
    /// No faults, or no units yet.
    pub(crate) fn new() -> LastThree
        ensures { result ≡ no_faults }
    {
        LastThree {
            newest: None,
            middle: None,
            oldest: None,
        }
    }

    /// Remembers one more unit, with its fault if it has one.
    pub(crate) fn remember(&mut self, fault: Option<Fault>)
        ensures { self.new ≡ with_newest fault self.old }
    {
        self.oldest = self.middle;
        self.middle = self.newest;
        self.newest = fault;
    }

    /// Whether two of the units had one kind of fault, or two the other.
    #[tactic(auto, unfolding(crate::specs::Faults::is_failing))]
    pub(crate) fn is_failing(&self) -> bool
        ensures { result ≡ is_failing self.now }
    {
        let bsns = bsn(self.newest) + bsn(self.middle) + bsn(self.oldest);
        let fibs = fib(self.newest) + fib(self.middle) + fib(self.oldest);
        bsns >= 2 || fibs >= 2
    }
}

/// 1 for an abnormal backward number.
fn bsn(fault: Option<Fault>) -> u8
    ensures value { result ≡ count_by is_abnormal_bsn (fault ∷ []) }
    ensures within { result ≤ 1 }
{
    match fault {
        Some(Fault::AbnormalBsn) => 1,
        Some(Fault::AbnormalFib) | None => 0,
    }
}

/// 1 for an abnormal forward indicator.
fn fib(fault: Option<Fault>) -> u8
    ensures value { result ≡ count_by is_abnormal_fib (fault ∷ []) }
    ensures within { result ≤ 1 }
{
    match fault {
        Some(Fault::AbnormalFib) => 1,
        Some(Fault::AbnormalBsn) | None => 0,
    }
}
