//! Events counted over threads. A ledger has 2^61 in all: each link keeps 2^57 less the next place of its journal, and
//! each seat keeps its count. So the seats together gain what the journals grow by. The account is closed before
//! anything is counted: from then on shares transfer amounts to each other, which takes no lock.

ghost use Rattle.std.specs.Prelude.{◌≡◌, ◌≤◌, ◌<◌, ◌+◌, ◌^◌};

use std::marker::Model;
use std::sync::ledger::{Blank, Ledger, Share, Total};

/// The number of journal events that a worker or a client made.
#[derive(Drop)]
pub struct Seat<L: Ledger> {
    pub(crate) events: u64,
    pub(crate) share: Share<L>,
}

impl<L: Ledger> Model for Seat<L> {
    ghost use Rattle.std.specs.Prelude.{◌≡◌, ℕ};

    ghost Value = { ℕ };

    ghost view = { λ s. s.events };

    ghost invariant = { λ s. (s.share.parts ≡ 1) × (s.share.amount ≡ s.events) };
}

impl<L: Ledger> Seat<L> {
    /// The number of events counted.
    pub fn events(&self) -> u64
        ensures { result ≡ self.now }
    {
        self.events
    }
}

/// The closed account of all shares: its total amount is fixed.
#[derive(Drop)]
pub struct Totals<L: Ledger> {
    pub(crate) total: Total<L>,
    ghost kept: { total.amount ≡ 2 ^ 61 },
}

impl<L: Ledger> Totals<L> {
    /// A new account, with the whole amount in one share.
    pub fn open(blank: Blank) -> (Totals<L>, Share<L>)
        requires name { blank.name ≡ L.name }
        requires parts { blank.parts ≡ L.parts }
        requires some { 0 < blank.parts }
        ensures all { result.0.total.parts ≡ blank.parts }
        ensures parts { result.1.parts ≡ blank.parts }
        ensures amount { result.1.amount ≡ 2 ^ 61 }
    {
        let (mut account, mut all) = blank.open::<L>();
        account.add(&mut all, 1 << 61);
        let total = account.close();
        (Totals { total }, all)
    }

    /// A share with all parts has the whole amount.
    pub fn audit(&self, all: &mut Share<L>)
        requires { all.old.parts ≡ self.now.total.parts }
        ensures { all.old.amount ≡ 2 ^ 61 }
    {
        self.total.audit(all);
    }

    /// Counts events of a link's journal on a seat.
    pub fn count(&self, from: &mut Share<L>, seat: &mut Seat<L>, events: u64)
        requires part { 0 < from.old.parts }
        requires amount { events ≤ from.old.amount }
        ensures from { from.new.amount + events ≡ from.old.amount }
        ensures parts { from.new.parts ≡ from.old.parts }
        ensures seat { seat.new ≡ seat.old + events }
    {
        from.transfer(&mut seat.share, events);
        self.total.audit(&mut seat.share);
        seat.events += events;
    }
}
