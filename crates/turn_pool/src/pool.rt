//! Books that threads share.

ghost use Rattle.std.specs.Prelude.{◌≡◌, ◌+◌, ◌↔◌, ◌≤◌, vec_len, Err, IfOk, IfErr, OnOk, OnErr};
ghost use Rattle.actor_machine.specs.declared.event.Event.TheVariants.{Offer as Offered, Advance, TakeEnv};
ghost use Rattle.actor_machine.specs.declared.reply.Reply.TheVariants as reply;
ghost use Rattle.turn_pool.specs.Receipts.{IsOwn, IsTaken, IsRefusal, IsRebased, IsRebaseRefusal};
ghost use Rattle.turn_pool.specs.declared.receipt.PoolRefusal.TheVariants.{NoLink};

use crate::receipt::{PoolRefusal, Receipt};
use crate::slot::Slot;
use crate::totals::{Seat, Totals};
use actor_machine::Emitted;
use std::sync::atomic::{AtomicBool, Ordering};
use std::sync::ledger::Ledger;
use std::sync::{Mutex, Wait};
use turn_code::{SignalNumber, Value};

/// The books of links, each under a lock of its own.
#[derive(Drop)]
pub struct Pool<'r, R: Wait, L: Ledger> {
    pub(crate) rt: &'r R,
    pub(crate) links: Vec<Mutex<Slot<L>>>,
    pub(crate) totals: Totals<L>,
    pub(crate) closing: AtomicBool,
}

impl<'r, R: Wait, L: Ledger> Pool<'r, R, L> {
    /// Closes the pool: it refuses clients from now on, and its workers come to an end.
    pub fn close(&self) {
        self.closing.store(true, Ordering::SeqCst);
    }

    /// Whether the pool is closing.
    pub(crate) fn is_closing(&self) -> bool {
        self.closing.load(Ordering::SeqCst)
    }

    /// The lock of a link, while the pool is open.
    fn open_link(&self, link: usize) -> Result<&Mutex<Slot<L>>, PoolRefusal>
        ensures no_link { (result ≡ Err NoLink) ↔ (vec_len self.now.links ≤ link) }
        ensures own { IfErr result IsOwn }
    {
        match self.links.get(link) {
            None => Err(PoolRefusal::NoLink),
            Some(_) if self.is_closing() => Err(PoolRefusal::Closing),
            Some(slot) => Ok(slot),
        }
    }

    /// Offers an actor of a link a signal of the environment, by [`actor_book::Book::offer`]. The seat counts it.
    ///
    /// # Errors
    ///
    /// In this order: `B10 NoActor` for a missing link, `G2 Closing`, those of the book. Then nothing changes.
    pub fn offer(
        &self,
        link: usize,
        actor: u16,
        signal: SignalNumber,
        values: &[Value],
        seat: &mut Seat<L>,
    ) -> Result<Receipt, PoolRefusal>
        ensures counted { OnOk result (seat.new ≡ seat.old + 1) }
        ensures err { OnErr result (seat.new ≡ seat.old) }
        ensures no_link { (result ≡ Err NoLink) ↔ (vec_len self.now.links ≤ link) }
        ensures taken { let e = Offered (record { actor = actor; signal = signal; values = record { items = values.now } }) in IfOk result (IsTaken link e reply.Offered) }
        ensures refused { let e = Offered (record { actor = actor; signal = signal; values = record { items = values.now } }) in IfErr result (IsRefusal e) }
    {
        let mut lock = self.open_link(link)?.lock(self.rt);
        let slot = &mut *lock;
        slot.keeps();
        match slot.offer(seat, &self.totals, actor, signal, values) {
            Ok(receipt) => Ok(receipt.of_link(link)),
            Err(refusal) => Err(PoolRefusal::Refused(refusal)),
        }
    }

    /// Passes ticks on a link, by [`actor_book::Book::advance`]. Returns how many timers were due. The seat counts it.
    ///
    /// # Errors
    ///
    /// In this order: `B10 NoActor` for a missing link, `G2 Closing`, those of the book. Then nothing changes.
    pub fn advance(
        &self,
        link: usize,
        ticks: u64,
        seat: &mut Seat<L>,
    ) -> Result<(usize, Receipt), PoolRefusal>
        ensures counted { OnOk result (seat.new ≡ seat.old + 1) }
        ensures err { OnErr result (seat.new ≡ seat.old) }
        ensures no_link { (result ≡ Err NoLink) ↔ (vec_len self.now.links ≤ link) }
        ensures taken { IfOk result (λ r. IsTaken link (Advance ticks) (reply.Passed r.0) r.1) }
        ensures refused { IfErr result (IsRefusal (Advance ticks)) }
    {
        let mut lock = self.open_link(link)?.lock(self.rt);
        let slot = &mut *lock;
        slot.keeps();
        match slot.advance(seat, &self.totals, ticks) {
            Ok((due, receipt)) => Ok((due, receipt.of_link(link))),
            Err(refusal) => Err(PoolRefusal::Refused(refusal)),
        }
    }

    /// Takes the signal that has waited longest for the environment on a link, as [`actor_book::Book::take_env`] does.
    /// The seat counts it.
    ///
    /// # Errors
    ///
    /// In this order: `B10 NoActor` for a missing link, `G2 Closing`, those of the book. Then nothing changes.
    pub fn take_env(
        &self,
        link: usize,
        seat: &mut Seat<L>,
    ) -> Result<(Emitted, Receipt), PoolRefusal>
        ensures counted { OnOk result (seat.new ≡ seat.old + 1) }
        ensures err { OnErr result (seat.new ≡ seat.old) }
        ensures no_link { (result ≡ Err NoLink) ↔ (vec_len self.now.links ≤ link) }
        ensures taken { IfOk result (λ r. IsTaken link TakeEnv (reply.Taken r.0) r.1) }
        ensures refused { IfErr result (IsRefusal TakeEnv) }
    {
        let mut lock = self.open_link(link)?.lock(self.rt);
        let slot = &mut *lock;
        slot.keeps();
        match slot.take_env(seat, &self.totals) {
            Ok((emitted, receipt)) => Ok((emitted, receipt.of_link(link))),
            Err(refusal) => Err(PoolRefusal::Refused(refusal)),
        }
    }

    /// Makes the present state of a link its base, as [`actor_book::Book::rebase`] does. Returns the place of its
    /// journal's next event. A rebase is no event and isn't counted.
    ///
    /// # Errors
    ///
    /// In this order: `B10 NoActor` for a missing link, `G2 Closing`, `NoMemory`. Then nothing changes.
    pub fn rebase(&self, link: usize, seat: &mut Seat<L>) -> Result<u64, PoolRefusal>
        ensures same { seat.new ≡ seat.old }
        ensures place { IfOk result IsRebased }
        ensures refused { IfErr result IsRebaseRefusal }
        ensures no_link { (result ≡ Err NoLink) ↔ (vec_len self.now.links ≤ link) }
    {
        let _seat = seat;
        let mut lock = self.open_link(link)?.lock(self.rt);
        let slot = &mut *lock;
        slot.keeps();
        match slot.rebase() {
            Ok(place) => Ok(place),
            Err(_) => Err(PoolRefusal::NoMemory),
        }
    }
}
