//! How a worker reaches the links of its pool.

ghost use Rattle.std.specs.Prelude.{◌≡◌, ◌≤◌, IfNone, vec_len};

use crate::pool::Pool;
use crate::slot::Slot;
use std::marker::PhantomData;
use std::sync::ledger::Ledger;
use std::sync::{MutexGuard, Wait};

/// A worker's hand, the only means by which it locks links. While the worker holds a lock its hand isn't open.
#[derive(Drop)]
pub(crate) struct Hand<'p, 'r, R: Wait, L: Ledger> {
    pool: &'p Pool<'r, R, L>,
}

/// Evidence that a worker holds no lock, as long as this lives.
#[derive(Drop)]
pub(crate) struct Open<'a> {
    marker: PhantomData<&'a ()>,
}

impl<'p, 'r, R: Wait, L: Ledger> Hand<'p, 'r, R, L> {
    /// The hand of a worker that holds no lock yet.
    pub(crate) fn new(pool: &'p Pool<'r, R, L>) -> Hand<'p, 'r, R, L>
        ensures { result.pool.now ≡ pool.now }
    {
        Hand { pool }
    }

    /// Locks a link, if there is one with this number. The hand is borrowed until the lock is released.
    pub(crate) fn lock(&mut self, link: usize) -> Option<MutexGuard<'_, Slot<L>>>
        ensures { IfNone result (vec_len self.old.pool.now.links ≤ link) }
    {
        match self.pool.links.get(link) {
            Some(held) => Some(held.lock(self.pool.rt)),
            None => None,
        }
    }

    /// Shows that the hand holds no lock: it can be borrowed. It takes no lock while the result lives.
    pub(crate) fn open(&self) -> Open<'_> {
        Open {
            marker: PhantomData,
        }
    }
}
