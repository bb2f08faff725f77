//! A queue with a greatest length, allocated when it is made.
ghost use Rattle.std.specs.Prelude.{◌≡◌, ◌<◌, ◌≤◌, ◌↔◌, [], ◌∷◌, ◌++◌, IsTrue, IfOk, length, drop, slice_get};

use std::alloc::{AllocError, Global};
use std::collections::VecDeque;
use std::marker::Model;

/// At most `N` items, in order of arrival. Contracts see their list, the oldest first.
///
/// Only `new` can run out of memory.
#[derive(Debug, Drop)]
pub struct KeptQueue<T, const N: usize> {
    items: VecDeque<T>,
}

impl<T, const N: usize> Model for KeptQueue<T, N> {
    ghost use Rattle.std.specs.Prelude.{◌≤◌, List, length};
    ghost use Rattle.std.specs.VecDeque.{deque_capacity};

    ghost Value = { List T };

    ghost view = { λ q. q.items.items };

    ghost invariant = { λ q. (length q.items.items ≤ N) × (N ≤ deque_capacity q.items) };
}

impl<T, const N: usize> KeptQueue<T, N> {
    /// An empty queue with room for `N` items.
    pub fn new(alloc: Global) -> Result<KeptQueue<T, N>, AllocError>
        ensures { IfOk result (λ q. q ≡ []) }
    {
        let items = VecDeque::with_capacity(alloc, N)?;
        Ok(KeptQueue { items })
    }

    /// How many items there are; at most `N`.
    pub fn len(&self) -> usize
        ensures value { result ≡ length self.now }
        ensures within { length self.now ≤ N }
    {
        self.items.len()
    }

    /// Whether the queue is full.
    pub fn is_full(&self) -> bool
        ensures { IsTrue result ↔ (N ≤ length self.now) }
    {
        self.items.len() >= N
    }

    /// Puts an item last. There must be room.
    pub fn push(&mut self, item: T)
        requires { length self.old < N }
        ensures { self.new ≡ self.old ++ item ∷ [] }
    {
        self.items.push_back_reserved(item);
    }

    /// Takes the oldest item, if there is one.
    pub fn pop(&mut self) -> Option<T>
        ensures first { result ≡ slice_get self.old 0 }
        ensures rest { self.new ≡ drop 1 self.old }
    {
        self.items.pop_front()
    }
}
