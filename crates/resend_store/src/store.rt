//! The queue of kept messages, with room allocated in advance.
ghost use Rattle.std.specs.Prelude.{◌≡◌, ◌+◌, ◌-◌, ◌<◌, ◌≤◌, [], ◌∷◌, ◌++◌, All, IfOk, IfSome, OnErr, length, drop, take, slice_get};
ghost use Rattle.std.specs.Option.{option_copied};
ghost use Rattle.std.specs.VecDeque.{deque_capacity};
ghost use Rattle.resend_store.specs.Limits.{MOST_KEPT, MOST_UNACKNOWLEDGED};
ghost use Rattle.resend_store.specs.Messages.{IsMessage, octets, reaches_limit};

use crate::messages::{MAX_KEPT, MAX_UNACKNOWLEDGED, Msu, RoundLimits};
use std::alloc::{AllocError, Global};
use std::collections::VecDeque;
use std::marker::Model;
use std::mem;

/// Messages, oldest first. The first `sent` of them are sent.
#[derive(Debug, Drop)]
pub(crate) struct Store {
    kept: VecDeque<Msu>,
    sent: u8,
    /// The octets of the sent messages.
    octets: u16,
}

impl Model for Store {
    ghost use Rattle.resend_store.specs.Stored.{Stored};

    ghost Value = { Stored };

    ghost use Rattle.resend_store.specs.StoreInside.{stored_of, IsStore};

    ghost view = { stored_of };

    ghost invariant = { IsStore };
}

impl Store {
    /// An empty store with room for all messages that may be kept.
    pub(crate) fn new(alloc: Global) -> Result<Store, AllocError>
        ensures { IfOk result (λ s. s ≡ record { kept = []; sent = 0 }) }
    {
        let kept = VecDeque::with_capacity(alloc, MAX_KEPT)?;
        Ok(Store {
            kept,
            sent: 0,
            octets: 0,
        })
    }

    /// The number of kept messages, at most `MAX_KEPT`.
    pub(crate) fn len(&self) -> usize
        ensures value { result ≡ length self.now.kept }
        ensures within { result ≤ MOST_KEPT }
    {
        self.kept.len()
    }

    /// The number of sent messages, which are the first ones, at most `MAX_UNACKNOWLEDGED`.
    pub(crate) fn sent(&self) -> u8
        ensures value { result ≡ self.now.sent }
        ensures within { result ≤ MOST_UNACKNOWLEDGED }
        ensures within_kept { result ≤ length self.now.kept }
    {
        self.sent
    }

    /// The message at an index, the oldest at 0.
    pub(crate) fn get(&self, place: usize) -> Option<&Msu>
        ensures value { option_copied result ≡ slice_get self.now.kept place }
        ensures message { IfSome (slice_get self.now.kept place) IsMessage }
    {
        self.kept.get(place)
    }

    /// Whether the sent messages reach a limit and must go out again without a request.
    pub(crate) fn reaches_limit(&self, limits: RoundLimits) -> bool
        ensures { result ≡ reaches_limit limits (take self.now.sent self.now.kept) }
    {
        self.sent > 0 && (self.sent >= limits.messages || self.octets >= limits.octets)
    }

    /// Adds a waiting message.
    pub(crate) fn push(&mut self, msu: Msu)
        requires message { 2 ≤ length msu.sif.items }
        requires room { length self.old.kept < MOST_KEPT }
        ensures { self.new ≡ record self.old { kept = self.old.kept ++ msu ∷ [] } }
    {
        let _fits = msu.sif.len();
        self.kept.push_back_reserved(msu);
    }

    /// Removes the waiting message at an index.
    pub(crate) fn remove(&mut self, place: usize)
        requires waits { self.old.sent ≤ place }
        requires there { place < length self.old.kept }
        ensures { self.new ≡ record self.old { kept = take place self.old.kept ++ drop (place + 1) self.old.kept } }
    {
        match self.kept.remove(place) {
            Some(_msu) => {}
            None => {}
        }
    }

    /// Counts the first waiting message as sent.
    pub(crate) fn send_one(&mut self)
        requires waiting { self.old.sent < length self.old.kept }
        requires window { self.old.sent < MOST_UNACKNOWLEDGED }
        ensures { self.new ≡ record self.old { sent = self.old.sent + 1 } }
    {
        self.octets += self.kept[self.sent as usize].octets();
        self.sent += 1;
    }

    /// Removes the first `count` messages.
    pub(crate) fn release(&mut self, count: u8)
        requires { count ≤ self.old.sent }
        ensures { self.new ≡ record { kept = drop count self.old.kept; sent = self.old.sent - count } }
    {
        let octets = drop_front(&mut self.kept, count);
        self.octets -= octets;
        self.sent -= count;
    }

    /// Makes all messages wait again.
    pub(crate) fn unsend(&mut self)
        ensures { self.new ≡ record self.old { sent = 0 } }
    {
        self.sent = 0;
        self.octets = 0;
    }

    /// Removes all messages and keeps their room.
    pub(crate) fn clear(&mut self)
        ensures { self.new ≡ record { kept = []; sent = 0 } }
    {
        self.kept.clear();
        self.sent = 0;
        self.octets = 0;
    }

    /// Hands out all messages, after it has allocated room for as many again.
    pub(crate) fn take_all(&mut self) -> Result<VecDeque<Msu>, AllocError>
        ensures all { IfOk result (λ q. q.items ≡ self.old.kept) }
        ensures emptied { IfOk result (λ _. self.new ≡ record { kept = []; sent = 0 }) }
        ensures err { OnErr result (self.new ≡ self.old) }
    {
        let empty = Store {
            kept: VecDeque::with_capacity(*self.kept.allocator(), MAX_KEPT)?,
            sent: 0,
            octets: 0,
        };
        Ok(mem::replace(self, empty).kept)
    }
}

/// Removes the first `count` messages and returns the number of their octets.
pub(crate) fn drop_front(queue: &mut VecDeque<Msu>, count: u8) -> u16
    requires there { count ≤ length queue.old.items }
    requires few { count ≤ 128 }
    requires messages { All IsMessage queue.old.items }
    ensures left { queue.new.items ≡ drop count queue.old.items }
    ensures weight { result ≡ octets (take count queue.old.items) }
    ensures capacity { deque_capacity queue.new ≡ deque_capacity queue.old }
{
    let mut octets = 0;
    for _i in 0..count {
        if let Some(msu) = queue.pop_front() {
            octets += msu.octets();
        }
    }
    octets
}
