//! Messages to send that wait.
ghost use Rattle.std.specs.Prelude.{◌≡◌, ℕ, ◌≤◌, ◌<◌, ◌-◌, ◌/◌, ◌^◌, ◌++◌, ◌∷◌, [], cond, min, length, slice_get, true, false, IfSome, IsNone, IsTrue};
ghost use Rattle.line_tending.specs.Labels.{label_in, number_of};
ghost use Rattle.line_tending.specs.Sharing.{selection_by};
ghost use Rattle.line_play.specs.SetQueues.{MOST_WAITING as MOST, waited_of, waiting_in, selection_in, is_at, count_of};

use std::alloc::Global;
use std::collections::VecDeque;

/// The most orders that may wait.
const MOST_WAITING: usize = 1_024;

/// A waiting `send`.
#[derive(Drop)]
pub struct Waiting {
    /// The beginning of its answer.
    pub mark: String,
    /// Its words.
    pub text: String,
    /// The octets of its message.
    pub octets: Vec<u8>,
    /// The millisecond at which it came.
    pub since: u64,
}

/// The selection of a label of these octets: the upper half of the last.
fn selection_by(a: u8, b: u8, c: u8, last: u8) -> usize
    ensures value { result ≡ number_of a b c last / 2 ^ 28 }
    ensures small { result < 16 }
{
    let _unasked = (a, b, c);
    (last / 16) as usize
}

/// The selection of the label with which a message's field begins, or 0.
fn selection_of(field: &[u8]) -> usize
    ensures value { result ≡ selection_by (label_in field.now) }
    ensures small { result < 16 }
{
    match field {
        [a, b, c, last, ..] => selection_by(*a, *b, *c, *last),
        _ => 0,
    }
}

/// The selection of a message, from the label after its service information octet, or 0.
pub(crate) fn selection(octets: &[u8]) -> usize
    ensures value { result ≡ selection_in octets.now }
    ensures small { result < 16 }
{
    match octets {
        [_, field @ ..] => selection_of(field),
        [] => 0,
    }
}

/// Waiting messages to send, in the order in which they came.
#[derive(Drop)]
pub struct Queue {
    waiting: VecDeque<Waiting>,
}

impl Queue {
    /// Returns an empty queue.
    pub fn new(alloc: Global) -> Queue
        ensures { waiting_in result ≡ [] }
    {
        Queue {
            waiting: VecDeque::new(alloc),
        }
    }

    /// The number of waiting messages.
    pub fn len(&self) -> usize
        ensures { result ≡ length (waiting_in self.now) }
    {
        self.waiting.len()
    }

    /// Whether no further order may wait.
    pub fn is_full(&self) -> bool
        ensures many { result ≡ true → MOST ≤ length (waiting_in self.now) }
        ensures few { result ≡ false → length (waiting_in self.now) < MOST }
    {
        self.waiting.len() >= MOST_WAITING
    }

    /// Whether the message at a place, if one waits there, is of a selection.
    fn is_of(&self, place: usize, wanted: usize) -> bool
        ensures { result ≡ is_at wanted (slice_get (waiting_in self.now) place) }
    {
        match self.waiting.get(place) {
            Some(waiting) => selection(waiting.octets.as_slice()) == wanted,
            None => false,
        }
    }

    /// 1 if the message at a place is of a selection, else 0.
    fn one_at(&self, place: usize, wanted: usize) -> usize
        ensures { result ≡ cond {A = ℕ} (is_at wanted (slice_get (waiting_in self.now) place)) 1 0 }
    {
        if self.is_of(place, wanted) {
            return 1;
        }
        0
    }

    /// The number of waiting messages of a selection.
    pub fn count(&self, selection: usize) -> usize
        ensures { result ≡ min (2 ^ 64 - 1) (count_of selection (waiting_in self.now)) }
    {
        let mut count: usize = 0;
        for place in 0..self.waiting.len() {
            count = count.saturating_add(self.one_at(place, selection));
        }
        count
    }

    /// Takes the first waiting order.
    pub fn take(&mut self) -> Option<Waiting>
        ensures some { IfSome result (λ first. waiting_in self.old ≡ waited_of first ∷ waiting_in self.new) }
        ensures none { IsNone result → waiting_in self.new ≡ waiting_in self.old }
        ensures nobody { IsNone result → waiting_in self.old ≡ [] }
    {
        self.waiting.pop_front()
    }

    /// Appends a message. Returns whether there was memory.
    pub fn put(&mut self, waiting: Waiting) -> bool
        ensures { IsTrue result → waiting_in self.new ≡ waiting_in self.old ++ waited_of waiting ∷ [] }
    {
        self.waiting.push_back(waiting).is_ok()
    }
}
