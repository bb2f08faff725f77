//! Signals that wait for the environment.

ghost use Rattle.std.specs.Prelude.{◌≡◌, ◌∷◌, [], length, slice_get, IfOk, IfSome, IfNone};
ghost use Rattle.std.specs.Option.{option_copied};
ghost use Rattle.actor_machine.specs.Core.{Ring as Waiting};
ghost use Rattle.actor_machine.specs.Effects.{has_room, with_emitted};
ghost use Rattle.actor_machine.specs.Step.{tail_of};

use actor_machine::Emitted;
use circular_buffer::HeapCircularBuffer;
use std::alloc::{AllocError, Global};
use std::marker::Model;
use turn_code::copied_values;

/// Signals that actors sent to the environment, in the order in which they were sent, up to a capacity.
/// After `new` only `copy` can return that memory ran out.
#[derive(Drop)]
pub struct Ring {
    items: HeapCircularBuffer<Emitted>,
}

impl Model for Ring {
    ghost use Rattle.actor_machine.specs.Core.{Ring as Waiting};

    ghost Value = { Waiting };

    ghost view = { λ r. record { capacity = r.items.capacity; items = r.items.items } };
}

impl Ring {
    /// An empty ring with room for `capacity` signals. `AllocError` if memory runs out.
    pub(crate) fn new(alloc: Global, capacity: usize) -> Result<Ring, AllocError>
        ensures { IfOk result (λ ring. ring ≡ record { capacity = capacity; items = [] }) }
    {
        Ok(Ring {
            items: HeapCircularBuffer::with_capacity(alloc, capacity)?,
        })
    }

    /// The number of signals.
    pub(crate) fn len(&self) -> usize
        ensures { result ≡ length self.now.items }
    {
        self.items.len()
    }

    /// The signal at a place; 0 is the one that has waited longest.
    pub(crate) fn get(&self, place: usize) -> Option<&Emitted>
        ensures { option_copied result ≡ slice_get self.now.items place }
    {
        self.items.get(place)
    }

    /// Adds a signal after the others if there is room, and returns whether there was.
    pub(crate) fn put(&mut self, emitted: Emitted) -> bool
        ensures ring { self.new ≡ with_emitted self.old emitted }
        ensures room { result ≡ has_room self.old }
    {
        self.items.try_push_back(emitted).is_ok()
    }

    /// Takes the signal that has waited longest.
    pub(crate) fn take(&mut self) -> Option<Emitted>
        ensures rest { self.new ≡ record self.old { items = tail_of self.old.items } }
        ensures first { IfSome result (λ x. self.old.items ≡ x ∷ self.new.items) }
        ensures none { IfNone result (self.old.items ≡ []) }
    {
        self.items.pop_front()
    }

    /// An equal ring, or `AllocError` if memory runs out.
    pub(crate) fn copy(&self) -> Result<Ring, AllocError>
        ensures { IfOk result (λ ring. ring ≡ self.now) }
    {
        let alloc = *self.items.allocator();
        let mut items = HeapCircularBuffer::with_capacity(alloc, self.items.capacity())?;
        for emitted in &self.items {
            let _full = items.try_push_back(copied(emitted)).is_err();
        }
        Ok(Ring { items })
    }
}

/// A copy of the signal. It can't fail.
pub(crate) fn copied(emitted: &Emitted) -> Emitted
    ensures { result ≡ emitted.now }
{
    Emitted {
        sender: emitted.sender,
        signal: emitted.signal,
        parameters: copied_values(&emitted.parameters),
    }
}

impl crate::link_actors::LinkActors {
    /// Takes the signal that has waited longest for the environment.
    pub fn take(&mut self) -> Option<Emitted>
        ensures link { self.new ≡ record self.old { ring = record self.old.ring { items = tail_of self.old.ring.items } } }
        ensures first { IfSome result (λ x. self.old.ring.items ≡ x ∷ self.new.ring.items) }
        ensures none { IfNone result (self.old.ring.items ≡ []) }
    {
        self.ring.take()
    }
}
