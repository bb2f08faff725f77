//! The port and its items.

ghost use Rattle.std.specs.Prelude.{◌≡◌, ℕ, ◌+◌, ◌<◌, ◌≤◌, ◌↔◌, ◌==◌, false, List, [], ◌∷◌, ◌++◌, length, take, drop, remove, slice_get, IfOk, IfSome, IfNone, OnOk, OnErr, OnSome, IsErrOf};
ghost use Rattle.std.specs.Option.{option_copied};
ghost use Rattle.circular_buffer.specs.Buffer.{buffer};
ghost use Rattle.input_port.specs.Saves.{saves};
ghost use Rattle.input_port.specs.Queue.{is_signal, is_of_timer, signal_count, has_timer, without_timer, first_unsaved, without_first, Takes, IsQueue};
ghost use Rattle.plain_laws.specs.Limits.{LEAST_PORT, MOST_PORT, MOST_TIMERS_EACH};

use crate::save::{Saved, TIMERS};
use arrayvec::ArrayVec;
use circular_buffer::HeapCircularBuffer;
use std::alloc::{AllocError, Global};
use std::fmt;
use std::marker::Model;
use thiserror::Error;
use turn_code::{Address, SignalNumber, TimerNumber, Value};

/// A signal that has arrived for a process.
#[derive(Clone, Debug, Drop)]
pub struct Arrival {
    pub signal: SignalNumber,
    pub parameters: ArrayVec<Value, 4>,
    /// The sender of the signal.
    pub sender: Address,
}

/// An item that waits in a port.
#[derive(Clone, Debug, Drop)]
pub enum Item {
    /// A signal of another process or of the environment.
    Signal(Arrival),
    /// The signal of a timer of the process itself.
    Timer(TimerNumber),
}

impl Item {
    /// Whether the item is a signal of another process or of the environment.
    fn is_signal(&self) -> bool
        ensures { result ≡ is_signal self.now }
    {
        matches!(self, Item::Signal(_))
    }

    /// Whether the item is the signal of this timer.
    fn is_of_timer(&self, timer: TimerNumber) -> bool
        ensures { result ≡ is_of_timer timer.0 self.now }
    {
        match self {
            Item::Signal(_) => false,
            Item::Timer(own) => *own == timer,
        }
    }
}

/// Why a port did not take a signal.
#[derive(Clone, Copy, Debug, PartialEq, Eq, Error)]
pub enum PutError {
    /// The port holds as many signals as its capacity.
    Full,
}

impl fmt::Display for PutError {
    ghost use Rattle.std.specs.Prelude.{Some};
    ghost use Rattle.input_port.specs.Printed.{put_error_text};

    ghost output = { λ e. Some (put_error_text e) };

    fn fmt<W: fmt::Write>(&self, f: &mut fmt::Formatter<W>) -> fmt::Result {
        f.write_str(match self {
            Self::Full => "Q1 Full",
        })
    }
}

/// The items that wait for a process, in order of arrival.
///
/// At most as many of them are signals as the capacity. Each timer has a place beside these, so the ring has a place
/// for each item that may arrive. After `new` only `copy` can fail because memory runs out.
#[derive(Debug, Drop)]
pub struct Port {
    capacity: usize,
    items: HeapCircularBuffer<Item>,
}

impl Model for Port {
    ghost use Rattle.std.specs.Prelude.{◌≡◌, ◌+◌};
    ghost use Rattle.input_port.specs.Queue.{Queue, IsQueue};
    ghost use Rattle.plain_laws.specs.Limits.{MOST_TIMERS_EACH};

    ghost Value = { Queue };

    ghost view = { λ p. record { capacity = p.capacity; items = p.items.items } };

    ghost invariant = { λ p. IsQueue p.capacity p.items.items × (p.items.capacity ≡ p.capacity + MOST_TIMERS_EACH) };
}

impl Port {
    /// An empty port with this capacity, from 1 to 64 signals.
    pub fn new(alloc: Global, capacity: usize) -> Result<Self, AllocError>
        requires least { LEAST_PORT ≤ capacity }
        requires most { capacity ≤ MOST_PORT }
        ensures { IfOk result (λ port. port ≡ record { capacity = capacity; items = [] }) }
    {
        Ok(Port {
            capacity,
            items: HeapCircularBuffer::with_capacity(alloc, capacity + usize::from(TIMERS))?,
        })
    }

    /// A copy of the port.
    pub fn copy(&self) -> Result<Self, AllocError>
        ensures { IfOk result (λ port. port ≡ self.now) }
    {
        let alloc = *self.items.allocator();
        let mut items = HeapCircularBuffer::with_capacity(alloc, self.items.capacity())?;
        copy_to(&mut items, &self.items)?;
        Ok(Port {
            capacity: self.capacity,
            items,
        })
    }

    /// The capacity: how many signals the port may hold.
    pub fn capacity(&self) -> usize
        ensures value { result ≡ self.now.capacity }
        ensures least { LEAST_PORT ≤ result }
        ensures most { result ≤ MOST_PORT }
    {
        self.capacity
    }

    /// The item at an index, the oldest at 0.
    pub fn get(&self, place: usize) -> Option<&Item>
        ensures { option_copied result ≡ slice_get self.now.items place }
    {
        self.items.get(place)
    }

    /// The number of items, at most 72.
    pub fn len(&self) -> usize
        ensures value { result ≡ length self.now.items }
        ensures in_range { result ≤ self.now.capacity + MOST_TIMERS_EACH }
        ensures sound { IsQueue self.now.capacity self.now.items }
    {
        self.items.len()
    }

    /// Whether there is no item.
    pub fn is_empty(&self) -> bool
        ensures { result ≡ (length self.now.items == 0) }
    {
        self.items.is_empty()
    }

    /// The number of items that are signals.
    pub fn signals(&self) -> usize
        ensures value { result ≡ signal_count self.now.items }
        ensures in_range { result ≤ self.now.capacity }
    {
        count_signals(&self.items)
    }

    /// Whether the signal of a timer waits here.
    pub fn has_timer(&self, timer: TimerNumber) -> bool
        ensures { result ≡ has_timer self.now.items timer.0 }
    {
        any_of_timer(&self.items, timer)
    }

    /// Appends a signal.
    ///
    /// `Q1 Full` if the port holds as many signals as its capacity. Then nothing changes.
    pub fn put(&mut self, arrival: Arrival) -> Result<(), PutError>
        ensures full { IsErrOf result PutError.Full ↔ (signal_count self.old.items ≡ self.old.capacity) }
        ensures ok { OnOk result (self.new ≡ record self.old { items = self.old.items ++ Item.Signal arrival ∷ [] }) }
        ensures refused { OnErr result (self.new ≡ self.old) }
    {
        if self.signals() == self.capacity {
            return Err(PutError::Full);
        }
        push_in_room(&mut self.items, Item::Signal(arrival));
        Ok(())
    }

    /// Appends the signal of a timer that has none waiting here.
    pub fn put_timer(&mut self, timer: TimerNumber)
        requires number { timer.0 < MOST_TIMERS_EACH }
        requires absent { has_timer self.old.items timer.0 ≡ false }
        ensures { self.new ≡ record self.old { items = self.old.items ++ Item.Timer timer ∷ [] } }
    {
        push_in_room(&mut self.items, Item::Timer(timer));
    }

    /// The first item that isn't saved.
    pub fn first(&self, saved: &Saved) -> Option<&Item>
        ensures { option_copied result ≡ first_unsaved (saves saved.now) self.now.items }
    {
        self.items.get(place_of_first(&self.items, saved)?)
    }

    /// Removes and returns the first item that isn't saved. The others stay, in their order.
    pub fn take(&mut self, saved: &Saved) -> Option<Item>
        ensures item { result ≡ first_unsaved (saves saved.now) self.old.items }
        ensures rest { self.new ≡ record self.old { items = without_first (saves saved.now) self.old.items } }

        // Stated by places: only saved items were before it.
        ensures order { IfSome result (λ item. Takes (saves saved.now) self.old.items item self.new.items) }
    {
        let place = place_of_first(&self.items, saved)?;
        take_at(&mut self.items, place)
    }

    /// Removes the signal of a timer, if it waits here.
    pub fn drop_timer(&mut self, timer: TimerNumber)
        ensures { self.new ≡ record self.old { items = without_timer self.old.items timer.0 } }
    {
        if self.has_timer(timer) {
            remove_timer(&mut self.items, timer);
        }
    }

    /// Removes all items, including those of timers.
    pub fn clear(&mut self)
        ensures { self.new ≡ record self.old { items = [] } }
    {
        self.items.clear();
    }
}

/// The number of items that are signals.
fn count_signals(items: &HeapCircularBuffer<Item>) -> usize
    ensures { result ≡ signal_count items.now.items }
{
    items.iter().filter(|item| item.is_signal()).count()
}

/// Whether the signal of a timer is among the items.
fn any_of_timer(items: &HeapCircularBuffer<Item>, timer: TimerNumber) -> bool
    ensures { result ≡ has_timer items.now.items timer.0 }
{
    items.iter().any(|item| item.is_of_timer(timer))
}

/// The index of the first item that isn't saved.
fn place_of_first(items: &HeapCircularBuffer<Item>, saved: &Saved) -> Option<usize>
    ensures found { IfSome result (λ place. slice_get items.now.items place ≡ first_unsaved (saves saved.now) items.now.items) }
    ensures in_range { IfSome result (λ place. place < length items.now.items) }
    ensures left { IfSome result (λ place. remove items.now.items place ≡ without_first (saves saved.now) items.now.items) }
    ensures none { IfNone result (first_unsaved (saves saved.now) items.now.items ≡ None) }
    ensures all_left { IfNone result (without_first (saves saved.now) items.now.items ≡ items.now.items) }
{
    for place in 0..items.len() {
        let item = items.get(place)?;
        if !saved.has(item) {
            return Some(place);
        }
    }
    None
}

/// Appends an item. There must be room.
fn push_in_room(items: &mut HeapCircularBuffer<Item>, item: Item)
    requires { length items.old.items < items.old.capacity }
    ensures { items.new ≡ buffer (items.old.items ++ item ∷ []) items.old.capacity }
{
    let _full = items.try_push_back(item).is_err();
}

/// Moves `count` items from the front to the back, one after another.
fn move_to_back(items: &mut HeapCircularBuffer<Item>, count: usize)
    requires { count ≤ length items.old.items }
    ensures { items.new ≡ buffer (drop count items.old.items ++ take count items.old.items) items.old.capacity }
{
    let _within = items.len();
    for _moved in 0..count {
        if let Some(item) = items.pop_front() {
            push_in_room(items, item);
        }
    }
}

/// Removes the item at an index. The items before it move to the back, and then those after it, so that all that stay
/// are in their order again.
fn take_at(items: &mut HeapCircularBuffer<Item>, place: usize) -> Option<Item>
    requires { place < length items.old.items }
    ensures item { result ≡ slice_get items.old.items place }
    ensures rest { items.new ≡ buffer (remove items.old.items place) items.old.capacity }
{
    move_to_back(items, place);
    let item = items.pop_front();
    if 0 < place {
        move_to_back(items, items.len() - place);
    }
    item
}

/// A copy of an item.
fn copy_of(item: &Item) -> Result<Item, AllocError>
    ensures { IfOk result (λ copy. copy ≡ item.now) }
{
    match item {
        Item::Signal(arrival) => Ok(Item::Signal(Arrival {
            signal: arrival.signal,
            parameters: arrival.parameters.clone()?,
            sender: arrival.sender,
        })),
        Item::Timer(timer) => Ok(Item::Timer(*timer)),
    }
}

/// Appends a copy of each item. There must be room for all.
fn copy_to(
    copies: &mut HeapCircularBuffer<Item>,
    items: &HeapCircularBuffer<Item>,
) -> Result<(), AllocError>
    requires { length copies.old.items + length items.now.items ≤ copies.old.capacity }
    ensures { OnOk result (copies.new ≡ buffer (copies.old.items ++ items.now.items) copies.old.capacity) }
{
    for item in items {
        push_in_room(copies, copy_of(item)?);
    }
    Ok(())
}

/// Removes the item of a timer: every other item moves from the front to the back.
fn remove_timer(items: &mut HeapCircularBuffer<Item>, timer: TimerNumber)
    ensures { items.new ≡ buffer (without_timer items.old.items timer.0) items.old.capacity }
{
    for _moved in 0..items.len() {
        if let Some(item) = items.pop_front() {
            if !item.is_of_timer(timer) {
                push_in_room(items, item);
            }
        }
    }
}
