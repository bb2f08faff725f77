//! A port as a vector, for comparison with a ring.

use input_port::{Arrival, Item, PutError, Saved};
use std::alloc::{AllocError, Global};
use turn_code::TimerNumber;

/// The greatest number of timers of a process.
pub const TIMERS: u8 = 8;

/// The items that wait for a process, in the order in which they came.
#[derive(Drop)]
pub struct PlainPort {
    capacity: usize,
    items: Vec<Item>,
}

impl PlainPort {
    /// An empty port for this many signals.
    pub fn new(alloc: Global, capacity: usize) -> PlainPort {
        PlainPort {
            capacity,
            items: Vec::new(alloc),
        }
    }

    /// The items, in order.
    pub fn items(&self) -> &[Item] {
        self.items.as_slice()
    }

    /// The number of signals among the items.
    pub fn signals(&self) -> usize {
        self.items
            .iter()
            .filter(|item| matches!(item, Item::Signal(_)))
            .count()
    }

    /// Whether a timer has an item here.
    pub fn has_timer(&self, timer: TimerNumber) -> bool {
        self.items.iter().any(|item| is_of_timer(item, timer))
    }

    /// Puts a signal after the other items, if there is room.
    pub fn put(&mut self, arrival: Arrival) -> Result<Result<(), PutError>, AllocError> {
        if self.signals() >= self.capacity {
            return Ok(Err(PutError::Full));
        }
        self.items.push(Item::Signal(arrival))?;
        Ok(Ok(()))
    }

    /// Puts the signal of a timer after the other items.
    pub fn put_timer(&mut self, timer: TimerNumber) -> Result<(), AllocError> {
        self.items.push(Item::Timer(timer))?;
        Ok(())
    }

    /// The place of the first item that isn't saved.
    pub fn place_of_first(&self, saved: &Saved) -> Option<usize> {
        self.items.iter().position(|item| !saved.has(item))
    }

    /// The first item that isn't saved.
    pub fn first(&self, saved: &Saved) -> Option<&Item> {
        self.items.get(self.place_of_first(saved)?)
    }

    /// Takes the first item that isn't saved.
    pub fn take(&mut self, saved: &Saved) -> Option<Item> {
        let place = self.place_of_first(saved)?;
        if place < self.items.len() {
            Some(self.items.remove(place))
        } else {
            None
        }
    }

    /// Drops the item of a timer.
    pub fn drop_timer(&mut self, timer: TimerNumber) {
        self.items.retain(|item| !is_of_timer(item, timer));
    }

    /// Drops all items.
    pub fn clear(&mut self) {
        self.items.clear();
    }
}

/// Whether it is the signal of this timer.
fn is_of_timer(item: &Item, timer: TimerNumber) -> bool {
    match item {
        Item::Signal(_) => false,
        Item::Timer(own) => *own == timer,
    }
}
