//! The timers that a wheel looks at as ticks pass.

ghost use Rattle.std.specs.Prelude.{◌≡◌, ℕ, ◌+◌, ◌%◌, ◌<◌, ◌≤◌, [], ◌++◌, min, nat_eq, true, IfOk, length, get_or, vec_capacity};
ghost use Rattle.std.specs.List.{list_any};
ghost use Rattle.plain_laws.specs.Limits.{MOST_TICKS};
ghost use Rattle.tick_wheel.specs.Sizes.{SLOTS};
ghost use Rattle.tick_wheel.specs.Table.{PLACES};
ghost use Rattle.tick_wheel.specs.Slots.{IsWheel, due_before, due_of, visited};

use crate::slots::SlotLists;
use crate::{Due, TIMERS, Timer};
use std::alloc::{AllocError, Global};

/// The slot whose list holds the timers with this deadline.
pub(crate) fn slot_of(deadline: u64) -> u16
    ensures value { result ≡ deadline % SLOTS }
    ensures in_range { result < SLOTS }
{
    (deadline % 256) as u16
}

/// Appends the due timers in the lists of the next clocks' slots. Returns how many timers these lists hold.
pub(crate) fn gather_near(
    lists: &SlotLists,
    table: &[Option<u64>],
    from: u64,
    ticks: u64,
    due: &mut Vec<Due>,
) -> u64
    requires wheel { IsWheel from table.now lists.now }
    requires near { ticks ≤ MOST_TICKS }
    requires empty { due.old.items ≡ [] }
    requires room { PLACES ≤ vec_capacity due.old }
    ensures due { due.new.items ≡ due_of (from + ticks) table.now (visited lists.now from (min ticks SLOTS)) }
    ensures count { result ≡ length (visited lists.now from (min ticks SLOTS)) }
    ensures capacity { vec_capacity due.new ≡ vec_capacity due.old }
{
    let mut count = 0;
    for step in 0..ticks.min(256) {
        count += gather(lists, table, slot_of(from + step + 1), from + ticks, due);
    }
    count
}

/// Appends the due timers in a slot's list. Returns how many timers the list holds.
fn gather(
    lists: &SlotLists,
    table: &[Option<u64>],
    slot: u16,
    clock: u64,
    due: &mut Vec<Due>,
) -> u64
    requires slot { slot < SLOTS }
    requires table { length table.now ≡ PLACES }
    requires places { (place : ℕ) → list_any (nat_eq place) (get_or lists.now slot []) ≡ true → place < PLACES }
    requires few { length (get_or lists.now slot []) ≤ PLACES }
    requires room { length due.old.items + length (get_or lists.now slot []) ≤ vec_capacity due.old }
    ensures due { due.new.items ≡ due.old.items ++ due_of clock table.now (get_or lists.now slot []) }
    ensures count { result ≡ length (get_or lists.now slot []) }
    ensures capacity { vec_capacity due.new ≡ vec_capacity due.old }
{
    let mut count = 0;
    let mut here = lists.first(slot);
    while let Some(place) = here {
        append_due(due, place, table[usize::from(place)], clock);
        count += 1;
        here = lists.after(place);
    }
    count
}

/// Appends the timer at a place if its deadline has come. There must be room.
fn append_due(due: &mut Vec<Due>, place: u16, deadline: Option<u64>, clock: u64)
    requires place { place < PLACES }
    requires room { length due.old.items < vec_capacity due.old }
    ensures due { due.new.items ≡ due.old.items ++ due_before clock place deadline [] }
    ensures capacity { vec_capacity due.new ≡ vec_capacity due.old }
{
    if let Some(deadline) = deadline
        && deadline <= clock
    {
        let timer = Timer::at(place);
        due.push_reserved(Due { deadline, timer });
    }
}

/// A copy of the due timers, with room for all timers.
pub(crate) fn copied_due(alloc: Global, due: &[Due]) -> Result<Vec<Due>, AllocError>
    ensures items { IfOk result (λ copy. copy.items ≡ due.now) }
    ensures room { IfOk result (λ copy. PLACES ≤ vec_capacity copy) }
{
    let mut copy = Vec::with_capacity(alloc, TIMERS)?;
    copy.extend_from_slice(due)?;
    Ok(copy)
}
