//! Timers: when each is due, and in which order, step by step.
use std::alloc::Global;
use tick_wheel::{AdvanceError, Due, Timer, Wheel};

/// A timer: the number of its process, and its own number.
type Name = (u8, u8);

/// A call of a wheel, and its result.
#[derive(Clone, Copy)]
enum Step {
    /// A timer gets a deadline above the clock.
    Set(Name, u64),
    /// A timer loses its deadline, if it has one.
    Reset(Name),
    /// So many ticks pass: these timers are due, in this order, and the clock shows this.
    Passes(u64, &'static [Name], u64),
    /// So many ticks are too many (W1).
    TooFar(u64),
    /// A timer has this deadline, or none.
    Waits(Name, Option<u64>),
    /// So many timers were looked at.
    Looked(u64),
}

/// The timer of a name.
fn timer(name: Name) -> Timer {
    Timer::new(name.0.min(127), name.1.min(7))
}

/// Sets a timer, if the deadline is above the clock.
fn sets(wheel: &mut Wheel, name: Name, deadline: u64) -> bool {
    if wheel.clock() >= deadline {
        return false;
    }
    wheel.set(timer(name), deadline);
    true
}

/// Whether these timers are due, in this order.
fn are_due(due: &[Due], names: &[Name]) -> bool {
    for (place, one) in due.iter().enumerate() {
        if names.get(place) != Some(&(one.timer.actor(), one.timer.number())) {
            return false;
        }
    }
    due.len() == names.len()
}

/// Whether these timers are due after so many ticks.
fn passes(wheel: &mut Wheel, ticks: u64, names: &[Name], clock: u64) -> bool {
    match wheel.advance(ticks) {
        Ok(count) => {
            are_due(wheel.due(), names) && count == names.len() && wheel.clock() == clock
        }
        Err(_) => false,
    }
}

/// Whether a wheel does what a step says.
fn does(wheel: &mut Wheel, step: Step) -> bool {
    match step {
        Step::Set(name, deadline) => sets(wheel, name, deadline),
        Step::Reset(name) => {
            wheel.reset(timer(name));
            !wheel.is_active(timer(name))
        }
        Step::Passes(ticks, names, clock) => passes(wheel, ticks, names, clock),
        Step::TooFar(ticks) => wheel.advance(ticks).err() == Some(AdvanceError::TooFar),
        Step::Waits(name, deadline) => {
            wheel.deadline_of(timer(name)) == deadline
                && wheel.is_active(timer(name)) == deadline.is_some()
        }
        Step::Looked(count) => wheel.looked() == count,
    }
}

/// Each timer is due once, at its deadline. Both are looked at when the first is due: they are congruent modulo 256.
const ONCE: [Step; 11] = [
    Step::Set((0, 0), 256),
    Step::Set((127, 7), 512),
    Step::Waits((127, 7), Some(512)),
    Step::Passes(255, &[], 255),
    Step::Looked(0),
    Step::Passes(1, &[(0, 0)], 256),
    Step::Looked(2),
    Step::Passes(256, &[(127, 7)], 512),
    Step::Looked(3),
    Step::Waits((0, 0), None),
    Step::Waits((127, 7), None),
];

/// One turn of the wheel apart: only the first is due.
const APART: [Step; 7] = [
    Step::Set((4, 1), 1),
    Step::Set((4, 2), 257),
    Step::Passes(0, &[], 0),
    Step::Passes(1, &[(4, 1)], 1),
    Step::Waits((4, 2), Some(257)),
    Step::Passes(256, &[(4, 2)], 257),
    Step::Looked(3),
];

/// After the most ticks of a call, it still waits.
const FARTHEST: [Step; 3] = [
    Step::Set((0, 0), 2_147_483_647),
    Step::Passes(65_535, &[], 65_535),
    Step::Waits((0, 0), Some(2_147_483_647)),
];

/// Ordered by deadline, then process, then number.
const IN_ORDER: [Step; 8] = [
    Step::Set((2, 1), 9),
    Step::Set((2, 0), 9),
    Step::Set((0, 7), 10),
    Step::Set((1, 3), 9),
    Step::Set((9, 6), 3),
    Step::Set((5, 5), 8),
    Step::Passes(9, &[(9, 6), (5, 5), (1, 3), (2, 0), (2, 1)], 9),
    Step::Passes(1, &[(0, 7)], 10),
];

/// Setting replaces a deadline, resetting removes it.
const AGAIN: [Step; 8] = [
    Step::Set((3, 0), 5),
    Step::Set((3, 1), 5),
    Step::Set((3, 0), 4),
    Step::Reset((3, 1)),
    Step::Reset((3, 2)),
    Step::Passes(4, &[(3, 0)], 4),
    Step::TooFar(65_536),
    Step::Passes(65_535, &[], 65_539),
];

/// A deadline may be far away. A timer set in a copy isn't set in the original.
const FAR: [Step; 6] = [
    Step::Set((0, 0), 257),
    Step::Set((1, 0), 2_147_483_647),
    Step::Passes(1, &[(0, 1)], 1),
    Step::Passes(65_535, &[(0, 0)], 65_536),
    Step::Waits((1, 0), Some(2_147_483_647)),
    Step::Looked(4),
];

/// The timers of the original.
const COPIED: [Step; 3] = [
    Step::Waits((1, 0), None),
    Step::Waits((0, 1), Some(1)),
    Step::Passes(1, &[(0, 1)], 1),
];

/// The index of the first step with another result.
fn first_other(wheel: &mut Wheel, steps: &[Step]) -> Option<usize> {
    for (number, step) in steps.iter().enumerate() {
        if !does(wheel, *step) {
            return Some(number);
        }
    }
    None
}

/// A wheel; if memory runs out once, a second try.
fn made(alloc: Global) -> Option<Wheel> {
    match Wheel::new(alloc) {
        Ok(wheel) => Some(wheel),
        Err(_) => Wheel::new(alloc).ok(),
    }
}

/// As `first_other`, for a new wheel.
fn first_other_of_new(alloc: Global, steps: &[Step]) -> Option<usize> {
    match made(alloc) {
        Some(mut wheel) => first_other(&mut wheel, steps),
        None => Some(steps.len()),
    }
}

/// Deadlines 256 and 512: nothing is due after 255 ticks, the first after one more, the second after 256 more.
#[test]
fn deadlines_in_one_slot_are_each_due_once(rt: HostRuntime) {
    assert_eq!(rt; first_other_of_new(rt.alloc(), &ONCE), None);
}

/// Deadlines 1 and 257.
#[test]
fn a_turn_apart_only_the_first_is_due(rt: HostRuntime) {
    assert_eq!(rt; first_other_of_new(rt.alloc(), &APART), None);
}

/// Deadline 2,147,483,647, the greatest that a text can ask for at clock 0.
#[test]
fn the_farthest_deadline_is_not_due_after_the_longest_wait(rt: HostRuntime) {
    assert_eq!(rt; first_other_of_new(rt.alloc(), &FARTHEST), None);
}

#[test]
fn timers_are_due_in_order(rt: HostRuntime) {
    assert_eq!(rt; first_other_of_new(rt.alloc(), &IN_ORDER), None);
    assert_eq!(rt; first_other_of_new(rt.alloc(), &AGAIN), None);
}

/// A copy; if memory runs out once, a second try, with the wheel unchanged.
fn copied(wheel: &mut Wheel) -> Option<Wheel> {
    match wheel.copy() {
        Ok(copy) => Some(copy),
        Err(_) if does(wheel, Step::Waits((0, 1), Some(1))) => wheel.copy().ok(),
        Err(_) => None,
    }
}

/// The indices of the first steps with another result for the copy of a wheel, and then for that wheel.
fn first_others_of_copy(alloc: Global) -> Option<(Option<usize>, Option<usize>)> {
    let mut wheel = made(alloc)?;
    if !sets(&mut wheel, (0, 1), 1) {
        return None;
    }
    let mut copy = copied(&mut wheel)?;
    Some((
        first_other(&mut copy, &FAR),
        first_other(&mut wheel, &COPIED),
    ))
}

/// With ample memory each call succeeds at once. If memory runs out, nothing changes, and the next call succeeds.
#[test]
fn a_copy_goes_its_own_way(rt: HostRuntime) {
    assert_eq!(rt; first_others_of_copy(rt.alloc()), Some((None, None)));
}
