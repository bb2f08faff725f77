//! Ports with save: which signals wait, are taken or find the port full, step by step.
use arrayvec::ArrayVec;
use input_port::{Arrival, Item, Port, Saved};
use std::alloc::Global;
use turn_code::{Address, Party, ProcessNumber, SignalNumber, TimerNumber, Value};

/// A signal by its number, a timer by 200 and its own number.
type Name = u8;

/// A call of a port, and its result. Signals carry a number, and come from the environment or, with a number from 100
/// on, from process 3.
#[derive(Clone, Copy)]
enum Step {
    /// A signal with a number is put.
    Put(Name, i32),
    /// There is no room for a signal (Q1).
    Full(Name),
    /// The signal of a timer is put that isn't there.
    PutTimer(Name),
    /// If these are saved, this is found first, and not taken.
    Finds(&'static [Name], Option<Name>),
    /// If these are saved, this is taken, with its number.
    Takes(&'static [Name], Option<(Name, i32)>),
    /// The signal of a timer is removed, if it is there.
    Drops(Name),
    /// All is removed.
    Clears,
    /// These wait, in this order.
    Holds(&'static [Name]),
    /// So many items wait, so many of them signals; so many signals may wait.
    Counts(usize, usize, usize),
}

/// The signal of a number.
fn arrival(signal: Name, number: i32) -> Arrival {
    let mut parameters = ArrayVec::new();
    parameters.push(Value::Int(number));
    let party = if number < 100 {
        Party::Environment
    } else {
        Party::Process(ProcessNumber(3))
    };
    let sender = Address {
        party,
        instance: None,
    };
    Arrival {
        signal: SignalNumber(signal),
        parameters,
        sender,
    }
}

/// The name of an item that waits.
fn name_of(item: &Item) -> Name {
    match item {
        Item::Signal(arrival) => arrival.signal.0,
        Item::Timer(timer) => timer.0.wrapping_add(200),
    }
}

/// Whether an item is the one that was put with this name and number.
fn is_that(item: &Item, name: Name, number: i32) -> bool {
    match item {
        Item::Signal(found) => {
            let put = arrival(name, number);
            found.signal.0 == name
                && found.parameters.as_slice() == put.parameters.as_slice()
                && found.sender == put.sender
        }
        Item::Timer(_) => name_of(item) == name,
    }
}

/// A set of saved signals and timers with these names.
fn saved(names: &[Name]) -> Saved {
    let mut saved = Saved::nothing();
    for name in names {
        if *name < 128 {
            saved.add_signal(SignalNumber(*name));
        } else if *name >= 200 && *name < 208 {
            saved.add_timer(TimerNumber(*name - 200));
        }
    }
    saved
}

/// Puts the signal of a timer, if it isn't there.
fn puts_timer(port: &mut Port, name: Name) -> bool {
    let timer = TimerNumber(name.saturating_sub(200).min(7));
    if port.has_timer(timer) {
        return false;
    }
    port.put_timer(timer);
    port.has_timer(timer)
}

/// Whether this is taken.
fn takes(port: &mut Port, names: &[Name], wanted: Option<(Name, i32)>) -> bool {
    match port.take(&saved(names)) {
        Some(item) => match wanted {
            Some((name, number)) => is_that(&item, name, number),
            None => false,
        },
        None => wanted.is_none(),
    }
}

/// Whether these wait, in this order.
fn holds(port: &Port, names: &[Name]) -> bool {
    for (place, name) in names.iter().enumerate() {
        if port.get(place).map(name_of) != Some(*name) {
            return false;
        }
    }
    port.get(names.len()).is_none() && port.len() == names.len()
}

/// Whether a port does what a step says.
fn does(port: &mut Port, step: Step) -> bool {
    match step {
        Step::Put(name, number) => port.put(arrival(name, number)).is_ok(),
        Step::Full(name) => port.put(arrival(name, 0)).is_err(),
        Step::PutTimer(name) => puts_timer(port, name),
        Step::Finds(names, wanted) => port.first(&saved(names)).map(name_of) == wanted,
        Step::Takes(names, wanted) => takes(port, names, wanted),
        Step::Drops(name) => {
            port.drop_timer(TimerNumber(name.saturating_sub(200)));
            true
        }
        Step::Clears => {
            port.clear();
            port.is_empty()
        }
        Step::Holds(names) => holds(port, names),
        Step::Counts(len, signals, capacity) => {
            port.len() == len && port.signals() == signals && port.capacity() == capacity
        }
    }
}

/// A saved signal waits, and is taken before newer ones.
const SAVES: [Step; 9] = [
    Step::Put(0, 0),
    Step::Put(127, 1),
    Step::Full(127),
    Step::Finds(&[0], Some(127)),
    Step::Takes(&[0], Some((127, 1))),
    Step::Put(127, 102),
    Step::Takes(&[], Some((0, 0))),
    Step::Takes(&[0], Some((127, 102))),
    Step::Takes(&[0], None),
];

/// Timers have places of their own besides one signal.
const HAS_TIMERS: [Step; 17] = [
    Step::Put(0, 0),
    Step::PutTimer(200),
    Step::PutTimer(201),
    Step::PutTimer(202),
    Step::PutTimer(203),
    Step::PutTimer(204),
    Step::PutTimer(205),
    Step::PutTimer(206),
    Step::PutTimer(207),
    Step::Counts(9, 1, 1),
    Step::Full(127),
    Step::Drops(207),
    Step::Drops(207),
    Step::Holds(&[0, 200, 201, 202, 203, 204, 205, 206]),
    Step::Takes(&[0, 200], Some((201, 0))),
    Step::Clears,
    Step::Counts(0, 0, 1),
];

/// There is room for one signal, again and again.
const HAS_ROOM_FOR_ONE: [Step; 13] = [
    Step::Takes(&[], None),
    Step::Put(0, 0),
    Step::Full(1),
    Step::Takes(&[0], None),
    Step::Takes(&[], Some((0, 0))),
    Step::Counts(0, 0, 1),
    Step::Put(1, 1),
    Step::PutTimer(207),
    Step::Full(2),
    Step::Takes(&[1], Some((207, 0))),
    Step::Takes(&[], Some((1, 1))),
    Step::Put(2, 2),
    Step::Holds(&[2]),
];

/// The items in the port that is copied.
const PUTS_FIVE: [Step; 5] = [
    Step::Put(0, 0),
    Step::Put(127, 1),
    Step::Put(0, 2),
    Step::Put(127, 109),
    Step::PutTimer(207),
];

/// The items in the copy.
const HAS_FIVE: [Step; 8] = [
    Step::Holds(&[0, 127, 0, 127, 207]),
    Step::Counts(5, 4, 64),
    Step::Put(127, 5),
    Step::Takes(&[], Some((0, 0))),
    Step::Takes(&[], Some((127, 1))),
    Step::Takes(&[], Some((0, 2))),
    Step::Takes(&[], Some((127, 109))),
    Step::Holds(&[207, 127]),
];

/// The index of the first step with another result.
fn first_other(port: &mut Port, steps: &[Step]) -> Option<usize> {
    for (number, step) in steps.iter().enumerate() {
        if !does(port, *step) {
            return Some(number);
        }
    }
    None
}

/// A port; if memory runs out once, a second try.
fn made(alloc: Global, capacity: usize) -> Option<Port> {
    let capacity = capacity.clamp(1, 64);
    match Port::new(alloc, capacity) {
        Ok(port) => Some(port),
        Err(_) => Port::new(alloc, capacity).ok(),
    }
}

/// As `first_other`, for a new port.
fn first_other_of_new(alloc: Global, capacity: usize, steps: &[Step]) -> Option<usize> {
    match made(alloc, capacity) {
        Some(mut port) => first_other(&mut port, steps),
        None => Some(steps.len()),
    }
}

#[test]
fn ports_keep_their_order(rt: HostRuntime) {
    assert_eq!(rt; first_other_of_new(rt.alloc(), 2, &SAVES), None);
    assert_eq!(rt; first_other_of_new(rt.alloc(), 1, &HAS_TIMERS), None);
    assert_eq!(rt; first_other_of_new(rt.alloc(), 1, &HAS_ROOM_FOR_ONE), None);
}

/// The names of so many signals and of eight timers.
fn full_names(signals: Name) -> ArrayVec<Name, 72> {
    let mut names = ArrayVec::new();
    for name in 0..signals.min(64) {
        let _full = names.try_push(name).is_err();
    }
    for name in 200..208u8 {
        let _full = names.try_push(name).is_err();
    }
    names
}

/// Puts the item of this name; a signal carries its name as its number.
fn puts(port: &mut Port, name: Name) -> bool {
    if name < 200 {
        does(port, Step::Put(name, i32::from(name)))
    } else {
        puts_timer(port, name)
    }
}

/// Puts the items of these names.
fn puts_all(port: &mut Port, names: &[Name]) -> bool {
    for name in names {
        if !puts(port, *name) {
            return false;
        }
    }
    true
}

/// Whether an item is taken after saved ones, and the others stay in their order. Then it is put again.
fn takes_from(port: &mut Port, names: &mut ArrayVec<Name, 72>, place: usize) -> bool {
    let Some(name) = names.get(place).copied() else {
        return false;
    };
    let before = &names.as_slice()[..place.min(names.len())];
    let taken = takes(port, before, Some((name, i32::from(name))));
    let _name = names.pop_at(place);
    let left = holds(port, names.as_slice());
    let _full = names.try_push(name).is_err();
    taken && left && puts(port, name) && holds(port, names.as_slice())
}

/// The first index at which an item isn't taken as it should be, in a full port where eight timers' signals wait, and
/// whose ring wraps twice.
fn first_wrong_take(alloc: Global, signals: Name) -> Option<usize> {
    let mut names = full_names(signals);
    let mut port = made(alloc, usize::from(signals))?;
    if !puts_all(&mut port, names.as_slice()) {
        return Some(0);
    }
    let places = names.len();
    for _round in 0..2 {
        for place in 0..places {
            if !takes_from(&mut port, &mut names, place) {
                return Some(place);
            }
        }
    }
    None
}

#[test]
fn an_item_is_taken_from_each_place(rt: HostRuntime) {
    assert_eq!(rt; first_wrong_take(rt.alloc(), 1), None);
    assert_eq!(rt; first_wrong_take(rt.alloc(), 2), None);
    assert_eq!(rt; first_wrong_take(rt.alloc(), 64), None);
}

/// A copy; if memory runs out once, a second try, with the port unchanged.
fn copied(port: &Port) -> Option<Port> {
    match port.copy() {
        Ok(copy) => Some(copy),
        Err(_) if holds(port, &[0, 127, 0, 127, 207]) => port.copy().ok(),
        Err(_) => None,
    }
}

/// The index of the first step with another result for the copy of a port that is emptied after copying.
fn first_other_of_copy(alloc: Global) -> Option<usize> {
    let mut port = made(alloc, 64)?;
    if first_other(&mut port, &PUTS_FIVE).is_some() {
        return Some(HAS_FIVE.len());
    }
    let Some(mut copy) = copied(&port) else {
        return Some(HAS_FIVE.len());
    };
    port.clear();
    first_other(&mut copy, &HAS_FIVE)
}

/// With ample memory each call succeeds at once. If memory runs out, nothing changes, and the next call succeeds.
#[test]
fn a_copy_has_the_same_items(rt: HostRuntime) {
    assert_eq!(rt; first_other_of_copy(rt.alloc()), None);
}

/// Whether only the named ones are saved, and numbers above the greatest never are.
fn is_saved_alone() -> bool {
    let found = saved(&[0, 200]);
    found.has_signal(SignalNumber(0))
        && !found.has_signal(SignalNumber(127))
        && !found.has_signal(SignalNumber(128))
        && found.has_timer(TimerNumber(0))
        && !found.has_timer(TimerNumber(7))
        && !found.has_timer(TimerNumber(8))
}

#[test]
fn what_is_saved_is_what_is_named(rt: HostRuntime) {
    assert!(rt; is_saved_alone());
}
