//! The trace of events other than turns.
ghost use Rattle.std.specs.Prelude.{◌≡◌, ◌++◌, ◌∷◌, [], Some, map, slice_get, if◌then◌else◌, OnOk, IfOk};
ghost use Rattle.std.specs.List.{flat_map, list_any};
ghost use Rattle.std.specs.Option.{option_copied};
ghost use Rattle.turn_check.specs.Answered.{same_trigger};
ghost use Rattle.input_port.specs.Queue.{first_unsaved};
ghost use Rattle.actor_machine.specs.Core.{names_in};
ghost use Rattle.actor_machine.specs.Ledger.{state_of};
ghost use Rattle.actor_machine.specs.Looking.{trigger_of, is_saved};
ghost use Rattle.plain_text.specs.Lines.{line_of};
ghost use Rattle.script_seen.specs.Told.{values_text, from_text, actor_text, timer_of_text, offer_line, due_line, skip_line, skip_lines, item_values, item_sender, stands_text};

use crate::pushing::{
    push_actor, push_from, push_number, push_signal, push_state, push_timer, push_trigger,
    push_values,
};
use actor_book::Book;
use actor_machine::{Actor, ActorName, Offer, Standing};
use input_port::{Item, Port};
use std::alloc::{AllocError, Global};
use tick_wheel::Due;
use turn_check::Verified;
use turn_code::{Place, ProcessNumber, StateNumber, TimerNumber, Trigger};

/// Appends the name of an actor, if there is one.
fn push_named(
    alloc: Global,
    line: &mut Vec<u8>,
    set: &Verified,
    actor: Option<ActorName>,
) -> Result<(), AllocError>
    ensures { OnOk result (line.new.items ≡ line.old.items ++ actor_text set.now actor) }
{
    match actor {
        Some(actor) => push_actor(alloc, line, set, actor),
        None => Ok(()),
    }
}

/// The trace of a signal from the environment.
pub(crate) fn offer_text(alloc: Global, book: &Book, offer: &Offer) -> Result<Vec<u8>, AllocError>
    ensures { IfOk result (λ v. v.items ≡ line_of (offer_line book.now.set (state_of book.now) offer.now)) }
{
    let (set, mut line) = (book.set(), Vec::new(alloc));
    push_number(alloc, &mut line, book.clock())?;
    line.extend_from_slice(b" offer ")?;
    push_named(alloc, &mut line, set, book.name_of(offer.actor))?;
    line.push(b' ')?;
    push_signal(&mut line, set, offer.signal)?;
    push_values(alloc, &mut line, &offer.values)?;
    line.push(b'\n')?;
    Ok(line)
}

/// Appends the name of an actor's timer, if there is such an actor.
fn push_timer_of(
    line: &mut Vec<u8>,
    set: &Verified,
    actor: Option<ActorName>,
    timer: u8,
) -> Result<(), AllocError>
    ensures { OnOk result (line.new.items ≡ line.old.items ++ timer_of_text set.now actor timer) }
{
    match actor {
        Some(actor) => push_timer(line, set, actor.process, TimerNumber(timer)),
        None => Ok(()),
    }
}

/// Appends the trace of a timer that expires when the book's clock reaches this time.
fn push_due(
    alloc: Global,
    text: &mut Vec<u8>,
    book: &Book,
    clock: u64,
    due: &Due,
) -> Result<(), AllocError>
    ensures { OnOk result (text.new.items ≡ text.old.items ++ line_of (due_line book.now.set (state_of book.now) clock due.now)) }
{
    let set = book.set();
    let actor = book.name_of(u16::from(due.timer.actor()));
    push_number(alloc, text, clock)?;
    text.extend_from_slice(b" due ")?;
    push_named(alloc, text, set, actor)?;
    text.push(b' ')?;
    push_timer_of(text, set, actor, due.timer.number())?;
    Ok(text.push(b'\n')?)
}

/// The trace of the timers that expire when the book's clock reaches this time.
pub(crate) fn due_text(
    alloc: Global,
    book: &Book,
    clock: u64,
    due: &[Due],
) -> Result<Vec<u8>, AllocError>
    ensures { IfOk result (λ v. v.items ≡ flat_map line_of (map (due_line book.now.set (state_of book.now) clock) due.now)) }
{
    let mut text = Vec::new(alloc);
    for one in due {
        push_due(alloc, &mut text, book, clock, one)?;
    }
    Ok(text)
}

/// The trigger by which an input or a SAVE names an item.
pub fn trigger_of(item: &Item) -> Trigger
    ensures { result ≡ trigger_of item.now }
{
    match item {
        Item::Signal(arrival) => Trigger::Signal(arrival.signal),
        Item::Timer(timer) => Trigger::Timer(*timer),
    }
}

/// Whether two triggers are the same signal or the same timer.
pub fn same_trigger(left: Trigger, right: Trigger) -> bool
    ensures { result ≡ same_trigger left right }
{
    match left {
        Trigger::Signal(one) => match right {
            Trigger::Signal(other) => one.0 == other.0,
            Trigger::Timer(_) => false,
        },
        Trigger::Timer(one) => match right {
            Trigger::Signal(_) => false,
            Trigger::Timer(other) => one.0 == other.0,
        },
    }
}

/// Whether a state saves an item.
fn is_saved(set: &Verified, process: ProcessNumber, state: StateNumber, item: &Item) -> bool
    ensures { result ≡ is_saved set.now process.0 state.0 item.now }
{
    let trigger = trigger_of(item);
    set.saves(process, state)
        .iter()
        .any(|saved| same_trigger(trigger, *saved))
}

/// The first item of a port that a state doesn't save.
pub(crate) fn first_item<'a>(
    set: &Verified,
    process: ProcessNumber,
    state: StateNumber,
    port: &'a Port,
) -> Option<&'a Item>
    ensures { option_copied result ≡ first_unsaved (is_saved set.now process.0 state.0) port.now.items }
{
    for place in 0..port.len() {
        match port.get(place) {
            Some(item) => {
                if !is_saved(set, process, state, item) {
                    return Some(item);
                }
            }
            None => {}
        }
    }
    None
}

/// Appends the values of an item, and its sender.
fn push_item(
    alloc: Global,
    line: &mut Vec<u8>,
    set: &Verified,
    item: &Item,
) -> Result<(), AllocError>
    ensures { OnOk result (line.new.items ≡ line.old.items ++ (values_text (item_values item.now) ++ from_text set.now (item_sender item.now))) }
{
    match item {
        Item::Signal(arrival) => {
            push_values(alloc, line, &arrival.parameters)?;
            push_from(alloc, line, set, Some(arrival.sender))
        }
        Item::Timer(_) => Ok(()),
    }
}

/// The trace of an item that an actor discards in a state.
fn skipped_text(
    alloc: Global,
    set: &Verified,
    clock: u64,
    me: ActorName,
    state: StateNumber,
    item: &Item,
) -> Result<Vec<u8>, AllocError>
    ensures { IfOk result (λ v. v.items ≡ line_of (skip_line set.now clock me (Place.State state) item.now)) }
{
    let mut line = Vec::new(alloc);
    push_number(alloc, &mut line, clock)?;
    line.extend_from_slice(b" skip ")?;
    push_actor(alloc, &mut line, set, me)?;
    line.push(b' ')?;
    push_state(&mut line, set, me.process, state)?;
    line.push(b'/')?;
    push_trigger(&mut line, set, me.process, trigger_of(item))?;
    push_item(alloc, &mut line, set, item)?;
    line.push(b'\n')?;
    Ok(line)
}

/// The trace of the item that an actor discards, if there is one.
fn skip_of(alloc: Global, set: &Verified, clock: u64, actor: &Actor) -> Result<Vec<u8>, AllocError>
    ensures { IfOk result (λ v. v.items ≡ flat_map line_of (skip_lines set.now clock (Some actor.now))) }
{
    let name = actor.name;
    match actor.standing {
        Standing::At(Place::State(state)) => {
            match first_item(set, name.process, state, &actor.port) {
                Some(item) => skipped_text(alloc, set, clock, name, state, item),
                None => Ok(Vec::new(alloc)),
            }
        }
        Standing::At(Place::Start) | Standing::Stopped => Ok(Vec::new(alloc)),
    }
}

/// The trace of an item that an actor of a book discards: empty unless `every` is true.
pub(crate) fn skip_text(
    alloc: Global,
    book: &Book,
    actor: u16,
    every: bool,
) -> Result<Vec<u8>, AllocError>
    ensures { IfOk result (λ v. v.items ≡ flat_map line_of (if every then skip_lines book.now.set (state_of book.now).timers.clock (slice_get (state_of book.now).actors actor) else [])) }
{
    if !every {
        return Ok(Vec::new(alloc));
    }
    match book.state().actors().get(usize::from(actor)) {
        Some(found) => skip_of(alloc, book.set(), book.clock(), found),
        None => Ok(Vec::new(alloc)),
    }
}
