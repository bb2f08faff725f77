//! What an actor finds in its port.

ghost use Rattle.std.specs.Prelude.{◌≡◌, ◌<◌, ◌||◌, Option, Some, None};
ghost use Rattle.std.specs.List.{list_any, AllByRecursion};
ghost use Rattle.std.specs.Option.{option_copied};
ghost use Rattle.input_port.specs.Saves.{saves};
ghost use Rattle.input_port.specs.Queue.{first_unsaved, without_first};
ghost use Rattle.input_port.specs.declared.queue.Item.{Item as PlainItem};
ghost use Rattle.turn_check.specs.Answered.{same_trigger};
ghost use Rattle.actor_machine.specs.Looking.{trigger_of, is_saved, looks, found_at, found_item, as_input, number_in, item_at, left_at, taken, input_for};
ghost use Rattle.actor_state.specs.Saving.{IsSmall, number_with};

use actor_machine::{Actor, Found, Standing};
use input_port::{Item, Port, Saved};
use turn_check::Verified;
use turn_code::{Place, ProcessNumber, StateNumber, Trigger};

/// The signal or timer by which an input or a SAVE names an item.
pub(crate) fn trigger_of(item: &Item) -> Trigger
    ensures { result ≡ trigger_of item.now }
{
    match item {
        Item::Signal(arrival) => Trigger::Signal(arrival.signal),
        Item::Timer(timer) => Trigger::Timer(*timer),
    }
}

/// Adds a signal or timer to those saved.
fn save(saved: &mut Saved, trigger: Trigger)
    requires { IsSmall trigger }
    ensures { (x : PlainItem) → saves saved.new x ≡ (same_trigger (trigger_of x) trigger || saves saved.old x) }
{
    match trigger {
        Trigger::Signal(signal) => saved.add_signal(signal),
        Trigger::Timer(timer) => saved.add_timer(timer),
    }
}

/// These signals and timers, as the argument of a port's search.
fn saved_of(triggers: &[Trigger]) -> Saved
    requires { AllByRecursion IsSmall triggers.now }
    ensures { (x : PlainItem) → saves result x ≡ list_any (same_trigger (trigger_of x)) triggers.now }
{
    let mut saved = Saved::nothing();
    for trigger in triggers {
        save(&mut saved, *trigger);
    }
    saved
}

/// The signals and timers that a state saves, as the argument of a port's search.
fn saved_in(set: &Verified, process: u8, state: StateNumber) -> Saved
    ensures { (x : PlainItem) → saves result x ≡ is_saved set.now process state.0 x }
{
    let _valid = set.draft();
    saved_of(set.saves(ProcessNumber(process), state))
}

/// The first item that a state doesn't save.
fn first_item<'a>(
    set: &Verified,
    number: u8,
    state: StateNumber,
    port: &'a Port,
) -> Option<&'a Item>
    ensures { option_copied result ≡ first_unsaved (is_saved set.now number state.0) port.now.items }
{
    port.first(&saved_in(set, number, state))
}

/// What an actor finds, if this is the first item that its state doesn't save.
fn found_as(set: &Verified, number: u8, state: StateNumber, item: &Item) -> Found
    ensures { result ≡ as_input (input_for set.now number state.0 item.now) }
{
    match set.input_for(ProcessNumber(number), state, trigger_of(item)) {
        Some(input) => Found::Input(input),
        None => Found::Ignored,
    }
}

/// The number of the input for an item that an actor took; 0 if it took none.
pub(crate) fn number_of(
    set: &Verified,
    number: u8,
    standing: Standing,
    item: &Option<Item>,
) -> usize
    ensures { result ≡ number_with set.now number standing item.now }
{
    match standing {
        Standing::Stopped | Standing::At(Place::Start) => 0,
        Standing::At(Place::State(state)) => match item {
            Some(item) => number_in(found_as(set, number, state, item)),
            None => 0,
        },
    }
}

/// The number of the input that is found; 0 at START.
fn number_in(found: Found) -> usize
    ensures { result ≡ number_in found }
{
    match found {
        Found::Input(number) => number,
        Found::Nothing | Found::Start | Found::Ignored => 0,
    }
}

/// What an actor finds in a state, if its port may have items.
#[inline(never)]
fn found_in(set: &Verified, number: u8, state: StateNumber, port: &Port) -> Found
    ensures { result ≡ found_item set.now number state.0 (first_unsaved (is_saved set.now number state.0) port.now.items) }
{
    match first_item(set, number, state, port) {
        Some(item) => found_as(set, number, state, item),
        None => Found::Nothing,
    }
}

/// What an actor finds in a state. An empty port, as most are, isn't searched.
#[inline]
#[tactic(auto, using(crate::proofs::Looking::nothing_in))]
fn found_there(set: &Verified, number: u8, state: StateNumber, port: &Port) -> Found
    ensures { result ≡ found_item set.now number state.0 (first_unsaved (is_saved set.now number state.0) port.now.items) }
{
    if port.is_empty() {
        Found::Nothing
    } else {
        found_in(set, number, state, port)
    }
}

/// What an actor finds in its port, by its standing.
#[inline]
fn found_at(set: &Verified, number: u8, standing: Standing, port: &Port) -> Found
    ensures { result ≡ found_at set.now number standing port.now.items }
{
    match standing {
        Standing::Stopped => Found::Nothing,
        Standing::At(Place::Start) => Found::Start,
        Standing::At(Place::State(state)) => found_there(set, number, state, port),
    }
}

/// What an actor finds in its port.
#[inline]
pub(crate) fn look(set: &Verified, actor: &Actor) -> Found
    ensures { result ≡ looks set.now actor.now }
{
    found_at(set, actor.name.process.0, actor.standing, &actor.port)
}

/// Takes the first item that an actor's state doesn't save; none at START and after a STOP.
pub(crate) fn take(set: &Verified, number: u8, standing: Standing, port: &mut Port) -> Option<Item>
    ensures item { result ≡ item_at set.now number standing port.old.items }
    ensures left { port.new ≡ record port.old { items = left_at set.now number standing port.old.items } }
{
    match standing {
        Standing::Stopped | Standing::At(Place::Start) => None,
        Standing::At(Place::State(state)) => port.take(&saved_in(set, number, state)),
    }
}
