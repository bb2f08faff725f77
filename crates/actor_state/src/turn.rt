//! Begins of turns, and skips.

ghost use Rattle.std.specs.Prelude.{◌≡◌, ◌<◌, ◌+◌, ◌^◌, Option, Some, None, option_map, slice_get};
ghost use Rattle.actor_machine.specs.Core.{change, is_out};
ghost use Rattle.actor_machine.specs.Looking.{looks, item_at, input_with, given_now, begun, skipped, trigger_of};
ghost use Rattle.actor_machine.specs.Refusals.{begin_rows, skip_rows, first_of};
ghost use Rattle.actor_machine.specs.declared.actor.Actor.{Actor as PlainActor};
ghost use Rattle.actor_state.specs.Saving.{skipped_by};
ghost use Rattle.plain_laws.specs.Limits.{MOST_TURNS_BEGUN};

use crate::link_actors::LinkActors;
use crate::look::{look, number_of, take, trigger_of};
use actor_machine::{Actor, Found, Given, Refusal};
use arrayvec::ArrayVec;
use input_port::Item;
use turn_check::Verified;
use turn_code::{Address, Input, Trigger, Value};

/// The greatest number of turns.
const TURNS: u64 = 1 << 40;

/// Why an actor can't begin a turn, if it can't.
pub(crate) fn begin_refusal(set: &Verified, turns: u64, actor: &Actor) -> Option<Refusal>
    ensures { result ≡ first_of (begin_rows set.now turns actor.now) }
{
    if actor.is_out() {
        return Some(Refusal::Busy);
    }
    match look(set, actor) {
        Found::Nothing => Some(Refusal::Nothing),
        Found::Ignored => Some(Refusal::SkipFirst),
        Found::Start | Found::Input(_) => {
            if turns >= TURNS {
                Some(Refusal::CountFull)
            } else {
                None
            }
        }
    }
}

/// Why an actor can't skip an item, if it can't.
pub(crate) fn skip_refusal(set: &Verified, actor: &Actor) -> Option<Refusal>
    ensures { result ≡ first_of (skip_rows set.now actor.now) }
{
    if actor.is_out() {
        return Some(Refusal::Busy);
    }
    match look(set, actor) {
        Found::Nothing => Some(Refusal::Nothing),
        Found::Start | Found::Input(_) => Some(Refusal::NotIgnored),
        Found::Ignored => None,
    }
}

/// The parameters and the sender that an item brings to a turn.
fn brought_by(item: Option<Item>) -> (ArrayVec<Value, 4>, Option<Address>)
    ensures { (a : PlainActor) → record { variables = a.variables; parameters = result.0; sender = result.1 } ≡ input_with a item }
{
    match item {
        Some(Item::Signal(arrival)) => (arrival.parameters, Some(arrival.sender)),
        Some(Item::Timer(_)) | None => (ArrayVec::new(), None),
    }
}

/// The input of a turn.
fn input_with(variables: &ArrayVec<Option<Value>, 32>, item: Option<Item>) -> Input
    ensures { (a : PlainActor) → a.variables ≡ variables.now → result ≡ input_with a item }
{
    let (parameters, sender) = brought_by(item);
    let mut own = ArrayVec::new();
    own.try_extend_from_slice(variables.as_slice()).unwrap();
    Input {
        variables: own,
        parameters,
        sender,
    }
}

/// The actor takes the item that it finds, and has this turn out.
fn begin(set: &Verified, turn: u64, actor: &mut Actor)
    ensures { actor.new ≡ begun set.now turn actor.old }
{
    let process = actor.name.process.0;
    let item = take(set, process, actor.standing, &mut actor.port);
    let number = number_of(set, process, actor.standing, &item);
    let input = input_with(&actor.variables, item);
    actor.given = Some(Given {
        turn,
        number,
        input,
    });
}

/// The actor discards the item that it finds, and returns its signal or timer.
fn skip(set: &Verified, actor: &mut Actor) -> Option<Trigger>
    ensures actor { actor.new ≡ skipped set.now actor.old }
    ensures skipped { result ≡ option_map trigger_of (item_at set.now actor.old.name.process.0 actor.old.standing actor.old.port.items) }
{
    match take(set, actor.name.process.0, actor.standing, &mut actor.port) {
        Some(item) => Some(trigger_of(&item)),
        None => None,
    }
}

/// Actor `number` takes the item that it finds, and has this turn out.
fn begin_at(set: &Verified, number: u8, turn: u64, actors: &mut [Actor])
    ensures { actors.new ≡ change actors.old number (begun set.now turn) }
{
    if usize::from(number) < actors.len() {
        begin(set, turn, &mut actors[usize::from(number)]);
    }
}

/// Actor `number` discards the item that it finds, and returns its signal or timer.
fn skip_at(set: &Verified, number: u8, actors: &mut [Actor]) -> Option<Trigger>
    ensures actors { actors.new ≡ change actors.old number (skipped set.now) }
    ensures skipped { result ≡ skipped_by set.now (slice_get actors.old number) }
{
    if usize::from(number) < actors.len() {
        skip(set, &mut actors[usize::from(number)])
    } else {
        None
    }
}

impl LinkActors {
    /// Begins a turn of an actor: it takes the item that it finds, and has the turn out.
    pub fn begin(&mut self, set: &Verified, actor: u8)
        requires { self.old.turns < MOST_TURNS_BEGUN }
        ensures { self.new ≡ record self.old { actors = change self.old.actors actor (begun set.now self.old.turns); turns = self.old.turns + 1 } }
    {
        begin_at(set, actor, self.turns, &mut self.actors);
        self.turns += 1;
    }

    /// Discards the item that an actor finds, and returns its signal or timer.
    pub fn skip(&mut self, set: &Verified, actor: u8) -> Option<Trigger>
        ensures link { self.new ≡ record self.old { actors = change self.old.actors actor (skipped set.now) } }
        ensures skipped { result ≡ skipped_by set.now (slice_get self.old.actors actor) }
    {
        skip_at(set, actor, &mut self.actors)
    }
}
