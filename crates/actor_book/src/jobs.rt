//! Jobs that are made again, and compared with those that are out.

ghost use Rattle.std.specs.Prelude.{◌≡◌, ◌↔◌, ◌≤◌, IsTrue, Option, Some, None, length, slice_get};
ghost use Rattle.turn_code.specs.Fits.{Fits};
ghost use Rattle.turn_code.specs.Transitions.{transition_at};
ghost use Rattle.actor_machine.specs.Fits.{GivenFits};
ghost use Rattle.actor_machine.specs.Ledger.{turn_at, turn_given, turn_with};
ghost use Rattle.actor_machine.specs.declared.actor.Actor.{Actor as PlainActor};

use actor_machine::{Actor, Given, Standing};
use turn_check::Verified;
use turn_code::{Place, ProcessNumber};
use turn_machine::{Job, Received, TurnHead, Work, is_turn, runs_piece};

/// The job of a turn.
fn job_with(set: &Verified, number: u16, process: ProcessNumber, place: Place, given: &Given) -> Job
    requires { Fits set.now process.0 place given.now.number given.now.input }
    ensures { Some result ≡ turn_with number process place given.now (transition_at set.now process.0 place given.now.number) }
{
    let input = given.input.copy();
    let head = TurnHead {
        actor: number,
        turn: given.turn,
        process,
        place,
        input_number: given.number,
    };
    Job::new(
        set,
        head,
        input.variables,
        Received {
            parameters: input.parameters,
            sender: input.sender,
        },
    )
}

/// The job of an actor, if it has a turn out.
fn job_of(set: &Verified, number: u16, actor: &Actor) -> Option<Job>
    requires { GivenFits set.now actor.now.name.process.0 actor.now.standing actor.now.given }
    ensures { result ≡ turn_given set.now number actor.now.name.process actor.now.standing actor.now.given }
{
    match actor.standing {
        Standing::Stopped => None,
        Standing::At(place) => match &actor.given {
            Some(given) => Some(job_with(set, number, actor.name.process, place, given)),
            None => None,
        },
    }
}

/// The job of actor `number`, if it exists and has a turn out.
pub(crate) fn job_at(set: &Verified, actors: &[Actor], number: u16) -> Option<Job>
    requires { (a : PlainActor) → slice_get actors.now number ≡ Some a → GivenFits set.now a.name.process.0 a.standing a.given }
    ensures { result ≡ turn_at set.now number (slice_get actors.now number) }
{
    match actors.get(usize::from(number)) {
        Some(found) => job_of(set, number, found),
        None => None,
    }
}

/// Whether this is the work of a turn.
fn is_job_with(
    set: &Verified,
    number: u16,
    process: ProcessNumber,
    place: Place,
    given: &Given,
    work: &Work,
) -> bool
    ensures { IsTrue result ↔ (turn_with number process place given.now (transition_at set.now process.0 place given.now.number) ≡ Some work.now) }
{
    match set.transition(process, place, given.number) {
        Some(transition) => {
            is_turn(work, number, given.turn, place, given.number, &given.input)
                && runs_piece(work, process, transition.piece)
        }
        None => false,
    }
}

/// Whether this is the work of an actor's turn, if the actor has one out.
fn is_job_of(set: &Verified, number: u16, actor: &Actor, work: &Work) -> bool
    ensures { IsTrue result ↔ (turn_given set.now number actor.now.name.process actor.now.standing actor.now.given ≡ Some work.now) }
{
    match actor.standing {
        Standing::Stopped => false,
        Standing::At(place) => match &actor.given {
            Some(given) => is_job_with(set, number, actor.name.process, place, given, work),
            None => false,
        },
    }
}

/// Whether this is the work of the turn that its actor has out. Its code is compared with the set's.
pub(crate) fn is_job_out(set: &Verified, actors: &[Actor], work: &Work) -> bool
    ensures { IsTrue result ↔ (turn_at set.now work.now.actor (slice_get actors.now work.now.actor) ≡ Some work.now) }
{
    let number = work.actor();
    match actors.get(usize::from(number)) {
        Some(found) => is_job_of(set, number, found, work),
        None => false,
    }
}
