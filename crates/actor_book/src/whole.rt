//! Turns of actors, from beginning to end.

ghost use Rattle.std.specs.Prelude.{◌≡◌, ℕ, ◌≤◌, ◌+◌, IsSome, IfOk, IfErr, OnOk, OnErr, Option, Some, None, length, slice_get};
ghost use Rattle.turn_code.specs.Fits.{Fits};
ghost use Rattle.turn_code.specs.Transitions.{transition_at};
ghost use Rattle.actor_machine.specs.Fits.{GivenFits};
ghost use Rattle.actor_machine.specs.Ledger.{ask, next, turn_at, turn_given, turn_out, turn_with};
ghost use Rattle.actor_machine.specs.Step.{Says};
ghost use Rattle.actor_machine.specs.declared.actor.Actor.{Actor as PlainActor};
ghost use Rattle.actor_machine.specs.declared.event.Event.TheVariants.{Begin, Finish};
ghost use Rattle.actor_machine.specs.declared.reply.Reply.TheVariants as reply;
ghost use Rattle.actor_book.specs.Accepted.{Takes};
ghost use Rattle.actor_book.specs.Meant.{TurnsByText, RefusesByText};
ghost use Rattle.actor_book.specs.Whole.{IsEnding, HasTurned, TookWithin, turned};

use crate::book::Book;
use crate::steps::{name_in, note, number_in};
use actor_machine::laws::{fits_law, keeps_law, out_law, set_law, state_law, text_law};
use actor_machine::{Actor, Event, Given, Refusal, Report, Standing};
use actor_state::NumberedActor;
use turn_check::Verified;
use turn_code::laws::effects_law;
use turn_code::{End, Machine, Place, ProcessNumber};
use turn_machine::run_in;

/// Runs the turn that an actor was given to its end.
fn run_with(
    set: &Verified,
    process: ProcessNumber,
    place: Place,
    given: &Given,
    machine: &mut Machine,
) -> End
    requires { Fits set.now process.0 place given.now.number given.now.input }
    ensures { (number : ℕ) → IsEnding (turn_with number process place given.now (transition_at set.now process.0 place given.now.number)) result machine.new }
{
    run_in(set, process, place, given.number, &given.input, machine)
}

/// Runs the turn that an actor has out to its end.
fn run_of(set: &Verified, number: u16, actor: &Actor, machine: &mut Machine) -> End
    requires fits { GivenFits set.now actor.now.name.process.0 actor.now.standing actor.now.given }
    requires out { IsSome (turn_given set.now number actor.now.name.process actor.now.standing actor.now.given) }
    ensures { IsEnding (turn_given set.now number actor.now.name.process actor.now.standing actor.now.given) result machine.new }
{
    match actor.standing {
        Standing::Stopped => unreachable!(),
        Standing::At(place) => match &actor.given {
            Some(given) => run_with(set, actor.name.process, place, given, machine),
            None => unreachable!(),
        },
    }
}

/// Runs the turn that actor `number` has out to its end.
fn run_at(set: &Verified, actors: &[Actor], number: u16, machine: &mut Machine) -> End
    requires fits { (a : PlainActor) → slice_get actors.now number ≡ Some a → GivenFits set.now a.name.process.0 a.standing a.given }
    requires out { IsSome (turn_at set.now number (slice_get actors.now number)) }
    ensures { IsEnding (turn_at set.now number (slice_get actors.now number)) result machine.new }
{
    match actors.get(usize::from(number)) {
        Some(found) => run_of(set, number, found, machine),
        None => unreachable!(),
    }
}

impl Book {
    /// Gives an actor a whole turn. It begins as by `begin`, its code runs in place in the set, and it ends as by
    /// `finish`. Both events are in the journal. No job is made and no code is copied, so this suits a link that runs
    /// its own turns. Returns the turn's end, its count of instructions, and the outputs that reached nobody. The turn
    /// does what the set means: if the set comes from a text, what the text's transition does.
    ///
    /// # Errors
    ///
    /// Those of `begin`, in the same order: `B10 NoActor`, `B4 Busy`, `B5 Nothing`, `B11 SkipFirst`, `B9 CountFull`,
    /// `B8 JournalFull` if less than two places are free. Then nothing changes.
    pub fn turn(&mut self, actor: u16) -> Result<Report, Refusal>
        ensures book { OnOk result (self.new ≡ (turned self.old actor).book) }
        ensures report { IfOk result (λ report. (turned self.old actor).answer ≡ Says (reply.Finished report)) }
        ensures by_text { IfOk result (λ report. TurnsByText self.old actor report self.new) }
        ensures took { IfOk result (λ report. HasTurned self.old actor report.count) }
        ensures next { OnOk result (next self.new ≡ next self.old + 2) }
        ensures refused { IfErr result (λ refusal. Says (reply.Refused refusal) ≡ (ask self.old (Begin actor)).answer) }
        ensures refused_by_text { IfErr result (RefusesByText self.old actor) }
        ensures err { OnErr result (self.new ≡ self.old) }
    {
        text_law();
        self.keeps();
        match self.begin_refusal(actor) {
            Some(refusal) => Err(refusal),
            None => Ok(self.turn_through(actor)),
        }
    }

    /// Gives a whole turn to an actor that can begin one.
    fn turn_through(&mut self, actor: u16) -> Report
        requires { Takes self.old (Begin actor) }
        ensures book { self.new ≡ (turned self.old actor).book }
        ensures report { (turned self.old actor).answer ≡ Says (reply.Finished result) }
        ensures by_text { TurnsByText self.old actor result self.new }
        ensures took { HasTurned self.old actor result.count }
        ensures next { next self.new ≡ next self.old + 2 }
    {
        keeps_law();
        state_law();
        set_law();
        fits_law();
        text_law();
        self.keeps();
        self.start(actor);
        self.run_out(actor)
    }

    /// Runs the turn that an actor has out, with its code in place in the set, and ends it.
    fn run_out(&mut self, actor: u16) -> Report
        requires { IsSome (turn_out self.old actor) }
        ensures book { self.new ≡ (ask self.old (Finish actor)).book }
        ensures answer { Says (reply.Finished result) ≡ (ask self.old (Finish actor)).answer }
        ensures next { next self.new ≡ next self.old + 1 }
        ensures within { TookWithin (turn_out self.old actor) result.count }
    {
        keeps_law();
        state_law();
        out_law();
        fits_law();
        effects_law();
        let end = run_at(&self.set, self.link.actors(), actor, &mut self.machine);
        let number = number_in(&self.link, actor);
        let name = name_in(&self.link, actor);
        let report = self.link.finish(
            &self.set,
            NumberedActor { number, name },
            end,
            self.machine.variables.as_slice(),
            self.machine.effects.as_slice(),
            self.machine.count,
        );
        note(&mut self.journal, Event::Finish(actor));
        report
    }
}
