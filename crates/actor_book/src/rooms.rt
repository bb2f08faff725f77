//! Turns that begin into a worker's room and end from it.

ghost use Rattle.std.specs.Prelude.{◌≡◌, ◌↔◌, ◌≤◌, ◌+◌, IsSome, IsOk, IfSome, IfNone, IfOk, IfErr, OnOk, OnErr, Option, Some, length, slice_get};
ghost use Rattle.turn_code.specs.Fits.{Fits};
ghost use Rattle.turn_code.specs.Transitions.{transition_at};
ghost use Rattle.turn_machine.specs.Rooms.{Free};
ghost use Rattle.actor_machine.specs.Fits.{GivenFits};
ghost use Rattle.actor_machine.specs.Ledger.{ask, next, turn_at, turn_given, turn_out, turn_with};
ghost use Rattle.actor_machine.specs.Step.{Says};
ghost use Rattle.actor_machine.specs.declared.actor.Actor.{Actor as PlainActor};
ghost use Rattle.actor_machine.specs.declared.event.Event.TheVariants.{Begin, Finish};
ghost use Rattle.actor_machine.specs.declared.reply.Refusal.TheVariants.{Stranger};
ghost use Rattle.actor_machine.specs.declared.reply.Reply.TheVariants as reply;
ghost use Rattle.actor_book.specs.Accepted.{Takes};
ghost use Rattle.actor_book.specs.Roomed.{LiesOut, BeginsThere, BeginsNone, IsOutThere, HasOutThere, EndsThere, room_refusal_text};
ghost use Rattle.actor_book.specs.Whole.{IsEnding, TookWithin};

use crate::book::Book;
use crate::steps::{name_in, note, number_in};
use actor_machine::laws::{fits_law, keeps_law, out_law, set_law, state_law, text_law};
use actor_machine::{Actor, Event, Given, Refusal, Report, Standing};
use actor_state::NumberedActor;
use std::fmt;
use thiserror::Error;
use turn_check::Verified;
use turn_code::laws::effects_law;
use turn_code::{Place, ProcessNumber};
use turn_machine::{Ended, Room, TurnHead};

/// Why no turn begins into a room. Then neither the room nor the book changes.
#[derive(Clone, Copy, PartialEq, Eq, Debug, Error)]
pub enum RoomRefusal {
    /// The room holds a turn that hasn't ended.
    Taken,
    /// The book refuses the turn.
    Refused(Refusal),
}

impl RoomRefusal {
    /// The refusal's code and name, as printed.
    pub fn name<'a>(self) -> &'a str
        ensures { result.now ≡ room_refusal_text self }
    {
        match self {
            Self::Taken => "B13 Taken",
            Self::Refused(refusal) => refusal.name(),
        }
    }
}

impl fmt::Display for RoomRefusal {
    ghost output = { λ r. Some (room_refusal_text r) };

    fn fmt<W: fmt::Write>(&self, f: &mut fmt::Formatter<W>) -> fmt::Result {
        f.write_str(self.name())
    }
}

/// Makes the job of a turn in a room.
fn put_with(
    set: &Verified,
    number: u16,
    process: ProcessNumber,
    place: Place,
    given: &Given,
    room: &mut Room,
)
    requires free { room.old ≡ Free }
    requires fits { Fits set.now process.0 place given.now.number given.now.input }
    ensures { LiesOut (turn_with number process place given.now (transition_at set.now process.0 place given.now.number)) room.new }
{
    let head = TurnHead {
        actor: number,
        turn: given.turn,
        process,
        place,
        input_number: given.number,
    };
    room.begin(set, head, &given.input);
}

/// Makes the job of an actor that has a turn out in a room.
fn put_of(set: &Verified, number: u16, actor: &Actor, room: &mut Room)
    requires free { room.old ≡ Free }
    requires fits { GivenFits set.now actor.now.name.process.0 actor.now.standing actor.now.given }
    requires out { IsSome (turn_given set.now number actor.now.name.process actor.now.standing actor.now.given) }
    ensures { LiesOut (turn_given set.now number actor.now.name.process actor.now.standing actor.now.given) room.new }
{
    match actor.standing {
        Standing::Stopped => unreachable!(),
        Standing::At(place) => match &actor.given {
            Some(given) => put_with(set, number, actor.name.process, place, given, room),
            None => unreachable!(),
        },
    }
}

/// Makes the job of actor `number`, which has a turn out, in a room.
fn put_at(set: &Verified, actors: &[Actor], number: u16, room: &mut Room)
    requires free { room.old ≡ Free }
    requires fits { (a : PlainActor) → slice_get actors.now number ≡ Some a → GivenFits set.now a.name.process.0 a.standing a.given }
    requires out { IsSome (turn_at set.now number (slice_get actors.now number)) }
    ensures { LiesOut (turn_at set.now number (slice_get actors.now number)) room.new }
{
    match actors.get(usize::from(number)) {
        Some(found) => put_of(set, number, found, room),
        None => unreachable!(),
    }
}

impl Book {
    /// Begins an actor's turn, as `begin` does, and makes its job in a room, where it is to run.
    ///
    /// # Errors
    ///
    /// `B13 Taken` if the room holds an unfinished turn, else as `begin`: `B10 NoActor`, `B4 Busy`, `B5 Nothing`, `B11
    /// SkipFirst`, `B9 CountFull`, `B8 JournalFull` if fewer than two places are free. Then nothing changes.
    pub fn begin_in(&mut self, room: &mut Room, actor: u16) -> Result<(), RoomRefusal>
        ensures free { OnOk result (room.old ≡ Free) }
        ensures book { OnOk result (self.new ≡ (ask self.old (Begin actor)).book) }
        ensures began { OnOk result (BeginsThere self.old actor self.new room.new) }
        ensures next { OnOk result (next self.new ≡ next self.old + 1) }
        ensures refused { IfErr result (BeginsNone self.old actor room.old) }
        ensures err { OnErr result (self.new ≡ self.old) }
        ensures stays { OnErr result (room.new ≡ room.old) }
    {
        if !room.is_free() {
            return Err(RoomRefusal::Taken);
        }
        match self.begin_refusal(actor) {
            Some(refusal) => Err(RoomRefusal::Refused(refusal)),
            None => {
                self.begin_there(room, actor);
                Ok(())
            }
        }
    }

    /// Begins a turn into a free room, for an actor that can begin one.
    fn begin_there(&mut self, room: &mut Room, actor: u16)
        requires free { room.old ≡ Free }
        requires takes { Takes self.old (Begin actor) }
        ensures book { self.new ≡ (ask self.old (Begin actor)).book }
        ensures began { BeginsThere self.old actor self.new room.new }
        ensures next { next self.new ≡ next self.old + 1 }
    {
        keeps_law();
        state_law();
        set_law();
        fits_law();
        self.keeps();
        self.start(actor);
        self.put_out(room, actor);
    }

    /// Makes, in a free room, the job of an actor that has a turn out.
    fn put_out(&self, room: &mut Room, actor: u16)
        requires free { room.old ≡ Free }
        requires out { IsSome (turn_out self.now actor) }
        ensures { LiesOut (turn_out self.now actor) room.new }
    {
        fits_law();
        put_at(&self.set, self.link.actors(), actor, room);
    }

    /// Ends an actor's turn that ran in a room, as `finish` does; what ran is compared with it whole. The room is free
    /// then. The turn does what the set means: if it comes from a text, what the text's transition does.
    ///
    /// # Errors
    ///
    /// `B6 Stranger`: nothing ran in the room, or it isn't the turn that its actor has out in this book, for example if
    /// it has ended already. Then neither the book nor the room changes.
    pub fn finish_in(&mut self, room: &mut Room) -> Result<Report, Refusal>
        ensures accepted { IsOk result ↔ IsOutThere self.old room.old }
        ensures ends { IfOk result (λ report. EndsThere self.old room.old report self.new) }
        ensures free { OnOk result (room.new ≡ Free) }
        ensures next { OnOk result (next self.new ≡ next self.old + 1) }
        ensures refused { IfErr result (λ refusal. refusal ≡ Stranger) }
        ensures err { OnErr result (self.new ≡ self.old) }
        ensures stays { OnErr result (room.new ≡ room.old) }
    {
        match self.actor_there(room) {
            None => Err(Refusal::Stranger),
            Some(actor) => {
                let report = self.end_there(actor, room);
                room.clear();
                Ok(report)
            }
        }
    }

    /// The actor whose turn ran in a room, if it has this turn out.
    fn actor_there(&self, room: &Room) -> Option<u16>
        ensures some { IfSome result (HasOutThere self.now room.now) }
        ensures none { IfNone result (IsOutThere self.now room.now → ⊥) }
    {
        match room.ran() {
            Some(work) => {
                if self.has_work_out(work) {
                    Some(work.actor())
                } else {
                    None
                }
            }
            None => None,
        }
    }

    /// Ends the turn that an actor has out and that ran in a room.
    fn end_there(&mut self, actor: u16, room: &Room) -> Report
        requires { HasOutThere self.old room.now actor }
        ensures ends { EndsThere self.old room.now result self.new }
        ensures next { next self.new ≡ next self.old + 1 }
    {
        text_law();
        self.keeps();
        self.end_by(actor, room.ended())
    }

    /// Ends the turn that an actor has out, as it ran.
    fn end_by(&mut self, actor: u16, ended: &Ended) -> Report
        requires { IsEnding (turn_out self.old actor) ended.now.end ended.now.machine }
        ensures book { self.new ≡ (ask self.old (Finish actor)).book }
        ensures answer { Says (reply.Finished result) ≡ (ask self.old (Finish actor)).answer }
        ensures next { next self.new ≡ next self.old + 1 }
        ensures within { TookWithin (turn_out self.old actor) result.count }
    {
        keeps_law();
        state_law();
        out_law();
        fits_law();
        effects_law();
        let number = number_in(&self.link, actor);
        let name = name_in(&self.link, actor);
        let report = self.link.finish(
            &self.set,
            NumberedActor { number, name },
            ended.end,
            ended.machine.variables.as_slice(),
            ended.machine.effects.as_slice(),
            ended.machine.count,
        );
        note(&mut self.journal, Event::Finish(actor));
        report
    }
}
