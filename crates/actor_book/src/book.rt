//! The book.

ghost use Rattle.std.specs.Prelude.{◌≡◌, ◌≤◌, ◌<◌, ◌+◌, ◌^◌, [], length, IfOk, OnOk, OnErr, Some, None, Option};
ghost use Rattle.actor_machine.specs.Core.{outs};
ghost use Rattle.actor_machine.specs.Ledger.{rebased, next, room, state_of};
ghost use Rattle.actor_machine.specs.Kept.{IsKept, opened_book};
ghost use Rattle.actor_machine.specs.Refusals.{with_room, needs};
ghost use Rattle.actor_machine.specs.declared.event.Event.{Event as PlainEvent};
ghost use Rattle.actor_book.specs.Schedules.{HasHistory};
ghost use Rattle.plain_laws.specs.Limits.{PAST_PLACES};

use crate::limits::Limits;
use actor_machine::laws::keeps_law;
use actor_machine::{Event, Refusal};
use actor_state::{LinkActors, with_room};
use std::alloc::{AllocError, Global};
use std::marker::Model;
use turn_check::Verified;
use turn_code::Machine;
use turn_machine::new_machine;

/// The instances of a link's processes as actors, with the journal of their events.
///
/// After `open` only `rebase` can run out of memory.
#[derive(Drop)]
pub struct Book {
    pub(crate) set: Verified,
    pub(crate) base: LinkActors,
    pub(crate) first: u64,
    pub(crate) journal: Vec<Event>,
    pub(crate) limit: usize,
    pub(crate) link: LinkActors,
    /// The machine on which whole turns run (`turn`).
    pub(crate) machine: Machine,
}

impl Model for Book {
    ghost use Rattle.std.specs.Prelude.{vec_capacity};
    ghost use Rattle.std.specs.Coded.{codes};
    ghost use Rattle.tick_wheel.specs.Timers.{timers_code};
    ghost use Rattle.actor_machine.specs.Ledger.{Ledger};
    ghost use Rattle.actor_book.specs.Inside.{IsBook};

    ghost Value = { Ledger };

    ghost coded = { Prim.hlevel (codes, timers_code) };

    ghost view = { λ b. record { set = b.set; base = b.base; first = b.first; journal = b.journal.items; limit = b.limit } };

    ghost invariant = { λ b. IsBook (record { set = b.set; base = b.base; first = b.first; journal = b.journal.items; limit = b.limit }) b.link (vec_capacity b.journal) };
}

impl Book {
    /// The book of a set of processes. Each instance of each process is an actor before its START. Actors are numbered
    /// from 0, by process in text order, then by instance. The book copies the set, and allocates all its memory.
    pub fn open(alloc: Global, set: &Verified, limits: Limits) -> Result<Book, AllocError>
        ensures { IfOk result (λ b. b ≡ opened_book set.now limits.port limits.env limits.journal) }
    {
        keeps_law();
        let _valid = set.draft();
        let journal = Vec::with_capacity(alloc, limits.journal())?;
        let base = LinkActors::open(alloc, set, limits.port(), limits.env())?;
        let link = LinkActors::open(alloc, set, limits.port(), limits.env())?;
        let kept = set.copy()?;
        Ok(Book {
            set: kept,
            base,
            first: 0,
            journal,
            limit: limits.journal(),
            link,
            machine: new_machine(),
        })
    }

    /// Makes the present state the base, and empties the journal. Actors may have turns out.
    ///
    /// # Errors
    ///
    /// If memory runs out. Then nothing changes.
    pub fn rebase(&mut self) -> Result<(), AllocError>
        ensures ok { OnOk result (self.new ≡ rebased self.old) }
        ensures err { OnErr result (self.new ≡ self.old) }
    {
        keeps_law();
        let base = self.link.copy()?;
        self.base = base;
        self.first += self.journal.len() as u64;
        self.journal.clear();
        Ok(())
    }

    /// The place of the journal's next event. It is always less than 2^57.
    pub fn next(&self) -> u64
        ensures value { result ≡ next self.now }
        ensures in_range { result < PAST_PLACES }
    {
        self.first + self.journal.len() as u64
    }

    /// How many places of the journal are free. Each turn that is out reserves one; from place 2^56 on none is free.
    pub fn room(&self) -> usize
        ensures { result ≡ room self.now (state_of self.now) }
    {
        if self.next() >= 1 << 56 {
            0
        } else {
            self.limit - (self.journal.len() + self.outs())
        }
    }

    /// How many turns are out (begun and not ended). This looks at no actor.
    fn outs(&self) -> usize
        ensures { result ≡ outs (state_of self.now).actors }
    {
        self.keeps();
        let link = self.state();
        (link.turns() - link.finishes()) as usize
    }

    /// Every book, wherever it comes from, such as from a lock, came from an opening with its set by a schedule: a list of
    /// events and rebases of any length. So the laws of schedules hold of its life. Calling it costs nothing.
    pub fn history(&self)
        ensures { ∥ HasHistory self.now ∥₁ }
    {
        let _ = &self.limit;
    }

    /// Every book's invariant, wherever the book comes from, such as from a lock. Its set is valid, and all fits in
    /// each state from the base on: signals came along their routes, timers are their receivers' own, and each turn
    /// that is out has a fitting input and its own number. Numbers stay in range, and no timer with a deadline has a
    /// signal waiting. The laws of [`actor_machine`] require this. Calling it costs nothing.
    pub fn keeps(&self)
        ensures { IsKept self.now }
    {
        let _ = &self.limit;
    }
}
