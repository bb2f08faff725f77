//! The signals discarded, by state, and how often.
ghost use Rattle.std.specs.Prelude.{◌≡◌, ◌<◌, ◌+◌, ◌++◌, [], List, length, position, OnOk, IfOk, IfSome};
ghost use Rattle.std.specs.List.{flat_map};
ghost use Rattle.script_seen.specs.Watched.{Throw as OneThrow};
ghost use Rattle.script_play.specs.declared.thrown.Throw.{Throw as Counted};
ghost use Rattle.script_play.specs.Thrown.{same_throw, throw_line, thrown_text, counted_throw, once, CountsThrown};

use actor_machine::ActorName;
use script_seen::{
    Ended, Item, Watcher, push_number, push_process, push_state, push_trigger, same_trigger,
    trigger_of,
};
use std::alloc::{AllocError, Global};
use std::io;
use turn_check::Verified;
use turn_code::{ProcessNumber, StateNumber, Trigger};

/// An item discarded in a state of a process, and how often.
#[derive(Clone, Copy, PartialEq, Eq, Debug)]
pub struct Throw {
    process: ProcessNumber,
    state: StateNumber,
    trigger: Trigger,
    times: u64,
}

/// The items discarded, in the order of first occurrence.
#[derive(Drop)]
pub struct Thrown {
    throws: Vec<Throw>,
}

impl Throw {
    /// Whether both are the same signal or timer, discarded in the same state.
    fn is_same(&self, other: &Throw) -> bool
        ensures { result ≡ same_throw self.now other.now }
    {
        self.process.0 == other.process.0
            && self.state.0 == other.state.0
            && same_trigger(self.trigger, other.trigger)
    }

    /// The item, discarded once more; an error if the count exceeds 64 bits.
    fn once_more(&self) -> Result<Throw, AllocError>
        ensures { IfOk result (λ t. t ≡ record self.now { times = self.now.times + 1 }) }
    {
        let Some(times) = self.times.checked_add(1) else {
            return Err(AllocError);
        };
        Ok(Throw {
            process: self.process,
            state: self.state,
            trigger: self.trigger,
            times,
        })
    }
}

/// Appends the line of a discarded item.
fn push_throw(
    alloc: Global,
    text: &mut Vec<u8>,
    set: &Verified,
    throw: &Throw,
) -> Result<(), AllocError>
    ensures { OnOk result (text.new.items ≡ text.old.items ++ throw_line set.now throw.now) }
{
    push_process(text, set, throw.process)?;
    text.push(b' ')?;
    push_state(text, set, throw.process, throw.state)?;
    text.push(b'/')?;
    push_trigger(text, set, throw.process, throw.trigger)?;
    text.push(b' ')?;
    push_number(alloc, text, throw.times)?;
    Ok(text.push(b'\n')?)
}

/// Appends the lines of discarded items, one after another.
fn push_throws(
    alloc: Global,
    text: &mut Vec<u8>,
    set: &Verified,
    throws: &[Throw],
) -> Result<(), AllocError>
    ensures { OnOk result (text.new.items ≡ text.old.items ++ flat_map (throw_line set.now) throws.now) }
{
    for throw in throws {
        push_throw(alloc, text, set, throw)?;
    }
    Ok(())
}

impl Thrown {
    /// Returns empty counts.
    pub(crate) fn new(alloc: Global) -> Thrown
        ensures { CountsThrown [] result }
    {
        Thrown {
            throws: Vec::new(alloc),
        }
    }

    /// The index of an item's count, if it was discarded before.
    fn number(&self, throw: &Throw) -> Option<usize>
        ensures first { result ≡ position (λ (c : Counted). same_throw c throw.now) self.now.throws.items }
        ensures within { IfSome result (λ n. n < length self.now.throws.items) }
    {
        self.throws.iter().position(|known| known.is_same(throw))
    }

    /// Counts a discarded item; an error if memory runs out or the count exceeds 64 bits.
    fn count(&mut self, throw: Throw) -> Result<(), AllocError>
        ensures { OnOk result (self.new.throws.items ≡ counted_throw throw self.old.throws.items) }
    {
        match self.number(&throw) {
            Some(number) => {
                let again = self.throws[number].once_more()?;
                self.throws[number] = again;
                Ok(())
            }
            None => Ok(self.throws.push(throw)?),
        }
    }

    /// Counts an item that an actor discards in a state.
    fn count_item(
        &mut self,
        me: ActorName,
        state: StateNumber,
        item: &Item,
    ) -> Result<(), AllocError>
        ensures { OnOk result (self.new.throws.items ≡ counted_throw (once (record { me = me; state = state; item = item.now })) self.old.throws.items) }
    {
        self.count(Throw {
            process: me.process,
            state,
            trigger: trigger_of(item),
            times: 1,
        })
    }

    /// The report: a line PROCESS STATE/SIGNAL with the count for each item.
    pub(crate) fn text(&self, alloc: Global, set: &Verified) -> Result<Vec<u8>, AllocError>
        ensures { IfOk result (λ v. (xs : List OneThrow) → CountsThrown xs self.now → v.items ≡ thrown_text set.now xs) }
    {
        let mut text = Vec::new(alloc);
        push_throws(alloc, &mut text, set, &self.throws)?;
        Ok(text)
    }
}

impl Watcher for Thrown {
    ghost use Rattle.script_seen.specs.Watched.{throws_in};
    ghost use Rattle.script_play.specs.Thrown.{CountsThrown};

    ghost knows = { λ d ns t. CountsThrown (throws_in ns) t };

    fn end(&mut self, _alloc: Global, _set: &Verified, _ended: &Ended) -> io::Result<()> {
        Ok(())
    }

    fn throw(
        &mut self,
        _alloc: Global,
        _set: &Verified,
        me: ActorName,
        state: StateNumber,
        item: &Item,
    ) -> io::Result<()> {
        Ok(self.count_item(me, state, item)?)
    }
}
