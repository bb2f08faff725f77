//! A chart of turns, in the language of mscgen.
ghost use Rattle.std.specs.Prelude.{◌≡◌, ◌==◌, ◌&&◌, ◌++◌, ◌∷◌, ◌||◌, ◌*◌, [], List, Some, is_none, OnOk, IfOk, false};
ghost use Rattle.std.specs.List.{list_any};
ghost use Rattle.turn_code.specs.Outcome.{Outcome};
ghost use Rattle.turn_code.specs.declared.draft.Draft.{Draft};
ghost use Rattle.actor_machine.specs.Names.{same_actor};
ghost use Rattle.script_seen.specs.Turn.{outcome_of};
ghost use Rattle.script_seen.specs.Watched.{TurnEnd, IsEnd};
ghost use Rattle.script_play.specs.Charted.{time_text, row_text, is_in, has_outside, is_outside, is_address, is_sender, came_from_outside, goes_outside, gets, get_it, is_drawn, end_of, after_heads, columns_of, chart_text, COLUMN, HasColumns, Charts, TakesPart};

use crate::chart_rows::{
    behind_two, is_arc, push_box, push_came, push_outputs, push_time, push_timers, receiver_of,
};
use crate::columns::{Columns, has, push_columns};
use actor_machine::{ActorName, Lost};
use script_seen::{Ended, Item, Watcher, is_dull, loss_at, push_number};
use std::alloc::{AllocError, Global};
use std::io;
use turn_check::Verified;
use turn_code::{Address, Effect, Party, StateNumber};

/// The turns to draw: those with numbers from `first` to `last`.
#[derive(Clone, Copy, PartialEq, Eq, Debug)]
pub struct Cut {
    /// The number of the first turn.
    pub first: u64,
    /// The number of the last turn.
    pub last: u64,
}

/// A chart that grows as turns end.
#[derive(Drop)]
pub struct Chart {
    cut: Cut,
    /// The tick of the last row drawn.
    clock: Option<u64>,
    rows: Vec<u8>,
    /// Whether the environment participates.
    environment: bool,
    /// The actors that participate.
    actors: Vec<ActorName>,
}

/// The width of a column, in pixels.
const COLUMN: u64 = 140;

/// The width of this many columns, in pixels.
fn width_of(columns: u64) -> Result<u64, AllocError>
    ensures { IfOk result (λ w. w ≡ COLUMN * columns) }
{
    match columns.checked_mul(COLUMN) {
        Some(width) => Ok(width),
        None => Err(AllocError),
    }
}

/// Appends the text after the column heads: mscgen needs at least one row.
fn push_ending(text: &mut Vec<u8>, has_none: bool) -> Result<(), AllocError>
    ensures { OnOk result (text.new.items ≡ text.old.items ++ after_heads has_none) }
{
    if has_none {
        return Ok(text.extend_from_slice(b";\n  |||;\n")?);
    }
    Ok(text.extend_from_slice(b";\n")?)
}

/// Whether both are the same range of turns.
fn are_same(left: Cut, right: Cut) -> bool
    ensures { result ≡ ((left.first == right.first) && (left.last == right.last)) }
{
    left.first == right.first && left.last == right.last
}

/// Whether a turn is drawn: its number is in the range, and it isn't dull.
fn is_drawn(cut: Cut, ended: &Ended) -> bool
    ensures { (o : Outcome) → outcome_of ended.now.done ≡ Some o → result ≡ is_drawn cut (end_of ended.now o) }
{
    let job = ended.done.job();
    cut.first <= job.turn()
        && (job.turn() <= cut.last && !is_dull(job.place(), ended.report.end, ended.done.effects()))
}

impl Chart {
    /// Returns a chart without rows, for these turns.
    pub(crate) fn new(alloc: Global, cut: Cut) -> Chart
        ensures { (d : Draft) → Charts d [] result }
    {
        Chart {
            cut,
            clock: None,
            rows: Vec::new(alloc),
            environment: false,
            actors: Vec::new(alloc),
        }
    }

    /// Makes an actor participate.
    fn enter(&mut self, actor: ActorName) -> Result<(), AllocError>
        ensures { OnOk result (TakesPart (same_actor actor) false self.old self.new) }
    {
        if has(&self.actors, actor) {
            return Ok(());
        }
        Ok(self.actors.push(actor)?)
    }

    /// Makes ENV or an actor participate.
    fn enter_as(&mut self, address: Address) -> Result<(), AllocError>
        ensures { OnOk result (TakesPart (is_address address.party address.instance) (is_outside address.party) self.old self.new) }
    {
        match address.party {
            Party::Environment => {
                self.environment = true;
                Ok(())
            }
            Party::Process(process) => match address.instance {
                Some(instance) => self.enter(ActorName { process, instance }),
                None => Ok(()),
            },
        }
    }

    /// Makes the sender of a turn's stimulus participate.
    fn enter_sender(&mut self, sender: Option<Address>) -> Result<(), AllocError>
        ensures { OnOk result (TakesPart (is_sender sender) (came_from_outside sender) self.old self.new) }
    {
        match sender {
            Some(sender) => self.enter_as(sender),
            None => Ok(()),
        }
    }

    /// Makes the receiver drawn with an effect participate.
    fn enter_receiver(
        &mut self,
        set: &Verified,
        me: ActorName,
        is_lost: bool,
        effect: &Effect,
    ) -> Result<(), AllocError>
        ensures { OnOk result (TakesPart (gets set.now me is_lost effect.now) (goes_outside effect.now) self.old self.new) }
    {
        match effect {
            Effect::Output(sending) => {
                if is_arc(sending.receiver.party, is_lost) {
                    return self.enter_as(receiver_of(set, me, sending.receiver));
                }
                Ok(())
            }
            Effect::Set(_, _) => Ok(()),
            Effect::Reset(_) => Ok(()),
        }
    }

    /// Makes the receivers drawn with effects participate.
    fn enter_receivers(
        &mut self,
        set: &Verified,
        me: ActorName,
        lost: &[Lost],
        effects: &[Effect],
    ) -> Result<(), AllocError>
        ensures { OnOk result (TakesPart (get_it set.now me lost.now 0 effects.now) (list_any goes_outside effects.now) self.old self.new) }
    {
        for (place, effect) in effects.iter().enumerate() {
            let is_lost = loss_at(lost, place).is_some();
            self.enter_receiver(set, me, is_lost, effect)?;
        }
        Ok(())
    }

    /// Makes all that are drawn with a turn participate.
    fn enter_all(&mut self, set: &Verified, ended: &Ended) -> Result<(), AllocError>
        ensures { OnOk result ((o : Outcome) → outcome_of ended.now.done ≡ Some o
            → TakesPart (λ x. is_in set.now x (end_of ended.now o)) (has_outside (end_of ended.now o)) self.old self.new) }
    {
        self.enter(ended.me)?;
        self.enter_sender(ended.done.job().input().sender)?;
        self.enter_receivers(set, ended.me, &ended.report.lost, ended.done.effects())
    }

    /// Appends the rows of a turn.
    fn push_rows(&mut self, alloc: Global, set: &Verified, ended: &Ended) -> Result<(), AllocError>
        ensures rows { OnOk result ((o : Outcome) → outcome_of ended.now.done ≡ Some o
            → self.new.rows.items ≡ self.old.rows.items ++ (time_text self.old.clock ended.now.clock ++ row_text set.now (end_of ended.now o))) }
        ensures same { OnOk result (self.new ≡ record self.old { rows = self.new.rows; clock = Some ended.now.clock }) }
    {
        let (me, job, end) = (ended.me, ended.done.job(), ended.report.end);
        let effects = ended.done.effects();
        push_time(alloc, &mut self.rows, self.clock, ended.clock)?;
        push_came(alloc, &mut self.rows, set, me, job)?;
        push_box(alloc, &mut self.rows, set, me, job.place(), end)?;
        push_outputs(alloc, &mut self.rows, set, me, effects, &ended.report.lost)?;
        push_timers(alloc, &mut self.rows, set, ended.clock, me, effects)?;
        self.clock = Some(ended.clock);
        Ok(())
    }

    /// Draws a turn that ended, if its number is in the range and it isn't dull.
    fn draw(&mut self, alloc: Global, set: &Verified, ended: &Ended) -> Result<(), AllocError>
        ensures { OnOk result ((ts : List TurnEnd) (t : TurnEnd) → IsEnd ended.now t → Charts set.now ts self.old → Charts set.now (ts ++ t ∷ []) self.new) }
    {
        if !is_drawn(self.cut, ended) {
            return Ok(());
        }
        self.enter_all(set, ended)?;
        self.push_rows(alloc, set, ended)?;
        Ok(())
    }

    /// Whether the environment has a column: if it participates, or if no turn is drawn.
    fn has_environment(&self) -> bool
        ensures { result ≡ (self.now.environment || is_none self.now.clock) }
    {
        self.environment || self.clock.is_none()
    }

    /// The columns of the participants: the environment first, then the actors in the order of the text.
    fn all_columns(&self, alloc: Global, set: &Verified) -> Result<Columns, AllocError>
        ensures { IfOk result (λ c. HasColumns (columns_of set.now (self.now.environment || is_none self.now.clock) self.now.actors.items) c) }
    {
        let mut columns = Columns::new(alloc, self.has_environment())?;
        push_columns(alloc, &mut columns, set, &self.actors)?;
        Ok(columns)
    }

    /// Returns the chart of the turns drawn; `set` has their actors. An error if `cut` isn't the chart's own range.
    pub(crate) fn text(
        &self,
        alloc: Global,
        set: &Verified,
        cut: Cut,
    ) -> Result<Vec<u8>, AllocError>
        ensures { IfOk result (λ v. (ts : List TurnEnd) → Charts set.now ts self.now → v.items ≡ chart_text set.now cut ts) }
    {
        if !are_same(self.cut, cut) {
            return Err(AllocError);
        }
        let columns = self.all_columns(alloc, set)?;
        let mut text = Vec::from_slice(alloc, b"msc {\n  width=\"")?;
        push_number(alloc, &mut text, width_of(columns.count)?)?;
        text.extend_from_slice(b"\", arcgradient=\"0\";\n  ")?;
        text.extend_from_slice(behind_two(&columns.text))?;
        push_ending(&mut text, self.clock.is_none())?;
        text.extend_from_slice(&self.rows)?;
        text.extend_from_slice(b"}\n")?;
        Ok(text)
    }
}

impl Watcher for Chart {
    ghost use Rattle.script_seen.specs.Watched.{turns_in};
    ghost use Rattle.script_play.specs.Charted.{Charts};

    ghost knows = { λ d ns c. Charts d (turns_in ns) c };

    fn end(&mut self, alloc: Global, set: &Verified, ended: &Ended) -> io::Result<()> {
        Ok(self.draw(alloc, set, ended)?)
    }

    fn throw(
        &mut self,
        _alloc: Global,
        _set: &Verified,
        _me: ActorName,
        _state: StateNumber,
        _item: &Item,
    ) -> io::Result<()> {
        Ok(())
    }
}
