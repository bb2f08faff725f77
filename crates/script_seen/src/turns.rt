//! The line of a turn in a trace.
ghost use Rattle.std.specs.Prelude.{◌≡◌, ◌==◌, ◌++◌, Some, position, codes, OnOk, IfOk};
ghost use Rattle.std.specs.List.{flat_map};
ghost use Rattle.turn_code.specs.Outcome.{Outcome};
ghost use Rattle.turn_machine.specs.Turn.{outcome_of};
ghost use Rattle.actor_machine.specs.declared.reply.Lost.{Lost as OneLost};
ghost use Rattle.script_lines.specs.Replies.{signal_text};
ghost use Rattle.plain_text.specs.Lines.{line_of};
ghost use Rattle.script_seen.specs.Told.{values_text, receiver_text, effect_text, effects_text, change_text, changes_text, cause_text, lost_text, lost_at, began_text, ended_text, turn_line, turn_lines, stays_in, is_dull, value_at};

use crate::pushing::{
    push_actor, push_end, push_from, push_number, push_place, push_receiver, push_signal,
    push_timer, push_values, push_variable, shown,
};
use crate::timing::delay_of;
use actor_machine::{ActorName, Cause, Lost, Report};
use std::alloc::{AllocError, Global};
use turn_check::Verified;
use turn_code::{Effect, End, Place, ProcessNumber, Sending, Value, VariableNumber};
use turn_machine::{Done, Job};

/// A turn that ended: its tick, its actor, its execution and its report.
#[derive(Drop)]
pub struct Ended {
    /// The tick.
    pub clock: u64,
    /// The actor.
    pub me: ActorName,
    /// The turn's input and its effects.
    pub done: Done,
    /// The report of its end.
    pub report: Report,
}

/// The tick at which a turn ends, and its actor.
#[derive(Clone, Copy)]
struct Moment {
    clock: u64,
    me: ActorName,
}

/// Whether a loss is that of the effect at a place.
fn is_at(loss: &Lost, place: usize) -> bool
    ensures { result ≡ (loss.now.place == place) }
{
    usize::from(loss.place) == place
}

/// The index of the loss of the effect at a place, if it was lost.
fn loss_number(lost: &[Lost], place: usize) -> Option<usize>
    ensures { result ≡ position (λ (l : OneLost). l.place == place) lost.now }
{
    lost.iter().position(|loss| is_at(loss, place))
}

/// Returns the loss of the effect at a place, if it was lost.
pub fn loss_at(lost: &[Lost], place: usize) -> Option<Lost>
    ensures { result ≡ lost_at lost.now place }
{
    match loss_number(lost, place) {
        Some(number) => match lost.get(number) {
            Some(loss) => Some(*loss),
            None => None,
        },
        None => None,
    }
}

/// The reason why an output was lost.
fn cause_text<'a>(cause: Cause) -> &'a str
    ensures { result.now ≡ cause_text cause }
{
    match cause {
        Cause::Full => " lost Full",
        Cause::EnvFull => " lost EnvFull",
        Cause::Stopped => " lost Stopped",
    }
}

/// Appends the reason why the output at a place was lost, if it was.
fn push_loss(line: &mut Vec<u8>, lost: &[Lost], place: usize) -> Result<(), AllocError>
    ensures { OnOk result (line.new.items ≡ line.old.items ++ lost_text (lost_at lost.now place)) }
{
    match loss_at(lost, place) {
        Some(loss) => Ok(line.extend_from_slice(cause_text(loss.cause).as_bytes())?),
        None => Ok(()),
    }
}

/// Appends an output, without its loss.
fn push_output(
    alloc: Global,
    line: &mut Vec<u8>,
    set: &Verified,
    me: ActorName,
    sending: &Sending,
) -> Result<(), AllocError>
    ensures { OnOk result (line.new.items ≡ line.old.items ++ (signal_text set.now sending.now.signal.0 ++ values_text sending.now.parameters.items
        ++ codes " to " ++ receiver_text set.now me sending.now.receiver.party sending.now.receiver.instance)) }
{
    push_signal(line, set, sending.signal)?;
    push_values(alloc, line, &sending.parameters)?;
    line.extend_from_slice(b" to ")?;
    push_receiver(alloc, line, set, me, sending.receiver)
}

/// Appends an effect of a turn that ends at this moment. A time past 2^64 would be an error; the clock ends before.
fn push_effect(
    alloc: Global,
    line: &mut Vec<u8>,
    set: &Verified,
    moment: Moment,
    lost: &[Lost],
    place: usize,
    effect: &Effect,
) -> Result<(), AllocError>
    ensures { OnOk result (line.new.items ≡ line.old.items ++ (codes ", " ++ effect_text set.now moment.clock moment.me lost.now place effect.now)) }
{
    let Moment { clock, me } = moment;
    line.extend_from_slice(b", ")?;
    match effect {
        Effect::Output(sending) => {
            push_output(alloc, line, set, me, sending)?;
            push_loss(line, lost, place)
        }
        Effect::Set(timer, ticks) => {
            line.extend_from_slice(b"set ")?;
            push_timer(line, set, me.process, *timer)?;
            line.extend_from_slice(b" at ")?;
            match clock.checked_add(delay_of(*ticks)) {
                Some(at) => push_number(alloc, line, at),
                None => Err(AllocError),
            }
        }
        Effect::Reset(timer) => {
            line.extend_from_slice(b"reset ")?;
            push_timer(line, set, me.process, *timer)
        }
    }
}

/// Appends the effects of a turn, with a comma before each.
fn push_effects(
    alloc: Global,
    line: &mut Vec<u8>,
    set: &Verified,
    clock: u64,
    me: ActorName,
    lost: &[Lost],
    effects: &[Effect],
) -> Result<(), AllocError>
    ensures { OnOk result (line.new.items ≡ line.old.items ++ effects_text set.now clock me lost.now 0 effects.now) }
{
    for (place, effect) in effects.iter().enumerate() {
        push_effect(alloc, line, set, Moment { clock, me }, lost, place, effect)?;
    }
    Ok(())
}

/// The value of a variable before the turn, if it was set.
fn value_at(before: &[Option<Value>], number: usize) -> Option<Value>
    ensures { result ≡ value_at before.now number }
{
    match before.get(number) {
        Some(value) => *value,
        None => None,
    }
}

/// Appends a changed variable after a comma. A number above 255 would be an error, but no process has as many.
fn push_change(
    alloc: Global,
    line: &mut Vec<u8>,
    set: &Verified,
    process: ProcessNumber,
    before: &[Option<Value>],
    number: usize,
    value: Option<Value>,
) -> Result<(), AllocError>
    ensures { OnOk result (line.new.items ≡ line.old.items ++ change_text set.now process.0 before.now number value) }
{
    let was = shown(alloc, value_at(before, number))?;
    let is = shown(alloc, value)?;
    if was.as_slice() == is.as_slice() {
        return Ok(());
    }
    let Ok(number) = u8::try_from(number) else {
        return Err(AllocError);
    };
    line.extend_from_slice(b", ")?;
    push_variable(line, set, process, VariableNumber(number))?;
    line.extend_from_slice(b" := ")?;
    Ok(line.extend_from_slice(&is)?)
}

/// Appends the variables that a turn changed, with a comma before each.
fn push_changes(
    alloc: Global,
    line: &mut Vec<u8>,
    set: &Verified,
    process: ProcessNumber,
    before: &[Option<Value>],
    after: &[Option<Value>],
) -> Result<(), AllocError>
    ensures { OnOk result (line.new.items ≡ line.old.items ++ changes_text set.now process.0 before.now 0 after.now) }
{
    for (number, value) in after.iter().enumerate() {
        push_change(alloc, line, set, process, before, number, *value)?;
    }
    Ok(())
}

/// Appends how a turn began.
fn push_began(
    alloc: Global,
    line: &mut Vec<u8>,
    set: &Verified,
    me: ActorName,
    job: &Job,
) -> Result<(), AllocError>
    ensures { OnOk result (line.new.items ≡ line.old.items ++ began_text set.now me job.now) }
{
    line.extend_from_slice(b" turn ")?;
    push_number(alloc, line, job.turn())?;
    line.push(b' ')?;
    push_actor(alloc, line, set, me)?;
    line.push(b' ')?;
    push_place(line, set, me.process, job.place(), job.input_number())?;
    push_values(alloc, line, &job.input().parameters)?;
    push_from(alloc, line, set, job.input().sender)
}

/// Appends how a turn ended, with the number of instructions that it may execute.
fn push_ended(
    alloc: Global,
    line: &mut Vec<u8>,
    set: &Verified,
    me: ActorName,
    job: &Job,
    report: &Report,
) -> Result<(), AllocError>
    ensures { OnOk result (line.new.items ≡ line.old.items ++ ended_text set.now me job.now report.now) }
{
    line.extend_from_slice(b", ")?;
    push_end(line, set, me.process, report.end)?;
    line.extend_from_slice(b" count ")?;
    push_number(alloc, line, u64::from(report.count))?;
    line.extend_from_slice(b" of ")?;
    push_number(alloc, line, u64::from(job.certificate().budget))
}

/// The line of a turn.
fn line_of(alloc: Global, set: &Verified, ended: &Ended) -> Result<Vec<u8>, AllocError>
    ensures { IfOk result (λ v. (o : Outcome) → outcome_of ended.now.done ≡ Some o
        → v.items ≡ turn_line set.now ended.now.clock ended.now.me ended.now.done ended.now.report o) }
{
    let Ended {
        clock,
        me,
        done,
        report,
    } = ended;
    let job = done.job();
    let before = job.input().variables.as_slice();
    let mut line = Vec::new(alloc);
    push_number(alloc, &mut line, *clock)?;
    push_began(alloc, &mut line, set, *me, job)?;
    push_ended(alloc, &mut line, set, *me, job, report)?;
    push_effects(
        alloc,
        &mut line,
        set,
        *clock,
        *me,
        &report.lost,
        done.effects(),
    )?;
    push_changes(alloc, &mut line, set, me.process, before, done.variables())?;
    Ok(line)
}

/// Returns whether a turn with this beginning and end keeps its state.
pub fn stays_in(place: Place, end: End) -> bool
    ensures { result ≡ stays_in place end }
{
    match place {
        Place::Start => false,
        Place::State(from) => match end {
            End::State(to) => from.0 == to.0,
            End::Stop => false,
        },
    }
}

/// Returns whether a turn is dull: it keeps its state and has no effect.
pub fn is_dull(place: Place, end: End, effects: &[Effect]) -> bool
    ensures { result ≡ is_dull place end effects.now }
{
    stays_in(place, end) && effects.is_empty()
}

/// The trace of a turn that ended.
pub(crate) fn turn_text(
    alloc: Global,
    set: &Verified,
    ended: &Ended,
    every: bool,
) -> Result<Vec<u8>, AllocError>
    ensures { IfOk result (λ v. (o : Outcome) → outcome_of ended.now.done ≡ Some o
        → v.items ≡ flat_map line_of (turn_lines every set.now ended.now.clock ended.now.me ended.now.done ended.now.report o)) }
{
    let place = ended.done.job().place();
    if !every && is_dull(place, ended.report.end, ended.done.effects()) {
        return Ok(Vec::new(alloc));
    }
    let mut line = line_of(alloc, set, ended)?;
    line.push(b'\n')?;
    Ok(line)
}
