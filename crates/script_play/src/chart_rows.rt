//! The rows of a turn in a chart, in the language of mscgen.
ghost use Rattle.std.specs.Prelude.{◌≡◌, ◌++◌, ℕ, List, drop, OnOk, IfOk};
ghost use Rattle.std.specs.List.{flat_map};
ghost use Rattle.script_play.specs.Charted.{labelled, actor_quoted, party_quoted, commaed, more_values, called_text, clock_text, time_text, beside, taken_text, run_out_text, came_text, box_text, receiver_of, sent_text, is_arc, arrow_of, out_text, outs_text, timing_of, below_each, note_of};

use actor_machine::{ActorName, Lost};
use script_seen::{
    Job, delay_of, loss_at, meant, push_actor, push_end, push_number, push_party, push_signal,
    push_timer, shown, stays_in,
};
use std::alloc::{AllocError, Global};
use turn_check::Verified;
use turn_code::{
    Address, Effect, End, InstanceNumber, Party, Place, ProcessNumber, Sending, SignalNumber,
    TimerNumber, Trigger, Value,
};

/// Appends an actor in quotation marks.
pub(crate) fn push_actor_quoted(
    alloc: Global,
    row: &mut Vec<u8>,
    set: &Verified,
    actor: ActorName,
) -> Result<(), AllocError>
    ensures { OnOk result (row.new.items ≡ row.old.items ++ actor_quoted set.now actor) }
{
    row.push(b'"')?;
    push_actor(alloc, row, set, actor)?;
    Ok(row.push(b'"')?)
}

/// Appends ENV or an actor in quotation marks.
fn push_party_quoted(
    alloc: Global,
    row: &mut Vec<u8>,
    set: &Verified,
    party: Party,
    instance: Option<InstanceNumber>,
) -> Result<(), AllocError>
    ensures { OnOk result (row.new.items ≡ row.old.items ++ party_quoted set.now party instance) }
{
    row.push(b'"')?;
    push_party(alloc, row, set, party, instance)?;
    Ok(row.push(b'"')?)
}

/// Appends a label and the end of its row.
fn push_label(row: &mut Vec<u8>, text: &[u8]) -> Result<(), AllocError>
    ensures { OnOk result (row.new.items ≡ row.old.items ++ labelled text.now) }
{
    row.extend_from_slice(b" [label=\"")?;
    row.extend_from_slice(text)?;
    Ok(row.extend_from_slice(b"\"];\n")?)
}

/// Appends values, with a comma before each.
fn push_more(alloc: Global, text: &mut Vec<u8>, values: &[Value]) -> Result<(), AllocError>
    ensures { OnOk result (text.new.items ≡ text.old.items ++ more_values values.now) }
{
    for value in values {
        text.extend_from_slice(b", ")?;
        let word = shown(alloc, Some(*value))?;
        text.extend_from_slice(&word)?;
    }
    Ok(())
}

/// Appends values, with commas between them.
fn push_commaed(alloc: Global, text: &mut Vec<u8>, values: &[Value]) -> Result<(), AllocError>
    ensures { OnOk result (text.new.items ≡ text.old.items ++ commaed values.now) }
{
    let [first, more @ ..] = values else {
        return Ok(());
    };
    let word = shown(alloc, Some(*first))?;
    text.extend_from_slice(&word)?;
    push_more(alloc, text, more)
}

/// A signal with its values in parentheses; without parentheses if it has no values.
fn called(
    alloc: Global,
    set: &Verified,
    signal: SignalNumber,
    values: &[Value],
) -> Result<Vec<u8>, AllocError>
    ensures { IfOk result (λ v. v.items ≡ called_text set.now signal.0 values.now) }
{
    let mut text = Vec::new(alloc);
    push_signal(&mut text, set, signal)?;
    if values.is_empty() {
        return Ok(text);
    }
    text.push(b'(')?;
    push_commaed(alloc, &mut text, values)?;
    text.push(b')')?;
    Ok(text)
}

/// Appends the row of a time.
fn push_clock(alloc: Global, rows: &mut Vec<u8>, clock: u64) -> Result<(), AllocError>
    ensures { OnOk result (rows.new.items ≡ rows.old.items ++ clock_text clock) }
{
    let mut text = Vec::new(alloc);
    push_number(alloc, &mut text, clock)?;
    text.extend_from_slice(b" ms")?;
    rows.extend_from_slice(b"  ---")?;
    push_label(rows, &text)
}

/// Appends the row of the time, if it differs from that of the last row.
pub(crate) fn push_time(
    alloc: Global,
    rows: &mut Vec<u8>,
    last: Option<u64>,
    clock: u64,
) -> Result<(), AllocError>
    ensures { OnOk result (rows.new.items ≡ rows.old.items ++ time_text last clock) }
{
    match last {
        Some(time) if time == clock => Ok(()),
        _ => push_clock(alloc, rows, clock),
    }
}

/// Appends a note or a box of an actor as a row.
fn push_beside(
    alloc: Global,
    rows: &mut Vec<u8>,
    set: &Verified,
    me: ActorName,
    kind: &str,
    text: &[u8],
) -> Result<(), AllocError>
    ensures { OnOk result (rows.new.items ≡ rows.old.items ++ beside set.now me kind.now text.now) }
{
    rows.extend_from_slice(b"  ")?;
    push_actor_quoted(alloc, rows, set, me)?;
    rows.extend_from_slice(kind.as_bytes())?;
    push_actor_quoted(alloc, rows, set, me)?;
    push_label(rows, text)
}

/// Appends the arc of a signal that an actor consumes, from its sender.
fn push_taken(
    alloc: Global,
    rows: &mut Vec<u8>,
    set: &Verified,
    me: ActorName,
    signal: SignalNumber,
    job: &Job,
) -> Result<(), AllocError>
    ensures { OnOk result (rows.new.items ≡ rows.old.items ++ taken_text set.now me signal.0 job.now.input.parameters.items job.now.input.sender) }
{
    let Some(Address { party, instance }) = job.input().sender else {
        return Ok(());
    };
    let text = called(alloc, set, signal, &job.input().parameters)?;
    rows.extend_from_slice(b"  ")?;
    push_party_quoted(alloc, rows, set, party, instance)?;
    rows.extend_from_slice(b" => ")?;
    push_actor_quoted(alloc, rows, set, me)?;
    push_label(rows, &text)
}

/// Appends the note of a timer signal that an actor consumes.
fn push_run_out(
    alloc: Global,
    rows: &mut Vec<u8>,
    set: &Verified,
    me: ActorName,
    timer: TimerNumber,
) -> Result<(), AllocError>
    ensures { OnOk result (rows.new.items ≡ rows.old.items ++ run_out_text set.now me timer.0) }
{
    let mut text = Vec::new(alloc);
    push_timer(&mut text, set, me.process, timer)?;
    text.extend_from_slice(b" runs out")?;
    push_beside(alloc, rows, set, me, " note ", &text)
}

/// Appends the row of a turn's stimulus: an arc for a signal, a note for a timer, nothing for START.
pub(crate) fn push_came(
    alloc: Global,
    rows: &mut Vec<u8>,
    set: &Verified,
    me: ActorName,
    job: &Job,
) -> Result<(), AllocError>
    ensures { OnOk result (rows.new.items ≡ rows.old.items ++ came_text set.now me job.now job.now.place) }
{
    match job.place() {
        Place::Start => Ok(()),
        Place::State(state) => match set.trigger(me.process, state, job.input_number()) {
            Some(Trigger::Signal(signal)) => push_taken(alloc, rows, set, me, signal, job),
            Some(Trigger::Timer(timer)) => push_run_out(alloc, rows, set, me, timer),
            None => Ok(()),
        },
    }
}

/// Appends the box of the state in which a turn ends, if it is a new one, or of STOP.
pub(crate) fn push_box(
    alloc: Global,
    rows: &mut Vec<u8>,
    set: &Verified,
    me: ActorName,
    place: Place,
    end: End,
) -> Result<(), AllocError>
    ensures { OnOk result (rows.new.items ≡ rows.old.items ++ box_text set.now me place end) }
{
    if stays_in(place, end) {
        return Ok(());
    }
    let mut text = Vec::new(alloc);
    push_end(&mut text, set, me.process, end)?;
    push_beside(alloc, rows, set, me, " abox ", &text)
}

/// The receiver of an actor's signal, with the instance that is meant.
pub(crate) fn receiver_of(set: &Verified, me: ActorName, receiver: Address) -> Address
    ensures { result ≡ receiver_of set.now me receiver.party receiver.instance }
{
    match receiver.party {
        Party::Environment => receiver,
        Party::Process(process) => match receiver.instance {
            Some(_) => receiver,
            None => meant(set, me, process).address(),
        },
    }
}

/// Whether an output has an arc at its sender, not at its receiver: it is lost, or goes to the environment.
pub(crate) fn is_arc(party: Party, is_lost: bool) -> bool
    ensures { result ≡ is_arc party is_lost }
{
    match party {
        Party::Environment => true,
        Party::Process(_) => is_lost,
    }
}

/// The sign of an arc, or of a lost one.
fn arrow_of<'a>(is_lost: bool) -> &'a str
    ensures { result.now ≡ arrow_of is_lost }
{
    if is_lost { " -x " } else { " => " }
}

/// Appends the arc of a signal that is sent.
fn push_sent(
    alloc: Global,
    rows: &mut Vec<u8>,
    set: &Verified,
    me: ActorName,
    sending: &Sending,
    is_lost: bool,
) -> Result<(), AllocError>
    ensures { OnOk result (rows.new.items ≡ rows.old.items ++ sent_text set.now me sending.now
        (receiver_of set.now me sending.now.receiver.party sending.now.receiver.instance) (arrow_of is_lost)) }
{
    let to = receiver_of(set, me, sending.receiver);
    let text = called(alloc, set, sending.signal, &sending.parameters)?;
    rows.extend_from_slice(b"  ")?;
    push_actor_quoted(alloc, rows, set, me)?;
    rows.extend_from_slice(arrow_of(is_lost).as_bytes())?;
    push_party_quoted(alloc, rows, set, to.party, to.instance)?;
    push_label(rows, &text)
}

/// Appends the row of an effect at its sender, if it has one.
fn push_output(
    alloc: Global,
    rows: &mut Vec<u8>,
    set: &Verified,
    me: ActorName,
    is_lost: bool,
    effect: &Effect,
) -> Result<(), AllocError>
    ensures { OnOk result (rows.new.items ≡ rows.old.items ++ out_text set.now me is_lost effect.now) }
{
    match effect {
        Effect::Output(sending) => {
            if is_arc(sending.receiver.party, is_lost) {
                return push_sent(alloc, rows, set, me, sending, is_lost);
            }
            Ok(())
        }
        Effect::Set(_, _) | Effect::Reset(_) => Ok(()),
    }
}

/// Appends the arcs of a turn's outputs.
pub(crate) fn push_outputs(
    alloc: Global,
    rows: &mut Vec<u8>,
    set: &Verified,
    me: ActorName,
    effects: &[Effect],
    lost: &[Lost],
) -> Result<(), AllocError>
    ensures { OnOk result (rows.new.items ≡ rows.old.items ++ outs_text set.now me lost.now 0 effects.now) }
{
    for (place, effect) in effects.iter().enumerate() {
        let is_lost = loss_at(lost, place).is_some();
        push_output(alloc, rows, set, me, is_lost, effect)?;
    }
    Ok(())
}

/// Appends mscgen's line break, and `set` or `reset` with the timer of an effect, if it is one. A time past 2^64 would
/// be an error, but the clock ends before.
fn push_timing(
    alloc: Global,
    text: &mut Vec<u8>,
    set: &Verified,
    process: ProcessNumber,
    clock: u64,
    effect: &Effect,
) -> Result<(), AllocError>
    ensures { OnOk result (text.new.items ≡ text.old.items ++ below_each (timing_of set.now process.0 clock effect.now)) }
{
    match effect {
        Effect::Output(_) => Ok(()),
        Effect::Set(timer, ticks) => {
            text.extend_from_slice(b"\\nset ")?;
            push_timer(text, set, process, *timer)?;
            text.extend_from_slice(b" at ")?;
            match clock.checked_add(delay_of(*ticks)) {
                Some(at) => push_number(alloc, text, at),
                None => Err(AllocError),
            }
        }
        Effect::Reset(timer) => {
            text.extend_from_slice(b"\\nreset ")?;
            push_timer(text, set, process, *timer)
        }
    }
}

/// The timers that a turn sets or resets, with mscgen's line break before each.
fn timings(
    alloc: Global,
    set: &Verified,
    process: ProcessNumber,
    clock: u64,
    effects: &[Effect],
) -> Result<Vec<u8>, AllocError>
    ensures { IfOk result (λ v. v.items ≡ below_each (flat_map (timing_of set.now process.0 clock) effects.now)) }
{
    let mut text = Vec::new(alloc);
    for effect in effects {
        push_timing(alloc, &mut text, set, process, clock, effect)?;
    }
    Ok(text)
}

/// Appends the note of lines about timers, each of which follows a line break; nothing if there are no lines.
fn push_note(
    alloc: Global,
    rows: &mut Vec<u8>,
    set: &Verified,
    me: ActorName,
    text: &[u8],
) -> Result<(), AllocError>
    ensures { OnOk result ((lines : List (List ℕ)) → text.now ≡ below_each lines → rows.new.items ≡ rows.old.items ++ note_of set.now me lines) }
{
    if text.is_empty() {
        return Ok(());
    }
    push_beside(alloc, rows, set, me, " note ", behind_two(text))
}

/// Appends the note about the timers that a turn sets or resets, if there are any.
pub(crate) fn push_timers(
    alloc: Global,
    rows: &mut Vec<u8>,
    set: &Verified,
    clock: u64,
    me: ActorName,
    effects: &[Effect],
) -> Result<(), AllocError>
    ensures { OnOk result (rows.new.items ≡ rows.old.items ++ note_of set.now me (flat_map (timing_of set.now me.process.0 clock) effects.now)) }
{
    let text = timings(alloc, set, me.process, clock, effects)?;
    push_note(alloc, rows, set, me, &text)
}

/// The text after the first two octets.
pub(crate) fn behind_two(text: &[u8]) -> &[u8]
    ensures { result.now ≡ drop 2 text.now }
{
    match text {
        [_, _, more @ ..] => more,
        _ => &[],
    }
}
