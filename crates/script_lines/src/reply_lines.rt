//! Printed lines that contain names.
ghost use Rattle.std.specs.Prelude.{◌≡◌, ◌++◌, ◌∷◌, OnOk, IfOk};
ghost use Rattle.std.specs.List.{flat_map};
ghost use Rattle.script_lines.specs.Replies.{place_text, begun_text, end_text, finished_text, skipped_text, sender_text, taken_text, standing_text, value_text};

use crate::names::{input_text, process_text, signal_text, state_text, trigger_text};
use crate::shown::{Counts, Shown};
use actor_machine::{ActorName, Emitted, Report, Standing};
use std::alloc::{AllocError, Global};
use turn_check::Verified;
use turn_code::{End, Place, ProcessNumber, StateNumber, Trigger, Value};

/// `ok START` or `ok STATE/INPUT`: the line for a turn that began.
pub fn begun_line(
    alloc: Global,
    set: &Verified,
    process: ProcessNumber,
    place: Place,
    number: usize,
) -> Result<Vec<u8>, AllocError>
    ensures { IfOk result (λ v. v.items ≡ begun_text set.now process.0 place number) }
{
    match place {
        Place::Start => Vec::from_slice(alloc, b"ok START"),
        Place::State(state) => input_line(alloc, set, process, state, number),
    }
}

/// `ok STATE/INPUT`: the line for a turn that an input began.
fn input_line(
    alloc: Global,
    set: &Verified,
    process: ProcessNumber,
    state: StateNumber,
    number: usize,
) -> Result<Vec<u8>, AllocError>
    ensures { IfOk result (λ v. v.items ≡ begun_text set.now process.0 (Place.State state) number) }
{
    let mut line = Vec::from_slice(alloc, b"ok ")?;
    line.extend_from_slice(state_text(set, process, state))?;
    line.push(b'/')?;
    line.extend_from_slice(input_text(set, process, state, number))?;
    Ok(line)
}

/// The state in which a turn ended, or `STOP`.
fn end_text<'a>(set: &'a Verified, process: ProcessNumber, end: End) -> &'a [u8]
    ensures { result.now ≡ end_text set.now process.0 end }
{
    match end {
        End::State(state) => state_text(set, process, state),
        End::Stop => b"STOP",
    }
}

/// `ok NEXT count N`: the line for a turn that ended, with ` lost K` if K outputs reached nobody.
pub fn finished_line(
    alloc: Global,
    set: &Verified,
    process: ProcessNumber,
    report: &Report,
) -> Result<Vec<u8>, AllocError>
    ensures { IfOk result (λ v. v.items ≡ finished_text set.now process.0 report.now) }
{
    let counts = Counts {
        count: report.count,
        lost: report.lost.len(),
    };
    let rest = format!(in alloc; "{counts}")?;
    let mut line = Vec::from_slice(alloc, b"ok ")?;
    line.extend_from_slice(end_text(set, process, report.end))?;
    line.extend_from_slice(rest.as_bytes())?;
    Ok(line)
}

/// `ok SIG`: the line for a signal, or a timer's signal, that was discarded.
pub fn skipped_line(
    alloc: Global,
    set: &Verified,
    process: ProcessNumber,
    trigger: Trigger,
) -> Result<Vec<u8>, AllocError>
    ensures { IfOk result (λ v. v.items ≡ skipped_text set.now process.0 trigger) }
{
    let mut line = Vec::from_slice(alloc, b"ok ")?;
    line.extend_from_slice(trigger_text(set, process, trigger))?;
    Ok(line)
}

/// Appends a space and a value to a line.
fn push_value(alloc: Global, line: &mut Vec<u8>, value: Value) -> Result<(), AllocError>
    ensures { OnOk result (line.new.items ≡ line.old.items ++ 32 ∷ value_text value) }
{
    let shown = Shown(value);
    let text = format!(in alloc; " {shown}")?;
    Ok(line.extend_from_slice(text.as_bytes())?)
}

/// Appends the values to a line, with a space before each.
fn push_values(alloc: Global, line: &mut Vec<u8>, values: &[Value]) -> Result<(), AllocError>
    ensures { OnOk result (line.new.items ≡ line.old.items ++ flat_map (λ v. 32 ∷ value_text v) values.now) }
{
    for value in values {
        push_value(alloc, line, *value)?;
    }
    Ok(())
}

/// Appends the sender of a signal: the process, and its instance if the process has more than one.
fn push_sender(
    alloc: Global,
    line: &mut Vec<u8>,
    set: &Verified,
    sender: ActorName,
) -> Result<(), AllocError>
    ensures { OnOk result (line.new.items ≡ line.old.items ++ sender_text set.now sender) }
{
    line.extend_from_slice(process_text(set, sender.process))?;
    if 1 < set.instances(sender.process) {
        let number = sender.instance.0;
        let text = format!(in alloc; ".{number}")?;
        line.extend_from_slice(text.as_bytes())?;
    }
    Ok(())
}

/// `SENDER SIG v..`: the line for a signal taken from those for the environment.
pub fn taken_line(alloc: Global, set: &Verified, emitted: &Emitted) -> Result<Vec<u8>, AllocError>
    ensures { IfOk result (λ v. v.items ≡ taken_text set.now emitted.now) }
{
    let mut line = Vec::new(alloc);
    push_sender(alloc, &mut line, set, emitted.sender)?;
    line.push(b' ')?;
    line.extend_from_slice(signal_text(set, emitted.signal))?;
    push_values(alloc, &mut line, emitted.parameters.as_slice())?;
    Ok(line)
}

/// The state of a process, `START` or `STOPPED`.
pub fn standing_line(
    alloc: Global,
    set: &Verified,
    process: ProcessNumber,
    standing: Standing,
) -> Result<Vec<u8>, AllocError>
    ensures { IfOk result (λ v. v.items ≡ standing_text set.now process.0 standing) }
{
    match standing {
        Standing::At(Place::Start) => Vec::from_slice(alloc, b"START"),
        Standing::At(Place::State(state)) => {
            Vec::from_slice(alloc, state_text(set, process, state))
        }
        Standing::Stopped => Vec::from_slice(alloc, b"STOPPED"),
    }
}
