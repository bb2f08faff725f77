//! The answers to events, one a line, and the rebases; equal lines in a row are counted.

use actor_book::{Begun, Cause, Emitted, Lost, Report};
use link_whole::{Reply, Scheduled};
use std::alloc::{AllocError, Global};
use turn_code::{End, Place, Trigger, Value};

/// Writes a turn that began.
fn write_begun(line: &mut String, begun: Begun) -> Result<(), AllocError> {
    let (turn, input) = (begun.turn, begun.number);
    match begun.place {
        Place::Start => write!(line, "turn {turn} at START"),
        Place::State(state) => {
            let state = state.0;
            write!(line, "turn {turn} at state {state} input {input}")
        }
    }
}

/// Writes the item that was discarded.
fn write_skipped(line: &mut String, trigger: Trigger) -> Result<(), AllocError> {
    match trigger {
        Trigger::Signal(number) => {
            let number = number.0;
            write!(line, "skipped signal {number}")
        }
        Trigger::Timer(number) => {
            let number = number.0;
            write!(line, "skipped timer {number}")
        }
    }
}

/// The word of a cause.
fn word_of(cause: Cause) -> &'static str {
    match cause {
        Cause::Full => "full",
        Cause::EnvFull => "environment full",
        Cause::Stopped => "stopped",
    }
}

/// Writes the outputs that were lost, with their places among the effects.
fn write_lost(line: &mut String, lost: &[Lost]) -> Result<(), AllocError> {
    for one in lost {
        let (place, cause) = (one.place, word_of(one.cause));
        write!(line, ", {place} {cause}")?;
    }
    Ok(())
}

/// Writes the end of a turn.
fn write_report(line: &mut String, report: &Report) -> Result<(), AllocError> {
    let count = report.count;
    match report.end {
        End::State(state) => {
            let state = state.0;
            write!(line, "end state {state} count {count}")?;
        }
        End::Stop => write!(line, "end STOP count {count}")?,
    }
    write_lost(line, report.lost.as_slice())
}

/// Writes a value.
fn write_value(line: &mut String, value: Value) -> Result<(), AllocError> {
    match value {
        Value::Int(number) => write!(line, " {number}"),
        Value::Bool(truth) => write!(line, " {truth}"),
    }
}

/// Writes the signal to the environment that was taken.
fn write_taken(line: &mut String, taken: &Emitted) -> Result<(), AllocError> {
    let (process, instance) = (taken.sender.process.0, taken.sender.instance.0);
    let signal = taken.signal.0;
    write!(line, "from {process}.{instance} signal {signal}")?;
    for value in taken.parameters.as_slice() {
        write_value(line, *value)?;
    }
    Ok(())
}

/// Writes an answer.
fn write_reply(line: &mut String, reply: &Reply) -> Result<(), AllocError> {
    match reply {
        Reply::Offered => line.push_str("ok"),
        Reply::Begun(begun) => write_begun(line, *begun),
        Reply::Skipped(trigger) => write_skipped(line, *trigger),
        Reply::Finished(report) => write_report(line, report),
        Reply::Passed(due) => write!(line, "due {due}"),
        Reply::Taken(taken) => write_taken(line, taken),
        Reply::Refused(refusal) => write!(line, "refused {refusal}"),
    }
}

/// Writes a line with the number of times that it occurs.
fn write_times(text: &mut String, line: &str, times: u32) -> Result<(), AllocError> {
    match times {
        0 => Ok(()),
        1 => writeln!(text, "{line}"),
        _ => writeln!(text, "{line}, {times} times"),
    }
}

/// Writes the line of a step: `rebased`, or the answer to its event. So many answers were told before. Returns how many
/// are told then.
fn write_step(
    line: &mut String,
    step: &Scheduled,
    replies: &[Reply],
    told: usize,
) -> Result<usize, AllocError> {
    match step {
        Scheduled::Rebase => {
            line.push_str("rebased")?;
            Ok(told)
        }
        Scheduled::Event(_) => {
            if let Some(reply) = replies.get(told) {
                write_reply(line, reply)?;
            }
            Ok(told.saturating_add(1))
        }
    }
}

/// Writes a line for each step of a schedule: the answers to its events, and its rebases.
pub fn write_answers(
    alloc: Global,
    text: &mut String,
    steps: &[Scheduled],
    replies: &[Reply],
) -> Result<(), AllocError> {
    let mut told = 0usize;
    let mut last = String::new(alloc);
    let mut times = 0u32;
    for step in steps {
        let mut line = String::new(alloc);
        told = write_step(&mut line, step, replies, told)?;
        if times > 0 && line.as_str() == last.as_str() {
            times = times.saturating_add(1);
        } else {
            write_times(text, last.as_str(), times)?;
            last = line;
            times = 1;
        }
    }
    write_times(text, last.as_str(), times)
}
