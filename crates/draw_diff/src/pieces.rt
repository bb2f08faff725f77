//! Functions that append the pieces of lines to a text.
ghost use Rattle.std.specs.Prelude.{◌≡◌, ◌++◌, OnOk, slice_get};
ghost use Rattle.std.specs.List.{flat_map};
ghost use Rattle.draw_diff.specs.Names.{own_name};
ghost use Rattle.draw_diff.specs.Items.{initial_text, instances_text, more_sorts, name_or_none, parameters_text, party_text, signal_text, sort_text, trigger_text, truth_text, value_text};

use std::alloc::{AllocError, Global};
use turn_code::{Draft, DraftProcess, Party, SignalNumber, Sort, TimerNumber, Trigger, Value};

/// Appends octets to `text`.
pub(crate) fn push_bytes(text: &mut Vec<u8>, bytes: &[u8]) -> Result<(), AllocError>
    ensures { OnOk result (text.new.items ≡ text.old.items ++ bytes.now) }
{
    text.extend_from_slice(bytes)
}

/// The name of a signal; empty if the number has none.
pub(crate) fn signal_word<'a>(draft: &'a Draft, number: SignalNumber) -> &'a [u8]
    ensures { result.now ≡ signal_text draft.now number }
{
    match draft.signals.as_slice().get(usize::from(number.0)) {
        Some(signal) => signal.name.as_bytes(),
        None => &[],
    }
}

/// The name of a timer; empty if the number has none.
fn timer_word(process: &DraftProcess, number: TimerNumber) -> &[u8]
    ensures { result.now ≡ name_or_none own_name (slice_get process.now.timers number.0) }
{
    match process.timers.as_slice().get(usize::from(number.0)) {
        Some(name) => name.as_bytes(),
        None => &[],
    }
}

/// Appends the name of a signal, or of a timer of the process, to `text`.
pub(crate) fn push_trigger(
    text: &mut Vec<u8>,
    draft: &Draft,
    process: &DraftProcess,
    trigger: Trigger,
) -> Result<(), AllocError>
    ensures { OnOk result (text.new.items ≡ text.old.items ++ trigger_text draft.now process.now trigger) }
{
    match trigger {
        Trigger::Signal(number) => push_bytes(text, signal_word(draft, number)),
        Trigger::Timer(number) => push_bytes(text, timer_word(process, number)),
    }
}

/// Appends ENV, or the name of a process, to `text`.
pub(crate) fn push_party(text: &mut Vec<u8>, draft: &Draft, party: Party) -> Result<(), AllocError>
    ensures { OnOk result (text.new.items ≡ text.old.items ++ party_text draft.now party) }
{
    match party {
        Party::Environment => push_bytes(text, b"ENV"),
        Party::Process(number) => match draft.processes.as_slice().get(usize::from(number.0)) {
            Some(process) => push_bytes(text, process.name.as_bytes()),
            None => push_bytes(text, b""),
        },
    }
}

/// `Integer` or `Boolean`.
pub(crate) fn sort_word(sort: Sort) -> &'static [u8]
    ensures { result.now ≡ sort_text sort }
{
    match sort {
        Sort::Integer => b"Integer",
        Sort::Boolean => b"Boolean",
    }
}

/// Appends sorts to `text`, a comma before each.
fn push_sorts(text: &mut Vec<u8>, sorts: &[Sort]) -> Result<(), AllocError>
    ensures { OnOk result (text.new.items ≡ text.old.items ++ flat_map more_sorts sorts.now) }
{
    for sort in sorts {
        push_bytes(text, b", ")?;
        push_bytes(text, sort_word(*sort))?;
    }
    Ok(())
}

/// Appends the sorts of parameters to `text`, in parentheses; nothing if there are none.
pub(crate) fn push_parameters(text: &mut Vec<u8>, sorts: &[Sort]) -> Result<(), AllocError>
    ensures { OnOk result (text.new.items ≡ text.old.items ++ parameters_text sorts.now) }
{
    match sorts {
        [] => Ok(()),
        [first, others @ ..] => {
            push_bytes(text, b"(")?;
            push_bytes(text, sort_word(*first))?;
            push_sorts(text, others)?;
            push_bytes(text, b")")
        }
    }
}

/// TRUE or FALSE.
fn truth_word(value: bool) -> &'static [u8]
    ensures { result.now ≡ truth_text value }
{
    if value { b"TRUE" } else { b"FALSE" }
}

/// Appends an Integer in decimal digits with its sign, TRUE or FALSE to `text`.
fn push_value(alloc: Global, text: &mut Vec<u8>, value: Value) -> Result<(), AllocError>
    ensures { OnOk result (text.new.items ≡ text.old.items ++ value_text value) }
{
    match value {
        Value::Int(number) => {
            let digits = format!(in alloc; "{number}")?;
            push_bytes(text, digits.as_bytes())
        }
        Value::Bool(value) => push_bytes(text, truth_word(value)),
    }
}

/// Appends an initial value to `text`, if there is one.
pub(crate) fn push_initial(
    alloc: Global,
    text: &mut Vec<u8>,
    initial: Option<Value>,
) -> Result<(), AllocError>
    ensures { OnOk result (text.new.items ≡ text.old.items ++ initial_text initial) }
{
    match initial {
        Some(value) => {
            push_bytes(text, b" := ")?;
            push_value(alloc, text, value)
        }
        None => Ok(()),
    }
}

/// Appends the number of instances of a process to `text`; nothing for one.
pub(crate) fn push_instances(
    alloc: Global,
    text: &mut Vec<u8>,
    instances: u32,
) -> Result<(), AllocError>
    ensures { OnOk result (text.new.items ≡ text.old.items ++ instances_text instances) }
{
    if instances == 1 {
        return Ok(());
    }
    let digits = format!(in alloc; "{instances}")?;
    push_bytes(text, b" (")?;
    push_bytes(text, digits.as_bytes())?;
    push_bytes(text, b", ")?;
    push_bytes(text, digits.as_bytes())?;
    push_bytes(text, b")")
}
