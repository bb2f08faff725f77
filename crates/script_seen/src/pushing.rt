//! Functions that append the pieces of trace lines.
ghost use Rattle.std.specs.Prelude.{◌≡◌, ◌++◌, ◌∷◌, [], IfOk, OnOk, unwrap_or, option_copied};
ghost use Rattle.std.specs.Fmt.{decimal};
ghost use Rattle.script_lines.specs.Replies.{sender_text, instance_text, process_text, signal_text, state_text, trigger_text, input_text, place_text, end_text, value_text};
ghost use Rattle.turn_check.specs.Named.{trigger_at};
ghost use Rattle.script_seen.specs.Told.{values_text, timer_text, variable_text, shown_text, party_text, from_text, receiver_text, meant, has_actor, instance_of};

use actor_machine::{ActorName, number_of};
use script_lines::shown_line;
use std::alloc::{AllocError, Global};
use turn_check::Verified;
use turn_code::{
    Address, End, InstanceNumber, Name, Party, Place, ProcessNumber, SignalNumber, StateNumber,
    TimerNumber, Trigger, Value, VariableNumber,
};

/// The bytes of a name; empty if there is no name.
fn bytes_of<'a>(name: Option<&'a Name>) -> &'a [u8]
    ensures { result.now ≡ unwrap_or (option_copied name.entry) [] }
{
    match name {
        Some(name) => name.as_bytes(),
        None => &[],
    }
}

/// Appends a number in decimal.
pub fn push_number(alloc: Global, line: &mut Vec<u8>, number: u64) -> Result<(), AllocError>
    ensures { OnOk result (line.new.items ≡ line.old.items ++ decimal number) }
{
    let text = format!(in alloc; "{number}")?;
    Ok(line.extend_from_slice(text.as_bytes())?)
}

/// Appends the name of a signal.
pub fn push_signal(
    line: &mut Vec<u8>,
    set: &Verified,
    signal: SignalNumber,
) -> Result<(), AllocError>
    ensures { OnOk result (line.new.items ≡ line.old.items ++ signal_text set.now signal.0) }
{
    Ok(line.extend_from_slice(bytes_of(set.signal_name(signal)))?)
}

/// Appends the name of a timer.
pub fn push_timer(
    line: &mut Vec<u8>,
    set: &Verified,
    process: ProcessNumber,
    timer: TimerNumber,
) -> Result<(), AllocError>
    ensures { OnOk result (line.new.items ≡ line.old.items ++ timer_text set.now process.0 timer.0) }
{
    Ok(line.extend_from_slice(bytes_of(set.timer_name(process, timer)))?)
}

/// Appends the name of a signal, or of a timer of a process.
pub fn push_trigger(
    line: &mut Vec<u8>,
    set: &Verified,
    process: ProcessNumber,
    trigger: Trigger,
) -> Result<(), AllocError>
    ensures { OnOk result (line.new.items ≡ line.old.items ++ trigger_text set.now process.0 trigger) }
{
    match trigger {
        Trigger::Signal(signal) => push_signal(line, set, signal),
        Trigger::Timer(timer) => push_timer(line, set, process, timer),
    }
}

/// Appends the name of a variable.
pub(crate) fn push_variable(
    line: &mut Vec<u8>,
    set: &Verified,
    process: ProcessNumber,
    variable: VariableNumber,
) -> Result<(), AllocError>
    ensures { OnOk result (line.new.items ≡ line.old.items ++ variable_text set.now process.0 variable.0) }
{
    Ok(line.extend_from_slice(bytes_of(set.variable_name(process, variable)))?)
}

/// Appends a value with a space before it.
fn push_value(alloc: Global, line: &mut Vec<u8>, value: Value) -> Result<(), AllocError>
    ensures { OnOk result (line.new.items ≡ line.old.items ++ 32 ∷ value_text value) }
{
    line.push(b' ')?;
    let text = shown_line(alloc, value)?;
    Ok(line.extend_from_slice(&text)?)
}

/// Appends values, with a space before each.
pub(crate) fn push_values(
    alloc: Global,
    line: &mut Vec<u8>,
    values: &[Value],
) -> Result<(), AllocError>
    ensures { OnOk result (line.new.items ≡ line.old.items ++ values_text values.now) }
{
    for value in values {
        push_value(alloc, line, *value)?;
    }
    Ok(())
}

/// Returns the value of a variable, or `unset`.
pub fn shown(alloc: Global, value: Option<Value>) -> Result<Vec<u8>, AllocError>
    ensures { IfOk result (λ v. v.items ≡ shown_text value) }
{
    match value {
        Some(value) => shown_line(alloc, value),
        None => Vec::from_slice(alloc, b"unset"),
    }
}

/// Appends the name of a process.
pub fn push_process(
    line: &mut Vec<u8>,
    set: &Verified,
    process: ProcessNumber,
) -> Result<(), AllocError>
    ensures { OnOk result (line.new.items ≡ line.old.items ++ process_text set.now process.0) }
{
    Ok(line.extend_from_slice(bytes_of(set.process_name(process)))?)
}

/// Appends the name of an actor: its process, and its number if there is more than one instance.
pub fn push_actor(
    alloc: Global,
    line: &mut Vec<u8>,
    set: &Verified,
    actor: ActorName,
) -> Result<(), AllocError>
    ensures { OnOk result (line.new.items ≡ line.old.items ++ sender_text set.now actor) }
{
    line.extend_from_slice(bytes_of(set.process_name(actor.process)))?;
    if 1 < set.instances(actor.process) {
        line.push(b'.')?;
        push_number(alloc, line, u64::from(actor.instance.0))?;
    }
    Ok(())
}

/// Appends the sender of a signal after ` from `; nothing if there is no sender.
pub(crate) fn push_from(
    alloc: Global,
    line: &mut Vec<u8>,
    set: &Verified,
    sender: Option<Address>,
) -> Result<(), AllocError>
    ensures { OnOk result (line.new.items ≡ line.old.items ++ from_text set.now sender) }
{
    let Some(Address { party, instance }) = sender else {
        return Ok(());
    };
    line.extend_from_slice(b" from ")?;
    push_party(alloc, line, set, party, instance)
}

/// Appends ENV, a process, or an instance of it.
pub fn push_party(
    alloc: Global,
    line: &mut Vec<u8>,
    set: &Verified,
    party: Party,
    instance: Option<InstanceNumber>,
) -> Result<(), AllocError>
    ensures { OnOk result (line.new.items ≡ line.old.items ++ party_text set.now party instance) }
{
    match party {
        Party::Environment => Ok(line.extend_from_slice(b"ENV")?),
        Party::Process(process) => match instance {
            Some(instance) => push_actor(alloc, line, set, ActorName { process, instance }),
            None => Ok(line.extend_from_slice(bytes_of(set.process_name(process)))?),
        },
    }
}

/// Returns the instance of a process that receives a signal of an actor that names no instance.
pub fn meant(set: &Verified, me: ActorName, process: ProcessNumber) -> ActorName
    ensures { result ≡ meant set.now me process }
{
    let same = ActorName {
        process,
        instance: me.instance,
    };
    match number_of(set, same) {
        Some(_) => same,
        None => ActorName {
            process,
            instance: InstanceNumber(1),
        },
    }
}

/// Appends the receiver of an actor's signal.
pub(crate) fn push_receiver(
    alloc: Global,
    line: &mut Vec<u8>,
    set: &Verified,
    me: ActorName,
    receiver: Address,
) -> Result<(), AllocError>
    ensures { OnOk result (line.new.items ≡ line.old.items ++ receiver_text set.now me receiver.party receiver.instance) }
{
    match receiver.party {
        Party::Environment => Ok(line.extend_from_slice(b"ENV")?),
        Party::Process(process) => match receiver.instance {
            Some(instance) => push_actor(alloc, line, set, ActorName { process, instance }),
            None => push_actor(alloc, line, set, meant(set, me, process)),
        },
    }
}

/// Appends `START`, or a state with the signal or timer consumed there.
pub(crate) fn push_place(
    line: &mut Vec<u8>,
    set: &Verified,
    process: ProcessNumber,
    place: Place,
    number: usize,
) -> Result<(), AllocError>
    ensures { OnOk result (line.new.items ≡ line.old.items ++ place_text set.now process.0 place number) }
{
    match place {
        Place::Start => Ok(line.extend_from_slice(b"START")?),
        Place::State(state) => {
            push_state(line, set, process, state)?;
            line.push(b'/')?;
            match set.trigger(process, state, number) {
                Some(trigger) => push_trigger(line, set, process, trigger),
                None => Ok(()),
            }
        }
    }
}

/// Appends the name of a state.
pub fn push_state(
    line: &mut Vec<u8>,
    set: &Verified,
    process: ProcessNumber,
    state: StateNumber,
) -> Result<(), AllocError>
    ensures { OnOk result (line.new.items ≡ line.old.items ++ state_text set.now process.0 state.0) }
{
    Ok(line.extend_from_slice(bytes_of(set.state_name(process, state)))?)
}

/// Appends the state in which a turn ended, or `STOP`.
pub fn push_end(
    line: &mut Vec<u8>,
    set: &Verified,
    process: ProcessNumber,
    end: End,
) -> Result<(), AllocError>
    ensures { OnOk result (line.new.items ≡ line.old.items ++ end_text set.now process.0 end) }
{
    match end {
        End::State(state) => push_state(line, set, process, state),
        End::Stop => Ok(line.extend_from_slice(b"STOP")?),
    }
}
