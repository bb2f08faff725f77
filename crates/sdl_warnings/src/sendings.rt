//! A2: inputs of signals that nobody sends there.
ghost use Rattle.std.specs.Prelude.{◌≡◌, ◌++◌, map, OnOk};
ghost use Rattle.std.specs.List.{list_any, flat_map};
ghost use Rattle.sdl_ast.specs.Views.{sending_of, action_of, stimulus_of, input_of, process_of, block_of};
ghost use Rattle.sdl_tables.specs.Names.{same_name, processes_of};
ghost use Rattle.sdl_warnings.specs.Standing.{part_of};
ghost use Rattle.sdl_warnings.specs.Warned.{addresses, sends, is_sender, is_sent, unsent_stimulus, unsent_inputs};
ghost use Rattle.sdl_ast.specs.Plain.{output};
ghost use Rattle.sdl_sound.specs.Receivers.{party_of};
ghost use Rattle.sdl_sound.specs.Statements.{acts};

use crate::parts::Part;
use crate::reads::same_name;
use crate::told::Told;
use crate::warning::{Kind, Warning, push_unless};
use sdl_ast::{Action, Destination, InputPart, Name, Output, Party, Sending, Stimulus};
use sdl_tables::{BlockTable, ProcessTable};
use std::alloc::AllocError;

/// Whether an OUTPUT with this destination may go to a process.
fn addresses(to: Name, destination: Option<Destination>) -> bool
    ensures { result ≡ addresses to destination }
{
    match destination {
        None => true,
        Some(Destination::Sender(_)) => true,
        Some(Destination::Process(id)) => same_name(to, id.name),
    }
}

/// Whether a signal is one of these.
fn has_signal(sendings: &[Sending], signal: Name) -> bool
    ensures { result ≡ list_any (λ x. same_name signal x.signal.name) (map sending_of sendings.now) }
{
    let mut any = false;
    for sending in sendings {
        any |= same_name(signal, sending.signal.name);
    }
    any
}

/// Whether an OUTPUT may send a signal to a process.
fn sends_in_output(sent: &Output, to: Name, signal: Name) -> bool
    ensures { result ≡ sends to signal (acts (output sent.now.at (map sending_of sent.now.sendings.items) sent.now.to)) }
{
    addresses(to, sent.to) && has_signal(&sent.sendings, signal)
}

/// Whether an action may send a signal to a process.
fn sends_in_action(action: &Action, to: Name, signal: Name) -> bool
    ensures { result ≡ sends to signal (acts (action_of action.now)) }
{
    match action {
        Action::Task(_) => false,
        Action::Output(output) => sends_in_output(output, to, signal),
        Action::Set(_) => false,
        Action::Reset(_) => false,
    }
}

/// Whether a statement may send a signal to a process.
fn sends_in_part(part: &Part<'_>, to: Name, signal: Name) -> bool
    ensures { result ≡ sends to signal (part_of part.now) }
{
    match part {
        Part::Act(action) => sends_in_action(action, to, signal),
        Part::Ask(_) => false,
        Part::Cover(_, _) => false,
        Part::Finish(_) => false,
    }
}

/// Whether one of these statements may send a signal to a process.
fn sends_in_parts(parts: &[Part<'_>], to: Name, signal: Name) -> bool
    ensures { result ≡ list_any (sends to signal) (map part_of parts.now) }
{
    let mut any = false;
    for part in parts {
        any |= sends_in_part(part, to, signal);
    }
    any
}

/// A process as a party.
fn party_of(process: &ProcessTable) -> Party
    ensures { result ≡ party_of (process_of process.now) }
{
    Party::Process(process.process().name)
}

/// Whether a process sends a signal to another one.
fn is_sender(
    block: &BlockTable,
    receiver: &ProcessTable,
    signal: Name,
    sender: &Told<'_, '_>,
) -> bool
    ensures { result ≡ is_sender (block_of block.now) (process_of receiver.now) signal (process_of sender.now) }
{
    let from = party_of(sender.table());
    if !block.carries(&from, &party_of(receiver), signal) {
        return false;
    }
    sends_in_parts(sender.parts(), receiver.process().name.name, signal)
}

/// Whether one of these processes sends a signal to another one.
fn has_sender(
    block: &BlockTable,
    receiver: &ProcessTable,
    signal: Name,
    senders: &[Told<'_, '_>],
) -> bool
    ensures { result ≡ list_any (is_sender (block_of block.now) (process_of receiver.now) signal) (map process_of senders.now) }
{
    let mut any = false;
    for sender in senders {
        any |= is_sender(block, receiver, signal, sender);
    }
    any
}

/// Whether anybody sends a signal to a process.
fn is_sent(block: &BlockTable, all: &[Told<'_, '_>], receiver: &ProcessTable, signal: Name) -> bool
    requires { map process_of all.now ≡ processes_of (block_of block.now) }
    ensures { result ≡ is_sent (block_of block.now) (process_of receiver.now) signal }
{
    let to = party_of(receiver);
    block.carries(&Party::Environment, &to, signal) || has_sender(block, receiver, signal, all)
}

/// Appends the warning of an input if nobody sends it.
fn push_stimulus(
    found: &mut Vec<Warning>,
    block: &BlockTable,
    all: &[Told<'_, '_>],
    process: &ProcessTable,
    stimulus: &Stimulus,
) -> Result<(), AllocError>
    requires { map process_of all.now ≡ processes_of (block_of block.now) }
    ensures { OnOk result (found.new.items ≡ found.old.items ++ unsent_stimulus (block_of block.now) (process_of process.now) (stimulus_of stimulus.now)) }
{
    let signal = stimulus.name;
    let comes = process.timers().contains(signal.name) || is_sent(block, all, process, signal.name);
    let kind = Kind::UnsentInput(signal.name, process.process().name.name);
    push_unless(found, comes, signal.at, kind)
}

/// Appends the warnings of the signals of an INPUT.
fn push_stimuli(
    found: &mut Vec<Warning>,
    block: &BlockTable,
    all: &[Told<'_, '_>],
    process: &ProcessTable,
    stimuli: &[Stimulus],
) -> Result<(), AllocError>
    requires { map process_of all.now ≡ processes_of (block_of block.now) }
    ensures { OnOk result (found.new.items ≡ found.old.items ++ flat_map (unsent_stimulus (block_of block.now) (process_of process.now)) (map stimulus_of stimuli.now)) }
{
    for stimulus in stimuli {
        push_stimulus(found, block, all, process, stimulus)?;
    }
    Ok(())
}

/// Appends the warnings of these INPUTs of a process.
pub(crate) fn push_inputs(
    found: &mut Vec<Warning>,
    block: &BlockTable,
    all: &[Told<'_, '_>],
    process: &ProcessTable,
    inputs: &[&InputPart],
) -> Result<(), AllocError>
    requires { map process_of all.now ≡ processes_of (block_of block.now) }
    ensures { OnOk result (found.new.items ≡ found.old.items
        ++ flat_map (λ i. flat_map (unsent_stimulus (block_of block.now) (process_of process.now)) i.stimuli) (map (λ i. input_of i.now) inputs.now)) }
{
    for input in inputs {
        push_stimuli(found, block, all, process, &input.stimuli)?;
    }
    Ok(())
}
