//! Parts of statements, and the stimuli of an INPUT.
ghost use Rattle.std.specs.Prelude.{◌≡◌, ◌++◌, OnOk, map, codes};
ghost use Rattle.std.specs.List.{flat_map};
ghost use Rattle.sdl_tables.specs.Names.{variable_names};
ghost use Rattle.sdl_ast.specs.Views.{tree_of, assignment_of, sending_of, stimulus_of, block_of, process_of};
ghost use Rattle.draw_text.specs.Written.{spelled, row_text};
ghost use Rattle.draw_text.specs.Statements.{assignment_text, delay_text, timer_text, value_text, arguments_text, sending_text, party_text, first_party_text, receiver_text, place_text, trigger_text, stimulus_text, stimuli_text, triggers_text};

use crate::bytes::push_bytes;
use crate::expressions::push_expression;
use crate::names::{Names, push_name, spelled};
use sdl_ast::{Assignment, Destination, Expression, Identifier, Name, Party, Sending, Stimulus};
use sdl_tables::ProcessTable;
use std::alloc::{AllocError, Global};

/// Appends an expression of a process to `text`.
fn push_value(
    alloc: Global,
    text: &mut Vec<u8>,
    process: &ProcessTable,
    tree: &Expression,
) -> Result<(), AllocError>
    ensures { OnOk result (text.new.items ≡ text.old.items ++ value_text (process_of process.now) (tree_of tree.now)) }
{
    push_expression(alloc, text, process.variables(), tree, 0)
}

/// Appends `VARIABLE := VALUE` to `text`.
pub fn push_assignment(
    alloc: Global,
    text: &mut Vec<u8>,
    process: &ProcessTable,
    assignment: &Assignment,
) -> Result<(), AllocError>
    ensures { OnOk result (text.new.items ≡ text.old.items ++ assignment_text (process_of process.now) (assignment_of assignment.now)) }
{
    push_name(text, process.variables(), assignment.variable.name)?;
    push_bytes(text, b" := ")?;
    push_value(alloc, text, process, &assignment.value)
}

/// Appends a delay or the expression of a question to `text`. A delay counts from now.
pub fn push_delay(
    alloc: Global,
    text: &mut Vec<u8>,
    process: &ProcessTable,
    delay: &Expression,
) -> Result<(), AllocError>
    ensures { OnOk result (text.new.items ≡ text.old.items ++ delay_text (process_of process.now) (tree_of delay.now)) }
{
    push_value(alloc, text, process, delay)
}

/// Appends the name of a timer to `text`.
pub fn push_timer(
    text: &mut Vec<u8>,
    process: &ProcessTable,
    timer: Identifier,
) -> Result<(), AllocError>
    ensures { OnOk result (text.new.items ≡ text.old.items ++ timer_text (process_of process.now) timer) }
{
    push_name(text, process.timers(), timer.name)
}

/// Appends further parameters to `text`, a comma before each.
fn push_more_values(
    alloc: Global,
    text: &mut Vec<u8>,
    process: &ProcessTable,
    trees: &[Expression],
) -> Result<(), AllocError>
    ensures { OnOk result (text.new.items ≡ text.old.items ++ flat_map (λ t. codes ", " ++ value_text (process_of process.now) t) (map tree_of trees.now)) }
{
    for tree in trees {
        push_bytes(text, b", ")?;
        push_value(alloc, text, process, tree)?;
    }
    Ok(())
}

/// Appends parameters in parentheses to `text`; nothing if there are none.
fn push_values(
    alloc: Global,
    text: &mut Vec<u8>,
    process: &ProcessTable,
    trees: &[Expression],
) -> Result<(), AllocError>
    ensures { OnOk result (text.new.items ≡ text.old.items ++ arguments_text (value_text (process_of process.now)) (map tree_of trees.now)) }
{
    match trees.split_first() {
        Some((first, others)) => {
            push_bytes(text, b"(")?;
            push_value(alloc, text, process, first)?;
            push_more_values(alloc, text, process, others)?;
            push_bytes(text, b")")
        }
        None => Ok(()),
    }
}

/// Appends a signal that is sent to `text`, with its parameters.
pub fn push_sending(
    alloc: Global,
    text: &mut Vec<u8>,
    names: &Names<'_, '_>,
    sending: &Sending,
) -> Result<(), AllocError>
    ensures { OnOk result (text.new.items ≡ text.old.items ++ sending_text (block_of names.now.block.now) (process_of names.now.process.now) (sending_of sending.now)) }
{
    push_name(text, names.block.signals(), sending.signal.name)?;
    push_values(alloc, text, names.process, &sending.parameters)
}

/// Appends the name of a party to `text`.
fn push_party(text: &mut Vec<u8>, names: &Names<'_, '_>, party: &Party) -> Result<(), AllocError>
    ensures { OnOk result (text.new.items ≡ text.old.items ++ party_text (block_of names.now.block.now) party.now) }
{
    match party {
        Party::Environment => push_bytes(text, b"ENV"),
        Party::Process(id) => push_name(text, names.block.processes(), id.name),
    }
}

/// Appends the first of these parties to `text`.
fn push_first_party(
    text: &mut Vec<u8>,
    names: &Names<'_, '_>,
    parties: &[Party],
) -> Result<(), AllocError>
    ensures { OnOk result (text.new.items ≡ text.old.items ++ first_party_text (block_of names.now.block.now) parties.now) }
{
    match parties {
        [first, ..] => push_party(text, names, first),
        [] => Ok(()),
    }
}

/// Appends the receiver of a signal to `text`: the process that the OUTPUT names, else the one to which a route leads.
pub fn push_receiver(
    text: &mut Vec<u8>,
    names: &Names<'_, '_>,
    to: &Option<Destination>,
    signal: Identifier,
) -> Result<(), AllocError>
    ensures { OnOk result (text.new.items ≡ text.old.items ++ receiver_text (block_of names.now.block.now) (process_of names.now.process.now) to.now signal) }
{
    match to {
        Some(Destination::Sender(_)) => push_bytes(text, b"SENDER"),
        Some(Destination::Process(id)) => push_name(text, names.block.processes(), id.name),
        None => {
            let from = Party::Process(names.process.process().name);
            let parties = names.block.receivers(&from, signal.name);
            push_first_party(text, names, parties)
        }
    }
}

/// Appends the variable that takes a parameter to `text`; nothing if the parameter is discarded.
fn push_place(
    text: &mut Vec<u8>,
    process: &ProcessTable,
    place: &Option<Identifier>,
) -> Result<(), AllocError>
    ensures { OnOk result (text.new.items ≡ text.old.items ++ place_text (process_of process.now) place.now) }
{
    match place {
        Some(id) => push_name(text, process.variables(), id.name),
        None => Ok(()),
    }
}

/// Appends variables for further parameters to `text`, a comma before each.
fn push_more_places(
    text: &mut Vec<u8>,
    process: &ProcessTable,
    places: &[Option<Identifier>],
) -> Result<(), AllocError>
    ensures { OnOk result (text.new.items ≡ text.old.items ++ flat_map (λ q. codes ", " ++ place_text (process_of process.now) q) places.now) }
{
    for place in places {
        push_bytes(text, b", ")?;
        push_place(text, process, place)?;
    }
    Ok(())
}

/// Appends the variables that take parameters to `text`, in parentheses; nothing if there are no parameters.
fn push_places(
    text: &mut Vec<u8>,
    process: &ProcessTable,
    places: &[Option<Identifier>],
) -> Result<(), AllocError>
    ensures { OnOk result (text.new.items ≡ text.old.items ++ arguments_text (place_text (process_of process.now)) places.now) }
{
    match places.split_first() {
        Some((first, others)) => {
            push_bytes(text, b"(")?;
            push_place(text, process, first)?;
            push_more_places(text, process, others)?;
            push_bytes(text, b")")
        }
        None => Ok(()),
    }
}

/// Appends the name of a signal, or of a timer of the process, to `text`.
fn push_trigger(text: &mut Vec<u8>, names: &Names<'_, '_>, name: Name) -> Result<(), AllocError>
    ensures { OnOk result (text.new.items ≡ text.old.items ++ trigger_text (block_of names.now.block.now) (process_of names.now.process.now) name) }
{
    let name = spelled(names.block.signals(), name);
    push_name(text, names.process.timers(), name)
}

/// Appends a signal or a timer that an INPUT consumes to `text`.
fn push_stimulus(
    text: &mut Vec<u8>,
    names: &Names<'_, '_>,
    stimulus: &Stimulus,
) -> Result<(), AllocError>
    ensures { OnOk result (text.new.items ≡ text.old.items ++ stimulus_text (block_of names.now.block.now) (process_of names.now.process.now) (stimulus_of stimulus.now)) }
{
    push_trigger(text, names, stimulus.name.name)?;
    push_places(text, names.process, &stimulus.places)
}

/// Appends the further stimuli of an INPUT to `text`, each on its own line.
fn push_more_stimuli(
    text: &mut Vec<u8>,
    names: &Names<'_, '_>,
    stimuli: &[Stimulus],
) -> Result<(), AllocError>
    ensures { OnOk result (text.new.items ≡ text.old.items ++ flat_map (λ s. codes ",\n" ++ stimulus_text (block_of names.now.block.now) (process_of names.now.process.now) s) (map stimulus_of stimuli.now)) }
{
    for stimulus in stimuli {
        push_bytes(text, b",\n")?;
        push_stimulus(text, names, stimulus)?;
    }
    Ok(())
}

/// Appends the stimuli of an INPUT to `text`, each on its own line.
pub fn push_stimuli(
    text: &mut Vec<u8>,
    names: &Names<'_, '_>,
    stimuli: &[Stimulus],
) -> Result<(), AllocError>
    ensures { OnOk result (text.new.items ≡ text.old.items ++ stimuli_text (block_of names.now.block.now) (process_of names.now.process.now) (map stimulus_of stimuli.now)) }
{
    match stimuli.split_first() {
        Some((first, others)) => {
            push_stimulus(text, names, first)?;
            push_more_stimuli(text, names, others)
        }
        None => Ok(()),
    }
}

/// Appends the further names of a SAVE to `text`, each on its own line.
fn push_more_triggers(
    text: &mut Vec<u8>,
    names: &Names<'_, '_>,
    ids: &[Identifier],
) -> Result<(), AllocError>
    ensures { OnOk result (text.new.items ≡ text.old.items ++ flat_map (λ id. codes ",\n" ++ trigger_text (block_of names.now.block.now) (process_of names.now.process.now) id.name) ids.now) }
{
    for id in ids {
        push_bytes(text, b",\n")?;
        push_trigger(text, names, id.name)?;
    }
    Ok(())
}

/// Appends the signals and timers of a SAVE to `text`, each on its own line.
pub fn push_triggers(
    text: &mut Vec<u8>,
    names: &Names<'_, '_>,
    ids: &[Identifier],
) -> Result<(), AllocError>
    ensures { OnOk result (text.new.items ≡ text.old.items ++ triggers_text (block_of names.now.block.now) (process_of names.now.process.now) ids.now) }
{
    match ids.split_first() {
        Some((first, others)) => {
            push_trigger(text, names, first.name)?;
            push_more_triggers(text, names, others)
        }
        None => Ok(()),
    }
}
