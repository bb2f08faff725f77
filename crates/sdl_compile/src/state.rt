//! Compiles the states of a process, with their inputs and saves.
ghost use Rattle.std.specs.Prelude.{◌≡◌, ◌≤◌, ◌<◌, ◌++◌, List, length, map, IfOk, OnOk, IfSome, slice_get};
ghost use Rattle.std.specs.List.{AllZip, flat_map};
ghost use Rattle.sdl_ast.specs.Views.{text_of, input_of, block_of, process_of};
ghost use Rattle.sdl_tables.specs.Rows.{stimulus_inputs, row_names};
ghost use Rattle.sdl_tables.specs.Names.{Input, states_of};
ghost use Rattle.sdl_sound.specs.Standing.{taken_by, taken_in};
ghost use Rattle.sdl_emit.specs.Trimmed.{trimmed};
ghost use Rattle.sdl_emit.specs.Scopes.{scope_in, input_by};
ghost use Rattle.sdl_meaning.specs.Declarations.{trigger_of, trigger_sorts, parameters_by, drafted_signals};
ghost use Rattle.sdl_compile.specs.Drafts.{AllReady, IsNamedAs, MatchesInputs, SavesAll, AreReady, IsReadyInput, IsInputOf, AreInputsOf, IsTrigger, AreTriggers, AllTriggers, sets_of};
ghost use Rattle.sdl_compile.specs.Contexts.{IsContext};

use crate::piece::compile_transition;
use crate::setting::Setting;
use sdl_ast::{Identifier, InputPart, Stimulus, Transition};
use sdl_emit::{Body, Names, trim_transition};
use sdl_lex::Name;
use sdl_rules::Measure;
use std::alloc::{AllocError, Global};
use turn_code::{
    DraftInput, DraftSignal, DraftState, DraftVariable, Sequence, SignalNumber, Sort, TimerNumber,
    Trigger, VariableSet,
};

/// The context that the transitions of a process share: its names and variables, and the signals of the block. `order`
/// has each connection after all those that it joins; `measures` and `copies` are those of the connections.
#[derive(Drop)]
pub struct Context<'a> {
    pub names: &'a Names<'a>,
    pub variables: &'a [DraftVariable],
    pub signals: &'a [DraftSignal],
    pub order: &'a [usize],
    pub measures: &'a [Measure],
    pub copies: &'a [Transition],
}

/// A name, as a draft has it.
pub fn draft_name(name: &Name) -> turn_code::Name
    ensures { result ≡ name.now }
{
    match turn_code::Name::from_bytes(name.as_bytes()) {
        Some(name) => name,
        None => unreachable!(),
    }
}

/// The signal, or else the timer, that a name stands for.
fn trigger(names: &Names, id: &Identifier) -> Trigger
    requires { IsTrigger (scope_in names.now) id.now }
    ensures { result ≡ trigger_of (scope_in names.now) id.now }
{
    match names.block.signals().number(id.name) {
        Some(number) => Trigger::Signal(SignalNumber(number as u8)),
        None => match names.process.timers().number(id.name) {
            Some(number) => Trigger::Timer(TimerNumber(number as u8)),
            None => unreachable!(),
        },
    }
}

/// The sorts of the parameters of the signal with this number; empty if there is none.
fn parameters_at(signals: &[DraftSignal], number: Option<usize>) -> &[Sort]
    ensures { result.now ≡ parameters_by signals.now number }
{
    let Some(number) = number else {
        return &[];
    };
    match signals.get(number) {
        Some(signal) => signal.parameters.as_slice(),
        None => &[],
    }
}

/// The sorts of the parameters that come with the signal or timer of this name.
fn parameters<'a>(names: &Names, signals: &'a [DraftSignal], id: &Identifier) -> &'a [Sort]
    requires { signals.now ≡ drafted_signals (block_of names.now.block.now) }
    ensures { result.now ≡ trigger_sorts (scope_in names.now) id.now }
{
    parameters_at(signals, names.block.signals().number(id.name))
}

/// Compiles an input of a state that is entered with these variables set: its signal or timer, and the piece of its
/// transition. Fails only if memory runs out.
pub fn compile_input(
    alloc: Global,
    context: &Context,
    entry: VariableSet,
    input: &InputPart,
    stimulus: &Stimulus,
    copy: &Transition,
) -> Result<DraftInput, AllocError>
    requires copied { text_of copy.now ≡ trimmed (text_of input.now.transition) }
    requires ready { IsReadyInput (scope_in context.now.names.now) (input_by input.now stimulus.now) }
    requires context { IsContext context.now }
    ensures { IfOk result (λ d. IsInputOf (scope_in context.now.names.now) entry (input_by input.now stimulus.now) d) }
{
    let id = &stimulus.name;
    let setting = Setting {
        names: context.names,
        variables: context.variables,
        signals: context.signals,
        parameters: parameters(context.names, context.signals, id),
        entry,
        order: context.order,
        measures: context.measures,
        copies: context.copies,
    };
    let body = Body {
        whole: &input.transition,
        copy,
    };
    let piece = compile_transition(alloc, &setting, &stimulus.places, &body)?;
    Ok(DraftInput {
        trigger: trigger(context.names, id),
        piece,
    })
}

/// Adds the inputs of an INPUT, compiled signal by signal.
fn push_stimuli(
    alloc: Global,
    drafts: &mut Vec<DraftInput>,
    context: &Context,
    entry: VariableSet,
    input: &InputPart,
    copy: &Transition,
) -> Result<(), AllocError>
    requires copied { text_of copy.now ≡ trimmed (text_of input.now.transition) }
    requires ready { AreReady (scope_in context.now.names.now) (stimulus_inputs (input_of input.now)) }
    requires context { IsContext context.now }
    ensures { OnOk result ((before : List Input) → AllZip (IsInputOf (scope_in context.now.names.now) entry) before drafts.old.items
        → AllZip (IsInputOf (scope_in context.now.names.now) entry) (before ++ stimulus_inputs (input_of input.now)) drafts.new.items) }
{
    for stimulus in &input.stimuli {
        drafts.push(compile_input(alloc, context, entry, input, stimulus, copy)?)?;
    }
    Ok(())
}

/// Adds the inputs of an INPUT. Its transition is copied once for all of its signals.
fn push_input(
    alloc: Global,
    drafts: &mut Vec<DraftInput>,
    context: &Context,
    entry: VariableSet,
    input: &InputPart,
) -> Result<(), AllocError>
    requires ready { AreReady (scope_in context.now.names.now) (stimulus_inputs (input_of input.now)) }
    requires context { IsContext context.now }
    ensures { OnOk result ((before : List Input) → AllZip (IsInputOf (scope_in context.now.names.now) entry) before drafts.old.items
        → AllZip (IsInputOf (scope_in context.now.names.now) entry) (before ++ stimulus_inputs (input_of input.now)) drafts.new.items) }
{
    let copy = trim_transition(alloc, &input.transition)?;
    push_stimuli(alloc, drafts, context, entry, input, &copy)
}

/// Compiles the inputs, in their order, of a state that is entered with these variables set.
pub fn compile_inputs(
    alloc: Global,
    context: &Context,
    entry: VariableSet,
    inputs: &[&InputPart],
) -> Result<Vec<DraftInput>, AllocError>
    requires ready { AreReady (scope_in context.now.names.now) (flat_map taken_by inputs.now) }
    requires context { IsContext context.now }
    ensures { IfOk result (λ ds. AllZip (IsInputOf (scope_in context.now.names.now) entry) (flat_map taken_by inputs.now) ds.items) }
{
    let mut drafts = Vec::new(alloc);
    for input in inputs {
        push_input(alloc, &mut drafts, context, entry, input)?;
    }
    Ok(drafts)
}

/// The signals and timers that a state saves.
fn compile_saves(
    alloc: Global,
    names: &Names,
    ids: &[Identifier],
) -> Result<Vec<Trigger>, AllocError>
    requires { AreTriggers (scope_in names.now) ids.now }
    ensures { IfOk result (λ v. v.items ≡ map (trigger_of (scope_in names.now)) ids.now) }
{
    let mut saves = Vec::new(alloc);
    for id in ids {
        saves.push(trigger(names, id))?;
    }
    Ok(saves)
}

/// The state with this number.
fn make_state(
    alloc: Global,
    context: &Context,
    number: usize,
    set: VariableSet,
    saved: &[Identifier],
    inputs: &[&InputPart],
) -> Result<DraftState, AllocError>
    requires there { number < length (states_of (process_of context.now.names.now.process.now)) }
    requires ready { AreReady (scope_in context.now.names.now) (flat_map taken_by inputs.now) }
    requires saved { AreTriggers (scope_in context.now.names.now) saved.now }
    requires context { IsContext context.now }
    ensures name { IfOk result (λ d. IfSome (slice_get (states_of (process_of context.now.names.now.process.now)) number) (λ id. IsNamedAs id d)) }
    ensures saves { IfOk result (λ d. SavesAll (scope_in context.now.names.now) saved.now d) }
    ensures made { IfOk result (λ d. AreInputsOf (scope_in context.now.names.now) (flat_map taken_by inputs.now) d) }
    ensures set { IfOk result (λ d. d.set ≡ set) }
{
    let name = match context.names.process.states().get(number) {
        Some(id) => draft_name(&id.name),
        None => unreachable!(),
    };
    let saves = compile_saves(alloc, context.names, saved)?;
    let inputs = compile_inputs(alloc, context, set, inputs)?;
    Ok(DraftState {
        name,
        set,
        saves: Sequence::from(saves),
        inputs: Sequence::from(inputs),
    })
}

/// Compiles the states of a process. `sets` has for each state the variables that are set as it is entered, bit v for
/// variable v. Fails only if memory runs out.
pub fn compile_states(
    alloc: Global,
    context: &Context,
    saved: &[Vec<Identifier>],
    inputs: &[Vec<&InputPart>],
    sets: &[u32],
) -> Result<Vec<DraftState>, AllocError>
    requires paired { length inputs.now ≡ length (states_of (process_of context.now.names.now.process.now)) }
    requires saves { length saved.now ≡ length (states_of (process_of context.now.names.now.process.now)) }
    requires sets { length sets.now ≡ length (states_of (process_of context.now.names.now.process.now)) }
    requires ready { AllReady (scope_in context.now.names.now) (map taken_in inputs.now) }
    requires saved { AllTriggers (scope_in context.now.names.now) (map row_names saved.now) }
    requires context { IsContext context.now }
    ensures names { IfOk result (λ ds. AllZip IsNamedAs (states_of (process_of context.now.names.now.process.now)) ds.items) }
    ensures saves { IfOk result (λ ds. AllZip (SavesAll (scope_in context.now.names.now)) (map row_names saved.now) ds.items) }
    ensures made { IfOk result (λ ds. AllZip (AreInputsOf (scope_in context.now.names.now)) (map taken_in inputs.now) ds.items) }
    ensures sets { IfOk result (λ ds. sets_of ds.items ≡ sets.now) }
{
    let mut states = Vec::new(alloc);
    for (number, taken) in inputs.iter().enumerate() {
        let set = VariableSet(sets[number]);
        states.push(make_state(alloc, context, number, set, &saved[number], taken)?)?;
    }
    Ok(states)
}
