//! The facts about the places of a piece.
ghost use Rattle.std.specs.Prelude.{◌≡◌, [], length, map, drop, IfOk, slice_get};
ghost use Rattle.std.specs.Option.{option_to_list};
ghost use Rattle.turn_code.specs.Transitions.{parameters_of};
ghost use Rattle.turn_code.specs.Code.{sort_at as sorts_at, takes, gives, shape_after};
ghost use Rattle.turn_code.specs.Rules.{greatest, depths};
ghost use Rattle.sdl_compile.specs.Facts.{shapes_from};
ghost use Rattle.turn_code.specs.declared.draft.PlaceFacts as place_facts_of;

use crate::setting::Setting;
use std::alloc::{AllocError, Global};
use std::mem;
use turn_code::{
    DraftSignal, DraftVariable, Instruction, PlaceFacts, Sequence, SignalNumber, Sort,
    VariableNumber, VariableSet,
};

/// The sort of the variable with this number, if there is one.
fn sort_at(variables: &[DraftVariable], variable: VariableNumber) -> Option<Sort>
    ensures { option_to_list result ≡ sorts_at variables.now variable.0 }
{
    Some(variables.get(usize::from(variable.0))?.sort)
}

/// How many parameters a signal has.
fn parameter_count(signals: &[DraftSignal], signal: SignalNumber) -> usize
    ensures { result ≡ length (parameters_of (slice_get signals.now signal.0)) }
{
    match signals.get(usize::from(signal.0)) {
        Some(signal) => signal.parameters.len(),
        None => 0,
    }
}

/// The facts about each place except its operands: the variables that are set, how many instructions may run from there
/// on, and how many effects they may have.
#[derive(Drop)]
pub struct Marks<'a> {
    pub sets: &'a [VariableSet],
    pub counts: &'a [u32],
    pub effects: &'a [u32],
}

/// How many operands an instruction takes.
fn taken(signals: &[DraftSignal], variables: &[DraftVariable], instruction: Instruction) -> usize
    ensures { result ≡ length (takes signals.now variables.now instruction) }
{
    match instruction {
        Instruction::Int(_) | Instruction::Bool(_) | Instruction::Load(_) => 0,
        Instruction::Param(_) | Instruction::Jump(_) | Instruction::Reset(_) => 0,
        Instruction::Next(_) | Instruction::Stop => 0,
        Instruction::Store(variable) => match sort_at(variables, variable) {
            Some(_) => 1,
            None => 0,
        },
        Instruction::Neg | Instruction::Not | Instruction::Drop | Instruction::Set(_) => 1,
        Instruction::Div(_) | Instruction::Mod(_) | Instruction::Rem(_) => 1,
        Instruction::Case(..) | Instruction::CaseWithin(..) | Instruction::Pick(..) => 1,
        Instruction::Add | Instruction::Sub | Instruction::Mul | Instruction::Compare(_) => 2,
        Instruction::And | Instruction::Or | Instruction::Xor | Instruction::Same => 2,
        Instruction::Output(signal, ..) => parameter_count(signals, signal),
    }
}

/// The sort of the operand that an instruction puts, if it puts one.
fn given(variables: &[DraftVariable], parameters: &[Sort], instruction: Instruction) -> Option<Sort>
    ensures { option_to_list result ≡ gives variables.now parameters.now instruction }
{
    match instruction {
        Instruction::Load(variable) => sort_at(variables, variable),
        Instruction::Param(j) => parameters.get(usize::from(j)).copied(),
        Instruction::Int(_) | Instruction::Neg => Some(Sort::Integer),
        Instruction::Add | Instruction::Sub | Instruction::Mul => Some(Sort::Integer),
        Instruction::Div(_) | Instruction::Mod(_) | Instruction::Rem(_) => Some(Sort::Integer),
        Instruction::Case(..) | Instruction::CaseWithin(..) => Some(Sort::Integer),
        Instruction::Bool(_) | Instruction::Not | Instruction::Compare(_) => Some(Sort::Boolean),
        Instruction::And | Instruction::Or | Instruction::Xor => Some(Sort::Boolean),
        Instruction::Same => Some(Sort::Boolean),
        Instruction::Store(_) | Instruction::Drop | Instruction::Pick(..) => None,
        Instruction::Jump(_) | Instruction::Output(..) | Instruction::Set(_) => None,
        Instruction::Reset(_) | Instruction::Next(_) | Instruction::Stop => None,
    }
}

/// A shape without its topmost `count` operands; empty if it has no more.
fn without_first(shape: &[Sort], count: usize) -> &[Sort]
    ensures { result.now ≡ drop count shape.now }
{
    if count < shape.len() {
        &shape[count..]
    } else {
        &[]
    }
}

/// The shape after an instruction.
fn next_shape(
    alloc: Global,
    signals: &[DraftSignal],
    variables: &[DraftVariable],
    parameters: &[Sort],
    instruction: Instruction,
    shape: &[Sort],
) -> Result<Vec<Sort>, AllocError>
    ensures { IfOk result (λ v. v.items ≡ shape_after signals.now variables.now parameters.now instruction shape.now) }
{
    let mut next = Vec::new(alloc);
    if let Some(sort) = given(variables, parameters, instruction) {
        next.push(sort)?;
    }
    next.extend_from_slice(without_first(shape, taken(signals, variables, instruction)))?;
    Ok(next)
}

/// The facts about each place: the operands, and the variables that are set, the count and the effects as `marks` has
/// them. Fails only if memory runs out.
pub fn place_facts(
    alloc: Global,
    setting: &Setting,
    code: &[Instruction],
    marks: &Marks,
) -> Result<Vec<PlaceFacts>, AllocError>
    requires sets { length marks.now.sets.now ≡ length code.now }
    requires counts { length marks.now.counts.now ≡ length code.now }
    requires effects { length marks.now.effects.now ≡ length code.now }
    ensures shaped { IfOk result (λ fs. map (λ (f : place_facts_of.PlaceFacts). f.shape) fs.items ≡ shapes_from setting.now.signals.now setting.now.variables.now setting.now.parameters.now [] code.now) }
    ensures settled { IfOk result (λ fs. map (λ (f : place_facts_of.PlaceFacts). f.set) fs.items ≡ marks.now.sets.now) }
    ensures counted { IfOk result (λ fs. map (λ (f : place_facts_of.PlaceFacts). f.count) fs.items ≡ marks.now.counts.now) }
    ensures effected { IfOk result (λ fs. map (λ (f : place_facts_of.PlaceFacts). f.effects) fs.items ≡ marks.now.effects.now) }
{
    let mut facts = Vec::new(alloc);
    let mut shape = Vec::new(alloc);
    for (k, instruction) in code.iter().enumerate() {
        let next = next_shape(
            alloc,
            setting.signals,
            setting.variables,
            setting.parameters,
            *instruction,
            &shape,
        )?;
        facts.push(PlaceFacts {
            shape: Sequence::from(mem::replace(&mut shape, next)),
            set: marks.sets[k],
            count: marks.counts[k],
            effects: marks.effects[k],
        })?;
    }
    Ok(facts)
}

/// The greatest number of operands at a place.
pub fn greatest_depth(facts: &[PlaceFacts]) -> usize
    ensures { result ≡ greatest (depths facts.now) }
{
    let mut depth = 0;
    for place in facts {
        depth = depth.max(place.shape.len());
    }
    depth
}
