//! The operands that each instruction takes, the value that it leaves, and what it names.

ghost use Rattle.std.specs.Prelude.{◌≡◌, ◌<◌, ◌≤◌, ◌+◌, All, length, reverse, replicate, slice_get, option_to_list};
ghost use Rattle.turn_code.specs.Code.{sort_at, takes, gives, sets, set_after, jumps, behind, successors, effects_of};
ghost use Rattle.turn_code.specs.Transitions.{parameters_of};
ghost use Rattle.turn_code.specs.declared.draft.DraftSignal.{DraftSignal};
ghost use Rattle.plain_laws.specs.Limits.{MOST_INSTRUCTIONS, MOST_PARAMETERS, MOST_VARIABLES};

use arrayvec::ArrayVec;
use turn_code::{
    DraftSignal, DraftVariable, Instruction, SignalNumber, Sort, VariableNumber, VariableSet,
};

/// The sort of a variable, if there is such a variable.
pub(crate) fn sort_of_variable(
    variables: &[DraftVariable],
    variable: VariableNumber,
) -> Option<Sort>
    ensures { option_to_list result ≡ sort_at variables.now variable.0 }
{
    match variables.get(usize::from(variable.0)) {
        Some(found) => Some(found.sort),
        None => None,
    }
}

/// The sorts of a signal's parameters, the last one first.
fn sent_sorts(signals: &[DraftSignal], signal: SignalNumber) -> ArrayVec<Sort, 4>
    requires { All (λ (s : DraftSignal). length s.parameters ≤ MOST_PARAMETERS) signals.now }
    ensures { result.items ≡ reverse (parameters_of (slice_get signals.now signal.0)) }
{
    match signals.get(usize::from(signal.0)) {
        Some(found) => reversed(found.parameters.as_slice()),
        None => ArrayVec::new(),
    }
}

/// At most four sorts, the last one first.
fn reversed(parameters: &[Sort]) -> ArrayVec<Sort, 4>
    requires { length parameters.now ≤ MOST_PARAMETERS }
    ensures { result.items ≡ reverse parameters.now }
{
    match ArrayVec::try_from(parameters) {
        Ok(mut sorts) => {
            sorts.reverse();
            sorts
        }
        Err(_) => unreachable!(),
    }
}

/// `count` operands of one sort.
fn operands(count: usize, sort: Sort) -> ArrayVec<Sort, 4>
    requires { count ≤ 2 }
    ensures { result.items ≡ replicate count sort }
{
    let mut sorts = ArrayVec::new();
    if count > 0 {
        sorts.push(sort);
    }
    if count > 1 {
        sorts.push(sort);
    }
    sorts
}

/// The sorts of the operands that an instruction takes, the topmost first.
pub(crate) fn taken_sorts(
    instruction: Instruction,
    signals: &[DraftSignal],
    variables: &[DraftVariable],
) -> ArrayVec<Sort, 4>
    requires { All (λ (s : DraftSignal). length s.parameters ≤ MOST_PARAMETERS) signals.now }
    ensures { result.items ≡ takes signals.now variables.now instruction }
{
    match instruction {
        Instruction::Store(variable) => match sort_of_variable(variables, variable) {
            Some(sort) => operands(1, sort),
            None => ArrayVec::new(),
        },
        Instruction::Output(signal, _, _) => sent_sorts(signals, signal),
        Instruction::Add | Instruction::Sub | Instruction::Mul | Instruction::Compare(_) => {
            operands(2, Sort::Integer)
        }
        Instruction::And | Instruction::Or | Instruction::Xor | Instruction::Same => {
            operands(2, Sort::Boolean)
        }
        Instruction::Div(_)
        | Instruction::Mod(_)
        | Instruction::Rem(_)
        | Instruction::Neg
        | Instruction::Case(_, _, _)
        | Instruction::CaseWithin(_, _, _)
        | Instruction::Drop
        | Instruction::Set(_) => operands(1, Sort::Integer),
        Instruction::Not | Instruction::Pick(_, _) => operands(1, Sort::Boolean),
        _ => ArrayVec::new(),
    }
}

/// The sort of the value that an instruction puts on the operands, if it puts one there.
pub(crate) fn given_sort(
    instruction: Instruction,
    variables: &[DraftVariable],
    parameters: &[Sort],
) -> Option<Sort>
    ensures { option_to_list result ≡ gives variables.now parameters.now instruction }
{
    match instruction {
        Instruction::Load(variable) => sort_of_variable(variables, variable),
        Instruction::Param(place) => match parameters.get(usize::from(place)) {
            Some(sort) => Some(*sort),
            None => None,
        },
        Instruction::Int(_)
        | Instruction::Add
        | Instruction::Sub
        | Instruction::Mul
        | Instruction::Div(_)
        | Instruction::Mod(_)
        | Instruction::Rem(_)
        | Instruction::Neg
        | Instruction::Case(_, _, _)
        | Instruction::CaseWithin(_, _, _) => Some(Sort::Integer),
        Instruction::Bool(_)
        | Instruction::Not
        | Instruction::And
        | Instruction::Or
        | Instruction::Xor
        | Instruction::Same
        | Instruction::Compare(_) => Some(Sort::Boolean),
        _ => None,
    }
}

/// The variables that are set after it.
pub(crate) fn set_behind(instruction: Instruction, set: VariableSet) -> VariableSet
    requires { All (λ v. v < MOST_VARIABLES) (sets instruction) }
    ensures { result ≡ set_after instruction set }
{
    match instruction {
        Instruction::Store(variable) => set.with(variable),
        _ => set,
    }
}

/// The places where it may jump to.
pub(crate) fn jump_places(instruction: Instruction) -> ArrayVec<usize, 3>
    ensures places { result.items ≡ jumps instruction }
    ensures few { length result.items ≤ 2 }
{
    let mut places = ArrayVec::new();
    match instruction {
        Instruction::Case(_, _, place)
        | Instruction::CaseWithin(place, _, _)
        | Instruction::Jump(place) => places.push(usize::from(place.0)),
        Instruction::Pick(no, yes) => {
            places.push(usize::from(no.0));
            places.push(usize::from(yes.0));
        }
        _ => {}
    }
    places
}

/// The place after it, if the code may go on there.
pub(crate) fn place_behind(instruction: Instruction, place: usize) -> Option<usize>
    requires { place < MOST_INSTRUCTIONS }
    ensures { option_to_list result ≡ behind instruction place }
{
    match instruction {
        Instruction::Pick(_, _) | Instruction::Jump(_) | Instruction::Next(_) | Instruction::Stop =>
            None,
        _ => Some(place + 1),
    }
}

/// The places where the code may go on after it.
pub(crate) fn next_places(instruction: Instruction, place: usize) -> ArrayVec<usize, 3>
    requires { place < MOST_INSTRUCTIONS }
    ensures { result.items ≡ successors instruction place }
{
    let mut places = jump_places(instruction);
    if let Some(behind) = place_behind(instruction, place) {
        places.push(behind);
    }
    places
}

/// The number of effects that it adds.
pub(crate) fn effects_given(instruction: Instruction) -> u32
    ensures { result ≡ effects_of instruction }
{
    match instruction {
        Instruction::Output(_, _, _) | Instruction::Set(_) | Instruction::Reset(_) => 1,
        _ => 0,
    }
}
