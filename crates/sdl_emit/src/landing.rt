//! The parts of the code of a DECISION that are known only after its bodies: the jumps to what follows it, and the
//! tests or the choice before them.
ghost use Rattle.std.specs.Prelude.{◌≡◌, ◌+◌, ◌≤◌, [], ◌∷◌, ◌++◌, ◌&&◌, false, true, drop, length, replicate, slice_set, OnOk};
ghost use Rattle.std.specs.List.{list_any};
ghost use Rattle.sdl_ast.specs.Views.{choice_of};
ghost use Rattle.sdl_sound.specs.Longest.{tests_size};
ghost use Rattle.turn_code.specs.declared.instruction.Instruction.TheVariants.{Drop as DropCode, Pick};
ghost use Rattle.sdl_meaning.specs.Code.{is_literal, names_truth};
ghost use Rattle.sdl_emit.specs.Landing.{left_jump, left_place, landed, filled, first_or, has_any, picked_by};
ghost use Rattle.plain_laws.specs.Limits.{MOST_INSTRUCTIONS};

use sdl_ast::{Constant, Decision, Literal, Range};
use std::alloc::AllocError;
use turn_code::{CodePlace, Instruction};

/// Adds an instruction.
pub fn put(code: &mut Vec<Instruction>, instruction: Instruction) -> Result<(), AllocError>
    ensures { OnOk result (code.new.items ≡ code.old.items ++ instruction ∷ []) }
{
    code.push(instruction)?;
    Ok(())
}

/// How many tests an Integer DECISION has, with the drop before ELSE.
pub fn tests_length(decision: &Decision) -> usize
    requires { tests_size (choice_of decision.now) ≤ MOST_INSTRUCTIONS }
    ensures { result ≡ tests_size (choice_of decision.now) }
{
    let mut total = 0;
    for answer in &decision.answers {
        total += answer.ranges.len();
    }
    match decision.otherwise {
        Some(_) => total + 1,
        None => total,
    }
}

/// Whether a constant is this truth value.
fn is_truth(value: bool, constant: &Constant) -> bool
    ensures { result ≡ is_literal value constant.now.value }
{
    match constant.value {
        Literal::Boolean(truth) => truth == value,
        Literal::Integer(_) => false,
    }
}

/// Whether a range is only this truth value.
fn names_truth(value: bool, range: &Range) -> bool
    ensures { result ≡ names_truth value range.now }
{
    match range {
        Range::Value(constant) => is_truth(value, constant),
        _ => false,
    }
}

/// Whether one of the ranges of an answer is this truth value.
fn any_names(value: bool, ranges: &[Range]) -> bool
    ensures { result ≡ list_any (names_truth value) ranges.now }
{
    for range in ranges {
        if names_truth(value, range) {
            return true;
        }
    }
    false
}

/// The place with this number, or else `otherwise`.
pub(crate) fn start_at(starts: &[CodePlace], number: usize, otherwise: CodePlace) -> CodePlace
    ensures { result ≡ first_or otherwise (drop number starts.now) }
{
    match starts.get(number) {
        Some(start) => *start,
        None => otherwise,
    }
}

/// The place of the body for a truth value, given the places of the bodies of the answers and that of ELSE.
fn picked_place(
    decision: &Decision,
    starts: &[CodePlace],
    value: bool,
    otherwise: CodePlace,
) -> CodePlace
    ensures { result ≡ picked_by otherwise starts.now (choice_of decision.now) value }
{
    for (number, answer) in decision.answers.iter().enumerate() {
        if any_names(value, &answer.ranges) {
            return start_at(starts, number, otherwise);
        }
    }
    otherwise
}

/// Whether there are any places.
pub fn has_any(places: &[usize]) -> bool
    ensures { result ≡ has_any places.now }
{
    match places {
        [] => false,
        [_, ..] => true,
    }
}

/// Adds placeholders for instructions that aren't known yet.
pub fn keep_places(code: &mut Vec<Instruction>, count: usize) -> Result<(), AllocError>
    ensures { OnOk result (code.new.items ≡ code.old.items ++ replicate count DropCode) }
{
    for _ in 0..count {
        put(code, Instruction::Drop)?;
    }
    Ok(())
}

/// Replaces the instruction at a place.
fn set_at(code: &mut Vec<Instruction>, place: usize, instruction: Instruction)
    ensures { code.new.items ≡ slice_set code.old.items place instruction }
{
    if place < code.len() {
        code[place] = instruction;
    }
}

/// Puts the choice of a Boolean DECISION in the place kept for it.
pub fn choose(
    code: &mut Vec<Instruction>,
    place: usize,
    decision: &Decision,
    starts: &[CodePlace],
    otherwise: CodePlace,
)
    ensures { code.new.items ≡ slice_set code.old.items place (Pick (picked_by otherwise starts.now (choice_of decision.now) false) (picked_by otherwise starts.now (choice_of decision.now) true)) }
{
    let falsity = picked_place(decision, starts, false, otherwise);
    let truth = picked_place(decision, starts, true, otherwise);
    set_at(code, place, Instruction::Pick(falsity, truth));
}

/// Adds the jump that ends a body, if it goes on, and records its place: what follows the DECISION has no place yet.
pub fn leave(
    code: &mut Vec<Instruction>,
    jumps: &mut Vec<usize>,
    goes: bool,
) -> Result<(), AllocError>
    ensures code { OnOk result (code.new.items ≡ code.old.items ++ left_jump goes) }
    ensures jumps { OnOk result (jumps.new.items ≡ jumps.old.items ++ left_place goes (length code.old.items)) }
{
    if goes {
        jumps.push(code.len())?;
        put(code, Instruction::Jump(CodePlace(0)))?;
    }
    Ok(())
}

/// Makes the jumps at these places lead to `after`.
pub fn land_jumps(code: &mut Vec<Instruction>, jumps: &[usize], after: CodePlace)
    ensures { code.new.items ≡ landed after code.old.items jumps.now }
{
    for place in jumps {
        set_at(code, *place, Instruction::Jump(after));
    }
}

/// Replaces the instructions from a place on.
pub fn fill_places(code: &mut Vec<Instruction>, first: usize, instructions: &[Instruction])
    requires { first + length instructions.now ≤ MOST_INSTRUCTIONS }
    ensures { code.new.items ≡ filled code.old.items first instructions.now }
{
    let mut place = first;
    for instruction in instructions {
        set_at(code, place, *instruction);
        place += 1;
    }
}
