//! The tests of DECISIONs for an Integer, one for each range.
ghost use Rattle.std.specs.Prelude.{◌≡◌, ◌++◌, OnOk};
ghost use Rattle.sdl_ast.specs.Views.{choice_of};
ghost use Rattle.sdl_meaning.specs.Act.{relation_of, integer_in};
ghost use Rattle.sdl_meaning.specs.Code.{constant_or_zero, range_code, ranges_code};
ghost use Rattle.sdl_emit.specs.Landing.{tests_by};

use crate::landing::{put, start_at};
use sdl_ast::{Constant, Decision, Literal, Range};
use std::alloc::AllocError;
use turn_code::{CodePlace, Instruction, Relation};

/// The relation of an instruction for one of the text.
fn relation(sign: sdl_ast::Relation) -> Relation
    ensures { result ≡ relation_of sign }
{
    match sign {
        sdl_ast::Relation::Equal => Relation::Equal,
        sdl_ast::Relation::NotEqual => Relation::NotEqual,
        sdl_ast::Relation::Less => Relation::Less,
        sdl_ast::Relation::LessEqual => Relation::LessEqual,
        sdl_ast::Relation::Greater => Relation::Greater,
        sdl_ast::Relation::GreaterEqual => Relation::GreaterEqual,
    }
}

/// The Integer of a constant.
fn integer(constant: &Constant) -> i32
    ensures { result ≡ constant_or_zero (integer_in constant.now.value) }
{
    match constant.value {
        Literal::Integer(value) => value,
        Literal::Boolean(_) => 0,
    }
}

/// The test of a range, if the body of its answer begins at a place.
fn range_test(place: CodePlace, range: &Range) -> Instruction
    ensures { result ≡ range_code place.0 range.now }
{
    match range {
        Range::Value(constant) => Instruction::Case(Relation::Equal, integer(constant), place),
        Range::Compared {
            relation: sign,
            constant,
            ..
        } => Instruction::Case(relation(*sign), integer(constant), place),
        Range::Between(low, high) => Instruction::CaseWithin(place, integer(low), integer(high)),
    }
}

/// Adds a test for each range of an answer whose body begins at a place.
fn emit_ranges(
    code: &mut Vec<Instruction>,
    place: CodePlace,
    ranges: &[Range],
) -> Result<(), AllocError>
    ensures { OnOk result (code.new.items ≡ code.old.items ++ ranges_code place.0 ranges.now) }
{
    for range in ranges {
        put(code, range_test(place, range))?;
    }
    Ok(())
}

/// Adds the tests of an Integer DECISION, if the bodies of its answers begin at these places.
pub fn emit_tests(
    code: &mut Vec<Instruction>,
    decision: &Decision,
    starts: &[CodePlace],
) -> Result<(), AllocError>
    ensures { OnOk result (code.new.items ≡ code.old.items ++ tests_by starts.now (choice_of decision.now)) }
{
    for (number, answer) in decision.answers.iter().enumerate() {
        emit_ranges(code, start_at(starts, number, CodePlace(0)), &answer.ranges)?;
    }
    match decision.otherwise {
        Some(_) => put(code, Instruction::Drop),
        None => Ok(()),
    }
}
