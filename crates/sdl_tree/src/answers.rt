//! The parts of a DECISION around the bodies: the question, the heads of answers and ELSE, and ENDDECISION.
ghost use Rattle.std.specs.Prelude.{◌≡◌, Option};
ghost use Rattle.std.specs.Option.{option_map};
ghost use Rattle.sdl_lex.specs.declared.lexemes.Symbol.TheVariants as symbols;
ghost use Rattle.sdl_productions.specs.Readings.{optional};
ghost use Rattle.sdl_productions.specs.Machine.{low_trees, expression_at};
ghost use Rattle.sdl_productions.specs.Productions.{compared_at, upper_at, value_at, range_at, answer_head_at, else_head_at, head_at, question_at, end_decision_at};
ghost use Rattle.sdl_productions.specs.Tokens.{a_symbol};
ghost use Rattle.sdl_productions.specs.BodyViews.{head_of, question_of};
ghost use Rattle.sdl_productions.specs.Mirrors.{Mirrors, same};
ghost use Rattle.sdl_productions.proofs.Lengths.{range_keeps};

use crate::attempt::attempt;
use crate::declarations::read_constant;
use crate::endings::terminator;
use crate::production::{Production, read_separated};
use sdl_ast::{Constant, Range};
use sdl_lex::{Symbol, Token, Word};
use sdl_productions::{AnyRelation, Head, Question, Stop, expression, stands_next, take};
use std::alloc::Global;

/// Reads a relation and a constant.
#[tactic(auto, unfolding(sdl_productions::specs::Productions::compared_at))]
fn read_compared<'a>(tokens: &'a [Token]) -> Result<(Range, &'a [Token]), Stop<'a>>
    ensures { Mirrors same result (compared_at tokens.now) }
{
    let (found, rest) = attempt!(take(tokens, AnyRelation));
    let (constant, rest) = attempt!(read_constant(rest));
    let range = Range::Compared {
        at: found.at,
        relation: found.relation,
        constant,
    };
    Ok((range, rest))
}

/// Reads `: constant`.
#[tactic(auto, unfolding(sdl_productions::specs::Productions::upper_at))]
fn read_upper<'a>(tokens: &'a [Token]) -> Result<(Constant, &'a [Token]), Stop<'a>>
    ensures { Mirrors same result (upper_at tokens.now) }
{
    let (_, rest) = attempt!(take(tokens, Symbol::Colon));
    read_constant(rest)
}

/// Reads `[ : constant ]`.
fn read_optional_upper<'a>(tokens: &'a [Token]) -> Result<(Option<Constant>, &'a [Token]), Stop<'a>>
    ensures { Mirrors same result (optional (a_symbol symbols.Colon) upper_at tokens.now) }
{
    if !stands_next(tokens, Symbol::Colon) {
        return Ok((None, tokens));
    }
    let (upper, rest) = attempt!(read_upper(tokens));
    Ok((Some(upper), rest))
}

/// Reads `constant [ : constant ]`.
#[tactic(auto, unfolding(sdl_productions::specs::Productions::value_at))]
fn read_value<'a>(tokens: &'a [Token]) -> Result<(Range, &'a [Token]), Stop<'a>>
    ensures { Mirrors same result (value_at tokens.now) }
{
    let (low, rest) = attempt!(read_constant(tokens));
    let (upper, rest) = attempt!(read_optional_upper(rest));
    match upper {
        Some(high) => Ok((Range::Between(low, high), rest)),
        None => Ok((Range::Value(low), rest)),
    }
}

impl Production for Range {
    ghost use Rattle.sdl_ast.specs.declared.tree.Range.{Range};

    ghost Plain = { Range };

    ghost view = { same };

    ghost reading = { range_at };

    ghost never_longer = { range_keeps };

    #[tactic(auto, unfolding(sdl_productions::specs::Productions::range_at))]
    fn read<'a>(_alloc: Global, tokens: &'a [Token]) -> Result<(Range, &'a [Token]), Stop<'a>> {
        if stands_next(tokens, AnyRelation) {
            return Ok(attempt!(read_compared(tokens)));
        }
        Ok(attempt!(read_value(tokens)))
    }
}

/// Reads `( range {, range} ) :`.
#[tactic(auto, unfolding(sdl_productions::specs::Productions::answer_head_at))]
fn read_answer_head<'a>(alloc: Global, tokens: &'a [Token]) -> Result<(Head, &'a [Token]), Stop<'a>>
    ensures { Mirrors head_of result (answer_head_at tokens.now) }
{
    let (at, rest) = attempt!(take(tokens, Symbol::Open));
    let (ranges, rest) = attempt!(read_separated::<Range>(alloc, rest));
    let (_, rest) = attempt!(take(rest, Symbol::Close));
    let (_, rest) = attempt!(take(rest, Symbol::Colon));
    Ok((Head { at, ranges }, rest))
}

/// Reads `ELSE :`.
#[tactic(auto, unfolding(sdl_productions::specs::Productions::else_head_at))]
fn read_else_head<'a>(tokens: &'a [Token]) -> Result<(u32, &'a [Token]), Stop<'a>>
    ensures { Mirrors same result (else_head_at tokens.now) }
{
    let (at, rest) = attempt!(take(tokens, Word::Else));
    let (_, rest) = attempt!(take(rest, Symbol::Colon));
    Ok((at, rest))
}

/// Reads `( range {, range} ) :`, or `ELSE :`, which has no head.
#[tactic(auto, unfolding(sdl_productions::specs::Productions::head_at, sdl_productions::specs::Productions::some_head_at, sdl_productions::specs::Productions::no_head_at))]
pub(crate) fn read_head<'a>(
    alloc: Global,
    tokens: &'a [Token],
) -> Result<(Option<Head>, &'a [Token]), Stop<'a>>
    ensures { Mirrors (option_map head_of) result (head_at tokens.now) }
{
    if stands_next(tokens, Symbol::Open) {
        let (head, rest) = attempt!(read_answer_head(alloc, tokens));
        return Ok((Some(head), rest));
    }
    let (_, rest) = attempt!(read_else_head(tokens));
    Ok((None, rest))
}

/// Reads `DECISION expression ;`.
#[tactic(auto, unfolding(sdl_productions::specs::Productions::question_at))]
pub(crate) fn read_question<'a>(
    alloc: Global,
    tokens: &'a [Token],
) -> Result<(Question, &'a [Token]), Stop<'a>>
    ensures { Mirrors question_of result (question_at (expression_at low_trees) tokens.now) }
{
    let (at, rest) = attempt!(take(tokens, Word::Decision));
    let (question, rest) = attempt!(expression(alloc, rest));
    let (_, rest) = attempt!(terminator(rest));
    Ok((Question { at, question }, rest))
}

/// Reads `ENDDECISION ;`.
#[tactic(auto, unfolding(sdl_productions::specs::Productions::end_decision_at))]
pub(crate) fn read_end_decision<'a>(tokens: &'a [Token]) -> Result<(u32, &'a [Token]), Stop<'a>>
    ensures { Mirrors same result (end_decision_at tokens.now) }
{
    let (at, rest) = attempt!(take(tokens, Word::EndDecision));
    let (_, rest) = attempt!(terminator(rest));
    Ok((at, rest))
}
