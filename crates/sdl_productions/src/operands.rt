//! Reads expressions token by token. Each open parenthesis keeps the operands and operators before it on the heap, so
//! nested parentheses don't deepen the call stack.
ghost use Rattle.std.specs.Prelude.{◌≡◌, ◌<◌, IfOk, length, map, reverse, List, [], ◌∷◌};
ghost use Rattle.sdl_productions.specs.Machine.{wants, empty_frame, low_trees, turn, want_turn, lead_turn, join_turn, have_turn, close_turn, end_turn, run, expression_at};
ghost use Rattle.sdl_productions.specs.Mirrors.{Mirrors};
ghost use Rattle.sdl_productions.specs.Stacks.{frame_view, stack_view, state_view, turn_view, sign_view, Advances};
ghost use Rattle.sdl_ast.specs.Views.{tree_of};

use crate::frames::{Frame, bars, close_frame, empty_frame, with_operator};
use crate::level::Level;
use crate::operators::{moved, number_part, truth_part, variable_part};
use crate::part::Part;
use crate::signs::{Sign, sign_of};
use crate::stop::Stop;
use sdl_ast::{BinaryOperator, Expression, UnaryOperator};
use sdl_lex::Token;
use std::alloc::{AllocError, Global};

/// The frames of the open parentheses, the innermost separate, and the operand if one was read.
#[derive(Drop)]
struct State {
    outer: Vec<Frame>,
    here: Frame,
    operand: Option<Part>,
}

/// The effect of a token on a state.
#[derive(Drop)]
enum Turn {
    Goes(State),
    Done(Part),
    Stuck,
}

/// The state at the beginning of an expression.
fn start(alloc: Global) -> State
    ensures { state_view result ≡ wants [] (empty_frame 0) }
{
    State {
        outer: Vec::new(alloc),
        here: empty_frame(0),
        operand: None,
    }
}

/// Adds a unary operator before an operand. Only one is allowed there.
fn lead(outer: Vec<Frame>, mut here: Frame, at: u32, operator: UnaryOperator) -> Turn
    ensures { turn_view result ≡ lead_turn (stack_view outer.items) (frame_view here) at operator }
{
    if here.terms.lead.is_some() {
        return Turn::Stuck;
    }
    here.terms.lead = Some((at, operator));
    Turn::Goes(State {
        outer,
        here,
        operand: None,
    })
}

/// Handles a token while an operand must come next.
fn want(
    alloc: Global,
    mut outer: Vec<Frame>,
    mut here: Frame,
    sign: Sign,
) -> Result<Turn, AllocError>
    ensures { IfOk result (λ t. turn_view t ≡ want_turn (stack_view outer.items) (frame_view here) (sign_view sign)) }
{
    let operand = match sign {
        Sign::Number { at, value } => Some(number_part(alloc, at, value)?),
        Sign::Truth { at, value } => Some(truth_part(alloc, at, value)?),
        Sign::Variable { at, name } => Some(variable_part(alloc, at, name)?),
        Sign::Minus(at) => return Ok(lead(outer, here, at, UnaryOperator::Negate)),
        Sign::Denies(at) => return Ok(lead(outer, here, at, UnaryOperator::Not)),
        Sign::Opens(at) => {
            outer.push(here)?;
            here = empty_frame(at);
            None
        }
        _ => return Ok(Turn::Stuck),
    };
    Ok(Turn::Goes(State {
        outer,
        here,
        operand,
    }))
}

/// Handles a closing parenthesis: it closes the innermost open one, or else ends the expression.
fn close(
    alloc: Global,
    mut outer: Vec<Frame>,
    here: Frame,
    operand: Part,
) -> Result<Turn, AllocError>
    ensures { IfOk result (λ t. turn_view t ≡ close_turn low_trees (stack_view outer.items) (frame_view here) (tree_of operand.tree.value)) }
{
    let opened = here.opened;
    let inside = close_frame(alloc, here, operand)?;
    match outer.pop() {
        Some(here) => Ok(Turn::Goes(State {
            outer,
            here,
            operand: Some(moved(alloc, inside, opened)?),
        })),
        None => Ok(Turn::Done(inside)),
    }
}

/// Handles a token that can't extend the expression: it ends the expression if no parenthesis is open.
fn end(alloc: Global, outer: Vec<Frame>, here: Frame, operand: Part) -> Result<Turn, AllocError>
    ensures { IfOk result (λ t. turn_view t ≡ end_turn low_trees (stack_view outer.items) (frame_view here) (tree_of operand.tree.value)) }
{
    if !outer.is_empty() {
        return Ok(Turn::Stuck);
    }
    Ok(Turn::Done(close_frame(alloc, here, operand)?))
}

/// Handles a binary operator after an operand.
fn join(
    alloc: Global,
    outer: Vec<Frame>,
    here: Frame,
    operand: Part,
    level: Level,
    operator: BinaryOperator,
) -> Result<Turn, AllocError>
    ensures { IfOk result (λ t. turn_view t ≡ join_turn low_trees (stack_view outer.items) (frame_view here) (tree_of operand.tree.value) level operator) }
{
    if bars(level, &here) {
        return Ok(Turn::Stuck);
    }
    let here = with_operator(alloc, level, operator, here, operand)?;
    Ok(Turn::Goes(State {
        outer,
        here,
        operand: None,
    }))
}

/// Handles a token after an operand.
fn have(
    alloc: Global,
    outer: Vec<Frame>,
    here: Frame,
    operand: Part,
    sign: Sign,
) -> Result<Turn, AllocError>
    ensures { IfOk result (λ t. turn_view t ≡ have_turn low_trees (stack_view outer.items) (frame_view here) (tree_of operand.tree.value) (sign_view sign)) }
{
    match sign {
        Sign::Joins(level, operator) => join(alloc, outer, here, operand, level, operator),
        Sign::Minus(_) => join(
            alloc,
            outer,
            here,
            operand,
            Level::Sums,
            BinaryOperator::Subtract,
        ),
        Sign::Closes => close(alloc, outer, here, operand),
        _ => end(alloc, outer, here, operand),
    }
}

/// The effect on a state of a token with this role.
#[tactic(auto, unfolding(crate::specs::Machine::turn))]
fn take_turn(alloc: Global, state: State, sign: Sign) -> Result<Turn, AllocError>
    ensures { IfOk result (λ t. turn_view t ≡ turn low_trees (state_view state) (sign_view sign)) }
{
    let State {
        outer,
        here,
        operand,
    } = state;
    match operand {
        Some(operand) => have(alloc, outer, here, operand, sign),
        None => want(alloc, outer, here, sign),
    }
}

/// The result of one token of an expression.
#[derive(Drop)]
enum Step<'a> {
    Goes(State, &'a [Token]),
    Done(Expression),
}

/// Consumes one token. `Unexpected` if the expression can't continue with it, `NoMemory` if memory runs out.
#[tactic(auto, unfolding(crate::specs::Machine::run))]
fn make_step<'a>(alloc: Global, state: State, tokens: &'a [Token]) -> Result<Step<'a>, Stop<'a>>
    ensures { Advances result (state_view state) tokens.now }
{
    match take_turn(alloc, state, sign_of(tokens)) {
        Ok(Turn::Goes(next)) => match tokens.split_first() {
            Some((_, rest)) => Ok(Step::Goes(next, rest)),
            None => Err(Stop::Unexpected(tokens)),
        },
        Ok(Turn::Done(part)) => Ok(Step::Done(Box::into_inner(part.tree))),
        Ok(Turn::Stuck) => Err(Stop::Unexpected(tokens)),
        Err(_) => Err(Stop::NoMemory),
    }
}

/// Reads an expression. Returns it and the remaining tokens. `Unexpected` holds the tokens from the bad one on.
#[tactic(auto, unfolding(crate::specs::Machine::expression_at))]
pub fn expression<'a>(
    alloc: Global,
    tokens: &'a [Token],
) -> Result<(Expression, &'a [Token]), Stop<'a>>
    ensures { Mirrors tree_of result (expression_at low_trees tokens.now) }
{
    let mut state = start(alloc);
    let mut rest = tokens;
    'steps: loop {
        match make_step(alloc, state, rest)? {
            Step::Goes(next, after) => {
                state = next;
                rest = after;
            }
            Step::Done(tree) => return Ok((tree, rest)),
        }
    }
}
