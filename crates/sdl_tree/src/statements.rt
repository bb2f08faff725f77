//! Reads transitions step by step. `sdl_productions` defines the state between the steps.
ghost use Rattle.std.specs.Prelude.{◌≡◌, map, IfOk, IfErr};
ghost use Rattle.std.specs.Option.{option_map};
ghost use Rattle.sdl_productions.specs.BodyViews.{marked_view, head_of, branching_view, bodies_view, reached_view, move_view};
ghost use Rattle.sdl_productions.specs.Bodies.{marked_texts};
ghost use Rattle.sdl_productions.specs.Mirrors.{Mirrors};
ghost use Rattle.sdl_productions.specs.Productions.{head_step, closing_step, answer_step, body_step, behind_step, end_step, decision_step, action_step, step_at, text_at};
ghost use Rattle.sdl_ast.specs.Views.{text_of, else_choice};

use crate::answers::{read_end_decision, read_head, read_question};
use crate::attempt::attempt;
use crate::production::Production;
use crate::transitions::read_optional_end;
use sdl_ast::{Action, Transition};
use sdl_lex::{Token, Word};
use sdl_productions::{
    AnyAction, AnyChoice, Body, Branching, Marked, Move, Reached, Stop, closed, ended,
    limited_action, more, push, stands_next, with_answer, with_else,
};
use std::alloc::Global;

/// Reads the head of an answer or ELSE. Its body is read next.
#[tactic(auto, unfolding(sdl_productions::specs::Productions::head_step))]
fn head_step<'a>(
    alloc: Global,
    outer: Vec<Body>,
    branching: Branching,
    tokens: &'a [Token],
) -> Result<(Move, &'a [Token]), Stop<'a>>
    ensures { Mirrors move_view result (head_step marked_texts (bodies_view outer.items) (branching_view branching) tokens.now) }
{
    let (head, rest) = attempt!(read_head(alloc, tokens));
    let mut outer = outer;
    attempt!(push(&mut outer, Body { branching, head }));
    let here = Marked::Kept(Vec::new(alloc));
    Ok((Move::Reaches(Reached { outer, here }), rest))
}

/// Reads ENDDECISION. The statements after it are read next.
#[tactic(auto, unfolding(sdl_productions::specs::Productions::closing_step))]
fn closing_step<'a>(
    outer: Vec<Body>,
    branching: Branching,
    otherwise: Marked<Option<Transition>>,
    tokens: &'a [Token],
) -> Result<(Move, &'a [Token]), Stop<'a>>
    ensures { Mirrors move_view result (closing_step marked_texts (bodies_view outer.items) (branching_view branching) (marked_view else_choice otherwise) tokens.now) }
{
    let (_, rest) = attempt!(read_end_decision(tokens));
    let here = attempt!(closed(branching, otherwise));
    Ok((Move::Reaches(Reached { outer, here }), rest))
}

/// Continues after the body of an answer, with another head or with ENDDECISION.
#[tactic(auto, unfolding(sdl_productions::specs::Productions::answer_step))]
fn answer_step<'a>(
    alloc: Global,
    outer: Vec<Body>,
    branching: Branching,
    tokens: &'a [Token],
) -> Result<(Move, &'a [Token]), Stop<'a>>
    ensures { Mirrors move_view result (answer_step marked_texts (bodies_view outer.items) (branching_view branching) tokens.now) }
{
    if stands_next(tokens, AnyChoice) {
        return head_step(alloc, outer, branching, tokens);
    }
    closing_step(outer, branching, Marked::Kept(None), tokens)
}

/// Continues after a body.
fn body_step<'a>(
    alloc: Global,
    outer: Vec<Body>,
    body: Body,
    text: Marked<Transition>,
    tokens: &'a [Token],
) -> Result<(Move, &'a [Token]), Stop<'a>>
    ensures { Mirrors move_view result (body_step marked_texts (bodies_view outer.items) (branching_view body.branching) (option_map head_of body.head) (marked_view text_of text) tokens.now) }
{
    let Body { branching, head } = body;
    let Some(head) = head else {
        return closing_step(outer, branching, with_else(text), tokens);
    };
    let branching = attempt!(with_answer(branching, head, text));
    answer_step(alloc, outer, branching, tokens)
}

/// Continues after a transition. It is the whole one if no body is open.
fn behind_step<'a>(
    alloc: Global,
    mut outer: Vec<Body>,
    text: Marked<Transition>,
    tokens: &'a [Token],
) -> Result<(Move, &'a [Token]), Stop<'a>>
    ensures { Mirrors move_view result (behind_step marked_texts (bodies_view outer.items) (marked_view text_of text) tokens.now) }
{
    match outer.pop() {
        Some(body) => body_step(alloc, outer, body, text, tokens),
        None => Ok((Move::Closes(text), tokens)),
    }
}

/// Reads the end of a transition if the next token begins one, and continues after it.
#[tactic(auto, unfolding(sdl_productions::specs::Productions::end_step))]
fn end_step<'a>(
    alloc: Global,
    reached: Reached,
    tokens: &'a [Token],
) -> Result<(Move, &'a [Token]), Stop<'a>>
    ensures { Mirrors move_view result (end_step marked_texts (reached_view reached) tokens.now) }
{
    let (end, rest) = attempt!(read_optional_end(tokens));
    let Reached { outer, here } = reached;
    behind_step(alloc, outer, ended(here, end), rest)
}

/// Reads the question of a DECISION and its first head.
#[tactic(auto, unfolding(sdl_productions::specs::Productions::decision_step))]
fn decision_step<'a>(
    alloc: Global,
    reached: Reached,
    tokens: &'a [Token],
) -> Result<(Move, &'a [Token]), Stop<'a>>
    ensures { Mirrors move_view result (decision_step marked_texts (reached_view reached) tokens.now) }
{
    let (asked, rest) = attempt!(read_question(alloc, tokens));
    let Reached { outer, here } = reached;
    let branching = Branching {
        before: here,
        asked,
        answers: Marked::Kept(Vec::new(alloc)),
    };
    head_step(alloc, outer, branching, rest)
}

/// Reads an action.
#[tactic(auto, unfolding(sdl_productions::specs::Productions::action_step))]
fn action_step<'a>(
    alloc: Global,
    reached: Reached,
    tokens: &'a [Token],
) -> Result<(Move, &'a [Token]), Stop<'a>>
    ensures { Mirrors move_view result (action_step marked_texts (reached_view reached) tokens.now) }
{
    let (action, rest) = attempt!(Action::read(alloc, tokens));
    let Reached { outer, here } = reached;
    let here = attempt!(more(here, limited_action(action)));
    Ok((Move::Reaches(Reached { outer, here }), rest))
}

/// Performs one step.
#[tactic(auto, unfolding(sdl_productions::specs::Productions::step_at))]
fn make_step<'a>(
    alloc: Global,
    reached: Reached,
    tokens: &'a [Token],
) -> Result<(Move, &'a [Token]), Stop<'a>>
    ensures { Mirrors move_view result (step_at marked_texts (reached_view reached) tokens.now) }
{
    if stands_next(tokens, AnyAction) {
        return action_step(alloc, reached, tokens);
    }
    if stands_next(tokens, Word::Decision) {
        return decision_step(alloc, reached, tokens);
    }
    end_step(alloc, reached, tokens)
}

/// Reads a transition: statements, and its end if the next token begins one.
#[tactic(auto, unfolding(sdl_productions::specs::Productions::text_at))]
pub(crate) fn read_transition<'a>(
    alloc: Global,
    tokens: &'a [Token],
) -> Result<(Marked<Transition>, &'a [Token]), Stop<'a>>
    ensures { Mirrors (marked_view text_of) result (text_at marked_texts tokens.now) }
{
    let mut reached = Reached {
        outer: Vec::new(alloc),
        here: Marked::Kept(Vec::new(alloc)),
    };
    let mut rest = tokens;
    'steps: loop {
        let (step, after) = attempt!(make_step(alloc, reached, rest));
        match step {
            Move::Reaches(next) => {
                reached = next;
                rest = after;
            }
            Move::Closes(transition) => return Ok((transition, after)),
        }
    }
}
