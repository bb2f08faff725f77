//! The state kept while a transition is read statement by statement. DECISIONs can be nested to any depth, so the open
//! ones are kept on a stack. If a statement is too high, only its place is kept.
ghost use Rattle.std.specs.Prelude.{◌≡◌, map, IfOk, IfErr};
ghost use Rattle.sdl_ast.specs.declared.tree.Decision.{out-Decision};
ghost use Rattle.sdl_ast.specs.Heights.{high_in_statement};
ghost use Rattle.sdl_ast.specs.Plain.{act, decide};
ghost use Rattle.sdl_ast.specs.Views.{tree_of, text_of, action_of, choice_of, else_choice, plain_statement, plain_answer};
ghost use Rattle.sdl_productions.specs.Bodies.{marked_texts, plain_answer_of, with_answer};
ghost use Rattle.sdl_productions.specs.BodyViews.{marked_view, head_of, question_of, branching_view};
ghost use Rattle.sdl_productions.specs.Marks.{marked, map_marked, decided};

use crate::marked::{Marked, more};
use crate::stop::Stop;
use sdl_ast::{
    Action, Answer, Decision, End, Expression, Range, Statement, Transition, high_in_action,
    high_in_decision,
};

/// The question of a DECISION. The place is that of the word DECISION.
#[derive(Drop)]
pub struct Question {
    pub at: u32,
    pub question: Expression,
}

/// The values that an answer matches. The place is that of its opening parenthesis.
#[derive(Drop)]
pub struct Head {
    pub at: u32,
    pub ranges: Vec<Range>,
}

/// An open DECISION: the statements before it, its question, and the answers read completely.
#[derive(Drop)]
pub struct Branching {
    pub before: Marked<Vec<Statement>>,
    pub asked: Question,
    pub answers: Marked<Vec<Answer>>,
}

/// An open body, with the head of its answer, or `None` for the body of ELSE.
#[derive(Drop)]
pub struct Body {
    pub branching: Branching,
    pub head: Option<Head>,
}

/// The open bodies, innermost last, and the statements so far in the innermost.
#[derive(Drop)]
pub struct Reached {
    pub outer: Vec<Body>,
    pub here: Marked<Vec<Statement>>,
}

/// The result of one step.
#[derive(Drop)]
pub enum Move {
    /// The transition isn't complete; this is the next state.
    Reaches(Reached),
    /// The transition is complete.
    Closes(Marked<Transition>),
}

/// An action, or its place if it is too high.
pub fn limited_action(action: Action) -> Marked<Statement>
    ensures { marked_view plain_statement result ≡ marked high_in_statement (act (action_of action)) }
{
    match high_in_action(&action) {
        Some(at) => Marked::TooHigh(at),
        None => Marked::Kept(Statement::Act(action)),
    }
}

/// A DECISION, or its place if it is too high.
fn limited_decision(decision: Decision) -> Marked<Statement>
    ensures { marked_view plain_statement result ≡ marked high_in_statement (decide (out-Decision decision).at (tree_of (out-Decision decision).question) (choice_of decision)) }
{
    match high_in_decision(&decision) {
        Some(at) => Marked::TooHigh(at),
        None => Marked::Kept(Statement::Decide(decision)),
    }
}

/// A DECISION, or its place if it or a part of it is too high.
fn decided(
    asked: Question,
    answers: Marked<Vec<Answer>>,
    otherwise: Marked<Option<Transition>>,
) -> Marked<Statement>
    ensures { marked_view plain_statement result ≡ decided (question_of asked) (marked_view (λ v. map plain_answer v.items) answers) (marked_view else_choice otherwise) }
{
    let Question { at, question } = asked;
    let answers = match answers {
        Marked::Kept(answers) => answers,
        Marked::TooHigh(_) => return Marked::TooHigh(at),
    };
    let otherwise = match otherwise {
        Marked::Kept(otherwise) => otherwise,
        Marked::TooHigh(_) => return Marked::TooHigh(at),
    };
    limited_decision(Decision {
        at,
        question,
        answers,
        otherwise,
    })
}

/// Appends a DECISION that is complete now to the statements before it. `NoMemory` if memory runs out.
pub fn closed<'a>(
    branching: Branching,
    otherwise: Marked<Option<Transition>>,
) -> Result<Marked<Vec<Statement>>, Stop<'a>>
    ensures ok { IfOk result (λ v. marked_view (λ v. map plain_statement v.items) v ≡ marked_texts.decides (branching_view branching).before (branching_view branching).asked (branching_view branching).answers (marked_view else_choice otherwise)) }
    ensures err { IfErr result (λ stop. stop ≡ Stop.NoMemory) }
{
    let Branching {
        before,
        asked,
        answers,
    } = branching;
    more(before, decided(asked, answers, otherwise))
}

/// The answer with this head and body, or the mark of the body.
fn answered(head: Head, body: Marked<Transition>) -> Marked<Answer>
    ensures { marked_view plain_answer result ≡ map_marked (plain_answer_of (head_of head)) (marked_view text_of body) }
{
    let Head { at, ranges } = head;
    match body {
        Marked::Kept(body) => Marked::Kept(Answer { at, ranges, body }),
        Marked::TooHigh(place) => Marked::TooHigh(place),
    }
}

/// Appends an answer that is complete now to the others. `NoMemory` if memory runs out.
pub fn with_answer<'a>(
    branching: Branching,
    head: Head,
    body: Marked<Transition>,
) -> Result<Branching, Stop<'a>>
    ensures ok { IfOk result (λ b. branching_view b ≡ with_answer marked_texts (branching_view branching) (head_of head) (marked_view text_of body)) }
    ensures err { IfErr result (λ stop. stop ≡ Stop.NoMemory) }
{
    let Branching {
        before,
        asked,
        answers,
    } = branching;
    let answers = more(answers, answered(head, body))?;
    Ok(Branching {
        before,
        asked,
        answers,
    })
}

/// The ELSE with this body, or the mark of the body.
pub fn with_else(body: Marked<Transition>) -> Marked<Option<Transition>>
    ensures { marked_view else_choice result ≡ marked_texts.with_else (marked_view text_of body) }
{
    match body {
        Marked::Kept(body) => Marked::Kept(Some(body)),
        Marked::TooHigh(at) => Marked::TooHigh(at),
    }
}

/// The transition with these statements and this end, or the mark of the statements.
pub fn ended(statements: Marked<Vec<Statement>>, end: Option<End>) -> Marked<Transition>
    ensures { marked_view text_of result ≡ marked_texts.ended (marked_view (λ v. map plain_statement v.items) statements) end }
{
    match statements {
        Marked::Kept(statements) => Marked::Kept(Transition { statements, end }),
        Marked::TooHigh(at) => Marked::TooHigh(at),
    }
}
