//! Whether a walk can continue past a transition, or past a DECISION.
ghost use Rattle.std.specs.Prelude.{◌≡◌, ◌&&◌};
ghost use Rattle.sdl_ast.specs.Views.{text_of, choice_of, statement_of};
ghost use Rattle.sdl_sound.specs.Going.{goes_on, choice_goes_on};

use sdl_ast::{Decision, Statement, Transition};

/// Whether a transition can run off its end. (Z.100: terminator.)
#[cycle(going)]
pub fn goes_on(transition: &Transition) -> bool
    ensures { result ≡ goes_on (text_of transition.now) }
{
    for statement in &transition.statements {
        if !passes(statement) {
            return false;
        }
    }
    transition.end.is_none()
}

/// Whether a walk can continue past a statement.
#[cycle(going)]
fn passes(statement: &Statement) -> bool
    ensures { (rest : _) → goes_on (statement_of statement.now rest) ≡ (result && goes_on rest) }
{
    match statement {
        Statement::Act(_) => true,
        Statement::Decide(decision) => a_body_goes_on(decision),
    }
}

/// Whether a body of a DECISION can run off its end.
#[cycle(going)]
pub(crate) fn a_body_goes_on(decision: &Decision) -> bool
    ensures { result ≡ choice_goes_on (choice_of decision.now) }
{
    for answer in &decision.answers {
        if goes_on(&answer.body) {
            return true;
        }
    }
    match &decision.otherwise {
        Some(body) => goes_on(body),
        None => false,
    }
}
