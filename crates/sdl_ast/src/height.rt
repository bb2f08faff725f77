//! Computes whether expressions and DECISIONs of a tree exceed the height limit.
ghost use Rattle.std.specs.Prelude.{◌≡◌, nat_lt, ◌||◌, map};
ghost use Rattle.sdl_ast.specs.Heights.{tree_height, highest, action_height, text_height, choice_height, decision_height, assignments_height, sending_height, high_in_action, high_in_decision, high_in_synonym, first_of};
ghost use Rattle.sdl_ast.specs.Plain.{Text};
ghost use Rattle.sdl_ast.specs.declared.tree.Decision.{out-Decision};
ghost use Rattle.sdl_ast.specs.Views.{tree_of, assignment_of, sending_of, action_of, statement_of, choice_of, text_of, synonym_of};

use crate::MAX_HEIGHT;
use crate::expression::Expression;
use crate::tree::{Action, Assignment, Decision, Sending, Statement, Synonym, Transition};

/// Whether an expression is higher than a limit.
fn exceeds(tree: &Expression, limit: u32) -> bool
    ensures { result ≡ nat_lt limit (tree_height (tree_of tree.now)) }
{
    if limit == 0 {
        return true;
    }
    match tree {
        Expression::Number { .. } => false,
        Expression::Truth { .. } => false,
        Expression::Variable { .. } => false,
        Expression::Unary { operand, .. } => exceeds(operand, limit - 1),
        Expression::Binary { left, right, .. } => {
            if exceeds(left, limit - 1) {
                true
            } else {
                exceeds(right, limit - 1)
            }
        }
    }
}

/// Whether one of the assignments has an expression that is higher than a limit.
fn exceed_in_assignments(assignments: &[Assignment], limit: u32) -> bool
    ensures { result ≡ nat_lt limit (assignments_height (map assignment_of assignments.now)) }
{
    for assignment in assignments {
        if exceeds(&assignment.value, limit) {
            return true;
        }
    }
    false
}

/// Whether one of the expressions is higher than a limit.
fn exceed(expressions: &[Expression], limit: u32) -> bool
    ensures { result ≡ nat_lt limit (highest tree_height (map tree_of expressions.now)) }
{
    for expression in expressions {
        if exceeds(expression, limit) {
            return true;
        }
    }
    false
}

/// Whether a parameter of one of the signals sent is higher than a limit.
fn exceed_in_sendings(sendings: &[Sending], limit: u32) -> bool
    ensures { result ≡ nat_lt limit (highest sending_height (map sending_of sendings.now)) }
{
    for sending in sendings {
        if exceed(&sending.parameters, limit) {
            return true;
        }
    }
    false
}

/// Whether an action is higher than a limit.
fn exceeds_in_action(action: &Action, limit: u32) -> bool
    ensures { result ≡ nat_lt limit (action_height (action_of action.now)) }
{
    match action {
        Action::Task(task) => exceed_in_assignments(&task.assignments, limit),
        Action::Output(output) => exceed_in_sendings(&output.sendings, limit),
        Action::Set(set) => exceeds(&set.delay, limit),
        Action::Reset(_) => false,
    }
}

/// Whether a statement is higher than a limit.
#[cycle(exceeding)]
fn exceeds_in_statement(statement: &Statement, limit: u32) -> bool
    ensures { (rest : Text) → nat_lt limit (text_height (statement_of statement.now rest)) ≡ (result || nat_lt limit (text_height rest)) }
{
    match statement {
        Statement::Act(action) => exceeds_in_action(action, limit),
        Statement::Decide(decision) => exceeds_in_decision(decision, limit),
    }
}

/// Whether a transition has a statement that is higher than a limit.
#[cycle(exceeding)]
fn exceeds_in_transition(transition: &Transition, limit: u32) -> bool
    ensures { result ≡ nat_lt limit (text_height (text_of transition.now)) }
{
    for statement in &transition.statements {
        if exceeds_in_statement(statement, limit) {
            return true;
        }
    }
    false
}

/// Whether the body of an answer or of ELSE has a statement that is higher than a limit.
#[cycle(exceeding)]
fn exceeds_in_bodies(decision: &Decision, limit: u32) -> bool
    ensures { result ≡ nat_lt limit (choice_height (choice_of decision.now)) }
{
    for answer in &decision.answers {
        if exceeds_in_transition(&answer.body, limit) {
            return true;
        }
    }
    match &decision.otherwise {
        Some(body) => exceeds_in_transition(body, limit),
        None => false,
    }
}

/// Whether a DECISION is higher than a limit. It is one higher than the highest of its question and answers.
#[cycle(exceeding)]
fn exceeds_in_decision(decision: &Decision, limit: u32) -> bool
    ensures { result ≡ nat_lt limit (decision_height (tree_of (out-Decision decision.now).question) (choice_of decision.now)) }
{
    if limit == 0 {
        return true;
    }
    if exceeds(&decision.question, limit - 1) {
        return true;
    }
    exceeds_in_bodies(decision, limit - 1)
}

/// The place of the action, if an expression in it is more than 32 high.
pub fn high_in_action(action: &Action) -> Option<u32>
    ensures { result ≡ high_in_action (action_of action.now) }
{
    let is_high = exceeds_in_action(action, MAX_HEIGHT);
    match action {
        Action::Task(task) => is_high.then_some(task.at),
        Action::Output(output) => is_high.then_some(output.at),
        Action::Set(set) => is_high.then_some(set.at),
        Action::Reset(reset) => is_high.then_some(reset.at),
    }
}

/// The place of the DECISION, if it is more than 32 high.
pub fn high_in_decision(decision: &Decision) -> Option<u32>
    ensures { result ≡ high_in_decision (out-Decision decision.now).at (tree_of (out-Decision decision.now).question) (choice_of decision.now) }
{
    exceeds_in_decision(decision, MAX_HEIGHT).then_some(decision.at)
}

/// The place of the first of these synonyms with an expression that is too high.
pub fn high_in_synonyms(synonyms: &[Synonym]) -> Option<u32>
    ensures { result ≡ first_of high_in_synonym (map synonym_of synonyms.now) }
{
    for synonym in synonyms {
        if exceeds(&synonym.value, MAX_HEIGHT) {
            return Some(synonym.name.at);
        }
    }
    None
}
