//! The rule on answers (S8): finds DECISIONs of Integers without ELSE, those of Booleans in which TRUE or FALSE isn't
//! answered exactly once or no value is left for ELSE, and those with an answer without values (impossible in a text).
ghost use Rattle.std.specs.Prelude.{◌≡◌, ℕ, ◌+◌, not, length, nat_eq, nat_lt, sum_by};
ghost use Rattle.std.specs.List.{list_all};
ghost use Rattle.sdl_ast.specs.declared.tree.Decision.{out-Decision};
ghost use Rattle.sdl_ast.specs.Views.{tree_of, choice_of, process_of};
ghost use Rattle.sdl_tables.specs.Names.{variables_of};
ghost use Rattle.sdl_tables.specs.Scopes.{Marks};
ghost use Rattle.sdl_sound.specs.Decisions.{has_else, is_value, names_value, times_named, answers_both, has_values, is_answered, statement_unanswered};
ghost use Rattle.sdl_sound.specs.Parts.{question_of};
ghost use Rattle.sdl_scopes.specs.Times.{Counted};

use crate::sorts::is_truth;
use sdl_ast::{Answer, Decision, Literal, Range};
use sdl_tables::ProcessTable;

/// A count: none, one, or more.
#[derive(Clone, Copy)]
pub(crate) enum Times {
    Never,
    Once,
    Often,
}

/// The sum of two counts.
fn added(one: Times, other: Times) -> Times
    ensures { (m n : ℕ) → Counted one m → Counted other n → Counted result (m + n) }
{
    match (one, other) {
        (Times::Never, times) => times,
        (times, Times::Never) => times,
        _ => Times::Often,
    }
}

/// How often a literal is this truth value: once or never.
fn is_value(value: bool, literal: Literal) -> Times
    ensures { Counted result (is_value value literal) }
{
    match literal {
        Literal::Integer(_) => Times::Never,
        Literal::Boolean(truth) => {
            if truth == value {
                Times::Once
            } else {
                Times::Never
            }
        }
    }
}

/// How often a range names a truth value: once if it is that single value, else never.
fn names_value(value: bool, range: &Range) -> Times
    ensures { Counted result (names_value value range.now) }
{
    match range {
        Range::Value(constant) => is_value(value, constant.value),
        Range::Compared { .. } => Times::Never,
        Range::Between(_, _) => Times::Never,
    }
}

/// How often an answer names a truth value.
fn named_in_ranges(value: bool, ranges: &[Range]) -> Times
    ensures { Counted result (sum_by (names_value value) ranges.now) }
{
    let mut times = Times::Never;
    for range in ranges {
        times = added(times, names_value(value, range));
    }
    times
}

/// How often answers name a truth value.
fn named_in_answers(value: bool, answers: &[Answer]) -> Times
    ensures { Counted result (sum_by (λ a. sum_by (names_value value) a.ranges.items) answers.now) }
{
    let mut times = Times::Never;
    for answer in answers {
        times = added(times, named_in_ranges(value, &answer.ranges));
    }
    times
}

/// How often the answers of a DECISION name a truth value.
fn times_named(value: bool, decision: &Decision) -> Times
    ensures { Counted result (times_named value (choice_of decision.now)) }
{
    named_in_answers(value, &decision.answers)
}

/// Whether the count is exactly one.
fn is_once(times: Times) -> bool
    ensures { (n : ℕ) → Counted times n → result ≡ nat_eq n 1 }
{
    match times {
        Times::Never => false,
        Times::Once => true,
        Times::Often => false,
    }
}

/// Whether the count is more than one.
fn is_often(times: Times) -> bool
    ensures { (n : ℕ) → Counted times n → not result ≡ nat_lt n 2 }
{
    match times {
        Times::Never => false,
        Times::Once => false,
        Times::Often => true,
    }
}

/// Whether a DECISION has an ELSE.
fn has_else(decision: &Decision) -> bool
    ensures { result ≡ has_else (choice_of decision.now) }
{
    decision.otherwise.is_some()
}

/// Whether a Boolean question has TRUE and FALSE answered once each. With ELSE at most one of them may be named.
fn answers_both(decision: &Decision) -> bool
    ensures { result ≡ answers_both (choice_of decision.now) }
{
    let truths = times_named(true, decision);
    let falsehoods = times_named(false, decision);
    if has_else(decision) {
        !is_often(added(truths, falsehoods))
    } else {
        is_once(truths) && is_once(falsehoods)
    }
}

/// Whether each answer has values.
fn have_values(answers: &[Answer]) -> bool
    ensures { result ≡ list_all (λ a. nat_lt 0 (length a.ranges.items)) answers.now }
{
    answers.iter().all(|answer| !answer.ranges.is_empty())
}

/// Whether each answer of a DECISION has values.
fn has_values(decision: &Decision) -> bool
    ensures { result ≡ has_values (choice_of decision.now) }
{
    have_values(&decision.answers)
}

/// Whether each answer has values, and each value is answered: TRUE and FALSE once, Integers with an ELSE.
fn is_answered(process: &ProcessTable, decision: &Decision) -> bool
    ensures { result ≡ is_answered (variables_of (process_of process.now)) (tree_of (out-Decision decision.now).question) (choice_of decision.now) }
{
    if !has_values(decision) {
        false
    } else if is_truth(process, &decision.question) {
        answers_both(decision)
    } else {
        has_else(decision)
    }
}

/// The place of a DECISION of Integers without ELSE, of one of Booleans in which TRUE or FALSE isn't answered exactly
/// once, or of one with an answer without values. (S8; Z.100: decision.)
pub fn unanswered_decision(process: &ProcessTable, decision: &Decision) -> Option<u32>
    ensures { Marks result (statement_unanswered (variables_of (process_of process.now)) (question_of decision.now)) }
{
    if is_answered(process, decision) {
        None
    } else {
        Some(decision.at)
    }
}
