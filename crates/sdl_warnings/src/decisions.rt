//! A7 and A8: answers whose values earlier answers match, and constant questions.
ghost use Rattle.std.specs.Prelude.{◌≡◌, ◌++◌, [], Option, map, not, OnOk};
ghost use Rattle.std.specs.List.{flat_map};
ghost use Rattle.sdl_ast.specs.Views.{tree_of, answers_before, else_choice, choice_of};
ghost use Rattle.sdl_sound.specs.Parts.{question_of};
ghost use Rattle.sdl_ast.specs.declared.tree.Decision.{out-Decision};
ghost use Rattle.sdl_ast.specs.declared.tree.Transition.{Transition};
ghost use Rattle.sdl_warnings.specs.Standing.{part_of};
ghost use Rattle.sdl_warnings.specs.Warned.{fixed_decision, spent_answers, statement_warnings, unless, warned};
ghost use Rattle.sdl_warnings.specs.Values.{is_spent};
ghost use Rattle.sdl_warnings.specs.declared.warning.Kind.TheVariants as kinds;

use crate::parts::Part;
use crate::reads::is_constant;
use crate::values::is_spent;
use crate::warning::{Kind, Warning, push_unless};
use sdl_ast::{Answer, Decision, Range};
use std::alloc::{AllocError, Global};

/// Appends the warning of an answer if earlier answers match each of its values.
fn push_answer(
    found: &mut Vec<Warning>,
    earlier: &[Range],
    answer: &Answer,
) -> Result<(), AllocError>
    ensures { OnOk result (found.new.items ≡ found.old.items ++ unless (not (is_spent earlier.now answer.now.ranges.items)) (warned answer.now.at kinds.SpentAnswer)) }
{
    let is_spent = is_spent(earlier, &answer.ranges);
    push_unless(found, !is_spent, answer.at, Kind::SpentAnswer)
}

/// Appends the warnings of answers.
fn push_answers(
    alloc: Global,
    found: &mut Vec<Warning>,
    answers: &[Answer],
) -> Result<(), AllocError>
    ensures { OnOk result ((o : Option Transition) → found.new.items ≡ found.old.items ++ spent_answers [] (answers_before answers.now (else_choice o))) }
{
    let mut earlier: Vec<Range> = Vec::new(alloc);
    for answer in answers {
        push_answer(found, &earlier, answer)?;
        earlier.extend_from_slice(&answer.ranges)?;
    }
    Ok(())
}

/// Appends the warning of a DECISION if its question is a constant.
fn push_question(found: &mut Vec<Warning>, decision: &Decision) -> Result<(), AllocError>
    ensures { OnOk result (found.new.items ≡ found.old.items ++ fixed_decision (out-Decision decision.now).at (tree_of (out-Decision decision.now).question)) }
{
    let is_constant = is_constant(&decision.question);
    push_unless(found, !is_constant, decision.at, Kind::FixedDecision)
}

/// Appends the warnings of a DECISION.
fn push_decision(
    alloc: Global,
    found: &mut Vec<Warning>,
    decision: &Decision,
) -> Result<(), AllocError>
    ensures { OnOk result (found.new.items ≡ found.old.items ++ statement_warnings (question_of decision.now)) }
{
    push_question(found, decision)?;
    push_answers(alloc, found, &decision.answers)
}

/// Appends the warnings of a statement.
fn push_part(alloc: Global, found: &mut Vec<Warning>, part: &Part<'_>) -> Result<(), AllocError>
    ensures { OnOk result (found.new.items ≡ found.old.items ++ statement_warnings (part_of part.now)) }
{
    match part {
        Part::Act(_) => Ok(()),
        Part::Ask(decision) => push_decision(alloc, found, decision),
        Part::Cover(_, _) => Ok(()),
        Part::Finish(_) => Ok(()),
    }
}

/// Appends the warnings of these statements.
pub(crate) fn push_decisions(
    alloc: Global,
    found: &mut Vec<Warning>,
    parts: &[Part<'_>],
) -> Result<(), AllocError>
    ensures { OnOk result (found.new.items ≡ found.old.items ++ flat_map statement_warnings (map part_of parts.now)) }
{
    for part in parts {
        push_part(alloc, found, part)?;
    }
    Ok(())
}
