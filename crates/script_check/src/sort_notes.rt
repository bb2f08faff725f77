//! Notes for a wrong sort (S3).
use crate::operands::Side;
use crate::sorts::{Cause, Here};
use script_point::{Notes, push_all, push_number};
use sdl_tree::{BinaryOperator, Sort, UnaryOperator};
use std::alloc::{AllocError, Global};

/// A sort with its article.
fn article(sort: Option<Sort>) -> &'static str {
    match sort {
        Some(Sort::Integer) => "an Integer",
        Some(Sort::Boolean) => "a Boolean",
        None => "a value",
    }
}

/// Adds the words and the required sort, and under the word the sort found.
fn add_sorts(
    notes: &mut Notes,
    words: &[&str],
    want: Option<Sort>,
    under: &str,
    found: Option<Sort>,
) -> Result<(), AllocError> {
    push_all(&mut notes.said, words)?;
    notes.said.push_str(article(want))?;
    notes.under.push_str(under)?;
    notes.under.push_str(article(found))
}

/// Adds the notes for the value of a variable.
fn add_value(
    notes: &mut Notes,
    variable: &str,
    want: Option<Sort>,
    under: &str,
    found: Option<Sort>,
) -> Result<(), AllocError> {
    add_sorts(notes, &[variable, " is "], want, under, found)
}

/// Adds the notes for a time that is a Boolean.
fn add_time(notes: &mut Notes) -> Result<(), AllocError> {
    let (want, found) = (Some(Sort::Integer), Some(Sort::Boolean));
    add_sorts(notes, &["a time is "], want, "this is ", found)
}

/// Adds the notes for a parameter of a signal.
fn add_parameter(
    alloc: Global,
    notes: &mut Notes,
    signal: &str,
    number: usize,
    want: Sort,
    found: Option<Sort>,
) -> Result<(), AllocError> {
    notes.said.push_str("parameter ")?;
    push_number(alloc, &mut notes.said, number)?;
    let words = [" of ", signal, " is "];
    add_sorts(notes, &words, Some(want), "this is ", found)
}

/// Adds the notes for a wrong number of parameters.
fn add_number(
    alloc: Global,
    notes: &mut Notes,
    signal: &str,
    wanted: usize,
    given: usize,
) -> Result<(), AllocError> {
    push_all(&mut notes.said, &[signal, " has "])?;
    if wanted == 0 {
        notes.said.push_str("no")?;
    } else {
        push_number(alloc, &mut notes.said, wanted)?;
    }
    notes.said.push_str(if wanted == 1 {
        " parameter"
    } else {
        " parameters"
    })?;
    push_number(alloc, &mut notes.under, given)?;
    notes.under.push_str(" given")
}

/// Adds the notes for a value of an answer.
fn add_answer(notes: &mut Notes, is_truth: bool, here: Here) -> Result<(), AllocError> {
    if is_truth {
        notes
            .said
            .push_str("an answer to a question of Booleans is TRUE or FALSE")?;
        notes.under.push_str(match here {
            Here::Integer => "this is an Integer",
            Here::Boolean => "this is a Boolean",
            Here::Relation => "this is a relation",
            Here::Range => "this is a range",
            Here::Nothing => "",
        })
    } else {
        notes
            .said
            .push_str("an answer to a question of Integers has only Integers")?;
        notes.under.push_str("here is a Boolean")
    }
}

/// An operator as it is written.
fn sign(operator: BinaryOperator) -> &'static str {
    match operator {
        BinaryOperator::Or => "OR",
        BinaryOperator::Xor => "XOR",
        BinaryOperator::And => "AND",
        BinaryOperator::Equal => "=",
        BinaryOperator::NotEqual => "/=",
        BinaryOperator::Less => "<",
        BinaryOperator::LessEqual => "<=",
        BinaryOperator::Greater => ">",
        BinaryOperator::GreaterEqual => ">=",
        BinaryOperator::Add => "+",
        BinaryOperator::Subtract => "-",
        BinaryOperator::Multiply => "*",
        BinaryOperator::Divide => "/",
        BinaryOperator::Modulo => "MOD",
        BinaryOperator::Remainder => "REM",
    }
}

/// The operator of an operand, as it is written.
fn side_sign(side: Side) -> &'static str {
    match side {
        Side::Behind(operator) => match operator {
            UnaryOperator::Negate => "-",
            UnaryOperator::Not => "NOT",
        },
        Side::Left(operator) => sign(operator),
        Side::Right(operator) => sign(operator),
    }
}

/// The note that an operand is missing on its side.
fn side_text(side: Side) -> &'static str {
    match side {
        Side::Behind(_) => " is expected after `",
        Side::Left(_) => " is expected left of `",
        Side::Right(_) => " is expected right of `",
    }
}

/// Adds the notes for an operand.
fn add_operand(
    notes: &mut Notes,
    side: Side,
    want: Option<Sort>,
    found: Option<Sort>,
    is_denied: bool,
) -> Result<(), AllocError> {
    notes.said.push_str(article(want))?;
    notes.said.push_str(side_text(side))?;
    notes.said.push_str(side_sign(side))?;
    notes.said.push_str("`")?;
    notes.under.push_str("this is ")?;
    notes.under.push_str(article(found))?;
    if is_denied {
        return notes
            .hint
            .push_str("NOT takes only the operand after it: write NOT (..)");
    }
    Ok(())
}

/// Adds the notes for a cause.
pub(crate) fn explain(alloc: Global, notes: &mut Notes, cause: &Cause) -> Result<(), AllocError> {
    match cause {
        Cause::Operand {
            side,
            want,
            found,
            is_denied,
        } => add_operand(notes, *side, *want, *found, *is_denied),
        Cause::Parameter {
            signal,
            number,
            want,
            found,
        } => add_parameter(alloc, notes, signal.as_str(), *number, *want, *found),
        Cause::Value {
            variable,
            want,
            found,
        } => add_value(notes, variable.as_str(), *want, "its value is ", *found),
        Cause::Initial {
            variable,
            want,
            found,
        } => {
            let (name, want, found) = (variable.as_str(), Some(*want), Some(*found));
            add_value(notes, name, want, "this is ", found)
        }
        Cause::Number {
            signal,
            wanted,
            given,
        } => add_number(alloc, notes, signal.as_str(), *wanted, *given),
        Cause::Time => add_time(notes),
        Cause::Answer { is_truth, here } => add_answer(notes, *is_truth, *here),
    }
}
