//! Constants, the values that select an answer, and sorts.
ghost use Rattle.std.specs.Prelude.{◌≡◌, ◌++◌, OnOk, codes};
ghost use Rattle.std.specs.List.{flat_map};
ghost use Rattle.draw_text.specs.Statements.{constant_text, literal_text, minus_text, range_text, ranges_text, relation_text, sort_text};

use crate::bytes::{push_bytes, push_integer};
use crate::expressions::truth_word;
use sdl_ast::{Constant, Literal, Range, Relation, Sort};
use std::alloc::{AllocError, Global};

/// `Integer` or `Boolean`.
pub fn sort_word(sort: Sort) -> &'static [u8]
    ensures { result.now ≡ sort_text sort }
{
    match sort {
        Sort::Integer => b"Integer",
        Sort::Boolean => b"Boolean",
    }
}

/// The relation of a value to a constant, with the space that follows it.
fn relation_word(relation: Relation) -> &'static [u8]
    ensures { result.now ≡ relation_text relation }
{
    match relation {
        Relation::Equal => b"= ",
        Relation::NotEqual => b"/= ",
        Relation::Less => b"< ",
        Relation::LessEqual => b"<= ",
        Relation::Greater => b"> ",
        Relation::GreaterEqual => b">= ",
    }
}

/// Appends a literal to `text`.
fn push_literal(alloc: Global, text: &mut Vec<u8>, literal: Literal) -> Result<(), AllocError>
    ensures { OnOk result (text.new.items ≡ text.old.items ++ literal_text literal) }
{
    match literal {
        Literal::Integer(number) => push_integer(alloc, text, number),
        Literal::Boolean(value) => push_bytes(text, truth_word(value)),
    }
}

/// A minus, or nothing.
fn minus(is_negated: bool) -> &'static [u8]
    ensures { result.now ≡ minus_text is_negated }
{
    if is_negated { b"-" } else { b"" }
}

/// Appends a constant to `text`; a synonym as it is written.
fn push_constant(alloc: Global, text: &mut Vec<u8>, constant: Constant) -> Result<(), AllocError>
    ensures { OnOk result (text.new.items ≡ text.old.items ++ constant_text constant) }
{
    let is_negated = constant.is_negated;
    match constant.synonym {
        None => push_literal(alloc, text, constant.value),
        Some(synonym) => {
            push_bytes(text, minus(is_negated))?;
            push_bytes(text, synonym.name.as_bytes())
        }
    }
}

/// Appends one range of values that select an answer to `text`.
fn push_range(alloc: Global, text: &mut Vec<u8>, range: &Range) -> Result<(), AllocError>
    ensures { OnOk result (text.new.items ≡ text.old.items ++ range_text range.now) }
{
    match range {
        Range::Value(constant) => push_constant(alloc, text, *constant),
        Range::Compared {
            relation,
            constant,
            ..
        } => {
            push_bytes(text, relation_word(*relation))?;
            push_constant(alloc, text, *constant)
        }
        Range::Between(low, high) => {
            push_constant(alloc, text, *low)?;
            push_bytes(text, b":")?;
            push_constant(alloc, text, *high)
        }
    }
}

/// Appends further ranges to `text`, a comma before each.
fn push_more_ranges(alloc: Global, text: &mut Vec<u8>, ranges: &[Range]) -> Result<(), AllocError>
    ensures { OnOk result (text.new.items ≡ text.old.items ++ flat_map (λ r. codes ", " ++ range_text r) ranges.now) }
{
    for range in ranges {
        push_bytes(text, b", ")?;
        push_range(alloc, text, range)?;
    }
    Ok(())
}

/// Appends all ranges of values that select an answer to `text`, with commas between them.
pub fn push_ranges(alloc: Global, text: &mut Vec<u8>, ranges: &[Range]) -> Result<(), AllocError>
    ensures { OnOk result (text.new.items ≡ text.old.items ++ ranges_text ranges.now) }
{
    match ranges.split_first() {
        Some((first, others)) => {
            push_range(alloc, text, first)?;
            push_more_ranges(alloc, text, others)
        }
        None => Ok(()),
    }
}
