//! Whether earlier answers of a DECISION match each value of one.
ghost use Rattle.std.specs.Prelude.{◌≡◌, true, IfSome, IsNone};
ghost use Rattle.std.specs.List.{list_any, list_all};
ghost use Rattle.sdl_ast.specs.declared.tree.Literal.TheVariants as literal;
ghost use Rattle.sdl_warnings.specs.Values.{compares, stands, is_truth_value, has_value, is_left, none_from, LEAST, INTEGERS, is_spent};
ghost use Rattle.sdl_warnings.specs.Bounds.{none_at, none_at_range, IsLeft};

use sdl_ast::{Constant, Literal, Range, Relation};

/// Whether two Integers have this relation.
fn compares(relation: Relation, value: i32, other: i32) -> bool
    ensures { result ≡ compares relation value other }
{
    match relation {
        Relation::Equal => value == other,
        Relation::NotEqual => value != other,
        Relation::Less => value < other,
        Relation::LessEqual => value <= other,
        Relation::Greater => value > other,
        Relation::GreaterEqual => value >= other,
    }
}

/// Whether an Integer has this relation to a constant; never to a truth value.
fn stands(relation: Relation, value: i32, constant: Literal) -> bool
    ensures { result ≡ stands relation value constant }
{
    match constant {
        Literal::Integer(other) => compares(relation, value, other),
        Literal::Boolean(_) => false,
    }
}

/// Whether a range matches an Integer.
fn has_integer(range: Range, value: i32) -> bool
    ensures { result ≡ has_value (literal.Integer value) range }
{
    match range {
        Range::Value(constant) => stands(Relation::Equal, value, constant.value),
        Range::Compared {
            relation,
            constant,
            ..
        } => stands(relation, value, constant.value),
        Range::Between(low, high) => {
            stands(Relation::GreaterEqual, value, low.value)
                && stands(Relation::LessEqual, value, high.value)
        }
    }
}

/// Whether a constant is this truth value.
fn is_truth_value(truth: bool, constant: Literal) -> bool
    ensures { result ≡ is_truth_value truth constant }
{
    match constant {
        Literal::Integer(_) => false,
        Literal::Boolean(own) => { if truth { own } else { !own } }
    }
}

/// Whether a range matches a truth value.
fn has_truth(range: Range, truth: bool) -> bool
    ensures { result ≡ has_value (literal.Boolean truth) range }
{
    match range {
        Range::Value(constant) => is_truth_value(truth, constant.value),
        Range::Compared { .. } => false,
        Range::Between(_, _) => false,
    }
}

/// Whether a range matches a value.
fn has_value(range: Range, value: Literal) -> bool
    ensures { result ≡ has_value value range }
{
    match value {
        Literal::Integer(value) => has_integer(range, value),
        Literal::Boolean(truth) => has_truth(range, truth),
    }
}

/// Whether one of these ranges matches a value.
fn have_value(ranges: &[Range], value: Literal) -> bool
    ensures { result ≡ list_any (has_value value) ranges.now }
{
    for range in ranges {
        if has_value(*range, value) {
            return true;
        }
    }
    false
}

/// Whether an answer matches a value that no earlier one matches.
fn is_left(earlier: &[Range], own: &[Range], value: Literal) -> bool
    ensures { result ≡ is_left earlier.now own.now value }
{
    have_value(own, value) && !have_value(earlier, value)
}

/// A value that is left, at the bound of a range or one above it.
fn left_at(earlier: &[Range], own: &[Range], constant: Constant) -> Option<i32>
    ensures some { IfSome result (IsLeft earlier.now own.now) }
    ensures none { IsNone result → none_at (is_left earlier.now own.now) constant.value ≡ true }
{
    match constant.value {
        Literal::Boolean(_) => None,
        Literal::Integer(value) => left_from(earlier, own, value),
    }
}

/// This value or the next one, if one of them is left.
fn left_from(earlier: &[Range], own: &[Range], value: i32) -> Option<i32>
    ensures some { IfSome result (IsLeft earlier.now own.now) }
    ensures none { IsNone result → none_at (is_left earlier.now own.now) (literal.Integer value) ≡ true }
{
    if is_left(earlier, own, Literal::Integer(value)) {
        return Some(value);
    }
    if value == i32::MAX {
        return None;
    }
    let next = value + 1;
    if is_left(earlier, own, Literal::Integer(next)) {
        Some(next)
    } else {
        None
    }
}

/// A value that is left, at a bound of a range or one above it.
fn left_at_range(earlier: &[Range], own: &[Range], range: Range) -> Option<i32>
    ensures some { IfSome result (IsLeft earlier.now own.now) }
    ensures none { IsNone result → none_at_range (is_left earlier.now own.now) range ≡ true }
{
    match range {
        Range::Value(constant) => left_at(earlier, own, constant),
        Range::Compared { constant, .. } => left_at(earlier, own, constant),
        Range::Between(low, high) => match left_at(earlier, own, low) {
            Some(value) => Some(value),
            None => left_at(earlier, own, high),
        },
    }
}

/// A value that is left, at a bound of one of these ranges or one above it.
fn left_at_ranges(earlier: &[Range], own: &[Range], ranges: &[Range]) -> Option<i32>
    ensures some { IfSome result (IsLeft earlier.now own.now) }
    ensures none { IsNone result → list_all (none_at_range (is_left earlier.now own.now)) ranges.now ≡ true }
{
    for range in ranges {
        if let Some(value) = left_at_range(earlier, own, *range) {
            return Some(value);
        }
    }
    None
}

/// An Integer that an answer matches and no earlier one. If there is one, there is one at a bound of a range, or one
/// above it, or the least Integer.
fn left_integer(earlier: &[Range], own: &[Range]) -> Option<i32>
    ensures some { IfSome result (IsLeft earlier.now own.now) }
    ensures none { IsNone result → none_from (λ x. is_left earlier.now own.now (literal.Integer x)) LEAST INTEGERS ≡ true }
{
    if is_left(earlier, own, Literal::Integer(i32::MIN)) {
        return Some(i32::MIN);
    }
    match left_at_ranges(earlier, own, own) {
        Some(value) => Some(value),
        None => left_at_ranges(earlier, own, earlier),
    }
}

/// Whether earlier answers match each value of an answer.
pub(crate) fn is_spent(earlier: &[Range], own: &[Range]) -> bool
    ensures { result ≡ is_spent earlier.now own.now }
{
    if is_left(earlier, own, Literal::Boolean(true)) {
        return false;
    }
    if is_left(earlier, own, Literal::Boolean(false)) {
        return false;
    }
    match left_integer(earlier, own) {
        Some(_) => false,
        None => true,
    }
}
