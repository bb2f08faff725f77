//! Applies operators to expressions while they are read.
ghost use Rattle.std.specs.Prelude.{◌≡◌, ◌≤◌, ◌+◌, IfOk};
ghost use Rattle.sdl_ast.specs.Plain.{number, truth, variable};
ghost use Rattle.sdl_ast.specs.Places.{place_of, placed};
ghost use Rattle.sdl_productions.specs.Machine.{low_unary, low_binary, low_trees, led_by, joined_to};
ghost use Rattle.sdl_productions.specs.Parts.{slot_view};
ghost use Rattle.sdl_ast.specs.Views.{tree_of};

use crate::part::Part;
use sdl_ast::{BinaryOperator, Expression, Identifier, MAX_HEIGHT, UnaryOperator};
use std::alloc::{AllocError, Global};

/// A number.
pub(crate) fn number_part(alloc: Global, at: u32, value: u32) -> Result<Part, AllocError>
    ensures { IfOk result (λ p. tree_of p.tree.value ≡ number at value) }
{
    Ok(Part {
        tree: Box::new(alloc, Expression::Number { at, value })?,
        height: 1,
    })
}

/// TRUE or FALSE.
pub(crate) fn truth_part(alloc: Global, at: u32, value: bool) -> Result<Part, AllocError>
    ensures { IfOk result (λ p. tree_of p.tree.value ≡ truth at value) }
{
    Ok(Part {
        tree: Box::new(alloc, Expression::Truth { at, value })?,
        height: 1,
    })
}

/// A variable.
pub(crate) fn variable_part(alloc: Global, at: u32, name: Identifier) -> Result<Part, AllocError>
    ensures { IfOk result (λ p. tree_of p.tree.value ≡ variable at name) }
{
    Ok(Part {
        tree: Box::new(alloc, Expression::Variable { at, name })?,
        height: 1,
    })
}

/// The place of an expression.
fn place(tree: &Expression) -> u32
    ensures { result ≡ place_of (tree_of tree.now) }
{
    match tree {
        Expression::Number { at, .. } => *at,
        Expression::Truth { at, .. } => *at,
        Expression::Variable { at, .. } => *at,
        Expression::Unary { at, .. } => *at,
        Expression::Binary { at, .. } => *at,
    }
}

/// The expression, with this place instead of its own.
fn moved_tree(tree: Expression, at: u32) -> Expression
    ensures { tree_of result ≡ placed at (tree_of tree) }
{
    match tree {
        Expression::Number { at: _, value } => Expression::Number { at, value },
        Expression::Truth { at: _, value } => Expression::Truth { at, value },
        Expression::Variable { at: _, name } => Expression::Variable { at, name },
        Expression::Unary {
            at: _,
            operator,
            operand,
        } => Expression::Unary {
            at,
            operator,
            operand,
        },
        Expression::Binary {
            at: _,
            operator,
            left,
            right,
        } => Expression::Binary {
            at,
            operator,
            left,
            right,
        },
    }
}

/// The part with another place, such as that of an opening parenthesis.
pub(crate) fn moved(alloc: Global, part: Part, at: u32) -> Result<Part, AllocError>
    ensures { IfOk result (λ p. tree_of p.tree.value ≡ placed at (tree_of part.tree.value)) }
{
    let Part { tree, height } = part;
    let tree = moved_tree(Box::into_inner(tree), at);
    Ok(Part {
        tree: Box::new(alloc, tree)?,
        height,
    })
}

/// Applies a unary operator to an operand. An operand that is already too high is only moved to the operator's place.
pub(crate) fn led(
    alloc: Global,
    at: u32,
    operator: UnaryOperator,
    operand: Part,
) -> Result<Part, AllocError>
    ensures { IfOk result (λ p. tree_of p.tree.value ≡ low_trees.lead at operator (tree_of operand.tree.value)) }
{
    if operand.height > MAX_HEIGHT {
        return moved(alloc, operand, at);
    }
    let height = operand.height + 1;
    let tree = Expression::Unary {
        at,
        operator,
        operand: operand.tree,
    };
    Ok(Part {
        tree: Box::new(alloc, tree)?,
        height,
    })
}

/// Applies a binary operator to two operands, or returns an operand that is already too high.
pub(crate) fn joined(
    alloc: Global,
    operator: BinaryOperator,
    left: Part,
    right: Part,
) -> Result<Part, AllocError>
    ensures { IfOk result (λ p. tree_of p.tree.value ≡ low_trees.join operator (tree_of left.tree.value) (tree_of right.tree.value)) }
{
    let at = place(&left.tree);
    if left.height > MAX_HEIGHT {
        return moved(alloc, left, at);
    }
    if right.height > MAX_HEIGHT {
        return moved(alloc, right, at);
    }
    let height = left.height.max(right.height) + 1;
    let tree = Expression::Binary {
        at,
        operator,
        left: left.tree,
        right: right.tree,
    };
    Ok(Part {
        tree: Box::new(alloc, tree)?,
        height,
    })
}

/// Applies the unary operator before an operand, if there is one.
pub(crate) fn led_by(
    alloc: Global,
    lead: Option<(u32, UnaryOperator)>,
    operand: Part,
) -> Result<Part, AllocError>
    ensures { IfOk result (λ p. tree_of p.tree.value ≡ led_by low_trees lead (tree_of operand.tree.value)) }
{
    match lead {
        Some((at, operator)) => led(alloc, at, operator, operand),
        None => Ok(operand),
    }
}

/// Joins an operand to the left operand before it, if there is one.
pub(crate) fn joined_to(
    alloc: Global,
    before: Option<(Part, BinaryOperator)>,
    operand: Part,
) -> Result<Part, AllocError>
    ensures { IfOk result (λ p. tree_of p.tree.value ≡ joined_to low_trees (slot_view before) (tree_of operand.tree.value)) }
{
    match before {
        Some((left, operator)) => joined(alloc, operator, left, operand),
        None => Ok(operand),
    }
}
