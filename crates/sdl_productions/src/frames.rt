//! The operands and operators before an operand, one slot per precedence level, and how they combine with it.
ghost use Rattle.std.specs.Prelude.{◌≡◌, IfOk};
ghost use Rattle.sdl_productions.specs.Machine.{led_by, joined_to, no_terms, empty_frame, low_trees, closed_terms, closed_tests, closed, with_product, with_sum, with_relation, with_conjunction, with_disjunction, with_operator, bars};
ghost use Rattle.sdl_productions.specs.Parts.{slot_view};
ghost use Rattle.sdl_productions.specs.Stacks.{terms_view, tests_view, frame_view};
ghost use Rattle.sdl_ast.specs.Views.{tree_of};

use crate::level::Level;
use crate::operators::{joined_to, led_by};
use crate::part::Part;
use sdl_ast::{BinaryOperator, UnaryOperator};
use std::alloc::{AllocError, Global};

/// The slots before an operand inside a sum. Each level keeps its left operand with the operator after it; `lead`
/// keeps the unary operator and its place.
#[derive(Drop)]
pub(crate) struct Terms {
    pub(crate) sum: Option<(Part, BinaryOperator)>,
    pub(crate) product: Option<(Part, BinaryOperator)>,
    pub(crate) lead: Option<(u32, UnaryOperator)>,
}

/// The slots before a sum, in the same form.
#[derive(Drop)]
pub(crate) struct Tests {
    pub(crate) disjunction: Option<(Part, BinaryOperator)>,
    pub(crate) conjunction: Option<(Part, BinaryOperator)>,
    pub(crate) relation: Option<(Part, BinaryOperator)>,
}

/// Both, inside one pair of parentheses. `opened` is the place of the opening parenthesis.
#[derive(Drop)]
pub(crate) struct Frame {
    pub(crate) opened: u32,
    pub(crate) tests: Tests,
    pub(crate) terms: Terms,
}

/// Empty slots of a sum.
pub(crate) fn no_terms() -> Terms
    ensures { terms_view result ≡ no_terms }
{
    Terms {
        sum: None,
        product: None,
        lead: None,
    }
}

/// Empty slots after the parenthesis at this place.
pub(crate) fn empty_frame(opened: u32) -> Frame
    ensures { frame_view result ≡ empty_frame opened }
{
    Frame {
        opened,
        tests: Tests {
            disjunction: None,
            conjunction: None,
            relation: None,
        },
        terms: no_terms(),
    }
}

/// Combines the slots inside a product with the operand after them.
fn close_product(
    alloc: Global,
    product: Option<(Part, BinaryOperator)>,
    lead: Option<(u32, UnaryOperator)>,
    operand: Part,
) -> Result<Part, AllocError>
    ensures { IfOk result (λ p. tree_of p.tree.value ≡ joined_to low_trees (slot_view product) (led_by low_trees lead (tree_of operand.tree.value))) }
{
    let factor = led_by(alloc, lead, operand)?;
    joined_to(alloc, product, factor)
}

/// Combines the slots inside a sum with the operand after them.
fn close_terms(alloc: Global, terms: Terms, operand: Part) -> Result<Part, AllocError>
    ensures { IfOk result (λ p. tree_of p.tree.value ≡ closed_terms low_trees (terms_view terms) (tree_of operand.tree.value)) }
{
    let Terms { sum, product, lead } = terms;
    let last = close_product(alloc, product, lead, operand)?;
    joined_to(alloc, sum, last)
}

/// Combines the slots before a sum with that sum.
fn close_tests(alloc: Global, tests: Tests, last: Part) -> Result<Part, AllocError>
    ensures { IfOk result (λ p. tree_of p.tree.value ≡ closed_tests low_trees (tests_view tests) (tree_of last.tree.value)) }
{
    let Tests {
        disjunction,
        conjunction,
        relation,
    } = tests;
    let last = joined_to(alloc, relation, last)?;
    let last = joined_to(alloc, conjunction, last)?;
    joined_to(alloc, disjunction, last)
}

/// Combines all slots of a frame with the operand after them.
pub(crate) fn close_frame(alloc: Global, frame: Frame, operand: Part) -> Result<Part, AllocError>
    ensures { IfOk result (λ p. tree_of p.tree.value ≡ closed low_trees (frame_view frame) (tree_of operand.tree.value)) }
{
    let Frame {
        opened: _,
        tests,
        terms,
    } = frame;
    let last = close_terms(alloc, terms, operand)?;
    close_tests(alloc, tests, last)
}

/// Adds an operator of a product after an operand.
fn with_product(
    alloc: Global,
    operator: BinaryOperator,
    terms: Terms,
    operand: Part,
) -> Result<Terms, AllocError>
    ensures { IfOk result (λ t. terms_view t ≡ with_product low_trees operator (terms_view terms) (tree_of operand.tree.value)) }
{
    let Terms { sum, product, lead } = terms;
    let last = close_product(alloc, product, lead, operand)?;
    Ok(Terms {
        sum,
        product: Some((last, operator)),
        lead: None,
    })
}

/// Adds an operator of a sum after an operand.
fn with_sum(
    alloc: Global,
    operator: BinaryOperator,
    terms: Terms,
    operand: Part,
) -> Result<Terms, AllocError>
    ensures { IfOk result (λ t. terms_view t ≡ with_sum low_trees operator (terms_view terms) (tree_of operand.tree.value)) }
{
    let last = close_terms(alloc, terms, operand)?;
    Ok(Terms {
        sum: Some((last, operator)),
        product: None,
        lead: None,
    })
}

/// Adds a relation operator after a sum.
fn with_relation(
    alloc: Global,
    operator: BinaryOperator,
    tests: Tests,
    last: Part,
) -> Result<Tests, AllocError>
    ensures { IfOk result (λ k. tests_view k ≡ with_relation low_trees operator (tests_view tests) (tree_of last.tree.value)) }
{
    let Tests {
        disjunction,
        conjunction,
        relation,
    } = tests;
    let last = joined_to(alloc, relation, last)?;
    Ok(Tests {
        disjunction,
        conjunction,
        relation: Some((last, operator)),
    })
}

/// Adds AND after a relation.
fn with_conjunction(
    alloc: Global,
    operator: BinaryOperator,
    tests: Tests,
    last: Part,
) -> Result<Tests, AllocError>
    ensures { IfOk result (λ k. tests_view k ≡ with_conjunction low_trees operator (tests_view tests) (tree_of last.tree.value)) }
{
    let Tests {
        disjunction,
        conjunction,
        relation,
    } = tests;
    let last = joined_to(alloc, relation, last)?;
    let last = joined_to(alloc, conjunction, last)?;
    Ok(Tests {
        disjunction,
        conjunction: Some((last, operator)),
        relation: None,
    })
}

/// Adds OR or XOR after a conjunction.
fn with_disjunction(
    alloc: Global,
    operator: BinaryOperator,
    tests: Tests,
    last: Part,
) -> Result<Tests, AllocError>
    ensures { IfOk result (λ k. tests_view k ≡ with_disjunction low_trees operator (tests_view tests) (tree_of last.tree.value)) }
{
    let last = close_tests(alloc, tests, last)?;
    Ok(Tests {
        disjunction: Some((last, operator)),
        conjunction: None,
        relation: None,
    })
}

/// Adds a binary operator after an operand: tighter levels are combined, looser levels wait.
pub(crate) fn with_operator(
    alloc: Global,
    level: Level,
    operator: BinaryOperator,
    frame: Frame,
    operand: Part,
) -> Result<Frame, AllocError>
    ensures { IfOk result (λ f. frame_view f ≡ with_operator low_trees level operator (frame_view frame) (tree_of operand.tree.value)) }
{
    let Frame {
        opened,
        tests,
        terms,
    } = frame;
    let (tests, terms) = match level {
        Level::Products => (tests, with_product(alloc, operator, terms, operand)?),
        Level::Sums => (tests, with_sum(alloc, operator, terms, operand)?),
        Level::Relations => {
            let last = close_terms(alloc, terms, operand)?;
            (with_relation(alloc, operator, tests, last)?, no_terms())
        }
        Level::Conjunctions => {
            let last = close_terms(alloc, terms, operand)?;
            (with_conjunction(alloc, operator, tests, last)?, no_terms())
        }
        Level::Disjunctions => {
            let last = close_terms(alloc, terms, operand)?;
            (with_disjunction(alloc, operator, tests, last)?, no_terms())
        }
    };
    Ok(Frame {
        opened,
        tests,
        terms,
    })
}

/// Whether an operator of this level is illegal here: a relation can't be an operand of another relation.
pub(crate) fn bars(level: Level, frame: &Frame) -> bool
    ensures { result ≡ bars level (frame_view frame.now) }
{
    match level {
        Level::Relations => frame.tests.relation.is_some(),
        _ => false,
    }
}
