//! Small functions that several crates above use.
ghost use Rattle.std.specs.Prelude.{◌≡◌, ◌&&◌, ◌||◌};
ghost use Rattle.sdl_sound.specs.Longest.{is_division};

use sdl_tables::BinaryOperator;

/// Whether the right operand is part of the instruction.
pub fn is_division(operator: BinaryOperator) -> bool
    ensures { result ≡ is_division operator }
{
    matches!(
        operator,
        BinaryOperator::Divide | BinaryOperator::Modulo | BinaryOperator::Remainder
    )
}

/// Whether a walk can continue past two statements: it must be able to past both.
pub fn both(one: bool, other: bool) -> bool
    ensures { result ≡ (one && other) }
{
    one && other
}

/// Whether a walk can continue past a DECISION: it must be able to past one of the bodies.
pub fn one_of(one: bool, other: bool) -> bool
    ensures { result ≡ (one || other) }
{
    one || other
}
