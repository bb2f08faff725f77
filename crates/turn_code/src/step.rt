//! One instruction of a piece.
ghost use Rattle.turn_code.specs.Pieces.{CanStep};
ghost use Rattle.turn_code.specs.Steps.{IsStep};

use crate::after::BareAfter;
use crate::piece::Piece;
use crate::words::Words;

/// Runs the instruction at a place of a piece on words. The words have the operands that it takes, and room for one
/// that it adds. It agrees with the step on all values that fit the facts of the place and that the words represent.
pub fn step_bare(piece: &Piece<'_>, place: usize, words: &mut Words) -> BareAfter
    requires { CanStep piece.now place words.old }
    ensures { IsStep piece.now place words.old result words.new }
{
    let code = piece.code();
    words.act(code[place], place + 1)
}
