//! The loop over the instructions of a piece.

ghost use Rattle.std.specs.Prelude.{◌≡◌, List};
ghost use Rattle.turn_code.specs.declared.effect.Effect.{Effect as AnyEffect};
ghost use Rattle.turn_machine.specs.Growing.{CanGrow, IsGrown};
ghost use Rattle.turn_machine.specs.Safety.{IsUnderWay, HasEnded};

use arrayvec::ArrayVec;
use turn_code::{BareEffect, Cert, Effect, End, Input, Machine, Next, Piece, Words, step_bare};

/// Runs a piece with these counts to its end, on the words of an input. The machine has no effects yet; it gets those
/// of the run and the number of instructions taken. (Only the contract uses `input`.)
pub(crate) fn execute(
    piece: &Piece<'_>,
    input: &Input,
    certificate: Cert,
    words: &mut Words,
    machine: &mut Machine,
) -> End
    requires { IsUnderWay piece.now input.now certificate 0 0 words.old machine.old.effects.items }
    ensures { HasEnded piece.now input.now certificate result words.new machine.new.effects.items machine.new.count }
{
    let _ = input;
    let mut place = 0;
    for taken in 0..certificate.budget {
        let after = step_bare(piece, place, words);
        give(&mut machine.effects, after.effect, piece);
        match after.next {
            Next::Goes(next) => place = next,
            Next::Ends(end) => {
                machine.count = taken + 1;
                return end;
            }
        }
    }
    unreachable!()
}

/// Adds the effect, if there is one.
fn give(effects: &mut ArrayVec<Effect, 32>, given: Option<BareEffect>, piece: &Piece<'_>)
    requires { CanGrow piece.now given effects.old.items }
    ensures { (es : List AnyEffect) → IsGrown piece.now given effects.old.items es → effects.new.items ≡ es }
{
    match given {
        Some(given) => {
            let effect = piece.effect(given);
            effects.push(effect);
        }
        None => {}
    }
}
