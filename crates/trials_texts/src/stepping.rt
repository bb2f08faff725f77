//! One step on words.

ghost use Rattle.turn_code.specs.Fits.{Fits};

use crate::standing::hold_at;
use crate::wording::words_with;
use arrayvec::ArrayVec;
use turn_check::Verified;
use turn_code::{BareAfter, Input, Piece, Place, ProcessNumber, Value, Words, step_bare};

/// The result of a step on words, and the words after it.
#[derive(Clone, Copy)]
pub struct Stepped {
    pub after: BareAfter,
    pub words: Words,
}

/// A step on words at a place of a transition's code. `None` if the operands, topmost first, aren't allowed there.
pub fn step_words(
    set: &Verified,
    process: ProcessNumber,
    from: Place,
    number: usize,
    place: usize,
    operands: &ArrayVec<Value, 16>,
    input: &Input,
) -> Option<Stepped>
    requires { Fits set.now process.0 from number input.now }
{
    let _ = set.draft();
    let values = operands.as_slice();
    match set.transition(process, from, number) {
        Some(transition) => {
            if !hold_at(transition.piece, place, values, input.variables.as_slice()) {
                return None;
            }
            let sorts = set.sorts(process);
            let _few = input.parameters.as_slice();
            let piece = Piece::new(transition.piece.code.as_slice(), input.sender, &sorts);
            let mut words = words_with(input, values);
            let after = step_bare(&piece, place, &mut words);
            Some(Stepped { after, words })
        }
        None => None,
    }
}
