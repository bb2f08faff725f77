//! Comparison of work with a turn or with a piece.

ghost use Rattle.std.specs.Prelude.{◌≡◌, ◌↔◌, IsTrue};

use crate::work::Work;
use turn_code::{Cert, DraftPiece, Input, Instruction, Place, ProcessNumber};

/// Whether the counts are equal.
fn same_certificate(left: Cert, right: Cert) -> bool
    ensures { IsTrue result ↔ (left ≡ right) }
{
    left.budget == right.budget && left.depth == right.depth && left.effects == right.effects
}

/// Whether both are START, or the same state.
fn same_place(left: Place, right: Place) -> bool
    ensures { IsTrue result ↔ (left ≡ right) }
{
    match left {
        Place::Start => match right {
            Place::Start => true,
            Place::State(_) => false,
        },
        Place::State(left) => match right {
            Place::Start => false,
            Place::State(right) => left.0 == right.0,
        },
    }
}

/// Whether two pieces of code are equal.
fn same_code(left: &[Instruction], right: &[Instruction]) -> bool
    ensures { IsTrue result ↔ (left.now ≡ right.now) }
{
    left == right
}

/// Whether the work is this turn of the actor, at this place and input number, on this input. It allocates no memory.
pub fn is_turn(
    work: &Work,
    actor: u16,
    turn: u64,
    place: Place,
    input_number: usize,
    input: &Input,
) -> bool
    ensures { IsTrue result ↔ ((work.now.actor ≡ actor) × (work.now.turn ≡ turn) × (work.now.place ≡ place) × (work.now.input_number ≡ input_number) × (work.now.input ≡ input.now)) }
{
    work.actor() == actor
        && work.turn() == turn
        && same_place(work.place(), place)
        && work.input_number() == input_number
        && work.input().same(input)
}

/// Whether the work is this piece of this process, with equal code and counts. It allocates no memory.
pub fn runs_piece(work: &Work, process: ProcessNumber, piece: &DraftPiece) -> bool
    ensures { IsTrue result ↔ ((work.now.process ≡ process) × (work.now.code ≡ piece.now.code) × (work.now.certificate ≡ piece.now.certificate)) }
{
    work.process().0 == process.0
        && same_certificate(work.certificate(), piece.certificate)
        && same_code(work.code(), piece.code.as_slice())
}
