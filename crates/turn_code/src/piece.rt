//! The code that is run, borrowed.
ghost use Rattle.std.specs.Prelude.{◌≡◌};
ghost use Rattle.turn_code.specs.Meant.{IsEffectOf};
ghost use Rattle.turn_code.specs.Pieces.{IsOfTransition};
ghost use Rattle.turn_code.specs.Sorts.{IsOfSorts, HasReceiver};
ghost use Rattle.turn_code.specs.declared.effect.Effect.{Effect as AnyEffect};

use crate::after::BareEffect;
use crate::effect::Effect;
use crate::input::Address;
use crate::instruction::Instruction;
use crate::sorts::Sorts;
use std::marker::Model;

/// The borrowed code of a valid transition, with its sender and the sorts, which words don't carry.
#[derive(Drop)]
pub struct Piece<'a> {
    /// Its instructions.
    code: &'a [Instruction],
    /// The sender of the signal that began the transition, if known.
    sender: Option<Address>,
    /// The sorts of signals' parameters and of the process's variables. No step reads them: they turn words back into
    /// values.
    sorts: &'a Sorts,
}

impl<'a> Model for Piece<'a> {
    ghost use Rattle.turn_code.specs.Pieces.{PlainPiece, IsOfTransition};

    ghost Value = { PlainPiece };

    ghost view = { λ p. record { code = p.code.now; sender = p.sender; sorts = p.sorts.now } };

    ghost invariant = { λ p. IsOfTransition (record { code = p.code.now; sender = p.sender; sorts = p.sorts.now }) };
}

impl<'a> Piece<'a> {
    /// The code of a valid transition, with its own sorts. A route brings its signal from this sender.
    pub fn new(code: &'a [Instruction], sender: Option<Address>, sorts: &'a Sorts) -> Piece<'a>
        requires { IsOfTransition (record { code = code.now; sender = sender; sorts = sorts.now }) }
        ensures { result ≡ record { code = code.now; sender = sender; sorts = sorts.now } }
    {
        Piece {
            code,
            sender,
            sorts,
        }
    }

    /// Its instructions: those of a valid transition of some set.
    pub fn code(&self) -> &'a [Instruction]
        ensures value { result.now ≡ self.now.code }
        ensures valid { IsOfTransition self.now }
    {
        self.code
    }

    /// The effect that `given` represents: with the sorts of its signal, to the receiver that the instruction names or
    /// to the sender. Each effect of a valid transition has those sorts (turn_code's proofs/RightEffects: adds).
    pub fn effect(&self, given: BareEffect) -> Effect
        requires { HasReceiver given self.now.sender }
        ensures { (e : AnyEffect) → IsEffectOf self.now.sender given e → IsOfSorts self.now.sorts e → result ≡ e }
    {
        self.sorts.effect(given, self.sender)
    }
}
