//! The instructions.

use crate::input::{Address, Party};
use crate::numbers::{CodePlace, SignalNumber, StateNumber, TimerNumber, VariableNumber};

/// How two Integers are compared.
#[derive(Clone, Copy, PartialEq, Eq, Debug)]
pub enum Relation {
    Equal,
    NotEqual,
    Less,
    LessEqual,
    Greater,
    GreaterEqual,
}

/// The receiver of a signal.
#[derive(Clone, Copy, PartialEq, Eq, Debug)]
pub enum Receiver {
    /// This party.
    Party(Party),
    /// The sender of the signal that began the transition.
    Sender,
}

/// One instruction of a piece. It takes its operands from the top of a list, and puts its value back there.
#[derive(Clone, Copy, PartialEq, Eq)]
pub enum Instruction {
    /// Puts this Integer.
    Int(i32),
    /// Puts this Boolean.
    Bool(bool),
    /// Puts the value of a variable.
    Load(VariableNumber),
    /// Takes a value and stores it in the variable.
    Store(VariableNumber),
    /// Puts the value of a parameter of the input, counted from 0.
    Param(u8),
    /// The sum of two Integers.
    Add,
    /// The difference of two Integers: the topmost is subtracted from the other.
    Sub,
    /// The product of two Integers.
    Mul,
    /// The quotient of an Integer by this number of 1 or more, cut towards zero.
    Div(i32),
    /// The remainder of an Integer by this number k of 1 or more, from 0 to k - 1.
    Mod(i32),
    /// The remainder of an Integer by this number of 1 or more, with the dividend's sign.
    Rem(i32),
    /// The negation of an Integer.
    Neg,
    /// The negation of a Boolean.
    Not,
    /// Whether both of two Booleans are TRUE.
    And,
    /// Whether at least one of two Booleans is TRUE.
    Or,
    /// Whether two Booleans differ.
    Xor,
    /// Whether two Booleans are equal.
    Same,
    /// Whether two Integers are in this relation, the topmost on the right.
    Compare(Relation),
    /// If the topmost Integer is in this relation to the number, takes it and goes on at the place. Otherwise leaves it
    /// and goes on with the next instruction.
    Case(Relation, i32, CodePlace),
    /// As `Case`, if the Integer is from the first number to the second, both included. The place comes first so that
    /// an instruction has 12 octets.
    CaseWithin(CodePlace, i32, i32),
    /// Takes a Boolean, and goes on at the first place if it is FALSE, at the second if it is TRUE.
    Pick(CodePlace, CodePlace),
    /// Takes an Integer and discards it.
    Drop,
    /// Goes on at the place.
    Jump(CodePlace),
    /// Takes this many parameters, the last one topmost, and sends the signal with them to the receiver.
    Output(SignalNumber, Receiver, u8),
    /// Takes an Integer, and sets the timer to the clock plus this many ticks.
    Set(TimerNumber),
    /// Stops the timer.
    Reset(TimerNumber),
    /// Ends the transition in this state.
    Next(StateNumber),
    /// Ends the transition and the process.
    Stop,
}

impl Receiver {
    ghost use Rattle.std.specs.Prelude.{◌≡◌};
    ghost use Rattle.turn_code.specs.Run.{address_of};

    /// The address of the party, without an instance, or that of the sender, which may be none.
    pub fn address(self, sender: Option<Address>) -> Option<Address>
        ensures { result ≡ address_of self sender }
    {
        match self {
            Receiver::Party(party) => Some(Address {
                party,
                instance: None,
            }),
            Receiver::Sender => sender,
        }
    }
}

impl Default for Instruction {
    ghost use Rattle.std.specs.Prelude.{◌≡◌, pos};
    ghost use Rattle.turn_code.specs.declared.instruction.Instruction.TheVariants.{Int};

    ghost is_default = { λ instruction. instruction ≡ Int (pos 0) };

    fn default() -> Self {
        Instruction::Int(0)
    }
}

// A piece is copied with each job, so an instruction must stay small.
const _: () = prove!(size_of::<Instruction>() <= 12);
