//! Values, instructions and pieces of code; drafts of sets; what one instruction does, on values with their
//! sorts and on words of 32 bits without them.
#![tactic(auto)]

mod acting;
mod after;
mod copy;
mod division;
mod draft;
mod effect;
mod input;
mod instruction;
pub mod laws;
mod machine;
mod name;
mod numbers;
mod operands;
mod operation;
mod piece;
mod rule;
mod same;
mod sequence;
mod sorts;
mod step;
mod trouble;
mod value;
mod variable_set;
mod words;

pub use after::{BareAfter, BareEffect, Next};
pub use division::Division;
pub use draft::{
    Cert, Draft, DraftInput, DraftPiece, DraftProcess, DraftRoute, DraftSignal, DraftState,
    DraftVariable, PlaceFacts, Trigger,
};
pub use effect::{Effect, Sending};
pub use input::{Address, Input, Party, Place, copied_values, copied_variables};
pub use instruction::{Instruction, Receiver, Relation};
pub use machine::{After, End, Machine, step_plain};
pub use name::Name;
pub use numbers::{
    CodePlace, InstanceNumber, ProcessNumber, SignalNumber, StateNumber, TimerNumber,
    VariableNumber,
};
pub use operands::Operands;
pub use operation::{Connective, Operation, negated};
pub use piece::Piece;
pub use rule::Rule;
pub use same::{same_values, same_variables};
pub use sequence::Sequence;
pub use sorts::{Sorts, parameter_bits, value_of, variable_bits};
pub use step::step_bare;
pub use trouble::Trouble;
pub use value::{Sort, Value};
pub use variable_set::{VariableSet, set_at_start};
pub use words::Words;
