//! A set of processes in code that is not checked yet.

use crate::input::Party;
use crate::instruction::Instruction;
use crate::name::Name;
use crate::numbers::{SignalNumber, TimerNumber};
use crate::sequence::Sequence;
use crate::value::{Sort, Value};
use crate::variable_set::VariableSet;

/// A set of processes with their code, and the facts and counts claimed of that code.
#[derive(Drop)]
pub struct Draft {
    /// The signals in text order.
    pub signals: Sequence<DraftSignal>,
    /// One for each path of a SIGNALROUTE, in text order.
    pub routes: Sequence<DraftRoute>,
    /// The processes in text order.
    pub processes: Sequence<DraftProcess>,
}

/// A signal.
#[derive(Drop)]
pub struct DraftSignal {
    /// Its name.
    pub name: Name,
    /// The sorts of its parameters.
    pub parameters: Sequence<Sort>,
}

/// One path of a route.
#[derive(Drop)]
pub struct DraftRoute {
    /// The sender.
    pub from: Party,
    /// The receiver.
    pub to: Party,
    /// The signals that it carries.
    pub signals: Sequence<SignalNumber>,
}

/// A process.
#[derive(Drop)]
pub struct DraftProcess {
    /// Its name.
    pub name: Name,
    /// The number of instances that run, 1 to 8.
    pub instances: u32,
    /// Its variables in text order.
    pub variables: Sequence<DraftVariable>,
    /// The names of its timers in text order.
    pub timers: Sequence<Name>,
    /// The code of its START transition.
    pub start: DraftPiece,
    /// Its states, in the order of their first STATE.
    pub states: Sequence<DraftState>,
}

/// A variable.
#[derive(Drop)]
pub struct DraftVariable {
    /// Its name.
    pub name: Name,
    /// Its sort.
    pub sort: Sort,
    /// Its value as the process begins, if the declaration has one.
    pub initial: Option<Value>,
}

/// A state.
#[derive(Drop)]
pub struct DraftState {
    /// Its name.
    pub name: Name,
    /// Variables that are set whenever the process is in this state.
    pub set: VariableSet,
    /// The signals and timers that the state saves, in text order.
    pub saves: Sequence<Trigger>,
    /// Its inputs in text order.
    pub inputs: Sequence<DraftInput>,
}

/// The signal or timer that an input of a state waits for.
#[derive(Clone, Copy, PartialEq, Eq, Debug)]
pub enum Trigger {
    /// A signal.
    Signal(SignalNumber),
    /// A timer of the process.
    Timer(TimerNumber),
}

/// An input of a state, with its transition.
#[derive(Drop)]
pub struct DraftInput {
    /// The signal or timer that it waits for.
    pub trigger: Trigger,
    /// The code of its transition.
    pub piece: DraftPiece,
}

/// The code of a transition, with the facts and counts claimed of it.
#[derive(Drop)]
pub struct DraftPiece {
    /// The instructions.
    pub code: Sequence<Instruction>,
    /// The facts claimed of each place of the code, one for each instruction.
    pub facts: Sequence<PlaceFacts>,
    /// The counts claimed of the whole piece.
    pub certificate: Cert,
}

/// The facts claimed of a place of a piece, as the instruction there begins.
#[derive(Drop)]
pub struct PlaceFacts {
    /// The sorts of the operands, the topmost first.
    pub shape: Sequence<Sort>,
    /// The variables that are set.
    pub set: VariableSet,
    /// The greatest number of instructions from here to an end.
    pub count: u32,
    /// The greatest number of effects from here to an end.
    pub effects: u32,
}

/// The counts of a piece.
#[derive(Clone, Copy, PartialEq, Eq, Debug, Default)]
pub struct Cert {
    /// The greatest number of instructions that a run takes.
    pub budget: u32,
    /// The greatest number of operands at a place.
    pub depth: u32,
    /// The greatest number of effects of a run.
    pub effects: u32,
}
