//! Numbers of the processes, signals, states, variables and timers that a set declares.

/// A process of a set, from 0 in text order.
#[derive(Clone, Copy, PartialEq, Eq, Debug, Default)]
pub struct ProcessNumber(pub u8);

/// An instance of a process, from 1.
#[derive(Clone, Copy, PartialEq, Eq, Debug)]
pub struct InstanceNumber(pub u8);

/// A signal of a set, from 0 in text order.
#[derive(Clone, Copy, PartialEq, Eq, Debug, Default)]
pub struct SignalNumber(pub u8);

/// A state of a process, from 0 in the order of its first STATE.
#[derive(Clone, Copy, PartialEq, Eq, Debug, Default)]
pub struct StateNumber(pub u8);

/// A variable of a process, from 0 in text order.
#[derive(Clone, Copy, PartialEq, Eq, Debug, Default)]
pub struct VariableNumber(pub u8);

/// A timer of a process, from 0 in text order.
#[derive(Clone, Copy, PartialEq, Eq, Debug, Default)]
pub struct TimerNumber(pub u8);

/// A place of a piece, from 0.
#[derive(Clone, Copy, PartialEq, Eq, Debug, Default)]
pub struct CodePlace(pub u16);
