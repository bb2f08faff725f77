//! The rules that a text can break, and their printed form.
ghost use Rattle.std.specs.Prelude.{◌≡◌, Some};
ghost use Rattle.sdl_sound.specs.Printed.{limit_text, step_text, path_text, fault_text};

use sdl_lex::Name;
use sdl_tables::TableFault;
use std::alloc::AllocError;
use std::fmt;
use thiserror::Error;

/// A limit that a text exceeds. `S10` names one of them.
#[derive(Clone, Copy, Debug, PartialEq, Eq)]
pub enum Limit {
    /// More than 16 processes.
    Processes,
    /// More than 64 states in a process.
    States,
    /// More than 32 variables in a process.
    Variables,
    /// More than 8 timers in a process.
    Timers,
    /// More than 128 signals.
    Signals,
    /// More than 4 parameters of a signal.
    Params,
    /// More than 4,096 transitions in all processes.
    Pieces,
    /// More than 512 instructions in a transition.
    Piece,
    /// More than 16 operands at once in a transition.
    Depth,
    /// More than 32 signals sent, timers set and timers reset in one turn.
    Effects,
    /// More than 8 instances of a process, or none, which is impossible in a text.
    Instances,
}

/// A transition on a control path.
#[derive(Clone, Copy, Debug, PartialEq, Eq)]
pub enum Step {
    /// The transition after START.
    Start,
    /// The transition of a state on an input.
    Input { state: Name, signal: Name },
}

impl fmt::Display for Limit {
    ghost output = { λ l. Some (limit_text l) };

    fn fmt<W: fmt::Write>(&self, f: &mut fmt::Formatter<W>) -> fmt::Result {
        f.write_str(match self {
            Self::Processes => "Processes",
            Self::States => "States",
            Self::Variables => "Variables",
            Self::Timers => "Timers",
            Self::Signals => "Signals",
            Self::Params => "Params",
            Self::Pieces => "Pieces",
            Self::Piece => "Piece",
            Self::Depth => "Depth",
            Self::Effects => "Effects",
            Self::Instances => "Instances",
        })
    }
}

impl fmt::Display for Step {
    ghost output = { λ s. Some (step_text s) };

    fn fmt<W: fmt::Write>(&self, f: &mut fmt::Formatter<W>) -> fmt::Result {
        match self {
            Step::Start => write!(f, "START"),
            Step::Input { state, signal } => write!(f, "{state}/{signal}"),
        }
    }
}

/// The transitions of a control path, from START on.
#[derive(Debug, Drop)]
pub struct ControlPath {
    pub steps: Vec<Step>,
}

impl fmt::Display for ControlPath {
    ghost output = { λ p. Some (path_text p) };

    fn fmt<W: fmt::Write>(&self, f: &mut fmt::Formatter<W>) -> fmt::Result {
        for step in &self.steps {
            write!(f, " {step}")?;
        }
        Ok(())
    }
}

/// Why a text is refused. Places are bytes of the text, from 0.
#[derive(Debug, Drop, Error)]
pub enum RuleFault {
    /// A name that is declared already in its class and scope, a timer with the name of a signal, or a
    /// signal or timer that a state consumes or saves twice.
    DoubleName(u32),
    /// A name that isn't declared in its class and scope.
    UnknownName(u32),
    /// A value, an answer or a place of an INPUT has the wrong sort, or there is a wrong number of them.
    WrongSort(u32),
    /// A NEXTSTATE to a state that no STATE names, a START, INPUT or CONNECTION whose actions run off their end, or the
    /// first statement after a DECISION that no body continues past. Holds the place of that word.
    NoState(u32),
    /// An OUTPUT that no route carries, or one TO SENDER if there is no sender (after START and for a timer) or no
    /// route back to each possible sender. Holds the place of the signal's name.
    NoReceiver(u32),
    /// An OUTPUT without a destination that routes carry to several parties. Holds the place of the signal's name.
    TwoReceivers(u32),
    /// A JOIN that leads back to its own connection. Holds the place of the JOIN.
    JoinCycle(u32),
    /// An Integer DECISION without ELSE, a Boolean one in which a value isn't answered exactly once, or one with an
    /// answer without values. Holds the place of the DECISION.
    NoAnswer(u32),
    /// The right operand of `/`, MOD or REM isn't a number of 1 or more. Holds the place of that operand.
    BadDivisor(u32),
    /// The text exceeds a limit.
    Limit(Limit),
    /// A control path from START reads a variable before it is set. Names are spelled as declared, and a state as in
    /// the first STATE that names it.
    Unset { variable: Name, path: ControlPath },
    /// Memory ran out.
    NoMemory,
}

impl fmt::Display for RuleFault {
    ghost output = { λ e. Some (fault_text e) };

    fn fmt<W: fmt::Write>(&self, f: &mut fmt::Formatter<W>) -> fmt::Result {
        match self {
            Self::DoubleName(_) => f.write_str("S1 DoubleName"),
            Self::UnknownName(_) => f.write_str("S2 UnknownName"),
            Self::WrongSort(_) => f.write_str("S3 WrongSort"),
            Self::NoState(_) => f.write_str("S4 NoState"),
            Self::NoReceiver(_) => f.write_str("S5 NoReceiver"),
            Self::TwoReceivers(_) => f.write_str("S6 TwoReceivers"),
            Self::JoinCycle(_) => f.write_str("S7 JoinCycle"),
            Self::NoAnswer(_) => f.write_str("S8 NoAnswer"),
            Self::BadDivisor(_) => f.write_str("S9 BadDivisor"),
            Self::Limit(limit) => write!(f, "S10 Limit {limit}"),
            Self::Unset { variable, path } => write!(f, "S11 Unset {variable}{path}"),
            Self::NoMemory => f.write_str("out of memory"),
        }
    }
}

impl From<AllocError> for RuleFault {
    ghost use Rattle.sdl_sound.specs.declared.fault.RuleFault.TheVariants.{NoMemory as Memory};

    ghost from_gives = { λ _ e. e ≡ Memory };

    fn from(_e: AllocError) -> RuleFault {
        RuleFault::NoMemory
    }
}

impl From<TableFault> for RuleFault {
    ghost use Rattle.sdl_sound.specs.Refusals.{rule_fault};

    ghost from_gives = { λ e f. f ≡ rule_fault e };

    fn from(e: TableFault) -> RuleFault {
        match e {
            TableFault::DoubleName(at) => RuleFault::DoubleName(at),
            TableFault::NoMemory => RuleFault::NoMemory,
        }
    }
}
