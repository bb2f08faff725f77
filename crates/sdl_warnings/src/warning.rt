//! Warnings, and their printed form.
ghost use Rattle.std.specs.Prelude.{◌≡◌, ◌++◌, Some, OnOk};
ghost use Rattle.sdl_warnings.specs.Printed.{kind_name};
ghost use Rattle.sdl_warnings.specs.Warned.{unless, warned};

use sdl_ast::Name;
use std::alloc::AllocError;
use std::fmt;

/// The kind of a warning. Names are spelled as at its place.
#[derive(Clone, Copy, Debug, PartialEq, Eq)]
pub enum Kind {
    /// A1: no way from START leads to this state.
    UnreachedState(Name),
    /// A2: nobody sends this signal to this process, which takes it.
    UnsentInput(Name, Name),
    /// A3: this timer is set, and never an input.
    UntakenTimer(Name),
    /// A3: this timer is an input, and is never set.
    UnsetTimer(Name),
    /// A4: this variable is neither read nor assigned.
    UnusedVariable(Name),
    /// A4: this variable is assigned, and never read.
    AssignedVariable(Name),
    /// A5: no route has this signal.
    UnroutedSignal(Name),
    /// A5: a route brings this signal to this process, which neither takes nor saves it.
    UntakenSignal(Name, Name),
    /// A6: this signal or timer is saved in this state, and no way leads from there to one that takes it.
    VainSave(Name, Name),
    /// A7: earlier answers match each value of this one.
    SpentAnswer,
    /// A8: the question has no variable.
    FixedDecision,
    /// A9: nothing uses this synonym.
    UnusedSynonym(Name),
    /// A10: no JOIN leads from START or an INPUT to this connection.
    UnreachedConnection(Name),
}

/// A warning, and the place of its word in the text, in bytes from 0.
#[derive(Clone, Copy, Debug, PartialEq, Eq)]
pub struct Warning {
    pub at: u32,
    pub kind: Kind,
}

/// Appends a warning unless this holds.
pub(crate) fn push_unless(
    found: &mut Vec<Warning>,
    holds: bool,
    at: u32,
    kind: Kind,
) -> Result<(), AllocError>
    ensures { OnOk result (found.new.items ≡ found.old.items ++ unless holds (warned at kind)) }
{
    if !holds {
        found.push(Warning { at, kind })?;
    }
    Ok(())
}

impl Kind {
    /// Its code and its name.
    pub fn name(&self) -> &'static str
        ensures { result.now ≡ kind_name self.now }
    {
        match self {
            Kind::UnreachedState(_) => "A1 UnreachedState",
            Kind::UnsentInput(_, _) => "A2 UnsentInput",
            Kind::UntakenTimer(_) => "A3 IdleTimer",
            Kind::UnsetTimer(_) => "A3 IdleTimer",
            Kind::UnusedVariable(_) => "A4 UnreadVariable",
            Kind::AssignedVariable(_) => "A4 UnreadVariable",
            Kind::UnroutedSignal(_) => "A5 StraySignal",
            Kind::UntakenSignal(_, _) => "A5 StraySignal",
            Kind::VainSave(_, _) => "A6 VainSave",
            Kind::SpentAnswer => "A7 SpentAnswer",
            Kind::FixedDecision => "A8 FixedDecision",
            Kind::UnusedSynonym(_) => "A9 UnusedSynonym",
            Kind::UnreachedConnection(_) => "A10 UnreachedConnection",
        }
    }
}

/// Its sentence.
impl fmt::Display for Kind {
    ghost use Rattle.sdl_warnings.specs.Printed.{kind_text};

    ghost output = { λ k. Some (kind_text k) };

    fn fmt<W: fmt::Write>(&self, f: &mut fmt::Formatter<W>) -> fmt::Result {
        match self {
            Kind::UnreachedState(state) => write!(f, "no way from START leads to {state}"),
            Kind::UnsentInput(signal, process) => write!(f, "nobody sends {signal} to {process}"),
            Kind::UntakenTimer(timer) => write!(f, "{timer} is set, but no state takes it"),
            Kind::UnsetTimer(timer) => write!(f, "a state takes {timer}, but nothing sets it"),
            Kind::UnusedVariable(variable) => write!(f, "{variable} is never read"),
            Kind::AssignedVariable(variable) => {
                write!(f, "{variable} is assigned, but never read")
            }
            Kind::UnroutedSignal(signal) => write!(f, "no route has {signal}"),
            Kind::UntakenSignal(signal, process) => {
                write!(f, "{process} neither takes nor saves {signal}")
            }
            Kind::VainSave(signal, state) => {
                write!(
                    f,
                    "no way from {state} leads to a state that takes {signal}"
                )
            }
            Kind::SpentAnswer => f.write_str("earlier answers take each of its values"),
            Kind::FixedDecision => f.write_str("the question is a constant"),
            Kind::UnusedSynonym(synonym) => write!(f, "nothing uses {synonym}"),
            Kind::UnreachedConnection(connection) => {
                write!(f, "no JOIN of a transition leads to {connection}")
            }
        }
    }
}
