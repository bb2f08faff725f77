//! Laws that follow from the definitions. A call does nothing at run time.

ghost use Rattle.turn_code.specs.Safe.{SafeLaw, RunLaw};
ghost use Rattle.turn_code.specs.Effects.{EffectsLaw};
ghost use Rattle.turn_code.specs.Start.{StartLaw};
ghost use Rattle.turn_code.specs.Paths.{PathLaw};
ghost use Rattle.turn_code.specs.Values.{WrapLaw};

/// The run of a valid transition on an input that fits it never gets stuck, never has more operands or effects than its
/// certificate says, and ends well within its budget, which is at most 512.
pub fn safe_law()
    ensures { SafeLaw }
{}

/// The run of a valid transition on an input that fits it ends within its budget. It ends with a stop, or in a declared
/// state with all variables set that the state calls set.
pub fn run_law()
    ensures { RunLaw }
{}

/// The budget of a valid transition is the length of its longest path, and its effects are the most of any path.
pub fn path_law()
    ensures { PathLaw }
{}

/// A wrapped number is the only number from -2^31 to 2^31 - 1 that differs from the original by a multiple of 2^32.
pub fn wrap_law()
    ensures { WrapLaw }
{}

/// Each effect of the run of a valid transition on an input that fits it is right: a signal of the set, with values of its
/// sorts, to a party that a route of the process carries it to, or a timer of the process.
pub fn effects_law()
    ensures { EffectsLaw }
{}

/// The initial values of a process of a valid draft, with no parameters and any sender, fit START.
pub fn start_law()
    ensures { StartLaw }
{}
