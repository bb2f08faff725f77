//! A transition of a draft.

ghost use Rattle.std.specs.Prelude.{◌≡◌, ◌≤◌, length};
ghost use Rattle.turn_code.specs.Transitions.{start_of, input_of, trigger_parameters};
ghost use Rattle.turn_rules.specs.Seen.{seen};
ghost use Rattle.plain_laws.specs.Limits.{MOST_VARIABLES};

use turn_code::{
    DraftInput, DraftPiece, DraftProcess, DraftSignal, DraftState, ProcessNumber, Sort, Trigger,
    VariableSet, set_at_start,
};

/// One transition of a draft.
#[derive(Clone, Copy)]
pub struct Transition<'a> {
    /// The number of its process.
    pub number: ProcessNumber,
    /// Its process.
    pub process: &'a DraftProcess,
    /// The signal or timer that it waits for; none at START.
    pub trigger: Option<Trigger>,
    /// The sorts of its parameters.
    pub parameters: &'a [Sort],
    /// The variables that are set as it begins.
    pub entry: VariableSet,
    /// Its code.
    pub piece: &'a DraftPiece,
}

/// The START transition of a process.
pub fn start_transition(number: ProcessNumber, process: &DraftProcess) -> Transition<'_>
    requires { length process.now.variables ≤ MOST_VARIABLES }
    ensures { seen result ≡ start_of number.0 process.now }
{
    Transition {
        number,
        process,
        trigger: None,
        parameters: &[],
        entry: set_at_start(process.variables.as_slice()),
        piece: &process.start,
    }
}

/// The transition of an input.
pub fn input_transition<'a>(
    signals: &'a [DraftSignal],
    number: ProcessNumber,
    process: &'a DraftProcess,
    state: &'a DraftState,
    input: &'a DraftInput,
) -> Transition<'a>
    ensures { seen result ≡ input_of signals.now number.0 process.now state.now input.now }
{
    Transition {
        number,
        process,
        trigger: Some(input.trigger),
        parameters: parameters_of(signals, input.trigger),
        entry: state.set,
        piece: &input.piece,
    }
}

/// The sorts of the parameters of a trigger; a timer has none.
fn parameters_of(signals: &[DraftSignal], trigger: Trigger) -> &[Sort]
    ensures { result.now ≡ trigger_parameters signals.now trigger }
{
    match trigger {
        Trigger::Signal(number) => match signals.get(usize::from(number.0)) {
            Some(signal) => signal.parameters.as_slice(),
            None => &[],
        },
        Trigger::Timer(_) => &[],
    }
}
