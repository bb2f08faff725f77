//! Answers of a valid set about its routes, its inputs and its values.

ghost use Rattle.std.specs.Prelude.{◌≡◌, ◌≤◌, ◌↔◌, IsTrue, Any, Contains, length, map, position, slice_get};
ghost use Rattle.turn_code.specs.Routes.{Carries, IsPartyOf};
ghost use Rattle.turn_code.specs.Transitions.{parameters_of};
ghost use Rattle.turn_code.specs.Start.{initial_values};
ghost use Rattle.turn_check.specs.Named.{variables_at, inputs_at};
ghost use Rattle.turn_check.specs.Answered.{same_trigger, input_for};
ghost use Rattle.turn_code.specs.Limits.{MOST_VARIABLES};

use crate::verified::Verified;
use arrayvec::ArrayVec;
use turn_code::{
    DraftInput, DraftRoute, DraftVariable, Party, ProcessNumber, SignalNumber, Sort, StateNumber,
    Trigger, Value,
};

impl Verified {
    /// Whether a route carries a signal from one party to another.
    pub fn carries(&self, from: Party, to: Party, signal: SignalNumber) -> bool
        ensures { IsTrue result ↔ Any (Carries from to signal) self.now.routes }
    {
        some_route_carries(self.draft().routes.as_slice(), from, to, signal)
    }

    /// Whether the party is the environment or a declared process.
    pub fn has_party(&self, party: Party) -> bool
        ensures { IsTrue result ↔ IsPartyOf self.now.processes party }
    {
        match party {
            Party::Environment => true,
            Party::Process(number) => usize::from(number.0) < self.process_count(),
        }
    }

    /// The number of the first input of a state that waits for a signal or a timer. None if no input does, or if there
    /// is no such state.
    pub fn input_for(
        &self,
        process: ProcessNumber,
        state: StateNumber,
        trigger: Trigger,
    ) -> Option<usize>
        ensures { result ≡ input_for self.now process.0 state.0 trigger }
    {
        first_waiting(self.inputs(process, state), trigger)
    }

    /// The sorts of the parameters of a signal; none if there is no such signal.
    pub fn parameters(&self, signal: SignalNumber) -> &[Sort]
        ensures { result.now ≡ parameters_of (slice_get self.now.signals signal.0) }
    {
        match self.draft().signals.as_slice().get(usize::from(signal.0)) {
            Some(signal) => signal.parameters.as_slice(),
            None => &[],
        }
    }

    /// The initial values of the variables of a process; none for a variable without one.
    pub fn initial_values(&self, process: ProcessNumber) -> ArrayVec<Option<Value>, 32>
        ensures { result.items ≡ initial_values (variables_at self.now process.0) }
    {
        let _ = self.draft();
        initial_values_of(self.variables(process))
    }
}

/// Whether one of these routes carries a signal from one party to another.
fn some_route_carries(routes: &[DraftRoute], from: Party, to: Party, signal: SignalNumber) -> bool
    ensures { IsTrue result ↔ Any (Carries from to signal) routes.now }
{
    for route in routes {
        if carries(route, from, to, signal) {
            return true;
        }
    }
    false
}

/// Whether a route carries a signal from one party to another.
fn carries(route: &DraftRoute, from: Party, to: Party, signal: SignalNumber) -> bool
    ensures { IsTrue result ↔ Carries from to signal route.now }
{
    route.from == from && route.to == to && is_among(route.signals.as_slice(), signal)
}

/// Whether a signal is one of `signals`.
fn is_among(signals: &[SignalNumber], signal: SignalNumber) -> bool
    ensures { IsTrue result ↔ Contains signals.now signal }
{
    for other in signals {
        if *other == signal {
            return true;
        }
    }
    false
}

/// The number of the first input that waits for a signal or a timer; none if no input does.
fn first_waiting(inputs: &[DraftInput], trigger: Trigger) -> Option<usize>
    ensures { result ≡ position (λ (x : DraftInput). same_trigger x.trigger trigger) inputs.now }
{
    inputs
        .iter()
        .position(|input| is_same(input.trigger, trigger))
}

/// Whether both are the same signal, or the same timer.
fn is_same(left: Trigger, right: Trigger) -> bool
    ensures { result ≡ same_trigger left right }
{
    match left {
        Trigger::Signal(left) => match right {
            Trigger::Signal(right) => left.0 == right.0,
            Trigger::Timer(_) => false,
        },
        Trigger::Timer(left) => match right {
            Trigger::Signal(_) => false,
            Trigger::Timer(right) => left.0 == right.0,
        },
    }
}

/// The initial values of at most 32 variables; none for a variable without one.
pub fn initial_values_of(variables: &[DraftVariable]) -> ArrayVec<Option<Value>, 32>
    requires { length variables.now ≤ MOST_VARIABLES }
    ensures { result.items ≡ initial_values variables.now }
{
    let mut values = ArrayVec::new();
    for variable in variables {
        values.push(variable.initial);
    }
    values
}
