//! Whether an input fits a transition.

ghost use Rattle.std.specs.Prelude.{◌≡◌, ◌↔◌, IsTrue, map};
ghost use Rattle.turn_code.specs.Values.{sort_of};
ghost use Rattle.turn_code.specs.Fits.{Fits, HasSort, HaveSorts, AreSet};
ghost use Rattle.turn_machine.specs.Fitting.{IsSetAt, IsBroughtBy};
ghost use Rattle.turn_machine.specs.Given.{input_of};

use crate::received::Received;
use arrayvec::ArrayVec;
use turn_check::Verified;
use turn_code::{
    Address, DraftVariable, Party, Place, ProcessNumber, Sort, Trigger, Value, VariableNumber,
    VariableSet,
};

/// Whether an input fits input `input_number` at a place of a process. Its parameters and set variables have their
/// sorts, and the variables that must be set are set. A route brings the signal from its sender, except for START and
/// for a timer.
pub fn fits(
    verified: &Verified,
    process: ProcessNumber,
    place: Place,
    input_number: usize,
    variables: &ArrayVec<Option<Value>, 32>,
    received: &Received,
) -> bool
    ensures { IsTrue result ↔ Fits verified.now process.0 place input_number (input_of variables.now received.now) }
{
    match verified.transition(process, place, input_number) {
        Some(transition) => {
            have_those_sorts(received.parameters.as_slice(), transition.parameters)
                && have_sorts(
                    transition.process.variables.as_slice(),
                    variables.as_slice(),
                )
                && are_set(transition.entry, variables.as_slice())
                && is_brought(verified, process, transition.trigger, received.sender)
        }
        None => false,
    }
}

/// Whether the values have these sorts.
fn have_those_sorts(values: &[Value], sorts: &[Sort]) -> bool
    ensures { IsTrue result ↔ (map sort_of values.now ≡ sorts.now) }
{
    match (values, sorts) {
        ([], []) => true,
        ([value, values @ ..], [sort, sorts @ ..]) => value.sort() == *sort
            && have_those_sorts(values, sorts),
        _ => false,
    }
}

/// Whether there is one value, or none, for each variable, and each value has its variable's sort.
fn have_sorts(variables: &[DraftVariable], values: &[Option<Value>]) -> bool
    ensures { IsTrue result ↔ HaveSorts variables.now values.now }
{
    match variables {
        [] => values.is_empty(),
        [variable, variables @ ..] => match values {
            [] => false,
            [value, values @ ..] => has_sort(variable, *value) && have_sorts(variables, values),
        },
    }
}

/// Whether a value has its variable's sort; true if there is no value.
fn has_sort(variable: &DraftVariable, value: Option<Value>) -> bool
    ensures { IsTrue result ↔ HasSort variable.now value }
{
    match value {
        Some(value) => value.sort() == variable.sort,
        None => true,
    }
}

/// Whether the variables of the set have values.
fn are_set(set: VariableSet, values: &[Option<Value>]) -> bool
    ensures { IsTrue result ↔ AreSet set values.now }
{
    for variable in 0..32u8 {
        if set.has(VariableNumber(variable)) && !has_value(values, variable) {
            return false;
        }
    }
    true
}

/// Whether the variable with a number has a value.
fn has_value(values: &[Option<Value>], variable: u8) -> bool
    ensures { IsTrue result ↔ IsSetAt values.now variable }
{
    match values.get(usize::from(variable)) {
        Some(Some(_)) => true,
        _ => false,
    }
}

/// Whether a route brings the signal that the transition waits for from its sender.
fn is_brought(
    verified: &Verified,
    process: ProcessNumber,
    trigger: Option<Trigger>,
    sender: Option<Address>,
) -> bool
    ensures { IsTrue result ↔ IsBroughtBy verified.now.routes process.0 trigger sender }
{
    match trigger {
        None | Some(Trigger::Timer(_)) => true,
        Some(Trigger::Signal(signal)) => match sender {
            Some(sender) => verified.carries(sender.party, Party::Process(process), signal),
            None => false,
        },
    }
}
