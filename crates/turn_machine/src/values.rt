//! The values of variables, from their words.

ghost use Rattle.std.specs.Prelude.{◌≡◌, ◌<◌, ◌≤◌, List, Option as Maybe, length};
ghost use Rattle.turn_code.specs.Bare.{bare_of};
ghost use Rattle.turn_code.specs.declared.value.Value.{Value as AnyValue};
ghost use Rattle.turn_machine.specs.Wording.{IsVariable, AreVariables};
ghost use Rattle.plain_laws.specs.Limits.{MOST_VARIABLES};

use arrayvec::ArrayVec;
use turn_code::{Value, VariableNumber, VariableSet, Words, value_of};

/// Replaces the variables by the first `count` that the words represent: Booleans as the bits say, none for one that
/// isn't set.
pub(crate) fn set_variables(
    variables: &mut ArrayVec<Option<Value>, 32>,
    words: &Words,
    booleans: u32,
    count: u8,
)
    requires { count ≤ MOST_VARIABLES }
    ensures { (vs : List (Maybe AnyValue)) → length vs ≡ count → AreVariables (bare_of words.now) booleans vs → variables.new.items ≡ vs }
{
    variables.clear();
    for number in 0..count {
        let value = variable_of(words, booleans, VariableNumber(number));
        variables.push(value);
    }
}

/// The value of a variable, from its word.
fn variable_of(words: &Words, booleans: u32, variable: VariableNumber) -> Option<Value>
    requires { variable.0 < MOST_VARIABLES }
    ensures { (o : Maybe AnyValue) → IsVariable (bare_of words.now) booleans variable.0 o → result ≡ o }
{
    if VariableSet(words.set).has(variable) {
        let boolean = VariableSet(booleans).has(variable);
        Some(value_of(boolean, words.variables[usize::from(variable.0)]))
    } else {
        None
    }
}
