//! The words of an input.

ghost use Rattle.std.specs.Prelude.{◌≡◌, ℕ, ◌<◌, ◌≤◌, [], Some, length, slice_get};
ghost use Rattle.turn_code.specs.Bare.{bare_of};
ghost use Rattle.turn_code.specs.Meant.{word_of, AreWordsOf};
ghost use Rattle.turn_code.specs.declared.value.Value.{Value as AnyValue};
ghost use Rattle.turn_machine.specs.Wording.{kept_value, IsKeptTo};
ghost use Rattle.plain_laws.specs.Limits.{MOST_PARAMETERS, MOST_VARIABLES};

use turn_code::{Input, Value, Words};

/// The words of an input, without operands.
pub fn words_of(input: &Input) -> Words
    ensures words { AreWordsOf (bare_of result) [] input.now.variables.items input.now.parameters.items }
    ensures none { result.depth ≡ 0 }
{
    let variables = input.variables.as_slice();
    let parameters = input.parameters.as_slice();
    let mut words = Words {
        operands: [0; 16],
        depth: 0,
        variables: [0; 32],
        set: 0,
        params: words_of_parameters(parameters),
    };
    keep_all(&mut words, variables);
    words
}

/// The words of parameters, filled up with zeros.
fn words_of_parameters(values: &[Value]) -> [i32; 4]
    requires { length values.now ≤ MOST_PARAMETERS }
    ensures { (j : ℕ) (x : AnyValue) → slice_get values.now j ≡ Some x → slice_get result j ≡ Some (word_of x) }
{
    let mut words = [0; 4];
    for place in 0..values.len() {
        let word = word_of(values[place]);
        words[place] = word;
    }
    words
}

/// Stores the values of variables; no variable is set before.
fn keep_all(words: &mut Words, values: &[Option<Value>])
    requires few { length values.now ≤ MOST_VARIABLES }
    requires none { words.old.set ≡ 0 }
    requires room { length words.old.variables ≡ MOST_VARIABLES }
    ensures { IsKeptTo (bare_of words.old) (bare_of words.new) values.now (length values.now) }
{
    for place in 0..values.len() {
        keep(words, place, values[place]);
    }
}

/// Stores the value of a variable, if it has one.
fn keep(words: &mut Words, variable: usize, value: Option<Value>)
    requires { variable < MOST_VARIABLES }
    ensures { bare_of words.new ≡ kept_value (bare_of words.old) variable value }
{
    match value {
        Some(value) => {
            let word = word_of(value);
            words.variables[variable] = word;
            words.set |= 1 << variable;
        }
        None => {}
    }
}

/// The word of a value: an Integer as it is, 1 for TRUE and 0 for FALSE.
pub fn word_of(value: Value) -> i32
    ensures { result ≡ word_of value }
{
    match value {
        Value::Int(number) => number,
        Value::Bool(truth) => i32::from(truth),
    }
}
