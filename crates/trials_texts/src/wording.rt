//! Words that represent values.

ghost use Rattle.std.specs.Prelude.{◌≡◌, ◌<◌, ◌≤◌, [], List, Option as Maybe, length};
ghost use Rattle.turn_code.specs.Bare.{bare_of, pushed};
ghost use Rattle.turn_code.specs.Meant.{AreWordsOf};
ghost use Rattle.plain_laws.specs.Limits.{MOST_OPERANDS};
ghost use Rattle.turn_code.specs.declared.value.Value.{Value as AnyValue};

use turn_code::{Input, Value, Words};
use turn_machine::{word_of, words_of};

/// The words of an input, with these operands, topmost first.
pub fn words_with(input: &Input, operands: &[Value]) -> Words
    requires { length operands.now ≤ MOST_OPERANDS }
    ensures { AreWordsOf (bare_of result) operands.now input.now.variables.items input.now.parameters.items }
{
    let mut words = words_of(input);
    put_all(&mut words, operands);
    words
}

/// Adds operands to words that have none.
fn put_all(words: &mut Words, operands: &[Value])
    requires few { length operands.now ≤ MOST_OPERANDS }
    requires none { words.old.depth ≡ 0 }
    ensures depth { words.new.depth ≡ length operands.now }
    ensures words { (vs : List (Maybe AnyValue)) (ps : List AnyValue) → AreWordsOf (bare_of words.old) [] vs ps → AreWordsOf (bare_of words.new) operands.now vs ps }
{
    match operands {
        [] => {}
        [top, below @ ..] => {
            put_all(words, below);
            push(words, word_of(*top));
        }
    }
}

/// Pushes a word as the topmost operand.
fn push(words: &mut Words, word: i32)
    requires { words.old.depth < MOST_OPERANDS }
    ensures { bare_of words.new ≡ pushed (bare_of words.old) word }
{
    words.operands[usize::from(words.depth)] = word;
    words.depth += 1;
}
