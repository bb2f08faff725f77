//! The sorts that words don't carry.
ghost use Rattle.std.specs.Prelude.{◌≡◌, ◌+◌, ◌++◌, ◌≤◌, ◌<◌, ◌^◌, List, All, length, map, slice_index_or};
ghost use Rattle.turn_code.specs.Values.{sort_of};
ghost use Rattle.turn_code.specs.declared.value.Value.{Value as AnyValue};
ghost use Rattle.turn_code.specs.declared.effect.Effect.{Effect as AnyEffect};
ghost use Rattle.turn_code.specs.declared.draft.DraftSignal.{DraftSignal as AnySignal};
ghost use Rattle.turn_code.specs.Meant.{word_of, IsEffectOf};
ghost use Rattle.turn_code.specs.Sorts.{is_boolean, sort_bits, sorts_of, AreBitsOf, IsOfSorts, HasReceiver};
ghost use Rattle.plain_laws.specs.Limits.{MOST_PARAMETERS, MOST_SIGNALS, MOST_VARIABLES};

use crate::after::BareEffect;
use crate::draft::{DraftSignal, DraftVariable};
use crate::effect::{Effect, Sending};
use crate::input::Address;
use crate::numbers::SignalNumber;
use crate::value::{Sort, Value};
use arrayvec::ArrayVec;

/// Which parameters of a set's signals and which variables of a process are Booleans, to turn words back into
/// values.
#[derive(Clone, Copy)]
pub struct Sorts {
    /// For each signal, bit j says whether its parameter j is Boolean.
    pub parameters: [u8; 128],
    /// Bit v says whether variable v is Boolean.
    pub variables: u32,
}

/// Which of some sorts are Boolean: bit 0 for the first.
fn boolean_bits(sorts: &[Sort]) -> u8
    requires { length sorts.now ≤ MOST_PARAMETERS }
    ensures value { result ≡ sort_bits sorts.now }
    ensures small { result < 2 ^ length sorts.now }
{
    match sorts {
        [] => 0,
        [first, others @ ..] => {
            let bits = boolean_bits(others);
            u8::from(*first == Sort::Boolean) + 2 * bits
        }
    }
}

/// Which of a process's variables are Booleans, as bits, for `Sorts`: bit 0 for the first.
pub fn variable_bits(variables: &[DraftVariable]) -> u32
    requires { length variables.now ≤ MOST_VARIABLES }
    ensures value { result ≡ sort_bits (sorts_of variables.now) }
    ensures small { result < 2 ^ length variables.now }
{
    match variables {
        [] => 0,
        [first, others @ ..] => {
            let bits = variable_bits(others);
            u32::from(first.sort == Sort::Boolean) + 2 * bits
        }
    }
}

/// Which parameters of each signal of a set are Booleans, as bits, for `Sorts`. 0 for a number without a signal.
pub fn parameter_bits(signals: &[DraftSignal]) -> [u8; 128]
    requires few { length signals.now ≤ MOST_SIGNALS }
    requires small { All (λ (s : AnySignal). length s.parameters ≤ MOST_PARAMETERS) signals.now }
    ensures { AreBitsOf signals.now result }
{
    let mut bits = [0; 128];
    for number in 0..signals.len() {
        bits[number] = boolean_bits(signals[number].parameters.as_slice());
    }
    bits
}

/// The value with this word: a Boolean if `boolean`, otherwise an Integer.
pub fn value_of(boolean: bool, word: i32) -> Value
    ensures { (x : AnyValue) → word_of x ≡ word → is_boolean (sort_of x) ≡ boolean → result ≡ x }
{
    if boolean {
        Value::Bool(word != 0)
    } else {
        Value::Int(word)
    }
}

/// Adds the values of some words; the bits say which are Booleans, bit 0 for the first.
fn add_values(values: &mut ArrayVec<Value, 4>, bits: u8, words: &[i32])
    requires { length values.old.items + length words.now ≤ MOST_PARAMETERS }
    ensures { (xs : List AnyValue) → words.now ≡ map word_of xs → bits ≡ sort_bits (map sort_of xs) → values.new.items ≡ values.old.items ++ xs }
{
    match words {
        [] => {}
        [word, others @ ..] => {
            values.push(value_of(bits % 2 == 1, *word));
            add_values(values, bits / 2, others);
        }
    }
}

impl Sorts {
    /// Which parameters of a signal are Booleans, as bits.
    fn bits(&self, signal: SignalNumber) -> u8
        ensures { result ≡ slice_index_or self.now.parameters signal.0 0 }
    {
        match self.parameters.get(usize::from(signal.0)) {
            Some(bits) => *bits,
            None => 0,
        }
    }

    /// The effect that `given` represents: with the sorts of its signal, to the receiver that the instruction names or
    /// to the sender. Each effect of a valid transition has those sorts (turn_code's proofs/RightEffects: adds).
    pub fn effect(&self, given: BareEffect, sender: Option<Address>) -> Effect
        requires { HasReceiver given sender }
        ensures { (e : AnyEffect) → IsEffectOf sender given e → IsOfSorts self.now e → result ≡ e }
    {
        match given {
            BareEffect::Output(signal, to, count, words) => match to.address(sender) {
                Some(receiver) => {
                    let mut parameters = ArrayVec::new();
                    add_values(
                        &mut parameters,
                        self.bits(signal),
                        &words[..usize::from(count)],
                    );
                    Effect::Output(Sending {
                        signal,
                        receiver,
                        parameters,
                    })
                }
                None => unreachable!(),
            },
            BareEffect::Set(timer, delay) => Effect::Set(timer, delay),
            BareEffect::Reset(timer) => Effect::Reset(timer),
        }
    }
}
