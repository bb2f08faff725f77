//! Compares the results of two steps.

use crate::stepping::Stepped;
use turn_code::{
    Address, After as Sorted, BareEffect, Effect, Machine, Next, Operands, Value, VariableNumber,
    VariableSet, Words,
};
use turn_machine::word_of;

/// Whether a step on words and one on values with their sorts have equal results: the next place or the end, the
/// effect, operands and variables. Takes the machine's operands.
pub fn are_alike(
    sorted: Sorted,
    machine: &mut Machine,
    stepped: &Stepped,
    sender: Option<Address>,
) -> bool {
    let onward = match (sorted, stepped.after.next) {
        (Sorted::Goes(place), Next::Goes(other)) => place == other,
        (Sorted::Ends(end), Next::Ends(other)) => end == other,
        _ => false,
    };
    onward
        && same_given(machine.effects.as_slice(), stepped.after.effect, sender)
        && same_variables(machine.variables.as_slice(), &stepped.words)
        && same_operands(&mut machine.operands, &stepped.words)
}

/// Whether the effect of the step on words, or its absence, is equal to the effects of the step on values.
fn same_given(effects: &[Effect], given: Option<BareEffect>, sender: Option<Address>) -> bool {
    match (effects, given) {
        ([], None) => true,
        ([Effect::Output(sending)], Some(BareEffect::Output(signal, to, count, words))) => {
            sending.signal == signal
                && Some(sending.receiver) == to.address(sender)
                && sending.parameters.len() == usize::from(count)
                && same_words(sending.parameters.as_slice(), &words)
        }
        ([Effect::Set(timer, delay)], Some(BareEffect::Set(other, word))) => {
            *timer == other && *delay == word
        }
        ([Effect::Reset(timer)], Some(BareEffect::Reset(other))) => *timer == other,
        _ => false,
    }
}

/// Whether words represent these values.
fn same_words(values: &[Value], words: &[i32]) -> bool {
    for (place, value) in values.iter().enumerate() {
        if words.get(place).copied() != Some(word_of(*value)) {
            return false;
        }
    }
    true
}

/// Whether words have these variables: the same ones are set, and to the same values.
fn same_variables(variables: &[Option<Value>], words: &Words) -> bool {
    for place in 0..variables.len().min(32) {
        let set = VariableSet(words.set).has(VariableNumber(place as u8));
        let alike = match variables[place] {
            Some(value) => set && words.variables[place] == word_of(value),
            None => !set,
        };
        if !alike {
            return false;
        }
    }
    true
}

/// Whether words have these operands. Takes them.
fn same_operands(operands: &mut Operands, words: &Words) -> bool {
    for back in 0..words.depth {
        let place = words.depth - 1 - back;
        let word = words.operands.get(usize::from(place)).copied();
        match operands.pop() {
            Some(value) if word == Some(word_of(value)) => {}
            _ => return false,
        }
    }
    operands.is_empty()
}
