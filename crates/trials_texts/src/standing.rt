//! Whether values are allowed at a place.

ghost use Rattle.std.specs.Prelude.{◌≡◌, ◌↔◌, IsTrue, map};
ghost use Rattle.turn_code.specs.Values.{sort_of};
ghost use Rattle.turn_code.specs.Fits.{AreSet};
ghost use Rattle.turn_machine.specs.Fitting.{IsSetAt};
ghost use Rattle.trials_texts.specs.Holding.{HoldAt};

use turn_code::{DraftPiece, Sort, Value, VariableNumber, VariableSet};

/// Whether these operands, topmost first, and variables satisfy the claims about a place of a piece.
pub fn hold_at(
    piece: &DraftPiece,
    place: usize,
    operands: &[Value],
    variables: &[Option<Value>],
) -> bool
    ensures { IsTrue result → HoldAt piece.now place operands.now variables.now }
{
    match piece.facts.as_slice().get(place) {
        Some(facts) => have_sorts(operands, facts.shape.as_slice())
            && are_set(facts.set, variables),
        None => false,
    }
}

/// Whether the values have these sorts.
fn have_sorts(values: &[Value], sorts: &[Sort]) -> bool
    ensures { IsTrue result ↔ (map sort_of values.now ≡ sorts.now) }
{
    match (values, sorts) {
        ([], []) => true,
        ([value, values @ ..], [sort, sorts @ ..]) => value.sort() == *sort
            && have_sorts(values, sorts),
        _ => false,
    }
}

/// Whether the variables of the set have values.
fn are_set(set: VariableSet, values: &[Option<Value>]) -> bool
    ensures { IsTrue result ↔ AreSet set values.now }
{
    for variable in 0..32u8 {
        if set.has(VariableNumber(variable)) && !has_value(values, variable) {
            return false;
        }
    }
    true
}

/// Whether the variable with a number has a value.
fn has_value(values: &[Option<Value>], variable: u8) -> bool
    ensures { IsTrue result ↔ IsSetAt values.now variable }
{
    match values.get(usize::from(variable)) {
        Some(Some(_)) => true,
        _ => false,
    }
}
