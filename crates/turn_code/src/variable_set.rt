//! Sets of variables.

ghost use Rattle.std.specs.Prelude.{◌≡◌, ◌<◌, ◌≤◌, ◌^◌, ◌↔◌, IsTrue, length};
ghost use Rattle.turn_code.specs.Sets.{initial_set};
ghost use Rattle.plain_laws.specs.Limits.{MOST_VARIABLES};

use crate::draft::DraftVariable;
use crate::numbers::VariableNumber;

/// A set of variables: bit v says whether variable v is in it.
#[derive(Clone, Copy, PartialEq, Eq, Debug, Default)]
pub struct VariableSet(pub u32);

impl VariableSet {
    ghost use Rattle.turn_code.specs.Sets.{Has, IsWithin, with_variable};

    /// Whether a variable is in the set.
    pub fn has(self, variable: VariableNumber) -> bool
        ensures { IsTrue result ↔ Has self variable.0 }
    {
        variable.0 < 32 && self.0 >> variable.0 & 1 == 1
    }

    /// The set with one more variable, whose number is below 32.
    pub fn with(self, variable: VariableNumber) -> VariableSet
        requires { variable.0 < MOST_VARIABLES }
        ensures { result ≡ with_variable self variable.0 }
    {
        VariableSet(self.0 | 1 << variable.0)
    }

    /// Whether each variable of the set is in the other too.
    pub fn is_within(self, other: VariableSet) -> bool
        ensures { IsTrue result ↔ IsWithin self other }
    {
        self.0 & other.0 == self.0
    }
}

/// The variables that have an initial value: those that are set as START begins. At most 32 variables are allowed.
pub fn set_at_start(variables: &[DraftVariable]) -> VariableSet
    requires { length variables.now ≤ MOST_VARIABLES }
    ensures value { result ≡ initial_set variables.now }
    ensures small { result.0 < 2 ^ length variables.now }
{
    match variables {
        [] => VariableSet(0),
        [first, others @ ..] => {
            let set = set_at_start(others);
            VariableSet(u32::from(first.initial.is_some()) + 2 * set.0)
        }
    }
}
