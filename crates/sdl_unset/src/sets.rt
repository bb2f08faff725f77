//! The variables that are set in each state, as the bits of a number.
ghost use Rattle.std.specs.Prelude.{◌≡◌, ℕ, ◌≤◌, Some, length, IfOk, slice_get};
ghost use Rattle.std.specs.Int.{bit_at};
ghost use Rattle.sdl_unset.specs.Fates.{is_set_in, set_bit};
ghost use Rattle.plain_laws.specs.Limits.{MOST_VARIABLES};

use crate::paths::Fate;
use std::alloc::{AllocError, Global};

/// Whether a variable is set whenever a process is in a state.
fn is_set_in(fate: &Fate, state: usize) -> bool
    ensures { result ≡ is_set_in fate.now state }
{
    match fate {
        Fate::Unset(_) => false,
        Fate::Set(marks) => state < marks.len() && !marks[state],
    }
}

/// The variables that are set in a state.
fn set_in(fates: &[Fate], state: usize) -> u32
    requires { length fates.now ≤ MOST_VARIABLES }
    ensures { (v : ℕ) → bit_at result v ≡ set_bit fates.now state v }
{
    let mut set: u32 = 0;
    for (variable, fate) in fates.iter().enumerate() {
        if is_set_in(fate, state) {
            set |= 1 << variable;
        }
    }
    set
}

/// The variables that are set in each of the first `count` states.
pub(crate) fn sets_in(alloc: Global, fates: &[Fate], count: usize) -> Result<Vec<u32>, AllocError>
    requires { length fates.now ≤ MOST_VARIABLES }
    ensures count { IfOk result (λ sets. length sets.items ≡ count) }
    ensures bits { IfOk result (λ sets. (q set : ℕ) → slice_get sets.items q ≡ Some set → (v : ℕ) → bit_at set v ≡ set_bit fates.now q v) }
{
    let mut sets = Vec::new(alloc);
    for state in 0..count {
        sets.push(set_in(fates, state))?;
    }
    Ok(sets)
}
