//! Which of two paths the error names.
ghost use Rattle.std.specs.Prelude.{◌≡◌, ◌⊎◌, true, false, length};
ghost use Rattle.sdl_unset.specs.Order.{Precedes, Earlier, Before, NotAfter};

use crate::paths::Step;

/// Whether a step comes before another one in the text.
fn precedes(one: Step, other: Step) -> bool
    ensures first { result ≡ true → Precedes one other }
    ensures not_first { result ≡ false → Precedes one other → ⊥ }
{
    match (one, other) {
        (_, Step::Start) => false,
        (Step::Start, Step::Input(_, _)) => true,
        (Step::Input(state, number), Step::Input(other_state, other_number)) => {
            state < other_state || (state == other_state && number < other_number)
        }
    }
}

/// Whether, at the first step where two paths of the same length differ, the first path comes first in the text.
fn is_earlier(path: &[Step], other: &[Step]) -> bool
    requires { length path.now ≡ length other.now }
    ensures earlier { result ≡ true → Earlier path.now other.now }
    ensures not_earlier { result ≡ false → (other.now ≡ path.now) ⊎ Earlier other.now path.now }
{
    for place in 0..path.len() {
        if precedes(path[place], other[place]) {
            return true;
        }
        if precedes(other[place], path[place]) {
            return false;
        }
    }
    false
}

/// Whether a path has fewer steps than another one, or the same number and comes first in the text.
pub fn is_before(path: &[Step], other: &[Step]) -> bool
    ensures before { result ≡ true → Before path.now other.now }
    ensures not_before { result ≡ false → NotAfter other.now path.now }
{
    if path.len() != other.len() {
        return path.len() < other.len();
    }
    is_earlier(path, other)
}
