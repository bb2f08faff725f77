//! Whether no two symbols overlap.
ghost use Rattle.std.specs.Prelude.{◌≡◌, ◌+◌, map, nat_le};
ghost use Rattle.std.specs.List.{list_all};
ghost use Rattle.draw_sets.specs.Drawing.{ends_before, are_apart, all_apart, place_drawn};

use crate::frames::Placed;
use crate::layout::Drawn;

/// Whether a stretch ends at or before the start of another one.
fn ends_before(start: u32, length: u32, other: u32) -> bool
    ensures { result ≡ nat_le (start + length) other }
{
    u64::from(start) + u64::from(length) <= u64::from(other)
}

/// Whether two places share no point except on their edges.
fn are_apart(one: &Placed, other: &Placed) -> bool
    ensures { result ≡ are_apart one.now other.now }
{
    one.width == 0
        || other.width == 0
        || ends_before(one.left, one.width, other.left)
        || ends_before(other.left, other.width, one.left)
        || ends_before(one.top, one.height, other.top)
        || ends_before(other.top, other.height, one.top)
}

/// Whether a place is apart from each of these.
fn is_apart_from(one: &Placed, others: &[Drawn<'_>]) -> bool
    ensures { result ≡ list_all (are_apart one.now) (map place_drawn others.now) }
{
    for other in others {
        if !are_apart(one, &other.place) {
            return false;
        }
    }
    true
}

/// Whether every two places are apart.
pub(crate) fn all_apart(drawn: &[Drawn<'_>]) -> bool
    ensures { result ≡ all_apart (map place_drawn drawn.now) }
{
    for index in 0..drawn.len() {
        if !is_apart_from(&drawn[index].place, &drawn[index + 1..]) {
            return false;
        }
    }
    true
}
