//! The difference between two sets.
ghost use Rattle.std.specs.Prelude.{◌≡◌, ◌++◌, IfOk};
ghost use Rattle.draw_diff.specs.Items.{item_lines, items_of};
ghost use Rattle.draw_diff.specs.Ways.{new_way_lines, old_way_lines, way_lines};

use crate::items::items_of;
use crate::lines::push_items;
use crate::side::Side;
use crate::walk::push_ways;
use std::alloc::{AllocError, Global};
use turn_code::Draft;

/// The difference between two sets, as lines; there are none if the sets are alike.
#[derive(Drop)]
pub struct Difference {
    /// Differences in declarations: `- ` before removed items, `~ ` before changed ones, then `+ ` before added ones.
    pub items: Vec<u8>,
    /// Transitions of the old set: `- ` before removed ones, `~ ` before those whose code differs.
    pub olds: Vec<u8>,
    /// Transitions of the new set: `+ ` before added ones.
    pub news: Vec<u8>,
}

/// The lines for the declarations in which two sets differ.
fn item_difference(alloc: Global, old: &Draft, new: &Draft) -> Result<Vec<u8>, AllocError>
    ensures { IfOk result (λ v. v.items ≡ item_lines (items_of old.now) (items_of new.now)) }
{
    let olds = items_of(alloc, old)?;
    let news = items_of(alloc, new)?;
    let mut text = Vec::new(alloc);
    push_items(&mut text, &olds, &news)?;
    Ok(text)
}

/// The lines for the transitions of one side.
fn way_difference(
    alloc: Global,
    side: Side,
    set: &Draft,
    other: &Draft,
) -> Result<Vec<u8>, AllocError>
    ensures { IfOk result (λ v. v.items ≡ way_lines side set.now other.now) }
{
    let mut text = Vec::new(alloc);
    push_ways(alloc, &mut text, side, set, other)?;
    Ok(text)
}

/// Compares two sets by names; numbers, and the order of declarations, make no difference. A transition of both sets
/// has no line exactly if its code in the new set is its code in the old set, renamed. It then means the same on all
/// inputs ([`crate::runs_law`]).
///
/// # Errors
///
/// Out of memory.
pub fn compare(alloc: Global, old: &Draft, new: &Draft) -> Result<Difference, AllocError>
    ensures items { IfOk result (λ d. d.items.items ≡ item_lines (items_of old.now) (items_of new.now)) }
    ensures old { IfOk result (λ d. d.olds.items ≡ old_way_lines old.now new.now) }
    ensures new { IfOk result (λ d. d.news.items ≡ new_way_lines old.now new.now) }
{
    let items = item_difference(alloc, old, new)?;
    let olds = way_difference(alloc, Side::Old, old, new)?;
    let news = way_difference(alloc, Side::New, new, old)?;
    Ok(Difference { items, olds, news })
}
