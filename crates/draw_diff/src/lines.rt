//! The lines for the declarations in which two sets differ.
ghost use Rattle.std.specs.Prelude.{◌≡◌, ◌++◌, OnOk, Some, map, option_map};
ghost use Rattle.std.specs.List.{flat_map};
ghost use Rattle.draw_diff.specs.Items.{beside, change_line, item_lines, item_of, like, side_line, side_lines, sign_line};

use crate::items::Item;
use crate::names::same_name;
use crate::pieces::push_bytes;
use crate::side::Side;
use std::alloc::AllocError;

/// Appends the line of an item that only one set declares to `text`.
fn push_signed(text: &mut Vec<u8>, sign: &[u8], item: &Item) -> Result<(), AllocError>
    ensures { OnOk result (text.new.items ≡ text.old.items ++ sign_line sign.now (item_of item.now)) }
{
    push_bytes(text, sign)?;
    push_bytes(text, &item.head)?;
    push_bytes(text, &item.tail)?;
    push_bytes(text, b"\n")
}

/// Appends the line of an item that both sets declare to `text`, if its tail differs.
fn push_change(text: &mut Vec<u8>, old: &Item, new: &Item) -> Result<(), AllocError>
    ensures { OnOk result (text.new.items ≡ text.old.items ++ change_line (item_of old.now) (item_of new.now)) }
{
    if same_name(&old.tail, &new.tail) {
        return Ok(());
    }
    push_bytes(text, b"~ ")?;
    push_bytes(text, &old.head)?;
    push_bytes(text, &old.tail)?;
    push_bytes(text, b" -> ")?;
    push_bytes(text, &new.head)?;
    push_bytes(text, &new.tail)?;
    push_bytes(text, b"\n")
}

/// Returns the first item of a list that has the same head as this one.
fn like<'a>(item: &Item, others: &'a [Item]) -> Option<&'a Item>
    ensures { option_map (λ i. item_of i.now) result ≡ like (item_of item.now) (map item_of others.now) }
{
    for other in others {
        if same_name(&item.head, &other.head) {
            return Some(other);
        }
    }
    None
}

/// Appends the line of an item that both sets declare to `text`; only the old side writes it.
fn push_both(text: &mut Vec<u8>, side: Side, item: &Item, other: &Item) -> Result<(), AllocError>
    ensures { OnOk result (text.new.items ≡ text.old.items ++ beside side (item_of item.now) (Some (item_of other.now))) }
{
    match side {
        Side::Old => push_change(text, item, other),
        Side::New => Ok(()),
    }
}

/// Appends the line of an item of one side to `text`, compared with the items of the other side.
fn push_line(text: &mut Vec<u8>, side: Side, item: &Item, others: &[Item]) -> Result<(), AllocError>
    ensures { OnOk result (text.new.items ≡ text.old.items ++ side_line side (item_of item.now) (map item_of others.now)) }
{
    match like(item, others) {
        Some(other) => push_both(text, side, item, other),
        None => push_signed(text, side.sign(), item),
    }
}

/// Appends the lines of one side's items to `text`: removed or changed items, or added ones.
fn push_side(
    text: &mut Vec<u8>,
    side: Side,
    items: &[Item],
    others: &[Item],
) -> Result<(), AllocError>
    ensures { OnOk result (text.new.items ≡ text.old.items ++ side_lines side (map item_of items.now) (map item_of others.now)) }
{
    for item in items {
        push_line(text, side, item, others)?;
    }
    Ok(())
}

/// Appends the lines of removed, changed and added items to `text`.
pub(crate) fn push_items(text: &mut Vec<u8>, olds: &[Item], news: &[Item]) -> Result<(), AllocError>
    ensures { OnOk result (text.new.items ≡ text.old.items ++ item_lines (map item_of olds.now) (map item_of news.now)) }
{
    push_side(text, Side::Old, olds, news)?;
    push_side(text, Side::New, news, olds)
}
