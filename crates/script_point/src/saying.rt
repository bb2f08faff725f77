//! Appending words to a text.
use std::alloc::{AllocError, Global};

/// An item of an enumeration: a word or a sign.
#[derive(Clone, Copy)]
pub struct ListedWord<'a> {
    pub text: &'a str,
    /// Whether it is written between backquotes.
    pub is_sign: bool,
}

/// Appends the pieces to a text, in order.
pub fn push_all(text: &mut String, pieces: &[&str]) -> Result<(), AllocError> {
    for piece in pieces {
        text.push_str(*piece)?;
    }
    Ok(())
}

/// Appends a number in decimal to a text.
pub fn push_number(alloc: Global, text: &mut String, number: usize) -> Result<(), AllocError> {
    let digits = format!(in alloc; "{number}")?;
    text.push_str(&digits)
}

/// Appends an item to a text.
fn push_item(text: &mut String, item: ListedWord<'_>) -> Result<(), AllocError> {
    if item.is_sign {
        push_all(text, &["`", item.text, "`"])
    } else {
        text.push_str(item.text)
    }
}

/// The separator before the item with this index, of `count` items: a comma, or a word before the last.
fn between<'a>(index: usize, count: usize, word: &'a str) -> &'a str {
    if index == 0 {
        return "";
    }
    if index.saturating_add(1) == count {
        word
    } else {
        ", "
    }
}

/// Appends the items, each with `before` in front, separated by commas and by a word before the last: `A, B or C`.
pub fn push_items(
    text: &mut String,
    items: &[ListedWord<'_>],
    before: &str,
    word: &str,
) -> Result<(), AllocError> {
    for (index, item) in items.iter().enumerate() {
        text.push_str(between(index, items.len(), word))?;
        text.push_str(before)?;
        push_item(text, *item)?;
    }
    Ok(())
}
