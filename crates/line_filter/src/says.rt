//! The meaning of a line of orders.
ghost use Rattle.std.specs.Prelude.{◌≡◌, IfOk, codes, string_bytes};
ghost use Rattle.std.specs.Str.{bytes_eq};
ghost use Rattle.script_lines.specs.Lines.{texts, is_silent};
ghost use Rattle.script_lines.specs.Words.{words_of};
ghost use Rattle.line_filter.specs.Says.{order, order_at, plain_says, joined, is_report, is_tag, by_other, by_plain_report, by_tagged, by_report, by_at, by_first, says_of};

use crate::times::millisecond;
use script_lines::words_in;
use std::alloc::{AllocError, Global};

/// The meaning of a line in a stream of orders.
#[derive(Debug, Drop, PartialEq, Eq)]
pub enum LineSays {
    /// A blank line, a comment, or a report of anything other than an obeyed order.
    Nothing,
    /// `at MS`: the orders after it wait until this millisecond.
    At(u64),
    /// An order: its words, separated by single spaces.
    Order(String),
    /// `MS ok ORDER` or `MS =TAG ok ORDER`, a report: an order, and the millisecond at which it was obeyed.
    OrderAt(u64, String),
}

/// The words, separated by single spaces.
///
/// # Errors
///
/// If memory runs out.
pub fn joined(alloc: Global, first: &str, words: &[&str]) -> Result<String, AllocError>
    ensures { IfOk result (λ text. string_bytes text ≡ joined first.now (texts words.now)) }
{
    let mut text = String::new(alloc);
    text.push_str(first)?;
    for word in words {
        text.push(' ')?;
        text.push_str(word)?;
    }
    Ok(text)
}

/// Whether words are those of a blank line or of a comment.
fn is_silent(words: &[&str]) -> bool
    ensures { result ≡ is_silent (texts words.now) }
{
    match words.first() {
        Some(word) => word.as_bytes().first() == Some(&b'#'),
        None => true,
    }
}

/// The order with these words.
fn order_says(alloc: Global, first: &str, words: &[&str]) -> Result<LineSays, AllocError>
    ensures { IfOk result (λ s. plain_says s ≡ order (joined first.now (texts words.now))) }
{
    Ok(LineSays::Order(joined(alloc, first, words)?))
}

/// The order with these words, obeyed at this millisecond.
fn order_at_says(
    alloc: Global,
    millisecond: u64,
    first: &str,
    words: &[&str],
) -> Result<LineSays, AllocError>
    ensures { IfOk result (λ s. plain_says s ≡ order_at millisecond (joined first.now (texts words.now))) }
{
    Ok(LineSays::OrderAt(millisecond, joined(alloc, first, words)?))
}

/// Whether this word after a millisecond marks a report that isn't about an obeyed order.
fn is_report(word: &str) -> bool
    ensures { result ≡ is_report word.now }
{
    word == "in"
        || word == "down"
        || word == "far"
        || word == "message"
        || word == "state"
        || word == "value"
        || word == "cleared"
        || word == "told"
        || word == "accepted"
        || word == "retrieve"
        || word == "measure"
        || word == "refused"
        || word == "lost"
        || word == "orders"
        || word == "table"
        || word == "reader"
        || word == "begins"
        || word == "late"
}

/// Whether a word is a tag: `=` and 1 to 32 octets.
pub fn is_tag(word: &str) -> bool
    ensures { result ≡ is_tag word.now }
{
    word.as_bytes().first() == Some(&b'=') && 2 <= word.len() && word.len() <= 33
}

/// The meaning of a line that begins with a millisecond, unless it reports an obeyed order.
fn other_says(alloc: Global, first: &str, words: &[&str]) -> Result<LineSays, AllocError>
    ensures { IfOk result (λ s. plain_says s ≡ by_other first.now (texts words.now)) }
{
    match words.first() {
        Some(word) if is_report(word) => Ok(LineSays::Nothing),
        _ => order_says(alloc, first, words),
    }
}

/// The meaning of a line that begins with a millisecond without a tag after it.
fn plain_report_says(
    alloc: Global,
    first: &str,
    millisecond: u64,
    words: &[&str],
) -> Result<LineSays, AllocError>
    ensures { IfOk result (λ s. plain_says s ≡ by_plain_report millisecond first.now (texts words.now)) }
{
    match words {
        [word, next, more @ ..] => {
            if *word == "ok" {
                order_at_says(alloc, millisecond, next, more)
            } else {
                other_says(alloc, first, words)
            }
        }
        _ => other_says(alloc, first, words),
    }
}

/// The meaning of a line that begins with a millisecond and a tag: the order, if the line reports an obeyed one.
fn tagged_says(alloc: Global, millisecond: u64, words: &[&str]) -> Result<LineSays, AllocError>
    ensures { IfOk result (λ s. plain_says s ≡ by_tagged millisecond (texts words.now)) }
{
    match words {
        [word, next, more @ ..] => {
            if *word == "ok" {
                order_at_says(alloc, millisecond, next, more)
            } else {
                Ok(LineSays::Nothing)
            }
        }
        _ => Ok(LineSays::Nothing),
    }
}

/// The meaning of a line that begins with a millisecond.
fn report_says(
    alloc: Global,
    first: &str,
    millisecond: u64,
    words: &[&str],
) -> Result<LineSays, AllocError>
    ensures { IfOk result (λ s. plain_says s ≡ by_report millisecond first.now (texts words.now)) }
{
    match words {
        [word, more @ ..] => {
            if is_tag(word) {
                tagged_says(alloc, millisecond, more)
            } else {
                plain_report_says(alloc, first, millisecond, words)
            }
        }
        [] => plain_report_says(alloc, first, millisecond, words),
    }
}

/// The meaning of a line that begins with another word: `at MS`, or an order.
fn plain_line_says(alloc: Global, first: &str, words: &[&str]) -> Result<LineSays, AllocError>
    ensures { IfOk result (λ s. plain_says s ≡ by_at (bytes_eq first.now (codes "at")) first.now (texts words.now)) }
{
    match words {
        [word] => {
            if first == "at" {
                match millisecond(word) {
                    Some(millisecond) => Ok(LineSays::At(millisecond)),
                    None => order_says(alloc, first, words),
                }
            } else {
                order_says(alloc, first, words)
            }
        }
        _ => order_says(alloc, first, words),
    }
}

/// The meaning of a line with these words.
fn words_say(alloc: Global, words: &[&str]) -> Result<LineSays, AllocError>
    ensures { IfOk result (λ s. plain_says s ≡ says_of (texts words.now)) }
{
    if is_silent(words) {
        return Ok(LineSays::Nothing);
    }
    match words {
        [first, more @ ..] => match millisecond(first) {
            Some(millisecond) => report_says(alloc, first, millisecond, more),
            None => plain_line_says(alloc, first, more),
        },
        [] => Ok(LineSays::Nothing),
    }
}

/// The meaning of a line, given without its end.
pub fn line_says(alloc: Global, line: &str) -> Result<LineSays, AllocError>
    ensures { IfOk result (λ s. plain_says s ≡ says_of (words_of line.now)) }
{
    let words = words_in(alloc, line)?;
    words_say(alloc, &words)
}
