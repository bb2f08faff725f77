//! Words that are no order: reports, which are ignored, and an `on` that names no link.
ghost use Rattle.std.specs.Prelude.{◌≡◌, IfOk};
ghost use Rattle.script_lines.specs.Lines.{texts};
ghost use Rattle.script_lines.specs.Words.{words_of};
ghost use Rattle.line_play.specs.SetGiven.{is_link_word, is_set_word, is_told, is_set_report, is_on};

use line_filter::millisecond;
use script_lines::{count, words_in};
use std::alloc::{AllocError, Global};

/// Whether this word after a link's number makes a report, or a line of an answer.
fn is_link_word(word: &str) -> bool
    ensures { result ≡ is_link_word word.now }
{
    word == "started"
        || word == "in"
        || word == "down"
        || word == "tested"
        || word == "looped"
        || word == "far"
        || word == "changeover"
        || word == "says"
        || word == "hears"
        || word == "diverted"
        || word == "unsure"
        || word == "message"
        || word == "line"
        || word == "held"
        || word == "state"
        || word == "value"
        || word == "measure"
}

/// Whether this word after a millisecond makes a report that isn't about one link.
fn is_set_word(word: &str) -> bool
    ensures { result ≡ is_set_word word.now }
{
    word == "shared" || word == "unsure"
}

/// Whether these are the words of a report after its millisecond.
fn is_told(first: &str, words: &[&str]) -> bool
    ensures { result ≡ is_told first.now (texts words.now) }
{
    match words {
        [word, ..] => is_set_word(first) || (count(first).is_some() && is_link_word(word)),
        [] => is_set_word(first),
    }
}

/// Whether words are a report of a link, of the links of selections, or of the number of unsure messages, or a line of
/// an answer without a tag. As an order it is ignored; the report of an obeyed order is not.
fn is_set_report(words: &[&str]) -> bool
    ensures { result ≡ is_set_report (texts words.now) }
{
    match words {
        [word, first, more @ ..] => millisecond(word).is_some() && is_told(first, more),
        _ => false,
    }
}

/// Whether a text is such a report.
pub(crate) fn says_report(alloc: Global, text: &str) -> Result<bool, AllocError>
    ensures { IfOk result (λ b. b ≡ is_set_report (words_of text.now)) }
{
    let words = words_in(alloc, text)?;
    Ok(is_set_report(words.as_slice()))
}

/// Whether the first of some words is `on`.
fn is_on(words: &[&str]) -> bool
    ensures { result ≡ is_on (texts words.now) }
{
    match words {
        [first, ..] => *first == "on",
        [] => false,
    }
}

/// Whether the first word of a text is `on`.
pub(crate) fn says_on(alloc: Global, text: &str) -> Result<bool, AllocError>
    ensures { IfOk result (λ b. b ≡ is_on (words_of text.now)) }
{
    let words = words_in(alloc, text)?;
    Ok(is_on(words.as_slice()))
}
