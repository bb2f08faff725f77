//! The lines of orders in a trace.
ghost use Rattle.std.specs.Prelude.{◌≡◌, map, IfOk};
ghost use Rattle.mtp2_play.specs.TracedEnds.{is_reset, asks_measure, is_question, has_no_front, front_of_words, order_front};

use script_play::{front_of, words_in};
use std::alloc::{AllocError, Global};

/// Whether these words are `reset`.
fn is_reset(words: &[&str]) -> bool
    ensures { result ≡ is_reset (map (λ w. w.now) words.now) }
{
    match words {
        [word] => *word == "reset",
        _ => false,
    }
}

/// Whether an order with this first word and these further words is a question about measurements.
fn asks_measure(word: &str, words: &[&str]) -> bool
    ensures { result ≡ asks_measure word.now (map (λ w. w.now) words.now) }
{
    word == "measure" && !is_reset(words)
}

/// Whether an order with this first word asks about a process.
fn is_question(word: &str) -> bool
    ensures { result ≡ is_question word.now }
{
    word == "state" || word == "value"
}

/// Whether the words are only a question, or there are none.
fn has_no_front(words: &[&str]) -> bool
    ensures { result ≡ has_no_front (map (λ w. w.now) words.now) }
{
    match words {
        [word, more @ ..] => is_question(word) || asks_measure(word, more),
        [] => true,
    }
}

/// The line of an order with these words.
fn front_of_words(alloc: Global, words: &[&str]) -> Result<Vec<u8>, AllocError>
    ensures { IfOk result (λ v. v.items ≡ front_of_words (map (λ w. w.now) words.now)) }
{
    if has_no_front(words) {
        return Ok(Vec::new(alloc));
    }
    front_of(alloc, words)
}

/// Returns the line of an order, which comes before its events: `> ` and its words, separated by one space. It is empty
/// for a question (`state P`, `value P x`, `measure` or `measure NAME`), and if there are no words.
pub fn order_front(alloc: Global, order: &str) -> Result<Vec<u8>, AllocError>
    ensures { IfOk result (λ v. v.items ≡ order_front order.now) }
{
    let words = words_in(alloc, order)?;
    front_of_words(alloc, &words)
}
