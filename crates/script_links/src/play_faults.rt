//! Why a line doesn't belong to a script for `play`, for a person to read.

use crate::group_commands::bound_in;
use crate::heads::{head_in, term_head_in};
use crate::octets::octets_in;
use crate::orders::{mode_named, order_in};
use crate::reasons::PlayFault;
use crate::unit_words::unit_in_words;
use crate::verbs::{TermVerb, term_verb_in};
use crate::words::{GroupVerb, group_verb_in, group_word_in};
use resend_store::measure_named;
use script_lines::{
    Call, LineFault, MANY, Verb, book_line_fault, lines_in, number_fault, verb_fault, verb_in,
    words_fault,
};
use std::alloc::{AllocError, Global};

/// The greatest count.
const MOST: u32 = 2_147_483_647;

/// The most repetitions of a signal unit by one line of a script.
const MOST_TIMES: u32 = 1_000_000;

/// The fault as one that scripts of all kinds have.
fn of_line<'a>(fault: Option<LineFault<'a>>) -> Option<PlayFault<'a>> {
    match fault {
        Some(fault) => Some(PlayFault::Line(fault)),
        None => None,
    }
}

/// The fault of a word that doesn't spell `least` to `most` octets in hexadecimal digits.
fn octets_fault<'a>(
    alloc: Global,
    word: &'a str,
    hex: &'a str,
    least: usize,
    most: usize,
) -> Result<Option<PlayFault<'a>>, AllocError> {
    let Some(octets) = octets_in(alloc, hex)? else {
        return Ok(Some(PlayFault::NoOctets { word: hex }));
    };
    let there = octets.len();
    if least <= there && there <= most {
        return Ok(None);
    }
    Ok(Some(PlayFault::Octets {
        word,
        least,
        most,
        there,
    }))
}

/// The fault of a unit, without its check octets, whose length indicator is wrong.
fn indicator_fault<'a>(octets: &[u8]) -> Option<PlayFault<'a>> {
    match octets {
        [_, _, third, more @ ..] => {
            let says = third % 64;
            let there = more.len();
            if usize::from(says) == there.min(63) {
                return None;
            }
            Some(PlayFault::Indicator { says, there })
        }
        _ => None,
    }
}

/// The fault of a word that doesn't spell a unit without its check octets.
fn unit_fault<'a>(
    alloc: Global,
    word: &'a str,
    hex: &'a str,
) -> Result<Option<PlayFault<'a>>, AllocError> {
    if let Some(fault) = octets_fault(alloc, word, hex, 3, 276)? {
        return Ok(Some(fault));
    }
    match octets_in(alloc, hex)? {
        Some(octets) => Ok(indicator_fault(&octets)),
        None => Ok(None),
    }
}

/// The fault of a word that isn't an order.
fn order_fault<'a>(word: &'a str) -> Option<PlayFault<'a>> {
    match order_in(word) {
        Some(_) => None,
        None => Some(PlayFault::NoOrder { word }),
    }
}

/// The fault of a word that isn't a kind of error correction.
fn mode_fault<'a>(word: &'a str) -> Option<PlayFault<'a>> {
    match mode_named(word) {
        Some(_) => None,
        None => Some(PlayFault::NoMode { word }),
    }
}

/// The fault of the word after a verb of a terminal's script.
fn behind_term_verb<'a>(
    alloc: Global,
    verb: TermVerb,
    word: &'a str,
    next: &'a str,
) -> Result<Option<PlayFault<'a>>, AllocError> {
    match verb {
        TermVerb::Order => Ok(order_fault(next)),
        TermVerb::Unit => unit_fault(alloc, word, next),
        TermVerb::Line => octets_fault(alloc, word, next, 0, MANY),
        TermVerb::Msu => octets_fault(alloc, word, next, 3, 273),
        TermVerb::Out => Ok(of_line(number_fault(next, 0, MOST))),
        TermVerb::Errors => Ok(of_line(number_fault(next, 1, MOST_TIMES))),
        TermVerb::Retrieve => Ok(of_line(number_fault(next, 0, 127))),
        TermVerb::Measure => Ok(measure_fault(next)),
    }
}

/// The fault of the words of a unit after `unit` or `units N`.
fn said_fault<'a>(
    alloc: Global,
    word: &'a str,
    unit: &[&'a str],
) -> Result<Option<PlayFault<'a>>, AllocError> {
    match unit {
        [hex] => unit_fault(alloc, word, hex),
        _ => match unit_in_words(alloc, unit)? {
            Some(_) => Ok(None),
            None => Ok(Some(PlayFault::NoUnit { word })),
        },
    }
}

/// The fault of the words after `units`.
fn units_fault<'a>(
    alloc: Global,
    word: &'a str,
    more: &[&'a str],
) -> Result<Option<PlayFault<'a>>, AllocError> {
    let [number, _, ..] = more else {
        return Ok(of_line(words_fault(word, more, 2, 2)));
    };
    match of_line(number_fault(number, 1, MOST_TIMES)) {
        Some(fault) => Ok(Some(fault)),
        None => said_fault(alloc, word, &more[1..]),
    }
}

/// The fault of a line of a terminal's script that doesn't consist of a verb and one word.
fn own_fault<'a>(
    alloc: Global,
    word: &'a str,
    more: &[&'a str],
    script: &'static str,
) -> Result<Option<PlayFault<'a>>, AllocError> {
    if word == "told" || word == "accepted" {
        return Ok(of_line(words_fault(word, more, 0, 0)));
    }
    if word == "units" {
        return units_fault(alloc, word, more);
    }
    Ok(Some(PlayFault::Line(LineFault::NoCommand { word, script })))
}

/// The fault of a word that isn't a measurement.
fn measure_fault<'a>(word: &'a str) -> Option<PlayFault<'a>> {
    if word == "reset" || word == "aborted_periods" || measure_named(word).is_some() {
        None
    } else {
        Some(PlayFault::NoMeasure { word })
    }
}

/// The fault of a word that is neither `yes` nor `no`.
fn way_fault<'a>(word: &'a str) -> Option<PlayFault<'a>> {
    if word == "yes" || word == "no" {
        None
    } else {
        Some(PlayFault::NoWay { word })
    }
}

/// The fault of the word after `bound`, if it isn't a message bound to a link.
fn bound_fault<'a>(
    alloc: Global,
    word: &'a str,
    next: &'a str,
) -> Result<Option<PlayFault<'a>>, AllocError> {
    if let Some(fault) = octets_fault(alloc, word, next, 6, 22)? {
        return Ok(Some(fault));
    }
    match bound_in(alloc, next)? {
        Some(_) => Ok(None),
        None => Ok(Some(PlayFault::NotBound { word })),
    }
}

/// The fault of the word after a verb of a link set's script.
fn behind_group_verb<'a>(
    alloc: Global,
    verb: GroupVerb,
    word: &'a str,
    next: &'a str,
) -> Result<Option<PlayFault<'a>>, AllocError> {
    match verb {
        GroupVerb::On => Ok(of_line(number_fault(next, 0, MOST))),
        GroupVerb::Send => octets_fault(alloc, word, next, 5, 273),
        GroupVerb::Bound => bound_fault(alloc, word, next),
        GroupVerb::Message => octets_fault(alloc, word, next, 0, MANY),
        GroupVerb::Admit => Ok(way_fault(next)),
    }
}

/// The verb of a book script that a word is, if a terminal's script has it too.
fn shared_verb(word: &str) -> Option<Verb> {
    match verb_in(word) {
        Some(Verb::Tick) => Some(Verb::Tick),
        Some(Verb::Call(Call::State)) => Some(Verb::Call(Call::State)),
        Some(Verb::Value) => Some(Verb::Value),
        Some(Verb::Expect) => Some(Verb::Expect),
        _ => None,
    }
}

/// The fault of the words of a line in a terminal's script; `script` is the name for this kind of script.
fn term_fault<'a>(
    alloc: Global,
    word: &'a str,
    more: &[&'a str],
    script: &'static str,
) -> Result<Option<PlayFault<'a>>, AllocError> {
    if let Some(verb) = shared_verb(word) {
        return Ok(of_line(verb_fault(verb, word, more)));
    }
    let Some(verb) = term_verb_in(word) else {
        return own_fault(alloc, word, more, script);
    };
    match more {
        [next] => behind_term_verb(alloc, verb, word, next),
        [] if verb == TermVerb::Retrieve => Ok(None),
        [_, _, ..] if verb == TermVerb::Unit => said_fault(alloc, word, more),
        _ => Ok(of_line(words_fault(word, more, 1, 1))),
    }
}

/// Whether a word begins commands of a terminal's script that a link set's script lacks.
fn is_terminals(word: &str) -> bool {
    word == "msu"
        || word == "units"
        || word == "errors"
        || word == "told"
        || word == "accepted"
        || word == "retrieve"
        || word == "measure"
}

/// The fault of the words of a line after the first one in a terminal's script.
pub fn term_line_fault<'a>(
    alloc: Global,
    words: &[&'a str],
) -> Result<Option<PlayFault<'a>>, AllocError> {
    match words {
        [word, more @ ..] => {
            if term_head_in(words).is_some() {
                return Ok(Some(PlayFault::Line(LineFault::Late { word })));
            }
            term_fault(alloc, word, more, "a terminal's script")
        }
        [] => Ok(None),
    }
}

/// The fault of a line in a link set's script that doesn't begin with a verb only of link sets.
fn shared_fault<'a>(
    alloc: Global,
    word: &'a str,
    more: &[&'a str],
) -> Result<Option<PlayFault<'a>>, AllocError> {
    let script = "a link set's script";
    if is_terminals(word) {
        return Ok(Some(PlayFault::Line(LineFault::NoCommand { word, script })));
    }
    term_fault(alloc, word, more, script)
}

/// The fault of the words of a line after the first one in a link set's script.
pub fn group_line_fault<'a>(
    alloc: Global,
    words: &[&'a str],
) -> Result<Option<PlayFault<'a>>, AllocError> {
    let [word, more @ ..] = words else {
        return Ok(None);
    };
    if group_word_in(word).is_some() {
        return Ok(of_line(words_fault(word, more, 0, 0)));
    }
    if head_in(words).is_some() {
        return Ok(Some(PlayFault::Line(LineFault::Late { word })));
    }
    let Some(verb) = group_verb_in(word) else {
        return shared_fault(alloc, word, more);
    };
    match more {
        [next] => behind_group_verb(alloc, verb, word, next),
        _ => Ok(of_line(words_fault(word, more, 1, 1))),
    }
}

/// The fault of a kind of error correction with N1 and N2 in a terminal's first line.
fn limits_fault<'a>(mode: &'a str, messages: &'a str, octets: &'a str) -> Option<PlayFault<'a>> {
    if let Some(fault) = mode_fault(mode) {
        return Some(fault);
    }
    if mode != "cyclic" {
        return Some(PlayFault::NoLimits { word: mode });
    }
    match number_fault(messages, 1, 127) {
        Some(fault) => Some(PlayFault::Line(fault)),
        None => of_line(number_fault(octets, 300, 8192)),
    }
}

/// The fault of the words after `terminal`, as a first line.
fn term_head_fault<'a>(word: &'a str, more: &[&'a str]) -> Option<PlayFault<'a>> {
    match more {
        [mode] => mode_fault(mode),
        [mode, messages, octets] => limits_fault(mode, messages, octets),
        [] => of_line(words_fault(word, more, 1, 1)),
        _ => of_line(words_fault(word, more, 3, 3)),
    }
}

/// The fault of words that begin with `terminal` or `group`, as a first line.
fn head_fault<'a>(word: &'a str, more: &[&'a str]) -> Option<PlayFault<'a>> {
    if word == "terminal" {
        return term_head_fault(word, more);
    }
    match more {
        [mode, links] => match mode_fault(mode) {
            Some(fault) => Some(fault),
            None => of_line(number_fault(links, 1, 16)),
        },
        _ => of_line(words_fault(word, more, 2, 2)),
    }
}

/// The fault of the words of a line in a book script; a line meant as the first of another kind of script counts too.
pub fn other_line_fault<'a>(words: &[&'a str]) -> Option<PlayFault<'a>> {
    match words {
        [word, more @ ..] if *word == "terminal" || *word == "group" => {
            if term_head_in(words).is_some() || head_in(words).is_some() {
                return Some(PlayFault::Line(LineFault::Late { word }));
            }
            head_fault(word, more)
        }
        _ => of_line(book_line_fault(words)),
    }
}

/// The fault of a line in a script whose first line has these words.
fn line_fault<'a>(
    alloc: Global,
    first: &[&'a str],
    words: &[&'a str],
) -> Result<Option<PlayFault<'a>>, AllocError> {
    if head_in(first).is_some() {
        group_line_fault(alloc, words)
    } else if term_head_in(first).is_some() {
        term_line_fault(alloc, words)
    } else {
        Ok(other_line_fault(words))
    }
}

/// The fault of the line with this number in the script that a text contains, if one is found.
///
/// # Errors
///
/// `AllocError`: out of memory.
pub fn play_fault<'a>(
    alloc: Global,
    text: &'a str,
    number: usize,
) -> Result<Option<PlayFault<'a>>, AllocError> {
    let lines = lines_in(alloc, text)?;
    let Some(first) = lines.first() else {
        return Ok(None);
    };
    for line in &lines {
        if line.number == number {
            return line_fault(alloc, &first.words, &line.words);
        }
    }
    Ok(None)
}
