//! Why a line doesn't belong to a script, for a person to read.
ghost use Rattle.std.specs.Prelude.{◌≤◌, ◌∷◌, ℕ, Bool, List, IfSome, IsNone, length};
ghost use Rattle.script_lines.specs.Lines.{texts};
ghost use Rattle.script_lines.specs.LineFaults.{IsSo, is_no_verb};

use crate::numbers::{count, value};
use crate::settings::setting_in;
use crate::verbs::{Verb, verb_in};
use std::fmt;

/// The value of `most` in `LineFault::Words` if any number of words may follow.
pub const MANY: usize = 1_000_000;

/// The greatest count.
const MOST: u32 = 2_147_483_647;

/// Why the words of a line don't belong to a script.
#[derive(Clone, Copy, PartialEq, Eq, Debug)]
pub enum LineFault<'a> {
    /// The first word begins no line of this kind of script.
    NoCommand {
        word: &'a str,
        script: &'static str,
    },
    /// It is a first line, but comes after another line.
    Late {
        word: &'a str,
    },
    /// Fewer than `least` or more than `most` words follow the first one; `there` words do.
    Words {
        word: &'a str,
        least: usize,
        most: usize,
        there: usize,
    },
    /// The word isn't a count from `least` to `most`.
    NoNumber {
        word: &'a str,
        least: u32,
        most: u32,
    },
    /// The word isn't a value.
    NoValue {
        word: &'a str,
    },
}

impl fmt::Display for LineFault<'_> {
    fn fmt<W: fmt::Write>(&self, f: &mut fmt::Formatter<W>) -> fmt::Result {
        match self {
            Self::NoCommand { word, script } => write!(f, "unknown command '{word}' in {script}"),
            Self::Late { word } => write!(f, "'{word}' belongs to the first lines"),
            Self::Words {
                word,
                least,
                most,
                there,
            } => {
                let more = if least == most { "" } else { " or more" };
                let words = if *least == 1 { "word" } else { "words" };
                write!(f, "'{word}' takes {least} {words}{more}, and has {there}",)
            }
            Self::NoNumber { word, least, most } => {
                write!(f, "'{word}' is no number from {least} to {most}")
            }
            Self::NoValue { word } => write!(
                f,
                "'{word}' is no value: true, false, or a number from -2147483648 to 2147483647",
            ),
        }
    }
}

/// The fault of a line in which fewer than `least` or more than `most` words follow the first; none otherwise.
pub fn words_fault<'a>(
    word: &'a str,
    more: &[&'a str],
    least: usize,
    most: usize,
) -> Option<LineFault<'a>>
    ensures so { (p : List ℕ → Bool) → IfSome result (IsSo p (word.now ∷ texts more.now)) }
    ensures least { IsNone result → least ≤ length more.now }
    ensures most { IsNone result → length more.now ≤ most }
{
    let there = more.len();
    if there < least || most < there {
        return Some(LineFault::Words {
            word,
            least,
            most,
            there,
        });
    }
    None
}

/// The fault of a word that isn't a count from `least` to `most`; none otherwise.
pub fn number_fault<'a>(word: &'a str, least: u32, most: u32) -> Option<LineFault<'a>>
    ensures { (p : List ℕ → Bool) → (words : List (List ℕ)) → IfSome result (IsSo p words) }
{
    match count(word) {
        Some(number) if least <= number && number <= most => None,
        _ => Some(LineFault::NoNumber { word, least, most }),
    }
}

/// The fault of the first word that isn't a value; none if all are.
fn value_fault<'a>(words: &[&'a str]) -> Option<LineFault<'a>>
    ensures { (p : List ℕ → Bool) → (line : List (List ℕ)) → IfSome result (IsSo p line) }
{
    for word in words {
        if value(word).is_none() {
            return Some(LineFault::NoValue { word });
        }
    }
    None
}

/// The fault of the words after a verb, if one is found.
pub fn verb_fault<'a>(verb: Verb, word: &'a str, more: &[&'a str]) -> Option<LineFault<'a>>
    ensures { (p : List ℕ → Bool) → IfSome result (IsSo p (word.now ∷ texts more.now)) }
{
    let (least, most) = match verb {
        Verb::Offer => (2, MANY),
        Verb::Flood => (3, MANY),
        Verb::Call(_) | Verb::Tick => (1, 1),
        Verb::Env | Verb::Rest => (0, 0),
        Verb::Value => (2, 2),
        Verb::Expect => (1, MANY),
    };
    if let Some(fault) = words_fault(word, more, least, most) {
        return Some(fault);
    }
    match (verb, more) {
        (Verb::Offer, [_, _, values @ ..]) => value_fault(values),
        (Verb::Flood, [number, _, _, values @ ..]) => match number_fault(number, 0, MOST) {
            Some(fault) => Some(fault),
            None => value_fault(values),
        },
        (Verb::Tick, [number]) => number_fault(number, 0, MOST),
        _ => None,
    }
}

/// The least and the greatest number that a first line with this word may set.
fn range_of(word: &str) -> Option<(u32, u32)> {
    match word {
        "ports" => Some((1, 64)),
        "env" => Some((1, 1024)),
        "journal" => Some((16, 65536)),
        _ => None,
    }
}

/// The fault of a line that begins with this word but sets no number.
fn setting_fault<'a>(word: &'a str, more: &[&'a str]) -> Option<LineFault<'a>>
    ensures { (p : List ℕ → Bool) → IfSome result (IsSo p (word.now ∷ texts more.now)) }
{
    let (least, most) = range_of(word)?;
    match more {
        [number] => number_fault(number, least, most),
        _ => words_fault(word, more, 1, 1),
    }
}

/// The fault of a line that doesn't belong to a book script, if one is found; of two faults the first.
pub fn book_line_fault<'a>(words: &[&'a str]) -> Option<LineFault<'a>>
    ensures { IfSome result (IsSo is_no_verb (texts words.now)) }
{
    let [word, more @ ..] = words else {
        return None;
    };
    if setting_in(words).is_some() {
        return Some(LineFault::Late { word });
    }
    match verb_in(word) {
        Some(Verb::Env) if !more.is_empty() => setting_fault(word, more),
        Some(verb) => verb_fault(verb, word, more),
        None => match range_of(word) {
            Some(_) => setting_fault(word, more),
            None => Some(LineFault::NoCommand {
                word,
                script: "a script of processes",
            }),
        },
    }
}
