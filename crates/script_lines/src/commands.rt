//! The commands of a book script.
ghost use Rattle.std.specs.Prelude.{◌≡◌, ◌++◌, ◌∷◌, IfOk, option_map, option_and_then};
ghost use Rattle.std.specs.List.{flat_map};
ghost use Rattle.script_lines.specs.Numbers.{count_of};
ghost use Rattle.script_lines.specs.Lines.{texts};
ghost use Rattle.script_lines.specs.Commands.{plain_offer, plain_command, only_of, values_of, offer_of, flood_of, value_command_of, expect_of, by_verb, command_of};

use crate::numbers::{count, value};
use crate::verbs::{Call, Verb, verb_in};
use std::alloc::{AllocError, Global};
use turn_code::Value;

/// An offer of a signal to a process, both by name.
#[derive(Drop)]
pub struct Offer<'a> {
    /// The word that names the process.
    pub process: &'a str,
    /// The word that names the signal.
    pub signal: &'a str,
    /// The parameters.
    pub values: Vec<Value>,
}

/// A command. Processes, signals and variables are words, which the player of the script looks up.
#[derive(Drop)]
pub enum Command<'a> {
    /// `offer P SIG v..`: the environment offers P a signal.
    Offer(Offer<'a>),
    /// `flood N P SIG v..`: N offers, with a rest after each.
    Flood(u32, Offer<'a>),
    /// `begin P`, `finish P`, `skip P` or `state P`.
    Call(Call, &'a str),
    /// `tick N`: the clock advances by N.
    Tick(u32),
    /// `env`: takes the next signal for the environment.
    Env,
    /// `rest`: turns and skips, as long as any are possible.
    Rest,
    /// `value P x`: prints the value of variable x of P.
    Value(&'a str, &'a str),
    /// `expect TEXT`: the line printed last is TEXT.
    Expect(Vec<u8>),
}

/// The word, if it is the only one.
fn only<'a>(words: &[&'a str]) -> Option<&'a str>
    ensures { option_map (λ w. w.now) result ≡ only_of (texts words.now) }
{
    match words {
        [word] => Some(word),
        _ => None,
    }
}

/// The values that the words spell, if each spells one.
fn values_in(alloc: Global, words: &[&str]) -> Result<Option<Vec<Value>>, AllocError>
    ensures { IfOk result (λ r. option_map (λ v. v.items) r ≡ values_of (texts words.now)) }
{
    let mut values = Vec::new(alloc);
    for word in words {
        match value(word) {
            Some(value) => values.push(value)?,
            None => return Ok(None),
        }
    }
    Ok(Some(values))
}

/// An offer read from a process, a signal and values.
fn offer_in<'a>(alloc: Global, words: &[&'a str]) -> Result<Option<Offer<'a>>, AllocError>
    ensures { IfOk result (λ r. option_map plain_offer r ≡ offer_of (texts words.now)) }
{
    let [process, signal, words @ ..] = words else {
        return Ok(None);
    };
    match values_in(alloc, words)? {
        Some(values) => Ok(Some(Offer {
            process,
            signal,
            values,
        })),
        None => Ok(None),
    }
}

/// A flood read from a count, a process, a signal and values.
fn flood_in<'a>(alloc: Global, words: &[&'a str]) -> Result<Option<Command<'a>>, AllocError>
    ensures { IfOk result (λ r. option_map plain_command r ≡ flood_of (texts words.now)) }
{
    let [number, words @ ..] = words else {
        return Ok(None);
    };
    let Some(times) = count(number) else {
        return Ok(None);
    };
    match offer_in(alloc, words)? {
        Some(offer) => Ok(Some(Command::Flood(times, offer))),
        None => Ok(None),
    }
}

/// A tick read from a count and nothing else.
fn tick_in<'a>(words: &[&str]) -> Option<Command<'a>>
    ensures { option_map plain_command result ≡ by_verb Verb.Tick (texts words.now) }
{
    match count(only(words)?) {
        Some(ticks) => Some(Command::Tick(ticks)),
        None => None,
    }
}

/// A `value` command read from a process and a variable.
fn value_command_in<'a>(words: &[&'a str]) -> Option<Command<'a>>
    ensures { option_map plain_command result ≡ value_command_of (texts words.now) }
{
    match words {
        [process, variable] => Some(Command::Value(process, variable)),
        _ => None,
    }
}

/// The words joined by single spaces.
fn joined(alloc: Global, first: &str, words: &[&str]) -> Result<Vec<u8>, AllocError>
    ensures { IfOk result (λ v. v.items ≡ first.now ++ flat_map (λ w. 32 ∷ w) (texts words.now)) }
{
    let mut text = Vec::new(alloc);
    text.extend_from_slice(first.as_bytes())?;
    for word in words {
        text.push(b' ')?;
        text.extend_from_slice(word.as_bytes())?;
    }
    Ok(text)
}

/// An expectation read from at least one word; its text is the words joined by single spaces.
fn expect_in<'a>(alloc: Global, words: &[&'a str]) -> Result<Option<Command<'a>>, AllocError>
    ensures { IfOk result (λ r. option_map plain_command r ≡ expect_of (texts words.now)) }
{
    let [first, words @ ..] = words else {
        return Ok(None);
    };
    Ok(Some(Command::Expect(joined(alloc, first, words)?)))
}

/// The command read from its verb and the words after it.
fn command_by<'a>(
    alloc: Global,
    verb: Verb,
    words: &[&'a str],
) -> Result<Option<Command<'a>>, AllocError>
    ensures { IfOk result (λ r. option_map plain_command r ≡ by_verb verb (texts words.now)) }
{
    match verb {
        Verb::Offer => match offer_in(alloc, words)? {
            Some(offer) => Ok(Some(Command::Offer(offer))),
            None => Ok(None),
        },
        Verb::Flood => flood_in(alloc, words),
        Verb::Call(call) => match only(words) {
            Some(process) => Ok(Some(Command::Call(call, process))),
            None => Ok(None),
        },
        Verb::Tick => Ok(tick_in(words)),
        Verb::Env => Ok(if words.is_empty() {
            Some(Command::Env)
        } else {
            None
        }),
        Verb::Rest => Ok(if words.is_empty() {
            Some(Command::Rest)
        } else {
            None
        }),
        Verb::Value => Ok(value_command_in(words)),
        Verb::Expect => expect_in(alloc, words),
    }
}

/// The command that the words of a line mean, if they mean one.
pub fn command_in<'a>(alloc: Global, words: &[&'a str]) -> Result<Option<Command<'a>>, AllocError>
    ensures { IfOk result (λ r. option_map plain_command r ≡ command_of (texts words.now)) }
{
    let [word, words @ ..] = words else {
        return Ok(None);
    };
    match verb_in(word) {
        Some(verb) => command_by(alloc, verb, words),
        None => Ok(None),
    }
}
