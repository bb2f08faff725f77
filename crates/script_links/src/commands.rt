//! The commands of a terminal's script.
ghost use Rattle.std.specs.Prelude.{◌≡◌, ◌∷◌, [], Some, IfOk, option_map, option_and_then};
ghost use Rattle.script_lines.specs.Lines.{texts};
ghost use Rattle.script_lines.specs.Commands.{command_of};
ghost use Rattle.script_lines.specs.Numbers.{count_of};
ghost use Rattle.script_links.specs.Octets.{octets_of};
ghost use Rattle.script_links.specs.Orders.{order_of};
ghost use Rattle.script_links.specs.TermCommands.{plain_term_command, unit_by, units_by, units_of, unit_octets_of, words_of, msu_by, measure_by, times_of, asked_of, shared_call, shared_of, by_term_verb, term_command_of, order, line, out, errors, retrieving};
ghost use Rattle.script_links.specs.UnitWords.{number_to, unit_of_words};

use crate::octets::{is_message, is_unit, octets_in};
use crate::orders::{Order, order_in};
use crate::unit_words::{number_in, unit_in_words};
use crate::verbs::{TermVerb, term_verb_in};
use resend_store::{Measure, measure_named};
use script_lines::{Call, Command, command_in, count};
use std::alloc::{AllocError, Global};

/// The most repetitions of a signal unit by one line of a script.
const MOST_TIMES: u32 = 1_000_000;

/// A command of a terminal's script. Processes and variables are words, which the player of the script looks up.
#[derive(Drop)]
pub enum TermCommand<'a> {
    /// `command W`: gives the terminal an order.
    Order(Order),
    /// `unit HEX`, or a unit in words: receives a signal unit, given without its check octets, 3 to 276 octets.
    Unit(Vec<u8>),
    /// `units N HEX`, or a unit in words: receives this signal unit N times, 1 to 1,000,000.
    Units(u32, Vec<u8>),
    /// `errors N`: receives N signal units with errors, 1 to 1,000,000.
    Errors(u32),
    /// `line HEX`: receives octets as they are on the line.
    Line(Vec<u8>),
    /// `msu HEX`: queues a message to send: service information octet and signalling information field, 3 to 273
    /// octets.
    Msu(Vec<u8>),
    /// `out N`: sends N units.
    Out(u32),
    /// `tick N`: advances the clock by N.
    Tick(u32),
    /// `told`: prints the next report of the terminal.
    Told,
    /// `accepted`: prints the sequence number of the message accepted last.
    Accepted,
    /// `retrieve N`: retrieves the messages after number N, 127 at most. `retrieve`: retrieves those never sent.
    Retrieve(Option<u8>),
    /// `measure NAME`: prints a count.
    Measure(Measure),
    /// `measure aborted_periods`: prints the number of aborted proving periods.
    Aborted,
    /// `measure reset`: resets all counts.
    Reset,
    /// `state P`: prints the state of P.
    State(&'a str),
    /// `value P x`: prints the value of variable x of P.
    Value(&'a str, &'a str),
    /// `expect TEXT`: the line printed last is TEXT.
    Expect(Vec<u8>),
}

/// Reads `command W`.
fn ordered<'a>(word: &str) -> Option<TermCommand<'a>>
    ensures { option_map plain_term_command result ≡ option_map order (order_of word.now) }
{
    match order_in(word) {
        Some(order) => Some(TermCommand::Order(order)),
        None => None,
    }
}

/// Reads `unit HEX`.
fn unit_in<'a>(alloc: Global, word: &str) -> Result<Option<TermCommand<'a>>, AllocError>
    ensures { IfOk result (λ r. option_map plain_term_command r ≡ unit_by (octets_of word.now)) }
{
    match octets_in(alloc, word)? {
        Some(octets) if is_unit(&octets) => Ok(Some(TermCommand::Unit(octets))),
        _ => Ok(None),
    }
}

/// The number of repetitions that a word spells: 1 to 1,000,000.
fn times_in(word: &str) -> Option<u32>
    ensures { result ≡ times_of word.now }
{
    match count(word) {
        Some(times) if 1 <= times && times <= MOST_TIMES => Some(times),
        _ => None,
    }
}

/// The octets of a unit, written as digits in one word or in several words.
fn unit_octets_in(alloc: Global, words: &[&str]) -> Result<Option<Vec<u8>>, AllocError>
    ensures { IfOk result (λ r. option_map (λ v. v.items) r ≡ unit_octets_of (texts words.now)) }
{
    match words {
        [word] => octets_in(alloc, word),
        _ => unit_in_words(alloc, words),
    }
}

/// Reads `unit` and a unit in words.
fn unit_said<'a>(alloc: Global, words: &[&str]) -> Result<Option<TermCommand<'a>>, AllocError>
    ensures { IfOk result (λ r. option_map plain_term_command r ≡ unit_by (unit_of_words (texts words.now))) }
{
    match unit_in_words(alloc, words)? {
        Some(octets) if is_unit(&octets) => Ok(Some(TermCommand::Unit(octets))),
        _ => Ok(None),
    }
}

/// Reads the number and the unit of `units`.
fn units_said<'a>(
    alloc: Global,
    number: &str,
    words: &[&str],
) -> Result<Option<TermCommand<'a>>, AllocError>
    ensures { IfOk result (λ r. option_map plain_term_command r ≡ units_by (times_of number.now) (unit_octets_of (texts words.now))) }
{
    let Some(times) = times_in(number) else {
        return Ok(None);
    };
    match unit_octets_in(alloc, words)? {
        Some(octets) if is_unit(&octets) => Ok(Some(TermCommand::Units(times, octets))),
        _ => Ok(None),
    }
}

/// Reads `units N` and a unit in digits or in words.
fn units_in<'a>(alloc: Global, words: &[&str]) -> Result<Option<TermCommand<'a>>, AllocError>
    ensures { IfOk result (λ r. option_map plain_term_command r ≡ units_of (texts words.now)) }
{
    match words {
        [number, more @ ..] => units_said(alloc, number, more),
        [] => Ok(None),
    }
}

/// Reads `errors N`.
fn errors_in<'a>(word: &str) -> Option<TermCommand<'a>>
    ensures { option_map plain_term_command result ≡ option_map errors (times_of word.now) }
{
    match times_in(word) {
        Some(times) => Some(TermCommand::Errors(times)),
        None => None,
    }
}

/// Reads `retrieve N`.
fn retrieve_in<'a>(word: &str) -> Option<TermCommand<'a>>
    ensures { option_map plain_term_command result ≡ option_map (λ n. retrieving (Some n)) (number_to 127 word.now) }
{
    match number_in(word, 127) {
        Some(number) => Some(TermCommand::Retrieve(Some(number))),
        None => None,
    }
}

/// Reads `measure NAME`, `measure aborted_periods` or `measure reset`.
fn measure_in<'a>(word: &str) -> Option<TermCommand<'a>>
    ensures { option_map plain_term_command result ≡ measure_by word.now }
{
    if word == "reset" {
        return Some(TermCommand::Reset);
    }
    if word == "aborted_periods" {
        return Some(TermCommand::Aborted);
    }
    match measure_named(word) {
        Some(measure) => Some(TermCommand::Measure(measure)),
        None => None,
    }
}

/// Reads a command of one word.
fn asked_in<'a>(word: &str) -> Option<TermCommand<'a>>
    ensures { option_map plain_term_command result ≡ asked_of word.now }
{
    if word == "told" {
        Some(TermCommand::Told)
    } else if word == "accepted" {
        Some(TermCommand::Accepted)
    } else if word == "retrieve" {
        Some(TermCommand::Retrieve(None))
    } else {
        None
    }
}

/// Reads `line HEX`.
fn line_in<'a>(alloc: Global, word: &str) -> Result<Option<TermCommand<'a>>, AllocError>
    ensures { IfOk result (λ r. option_map plain_term_command r ≡ option_map line (octets_of word.now)) }
{
    match octets_in(alloc, word)? {
        Some(octets) => Ok(Some(TermCommand::Line(octets))),
        None => Ok(None),
    }
}

/// Reads `msu HEX`.
fn msu_in<'a>(alloc: Global, word: &str) -> Result<Option<TermCommand<'a>>, AllocError>
    ensures { IfOk result (λ r. option_map plain_term_command r ≡ msu_by (octets_of word.now)) }
{
    match octets_in(alloc, word)? {
        Some(octets) if is_message(&octets) => Ok(Some(TermCommand::Msu(octets))),
        _ => Ok(None),
    }
}

/// Reads `out N`.
fn out_in<'a>(word: &str) -> Option<TermCommand<'a>>
    ensures { option_map plain_term_command result ≡ option_map out (count_of word.now) }
{
    match count(word) {
        Some(units) => Some(TermCommand::Out(units)),
        None => None,
    }
}

/// The call of a book script as a terminal's command, if a terminal's script has it too.
fn shared_call<'a>(call: Call, process: &'a str) -> Option<TermCommand<'a>>
    ensures { option_map plain_term_command result ≡ shared_call call process.now }
{
    match call {
        Call::State => Some(TermCommand::State(process)),
        _ => None,
    }
}

/// The command of a book script that the words mean, if a terminal's script has it too.
fn shared_in<'a>(alloc: Global, words: &[&'a str]) -> Result<Option<TermCommand<'a>>, AllocError>
    ensures { IfOk result (λ r. option_map plain_term_command r ≡ option_and_then shared_of (command_of (texts words.now))) }
{
    let Some(command) = command_in(alloc, words)? else {
        return Ok(None);
    };
    match command {
        Command::Tick(ticks) => Ok(Some(TermCommand::Tick(ticks))),
        Command::Call(call, process) => Ok(shared_call(call, process)),
        Command::Value(process, variable) => Ok(Some(TermCommand::Value(process, variable))),
        Command::Expect(text) => Ok(Some(TermCommand::Expect(text))),
        Command::Offer(_) | Command::Flood(_, _) | Command::Env | Command::Rest => Ok(None),
    }
}

/// The command that a verb and the word after it mean.
fn command_by<'a>(
    alloc: Global,
    verb: TermVerb,
    word: &str,
) -> Result<Option<TermCommand<'a>>, AllocError>
    ensures { IfOk result (λ r. option_map plain_term_command r ≡ by_term_verb verb word.now) }
{
    match verb {
        TermVerb::Order => Ok(ordered(word)),
        TermVerb::Unit => unit_in(alloc, word),
        TermVerb::Line => line_in(alloc, word),
        TermVerb::Msu => msu_in(alloc, word),
        TermVerb::Out => Ok(out_in(word)),
        TermVerb::Errors => Ok(errors_in(word)),
        TermVerb::Retrieve => Ok(retrieve_in(word)),
        TermVerb::Measure => Ok(measure_in(word)),
    }
}

/// The command that two words mean.
fn pair_in<'a>(
    alloc: Global,
    first: &'a str,
    word: &'a str,
) -> Result<Option<TermCommand<'a>>, AllocError>
    ensures { IfOk result (λ r. option_map plain_term_command r ≡ term_command_of (first.now ∷ word.now ∷ [])) }
{
    match term_verb_in(first) {
        Some(verb) => command_by(alloc, verb, word),
        None => shared_in(alloc, &[first, word]),
    }
}

/// The command that three or more words mean.
fn words_in<'a>(alloc: Global, words: &[&'a str]) -> Result<Option<TermCommand<'a>>, AllocError>
    ensures { IfOk result (λ r. option_map plain_term_command r ≡ words_of (texts words.now)) }
{
    match words {
        [first, more @ ..] => {
            if *first == "unit" {
                unit_said(alloc, more)
            } else if *first == "units" {
                units_in(alloc, more)
            } else {
                shared_in(alloc, words)
            }
        }
        [] => Ok(None),
    }
}

/// The command that the words of a line mean, if they mean one.
pub fn term_command_in<'a>(
    alloc: Global,
    words: &[&'a str],
) -> Result<Option<TermCommand<'a>>, AllocError>
    ensures { IfOk result (λ r. option_map plain_term_command r ≡ term_command_of (texts words.now)) }
{
    match words {
        [] => Ok(None),
        [word] => Ok(asked_in(word)),
        [first, word] => pair_in(alloc, first, word),
        [_, _, _, ..] => words_in(alloc, words),
    }
}
