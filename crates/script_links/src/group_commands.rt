//! The commands of a link set's script.
ghost use Rattle.std.specs.Prelude.{◌≡◌, ◌∷◌, [], IfOk, option_map, option_and_then};
ghost use Rattle.script_lines.specs.Lines.{texts};
ghost use Rattle.script_lines.specs.Numbers.{count_of};
ghost use Rattle.script_links.specs.Octets.{octets_of};
ghost use Rattle.script_links.specs.TermCommands.{term_command_of};
ghost use Rattle.script_links.specs.GroupCommands.{plain_group_command, on, message, admitting, way_of, own, sending_by, is_bound_message, binding_by, by_group_verb, shared_of, group_word_of, group_command_of};

use crate::commands::{TermCommand, term_command_in};
use crate::octets::octets_in;
use crate::orders::Order;
use crate::words::{GroupVerb, GroupWord, group_verb_in, group_word_in};
use group_changeover::Points;
use script_lines::count;
use std::alloc::{AllocError, Global};

/// The point codes of the set in a script.
const POINTS: Points = Points { own: 1, peer: 2 };

/// A command of a link set's script. Processes and variables are words, which the player of the script looks up. 'The
/// link' is the one that the last `on` named, or 0 before any.
#[derive(Drop)]
pub enum GroupCommand<'a> {
    /// `command W`: gives the link's terminal an order.
    Order(Order),
    /// `unit HEX`: receives a signal unit on the link, given without its check octets, 3 to 276 octets.
    Unit(Vec<u8>),
    /// `line HEX`: receives octets on the link as they are on the line.
    Line(Vec<u8>),
    /// `out N`: sends N units on the link.
    Out(u32),
    /// `tick N`: advances the clock of all links by N.
    Tick(u32),
    /// `state P`: prints the state of the link's process P.
    State(&'a str),
    /// `value P x`: prints the value of variable x of the link's process P.
    Value(&'a str, &'a str),
    /// `expect TEXT`: the line printed last is this one.
    Expect(Vec<u8>),
    /// `on L`: later lines refer to link L.
    On(u32),
    /// `send HEX`: queues a message to send on the link of its selection: service information octet and signalling
    /// information field, which begins with a label; 5 to 273 octets in all.
    Send(Vec<u8>),
    /// `bound HEX`: queues a message bound to the link on it: service information octet and signalling information
    /// field.
    Bound(Vec<u8>),
    /// `message HEX`: receives the signalling information field of a changeover message.
    Message(Vec<u8>),
    /// `admit yes`, `admit no`: admits the link to selections and to messages from other links, or no longer.
    Admit(bool),
    /// A command of one word.
    Own(GroupWord),
}

/// Reads `on L`.
fn on_in<'a>(word: &str) -> Option<GroupCommand<'a>>
    ensures { option_map plain_group_command result ≡ option_map on (count_of word.now) }
{
    match count(word) {
        Some(link) => Some(GroupCommand::On(link)),
        None => None,
    }
}

/// Reads `send HEX`.
fn send_in<'a>(alloc: Global, word: &str) -> Result<Option<GroupCommand<'a>>, AllocError>
    ensures { IfOk result (λ r. option_map plain_group_command r ≡ sending_by (octets_of word.now)) }
{
    match octets_in(alloc, word)? {
        Some(octets) if 5 <= octets.len() && octets.len() <= 273 => {
            Ok(Some(GroupCommand::Send(octets)))
        }
        _ => Ok(None),
    }
}

/// Whether the octets are a message bound to a link.
fn is_bound_message(octets: &[u8]) -> bool
    ensures { result ≡ is_bound_message octets.now }
{
    match octets {
        [sio, sif @ ..] => POINTS.binds(*sio, sif),
        [] => false,
    }
}

/// Reads `bound HEX`.
pub(crate) fn bound_in<'a>(
    alloc: Global,
    word: &str,
) -> Result<Option<GroupCommand<'a>>, AllocError>
    ensures { IfOk result (λ r. option_map plain_group_command r ≡ binding_by (octets_of word.now)) }
{
    match octets_in(alloc, word)? {
        Some(octets) if is_bound_message(&octets) => Ok(Some(GroupCommand::Bound(octets))),
        _ => Ok(None),
    }
}

/// Reads `message HEX`.
fn message_in<'a>(alloc: Global, word: &str) -> Result<Option<GroupCommand<'a>>, AllocError>
    ensures { IfOk result (λ r. option_map plain_group_command r ≡ option_map message (octets_of word.now)) }
{
    match octets_in(alloc, word)? {
        Some(octets) => Ok(Some(GroupCommand::Message(octets))),
        None => Ok(None),
    }
}

/// Reads `admit yes` or `admit no`.
fn admit_in<'a>(word: &str) -> Option<GroupCommand<'a>>
    ensures { option_map plain_group_command result ≡ option_map admitting (way_of word.now) }
{
    if word == "yes" {
        return Some(GroupCommand::Admit(true));
    }
    if word == "no" {
        Some(GroupCommand::Admit(false))
    } else {
        None
    }
}

/// Reads a command of one word.
fn own_in<'a>(word: &str) -> Option<GroupCommand<'a>>
    ensures { option_map plain_group_command result ≡ option_map own (group_word_of word.now) }
{
    match group_word_in(word) {
        Some(word) => Some(GroupCommand::Own(word)),
        None => None,
    }
}

/// The command that a verb and the word after it mean.
fn command_by<'a>(
    alloc: Global,
    verb: GroupVerb,
    word: &str,
) -> Result<Option<GroupCommand<'a>>, AllocError>
    ensures { IfOk result (λ r. option_map plain_group_command r ≡ by_group_verb verb word.now) }
{
    match verb {
        GroupVerb::On => Ok(on_in(word)),
        GroupVerb::Send => send_in(alloc, word),
        GroupVerb::Bound => bound_in(alloc, word),
        GroupVerb::Message => message_in(alloc, word),
        GroupVerb::Admit => Ok(admit_in(word)),
    }
}

/// The command of a terminal's script that the words mean, if a link set's script has it too.
fn shared_in<'a>(alloc: Global, words: &[&'a str]) -> Result<Option<GroupCommand<'a>>, AllocError>
    ensures { IfOk result (λ r. option_map plain_group_command r ≡ option_and_then shared_of (term_command_of (texts words.now))) }
{
    let Some(command) = term_command_in(alloc, words)? else {
        return Ok(None);
    };
    match command {
        TermCommand::Order(order) => Ok(Some(GroupCommand::Order(order))),
        TermCommand::Unit(octets) => Ok(Some(GroupCommand::Unit(octets))),
        TermCommand::Line(octets) => Ok(Some(GroupCommand::Line(octets))),
        TermCommand::Units(_, _) | TermCommand::Errors(_) | TermCommand::Msu(_) => Ok(None),
        TermCommand::Out(units) => Ok(Some(GroupCommand::Out(units))),
        TermCommand::Tick(ticks) => Ok(Some(GroupCommand::Tick(ticks))),
        TermCommand::Told | TermCommand::Accepted | TermCommand::Retrieve(_) => Ok(None),
        TermCommand::Measure(_) | TermCommand::Aborted | TermCommand::Reset => Ok(None),
        TermCommand::State(process) => Ok(Some(GroupCommand::State(process))),
        TermCommand::Value(process, variable) => Ok(Some(GroupCommand::Value(process, variable))),
        TermCommand::Expect(text) => Ok(Some(GroupCommand::Expect(text))),
    }
}

/// The command that two words mean.
fn pair_in<'a>(
    alloc: Global,
    first: &'a str,
    word: &'a str,
) -> Result<Option<GroupCommand<'a>>, AllocError>
    ensures { IfOk result (λ r. option_map plain_group_command r ≡ group_command_of (first.now ∷ word.now ∷ [])) }
{
    match group_verb_in(first) {
        Some(verb) => command_by(alloc, verb, word),
        None => shared_in(alloc, &[first, word]),
    }
}

/// The command that the words of a line mean, if they mean one.
pub fn group_command_in<'a>(
    alloc: Global,
    words: &[&'a str],
) -> Result<Option<GroupCommand<'a>>, AllocError>
    ensures { IfOk result (λ r. option_map plain_group_command r ≡ group_command_of (texts words.now)) }
{
    match words {
        [] => Ok(None),
        [word] => Ok(own_in(word)),
        [first, word] => pair_in(alloc, first, word),
        [_, _, _, ..] => shared_in(alloc, words),
    }
}
