//! Changeover messages in words.
ghost use Rattle.std.specs.Prelude.{◌≡◌, ◌++◌, List, ℕ, codes, IsNone, OnOk, IfOk, IfSome, option_map, unwrap_or, []};
ghost use Rattle.std.specs.Fmt.{decimal};
ghost use Rattle.script_links.specs.GroupCommands.{plain_group_command};
ghost use Rattle.script_links.specs.Octets.{octets_of};
ghost use Rattle.plain_text.specs.Lines.{line_of};
ghost use Rattle.script_seen.specs.TracedGroups.{kind_text};
ghost use Rattle.script_seen.specs.TracingGroups.{IsMessageTold, AreSaid, IsSaidTold, IsLastTold, AreBothTold, IsWordTold, IsToldBy};

use crate::pushing::push_number;
use crate::tracing::lost;
use group_changeover::{Kind, read_changeover};
use script_links::{GroupCommand, GroupWord, octets_in};
use std::alloc::{AllocError, Global};
use std::{io, str};

/// Appends a heading, and the link that a message concerns.
fn push_heading(
    alloc: Global,
    line: &mut Vec<u8>,
    heading: &str,
    link: u8,
) -> Result<(), AllocError>
    ensures { OnOk result (line.new.items ≡ line.old.items ++ (heading.now ++ decimal link)) }
{
    line.extend_from_slice(heading.as_bytes())?;
    push_number(alloc, line, u64::from(link))
}

/// Appends a heading, the link that a message concerns, and the number of the last message accepted on it.
fn push_numbered(
    alloc: Global,
    line: &mut Vec<u8>,
    heading: &str,
    link: u8,
    number: u8,
) -> Result<(), AllocError>
    ensures { OnOk result (line.new.items ≡ line.old.items ++ (heading.now ++ decimal link ++ codes " fsn " ++ decimal number)) }
{
    push_heading(alloc, line, heading, link)?;
    line.extend_from_slice(b" fsn ")?;
    push_number(alloc, line, u64::from(number))
}

/// Appends a message's heading, its link, and for COO and COA the number of the last message accepted on the link.
fn push_kind(alloc: Global, line: &mut Vec<u8>, kind: Kind, link: u8) -> Result<(), AllocError>
    ensures { OnOk result (line.new.items ≡ line.old.items ++ kind_text kind link) }
{
    match kind {
        Kind::Order(number) => push_numbered(alloc, line, "COO link ", link, number),
        Kind::Acknowledgement(number) => push_numbered(alloc, line, "COA link ", link, number),
        Kind::EmergencyOrder => push_heading(alloc, line, "ECO link ", link),
        Kind::EmergencyAcknowledgement => push_heading(alloc, line, "ECA link ", link),
    }
}

/// The line of a changeover message that was received or sent at a tick.
fn message_line(
    alloc: Global,
    clock: u64,
    way: &str,
    kind: Kind,
    link: u8,
) -> Result<Vec<u8>, AllocError>
    ensures { IfOk result (λ v. v.items ≡ line_of (decimal clock ++ way.now ++ kind_text kind link)) }
{
    let mut line = Vec::new(alloc);
    push_number(alloc, &mut line, clock)?;
    line.extend_from_slice(way.as_bytes())?;
    push_kind(alloc, &mut line, kind, link)?;
    line.push(b'\n')?;
    Ok(line)
}

/// The line of a changeover message received or sent at a tick: its heading, its link, and the number of the last
/// message accepted on that link. It is empty if the octets are no changeover message.
fn message_text(alloc: Global, clock: u64, way: &str, octets: &[u8]) -> Result<Vec<u8>, AllocError>
    ensures { IfOk result (λ v. IsMessageTold clock way.now octets.now v.items) }
{
    match read_changeover(octets) {
        Some(message) => message_line(alloc, clock, way, message.kind, message.label.sls),
        None => Ok(Vec::new(alloc)),
    }
}

/// The rest of a line after `ok `, if it begins with that.
fn digits_in(line: &[u8]) -> Option<&[u8]>
    ensures some { IfSome result (λ digits. line.now ≡ codes "ok " ++ digits.now) }
    ensures none { IsNone result → (digits : List ℕ) → line.now ≡ codes "ok " ++ digits → ⊥ }
{
    line.strip_prefix(b"ok ")
}

/// The octets written in hexadecimal digits; none if the text has no such digits.
fn octets_of_text(alloc: Global, text: &str) -> Result<Vec<u8>, AllocError>
    ensures { IfOk result (λ v. v.items ≡ unwrap_or (octets_of text.now) []) }
{
    let read = octets_in(alloc, text)?;
    match read {
        Some(octets) => Ok(octets),
        None => Ok(Vec::new(alloc)),
    }
}

/// The octets written in hexadecimal digits, which may not be valid text.
fn octets_of(alloc: Global, digits: &[u8]) -> io::Result<Vec<u8>>
    ensures { IfOk result (λ v. v.items ≡ unwrap_or (octets_of digits.now) []) }
{
    match str::from_utf8(digits) {
        Ok(text) => Ok(octets_of_text(alloc, text)?),
        Err(_) => Err(lost()),
    }
}

/// The octets of a line `ok HEX`; none for any other line.
fn said_octets(alloc: Global, line: &[u8]) -> io::Result<Vec<u8>>
    ensures { IfOk result (λ v. AreSaid line.now v.items) }
{
    match digits_in(line) {
        Some(digits) => octets_of(alloc, digits),
        None => Ok(Vec::new(alloc)),
    }
}

/// The line about the message sent, from a printed line.
fn said_text(alloc: Global, clock: u64, line: &[u8]) -> io::Result<Vec<u8>>
    ensures { IfOk result (λ v. IsSaidTold clock line.now v.items) }
{
    let octets = said_octets(alloc, line)?;
    let text = message_text(alloc, clock, " said ", &octets)?;
    Ok(text)
}

/// The line about the message sent, from the last printed line, if there is one.
fn last_text(alloc: Global, clock: u64, last: &Option<Vec<u8>>) -> io::Result<Vec<u8>>
    ensures { IfOk result (λ v. IsLastTold clock (option_map (λ l. l.items) last.now) v.items) }
{
    match last {
        Some(line) => said_text(alloc, clock, line),
        None => Ok(Vec::new(alloc)),
    }
}

/// The line about the message received, and that about the message sent, from the last printed line.
fn both_text(
    alloc: Global,
    clock: u64,
    octets: &[u8],
    last: &Option<Vec<u8>>,
) -> io::Result<Vec<u8>>
    ensures { IfOk result (λ v. AreBothTold clock octets.now (option_map (λ l. l.items) last.now) v.items) }
{
    let mut text = message_text(alloc, clock, " heard ", octets)?;
    let said = last_text(alloc, clock, last)?;
    text.extend_from_slice(&said)?;
    Ok(text)
}

/// The lines about the messages caused by a command of one word.
fn word_text(
    alloc: Global,
    clock: u64,
    word: GroupWord,
    last: &Option<Vec<u8>>,
) -> io::Result<Vec<u8>>
    ensures { IfOk result (λ v. IsWordTold clock word (option_map (λ l. l.items) last.now) v.items) }
{
    match word {
        GroupWord::Fail => last_text(alloc, clock, last),
        GroupWord::Retrieve
        | GroupWord::Abandon
        | GroupWord::Divert
        | GroupWord::Rebalance
        | GroupWord::Table
        | GroupWord::Held
        | GroupWord::Unsure
        | GroupWord::Link => Ok(Vec::new(alloc)),
    }
}

/// The lines about the changeover messages that a command caused, if `last` was printed last: the message received, and
/// the order or the answer sent.
pub(crate) fn changeover_text(
    alloc: Global,
    clock: u64,
    command: &GroupCommand<'_>,
    last: &Option<Vec<u8>>,
) -> io::Result<Vec<u8>>
    ensures { IfOk result (λ v. IsToldBy clock (plain_group_command command.now) (option_map (λ l. l.items) last.now) v.items) }
{
    match command {
        GroupCommand::Message(octets) => both_text(alloc, clock, octets, last),
        GroupCommand::Own(word) => word_text(alloc, clock, *word, last),
        GroupCommand::Order(_)
        | GroupCommand::Unit(_)
        | GroupCommand::Line(_)
        | GroupCommand::Out(_)
        | GroupCommand::Tick(_)
        | GroupCommand::State(_)
        | GroupCommand::Value(_, _)
        | GroupCommand::Expect(_)
        | GroupCommand::On(_)
        | GroupCommand::Send(_)
        | GroupCommand::Bound(_)
        | GroupCommand::Admit(_) => Ok(Vec::new(alloc)),
    }
}
