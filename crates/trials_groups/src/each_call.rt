//! Each public call of a set and its result, with unacknowledged messages numbered 126, 127, 0 and 1.

use crate::calls::{Stopped, pass, serves, speak, tell};
use crate::far_end::{FarEnd, fill_in, status};
use crate::keeping::{Given, Went, divert, give_up, hand_out};
use crate::messages::{Way, message, place_of};
use arrayvec::ArrayVec;
use group_changeover::{LineError, label_of};
use line_tending::Group;
use link_processes::Command;
use resend_store::Msu;
use std::alloc::AllocError;
use su_octets::Unit;

/// From the set to the other point.
pub const WAY: Way = Way { from: 1, to: 2 };

/// How many ticks proving lasts.
const PROVING: u64 = 8_200;

/// Gives a set the message with this number and selection, and writes why it is refused, if it is.
fn give(
    text: &mut String,
    group: &mut Group,
    selection: u8,
    number: u32,
) -> Result<(), AllocError> {
    let msu = message(WAY, selection, number);
    let Some(label) = label_of(&msu) else {
        return Ok(());
    };
    match group.send(label, msu) {
        Ok(()) => Ok(()),
        Err(error) => writeln!(text, "send: {error}"),
    }
}

/// Gives messages with numbers from one up to another.
fn give_all(text: &mut String, group: &mut Group, from: u32, to: u32) -> Result<(), AllocError> {
    for number in from..to {
        give(text, group, 0, number)?;
    }
    Ok(())
}

/// Writes what a link holds, whether it is in changeover, and whether its messages are retrieved.
fn write_link(text: &mut String, group: &Group, link: usize) -> Result<(), AllocError> {
    let held = group.held(link).unwrap_or(0);
    let sent = group.sent(link).unwrap_or(0);
    let changing = group.in_changeover(link);
    let is_out = group.hand(link).is_some();
    writeln!(
        text,
        "link {link}: {held} held, {sent} sent, in changeover {changing}, in hand {is_out}"
    )
}

/// Writes the numbers of the messages that a link holds.
fn write_held(text: &mut String, group: &Group, link: usize) -> Result<(), AllocError> {
    text.push_str("holds")?;
    for place in 0..group.held(link).unwrap_or(0) {
        match group.held_at(link, place) {
            Some(msu) => write_number(text, place_of(WAY, msu))?,
            None => {}
        }
    }
    text.push_str("\n")
}

/// Writes the number of a message.
fn write_number(text: &mut String, place: Option<(u8, u32)>) -> Result<(), AllocError> {
    match place {
        Some((_, number)) => write!(text, " {number}"),
        None => text.push_str(" ?"),
    }
}

/// The next unit that a link sends. Tried once more if memory runs out.
fn unit_out(group: &mut Group, link: usize) -> Result<Option<Unit>, LineError> {
    match group.unit_out(link) {
        Err(LineError::NoMemory) => group.unit_out(link),
        gone => gone,
    }
}

/// Writes the number of the next message sent.
fn write_unit(text: &mut String, group: &mut Group, link: usize) -> Result<(), Stopped> {
    match unit_out(group, link) {
        Ok(Some(Unit::Msu(head, _, _))) => {
            let fsn = head.fsn;
            write!(text, " {fsn}")?;
            Ok(())
        }
        Ok(_) => {
            text.push_str(" -")?;
            Ok(())
        }
        Err(LineError::NoMemory) => Err(Stopped::NoMemory),
        Err(LineError::NoLink) => Err(Stopped::Refused),
    }
}

/// Writes how many reports a link has.
fn write_reports(text: &mut String, group: &mut Group, link: usize) -> Result<(), AllocError> {
    let mut reports = 0u32;
    for _ in 0..1000u32 {
        match group.report(link) {
            Ok(Some(_report)) => reports = reports.wrapping_add(1),
            Ok(None) => break,
            Err(_) => break,
        }
    }
    writeln!(text, "{reports} reports")
}

/// Lets a link hear that the far end is proving.
fn align(group: &mut Group, far: &mut FarEnd, link: usize) -> Result<(), Stopped> {
    tell(group, link, Command::PowerOn)?;
    tell(group, link, Command::Start)?;
    far.say(group, link, &status(0))?;
    far.say(group, link, &status(1))
}

/// Brings both links into service.
pub fn bring_up(
    text: &mut String,
    group: &mut Group,
    first: &mut FarEnd,
    second: &mut FarEnd,
) -> Result<(), Stopped> {
    align(group, first, 0)?;
    align(group, second, 1)?;
    pass(group, PROVING)?;
    first.say(group, 0, &fill_in(127))?;
    second.say(group, 1, &fill_in(127))?;
    let links = group.len();
    let serve = serves(group, 0) && serves(group, 1);
    let turns = group.book(0).is_some();
    writeln!(text, "{links} links, in service {serve}, actors {turns}")?;
    let (even, odd) = (group.link_of(0), group.link_of(1));
    writeln!(
        text,
        "selection 0 on {}, 1 on {}",
        even.unwrap_or(99),
        odd.unwrap_or(99)
    )?;
    write_reports(text, group, 0)?;
    Ok(())
}

/// Sends messages 126 to 129 with the numbers 126, 127, 0 and 1; two more wait.
pub fn fill(text: &mut String, group: &mut Group, far: &mut FarEnd) -> Result<(), Stopped> {
    give_all(text, group, 0, 126)?;
    let _octets = speak(group, 0, 126)?;
    write_link(text, group, 0)?;
    far.say(group, 0, &fill_in(125))?;
    give_all(text, group, 126, 130)?;
    text.push_str("units")?;
    for _ in 0..4u8 {
        write_unit(text, group, 0)?;
    }
    text.push_str("\n")?;
    give_all(text, group, 130, 132)?;
    write_link(text, group, 0)?;
    write_held(text, group, 0)?;
    Ok(())
}

/// Writes the answer to a changeover message.
fn write_answer(text: &mut String, group: &mut Group, sif: &[u8]) -> Result<(), AllocError> {
    match group.changeover_message(sif).reply {
        Some(answer) => write_sif(text, answer.as_slice()),
        None => text.push_str("no answer\n"),
    }
}

/// Writes a field.
fn write_sif(text: &mut String, sif: &[u8]) -> Result<(), AllocError> {
    text.push_str("answer")?;
    for octet in sif {
        write!(text, " {octet:02X}")?;
    }
    text.push_str("\n")
}

/// The message with a changeover field.
fn order_of(sif: &[u8]) -> Msu {
    let mut field = ArrayVec::new();
    let _fits = field.try_extend_from_slice(sif).is_ok();
    Msu {
        sio: 0x80,
        sif: field,
    }
}

/// Gives a set a changeover message without a link, and writes why it is refused.
fn give_bound(text: &mut String, group: &mut Group, sif: &[u8]) -> Result<(), AllocError> {
    let msu = order_of(sif);
    let Some(label) = label_of(&msu) else {
        return Ok(());
    };
    match group.send(label, msu) {
        Ok(()) => text.push_str("taken\n"),
        Err(error) => writeln!(text, "send: {error}"),
    }
}

/// Gives a link a changeover message, and writes whether it is accepted.
fn bind(text: &mut String, group: &mut Group, link: usize, sif: &[u8]) -> Result<(), AllocError> {
    let msu = order_of(sif);
    if !group.is_bound(&msu) {
        return text.push_str("not bound\n");
    }
    match group.send_by(link, msu) {
        Ok(()) => writeln!(text, "bound to link {link}"),
        Err(error) => writeln!(text, "send_by: {error}"),
    }
}

/// Sends the order for the first link by the second.
fn order(text: &mut String, group: &mut Group, sif: &[u8]) -> Result<(), AllocError> {
    write_sif(text, sif)?;
    give_bound(text, group, sif)?;
    bind(text, group, 0, sif)?;
    bind(text, group, 1, sif)
}

/// Writes whether messages were retrieved.
fn write_given(text: &mut String, given: Given) -> Result<(), AllocError> {
    match given {
        Given::Out(count) => writeln!(text, "{count} in hand"),
        Given::Refused(error) => writeln!(text, "retrieve: {error}"),
    }
}

/// Writes whether the retrieved messages were diverted.
fn write_went(text: &mut String, went: Went) -> Result<(), AllocError> {
    match went {
        Went::On => text.push_str("diverted\n"),
        Went::Left(left) => writeln!(text, "{left} left in hand"),
        Went::Nowhere => text.push_str("no hand\n"),
    }
}

/// Rebalances the set, and writes whether it was refused.
fn write_rebalanced(text: &mut String, group: &mut Group) -> Result<(), AllocError> {
    match group.rebalance() {
        Ok(()) => text.push_str("rebalanced\n"),
        Err(error) => writeln!(text, "rebalance: {error}"),
    }
}

/// How many links have retrieved messages.
fn hands(group: &Group) -> usize {
    let mut hands: usize = 0;
    for link in 0..group.len() {
        if group.hand_counts(link).is_some() {
            hands = hands.saturating_add(1);
        }
    }
    hands
}

/// The first link fails; the far side there accepted message 127, whose number is 127.
pub fn change_over(text: &mut String, group: &mut Group) -> Result<(), Stopped> {
    match group.fail(0) {
        Ok(sif) => order(text, group, sif.as_slice())?,
        Err(error) => writeln!(text, "fail: {error}")?,
    }
    give(text, group, 0, 132)?;
    write_rebalanced(text, group)?;
    let given = hand_out(group, 0)?;
    write_given(text, given)?;
    write_answer(text, group, &[0x01, 0x80, 0, 0, 0x21, 127])?;
    let given = hand_out(group, 0)?;
    write_given(text, given)?;
    let went = divert(group, 0);
    write_went(text, went)?;
    write_link(text, group, 0)?;
    write_link(text, group, 1)?;
    write_held(text, group, 1)?;
    Ok(())
}

/// The second link fails too, after sending the order and two messages; it isn't known which of these arrived.
pub fn give_them_up(text: &mut String, group: &mut Group) -> Result<(), Stopped> {
    let _octets = speak(group, 1, 3)?;
    tell(group, 1, Command::Stop)?;
    write_answer(text, group, &[0x01, 0x80, 0, 0x10, 0x12])?;
    let given = hand_out(group, 1)?;
    write_given(text, given)?;
    let count = give_up(group, 1)?.unwrap_or(99);
    let unsure = group.unsure();
    let kept = hands(group);
    writeln!(text, "{count} in hand, {unsure} unsure, {kept} hands")?;
    let went = divert(group, 1);
    write_went(text, went)?;
    write_link(text, group, 1)?;
    Ok(())
}
