//! Calls of the set that are answered by one line.
ghost use Rattle.std.specs.Prelude.{◌≡◌, Option, IfOk};
ghost use Rattle.group_changeover.specs.declared.changeover.Changeover.{Changeover as PlainChangeover};
ghost use Rattle.link_group.specs.Changing.{IsRead, IsReply, after_message, reply_to};
ghost use Rattle.script_ends.specs.TermAnswers.{command_of, IsRefusedLine};
ghost use Rattle.script_ends.specs.GroupAnswers.{IsTold, Passes, IsSent, IsBoundTo, Fails, IsHeard, Admits, Rebalances, IsBarredLine};

use crate::answers::message;
use crate::orders::command_of;
use crate::saying::{done, no_link, octets_law, octets_line, refused};
use group_changeover::label_of;
use link_group::{CommandError, Group, Sif};
use link_term::CallError;
use script_book::{refused_line, text_line};
use script_links::Order;
use std::alloc::{AllocError, Global};

/// The line of a refused order; an error if memory ran out.
fn barred(alloc: Global, error: CommandError) -> Result<Vec<u8>, AllocError>
    ensures { IfOk result (λ v. IsBarredLine error v.items) }
{
    match error {
        CommandError::NoLink => no_link(alloc),
        CommandError::Waiting => Vec::from_slice(alloc, b"refused K2 Waiting"),
        CommandError::Refused(refusal) => refused_line(alloc, refusal),
        CommandError::NoMemory => Err(AllocError),
    }
}

/// Obeys `command W`.
pub(crate) fn tell(
    alloc: Global,
    group: &mut Group,
    link: usize,
    order: Order,
) -> Result<Vec<u8>, AllocError>
    ensures { IfOk result (λ v. IsTold (command_of order) link group.old v.items group.new) }
{
    match group.command(link, command_of(order)) {
        Ok(()) => done(alloc),
        Err(error) => barred(alloc, error),
    }
}

/// The line of refused ticks; an error if memory ran out.
fn held_up(alloc: Global, error: CallError) -> Result<Vec<u8>, AllocError>
    ensures { IfOk result (λ v. IsRefusedLine error v.items) }
{
    match error {
        CallError::Refused(refusal) => refused_line(alloc, refusal),
        CallError::NoMemory => Err(AllocError),
    }
}

/// Obeys `tick N`.
pub(crate) fn tick(alloc: Global, group: &mut Group, ticks: u32) -> Result<Vec<u8>, AllocError>
    ensures { IfOk result (λ v. Passes ticks group.old v.items group.new) }
{
    match group.tick(u64::from(ticks)) {
        Ok(due) => text_line(alloc, &format_args!("ok due {due}")),
        Err(error) => held_up(alloc, error),
    }
}

/// Obeys `send HEX`. Octets that form no message with a label would count as out of memory, but never occur: a script
/// with them is refused when it is read.
pub(crate) fn send(alloc: Global, group: &mut Group, octets: &[u8]) -> Result<Vec<u8>, AllocError>
    ensures { IfOk result (λ v. IsSent octets.now group.old v.items group.new) }
{
    let Some(msu) = message(octets) else {
        return Err(AllocError);
    };
    let Some(label) = label_of(&msu) else {
        return Err(AllocError);
    };
    match group.send(label, msu) {
        Ok(()) => done(alloc),
        Err(error) => refused(alloc, &error),
    }
}

/// Obeys `bound HEX`. Octets that form no such message would count as out of memory, but never occur: a script with
/// them is refused when it is read.
pub(crate) fn bind(
    alloc: Global,
    group: &mut Group,
    link: usize,
    octets: &[u8],
) -> Result<Vec<u8>, AllocError>
    ensures { IfOk result (λ v. IsBoundTo octets.now link group.old v.items group.new) }
{
    let Some(msu) = message(octets) else {
        return Err(AllocError);
    };
    if !group.is_bound(&msu) {
        return Err(AllocError);
    }
    match group.send_by(link, msu) {
        Ok(()) => done(alloc),
        Err(error) => refused(alloc, &error),
    }
}

/// Obeys `fail`.
pub(crate) fn fail(alloc: Global, group: &mut Group, link: usize) -> Result<Vec<u8>, AllocError>
    ensures { IfOk result (λ v. Fails link group.old v.items group.new) }
{
    match group.fail(link) {
        Ok(sif) => {
            octets_law(sif.as_slice());
            octets_line(alloc, sif.as_slice())
        }
        Err(error) => refused(alloc, &error),
    }
}

/// Passes the octets of a changeover message to the set, and returns the answer, if there is one.
fn reply_of(group: &mut Group, octets: &[u8]) -> Option<Sif>
    ensures set { (m : Option PlainChangeover) → IsRead octets.now m → group.new ≡ after_message group.old m }
    ensures reply { (m : Option PlainChangeover) → IsRead octets.now m → IsReply (reply_to group.old m) result }
{
    group.changeover_message(octets).reply
}

/// Obeys `message HEX`.
pub(crate) fn hear(alloc: Global, group: &mut Group, octets: &[u8]) -> Result<Vec<u8>, AllocError>
    ensures { IfOk result (λ v. IsHeard octets.now group.old v.items group.new) }
{
    match reply_of(group, octets) {
        Some(sif) => {
            octets_law(sif.as_slice());
            octets_line(alloc, sif.as_slice())
        }
        None => done(alloc),
    }
}

/// Obeys `admit yes` or `admit no`.
pub(crate) fn admit(
    alloc: Global,
    group: &mut Group,
    link: usize,
    way: bool,
) -> Result<Vec<u8>, AllocError>
    ensures { IfOk result (λ v. Admits way link group.old v.items group.new) }
{
    match group.admit(link, way) {
        Ok(()) => done(alloc),
        Err(_) => no_link(alloc),
    }
}

/// Obeys `rebalance`.
pub(crate) fn rebalance(alloc: Global, group: &mut Group) -> Result<Vec<u8>, AllocError>
    ensures { IfOk result (λ v. Rebalances group.old v.items group.new) }
{
    match group.rebalance() {
        Ok(()) => done(alloc),
        Err(error) => refused(alloc, &error),
    }
}
