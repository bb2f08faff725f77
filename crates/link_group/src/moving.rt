//! Diversion of retrieved messages.
ghost use Rattle.std.specs.Prelude.{◌≡◌, ◌+◌, ◌<◌, ◌≤◌, ◌++◌, ◌∷◌, [], All, length, drop, take, OnOk, OnErr, slice_get, Some};
ghost use Rattle.resend_store.specs.Limits.{MOST_KEPT};
ghost use Rattle.resend_store.specs.Messages.{IsMessage};
ghost use Rattle.group_changeover.specs.Limits.{SELECTIONS};
ghost use Rattle.group_changeover.specs.Sharing.{of, off};
ghost use Rattle.link_term.specs.Kept.{window_of};
ghost use Rattle.link_group.specs.OneLink.{fault_of, held};
ghost use Rattle.link_group.specs.Moving.{term_takes, takes_on, division, room_fault, take_fault, move_fault, moved, moves, back_fault, back, is_own, hands_over};
ghost use Rattle.link_group.specs.Links.{change};

use crate::link::Link;
use group_changeover::{DivertFault, Table, count_on, pick, selection_of};
use link_term::Terminal;
use resend_store::{MAX_KEPT, Msu};
use std::collections::VecDeque;

/// Puts a message into a terminal that has room for it.
#[tactic(auto, unfolding(crate::specs::Moving::term_takes))]
fn give(terminal: &mut Terminal, msu: Msu)
    requires room { length (window_of terminal.old).kept < MOST_KEPT }
    requires whole { IsMessage msu }
    ensures { terminal.new ≡ term_takes (msu ∷ []) terminal.old }
{
    let _taken = terminal.put_diverted(msu).is_ok();
}

/// Moves the oldest message: into the terminal if it has this selection, otherwise to the end of the list.
fn turn_one(terminal: &mut Terminal, selection: u8, messages: &mut VecDeque<Msu>)
    requires room { length (of selection messages.old.items) + length (window_of terminal.old).kept ≤ MOST_KEPT }
    requires whole { All IsMessage messages.old.items }
    ensures terminal { terminal.new ≡ term_takes (of selection (take 1 messages.old.items)) terminal.old }
    ensures messages { messages.new.items ≡ drop 1 messages.old.items ++ off selection (take 1 messages.old.items) }
    ensures whole { All IsMessage messages.new.items }
{
    match messages.pop_front() {
        Some(msu) => {
            if selection_of(&msu) == selection {
                give(terminal, msu);
            } else {
                messages.push_back_reserved(msu);
            }
        }
        None => {}
    }
}

/// Puts the messages of a selection last in a terminal that has room. The others stay, in order.
fn divert_selection(terminal: &mut Terminal, selection: u8, messages: &mut VecDeque<Msu>)
    requires room { length (of selection messages.old.items) + length (window_of terminal.old).kept ≤ MOST_KEPT }
    requires whole { All IsMessage messages.old.items }
    ensures terminal { terminal.new ≡ term_takes (of selection messages.old.items) terminal.old }
    ensures messages { messages.new.items ≡ off selection messages.old.items }
    ensures whole { All IsMessage messages.new.items }
{
    let count = messages.len();
    for _turn in 0..count {
        turn_one(terminal, selection, messages);
    }
}

/// Puts all messages last in a terminal that has room.
fn retrieval_back(terminal: &mut Terminal, messages: &mut VecDeque<Msu>)
    requires room { length messages.old.items + length (window_of terminal.old).kept ≤ MOST_KEPT }
    requires whole { All IsMessage messages.old.items }
    ensures terminal { terminal.new ≡ term_takes messages.old.items terminal.old }
    ensures messages { messages.new.items ≡ [] }
{
    while let Some(msu) = messages.pop_front() {
        give(terminal, msu);
    }
}

/// Puts the messages of a selection, so many, last in a link, if it has room for all of them.
#[tactic(auto, unfolding(crate::specs::Moving::takes_on))]
fn take_on(
    link: &mut Link,
    selection: u8,
    count: usize,
    messages: &mut VecDeque<Msu>,
) -> Result<(), DivertFault>
    requires count { count ≡ length (of selection messages.old.items) }
    requires whole { All IsMessage messages.old.items }
    ensures fault { fault_of result ≡ room_fault count link.old }
    ensures link { OnOk result (link.new ≡ takes_on (of selection messages.old.items) link.old) }
    ensures messages { OnOk result (messages.new.items ≡ off selection messages.old.items) }
    ensures whole { All IsMessage messages.new.items }
    ensures err { OnErr result (link.new ≡ link.old) }
    ensures same { OnErr result (messages.new.items ≡ messages.old.items) }
{
    if MAX_KEPT - link.terminal.held() < count {
        return Err(DivertFault::Full);
    }
    divert_selection(&mut link.terminal, selection, messages);
    Ok(())
}

/// As `take_on`, for the link at a place.
#[tactic(auto, unfolding(crate::specs::Links::change))]
fn take_on_at(
    links: &mut [Link],
    at: usize,
    selection: u8,
    count: usize,
    messages: &mut VecDeque<Msu>,
) -> Result<(), DivertFault>
    requires count { count ≡ length (of selection messages.old.items) }
    requires whole { All IsMessage messages.old.items }
    ensures fault { fault_of result ≡ take_fault count (slice_get links.old at) }
    ensures links { OnOk result (links.new ≡ change links.old at (takes_on (of selection messages.old.items))) }
    ensures messages { OnOk result (messages.new.items ≡ off selection messages.old.items) }
    ensures whole { All IsMessage messages.new.items }
    ensures err { OnErr result (links.new ≡ links.old) }
    ensures same { OnErr result (messages.new.items ≡ messages.old.items) }
{
    if at < links.len() {
        take_on(&mut links[at], selection, count, messages)
    } else {
        Err(DivertFault::NoLink)
    }
}

/// Diverts the messages of a selection, if there are any.
#[tactic(auto, unfolding(crate::specs::Moving::move_fault, crate::specs::Moving::moved))]
fn share_one(
    links: &mut [Link],
    table: &mut Table,
    able: &[usize],
    selection: u8,
    messages: &mut VecDeque<Msu>,
) -> Result<(), DivertFault>
    requires within { selection < SELECTIONS }
    requires whole { All IsMessage messages.old.items }
    ensures fault { fault_of result ≡ move_fault able.now selection (division links.old table.old.links messages.old.items) }
    ensures moved { OnOk result (division links.new table.new.links messages.new.items ≡ moved able.now selection (division links.old table.old.links messages.old.items)) }
    ensures whole { All IsMessage messages.new.items }
    ensures err { OnErr result (division links.new table.new.links messages.new.items ≡ division links.old table.old.links messages.old.items) }
{
    let count = count_on(messages, selection);
    if count == 0 {
        return Ok(());
    }
    let Some(at) = pick(able, selection) else {
        return Err(DivertFault::NoLink);
    };
    take_on_at(links, at, selection, count, messages)?;
    table.set(selection, at);
    Ok(())
}

/// Diverts the messages of all selections, one after another.
fn share_all(
    links: &mut [Link],
    table: &mut Table,
    able: &[usize],
    messages: &mut VecDeque<Msu>,
) -> Result<(), DivertFault>
    requires { All IsMessage messages.old.items }
    ensures fault { fault_of result ≡ (moves able.now SELECTIONS 0 (division links.old table.old.links messages.old.items)).fault }
    ensures moved { division links.new table.new.links messages.new.items ≡ (moves able.now SELECTIONS 0 (division links.old table.old.links messages.old.items)).at }
    ensures whole { All IsMessage messages.new.items }
{
    for selection in 0..16 {
        match share_one(links, table, able, selection, messages) {
            Ok(()) => {}
            Err(fault) => return Err(fault),
        }
    }
    Ok(())
}

/// Puts all messages last in a link, if it has room for them.
#[tactic(auto, unfolding(crate::specs::Moving::takes_on))]
fn take_back(link: &mut Link, messages: &mut VecDeque<Msu>) -> Result<(), DivertFault>
    requires { All IsMessage messages.old.items }
    ensures fault { fault_of result ≡ room_fault (length messages.old.items) link.old }
    ensures link { OnOk result (link.new ≡ takes_on messages.old.items link.old) }
    ensures messages { OnOk result (messages.new.items ≡ []) }
    ensures err { OnErr result (link.new ≡ link.old) }
    ensures same { OnErr result (messages.new.items ≡ messages.old.items) }
{
    if MAX_KEPT - link.terminal.held() < messages.len() {
        return Err(DivertFault::Full);
    }
    retrieval_back(&mut link.terminal, messages);
    Ok(())
}

/// Puts the retrieved messages, if there are any, back into their own link.
#[tactic(auto, unfolding(crate::specs::Moving::back_fault, crate::specs::Moving::back, crate::specs::Links::change))]
fn give_back(
    links: &mut [Link],
    at: usize,
    table: &Table,
    messages: &mut VecDeque<Msu>,
) -> Result<(), DivertFault>
    requires { All IsMessage messages.old.items }
    ensures fault { fault_of result ≡ back_fault at (division links.old table.now.links messages.old.items) }
    ensures back { OnOk result (division links.new table.now.links messages.new.items ≡ back at (division links.old table.now.links messages.old.items)) }
    ensures err { OnErr result (links.new ≡ links.old) }
    ensures same { OnErr result (messages.new.items ≡ messages.old.items) }
    ensures whole { All IsMessage messages.new.items }
{
    if messages.is_empty() {
        return Ok(());
    }
    if at < links.len() {
        take_back(&mut links[at], messages)
    } else {
        Err(DivertFault::NoLink)
    }
}

/// Whether the first of these links is this one.
fn is_own(able: &[usize], at: usize) -> bool
    ensures { result ≡ is_own at able.now }
{
    match able {
        [first, ..] => *first == at,
        [] => false,
    }
}

/// Diverts retrieved messages to the links that may take them, or back if that is their own link.
///
/// # Errors
///
/// `K1 NoLink` if no link may take them, `E1 Full` if a link would hold more than 1,151. The rest stay in `messages`.
#[tactic(auto, unfolding(crate::specs::Moving::hands_over))]
pub(crate) fn divert_all(
    links: &mut [Link],
    table: &mut Table,
    able: &[usize],
    at: usize,
    messages: &mut VecDeque<Msu>,
) -> Result<(), DivertFault>
    requires { All IsMessage messages.old.items }
    ensures fault { fault_of result ≡ (hands_over able.now at (division links.old table.old.links messages.old.items)).fault }
    ensures moved { division links.new table.new.links messages.new.items ≡ (hands_over able.now at (division links.old table.old.links messages.old.items)).at }
    ensures whole { All IsMessage messages.new.items }
{
    if is_own(able, at) {
        give_back(links, at, table, messages)
    } else {
        share_all(links, table, able, messages)
    }
}
