//! Lines that show the state of a set.
ghost use Rattle.std.specs.Prelude.{◌≡◌, ◌++◌, IfOk, OnOk, slice_get, codes};
ghost use Rattle.std.specs.Fmt.{decimal};
ghost use Rattle.group_changeover.specs.Sharing.{link_of};
ghost use Rattle.script_ends.specs.GroupAnswers.{held_line, link_line, state_at, value_at};
ghost use Rattle.script_ends.specs.Shown.{entry_at, entries_to, table_line, told_if, waited_text, service_text, link_text};

use crate::saying::no_link;
use link_group::{Group, LinkState};
use script_book::{state_line, text_line, value_line};
use std::alloc::{AllocError, Global};

/// A selection and its link.
fn entry(alloc: Global, group: &Group, selection: u8) -> Result<Vec<u8>, AllocError>
    ensures { IfOk result (λ v. v.items ≡ entry_at group.now.table selection) }
{
    match group.link_of(selection) {
        Some(link) => text_line(alloc, &format_args!("{selection} {link}")),
        None => text_line(alloc, &format_args!("{selection} -")),
    }
}

/// Appends a selection and its link to the text.
fn push_entry(
    alloc: Global,
    group: &Group,
    text: &mut Vec<u8>,
    selection: u8,
) -> Result<(), AllocError>
    ensures { OnOk result (text.new.items ≡ text.old.items ++ codes ", " ++ entry_at group.now.table selection) }
{
    let entry = entry(alloc, group, selection)?;
    text.extend_from_slice(b", ")?;
    text.extend_from_slice(&entry)?;
    Ok(())
}

/// The line of `table`.
pub(crate) fn table(alloc: Global, group: &Group) -> Result<Vec<u8>, AllocError>
    ensures { IfOk result (λ v. v.items ≡ table_line group.now.table) }
{
    let mut text = entry(alloc, group, 0)?;
    for before in 0..15 {
        push_entry(alloc, group, &mut text, before + 1)?;
    }
    Ok(text)
}

/// The line of `held`.
pub(crate) fn held(alloc: Global, group: &Group, link: usize) -> Result<Vec<u8>, AllocError>
    ensures { IfOk result (λ v. v.items ≡ held_line (slice_get group.now.links link)) }
{
    let Some(held) = group.held(link) else {
        return no_link(alloc);
    };
    let Some(sent) = group.sent(link) else {
        return no_link(alloc);
    };
    text_line(alloc, &format_args!("{held} sent {sent}"))
}

/// The line of `unsure`.
pub(crate) fn unsure(alloc: Global, group: &Group) -> Result<Vec<u8>, AllocError>
    ensures { IfOk result (λ v. v.items ≡ decimal group.now.unsure) }
{
    let unsure = group.unsure();
    text_line(alloc, &format_args!("{unsure}"))
}

/// Appends a word to the text if the condition holds.
fn push_if(text: &mut Vec<u8>, says: bool, word: &[u8]) -> Result<(), AllocError>
    ensures { OnOk result (text.new.items ≡ told_if says word.now text.old.items) }
{
    if says {
        text.extend_from_slice(word)?;
    }
    Ok(())
}

/// Appends how long a changeover has gone on, if one does.
fn push_waited(alloc: Global, text: &mut Vec<u8>, waited: Option<u64>) -> Result<(), AllocError>
    ensures { OnOk result (text.new.items ≡ waited_text waited text.old.items) }
{
    let Some(ticks) = waited else {
        return Ok(());
    };
    let more = text_line(alloc, &format_args!(", changeover {ticks}"))?;
    text.extend_from_slice(&more)?;
    Ok(())
}

/// Whether a link is in service.
fn service(alloc: Global, in_service: bool) -> Result<Vec<u8>, AllocError>
    ensures { IfOk result (λ v. v.items ≡ service_text in_service) }
{
    if in_service {
        Vec::from_slice(alloc, b"in service")
    } else {
        Vec::from_slice(alloc, b"out of service")
    }
}

/// The state of a link, as it is printed.
fn link_text(alloc: Global, state: &LinkState) -> Result<Vec<u8>, AllocError>
    ensures { IfOk result (λ v. v.items ≡ link_text state.now) }
{
    let mut text = service(alloc, state.in_service)?;
    push_if(&mut text, state.failed, b", failed")?;
    push_if(&mut text, state.held, b", held")?;
    push_waited(alloc, &mut text, state.changeover)?;
    push_if(&mut text, !state.admitted, b", not admitted")?;
    Ok(text)
}

/// The line of `link`.
pub(crate) fn link_is(alloc: Global, group: &Group, link: usize) -> Result<Vec<u8>, AllocError>
    ensures { IfOk result (λ v. v.items ≡ link_line (slice_get group.now.links link)) }
{
    match group.state(link) {
        Some(state) => link_text(alloc, &state),
        None => no_link(alloc),
    }
}

/// The line of `state P`.
pub(crate) fn state(
    alloc: Global,
    group: &Group,
    link: usize,
    process: &str,
) -> Result<Vec<u8>, AllocError>
    ensures { IfOk result (λ v. v.items ≡ state_at process.now (slice_get group.now.links link)) }
{
    match group.book(link) {
        Some(book) => state_line(alloc, book, process),
        None => no_link(alloc),
    }
}

/// The line of `value P x`.
pub(crate) fn value(
    alloc: Global,
    group: &Group,
    link: usize,
    process: &str,
    variable: &str,
) -> Result<Vec<u8>, AllocError>
    ensures { IfOk result (λ v. v.items ≡ value_at process.now variable.now (slice_get group.now.links link)) }
{
    match group.book(link) {
        Some(book) => value_line(alloc, book, process, variable),
        None => no_link(alloc),
    }
}
