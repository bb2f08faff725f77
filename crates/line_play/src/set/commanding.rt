//! A command to several links: each obeys it, or says why not.
ghost use Rattle.std.specs.Prelude.{◌≡◌, IfOk, OnOk, Some, unwrap_or};
ghost use Rattle.line_tending.specs.Giving.{IsOther};
ghost use Rattle.line_tending.specs.Rounds.{AddsOrders};
ghost use Rattle.script_ends.specs.TermAnswers.{command_of};
ghost use Rattle.line_play.specs.SetDoing.{TriesAt, TriesEach};

use line_tending::TendedSet;
use link_group::CommandError;
use script_ends::command_of;
use std::alloc::AllocError;

/// The first of two refusals, of which the first one may be missing.
///
/// # Errors
///
/// If the second one is that memory ran out.
fn first_refusal(
    first: Option<CommandError>,
    error: CommandError,
) -> Result<Option<CommandError>, AllocError>
    ensures first { IfOk result (λ r. r ≡ Some (unwrap_or first error)) }
    ensures other { OnOk result (IsOther error) }
{
    match error {
        CommandError::NoLink | CommandError::Waiting | CommandError::Refused(_) => {
            Ok(Some(first.unwrap_or(error)))
        }
        CommandError::NoMemory => Err(AllocError),
    }
}

/// Gives an order to a link. Returns the first refusal, if any: `first`, or that of this link.
fn obey_one(
    tender: &mut TendedSet,
    link: usize,
    order: script_links::Order,
    first: Option<CommandError>,
) -> Result<Option<CommandError>, AllocError>
    ensures adds { OnOk result (AddsOrders tender.old tender.new) }
    ensures tries { IfOk result (λ r. TriesAt (command_of order) link tender.old first tender.new r) }
{
    match tender.obey(link, command_of(order)) {
        Ok(()) => Ok(first),
        Err(error) => first_refusal(first, error),
    }
}

/// Gives an order to links. Returns the first refusal, if any.
pub(crate) fn obey_links(
    tender: &mut TendedSet,
    links: &[usize],
    order: script_links::Order,
) -> Result<Option<CommandError>, AllocError>
    ensures adds { OnOk result (AddsOrders tender.old tender.new) }
    ensures tries { IfOk result (λ r. TriesEach (command_of order) tender.old links.now tender.new r) }
{
    let mut first: Option<CommandError> = None;
    for link in links {
        first = obey_one(tender, *link, order, first)?;
    }
    Ok(first)
}
