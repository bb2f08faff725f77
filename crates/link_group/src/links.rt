//! The links of a set; a call changes one of them.
ghost use Rattle.std.specs.Prelude.{◌≡◌, ◌<◌, ◌≤◌, length, slice_get, IfSome, IfOk, OnOk, OnErr, Some, None};
ghost use Rattle.group_changeover.specs.Changeovers.{IsKind};
ghost use Rattle.link_group.specs.OneLink.{fault_of, put_fault, puts, bind_fault, accepted_of, retrieve_fault, retrieve_refusal, abandon_fault, abandon_refusal};
ghost use Rattle.link_group.specs.Links.{change, fault_at, read_at};
ghost use Rattle.link_group.specs.Failing.{changeover_begins_at, fail_fault_of, heard_at, hears, replies_at, order_of, handed, given_up, messages_by, none_known, sent_by};

use crate::link::Link;
use group_changeover::{
    AbandonError, BindError, FailError, Hearing, Kind, RetrieveError, SendError,
};
use resend_store::Msu;

/// Takes a message to send.
///
/// # Errors
///
/// `K1 NoLink` if there is no such link, or if it isn't in changeover and is out of service, held or not admitted; `K2
/// Waiting` if it is in changeover; `E1 Full` if 1,024 messages wait. Then nothing changes.
#[tactic(auto, unfolding(crate::specs::Links::change))]
pub(crate) fn put_at(links: &mut [Link], at: usize, msu: Msu) -> Result<(), SendError>
    requires { 2 ≤ length msu.sif.items }
    ensures fault { fault_of result ≡ fault_at SendError.NoLink put_fault (slice_get links.old at) }
    ensures ok { OnOk result (links.new ≡ change links.old at (puts msu)) }
    ensures err { OnErr result (links.new ≡ links.old) }
{
    if at < links.len() {
        links[at].put(msu)
    } else {
        Err(SendError::NoLink)
    }
}

/// Takes a message that is bound to the link at a place.
///
/// # Errors
///
/// `K1 NoLink` if the link is missing, out of service or held, `E1 Full` if it holds 1,151. Then nothing changes.
#[tactic(auto, unfolding(crate::specs::Links::change))]
pub(crate) fn bind_at(links: &mut [Link], at: usize, msu: Msu) -> Result<(), BindError>
    requires { 2 ≤ length msu.sif.items }
    ensures fault { fault_of result ≡ fault_at BindError.NoLink bind_fault (slice_get links.old at) }
    ensures ok { OnOk result (links.new ≡ change links.old at (puts msu)) }
    ensures err { OnErr result (links.new ≡ links.old) }
{
    if at < links.len() {
        links[at].bind(msu)
    } else {
        Err(BindError::NoLink)
    }
}

/// Begins the changeover of a link.
///
/// # Errors
///
/// `K1 NoLink` if there is no such link, `K2 Waiting` if its changeover goes on. Then nothing changes.
#[tactic(auto, unfolding(crate::specs::Links::change))]
pub(crate) fn fail_at(links: &mut [Link], at: usize) -> Result<Kind, FailError>
    ensures fault { fault_of result ≡ fault_at FailError.NoLink fail_fault_of (slice_get links.old at) }
    ensures order { IfOk result (λ kind. Some kind ≡ read_at order_of (slice_get links.old at)) }
    ensures whole { IfOk result IsKind }
    ensures there { OnOk result (at < length links.old) }
    ensures ok { OnOk result (links.new ≡ change links.old at changeover_begins_at) }
    ensures err { OnErr result (links.new ≡ links.old) }
{
    if at < links.len() {
        links[at].fail()
    } else {
        Err(FailError::NoLink)
    }
}

/// How a changeover message from the other point counts at the link at a place, if it exists.
pub(crate) fn heard_at(links: &[Link], at: usize, kind: Kind) -> Hearing
    ensures { result ≡ heard_at kind (slice_get links.now at) }
{
    match links.get(at) {
        Some(link) => link.availability.hearing(kind),
        None => Hearing::Nothing,
    }
}

/// Takes a changeover message about a link from the other point. Returns the answer, if there is one.
#[tactic(auto, unfolding(crate::specs::Links::change))]
pub(crate) fn hear_at(links: &mut [Link], at: usize, kind: Kind) -> Option<Kind>
    ensures reply { result ≡ replies_at kind (slice_get links.old at) }
    ensures whole { IfSome result IsKind }
    ensures heard { links.new ≡ change links.old at (hears kind) }
{
    if at < links.len() {
        links[at].hear(kind)
    } else {
        None
    }
}

/// Retrieves the messages of a link. Returns how many there are.
///
/// # Errors
///
/// `K1 NoLink` if there is no such link or no changeover goes on there, `K2 Waiting` if they are retrieved or an answer
/// may still come, `K4 Unsure` with how many may be lost, else `NoMemory`. Then nothing changes.
#[tactic(auto, unfolding(crate::specs::Links::change))]
pub(crate) fn retrieve_at(links: &mut [Link], at: usize) -> Result<usize, RetrieveError>
    ensures fault { retrieve_refusal result ≡ fault_at RetrieveError.NoLink retrieve_fault (slice_get links.old at) }
    ensures count { IfOk result (λ count. count ≡ length (messages_by accepted_of (slice_get links.old at))) }
    ensures ok { OnOk result (links.new ≡ change links.old at handed) }
    ensures err { OnErr result (links.new ≡ links.old) }
{
    if at < links.len() {
        links[at].retrieve()
    } else {
        Err(RetrieveError::NoLink)
    }
}

/// Retrieves the unsent messages of a link. Returns how many there are, and how many were sent.
///
/// # Errors
///
/// `K1 NoLink` if there is no such link or no changeover goes on there, `K2 Waiting` if [`retrieve_at`] isn't refused
/// as unsure, else `NoMemory`. Then nothing changes.
#[tactic(auto, unfolding(crate::specs::Links::change))]
pub(crate) fn abandon_at(links: &mut [Link], at: usize) -> Result<(usize, usize), AbandonError>
    ensures fault { abandon_refusal result ≡ fault_at AbandonError.NoLink abandon_fault (slice_get links.old at) }
    ensures count { IfOk result (λ given. given.0 ≡ length (messages_by none_known (slice_get links.old at))) }
    ensures sent { IfOk result (λ given. given.1 ≡ sent_by (slice_get links.old at)) }
    ensures ok { OnOk result (links.new ≡ change links.old at given_up) }
    ensures err { OnErr result (links.new ≡ links.old) }
{
    if at < links.len() {
        let sent = links[at].unknown();
        match links[at].abandon() {
            Ok(count) => Ok((count, sent)),
            Err(fault) => Err(fault),
        }
    } else {
        Err(AbandonError::NoLink)
    }
}
