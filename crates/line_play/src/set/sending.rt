//! The messages that orders to a set send.
ghost use Rattle.std.specs.Prelude.{◌≡◌, ◌&&◌, if◌then◌else◌, true, Some, is_some, IfOk, IfSome};
ghost use Rattle.link_group.specs.Printed.{send_error_text};
ghost use Rattle.line_tending.specs.Labels.{label_in};
ghost use Rattle.line_tending.specs.Sharing.{link_of};
ghost use Rattle.line_filter.specs.Desks.{Told as TellsSuch};
ghost use Rattle.line_play.specs.SetDoing.{stood};
ghost use Rattle.line_play.specs.SetQueues.{stays, may_pass, plain_sent, held, refused as refused_for, AsksOf, Asks, Tries};

use crate::set::state::{Ending, SetState};
use line_filter::Reports;
use line_tending::{Label, Msu, SendError, TendedSet, label_of};
use script_ends::message;
use std::alloc::{AllocError, Global};
use std::io;

/// The result of sending a message.
#[derive(Drop)]
pub(crate) enum Sent {
    /// The set took it.
    Taken,
    /// It is refused.
    Refused(String),
    /// It has to wait.
    Held,
}

/// Whether a message that is refused for this reason may be taken later.
fn may_pass(error: SendError) -> bool
    ensures { result ≡ may_pass error }
{
    match error {
        SendError::Waiting | SendError::Full => true,
        SendError::Bound | SendError::NoLink => false,
    }
}

/// A message is refused for this reason.
fn refused<D: std::fmt::Display>(alloc: Global, why: &D) -> Result<Sent, AllocError>
    ensures { IfOk result (λ sent. IfSome (D.output why.now) (λ text. plain_sent sent ≡ refused_for text)) }
{
    Ok(Sent::Refused(format!(in alloc; "{why}")?))
}

/// Whether a message waits that was refused for this reason.
fn waits_for(error: SendError, patient: bool) -> bool
    ensures { result ≡ (patient && may_pass error) }
{
    patient && may_pass(error)
}

/// Whether a message waits because its selection is about to move.
fn waits_to_move(tender: &TendedSet, selection: u8, patient: bool) -> bool
    ensures patient { result ≡ true → patient ≡ true }
    ensures there { result ≡ true → is_some (link_of tender.now.set.table selection) ≡ true }
{
    if !patient {
        return false;
    }
    tender.moves(selection)
}

/// The result for a message that the set doesn't take.
fn untaken(alloc: Global, error: SendError, patient: bool) -> Result<Sent, AllocError>
    ensures { IfOk result (λ sent. plain_sent sent ≡ (if patient && may_pass error then held else refused_for (send_error_text error))) }
{
    if waits_for(error, patient) {
        return Ok(Sent::Held);
    }
    refused(alloc, &error)
}

/// Asks the set to take a message with this label. A patient one waits if it can't be taken now, or its selection is
/// about to move.
fn ask_labelled(
    alloc: Global,
    tender: &mut TendedSet,
    label: Label,
    msu: Msu,
    patient: bool,
) -> Result<Sent, AllocError>
    requires { label_in msu.sif.items ≡ Some label }
    ensures { IfOk result (λ sent. AsksOf msu patient tender.old (plain_sent sent) tender.new) }
{
    if waits_to_move(tender, label.sls, patient) {
        return Ok(Sent::Held);
    }
    match tender.send(label, msu) {
        Ok(()) => Ok(Sent::Taken),
        Err(error) => untaken(alloc, error, patient),
    }
}

/// Asks the set to take a message.
fn ask_message(
    alloc: Global,
    tender: &mut TendedSet,
    msu: Msu,
    patient: bool,
) -> Result<Sent, AllocError>
    ensures { IfOk result (λ sent. AsksOf msu patient tender.old (plain_sent sent) tender.new) }
{
    match label_of(&msu) {
        Some(label) => ask_labelled(alloc, tender, label, msu, patient),
        None => refused(alloc, &"X1 BadLine"),
    }
}

/// Asks the set to take the message of these octets.
fn ask(
    alloc: Global,
    tender: &mut TendedSet,
    octets: &[u8],
    patient: bool,
) -> Result<Sent, AllocError>
    ensures { IfOk result (λ sent. Asks octets.now patient tender.old (plain_sent sent) tender.new) }
{
    match message(octets) {
        Some(msu) => ask_message(alloc, tender, msu, patient),
        None => refused(alloc, &"X1 BadLine"),
    }
}

impl SetState {
    /// Whether no end of the run was ordered.
    pub(crate) fn stays(&self) -> bool
        ensures { result ≡ stays self.now.ending }
    {
        match self.ending {
            Ending::Stays => true,
            Ending::Leaves(_) | Ending::Stops(_) | Ending::Over => false,
        }
    }

    /// Tries to send the message of an order, and reports the result. Returns whether the order is done, and doesn't
    /// wait on.
    pub(crate) fn try_send<P: Reports>(
        &mut self,
        alloc: Global,
        text: &str,
        octets: &[u8],
        patient: bool,
        reports: &mut P,
    ) -> io::Result<bool>
        ensures { IfOk result (λ went. TellsSuch (λ bytes. Tries text.now octets.now patient (stood self.old) bytes went (stood self.new)) (P.stand reports.old) (P.stand reports.new)) }
    {
        if !self.stays() {
            self.refuse(alloc, text, "K6 Leaving", reports)?;
            return Ok(true);
        }
        match ask(alloc, &mut self.tender, octets, patient)? {
            Sent::Taken => {
                self.agree(alloc, text, reports)?;
                Ok(true)
            }
            Sent::Refused(why) => {
                self.refuse(alloc, text, why.as_str(), reports)?;
                Ok(true)
            }
            Sent::Held => Ok(false),
        }
    }
}
