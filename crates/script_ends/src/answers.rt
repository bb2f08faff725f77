//! The lines printed for commands of a terminal's script.
ghost use Rattle.std.specs.Prelude.{◌≡◌, ◌<◌, IfOk, OnOk, IfSome, IsNone, IsTrue, codes, length};
ghost use Rattle.actor_machine.specs.declared.event.Event.TheVariants.{Advance};
ghost use Rattle.link_term.specs.Offering.{command_event};
ghost use Rattle.script_links.specs.TermCommands.{plain_term_command};
ghost use Rattle.script_ends.specs.TermAnswers.{command_of, IsAsked, IsRefusedLine, IsMessageOf, AreNoMessage, IsPut, accepted_line, Tells, measure_line, aborted_line, behind_reset, IsRetrieveLine, Retrieves, Does, Answers};

use crate::hearing::{receive, take};
use crate::orders::command_of;
use crate::told::report_text;
use arrayvec::ArrayVec;
use link_term::{CallError, Terminal};
use resend_store::{Measure, Msu, PutError, RetrieveError};
use script_book::{refused_line, state_line, text_line, value_line};
use script_links::{Order, TermCommand};
use std::alloc::{AllocError, Global};
use std::collections::VecDeque;

/// A signal unit with errors: a single octet between two flags is too short.
const ERROR: [u8; 3] = [0x7E, 0x00, 0x7E];

/// The line of a refusal; an error if memory ran out.
fn refused(alloc: Global, error: CallError) -> Result<Vec<u8>, AllocError>
    ensures { IfOk result (λ v. IsRefusedLine error v.items) }
{
    match error {
        CallError::Refused(refusal) => refused_line(alloc, refusal),
        CallError::NoMemory => Err(AllocError),
    }
}

/// Obeys `command W`.
fn tell(alloc: Global, terminal: &mut Terminal, order: Order) -> Result<Vec<u8>, AllocError>
    ensures { IfOk result (λ v. IsAsked (command_event terminal.old.processes.names (command_of order)) terminal.old v.items terminal.new) }
{
    match terminal.command(command_of(order)) {
        Ok(()) => Vec::from_slice(alloc, b"ok"),
        Err(error) => refused(alloc, error),
    }
}

/// Obeys `tick N`.
fn tick(alloc: Global, terminal: &mut Terminal, ticks: u32) -> Result<Vec<u8>, AllocError>
    ensures { IfOk result (λ v. IsAsked (Advance ticks) terminal.old v.items terminal.new) }
{
    match terminal.tick(u64::from(ticks)) {
        Ok(due) => text_line(alloc, &format_args!("ok due {due}")),
        Err(error) => refused(alloc, error),
    }
}

/// The message that these octets form: service information octet and signalling information field. None if there are no
/// octets, or if the field has more than 272.
pub fn message(octets: &[u8]) -> Option<Msu>
    ensures some { IfSome result (IsMessageOf octets.now) }
    ensures none { IsNone result → AreNoMessage octets.now }
{
    match octets {
        [sio, sif @ ..] => {
            let mut field = ArrayVec::new();
            match field.try_extend_from_slice(sif) {
                Ok(()) => Some(Msu {
                    sio: *sio,
                    sif: field,
                }),
                Err(_) => None,
            }
        }
        [] => None,
    }
}

/// Obeys `msu HEX`. Octets that form no message would count as out of memory, but never occur: neither a script nor the
/// orders of a line accept a command with them.
fn put(alloc: Global, terminal: &mut Terminal, octets: &[u8]) -> Result<Vec<u8>, AllocError>
    ensures { IfOk result (λ v. IsPut octets.now terminal.old v.items terminal.new) }
{
    let Some(msu) = message(octets) else {
        return Err(AllocError);
    };
    if msu.sif.len() < 2 {
        return Err(AllocError);
    }
    match terminal.put(msu) {
        Ok(()) => Vec::from_slice(alloc, b"ok"),
        Err(PutError::Full) => Vec::from_slice(alloc, b"refused E1 Full"),
    }
}

/// Obeys `told`: the line is the terminal's next report.
fn told(alloc: Global, terminal: &mut Terminal) -> Result<Vec<u8>, AllocError>
    ensures { IfOk result (λ v. Tells terminal.old v.items terminal.new) }
{
    match terminal.report() {
        Some(report) => {
            let text = report_text(alloc, &report)?;
            Ok(text.into_bytes())
        }
        None => Vec::from_slice(alloc, b"nothing"),
    }
}

/// The line of `accepted`: the number of the message accepted last.
fn accepted(alloc: Global, terminal: &Terminal) -> Result<Vec<u8>, AllocError>
    ensures { IfOk result (λ v. v.items ≡ accepted_line terminal.now) }
{
    let number = terminal.accepted();
    text_line(alloc, &format_args!("ok {number}"))
}

/// Whether a number, if there is one, may be a message's sequence number.
fn is_number(behind: Option<u8>) -> bool
    ensures number { IsTrue result → IfSome behind (λ number. number < 128) }
    ensures any { IfSome behind (λ number. number < 128) → IsTrue result }
{
    match behind {
        Some(number) => number < 128,
        None => true,
    }
}

/// The line of a refused retrieval; an error if memory ran out.
fn unretrieved(alloc: Global, error: RetrieveError) -> Result<Vec<u8>, AllocError>
    ensures { IfOk result (λ v. IsRetrieveLine error v.items) }
{
    match error {
        RetrieveError::BadAck => Vec::from_slice(alloc, b"refused E2 BadAck"),
        RetrieveError::NoMemory => Err(AllocError),
    }
}

/// The number of messages.
fn how_many(messages: &VecDeque<Msu>) -> usize
    ensures { result ≡ length messages.now.items }
{
    messages.len()
}

/// Obeys `retrieve N` or `retrieve`: retrieves messages. A number above 127 would count as out of memory, but never
/// occurs: a line with such a number is no command.
fn retrieve(
    alloc: Global,
    terminal: &mut Terminal,
    behind: Option<u8>,
) -> Result<Vec<u8>, AllocError>
    ensures { IfOk result (λ v. Retrieves behind terminal.old v.items terminal.new) }
{
    if !is_number(behind) {
        return Err(AllocError);
    }
    match terminal.retrieve_telling(behind) {
        Ok(messages) => {
            let count = how_many(&messages);
            text_line(alloc, &format_args!("ok {count}"))
        }
        Err(error) => unretrieved(alloc, error),
    }
}

/// The line of `measure NAME`: the count.
fn measured(alloc: Global, terminal: &Terminal, measure: Measure) -> Result<Vec<u8>, AllocError>
    ensures { IfOk result (λ v. v.items ≡ measure_line measure terminal.now) }
{
    let measures = terminal.measures();
    let count = measures.count(measure);
    text_line(alloc, &format_args!("ok {count}"))
}

/// The line of `measure aborted_periods`: the number of aborted proving periods.
fn aborted(alloc: Global, terminal: &Terminal) -> Result<Vec<u8>, AllocError>
    ensures { IfOk result (λ v. v.items ≡ aborted_line terminal.now) }
{
    let count = terminal.aborted();
    text_line(alloc, &format_args!("ok {count}"))
}

/// Obeys `measure reset`: resets all counts.
fn reset(alloc: Global, terminal: &mut Terminal) -> Result<Vec<u8>, AllocError>
    ensures text { IfOk result (λ v. v.items ≡ codes "ok") }
    ensures terminal { OnOk result (terminal.new ≡ behind_reset terminal.old) }
{
    terminal.reset_measures();
    Vec::from_slice(alloc, b"ok")
}

/// Obeys a command other than `out` and `expect`, and returns its line. Unless it `keeps` the terminal's reports, they
/// are dropped after a unit and after octets of the line.
fn done(
    alloc: Global,
    terminal: &mut Terminal,
    command: &TermCommand<'_>,
    keeps: bool,
) -> Result<Vec<u8>, AllocError>
    ensures { IfOk result (λ v. Does keeps (plain_term_command command.now) terminal.old v.items terminal.new) }
{
    match command {
        TermCommand::Order(order) => tell(alloc, terminal, *order),
        TermCommand::Unit(octets) => receive(alloc, terminal, octets, 1, keeps),
        TermCommand::Units(times, octets) => receive(alloc, terminal, octets, *times, keeps),
        TermCommand::Errors(times) => take(alloc, terminal, &ERROR, *times, keeps),
        TermCommand::Line(octets) => take(alloc, terminal, octets, 1, keeps),
        TermCommand::Msu(octets) => put(alloc, terminal, octets),
        TermCommand::Tick(ticks) => tick(alloc, terminal, *ticks),
        TermCommand::Told => told(alloc, terminal),
        TermCommand::Accepted => accepted(alloc, terminal),
        TermCommand::Retrieve(behind) => retrieve(alloc, terminal, *behind),
        TermCommand::Measure(measure) => measured(alloc, terminal, *measure),
        TermCommand::Aborted => aborted(alloc, terminal),
        TermCommand::Reset => reset(alloc, terminal),
        TermCommand::State(process) => state_line(alloc, terminal.book(), process),
        TermCommand::Value(process, variable) => {
            value_line(alloc, terminal.book(), process, variable)
        }
        TermCommand::Out(_) | TermCommand::Expect(_) => Ok(Vec::new(alloc)),
    }
}

/// Obeys a command as `done` does, then clears the terminal's buffers if its process text requested it.
pub fn answer(
    alloc: Global,
    terminal: &mut Terminal,
    command: &TermCommand<'_>,
    keeps: bool,
) -> Result<Vec<u8>, AllocError>
    ensures { IfOk result (λ v. Answers keeps (plain_term_command command.now) terminal.old v.items terminal.new) }
{
    match done(alloc, terminal, command, keeps) {
        Ok(line) => {
            let _cleared = terminal.obey_clear();
            Ok(line)
        }
        Err(error) => Err(error),
    }
}
