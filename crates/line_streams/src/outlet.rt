//! A queue of lines that are lost if there is no room.
ghost use Rattle.std.specs.Prelude.{◌≡◌, ◌<◌, ◌++◌, [], ◌+◌, length, true, false, OnOk, OnErr, IfOk, IfSome, IsNone};
ghost use Rattle.line_filter.specs.Reporting.{has_to_wait};
ghost use Rattle.rtrb.specs.Ring.{sent, known_free};
ghost use Rattle.line_streams.specs.Departing.{Begins, FirstGoes, GoesOrWaits, GoesWhole, HasNoRoom, IsLossTold, IsToGo, NoneGoes, TellsOn, TellsLost};

use crate::backlog::Backlog;
use line_filter::Wait;
use rtrb::Producer;
use std::alloc::Global;
use std::io::{self, ErrorKind};

/// A queue of lines to be written; lines without room are lost and counted.
#[derive(Drop)]
pub struct Outlet {
    /// The octets to be written.
    pub ring: Producer<u8>,
    /// The lines that wait after them for room.
    pub backlog: Backlog,
    /// The number of lines lost since the last one that wasn't.
    pub lost: u64,
}

/// The millisecond that a line begins with.
fn time_of(line: &[u8]) -> Option<&[u8]>
    ensures { IfSome result (λ time. Begins line.now time.now) }
{
    for place in 0..line.len() {
        if line[place] == b' ' {
            return Some(&line[..place]);
        }
    }
    None
}

/// A line, with the number of lost lines before it.
fn loss_told(alloc: Global, lost: u64, time: &[u8], line: &[u8]) -> io::Result<Vec<u8>>
    requires { Begins line.now time.now }
    ensures { IfOk result (λ text. IsLossTold lost line.now text.items) }
{
    let mut text = Vec::from_slice(alloc, time)?;
    let loss = format!(in alloc; " lost {lost}\n")?;
    text.extend_from_slice(loss.as_bytes())?;
    text.extend_from_slice(line)?;
    Ok(text)
}

/// The octets to queue for a line.
fn to_go(alloc: Global, lost: u64, line: &[u8]) -> io::Result<Vec<u8>>
    ensures { IfOk result (λ text. IsToGo lost line.now text.items) }
{
    if lost == 0 {
        return Ok(Vec::from_slice(alloc, line)?);
    }
    match time_of(line) {
        Some(time) => loss_told(alloc, lost, time, line),
        None => Err(io::Error::from(ErrorKind::InvalidInput)),
    }
}

/// Whether a line waits if there is no room for it.
fn has_to_wait(wait: Wait) -> bool
    ensures { result ≡ has_to_wait wait }
{
    match wait {
        Wait::Never => false,
        Wait::Message | Wait::Answer | Wait::Other => true,
    }
}

impl Outlet {
    /// Queues octets, all or none. Returns whether they were queued.
    fn send(&mut self, octets: &[u8]) -> bool
        ensures sent { result ≡ true → sent self.new.ring ≡ sent self.old.ring ++ octets.now }
        ensures same { result ≡ false → sent self.new.ring ≡ sent self.old.ring }
        ensures full { result ≡ false → known_free self.new.ring < length octets.now }
        ensures lost { self.new.lost ≡ self.old.lost }
        ensures backlog { self.new.backlog ≡ self.old.backlog }
    {
        self.ring.push_entire_slice(octets).is_ok()
    }

    /// Queues octets, all or none, if no line waits. Returns whether they were queued.
    fn send_behind_none(&mut self, octets: &[u8]) -> bool
        ensures empty { result ≡ true → (self.old.backlog ≡ []) × (self.new.backlog ≡ []) }
        ensures sent { result ≡ true → sent self.new.ring ≡ sent self.old.ring ++ octets.now }
        ensures same { result ≡ false → sent self.new.ring ≡ sent self.old.ring }
        ensures full { result ≡ false → HasNoRoom octets.now self.old self.new }
        ensures kept { self.new.backlog ≡ self.old.backlog }
        ensures lost { self.new.lost ≡ self.old.lost }
    {
        if !self.backlog.is_empty() {
            return false;
        }
        self.send(octets)
    }

    /// Queues the first waiting line. Returns the octets queued, or none if no line waits or there is no room.
    pub fn send_first(&mut self) -> Option<usize>
        ensures some { IfSome result (λ count. FirstGoes self.old self.new count) }
        ensures none { IsNone result → NoneGoes self.old self.new }
    {
        let first = self.backlog.first()?;
        let count = first.len();
        if self.ring.push_entire_slice(first).is_err() {
            return None;
        }
        self.backlog.drop_first();
        Some(count)
    }

    /// Queues the octets of a line that has to wait, if no other line waits and there is room; else they wait after the
    /// others. Returns the octets queued.
    ///
    /// # Errors
    ///
    /// If memory runs out. Then nothing changes.
    fn send_or_keep(&mut self, wait: Wait, text: Vec<u8>) -> io::Result<usize>
        ensures told { OnOk result (GoesOrWaits wait text.items self.old self.new) }
        ensures count { IfOk result (λ n. length (sent self.new.ring) ≡ length (sent self.old.ring) + n) }
        ensures err { OnErr result (self.new ≡ self.old) }
    {
        let alone = self.backlog.is_empty();
        if !self.backlog.put(wait, text) {
            return Err(io::Error::from(ErrorKind::OutOfMemory));
        }
        self.lost = 0;
        if !alone {
            return Ok(0);
        }
        match self.send_first() {
            Some(count) => Ok(count),
            None => Ok(0),
        }
    }

    /// Queues a line, after the number of lost lines, if no other line waits and both fit. Else it waits or is lost,
    /// depending on its kind. Returns the octets queued.
    ///
    /// # Errors
    ///
    /// If memory runs out, a line after lost ones has no space, or 2^64 - 1 are lost. Then the line isn't queued,
    /// doesn't wait and isn't counted.
    pub fn put(&mut self, alloc: Global, wait: Wait, line: &[u8]) -> io::Result<usize>
        ensures told { OnOk result (TellsOn (record { wait = wait; octets = line.now }) self.old self.new) }
        ensures count { IfOk result (λ n. length (sent self.new.ring) ≡ length (sent self.old.ring) + n) }
        ensures err { OnErr result (self.new ≡ self.old) }
    {
        let text = to_go(alloc, self.lost, line)?;
        let Some(more) = self.lost.checked_add(1) else {
            return Err(io::Error::from(ErrorKind::Other));
        };
        if has_to_wait(wait) {
            return self.send_or_keep(wait, text);
        }
        if self.send_behind_none(&text) {
            self.lost = 0;
            Ok(text.len())
        } else {
            self.lost = more;
            Ok(0)
        }
    }

    /// Queues all octets if there is room; else counts them as one loss, up to 2^64 - 1. Returns the octets queued.
    pub fn put_whole(&mut self, octets: &[u8]) -> usize
        ensures whole { GoesWhole octets.now self.old self.new }
        ensures count { length (sent self.new.ring) ≡ length (sent self.old.ring) + result }
    {
        if self.send(octets) {
            octets.len()
        } else {
            self.lost = self.lost.saturating_add(1);
            0
        }
    }

    /// Queues a line that reports, with this millisecond, how many lines were lost after the last one queued, if any
    /// were lost, none waits and there is room. Returns the octets queued.
    ///
    /// # Errors
    ///
    /// If memory runs out. Nothing is queued then.
    pub fn put_lost(&mut self, alloc: Global, now: u64) -> io::Result<usize>
        ensures told { OnOk result (TellsLost now self.old self.new) }
        ensures count { IfOk result (λ n. length (sent self.new.ring) ≡ length (sent self.old.ring) + n) }
        ensures err { OnErr result (self.new ≡ self.old) }
    {
        if self.lost == 0 {
            return Ok(0);
        }
        let lost = self.lost;
        let text = format!(in alloc; "{now} lost {lost}\n")?;
        if self.send_behind_none(text.as_bytes()) {
            self.lost = 0;
            Ok(text.len())
        } else {
            Ok(0)
        }
    }
}
