//! Finding orders that end a run and needn't wait.
ghost use Rattle.std.specs.Prelude.{◌≡◌, ◌<◌, true, length, get_or, IfOk, IfSome, IsNone, OnOk, string_bytes};
ghost use Rattle.line_streams.specs.Watching.{may_come, NoneMayCome, Notes};
ghost use Rattle.line_streams.specs.declared.ending.End.{End};
ghost use Rattle.line_filter.specs.Says.{is_end_order};

use crate::ending::End;
use line_filter::{LineSays, MOST_OCTETS, ends_run, line_says};
use std::alloc::{AllocError, Global};
use std::collections::VecDeque;
use std::str;

/// Milliseconds without octets after which lines no longer count as given together.
const APART: u64 = 1_000;

/// A copy of a text.
fn copied(alloc: Global, text: &str) -> Result<String, AllocError>
    ensures { IfOk result (λ copy. string_bytes copy ≡ text.now) }
{
    let mut copy = String::new(alloc);
    copy.push_str(text)?;
    Ok(copy)
}

/// Whether an order may come ahead of its turn at this millisecond.
fn is_due(end: &End, now: u64) -> bool
    ensures { result ≡ may_come now end.now }
{
    !end.given && end.since <= now
}

/// Examines lines of orders as they arrive, for those that end the run. Like any order, such an order waits for the
/// time of earlier lines, but only of those given together with it.
#[derive(Drop)]
pub(crate) struct Watch {
    alloc: Global,
    /// The current line; of a line that is too long, one octet more than the limit.
    line: Vec<u8>,
    /// The millisecond until which lines given together make later ones wait.
    since: u64,
    /// The millisecond since which no octet has arrived, if none arrives now.
    resting: Option<u64>,
    /// The number of orders that came.
    count: u64,
    /// The orders that end the run and haven't had their turn.
    ends: VecDeque<End>,
}

impl Watch {
    /// The state before any line.
    pub fn new(alloc: Global) -> Watch {
        Watch {
            alloc,
            line: Vec::new(alloc),
            since: 0,
            resting: None,
            count: 0,
            ends: VecDeque::new(alloc),
        }
    }

    /// Notes that no octet arrives at this millisecond.
    pub fn rest(&mut self, now: u64) {
        if self.resting.is_none() {
            self.resting = Some(now);
        }
    }

    /// Whether no octet arrived at the last read.
    pub fn rests(&self) -> bool {
        self.resting.is_some()
    }

    /// Whether a `quit` ends the run at this millisecond, even if orders wait.
    pub fn is_quit(&self, now: u64) -> bool {
        for place in 0..self.ends.len() {
            match self.ends.get(place) {
                Some(end) if end.text.as_str() == "quit" && is_due(end, now) => return true,
                _ => {}
            }
        }
        false
    }

    /// Whether the order at a place may come ahead of its turn at this millisecond.
    fn may_come(&self, place: usize, now: u64) -> bool
        ensures { (d : End) → place < length self.now.ends.items → result ≡ may_come now (get_or self.now.ends.items place d) }
    {
        match self.ends.get(place) {
            Some(end) => is_due(end, now),
            None => false,
        }
    }

    /// The place of the first order that may come ahead of its turn at this millisecond, if there is one.
    fn due(&self, now: u64) -> Option<usize>
        ensures some { IfSome result (λ place. place < length self.now.ends.items) }
        ensures none { IsNone result → NoneMayCome now self.now }
    {
        for place in 0..self.ends.len() {
            if self.may_come(place, now) {
                return Some(place);
            }
        }
        None
    }

    /// The first order that ends the run and may come ahead of its turn at this millisecond, if there is one. It isn't
    /// returned again.
    pub fn end(&mut self, now: u64) -> Result<Option<String>, AllocError>
        ensures text { IfOk result (λ r. IfSome r (λ text. is_end_order (string_bytes text) ≡ true)) }
        ensures none { IfOk result (λ r. IsNone r → NoneMayCome now self.new) }
    {
        let Some(place) = self.due(now) else {
            return Ok(None);
        };
        match self.ends.get_mut(place) {
            Some(end) => {
                let text = copied(self.alloc, end.text.as_str())?;
                end.given = true;
                Ok(Some(text))
            }
            None => Ok(None),
        }
    }

    /// Gives the order at a place its turn. Returns whether it came ahead of it.
    pub fn pass(&mut self, place: u64) -> bool {
        match self.ends.front() {
            Some(end) if end.place == place => {}
            _ => return false,
        }
        match self.ends.pop_front() {
            Some(end) => end.given,
            None => false,
        }
    }

    /// Notes an order if it ends the run. It waits for lines given together with it.
    fn order(&mut self, text: String) -> Result<(), AllocError>
        ensures { OnOk result (Notes (string_bytes text) self.old self.new) }
    {
        let place = self.count;
        self.count = self.count.saturating_add(1);
        if !ends_run(self.alloc, text.as_str())? {
            return Ok(());
        }
        self.ends.push_back(End {
            place,
            since: self.since,
            text,
            given: false,
        })?;
        Ok(())
    }

    /// Ends the current line.
    fn end_line(&mut self) -> Result<(), AllocError> {
        let said = match str::from_utf8(self.line.as_slice()) {
            Ok(text) if self.line.len() <= MOST_OCTETS => line_says(self.alloc, text)?,
            _ => LineSays::Order(String::new(self.alloc)),
        };
        self.line.clear();
        match said {
            LineSays::Nothing => Ok(()),
            LineSays::At(millisecond) => {
                self.since = self.since.max(millisecond);
                Ok(())
            }
            LineSays::Order(order) => self.order(order),
            LineSays::OrderAt(millisecond, order) => {
                self.since = self.since.max(millisecond);
                self.order(order)
            }
        }
    }

    /// Takes one octet.
    fn look(&mut self, octet: u8) -> Result<(), AllocError> {
        if octet == b'\n' {
            return self.end_line();
        }
        if self.line.len() <= MOST_OCTETS {
            self.line.push(octet)?;
        }
        Ok(())
    }

    /// Takes octets that arrive at this millisecond.
    pub fn see(&mut self, now: u64, octets: &[u8]) -> Result<(), AllocError> {
        if let Some(millisecond) = self.resting {
            if now.saturating_sub(millisecond) >= APART {
                self.since = 0;
            }
        }
        self.resting = None;
        for octet in octets {
            self.look(*octet)?;
        }
        Ok(())
    }
}
