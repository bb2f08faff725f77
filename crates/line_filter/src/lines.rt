//! Lines of orders, read octet by octet.
ghost use Rattle.std.specs.Prelude.{◌≡◌, ◌<◌, ◌≤◌, ◌++◌, ◌∷◌, [], ℕ, List, Some, None, IfOk, IfSome, IsNone, IsSome, OnOk, length, string_bytes};
ghost use Rattle.line_filter.specs.Says.{plain_says};
ghost use Rattle.line_filter.specs.Streams.{line_says, said_at, wait_behind, waiting_of, timed, whole_lines, left_in, orders_of, IsHeld};

use crate::says::{LineSays, line_says};
use std::alloc::{AllocError, Global};
use std::str;

/// The most octets of a line, without its end.
pub const MOST_OCTETS: usize = 600;

/// Lines of orders as far as they have been read.
#[derive(Drop)]
pub struct OrderLines {
    /// The octets of the last read.
    pub part: Vec<u8>,
    /// How many of them were examined.
    pub from: usize,
    /// The current line so far; of a line that is too long, one octet more than the limit.
    pub line: Vec<u8>,
    /// The millisecond before which the next order isn't obeyed.
    pub since: u64,
    /// The next order, if its line is complete.
    pub waiting: Option<String>,
}

/// The meaning of a line. A line that is too long or isn't UTF-8 means an order without words, which is refused.
fn says(alloc: Global, line: &[u8]) -> Result<LineSays, AllocError>
    ensures { IfOk result (λ s. plain_says s ≡ line_says line.now) }
{
    if line.len() > MOST_OCTETS {
        return Ok(LineSays::Order(String::new(alloc)));
    }
    match str::from_utf8(line) {
        Ok(text) => line_says(alloc, text),
        Err(_) => Ok(LineSays::Order(String::new(alloc))),
    }
}

impl OrderLines {
    /// The lines before any read.
    pub fn new(alloc: Global) -> Self
        ensures { (more : List ℕ) → left_in result more ≡ orders_of more }
    {
        OrderLines {
            part: Vec::new(alloc),
            from: 0,
            line: Vec::new(alloc),
            since: 0,
            waiting: None,
        }
    }

    /// Records the meaning of a line.
    fn note(&mut self, said: LineSays)
        requires { self.old.waiting ≡ None }
        ensures order { waiting_of self.new ≡ said_at self.old.since (plain_says said) }
        ensures since { self.new.since ≡ wait_behind self.old.since (plain_says said) }
        ensures part { (self.new.part ≡ self.old.part) × (self.new.from ≡ self.old.from) × (self.new.line ≡ self.old.line) }
    {
        match said {
            LineSays::Nothing => {}
            LineSays::At(millisecond) => self.since = self.since.max(millisecond),
            LineSays::Order(order) => self.waiting = Some(order),
            LineSays::OrderAt(millisecond, order) => {
                self.since = self.since.max(millisecond);
                self.waiting = Some(order);
            }
        }
    }

    /// Ends the current line.
    fn end_line(&mut self, alloc: Global) -> Result<(), AllocError>
        requires { self.old.waiting ≡ None }
        ensures line { OnOk result (self.new.line.items ≡ []) }
        ensures order { OnOk result (waiting_of self.new ≡ said_at self.old.since (line_says self.old.line.items)) }
        ensures since { OnOk result (self.new.since ≡ wait_behind self.old.since (line_says self.old.line.items)) }
        ensures part { OnOk result ((self.new.part ≡ self.old.part) × (self.new.from ≡ self.old.from)) }
    {
        let said = says(alloc, &self.line)?;
        self.line.clear();
        self.note(said);
        Ok(())
    }

    /// Appends an octet to the current line.
    fn lengthen(&mut self, octet: u8) -> Result<(), AllocError>
        ensures line { OnOk result ((since : ℕ) (more : List ℕ) → timed since (whole_lines self.new.line.items more)
            ≡ timed since (whole_lines (self.old.line.items ++ octet ∷ []) more)) }
        ensures same { OnOk result ((self.new.part ≡ self.old.part) × (self.new.from ≡ self.old.from) × (self.new.since ≡ self.old.since)
            × (self.new.waiting ≡ self.old.waiting)) }
    {
        if self.line.len() <= MOST_OCTETS {
            self.line.push(octet)?;
        }
        Ok(())
    }

    /// Examines the next octet, which the caller ensures exists.
    pub fn look(&mut self, alloc: Global) -> Result<(), AllocError>
        requires next { self.old.from < length self.old.part.items }
        requires none { self.old.waiting ≡ None }
        ensures { OnOk result ((more : List ℕ) → left_in self.new more ≡ left_in self.old more) }
    {
        let octet = self.part[self.from];
        self.from += 1;
        if octet == b'\n' {
            self.end_line(alloc)?;
            return Ok(());
        }
        self.lengthen(octet)?;
        Ok(())
    }

    /// Takes octets of a new read, after all earlier ones were examined.
    pub fn fill(&mut self, octets: &[u8]) -> Result<(), AllocError>
        requires { length self.old.part.items ≤ self.old.from }
        ensures { OnOk result ((more : List ℕ) → left_in self.new more ≡ left_in self.old (octets.now ++ more)) }
    {
        self.part.clear();
        self.from = 0;
        self.part.extend_from_slice(octets)?;
        Ok(())
    }

    /// The next order, if it is due.
    pub fn take_due(&mut self, now: u64) -> Option<String>
        requires { IsSome self.old.waiting }
        ensures due { IfSome result (λ text. (self.old.since ≤ now)
            × ((more : List ℕ) → left_in self.old more ≡ (record { at = self.old.since; text = string_bytes text }) ∷ left_in self.new more)) }
        ensures none { IsNone result → IsHeld now self.old × (self.new ≡ self.old) }
    {
        if now < self.since {
            return None;
        }
        self.waiting.take()
    }
}
