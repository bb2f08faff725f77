//! Orders, read as they arrive.
ghost use Rattle.std.specs.Prelude.{◌≡◌, ◌≤◌, None, IfOk, length, option_map};
ghost use Rattle.line_filter.specs.Streams.{orders_of};
ghost use Rattle.line_filter.specs.Orders.{Stays};
ghost use Rattle.line_filter.specs.Reading.{left_of, IsRead};

use crate::lines::OrderLines;
use crate::orders::Orders;
use std::alloc::Global;
use std::io::{self, ErrorKind, Read};

/// The most octets per read.
const PART: usize = 1024;

/// The orders in the lines of a reader. A reader that returns nothing now may return more later; a line counts once its
/// end has arrived.
#[derive(Drop)]
pub struct LineOrders<R> {
    /// The source of the octets.
    pub reader: R,
    /// The lines as far as they have been read.
    pub lines: OrderLines,
}

impl<R: Read> LineOrders<R> {
    /// The orders of a reader of which nothing was read yet.
    pub fn new(alloc: Global, reader: R) -> Self
        ensures orders { left_of R.remaining result ≡ option_map orders_of (R.remaining reader) }
        ensures reader { result.reader ≡ reader }
    {
        LineOrders {
            reader,
            lines: OrderLines::new(alloc),
        }
    }

    /// Reads more, after all octets were examined. Returns whether there may be more.
    fn read_on(&mut self) -> io::Result<bool>
        requires looked { length self.old.lines.part.items ≤ self.old.lines.from }
        requires none { self.old.lines.waiting ≡ None }
        ensures { IfOk result (λ on. IsRead on (left_of R.remaining self.old) (left_of R.remaining self.new)) }
    {
        let mut part = [0; PART];
        match self.reader.read(&mut part) {
            Ok(0) => Ok(false),
            Ok(count) => {
                self.lines.fill(&part[..count])?;
                Ok(true)
            }
            Err(error) => {
                if error.kind() == ErrorKind::Interrupted {
                    Ok(true)
                } else {
                    Err(error)
                }
            }
        }
    }
}

impl<R: Read> Orders for LineOrders<R> {
    ghost left = { left_of R.remaining };

    fn next(&mut self, alloc: Global, now: u64) -> io::Result<Option<String>> {
        for _octet in 0..u64::MAX {
            if self.lines.waiting.is_some() {
                let due = self.lines.take_due(now);
                return Ok(due);
            }
            if self.lines.from < self.lines.part.len() {
                self.lines.look(alloc)?;
            } else {
                let goes_on = self.read_on()?;
                if !goes_on {
                    return Ok(None);
                }
            }
        }
        Err(io::Error::from(ErrorKind::Other))
    }

    fn next_end(&mut self, _alloc: Global, _now: u64) -> io::Result<Option<String>> {
        Ok(None)
    }

    fn begins_anew(&mut self, _alloc: Global) -> io::Result<bool> {
        Ok(false)
    }
}
