//! Orders in a file or a FIFO.
ghost use Rattle.std.specs.Prelude.{◌≡◌, true, IfOk, IfSome, IsNone, string_bytes};
ghost use Rattle.line_streams.specs.Watching.{NoneMayCome, watch_in};
ghost use Rattle.line_filter.specs.Says.{is_end_order};

use crate::ahead::{Ahead, Source};
use line_filter::{LineOrders, OrderLines, Orders};
use std::alloc::Global;
use std::io::{self, ErrorKind};

/// Orders in a file or FIFO, read as it grows. `quit` and `leave` don't wait for orders given a second or more before
/// them.
#[derive(Drop)]
pub struct LiveOrders {
    orders: LineOrders<Ahead>,
    /// The number of orders that had their turn.
    count: u64,
}

impl LiveOrders {
    /// Orders before any read.
    pub(crate) fn new(alloc: Global, source: Source) -> LiveOrders {
        LiveOrders {
            orders: LineOrders::new(alloc, Ahead::new(alloc, source)),
            count: 0,
        }
    }

    /// A `quit` that needn't wait for the orders before it, if one has arrived.
    fn quit(&mut self, alloc: Global, now: u64) -> io::Result<Option<String>> {
        if self.orders.lines.waiting.is_none() {
            return Ok(None);
        }
        self.orders.reader.read_on()?;
        if !self.orders.reader.watch.is_quit(now) {
            return Ok(None);
        }
        let mut order = String::new(alloc);
        order.push_str("quit")?;
        Ok(Some(order))
    }

    /// Whether the order whose turn it is was returned earlier.
    fn has_come(&mut self) -> bool {
        let place = self.count;
        self.count = self.count.saturating_add(1);
        self.orders.reader.watch.pass(place)
    }

    /// The next order, if it is due at this millisecond.
    pub(crate) fn next(&mut self, alloc: Global, now: u64) -> io::Result<Option<String>> {
        self.orders.reader.now = now;
        for _order in 0..u64::MAX {
            match self.orders.next(alloc, now)? {
                Some(order) => {
                    if !self.has_come() {
                        return Ok(Some(order));
                    }
                }
                None => return self.quit(alloc, now),
            }
        }
        Err(io::Error::from(ErrorKind::Other))
    }

    /// An order that ends the run, ahead of its turn, if one came and is due at this millisecond.
    pub(crate) fn next_end(&mut self, now: u64) -> io::Result<Option<String>>
        ensures text { IfOk result (λ r. IfSome r (λ text. is_end_order (string_bytes text) ≡ true)) }
        ensures none { IfOk result (λ r. IsNone r → NoneMayCome now (watch_in self.new)) }
    {
        self.orders.reader.now = now;
        self.orders.reader.read_on()?;
        Ok(self.orders.reader.watch.end(now)?)
    }

    /// Goes back to the beginning of a truncated file, and drops all that was read of it. Returns whether it was.
    pub(crate) fn rewind(&mut self, alloc: Global) -> io::Result<bool> {
        if !self.orders.reader.rewind(alloc)? {
            return Ok(false);
        }
        self.orders.lines = OrderLines::new(alloc);
        self.count = 0;
        Ok(true)
    }
}
