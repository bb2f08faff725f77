//! The source of orders.
ghost use Rattle.std.specs.Prelude.{◌≡◌, true, List, Option, None, Some, IfOk, IfSome, IsNone, [], string_bytes};
ghost use Rattle.line_filter.specs.Orders.{Timed, NextIs, NoneIsDue, Stays, ComesAhead, BeginsAnew};
ghost use Rattle.line_filter.specs.Says.{is_end_order};

use std::alloc::Global;
use std::io;

/// A source of orders.
pub trait Orders {
    // the orders still to come, if that is known
    ghost left: { Self → Option (List Timed) };

    /// The next order, if it is due at millisecond `now`; none if it must wait or hasn't arrived. Fails if a read fails
    /// or memory runs out, and isn't called again after that.
    fn next(&mut self, alloc: Global, now: u64) -> io::Result<Option<String>>
        ensures order { IfOk result (λ r. IfSome r (λ text. NextIs now (left self.old) (string_bytes text) (left self.new))) }
        ensures none { IfOk result (λ r. IsNone r → NoneIsDue now (left self.old) (left self.new)) };

    /// An order that ends the run (`quit` or `leave`), ahead of earlier orders that aren't read for now, if one came
    /// and is due. It isn't returned again in its turn. None if unread orders can't be looked at.
    ///
    /// # Errors
    ///
    /// As [`Orders::next`].
    fn next_end(&mut self, alloc: Global, now: u64) -> io::Result<Option<String>>
        ensures order { IfOk result (λ r. IfSome r (λ _. ComesAhead (left self.old) (left self.new))) }
        ensures ends { IfOk result (λ r. IfSome r (λ text. is_end_order (string_bytes text) ≡ true)) }
        ensures none { IfOk result (λ r. IsNone r → Stays (left self.old) (left self.new)) };

    /// Whether the orders begin anew, because their file was truncated. Then whatever was read of it but not obeyed is
    /// dropped, and the file is read from its beginning.
    ///
    /// # Errors
    ///
    /// If the state of the file can't be determined.
    fn begins_anew(&mut self, alloc: Global) -> io::Result<bool>
        ensures { IfOk result (λ anew. BeginsAnew anew (left self.old) (left self.new)) };
}

/// A source without orders.
#[derive(Clone, Copy)]
pub struct NoOrders;

impl Orders for NoOrders {
    ghost left = { λ _. Some [] };

    fn next(&mut self, _alloc: Global, _now: u64) -> io::Result<Option<String>> {
        Ok(None)
    }

    fn next_end(&mut self, _alloc: Global, _now: u64) -> io::Result<Option<String>> {
        Ok(None)
    }

    fn begins_anew(&mut self, _alloc: Global) -> io::Result<bool> {
        Ok(false)
    }
}
