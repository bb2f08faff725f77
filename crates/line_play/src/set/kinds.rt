//! Kinds of orders to a set.
ghost use Rattle.std.specs.Prelude.{◌≡◌};
ghost use Rattle.line_play.specs.SetOrders.{is_send, needs_links, plain_set_order};

use crate::set::orders::SetOrder;

impl SetOrder {
    /// Whether the order sends a message.
    pub(crate) fn sends(&self) -> bool
        ensures { result ≡ is_send (plain_set_order self.now) }
    {
        match self {
            SetOrder::Send(_) => true,
            _ => false,
        }
    }

    /// Whether it addresses links: it asks something of them, or lets them do something.
    pub(crate) fn needs_links(&self) -> bool
        ensures { result ≡ needs_links (plain_set_order self.now) }
    {
        match self {
            SetOrder::Link(_)
            | SetOrder::State(_)
            | SetOrder::Value(_, _)
            | SetOrder::Measure(_)
            | SetOrder::Aborted
            | SetOrder::Measures
            | SetOrder::Reset => true,
            SetOrder::On(_)
            | SetOrder::Send(_)
            | SetOrder::Table
            | SetOrder::Held
            | SetOrder::Unsure
            | SetOrder::Rebalance
            | SetOrder::Reopen
            | SetOrder::Quit
            | SetOrder::Leave(_) => false,
        }
    }
}
