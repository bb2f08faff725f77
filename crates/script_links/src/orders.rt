//! The orders to a terminal, and the kinds of error correction, each named by one word.
ghost use Rattle.std.specs.Prelude.{◌≡◌};
ghost use Rattle.script_links.specs.Orders.{mode_named, order_of};

use resend_store::Mode;

/// An order from level 3 or from management to a terminal (Q.703, 7.2 and 8; Q.704).
#[derive(Clone, Copy, PartialEq, Eq, Debug)]
pub enum Order {
    /// `power`: power is on.
    Power,
    /// `start`: brings the link into service.
    Start,
    /// `stop`: takes the link out of service.
    Stop,
    /// `emergency`: uses emergency proving, which is short.
    Emergency,
    /// `calm`: uses normal proving again, from the next start on.
    Calm,
    /// `outage`: the local processor is out.
    Outage,
    /// `back`: the local processor has recovered.
    Back,
    /// `busy`: level 2 is congested.
    Busy,
    /// `free`: level 2 is no longer congested.
    Free,
    /// `flush`: after an outage, clears the buffers and resumes sending messages.
    Flush,
    /// `continue`: after an outage, resumes sending messages.
    Continue,
    /// `overload`: level 2 is congested and discards received messages.
    Overload,
}

/// The order that a word names; the case of letters matters.
pub fn order_in(word: &str) -> Option<Order>
    ensures { result ≡ order_of word.now }
{
    match word {
        "power" => Some(Order::Power),
        "start" => Some(Order::Start),
        "stop" => Some(Order::Stop),
        "emergency" => Some(Order::Emergency),
        "calm" => Some(Order::Calm),
        "outage" => Some(Order::Outage),
        "back" => Some(Order::Back),
        "busy" => Some(Order::Busy),
        "free" => Some(Order::Free),
        "flush" => Some(Order::Flush),
        "continue" => Some(Order::Continue),
        "overload" => Some(Order::Overload),
        _ => None,
    }
}

/// The kind of error correction that a word names; the case of letters matters.
pub fn mode_named(word: &str) -> Option<Mode>
    ensures { result ≡ mode_named word.now }
{
    if word == "basic" {
        Some(Mode::Basic)
    } else if word == "cyclic" {
        Some(Mode::Cyclic)
    } else {
        None
    }
}
