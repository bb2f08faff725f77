//! The signals about units that are offered to the actors.
ghost use Rattle.std.specs.Prelude.{◌≡◌};
ghost use Rattle.link_transceiver.specs.Offers.{error_offers, counting_offers, to_monitors};

use su_octets::Unit;

/// An actor that receives signals about units.
#[derive(Clone, Copy, Debug, PartialEq, Eq)]
pub enum Party {
    /// The alignment error rate monitor.
    Aerm,
    /// The signal unit error rate monitor.
    Suerm,
    /// Transmission control.
    Txc,
    /// Reception control.
    Rc,
}

/// A signal from the environment of a link.
#[derive(Clone, Copy, Debug, PartialEq, Eq)]
pub enum Notice {
    /// A unit without errors was received.
    Good,
    /// A unit with errors was received, or sixteen octets without a unit.
    Errored,
    /// Messages were acknowledged; true if some are still unacknowledged.
    AckSeen(bool),
    /// Two of the last three units had an abnormal backward number, or two an abnormal forward indicator.
    Bad,
    /// A unit was received: its status code, or 8 for a fill-in or message signal unit.
    Unit(u8),
    /// In place of `Unit(8)`: a FISU or MSU was discarded, for its backward number (1) or forward indicator (2).
    Odd(u8),
    /// Octet counting begins (true) or ends.
    Counting(bool),
    /// A message was sent, for the first time or again.
    MsuSent,
}

/// A signal to an actor.
#[derive(Clone, Copy, Debug, PartialEq, Eq)]
pub struct Offer {
    /// The actor that gets the signal.
    pub to: Party,
    pub notice: Notice,
}

impl Default for Offer {
    ghost use Rattle.std.specs.Prelude.{◌≡◌};
    ghost use Rattle.link_transceiver.specs.Offers.{two_bad};

    ghost is_default = { λ offer. offer ≡ two_bad };

    /// An arbitrary offer, for an unused place of an array.
    fn default() -> Self {
        Offer {
            to: Party::Rc,
            notice: Notice::Bad,
        }
    }
}

/// A unit to send.
#[derive(Debug, Drop, PartialEq, Eq)]
pub struct UnitOut {
    pub unit: Unit,
    /// The signal to offer then: `MsuSent` if the unit carries a message.
    pub offer: Option<Offer>,
}

/// The offers for a unit with errors or for sixteen octets without a unit, in this order.
pub fn error_offers() -> [Offer; 2]
    ensures { result ≡ error_offers }
{
    to_monitors(Notice::Errored)
}

/// The offers for octet counting that begins or ends, in this order.
pub fn counting_offers(on: bool) -> [Offer; 2]
    ensures { result ≡ counting_offers on }
{
    to_monitors(Notice::Counting(on))
}

/// Offers a signal to both error rate monitors, the alignment monitor first.
pub(crate) fn to_monitors(notice: Notice) -> [Offer; 2]
    ensures { result ≡ to_monitors notice }
{
    [
        Offer {
            to: Party::Aerm,
            notice,
        },
        Offer {
            to: Party::Suerm,
            notice,
        },
    ]
}
