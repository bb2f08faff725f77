//! What measurements read of a transceiver and of a unit.
ghost use Rattle.std.specs.Prelude.{◌≡◌};
ghost use Rattle.link_transceiver.specs.Measuring.{glance, seen_of, is_outage, is_messages, octets_seen, is_message, is_sib};

use crate::signals::{BUSY, LineKind};
use crate::transceiver::Transceiver;
use su_octets::Unit;

/// What measurements read of a transceiver.
#[derive(Clone, Copy)]
pub struct Glance {
    /// Whether the link is in service, as last reported.
    pub in_service: bool,
    /// Whether the far side has a processor outage, as last reported.
    pub far_out: bool,
    /// Whether the status of a processor outage is sent.
    pub outage: bool,
    /// Whether acknowledgement is withheld.
    pub busy: bool,
    /// Whether messages may be sent.
    pub sending: bool,
    /// How many accepted messages wait to be handed out.
    pub waiting: usize,
    /// The receiver's backward indicator bit.
    pub bib: u8,
    /// The sender's forward indicator bit.
    pub fib: u8,
    /// How many messages are sent and unacknowledged.
    pub sent: usize,
    /// The number of the last acknowledged message.
    pub acknowledged: u8,
    /// How many messages of a round of forced retransmission are still to be sent; none if no round is under way.
    pub round: Option<u8>,
    /// Whether the number of unacknowledged messages by itself forces retransmission.
    pub many: bool,
}

/// What measurements read of a unit.
#[derive(Clone, Copy)]
pub enum Seen {
    /// A message with so many octets of SIO and SIF.
    Message(u64),
    /// A fill-in unit.
    FillIn,
    /// A link status signal unit, by its code.
    Status(u8),
}

/// What measurements read of a unit.
#[tactic(auto, unfolding(crate::specs::Measuring::seen_of))]
pub fn seen_of(unit: &Unit) -> Seen
    ensures { result ≡ seen_of unit.now }
{
    match unit {
        Unit::Fisu(_) => Seen::FillIn,
        Unit::Lssu(_, status, _) => Seen::Status(*status % 8),
        Unit::Msu(_, _, sif) => Seen::Message(sif.len() as u64 + 1),
    }
}

impl Seen {
    /// The octets of SIO and SIF; 0 if the unit isn't a message.
    pub(crate) fn octets(self) -> u64
        ensures { result ≡ octets_seen self }
    {
        match self {
            Seen::Message(octets) => octets,
            Seen::FillIn | Seen::Status(_) => 0,
        }
    }

    /// Whether the unit is a message.
    pub(crate) fn is_message(self) -> bool
        ensures { result ≡ is_message self }
    {
        match self {
            Seen::Message(_) => true,
            Seen::FillIn | Seen::Status(_) => false,
        }
    }

    /// Whether the unit is a busy status.
    pub(crate) fn is_sib(self) -> bool
        ensures { result ≡ is_sib self }
    {
        match self {
            Seen::Status(code) => code == BUSY,
            Seen::Message(_) | Seen::FillIn => false,
        }
    }
}

/// Whether the status of a processor outage is sent.
fn is_outage(line: Option<LineKind>) -> bool
    ensures { result ≡ is_outage line }
{
    match line {
        Some(LineKind::Status(code)) => code == 4,
        Some(LineKind::FillIn) => false,
        Some(LineKind::Messages) => false,
        None => false,
    }
}

/// Whether messages may be sent.
fn is_messages(line: Option<LineKind>) -> bool
    ensures { result ≡ is_messages line }
{
    match line {
        Some(LineKind::Status(_)) => false,
        Some(LineKind::FillIn) => false,
        Some(LineKind::Messages) => true,
        None => false,
    }
}

impl Transceiver {
    /// What measurements read of this transceiver.
    #[tactic(auto, unfolding(crate::specs::Measuring::glance))]
    pub fn glance(&self) -> Glance
        ensures { result ≡ glance self.now }
    {
        Glance {
            in_service: self.in_service(),
            far_out: self.far_out(),
            outage: is_outage(self.line()),
            busy: self.withheld.is_some(),
            sending: is_messages(self.line()),
            waiting: self.messages.len(),
            bib: self.receiver.bib(),
            fib: self.sender.fib(),
            sent: self.sender.sent(),
            acknowledged: self.acknowledged(),
            round: self.sender.round_left(),
            many: self.sender.reaches_number(),
        }
    }
}
