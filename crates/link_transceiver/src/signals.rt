//! The signals between a link's actors and its environment.
ghost use Rattle.std.specs.Prelude.{◌≡◌};
ghost use Rattle.link_transceiver.specs.Effects.{renewed_hold};
ghost use Rattle.link_transceiver.specs.TransceiverState.{is_held};

use resend_store::Msu;

/// How many accepted messages are kept until they are handed out.
pub const MESSAGES: usize = 256;

/// How many statuses are kept until they are handed out. Newer ones replace the oldest.
pub const STATUSES: usize = 64;

/// The status code of congestion (Q.703, 9 and 11.1.3).
pub const BUSY: u8 = 5;

/// A signal from an actor to the environment of its link.
#[derive(Clone, Copy, Debug, PartialEq, Eq)]
pub enum EnvSignal {
    /// Both stores restart, since the link is aligned again (Q.703, 7). A withheld number and bit become 127 and 1.
    /// Messages are accepted.
    Fresh,
    /// Whether fill-in and message signal units go through the stores from now on.
    Take(bool),
    /// What is sent from now on: 0 to 4, link status signal units with this code; 5, one such unit, and then what was
    /// sent before; 8, fill-in units; 9, the sender's units. Other numbers change nothing.
    Line(i32),
    /// Whether acknowledgement is withheld from now on: the backward sequence number and indicator bit don't change,
    /// whatever is received (Q.703, 9). When withholding ends, those of the receiver are sent.
    Withhold(bool),
    /// Whether received messages are accepted from now on, or judged and then discarded (Q.703, figures 14 and 16).
    Deliver(bool),
    /// The link is in service.
    InServiceNow,
    /// The link is out of service, for the reason with this number (the actor's numbering).
    Down(i32),
    /// The far side has a processor outage (Q.703, 8).
    RemoteOut,
    /// The far side's processor outage is over.
    RemoteBack,
    /// The buffers are to be cleared (Q.703, figure 13). `Transceiver::clear` does that.
    Clear,
    /// The buffers were cleared (Q.703, figure 13).
    Cleared,
}

/// A unit's acknowledgement: the last message accepted and, by the bit, whether one was lost (Q.703, 5.2).
#[derive(Clone, Copy, Debug, PartialEq, Eq)]
pub struct Backward {
    /// The backward sequence number, 0 to 127.
    pub bsn: u8,
    /// The backward indicator bit, 0 or 1.
    pub bib: u8,
}

/// Whether level 3 holds a link. A held link sends and accepts no message; it still judges units and obeys
/// acknowledgements.
#[derive(Clone, Copy, Debug, PartialEq, Eq)]
pub enum Hold {
    /// The link isn't held.
    Free,
    /// The link is held until both its directions restart (`EnvSignal::Fresh`).
    UntilAnew,
    /// The link is held until level 3 says otherwise, even after a restart.
    Kept,
}

/// The kind of units sent on the line.
#[derive(Clone, Copy, Debug, PartialEq, Eq)]
pub enum LineKind {
    /// Link status signal units with this code.
    Status(u8),
    /// Fill-in signal units.
    FillIn,
    /// The sender's units: messages, and fill-in units between them.
    Messages,
}

/// A reported status of a link.
#[derive(Clone, Copy, Debug, PartialEq, Eq)]
pub enum LinkStatus {
    /// The link came into service.
    InService,
    /// The link went out of service, for the reason with this number (the actor's numbering).
    Down(i32),
    /// The far side has a processor outage.
    RemoteOut,
    /// The far side's processor outage is over.
    RemoteBack,
    /// The buffers were cleared.
    Cleared,
}

/// A report to the user of a link.
#[derive(Debug, Drop, PartialEq, Eq)]
pub enum Report {
    /// A message from the far side.
    Message(Msu),
    /// A change of the link's status.
    Status(LinkStatus),
}

impl Hold {
    /// Whether the link is held.
    #[tactic(auto, unfolding(crate::specs::TransceiverState::is_held))]
    pub fn is_held(self) -> bool
        ensures { result ≡ is_held self }
    {
        match self {
            Hold::Free => false,
            Hold::UntilAnew | Hold::Kept => true,
        }
    }

    /// What the hold becomes when both directions restart.
    pub(crate) fn renewed(self) -> Hold
        ensures { result ≡ renewed_hold self }
    {
        match self {
            Hold::Free | Hold::UntilAnew => Hold::Free,
            Hold::Kept => Hold::Kept,
        }
    }
}
