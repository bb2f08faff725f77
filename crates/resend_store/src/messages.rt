//! Messages, and the results of a sender and a receiver.
ghost use Rattle.std.specs.Prelude.{◌≡◌, ◌≤◌, ⊤};
ghost use Rattle.resend_store.specs.Messages.{octets_of, usual_limits, chosen_limits};

use arrayvec::ArrayVec;
use std::alloc::AllocError;

/// The most messages that may be unacknowledged.
pub const MAX_UNACKNOWLEDGED: usize = 127;

/// With this number of waiting messages or more, `Sender::put` takes no further one.
pub const MAX_WAITING: usize = 1024;

/// The most messages that a sender keeps, unacknowledged and waiting together.
pub const MAX_KEPT: usize = 1151;

/// The default of Q.703's N1: so many unacknowledged messages force retransmission.
pub const FORCED_MESSAGES: usize = 127;

/// The default of Q.703's N2: so many unacknowledged octets of SIO and SIF force retransmission.
pub const FORCED_OCTETS: usize = 8192;

/// The least value that may be chosen for N2.
pub const LEAST_FORCED_OCTETS: usize = 300;

/// The numbers of unacknowledged messages (N1) and of their octets of SIO and SIF (N2) that force cyclic retransmission
/// (Q.703, 6.4). They depend on the loop delay.
#[derive(Clone, Copy, Debug, PartialEq, Eq)]
pub struct RoundLimits {
    /// N1.
    pub messages: u8,
    /// N2.
    pub octets: u16,
}

/// The default limits: [`FORCED_MESSAGES`] and [`FORCED_OCTETS`].
pub const USUAL_LIMITS: RoundLimits = RoundLimits {
    messages: FORCED_MESSAGES as u8,
    octets: FORCED_OCTETS as u16,
};

/// Which error correction a link uses.
#[derive(Clone, Copy, Debug, PartialEq, Eq)]
pub enum Mode {
    /// Retransmission on request, by inverted indicator bits (Q.703, basic error correction).
    Basic,
    /// Preventive cyclic retransmission (Q.703), for links with a long delay.
    Cyclic,
}

/// What a message signal unit carries.
#[derive(Debug, Drop, PartialEq, Eq)]
pub struct Msu {
    /// Service information octet.
    pub sio: u8,
    /// Signalling information field. A sender takes only fields of 2 octets or more.
    pub sif: ArrayVec<u8, 272>,
}

impl Clone for Msu {
    ghost is_clone = { λ m n. n ≡ m };

    ghost is_infallible = { λ _. ⊤ };

    fn clone(&self) -> Result<Msu, AllocError> {
        Ok(self.copied())
    }
}

impl Msu {
    /// A copy of the message, made without allocation.
    pub fn copied(&self) -> Msu
        ensures { result ≡ self.now }
    {
        let mut sif = ArrayVec::new();
        let _fits = sif.try_extend_from_slice(self.sif.as_slice()).is_ok();
        Msu { sio: self.sio, sif }
    }

    /// The number of octets of SIO and SIF.
    pub(crate) fn octets(&self) -> u16
        ensures value { result ≡ octets_of self.now }
        ensures within { result ≤ 273 }
    {
        self.sif.len() as u16 + 1
    }
}

impl RoundLimits {
    /// Limits of 1 to 127 messages and 300 to 8,192 octets; `None` for other numbers.
    pub fn chosen(messages: u64, octets: u64) -> Option<RoundLimits>
        ensures { result ≡ chosen_limits messages octets }
    {
        let few = FORCED_MESSAGES as u64;
        let least = LEAST_FORCED_OCTETS as u64;
        let most = FORCED_OCTETS as u64;
        if (1 <= messages && messages <= few) && (least <= octets && octets <= most) {
            Some(RoundLimits {
                messages: messages as u8,
                octets: octets as u16,
            })
        } else {
            None
        }
    }
}

/// The next unit to send, without the backward number and bit.
#[derive(Debug, Drop, PartialEq, Eq)]
pub struct Outgoing {
    /// Forward sequence number, 0 to 127.
    pub fsn: u8,
    /// Forward indicator bit, 0 or 1.
    pub fib: u8,
    /// The message, new or repeated; `None` in a fill-in unit.
    pub msu: Option<Msu>,
}

/// What a receiver does with a unit.
#[derive(Clone, Copy, Debug, PartialEq, Eq)]
pub enum Verdict {
    /// The message is the next in turn: it is to be delivered.
    Accept,
    /// The unit brings nothing new.
    Discard,
    /// A message was lost: the far side is asked to repeat.
    Nack,
}
