//! Queries of the state of a link in a changeover.
ghost use Rattle.std.specs.Prelude.{◌≡◌, ◌<◌, IfSome};
ghost use Rattle.group_changeover.specs.Changeovers.{IsKind};
ghost use Rattle.group_changeover.specs.Saying.{is_changing, is_out, is_waiting, count_in, counts_in, hearing_of, is_over, is_late, is_order, begun_by_message, is_held_by, number_in, order_after, acknowledgement_after, answer_after, reply_after};

use crate::availability::{Answer, Availability, Behind, Changing, LATE, T2};
use crate::changeover::Kind;

/// The effect of a received changeover message.
#[derive(Clone, Copy, Debug, PartialEq, Eq)]
pub enum Hearing {
    /// An order that began a changeover.
    Began,
    /// An order that began none. In a changeover its number, if it has one, counts as that of an acknowledgement does.
    Order,
    /// An acknowledgement that counts as the answer of the far side.
    Counted,
    /// An acknowledgement that doesn't count.
    Answer,
    /// No changeover message, or one about a link that doesn't exist.
    Nothing,
}

impl Changing {
    /// Whether an acknowledgement counts: no messages are handed out, and the far side hasn't said what it accepted.
    fn counts(self) -> bool
        ensures { result ≡ counts_in self }
    {
        !self.is_out() && self.count().is_none()
    }

    /// Whether the messages are handed out.
    pub fn is_out(self) -> bool
        ensures { result ≡ is_out self }
    {
        self.retrieval.is_some()
    }

    /// Whether there is no answer yet, and fewer than Q.704's T2 ticks have passed since the changeover began.
    pub fn is_waiting(self) -> bool
        ensures { result ≡ is_waiting self }
    {
        self.answer.is_none() && self.waited < T2
    }

    /// How many of the messages that the link holds the far side accepted, if that is known.
    pub fn count(self) -> Option<usize>
        ensures { result ≡ count_in self.answer }
    {
        match self.answer {
            Some(Answer::Accepted(count)) => Some(count),
            _ => None,
        }
    }
}

impl Kind {
    /// The number in the message.
    pub fn number(self) -> Option<u8>
        ensures { result ≡ number_in self }
    {
        match self {
            Kind::Order(accepted) | Kind::Acknowledgement(accepted) => Some(accepted),
            Kind::EmergencyOrder | Kind::EmergencyAcknowledgement => None,
        }
    }

    fn is_order(self) -> bool
        ensures { result ≡ is_order self }
    {
        match self {
            Kind::Order(_) | Kind::EmergencyOrder => true,
            Kind::Acknowledgement(_) | Kind::EmergencyAcknowledgement => false,
        }
    }
}

impl Availability {
    /// Whether a changeover of the link is under way.
    pub fn is_changing(self) -> bool
        ensures { result ≡ is_changing self }
    {
        self.changing.is_some()
    }

    /// Whether the changeover is over and the link hasn't come into service again.
    fn is_over(self) -> bool
        ensures { result ≡ is_over self }
    {
        if self.is_changing() {
            return false;
        }
        match self.behind {
            Behind::Out => true,
            Behind::Back(_) | Behind::Nothing => false,
        }
    }

    /// Whether an order may be a late one: the changeover is over, and the link hasn't come into service again, or did
    /// so last no more than `LATE` ticks ago.
    pub fn is_late(self) -> bool
        ensures { result ≡ is_late self }
    {
        if self.is_changing() {
            return false;
        }
        match self.behind {
            Behind::Out => true,
            Behind::Back(since) => since <= LATE,
            Behind::Nothing => false,
        }
    }

    /// Takes a message of the other point: an order that can't be a late one begins a changeover if none is under way.
    pub fn begun_by(self, kind: Kind) -> Availability
        ensures { result ≡ begun_by_message kind self }
    {
        if kind.is_order() && !self.is_late() {
            self.changeover_begins()
        } else {
            self
        }
    }

    /// Whether a message from the other point holds the link: an order that begins a changeover, or may be a late one
    /// for a link that came into service again, or whose answer has the link's number.
    pub fn is_held_by(self, kind: Kind) -> bool
        ensures { result ≡ is_held_by kind self }
    {
        if !kind.is_order() || self.is_over() {
            return false;
        }
        !self.is_changing() || (kind.number().is_some() && !self.anew)
    }

    /// The effect of a message from the other point.
    pub fn hearing(self, kind: Kind) -> Hearing
        ensures { result ≡ hearing_of kind self }
    {
        if kind.is_order() {
            return if self.is_late() || self.is_changing() {
                Hearing::Order
            } else {
                Hearing::Began
            };
        }
        match self.changing {
            Some(changing) if changing.counts() => Hearing::Counted,
            _ => Hearing::Answer,
        }
    }

    /// The order to send for this link, which accepted this number last: an emergency order if it was started anew.
    pub fn order(self, accepted: u8) -> Kind
        requires { accepted < 128 }
        ensures value { result ≡ order_after self accepted }
        ensures whole { IsKind result }
    {
        if self.anew {
            Kind::EmergencyOrder
        } else {
            Kind::Order(accepted)
        }
    }

    /// The acknowledgement to send: an emergency one if the link was started anew, or if `is_over`.
    fn acknowledgement(self, accepted: u8) -> Kind
        requires { accepted < 128 }
        ensures value { result ≡ acknowledgement_after self accepted }
        ensures whole { IsKind result }
    {
        if self.anew || self.is_over() {
            Kind::EmergencyAcknowledgement
        } else {
            Kind::Acknowledgement(accepted)
        }
    }

    /// The answer for this number of acknowledged messages, if it is known. It is unknown if the link was started anew.
    pub fn answer(self, count: Option<usize>) -> Answer
        ensures { result ≡ answer_after self count }
    {
        match count {
            Some(count) if !self.anew => Answer::Accepted(count),
            _ => Answer::Unknown,
        }
    }

    /// The reply to a message of the other point: an acknowledgement of an order. An acknowledgement gets no reply.
    pub fn reply(self, kind: Kind, accepted: u8) -> Option<Kind>
        requires { accepted < 128 }
        ensures value { result ≡ reply_after kind self accepted }
        ensures whole { IfSome result IsKind }
    {
        match kind {
            Kind::Order(_) => Some(self.acknowledgement(accepted)),
            Kind::EmergencyOrder => Some(Kind::EmergencyAcknowledgement),
            Kind::Acknowledgement(_) | Kind::EmergencyAcknowledgement => None,
        }
    }
}
