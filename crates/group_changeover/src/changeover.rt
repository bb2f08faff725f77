//! Changeover messages.
ghost use Rattle.std.specs.Prelude.{◌≡◌, ◌↔◌, ◌≤◌, Some, IfSome, length};
ghost use Rattle.group_changeover.specs.Labels.{IsLabel};
ghost use Rattle.group_changeover.specs.Changeovers.{IsKind, behind_label, without_spare, Reads, Says};

use crate::labels::{Label, label_of_octets};
use arrayvec::ArrayVec;

/// The content of a changeover message about a link that failed (Q.704, changeover).
#[derive(Clone, Copy, Debug, PartialEq, Eq)]
pub enum Kind {
    /// Changeover order, COO: the number, below 128, of the message accepted last on that link.
    Order(u8),
    /// Changeover acknowledgement, COA: the number, below 128, of the message accepted last on that link.
    Acknowledgement(u8),
    /// Emergency changeover order, ECO: that number isn't known.
    EmergencyOrder,
    /// Emergency changeover acknowledgement, ECA.
    EmergencyAcknowledgement,
}

/// A changeover message.
#[derive(Clone, Copy, Debug, PartialEq, Eq)]
pub struct Changeover {
    /// The label, whose signalling link selection is the code of the link that failed.
    pub label: Label,
    /// The content.
    pub kind: Kind,
}

/// The content in the octets after the label.
fn kind_of(octets: &[u8]) -> Option<Kind>
    ensures { (k : Kind) → (result ≡ Some k) ↔ (IsKind k × (without_spare octets.now ≡ behind_label k)) }
{
    match octets {
        [0x11, accepted] => Some(Kind::Order(*accepted % 128)),
        [0x21, accepted] => Some(Kind::Acknowledgement(*accepted % 128)),
        [0x12] => Some(Kind::EmergencyOrder),
        [0x22] => Some(Kind::EmergencyAcknowledgement),
        _ => None,
    }
}

/// The changeover message that octets are; `None` if they aren't exactly one. The spare bit of the number is ignored.
pub fn read_changeover(octets: &[u8]) -> Option<Changeover>
    ensures exact { (m : Changeover) → (result ≡ Some m) ↔ Reads octets.now m }
    ensures whole { IfSome result (λ m. IsLabel m.label) }
{
    let label = label_of_octets(octets)?;
    let kind = kind_of(&octets[4..])?;
    Some(Changeover { label, kind })
}

/// Up to six octets as a vector.
fn vector_of(octets: &[u8]) -> ArrayVec<u8, 6>
    requires { length octets.now ≤ 6 }
    ensures { result.items ≡ octets.now }
{
    let mut vector = ArrayVec::new();
    let _fits = vector.try_extend_from_slice(octets).is_ok();
    vector
}

impl Changeover {
    /// The octets of the message: label, heading octet and, except in emergency messages, the number.
    pub fn octets(self) -> ArrayVec<u8, 6>
        requires label { IsLabel self.label }
        requires kind { IsKind self.kind }
        ensures { Says result.items self }
    {
        let [a, b, c, d] = self.label.octets();
        match self.kind {
            Kind::Order(accepted) => vector_of(&[a, b, c, d, 0x11, accepted]),
            Kind::Acknowledgement(accepted) => vector_of(&[a, b, c, d, 0x21, accepted]),
            Kind::EmergencyOrder => vector_of(&[a, b, c, d, 0x12]),
            Kind::EmergencyAcknowledgement => vector_of(&[a, b, c, d, 0x22]),
        }
    }
}
