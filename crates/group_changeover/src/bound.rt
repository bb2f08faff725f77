//! Messages that must be sent on the link to which they are given.
ghost use Rattle.std.specs.Prelude.{◌≡◌, ◌%◌, Some, All};
ghost use Rattle.resend_store.specs.Messages.{IsMessage};
ghost use Rattle.group_changeover.specs.Bound.{is_short, is_long, is_testing, is_management, is_test, is_content, goes_between, is_bound_by, is_bound, unbound};

use crate::labels::{Label, label_of_octets};
use resend_store::Msu;
use std::collections::VecDeque;

/// The two points that the links of a set connect.
#[derive(Clone, Copy, Debug, PartialEq, Eq)]
pub struct Points {
    /// The code of this point, below 16,384.
    pub own: u16,
    /// The code of the other point.
    pub peer: u16,
}

fn is_short(heading: u8) -> bool
    ensures { result ≡ is_short heading }
{
    heading == 0x12 || (heading == 0x22 || heading == 0x17)
}

fn is_long(heading: u8) -> bool
    ensures { result ≡ is_long heading }
{
    heading == 0x11 || (heading == 0x21 || (heading == 0x51 || heading == 0x61))
}

fn is_testing(heading: u8) -> bool
    ensures { result ≡ is_testing heading }
{
    heading == 0x11 || heading == 0x21
}

/// Whether octets without the label are a message of changeover, of changeback or of a traffic restart.
fn is_management(octets: &[u8]) -> bool
    ensures { result ≡ is_management octets.now }
{
    match octets {
        [heading] => is_short(*heading),
        [heading, _] => is_long(*heading),
        _ => false,
    }
}

/// Whether octets without the label are a test of a link or its acknowledgement.
fn is_test(octets: &[u8]) -> bool
    ensures { result ≡ is_test octets.now }
{
    match octets {
        [heading, length, pattern @ ..] => {
            is_testing(*heading)
                && (!pattern.is_empty() && usize::from(*length / 16) == pattern.len())
        }
        _ => false,
    }
}

/// Whether octets are one of these, by the service indicator.
fn is_content(indicator: u8, octets: &[u8]) -> bool
    ensures { result ≡ is_content indicator octets.now }
{
    match indicator {
        0 => is_management(octets),
        1 => is_test(octets),
        _ => false,
    }
}

impl Points {
    /// Whether a label leads from this point to the other.
    fn goes_between(self, label: Label) -> bool
        ensures { result ≡ goes_between self (Some label) }
    {
        label.dpc == self.peer && label.opc == self.own
    }

    /// Whether a message, as service information octet and field, is bound to a link: it goes from this point to the
    /// other, and is a changeover message, a changeback declaration or its acknowledgement, traffic restart allowed
    /// (Q.704, 15.4 to 15.6), or a test of the link or its acknowledgement (Q.707).
    #[tactic(auto, unfolding(crate::specs::Bound::is_bound_by))]
    pub fn binds(self, sio: u8, sif: &[u8]) -> bool
        ensures { result ≡ is_bound_by self sio sif.now }
    {
        match label_of_octets(sif) {
            Some(label) => self.goes_between(label) && is_content(sio % 16, &sif[4..]),
            None => false,
        }
    }

    /// Whether a message is bound to a link.
    pub fn is_bound(self, msu: &Msu) -> bool
        ensures { result ≡ is_bound self msu.now }
    {
        self.binds(msu.sio, msu.sif.as_slice())
    }
}

/// Removes the messages that are bound to a link.
#[tactic(auto, unfolding(crate::specs::Bound::unbound))]
pub fn leave_out(points: Points, messages: &mut VecDeque<Msu>)
    requires { All IsMessage messages.old.items }
    ensures items { messages.new.items ≡ unbound points messages.old.items }
    ensures whole { All IsMessage messages.new.items }
{
    messages.retain(|msu| !points.is_bound(msu));
}
