//! What a received message is to a set.
ghost use Rattle.std.specs.Prelude.{◌≡◌};
ghost use Rattle.line_tending.specs.Came.{comes_between, is_of, by_heading, by_pair, management_in, test_by, test_in, content_in, comes_back, came_within, came};

use crate::ends::Ends;
use group_changeover::{Kind, Label, Points, label_of};
use resend_store::Msu;

/// What a received message is.
#[derive(Clone, Copy, Debug, PartialEq, Eq)]
pub enum Came {
    /// A message for level 3.
    Message,
    /// A changeover message about a link.
    Changeover(usize, Kind),
    /// A changeback declaration of a link, with its code.
    Declaration(usize, u8),
    /// A test of a link, with the code of the link that it names.
    Test(usize),
    /// The answer to a test.
    Answer(usize),
    /// A message that this end sent by the link: it came back.
    Own,
}

/// The message with only a heading.
fn by_heading(link: usize, heading: u8) -> Came
    ensures { result ≡ by_heading link heading }
{
    if heading == 0x12 {
        return Came::Changeover(link, Kind::EmergencyOrder);
    }
    if heading == 0x22 {
        return Came::Changeover(link, Kind::EmergencyAcknowledgement);
    }
    Came::Message
}

/// The message with a heading and an octet. The spare bit of the accepted sequence number is ignored.
fn by_pair(link: usize, heading: u8, octet: u8) -> Came
    ensures { result ≡ by_pair link heading octet }
{
    if heading == 0x11 {
        return Came::Changeover(link, Kind::Order(octet % 128));
    }
    if heading == 0x21 {
        return Came::Changeover(link, Kind::Acknowledgement(octet % 128));
    }
    if heading == 0x51 {
        return Came::Declaration(link, octet);
    }
    Came::Message
}

/// The message of network management with these octets after its label.
fn management_in(link: usize, octets: &[u8]) -> Came
    ensures { result ≡ management_in link octets.now }
{
    match octets {
        [heading] => by_heading(link, *heading),
        [heading, octet] => by_pair(link, *heading, *octet),
        _ => Came::Message,
    }
}

/// The test message with this heading, if its pattern has the stated length.
fn test_by(link: usize, heading: u8, whole: bool) -> Came
    ensures { result ≡ test_by link heading whole }
{
    if heading == 0x11 && whole {
        return Came::Test(link);
    }
    if heading == 0x21 && whole {
        return Came::Answer(link);
    }
    Came::Message
}

/// The test message with these octets after its label.
fn test_in(link: usize, octets: &[u8]) -> Came
    ensures { result ≡ test_in link octets.now }
{
    match octets {
        [heading, length, pattern @ ..] => {
            let whole = !pattern.is_empty() && usize::from(*length / 16) == pattern.len();
            test_by(link, *heading, whole)
        }
        _ => Came::Message,
    }
}

/// The message with this service indicator and these octets after its label.
fn content_in(indicator: u8, link: usize, octets: &[u8]) -> Came
    ensures { result ≡ content_in indicator link octets.now }
{
    match indicator {
        0 => management_in(link, octets),
        1 => test_in(link, octets),
        _ => Came::Message,
    }
}

impl Ends {
    /// Whether a label leads from the other point to this one.
    fn comes_between(self, label: Label) -> bool
        ensures { result ≡ comes_between self label }
    {
        label.dpc == self.own && label.opc == self.peer
    }

    /// Whether a message is of the set's own network.
    fn is_of(self, msu: &Msu) -> bool
        ensures { result ≡ is_of self msu.now }
    {
        msu.sio / 64 == self.network
    }

    /// Whether a message is bound to a link, from this point to the other.
    fn comes_back(self, msu: &Msu) -> bool
        ensures { result ≡ comes_back self msu.now }
    {
        let points = Points {
            own: self.own,
            peer: self.peer,
        };
        points.is_bound(msu)
    }

    /// What a received message of the set's own network is, given its label and the octets after it.
    fn came_within(self, msu: &Msu, label: Label, content: &[u8]) -> Came
        ensures { result ≡ came_within self msu.now label content.now }
    {
        if self.comes_between(label) {
            return content_in(msu.sio % 16, usize::from(label.sls), content);
        }
        if self.comes_back(msu) {
            return Came::Own;
        }
        Came::Message
    }

    /// What a received message is.
    #[tactic(auto, unfolding(crate::specs::Came::came))]
    pub(crate) fn came(self, msu: &Msu) -> Came
        ensures { result ≡ came self msu.now }
    {
        if !self.is_of(msu) {
            return Came::Message;
        }
        match label_of(msu) {
            Some(label) => self.came_within(msu, label, &msu.sif.as_slice()[4..]),
            None => Came::Message,
        }
    }
}
