//! The points that a set connects, and the messages that it sends itself.
ghost use Rattle.std.specs.Prelude.{◌≡◌, ◌<◌, ◌≤◌, ◌^◌, ◌++◌, Some, length};
ghost use Rattle.group_changeover.specs.Changeovers.{behind_label};
ghost use Rattle.group_changeover.specs.Labels.{label_in};
ghost use Rattle.line_tending.specs.Ends.{AreEnds, IsAbout, MANAGEMENT, TESTING, back_declared, restarting, testing, answering};

use arrayvec::ArrayVec;
use group_changeover::Kind;
use resend_store::Msu;

/// The service indicator of network management (Q.704, 14.2.1).
const MANAGEMENT: u8 = 0;

/// The service indicator of link tests.
const TESTING: u8 = 1;

/// The points that the links of a set connect, and the network indicator of the messages that the set sends itself.
#[derive(Clone, Copy, Debug, PartialEq, Eq)]
pub struct Ends {
    /// The point code of this point, below 16,384.
    pub own: u16,
    /// The point code of the other point, below 16,384.
    pub peer: u16,
    /// The network indicator, 0 to 3: the upper two bits of the service information octet.
    pub network: u8,
}

/// The pattern that identifies a link test: the octets after its length.
pub type Pattern = [u8; 4];

/// The octets of a label, lowest bits first: 14 bits of the destination, 14 of the origin, 4 of the selection.
fn label_octets(dpc: u16, opc: u16, sls: u8) -> [u8; 4]
    requires dpc { dpc < 2 ^ 14 }
    requires opc { opc < 2 ^ 14 }
    requires sls { sls < 2 ^ 4 }
    ensures { label_in result ≡ Some (record { dpc = dpc; opc = opc; sls = sls }) }
{
    [
        (dpc % 256) as u8,
        (dpc / 256 + opc % 4 * 64) as u8,
        (opc / 4 % 256) as u8,
        (opc / 1024) as u8 + sls * 16,
    ]
}

/// A field of a label and these octets.
fn field(label: [u8; 4], content: &[u8]) -> ArrayVec<u8, 272>
    requires { length content.now ≤ 268 }
    ensures { result.items ≡ label ++ content.now }
{
    let mut field = ArrayVec::new();
    let _fits = field.try_extend_from_slice(&label).is_ok();
    let _whole = field.try_extend_from_slice(content).is_ok();
    field
}

impl Ends {
    /// The label of a message from this point to the other point about a link.
    fn label(self, link: usize) -> [u8; 4]
        ensures { AreEnds self → link < 16 → label_in result ≡ Some (record { dpc = self.peer; opc = self.own; sls = link }) }
    {
        label_octets(self.peer % 16_384, self.own % 16_384, (link % 16) as u8)
    }

    /// A message from this point to the other point about a link.
    fn message(self, indicator: u8, link: usize, content: &[u8]) -> Msu
        requires indicator { indicator < 16 }
        requires few { length content.now ≤ 268 }
        ensures { AreEnds self → link < 16 → IsAbout self indicator link content.now result }
    {
        Msu {
            sio: self.network % 4 * 64 + indicator,
            sif: field(self.label(link), content),
        }
    }

    /// A changeover message (Q.704, 15.4).
    pub(crate) fn changeover(self, link: usize, kind: Kind) -> Msu
        ensures { AreEnds self → link < 16 → IsAbout self MANAGEMENT link (behind_label kind) result }
    {
        match kind {
            Kind::Order(accepted) => self.message(MANAGEMENT, link, &[0x11, accepted]),
            Kind::Acknowledgement(accepted) => self.message(MANAGEMENT, link, &[0x21, accepted]),
            Kind::EmergencyOrder => self.message(MANAGEMENT, link, &[0x12]),
            Kind::EmergencyAcknowledgement => self.message(MANAGEMENT, link, &[0x22]),
        }
    }

    /// The acknowledgement of a changeback declaration with this code (Q.704, 15.5).
    pub(crate) fn declared_back(self, link: usize, code: u8) -> Msu
        ensures { AreEnds self → link < 16 → IsAbout self MANAGEMENT link (back_declared code) result }
    {
        self.message(MANAGEMENT, link, &[0x61, code])
    }

    /// Traffic restart allowed (Q.704, 15.16).
    pub(crate) fn restart_allowed(self) -> Msu
        ensures { AreEnds self → IsAbout self MANAGEMENT 0 restarting result }
    {
        self.message(MANAGEMENT, 0, &[0x17])
    }

    /// A test of a link (Q.707, 2.2).
    pub(crate) fn test(self, link: usize, pattern: Pattern) -> Msu
        ensures { AreEnds self → link < 16 → IsAbout self TESTING link (testing pattern) result }
    {
        let [a, b, c, d] = pattern;
        self.message(TESTING, link, &[0x11, 0x40, a, b, c, d])
    }

    /// The answer to a test, with its link, length and pattern. Octets that exceed the length of a test are omitted.
    pub(crate) fn test_answer(self, link: usize, test: &[u8]) -> Msu
        ensures { AreEnds self → link < 16 → length test.now ≤ 16 → IsAbout self TESTING link (answering test.now) result }
    {
        let mut content: ArrayVec<u8, 17> = ArrayVec::new();
        let _heading = content.try_push(0x21).is_ok();
        let _whole = content.try_extend_from_slice(test).is_ok();
        self.message(TESTING, link, content.as_slice())
    }
}
