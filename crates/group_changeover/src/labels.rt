//! Labels of messages.
ghost use Rattle.std.specs.Prelude.{◌≡◌, Some, IfSome};
ghost use Rattle.group_changeover.specs.Labels.{IsLabel, label_in};

use resend_store::Msu;

/// The destination and the origin of a message, and its selection of one of several links.
#[derive(Clone, Copy, Debug, PartialEq, Eq)]
pub struct Label {
    /// Destination point code, below 16,384.
    pub dpc: u16,
    /// Originating point code, below 16,384.
    pub opc: u16,
    /// Signalling link selection, below 16; in changeover messages the code of the link that failed.
    pub sls: u8,
}

/// The label at the start of octets; `None` if these are fewer than four.
pub fn label_of_octets(octets: &[u8]) -> Option<Label>
    ensures value { result ≡ label_in octets.now }
    ensures whole { IfSome result IsLabel }
{
    match octets {
        [a, b, c, d, ..] => Some(Label {
            dpc: *a as u16 + *b as u16 % 64 * 256,
            opc: *b as u16 / 64 + *c as u16 * 4 + *d as u16 % 16 * 1024,
            sls: *d / 16,
        }),
        _ => None,
    }
}

/// The label at the start of a message; `None` if its field has fewer than four octets.
pub fn label_of(msu: &Msu) -> Option<Label>
    ensures value { result ≡ label_in msu.now.sif.items }
    ensures whole { IfSome result IsLabel }
{
    label_of_octets(msu.sif.as_slice())
}

impl Label {
    /// The four octets of the label.
    pub(crate) fn octets(self) -> [u8; 4]
        requires { IsLabel self }
        ensures { label_in result ≡ Some self }
    {
        [
            (self.dpc % 256) as u8,
            (self.dpc / 256 + self.opc % 4 * 64) as u8,
            (self.opc / 4 % 256) as u8,
            (self.opc / 1024) as u8 + self.sls * 16,
        ]
    }
}
