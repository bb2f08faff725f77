//! The findings at the end of a run.

ghost use Rattle.std.specs.Prelude.{◌≡◌, ◌⊎◌, ◌&&◌, true, false};
ghost use Rattle.pool_soak.specs.FindingLines.{seats_finding, audit_finding};

use plain_text::DONE;
use std::fmt;

/// The exit status if a receipt doesn't match the journals, or the seats don't.
pub const DIFFERS: u8 = 1;

/// A line printed at the end.
#[derive(Clone, Copy, PartialEq, Eq, Debug)]
pub enum Finding {
    /// The counts of all seats add up to the events in the journals.
    SeatsAgree,
    /// The counts of the seats differ from the journals.
    SeatsDiffer,
    /// The event of each receipt is at its place.
    AuditYes,
    /// The event of some receipt isn't at its place.
    AuditNo,
}

impl fmt::Display for Finding {
    ghost use Rattle.std.specs.Prelude.{Some};
    ghost use Rattle.pool_soak.specs.FindingLines.{finding_text};

    ghost output = { λ f. Some (finding_text f) };

    fn fmt<W: fmt::Write>(&self, f: &mut fmt::Formatter<W>) -> fmt::Result {
        f.write_str(match self {
            Self::SeatsAgree => "seats agree",
            Self::SeatsDiffer => "seats differ",
            Self::AuditYes => "audit yes",
            Self::AuditNo => "audit no",
        })
    }
}

/// The finding for the seats.
pub fn seats_of(agree: bool) -> Finding
    ensures { result ≡ seats_finding agree }
{
    if agree {
        Finding::SeatsAgree
    } else {
        Finding::SeatsDiffer
    }
}

/// The finding for the receipts.
pub fn audit_of(stand: bool) -> Finding
    ensures { result ≡ audit_finding stand }
{
    if stand {
        Finding::AuditYes
    } else {
        Finding::AuditNo
    }
}

/// The exit status.
pub fn status_of(agree: bool, stand: bool) -> u8
    ensures held { result ≡ 0 → agree && stand ≡ true }
    ensures differs { result ≡ 1 → agree && stand ≡ false }
    ensures status { (result ≡ 0) ⊎ (result ≡ 1) }
{
    if agree && stand { DONE } else { DIFFERS }
}
