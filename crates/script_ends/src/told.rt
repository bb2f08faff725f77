//! The text of a terminal's reports.
ghost use Rattle.std.specs.Prelude.{◌≡◌, IfOk, string_bytes};
ghost use Rattle.script_ends.specs.Told.{status_text, message_text, report_text};

use link_transceiver::{LinkStatus, Report};
use resend_store::Msu;
use std::alloc::{AllocError, Global};

/// The text of a status report of a link.
fn status_text(alloc: Global, status: LinkStatus) -> Result<String, AllocError>
    ensures { IfOk result (λ text. string_bytes text ≡ status_text status) }
{
    match status {
        LinkStatus::InService => String::from_str(alloc, "in service"),
        LinkStatus::Down(reason) => format!(in alloc; "down {reason}"),
        LinkStatus::RemoteOut => String::from_str(alloc, "far out"),
        LinkStatus::RemoteBack => String::from_str(alloc, "far back"),
        LinkStatus::Cleared => String::from_str(alloc, "cleared"),
    }
}

/// The text of a received message.
fn message_text(alloc: Global, message: &Msu) -> Result<String, AllocError>
    ensures { IfOk result (λ text. string_bytes text ≡ message_text message.now) }
{
    let mut octets = Vec::new(alloc);
    octets.push(message.sio)?;
    octets.extend_from_slice(message.sif.as_slice())?;
    let digits = hex::encode_upper(alloc, octets)?;
    format!(in alloc; "message {digits}")
}

/// The text of a report: `in service`, `down R` with the reason, `far out`, `far back`, `cleared`, or `message HEX`
/// with the octets of the message, its service information octet first.
#[tactic(auto, unfolding(crate::specs::Told::report_text))]
pub fn report_text(alloc: Global, report: &Report) -> Result<String, AllocError>
    ensures { IfOk result (λ text. string_bytes text ≡ report_text report.now) }
{
    match report {
        Report::Message(message) => message_text(alloc, message),
        Report::Status(status) => status_text(alloc, *status),
    }
}
