//! Captures of a line.
ghost use Rattle.std.specs.Prelude.{◌≡◌, ◌⊎◌};

use line_streams::{OutTap, Plan, RecordStream};
use mtp2_words::{LineEnd, Request};
use plain_text::{FAILED, Teller, write_line};
use std::rt::Files;
use std::time::Clock;

/// The plan to tap a line for a capture of one end of a link. Its link has the number 0.
fn plan_of(end: &LineEnd<'_>) -> Plan {
    Plan {
        link: 0,
        bits: end.bits,
        ahead: end.ahead,
        every: end.every,
    }
}

/// Returns the path for a requested capture, and the plan to tap the line for it.
pub fn capture_of<'a>(request: &Request<'a>) -> Option<(&'a str, Plan)> {
    match request {
        Request::Line { set: _, end } => match end.capture {
            Some(path) => Some((path, plan_of(end))),
            None => None,
        },
        _ => None,
    }
}

/// Ends a capture: waits until pending records are written, and reports how many were lost, with the millisecond.
/// Returns the exit status: `status`, or 4 if a record couldn't be written or the loss couldn't be reported.
pub fn end_capture<H: Files + Eprint + Clock + AllocGlobal, W>(
    host: &H,
    teller: &Teller<'_, H>,
    path: &str,
    status: u8,
    tap: &mut OutTap<W, RecordStream>,
) -> u8
    ensures { (result ≡ status) ⊎ (result ≡ 4) }
{
    if let Some(error) = &tap.trouble {
        return teller.fail(path, error);
    }
    if let Err(error) = tap.sink.end(host) {
        return teller.fail(path, &error);
    }
    let lost = tap.sink.lost();
    let now = tap.capture.at() / 1000;
    if lost > 0 {
        let line = format_args!("{now} lost {lost} capture");
        if write_line(host.alloc(), &mut teller.errors(), &line).is_err() {
            return FAILED;
        }
    }
    status
}
