//! The words that describe one end of a link.
ghost use Rattle.std.specs.Prelude.{◌≡◌, IfSome, IsNone, option_map};
ghost use Rattle.script_links.specs.Orders.{mode_named};
ghost use Rattle.mtp2_words.specs.Ends.{bits_named, bits_of, ahead_named, ahead_of, IsEndOf, IsNoEnd};

use crate::limits::{messages_of, octets_of};
use line_filter::{Bits, MOST_AHEAD};
use script_links::{Mode, count, mode_named};

/// One end of a link on a line.
#[derive(Clone, Copy, PartialEq, Eq, Debug)]
pub struct LineEnd<'a> {
    /// The error correction method.
    pub mode: Mode,
    /// The number of unacknowledged messages that forces cyclic retransmission (N1), 1 to 127, if chosen.
    pub messages: Option<u8>,
    /// The number of unacknowledged octets of SIO and SIF that does (N2), 300 to 8,192, if chosen.
    pub octets: Option<u16>,
    /// The path of its orders; no orders if none.
    pub orders: Option<&'a str>,
    /// The path for its reports; standard error if none.
    pub reports: Option<&'a str>,
    /// Which bit of an octet is sent first.
    pub bits: Bits,
    /// The number of octets of 1s sent before any octet is received, 0 to 8,000.
    pub ahead: usize,
    /// The path for a capture of its line; no capture if none.
    pub capture: Option<&'a str>,
    /// The path for a trace of its processes; no trace if none.
    pub trace: Option<&'a str>,
    /// Whether a capture has every signal unit and a trace every event; else repeats and dull events are omitted.
    pub every: bool,
    /// The path for its measurements at the end of the run; not written if none.
    pub measures: Option<&'a str>,
}

/// The words that describe one end of a link.
#[derive(Clone, Copy)]
pub struct LineWords<'a> {
    /// `basic` or `cyclic`.
    pub mode: &'a str,
    /// Digits, 1 to 127, only for `cyclic`; the limit of the set's text if none.
    pub n1: Option<&'a str>,
    /// Digits, 300 to 8,192, only for `cyclic`; the limit of the set's text if none.
    pub n2: Option<&'a str>,
    /// A file or a FIFO with orders.
    pub orders: Option<&'a str>,
    /// A file or a FIFO for reports.
    pub reports: Option<&'a str>,
    /// `low` or `high`; `low` if none.
    pub bits: Option<&'a str>,
    /// Digits, at most 8,000; 0 if none.
    pub ahead: Option<&'a str>,
    /// A file or a FIFO for a capture.
    pub capture: Option<&'a str>,
    /// A file or a FIFO for a trace.
    pub trace: Option<&'a str>,
    /// Whether a capture has every signal unit, and a trace every event.
    pub every: bool,
    /// A file for measurements.
    pub measures: Option<&'a str>,
}

/// The bit order that a word names.
fn bits_named(word: &str) -> Option<Bits>
    ensures { result ≡ bits_named word.now }
{
    if word == "low" {
        Some(Bits::Low)
    } else if word == "high" {
        Some(Bits::High)
    } else {
        None
    }
}

/// Which bit of an octet is sent first, from its word.
pub(crate) fn bits_of(word: Option<&str>) -> Option<Bits>
    ensures { result ≡ bits_of (option_map (λ w. w.now) word.entry) }
{
    match word {
        Some(word) => bits_named(word),
        None => Some(Bits::Low),
    }
}

/// The number of octets sent ahead, from a word.
pub(crate) fn ahead_named(word: &str) -> Option<usize>
    ensures { result ≡ ahead_named word.now }
{
    match count(word) {
        Some(ahead) if ahead as usize <= MOST_AHEAD => Some(ahead as usize),
        _ => None,
    }
}

/// The number of octets sent ahead, from its optional word.
fn ahead_of(word: Option<&str>) -> Option<usize>
    ensures { result ≡ ahead_of (option_map (λ w. w.now) word.entry) }
{
    match word {
        Some(word) => ahead_named(word),
        None => Some(0),
    }
}

/// Returns the end of a link that words describe; none if one of them is invalid.
pub fn line_end<'a>(words: &LineWords<'a>) -> Option<LineEnd<'a>>
    ensures some { IfSome result (IsEndOf words.now) }
    ensures none { IsNone result → IsNoEnd words.now }
{
    let mode = mode_named(words.mode)?;
    let messages = messages_of(mode, words.n1)?;
    let octets = octets_of(mode, words.n2)?;
    let bits = bits_of(words.bits)?;
    let ahead = ahead_of(words.ahead)?;
    Some(LineEnd {
        mode,
        messages,
        octets,
        orders: words.orders,
        reports: words.reports,
        bits,
        ahead,
        capture: words.capture,
        trace: words.trace,
        every: words.every,
        measures: words.measures,
    })
}
