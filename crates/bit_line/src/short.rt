//! A unit of five octets and the flag after it, in one step.
ghost use Rattle.std.specs.Prelude.{◌≡◌, ◌≢◌, ◌≤◌, ◌<◌, ◌+◌, ◌-◌, ◌*◌, ◌/◌, ◌%◌, ◌^◌, ℕ, Bool, true, List, [], ◌∷◌, ◌++◌, None, IfOk, IfSome, reverse, length, take};
ghost use Rattle.su_octets.specs.Bits.{low_bits, bits_of};
ghost use Rattle.bit_line.specs.Events.{IsCorrect};
ghost use Rattle.bit_line.specs.Laws.{unit_events};
ghost use Rattle.bit_line.specs.declared.events.LineEvent.{LineEvent};

use crate::content::is_unit;
use crate::events::{LineEvent, NoMemory};
use crate::front::word_of;
use crate::long::left_of;
use crate::receiver::Receiver;
use crate::window::flag_in;
use arrayvec::ArrayVec;

/// The bits of the first seven octets, the first one lowest.
fn seven_of(octets: &[u8]) -> u64
    requires { 7 ≤ length octets.now }
    ensures bits { low_bits 56 result ≡ bits_of (take 7 octets.now) }
    ensures fits { result < 2 ^ 56 }
{
    let high = u64::from(octets[5]) + u64::from(octets[6]) * 256;
    word_of(octets) + high * (1 << 40)
}

/// Forty bits as octets, the first one lowest.
fn octets_of(bits: u64) -> [u8; 5]
    ensures { bits_of result ≡ low_bits 40 bits }
{
    [
        (bits % 256) as u8,
        (bits / 256 % 256) as u8,
        (bits / 256 / 256 % 256) as u8,
        (bits / 256 / 256 / 256 % 256) as u8,
        (bits / 256 / 256 / 256 / 256 % 256) as u8,
    ]
}

/// The octets of a five-octet unit, if the line bits are its stuffing.
fn short_unit(bits: u64, len: u8) -> Option<[u8; 5]>
    requires few { len ≤ 48 }
    requires fits { bits < 2 ^ len }
    ensures { IfSome result (λ octets. IsCorrect (reverse (low_bits len bits)) octets) }
{
    let Some(left) = left_of(bits, len) else {
        return None;
    };
    if left.len != 40 {
        return None;
    }
    let octets = octets_of(left.bits);
    if is_unit(&octets) { Some(octets) } else { None }
}

/// The report of a unit with these octets.
fn report(octets: &[u8]) -> LineEvent
    requires { length octets.now ≤ 278 }
    ensures { result ∷ [] ≡ unit_events (octets.now ∷ []) }
{
    let mut unit = ArrayVec::new();
    unit.try_extend_from_slice(octets).unwrap();
    LineEvent::Unit(unit)
}

impl Receiver {
    ghost use Rattle.bit_line.specs.Deframing.{StandsAt, LetsIn};
    ghost use Rattle.bit_line.specs.Flags.{inside};

    /// Whether the mode is normal and the content after the last flag is empty so far.
    fn is_fresh(&self) -> bool
        ensures normal { result ≡ true → self.now.counter.count ≡ None }
        ensures seen { result ≡ true → self.now.gate.seen ≡ true }
        ensures inside { result ≡ true → (h : List Bool) → LetsIn h self.now.gate → inside h ≡ [] }
    {
        if !self.counter.is_normal() || !self.gate.seen {
            return false;
        }
        if self.gate.wait == 0 {
            self.gate.content.data_bits.is_empty()
        } else {
            true
        }
    }

    /// The octets of a five-octet unit that is the content before this place of `window`, if it is one. The lowest
    /// seven bits of `window` are the newest bits so far.
    fn short_before(&self, window: u64, place: u8) -> Option<[u8; 5]>
        requires { place ≤ 55 }
        ensures wait { IfSome result (λ octets. self.now.gate.wait ≤ place) }
        ensures unit { IfSome result (λ octets.
            IsCorrect (reverse (low_bits (place - self.now.gate.wait) (window % 2 ^ place / 2 ^ self.now.gate.wait))) octets) }
    {
        let wait = self.gate.wait;
        if place < wait || place - wait > 48 {
            return None;
        }
        short_unit(window % (1 << place) >> wait, place - wait)
    }

    /// Takes a five-octet unit, the flag after it and the rest of that flag's last octet at once, if they are next. The
    /// mode must be normal and the content empty so far. Appends the report of the unit. Returns how many octets it
    /// took, or 0.
    pub(crate) fn push_short(
        &mut self,
        octets: &[u8],
        events: &mut Vec<LineEvent>,
    ) -> Result<usize, NoMemory>
        ensures most { IfOk result (λ taken. taken ≤ length octets.now) }
        ensures stands { IfOk result (λ taken. (h : List Bool) (before : List LineEvent) → StandsAt h (before ++ events.old.items) self.old
            → StandsAt (reverse (bits_of (take taken octets.now)) ++ h) (before ++ events.new.items) self.new) }
    {
        if octets.len() < 7 || !self.is_fresh() {
            return Ok(0);
        }
        let word = seven_of(octets);
        let window = u64::from(self.recent) + word * 128;
        let Some(place) = flag_in(window) else {
            return Ok(0);
        };
        let Some(unit) = self.short_before(window, place) else {
            return Ok(0);
        };
        events.push(report(&unit))?;
        self.recent = 63;
        self.gate.wait = 7;
        self.take_plain(((word >> place) / 2 % 128) as u8, 7 - place % 8);
        Ok(usize::from(place / 8) + 1)
    }

    /// Takes at least one octet from the front and appends the events. Returns how many octets it took.
    pub(crate) fn push_next(
        &mut self,
        octets: &[u8],
        events: &mut Vec<LineEvent>,
    ) -> Result<usize, NoMemory>
        requires { 0 < length octets.now }
        ensures some { IfOk result (λ taken. 0 < taken) }
        ensures most { IfOk result (λ taken. taken ≤ length octets.now) }
        ensures stands { IfOk result (λ taken. (h : List Bool) (before : List LineEvent) → StandsAt h (before ++ events.old.items) self.old
            → StandsAt (reverse (bits_of (take taken octets.now)) ++ h) (before ++ events.new.items) self.new) }
    {
        let short = self.push_short(octets, events)?;
        if short > 0 {
            return Ok(short);
        }
        let taken = self.take_run(octets);
        if taken == octets.len() {
            return Ok(taken);
        }
        self.push_octet(octets[taken], events)?;
        Ok(taken + 1)
    }
}
