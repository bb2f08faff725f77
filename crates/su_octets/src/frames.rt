//! Encoding and decoding of signal units.
ghost use Rattle.std.specs.Prelude.{◌≡◌, ◌↔◌, ◌+◌, ◌*◌, ◌≤◌, ◌<◌, ◌++◌, IsTrue, IfSome, IfNone, length, Ok, Err};
ghost use Rattle.arrayvec.specs.ArrayVec.{array_vec_len};
ghost use Rattle.su_octets.specs.Frame.{Frame, Refuses, SpareBitsAreZero, InSize, IsChecked, TellsLength, head_of, body_of, length_indicator};
ghost use Rattle.su_octets.specs.Whole.{IsWhole, IsWholeHead};
ghost use Rattle.su_octets.specs.declared.units.Unit.{Unit};
ghost use Rattle.su_octets.specs.declared.units.UnitFault.{UnitFault};

use crate::check::check_bits;
use crate::units::{Head, Unit, UnitFault};
use arrayvec::ArrayVec;

/// The least number of octets of a unit: two of the head, the length indicator, two check octets.
const SHORTEST: usize = 5;

/// The greatest number of octets of a unit.
const LONGEST: usize = 278;

/// The length indicator for 63 octets or more.
const LONG: u8 = 63;

/// The length indicator for `n` octets.
fn indicator(n: usize) -> u8
    ensures { result ≡ length_indicator n }
{
    if n < 63 { n as u8 } else { LONG }
}

/// Appends the octets between the length indicator and the check octets.
fn push_body(unit: &Unit, octets: &mut ArrayVec<u8, 278>)
    requires { array_vec_len octets.old + length (body_of unit.now) ≤ 278 }
    ensures { octets.new.items ≡ octets.old.items ++ body_of unit.now }
{
    match unit {
        Unit::Fisu(_) => {}
        Unit::Lssu(_, status, None) => octets.push(*status),
        Unit::Lssu(_, status, Some(second)) => {
            octets.push(*status);
            octets.push(*second);
        }
        Unit::Msu(_, sio, sif) => {
            octets.push(*sio);
            octets.try_extend_from_slice(sif.as_slice()).unwrap();
        }
    }
}

/// Replaces `octets` by the octets of the unit, without flags. The spare bits above the length indicator
/// are 0 (Q.703, 2.3.3).
pub fn encode(unit: &Unit, octets: &mut ArrayVec<u8, 278>)
    requires { IsWhole unit.now }
    ensures frame { Frame octets.new.items unit.now }
    ensures spare { SpareBitsAreZero octets.new.items }
{
    let head = unit.head();
    octets.clear();
    octets.push(head.bsn + 128 * head.bib);
    octets.push(head.fsn + 128 * head.fib);
    octets.push(indicator(unit.body_len()));
    push_body(unit, octets);
    let [low, high] = check_bits(octets.as_slice());
    octets.push(low);
    octets.push(high);
}

/// The head that the first two octets encode.
fn head_at(first: u8, second: u8) -> Head
    ensures whole { IsWholeHead result }
    ensures first { first ≡ result.bsn + 128 * result.bib }
    ensures second { second ≡ result.fsn + 128 * result.fib }
{
    Head {
        bsn: first % 128,
        bib: first / 128,
        fsn: second % 128,
        fib: second / 128,
    }
}

/// The unit with this head and these octets after the length indicator.
fn unit_of(head: Head, body: &[u8]) -> Unit
    requires whole { IsWholeHead head }
    requires fits { length body.now ≤ 273 }
    ensures whole { IsWhole result }
    ensures head { head_of result ≡ head }
    ensures body { body_of result ≡ body.now }
{
    match body {
        [] => Unit::Fisu(head),
        [status] => Unit::Lssu(head, *status, None),
        [status, second] => Unit::Lssu(head, *status, Some(*second)),
        [sio, sif @ ..] => {
            let mut field = ArrayVec::new();
            field.try_extend_from_slice(sif).unwrap();
            Unit::Msu(head, *sio, field)
        }
    }
}

/// Why the octets, without flags, are no signal unit: the first fault that applies.
fn fault_of(octets: &[u8]) -> Option<UnitFault>
    ensures fault { IfSome result (λ fault. Refuses octets.now fault) }
    ensures none { IfNone result (InSize octets.now × IsChecked octets.now × TellsLength octets.now) }
{
    if octets.len() < SHORTEST {
        return Some(UnitFault::TooShort);
    }
    if octets.len() > LONGEST {
        return Some(UnitFault::TooLong);
    }
    let (content, check) = octets.split_at(octets.len() - 2);
    if check_bits(content).as_slice() != check {
        return Some(UnitFault::BadCheck);
    }
    if content[2] % 64 != indicator(content.len() - 3) {
        return Some(UnitFault::BadLength);
    }
    None
}

/// Whether the octets, without flags, are those of a signal unit: whether `decode` returns one.
pub fn is_unit(octets: &[u8]) -> bool
    ensures { IsTrue result ↔ ((unit : Unit) × Frame octets.now unit) }
{
    fault_of(octets).is_none()
}

/// Decodes the octets of a signal unit, without flags.
///
/// # Errors
///
/// The first of these that applies.
///
/// - `TooShort` if there are fewer than 5 octets.
/// - `TooLong` if there are more than 278.
/// - `BadCheck` if the last two octets aren't the check octets of the others (Q.703, 4.2).
/// - `BadLength` if the length indicator is wrong (Q.703, 2.3.3).
pub fn decode(octets: &[u8]) -> Result<Unit, UnitFault>
    ensures found { (unit : Unit) → (result ≡ Ok unit) ↔ Frame octets.now unit }
    ensures refused { (fault : UnitFault) → (result ≡ Err fault) ↔ Refuses octets.now fault }
{
    match fault_of(octets) {
        Some(fault) => Err(fault),
        None => {
            let body = &octets[3..octets.len() - 2];
            Ok(unit_of(head_at(octets[0], octets[1]), body))
        }
    }
}
