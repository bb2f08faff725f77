//! Makes line bits of signal units.
ghost use Rattle.std.specs.Prelude.{◌≡◌, ◌≤◌, ◌<◌, ◌+◌, ◌*◌, ◌^◌, ℕ, Bool, List, [], ◌∷◌, ◌++◌, reverse, length, IfSome};
ghost use Rattle.arrayvec.specs.ArrayVec.{array_vec_len};
ghost use Rattle.su_octets.specs.Bits.{low_bits, bits_of};
ghost use Rattle.su_octets.specs.Frame.{Frame, SpareBitsAreZero};
ghost use Rattle.su_octets.specs.Whole.{IsWhole};
ghost use Rattle.bit_line.specs.Sending.{line_of, MOST_OCTETS};
ghost use Rattle.bit_line.specs.Parts.{Packed, opening};
ghost use Rattle.bit_line.specs.Stuffing.{trailing, stuffed};
ghost use Rattle.std.specs.Option.{option_to_list};

use crate::part::Part;
use arrayvec::ArrayVec;
use std::marker::Model;
use su_octets::{Unit, encode};

/// The bits of a flag, the first one lowest.
const FLAG: u8 = 0x7e;

/// The line bits of an octet of a unit.
#[derive(Clone, Copy)]
struct Stuffed {
    /// The first eight line bits.
    eight: u8,
    /// The ninth line bit, if a 0 was inserted.
    ninth: Option<bool>,
    /// The number of 1s in a row at the end of the line bits.
    ones: u8,
}

/// The line bits of an octet after `ones` 1s in a row. `None` if two 0s must be inserted.
fn stuffed_octet(octet: u8, ones: u8) -> Option<Stuffed>
    requires few { ones < 5 }
    ensures bits { IfSome result (λ s. (sent : List Bool) → ones ≡ trailing (stuffed sent)
        → stuffed (reverse (low_bits 8 octet) ++ sent) ≡ option_to_list s.ninth ++ (reverse (low_bits 8 s.eight) ++ stuffed sent)) }
    ensures ones { IfSome result (λ s. (sent : List Bool) → ones ≡ trailing (stuffed sent)
        → s.ones ≡ trailing (stuffed (reverse (low_bits 8 octet) ++ sent))) }
    ensures few { IfSome result (λ s. s.ones < 5) }
    ensures len { IfSome result (λ s. 5 * length (option_to_list s.ninth) + s.ones ≤ ones + 8) }
{
    let window = ((u16::from(octet) + 1) << ones) - 1;
    let pairs = window & window >> 1;
    let fives = pairs & pairs >> 2 & window >> 4;
    if fives == 0 {
        return Some(Stuffed {
            eight: octet,
            ninth: None,
            ones: octet.leading_ones() as u8,
        });
    }
    let first = fives.trailing_zeros();
    if fives >> (first + 5) != 0 {
        return None;
    }
    let cut = first + 5 - u32::from(ones);
    let bits = 2 * u16::from(octet) - u16::from(octet) % (1 << cut);
    Some(Stuffed {
        eight: (bits % 256) as u8,
        ninth: Some(bits >= 256),
        ones: octet.leading_ones().min(8 - cut) as u8,
    })
}

/// Adds a bit.
fn push(line: &mut ArrayVec<u8, 352>, part: &mut Part, bit: bool)
    requires { array_vec_len line.old < 352 }
    ensures packed { (before : List ℕ) (h : List Bool) → Packed (before ++ line.old.items) part.old.bits part.old.len h
        → Packed (before ++ line.new.items) part.new.bits part.new.len (bit ∷ h) }
    ensures len { 8 * array_vec_len line.new + part.new.len ≡ 8 * array_vec_len line.old + part.old.len + 1 }
{
    if let Some(octet) = part.push(bit) {
        line.push(octet);
    }
}

/// Adds eight bits, the low one first.
fn push_eight(line: &mut ArrayVec<u8, 352>, part: &mut Part, octet: u8)
    requires { array_vec_len line.old < 352 }
    ensures packed { (before : List ℕ) (h : List Bool) → Packed (before ++ line.old.items) part.old.bits part.old.len h
        → Packed (before ++ line.new.items) part.new.bits part.new.len (reverse (low_bits 8 octet) ++ h) }
    ensures len { 8 * array_vec_len line.new + part.new.len ≡ 8 * array_vec_len line.old + part.old.len + 8 }
{
    let whole = part.push_eight(octet);
    line.push(whole);
}

/// Adds a flag.
fn push_flag(line: &mut ArrayVec<u8, 352>, part: &mut Part)
    requires { 8 * array_vec_len line.old + part.old.len + 8 ≤ 2816 }
    ensures packed { (before : List ℕ) (h : List Bool) → Packed (before ++ line.old.items) part.old.bits part.old.len h
        → Packed (before ++ line.new.items) part.new.bits part.new.len (reverse (low_bits 8 126) ++ h) }
    ensures len { 8 * array_vec_len line.new + part.new.len ≡ 8 * array_vec_len line.old + part.old.len + 8 }
{
    push_eight(line, part, FLAG);
}

/// Adds a flag, unless the line has started.
fn open(line: &mut ArrayVec<u8, 352>, part: &mut Part, started: bool)
    requires { 8 * array_vec_len line.old + part.old.len + 8 ≤ 2816 }
    ensures packed { (before : List ℕ) (h : List Bool) → Packed (before ++ line.old.items) part.old.bits part.old.len h
        → Packed (before ++ line.new.items) part.new.bits part.new.len (opening started ++ h) }
    ensures len { 8 * array_vec_len line.new + part.new.len ≤ 8 * array_vec_len line.old + part.old.len + 8 }
{
    if !started {
        push_flag(line, part);
    }
}

/// Adds a bit of a unit after `ones` 1s in a row, and a 0 if it is the fifth 1. Returns the number of 1s in a row after
/// it.
fn push_stuffed(line: &mut ArrayVec<u8, 352>, part: &mut Part, bit: bool, ones: u8) -> u8
    requires few { ones < 5 }
    requires room { 8 * array_vec_len line.old + part.old.len + 2 ≤ 2816 }
    ensures packed { (before : List ℕ) (sent h : List Bool) → ones ≡ trailing (stuffed sent)
        → Packed (before ++ line.old.items) part.old.bits part.old.len (stuffed sent ++ h)
        → Packed (before ++ line.new.items) part.new.bits part.new.len (stuffed (bit ∷ sent) ++ h) }
    ensures ones { (sent : List Bool) → ones ≡ trailing (stuffed sent) → result ≡ trailing (stuffed (bit ∷ sent)) }
    ensures few { result < 5 }
    ensures len { 5 * (8 * array_vec_len line.new + part.new.len) + result
        ≤ 5 * (8 * array_vec_len line.old + part.old.len) + ones + 6 }
{
    push(line, part, bit);
    if !bit {
        return 0;
    }
    if ones == 4 {
        push(line, part, false);
        return 0;
    }
    ones + 1
}

/// Adds the bits of an octet of a unit one by one, after `ones` 1s in a row. Returns the number of 1s in a row after
/// them.
fn push_bits(line: &mut ArrayVec<u8, 352>, part: &mut Part, octet: u8, ones: u8) -> u8
    requires few { ones < 5 }
    requires room { 5 * (8 * array_vec_len line.old + part.old.len) + ones + 58 ≤ 14080 }
    ensures packed { (before : List ℕ) (sent h : List Bool) → ones ≡ trailing (stuffed sent)
        → Packed (before ++ line.old.items) part.old.bits part.old.len (stuffed sent ++ h)
        → Packed (before ++ line.new.items) part.new.bits part.new.len (stuffed (reverse (low_bits 8 octet) ++ sent) ++ h) }
    ensures ones { (sent : List Bool) → ones ≡ trailing (stuffed sent) → result ≡ trailing (stuffed (reverse (low_bits 8 octet) ++ sent)) }
    ensures few { result < 5 }
    ensures len { 5 * (8 * array_vec_len line.new + part.new.len) + result
        ≤ 5 * (8 * array_vec_len line.old + part.old.len) + ones + 48 }
{
    let mut count = ones;
    for i in 0..8u8 {
        count = push_stuffed(line, part, octet >> i & 1 == 1, count);
    }
    count
}

/// Adds the bits of an octet of a unit after `ones` 1s in a row. Returns the number of 1s in a row after them.
fn push_octet(line: &mut ArrayVec<u8, 352>, part: &mut Part, octet: u8, ones: u8) -> u8
    requires few { ones < 5 }
    requires room { 5 * (8 * array_vec_len line.old + part.old.len) + ones + 58 ≤ 14080 }
    ensures packed { (before : List ℕ) (sent h : List Bool) → ones ≡ trailing (stuffed sent)
        → Packed (before ++ line.old.items) part.old.bits part.old.len (stuffed sent ++ h)
        → Packed (before ++ line.new.items) part.new.bits part.new.len (stuffed (reverse (low_bits 8 octet) ++ sent) ++ h) }
    ensures ones { (sent : List Bool) → ones ≡ trailing (stuffed sent) → result ≡ trailing (stuffed (reverse (low_bits 8 octet) ++ sent)) }
    ensures few { result < 5 }
    ensures len { 5 * (8 * array_vec_len line.new + part.new.len) + result
        ≤ 5 * (8 * array_vec_len line.old + part.old.len) + ones + 48 }
{
    let Some(stuffed) = stuffed_octet(octet, ones) else {
        return push_bits(line, part, octet, ones);
    };
    push_eight(line, part, stuffed.eight);
    if let Some(bit) = stuffed.ninth {
        push(line, part, bit);
    }
    stuffed.ones
}

/// Adds the octets of a unit with inserted zeros.
fn push_unit(line: &mut ArrayVec<u8, 352>, part: &mut Part, octets: &[u8])
    requires fits { length octets.now ≤ 278 }
    requires room { 8 * array_vec_len line.old + part.old.len ≤ 15 }
    ensures packed { (before : List ℕ) (h : List Bool) → Packed (before ++ line.old.items) part.old.bits part.old.len h
        → Packed (before ++ line.new.items) part.new.bits part.new.len (stuffed (reverse (bits_of octets.now)) ++ h) }
    ensures len { 5 * (8 * array_vec_len line.new + part.new.len) ≤ 75 + 48 * length octets.now }
{
    let mut ones = 0;
    for octet in octets {
        ones = push_octet(line, part, *octet, ones);
    }
}

/// Puts signal units on a line: a flag before the first one and a flag after each, and between the flags
/// a 0 after every five 1s in a row (Q.703, 3.1 and 3.2).
#[derive(Drop)]
pub struct Stuffer {
    started: bool,
    part: Part,
}

impl Model for Stuffer {
    ghost use Rattle.bit_line.specs.Stuffers.{PlainStuffer, HasStuffed};

    ghost Value = { PlainStuffer };

    ghost view = { λ s. record { started = s.started; part = s.part } };

    ghost invariant = { λ s. HasStuffed (record { started = s.started; part = s.part }) };
}

impl Stuffer {
    ghost use Rattle.bit_line.specs.Stuffers.{Gave, HasStuffed};

    /// A stuffer before the first unit.
    pub fn new() -> Self
        ensures { Gave [] [] result }
    {
        Stuffer {
            started: false,
            part: Part::new(),
        }
    }

    /// The invariant of every stuffer: it has returned the line octets of some units, none or more, except the bits that
    /// it keeps. Calling it costs nothing.
    pub fn law(&self)
        ensures { HasStuffed self.now }
    {
        let _inside = self.started;
    }

    /// Sends a unit. Returns the line octets that are complete now, at most 336. Up to 7 bits stay for the next call.
    pub fn put(&mut self, unit: &Unit) -> ArrayVec<u8, 352>
        requires { IsWhole unit.now }
        ensures sent { (octets : List ℕ) × Frame octets unit.now × SpareBitsAreZero octets
            × ((given : List ℕ) (units : List (List ℕ)) → Gave given units self.old → Gave (given ++ result.items) (units ++ octets ∷ []) self.new) }
        ensures most { array_vec_len result ≤ MOST_OCTETS }
    {
        let mut line = ArrayVec::new();
        self.put_to(unit, &mut line);
        line
    }

    /// Sends a unit. Replaces `line` by the line octets that are complete now, at most 336. Up to 7 bits stay for the
    /// next call.
    pub fn put_to(&mut self, unit: &Unit, line: &mut ArrayVec<u8, 352>)
        requires { IsWhole unit.now }
        ensures sent { (octets : List ℕ) × Frame octets unit.now × SpareBitsAreZero octets
            × ((given : List ℕ) (units : List (List ℕ)) → Gave given units self.old → Gave (given ++ line.new.items) (units ++ octets ∷ []) self.new) }
        ensures most { array_vec_len line.new ≤ MOST_OCTETS }
    {
        let mut octets = ArrayVec::new();
        encode(unit, &mut octets);
        let mut part = self.part;
        line.clear();
        open(line, &mut part, self.started);
        push_unit(line, &mut part, octets.as_slice());
        push_flag(line, &mut part);
        self.started = true;
        self.part = part;
    }

    /// The bits that stay for the next call, the first one lowest, and their number, up to 7.
    pub fn rest(&self) -> (u8, u8)
        ensures bits { (given : List ℕ) (units : List (List ℕ)) → Gave given units self.now → bits_of given ++ low_bits result.1 result.0 ≡ line_of units }
        ensures few { result.1 < 8 }
        ensures fits { result.0 < 2 ^ result.1 }
    {
        (self.part.bits, self.part.len)
    }
}
