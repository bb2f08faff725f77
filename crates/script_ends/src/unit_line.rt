//! The octets of a unit on the line (Q.703, 3).
ghost use Rattle.std.specs.Prelude.{◌≡◌, ◌<◌, ◌≤◌, ◌+◌, ◌*◌, ◌%◌, ℕ, suc, Bool, List, ◌∷◌, ◌++◌, length, take, drop, reverse, IfOk, OnOk};
ghost use Rattle.su_octets.specs.Bits.{low_bits, bits_of};
ghost use Rattle.bit_line.specs.Sending.{flag};
ghost use Rattle.bit_line.specs.Stuffing.{stuffing_of};
ghost use Rattle.script_ends.specs.UnitLines.{shared_flags, IsSent, IsLineOf};

use std::alloc::{AllocError, Global};
use su_octets::check_bits;

/// Appends a bit of a unit after `ones` consecutive 1s, and a 0 after the fifth 1. Returns the number of 1s at the end.
fn push_stuffed(line: &mut Vec<bool>, bit: bool, ones: u8) -> Result<u8, AllocError>
    requires { ones < 5 }
    ensures sent { IfOk result (λ now. (before sent : List Bool) → IsSent before sent line.old.items ones → IsSent before (bit ∷ sent) line.new.items now) }
    ensures few { IfOk result (λ now. now < 5) }
{
    line.push(bit)?;
    if !bit {
        return Ok(0);
    }
    if ones == 4 {
        line.push(false)?;
        return Ok(0);
    }
    Ok(ones + 1)
}

/// Appends the bits of an octet of a unit, the low one first.
fn push_octet(line: &mut Vec<bool>, octet: u8, ones: u8) -> Result<u8, AllocError>
    requires { ones < 5 }
    ensures sent { IfOk result (λ now. (before sent : List Bool) → IsSent before sent line.old.items ones
        → IsSent before (reverse (low_bits 8 octet) ++ sent) line.new.items now) }
    ensures few { IfOk result (λ now. now < 5) }
{
    let mut count = ones;
    for i in 0..8u8 {
        count = push_stuffed(line, octet >> i & 1 == 1, count)?;
    }
    Ok(count)
}

/// Appends the bits of a unit's octets.
fn push_octets(line: &mut Vec<bool>, octets: &[u8]) -> Result<(), AllocError>
    ensures { OnOk result (line.new.items ≡ line.old.items ++ stuffing_of (bits_of octets.now)) }
{
    let mut ones = 0;
    for octet in octets {
        ones = push_octet(line, *octet, ones)?;
    }
    Ok(())
}

/// Appends a flag.
fn push_flag(line: &mut Vec<bool>) -> Result<(), AllocError>
    ensures { OnOk result (line.new.items ≡ line.old.items ++ flag) }
{
    let flag = [false, true, true, true, true, true, true, false];
    Ok(line.extend_from_slice(&flag)?)
}

/// Appends a flag that shares its first 0 with the flag before it.
fn push_shared_flag(line: &mut Vec<bool>) -> Result<(), AllocError>
    ensures { OnOk result (line.new.items ≡ line.old.items ++ drop 1 flag) }
{
    let rest = [true, true, true, true, true, true, false];
    Ok(line.extend_from_slice(&rest)?)
}

/// The number of bits after the last whole octet.
fn bits_over(bits: &[bool]) -> usize
    ensures { result ≡ length bits.now % 8 }
{
    bits.len() % 8
}

/// Appends flags, each of which shares its first 0 with the flag before it, until one ends an octet. Each adds seven
/// bits, so as many are needed as bits follow the last whole octet.
fn push_shared_flags(line: &mut Vec<bool>) -> Result<(), AllocError>
    ensures flags { OnOk result ((flags : ℕ) × (flags < 8) × (line.new.items ≡ line.old.items ++ shared_flags flags)) }
    ensures whole { OnOk result (length line.new.items % 8 ≡ 0) }
{
    let over = bits_over(line);
    for shared in 0..over {
        push_shared_flag(line)?;
    }
    Ok(())
}

/// The number with this lowest bit, and the bits of another number above it.
fn with_first(bit: bool, others: u8) -> u8
    requires { others < 128 }
    ensures bits { (k : ℕ) → low_bits (suc k) result ≡ bit ∷ low_bits k others }
    ensures few { result ≤ 2 * others + 1 }
{
    if bit { 2 * others + 1 } else { 2 * others }
}

/// The octet of the eight bits from index `from` on.
fn octet_at(bits: &[bool], from: usize) -> u8
    requires { from + 8 ≤ length bits.now }
    ensures { low_bits 8 result ≡ take 8 (drop from bits.now) }
{
    let eighth = with_first(bits[from + 7], 0);
    let seventh = with_first(bits[from + 6], eighth);
    let sixth = with_first(bits[from + 5], seventh);
    let fifth = with_first(bits[from + 4], sixth);
    let fourth = with_first(bits[from + 3], fifth);
    let third = with_first(bits[from + 2], fourth);
    let second = with_first(bits[from + 1], third);
    with_first(bits[from], second)
}

/// The octets of bits, the first bit of each lowest.
fn octets_of(alloc: Global, bits: &[bool]) -> Result<Vec<u8>, AllocError>
    requires { length bits.now % 8 ≡ 0 }
    ensures { IfOk result (λ v. bits_of v.items ≡ bits.now) }
{
    let mut octets = Vec::new(alloc);
    for place in 0..bits.len() / 8 {
        octets.push(octet_at(bits, 8 * place))?;
    }
    Ok(octets)
}

/// The line octets of a signal unit, given its octets without check octets: a flag, the octets and check octets with a
/// 0 after each five consecutive 1s, and a flag. Flags follow that share their first 0 with the flag before, until one
/// ends an octet (Q.703, 2.3.1, 3.2 and 4.2).
///
/// # Errors
///
/// If memory runs out.
pub fn line_of_unit(alloc: Global, octets: &[u8]) -> Result<Vec<u8>, AllocError>
    ensures { IfOk result (λ line. IsLineOf octets.now line.items) }
{
    let mut unit = Vec::from_slice(alloc, octets)?;
    unit.extend_from_slice(&check_bits(octets))?;
    let mut line = Vec::new(alloc);
    push_flag(&mut line)?;
    push_octets(&mut line, &unit)?;
    push_flag(&mut line)?;
    push_shared_flags(&mut line)?;
    octets_of(alloc, &line)
}
