//! The command `frame`: one signal unit, read from hexadecimal digits.
ghost use Rattle.std.specs.Prelude.{◌≡◌, ◌⊎◌, ◌≤◌, ◌*◌, ◌+◌, ◌^◌, ◌<◌, ℕ, List, length, Ok, Err, IfOk, IfErr, OnOk, OnErr};
ghost use Rattle.std.specs.Io.KnownBytes.{Appends};
ghost use Rattle.hex.specs.Hex.{decode_of};
ghost use Rattle.mtp2_frame.specs.Printed.{frame_fault_text, reading_lines, fault_line, PrintsUnit, PrintsFault};
ghost use Rattle.mtp2_frame.specs.Reading.{Spells, IsReading, IsRefused};
ghost use Rattle.su_octets.specs.declared.units.Unit.{Unit};

use crate::line_bits::line_bits;
use hex::FromHexError;
use plain_text::{DONE, FAILED, REFUSED, write_line};
use std::alloc::{AllocError, Global};
use std::fmt;
use std::io::{self, Write};
use su_octets::{Unit, UnitFault};
use thiserror::Error;

/// Why a word is no signal unit.
#[derive(Clone, Copy, Debug, Drop, Error, PartialEq, Eq)]
pub enum FrameFault {
    /// The word isn't an even number of hexadecimal digits.
    NotHex,
    /// The octets are no signal unit, for this reason.
    Unit(UnitFault),
}

impl fmt::Display for FrameFault {
    ghost use Rattle.std.specs.Prelude.{Some};

    ghost output = { λ fault. Some (frame_fault_text fault) };

    fn fmt<W: fmt::Write>(&self, f: &mut fmt::Formatter<W>) -> fmt::Result {
        match self {
            FrameFault::NotHex => f.write_str("H1 NotHex"),
            FrameFault::Unit(fault) => fmt::Display::fmt(fault, f),
        }
    }
}

/// A signal unit and the number of its bits on the line.
#[derive(Drop)]
struct Reading {
    unit: Unit,
    line_bits: usize,
}

/// Prints the fields of the signal unit whose octets, check octets included, the word spells in hexadecimal digits.
/// Then it prints the number of the unit's bits on the line, between the flags. Spare bits are counted as they are.
///
/// Returns the exit status: 0; or 2 after a line `refused CODE Name` (H1 NotHex, then U1 TooShort, U2 TooLong, U3
/// BadCheck, U4 BadLength); or 4 if memory runs out or a write fails.
pub fn frame<W: Write>(alloc: Global, word: &str, writer: &mut W) -> u8
    ensures held { result ≡ 0 → (unit : Unit) × Spells word.now unit }
    ensures refused { result ≡ 2 → (unit : Unit) → Spells word.now unit → ⊥ }
    ensures printed { result ≡ 0 → PrintsUnit (W.contents writer.old) (W.contents writer.new) word.now }
    ensures refusal { result ≡ 2 → PrintsFault (W.contents writer.old) (W.contents writer.new) word.now }
    ensures status { (result ≡ 0) ⊎ (result ≡ 2) ⊎ (result ≡ 4) }
{
    match read(alloc, word) {
        Ok(Ok(reading)) => match write_reading(alloc, writer, &reading) {
            Ok(()) => DONE,
            Err(_) => FAILED,
        },
        Ok(Err(fault)) => match write_fault(alloc, writer, fault) {
            Ok(()) => REFUSED,
            Err(_) => FAILED,
        },
        Err(_) => FAILED,
    }
}

/// Writes a line with the signal unit's fields, and a line with the number of its bits.
fn write_reading<W: Write>(alloc: Global, writer: &mut W, reading: &Reading) -> io::Result<()>
    ensures { OnOk result (Appends (W.contents writer.old) (W.contents writer.new) (reading_lines reading.now.unit reading.now.line_bits)) }
{
    write_line(alloc, writer, &reading.unit)?;
    let line_bits = reading.line_bits;
    write_line(alloc, writer, &format_args!("bits {line_bits}"))
}

/// Writes the line of a refusal.
fn write_fault<W: Write>(alloc: Global, writer: &mut W, fault: FrameFault) -> io::Result<()>
    ensures { OnOk result (Appends (W.contents writer.old) (W.contents writer.new) (fault_line fault)) }
{
    write_line(alloc, writer, &format_args!("refused {fault}"))
}

/// Returns the signal unit that the word spells, or why it spells none.
fn read(alloc: Global, word: &str) -> Result<Result<Reading, FrameFault>, AllocError>
    ensures unit { IfOk result (λ r. IfOk r (λ reading. IsReading word.now reading.unit reading.line_bits)) }
    ensures fault { IfOk result (λ r. IfErr r (λ fault. IsRefused word.now fault)) }
    ensures none { IfOk result (λ r. OnErr r ((unit : Unit) → Spells word.now unit → ⊥)) }
{
    let octets = match hex::decode(alloc, word) {
        Ok(octets) => octets,
        Err(FromHexError::OutOfMemory) => return Err(AllocError),
        Err(_) => return Ok(Err(FrameFault::NotHex)),
    };
    match su_octets::decode(octets.as_slice()) {
        Ok(unit) => {
            let line_bits = line_bits(octets.as_slice());
            Ok(Ok(Reading { unit, line_bits }))
        }
        Err(fault) => Ok(Err(FrameFault::Unit(fault))),
    }
}
