//! Line octets, with the correct signal units that another receiver found in them. A line has the octets in hexadecimal
//! digits, followed by the units without their check octets, separated by spaces.
ghost use Rattle.std.specs.Prelude.{◌<◌};

use crate::calls::Stopped;
use bit_line::{Deframer, LineEvent, NoMemory};
use std::alloc::{AllocError, Global};

/// The lines given to the deframer, their units, and the number of cuttings in which it found other units.
#[derive(Clone, Copy)]
struct Held {
    lines: u32,
    units: usize,
    differences: u32,
}

/// The value of a hexadecimal digit, or 0.
fn digit(c: u8) -> u8 {
    match c {
        b'0'..=b'9' => c - b'0',
        b'A'..=b'F' => c - b'A' + 10,
        _ => 0,
    }
}

/// The octets of a word of hexadecimal digits.
fn octets_of(alloc: Global, word: &str) -> Result<Vec<u8>, AllocError> {
    let mut octets = Vec::new(alloc);
    for pair in word.as_bytes().chunks(2) {
        if let [high, low] = pair {
            octets.push((digit(*high) % 16) * 16 + digit(*low) % 16)?;
        }
    }
    Ok(octets)
}

/// The octets of each word of a line.
fn words_of(alloc: Global, line: &str) -> Result<Vec<Vec<u8>>, AllocError> {
    let mut words = Vec::new(alloc);
    for word in line.split_whitespace() {
        words.push(octets_of(alloc, word)?)?;
    }
    Ok(words)
}

/// Whether the deframer finds exactly these correct units in the line, if it gets it in pieces of `cut` octets.
fn agrees(alloc: Global, line: &[u8], units: &[Vec<u8>], cut: usize) -> Result<bool, NoMemory>
    requires { 0 < cut }
{
    let mut deframer = Deframer::new();
    let mut rest = units;
    for piece in line.chunks(cut) {
        for event in deframer.feed(alloc, piece)?.iter() {
            if let LineEvent::Unit(octets) = event {
                match (rest.split_first(), octets.as_slice()) {
                    (Some((unit, others)), [content @ .., _, _]) if unit.as_slice() == content => {
                        rest = others;
                    }
                    _ => return Ok(false),
                }
            }
        }
    }
    Ok(rest.is_empty())
}

/// The number of cuttings of the line in which the deframer finds other units.
fn count_differences(alloc: Global, line: &[u8], units: &[Vec<u8>]) -> Result<u32, NoMemory> {
    let mut differences: u32 = 0;
    for cut in [1, 2, 3, 7, 64, 4096] {
        if !agrees(alloc, line, units, cut)? {
            differences = differences.saturating_add(1);
        }
    }
    Ok(differences)
}

/// Gives a line to the deframer and compares.
fn hold(alloc: Global, text: &str, held: &mut Held) -> Result<(), Stopped> {
    let words = words_of(alloc, text)?;
    if let Some((line, units)) = words.as_slice().split_first() {
        let Ok(differences) = count_differences(alloc, line.as_slice(), units) else {
            return Err(Stopped::NoMemory);
        };
        held.lines = held.lines.saturating_add(1);
        held.units = held.units.saturating_add(units.len());
        held.differences = held.differences.saturating_add(differences);
    }
    Ok(())
}

/// Gives lines to the deframer, and writes how many agree.
pub fn compare(alloc: Global, text: &mut String, lines: &str) -> Result<(), Stopped> {
    let mut held = Held {
        lines: 0,
        units: 0,
        differences: 0,
    };
    for line in lines.lines() {
        hold(alloc, line, &mut held)?;
    }
    let Held {
        lines,
        units,
        differences,
    } = held;
    writeln!(
        text,
        "lines {lines} units {units} cuttings 6 differences {differences}"
    )?;
    Ok(())
}
