//! Reads a line of pieces.

use crate::life::{Life, Verb, verb_of};
use crate::shown::show;
use m3ua_frames::Deframer;
use std::alloc::{AllocError, Global};

/// The value of a hexadecimal digit, or 0.
fn digit(c: u8) -> u8 {
    match c {
        b'0'..=b'9' => c - b'0',
        b'A'..=b'F' => c - b'A' + 10,
        b'a'..=b'f' => c - b'a' + 10,
        _ => 0,
    }
}

/// The octets that a word of hexadecimal digits encodes.
pub fn octets_of(alloc: Global, word: &str) -> Result<Vec<u8>, AllocError> {
    let mut octets = Vec::new(alloc);
    for pair in word.as_bytes().chunks(2) {
        if let [high, low] = pair {
            octets.push((digit(*high) % 16) * 16 + digit(*low) % 16)?;
        }
    }
    Ok(octets)
}

/// The number that a word of decimal digits encodes, its last nine digits.
pub fn number_of(word: &str) -> u32 {
    let mut number: u32 = 0;
    for c in word.as_bytes() {
        number = number % 100_000_000 * 10 + digit(*c) as u32;
    }
    number
}

/// Shows the items that a piece completes.
fn show_piece(text: &mut String, deframer: &mut Deframer, piece: &[u8]) -> Result<(), AllocError> {
    let mut rest = piece;
    while !rest.is_empty() {
        let (used, heard) = deframer.take(rest);
        show(text, heard, deframer.octets())?;
        rest = &rest[used..];
    }
    Ok(())
}

/// Shows the items of a line's stream.
pub fn show_stream(alloc: Global, text: &mut String, line: &str) -> Result<(), AllocError> {
    let mut deframer = Deframer::new();
    for word in line.split_whitespace() {
        let piece = octets_of(alloc, word)?;
        show_piece(text, &mut deframer, piece.as_slice())?;
    }
    text.push_str("--\n")
}

/// Shows the life of a gateway: after the first word, words with one argument each.
pub fn show_life(alloc: Global, text: &mut String, line: &str) -> Result<(), AllocError> {
    let mut life = Life::new(alloc)?;
    let mut verb = Verb::Nothing;
    for word in line.split_whitespace() {
        match verb {
            Verb::Nothing => verb = verb_of(word),
            _ => {
                life.word(alloc, text, verb, word)?;
                verb = Verb::Nothing;
            }
        }
    }
    text.push_str("--\n")
}
