//! Signal units in words, as `out` prints them; a message's field follows `sif`.
ghost use Rattle.std.specs.Prelude.{◌≡◌, ◌≤◌, ◌∷◌, IfOk, IfSome, codes, length, option_map};
ghost use Rattle.su_octets.specs.Frame.{length_indicator};
ghost use Rattle.script_lines.specs.Lines.{texts};
ghost use Rattle.script_links.specs.Octets.{octets_of};
ghost use Rattle.script_links.specs.UnitWords.{number_to, octet_by, half_of, status_of, status_body, message_body, fisu_body, lssu_body, msu_body, body_of, with_head, unit_of_words};

use crate::octets::octets_in;
use script_lines::count;
use std::alloc::{AllocError, Global};

/// The number that a word spells, if it is at most `most`.
pub fn number_in(word: &str, most: u32) -> Option<u8>
    requires { most ≤ 127 }
    ensures value { result ≡ number_to most word.now }
    ensures most { IfSome result (λ n. n ≤ most) }
{
    match count(word) {
        Some(number) if number <= most => Some(number as u8),
        _ => None,
    }
}

/// An octet from a number of 7 bits and its highest bit.
fn octet_in(number: &str, bit: &str) -> Option<u8>
    ensures { result ≡ octet_by (number_to 127 number.now) (number_to 1 bit.now) }
{
    let Some(number) = number_in(number, 127) else {
        return None;
    };
    match number_in(bit, 1) {
        Some(bit) => Some(number + 128 * bit),
        None => None,
    }
}

/// Reads `bsn N bib B`: the backward sequence number and indicator bit.
fn back_in(first: &str, number: &str, second: &str, bit: &str) -> Option<u8>
    ensures { result ≡ half_of (codes "bsn") (codes "bib") first.now number.now second.now bit.now }
{
    if first == "bsn" && second == "bib" {
        octet_in(number, bit)
    } else {
        None
    }
}

/// Reads `fsn N fib B`: the forward sequence number and indicator bit.
fn forward_in(first: &str, number: &str, second: &str, bit: &str) -> Option<u8>
    ensures { result ≡ half_of (codes "fsn") (codes "fib") first.now number.now second.now bit.now }
{
    if first == "fsn" && second == "fib" {
        octet_in(number, bit)
    } else {
        None
    }
}

/// A status by its name, or by its code if it has no name (Q.703, 11.1.3).
fn status_in(word: &str) -> Option<u8>
    ensures { result ≡ status_of word.now }
{
    if word == "SIO" {
        Some(0)
    } else if word == "SIN" {
        Some(1)
    } else if word == "SIE" {
        Some(2)
    } else if word == "SIOS" {
        Some(3)
    } else if word == "SIPO" {
        Some(4)
    } else if word == "SIB" {
        Some(5)
    } else if word == "6" {
        Some(6)
    } else if word == "7" {
        Some(7)
    } else {
        None
    }
}

/// The status octet of an LSSU, after its length indicator.
fn status_body(alloc: Global, status: &str) -> Result<Option<Vec<u8>>, AllocError>
    ensures { IfOk result (λ r. option_map (λ v. v.items) r ≡ status_body (status_of status.now)) }
{
    match status_in(status) {
        Some(status) => {
            let body = Vec::from_slice(alloc, &[status])?;
            Ok(Some(body))
        }
        None => Ok(None),
    }
}

/// The octets of an MSU after its length indicator, from two words of hexadecimal digits.
fn message_body(alloc: Global, sio: &str, sif: &str) -> Result<Option<Vec<u8>>, AllocError>
    ensures { IfOk result (λ r. option_map (λ v. v.items) r ≡ message_body (octets_of sio.now) (octets_of sif.now)) }
{
    let Some(mut body) = octets_in(alloc, sio)? else {
        return Ok(None);
    };
    let Some(field) = octets_in(alloc, sif)? else {
        return Ok(None);
    };
    if body.len() == 1 && 2 <= field.len() && field.len() <= 272 {
        body.extend_from_slice(&field)?;
        Ok(Some(body))
    } else {
        Ok(None)
    }
}

/// The octets of a FISU after its length indicator: none.
fn fisu_body(alloc: Global, kind: &str) -> Option<Vec<u8>>
    ensures { option_map (λ v. v.items) result ≡ fisu_body kind.now }
{
    if kind == "FISU" {
        Some(Vec::new(alloc))
    } else {
        None
    }
}

/// The octets of an LSSU after its length indicator.
fn lssu_body(
    alloc: Global,
    kind: &str,
    name: &str,
    status: &str,
) -> Result<Option<Vec<u8>>, AllocError>
    ensures { IfOk result (λ r. option_map (λ v. v.items) r ≡ lssu_body kind.now name.now status.now) }
{
    if kind == "LSSU" && name == "status" {
        status_body(alloc, status)
    } else {
        Ok(None)
    }
}

/// The octets of an MSU after its length indicator.
fn msu_body(
    alloc: Global,
    kind: &str,
    first: &str,
    sio: &str,
    second: &str,
    sif: &str,
) -> Result<Option<Vec<u8>>, AllocError>
    ensures { IfOk result (λ r. option_map (λ v. v.items) r ≡ msu_body kind.now first.now sio.now second.now sif.now) }
{
    if kind == "MSU" && first == "sio" && second == "sif" {
        message_body(alloc, sio, sif)
    } else {
        Ok(None)
    }
}

/// The octets after the length indicator, from the kind of unit and the words after the sequence numbers.
fn body_in(alloc: Global, kind: &str, words: &[&str]) -> Result<Option<Vec<u8>>, AllocError>
    ensures { IfOk result (λ r. option_map (λ v. v.items) r ≡ body_of kind.now (texts words.now)) }
{
    match words {
        [] => Ok(fisu_body(alloc, kind)),
        [_] => Ok(None),
        [name, status] => lssu_body(alloc, kind, name, status),
        [_, _, _] => Ok(None),
        [first, sio, second, sif] => msu_body(alloc, kind, first, sio, second, sif),
        [_, _, _, _, _, ..] => Ok(None),
    }
}

/// The octets of a unit without its check octets.
fn whole(alloc: Global, back: u8, forward: u8, body: &[u8]) -> Result<Vec<u8>, AllocError>
    ensures { IfOk result (λ v. v.items ≡ back ∷ forward ∷ length_indicator (length body.now) ∷ body.now) }
{
    let mut octets = Vec::new(alloc);
    octets.extend_from_slice(&[back, forward, body.len().min(63) as u8])?;
    octets.extend_from_slice(body)?;
    Ok(octets)
}

/// The octets of a unit without its check octets, if all three parts exist.
fn joined(
    alloc: Global,
    back: Option<u8>,
    forward: Option<u8>,
    body: Option<Vec<u8>>,
) -> Result<Option<Vec<u8>>, AllocError>
    ensures { IfOk result (λ r. option_map (λ v. v.items) r ≡ with_head back forward (option_map (λ v. v.items) body)) }
{
    let Some(back) = back else { return Ok(None) };
    let Some(forward) = forward else {
        return Ok(None);
    };
    match body {
        Some(body) => Ok(Some(whole(alloc, back, forward, &body)?)),
        None => Ok(None),
    }
}

/// The octets of the unit that words spell, without its check octets, if they spell one.
pub fn unit_in_words(alloc: Global, words: &[&str]) -> Result<Option<Vec<u8>>, AllocError>
    ensures { IfOk result (λ r. option_map (λ v. v.items) r ≡ unit_of_words (texts words.now)) }
{
    match words {
        [kind, a, b, c, d, e, f, g, h, more @ ..] => {
            let body = body_in(alloc, kind, more)?;
            joined(alloc, back_in(a, b, c, d), forward_in(e, f, g, h), body)
        }
        _ => Ok(None),
    }
}
