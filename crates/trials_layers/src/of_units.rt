//! Units written by hand: their octets, their printed text and their refusals.
use arrayvec::ArrayVec;
use std::alloc::Global;
use su_octets::{Head, Unit, UnitFault, check_bits, decode, encode};

/// The head of a link that was just switched on.
fn first_head() -> Head {
    Head {
        bsn: 127,
        bib: 1,
        fsn: 127,
        fib: 1,
    }
}

/// A message whose field has `n` octets of 0x55.
fn message(n: usize) -> Unit {
    let mut sif = ArrayVec::new();
    for _ in 0..n.min(272) {
        if !sif.is_full() {
            sif.push(0x55);
        }
    }
    Unit::Msu(first_head(), 0x83, sif)
}

/// The check value of the polynomial's standard test text, and of the content of a first FISU.
#[test]
fn known_check_octets(rt: HostRuntime) {
    assert_eq!(rt; check_bits(b"123456789"), [0x6e, 0x90]);
    assert_eq!(rt; check_bits(&[0xff, 0xff, 0x00]), [0xff, 0xff]);
}

/// Octets of units, and the printed text of the units.
const UNITS: [(&[u8], &str); 5] = [
    (
        &[0xff, 0xff, 0x00, 0xff, 0xff],
        "FISU bsn 127 bib 1 fsn 127 fib 1",
    ),
    (
        &[0x05, 0x83, 0x00, 0xd5, 0x59],
        "FISU bsn 5 bib 0 fsn 3 fib 1",
    ),
    (
        &[0xff, 0xff, 0x01, 0x03, 0xbc, 0xd4],
        "LSSU bsn 127 bib 1 fsn 127 fib 1 status SIOS",
    ),
    (
        &[0x85, 0x03, 0x01, 0x05, 0xf6, 0x1e],
        "LSSU bsn 5 bib 1 fsn 3 fib 0 status SIB",
    ),
    (
        &[0x02, 0xfe, 0x04, 0xab, 0x01, 0x02, 0x03, 0x05, 0x56],
        "MSU bsn 2 bib 0 fsn 126 fib 1 sio AB octets 3",
    ),
];

/// Whether this is the printed text of the unit with these octets.
fn is_printed(alloc: Global, octets: &[u8], text: &str) -> Option<bool> {
    let unit = decode(octets).ok()?;
    let printed = format!(in alloc; "{unit}").ok()?;
    Some(printed.as_str() == text)
}

/// The index of the first unit with another printed text.
fn first_other_unit(alloc: Global, rows: &[(&[u8], &str)]) -> Option<usize> {
    for (number, (octets, text)) in rows.iter().enumerate() {
        if is_printed(alloc, octets, text) != Some(true) {
            return Some(number);
        }
    }
    None
}

/// The status code of the unit with these octets.
fn status(octets: &[u8]) -> Option<u8> {
    decode(octets).ok()?.status_code()
}

#[test]
fn known_units(rt: HostRuntime) {
    assert_eq!(rt; first_other_unit(rt.alloc(), &UNITS), None);
    assert_eq!(rt; status(&[0xff, 0xff, 0x01, 0x03, 0xbc, 0xd4]), Some(3));
}

/// Refused octets, and their faults.
const REFUSED: [(&[u8], UnitFault, &str); 5] = [
    (&[], UnitFault::TooShort, "U1 TooShort"),
    (
        &[0xff, 0xff, 0x00, 0xff],
        UnitFault::TooShort,
        "U1 TooShort",
    ),
    (&[0xff; 279], UnitFault::TooLong, "U2 TooLong"),
    (
        &[0xff, 0xff, 0x00, 0xff, 0xfe],
        UnitFault::BadCheck,
        "U3 BadCheck",
    ),
    (
        &[0x05, 0x83, 0x01, 0x5c, 0x48],
        UnitFault::BadLength,
        "U4 BadLength",
    ),
];

/// Whether octets are refused with this fault and this printed text.
fn is_refused(alloc: Global, octets: &[u8], fault: UnitFault, text: &str) -> bool {
    let is_that = decode(octets).err() == Some(fault);
    match format!(in alloc; "{fault}") {
        Ok(printed) => is_that && printed.as_str() == text,
        Err(_) => false,
    }
}

/// The index of the first octets with another refusal.
fn first_other_refusal(alloc: Global, rows: &[(&[u8], UnitFault, &str)]) -> Option<usize> {
    for (number, (octets, fault, text)) in rows.iter().enumerate() {
        if !is_refused(alloc, octets, *fault, text) {
            return Some(number);
        }
    }
    None
}

#[test]
fn known_refusals(rt: HostRuntime) {
    assert_eq!(rt; first_other_refusal(rt.alloc(), &REFUSED), None);
}

/// The number of octets of a message with a field of this length, its length indicator, and whether they decode to it.
fn encoded(field: usize) -> Option<(usize, Option<u8>, bool)> {
    let unit = message(field);
    if !unit.whole() {
        return None;
    }
    let mut sent = ArrayVec::new();
    encode(&unit, &mut sent);
    let indicator = sent.as_slice().get(2).copied();
    Some((sent.len(), indicator, decode(sent.as_slice()) == Ok(unit)))
}

/// The length of a field, of the octets, and the length indicator.
const LENGTHS: [(usize, usize, u8); 4] = [(2, 8, 3), (61, 67, 62), (62, 68, 63), (272, 278, 63)];

/// The index of the first row with another result.
fn first_other_length(rows: &[(usize, usize, u8)]) -> Option<usize> {
    for (number, (field, octets, indicator)) in rows.iter().enumerate() {
        if encoded(*field) != Some((*octets, Some(*indicator), true)) {
            return Some(number);
        }
    }
    None
}

/// The length indicator stays at 63 from 63 octets on.
#[test]
fn known_lengths(rt: HostRuntime) {
    assert_eq!(rt; first_other_length(&LENGTHS), None);
    assert_eq!(rt; encoded(1), None);
}
