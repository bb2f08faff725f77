//! The output and exit status of `check` if a text ends early, isn't UTF-8, can't be read or can't be written. For
//! texts that are read and written completely there is a table of texts (examples/refusals.txt).
use crate::texts::COUNTER;
use script_check::{SetWord, check};
use std::alloc::Global;
use std::io::{self, Read, Write};

/// A writer that keeps all text, except that the call numbered `failing` fails. With 0 no call fails.
#[derive(Drop)]
struct Paper {
    text: Vec<u8>,
    calls: u32,
    failing: u32,
}

impl Write for Paper {
    fn write(&mut self, octets: &[u8]) -> io::Result<usize> {
        self.calls = self.calls.saturating_add(1);
        if self.calls == self.failing {
            return Err(io::Error::from(io::ErrorKind::Other));
        }
        self.text.extend_from_slice(octets)?;
        Ok(octets.len())
    }

    fn flush(&mut self) -> io::Result<()> {
        Ok(())
    }
}

/// A writer with room for `room` bytes. It takes the bytes that fit, and fails once it is full.
#[derive(Drop)]
struct Scrap {
    text: Vec<u8>,
    room: usize,
}

impl Write for Scrap {
    fn write(&mut self, octets: &[u8]) -> io::Result<usize> {
        if self.room == 0 {
            return Err(io::Error::from(io::ErrorKind::Other));
        }
        let taken = octets.len().min(self.room);
        self.room -= taken;
        self.text.extend_from_slice(&octets[..taken])?;
        Ok(taken)
    }

    fn flush(&mut self) -> io::Result<()> {
        Ok(())
    }
}

/// The text written, and the exit status.
type Told = (&'static [u8], u8);

const ACCEPTED: &[u8] =
    b"P START budget 3 depth 1 effects 0\nP Run/Up budget 7 depth 2 effects 0\naccepted\n";

const UNEXPECTED: &[u8] = b"refused P1 Unexpected line 1\n";

/// Whether `check` writes this text and returns this status for a reader, if the write numbered `failing` fails.
fn tells<R: Read + Drop>(alloc: Global, reader: R, failing: u32, told: Told) -> bool {
    let mut paper = Paper {
        text: Vec::new(alloc),
        calls: 0,
        failing,
    };
    let status = check(alloc, SetWord::Text(reader), &mut paper);
    paper.text.as_slice() == told.0 && status == told.1
}

/// The text written if the first, the second or the last line fails, and if none does. The writer would accept the
/// lines after a failed one. A refusal whose line can't be written is none.
const FAILING: [(&str, u32, Told); 6] = [
    (COUNTER, 1, (b"", 4)),
    (COUNTER, 2, (b"P START budget 3 depth 1 effects 0\n", 4)),
    (
        COUNTER,
        3,
        (
            b"P START budget 3 depth 1 effects 0\nP Run/Up budget 7 depth 2 effects 0\n",
            4,
        ),
    ),
    (COUNTER, 4, (ACCEPTED, 0)),
    ("BLOCK", 1, (b"", 4)),
    ("BLOCK", 2, (UNEXPECTED, 2)),
];

/// The number of the first row with another result.
fn first_other_line(alloc: Global, rows: &[(&str, u32, Told)]) -> Option<usize> {
    for (number, (text, failing, told)) in rows.iter().enumerate() {
        if !tells(alloc, text.as_bytes(), *failing, *told) {
            return Some(number);
        }
    }
    None
}

#[test]
fn stops_at_a_failed_line(rt: HostRuntime) {
    assert_eq!(rt; first_other_line(rt.alloc(), &FAILING), None);
}

/// Whether `check` writes the part of the text that fits in the room, and returns this status.
fn tells_in_room(alloc: Global, text: &[u8], room: usize, told: Told) -> bool {
    let mut scrap = Scrap {
        text: Vec::new(alloc),
        room,
    };
    let status = check(alloc, SetWord::Text(text), &mut scrap);
    told.0.get(..room) == Some(scrap.text.as_slice()) && status == told.1
}

/// The first room in which another text or status comes. If the room is too small, the status must be 4.
fn first_other_room(alloc: Global, text: &[u8], told: Told) -> Option<usize> {
    let all = told.0.len();
    for room in 0..=all {
        let status = if room < all { 4 } else { told.1 };
        if !tells_in_room(alloc, text, room, (told.0, status)) {
            return Some(room);
        }
    }
    None
}

/// Only text that is written completely counts.
#[test]
fn stops_where_the_room_ends(rt: HostRuntime) {
    let counter = COUNTER.as_bytes();
    assert_eq!(rt; first_other_room(rt.alloc(), counter, (ACCEPTED, 0)), None);
    assert_eq!(rt;
        first_other_room(rt.alloc(), b"BLOCK", (UNEXPECTED, 2)),
        None
    );
}

/// Whether a text is refused because it ends early.
fn ends_early(alloc: Global, text: &[u8]) -> bool {
    let mut paper = Paper {
        text: Vec::new(alloc),
        calls: 0,
        failing: 0,
    };
    let status = check(alloc, SetWord::Text(text), &mut paper);
    paper.text.starts_with(b"refused P1 Unexpected line ") && status == 2
}

/// The length of the first prefix of a text that isn't refused because it ends early.
fn first_other_end(alloc: Global, text: &[u8]) -> Option<usize> {
    for end in 0..text.len() {
        match text.get(..end) {
            Some(beginning) if ends_early(alloc, beginning) => {}
            _ => return Some(end),
        }
    }
    None
}

/// Each prefix of the counter without its last semicolon is refused as no block. The final line feed may be missing.
#[test]
fn refuses_each_prefix(rt: HostRuntime) {
    let whole = COUNTER.len() - 1;
    assert_eq!(rt;
        first_other_end(rt.alloc(), COUNTER.as_bytes()),
        Some(whole)
    );
    assert!(rt; tells(rt.alloc(), b"".as_slice(), 0, (UNEXPECTED, 2)));
}

/// Whether a text of 262,145 line feeds is too long, and one with a further byte that isn't UTF-8 isn't text.
fn long_texts(alloc: Global) -> Option<[bool; 2]> {
    let mut long = Vec::from_elem(alloc, b'\n', 262_145).ok()?;
    let is_long = tells(
        alloc,
        long.as_slice(),
        0,
        (b"refused L3 TooLong line 262145\n", 2),
    );
    long.push(0xFF).ok()?;
    let is_none = tells(alloc, long.as_slice(), 0, (b"refused F1 NotText\n", 2));
    Some([is_long, is_none])
}

/// A text may have 262,144 bytes. The line of a text that is too long is that of the next byte.
#[test]
fn refuses_long_texts_and_bytes_that_are_none(rt: HostRuntime) {
    assert_eq!(rt; long_texts(rt.alloc()), Some([true; 2]));
}

/// A reader that returns its text in parts of 9 bytes, and fails once after `calls_left` calls.
#[derive(Drop)]
struct Source<'a> {
    rest: &'a [u8],
    calls_left: u32,
    failure: io::ErrorKind,
}

impl Read for Source<'_> {
    fn read(&mut self, part: &mut [u8]) -> io::Result<usize> {
        if self.calls_left == 0 {
            self.calls_left = u32::MAX;
            return Err(io::Error::from(self.failure));
        }
        self.calls_left -= 1;
        let room = part.len().min(9);
        self.rest.read(&mut part[..room])
    }
}

/// Whether `check` has this result for the counter if the read after `calls_left` calls fails.
fn tells_read(alloc: Global, calls_left: u32, failure: io::ErrorKind, told: Told) -> bool {
    let source = Source {
        rest: COUNTER.as_bytes(),
        calls_left,
        failure,
    };
    tells(alloc, source, 0, told)
}

/// The number of the first read whose failure leads to output, or to a status other than 4.
fn first_other_read(alloc: Global, reads: u32) -> Option<u32> {
    for calls_left in 0..reads {
        if !tells_read(alloc, calls_left, io::ErrorKind::Other, (b"", 4)) {
            return Some(calls_left);
        }
    }
    None
}

/// Whichever read fails, nothing is written. An interrupted read is repeated.
#[test]
fn stops_at_a_failed_read(rt: HostRuntime) {
    let reads = COUNTER.len() as u32 / 9 + 2;
    let told = (ACCEPTED, 0);
    assert_eq!(rt; first_other_read(rt.alloc(), reads), None);
    assert!(rt; tells_read(rt.alloc(), reads, io::ErrorKind::Other, told));
    assert!(rt; tells_read(rt.alloc(), 1, io::ErrorKind::Interrupted, told));
}

/// A reader that returns one space per call, and never ends.
#[derive(Drop)]
struct Spaces {
    calls: u32,
}

impl Read for Spaces {
    fn read(&mut self, part: &mut [u8]) -> io::Result<usize> {
        self.calls = self.calls.saturating_add(1);
        match part.first_mut() {
            Some(first) => {
                *first = b' ';
                Ok(1)
            }
            None => Ok(0),
        }
    }
}

/// A reader is called at most 1,000,000 times.
#[test]
fn gives_up_on_a_reader_without_end(rt: HostRuntime) {
    let mut spaces = Spaces { calls: 0 };
    assert!(rt; tells(rt.alloc(), &mut spaces, 0, (b"", 4)));
    assert_eq!(rt; spaces.calls, 1_000_000);
}
