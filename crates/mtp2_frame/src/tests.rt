use crate::frame;
use std::alloc::Global;
use std::io::{self, Write};
use std::test::Fail;

/// A writer that keeps its input, and fails after `calls` calls.
#[derive(Drop)]
struct Paper {
    text: Vec<u8>,
    calls_left: u32,
}

impl Paper {
    /// An empty writer.
    fn new(alloc: Global, calls: u32) -> Paper {
        Paper {
            text: Vec::new(alloc),
            calls_left: calls,
        }
    }

    /// The text written.
    fn into_text(self) -> Vec<u8> {
        let Paper { text, .. } = self;
        text
    }
}

impl Write for Paper {
    fn write(&mut self, octets: &[u8]) -> io::Result<usize> {
        if self.calls_left == 0 {
            return Err(io::Error::from(io::ErrorKind::Other));
        }
        self.calls_left -= 1;
        self.text.extend_from_slice(octets)?;
        Ok(octets.len())
    }

    fn flush(&mut self) -> io::Result<()> {
        Ok(())
    }
}

/// The output of `frame` for a word, and its exit status.
fn printed(alloc: Global, word: &str, calls: u32) -> (Vec<u8>, u8) {
    let mut paper = Paper::new(alloc, calls);
    let status = frame(alloc, word, &mut paper);
    (paper.into_text(), status)
}

/// Words, each with its output and exit status.
const WORDS: [(&str, &[u8], u8); 13] = [
    (
        "FFFF00FFFF",
        b"FISU bsn 127 bib 1 fsn 127 fib 1\nbits 46\n",
        0,
    ),
    (
        "ffff00ffff",
        b"FISU bsn 127 bib 1 fsn 127 fib 1\nbits 46\n",
        0,
    ),
    (
        "FFFF0103BCD4",
        b"LSSU bsn 127 bib 1 fsn 127 fib 1 status SIOS\nbits 51\n",
        0,
    ),
    ("058300D559", b"FISU bsn 5 bib 0 fsn 3 fib 1\nbits 40\n", 0),
    (
        "85030105F61E",
        b"LSSU bsn 5 bib 1 fsn 3 fib 0 status SIB\nbits 48\n",
        0,
    ),
    (
        "02FE04AB0102030556",
        b"MSU bsn 2 bib 0 fsn 126 fib 1 sio AB octets 3\nbits 73\n",
        0,
    ),
    ("FFFF00FFFE", b"refused U3 BadCheck\n", 2),
    ("0583015C48", b"refused U4 BadLength\n", 2),
    ("FFFF00FF", b"refused U1 TooShort\n", 2),
    ("", b"refused U1 TooShort\n", 2),
    ("F", b"refused H1 NotHex\n", 2),
    ("FFFF00FFFG", b"refused H1 NotHex\n", 2),
    ("0x", b"refused H1 NotHex\n", 2),
];

#[test]
fn prints_units_and_refusals(rt: HostRuntime) -> Result<(), Fail> {
    for (word, text, status) in WORDS {
        let (written, given) = printed(rt.alloc(), word, 9);
        assert_eq!(rt; written.as_slice(), text, "{word}");
        assert_eq!(rt; given, status, "{word}");
    }
    Ok(())
}

/// 558 digits are 279 octets.
#[test]
fn refuses_octets_that_are_too_many(rt: HostRuntime) -> Result<(), Fail> {
    let mut word = String::new(rt.alloc());
    for _ in 0..558 {
        word.push('F')?;
    }
    let (written, status) = printed(rt.alloc(), word.as_str(), 9);
    assert_eq!(rt; written.as_slice(), b"refused U2 TooLong\n".as_slice());
    assert_eq!(rt; status, 2);
    Ok(())
}

/// Nothing is written after a write that failed.
#[test]
fn stops_at_a_failed_write(rt: HostRuntime) -> Result<(), Fail> {
    let (written, status) = printed(rt.alloc(), "FFFF00FFFF", 1);
    assert_eq!(rt;
        written.as_slice(),
        b"FISU bsn 127 bib 1 fsn 127 fib 1\n".as_slice()
    );
    assert_eq!(rt; status, 4);
    let (written, status) = printed(rt.alloc(), "F", 0);
    assert_eq!(rt; written.len(), 0);
    assert_eq!(rt; status, 4);
    Ok(())
}
