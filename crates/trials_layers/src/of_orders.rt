//! Streams of orders, read in parts of several sizes.
use line_filter::{LineOrders, Orders};
use std::alloc::Global;
use std::io::{self, ErrorKind, Read};

/// A reader that returns at most so many octets at once, and is interrupted before each read.
#[derive(Drop)]
struct Parts<'a> {
    rest: &'a [u8],
    most: usize,
    is_interrupted: bool,
}

impl Read for Parts<'_> {
    fn read(&mut self, part: &mut [u8]) -> io::Result<usize> {
        self.is_interrupted = !self.is_interrupted;
        if self.is_interrupted {
            return Err(io::Error::from(ErrorKind::Interrupted));
        }
        let room = part.len().min(self.most);
        self.rest.read(&mut part[..room])
    }
}

/// The orders that are due in the first milliseconds, each on a line after its millisecond.
fn obeyed(alloc: Global, stream: &[u8], most: usize) -> io::Result<String> {
    let reader = Parts {
        rest: stream,
        most,
        is_interrupted: false,
    };
    let mut orders = LineOrders::new(alloc, reader);
    let mut text = String::new(alloc);
    for now in 1..=9u64 {
        for _order in 0..9u32 {
            match orders.next(alloc, now)? {
                Some(order) => writeln!(text, "{now} {order}")?,
                None => break,
            }
        }
    }
    Ok(text)
}

const ROWS: [(&[u8], &str); 8] = [
    (b"", ""),
    (
        b"power\n\n# one\n  state   LSC \nstop",
        "1 power\n1 state LSC\n",
    ),
    (
        b"at 3\nstart\n5 in service\n7 ok msu 85\nat 2\nquit\n",
        "3 start\n7 msu 85\n7 quit\n",
    ),
    (
        b"at\nat x\n4 ok\n4 refused X1 BadLine\n",
        "1 at\n1 at x\n1 4 ok\n",
    ),
    (b"\xff\nback\n", "1 \n1 back\n"),
    (
        b"=a  stop \n5 =a ok =b start\n5 =c refused K2 Waiting\n5 =d\n5 = ok stop\n6 =d ok leave 5\n",
        "1 =a stop\n5 =b start\n5 5 = ok stop\n6 leave 5\n",
    ),
    (
        b"1 table - 0\n1 reader away\n0 begins now\n9 late 120\n1 =12345678901234567890123456789012 ok a\n1 =123456789012345678901234567890123 ok b\n",
        "1 a\n1 1 =123456789012345678901234567890123 ok b\n",
    ),
    (
        b"99999999999999999999 ok stop\nfree\n",
        "1 99999999999999999999 ok stop\n1 free\n",
    ),
];

#[test]
fn orders_are_those_of_whole_lines(rt: HostRuntime) -> io::Result<()> {
    for (stream, wanted) in ROWS {
        for most in [1, 2, 7, 4096] {
            let told = obeyed(rt.alloc(), stream, most)?;
            assert_eq!(rt; told.as_str(), wanted, "{most}");
        }
    }
    Ok(())
}

/// The length of the output for a line of so many octets and a line after it.
fn long_line(alloc: Global, octets: usize, most: usize) -> io::Result<usize> {
    let mut stream = vec![in alloc; b'x'; octets]?;
    stream.extend_from_slice(b"\nfree\n")?;
    let told = obeyed(alloc, &stream, most)?;
    Ok(told.len())
}

#[test]
fn a_line_has_600_octets_at_most(rt: HostRuntime) -> io::Result<()> {
    let alloc = rt.alloc();
    for most in [1, 600, 4096] {
        assert_eq!(rt; long_line(alloc, 600, most)?, 2 + 600 + 1 + 7);
        assert_eq!(rt; long_line(alloc, 601, most)?, 2 + 1 + 7);
        assert_eq!(rt; long_line(alloc, 5000, most)?, 2 + 1 + 7);
    }
    Ok(())
}
