//! The filter: reads octets of a line and writes those of a terminal.
ghost use Rattle.std.specs.Prelude.{◌≡◌, ◌≤◌, ℕ, ◌++◌, List, map, replicate, OnOk, IfOk};
ghost use Rattle.std.specs.Io.KnownBytes.{Appends};
ghost use Rattle.line_filter.specs.Desks.{state_of, Told};
ghost use Rattle.line_filter.specs.Filters.{turned, SILENCE, MOST_AHEAD, Goes, Serves, IsOver, WritesPart, ServesPart, IsBegun};

use crate::desk::Desk;
use crate::orders::Orders;
use crate::reports::Reports;
use crate::terminal::LineTerminal;
use crate::writing::write_part;
use std::alloc::Global;
use std::io::{self, ErrorKind, Read, Write};

/// The most octets per read of the line.
const PART: usize = 4096;

/// An octet of 1s: silence.
const SILENCE: u8 = 255;

/// The most octets of silence sent before any octet is received.
pub const MOST_AHEAD: usize = 8_000;

/// Which bit of an octet is sent first on the line.
#[derive(Clone, Copy, PartialEq, Eq, Debug)]
pub enum Bits {
    /// The lowest bit.
    Low,
    /// The highest bit, as on channels of interface cards.
    High,
}

impl Bits {
    /// Converts between an octet in a file and an octet with its first bit lowest; either way.
    fn turn(self, octet: u8) -> u8
        ensures { result ≡ turned self octet }
    {
        match self {
            Bits::Low => octet,
            Bits::High => octet.reverse_bits(),
        }
    }

    /// Converts octets in place, reversing their bits if their first bit is the highest.
    pub fn turn_all(self, octets: &mut [u8])
        ensures { octets.new ≡ map (turned self) octets.old }
    {
        for octet in octets.iter_mut() {
            *octet = self.turn(*octet);
        }
    }
}

impl<T: LineTerminal, O: Orders, P: Reports> Desk<T, O, P> {
    /// Receives octets and appends the octets sent to `out`. Returns whether the run goes on.
    fn pass(&mut self, alloc: Global, octets: &[u8], out: &mut Vec<u8>) -> io::Result<bool>
        ensures { IfOk result (λ goes_on. (given : List ℕ) × (out.new.items ≡ out.old.items ++ given)
            × Told (λ bytes. Goes T.acts self.old.count (state_of O.left self.old) octets.now given bytes goes_on self.new.count (state_of O.left self.new))
            (P.stand self.old.reports) (P.stand self.new.reports)) }
    {
        for octet in octets {
            let goes_on = self.step(alloc, *octet, out)?;
            if !goes_on {
                return Ok(false);
            }
        }
        Ok(true)
    }

    /// Receives octets and writes those sent in one call. Returns whether the run goes on.
    fn serve<W: Write>(
        &mut self,
        alloc: Global,
        bits: Bits,
        part: &mut [u8],
        out: &mut Vec<u8>,
        writer: &mut W,
    ) -> io::Result<bool>
        ensures all { IfOk result (λ goes_on. (written : List ℕ) × Appends (W.contents writer.old) (W.contents writer.new) written
            × Told (λ bytes. Serves T.acts bits self.old.count (state_of O.left self.old) part.old written bytes goes_on self.new.count
            (state_of O.left self.new)) (P.stand self.old.reports) (P.stand self.new.reports)) }
        ensures part { ServesPart T.acts bits 0 self.old.count (state_of O.left self.old) part.old (W.contents writer.old) (W.contents writer.new) }
    {
        bits.turn_all(part);
        out.clear();
        let goes_on = self.pass(alloc, part, out)?;
        bits.turn_all(out.as_mut_slice());
        write_part(writer, out.as_slice())?;
        Ok(goes_on)
    }
}

/// Writes `ahead` octets of silence.
fn write_ahead<W: Write>(writer: &mut W, ahead: usize) -> io::Result<()>
    requires { ahead ≤ MOST_AHEAD }
    ensures all { OnOk result (Appends (W.contents writer.old) (W.contents writer.new) (replicate ahead SILENCE)) }
    ensures part { WritesPart (W.contents writer.old) (W.contents writer.new) (replicate ahead SILENCE) }
{
    let silence = [SILENCE; MOST_AHEAD];
    write_part(writer, &silence[..ahead])
}

/// Runs a terminal on a line: writes `ahead` octets of silence, at most 8,000, then one octet for each octet read. It
/// stops at the end of the input or at an order that ends the run. The output doesn't depend on how reads cut the line.
///
/// # Errors
///
/// If memory, a read, a write or the terminal fails, or after 2^64 - 1 octets or reads. The octets written are then a
/// prefix of the output for octets that were read.
pub fn run_line<T: LineTerminal, O: Orders, P: Reports, R: Read, W: Write>(
    alloc: Global,
    desk: &mut Desk<T, O, P>,
    bits: Bits,
    ahead: usize,
    reader: &mut R,
    writer: &mut W,
) -> io::Result<()>
    requires { ahead ≤ MOST_AHEAD }
    ensures over { OnOk result (IsOver T.acts bits ahead desk.old.count (state_of O.left desk.old) desk.new.count (state_of O.left desk.new)
        (record { read = R.remaining reader.old; written = W.contents writer.old; told = P.stand desk.old.reports })
        (record { read = R.remaining reader.new; written = W.contents writer.new; told = P.stand desk.new.reports })) }
    ensures begun { IsBegun T.acts bits ahead desk.old.count (state_of O.left desk.old)
        (record { read = R.remaining reader.old; written = W.contents writer.old })
        (record { read = R.remaining reader.new; written = W.contents writer.new }) }
{
    write_ahead(writer, ahead)?;
    let mut part = [0; PART];
    let mut out = Vec::with_capacity(alloc, PART)?;
    for _read in 0..u64::MAX {
        match reader.read(&mut part) {
            Ok(0) => return Ok(()),
            Ok(count) => {
                let goes_on = desk.serve(alloc, bits, &mut part[..count], &mut out, writer)?;
                if !goes_on {
                    return Ok(());
                }
            }
            Err(error) => {
                if error.kind() != ErrorKind::Interrupted {
                    return Err(error);
                }
            }
        }
    }
    Err(io::Error::from(ErrorKind::Other))
}
