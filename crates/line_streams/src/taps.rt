//! Taps on a line: they pass on the octets read and written unchanged, and record the units seen.
ghost use Rattle.std.specs.Prelude.{◌≡◌, ◌-◌, ◌++◌, ◌∷◌, [], ℕ, List, Option, length, take, drop, IfOk, OnOk};
ghost use Rattle.std.specs.Io.{ReadsAtMost};
ghost use Rattle.std.specs.Io.KnownBytes.{Appends, ReadConsumes};
ghost use Rattle.std.specs.List.{flat_map};
ghost use Rattle.line_filter.specs.Filters.{turned};
ghost use Rattle.line_streams.specs.Capturing.{listed};
ghost use Rattle.line_streams.specs.Tapping.{HasTapped, IsTapped, Pushes};
ghost use Rattle.line_streams.specs.Records.{record_of};
ghost use Rattle.line_streams.specs.declared.seen.Seen.{Seen as OneSeen};

use crate::capture::Capture;
use crate::seen::{Seen, header, record};
use line_filter::Bits;
use rtrb::{Consumer, Producer, RingBuffer};
use std::alloc::Global;
use std::io::{self, ErrorKind, Read, Write};

/// The most octets that may be read before as many are written.
const ROOM: usize = 8192;

/// The tap on the octets read from a line.
#[derive(Drop)]
pub struct InTap<R> {
    reader: R,
    /// The octets read.
    octets: Producer<u8>,
}

/// The tap on the octets written to a line.
#[derive(Drop)]
pub struct OutTap<W, S> {
    writer: W,
    /// The octets read and not yet captured.
    octets: Consumer<u8>,
    /// Which bit of an octet is sent first on the line.
    bits: Bits,
    /// The number of octets still to be written before the first one captured.
    ahead: usize,
    /// The capture of the line.
    pub capture: Capture,
    /// The destination of records.
    pub sink: S,
    /// A failure: after it nothing is captured, and a write fails.
    pub trouble: Option<io::Error>,
}

/// The parameters of a tap.
#[derive(Clone, Copy)]
pub struct Plan {
    /// The number of its link.
    pub link: u16,
    /// Which bit of an octet is sent first on the line.
    pub bits: Bits,
    /// The number of octets written before any is received; these aren't captured.
    pub ahead: usize,
    /// Whether every unit is recorded; else repeats are omitted.
    pub every: bool,
}

/// Taps a line, given as a reader and a writer. Records go to a sink, to which `tap` writes pcap's header.
///
/// # Errors
///
/// If memory runs out, or the header can't be written.
pub fn tap<R: Drop, W: Drop, S: Write + Drop>(
    alloc: Global,
    reader: R,
    writer: W,
    sink: S,
    plan: Plan,
) -> io::Result<(InTap<R>, OutTap<W, S>)>
    ensures tapped { IfOk result (λ t. IsTapped plan reader writer t.0 t.1) }
    ensures first { IfOk result (λ t. HasTapped S.contents (S.contents sink) [] [] t.1) }
{
    let (producer, consumer) = RingBuffer::new(alloc, ROOM)?;
    let mut sink = sink;
    sink.write_all(header().as_slice())?;
    let input = InTap {
        reader,
        octets: producer,
    };
    let output = OutTap {
        writer,
        octets: consumer,
        bits: plan.bits,
        ahead: plan.ahead,
        capture: Capture::new(plan.link, plan.every),
        sink,
        trouble: None,
    };
    Ok((input, output))
}

impl<R: Read> InTap<R> {
    /// Reads octets, and keeps them for the capture if there is room for all of them; else it keeps none.
    fn take(&mut self, part: &mut [u8]) -> io::Result<usize>
        ensures bound { ReadsAtMost result part.new }
        ensures read { ReadConsumes (R.remaining self.old.reader) (R.remaining self.new.reader) result part.new }
        ensures kept { IfOk result (λ n. Pushes (take n part.new) self.old.octets self.new.octets) }
    {
        let count = self.reader.read(part)?;
        let _kept = self.octets.push_entire_slice(&part[..count]);
        Ok(count)
    }
}

impl<R: Read> Read for InTap<R> {
    ghost remaining = { λ t. R.remaining t.reader };

    fn read(&mut self, part: &mut [u8]) -> io::Result<usize> {
        self.take(part)
    }
}

/// An octet as it is on the line, with its first bit lowest.
fn turned(bits: Bits, octet: u8) -> u8
    ensures { result ≡ turned bits octet }
{
    match bits {
        Bits::Low => octet,
        Bits::High => octet.reverse_bits(),
    }
}

/// Writes the record of a unit, if there is one.
fn put<S: Write>(seen: &Option<Seen>, sink: &mut S) -> io::Result<()>
    ensures { OnOk result (Appends (S.contents sink.old) (S.contents sink.new) (flat_map record_of (listed seen.now))) }
{
    match seen {
        Some(seen) => sink.write_all(record(seen).as_slice()),
        None => Ok(()),
    }
}

impl<W, S: Write> OutTap<W, S> {
    /// Captures an octet that was written, paired with one that was read.
    fn capture_one(&mut self, octet: u8) -> io::Result<()>
        ensures tapped { OnOk result ((before : Option (List ℕ)) (gone : List ℕ) (seen : List OneSeen) → HasTapped S.contents before gone seen self.old
            → (more : List OneSeen) × HasTapped S.contents before (gone ++ octet ∷ []) more self.new) }
        ensures writer { self.new.writer ≡ self.old.writer }
        ensures ahead { self.new.ahead ≡ self.old.ahead }
    {
        let Ok(came) = self.octets.pop() else {
            return Err(io::Error::from(ErrorKind::Other));
        };
        let (gone, come) = (turned(self.bits, octet), turned(self.bits, came));
        let kept = self.capture.exchange(gone, come)?;
        put(&kept.went, &mut self.sink)?;
        put(&kept.came, &mut self.sink)
    }

    /// Captures octets that were written.
    fn capture_all(&mut self, octets: &[u8]) -> io::Result<()>
        ensures tapped { OnOk result ((before : Option (List ℕ)) (gone : List ℕ) (seen : List OneSeen) → HasTapped S.contents before gone seen self.old
            → (more : List OneSeen) × HasTapped S.contents before (gone ++ octets.now) more self.new) }
        ensures writer { self.new.writer ≡ self.old.writer }
        ensures ahead { self.new.ahead ≡ self.old.ahead }
    {
        for octet in octets {
            self.capture_one(*octet)?;
        }
        Ok(())
    }

    /// Captures octets that were written, after those that go ahead.
    fn note(&mut self, octets: &[u8]) -> io::Result<()>
        ensures tapped { OnOk result ((before : Option (List ℕ)) (gone : List ℕ) (seen : List OneSeen) → HasTapped S.contents before gone seen self.old
            → (more : List OneSeen) × HasTapped S.contents before (gone ++ drop self.old.ahead octets.now) more self.new) }
        ensures writer { self.new.writer ≡ self.old.writer }
        ensures ahead { self.new.ahead ≡ self.old.ahead - length octets.now }
    {
        if octets.len() <= self.ahead {
            self.ahead -= octets.len();
            return Ok(());
        }
        let skipped = self.ahead;
        self.ahead = 0;
        self.capture_all(&octets[skipped..])
    }
}

impl<W: Write, S: Write> Write for OutTap<W, S> {
    ghost contents = { λ t. W.contents t.writer };

    fn write(&mut self, octets: &[u8]) -> io::Result<usize> {
        if self.trouble.is_some() {
            return Err(io::Error::from(ErrorKind::Other));
        }
        let count = self.writer.write(octets)?;
        if let Err(error) = self.note(&octets[..count]) {
            self.trouble = Some(error);
        }
        Ok(count)
    }

    fn flush(&mut self) -> io::Result<()> {
        self.writer.flush()
    }
}
