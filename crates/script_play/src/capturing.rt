//! The capture of a link, unit by unit.
ghost use Rattle.std.specs.Prelude.{◌≡◌, ◌*◌, ◌∷◌, ◌++◌, [], ℕ, Bool, false, List, Option, Some, OnOk, IfOk};
ghost use Rattle.std.specs.Io.KnownBytes.{Appends};
ghost use Rattle.su_octets.specs.Frame.{Frame, SpareBitsAreZero};
ghost use Rattle.line_streams.specs.Capturing.{IsUnit, without_check};
ghost use Rattle.line_streams.specs.Records.{HEADER};
ghost use Rattle.line_streams.specs.declared.seen.Seen.{Seen as OneSeen};
ghost use Rattle.script_play.specs.Captured.{TICK, repeated, Hears, IsGone, IsHeard, IsCapturing};

use arrayvec::ArrayVec;
use bit_line::Deframer;
use line_streams::{Repeats, Seen, ended, header, record};
use std::alloc::AllocError;
use std::io::{self, ErrorKind, Write};
use su_octets::{Unit, encode};

/// The number of microseconds in a tick.
const TICK: u64 = 1_000;

/// A link of a capture: its receiving state, and the signal units recorded last.
#[derive(Drop)]
pub(crate) struct LinkSeen {
    heard: Deframer,
    repeats: Repeats,
}

/// The error for a signal unit that can't be recorded.
pub(crate) fn lost() -> io::Error {
    io::Error::from(ErrorKind::Other)
}

/// Returns the time of a tick in microseconds; an error if it is 2^64 or more.
pub(crate) fn time_of(clock: u64) -> io::Result<u64>
    ensures { IfOk result (λ at. at ≡ TICK * clock) }
{
    match clock.checked_mul(TICK) {
        Some(at) => Ok(at),
        None => Err(lost()),
    }
}

/// Writes the header of a capture.
pub(crate) fn begin<T: Write>(out: &mut T) -> io::Result<()>
    ensures { OnOk result (Appends (T.contents out.old) (T.contents out.new) HEADER) }
{
    out.write_all(&header())?;
    Ok(())
}

impl LinkSeen {
    /// Returns a link of which no signal unit was seen. `every`: whether every unit is recorded.
    pub(crate) fn new(every: bool) -> LinkSeen
        ensures { (link : ℕ) → IsHeard link every [] [] result }
    {
        LinkSeen {
            heard: Deframer::new(),
            repeats: Repeats::new(every),
        }
    }

    /// Records a signal unit, unless it is a repeated one.
    fn see<T: Write>(&mut self, seen: &Seen, out: &mut T) -> io::Result<()>
        ensures { OnOk result ((every : Bool) (came : List ℕ) (ss : List OneSeen) (begun : Option (List ℕ))
            → IsCapturing seen.now.link every came ss begun (T.contents out.old) self.old
            → IsCapturing seen.now.link every came (seen.now ∷ ss) begun (T.contents out.new) self.new) }
    {
        if !self.repeats.keeps(seen) {
            return Ok(());
        }
        out.write_all(record(seen).as_slice())?;
        Ok(())
    }

    /// Records a signal unit that ends with the octet just received, unless it is a repeated one.
    fn see_unit<T: Write>(
        &mut self,
        link: u16,
        at: u64,
        octets: ArrayVec<u8, 278>,
        out: &mut T,
    ) -> io::Result<()>
        ensures { OnOk result ((every : Bool) (came : List ℕ) (ss : List OneSeen) (begun : Option (List ℕ))
            → IsCapturing link every came ss begun (T.contents out.old) self.old
            → (last : List OneSeen) × IsUnit false link at (Some octets.items) ss last
            × IsCapturing link every came last begun (T.contents out.new) self.new) }
    {
        let seen = Seen {
            went: false,
            link,
            at,
            octets,
        };
        self.see(&seen, out)?;
        Ok(())
    }

    /// Receives an octet of the line.
    fn hear_one<T: Write>(&mut self, link: u16, at: u64, octet: u8, out: &mut T) -> io::Result<()>
        ensures { OnOk result ((every : Bool) (came : List ℕ) (ss : List OneSeen) (begun : Option (List ℕ))
            → IsCapturing link every came ss begun (T.contents out.old) self.old
            → (last : List OneSeen) × Hears link at came (octet ∷ []) ss last
            × IsCapturing link every (came ++ octet ∷ []) last begun (T.contents out.new) self.new) }
    {
        match ended(&mut self.heard, octet) {
            Some(unit) => {
                self.see_unit(link, at, unit, out)?;
                Ok(())
            }
            None => Ok(()),
        }
    }

    /// Receives octets of the line.
    pub(crate) fn hear<T: Write>(
        &mut self,
        link: u16,
        at: u64,
        octets: &[u8],
        out: &mut T,
    ) -> io::Result<()>
        ensures { OnOk result ((every : Bool) (came : List ℕ) (ss : List OneSeen) (begun : Option (List ℕ))
            → IsCapturing link every came ss begun (T.contents out.old) self.old
            → (last : List OneSeen) × Hears link at came octets.now ss last
            × IsCapturing link every (came ++ octets.now) last begun (T.contents out.new) self.new) }
    {
        for octet in octets {
            self.hear_one(link, at, *octet, out)?;
        }
        Ok(())
    }

    /// Receives these octets this many times.
    pub(crate) fn hear_times<T: Write>(
        &mut self,
        link: u16,
        at: u64,
        octets: &[u8],
        times: u32,
        out: &mut T,
    ) -> io::Result<()>
        ensures { OnOk result ((every : Bool) (came : List ℕ) (ss : List OneSeen) (begun : Option (List ℕ))
            → IsCapturing link every came ss begun (T.contents out.old) self.old
            → (last : List OneSeen) × Hears link at came (repeated times octets.now) ss last
            × IsCapturing link every (came ++ repeated times octets.now) last begun (T.contents out.new) self.new) }
    {
        for _time in 0..times {
            self.hear(link, at, octets, out)?;
        }
        Ok(())
    }

    /// Records a signal unit that is sent.
    pub(crate) fn send<T: Write>(
        &mut self,
        link: u16,
        at: u64,
        unit: &Unit,
        out: &mut T,
    ) -> io::Result<()>
        ensures { OnOk result ((every : Bool) (came : List ℕ) (ss : List OneSeen) (begun : Option (List ℕ))
            → IsCapturing link every came ss begun (T.contents out.old) self.old
            → (last : List OneSeen) × IsGone link at unit.now ss last
            × IsCapturing link every came last begun (T.contents out.new) self.new) }
    {
        let octets = octets_of(unit)?;
        let seen = Seen {
            went: true,
            link,
            at,
            octets,
        };
        self.see(&seen, out)?;
        Ok(())
    }
}

/// The octets of a signal unit without its check octets. An incomplete unit would be an error, but none gets here.
fn octets_of(unit: &Unit) -> Result<ArrayVec<u8, 278>, AllocError>
    ensures { IfOk result (λ v. (frame : List ℕ) × Frame frame unit.now × SpareBitsAreZero frame × (v.items ≡ without_check frame)) }
{
    if !unit.whole() {
        return Err(AllocError);
    }
    let mut framed: ArrayVec<u8, 278> = ArrayVec::new();
    encode(unit, &mut framed);
    let mut octets = ArrayVec::new();
    let length = framed.len().saturating_sub(2);
    match octets.try_extend_from_slice(&framed.as_slice()[..length]) {
        Ok(()) => Ok(octets),
        Err(_) => Err(AllocError),
    }
}
