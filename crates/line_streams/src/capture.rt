//! Captures of a line.
ghost use Rattle.std.specs.Prelude.{◌≡◌, ◌++◌, ◌∷◌, [], ℕ, List, IfOk, OnErr, option_map};
ghost use Rattle.line_streams.specs.Capturing.{Captures, IsUnit, listed};
ghost use Rattle.line_streams.specs.Repeats.{kept, StandsFor};
ghost use Rattle.line_streams.specs.declared.seen.Seen.{Seen as OneSeen};

use crate::closing::ended;
use crate::repeats::Repeats;
use crate::seen::Seen;
use arrayvec::ArrayVec;
use bit_line::Deframer;
use std::io::{self, ErrorKind};

/// Microseconds per octet on a line of 64 kbit/s.
const OCTET: u64 = 125;

/// The units recorded for an exchange of octets.
#[derive(Debug, Drop)]
pub struct Kept {
    /// The unit that ended with the octet sent.
    pub went: Option<Seen>,
    /// The unit that ended with the octet received.
    pub came: Option<Seen>,
}

/// A capture of a line of 64 kbit/s.
#[derive(Drop)]
pub struct Capture {
    link: u16,
    /// The microseconds passed.
    at: u64,
    gone: Deframer,
    come: Deframer,
    repeats: Repeats,
}

impl Capture {
    /// A capture of a link's line before its first octet. If `every`, all units are recorded; else repeats are omitted.
    pub fn new(link: u16, every: bool) -> Capture
        ensures link { result.link ≡ link }
        ensures every { result.repeats.every ≡ every }
        ensures first { Captures [] [] [] result }
    {
        Capture {
            link,
            at: 0,
            gone: Deframer::new(),
            come: Deframer::new(),
            repeats: Repeats::new(every),
        }
    }

    /// The microseconds passed.
    pub fn at(&self) -> u64
        ensures { result ≡ self.now.at }
    {
        self.at
    }

    /// Records a unit, if one ended and it isn't omitted. Returns the recorded unit.
    fn keep(&mut self, went: bool, unit: Option<ArrayVec<u8, 278>>) -> Option<Seen>
        ensures kept { (seen : List OneSeen) → StandsFor self.old.link (kept self.old.repeats.every seen) self.old.repeats → (more : List OneSeen)
            × IsUnit went self.old.link self.old.at (option_map (λ unit. unit.items) unit) seen more
            × StandsFor self.old.link (kept self.old.repeats.every more) self.new.repeats
            × (kept self.old.repeats.every more ≡ listed result ++ kept self.old.repeats.every seen) }
        ensures every { self.new.repeats.every ≡ self.old.repeats.every }
        ensures same { self.new ≡ record self.old { repeats = self.new.repeats } }
    {
        let octets = unit?;
        let seen = Seen {
            went,
            link: self.link,
            at: self.at,
            octets,
        };
        if self.repeats.keeps(&seen) {
            Some(seen)
        } else {
            None
        }
    }

    /// Captures one octet sent and one received, with the first bit of each lowest. Returns the recorded units.
    ///
    /// # Errors
    ///
    /// If 2^64 microseconds have passed.
    pub fn exchange(&mut self, gone: u8, come: u8) -> io::Result<Kept>
        ensures kept { IfOk result (λ k. (before after : List ℕ) (seen : List OneSeen) → Captures before after seen self.old → (more : List OneSeen)
            × Captures (before ++ gone ∷ []) (after ++ come ∷ []) more self.new
            × (kept self.old.repeats.every more ≡ listed k.came ++ (listed k.went ++ kept self.old.repeats.every seen))) }
        ensures every { self.new.repeats.every ≡ self.old.repeats.every }
        ensures err { OnErr result (self.new ≡ self.old) }
    {
        let Some(at) = self.at.checked_add(OCTET) else {
            return Err(io::Error::from(ErrorKind::Other));
        };
        let sent = ended(&mut self.gone, gone);
        let heard = ended(&mut self.come, come);
        self.at = at;
        let went = self.keep(true, sent);
        let came = self.keep(false, heard);
        Ok(Kept { went, came })
    }
}
