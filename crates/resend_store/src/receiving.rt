//! The receiving side.
ghost use Rattle.std.specs.Prelude.{◌≡◌, ◌<◌};
ghost use Rattle.resend_store.specs.Intake.{first_intake, hear, hear_aside, hear_unlike};

use crate::messages::{Mode, Verdict};
use crate::refusals::UnitError;
use std::marker::Model;

/// The message of the far side accepted last, and the backward number and bit to send (Q.703, sections 5 and 6).
#[derive(Clone, Debug, Drop)]
pub struct Receiver {
    mode: Mode,
    last: u8,
    bib: u8,
    nack_out: bool,
}

impl Model for Receiver {
    ghost use Rattle.resend_store.specs.Intake.{Intake, IsIntake};

    ghost Value = { Intake };

    ghost view = { λ r. record { mode = r.mode; last = r.last; bib = r.bib; nack_out = r.nack_out } };

    ghost invariant = { λ r. IsIntake (record { mode = r.mode; last = r.last; bib = r.bib; nack_out = r.nack_out }) };
}

impl Receiver {
    /// A receiver that has accepted nothing: it sends the number 127 and the bit 1.
    pub fn new(mode: Mode) -> Receiver
        ensures { result ≡ first_intake mode }
    {
        Receiver {
            mode,
            last: 127,
            bib: 1,
            nack_out: false,
        }
    }

    /// Starts over, as when the link is aligned again.
    pub fn fresh(&mut self)
        ensures { self.new ≡ first_intake self.old.mode }
    {
        self.last = 127;
        self.bib = 1;
        self.nack_out = false;
    }

    /// The backward sequence number to send, 0 to 127: that of the message accepted last.
    pub fn bsn(&self) -> u8
        ensures value { result ≡ self.now.last }
        ensures within { result < 128 }
    {
        self.last
    }

    /// The backward indicator bit to send, 0 or 1.
    pub fn bib(&self) -> u8
        ensures value { result ≡ self.now.bib }
        ensures within { result < 2 }
    {
        self.bib
    }

    /// Takes the forward number, 0 to 127, and bit, 0 or 1, of a unit without errors, and whether it carries a message
    /// (Q.703, sections 5 and 6).
    ///
    /// The next message in turn is accepted. A unit that shows a lost message is refused by inverting the bit to send;
    /// from then on units are discarded until the far side's bit agrees. With cyclic retransmission bits are ignored,
    /// and all except the next message are discarded.
    ///
    /// `BadIndicator` if the bit changed although no negative acknowledgement is outstanding. Then nothing changes.
    pub fn on_unit(&mut self, fsn: u8, fib: u8, has_msu: bool) -> Result<Verdict, UnitError>
        ensures verdict { result ≡ (hear self.old fsn fib has_msu).verdict }
        ensures known { self.new ≡ (hear self.old fsn fib has_msu).known }
    {
        if self.mode == Mode::Basic {
            if fib != self.bib {
                return self.unlike();
            }
            self.nack_out = false;
        }
        if has_msu && fsn == (self.last + 1) % 128 {
            self.last = fsn;
            return Ok(Verdict::Accept);
        }
        if self.mode == Mode::Cyclic || fsn == self.last {
            return Ok(Verdict::Discard);
        }
        self.bib = 1 - self.bib;
        self.nack_out = true;
        Ok(Verdict::Nack)
    }

    /// Judges a unit by its forward bit, 0 or 1, while no message may be accepted. A message is discarded, and nothing
    /// changes, whatever the unit carries.
    ///
    /// `BadIndicator` as in `on_unit`.
    pub fn set_aside(&self, fib: u8) -> Result<Verdict, UnitError>
        ensures { result ≡ (hear_aside self.now.mode self.now fib).verdict }
    {
        if self.mode == Mode::Basic && fib != self.bib {
            return self.unlike();
        }
        Ok(Verdict::Discard)
    }

    /// The result of a unit whose forward bit differs from the backward bit to send.
    fn unlike(&self) -> Result<Verdict, UnitError>
        ensures { result ≡ (hear_unlike self.now).verdict }
    {
        if self.nack_out {
            Ok(Verdict::Discard)
        } else {
            Err(UnitError::BadIndicator)
        }
    }
}
