//! The octets that a terminal sends.
ghost use Rattle.std.specs.Prelude.{◌≡◌, ◌+◌, ◌-◌, ◌^◌, ◌<◌, true, ◌++◌, ◌∷◌, [], replicate, IfOk, IfSome, IsNone};
ghost use Rattle.su_octets.specs.Bits.{low_bits};
ghost use Rattle.su_octets.specs.Whole.{IsWhole};
ghost use Rattle.line_filter.specs.Speaking.{IsSilent, Stuffs, Fills, Gives};

use crate::terminal::LineTerminal;
use arrayvec::ArrayVec;
use bit_line::Stuffer;
use std::io;
use std::marker::Model;
use su_octets::Unit;

/// The octets made from a terminal's units, one after another.
#[derive(Drop)]
pub struct Voice {
    sending: Stuffer,
    /// The complete octets of the last unit.
    ready: ArrayVec<u8, 352>,
    /// How many of them were sent.
    gone: usize,
}

impl Model for Voice {
    ghost use Rattle.std.specs.Prelude.{drop};
    ghost use Rattle.std.specs.Coded.{codes};
    ghost use Rattle.line_filter.specs.Speaking.{Voice as PlainVoice};
    ghost use Rattle.line_filter.specs.Inside.{IsVoice};

    ghost Value = { PlainVoice };

    ghost coded = { Prim.hlevel (codes) };

    ghost view = { λ v. record { sending = v.sending; ready = drop v.gone v.ready.items } };

    ghost invariant = { λ v. IsVoice v.sending };
}

/// The octet with these bits first, and then 1s.
fn filled(bits: u8, len: u8) -> u8
    requires few { len < 8 }
    requires fits { bits < 2 ^ len }
    ensures { low_bits 8 result ≡ low_bits len bits ++ replicate (8 - len) true }
{
    bits + (255 - ((1 << len) - 1))
}

impl Voice {
    /// A voice that has sent nothing.
    pub fn new() -> Self
        ensures { IsSilent result }
    {
        Voice {
            sending: Stuffer::new(),
            ready: ArrayVec::new(),
            gone: 0,
        }
    }

    /// The first octet of a unit, if no unit is being sent.
    pub fn begin(&mut self, unit: &Unit) -> u8
        requires { IsWhole unit.now }
        ensures { Stuffs self.old.sending unit.now (result ∷ self.new.ready) self.new.sending }
    {
        self.sending.put_to(unit, &mut self.ready);
        self.gone = 1;
        self.ready[0]
    }

    /// The octet that 1s complete, if no unit is being sent.
    pub fn fall_silent(&mut self) -> u8
        ensures fills { Fills self.old.sending result self.new.sending }
        ensures ready { self.new.ready ≡ self.old.ready }
    {
        let (bits, len) = self.sending.rest();
        self.sending = Stuffer::new();
        filled(bits, len)
    }

    /// The next octet of the unit being sent, or none.
    pub fn rest(&mut self) -> Option<u8>
        ensures some { IfSome result (λ octet. (self.old.ready ≡ octet ∷ self.new.ready) × (self.new.sending ≡ self.old.sending)) }
        ensures none { IsNone result → (self.old.ready ≡ []) × (self.new ≡ self.old) }
    {
        if self.gone < self.ready.len() {
            let octet = self.ready[self.gone];
            self.gone += 1;
            return Some(octet);
        }
        None
    }

    /// The next octet if no unit is being sent: asks the terminal for a unit.
    fn ask<T: LineTerminal>(&mut self, terminal: &mut T) -> io::Result<u8>
        requires { self.old.ready ≡ [] }
        ensures { IfOk result (λ octet. Gives T.acts terminal.old self.old octet terminal.new self.new) }
    {
        match terminal.unit_out()? {
            Some(unit) => Ok(self.begin(&unit)),
            None => Ok(self.fall_silent()),
        }
    }

    /// The next octet to send. It asks the terminal for a unit only if none is being sent.
    ///
    /// # Errors
    ///
    /// If the terminal can't return a unit: then no octet is sent.
    pub fn next<T: LineTerminal>(&mut self, terminal: &mut T) -> io::Result<u8>
        ensures { IfOk result (λ octet. Gives T.acts terminal.old self.old octet terminal.new self.new) }
    {
        match self.rest() {
            Some(octet) => Ok(octet),
            None => self.ask(terminal),
        }
    }
}
