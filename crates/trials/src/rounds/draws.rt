//! Random units.
ghost use Rattle.std.specs.Prelude.{◌<◌};

use arrayvec::ArrayVec;
use std::alloc::{AllocError, Global};
use su_octets::{Head, Unit};

/// The number of units in a round.
const UNITS: u32 = 2000;

/// Pseudo-random numbers, the same in each run.
#[derive(Clone, Copy)]
pub struct Draws {
    state: u32,
}

impl Draws {
    /// The generator at its start.
    pub fn new() -> Draws {
        Draws {
            state: 2_463_534_242,
        }
    }

    /// The next octet.
    fn octet(&mut self) -> u8 {
        self.step();
        (self.state % 256) as u8
    }

    /// The length of the next signalling information field.
    fn length(&mut self) -> u32
        ensures { result < 273 }
    {
        self.step();
        2 + self.state % 271
    }

    fn step(&mut self) {
        self.state ^= self.state.wrapping_mul(1 << 13);
        self.state ^= self.state / (1 << 17);
        self.state ^= self.state.wrapping_mul(1 << 5);
    }
}

/// The next random head.
fn head(draws: &mut Draws) -> Head {
    let first = draws.octet();
    let second = draws.octet();
    Head {
        bsn: first % 128,
        bib: first / 128,
        fsn: second % 128,
        fib: second / 128,
    }
}

/// The next random message.
fn message(draws: &mut Draws) -> Unit {
    let length = draws.length();
    let head = head(draws);
    let sio = draws.octet();
    let mut sif = ArrayVec::new();
    for _ in 0..length {
        let octet = draws.octet();
        if !sif.is_full() {
            sif.push(octet);
        }
    }
    Unit::Msu(head, sio, sif)
}

/// The next random fill-in unit.
fn fill_in(draws: &mut Draws) -> Unit {
    Unit::Fisu(head(draws))
}

/// The kind of units of a line.
#[derive(Clone, Copy)]
pub enum Kind {
    Messages,
    FillIns,
}

/// The next random unit.
fn unit(kind: Kind, draws: &mut Draws) -> Unit {
    match kind {
        Kind::Messages => message(draws),
        Kind::FillIns => fill_in(draws),
    }
}

/// The units of a round.
pub fn units(alloc: Global, kind: Kind, draws: &mut Draws) -> Result<Vec<Unit>, AllocError> {
    let mut units = Vec::with_capacity(alloc, UNITS as usize)?;
    for _ in 0..UNITS {
        units.push(unit(kind, draws))?;
    }
    Ok(units)
}
