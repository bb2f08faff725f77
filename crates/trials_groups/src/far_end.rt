//! The far end of one link: the units that it sends.

use crate::calls::{Stopped, take};
use bit_line::Stuffer;
use line_tending::Group;
use su_octets::{Head, Unit};

/// The bits that it puts on the line.
#[derive(Drop)]
pub struct FarEnd {
    stuffer: Stuffer,
}

/// A fill-in unit that acknowledges messages up to a number below 128.
pub fn fill_in(bsn: u8) -> Unit {
    Unit::Fisu(Head {
        bsn,
        bib: 1,
        fsn: 127,
        fib: 1,
    })
}

/// A link status signal unit.
pub fn status(status: u8) -> Unit {
    Unit::Lssu(
        Head {
            bsn: 127,
            bib: 1,
            fsn: 127,
            fib: 1,
        },
        status,
        None,
    )
}

impl FarEnd {
    pub fn new() -> FarEnd {
        FarEnd {
            stuffer: Stuffer::new(),
        }
    }

    /// Puts a unit on the line. The link is passed the octets that it doesn't take once more.
    fn put(&mut self, group: &mut Group, link: usize, unit: &Unit) -> Result<(), Stopped> {
        if !unit.whole() {
            return Ok(());
        }
        let octets = self.stuffer.put(unit);
        let taken = take(group, link, octets.as_slice());
        let rest = octets.as_slice().get(taken..).unwrap_or(&[]);
        if rest.is_empty() || take(group, link, rest) == rest.len() {
            Ok(())
        } else {
            Err(Stopped::NoMemory)
        }
    }

    /// Sends a unit twice, so that the first is whole on the line.
    pub fn say(&mut self, group: &mut Group, link: usize, unit: &Unit) -> Result<(), Stopped> {
        self.put(group, link, unit)?;
        self.put(group, link, unit)
    }
}
