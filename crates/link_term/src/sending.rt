//! The line out: octets to send.
ghost use Rattle.std.specs.Prelude.{◌≡◌, ◌+◌, ◌≤◌, ◌∷◌, [], true, vec_len, vec_capacity, OnOk, OnErr, IfOk};
ghost use Rattle.su_octets.specs.Whole.{IsWhole};
ghost use Rattle.link_processes.specs.Machine.{is_low};
ghost use Rattle.link_term.specs.Kept.{Sends};
ghost use Rattle.link_term.specs.Speaking.{Speaks, Spoke, IsSpoken};

use crate::terminal::Terminal;
use bit_line::Stuffer;
use link_processes::unacknowledged_messages_stay;
use std::alloc::AllocError;
use su_octets::Unit;

/// Room for the line octets of a unit: at most 336, in a list that can hold 352.
const LONGEST: usize = 352;

/// Appends the line octets of a unit. There must be room.
fn put_unit(sending: &mut Stuffer, octets: &mut Vec<u8>, unit: &Unit)
    requires whole { IsWhole unit.now }
    requires room { vec_len octets.old + LONGEST ≤ vec_capacity octets.old }
    ensures speaks { Speaks sending.old octets.old.items (unit.now ∷ []) sending.new octets.new.items }
    ensures len { vec_len octets.new ≤ vec_len octets.old + LONGEST }
    ensures capacity { vec_capacity octets.old ≤ vec_capacity octets.new }
{
    let line = sending.put(unit);
    match octets.extend_from_slice(line.as_slice()) {
        Ok(()) => {}
        Err(_) => unreachable!(),
    }
}

impl Terminal {
    /// Appends the line octets of the next unit. There must be room.
    fn put_next(&mut self, octets: &mut Vec<u8>) -> Result<(), AllocError>
        requires { vec_len octets.old + LONGEST ≤ vec_capacity octets.old }
        ensures ok { OnOk result (Spoke self.old octets.old.items 1 self.new octets.new.items) }
        ensures err { OnErr result (self.new ≡ self.old) }
        ensures low { OnErr result (is_low self.old.processes ≡ true) }
        ensures same { OnErr result (octets.new.items ≡ octets.old.items) }
        ensures len { vec_len octets.new ≤ vec_len octets.old + LONGEST }
        ensures capacity { vec_capacity octets.old ≤ vec_capacity octets.new }
    {
        let unit = self.unit_out()?;
        match unit {
            Some(unit) => put_unit(&mut self.sending, octets, &unit),
            None => {}
        }
        Ok(())
    }

    /// The line octets of the next units, as many as requested, as `unit_out` returns them: stuffed, a flag after each
    /// and one before the very first. Up to 7 bits stay for the next call. None before the first Line signal.
    ///
    /// There are fewer if making room in the journal runs out of memory, which can happen at any unit after the first.
    ///
    /// # Errors
    ///
    /// If memory runs out for the octets, or for room in the journal at the first unit. Then nothing changes.
    pub fn line_out(&mut self, units: usize) -> Result<Vec<u8>, AllocError>
        ensures ok { IfOk result (λ octets. IsSpoken self.old units self.new octets.items) }
        ensures sends { Sends units self.old self.new }
        ensures err { OnErr result (self.new ≡ self.old) }
    {
        unacknowledged_messages_stay();
        let Some(room) = units.checked_mul(LONGEST) else {
            return Err(AllocError);
        };
        let mut octets = Vec::with_capacity(self.alloc, room)?;
        if units == 0 {
            return Ok(octets);
        }
        self.put_next(&mut octets)?;
        for _gone in 1..units {
            match self.put_next(&mut octets) {
                Ok(()) => {}
                Err(_) => return Ok(octets),
            }
        }
        Ok(octets)
    }
}
