//! The unit that an octet of a line ends.
ghost use Rattle.std.specs.Prelude.{◌≡◌, ◌≤◌, ◌++◌, ◌∷◌, [], ℕ, List, length, option_map};
ghost use Rattle.su_octets.specs.Bits.{bits_of};
ghost use Rattle.bit_line.specs.Events.{closings};
ghost use Rattle.bit_line.specs.Deframing.{Stands};
ghost use Rattle.line_streams.specs.Capturing.{Ends, without_check, units_of, listed};

use arrayvec::ArrayVec;
use bit_line::{Deframer, LineEvent};

/// A unit without its check octets.
fn without_check(octets: &[u8]) -> ArrayVec<u8, 278>
    requires { length octets.now ≤ 278 }
    ensures { result.items ≡ without_check octets.now }
{
    let mut unit = ArrayVec::new();
    unit.try_extend_from_slice(&octets[..octets.len().saturating_sub(2)])
        .unwrap();
    unit
}

/// The unit among these events, if there is one.
fn unit_in(events: &[LineEvent]) -> Option<ArrayVec<u8, 278>>
    ensures { closings events.now ≤ 1 → units_of events.now ≡ listed (option_map (λ unit. unit.items) result) }
{
    for event in events {
        match event {
            LineEvent::Unit(octets) => return Some(without_check(octets.as_slice())),
            LineEvent::Errored => {}
            LineEvent::SixteenOctets => {}
        }
    }
    None
}

/// Takes an octet of a line. Returns the unit that it ends, without check octets, if it ends one.
pub fn ended(deframer: &mut Deframer, octet: u8) -> Option<ArrayVec<u8, 278>>
    ensures stands { (octets : List ℕ) → Stands (bits_of octets) deframer.old → Stands (bits_of (octets ++ octet ∷ [])) deframer.new }
    ensures unit { (octets : List ℕ) → Stands (bits_of octets) deframer.old → Ends octets octet (option_map (λ unit. unit.items) result) }
{
    let events = deframer.feed_byte(octet);
    unit_in(events.as_slice())
}
