//! Messages of any length.
ghost use Rattle.std.specs.Prelude.{◌≡◌, ◌≤◌, length};

use arrayvec::ArrayVec;
use resend_store::Msu;

/// A message with a field of this many octets, 2 to 272: its number twice, followed by as much of the filler as needed.
pub fn message_of(number: u8, octets: u16, filler: &[u8; 270]) -> Msu
    ensures { 2 ≤ length result.sif.items }
{
    let mut sif = ArrayVec::new();
    sif.push(number);
    sif.push(number);
    let more = usize::from(octets).saturating_sub(2).min(270);
    sif.try_extend_from_slice(&filler[..more]).unwrap();
    Msu { sio: 0x83, sif }
}
