//! Units seen on a link, and their records.
ghost use Rattle.std.specs.Prelude.{◌≡◌, ◌≤◌, ◌+◌, ◌++◌};
ghost use Rattle.arrayvec.specs.ArrayVec.{array_vec_len};
ghost use Rattle.line_streams.specs.Records.{HEADER, four, record_of};

use arrayvec::ArrayVec;

/// A unit seen on a link.
#[derive(Debug, Drop, PartialEq, Eq)]
pub struct Seen {
    /// Whether it was sent; else it was received.
    pub went: bool,
    /// The number of its link.
    pub link: u16,
    /// The microsecond at which it ended.
    pub at: u64,
    /// Its octets, without check octets.
    pub octets: ArrayVec<u8, 278>,
}

/// The beginning of a capture: pcap's magic number, its version 2.4, the most octets of a record, and the link type
/// 139, MTP2 with a pseudo-header. Numbers have their lowest octet first.
pub fn header() -> [u8; 24]
    ensures { result ≡ HEADER }
{
    [
        0xD4, 0xC3, 0xB2, 0xA1, 2, 0, 4, 0, 0, 0, 0, 0, 0, 0, 0, 0, 255, 255, 0, 0, 139, 0, 0, 0,
    ]
}

/// Appends the four octets of a number, the lowest first.
fn push_four(number: u32, octets: &mut ArrayVec<u8, 298>)
    requires { array_vec_len octets.old + 4 ≤ 298 }
    ensures items { octets.new.items ≡ octets.old.items ++ four number }
    ensures len { array_vec_len octets.new ≡ array_vec_len octets.old + 4 }
{
    octets.push((number % 256) as u8);
    octets.push((number / 256 % 256) as u8);
    octets.push((number / 65_536 % 256) as u8);
    octets.push((number / 16_777_216 % 256) as u8);
}

/// The record of a unit: its seconds and microseconds, then twice the number of the octets that follow, and these
/// octets. They are the direction, a 0 (no numbers of annex A), the link's number, highest octet first, and the unit.
pub fn record(seen: &Seen) -> ArrayVec<u8, 298>
    ensures { result.items ≡ record_of seen.now }
{
    let length = seen.octets.len() as u32 + 4;
    let mut octets = ArrayVec::new();
    push_four((seen.at / 1_000_000 % 4_294_967_296) as u32, &mut octets);
    push_four((seen.at % 1_000_000) as u32, &mut octets);
    push_four(length, &mut octets);
    push_four(length, &mut octets);
    octets.push(if seen.went { 1 } else { 0 });
    octets.push(0);
    octets.push((seen.link / 256) as u8);
    octets.push((seen.link % 256) as u8);
    octets
        .try_extend_from_slice(seen.octets.as_slice())
        .unwrap();
    octets
}
