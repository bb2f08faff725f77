//! The number of bits of octets on a line.
ghost use Rattle.std.specs.Prelude.{◌≡◌, ◌+◌, ◌≤◌, ◌<◌, ◌^◌, ℕ, Bool, List, ◌∷◌, ◌++◌, reverse, length};
ghost use Rattle.su_octets.specs.Bits.{low_bits, bits_of};
ghost use Rattle.bit_line.specs.Stuffing.{stuffing_of};
ghost use Rattle.mtp2_frame.specs.LineBits.{Counts};

/// The line bits counted so far.
#[derive(Clone, Copy)]
struct LineBits {
    count: usize,
    /// The number of consecutive 1s at the end.
    ones: u8,
}

/// Adds one bit of a signal unit, and an inserted 0 if it is the fifth consecutive 1.
fn with_bit(line: LineBits, bit: bool) -> LineBits
    requires count { line.count < 2 ^ 62 }
    requires ones { line.ones < 5 }
    ensures counts { (sent : List Bool) → Counts sent line → Counts (bit ∷ sent) result }
    ensures count { result.count ≤ line.count + 2 }
    ensures ones { result.ones < 5 }
{
    if !bit {
        return LineBits {
            count: line.count + 1,
            ones: 0,
        };
    }
    if line.ones == 4 {
        return LineBits {
            count: line.count + 2,
            ones: 0,
        };
    }
    LineBits {
        count: line.count + 1,
        ones: line.ones + 1,
    }
}

/// Adds one octet, its least significant bit first.
fn with_octet(line: LineBits, octet: u8) -> LineBits
    requires count { line.count < 2 ^ 61 }
    requires ones { line.ones < 5 }
    ensures counts { (sent : List Bool) → Counts sent line → Counts (reverse (low_bits 8 octet) ++ sent) result }
    ensures count { result.count ≤ line.count + 16 }
    ensures ones { result.ones < 5 }
{
    let mut counted = line;
    for place in 0..8u8 {
        counted = with_bit(counted, octet >> place & 1 == 1);
    }
    counted
}

/// Returns the number of bits of the octets on the line, between the flags: a 0 is inserted after five 1s (Q.703, 3.2).
pub fn line_bits(octets: &[u8]) -> usize
    requires { length octets.now < 2 ^ 32 }
    ensures { result ≡ length (stuffing_of (bits_of octets.now)) }
{
    let mut line = LineBits { count: 0, ones: 0 };
    for octet in octets {
        line = with_octet(line, *octet);
    }
    line.count
}
