//! Numbers as octets.
ghost use Rattle.std.specs.Prelude.{◌≡◌, ◌≤◌, ◌<◌, ◌+◌, ◌^◌, ◌++◌, IfSome, length, replicate};
ghost use Rattle.std.specs.Option.{option_map};
ghost use Rattle.arrayvec.specs.ArrayVec.{array_vec_len};
ghost use Rattle.m3ua_frames.specs.Numbers.{number_2, number_4, octets_2, octets_4, numbers_in, numbers_from};

use arrayvec::ArrayVec;

/// The number in the two octets from `at` on, the highest octet first.
pub(crate) fn number_2(octets: &[u8], at: usize) -> u16
    requires { at + 2 ≤ length octets.now }
    ensures { result ≡ number_2 octets.now at }
{
    octets[at] as u16 * 256 + octets[at + 1] as u16
}

/// The number in the four octets from `at` on, the highest octet first (RFC 4666, 3).
pub fn number_4(octets: &[u8], at: usize) -> u32
    requires { at + 4 ≤ length octets.now }
    ensures { result ≡ number_4 octets.now at }
{
    let [a, b, c, d] = [octets[at], octets[at + 1], octets[at + 2], octets[at + 3]];
    a as u32 * 0x0100_0000 + b as u32 * 0x0001_0000 + c as u32 * 0x0100 + d as u32
}

/// The number in the first four octets, and the octets after them; `None` if there are fewer than four.
pub fn next_number(octets: &[u8]) -> Option<(u32, &[u8])>
    ensures value { numbers_in octets.now ≡ numbers_from (option_map (λ x. (x.0, x.1.now)) result) }
    ensures rest { IfSome result (λ x. length x.1.now + 4 ≡ length octets.now) }
{
    if octets.len() < 4 {
        return None;
    }
    let (number, rest) = octets.split_at(4);
    Some((number_4(number, 0), rest))
}

/// Appends a number as two octets.
pub(crate) fn push_2<const N: usize>(octets: &mut ArrayVec<u8, N>, number: u16)
    requires { array_vec_len octets.old + 2 ≤ N }
    ensures { octets.new.items ≡ octets.old.items ++ octets_2 number }
{
    octets.push((number / 0x0100) as u8);
    octets.push((number % 0x0100) as u8);
}

/// Appends a number as four octets.
pub fn push_4<const N: usize>(octets: &mut ArrayVec<u8, N>, number: u32)
    requires { array_vec_len octets.old + 4 ≤ N }
    ensures { octets.new.items ≡ octets.old.items ++ octets_4 number }
{
    octets.push((number / 0x0100_0000) as u8);
    octets.push((number / 0x0001_0000 % 0x0100) as u8);
    octets.push((number / 0x0100 % 0x0100) as u8);
    octets.push((number % 0x0100) as u8);
}

/// Appends `count` zeros.
pub(crate) fn push_zeros<const N: usize>(octets: &mut ArrayVec<u8, N>, count: usize)
    requires { array_vec_len octets.old + count ≤ N }
    ensures { octets.new.items ≡ octets.old.items ++ replicate count 0 }
{
    for _ in 0..count {
        octets.push(0);
    }
}
