//! The first octets after a flag.
ghost use Rattle.std.specs.Prelude.{◌≡◌, ◌≤◌, ◌<◌, ◌^◌, Bool, true, List, ◌++◌, None, reverse, length, take};
ghost use Rattle.su_octets.specs.Bits.{low_bits, bits_of};
ghost use Rattle.bit_line.specs.declared.events.LineEvent.{LineEvent};

use crate::receiver::Receiver;
use crate::window::is_long_plain;

/// The bits of the first five octets, the first one lowest.
pub fn word_of(octets: &[u8]) -> u64
    requires { 5 ≤ length octets.now }
    ensures bits { low_bits 40 result ≡ bits_of (take 5 octets.now) }
    ensures fits { result < 2 ^ 40 }
{
    let high = u64::from(octets[3]) + u64::from(octets[4]) * 256;
    let middle = u64::from(octets[1]) + (u64::from(octets[2]) + high * 256) * 256;
    u64::from(octets[0]) + middle * 256
}

impl Receiver {
    ghost use Rattle.bit_line.specs.Deframing.{StandsAt};

    /// Whether the mode is normal and fewer than seven bits follow the last flag so far.
    fn is_waiting(&self) -> bool
        ensures normal { result ≡ true → self.now.counter.count ≡ None }
        ensures seen { result ≡ true → self.now.gate.seen ≡ true }
        ensures waits { result ≡ true → self.now.gate.wait ≡ 0 → ⊥ }
    {
        if !self.counter.is_normal() || !self.gate.seen {
            return false;
        }
        self.gate.wait != 0
    }

    /// Takes the first five octets at once if fewer than seven bits follow the last flag so far and no bit of the
    /// octets follows six 1s. Returns how many octets it took, 5 or 0. They report nothing.
    pub(crate) fn take_front(&mut self, octets: &[u8]) -> usize
        ensures most { result ≤ length octets.now }
        ensures stands { (h : List Bool) (events : List LineEvent) → StandsAt h events self.old
            → StandsAt (reverse (bits_of (take result octets.now)) ++ h) events self.new }
    {
        if octets.len() < 5 || !self.is_waiting() {
            return 0;
        }
        let window = u64::from(self.recent) + word_of(octets) * 128;
        if !is_long_plain(window) {
            return 0;
        }
        self.gate.pass_forty(window % (1 << 40));
        self.recent = (window / (1 << 40)) as u8;
        5
    }
}
