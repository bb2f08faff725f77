//! Removal of inserted zeros from the first line bits of a content.
ghost use Rattle.std.specs.Prelude.{◌≡◌, ◌≤◌, ◌<◌, ◌+◌, ◌*◌, ◌/◌, ◌%◌, ◌^◌, ℕ, Bool, List, ◌++◌, reverse, IfSome};
ghost use Rattle.std.specs.Int.{bit_at};
ghost use Rattle.su_octets.specs.Bits.{low_bits};
ghost use Rattle.bit_line.specs.Stuffing.{trailing, taken_out};
ghost use Rattle.bit_line.specs.Deframing.{has_six};

/// Line bits without inserted zeros.
#[derive(Clone, Copy)]
pub struct Left {
    /// The bits, the first one lowest.
    pub bits: u64,
    /// The number of bits.
    pub len: u8,
}

/// Up to forty line bits without inserted zeros.
#[derive(Clone, Copy)]
pub struct Long {
    /// The bits, the first one lowest.
    pub bits: u64,
    /// The number of bits.
    pub len: u8,
    /// The number of 1s in a row at the end of the line bits.
    pub ones: u8,
}

/// The places where five 1s in a row begin, each as a 1.
fn fives_in(bits: u64) -> u64
    ensures { (j : ℕ) → ((s : ℕ) → s < 5 → bit_at bits (s + j) ≡ 1) → bit_at result j ≡ 1 }
{
    let pairs = bits & bits >> 1;
    pairs & pairs >> 2 & bits >> 4
}

/// The place where the first five 1s in a row begin, if a 0 is before them and a 0 after them.
fn first_in(fives: u64, bits: u64, len: u8) -> Option<u8>
    requires few { len ≤ 48 }
    requires fits { bits < 2 ^ 48 }
    ensures within { IfSome result (λ first. first + 6 ≤ len) }
    ensures first { IfSome result (λ first. fives % 2 ^ first ≡ 0) }
    ensures zeros { IfSome result (λ first. bits * 2 / 2 ^ first % 128 ≡ 62) }
{
    let first = fives.trailing_zeros() as u8;
    if first > 42 || first + 6 > len {
        return None;
    }
    if fives % (1 << first) != 0 || (bits * 2 >> first) % 128 != 62 {
        return None;
    }
    Some(first)
}

/// The number of 1s in a row at the end of the bits.
fn last_ones(bits: u64, len: u8) -> u8
    requires { len ≤ 40 }
    ensures { result ≡ trailing (reverse (low_bits len bits)) }
{
    for i in 0..len {
        if (bits >> (len - 1 - i)) % 2 == 0 {
            return i;
        }
    }
    len
}

/// Up to 48 line bits after a 0 or nothing, without inserted zeros. `None` if six 1s in a row or five last ones.
pub fn left_of(bits: u64, len: u8) -> Option<Left>
    requires few { len ≤ 48 }
    requires fits { bits < 2 ^ len }
    ensures bits { IfSome result (λ t. (h : List Bool) → 0 ≡ trailing h
        → taken_out (reverse (low_bits len bits) ++ h) ≡ reverse (low_bits t.len t.bits) ++ taken_out h) }
    ensures ones { IfSome result (λ t. trailing (reverse (low_bits len bits)) ≤ 4) }
    ensures six { IfSome result (λ t. (h : List Bool) → 0 ≡ trailing h → has_six (reverse (low_bits len bits) ++ h) ≡ has_six h) }
    ensures few { IfSome result (λ t. t.len ≤ len) }
    ensures fits { IfSome result (λ t. t.bits < 2 ^ t.len) }
{
    let mut rest = bits;
    let mut left = len;
    let mut taken = 0u64;
    let mut count = 0u8;
    let mut fives = fives_in(rest);
    while fives != 0 {
        let Some(first) = first_in(fives, rest, left) else {
            return None;
        };
        taken += (rest % (1 << (first + 5))) << count;
        count += first + 5;
        rest >>= first + 6;
        left -= first + 6;
        fives = fives_in(rest);
    }
    Some(Left {
        bits: taken + (rest << count),
        len: count + left,
    })
}

/// As `left_of`, for up to forty line bits, with the number of 1s in a row at their end.
pub fn taken_long(bits: u64, len: u8) -> Option<Long>
    requires few { len ≤ 40 }
    requires fits { bits < 2 ^ len }
    ensures bits { IfSome result (λ t. (h : List Bool) → 0 ≡ trailing h
        → taken_out (reverse (low_bits len bits) ++ h) ≡ reverse (low_bits t.len t.bits) ++ taken_out h) }
    ensures ones { IfSome result (λ t. (h : List Bool) → 0 ≡ trailing h → t.ones ≡ trailing (reverse (low_bits len bits) ++ h)) }
    ensures six { IfSome result (λ t. (h : List Bool) → 0 ≡ trailing h → has_six (reverse (low_bits len bits) ++ h) ≡ has_six h) }
    ensures no_six { IfSome result (λ t. t.ones ≤ 5) }
    ensures few { IfSome result (λ t. t.len ≤ 40) }
    ensures fits { IfSome result (λ t. t.bits < 2 ^ t.len) }
{
    let Some(left) = left_of(bits, len) else {
        return None;
    };
    Some(Long {
        bits: left.bits,
        len: left.len,
        ones: last_ones(bits, len),
    })
}
