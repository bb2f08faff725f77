//! Removal of inserted zeros from up to eight line bits.
ghost use Rattle.std.specs.Prelude.{◌≡◌, ◌≤◌, ◌<◌, ◌^◌, Bool, List, ◌++◌, reverse, IfSome};
ghost use Rattle.su_octets.specs.Bits.{low_bits};
ghost use Rattle.bit_line.specs.Stuffing.{trailing, taken_out};
ghost use Rattle.bit_line.specs.Deframing.{has_six};

/// Up to eight line bits without inserted zeros.
#[derive(Clone, Copy)]
pub struct Taken {
    /// The bits, the first one lowest.
    pub bits: u8,
    /// The number of bits.
    pub len: u8,
    /// The number of 1s in a row at the end of the line bits, including 1s before them.
    pub ones: u8,
}

/// Up to eight line bits without inserted zeros, after `ones` 1s in a row. `None` if six 1s in a row or more than one
/// inserted zero are among them.
pub fn taken_from(bits: u8, len: u8, ones: u8) -> Option<Taken>
    requires few { len ≤ 8 }
    requires fits { bits < 2 ^ len }
    requires no_six { ones ≤ 5 }
    ensures bits { IfSome result (λ t. (h : List Bool) → ones ≡ trailing h
        → taken_out (reverse (low_bits len bits) ++ h) ≡ reverse (low_bits t.len t.bits) ++ taken_out h) }
    ensures ones { IfSome result (λ t. (h : List Bool) → ones ≡ trailing h → t.ones ≡ trailing (reverse (low_bits len bits) ++ h)) }
    ensures six { IfSome result (λ t. (h : List Bool) → ones ≡ trailing h → has_six (reverse (low_bits len bits) ++ h) ≡ has_six h) }
    ensures no_six { IfSome result (λ t. t.ones ≤ 5) }
    ensures few { IfSome result (λ t. t.len ≤ 8) }
    ensures fits { IfSome result (λ t. t.bits < 2 ^ t.len) }
{
    let window = ((u16::from(bits) + 1) << ones) - 1;
    let pairs = window & window >> 1;
    let fives = pairs & pairs >> 2 & window >> 4;
    let after = (window << (15 - len - ones) << 1).leading_ones() as u8;
    if fives == 0 {
        return Some(Taken {
            bits,
            len,
            ones: after,
        });
    }
    let first = fives.trailing_zeros() as u8;
    if fives >> first != 1 {
        return None;
    }
    let cut = first + 5 - ones;
    if cut == len {
        return Some(Taken {
            bits,
            len,
            ones: after,
        });
    }
    let below = bits % (1 << cut);
    Some(Taken {
        bits: (bits - below) / 2 + below,
        len: len - 1,
        ones: after,
    })
}

/// The number of 1s in a row at the end of eight line bits that follow `ones` 1s. `None` if five 1s in a row are among
/// all these. Otherwise no bit is an inserted zero.
pub fn ones_after(octet: u8, ones: u8) -> Option<u8>
    requires no_six { ones ≤ 5 }
    ensures bits { IfSome result (λ n. (h : List Bool) → ones ≡ trailing h
        → taken_out (reverse (low_bits 8 octet) ++ h) ≡ reverse (low_bits 8 octet) ++ taken_out h) }
    ensures ones { IfSome result (λ n. (h : List Bool) → ones ≡ trailing h → n ≡ trailing (reverse (low_bits 8 octet) ++ h)) }
    ensures six { IfSome result (λ n. (h : List Bool) → ones ≡ trailing h → has_six (reverse (low_bits 8 octet) ++ h) ≡ has_six h) }
    ensures no_six { IfSome result (λ n. n ≤ 5) }
{
    let window = ((u16::from(octet) + 1) << ones) - 1;
    let pairs = window & window >> 1;
    let fives = pairs & pairs >> 2 & window >> 4;
    if fives == 0 {
        Some(octet.leading_ones() as u8)
    } else {
        None
    }
}
