//! The newest line bits as a number.
ghost use Rattle.std.specs.Prelude.{◌≡◌, ◌≢◌, ◌≤◌, ◌<◌, ◌+◌, ◌*◌, ◌/◌, ◌%◌, ◌^◌, ℕ, true, IfSome, if◌then◌else◌};

/// Whether none of the newest eight of fifteen bits follows six 1s.
pub fn is_plain(window: u16) -> bool
    ensures { result ≡ true → (m : ℕ) → m < 8 → window / 2 ^ m % 128 ≢ 126 }
{
    let pairs = window & window >> 1;
    let sixes = pairs & pairs >> 2 & pairs >> 4;
    (sixes >> 1) % 256 == 0
}

/// Whether none of the newest forty of forty-seven bits follows six 1s.
pub fn is_long_plain(window: u64) -> bool
    ensures { result ≡ true → (m : ℕ) → m < 40 → window / 2 ^ m % 128 ≢ 126 }
{
    let pairs = window & window >> 1;
    let sixes = pairs & pairs >> 2 & pairs >> 4;
    (sixes >> 1) % (1 << 40) == 0
}

/// The place where the only flag of up to sixty-three bits begins, at most 55. `None` if other six 1s in a row are
/// among them.
pub fn flag_in(window: u64) -> Option<u8>
    ensures few { IfSome result (λ place. place ≤ 55) }
    ensures flag { IfSome result (λ place. window / 2 ^ place % 256 ≡ 126) }
    ensures alone { IfSome result (λ place. (m : ℕ) → m ≢ place → window / 2 ^ m % 128 ≢ 126) }
{
    let pairs = window & window >> 1;
    let sixes = pairs & pairs >> 2 & pairs >> 4;
    let ends = sixes >> 1;
    let place = ends.trailing_zeros() as u8;
    if place > 55 {
        return None;
    }
    if ends != 1 << place || (window >> place) % 256 != 126 {
        return None;
    }
    Some(place)
}

/// How many of up to eight bits, from the low one up, certainly don't follow six 1s. `recent` holds the seven bits
/// before them.
pub fn plain_count(recent: u8, bits: u8, len: u8) -> u8
    requires recent { recent < 128 }
    requires few { len ≤ 8 }
    ensures most { result ≤ len }
    ensures plain { (m : ℕ) → m < result → (recent + bits * 128) / 2 ^ m % 128 ≢ 126 }
{
    let window = u16::from(recent) + u16::from(bits) * 128;
    let pairs = window & window >> 1;
    let sixes = pairs & pairs >> 2 & pairs >> 4;
    let ends = sixes >> 1;
    let count = (ends.trailing_zeros() as u8).min(len);
    if ends % (1 << count) == 0 { count } else { 0 }
}

/// The newest seven bits after one more bit.
pub fn newer(recent: u8, bit: bool) -> u8
    requires { recent < 128 }
    ensures { result ≡ recent / 2 + 64 * (if bit then 1 else 0) }
{
    recent / 2 + 64 * bit as u8
}
