//! Milliseconds.
ghost use Rattle.std.specs.Prelude.{◌≡◌, Some};
ghost use Rattle.std.specs.Char.{is_ascii_digit};
ghost use Rattle.std.specs.List.{list_all};
ghost use Rattle.script_lines.specs.Numbers.{is_digits};
ghost use Rattle.line_filter.specs.Says.{millisecond_of};

/// Whether all bytes are digits.
fn are_digits(bytes: &[u8]) -> bool
    ensures { result ≡ list_all is_ascii_digit bytes.now }
{
    bytes.iter().all(|byte| byte.is_ascii_digit())
}

/// Whether a word consists of digits, at least one.
fn is_digits(word: &[u8]) -> bool
    ensures { result ≡ is_digits word.now }
{
    !word.is_empty() && are_digits(word)
}

/// The millisecond that a word spells: digits without a sign, up to 2^64 - 1. Leading zeros are allowed.
pub fn millisecond(word: &str) -> Option<u64>
    ensures { result ≡ millisecond_of word.now }
{
    if !is_digits(word.as_bytes()) {
        return None;
    }
    match word.parse::<u64>() {
        Ok(number) => Some(number),
        Err(_) => None,
    }
}
