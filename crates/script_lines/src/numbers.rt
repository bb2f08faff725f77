//! Words that are numbers or truth values.
ghost use Rattle.std.specs.Prelude.{◌≡◌, ◌≤◌, IfSome, pos, neg_ℤ, option_map};
ghost use Rattle.std.specs.Char.{is_ascii_digit};
ghost use Rattle.std.specs.List.{list_all};
ghost use Rattle.turn_code.specs.declared.value.Value.TheVariants.{Int};
ghost use Rattle.script_lines.specs.Numbers.{is_digits, number_up_to, negative, positive, count_of, integer_of, value_of};

use turn_code::Value;

/// The greatest count.
const MOST: u32 = 2_147_483_647;

/// Whether all bytes are digits.
fn are_digits(bytes: &[u8]) -> bool
    ensures { result ≡ list_all is_ascii_digit bytes.now }
{
    bytes.iter().all(|byte| byte.is_ascii_digit())
}

/// Whether a word consists of digits, at least one.
fn is_digits(word: &[u8]) -> bool
    ensures { result ≡ is_digits word.now }
{
    !word.is_empty() && are_digits(word)
}

/// The number that a word of digits spells, if it is at most `most`.
fn number_up_to(word: &str, most: u32) -> Option<u32>
    ensures value { result ≡ number_up_to most word.now }
    ensures most { IfSome result (λ n. n ≤ most) }
{
    if !is_digits(word.as_bytes()) {
        return None;
    }
    match word.parse::<u32>() {
        Ok(number) if number <= most => Some(number),
        _ => None,
    }
}

/// The count that a word spells: digits without a sign, at most 2147483647. Leading zeros are allowed.
pub fn count(word: &str) -> Option<u32>
    ensures value { result ≡ count_of word.now }
    ensures most { IfSome result (λ n. n ≤ 2147483647) }
{
    number_up_to(word, MOST)
}

/// The negative of a number from 0 to 2147483648.
fn negated(number: u32) -> i32
    requires { number ≤ 2147483648 }
    ensures { result ≡ neg_ℤ (pos number) }
{
    (0 - i64::from(number)) as i32
}

/// The Integer that digits after a `-` spell.
fn negative(digits: &str) -> Option<i32>
    ensures { result ≡ negative digits.now }
{
    match number_up_to(digits, MOST + 1) {
        Some(number) => Some(negated(number)),
        None => None,
    }
}

/// The Integer that digits without a sign spell.
fn positive(digits: &str) -> Option<i32>
    ensures { result ≡ positive digits.now }
{
    match number_up_to(digits, MOST) {
        Some(number) => Some(number as i32),
        None => None,
    }
}

/// The Integer that a word spells, from -2147483648 to 2147483647. `-0` is 0; a `+` is refused.
fn integer(word: &str) -> Option<i32>
    ensures { result ≡ integer_of word.now }
{
    match word.strip_prefix('-') {
        Some(digits) => negative(digits),
        None => positive(word),
    }
}

/// The Integer that a word spells, as a `Value`.
fn integer_value(word: &str) -> Option<Value>
    ensures { result ≡ option_map Int (integer_of word.now) }
{
    match integer(word) {
        Some(number) => Some(Value::Int(number)),
        None => None,
    }
}

/// The value that a word spells: `true`, `false`, or an Integer from -2147483648 to 2147483647. `-0` is 0, leading
/// zeros are allowed, a `+` is refused.
pub fn value(word: &str) -> Option<Value>
    ensures { result ≡ value_of word.now }
{
    match word {
        "true" => Some(Value::Bool(true)),
        "false" => Some(Value::Bool(false)),
        _ => integer_value(word),
    }
}
