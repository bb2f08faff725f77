//! The limits of forced retransmission, from words.
ghost use Rattle.std.specs.Prelude.{◌≡◌, option_map};
ghost use Rattle.mtp2_words.specs.Limits.{messages_named, messages_of, octets_named, octets_of};

use script_links::{Mode, count};

/// The number of messages that a word states, 1 to 127.
fn messages_named(word: &str) -> Option<u8>
    ensures { result ≡ messages_named word.now }
{
    match count(word) {
        Some(number) if 1 <= number && number <= 127 => Some(number as u8),
        _ => None,
    }
}

/// The chosen number of messages, if there is a word; basic error correction allows none.
pub(crate) fn messages_of(mode: Mode, word: Option<&str>) -> Option<Option<u8>>
    ensures { result ≡ messages_of mode (option_map (λ w. w.now) word.entry) }
{
    match word {
        Some(word) => match mode {
            Mode::Cyclic => match messages_named(word) {
                Some(messages) => Some(Some(messages)),
                None => None,
            },
            Mode::Basic => None,
        },
        None => Some(None),
    }
}

/// The number of octets that a word states, 300 to 8,192.
fn octets_named(word: &str) -> Option<u16>
    ensures { result ≡ octets_named word.now }
{
    match count(word) {
        Some(number) if 300 <= number && number <= 8192 => Some(number as u16),
        _ => None,
    }
}

/// The chosen number of octets, if there is a word; basic error correction allows none.
pub(crate) fn octets_of(mode: Mode, word: Option<&str>) -> Option<Option<u16>>
    ensures { result ≡ octets_of mode (option_map (λ w. w.now) word.entry) }
{
    match word {
        Some(word) => match mode {
            Mode::Cyclic => match octets_named(word) {
                Some(octets) => Some(Some(octets)),
                None => None,
            },
            Mode::Basic => None,
        },
        None => Some(None),
    }
}
