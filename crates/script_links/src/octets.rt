//! Octets in hexadecimal digits.
ghost use Rattle.std.specs.Prelude.{◌≡◌, IfOk, option_map};
ghost use Rattle.script_links.specs.Octets.{octets_of, is_unit, is_message};

use hex::FromHexError;
use std::alloc::{AllocError, Global};

/// The octets that a word spells in hexadecimal, two digits in either case for each, if it consists of digit pairs.
pub fn octets_in(alloc: Global, word: &str) -> Result<Option<Vec<u8>>, AllocError>
    ensures { IfOk result (λ r. option_map (λ v. v.items) r ≡ octets_of word.now) }
{
    match hex::decode(alloc, word) {
        Ok(octets) => Ok(Some(octets)),
        Err(FromHexError::OutOfMemory) => Err(AllocError),
        Err(_) => Ok(None),
    }
}

/// Whether octets are a signal unit without its check octets (Q.703, 2.2 and 2.3.3).
pub fn is_unit(octets: &[u8]) -> bool
    ensures { result ≡ is_unit octets.now }
{
    3 <= octets.len() && octets.len() <= 276 && octets[2] % 64 == (octets.len() - 3).min(63) as u8
}

/// Whether octets are a service information octet and a signalling information field of 2 to 272 octets.
pub fn is_message(octets: &[u8]) -> bool
    ensures { result ≡ is_message octets.now }
{
    3 <= octets.len() && octets.len() <= 273
}
