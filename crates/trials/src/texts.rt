//! Texts by name, and the sets of texts that are accepted.

use crate::calls::Stopped;
use link_whole::LoadFault;
use mtp2_text::OwnSet;
use turn_check::Verified;

/// The text of the program's own set with this name; otherwise the source itself is the text.
pub fn text_of(source: &str) -> &str {
    match OwnSet::named(source) {
        Some(own) => own.text(),
        None => source,
    }
}

/// The set of a text that is accepted.
pub fn accepted(loaded: Result<Verified, LoadFault>) -> Result<Verified, Stopped> {
    match loaded {
        Ok(set) => Ok(set),
        Err(_) => Err(Stopped::Refused),
    }
}
