//! Lines that several commands print.
ghost use Rattle.std.specs.Prelude.{◌≡◌, ◌++◌, IfOk, IfSome, codes};
ghost use Rattle.su_octets.specs.Bits.{AreOctets};
ghost use Rattle.script_ends.specs.GroupAnswers.{NO_LINK, octets_line, count_line};

use script_book::text_line;
use std::alloc::{AllocError, Global};
use std::fmt::Display;

/// The line `ok`.
pub(crate) fn done(alloc: Global) -> Result<Vec<u8>, AllocError>
    ensures { IfOk result (λ v. v.items ≡ codes "ok") }
{
    Vec::from_slice(alloc, b"ok")
}

/// The line of a refusal.
pub(crate) fn refused<E: Display>(alloc: Global, error: &E) -> Result<Vec<u8>, AllocError>
    ensures { IfOk result (λ v. IfSome (E.output error.now) (λ text. v.items ≡ codes "refused " ++ text)) }
{
    text_line(alloc, &format_args!("refused {error}"))
}

/// The line of a refusal because the link doesn't exist.
pub(crate) fn no_link(alloc: Global) -> Result<Vec<u8>, AllocError>
    ensures { IfOk result (λ v. v.items ≡ NO_LINK) }
{
    Vec::from_slice(alloc, b"refused K1 NoLink")
}

/// Each octet is below 256.
pub(crate) fn octets_law(octets: &[u8])
    ensures { AreOctets octets.now }
{}

/// `ok` and the octets in hexadecimal.
pub(crate) fn octets_line(alloc: Global, octets: &[u8]) -> Result<Vec<u8>, AllocError>
    ensures { IfOk result (λ v. v.items ≡ octets_line octets.now) }
{
    let digits = hex::encode_upper(alloc, octets)?;
    text_line(alloc, &format_args!("ok {digits}"))
}

/// `ok` and a number of messages.
pub(crate) fn count_line(alloc: Global, count: usize) -> Result<Vec<u8>, AllocError>
    ensures { IfOk result (λ v. v.items ≡ count_line count) }
{
    text_line(alloc, &format_args!("ok {count}"))
}
