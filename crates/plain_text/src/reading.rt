//! Reading of whole texts.
ghost use Rattle.std.specs.Prelude.{◌≡◌, ◌≤◌, ◌+◌, ◌-◌, ◌++◌, ◌==◌, OnOk, IfOk, take, length, count_by, nat_lt};
ghost use Rattle.plain_text.specs.Reading.{LONGEST, IsReading};

use crate::check::TextCheck;
use std::alloc::{AllocError, Global};
use std::io::{self, ErrorKind, Read};

/// The greatest number of reads for one text.
pub const MOST_READS: u32 = 1_000_000;

/// The most bytes that a text or a script has.
pub const MOST_BYTES: usize = 262_144;

/// The greatest number of bytes of one read.
const PART: usize = 1024;

/// What is kept of a text after it was read whole.
#[derive(Drop)]
pub struct TextRead {
    /// Its first bytes, up to one more than a text may have.
    pub kept: Vec<u8>,
    /// Whether all of its bytes are UTF-8, including those that aren't kept.
    pub is_text: bool,
}

impl TextRead {
    /// Whether there were more bytes than a text may have.
    pub fn is_too_long(&self) -> bool
        ensures { result ≡ nat_lt LONGEST (length self.now.kept.items) }
    {
        self.kept.len() > MOST_BYTES
    }
}

/// The number of line feeds before the first byte too many.
fn feeds_before_limit(bytes: &[u8]) -> usize
    ensures count { result ≡ count_by (λ b. b == 10) (take LONGEST bytes.now) }
    ensures within { result ≤ LONGEST }
{
    bytes
        .iter()
        .take(MOST_BYTES)
        .filter(|byte| **byte == b'\n')
        .count()
}

/// The line of the first byte too many, counted from 1, in a text that begins with these bytes.
pub fn line_at_limit(bytes: &[u8]) -> usize
    ensures { result ≡ count_by (λ b. b == 10) (take LONGEST bytes.now) + 1 }
{
    feeds_before_limit(bytes) + 1
}

/// Appends as much of the part as there is room for.
fn keep(kept: &mut Vec<u8>, part: &[u8]) -> Result<(), AllocError>
    requires { length kept.old.items ≤ LONGEST + 1 }
    ensures { OnOk result (kept.new.items ≡ kept.old.items ++ take (LONGEST + 1 - length kept.old.items) part.now) }
{
    let room = MOST_BYTES + 1 - kept.len();
    kept.extend_from_slice(&part[..room.min(part.len())])
}

/// Reads a text to its end, with at most 1,000,000 reads. It repeats an interrupted read; that counts too.
///
/// # Errors
///
/// When a read fails other than by an interrupt, 1,000,000 reads don't reach the end, or memory runs out.
pub fn read_text<R: Read>(alloc: Global, reader: &mut R) -> io::Result<TextRead>
    ensures { IfOk result (IsReading (R.remaining reader.old)) }
{
    let mut kept = Vec::new(alloc);
    let mut check = TextCheck::new();
    let mut part = [0; PART];
    for _ in 0..MOST_READS {
        match reader.read(&mut part) {
            Ok(0) => {
                let is_text = check.is_text();
                return Ok(TextRead { kept, is_text });
            }
            Ok(count) => {
                let bytes = &part[..count];
                check.push_all(bytes);
                keep(&mut kept, bytes)?;
            }
            Err(error) => {
                if error.kind() != ErrorKind::Interrupted {
                    return Err(error);
                }
            }
        }
    }
    Err(io::Error::from(ErrorKind::Other))
}
