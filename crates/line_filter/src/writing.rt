//! Writing octets as far as possible.
ghost use Rattle.std.specs.Prelude.{OnOk};
ghost use Rattle.std.specs.Io.KnownBytes.{Appends};
ghost use Rattle.line_filter.specs.Filters.{WritesPart};

use std::io::{self, ErrorKind, Write};

/// Writes octets, and retries an interrupted write.
///
/// # Errors
///
/// If a write fails or accepts no octets; a prefix of the octets is written then.
pub fn write_part<W: Write>(writer: &mut W, octets: &[u8]) -> io::Result<()>
    ensures all { OnOk result (Appends (W.contents writer.old) (W.contents writer.new) octets.now) }
    ensures part { WritesPart (W.contents writer.old) (W.contents writer.new) octets.now }
{
    let mut gone = 0;
    for _write in 0..u64::MAX {
        if gone == octets.len() {
            return Ok(());
        }
        match writer.write(&octets[gone..]) {
            Ok(0) => return Err(io::Error::from(ErrorKind::WriteZero)),
            Ok(count) => gone += count,
            Err(error) => {
                if error.kind() != ErrorKind::Interrupted {
                    return Err(error);
                }
            }
        }
    }
    Err(io::Error::from(ErrorKind::Other))
}
