//! The report of how a run of a set begins.
ghost use Rattle.std.specs.Prelude.{◌≡◌, OnOk, IfOk, string_bytes};
ghost use Rattle.hex.specs.Hex.{encode_lower};
ghost use Rattle.sha2.specs.Sha256.{sha256};
ghost use Rattle.mtp2_play.specs.SetBegins.{TellsBegin};

use hex::encode;
use jiff_core::civil::Date;
use line_filter::{Reports, Wait, tell_kept};
use sha2::{Digest, Sha256};
use std::alloc::Global;
use std::io::{self, ErrorKind, Read};

/// The version of the program.
pub const VERSION: &str = "1.0";

/// The text of a set's processes, as reported.
#[derive(Drop)]
pub struct Origin<'a> {
    /// Its name: a built-in set, or a file.
    pub name: &'a str,
    /// Its digest, in hexadecimal digits.
    pub sum: String,
}

/// A reader, and the digest of what was read from it.
#[derive(Drop)]
pub struct SummedReader<R> {
    reader: R,
    digest: Sha256,
}

impl<R: Read> SummedReader<R> {
    /// Before the first read.
    pub fn new(reader: R) -> Self {
        SummedReader {
            reader,
            digest: Sha256::new(),
        }
    }
}

impl<R> SummedReader<R> {
    /// The SHA-256 digest of what was read, in hexadecimal digits.
    ///
    /// # Errors
    ///
    /// If memory runs out.
    pub fn sum(self, alloc: Global) -> io::Result<String>
    where
        R: Drop,
    {
        let SummedReader {
            reader: _reader,
            digest,
        } = self;
        let octets: [u8; 32] = digest.finalize();
        Ok(encode(alloc, octets.as_slice())?)
    }
}

impl<R: Read> Read for SummedReader<R> {
    fn read(&mut self, part: &mut [u8]) -> io::Result<usize> {
        let count = self.reader.read(part)?;
        if let Some(octets) = part.get(..count) {
            self.digest.update(octets);
        }
        Ok(count)
    }
}

/// The SHA-256 digest of a text, in hexadecimal digits.
///
/// # Errors
///
/// If memory runs out.
pub fn sum_of(alloc: Global, text: &str) -> io::Result<String>
    ensures { IfOk result (λ sum. string_bytes sum ≡ encode_lower (sha256 text.now)) }
{
    let octets: [u8; 32] = Sha256::digest(text.as_bytes());
    Ok(encode(alloc, octets.as_slice())?)
}

/// The UTC date and time of a number of milliseconds since the beginning of 1970, as in RFC 3339.
fn date_of(alloc: Global, since_1970: u64) -> io::Result<String> {
    let milli = since_1970 % 1_000;
    let second = since_1970 / 1_000 % 60;
    let minute = since_1970 / 60_000 % 60;
    let hour = since_1970 / 3_600_000 % 24;
    let days = i64::try_from(since_1970 / 86_400_000).unwrap_or(i64::MAX);
    let Ok(date) = Date::from_unix_epoch_day(days) else {
        return Err(io::Error::from(ErrorKind::InvalidData));
    };
    let (year, month, day) = (date.year, date.month, date.day);
    Ok(format!(in alloc;
        "{year:04}-{month:02}-{day:02}T{hour:02}:{minute:02}:{second:02}.{milli:03}Z"
    )?)
}

/// Makes the first report of a run: the date, the version of the program, and the name and digest of the text.
///
/// # Errors
///
/// If memory runs out, the clock has no date, or the report can't be written.
pub fn tell_begin<P: Reports>(
    alloc: Global,
    since_1970: u64,
    origin: &Origin<'_>,
    reports: &mut P,
) -> io::Result<()>
    ensures { OnOk result (TellsBegin origin.now.name.now (string_bytes origin.now.sum) (P.stand reports.old) (P.stand reports.new)) }
{
    let date = date_of(alloc, since_1970)?;
    let (name, sum) = (origin.name, origin.sum.as_str());
    let line = format!(in alloc; "begins {date} {VERSION} {name} {sum}")?;
    tell_kept(alloc, Wait::Other, 0, line.as_str(), reports)
}
