//! Reports of failures on standard error.
ghost use Rattle.std.specs.Prelude.{◌≡◌};

use crate::lines::FAILED;
use std::cell::Cell;
use std::io::{self, ErrorKind, Read, Write};
use std::str;

/// A writer to standard error.
#[derive(Drop)]
pub struct Errors<'a, R: Eprint> {
    /// The access to standard error.
    pub rt: &'a R,
}

impl<R: Eprint> Write for Errors<'_, R> {
    fn write(&mut self, line: &[u8]) -> io::Result<usize> {
        match str::from_utf8(line) {
            Ok(text) => {
                self.rt.eprint(text)?;
                Ok(line.len())
            }
            Err(_) => Err(io::Error::from(ErrorKind::InvalidData)),
        }
    }

    fn flush(&mut self) -> io::Result<()> {
        Ok(())
    }
}

/// Reports on standard error the name of what failed, and remembers that it did. No clause states the text of a report.
#[derive(Drop)]
pub struct Teller<'a, H: Eprint> {
    host: &'a H,
    named: Cell<bool>,
}

impl<'a, H: Eprint> Teller<'a, H> {
    /// A teller that has reported nothing.
    pub fn new(host: &'a H) -> Self {
        Teller {
            host,
            named: Cell::new(false),
        }
    }

    /// Reports why the thing of this name failed. If memory ran out it reports nothing.
    pub fn tell(&self, name: &str, error: &io::Error) {
        if error.kind() == ErrorKind::OutOfMemory {
            return;
        }
        self.named.set(true);
        let _told = self
            .host
            .eprintln(format_args!("mtp2_play: {name}: {error}"));
    }

    /// As `tell`. Returns the exit status 4.
    pub fn fail(&self, name: &str, error: &io::Error) -> u8
        ensures { result ≡ 4 }
    {
        self.tell(name, error);
        FAILED
    }

    /// Standard error, for other reports.
    pub fn errors(&self) -> Errors<'a, H> {
        Errors { rt: self.host }
    }

    /// Whether a failure was reported with a name.
    pub fn has_named(&self) -> bool {
        self.named.get()
    }
}

/// A reader with a name, whose failed reads are reported. No clause states what it returns.
#[derive(Drop)]
pub struct NamedReader<'a, H: Eprint, R> {
    teller: &'a Teller<'a, H>,
    name: &'a str,
    reader: R,
}

impl<'a, H: Eprint, R: Read> NamedReader<'a, H, R> {
    /// A reader with this name.
    pub fn new(teller: &'a Teller<'a, H>, name: &'a str, reader: R) -> Self {
        NamedReader {
            teller,
            name,
            reader,
        }
    }
}

impl<H: Eprint, R: Read> Read for NamedReader<'_, H, R> {
    fn read(&mut self, part: &mut [u8]) -> io::Result<usize> {
        match self.reader.read(part) {
            Ok(count) => Ok(count),
            Err(error) => {
                if error.kind() != ErrorKind::Interrupted {
                    self.teller.tell(self.name, &error);
                }
                Err(error)
            }
        }
    }
}
