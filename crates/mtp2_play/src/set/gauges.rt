//! A file with the measurements of a set, for Prometheus.

use line_filter::{Orders, Reports};
use line_play::SetDesk;
use plain_text::Teller;
use std::alloc::Global;
use std::fs::{self, File};
use std::io::{self, Write};
use std::rt::Files;

/// The number of rounds from one writing to the next.
const EVERY: u64 = 5_000;

/// A file for measurements, if one is named.
#[derive(Drop)]
pub struct Gauges<'a, H: Eprint> {
    host: &'a H,
    teller: &'a Teller<'a, H>,
    path: Option<&'a str>,
    /// Whether it was reported that the file couldn't be written.
    told: bool,
}

/// Writes a text to a file beside the named one, and renames it: the named file always has a whole text.
fn put_beside<H: Files<File = File>>(
    host: &H,
    alloc: Global,
    path: &str,
    text: &str,
) -> io::Result<()> {
    let beside = format!(in alloc; "{path}.new")?;
    let mut file = fs::create(host, beside.as_str())?;
    file.write_all(text.as_bytes())?;
    host.rename(beside.as_str(), path)
}

impl<'a, H: Files<File = File> + Eprint + AllocGlobal> Gauges<'a, H> {
    /// A file of this name, if there is one.
    pub fn new(host: &'a H, teller: &'a Teller<'a, H>, path: Option<&'a str>) -> Gauges<'a, H> {
        Gauges {
            host,
            teller,
            path,
            told: false,
        }
    }

    /// Writes the measurements if that is due in this round. If they can't be written, that is reported once, with the
    /// file's name, and the run goes on.
    ///
    /// # Errors
    ///
    /// If memory runs out.
    pub fn write<O: Orders, P: Reports>(
        &mut self,
        desk: &SetDesk<O, P>,
        round: u64,
    ) -> io::Result<()> {
        let Some(path) = self.path else {
            return Ok(());
        };
        if round % EVERY != 0 {
            return Ok(());
        }
        let alloc = self.host.alloc();
        let text = desk.exposition(alloc)?;
        match put_beside(self.host, alloc, path, text.as_str()) {
            Ok(()) => self.told = false,
            Err(error) => {
                if !self.told {
                    self.teller.tell(path, &error);
                }
                self.told = true;
            }
        }
        Ok(())
    }
}
