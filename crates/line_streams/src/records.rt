//! The destination of records, each written whole.
ghost use Rattle.std.specs.Prelude.{◌≡◌};
ghost use Rattle.line_streams.specs.Known.{lost_of};

use crate::departures::Departures;
use crate::opening::open_both;
use std::alloc::Global;
use std::fs::{self, File};
use std::io::{self, ErrorKind, Write};
use std::rt::Files;
use std::thread::Threads;
use std::time::Clock;

/// The destination of records. Each `write` is one record.
#[derive(Drop)]
pub enum RecordStream {
    /// A regular file.
    File(File),
    /// A file that may keep a writer waiting, for example a FIFO: a record without room is lost and counted.
    Fifo(Departures),
}

impl Write for RecordStream {
    fn write(&mut self, record: &[u8]) -> io::Result<usize> {
        match self {
            RecordStream::File(file) => file.write(record),
            RecordStream::Fifo(departures) => {
                if departures.has_failed() {
                    return Err(io::Error::from(ErrorKind::BrokenPipe));
                }
                departures.put_whole(record)?;
                Ok(record.len())
            }
        }
    }

    fn flush(&mut self) -> io::Result<()> {
        Ok(())
    }
}

impl RecordStream {
    /// The number of lost records.
    pub fn lost(&self) -> u64
        ensures { result ≡ lost_of self.now }
    {
        match self {
            RecordStream::File(_) => 0,
            RecordStream::Fifo(departures) => departures.lost(),
        }
    }

    /// Waits at the end until pending records are written, for a second at most.
    ///
    /// # Errors
    ///
    /// If a write of a record failed.
    pub fn end<R: Clock>(&mut self, rt: &R) -> io::Result<()>
        ensures { lost_of self.new ≡ lost_of self.old }
    {
        match self {
            RecordStream::File(_) => Ok(()),
            RecordStream::Fifo(departures) => departures.settle(rt),
        }
    }
}

/// Opens the destination of records. A regular file is created, or emptied.
///
/// # Errors
///
/// If the path can't be opened, or there is no memory, no pipe or no thread.
pub fn open_records<R: Files<File = File> + Threads>(
    rt: &R,
    alloc: Global,
    path: &str,
) -> io::Result<RecordStream> {
    match rt.metadata(path) {
        Ok(data) if !data.is_file() => {
            let file = open_both(rt, path)?;
            Ok(RecordStream::Fifo(Departures::start(rt, alloc, file)?))
        }
        _ => Ok(RecordStream::File(fs::create(rt, path)?)),
    }
}
