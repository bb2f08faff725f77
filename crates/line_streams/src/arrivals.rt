//! Octets that a thread reads from a file.
ghost use Rattle.std.specs.Prelude.{◌≤◌, IfOk, length};

use rtrb::{Consumer, Producer, RingBuffer};
use std::alloc::Global;
use std::fs::File;
use std::io::{self, ErrorKind, PipeReader, PipeWriter, Read, Write};
use std::rt::Files;
use std::thread;
use std::thread::Threads;

/// The most octets per read.
const PART: usize = 4096;

/// Octets that a thread reads. A read returns those that have arrived, or none, and never waits. It fails once a read
/// of the thread has failed and all octets before it were taken.
///
/// The thread isn't joined: it may wait forever, and is left when the program ends.
#[derive(Drop)]
pub struct Arrivals {
    ring: Consumer<u8>,
    /// Tells the thread that all its octets were taken.
    taken: PipeWriter,
}

impl Arrivals {
    /// Starts a thread that reads a file.
    ///
    /// # Errors
    ///
    /// If there is no memory, no pipe or no thread.
    pub fn start<R: Files + Threads>(rt: &R, alloc: Global, file: File) -> io::Result<Arrivals> {
        let (producer, consumer) = RingBuffer::new(alloc, PART)?;
        let (reader, writer) = rt.pipe()?;
        let _thread = thread::spawn(rt, move || carry_in(file, producer, reader)).map_err(
            io::Error::from,
        )?;
        Ok(Arrivals {
            ring: consumer,
            taken: writer,
        })
    }
}

impl Read for Arrivals {
    fn read(&mut self, part: &mut [u8]) -> io::Result<usize> {
        let count = self.ring.pop_partial_slice(part);
        if count == 0 {
            if self.ring.is_abandoned() {
                return Err(io::Error::from(ErrorKind::BrokenPipe));
            }
        } else if self.ring.is_empty() {
            self.taken.write_all(&[1])?;
        }
        Ok(count)
    }
}

/// Reads available octets into a part; returns 0 at the end. Retries an interrupted read.
fn read_part(file: &mut File, part: &mut [u8]) -> io::Result<usize>
    ensures { IfOk result (λ n. n ≤ length part.new) }
{
    for _read in 0..u64::MAX {
        match file.read(part) {
            Ok(count) => return Ok(count),
            Err(error) => {
                if error.kind() != ErrorKind::Interrupted {
                    return Err(error);
                }
            }
        }
    }
    Err(io::Error::from(ErrorKind::Other))
}

/// Waits until the octets read have been taken.
fn wait_until_taken(taken: &mut PipeReader) -> bool {
    let mut one = [0; 1];
    match taken.read_exact(&mut one) {
        Ok(()) => true,
        Err(_) => false,
    }
}

/// Reads a file into a ring, part by part; each read waits until the part before was taken. It ends when a read fails,
/// which the other side notices. At the end of the file it waits for the end of the program.
fn carry_in(file: File, ring: Producer<u8>, taken: PipeReader) {
    let (mut file, mut ring, mut taken) = (file, ring, taken);
    let mut part = [0; PART];
    for _part in 0..u64::MAX {
        let Ok(count) = read_part(&mut file, &mut part) else {
            return;
        };
        if ring.push_entire_slice(&part[..count]).is_err() || !wait_until_taken(&mut taken) {
            return;
        }
    }
}
