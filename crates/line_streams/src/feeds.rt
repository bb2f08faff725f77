//! Octets of a line that a thread reads, and the end of the line.
ghost use Rattle.std.specs.Prelude.{◌≡◌, ◌≤◌, ◌++◌, true, IfOk, length};
ghost use Rattle.rtrb.specs.Ring.{sent, received};
ghost use Rattle.line_streams.specs.Feeding.{Gives};

use rtrb::{Consumer, Producer, RingBuffer};
use std::alloc::Global;
use std::fs::File;
use std::io::{self, ErrorKind, PipeReader, PipeWriter, Read, Write};
use std::rt::Files;
use std::sync::Arc;
use std::sync::atomic::{AtomicU64, Ordering};
use std::thread;
use std::thread::Threads;

/// The most octets per read.
const PART: usize = 4096;

/// The values that the thread stores when it ends: the line ended, or a read failed.
const ENDED: u64 = 1;

const FAILED: u64 = 2;

/// The result of taking octets.
#[derive(Clone, Copy, Debug, PartialEq, Eq)]
pub enum Fed {
    /// So many octets; 0 if none have arrived yet.
    Octets(usize),
    /// No more octets: the line has ended.
    Ended,
    /// No more octets: a read failed.
    Failed,
}

/// Octets of a line that a thread reads.
///
/// The thread isn't joined: it may wait forever, and is left when the program ends.
#[derive(Drop)]
pub struct Feed {
    ring: Consumer<u8>,
    /// Tells the thread that all its octets were taken.
    taken: PipeWriter,
    over: Arc<AtomicU64>,
}

impl Feed {
    /// Starts a thread that reads a line.
    ///
    /// # Errors
    ///
    /// If there is no memory, no pipe or no thread.
    pub fn start<R: Files + Threads>(rt: &R, alloc: Global, file: File) -> io::Result<Feed> {
        let (producer, consumer) = RingBuffer::new(alloc, PART)?;
        let (reader, writer) = rt.pipe()?;
        let over = Arc::new(alloc, AtomicU64::new(0))?;
        let mut bed = Bed {
            ring: producer,
            taken: reader,
            over: Arc::try_clone(&over)?,
        };
        let mut file = file;
        let _thread = thread::spawn(rt, move || carry_in(&mut file, &mut bed))?;
        Ok(Feed {
            ring: consumer,
            taken: writer,
            over,
        })
    }

    /// Takes octets that have arrived, as many as `part` has room for. It never waits.
    pub fn take(&mut self, part: &mut [u8]) -> Fed
        ensures { Gives result part.new (received self.old.ring) (received self.new.ring) }
    {
        let over = self.over.load(Ordering::SeqCst);
        let count = self.ring.pop_partial_slice(part);
        if count > 0 {
            if self.ring.is_empty() && self.taken.write_all(&[1]).is_err() {
                return Fed::Failed;
            }
            return Fed::Octets(count);
        }
        match over {
            ENDED => Fed::Ended,
            FAILED => Fed::Failed,
            _ => Fed::Octets(0),
        }
    }
}

/// The state of the thread.
#[derive(Drop)]
struct Bed {
    ring: Producer<u8>,
    taken: PipeReader,
    over: Arc<AtomicU64>,
}

/// Reads available octets into a part; returns 0 at the end. Retries an interrupted read.
fn read_part(file: &mut File, part: &mut [u8]) -> io::Result<usize>
    ensures { IfOk result (λ n. n ≤ length part.new) }
{
    for _read in 0..u64::MAX {
        match file.read(part) {
            Ok(count) => return Ok(count),
            Err(error) => {
                if error.kind() != ErrorKind::Interrupted {
                    return Err(error);
                }
            }
        }
    }
    Err(io::Error::from(ErrorKind::Other))
}

impl Bed {
    /// Delivers the octets read, and waits until they have been taken.
    fn hand_on(&mut self, octets: &[u8]) -> bool
        ensures { result ≡ true → sent self.new.ring ≡ sent self.old.ring ++ octets.now }
    {
        let mut one = [0; 1];
        self.ring.push_entire_slice(octets).is_ok() && self.taken.read_exact(&mut one).is_ok()
    }
}

/// Reads a line into a ring to its end, part by part; each read waits until the part before was taken.
fn carry_in(file: &mut File, bed: &mut Bed) {
    let mut part = [0; PART];
    for _part in 0..u64::MAX {
        match read_part(file, &mut part) {
            Ok(0) => {
                bed.over.store(ENDED, Ordering::SeqCst);
                return;
            }
            Ok(count) => {
                if !bed.hand_on(&part[..count]) {
                    return;
                }
            }
            Err(_) => {
                bed.over.store(FAILED, Ordering::SeqCst);
                return;
            }
        }
    }
}
