//! Lines that a thread writes.
ghost use Rattle.std.specs.Prelude.{◌≡◌, OnOk};
ghost use Rattle.rtrb.specs.Ring.{sent};
ghost use Rattle.line_filter.specs.Reporting.{count_in};
ghost use Rattle.line_streams.specs.Departing.{EndsOn, GoesWhole, MovesFar, ReportsOn, TellsOn};

use crate::backlog::Backlog;
use crate::outlet::Outlet;
use line_filter::Wait;
use rtrb::{Consumer, RingBuffer};
use std::alloc::Global;
use std::fs::File;
use std::io::{self, ErrorKind, PipeReader, PipeWriter, Read, Write};
use std::rt::Files;
use std::sync::Arc;
use std::sync::atomic::{AtomicU64, Ordering};
use std::thread;
use std::thread::Threads;
use std::time::{Clock, Duration};

/// How often, a millisecond apart, the end checks whether all octets were written.
const MOST_WAITS: u32 = 1_000;

/// The most octets that may wait to be written.
const ROOM: usize = 65_536;

/// The most octets per write.
const PART: usize = 4096;

/// Lines that a thread writes. If it can't, since the other end takes none, lines are lost and counted; nothing waits.
///
/// The thread isn't joined: it is left when the program ends.
#[derive(Drop)]
pub struct Departures {
    alloc: Global,
    outlet: Outlet,
    /// The number of octets put into the outlet.
    put: u64,
    /// The number of octets that the thread has written.
    gone: Arc<AtomicU64>,
    /// 1 while the thread sleeps and wasn't woken.
    sleeps: Arc<AtomicU64>,
    /// The pipe that wakes the thread.
    wakes: PipeWriter,
}

impl Departures {
    /// Starts a thread that writes to a file.
    ///
    /// # Errors
    ///
    /// If there is no memory, no pipe or no thread.
    pub fn start<R: Files + Threads>(rt: &R, alloc: Global, file: File) -> io::Result<Departures> {
        let (producer, consumer) = RingBuffer::new(alloc, ROOM)?;
        let (reader, writer) = rt.pipe()?;
        let gone = Arc::new(alloc, AtomicU64::new(0))?;
        let sleeps = Arc::new(alloc, AtomicU64::new(0))?;
        let mut bed = Bed {
            ring: consumer,
            gone: Arc::try_clone(&gone)?,
            sleeps: Arc::try_clone(&sleeps)?,
            wakes: reader,
        };
        let mut file = file;
        let _thread = thread::spawn(rt, move || carry_out(&mut file, &mut bed))?;
        Ok(Departures {
            alloc,
            outlet: Outlet {
                ring: producer,
                backlog: Backlog::new(alloc),
                lost: 0,
            },
            put: 0,
            gone,
            sleeps,
            wakes: writer,
        })
    }

    /// Wakes the thread if it sleeps.
    fn wake(&mut self) -> io::Result<()>
        ensures { self.new.outlet ≡ self.old.outlet }
    {
        if self.sleeps.swap(0, Ordering::SeqCst) == 1 {
            self.wakes.write_all(&[1])?;
        }
        Ok(())
    }

    /// Queues a whole line for writing. If there is no room, it waits or is counted as lost, depending on its kind.
    ///
    /// # Errors
    ///
    /// If memory runs out, a line after lost ones has no space, or the thread can't be woken (then the line was still
    /// queued, waits or is counted).
    pub fn tell(&mut self, wait: Wait, line: &[u8]) -> io::Result<()>
        ensures { OnOk result (TellsOn (record { wait = wait; octets = line.now }) self.old.outlet self.new.outlet) }
    {
        let count = self.outlet.put(self.alloc, wait, line)?;
        self.put = self.put.wrapping_add(count as u64);
        self.wake()?;
        Ok(())
    }

    /// Queues waiting lines for writing, as many as there is room for.
    fn shift(&mut self)
        ensures { MovesFar self.old.outlet self.new.outlet }
    {
        while let Some(count) = self.outlet.send_first() {
            self.put = self.put.wrapping_add(count as u64);
        }
    }

    /// Queues waiting lines of reports for writing, as many as there is room for.
    ///
    /// # Errors
    ///
    /// If a write of the thread failed, or it can't be woken (then the lines were still queued).
    pub fn move_on(&mut self) -> io::Result<()>
        ensures { OnOk result (MovesFar self.old.outlet self.new.outlet) }
    {
        if self.has_failed() {
            return Err(io::Error::from(ErrorKind::BrokenPipe));
        }
        self.shift();
        self.wake()?;
        Ok(())
    }

    /// Queues a whole line of reports for writing, after those that wait. If there is no room, it waits or is counted
    /// as lost, depending on its kind.
    ///
    /// # Errors
    ///
    /// If a write of the thread failed, and those of [`Departures::tell`].
    pub fn report(&mut self, wait: Wait, line: &[u8]) -> io::Result<()>
        ensures { OnOk result (ReportsOn (record { wait = wait; octets = line.now }) self.old.outlet self.new.outlet) }
    {
        if self.has_failed() {
            return Err(io::Error::from(ErrorKind::BrokenPipe));
        }
        self.shift();
        self.tell(wait, line)?;
        Ok(())
    }

    /// The number of waiting messages for level 3.
    pub fn messages(&self) -> usize
        ensures { result ≡ count_in Wait.Message self.now.outlet.backlog }
    {
        self.outlet.backlog.messages()
    }

    /// The number of waiting lines of answers.
    pub fn answers(&self) -> usize
        ensures { result ≡ count_in Wait.Answer self.now.outlet.backlog }
    {
        self.outlet.backlog.answers()
    }

    /// Queues octets as a whole for writing, or counts them as one loss.
    ///
    /// # Errors
    ///
    /// If a write of the thread failed, or it can't be woken; then the octets were still queued or counted.
    pub fn put_whole(&mut self, octets: &[u8]) -> io::Result<()>
        ensures { OnOk result (GoesWhole octets.now self.old.outlet self.new.outlet) }
    {
        let count = self.outlet.put_whole(octets);
        self.put = self.put.wrapping_add(count as u64);
        self.wake()?;
        Ok(())
    }

    /// The number of losses since the last report of losses.
    pub fn lost(&self) -> u64
        ensures { result ≡ self.now.outlet.lost }
    {
        self.outlet.lost
    }

    /// Waits at the end until all octets are written, for a second at most.
    ///
    /// # Errors
    ///
    /// If a write of the thread failed.
    pub fn settle<R: Clock>(&mut self, rt: &R) -> io::Result<()>
        ensures { self.new.outlet.lost ≡ self.old.outlet.lost }
    {
        for _wait in 0..MOST_WAITS {
            if self.are_gone() {
                return Ok(());
            }
            if self.has_failed() {
                return Err(io::Error::from(ErrorKind::BrokenPipe));
            }
            thread::sleep(rt, Duration::from_millis(1));
        }
        Ok(())
    }

    /// Whether all queued octets were written.
    pub fn are_gone(&self) -> bool {
        self.gone.load(Ordering::SeqCst) == self.put
    }

    /// Whether the thread has ended, as it does after a failed write.
    pub fn has_failed(&mut self) -> bool
        ensures sent { sent self.new.outlet.ring ≡ sent self.old.outlet.ring }
        ensures backlog { self.new.outlet.backlog ≡ self.old.outlet.backlog }
        ensures lost { self.new.outlet.lost ≡ self.old.outlet.lost }
    {
        self.outlet.ring.is_abandoned()
    }

    /// Queues waiting lines. Then it reports, with this millisecond, how many lines were lost after the last one
    /// queued, if any and if there is room.
    fn tell_lost(&mut self, now: u64) -> io::Result<()>
        ensures { OnOk result (EndsOn now self.old.outlet self.new.outlet) }
    {
        self.shift();
        let count = self.outlet.put_lost(self.alloc, now)?;
        self.put = self.put.wrapping_add(count as u64);
        self.wake()?;
        Ok(())
    }

    /// Waits at the end until all octets and waiting lines are written, for a second at most. As soon as there is room
    /// it reports, with this millisecond, how many lines were lost after the last one queued.
    ///
    /// # Errors
    ///
    /// If memory runs out, a write of the thread failed, or it can't be woken.
    pub fn end<R: Clock>(&mut self, rt: &R, now: u64) -> io::Result<()>
        ensures { OnOk result (EndsOn now self.old.outlet self.new.outlet) }
    {
        self.tell_lost(now)?;
        for _wait in 0..MOST_WAITS {
            if self.are_gone() && self.outlet.lost == 0 && self.outlet.backlog.is_empty() {
                return Ok(());
            }
            if self.has_failed() {
                return Err(io::Error::from(ErrorKind::BrokenPipe));
            }
            thread::sleep(rt, Duration::from_millis(1));
            self.tell_lost(now)?;
        }
        Ok(())
    }
}

/// The state of the thread.
#[derive(Drop)]
struct Bed {
    ring: Consumer<u8>,
    gone: Arc<AtomicU64>,
    sleeps: Arc<AtomicU64>,
    wakes: PipeReader,
}

impl Bed {
    /// Sleeps until there may be more octets. Returns whether it was woken, rather than abandoned.
    fn sleep(&mut self) -> bool {
        self.sleeps.store(1, Ordering::SeqCst);
        if !self.ring.is_empty() && self.sleeps.swap(0, Ordering::SeqCst) == 1 {
            return true;
        }
        let mut one = [0; 1];
        self.wakes.read_exact(&mut one).is_ok()
    }
}

/// Writes all arriving octets, until a write fails.
fn carry_out(file: &mut File, bed: &mut Bed) {
    let mut part = [0; PART];
    for _part in 0..u64::MAX {
        let count = bed.ring.pop_partial_slice(&mut part);
        if count == 0 {
            if !bed.sleep() {
                return;
            }
        } else {
            if file.write_all(&part[..count]).is_err() {
                return;
            }
            bed.gone.fetch_add(count as u64, Ordering::SeqCst);
        }
    }
}
