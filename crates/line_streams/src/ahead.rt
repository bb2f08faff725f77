//! Octets of orders, read ahead while an order waits for its millisecond.
ghost use Rattle.std.specs.Prelude.{◌≤◌, IfOk, length};

use crate::arrivals::Arrivals;
use crate::watch::Watch;
use std::alloc::Global;
use std::collections::VecDeque;
use std::fs::File;
use std::io::{self, ErrorKind, Read, Seek};

/// The most octets per read.
const PART: usize = 1_024;

/// The most octets read ahead while an order waits.
const MOST: usize = 65_536;

/// The source of the octets of orders.
#[derive(Drop)]
pub(crate) enum Source {
    /// A regular file, read as it grows.
    File(File),
    /// A file that may keep a reader waiting, for example a FIFO.
    Fifo(Arrivals),
}

impl Read for Source {
    fn read(&mut self, part: &mut [u8]) -> io::Result<usize> {
        match self {
            Source::File(file) => file.read(part),
            Source::Fifo(arrivals) => arrivals.read(part),
        }
    }
}

/// Octets of orders, with those read ahead.
#[derive(Drop)]
pub(crate) struct Ahead {
    source: Source,
    /// The number of octets read since the beginning of the file.
    count: u64,
    /// The octets read ahead, the oldest first.
    waiting: VecDeque<u8>,
    /// The millisecond of the run.
    pub now: u64,
    /// The information about the run's end in the lines read.
    pub watch: Watch,
}

impl Ahead {
    /// The octets before any read.
    pub fn new(alloc: Global, source: Source) -> Ahead {
        Ahead {
            source,
            count: 0,
            waiting: VecDeque::new(alloc),
            now: 0,
            watch: Watch::new(alloc),
        }
    }

    /// Reads octets from the source; returns 0 if there are none now.
    fn fetch(&mut self, part: &mut [u8]) -> io::Result<usize>
        ensures { IfOk result (λ n. n ≤ length part.new) }
    {
        match self.source.read(part) {
            Ok(0) => {
                self.watch.rest(self.now);
                Ok(0)
            }
            Ok(count) => {
                self.count = self.count.saturating_add(count as u64);
                self.watch.see(self.now, &part[..count])?;
                Ok(count)
            }
            Err(error) => Err(error),
        }
    }

    /// Stores octets that were read ahead.
    fn keep(&mut self, octets: &[u8]) -> io::Result<()> {
        for octet in octets {
            if self.waiting.push_back(*octet).is_err() {
                return Err(io::Error::from(ErrorKind::OutOfMemory));
            }
        }
        Ok(())
    }

    /// Reads ahead as long as there are octets and room, or until a read is interrupted.
    pub fn read_on(&mut self) -> io::Result<()> {
        let mut part = [0; PART];
        for _part in 0..MOST / PART {
            if self.waiting.len() >= MOST {
                return Ok(());
            }
            match self.fetch(&mut part) {
                Ok(0) => return Ok(()),
                Ok(count) => self.keep(&part[..count])?,
                Err(error) if error.kind() == ErrorKind::Interrupted => return Ok(()),
                Err(error) => return Err(error),
            }
        }
        Ok(())
    }

    /// Moves stored octets to the front of `part`, as many as fit. Returns their number.
    fn hand_out(&mut self, part: &mut [u8]) -> usize
        ensures { result ≤ length part.new }
    {
        let count = part.len().min(self.waiting.len());
        let Some(front) = part.get_mut(..count) else {
            return 0;
        };
        for slot in front.iter_mut() {
            if let Some(octet) = self.waiting.pop_front() {
                *slot = octet;
            }
        }
        count
    }

    /// Whether the source is a truncated file: shorter than what was read. Only checked once all octets were read.
    fn is_truncated(&self) -> io::Result<bool> {
        if !self.watch.rests() {
            return Ok(false);
        }
        match &self.source {
            Source::File(file) => Ok(file.metadata()?.len() < self.count),
            Source::Fifo(_) => Ok(false),
        }
    }

    /// Goes back to the beginning of a truncated file. Returns whether it was truncated.
    pub fn rewind(&mut self, alloc: Global) -> io::Result<bool> {
        if !self.is_truncated()? {
            return Ok(false);
        }
        match &mut self.source {
            Source::File(file) => file.rewind()?,
            Source::Fifo(_) => {}
        }
        self.count = 0;
        self.waiting.clear();
        self.watch = Watch::new(alloc);
        Ok(true)
    }
}

impl Read for Ahead {
    fn read(&mut self, part: &mut [u8]) -> io::Result<usize> {
        let count = if self.waiting.is_empty() {
            self.fetch(part)?
        } else {
            self.hand_out(part)
        };
        Ok(count)
    }
}
