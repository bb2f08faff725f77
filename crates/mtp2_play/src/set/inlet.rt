//! The octets received on a line of a set.
ghost use Rattle.std.specs.Prelude.{◌≤◌, length};

use crate::line::allowance::Allowance;
use line_streams::{Fed, Feed};
use std::alloc::Global;
use std::collections::VecDeque;
use std::fs::File;
use std::io;
use std::rt::Files;
use std::thread::Threads;

/// The number of octets taken from a feed at once.
const PART: usize = 4_096;

/// The largest number of times that the feed is asked in a round.
const PARTS: usize = 32;

/// The receiving side of a line of a set.
#[derive(Drop)]
pub struct Inlet {
    feed: Feed,
    /// A buffer for the octets of the feed.
    part: Vec<u8>,
    /// Octets that wait to be passed on, the oldest first.
    waiting: VecDeque<u8>,
    allowance: Allowance,
}

impl Inlet {
    /// Starts a thread that reads a line on which `ahead` octets are sent ahead.
    ///
    /// # Errors
    ///
    /// Out of memory, or no pipe or thread can be made.
    pub fn start<R: Files + Threads>(
        rt: &R,
        alloc: Global,
        file: File,
        ahead: usize,
    ) -> io::Result<Inlet> {
        Ok(Inlet {
            feed: Feed::start(rt, alloc, file)?,
            part: vec![in alloc; 0; PART]?,
            waiting: VecDeque::new(alloc),
            allowance: Allowance::new(ahead),
        })
    }

    /// Queues the first octets of the buffer, as many as may wait. The others are discarded.
    fn keep(&mut self, count: usize) {
        let room = self.allowance.room(self.waiting.len());
        let Some(octets) = self.part.as_slice().get(..count.min(room)) else {
            return;
        };
        for octet in octets {
            if self.waiting.push_back(*octet).is_err() {
                return;
            }
        }
    }

    /// Takes the octets that came: all on a new line, else only if none wait. Returns `Ended` or `Failed` at the end.
    fn fetch(&mut self) -> Fed {
        for asked in 0..PARTS {
            if !self.allowance.is_new() && !self.waiting.is_empty() {
                return Fed::Octets(0);
            }
            match self.feed.take(self.part.as_mut_slice()) {
                Fed::Octets(0) => {
                    if asked == 0 {
                        self.allowance.miss();
                    }
                    return Fed::Octets(0);
                }
                Fed::Octets(count) => {
                    self.allowance.come();
                    self.keep(count);
                }
                Fed::Ended => return Fed::Ended,
                Fed::Failed => return Fed::Failed,
            }
        }
        Fed::Octets(0)
    }

    /// Moves waiting octets to the front of a part, as many as may be passed on now. Returns how many.
    fn hand_out(&mut self, part: &mut [u8]) -> usize
        ensures { result ≤ length part.new }
    {
        let count = self.allowance.count(part.len().min(self.waiting.len()));
        let Some(front) = part.get_mut(..count) else {
            return 0;
        };
        for slot in front.iter_mut() {
            if let Some(octet) = self.waiting.pop_front() {
                *slot = octet;
            }
        }
        count
    }

    /// Takes a round's octets into `part`, as far as they fit; never waits. The line's end comes after its last octet.
    pub fn take(&mut self, part: &mut [u8]) -> Fed {
        self.allowance.begin();
        let fed = self.fetch();
        if self.waiting.is_empty() {
            fed
        } else {
            Fed::Octets(self.hand_out(part))
        }
    }
}
