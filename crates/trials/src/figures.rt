//! The counts at one end of a line.

/// A message that came in place of another.
#[derive(Clone, Copy)]
pub struct Wrong {
    pub spell: u32,
    pub came: u32,
    pub wanted: u32,
}

/// The messages sent and received at an end.
#[derive(Clone, Copy)]
pub struct Figures {
    /// The number of messages sent, each counted once.
    pub sent: u32,
    /// The number of times that a message was sent again in the spell in which it was first sent.
    pub again: u32,
    /// The number of times that a message was sent again because the link came up anew.
    pub anew: u32,
    /// The number of messages received, each counted once.
    pub came: u32,
    /// The number of messages received that had come in an earlier spell.
    pub doubled: u32,
    /// The number of times that the link came into service.
    pub spells: u32,
    /// The number of the next message in this spell; none before its first, which may be the next or an earlier one.
    next: Option<u32>,
    /// The first message that came out of order.
    pub wrong: Option<Wrong>,
}

impl Figures {
    /// Counts of 0.
    pub fn new() -> Figures {
        Figures {
            sent: 0,
            again: 0,
            anew: 0,
            came: 0,
            doubled: 0,
            spells: 0,
            next: None,
            wrong: None,
        }
    }

    /// Counts a message received. A number that no message has means wrong octets.
    pub fn take(&mut self, number: u32) {
        let wanted = match self.next {
            Some(next) => next,
            None => number.min(self.came),
        };
        if number != wanted && self.wrong.is_none() {
            self.wrong = Some(Wrong {
                spell: self.spells,
                came: number,
                wanted,
            });
        }
        if number < self.came {
            self.doubled = self.doubled.wrapping_add(1);
        } else {
            self.came = self.came.wrapping_add(1);
        }
        self.next = Some(number.wrapping_add(1));
    }

    /// Counts a unit sent. The number of messages sent in this spell was `before`, and is now `after`.
    pub fn pass(&mut self, before: u32, after: u32, is_message: bool) {
        if before == after {
            self.again = self.again.wrapping_add(is_message as u32);
        } else if after > self.sent {
            self.sent = after;
        } else {
            self.anew = self.anew.wrapping_add(1);
        }
    }

    /// The link came into service.
    pub fn begin(&mut self) {
        self.spells = self.spells.wrapping_add(1);
    }

    /// The link went down.
    pub fn end(&mut self) {
        self.next = None;
    }
}
