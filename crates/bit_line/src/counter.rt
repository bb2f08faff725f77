//! Octet counting mode.
ghost use Rattle.std.specs.Prelude.{◌≡◌, ◌+◌, ◌*◌, ◌≤◌, ◌<◌, ℕ, false, Option, Some, None, is_none, if◌then◌else◌, unwrap_or};
ghost use Rattle.std.specs.Option.{ForSome};

use crate::content::Closed;

/// The reports at one line bit.
#[derive(Clone, Copy)]
pub struct Given {
    /// Whether the bit completes 128 bits of counting mode.
    pub sixteen: bool,
    /// How the content that the bit closed is judged, if that is reported.
    pub closed: Closed,
}

/// The number of bits since counting mode began, modulo 128, or `None` in normal mode.
#[derive(Drop)]
pub struct Counter {
    pub count: Option<u8>,
    ghost count_fits: { ForSome count (λ n. n < 128) },
}

impl Counter {
    ghost use Rattle.bit_line.specs.Judging.{verdict_of, reports_of, weight_of};
    ghost use Rattle.bit_line.specs.declared.content.Content.{Content};
    ghost use Rattle.bit_line.specs.Counting.{Counts, sixteen_of};
    ghost use Rattle.bit_line.specs.Events.{mode_after, reports, Nothing};

    /// Counting mode before its first bit.
    pub fn new() -> Self
        ensures { result.count ≡ Some 0 }
    {
        Counter { count: Some(0) }
    }

    /// A copy with the same count.
    pub fn copy(&self) -> Self
        ensures { result.count ≡ self.now.count }
    {
        Counter { count: self.count }
    }

    /// Whether the mode is normal.
    pub fn is_normal(&self) -> bool
        ensures { result ≡ is_none self.now.count }
    {
        self.count.is_none()
    }

    /// Counts one bit. If `begins`, counting mode begins here unless it is on. Returns whether 128 bits are complete.
    pub fn tick(&mut self, begins: bool) -> bool
        ensures counts { (mode : Option ℕ) → Counts mode self.old.count → Counts (mode_after Nothing begins mode) self.new.count }
        ensures full { (mode : Option ℕ) → Counts mode self.old.count → sixteen_of result ≡ reports Nothing mode }
        ensures pace { unwrap_or self.new.count 0 + 128 * (if result then 1 else 0) ≤ unwrap_or self.old.count 0 + 1 }
    {
        match self.count {
            None if begins => {
                self.count = Some(0);
                false
            }
            None => false,
            Some(n) if n == 127 => {
                self.count = Some(0);
                true
            }
            Some(n) => {
                self.count = Some(n + 1);
                false
            }
        }
    }

    /// Counts one bit and ends counting mode. Returns whether 128 bits are complete.
    pub fn stop(&mut self) -> bool
        ensures normal { self.new.count ≡ None }
        ensures full { (mode : Option ℕ) → Counts mode self.old.count → sixteen_of result ≡ reports Nothing mode }
        ensures pace { 128 * (if result then 1 else 0) ≤ unwrap_or self.old.count 0 + 1 }
    {
        let full = self.tick(false);
        self.count = None;
        full
    }

    /// Counts the last bit of a flag. `closed` is the judgement of the content before the flag.
    pub fn close(&mut self, closed: Closed) -> Given
        ensures counts { (mode : Option ℕ) (content : Content) → Counts mode self.old.count
            → Counts (mode_after (verdict_of closed content) false mode) self.new.count }
        ensures given { (mode : Option ℕ) (content : Content) → Counts mode self.old.count
            → reports_of result content ≡ reports (verdict_of closed content) mode }
        ensures weight { weight_of result.closed ≤ weight_of closed }
        ensures pace { unwrap_or self.new.count 0 + 128 * (if result.sixteen then 1 else 0) ≤ unwrap_or self.old.count 0 + 1 }
    {
        match closed {
            Closed::Correct => Given {
                sixteen: self.stop(),
                closed,
            },
            Closed::Wrong => {
                if self.is_normal() {
                    Given {
                        sixteen: self.tick(false),
                        closed,
                    }
                } else {
                    Given {
                        sixteen: self.tick(false),
                        closed: Closed::Nothing,
                    }
                }
            }
            Closed::Nothing => Given {
                sixteen: self.tick(false),
                closed,
            },
        }
    }
}
