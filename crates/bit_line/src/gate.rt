//! Which line bits are content.
ghost use Rattle.std.specs.Prelude.{◌≡◌, ◌≤◌, ◌<◌, ◌+◌, ◌*◌, ◌^◌, Bool, true, false, List, [], ◌∷◌, ◌++◌, not, reverse, drop};
ghost use Rattle.su_octets.specs.Bits.{low_bits};
ghost use Rattle.bit_line.specs.Flags.{ends_flag};

use crate::content::{Closed, Content};

/// Adds the bits between flags to the content, each one seven bits late. So the bits of a flag never enter it.
#[derive(Drop)]
pub struct Gate {
    /// Whether there was a flag.
    pub seen: bool,
    /// Seven minus the number of bits since the last flag, but not below 0.
    pub wait: u8,
    /// The content since the last flag, valid if `wait` is 0.
    pub content: Content,
    ghost wait_fits: { wait ≤ 7 },
}

impl Gate {
    ghost use Rattle.bit_line.specs.Deframing.{LetsIn, seventh, newest, EndsNone};
    ghost use Rattle.bit_line.specs.Events.{IsJudged};
    ghost use Rattle.bit_line.specs.Flags.{inside, MOST_BITS};
    ghost use Rattle.bit_line.specs.Stuffing.{taken_out};
    ghost use Rattle.bit_line.specs.Judging.{verdict_of, weight_of};
    ghost use Rattle.std.specs.Prelude.{nat_lt, length};

    /// A gate before the first bit.
    pub fn new() -> Self
        ensures { LetsIn [] result }
    {
        Gate {
            seen: false,
            wait: 7,
            content: Content::new(),
        }
    }

    /// A copy of the gate.
    pub fn copy(&self) -> Self
        ensures { (h : List Bool) → LetsIn h self.now → LetsIn h result }
    {
        Gate {
            seen: self.seen,
            wait: self.wait,
            content: self.content.copy(),
        }
    }

    /// Takes a bit that ends no flag. `late` is the bit seven bits before it.
    pub fn pass(&mut self, late: bool)
        ensures passed { (h : List Bool) (b : Bool) → ends_flag (b ∷ h) ≡ false → late ≡ seventh h → LetsIn h self.old → LetsIn (b ∷ h) self.new }
        ensures pace { self.old.wait ≤ self.new.wait + 1 }
    {
        if !self.seen {
            return;
        }
        if self.wait == 0 {
            self.content.push(late);
            return;
        }
        self.wait -= 1;
        if self.wait == 0 {
            self.content.clear();
        }
    }

    /// Takes up to eight bits that end no flag. `late` holds the bits seven bits before them, the first one lowest.
    pub fn pass_few(&mut self, late: u8, len: u8)
        requires few { len ≤ 8 }
        requires fits { late < 2 ^ len }
        ensures passed { (h k : List Bool) → length k ≡ len → EndsNone k h → drop 7 (k ++ newest 7 h) ≡ reverse (low_bits len late)
            → LetsIn h self.old → LetsIn (k ++ h) self.new }
        ensures pace { self.old.wait ≤ self.new.wait + len }
    {
        if !self.seen {
            return;
        }
        if self.wait == 0 {
            self.content.push_few(late, len);
            return;
        }
        if len < self.wait {
            self.wait -= len;
            return;
        }
        self.content.clear();
        self.content.push_few(late >> self.wait, len - self.wait);
        self.wait = 0;
    }

    /// Takes eight bits that end no flag. `late` holds the bits seven bits before them, the first one lowest.
    pub fn pass_eight(&mut self, late: u8)
        ensures { (h k : List Bool) → length k ≡ 8 → EndsNone k h → drop 7 (k ++ newest 7 h) ≡ reverse (low_bits 8 late)
            → LetsIn h self.old → LetsIn (k ++ h) self.new }
    {
        if !self.seen {
            return;
        }
        if self.wait == 0 {
            self.content.push_eight(late);
        } else {
            self.pass_few(late, 8);
        }
    }

    /// Takes forty bits that end no flag, if fewer than seven bits follow the last flag so far. `late` holds the bits
    /// seven bits before them, the first one lowest.
    pub fn pass_forty(&mut self, late: u64)
        requires fits { late < 2 ^ 40 }
        requires seen { self.old.seen ≡ true }
        requires waits { self.old.wait ≡ 0 → ⊥ }
        ensures { (h k : List Bool) → length k ≡ 40 → EndsNone k h → drop 7 (k ++ newest 7 h) ≡ reverse (low_bits 40 late)
            → LetsIn h self.old → LetsIn (k ++ h) self.new }
    {
        self.content.restart(late >> self.wait, 40 - self.wait);
        self.wait = 0;
    }

    /// How the content is judged if the next bit ends a flag.
    fn judge(&self) -> Closed
        ensures judged { (h : List Bool) → LetsIn h self.now → IsJudged (inside h) (verdict_of result self.now.content) }
        ensures pace { 8 * weight_of result + self.now.wait ≤ 8 }
    {
        if !self.seen {
            return Closed::Nothing;
        }
        if self.wait == 0 {
            self.content.judge()
        } else {
            Closed::Nothing
        }
    }

    /// Takes the bit that ends a flag, and judges the content before the flag. The content keeps its octets.
    pub fn close(&mut self) -> Closed
        ensures judged { (h : List Bool) → LetsIn h self.old → IsJudged (inside h) (verdict_of result self.new.content) }
        ensures closed { (h : List Bool) → ends_flag (false ∷ h) ≡ true → LetsIn (false ∷ h) self.new }
        ensures pace { 8 * weight_of result + self.old.wait ≤ self.new.wait + 1 }
    {
        let closed = self.judge();
        self.seen = true;
        self.wait = 7;
        closed
    }

    /// Whether the content has more bits than a unit.
    pub fn is_over(&self) -> bool
        ensures { (h : List Bool) → LetsIn h self.now → result ≡ nat_lt MOST_BITS (length (taken_out (inside h))) }
    {
        if !self.seen {
            return false;
        }
        if self.wait == 0 {
            self.content.data_bits.over
        } else {
            false
        }
    }

    /// Whether the content has room for eight more bits of a unit.
    pub fn has_room(&self) -> bool
        ensures { result ≡ true → (h : List Bool) → LetsIn h self.now → length (taken_out (inside h)) + 8 ≤ MOST_BITS }
    {
        if !self.seen {
            return true;
        }
        if self.wait == 0 {
            self.content.data_bits.has_room()
        } else {
            true
        }
    }
}
