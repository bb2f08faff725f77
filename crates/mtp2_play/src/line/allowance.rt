//! How many octets of a line are passed on in a round.
ghost use Rattle.std.specs.Prelude.{◌≡◌, ◌↔◌, ◌<◌, ◌+◌, ◌-◌, min, IsTrue};

/// The octets that may be passed on per round, besides saved ones: twice the number that 64 kbit/s delivers.
const RATE: usize = 16;

/// The largest saved allowance, from rounds in which fewer came: that of 1,000 rounds.
const SAVED: usize = 16_000;

/// The number of rounds for which a line is new. After as many rounds without an octet it is new again.
const NEW: u64 = 1_000;

/// The number of octets that may wait on a new line with its own clock: some blocks of a card.
const BLOCKS: usize = 1_024;

/// Limits how many octets of a line are passed on, and how many may wait.
///
/// Octets sent ahead circulate between two ends. A FIFO that nobody reads keeps those of each second of silence, and
/// all of them would circulate from then on. So on a new line no more octets wait than both ends send at once. If
/// nothing paces a line, the circulating octets are passed on no faster than on a line of twice 64 kbit/s.
#[derive(Clone, Copy)]
pub struct Allowance {
    /// The number of octets that may wait while the line is new.
    most: usize,
    /// The number of octets that may be passed on now.
    credit: usize,
    /// The number of rounds since the line was opened.
    age: u64,
    /// The number of rounds since an octet came.
    quiet: u64,
}

impl Allowance {
    /// Returns the allowance of a line just opened, on which `ahead` octets are sent ahead.
    pub fn new(ahead: usize) -> Allowance {
        let most = if ahead == 0 {
            BLOCKS
        } else {
            ahead.saturating_mul(2)
        };
        Allowance {
            most,
            credit: most,
            age: 0,
            quiet: 0,
        }
    }

    /// Begins a round: the credit grows.
    pub fn begin(&mut self) {
        self.age = self.age.saturating_add(1);
        self.credit = self.credit.saturating_add(RATE).min(SAVED.max(self.most));
    }

    /// Notes that no octet came in a round.
    pub fn miss(&mut self) {
        self.quiet = self.quiet.saturating_add(1);
    }

    /// Notes that octets came. After 1,000 rounds without any the line is new.
    pub fn come(&mut self) {
        if self.quiet >= NEW {
            self.age = 0;
            self.credit = self.most;
        }
        self.quiet = 0;
    }

    /// Returns whether the line is new.
    pub fn is_new(&self) -> bool
        ensures { IsTrue result ↔ (self.now.age < 1000) }
    {
        self.age < NEW
    }

    /// Returns how many more octets may wait if `waiting` do already.
    pub fn room(&self, waiting: usize) -> usize
        ensures new { self.now.age < 1000 → result ≡ self.now.most - waiting }
    {
        if self.is_new() {
            self.most.saturating_sub(waiting)
        } else {
            usize::MAX
        }
    }

    /// Takes credit for at most `octets` octets. Returns how many may be passed on now.
    pub fn count(&mut self, octets: usize) -> usize
        ensures counted { result ≡ min octets self.old.credit }
        ensures left { self.new.credit + result ≡ self.old.credit }
    {
        let counted = octets.min(self.credit);
        self.credit = self.credit.saturating_sub(counted);
        counted
    }
}
