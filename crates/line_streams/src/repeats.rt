//! Units that are repeats, which a capture may omit.
ghost use Rattle.std.specs.Prelude.{◌≡◌, ◌≤◌, ◌&&◌, ◌||◌, not, true, false, [], List, length};
ghost use Rattle.line_streams.specs.Repeats.{is_message, is_same, is_repeat, is_kept, StandsFor, with_kept};
ghost use Rattle.line_streams.specs.declared.seen.Seen.{Seen as OneSeen};

use crate::seen::Seen;
use arrayvec::ArrayVec;

/// Whether octets are those of a message signal unit.
fn is_message(octets: &[u8]) -> bool
    ensures { result ≡ is_message octets.now }
{
    5 < octets.len()
}

/// The state kept of one direction of a link.
#[derive(Drop)]
struct Latest {
    /// The octets of its last record; empty before the first.
    octets: ArrayVec<u8, 278>,
    /// Whether the other direction has recorded news since.
    news: bool,
}

impl Latest {
    /// Before the first record.
    fn new() -> Latest
        ensures octets { result.octets.items ≡ [] }
        ensures news { result.news ≡ false }
    {
        Latest {
            octets: ArrayVec::new(),
            news: false,
        }
    }

    /// Whether the last record has these octets.
    fn is_same(&self, octets: &[u8]) -> bool
        ensures { result ≡ is_same self.now.octets.items octets.now }
    {
        self.octets.as_slice() == octets
    }

    /// Whether a unit is no message, equals the last record, and the other direction had no news since.
    fn is_repeat(&self, octets: &[u8]) -> bool
        ensures { result ≡ (not (is_message octets.now) && (is_same self.now.octets.items octets.now && not self.now.news)) }
    {
        !is_message(octets) && (self.is_same(octets) && !self.news)
    }

    /// Records a unit. Returns whether it is news: a message, or different from the record before it.
    fn take(&mut self, octets: &[u8]) -> bool
        requires { length octets.now ≤ 278 }
        ensures news { result ≡ (is_message octets.now || not (is_same self.old.octets.items octets.now)) }
        ensures octets { self.new.octets.items ≡ octets.now }
        ensures none { self.new.news ≡ false }
    {
        let news = is_message(octets) || !self.is_same(octets);
        self.octets.clear();
        self.octets.try_extend_from_slice(octets).unwrap();
        self.news = false;
        news
    }

    /// Notes whether a recorded unit of the other direction is news.
    fn hear(&mut self, news: bool)
        ensures octets { self.new.octets ≡ self.old.octets }
        ensures news { self.new.news ≡ (news || self.old.news) }
    {
        self.news = news || self.news;
    }
}

/// Decides which units of a link are recorded.
#[derive(Drop)]
pub struct Repeats {
    /// Whether all units are recorded.
    every: bool,
    went: Latest,
    came: Latest,
}

impl Repeats {
    /// Before the first unit.
    pub fn new(every: bool) -> Repeats
        ensures every { result.every ≡ every }
        ensures first { (link : _) → StandsFor link [] result }
    {
        Repeats {
            every,
            went: Latest::new(),
            came: Latest::new(),
        }
    }

    /// Whether a unit is a repeat.
    fn is_repeat(&self, seen: &Seen) -> bool
        ensures { (h : List OneSeen) → StandsFor seen.now.link h self.now → result ≡ is_repeat h seen.now }
    {
        if seen.went {
            self.went.is_repeat(seen.octets.as_slice())
        } else {
            self.came.is_repeat(seen.octets.as_slice())
        }
    }

    /// Notes a recorded unit.
    fn note(&mut self, seen: &Seen)
        ensures stands { (h : List OneSeen) → StandsFor seen.now.link h self.old → StandsFor seen.now.link (with_kept true seen.now h) self.new }
        ensures every { self.new.every ≡ self.old.every }
    {
        if seen.went {
            let news = self.went.take(seen.octets.as_slice());
            self.came.hear(news);
        } else {
            let news = self.came.take(seen.octets.as_slice());
            self.went.hear(news);
        }
    }

    /// Whether a unit that follows the earlier ones is recorded.
    pub fn keeps(&mut self, seen: &Seen) -> bool
        ensures kept { (h : List OneSeen) → StandsFor seen.now.link h self.old → result ≡ is_kept self.old.every h seen.now }
        ensures stands { (h : List OneSeen) → StandsFor seen.now.link h self.old → StandsFor seen.now.link (with_kept result seen.now h) self.new }
        ensures every { self.new.every ≡ self.old.every }
    {
        let keeps = self.every || !self.is_repeat(seen);
        if keeps {
            self.note(seen);
        }
        keeps
    }
}
