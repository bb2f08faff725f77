//! Lines that wait for their reader.
ghost use Rattle.std.specs.Prelude.{◌≡◌, ◌↔◌, ◌∷◌, ◌++◌, [], ◌==◌, if◌then◌else◌, IfSome, IsNone, IsTrue, option_map, slice_get};
ghost use Rattle.line_filter.specs.Reporting.{ToldLine, kind_of, count_in};

use line_filter::Wait;
use std::alloc::Global;
use std::collections::VecDeque;
use std::marker::Model;

/// A waiting line.
#[derive(Drop)]
pub(crate) struct Waiting {
    /// Its kind.
    pub wait: Wait,
    /// Its octets, including the line feed.
    pub octets: Vec<u8>,
}

/// Waiting lines, the first to be written first.
#[derive(Drop)]
pub struct Backlog {
    pub(crate) lines: VecDeque<Waiting>,
    /// The number of messages for level 3 among them.
    pub(crate) messages: usize,
    /// The number of lines of answers among them.
    pub(crate) answers: usize,
}

impl Model for Backlog {
    ghost use Rattle.std.specs.Prelude.{List};
    ghost use Rattle.std.specs.Coded.{codes};
    ghost use Rattle.line_filter.specs.Reporting.{ToldLine};
    ghost use Rattle.line_streams.specs.Waiting.{lines_of, IsCounted};

    ghost Value = { List ToldLine };

    ghost coded = { Prim.hlevel (codes) };

    ghost view = { λ b. lines_of b.lines.items };

    ghost invariant = { λ b. IsCounted b.lines.items b.messages b.answers };
}

/// 1 for a message, 0 for any other line.
fn messages_in(wait: Wait) -> usize
    ensures { result ≡ (if kind_of wait == kind_of Wait.Message then 1 else 0) }
{
    match wait {
        Wait::Message => 1,
        Wait::Never | Wait::Answer | Wait::Other => 0,
    }
}

/// 1 for a line of an answer, 0 for any other line.
fn answers_in(wait: Wait) -> usize
    ensures { result ≡ (if kind_of wait == kind_of Wait.Answer then 1 else 0) }
{
    match wait {
        Wait::Answer => 1,
        Wait::Never | Wait::Message | Wait::Other => 0,
    }
}

impl Backlog {
    /// No waiting line.
    pub fn new(alloc: Global) -> Backlog
        ensures { result ≡ [] }
    {
        Backlog {
            lines: VecDeque::new(alloc),
            messages: 0,
            answers: 0,
        }
    }

    /// Whether no line waits.
    pub fn is_empty(&self) -> bool
        ensures { IsTrue result ↔ (self.now ≡ []) }
    {
        self.lines.is_empty()
    }

    /// The number of waiting messages for level 3.
    pub fn messages(&self) -> usize
        ensures { result ≡ count_in Wait.Message self.now }
    {
        self.messages
    }

    /// The number of waiting lines of answers.
    pub fn answers(&self) -> usize
        ensures { result ≡ count_in Wait.Answer self.now }
    {
        self.answers
    }

    /// The octets of the first line.
    pub fn first(&self) -> Option<&[u8]>
        ensures { option_map (λ octets. octets.now) result ≡ option_map (λ (line : ToldLine). line.octets) (slice_get self.now 0) }
    {
        match self.lines.front() {
            Some(first) => Some(first.octets.as_slice()),
            None => None,
        }
    }

    /// Removes the first line.
    pub fn drop_first(&mut self)
        ensures none { self.old ≡ [] → self.new ≡ [] }
        ensures some { (first : ToldLine) → (left : _) → self.old ≡ first ∷ left → self.new ≡ left }
    {
        let Some(first) = self.lines.pop_front() else {
            return;
        };
        self.messages = self.messages.saturating_sub(messages_in(first.wait));
        self.answers = self.answers.saturating_sub(answers_in(first.wait));
    }

    /// Appends a line. Returns whether there was memory for it; without memory nothing changes.
    pub fn put(&mut self, wait: Wait, octets: Vec<u8>) -> bool
        ensures put { IsTrue result → self.new ≡ self.old ++ record { wait = wait; octets = octets.items } ∷ [] }
        ensures none { (IsTrue result → ⊥) → self.new ≡ self.old }
    {
        let Some(messages) = self.messages.checked_add(messages_in(wait)) else {
            return false;
        };
        let Some(answers) = self.answers.checked_add(answers_in(wait)) else {
            return false;
        };
        if self.lines.push_back(Waiting { wait, octets }).is_err() {
            return false;
        }
        self.messages = messages;
        self.answers = answers;
        true
    }
}
