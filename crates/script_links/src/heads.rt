//! The first lines of a terminal's script and of a link set's.
ghost use Rattle.std.specs.Prelude.{◌≡◌, ◌≤◌, IfSome};
ghost use Rattle.script_lines.specs.Lines.{texts};
ghost use Rattle.script_lines.specs.Numbers.{count_of};
ghost use Rattle.script_links.specs.Heads.{MOST_LINKS, limits_over, limits_by, cyclic_within, of_mode, head_of_mode, head_within, term_head_of, links_of, head_by, head_of};

use crate::orders::mode_named;
use resend_store::{Mode, RoundLimits};
use script_lines::count;

/// The settings of a terminal in the first line of its script.
#[derive(Clone, Copy, PartialEq, Eq, Debug)]
pub struct TermHead {
    /// The kind of error correction.
    pub mode: Mode,
    /// The numbers of messages and octets at which cyclic retransmission is forced, if they are chosen.
    pub limits: Option<RoundLimits>,
}

impl TermHead {
    /// The limits that the line chooses, or the usual ones if it chooses none.
    pub fn limits_over(&self, usual: RoundLimits) -> RoundLimits
        ensures { result ≡ limits_over usual self.now.limits }
    {
        match self.limits {
            Some(limits) => limits,
            None => usual,
        }
    }
}

/// The settings of a link set in the first line of its script.
#[derive(Clone, Copy, PartialEq, Eq, Debug)]
pub struct GroupHead {
    /// The kind of error correction on all links.
    pub mode: Mode,
    /// The number of links, 1 to 16.
    pub links: u32,
}

/// The limits that two words spell: N1, 1 to 127 messages, and N2, 300 to 8,192 octets (Q.703, 6.4).
fn limits_in(messages: &str, octets: &str) -> Option<RoundLimits>
    ensures { result ≡ limits_by (count_of messages.now) (count_of octets.now) }
{
    let Some(messages) = count(messages) else {
        return None;
    };
    match count(octets) {
        Some(octets) => RoundLimits::chosen(messages as u64, octets as u64),
        None => None,
    }
}

/// A kind of error correction, without chosen limits.
fn of_mode(mode: Option<Mode>) -> Option<TermHead>
    ensures { result ≡ of_mode mode }
{
    match mode {
        Some(mode) => Some(TermHead { mode, limits: None }),
        None => None,
    }
}

/// The settings that `terminal` and another word mean.
fn head_of_mode(word: &str, mode: &str) -> Option<TermHead>
    ensures { result ≡ head_of_mode word.now mode.now }
{
    if word == "terminal" {
        of_mode(mode_named(mode))
    } else {
        None
    }
}

/// Cyclic retransmission with these limits.
fn cyclic_within(limits: Option<RoundLimits>) -> Option<TermHead>
    ensures { result ≡ cyclic_within limits }
{
    match limits {
        Some(limits) => Some(TermHead {
            mode: Mode::Cyclic,
            limits: Some(limits),
        }),
        None => None,
    }
}

/// The settings that `terminal cyclic` and two numbers mean.
fn head_within(word: &str, mode: &str, messages: &str, octets: &str) -> Option<TermHead>
    ensures { result ≡ head_within word.now mode.now messages.now octets.now }
{
    if word == "terminal" && mode == "cyclic" {
        cyclic_within(limits_in(messages, octets))
    } else {
        None
    }
}

/// The settings in the words of a line `terminal basic`, `terminal cyclic` or `terminal cyclic N1 N2`, with N1 from 1
/// to 127 and N2 from 300 to 8,192. Any other line isn't a first line of a terminal's script.
pub fn term_head_in(words: &[&str]) -> Option<TermHead>
    ensures { result ≡ term_head_of (texts words.now) }
{
    match words {
        [word, mode] => head_of_mode(word, mode),
        [word, mode, messages, octets] => head_within(word, mode, messages, octets),
        _ => None,
    }
}

/// The number of links that a word spells, if it is from 1 to 16.
fn links_in(word: &str) -> Option<u32>
    ensures value { result ≡ links_of word.now }
    ensures some { IfSome result (λ n. 1 ≤ n) }
    ensures few { IfSome result (λ n. n ≤ MOST_LINKS) }
{
    match count(word) {
        Some(links) if 1 <= links && links <= 16 => Some(links),
        _ => None,
    }
}

/// The settings that `group` and two other words mean.
fn head_by(word: &str, mode: &str, number: &str) -> Option<GroupHead>
    ensures value { result ≡ head_by word.now mode.now number.now }
    ensures some { IfSome result (λ h. 1 ≤ h.links) }
    ensures few { IfSome result (λ h. h.links ≤ MOST_LINKS) }
{
    if word != "group" {
        return None;
    }
    let Some(mode) = mode_named(mode) else {
        return None;
    };
    match links_in(number) {
        Some(links) => Some(GroupHead { mode, links }),
        None => None,
    }
}

/// The settings in the words of a line `group basic N` or `group cyclic N`, with N from 1 to 16. Any other line isn't a
/// first line of a link set's script.
pub fn head_in(words: &[&str]) -> Option<GroupHead>
    ensures value { result ≡ head_of (texts words.now) }
    ensures some { IfSome result (λ h. 1 ≤ h.links) }
    ensures few { IfSome result (λ h. h.links ≤ MOST_LINKS) }
{
    match words {
        [word, mode, number] => head_by(word, mode, number),
        _ => None,
    }
}
