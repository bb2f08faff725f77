//! Messages by signalling link selection.
ghost use Rattle.std.specs.Prelude.{◌≡◌, ◌+◌, ◌<◌, ◌≤◌, length, take};
ghost use Rattle.group_changeover.specs.Limits.{SELECTIONS};
ghost use Rattle.group_changeover.specs.Sharing as spec;

use crate::availability::SELECTIONS as WIDTH;
use crate::labels::label_of;
use resend_store::Msu;
use std::collections::VecDeque;

/// A number for each selection.
pub type Counts = [usize; WIDTH];

/// The selection in a message's label; 0 if the message is too short for a label.
#[tactic(auto, unfolding(crate::specs::Sharing::selection_of))]
pub fn selection_of(msu: &Msu) -> u8
    ensures value { result ≡ spec.selection_of msu.now }
    ensures within { result < SELECTIONS }
{
    match label_of(msu) {
        Some(label) => label.sls,
        None => 0,
    }
}

/// 1 if the message at an index has a selection, otherwise 0.
#[tactic(auto, using(crate::proofs::Counting::one_more, crate::proofs::Counting::none_more))]
fn one_on(messages: &VecDeque<Msu>, place: usize, selection: u8) -> usize
    requires { place < length messages.now.items }
    ensures more { length (spec.of selection (take (place + 1) messages.now.items)) ≡ length (spec.of selection (take place messages.now.items)) + result }
    ensures within { result ≤ 1 }
{
    if selection_of(&messages[place]) == selection {
        1
    } else {
        0
    }
}

/// The number of messages with a selection.
#[tactic(auto, using(crate::proofs::Counting::few))]
pub fn count_on(messages: &VecDeque<Msu>, selection: u8) -> usize
    ensures value { result ≡ length (spec.of selection messages.now.items) }
    ensures within { result ≤ length messages.now.items }
{
    let mut count = 0;
    for place in 0..messages.len() {
        count += one_on(messages, place, selection);
    }
    count
}

/// The number of messages with each selection.
#[tactic(auto, unfolding(crate::specs::Sharing::counts_of))]
pub fn counts_of(messages: &VecDeque<Msu>) -> Counts
    ensures { result ≡ spec.counts_of messages.now.items }
{
    [
        count_on(messages, 0),
        count_on(messages, 1),
        count_on(messages, 2),
        count_on(messages, 3),
        count_on(messages, 4),
        count_on(messages, 5),
        count_on(messages, 6),
        count_on(messages, 7),
        count_on(messages, 8),
        count_on(messages, 9),
        count_on(messages, 10),
        count_on(messages, 11),
        count_on(messages, 12),
        count_on(messages, 13),
        count_on(messages, 14),
        count_on(messages, 15),
    ]
}

/// The link of a selection among these: the (selection mod n)th of n links.
#[tactic(auto, unfolding(crate::specs::Sharing::pick))]
pub fn pick(links: &[usize], selection: u8) -> Option<usize>
    ensures { result ≡ spec.pick links.now selection }
{
    if links.is_empty() {
        return None;
    }
    Some(links[selection as usize % links.len()])
}
