//! The state of a link, as level 3 sees it.
ghost use Rattle.std.specs.Prelude.{◌≡◌, slice_get};
ghost use Rattle.group_changeover.specs.Saying.{count_in};
ghost use Rattle.link_group.specs.Links.{read_at};
ghost use Rattle.link_group.specs.Stating.{waited_in, answer_in, state_of};

use crate::group::Group;
use crate::link::Link;
use group_changeover::{Answer, Changing};

/// The state of a link.
#[derive(Clone, Copy, Debug, PartialEq, Eq)]
pub struct LinkState {
    /// The link is in service, as last reported.
    pub in_service: bool,
    /// Its changeover began, and the set wasn't rebalanced since.
    pub failed: bool,
    /// The link sends and accepts no message (Q.704, changeover).
    pub held: bool,
    /// How many ticks ago its changeover began, if one goes on.
    pub changeover: Option<u64>,
    /// The far side's answer in the changeover: how many of the held messages it accepted, or that this isn't known.
    pub answer: Option<Answer>,
    /// The link was started while out of service, and hasn't come into service since.
    pub anew: bool,
    /// The far side has a processor outage.
    pub far_out: bool,
    /// This side has a processor outage.
    pub own_out: bool,
    /// Messages may be sent on the line: its actors say so, and it isn't held.
    pub carrying: bool,
    /// Level 3 admits it to selections and to other links' retrieved messages.
    pub admitted: bool,
}

fn waited_in(changing: Option<Changing>) -> Option<u64>
    ensures { result ≡ waited_in changing }
{
    match changing {
        Some(changing) => Some(changing.waited),
        None => None,
    }
}

fn answer_in(changing: Option<Changing>) -> Option<Answer>
    ensures { result ≡ answer_in changing }
{
    match changing {
        Some(changing) => changing.answer,
        None => None,
    }
}

fn state_of(link: &Link) -> LinkState
    ensures { result ≡ state_of link.now }
{
    let marks = link.availability;
    let held = link.terminal.holding().is_held();
    LinkState {
        in_service: link.terminal.in_service(),
        failed: marks.failed,
        held,
        changeover: waited_in(marks.changing),
        answer: answer_in(marks.changing),
        anew: marks.anew,
        far_out: link.terminal.far_out(),
        own_out: link.is_own_out(),
        carrying: link.gives_messages() && !held,
        admitted: marks.admitted,
    }
}

impl Group {
    /// The state of a link, if it exists.
    pub fn state(&self, link: usize) -> Option<LinkState>
        ensures { result ≡ read_at state_of (slice_get self.now.links link) }
    {
        match self.links.get(link) {
            Some(link) => Some(state_of(link)),
            None => None,
        }
    }
}
