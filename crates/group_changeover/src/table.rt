//! The table from selections to links.
ghost use Rattle.std.specs.Prelude.{◌≡◌, ◌<◌, slice_set, Some};
ghost use Rattle.group_changeover.specs.Limits.{SELECTIONS};
ghost use Rattle.group_changeover.specs.Sharing.{link_of};

use crate::availability::SELECTIONS as WIDTH;

/// The link of each selection, if it has one.
#[derive(Clone, Copy, Debug, PartialEq, Eq)]
pub struct Table {
    /// The links, indexed by selection.
    pub links: [Option<usize>; WIDTH],
}

impl Table {
    /// The link of a selection.
    #[tactic(auto, unfolding(crate::specs::Sharing::link_of))]
    pub fn link_of(&self, selection: u8) -> Option<usize>
        ensures { result ≡ link_of self.now.links selection }
    {
        match self.links.get(usize::from(selection)) {
            Some(link) => *link,
            None => None,
        }
    }

    /// Sets the link of a selection.
    pub fn set(&mut self, selection: u8, link: usize)
        requires { selection < SELECTIONS }
        ensures { self.new.links ≡ slice_set self.old.links selection (Some link) }
    {
        self.links[usize::from(selection)] = Some(link);
    }
}
