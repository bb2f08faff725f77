//! Reading a set's links.
ghost use Rattle.std.specs.Prelude.{◌≡◌, slice_get};
ghost use Rattle.std.specs.Option.{option_copied};
ghost use Rattle.link_group.specs.OneLink.{held};
ghost use Rattle.link_group.specs.Links.{read_at};
ghost use Rattle.link_group.specs.Reading.{held_count, sent_count, message_at, terminal_of, book_of};
ghost use Rattle.link_group.specs.Tables.{changing_by};
ghost use Rattle.link_group.specs.Moving.{retrieval_of, hand_count};

use crate::group::Group;
use group_changeover::Counts;
use link_processes::Book;
use link_term::Terminal;
use resend_store::Msu;

impl Group {
    /// How many messages a link holds, if it exists.
    pub fn held(&self, link: usize) -> Option<usize>
        ensures { result ≡ read_at held_count (slice_get self.now.links link) }
    {
        match self.links.get(link) {
            Some(link) => Some(link.terminal.held()),
            None => None,
        }
    }

    /// How many of a link's messages are sent and unacknowledged, if it exists.
    pub fn sent(&self, link: usize) -> Option<usize>
        ensures { result ≡ read_at sent_count (slice_get self.now.links link) }
    {
        match self.links.get(link) {
            Some(link) => Some(link.terminal.sent()),
            None => None,
        }
    }

    /// The message that a link holds at a place; the oldest is at 0.
    pub fn held_at(&self, link: usize, place: usize) -> Option<&Msu>
        ensures { option_copied result ≡ message_at place (slice_get self.now.links link) }
    {
        match self.links.get(link) {
            Some(link) => link.terminal.held_at(place),
            None => None,
        }
    }

    /// Whether a changeover of a link goes on.
    pub fn in_changeover(&self, link: usize) -> bool
        ensures { result ≡ changing_by (slice_get self.now.links link) }
    {
        match self.links.get(link) {
            Some(link) => link.availability.changing.is_some(),
            None => false,
        }
    }

    /// How many of a link's retrieved messages aren't diverted yet (perhaps 0); none if they aren't retrieved.
    pub fn hand(&self, link: usize) -> Option<usize>
        ensures { result ≡ hand_count (slice_get self.now.links link) }
    {
        match self.links.get(link) {
            Some(link) => link.handed(),
            None => None,
        }
    }

    /// How many of these there are of each selection, counted when the link retrieved them and again when a diversion
    /// left some ([`Group::retrieve`], [`Group::abandon`], [`Group::divert`]).
    pub fn hand_counts(&self, link: usize) -> Option<Counts>
        ensures { result ≡ retrieval_of (slice_get self.now.links link) }
    {
        match self.links.get(link) {
            Some(link) => match link.availability.changing {
                Some(changing) => changing.retrieval,
                None => None,
            },
            None => None,
        }
    }

    /// The terminal of a link, if it exists.
    pub fn terminal(&self, link: usize) -> Option<&Terminal>
        ensures { option_copied result ≡ read_at terminal_of (slice_get self.now.links link) }
    {
        match self.links.get(link) {
            Some(link) => Some(&link.terminal),
            None => None,
        }
    }

    /// The actors of a link, with their journal, if it exists.
    pub fn book(&self, link: usize) -> Option<&Book>
        ensures { option_copied result ≡ read_at book_of (slice_get self.now.links link) }
    {
        match self.links.get(link) {
            Some(link) => Some(link.terminal.book()),
            None => None,
        }
    }
}
