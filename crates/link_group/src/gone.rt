//! Messages that left a set. Only contracts and proofs speak of them.
ghost use Rattle.std.specs.Prelude.{◌≡◌, ◌++◌, slice_get};
ghost use Rattle.link_group.specs.Commanding.{cleared_at};
ghost use Rattle.link_group.specs.Gone.{acknowledged, unsure, told_front, unacknowledged_at, left_of};

use crate::group::Group;
use crate::link::Link;
use group_told::Told;
use link_processes::Command;
use resend_store::Msu;
use std::snapshot::Snapshot;

/// A message that left: acknowledged, or unsure if it was never known whether it arrived.
#[derive(Drop)]
pub struct Gone {
    pub message: Msu,
    pub unsure: bool,
}

/// A link before and after a call.
#[derive(Drop)]
struct Change {
    before: Snapshot<Link>,
    after: Snapshot<Link>,
}

/// A link of a set.
#[derive(Drop)]
struct Place {
    set: Snapshot<Group>,
    link: usize,
}

/// A command to a link of a set.
#[derive(Drop)]
struct Order {
    place: Place,
    command: Command,
}

/// With the messages that left the link since then, as acknowledged.
pub(crate) fn with_left(gone: &Told<Gone>, before: Snapshot<Link>, after: &Link) -> Told<Gone>
    ensures { result.items ≡ gone.now.items ++ acknowledged (left_of before.value after.now) }
{
    let after = Snapshot::of(after);
    gone.with(&Change { before, after })
}

impl Group {
    fn place(&self, link: usize) -> Place
        ensures set { result.set.value ≡ self.now }
        ensures link { result.link ≡ link }
    {
        let set = Snapshot::of(self);
        Place { set, link }
    }

    /// Those that left, with the messages of a link that the far side reported as accepted.
    pub(crate) fn with_reported(&self, link: usize) -> Told<Gone>
        ensures { result.items ≡ self.now.gone ++ acknowledged (told_front (slice_get self.now.links link)) }
    {
        let place = self.place(link);
        self.gone.with(&place)
    }

    /// Those that left, with the unacknowledged messages of a link as unsure.
    pub(crate) fn with_unacknowledged(&self, link: usize) -> Told<Gone>
        ensures { result.items ≡ self.now.gone ++ unsure (unacknowledged_at (slice_get self.now.links link)) }
    {
        let place = self.place(link);
        self.gone.with(&place)
    }

    /// Those that left, with the messages that a command to a link clears as unsure.
    pub(crate) fn with_cleared(&self, link: usize, command: Command) -> Told<Gone>
        ensures { result.items ≡ self.now.gone ++ unsure (cleared_at command (slice_get self.now.links link)) }
    {
        let place = self.place(link);
        self.gone.with(&Order { place, command })
    }
}
