//! The link set.
ghost use Rattle.std.specs.Prelude.{◌≡◌, length};
ghost use Rattle.group_changeover.specs.Sharing.{link_of};
ghost use Rattle.link_group.specs.Laws.{Accounted};

use crate::gone::Gone;
use crate::laws::{each_message_stands_in_one_place, unsure_messages_are_counted};
use crate::link::Link;
use arrayvec::ArrayVec;
use group_changeover::Table;
use group_told::Told;
use resend_store::Msu;
use std::marker::Model;

/// The octets of a changeover message, as a signalling information field.
pub type Sif = ArrayVec<u8, 6>;

/// The links between two signalling points, 1 to 16.
#[derive(Drop)]
pub struct Group {
    pub(crate) own: u16,
    pub(crate) peer: u16,
    pub(crate) links: Vec<Link>,
    pub(crate) table: Table,
    pub(crate) unsure: u64,
    pub(crate) accepted: Told<Msu>,
    pub(crate) gone: Told<Gone>,
}

impl Model for Group {
    ghost use Rattle.std.specs.Prelude.{◌<◌, ◌≤◌, length};
    ghost use Rattle.std.specs.Coded.{codes};
    ghost use Rattle.tick_wheel.specs.Timers.{timers_code};
    ghost use Rattle.link_group.specs.Limits.{MOST_LINKS, POINT_CODES};
    ghost use Rattle.link_group.specs.Set.{LinkSet};
    ghost use Rattle.link_group.specs.Reached.{IsReached};

    ghost Value = { LinkSet };

    ghost coded = { Prim.hlevel (codes, timers_code) };

    ghost view = { λ g. record { own = g.own; peer = g.peer; links = g.links.items; table = g.table.links; unsure = g.unsure; accepted = g.accepted.items; gone = g.gone.items } };

    ghost invariant = { λ g. (length g.links.items ≤ MOST_LINKS) × (g.own < POINT_CODES) × (g.peer < POINT_CODES)
        × IsReached (record { own = g.own; peer = g.peer; links = g.links.items; table = g.table.links; unsure = g.unsure; accepted = g.accepted.items; gone = g.gone.items }) };
}

impl Group {
    /// The invariant of every set: a list of calls leads to it from a new one, in which [`Group::send`] took the
    /// messages that the set lists as accepted. Each of them has left, acknowledged or unsure, as listed, or is in
    /// exactly one place, in the order of `send`: on its selection's link or in that link's hand. A link with messages
    /// in its hand holds none. `unsure` is how many of those that left are unsure, up to its greatest value. Only
    /// contracts read the two lists: each call says what it adds to them. Calling it costs nothing.
    pub fn law(&self)
        ensures { Accounted self.now }
    {
        each_message_stands_in_one_place();
        unsure_messages_are_counted();
        let _inside = self.unsure;
    }

    /// How many messages may have been lost (it isn't known whether they arrived). Stops at the greatest value.
    pub fn unsure(&self) -> u64
        ensures { result ≡ self.now.unsure }
    {
        self.unsure
    }

    /// The link of a selection, if it has one.
    pub fn link_of(&self, selection: u8) -> Option<usize>
        ensures { result ≡ link_of self.now.table selection }
    {
        self.table.link_of(selection)
    }

    /// How many links there are.
    pub fn len(&self) -> usize
        ensures { result ≡ length self.now.links }
    {
        self.links.len()
    }
}
