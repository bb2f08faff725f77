//! What a link does with its terminal.
ghost use Rattle.std.specs.List.{list_any};
ghost use Rattle.std.specs.Prelude.{◌≡◌, ◌++◌, ◌||◌, map, ◌<◌, ◌≤◌, length, true, IfOk, OnErr};
ghost use Rattle.link_processes.specs.Machine.{is_low};
ghost use Rattle.link_term.specs.Kept.{window_of};
ghost use Rattle.link_group.specs.Gone.{acknowledged, left_of};
ghost use Rattle.link_group.specs.OneLink.{accepted_of};
ghost use Rattle.link_group.specs.Doing.{Listened, Spoken, Sent, Reported, how_many, leaves_out, anew, without_bound_at, without_bound, asked, came_first, marked_served, admits_first, admits_at};

use crate::gone::{Gone, with_left};
use crate::link::Link;
use group_changeover::Points;
use group_told::Told;
use link_term::Terminal;
use link_transceiver::Report;
use std::alloc::AllocError;
use std::snapshot::Snapshot;
use su_octets::Unit;

impl Link {
    /// Whether the link may have selections (in service, not held, admitted) for the first time. It is marked so.
    fn take_part(&mut self) -> bool
        ensures first { result ≡ came_first self.old }
        ensures link { self.new ≡ marked_served self.old }
    {
        let may = self.shares();
        let first = may && !self.availability.served;
        self.availability = self.availability.takes_part(may);
        first
    }

    /// How many of the held messages the far side reported as accepted.
    fn told(&self) -> usize
        ensures { result ≡ how_many (accepted_of self.now) }
    {
        match self.accepted() {
            Some(count) => count,
            None => 0,
        }
    }

    /// Drops the waiting messages that are bound to the link.
    fn leaves_out(&mut self)
        ensures { self.new ≡ leaves_out self.old }
    {
        let sent = self.bound_among(self.terminal.sent());
        let gone = self.bound_among(self.told()).saturating_sub(sent);
        drop_bound(&mut self.terminal, self.points);
        self.availability = self.availability.fewer(gone);
    }

    /// Drops them if the link's directions restarted since this was last checked.
    fn renew(&mut self)
        ensures { self.new ≡ anew self.old }
    {
        if self.terminal.began_anew() {
            self.leaves_out();
        }
    }

    /// Checks whether the link's directions restarted, and whether it came into service, since the last check. Returns
    /// whether it may have selections for the first time.
    pub(crate) fn see(&mut self) -> bool
        ensures first { result ≡ came_first self.old }
        ensures link { self.new ≡ asked self.old }
    {
        self.renew();
        if self.terminal.came_into_service() {
            self.availability = self.availability.serves();
        }
        self.take_part()
    }

    /// Sets whether level 3 admits the link. Returns whether the link may have selections for the first time.
    pub(crate) fn admit(&mut self, way: bool) -> bool
        ensures first { result ≡ admits_first way self.old }
        ensures link { self.new ≡ admits_at way self.old }
    {
        self.availability = self.availability.admits(way);
        self.take_part()
    }

    pub(crate) fn listen(&mut self, octets: &[u8], gone: &mut Told<Gone>) -> usize
        ensures did { Listened octets.now result self.old self.new }
        ensures gone { gone.new.items ≡ gone.old.items ++ acknowledged (left_of self.old self.new) }
    {
        let before = Snapshot::of(self);
        let held = self.terminal.held();
        let taken = self.terminal.line_in(octets);
        let left = held.saturating_sub(self.terminal.held());
        self.availability = self.availability.fewer(left);
        *gone = with_left(gone, before, self);
        taken
    }

    pub(crate) fn speak(&mut self, units: usize) -> Result<Vec<u8>, AllocError>
        ensures ok { IfOk result (λ octets. Spoken units octets.items self.old self.new) }
        ensures err { OnErr result (self.new ≡ self.old) }
    {
        self.terminal.line_out(units)
    }

    pub(crate) fn send(&mut self) -> Result<Option<Unit>, AllocError>
        ensures ok { IfOk result (λ unit. Sent unit self.old self.new) }
        ensures err { OnErr result (self.new ≡ self.old) }
        ensures low { OnErr result (is_low self.old.terminal.processes ≡ true) }
    {
        self.terminal.unit_out()
    }

    pub(crate) fn tell(&mut self) -> Option<Report>
        ensures { Reported result self.old self.new }
    {
        self.terminal.report()
    }
}

/// Drops the waiting message at a place, if it is bound to a link.
fn drop_bound_at(terminal: &mut Terminal, points: Points, place: usize)
    requires waits { (window_of terminal.old).sent ≤ place }
    requires there { place < length (window_of terminal.old).kept }
    ensures { terminal.new ≡ without_bound_at points place terminal.old }
{
    let bound = match terminal.held_at(place) {
        Some(msu) => points.is_bound(msu),
        None => false,
    };
    if bound {
        terminal.drop_waiting(place);
    }
}

/// Drops the waiting messages that are bound to a link.
fn drop_bound(terminal: &mut Terminal, points: Points)
    ensures { terminal.new ≡ without_bound points terminal.old }
{
    let sent = terminal.sent();
    let mut place = terminal.held();
    while place > sent {
        place -= 1;
        drop_bound_at(terminal, points, place);
    }
}

/// Checks a link. Returns whether it, or one before it, may have selections for the first time.
fn see_more(link: &mut Link, before: bool) -> bool
    ensures first { result ≡ before || came_first link.old }
    ensures link { link.new ≡ asked link.old }
{
    let first = link.see();
    before || first
}

/// Checks all links. Returns whether any may have selections for the first time.
pub(crate) fn see_all(links: &mut [Link]) -> bool
    ensures first { result ≡ list_any came_first links.old }
    ensures links { links.new ≡ map asked links.old }
{
    let mut first = false;
    for at in 0..links.len() {
        first = see_more(&mut links[at], first);
    }
    first
}
