//! The set with the state kept of its links.
ghost use Rattle.std.specs.Prelude.{◌≡◌, ◌++◌, [], true, false, length, slice_get, IfSome, IsNone};
ghost use Rattle.std.specs.List.{list_any};
ghost use Rattle.link_group.specs.OneLink.{is_changing};
ghost use Rattle.link_group.specs.Tables.{changing_by};
ghost use Rattle.line_tending.specs.Telling.{report_in, news_by};
ghost use Rattle.line_tending.specs.Tended.{IsNewTended};

use crate::ends::Ends;
use crate::link_duty::LinkDuty;
use crate::ordered::Ordered;
use crate::reader::Reader;
use crate::sharing::Sharing;
use crate::told::{SharedOut, Told};
use group_changeover::Kind;
use link_group::{Group, LinkState};
use std::alloc::{AllocError, Global};
use std::collections::VecDeque;
use std::marker::Model;
use thiserror::Error;

/// The most links of a set.
pub const MOST_LINKS: usize = 16;

/// Why a set can't be managed any longer.
#[derive(Clone, Copy, Debug, PartialEq, Eq, Error)]
pub enum TendError {
    /// Out of memory.
    #[error("out of memory")]
    NoMemory,
    /// A terminal refuses a tick.
    #[error("no tick passes")]
    NoTick,
    /// The set has no such link.
    #[error("no such link")]
    NoLink,
}

impl From<AllocError> for TendError {
    fn from(_error: AllocError) -> TendError {
        TendError::NoMemory
    }
}

/// The fixed parameters of a set.
#[derive(Clone, Copy, Debug, PartialEq, Eq)]
pub struct TendPlan {
    /// The points that it connects.
    pub ends: Ends,
    /// Whether links are tested, and admitted only once a test is answered.
    pub tests: bool,
    /// The number of links.
    pub links: usize,
}

/// A set that manages itself.
#[derive(Drop)]
pub struct TendedSet {
    pub(crate) set: Group,
    pub(crate) plan: TendPlan,
    /// The number of ticks passed.
    pub(crate) ticks: u64,
    pub(crate) told: VecDeque<Told>,
    pub(crate) cares: [LinkDuty; MOST_LINKS],
    pub(crate) sharing: Sharing,
    /// The number of consecutive rounds in which links with a processor out prevented sharing out.
    pub(crate) blocked: u64,
    /// Whether a link was in service and admitted at the last check.
    pub(crate) is_open: bool,
    /// Whether traffic restart allowed is to be sent.
    pub(crate) restarts: bool,
    /// The links of selections as last reported.
    pub(crate) shared: SharedOut,
    /// The state of the reader of messages for level 3.
    pub(crate) reader: Reader,
    /// What level 3 ordered of each link.
    pub(crate) ordered: [Ordered; MOST_LINKS],
    /// For each link, the possibly late order because of which this end began a changeover.
    pub(crate) doubted: [Option<Kind>; MOST_LINKS],
}

impl Model for TendedSet {
    ghost use Rattle.std.specs.Coded.{codes};
    ghost use Rattle.tick_wheel.specs.Timers.{timers_code};
    ghost use Rattle.line_tending.specs.Telling.{reports_in, news_in};
    ghost use Rattle.line_tending.specs.Tended.{Tended};

    ghost Value = { Tended };

    ghost coded = { Prim.hlevel (codes, timers_code) };

    ghost view = { λ t. record { set = t.set; plan = t.plan; ticks = t.ticks; reports = reports_in t.told.items; reader = t.reader; news = news_in t.told.items; ordered = t.ordered } };
}

impl TendedSet {
    /// A new set, with or without tests of its links, before any event.
    pub fn new(alloc: Global, ends: Ends, tests: bool, set: Group) -> TendedSet
        ensures { IsNewTended ends tests set result }
    {
        let links = set.len();
        let mut tender = TendedSet {
            set,
            plan: TendPlan { ends, tests, links },
            ticks: 0,
            told: VecDeque::new(alloc),
            cares: [LinkDuty::new(); MOST_LINKS],
            sharing: Sharing::new(),
            blocked: 0,
            is_open: false,
            restarts: false,
            shared: [None; MOST_LINKS],
            reader: Reader::Here,
            ordered: [Ordered::new(); MOST_LINKS],
            doubted: [None; MOST_LINKS],
        };
        tender.admit_all(!tests);
        tender
    }

    /// The number of links.
    pub fn len(&self) -> usize
        ensures { result ≡ self.now.plan.links }
    {
        self.plan.links
    }

    /// The number of ticks passed.
    pub fn now(&self) -> u64
        ensures { result ≡ self.now.ticks }
    {
        self.ticks
    }

    /// The set of links.
    pub fn set(&self) -> &Group
        ensures { result.now ≡ self.now.set }
    {
        &self.set
    }

    /// The state kept of a link.
    pub(crate) fn care(&self, link: usize) -> LinkDuty {
        self.cares[link % MOST_LINKS]
    }

    /// Stores the state kept of a link.
    pub(crate) fn keep(&mut self, link: usize, care: LinkDuty)
        ensures { self.new ≡ self.old }
    {
        self.cares[link % MOST_LINKS] = care;
    }

    /// Stores the order about a link that may have been late.
    pub(crate) fn doubt(&mut self, link: usize, kind: Option<Kind>)
        ensures { self.new ≡ self.old }
    {
        self.doubted[link % MOST_LINKS] = kind;
    }

    /// Whether an order is a copy of a possibly late one because of which this end began the current changeover.
    pub(crate) fn is_doubted(&self, link: usize, kind: Kind) -> bool {
        self.in_changeover(link) && self.doubted[link % MOST_LINKS] == Some(kind)
    }

    /// Whether no message about a link is owed, and none of its Starts is pending.
    fn is_quiet(&self, link: usize) -> bool {
        let care = self.care(link);
        care.owed.is_none() && care.due.is_none()
    }

    /// Whether a changeover of a link goes on.
    pub(crate) fn in_changeover(&self, link: usize) -> bool
        ensures { result ≡ changing_by (slice_get self.now.set.links link) }
    {
        self.set.in_changeover(link)
    }

    /// The number of links of the set.
    pub(crate) fn count(&self) -> usize
        ensures { result ≡ length self.now.set.links }
    {
        self.set.len()
    }

    /// Whether no message is owed, no changeover goes on, and no Start is pending.
    pub fn is_calm(&self) -> bool
        ensures { result ≡ true → list_any is_changing self.now.set.links ≡ false }
    {
        for link in 0..self.count() {
            if self.in_changeover(link) {
                return false;
            }
            if !self.is_quiet(link) {
                return false;
            }
        }
        true
    }

    /// The next report, if there is one.
    pub fn take_told(&mut self) -> Option<Told>
        ensures some { IfSome result (λ told. self.old.reports ≡ report_in told ++ self.new.reports) }
        ensures news { IfSome result (λ told. self.old.news ≡ news_by told ++ self.new.news) }
        ensures none { IsNone result → self.old.reports ≡ [] }
        ensures no_news { IsNone result → self.old.news ≡ [] }
        ensures left { IsNone result → self.new ≡ self.old }
        ensures same { self.new ≡ record self.old { reports = self.new.reports; news = self.new.news } }
    {
        self.told.pop_front()
    }

    /// Queues something other than a report of a link or of the reader.
    pub(crate) fn tell(&mut self, told: Told) -> Result<(), TendError>
        requires no_report { report_in told ≡ [] }
        requires no_news { news_by told ≡ [] }
        ensures { self.new ≡ self.old }
    {
        match self.told.push_back(told) {
            Ok(()) => Ok(()),
            Err(_) => Err(TendError::NoMemory),
        }
    }

    /// The state of a link, if it exists.
    pub(crate) fn state(&self, link: usize) -> Option<LinkState> {
        self.set.state(link)
    }
}
