//! The receivers of a signal and its possible senders, by the routes of a draft.

ghost use Rattle.std.specs.Prelude.{◌≡◌, ◌<◌, ℕ, false, eqb, ◌&&◌, ◌||◌, [], ◌∷◌, ◌++◌, List, slice_index_or};
ghost use Rattle.std.specs.List.{flat_map};
ghost use Rattle.turn_rules.specs.Parties.{seat, holds};
ghost use Rattle.turn_rules.specs.RouteTables.{none, listed, is_process, Mention, mentions_of, Tells};
ghost use Rattle.plain_laws.specs.Limits.{MOST_PROCESSES};

use crate::party_set::PartySet;
use turn_code::{DraftRoute, Party, ProcessNumber, SignalNumber};

/// A set of parties for each signal.
#[derive(Clone, Copy)]
pub(crate) struct Row {
    sets: [PartySet; 256],
}

impl Row {
    /// An empty set for each signal.
    fn new() -> Self
        ensures { (n b : ℕ) → holds (slice_index_or result.sets n none) b ≡ false }
    {
        Row {
            sets: [PartySet::NONE; 256],
        }
    }

    /// Adds a party to the set for a signal.
    fn add(&mut self, signal: SignalNumber, party: Party)
        ensures { (n b : ℕ) → holds (slice_index_or self.new.sets n none) b
            ≡ (holds (slice_index_or self.old.sets n none) b || (eqb signal.0 n && eqb (seat party) b)) }
    {
        let place = usize::from(signal.0);
        self.sets[place] = self.sets[place].with(party);
    }

    /// The parties for a signal.
    fn get(&self, signal: SignalNumber) -> PartySet
        ensures { result ≡ slice_index_or self.now.sets signal.0 none }
    {
        self.sets[usize::from(signal.0)]
    }
}

/// For each of the first 16 processes and each signal, the parties at the other ends of the paths that bring the signal.
#[derive(Drop)]
pub(crate) struct Ends {
    rows: [Row; 16],
}

impl Ends {
    /// An empty set for each process and signal.
    fn new() -> Self
        ensures { (p n b : ℕ) → p < MOST_PROCESSES → holds (listed result p n) b ≡ false }
    {
        Ends {
            rows: [Row::new(); 16],
        }
    }

    /// Adds the party at the other end of a path that brings a signal, if this end is a process.
    fn add(&mut self, own: Party, other: Party, signal: SignalNumber)
        ensures { (p n b : ℕ) → p < MOST_PROCESSES → holds (listed self.new p n) b
            ≡ (holds (listed self.old p n) b || (is_process p own && (eqb signal.0 n && eqb (seat other) b))) }
    {
        match own {
            Party::Environment => {}
            Party::Process(process) => self.add_to(process, other, signal),
        }
    }

    /// Adds the party for one process; processes after the first 16 are left out.
    fn add_to(&mut self, process: ProcessNumber, other: Party, signal: SignalNumber)
        ensures { (p n b : ℕ) → p < MOST_PROCESSES → holds (listed self.new p n) b
            ≡ (holds (listed self.old p n) b || (eqb process.0 p && (eqb signal.0 n && eqb (seat other) b))) }
    {
        if process.0 < 16 {
            self.rows[usize::from(process.0)].add(signal, other);
        }
    }

    /// The parties for one of the first 16 processes and a signal.
    pub(crate) fn get(&self, process: ProcessNumber, signal: SignalNumber) -> PartySet
        requires { process.0 < MOST_PROCESSES }
        ensures { result ≡ listed self.now process.0 signal.0 }
    {
        self.rows[usize::from(process.0)].get(signal)
    }
}

/// The paths of a draft by process and signal. A look-up takes constant time.
#[derive(Drop)]
pub(crate) struct RouteTable {
    /// The receivers of a signal from a process.
    pub(crate) receivers: Ends,
    /// The senders of a signal to a process.
    pub(crate) senders: Ends,
}

impl RouteTable {
    /// The table of some paths.
    pub(crate) fn new(routes: &[DraftRoute]) -> Self
        ensures { Tells result (flat_map mentions_of routes.now) }
    {
        let mut table = RouteTable::empty();
        for route in routes {
            table.add_route(route);
        }
        table
    }

    /// The table without a path.
    fn empty() -> Self
        ensures { Tells result [] }
    {
        RouteTable {
            receivers: Ends::new(),
            senders: Ends::new(),
        }
    }

    /// Adds a path.
    fn add_route(&mut self, route: &DraftRoute)
        ensures { (ms : List Mention) → Tells self.old ms → Tells self.new (ms ++ mentions_of route.now) }
    {
        for signal in route.signals.as_slice() {
            self.add(route.from, route.to, *signal);
        }
    }

    /// Adds a signal that a path brings.
    fn add(&mut self, from: Party, to: Party, signal: SignalNumber)
        ensures { (ms : List Mention) → Tells self.old ms
            → Tells self.new (ms ++ (record { from = from; to = to; signal = signal }) ∷ []) }
    {
        self.receivers.add(from, to, signal);
        self.senders.add(to, from, signal);
    }
}
