//! Finds the receivers and the possible senders of a signal by the routes.
ghost use Rattle.std.specs.Prelude.{◌≡◌, [], ◌∷◌, ◌++◌, List, if◌then◌else◌, ◌&&◌, map, IfOk, OnOk, None};
ghost use Rattle.indexmap.specs.IndexMap.{get};
ghost use Rattle.std.specs.List.{flat_map};
ghost use Rattle.sdl_ast.specs.Spelling.{folded};
ghost use Rattle.sdl_ast.specs.declared.tree.Party as tree;
ghost use Rattle.sdl_ast.specs.Views.{path_of, route_of};
ghost use Rattle.sdl_tables.specs.Names.{same_name};
ghost use Rattle.sdl_tables.specs.Routes.{same_party};
ghost use Rattle.sdl_tables.specs.declared.route_index.End.{End as Key};
ghost use Rattle.std.specs.Cmp.Rules.{hashing};
ghost use Rattle.std.proofs.Common.{rules};
ghost use Rattle.sdl_tables.specs.Sides.{side_writes};
ghost use Rattle.sdl_tables.specs.RouteIndexes.{Mention, held, same_end, mentions_of, side_of, end_of, passage_of, listed, is_carried, Indexes};

use crate::name_key::NameKey;
use indexmap::{IndexMap, IndexSet};
use sdl_ast::{Name, Party, Path, Route};
use std::alloc::{AllocError, Global};
use std::hash::{Hash, Hasher};

/// The key of a party: without its place, and with its name in lower case.
#[derive(Clone, Copy, PartialEq, Eq)]
pub(crate) enum Side {
    /// The environment.
    Environment,
    /// The process with this name.
    Process(Name),
}

impl Hash for Side {
    ghost hash_input = { side_writes };

    ghost respects_eq = { Prim.search (hashing, rules) };

    fn hash<H: Hasher>(&self, state: &mut H) {
        match self {
            Side::Environment => state.write_u8(0),
            Side::Process(name) => name.hash(state),
        }
    }
}

/// The key of a party and a signal, with the name of the signal in lower case.
#[derive(Clone, Copy, PartialEq, Eq, Hash)]
pub(crate) struct End {
    side: Side,
    signal: Name,
}

/// The key of a signal that a path carries from one party to another.
#[derive(Clone, Copy, PartialEq, Eq, Hash)]
pub(crate) struct Passage {
    from: Side,
    to: Side,
    signal: Name,
}

/// The key of a party.
pub(crate) fn side_of(party: &Party) -> Side
    ensures { result ≡ side_of party.now }
{
    match party {
        Party::Environment => Side::Environment,
        Party::Process(id) => Side::Process(id.name.folded()),
    }
}

/// The key of a party and a signal.
fn end_of(party: &Party, signal: Name) -> End
    ensures { result ≡ end_of party.now signal }
{
    End {
        side: side_of(party),
        signal: signal.folded(),
    }
}

/// The key of a signal that is carried from one party to another.
fn passage_of(from: &Party, to: &Party, signal: Name) -> Passage
    ensures { result ≡ passage_of from.now to.now signal }
{
    Passage {
        from: side_of(from),
        to: side_of(to),
        signal: signal.folded(),
    }
}

/// For a party and a signal, the parties at the other ends of the paths that carry the signal.
#[derive(Drop)]
pub(crate) struct Ends {
    lists: IndexMap<End, Vec<Party>, NameKey>,
}

impl Ends {
    /// A table without parties.
    fn new(alloc: Global, key: NameKey) -> Self
        ensures { (own : tree.Party) (s : _) → listed result own s ≡ [] }
    {
        Ends {
            lists: IndexMap::with_hasher(alloc, key),
        }
    }

    /// Adds the first party for a key.
    fn begin(&mut self, alloc: Global, key: End, other: Party) -> Result<(), AllocError>
        requires { get same_end self.old.lists key ≡ None }
        ensures { OnOk result ((k : Key) → held self.new k ≡ held self.old k ++ (if same_end key k then other ∷ [] else [])) }
    {
        let mut list = Vec::new(alloc);
        list.push(other)?;
        self.lists.insert(key, list)?;
        Ok(())
    }

    /// Adds a party for a key.
    fn add(&mut self, alloc: Global, key: End, other: Party) -> Result<(), AllocError>
        ensures { OnOk result ((k : Key) → held self.new k ≡ held self.old k ++ (if same_end key k then other ∷ [] else [])) }
    {
        match self.lists.get_mut(&key) {
            Some(list) => Ok(list.push(other)?),
            None => self.begin(alloc, key, other),
        }
    }

    /// The parties for a party and a signal. There are none if no path carries it.
    fn get(&self, own: &Party, signal: Name) -> &[Party]
        ensures { result.now ≡ listed self.now own.now signal }
    {
        match self.lists.get(&end_of(own, signal)) {
            Some(list) => list,
            None => &[],
        }
    }
}

/// The routes of a block, indexed by party and signal.
#[derive(Drop)]
pub(crate) struct RouteIndex {
    carried: IndexSet<Passage, NameKey>,
    receivers: Ends,
    senders: Ends,
}

impl RouteIndex {
    /// An empty index, which hashes with this key.
    fn empty(alloc: Global, key: NameKey) -> Self
        ensures { Indexes result [] }
    {
        RouteIndex {
            carried: IndexSet::with_hasher(alloc, key),
            receivers: Ends::new(alloc, key),
            senders: Ends::new(alloc, key),
        }
    }

    /// Adds a signal that a path carries.
    fn add(
        &mut self,
        alloc: Global,
        from: &Party,
        to: &Party,
        signal: Name,
    ) -> Result<(), AllocError>
        ensures { OnOk result ((ms : List Mention) → Indexes self.old ms
            → Indexes self.new (ms ++ (record { from = from.now; to = to.now; signal = signal }) ∷ [])) }
    {
        let way = Passage {
            from: side_of(from),
            to: side_of(to),
            signal: signal.folded(),
        };
        if self.carried.insert(way)? {
            self.receivers.add(alloc, end_of(from, signal), *to)?;
            self.senders.add(alloc, end_of(to, signal), *from)?;
        }
        Ok(())
    }

    /// Adds the signals that a path carries.
    fn add_path(&mut self, alloc: Global, path: &Path) -> Result<(), AllocError>
        ensures { OnOk result ((ms : List Mention) → Indexes self.old ms → Indexes self.new (ms ++ mentions_of (path_of path.now))) }
    {
        for signal in &path.signals {
            self.add(alloc, &path.from, &path.to, signal.name)?;
        }
        Ok(())
    }

    /// Adds the paths of a route.
    fn add_paths(&mut self, alloc: Global, paths: &[Path]) -> Result<(), AllocError>
        ensures { OnOk result ((ms : List Mention) → Indexes self.old ms → Indexes self.new (ms ++ flat_map mentions_of (map path_of paths.now))) }
    {
        for path in paths {
            self.add_path(alloc, path)?;
        }
        Ok(())
    }

    /// The index of these routes, which hashes with this key.
    pub(crate) fn new(alloc: Global, key: NameKey, routes: &[&Route]) -> Result<Self, AllocError>
        ensures { IfOk result (λ i. Indexes i (flat_map mentions_of (flat_map (λ r. r.paths) (map (λ r. route_of r.now) routes.now)))) }
    {
        let mut index = RouteIndex::empty(alloc, key);
        for route in routes {
            index.add_paths(alloc, &route.paths)?;
        }
        Ok(index)
    }

    /// Whether some path carries a signal from one party to another.
    pub(crate) fn carries(&self, from: &Party, to: &Party, signal: Name) -> bool
        ensures { result ≡ is_carried self.now from.now to.now signal }
    {
        self.carried.contains(&passage_of(from, to, signal))
    }

    /// The parties to which a signal is carried from a party, without duplicates.
    pub(crate) fn receivers(&self, from: &Party, signal: Name) -> &[Party]
        ensures { result.now ≡ listed self.now.receivers from.now signal }
    {
        self.receivers.get(from, signal)
    }

    /// The parties from which a signal is carried to a party, without duplicates.
    pub(crate) fn senders(&self, to: &Party, signal: Name) -> &[Party]
        ensures { result.now ≡ listed self.now.senders to.now signal }
    {
        self.senders.get(to, signal)
    }
}
