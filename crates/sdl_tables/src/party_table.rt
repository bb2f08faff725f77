//! Parties without duplicates.
ghost use Rattle.std.specs.Prelude.{◌≡◌, [], length, IfOk, OnOk, OnErr, not, slice_get};
ghost use Rattle.std.specs.List.{list_any};
ghost use Rattle.sdl_tables.specs.Routes.{same_party, add_party};

use crate::name_key::NameKey;
use crate::route_index::{Side, side_of};
use indexmap::IndexMap;
use sdl_ast::Party;
use std::alloc::{AllocError, Global};
use std::marker::Model;

/// Parties in the order in which they were added, without duplicates. Contracts see their list.
#[derive(Drop)]
pub struct PartyTable {
    entries: IndexMap<Side, Party, NameKey>,
}

impl Model for PartyTable {
    ghost use Rattle.std.specs.Prelude.{◌≡◌, List, map};
    ghost use Rattle.sdl_ast.specs.declared.tree.Party as tree;
    ghost use Rattle.sdl_tables.specs.RouteIndexes.{side_of};
    ghost use Rattle.indexmap.specs.IndexMap.{keys, values};

    ghost Value = { List tree.Party };

    ghost view = { λ t. values t.entries };

    ghost invariant = { λ t. keys t.entries ≡ map side_of (values t.entries) };
}

impl PartyTable {
    /// An empty table that hashes with this key.
    pub fn new(alloc: Global, key: NameKey) -> Self
        ensures { result ≡ [] }
    {
        PartyTable {
            entries: IndexMap::with_hasher(alloc, key),
        }
    }

    /// The number of parties.
    pub fn len(&self) -> usize
        ensures { result ≡ length self.now }
    {
        self.entries.len()
    }

    /// The party with a number, from 0, if there is one.
    pub fn get(&self, number: usize) -> Option<Party>
        ensures { result ≡ slice_get self.now number }
    {
        let (_, party) = self.entries.get_index(number)?;
        Some(*party)
    }

    /// Adds a party. Returns `false` if the table had it. If memory runs out, nothing changes.
    pub fn add(&mut self, party: Party) -> Result<bool, AllocError>
        ensures added { IfOk result (λ new. new ≡ not (list_any (same_party party) self.old)) }
        ensures parties { OnOk result (self.new ≡ add_party self.old party) }
        ensures err { OnErr result (self.new ≡ self.old) }
    {
        let side: Side = side_of(&party);
        if self.entries.contains_key(&side) {
            return Ok(false);
        }
        self.entries.insert(side, party)?;
        Ok(true)
    }
}
