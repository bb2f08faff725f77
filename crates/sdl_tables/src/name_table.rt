//! Names without duplicates, in the order of the text, with their numbers.
ghost use Rattle.std.specs.Prelude.{◌≡◌, ◌<◌, [], length, position, bytes_eq, IfOk, OnOk, OnErr, IsSome, IfSome, not, slice_get, Some};
ghost use Rattle.indexmap.specs.IndexMap.{keys};
ghost use Rattle.sdl_tables.specs.Names.{is_in, number_of, add_name};

use crate::name_key::NameKey;
use indexmap::IndexMap;
use sdl_ast::{Identifier, Name};
use std::alloc::{AllocError, Global};
use std::marker::Model;

/// Up to this many names are compared one by one, which is faster than hashing.
const FEW: usize = 8;

/// The number of a name in lower case, by comparing it with each name.
fn place_among(names: &[Name], name: &Name) -> Option<usize>
    ensures { result ≡ position (bytes_eq name.now) names.now }
{
    names.iter().position(|other| name == other)
}

/// The number of a name in lower case.
fn place_in(entries: &IndexMap<Name, Identifier, NameKey>, name: &Name) -> Option<usize>
    ensures { result ≡ position (bytes_eq name.now) (keys entries.now) }
{
    if entries.len() > FEW {
        entries.get_index_of(name)
    } else {
        place_among(entries.keys().as_slice(), name)
    }
}

/// The names of one class and scope, in the order and spelling of their first occurrence. Names are
/// looked up in lower case. Contracts see the list of identifiers.
#[derive(Drop)]
pub struct NameTable {
    entries: IndexMap<Name, Identifier, NameKey>,
}

impl Model for NameTable {
    ghost use Rattle.std.specs.Prelude.{◌≡◌, List, map};
    ghost use Rattle.sdl_ast.specs.Spelling.{folded};
    ghost use Rattle.sdl_ast.specs.declared.expression.Identifier.{Identifier};
    ghost use Rattle.indexmap.specs.IndexMap.{keys, values};

    ghost Value = { List Identifier };

    ghost view = { λ t. values t.entries };

    ghost invariant = { λ t. keys t.entries ≡ map (λ id. folded id.name) (values t.entries) };
}

impl NameTable {
    /// An empty table that hashes with this key.
    pub fn new(alloc: Global, key: NameKey) -> Self
        ensures { result ≡ [] }
    {
        NameTable {
            entries: IndexMap::with_hasher(alloc, key),
        }
    }

    /// The number of names.
    pub fn len(&self) -> usize
        ensures { result ≡ length self.now }
    {
        self.entries.len()
    }

    /// The number of a name, from 0, if the table has it.
    pub fn number(&self, name: Name) -> Option<usize>
        ensures number { result ≡ number_of self.now name }
        ensures within { IfSome result (λ n. n < length self.now) }
    {
        place_in(&self.entries, &name.folded())
    }

    /// Whether the table has a name.
    pub fn contains(&self, name: Name) -> bool
        ensures { result ≡ is_in self.now name }
    {
        self.number(name).is_some()
    }

    /// The name with a number, as first written, if there is one.
    pub fn get(&self, number: usize) -> Option<Identifier>
        ensures { result ≡ slice_get self.now number }
    {
        let (_, id) = self.entries.get_index(number)?;
        Some(*id)
    }

    /// The name with a number that exists, as first written.
    pub fn name(&self, number: usize) -> Identifier
        requires { number < length self.now }
        ensures { slice_get self.now number ≡ Some result }
    {
        self.entries[number]
    }

    /// Adds a name. Returns `false` if the table had it. If memory runs out, nothing changes.
    pub fn add(&mut self, id: Identifier) -> Result<bool, AllocError>
        ensures added { IfOk result (λ new. new ≡ not (is_in self.old id.name)) }
        ensures ids { OnOk result (self.new ≡ add_name self.old id) }
        ensures err { OnErr result (self.new ≡ self.old) }
    {
        if self.contains(id.name) {
            return Ok(false);
        }
        let key = id.name.folded();
        self.entries.insert(key, id)?;
        Ok(true)
    }
}
