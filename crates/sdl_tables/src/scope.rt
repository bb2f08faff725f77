//! The names of one scope, and the first duplicate among them.
ghost use Rattle.std.specs.Prelude.{◌≡◌, [], ◌++◌, ◌∷◌, List, ℕ, fold, IfOk, OnOk, if◌then◌else◌};
ghost use Rattle.sdl_tables.specs.Names.{names_once, add_name, is_in};
ghost use Rattle.sdl_tables.specs.Scopes.{Marks, repeats, shared};

use crate::name_key::NameKey;
use crate::name_table::NameTable;
use sdl_ast::Identifier;
use std::alloc::{AllocError, Global};

/// The names of a scope, and the place of the first identifier whose name occurs before it.
#[derive(Drop)]
pub struct Scope {
    pub names: NameTable,
    pub double: Option<u32>,
}

/// The lesser of two places, or the only one.
pub fn earlier(one: Option<u32>, other: Option<u32>) -> Option<u32>
    ensures { (xs ys : List ℕ) → Marks one xs → Marks other ys → Marks result (xs ++ ys) }
{
    match (one, other) {
        (None, place) => place,
        (place, None) => place,
        (Some(a), Some(b)) => Some(if a < b { a } else { b }),
    }
}

/// The first duplicate after one more identifier. `new` tells whether its name is new.
pub(crate) fn marked(double: Option<u32>, new: bool, at: u32) -> Option<u32>
    ensures { (xs : List ℕ) → Marks double xs → Marks result (xs ++ (if new then [] else at ∷ [])) }
{
    if new {
        double
    } else {
        earlier(double, Some(at))
    }
}

/// Numbers the names of a scope in order, and finds the first duplicate.
pub fn index_names(alloc: Global, key: NameKey, ids: &[Identifier]) -> Result<Scope, AllocError>
    ensures names { IfOk result (λ s. s.names ≡ names_once ids.now) }
    ensures double { IfOk result (λ s. Marks s.double (repeats [] ids.now)) }
{
    let mut names = NameTable::new(alloc, key);
    let mut double = None;
    for id in ids {
        let new = names.add(*id)?;
        double = marked(double, new, id.at);
    }
    Ok(Scope { names, double })
}

/// The place of the identifier, if the scope has its name.
fn present(names: &NameTable, id: Identifier) -> Option<u32>
    ensures { Marks result (if is_in names.now id.name then id.at ∷ [] else []) }
{
    if names.contains(id.name) {
        Some(id.at)
    } else {
        None
    }
}

/// The place of the first identifier whose name the scope has.
pub(crate) fn first_shared(names: &NameTable, ids: &[Identifier]) -> Option<u32>
    ensures { Marks result (shared names.now ids.now) }
{
    let mut place = None;
    for id in ids {
        place = earlier(place, present(names, *id));
    }
    place
}

/// Adds names, except those that the table has.
pub fn add_names(names: &mut NameTable, ids: &[Identifier]) -> Result<(), AllocError>
    ensures { OnOk result (names.new ≡ fold add_name names.old ids.now) }
{
    for id in ids {
        names.add(*id)?;
    }
    Ok(())
}
