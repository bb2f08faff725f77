//! From a text to its meaning, the text with values in place of its synonyms, with the faults of its
//! declarations.
ghost use Rattle.std.specs.Prelude.{◌≡◌, ◌++◌, ℕ, List, map, [], IfOk, OnOk};
ghost use Rattle.std.specs.List.{flat_map};
ghost use Rattle.sdl_ast.specs.Views.{entity_of, process_of, block_of};
ghost use Rattle.sdl_tables.specs.Names.{names_once, processes_in};
ghost use Rattle.sdl_tables.specs.Scopes.{Marks, repeats};
ghost use Rattle.sdl_rules.specs.Synonyms.{and_synonyms};
ghost use Rattle.sdl_rules.specs.Expansion.{synonyms_in, own_synonyms_of, synonym_names, hiding_names, first_sight, expanded_process, expanded_entity};
ghost use Rattle.sdl_rules.specs.Faults.{Places, no_places, both as places_of_both, AreOf, process_doubles, synonyms_places, process_places, all_places};
ghost use Rattle.sdl_rules.specs.Texts.{IsExpansion};
ghost use Rattle.sdl_rules.specs.Views.{known_of, sight_of};

use crate::copies::{copy_connect, copy_route, copy_signals};
use crate::declaring::{block_synonyms, declare_all, hiding_names, names_of, own_synonyms};
use crate::known_synonyms::{Known, nothing_known};
use crate::processes::expand_process;
use crate::sight::Sight;
use crate::strays::{Strays, first_of, no_strays, strays_in_process};
use sdl_ast::{Block, Entity, Process};
use sdl_tables::{NameKey, NameTable, Scope, earlier, index_names};
use std::alloc::{AllocError, Global};

/// A place of each rule that declarations of synonyms may break: two with one name, and those of [`Strays`].
#[derive(Clone, Copy)]
pub struct Misdeclared {
    pub double: Option<u32>,
    pub strays: Strays,
}

/// A text with values in place of its synonyms, the synonyms of its block, and the faults of its declarations.
#[derive(Drop)]
pub struct Expansion {
    pub block: Block,
    pub known: Known,
    pub declared: Misdeclared,
}

/// A process with values in place of synonyms, and the faults of its own synonyms.
#[derive(Drop)]
struct Expanded {
    process: Process,
    declared: Misdeclared,
}

/// The names that hide synonyms of the block in a process, each once, and the place of the first that is declared twice.
fn hidden_names(alloc: Global, key: NameKey, process: &Process) -> Result<Scope, AllocError>
    ensures names { IfOk result (λ s. s.names ≡ names_once (hiding_names (process_of process.now))) }
    ensures double { IfOk result (λ s. Marks s.double (process_doubles (process_of process.now))) }
{
    let names = hiding_names(alloc, &process.declarations)?;
    index_names(alloc, key, &names)
}

/// Adds the synonyms of a process. Returns their faults.
fn declare_own(alloc: Global, sight: &mut Sight, process: &Process) -> Result<Strays, AllocError>
    ensures sight { OnOk result (sight_of sight.new ≡ and_synonyms (sight_of sight.old) (own_synonyms_of (process_of process.now))) }
    ensures strays { IfOk result (λ found. AreOf (synonyms_places (sight_of sight.old) (own_synonyms_of (process_of process.now))) found) }
{
    let synonyms = own_synonyms(alloc, &process.declarations)?;
    declare_all(alloc, sight, &synonyms)
}

/// Expands a process whose block has these synonyms.
fn expand_one(
    alloc: Global,
    key: NameKey,
    outer: &Known,
    process: &Process,
) -> Result<Expanded, AllocError>
    ensures process { IfOk result (λ x. process_of x.process ≡ expanded_process (known_of outer.now) (process_of process.now)) }
    ensures double { IfOk result (λ x. Marks x.declared.double (process_doubles (process_of process.now))) }
    ensures strays { IfOk result (λ x. AreOf (process_places (known_of outer.now) (process_of process.now)) x.declared.strays) }
{
    let Scope {
        names: hidden,
        double,
    } = hidden_names(alloc, key, process)?;
    let empty = nothing_known(alloc, key);
    let mut sight = Sight {
        key,
        own: empty,
        hidden,
        outer,
    };
    let own = declare_own(alloc, &mut sight, process)?;
    let used = strays_in_process(&sight, process);
    let strays = first_of(own, used);
    let copy = expand_process(alloc, &sight, process)?;
    Ok(Expanded {
        process: copy,
        declared: Misdeclared { double, strays },
    })
}

/// The first of two places of each rule.
fn both(one: Misdeclared, other: Misdeclared) -> Misdeclared
    ensures double { (xs ys : List ℕ) → Marks one.double xs → Marks other.double ys → Marks result.double (xs ++ ys) }
    ensures strays { (p q : Places) → AreOf p one.strays → AreOf q other.strays → AreOf (places_of_both p q) result.strays }
{
    Misdeclared {
        double: earlier(one.double, other.double),
        strays: first_of(one.strays, other.strays),
    }
}

/// No fault.
fn nothing_wrong() -> Misdeclared
    ensures double { Marks result.double [] }
    ensures strays { AreOf no_places result.strays }
{
    Misdeclared {
        double: None,
        strays: no_strays(),
    }
}

/// An entity with values in place of synonyms, and the faults of a process's own synonyms.
#[derive(Drop)]
struct Copied {
    entity: Entity,
    declared: Misdeclared,
}

/// An entity without synonyms of its own, so without faults.
fn nameless(entity: Entity) -> Copied
    ensures entity { result.entity ≡ entity }
    ensures double { Marks result.declared.double [] }
    ensures strays { AreOf no_places result.declared.strays }
{
    Copied {
        entity,
        declared: nothing_wrong(),
    }
}

/// Expands an entity of a block with these synonyms.
fn expand_entity(
    alloc: Global,
    key: NameKey,
    outer: &Known,
    entity: &Entity,
) -> Result<Copied, AllocError>
    ensures entity { IfOk result (λ x. entity_of x.entity ≡ expanded_entity (known_of outer.now) (entity_of entity.now)) }
    ensures double { IfOk result (λ x. Marks x.declared.double (flat_map process_doubles (processes_in (entity_of entity.now)))) }
    ensures strays { IfOk result (λ x. AreOf (all_places (process_places (known_of outer.now)) (processes_in (entity_of entity.now))) x.declared.strays) }
{
    match entity {
        Entity::Signals(declared) => {
            let copy = copy_signals(alloc, declared)?;
            Ok(nameless(Entity::Signals(copy)))
        }
        Entity::Route(route) => {
            let copy = copy_route(alloc, route)?;
            Ok(nameless(Entity::Route(copy)))
        }
        Entity::Connect(connect) => {
            let copy = copy_connect(alloc, connect)?;
            Ok(nameless(Entity::Connect(copy)))
        }
        Entity::Synonyms(_) => Ok(nameless(Entity::Synonyms(Vec::new(alloc)))),
        Entity::Process(process) => {
            let Expanded { process, declared } = expand_one(alloc, key, outer, process)?;
            Ok(Copied {
                entity: Entity::Process(process),
                declared,
            })
        }
    }
}

/// The entities of a block with values in place of synonyms, and the faults of the processes' own synonyms.
#[derive(Drop)]
struct Entities {
    entities: Vec<Entity>,
    declared: Misdeclared,
}

/// Expands all entities of a block with these synonyms.
fn expand_entities(
    alloc: Global,
    key: NameKey,
    outer: &Known,
    entities: &[Entity],
) -> Result<Entities, AllocError>
    ensures entities { IfOk result (λ x. map entity_of x.entities.items ≡ map (expanded_entity (known_of outer.now)) (map entity_of entities.now)) }
    ensures double { IfOk result (λ x. Marks x.declared.double (flat_map process_doubles (flat_map processes_in (map entity_of entities.now)))) }
    ensures strays { IfOk result (λ x. AreOf (all_places (process_places (known_of outer.now)) (flat_map processes_in (map entity_of entities.now))) x.declared.strays) }
{
    let mut copies = Vec::new(alloc);
    let mut found = nothing_wrong();
    for entity in entities {
        let Copied { entity, declared } = expand_entity(alloc, key, outer, entity)?;
        copies.push(entity)?;
        found = both(found, declared);
    }
    Ok(Entities {
        entities: copies,
        declared: found,
    })
}

/// The synonyms of a block with their values, and their faults.
#[derive(Drop)]
struct BlockSynonyms {
    known: Known,
    declared: Misdeclared,
}

/// Evaluates the synonyms of a block in order.
fn declare_block(
    alloc: Global,
    key: NameKey,
    entities: &[Entity],
) -> Result<BlockSynonyms, AllocError>
    ensures known { IfOk result (λ x. known_of x.known ≡ (and_synonyms first_sight (flat_map synonyms_in (map entity_of entities.now))).own) }
    ensures double { IfOk result (λ x. Marks x.declared.double (repeats [] (synonym_names (flat_map synonyms_in (map entity_of entities.now))))) }
    ensures strays { IfOk result (λ x. AreOf (synonyms_places first_sight (flat_map synonyms_in (map entity_of entities.now))) x.declared.strays) }
{
    let synonyms = block_synonyms(alloc, entities)?;
    let names = names_of(alloc, &synonyms)?;
    let Scope { names: _, double } = index_names(alloc, key, &names)?;
    let nothing = nothing_known(alloc, key);
    let own = nothing_known(alloc, key);
    let hidden = NameTable::new(alloc, key);
    let mut sight = Sight {
        key,
        own,
        hidden,
        outer: &nothing,
    };
    let strays = declare_all(alloc, &mut sight, &synonyms)?;
    let Sight {
        key: _,
        own: known,
        hidden: _,
        outer: _,
    } = sight;
    Ok(BlockSynonyms {
        known,
        declared: Misdeclared { double, strays },
    })
}

/// A text with values in place of its synonyms, the synonyms of its block, and the faults of its declarations.
pub fn expand(alloc: Global, block: &Block) -> Result<Expansion, AllocError>
    ensures { IfOk result (λ x. IsExpansion (block_of block.now) x) }
{
    let key = NameKey::of(block);
    let BlockSynonyms {
        known,
        declared: own,
    } = declare_block(alloc, key, &block.entities)?;
    let Entities {
        entities,
        declared: inner,
    } = expand_entities(alloc, key, &known, &block.entities)?;
    let declared = both(own, inner);
    Ok(Expansion {
        block: Block {
            name: block.name,
            entities,
        },
        known,
        declared,
    })
}
