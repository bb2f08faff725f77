//! A part that was read, or the place of the first part of it that is too high.
ghost use Rattle.std.specs.Prelude.{◌≡◌, map, List, IfOk, IfErr};
ghost use Rattle.sdl_ast.specs.Plain.{PlainStatement, PlainAnswer, PlainClause, PlainState, PlainConnection, PlainDeclaration, PlainEntity, own_synonyms, synonyms};
ghost use Rattle.sdl_ast.specs.Heights.{high_in_declaration, high_in_entity};
ghost use Rattle.sdl_ast.specs.Views.{plain_statement, plain_answer, clause_of, state_of, connection_of, declaration_of, entity_of, synonym_of};
ghost use Rattle.sdl_productions.specs.BodyViews.{marked_view};
ghost use Rattle.sdl_productions.specs.Marks.{marked, more, gathered};

use crate::stop::{Stop, push};
use sdl_ast::{
    Answer, Connection, Declaration, Entity, StateClause, StatePart, Statement, Synonym,
    high_in_synonyms,
};
use std::alloc::Global;

/// A part that was read, or the place of the first TASK, OUTPUT, SET, DECISION or synonym in it that is too high.
#[derive(Drop)]
pub enum Marked<T> {
    /// Nothing in it is too high.
    Kept(T),
    /// The statement at this place is too high.
    TooHigh(u32),
}

/// A part of the tree that may be marked.
pub trait Part: Drop {
    ghost Plain: { Type 0 };

    ghost view: { Self → Plain };
}

impl Part for Statement {
    ghost Plain = { PlainStatement };

    ghost view = { plain_statement };
}

impl Part for Answer {
    ghost Plain = { PlainAnswer };

    ghost view = { plain_answer };
}

impl Part for StateClause {
    ghost Plain = { PlainClause };

    ghost view = { clause_of };
}

impl Part for StatePart {
    ghost Plain = { PlainState };

    ghost view = { state_of };
}

impl Part for Connection {
    ghost Plain = { PlainConnection };

    ghost view = { connection_of };
}

impl Part for Declaration {
    ghost Plain = { PlainDeclaration };

    ghost view = { declaration_of };
}

impl Part for Entity {
    ghost Plain = { PlainEntity };

    ghost view = { entity_of };
}

/// Appends a part to others. The first mark stays. `NoMemory` if memory runs out.
pub fn more<'a, T: Part>(parts: Marked<Vec<T>>, part: Marked<T>) -> Result<Marked<Vec<T>>, Stop<'a>>
    ensures ok { IfOk result (λ found. marked_view (λ v. map T.view v.items) found ≡ more (marked_view (λ v. map T.view v.items) parts) (marked_view T.view part)) }
    ensures err { IfErr result (λ stop. stop ≡ Stop.NoMemory) }
{
    let mut parts = match parts {
        Marked::Kept(parts) => parts,
        Marked::TooHigh(at) => return Ok(Marked::TooHigh(at)),
    };
    match part {
        Marked::Kept(part) => push(&mut parts, part)?,
        Marked::TooHigh(at) => return Ok(Marked::TooHigh(at)),
    }
    Ok(Marked::Kept(parts))
}

/// Combines several parts into one. The first mark stays. `NoMemory` if memory runs out.
pub fn gathered<'a, T: Part>(
    alloc: Global,
    parts: Vec<Marked<T>>,
) -> Result<Marked<Vec<T>>, Stop<'a>>
    ensures ok { IfOk result (λ found. marked_view (λ v. map T.view v.items) found ≡ gathered (map (marked_view T.view) parts.items)) }
    ensures err { IfErr result (λ stop. stop ≡ Stop.NoMemory) }
{
    let mut found = Marked::Kept(Vec::new(alloc));
    'rows: for part in parts {
        found = more(found, part)?;
    }
    Ok(found)
}

/// The synonyms of a block, or the place of the first one that is too high.
pub fn limited_synonyms(list: Vec<Synonym>) -> Marked<Entity>
    ensures { marked_view entity_of result ≡ marked high_in_entity (synonyms (map synonym_of list.items)) }
{
    match high_in_synonyms(&list) {
        Some(at) => Marked::TooHigh(at),
        None => Marked::Kept(Entity::Synonyms(list)),
    }
}

/// The synonyms of a process, or the place of the first one that is too high.
pub fn limited_own_synonyms(list: Vec<Synonym>) -> Marked<Declaration>
    ensures { marked_view declaration_of result ≡ marked high_in_declaration (own_synonyms (map synonym_of list.items)) }
{
    match high_in_synonyms(&list) {
        Some(at) => Marked::TooHigh(at),
        None => Marked::Kept(Declaration::Synonyms(list)),
    }
}
