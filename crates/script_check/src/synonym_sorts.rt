//! Why the expression of a synonym has a wrong sort (S3).
use crate::operands::{Sorted, first_of, in_expression, place};
use crate::sorts::Cause;
use sdl_lex::Name;
use sdl_scopes::constant_sort;
use sdl_tree::{Block, Declaration, Entity, Expression, Process, Sort, Synonym};
use std::alloc::{AllocError, Global};

/// A synonym's name and the sort of its value.
#[derive(Clone, Copy)]
struct Row {
    name: Name,
    sort: Option<Sort>,
}

/// The synonyms so far: those of the block, then those of the process.
#[derive(Drop)]
struct Rows {
    rows: Vec<Row>,
}

impl Rows {
    /// The sort of the synonym with a name; of several, the last one.
    fn named(&self, name: Name) -> Option<Sort> {
        for row in self.rows.iter().rev() {
            if row.name.folded() == name.folded() {
                return row.sort;
            }
        }
        None
    }
}

impl Sorted for Rows {
    fn sort_of(&self, expression: &Expression) -> Option<Sort> {
        match expression {
            Expression::Variable { name, .. } => self.named(name.name),
            _ => constant_sort(expression),
        }
    }
}

/// Why a synonym is wrong at a place; adds it to the synonyms so far.
fn in_synonym(rows: &mut Rows, synonym: &Synonym, at: u32) -> Result<Option<Cause>, AllocError> {
    let found = rows.sort_of(&synonym.value);
    let inside = in_expression(&*rows, &synonym.value, at);
    rows.rows.push(Row {
        name: synonym.name.name,
        sort: match synonym.sort {
            Some(sort) => Some(sort),
            None => found,
        },
    })?;
    if synonym.sort.is_none() || place(&synonym.value) != at || found == synonym.sort {
        return Ok(inside);
    }
    Ok(Some(Cause::Value {
        variable: synonym.name.name,
        want: synonym.sort,
        found,
    }))
}

/// Why one of the synonyms is wrong at a place.
fn in_synonyms(
    rows: &mut Rows,
    synonyms: &[Synonym],
    at: u32,
) -> Result<Option<Cause>, AllocError> {
    let mut cause = None;
    for synonym in synonyms {
        let here = in_synonym(rows, synonym, at)?;
        cause = first_of(cause, here);
    }
    Ok(cause)
}

/// Why one of the synonyms of a process is wrong at a place.
fn in_process(rows: &mut Rows, process: &Process, at: u32) -> Result<Option<Cause>, AllocError> {
    let mut cause = None;
    for declaration in &process.declarations {
        if let Declaration::Synonyms(list) = declaration {
            let here = in_synonyms(rows, list, at)?;
            cause = first_of(cause, here);
        }
    }
    Ok(cause)
}

/// The synonyms of a block, and why one of them is wrong at a place.
fn in_entities(rows: &mut Rows, entities: &[Entity], at: u32) -> Result<Option<Cause>, AllocError> {
    let mut cause = None;
    for entity in entities {
        if let Entity::Synonyms(list) = entity {
            let here = in_synonyms(rows, list, at)?;
            cause = first_of(cause, here);
        }
    }
    Ok(cause)
}

/// Why one of the synonyms of a block as it is written, or of one of its processes, is wrong at a place.
pub(crate) fn wrong_synonym(
    alloc: Global,
    block: &Block,
    at: u32,
) -> Result<Option<Cause>, AllocError> {
    let mut rows = Rows {
        rows: Vec::new(alloc),
    };
    let mut cause = in_entities(&mut rows, &block.entities, at)?;
    let outer = rows.rows.len();
    for entity in &block.entities {
        if let Entity::Process(process) = entity {
            rows.rows.truncate(outer);
            let here = in_process(&mut rows, process, at)?;
            cause = first_of(cause, here);
        }
    }
    Ok(cause)
}
