//! The declarations of a block and a process: their synonyms in order, and the names that hide others.
ghost use Rattle.std.specs.Prelude.{◌≡◌, ◌++◌, map, IfOk, OnOk};
ghost use Rattle.std.specs.List.{flat_map};
ghost use Rattle.sdl_ast.specs.Views.{tree_of, synonym_of, group_of, declaration_of, entity_of};
ghost use Rattle.sdl_tables.specs.Scopes.{Marks};
ghost use Rattle.sdl_sound.specs.Names.{tree_names};
ghost use Rattle.sdl_rules.specs.Synonyms.{and_synonym, and_synonyms, expanded_tree};
ghost use Rattle.sdl_rules.specs.Expansion.{synonyms_in, own_synonyms_in, names_declared, synonym_names};
ghost use Rattle.sdl_rules.specs.Faults.{AreOf, unseen, other_sort, synonym_places, synonyms_places};
ghost use Rattle.sdl_rules.specs.Views.{sight_of};

use crate::expressions::expand_expression;
use crate::sight::Sight;
use crate::strays::{Strays, first_of, no_strays, unseen};
use crate::values::value_of;
use sdl_ast::{Declaration, Entity, Expression, Group, Identifier, Sort, Synonym};
use sdl_scopes::{bad_in, constant_misfit, wrong_in_constant};
use sdl_tables::earlier;
use std::alloc::{AllocError, Global};

/// The place of a name in an expression that is no synonym.
fn unseen_in(sight: &Sight, expression: &Expression) -> Option<u32>
    ensures { Marks result (flat_map (unseen (sight_of sight.now)) (tree_names (tree_of expression.now))) }
{
    match expression {
        Expression::Number { .. } => None,
        Expression::Truth { .. } => None,
        Expression::Variable { name, .. } => unseen(sight, name),
        Expression::Unary { operand, .. } => unseen_in(sight, operand),
        Expression::Binary { left, right, .. } => {
            let first = unseen_in(sight, left);
            earlier(first, unseen_in(sight, right))
        }
    }
}

/// The place of an expression that has another sort than the written one.
fn other_sort(written: Option<Sort>, expression: &Expression) -> Option<u32>
    ensures { Marks result (other_sort written (tree_of expression.now)) }
{
    match written {
        None => None,
        Some(want) => constant_misfit(Some(want), expression),
    }
}

/// The faults of a synonym with this expression, in which values replace the earlier synonyms.
fn strays_in_synonym(sight: &Sight, synonym: &Synonym, expanded: &Expression) -> Strays
    requires { tree_of expanded.now ≡ expanded_tree (sight_of sight.now) (tree_of synonym.now.value) }
    ensures { AreOf (synonym_places (sight_of sight.now) (synonym_of synonym.now)) result }
{
    let operands = wrong_in_constant(expanded);
    Strays {
        unknown: unseen_in(sight, &synonym.value),
        wrong: earlier(operands, other_sort(synonym.sort, expanded)),
        divisor: bad_in(expanded),
    }
}

/// Adds one more visible synonym. Returns its faults.
fn declare(alloc: Global, sight: &mut Sight, synonym: &Synonym) -> Result<Strays, AllocError>
    ensures sight { OnOk result (sight_of sight.new ≡ and_synonym (sight_of sight.old) (synonym_of synonym.now)) }
    ensures strays { IfOk result (λ found. AreOf (synonym_places (sight_of sight.old) (synonym_of synonym.now)) found) }
{
    let expanded = expand_expression(alloc, sight, &synonym.value)?;
    let strays = strays_in_synonym(sight, synonym, &expanded);
    let value = value_of(alloc, sight.key, synonym.sort, &expanded);
    sight.own.add(synonym.name, value)?;
    Ok(strays)
}

/// Adds several visible synonyms, each of which may be named in the later ones. Returns their faults.
pub(crate) fn declare_all(
    alloc: Global,
    sight: &mut Sight,
    synonyms: &[&Synonym],
) -> Result<Strays, AllocError>
    ensures sight { OnOk result (sight_of sight.new ≡ and_synonyms (sight_of sight.old) (map (λ d. synonym_of d.now) synonyms.now)) }
    ensures strays { IfOk result (λ found. AreOf (synonyms_places (sight_of sight.old) (map (λ d. synonym_of d.now) synonyms.now)) found) }
{
    let mut found = no_strays();
    for synonym in synonyms {
        let here = declare(alloc, sight, *synonym)?;
        found = first_of(found, here);
    }
    Ok(found)
}

/// Appends the synonyms of one SYNONYM to others.
fn push_synonyms<'a>(synonyms: &mut Vec<&'a Synonym>, list: &'a [Synonym]) -> Result<(), AllocError>
    ensures { OnOk result (map (λ d. synonym_of d.now) synonyms.new.items ≡ map (λ d. synonym_of d.now) synonyms.old.items ++ map synonym_of list.now) }
{
    for synonym in list {
        synonyms.push(synonym)?;
    }
    Ok(())
}

/// The synonyms of a block, in the order of the text.
pub(crate) fn block_synonyms<'a>(
    alloc: Global,
    entities: &'a [Entity],
) -> Result<Vec<&'a Synonym>, AllocError>
    ensures { IfOk result (λ v. map (λ d. synonym_of d.now) v.items ≡ flat_map synonyms_in (map entity_of entities.now)) }
{
    let mut synonyms = Vec::new(alloc);
    for entity in entities {
        match entity {
            Entity::Synonyms(list) => push_synonyms(&mut synonyms, list)?,
            Entity::Signals(_) => {}
            Entity::Route(_) => {}
            Entity::Connect(_) => {}
            Entity::Process(_) => {}
        }
    }
    Ok(synonyms)
}

/// The synonyms of a process, in the order of the text.
pub(crate) fn own_synonyms<'a>(
    alloc: Global,
    declarations: &'a [Declaration],
) -> Result<Vec<&'a Synonym>, AllocError>
    ensures { IfOk result (λ v. map (λ d. synonym_of d.now) v.items ≡ flat_map own_synonyms_in (map declaration_of declarations.now)) }
{
    let mut synonyms = Vec::new(alloc);
    for declaration in declarations {
        match declaration {
            Declaration::Synonyms(list) => push_synonyms(&mut synonyms, list)?,
            Declaration::Variables(_) => {}
            Declaration::Timers(_) => {}
        }
    }
    Ok(synonyms)
}

/// The names of these synonyms.
pub(crate) fn names_of(alloc: Global, synonyms: &[&Synonym]) -> Result<Vec<Identifier>, AllocError>
    ensures { IfOk result (λ v. v.items ≡ synonym_names (map (λ d. synonym_of d.now) synonyms.now)) }
{
    let mut names = Vec::new(alloc);
    for synonym in synonyms {
        names.push(synonym.name)?;
    }
    Ok(names)
}

/// Appends the names of groups to others.
fn push_groups(names: &mut Vec<Identifier>, groups: &[Group]) -> Result<(), AllocError>
    ensures { OnOk result (names.new.items ≡ names.old.items ++ flat_map (λ g. g.names) (map group_of groups.now)) }
{
    for group in groups {
        names.extend_from_slice(&group.names)?;
    }
    Ok(())
}

/// Appends the names of synonyms to others.
fn push_names(names: &mut Vec<Identifier>, synonyms: &[Synonym]) -> Result<(), AllocError>
    ensures { OnOk result (names.new.items ≡ names.old.items ++ synonym_names (map synonym_of synonyms.now)) }
{
    for synonym in synonyms {
        names.push(synonym.name)?;
    }
    Ok(())
}

/// The names of the variables and synonyms of a process, in the order of the text.
pub(crate) fn hiding_names(
    alloc: Global,
    declarations: &[Declaration],
) -> Result<Vec<Identifier>, AllocError>
    ensures { IfOk result (λ v. v.items ≡ flat_map names_declared (map declaration_of declarations.now)) }
{
    let mut names = Vec::new(alloc);
    for declaration in declarations {
        match declaration {
            Declaration::Variables(groups) => push_groups(&mut names, groups)?,
            Declaration::Synonyms(list) => push_names(&mut names, list)?,
            Declaration::Timers(_) => {}
        }
    }
    Ok(names)
}
