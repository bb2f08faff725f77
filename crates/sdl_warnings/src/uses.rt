//! Where a process, or the value of a synonym, has the name of a synonym.
ghost use Rattle.std.specs.Prelude.{◌≡◌, ◌||◌, map};
ghost use Rattle.std.specs.List.{list_any, flat_map};
ghost use Rattle.sdl_ast.specs.Views.{synonym_of, declaration_of, entity_of, process_of};
ghost use Rattle.sdl_tables.specs.Names.{variables_of};
ghost use Rattle.sdl_tables.specs.Rows.{variable_of};
ghost use Rattle.sdl_rules.specs.Expansion.{synonyms_in, own_synonyms_in, own_synonyms_of};
ghost use Rattle.sdl_warnings.specs.Standing.{part_of};
ghost use Rattle.sdl_warnings.specs.Warned.{is_named, range_names, answers_name, is_initial, value_names, has_use};

use crate::parts::Part;
use crate::reads::{reads_in, reads_in_parts, same_name};
use crate::told::Told;
use sdl_ast::{Constant, Declaration, Entity, Name, Range, Synonym};
use sdl_tables::Variable;

/// Whether a constant is the synonym with this name.
fn is_named(constant: Constant, name: Name) -> bool
    ensures { result ≡ is_named name constant }
{
    match constant.synonym {
        Some(id) => same_name(name, id.name),
        None => false,
    }
}

/// Whether a range has this name.
fn names_in_range(range: &Range, name: Name) -> bool
    ensures { result ≡ range_names name range.now }
{
    match range {
        Range::Value(constant) => is_named(*constant, name),
        Range::Compared { constant, .. } => is_named(*constant, name),
        Range::Between(low, high) => is_named(*low, name) || is_named(*high, name),
    }
}

/// Whether one of these ranges has this name.
fn names_in_ranges(ranges: &[Range], name: Name) -> bool
    ensures { result ≡ list_any (range_names name) ranges.now }
{
    let mut any = false;
    for range in ranges {
        any |= names_in_range(range, name);
    }
    any
}

/// Whether an answer has this name among its values.
fn names_in_answer(part: &Part<'_>, name: Name) -> bool
    ensures { result ≡ answers_name name (part_of part.now) }
{
    match part {
        Part::Act(_) => false,
        Part::Ask(_) => false,
        Part::Cover(_, answer) => names_in_ranges(&answer.ranges, name),
        Part::Finish(_) => false,
    }
}

/// Whether one of these answers has this name among its values.
fn names_in_answers(parts: &[Part<'_>], name: Name) -> bool
    ensures { result ≡ list_any (answers_name name) (map part_of parts.now) }
{
    let mut any = false;
    for part in parts {
        any |= names_in_answer(part, name);
    }
    any
}

/// Whether the initial value of a variable is the synonym with this name.
fn is_initial(variable: &Variable, name: Name) -> bool
    ensures { result ≡ is_initial name (variable_of variable.now) }
{
    match variable.initial {
        Some(constant) => is_named(constant, name),
        None => false,
    }
}

/// Whether the initial value of one of these variables is the synonym with this name.
fn names_in_variables(variables: &[Variable], name: Name) -> bool
    ensures { result ≡ list_any (is_initial name) (map variable_of variables.now) }
{
    let mut any = false;
    for variable in variables {
        any |= is_initial(variable, name);
    }
    any
}

/// Whether the value of one of these synonyms has this name.
fn names_in_synonyms(synonyms: &[Synonym], name: Name) -> bool
    ensures { result ≡ list_any (value_names name) (map synonym_of synonyms.now) }
{
    let mut any = false;
    for synonym in synonyms {
        any |= reads_in(&synonym.value, name);
    }
    any
}

/// Whether the value of a synonym of a declaration has this name.
fn names_in_declaration(declaration: &Declaration, name: Name) -> bool
    ensures { result ≡ list_any (value_names name) (own_synonyms_in (declaration_of declaration.now)) }
{
    match declaration {
        Declaration::Variables(_) => false,
        Declaration::Timers(_) => false,
        Declaration::Synonyms(synonyms) => names_in_synonyms(synonyms, name),
    }
}

/// Whether the value of a synonym of these declarations has this name.
fn names_in_declarations(declarations: &[Declaration], name: Name) -> bool
    ensures { result ≡ list_any (value_names name) (flat_map own_synonyms_in (map declaration_of declarations.now)) }
{
    let mut any = false;
    for declaration in declarations {
        any |= names_in_declaration(declaration, name);
    }
    any
}

/// Whether the value of a synonym of an entity of a block has this name.
fn names_in_entity(entity: &Entity, name: Name) -> bool
    ensures { result ≡ list_any (value_names name) (synonyms_in (entity_of entity.now)) }
{
    match entity {
        Entity::Signals(_) => false,
        Entity::Route(_) => false,
        Entity::Connect(_) => false,
        Entity::Synonyms(synonyms) => names_in_synonyms(synonyms, name),
        Entity::Process(_) => false,
    }
}

/// Whether the value of a synonym of a block with these entities has this name.
pub(crate) fn names_in_entities(entities: &[Entity], name: Name) -> bool
    ensures { result ≡ list_any (value_names name) (flat_map synonyms_in (map entity_of entities.now)) }
{
    let mut any = false;
    for entity in entities {
        any |= names_in_entity(entity, name);
    }
    any
}

/// Whether the declarations of a process have this name as a value.
fn has_declared_use(process: &Told<'_, '_>, name: Name) -> bool
    ensures { result ≡ (list_any (value_names name) (own_synonyms_of (process_of process.now)) || list_any (is_initial name) (variables_of (process_of process.now))) }
{
    let table = process.table();
    names_in_declarations(&table.process().declarations, name)
        || names_in_variables(table.rows(), name)
}

/// Whether a process has a use of this name.
pub(crate) fn has_use(process: &Told<'_, '_>, name: Name) -> bool
    ensures { result ≡ has_use (process_of process.now) name }
{
    let parts = process.parts();
    has_declared_use(process, name) || reads_in_parts(parts, name) || names_in_answers(parts, name)
}
