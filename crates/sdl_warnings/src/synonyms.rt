//! A9: synonyms that nothing uses.
ghost use Rattle.std.specs.Prelude.{◌≡◌, ◌++◌, map, OnOk};
ghost use Rattle.std.specs.List.{list_any, flat_map};
ghost use Rattle.sdl_ast.specs.Views.{synonym_of, group_of, declaration_of, entity_of, process_of, block_of};
ghost use Rattle.sdl_tables.specs.Names.{is_in, processes_of};
ghost use Rattle.sdl_rules.specs.Expansion.{names_declared, synonym_names, hiding_names};
ghost use Rattle.sdl_warnings.specs.Warned.{uses_outer, is_used, is_limit, unused_synonym, unused_in_entity, unused_own, unused_in_declaration, unused_in_process, unused_synonyms};

use crate::reads::same_name;
use crate::signals::has_name;
use crate::told::Told;
use crate::uses::{has_use, names_in_entities};
use crate::warning::{Kind, Warning, push_unless};
use sdl_ast::{Declaration, Entity, Group, Name, Synonym};
use sdl_tables::BlockTable;
use std::alloc::AllocError;

/// Whether a group of variables has this name.
fn is_in_groups(groups: &[Group], name: Name) -> bool
    ensures { result ≡ is_in (flat_map (λ g. g.names) (map group_of groups.now)) name }
{
    let mut any = false;
    for group in groups {
        any |= has_name(&group.names, name);
    }
    any
}

/// Whether one of these synonyms has this name.
fn is_in_synonyms(synonyms: &[Synonym], name: Name) -> bool
    ensures { result ≡ is_in (synonym_names (map synonym_of synonyms.now)) name }
{
    let mut any = false;
    for synonym in synonyms {
        any |= same_name(name, synonym.name.name);
    }
    any
}

/// Whether a variable or synonym of a declaration has this name.
fn is_in_declaration(declaration: &Declaration, name: Name) -> bool
    ensures { result ≡ is_in (names_declared (declaration_of declaration.now)) name }
{
    match declaration {
        Declaration::Variables(groups) => is_in_groups(groups, name),
        Declaration::Timers(_) => false,
        Declaration::Synonyms(synonyms) => is_in_synonyms(synonyms, name),
    }
}

/// Whether a variable or synonym of these declarations has this name.
fn is_in_declarations(declarations: &[Declaration], name: Name) -> bool
    ensures { result ≡ is_in (flat_map names_declared (map declaration_of declarations.now)) name }
{
    let mut any = false;
    for declaration in declarations {
        any |= is_in_declaration(declaration, name);
    }
    any
}

/// Whether a process has a variable or synonym with this name, which hides the one of the block.
fn hides(process: &Told<'_, '_>, name: Name) -> bool
    ensures { result ≡ is_in (hiding_names (process_of process.now)) name }
{
    is_in_declarations(&process.table().process().declarations, name)
}

/// Whether a process uses the synonym of its block with this name.
fn uses_outer(process: &Told<'_, '_>, name: Name) -> bool
    ensures { result ≡ uses_outer name (process_of process.now) }
{
    !hides(process, name) && has_use(process, name)
}

/// Whether one of these processes uses the synonym of its block with this name.
fn any_uses_outer(processes: &[Told<'_, '_>], name: Name) -> bool
    ensures { result ≡ list_any (uses_outer name) (map process_of processes.now) }
{
    let mut any = false;
    for process in processes {
        any |= uses_outer(process, name);
    }
    any
}

/// Whether anything uses the synonym of a block with this name.
fn is_used(block: &BlockTable, processes: &[Told<'_, '_>], name: Name) -> bool
    requires { map process_of processes.now ≡ processes_of (block_of block.now) }
    ensures { result ≡ is_used (block_of block.now) name }
{
    names_in_entities(&block.block().entities, name) || any_uses_outer(processes, name)
}

/// Whether this is the name of a limit of the terminal.
fn is_limit(name: Name) -> bool
    ensures { result ≡ is_limit name }
{
    let folded = name.folded();
    folded.as_str() == "n1" || folded.as_str() == "n2"
}

/// Appends the warning of a synonym of a block if nothing uses it.
fn push_synonym(
    found: &mut Vec<Warning>,
    block: &BlockTable,
    processes: &[Told<'_, '_>],
    synonym: &Synonym,
) -> Result<(), AllocError>
    requires { map process_of processes.now ≡ processes_of (block_of block.now) }
    ensures { OnOk result (found.new.items ≡ found.old.items ++ unused_synonym (block_of block.now) (synonym_of synonym.now)) }
{
    let id = synonym.name;
    let holds = is_limit(id.name) || is_used(block, processes, id.name);
    push_unless(found, holds, id.at, Kind::UnusedSynonym(id.name))
}

/// Appends the warnings of the synonyms of one SYNONYM of a block.
fn push_all(
    found: &mut Vec<Warning>,
    block: &BlockTable,
    processes: &[Told<'_, '_>],
    synonyms: &[Synonym],
) -> Result<(), AllocError>
    requires { map process_of processes.now ≡ processes_of (block_of block.now) }
    ensures { OnOk result (found.new.items ≡ found.old.items ++ flat_map (unused_synonym (block_of block.now)) (map synonym_of synonyms.now)) }
{
    for synonym in synonyms {
        push_synonym(found, block, processes, synonym)?;
    }
    Ok(())
}

/// Appends the warnings of the synonyms of an entity.
fn push_entity(
    found: &mut Vec<Warning>,
    block: &BlockTable,
    processes: &[Told<'_, '_>],
    entity: &Entity,
) -> Result<(), AllocError>
    requires { map process_of processes.now ≡ processes_of (block_of block.now) }
    ensures { OnOk result (found.new.items ≡ found.old.items ++ unused_in_entity (block_of block.now) (entity_of entity.now)) }
{
    match entity {
        Entity::Signals(_) => Ok(()),
        Entity::Route(_) => Ok(()),
        Entity::Connect(_) => Ok(()),
        Entity::Synonyms(synonyms) => push_all(found, block, processes, synonyms),
        Entity::Process(_) => Ok(()),
    }
}

/// Appends the warnings of the synonyms of these entities of a block.
fn push_entities(
    found: &mut Vec<Warning>,
    block: &BlockTable,
    processes: &[Told<'_, '_>],
    entities: &[Entity],
) -> Result<(), AllocError>
    requires { map process_of processes.now ≡ processes_of (block_of block.now) }
    ensures { OnOk result (found.new.items ≡ found.old.items ++ flat_map (unused_in_entity (block_of block.now)) (map entity_of entities.now)) }
{
    for entity in entities {
        push_entity(found, block, processes, entity)?;
    }
    Ok(())
}

/// Appends the warning of a synonym of a process if nothing uses it.
fn push_own(
    found: &mut Vec<Warning>,
    process: &Told<'_, '_>,
    synonym: &Synonym,
) -> Result<(), AllocError>
    ensures { OnOk result (found.new.items ≡ found.old.items ++ unused_own (process_of process.now) (synonym_of synonym.now)) }
{
    let id = synonym.name;
    let is_used = has_use(process, id.name);
    push_unless(found, is_used, id.at, Kind::UnusedSynonym(id.name))
}

/// Appends the warnings of the synonyms of one SYNONYM of a process.
fn push_all_own(
    found: &mut Vec<Warning>,
    process: &Told<'_, '_>,
    synonyms: &[Synonym],
) -> Result<(), AllocError>
    ensures { OnOk result (found.new.items ≡ found.old.items ++ flat_map (unused_own (process_of process.now)) (map synonym_of synonyms.now)) }
{
    for synonym in synonyms {
        push_own(found, process, synonym)?;
    }
    Ok(())
}

/// Appends the warnings of the synonyms of a declaration.
fn push_declaration(
    found: &mut Vec<Warning>,
    process: &Told<'_, '_>,
    declaration: &Declaration,
) -> Result<(), AllocError>
    ensures { OnOk result (found.new.items ≡ found.old.items ++ unused_in_declaration (process_of process.now) (declaration_of declaration.now)) }
{
    match declaration {
        Declaration::Variables(_) => Ok(()),
        Declaration::Timers(_) => Ok(()),
        Declaration::Synonyms(synonyms) => push_all_own(found, process, synonyms),
    }
}

/// Appends the warnings of the synonyms of these declarations.
fn push_declarations(
    found: &mut Vec<Warning>,
    process: &Told<'_, '_>,
    declarations: &[Declaration],
) -> Result<(), AllocError>
    ensures { OnOk result (found.new.items ≡ found.old.items ++ flat_map (unused_in_declaration (process_of process.now)) (map declaration_of declarations.now)) }
{
    for declaration in declarations {
        push_declaration(found, process, declaration)?;
    }
    Ok(())
}

/// Appends the warnings of the synonyms of a process.
fn push_process(found: &mut Vec<Warning>, process: &Told<'_, '_>) -> Result<(), AllocError>
    ensures { OnOk result (found.new.items ≡ found.old.items ++ unused_in_process (process_of process.now)) }
{
    push_declarations(found, process, &process.table().process().declarations)
}

/// Appends the warnings of the synonyms of these processes.
fn push_processes(found: &mut Vec<Warning>, processes: &[Told<'_, '_>]) -> Result<(), AllocError>
    ensures { OnOk result (found.new.items ≡ found.old.items ++ flat_map unused_in_process (map process_of processes.now)) }
{
    for process in processes {
        push_process(found, process)?;
    }
    Ok(())
}

/// Appends the warnings of the synonyms of a block as it is written, and of its processes.
pub(crate) fn push_synonyms(
    found: &mut Vec<Warning>,
    block: &BlockTable,
    processes: &[Told<'_, '_>],
) -> Result<(), AllocError>
    requires { map process_of processes.now ≡ processes_of (block_of block.now) }
    ensures { OnOk result (found.new.items ≡ found.old.items ++ unused_synonyms (block_of block.now)) }
{
    push_entities(found, block, processes, &block.block().entities)?;
    push_processes(found, processes)
}
