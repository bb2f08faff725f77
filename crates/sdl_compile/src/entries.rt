//! The variables that are set as each connection begins, and so at each place of a piece.
ghost use Rattle.std.specs.Prelude.{◌≡◌, ◌++◌, true, OnOk, IfOk, map};
ghost use Rattle.sdl_ast.specs.Views.{connection_of, process_of};
ghost use Rattle.sdl_emit.specs.Trimmed.{AreTrimmed};
ghost use Rattle.sdl_emit.specs.Bodies.{IsBody};
ghost use Rattle.sdl_emit.specs.Scopes.{scope_in, piece_in};
ghost use Rattle.sdl_meaning.specs.Named.{NamedConnections, NamedPiece};
ghost use Rattle.sdl_compile.specs.Reads.{everything};
ghost use Rattle.sdl_compile.specs.Entries.{entry_at, AreOfAll, connection_met, connections_met};
ghost use Rattle.sdl_compile.specs.Facts.{text_sets, connections_sets, piece_sets};
ghost use Rattle.sdl_meaning.specs.Code.{text_at};

use crate::marks::mark_text;
use crate::sets::{everything, mark_places};
use sdl_ast::{Connection, Identifier, Transition};
use sdl_emit::{Body, Names};
use std::alloc::{AllocError, Global};
use turn_code::VariableSet;

/// The sets of the connections before any JOIN is seen: every variable for each.
fn start_entries(alloc: Global, connections: &[Connection]) -> Result<Vec<VariableSet>, AllocError>
    ensures { IfOk result (λ v. v.items ≡ map (λ x. everything) (map connection_of connections.now)) }
{
    let entries = vec![in alloc; everything(); connections.len()]?;
    Ok(entries)
}

/// The set with which a connection begins.
fn entry_of(entries: &[VariableSet], number: usize) -> VariableSet
    ensures { result ≡ entry_at entries.now number }
{
    match entries.get(number) {
        Some(entry) => *entry,
        None => everything(),
    }
}

/// Meets the JOINs of a connection. `sets` keeps its memory from one connection to the next.
fn meet_connection(
    sets: &mut Vec<VariableSet>,
    entries: &mut Vec<VariableSet>,
    names: &Names,
    copies: &[Transition],
    number: usize,
) -> Result<(), AllocError>
    requires copied { AreTrimmed (process_of names.now.process.now).connections copies.now }
    requires connections { NamedConnections (scope_in names.now) }
    ensures { OnOk result (entries.new.items ≡ connection_met (scope_in names.now) number entries.old.items) }
{
    if let Some(copy) = copies.get(number) {
        let set = entry_of(entries, number);
        sets.clear();
        mark_text(sets, entries, names, copy, set)?;
    }
    Ok(())
}

/// Whether the set has every variable.
fn is_everything(set: VariableSet) -> bool
    ensures { result ≡ true → set ≡ everything }
{
    set.0 == u32::MAX
}

/// Passes over a connection that begins with every variable, since its JOINs change nothing: nothing joins it so far,
/// or all variables are set at each JOIN to it.
fn meet_if_joined(
    sets: &mut Vec<VariableSet>,
    entries: &mut Vec<VariableSet>,
    names: &Names,
    copies: &[Transition],
    number: usize,
) -> Result<(), AllocError>
    requires copied { AreTrimmed (process_of names.now.process.now).connections copies.now }
    requires connections { NamedConnections (scope_in names.now) }
    requires all { AreOfAll entries.old.items }
    ensures { OnOk result (entries.new.items ≡ connection_met (scope_in names.now) number entries.old.items) }
{
    let set = entry_of(entries, number);
    if is_everything(set) {
        return Ok(());
    }
    meet_connection(sets, entries, names, copies, number)
}

/// Meets the JOINs of all connections. Each is joined only from those after it in the order.
fn meet_connections(
    alloc: Global,
    entries: &mut Vec<VariableSet>,
    names: &Names,
    copies: &[Transition],
    order: &[usize],
) -> Result<(), AllocError>
    requires copied { AreTrimmed (process_of names.now.process.now).connections copies.now }
    requires connections { NamedConnections (scope_in names.now) }
    requires all { AreOfAll entries.old.items }
    ensures { OnOk result (entries.new.items ≡ connections_met (scope_in names.now) order.now entries.old.items) }
{
    let mut sets = Vec::new(alloc);
    let mut left = order.len();
    while left > 0 {
        left -= 1;
        meet_if_joined(&mut sets, entries, names, copies, order[left])?;
    }
    Ok(())
}

/// Adds the sets at the places of a connection.
fn mark_connection(
    alloc: Global,
    sets: &mut Vec<VariableSet>,
    entries: &[VariableSet],
    names: &Names,
    copies: &[Transition],
    number: usize,
) -> Result<(), AllocError>
    requires copied { AreTrimmed (process_of names.now.process.now).connections copies.now }
    requires connections { NamedConnections (scope_in names.now) }
    ensures { OnOk result (sets.new.items ≡ sets.old.items ++ text_sets (scope_in names.now) (entry_at entries.now number) (text_at (scope_in names.now) number)) }
{
    if let Some(copy) = copies.get(number) {
        let mut unused = Vec::new(alloc);
        let set = entry_of(entries, number);
        mark_text(sets, &mut unused, names, copy, set)?;
    }
    Ok(())
}

/// Adds the sets at the places of these connections, one after another.
fn mark_connections(
    alloc: Global,
    sets: &mut Vec<VariableSet>,
    entries: &[VariableSet],
    names: &Names,
    copies: &[Transition],
    numbers: &[usize],
) -> Result<(), AllocError>
    requires copied { AreTrimmed (process_of names.now.process.now).connections copies.now }
    requires connections { NamedConnections (scope_in names.now) }
    ensures { OnOk result (sets.new.items ≡ sets.old.items ++ connections_sets (scope_in names.now) entries.now numbers.now) }
{
    for number in numbers {
        mark_connection(alloc, sets, entries, names, copies, *number)?;
    }
    Ok(())
}

/// The setting of the code of a transition: the places of INPUT and the variables that are set as it begins. `order`
/// has each connection of the process after those that it joins, `copies` their copies, and `numbers` those that are in
/// the piece.
#[derive(Drop)]
pub struct PieceSets<'a> {
    pub places: &'a [Option<Identifier>],
    pub entry: VariableSet,
    pub order: &'a [usize],
    pub copies: &'a [Transition],
    pub numbers: &'a [usize],
}

/// The variables that are set at each place of a piece. Fails only if memory runs out.
pub fn place_sets(
    alloc: Global,
    names: &Names,
    standing: &PieceSets,
    body: &Body,
) -> Result<Vec<VariableSet>, AllocError>
    requires body { IsBody body.now }
    requires named { NamedPiece (scope_in names.now) (piece_in standing.now.places.now body.now.whole.now) }
    requires copied { AreTrimmed (process_of names.now.process.now).connections standing.now.copies.now }
    ensures { IfOk result (λ v. v.items ≡ piece_sets (scope_in names.now) standing.now.entry (piece_in standing.now.places.now body.now.whole.now) standing.now.order.now standing.now.numbers.now) }
{
    let mut entries = start_entries(alloc, &names.process.process().connections)?;
    let mut sets = Vec::new(alloc);
    let set = mark_places(&mut sets, names, standing.places, standing.entry)?;
    mark_text(&mut sets, &mut entries, names, body.copy, set)?;
    meet_connections(alloc, &mut entries, names, standing.copies, standing.order)?;
    mark_connections(
        alloc,
        &mut sets,
        &entries,
        names,
        standing.copies,
        standing.numbers,
    )?;
    Ok(sets)
}
