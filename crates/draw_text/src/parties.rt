//! The parties that send and receive signals, and the signals that go from one to another.
ghost use Rattle.std.specs.Prelude.{◌≡◌, [], ◌++◌, ◌∷◌, map, fold, IfOk, OnOk, if◌then◌else◌};
ghost use Rattle.std.specs.List.{flat_map};
ghost use Rattle.sdl_tables.specs.Names.{same_name, is_in, add_name, names_once, processes_of};
ghost use Rattle.sdl_tables.specs.Routes.{same_party};
ghost use Rattle.sdl_ast.specs.Views.{block_of, path_of, process_of, route_of};
ghost use Rattle.sdl_ast.specs.declared.tree.Party.TheVariants.{Environment, Process};
ghost use Rattle.draw_text.specs.BlockEdges.{path_signals, route_signals, parties_of, signals_between};

use sdl_ast::{Identifier, Name, Party, Path, Route};
use sdl_tables::{BlockTable, ProcessTable};
use std::alloc::{AllocError, Global};

/// Whether two spellings are the same name.
fn same_name(one: Name, other: Name) -> bool
    ensures { result ≡ same_name one other }
{
    one.folded() == other.folded()
}

/// Whether two parties are the same.
fn same_party(one: &Party, other: &Party) -> bool
    ensures { result ≡ same_party one.now other.now }
{
    match (one, other) {
        (Party::Environment, Party::Environment) => true,
        (Party::Process(one), Party::Process(other)) => same_name(one.name, other.name),
        _ => false,
    }
}

/// Whether one of these identifiers has the name.
fn is_in(ids: &[Identifier], name: Name) -> bool
    ensures { result ≡ is_in ids.now name }
{
    for id in ids {
        if same_name(name, id.name) {
            return true;
        }
    }
    false
}

/// Adds a name unless it is already there.
fn add_name(names: &mut Vec<Identifier>, id: Identifier) -> Result<(), AllocError>
    ensures { OnOk result (names.new.items ≡ add_name names.old.items id) }
{
    if is_in(names, id.name) {
        return Ok(());
    }
    names.push(id)?;
    Ok(())
}

/// Adds names, each unless it is already there.
fn add_names(names: &mut Vec<Identifier>, ids: &[Identifier]) -> Result<(), AllocError>
    ensures { OnOk result (names.new.items ≡ fold add_name names.old.items ids.now) }
{
    for id in ids {
        add_name(names, *id)?;
    }
    Ok(())
}

/// Adds the signals of a path that leads from one party to another.
fn add_path(
    names: &mut Vec<Identifier>,
    from: &Party,
    to: &Party,
    path: &Path,
) -> Result<(), AllocError>
    ensures { OnOk result (names.new.items ≡ fold add_name names.old.items (path_signals from.now to.now (path_of path.now))) }
{
    if same_party(from, &path.from) && same_party(to, &path.to) {
        add_names(names, &path.signals)
    } else {
        Ok(())
    }
}

/// Adds the signals that a route's paths carry from one party to another.
fn add_route(
    names: &mut Vec<Identifier>,
    from: &Party,
    to: &Party,
    route: &Route,
) -> Result<(), AllocError>
    ensures { OnOk result (names.new.items ≡ fold add_name names.old.items (route_signals from.now to.now (route_of route.now))) }
{
    for path in &route.paths {
        add_path(names, from, to, path)?;
    }
    Ok(())
}

/// Returns the signals that routes carry from one party to another, each once, in the order of the text.
pub(crate) fn signals_between(
    alloc: Global,
    block: &BlockTable<'_>,
    from: &Party,
    to: &Party,
) -> Result<Vec<Identifier>, AllocError>
    ensures { IfOk result (λ v. v.items ≡ signals_between (block_of block.now) from.now to.now) }
{
    let mut names = Vec::new(alloc);
    for route in block.routes() {
        add_route(&mut names, from, to, route)?;
    }
    Ok(names)
}

/// Appends the processes to `parties`.
fn push_processes(
    parties: &mut Vec<Party>,
    processes: &[ProcessTable<'_>],
) -> Result<(), AllocError>
    ensures { OnOk result (parties.new.items ≡ parties.old.items ++ map (λ p. Process p.name) (map process_of processes.now)) }
{
    for process in processes {
        parties.push(Party::Process(process.process().name))?;
    }
    Ok(())
}

/// Returns the environment, followed by the processes in the order of the text.
pub(crate) fn parties_of(alloc: Global, block: &BlockTable<'_>) -> Result<Vec<Party>, AllocError>
    ensures { IfOk result (λ v. v.items ≡ parties_of (block_of block.now)) }
{
    let mut parties = Vec::new(alloc);
    parties.push(Party::Environment)?;
    push_processes(&mut parties, block.tables())?;
    Ok(parties)
}
