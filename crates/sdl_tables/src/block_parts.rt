//! Builds the parts of the tables of a block: signals, routes and processes.
ghost use Rattle.std.specs.Prelude.{◌≡◌, ◌++◌, [], ℕ, List, map, IfOk, OnOk, None};
ghost use Rattle.std.specs.List.{flat_map};
ghost use Rattle.sdl_ast.specs.Views.{signal_of, route_of, process_of, entity_of, block_of};
ghost use Rattle.sdl_tables.specs.Names.{signals_in, routes_in, processes_in, signal_names, route_names, process_names, signals_of, processes_of, routes_of, names_once, timers_of};
ghost use Rattle.sdl_tables.specs.RouteIndexes.{mentions_of, Indexes};
ghost use Rattle.sdl_tables.specs.Routes.{paths_of};
ghost use Rattle.sdl_tables.specs.Scopes.{Marks, repeats, process_scopes, shared, signal_timers};

use crate::fault::TableFault;
use crate::name_key::NameKey;
use crate::name_table::NameTable;
use crate::process_table::{ProcessTable, shared_declared};
use crate::route_index::RouteIndex;
use crate::scope::{Scope, earlier, index_names};
use sdl_ast::{Block, Entity, Identifier, Process, Route, SignalDeclaration};
use std::alloc::{AllocError, Global};

/// Appends signals that are declared together.
fn push_signals<'a>(
    rows: &mut Vec<&'a SignalDeclaration>,
    declared: &'a [SignalDeclaration],
) -> Result<(), AllocError>
    ensures { OnOk result (map (λ s. signal_of s.now) rows.new.items
        ≡ map (λ s. signal_of s.now) rows.old.items ++ map signal_of declared.now) }
{
    for signal in declared {
        rows.push(signal)?;
    }
    Ok(())
}

/// Collects the signals of a block, in the order of the text.
fn collect_signals<'a>(
    alloc: Global,
    entities: &'a [Entity],
) -> Result<Vec<&'a SignalDeclaration>, AllocError>
    ensures { IfOk result (λ rows. map (λ s. signal_of s.now) rows.items ≡ flat_map signals_in (map entity_of entities.now)) }
{
    let mut rows: Vec<&'a SignalDeclaration> = Vec::new(alloc);
    for entity in entities {
        match entity {
            Entity::Signals(declared) => push_signals(&mut rows, declared)?,
            Entity::Route(_) => {}
            Entity::Connect(_) => {}
            Entity::Synonyms(_) => {}
            Entity::Process(_) => {}
        }
    }
    Ok(rows)
}

/// Collects the routes of a block, in the order of the text.
fn collect_routes<'a>(alloc: Global, entities: &'a [Entity]) -> Result<Vec<&'a Route>, AllocError>
    ensures { IfOk result (λ rows. map (λ r. route_of r.now) rows.items ≡ flat_map routes_in (map entity_of entities.now)) }
{
    let mut rows: Vec<&'a Route> = Vec::new(alloc);
    for entity in entities {
        match entity {
            Entity::Signals(_) => {}
            Entity::Route(route) => rows.push(route)?,
            Entity::Connect(_) => {}
            Entity::Synonyms(_) => {}
            Entity::Process(_) => {}
        }
    }
    Ok(rows)
}

/// Collects the processes of a block, in the order of the text.
fn collect_processes<'a>(
    alloc: Global,
    entities: &'a [Entity],
) -> Result<Vec<&'a Process>, AllocError>
    ensures { IfOk result (λ rows. map (λ p. process_of p.now) rows.items ≡ flat_map processes_in (map entity_of entities.now)) }
{
    let mut rows: Vec<&'a Process> = Vec::new(alloc);
    for entity in entities {
        match entity {
            Entity::Signals(_) => {}
            Entity::Route(_) => {}
            Entity::Connect(_) => {}
            Entity::Synonyms(_) => {}
            Entity::Process(process) => rows.push(process)?,
        }
    }
    Ok(rows)
}

/// The names of signals.
fn signal_ids(alloc: Global, rows: &[&SignalDeclaration]) -> Result<Vec<Identifier>, AllocError>
    ensures { IfOk result (λ ids. ids.items ≡ map (λ s. s.now.name) rows.now) }
{
    rows.iter().map(|row| row.name).collect(alloc)
}

/// The names of routes.
fn route_ids(alloc: Global, rows: &[&Route]) -> Result<Vec<Identifier>, AllocError>
    ensures { IfOk result (λ ids. ids.items ≡ map (λ r. r.now.name) rows.now) }
{
    rows.iter().map(|row| row.name).collect(alloc)
}

/// The names of processes.
fn process_ids(alloc: Global, rows: &[&Process]) -> Result<Vec<Identifier>, AllocError>
    ensures { IfOk result (λ ids. ids.items ≡ map (λ p. p.now.name) rows.now) }
{
    rows.iter().map(|row| row.name).collect(alloc)
}

/// The place of the first timer of a process that has the name of a signal.
fn signal_timers_in(signals: &NameTable, processes: &[&Process]) -> Option<u32>
    ensures { Marks result (flat_map (λ p. shared signals.now (timers_of (process_of p.now))) processes.now) }
{
    let mut place = None;
    for process in processes {
        place = earlier(place, shared_declared(signals, &process.declarations));
    }
    place
}

/// The tables of all processes, or the place of a duplicate name in one of them.
#[derive(Drop)]
struct Processes<'a> {
    tables: Vec<ProcessTable<'a>>,
    double: Option<u32>,
}

/// Builds the tables of processes. They may be used only if there is no duplicate name.
fn build_tables<'a>(
    alloc: Global,
    key: NameKey,
    processes: &[&'a Process],
) -> Result<Processes<'a>, AllocError>
    ensures tables { IfOk result (λ r. r.double ≡ None → r.tables.items ≡ map (λ p. p.now) processes.now) }
    ensures double { IfOk result (λ r. Marks r.double
        (flat_map (λ p. flat_map (repeats []) (process_scopes (process_of p.now))) processes.now)) }
{
    let mut tables = Vec::new(alloc);
    let mut double = None;
    for process in processes {
        match ProcessTable::new(alloc, key, process) {
            Ok(table) => tables.push(table)?,
            Err(TableFault::DoubleName(at)) => double = earlier(double, Some(at)),
            Err(TableFault::NoMemory) => return Err(AllocError),
        }
    }
    Ok(Processes { tables, double })
}

/// The first of all duplicates of a block, from the first of each kind.
pub(crate) fn first_double(
    signals: Option<u32>,
    routes: Option<u32>,
    processes: Option<u32>,
    inside: Option<u32>,
    shared: Option<u32>,
) -> Option<u32>
    ensures { (ss rs ps is ts : List ℕ) → Marks signals ss → Marks routes rs → Marks processes ps → Marks inside is → Marks shared ts
        → Marks result ((ss ++ (rs ++ (ps ++ is))) ++ ts) }
{
    let declared = earlier(signals, earlier(routes, earlier(processes, inside)));
    earlier(declared, shared)
}

/// The signals of a block, their names by number, and the place of the first duplicate.
#[derive(Drop)]
pub(crate) struct BlockSignals<'a> {
    pub rows: Vec<&'a SignalDeclaration>,
    pub names: NameTable,
    pub double: Option<u32>,
}

/// Builds the tables of a block's signals.
pub(crate) fn table_signals<'a>(
    alloc: Global,
    key: NameKey,
    block: &'a Block,
) -> Result<BlockSignals<'a>, AllocError>
    ensures rows { IfOk result (λ s. map (λ r. signal_of r.now) s.rows.items ≡ signals_of (block_of block.now)) }
    ensures names { IfOk result (λ s. s.names ≡ names_once (signal_names (block_of block.now))) }
    ensures double { IfOk result (λ s. Marks s.double (repeats [] (signal_names (block_of block.now)))) }
{
    let rows = collect_signals(alloc, &block.entities)?;
    let ids = signal_ids(alloc, &rows)?;
    let Scope { names, double } = index_names(alloc, key, &ids)?;
    Ok(BlockSignals {
        rows,
        names,
        double,
    })
}

/// The routes of a block, an index of the signals that they carry, and the place of the first duplicate name.
#[derive(Drop)]
pub(crate) struct BlockRoutes<'a> {
    pub rows: Vec<&'a Route>,
    pub index: RouteIndex,
    pub double: Option<u32>,
}

/// Builds the tables of a block's routes.
pub(crate) fn table_routes<'a>(
    alloc: Global,
    key: NameKey,
    block: &'a Block,
) -> Result<BlockRoutes<'a>, AllocError>
    ensures rows { IfOk result (λ r. map (λ row. route_of row.now) r.rows.items ≡ routes_of (block_of block.now)) }
    ensures index { IfOk result (λ r. Indexes r.index (flat_map mentions_of (paths_of (block_of block.now)))) }
    ensures double { IfOk result (λ r. Marks r.double (repeats [] (route_names (block_of block.now)))) }
{
    let rows = collect_routes(alloc, &block.entities)?;
    let ids = route_ids(alloc, &rows)?;
    let scope = index_names(alloc, key, &ids)?;
    let index = RouteIndex::new(alloc, key, &rows)?;
    Ok(BlockRoutes {
        rows,
        index,
        double: scope.double,
    })
}

/// The names of a block's processes by number, and their tables. `double` is the first duplicate process name, `inside`
/// the first duplicate in a process, and `shared` the first timer with the name of a signal.
#[derive(Drop)]
pub(crate) struct BlockProcesses<'a> {
    pub names: NameTable,
    pub tables: Vec<ProcessTable<'a>>,
    pub double: Option<u32>,
    pub inside: Option<u32>,
    pub shared: Option<u32>,
}

/// Builds the tables of a block's processes. `signals` holds the names of its signals.
pub(crate) fn table_processes<'a>(
    alloc: Global,
    key: NameKey,
    block: &'a Block,
    signals: &NameTable,
) -> Result<BlockProcesses<'a>, AllocError>
    requires { signals.now ≡ names_once (signal_names (block_of block.now)) }
    ensures names { IfOk result (λ p. p.names ≡ names_once (process_names (block_of block.now))) }
    ensures tables { IfOk result (λ p. p.inside ≡ None → map process_of p.tables.items ≡ processes_of (block_of block.now)) }
    ensures double { IfOk result (λ p. Marks p.double (repeats [] (process_names (block_of block.now)))) }
    ensures inside { IfOk result (λ p. Marks p.inside (flat_map (repeats []) (flat_map process_scopes (processes_of (block_of block.now))))) }
    ensures shared { IfOk result (λ p. Marks p.shared (signal_timers (block_of block.now))) }
{
    let rows = collect_processes(alloc, &block.entities)?;
    let ids = process_ids(alloc, &rows)?;
    let Scope { names, double } = index_names(alloc, key, &ids)?;
    let built = build_tables(alloc, key, &rows)?;
    let shared = signal_timers_in(signals, &rows);
    Ok(BlockProcesses {
        names,
        tables: built.tables,
        double,
        inside: built.double,
        shared,
    })
}
