//! Compiles a block.
ghost use Rattle.std.specs.Prelude.{◌≡◌, ◌≤◌, ◌++◌, ℕ, length, map, All, IfOk, OnOk};
ghost use Rattle.std.specs.List.{flat_map, AllZip};
ghost use Rattle.std.specs.Global.{Vec};
ghost use Rattle.sdl_ast.specs.Views.{signal_of, path_of, route_of, block_of};
ghost use Rattle.turn_code.specs.Valid.{IsValid};
ghost use Rattle.sdl_tables.specs.Names.{number_of, processes_of, routes_of};
ghost use Rattle.sdl_sound.specs.Settled.{AreSettled};
ghost use Rattle.sdl_sound.specs.Orders.{AreOrders};
ghost use Rattle.sdl_emit.specs.Measures.{AllMeasures};
ghost use Rattle.sdl_sound.specs.Sound.{Sound};
ghost use Rattle.sdl_meaning.specs.Code.{number_or_zero};
ghost use Rattle.sdl_meaning.specs.Act.{scope_of};
ghost use Rattle.sdl_meaning.specs.Declarations.{sort_of_tree, drafted_signal, drafted_signals};
ghost use Rattle.sdl_compile.specs.Drafts.{IsReadyProcess, MatchesProcess, IsProcessOf};
ghost use Rattle.sdl_compile.specs.Blocks.{drafted_party, drafted_path, MatchesBlock};
ghost use Rattle.sdl_compile.specs.Meaning.{RunsAsMeant};
ghost use Rattle.sdl_compile.specs.Routes.{KnownParty, IsKnown, IsKnownPath, HasFewNames, signal_numbered};
ghost use Rattle.plain_laws.specs.Limits.{MOST_PROCESSES, MOST_SIGNALS};

use crate::process::{Survey, compile_process};
use crate::state::draft_name;
use crate::variables::sort;
use sdl_ast::{Identifier, Path, Route, SignalDeclaration};
use sdl_rules::{Measure, budget_law, chances_law};
use sdl_tables::{BlockTable, NameTable};
use std::alloc::{AllocError, Global};
use turn_code::{
    Draft, DraftProcess, DraftRoute, DraftSignal, Party, ProcessNumber, Sequence, SignalNumber,
    Sort,
};

/// The findings of the rules for each process, by number.
#[derive(Drop)]
pub struct Surveys<'a> {
    pub sets: &'a [Vec<u32>],
    pub orders: &'a [Vec<usize>],
    pub measures: &'a [Vec<Measure>],
}

/// The sorts of parameters, as a draft has them.
fn compile_sorts(alloc: Global, sorts: &[sdl_ast::Sort]) -> Result<Vec<Sort>, AllocError>
    ensures { IfOk result (λ v. v.items ≡ map sort_of_tree sorts.now) }
{
    let mut compiled = Vec::new(alloc);
    for declared in sorts {
        compiled.push(sort(*declared))?;
    }
    Ok(compiled)
}

/// A signal with the sorts of its parameters.
fn compile_signal(alloc: Global, row: &SignalDeclaration) -> Result<DraftSignal, AllocError>
    ensures { IfOk result (λ d. d ≡ drafted_signal (signal_of row.now)) }
{
    let parameters = compile_sorts(alloc, &row.parameters)?;
    Ok(DraftSignal {
        name: draft_name(&row.name.name),
        parameters: Sequence::from(parameters),
    })
}

/// The signals with the sorts of their parameters.
fn compile_signals(
    alloc: Global,
    rows: &[&SignalDeclaration],
) -> Result<Vec<DraftSignal>, AllocError>
    ensures { IfOk result (λ v. v.items ≡ map drafted_signal (map (λ s. signal_of s.now) rows.now)) }
{
    let mut signals = Vec::new(alloc);
    for row in rows {
        signals.push(compile_signal(alloc, row)?)?;
    }
    Ok(signals)
}

/// The number of a declared process.
fn process_number(processes: &NameTable, id: &Identifier) -> ProcessNumber
    requires there { IsKnown processes.now id.now }
    requires few { length processes.now ≤ MOST_PROCESSES }
    ensures { result.0 ≡ number_or_zero (number_of processes.now id.now.name) }
{
    match processes.number(id.name) {
        Some(number) => ProcessNumber(number as u8),
        None => unreachable!(),
    }
}

/// The number of a declared signal.
fn signal_number(signals: &NameTable, id: &Identifier) -> SignalNumber
    requires there { IsKnown signals.now id.now }
    requires few { length signals.now ≤ MOST_SIGNALS }
    ensures { result ≡ signal_numbered signals.now id.now }
{
    match signals.number(id.name) {
        Some(number) => SignalNumber(number as u8),
        None => unreachable!(),
    }
}

/// The party of a draft for a sender or receiver.
fn compile_party(processes: &NameTable, party: &sdl_ast::Party) -> Party
    requires there { KnownParty processes.now party.now }
    requires few { length processes.now ≤ MOST_PROCESSES }
    ensures { result ≡ drafted_party processes.now party.now }
{
    match party {
        sdl_ast::Party::Environment => Party::Environment,
        sdl_ast::Party::Process(id) => Party::Process(process_number(processes, id)),
    }
}

/// The numbers of declared signals.
fn signal_numbers(
    alloc: Global,
    signals: &NameTable,
    ids: &[Identifier],
) -> Result<Vec<SignalNumber>, AllocError>
    requires there { All (IsKnown signals.now) ids.now }
    requires few { length signals.now ≤ MOST_SIGNALS }
    ensures { IfOk result (λ v. v.items ≡ map (signal_numbered signals.now) ids.now) }
{
    let mut numbers = Vec::new(alloc);
    for id in ids {
        numbers.push(signal_number(signals, id))?;
    }
    Ok(numbers)
}

/// A path with the numbers of its processes and signals.
fn compile_path(alloc: Global, block: &BlockTable, path: &Path) -> Result<DraftRoute, AllocError>
    requires known { IsKnownPath (block_of block.now) (path_of path.now) }
    requires few { HasFewNames (block_of block.now) }
    ensures { IfOk result (λ d. d ≡ drafted_path (block_of block.now) (path_of path.now)) }
{
    let signals = signal_numbers(alloc, block.signals(), &path.signals)?;
    Ok(DraftRoute {
        from: compile_party(block.processes(), &path.from),
        to: compile_party(block.processes(), &path.to),
        signals: Sequence::from(signals),
    })
}

/// Adds the paths of a route.
fn push_paths(
    compiled: &mut Vec<DraftRoute>,
    alloc: Global,
    block: &BlockTable,
    paths: &[Path],
) -> Result<(), AllocError>
    requires known { All (λ p. IsKnownPath (block_of block.now) (path_of p)) paths.now }
    requires few { HasFewNames (block_of block.now) }
    ensures { OnOk result (compiled.new.items ≡ compiled.old.items ++ map (drafted_path (block_of block.now)) (map path_of paths.now)) }
{
    for path in paths {
        compiled.push(compile_path(alloc, block, path)?)?;
    }
    Ok(())
}

/// The paths of all routes.
fn compile_routes(
    alloc: Global,
    block: &BlockTable,
    routes: &[&Route],
) -> Result<Vec<DraftRoute>, AllocError>
    requires known { All (λ r. All (λ p. IsKnownPath (block_of block.now) (path_of p)) r.now.paths.items) routes.now }
    requires few { HasFewNames (block_of block.now) }
    ensures { IfOk result (λ v. v.items ≡ map (drafted_path (block_of block.now)) (flat_map (λ r. r.paths) (map (λ r. route_of r.now) routes.now))) }
{
    let mut compiled = Vec::new(alloc);
    for route in routes {
        push_paths(&mut compiled, alloc, block, &route.paths)?;
    }
    Ok(compiled)
}

/// Compiles the processes, each with the findings of the rules for it.
fn compile_processes(
    alloc: Global,
    block: &BlockTable,
    surveys: &Surveys,
    signals: &[DraftSignal],
) -> Result<Vec<DraftProcess>, AllocError>
    requires ready { All (λ p. IsReadyProcess (scope_of (block_of block.now) p)) (processes_of (block_of block.now)) }
    requires few { HasFewNames (block_of block.now) }
    requires signals { signals.now ≡ drafted_signals (block_of block.now) }
    requires settled { AllZip (λ p (v : Vec ℕ). AreSettled p v.items) (processes_of (block_of block.now)) surveys.now.sets.now }
    requires ordered { AreOrders (processes_of (block_of block.now)) surveys.now.orders.now }
    requires measured { AllMeasures (processes_of (block_of block.now)) surveys.now.measures.now }
    ensures matches { IfOk result (λ ds. AllZip (MatchesProcess (block_of block.now)) (processes_of (block_of block.now)) ds.items) }
    ensures made { IfOk result (λ ds. AllZip (IsProcessOf (block_of block.now)) (processes_of (block_of block.now)) ds.items) }
{
    let mut processes = Vec::new(alloc);
    let tables = block.tables();
    for (number, table) in tables.iter().enumerate() {
        let survey = Survey {
            sets: &surveys.sets[number],
            order: &surveys.orders[number],
            measures: &surveys.measures[number],
        };
        processes.push(compile_process(alloc, block, table, &survey, signals)?)?;
    }
    Ok(processes)
}

/// Compiles a block, given the findings of the rules for its processes. Fails only if memory runs out.
pub fn compile_block(
    alloc: Global,
    block: &BlockTable,
    surveys: &Surveys,
) -> Result<Draft, AllocError>
    requires sound { Sound (block_of block.now) }
    requires settled { AllZip (λ p (v : Vec ℕ). AreSettled p v.items) (processes_of (block_of block.now)) surveys.now.sets.now }
    requires ordered { AreOrders (processes_of (block_of block.now)) surveys.now.orders.now }
    requires measured { AllMeasures (processes_of (block_of block.now)) surveys.now.measures.now }
    ensures means { IfOk result (λ d. MatchesBlock (block_of block.now) d) }
    ensures runs { IfOk result (λ d. RunsAsMeant (block_of block.now) d) }
    ensures valid { IfOk result (λ d. IsValid d) }
{
    chances_law();
    budget_law();
    let signals = compile_signals(alloc, block.rows())?;
    let paths = compile_routes(alloc, block, block.routes())?;
    let processes = compile_processes(alloc, block, surveys, &signals)?;
    Ok(Draft {
        signals: Sequence::from(signals),
        routes: Sequence::from(paths),
        processes: Sequence::from(processes),
    })
}
