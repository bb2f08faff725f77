//! A5: signals on no route, or on a route to a process that neither takes nor saves them.
ghost use Rattle.std.specs.Prelude.{◌≡◌, ◌++◌, ◌&&◌, map, OnOk};
ghost use Rattle.std.specs.List.{list_any, flat_map};
ghost use Rattle.sdl_ast.specs.Views.{clause_of, state_of, stimulus_of, path_of, route_of, signal_of, process_of, block_of};
ghost use Rattle.sdl_tables.specs.Names.{same_name, is_in, clause_triggers, part_triggers, signals_of, routes_of};
ghost use Rattle.sdl_sound.specs.Receivers.{paths_of};
ghost use Rattle.sdl_warnings.specs.Warned.{is_routed, heeds, is_heeded, unrouted_signal, unrouted_signals, untaken_signal, untaken_to, untaken_in_path, untaken_signals};

use crate::reads::same_name;
use crate::warning::{Kind, Warning, push_unless};
use sdl_ast::{
    Identifier, Name, Party, Path, Route, SignalDeclaration, StateClause, StatePart, Stimulus,
};
use sdl_tables::{BlockTable, ProcessTable};
use std::alloc::AllocError;

/// Whether a name is one of these.
pub(crate) fn has_name(ids: &[Identifier], name: Name) -> bool
    ensures { result ≡ is_in ids.now name }
{
    let mut any = false;
    for id in ids {
        any |= same_name(name, id.name);
    }
    any
}

/// Whether one of these paths brings a signal.
fn is_on_path(paths: &[Path], signal: Name) -> bool
    ensures { result ≡ list_any (λ path. is_in path.signals signal) (map path_of paths.now) }
{
    let mut any = false;
    for path in paths {
        any |= has_name(&path.signals, signal);
    }
    any
}

/// Whether one of these routes brings a signal.
fn is_on_route(routes: &[&Route], signal: Name) -> bool
    ensures { result ≡ list_any (λ path. is_in path.signals signal) (flat_map (λ r. r.paths) (map (λ r. route_of r.now) routes.now)) }
{
    let mut any = false;
    for route in routes {
        any |= is_on_path(&route.paths, signal);
    }
    any
}

/// Appends the warning of a signal if no route has it.
fn push_unrouted(
    found: &mut Vec<Warning>,
    block: &BlockTable,
    signal: &SignalDeclaration,
) -> Result<(), AllocError>
    ensures { OnOk result (found.new.items ≡ found.old.items ++ unrouted_signal (block_of block.now) (signal_of signal.now)) }
{
    let id = signal.name;
    let is_routed = is_on_route(block.routes(), id.name);
    push_unless(found, is_routed, id.at, Kind::UnroutedSignal(id.name))
}

/// Appends the warnings of signals that no route has.
pub(crate) fn push_signals(
    found: &mut Vec<Warning>,
    block: &BlockTable,
    signals: &[&SignalDeclaration],
) -> Result<(), AllocError>
    ensures { OnOk result (found.new.items ≡ found.old.items ++ flat_map (unrouted_signal (block_of block.now)) (map (λ s. signal_of s.now) signals.now)) }
{
    for signal in signals {
        push_unrouted(found, block, signal)?;
    }
    Ok(())
}

/// Whether a name is one of these.
fn names_one(stimuli: &[Stimulus], name: Name) -> bool
    ensures { result ≡ is_in (map (λ s. s.name) (map stimulus_of stimuli.now)) name }
{
    let mut any = false;
    for stimulus in stimuli {
        any |= same_name(name, stimulus.name.name);
    }
    any
}

/// Whether an INPUT or a SAVE names a signal.
fn is_in_clause(clause: &StateClause, signal: Name) -> bool
    ensures { result ≡ is_in (clause_triggers (clause_of clause.now)) signal }
{
    match clause {
        StateClause::Input(input) => names_one(&input.stimuli, signal),
        StateClause::Save(ids) => has_name(ids, signal),
    }
}

/// Whether a part takes or saves a signal.
fn is_in_part(part: &StatePart, signal: Name) -> bool
    ensures { result ≡ is_in (part_triggers (state_of part.now)) signal }
{
    let mut any = false;
    for clause in &part.clauses {
        any |= is_in_clause(clause, signal);
    }
    any
}

/// Whether some state takes or saves a signal.
fn heeds(parts: &[StatePart], signal: Name) -> bool
    ensures { result ≡ list_any (λ part. is_in (part_triggers part) signal) (map state_of parts.now) }
{
    let mut any = false;
    for part in parts {
        any |= is_in_part(part, signal);
    }
    any
}

/// Whether a process has a name, and takes or saves a signal.
fn is_heeding(process: &ProcessTable, to: Name, signal: Name) -> bool
    ensures { result ≡ (same_name to (process_of process.now).name.name && heeds (process_of process.now) signal) }
{
    let own = process.process();
    if !same_name(to, own.name.name) {
        return false;
    }
    heeds(&own.states, signal)
}

/// Whether the process with a name takes or saves a signal.
fn is_heeded(processes: &[ProcessTable], to: Name, signal: Name) -> bool
    ensures { result ≡ list_any (λ p. same_name to p.name.name && heeds p signal) (map process_of processes.now) }
{
    let mut any = false;
    for process in processes {
        any |= is_heeding(process, to, signal);
    }
    any
}

/// Appends the warning of a signal on a path to a process if this neither takes nor saves it.
fn push_untaken(
    found: &mut Vec<Warning>,
    block: &BlockTable,
    to: &Identifier,
    signal: Identifier,
) -> Result<(), AllocError>
    ensures { OnOk result (found.new.items ≡ found.old.items ++ untaken_signal (block_of block.now) to.now signal) }
{
    let is_heeded = is_heeded(block.tables(), to.name, signal.name);
    let kind = Kind::UntakenSignal(signal.name, to.name);
    push_unless(found, is_heeded, signal.at, kind)
}

/// Appends the warnings of signals on a path to a process.
fn push_all_untaken(
    found: &mut Vec<Warning>,
    block: &BlockTable,
    to: &Identifier,
    signals: &[Identifier],
) -> Result<(), AllocError>
    ensures { OnOk result (found.new.items ≡ found.old.items ++ flat_map (untaken_signal (block_of block.now) to.now) signals.now) }
{
    for signal in signals {
        push_untaken(found, block, to, *signal)?;
    }
    Ok(())
}

/// Appends the warnings of the signals of a path.
fn push_path(found: &mut Vec<Warning>, block: &BlockTable, path: &Path) -> Result<(), AllocError>
    ensures { OnOk result (found.new.items ≡ found.old.items ++ untaken_in_path (block_of block.now) (path_of path.now)) }
{
    match &path.to {
        Party::Environment => Ok(()),
        Party::Process(to) => push_all_untaken(found, block, to, &path.signals),
    }
}

/// Appends the warnings of the signals of these paths.
fn push_paths(
    found: &mut Vec<Warning>,
    block: &BlockTable,
    paths: &[Path],
) -> Result<(), AllocError>
    ensures { OnOk result (found.new.items ≡ found.old.items ++ flat_map (untaken_in_path (block_of block.now)) (map path_of paths.now)) }
{
    for path in paths {
        push_path(found, block, path)?;
    }
    Ok(())
}

/// Appends the warnings of the signals of these routes.
pub(crate) fn push_routes(
    found: &mut Vec<Warning>,
    block: &BlockTable,
    routes: &[&Route],
) -> Result<(), AllocError>
    ensures { OnOk result (found.new.items ≡ found.old.items
        ++ flat_map (untaken_in_path (block_of block.now)) (flat_map (λ r. r.paths) (map (λ r. route_of r.now) routes.now))) }
{
    for route in routes {
        push_paths(found, block, &route.paths)?;
    }
    Ok(())
}
