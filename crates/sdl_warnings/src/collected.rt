//! All warnings of a block.
ghost use Rattle.std.specs.Prelude.{◌≡◌, ◌++◌, map, IfOk, OnOk};
ghost use Rattle.std.specs.List.{flat_map};
ghost use Rattle.sdl_ast.specs.Views.{process_of, block_of};
ghost use Rattle.sdl_tables.specs.Names.{processes_of};
ghost use Rattle.sdl_warnings.specs.Warned.{unreached_states, vain_saves, unsent_inputs, idle_timers, unread_variables, decision_warnings, unreached_connections, process_warnings, block_warnings, unused_synonyms, text_warnings, AreWarnings};

use crate::connections::push_connections;
use crate::decisions::push_decisions;
use crate::saves::{Standing, push_saves};
use crate::sendings::push_inputs;
use crate::signals::{push_routes, push_signals};
use crate::states::push_states;
use crate::synonyms::push_synonyms;
use crate::timers::push_timers;
use crate::told::{Told, tell_all};
use crate::variables::push_variables;
use crate::warning::Warning;
use crate::ways::ways_of;
use sdl_tables::{BlockTable, ProcessTable};
use std::alloc::{AllocError, Global};

/// Appends the warnings of unreached states and of vain saves.
fn push_standing(
    alloc: Global,
    found: &mut Vec<Warning>,
    process: &ProcessTable,
) -> Result<(), AllocError>
    ensures { OnOk result (found.new.items ≡ found.old.items ++ (unreached_states (process_of process.now) ++ vain_saves (process_of process.now))) }
{
    let inputs = process.inputs(alloc)?;
    let ways = ways_of(alloc, process, &inputs)?;
    push_states(found, process, &ways)?;
    let standing = Standing {
        process,
        inputs: &inputs,
        ways: &ways,
    };
    push_saves(alloc, found, &standing, &process.process().states)
}

/// Appends the warnings of inputs, timers and variables.
fn push_uses(
    found: &mut Vec<Warning>,
    block: &BlockTable,
    all: &[Told<'_, '_>],
    process: &Told<'_, '_>,
) -> Result<(), AllocError>
    requires { map process_of all.now ≡ processes_of (block_of block.now) }
    ensures { OnOk result (found.new.items ≡ found.old.items ++ (unsent_inputs (block_of block.now) (process_of process.now)
        ++ (idle_timers (process_of process.now) ++ unread_variables (process_of process.now)))) }
{
    let table = process.table();
    push_inputs(found, block, all, table, table.parts())?;
    push_timers(found, process, &table.process().declarations)?;
    push_variables(found, process, table.rows())
}

/// Appends the warnings of DECISIONs and connections.
fn push_flow(
    alloc: Global,
    found: &mut Vec<Warning>,
    process: &Told<'_, '_>,
) -> Result<(), AllocError>
    ensures { OnOk result (found.new.items ≡ found.old.items ++ (decision_warnings (process_of process.now) ++ unreached_connections (process_of process.now))) }
{
    push_decisions(alloc, found, process.parts())?;
    push_connections(alloc, found, process.table())
}

/// Appends the warnings of a process.
fn push_process(
    alloc: Global,
    found: &mut Vec<Warning>,
    block: &BlockTable,
    all: &[Told<'_, '_>],
    process: &Told<'_, '_>,
) -> Result<(), AllocError>
    requires { map process_of all.now ≡ processes_of (block_of block.now) }
    ensures { OnOk result (found.new.items ≡ found.old.items ++ process_warnings (block_of block.now) (process_of process.now)) }
{
    push_standing(alloc, found, process.table())?;
    push_uses(found, block, all, process)?;
    push_flow(alloc, found, process)
}

/// Appends the warnings of these processes of a block.
fn push_processes(
    alloc: Global,
    found: &mut Vec<Warning>,
    block: &BlockTable,
    all: &[Told<'_, '_>],
) -> Result<(), AllocError>
    requires { map process_of all.now ≡ processes_of (block_of block.now) }
    ensures { OnOk result (found.new.items ≡ found.old.items ++ flat_map (process_warnings (block_of block.now)) (map process_of all.now)) }
{
    for process in all {
        push_process(alloc, found, block, all, process)?;
    }
    Ok(())
}

/// Appends the warnings of a block, kind by kind.
fn push_block(alloc: Global, found: &mut Vec<Warning>, block: &BlockTable) -> Result<(), AllocError>
    ensures { OnOk result (found.new.items ≡ found.old.items ++ block_warnings (block_of block.now)) }
{
    let all = tell_all(alloc, block)?;
    push_signals(found, block, block.rows())?;
    push_routes(found, block, block.routes())?;
    push_processes(alloc, found, block, &all)
}

/// Appends the warnings of the synonyms of a block as it is written.
fn push_unused(
    alloc: Global,
    found: &mut Vec<Warning>,
    written: &BlockTable,
) -> Result<(), AllocError>
    ensures { OnOk result (found.new.items ≡ found.old.items ++ unused_synonyms (block_of written.now)) }
{
    let all = tell_all(alloc, written)?;
    push_synonyms(found, written, &all)
}

/// The warnings of a text that reads as a block and means another one.
fn collect(
    alloc: Global,
    written: &BlockTable,
    meant: &BlockTable,
) -> Result<Vec<Warning>, AllocError>
    ensures { IfOk result (λ v. v.items ≡ text_warnings (block_of written.now) (block_of meant.now)) }
{
    let mut found = Vec::new(alloc);
    push_block(alloc, &mut found, meant)?;
    push_unused(alloc, &mut found, written)?;
    Ok(found)
}

/// The warnings of a text that reads as a block and means another one, with values in place of its synonyms: each once,
/// in the order of the text. The blocks need not be sound.
///
/// # Errors
///
/// When memory runs out.
pub fn warnings(
    alloc: Global,
    written: &BlockTable,
    meant: &BlockTable,
) -> Result<Vec<Warning>, AllocError>
    ensures { IfOk result (λ v. AreWarnings (block_of written.now) (block_of meant.now) v.items) }
{
    let mut found = collect(alloc, written, meant)?;
    found.sort_by_key(|warning| warning.at)?;
    Ok(found)
}
