//! The possible senders of what starts a transition, and whether each signal that the transition sends back reaches all
//! of them. The routes are searched once for each signal and sender.
ghost use Rattle.std.specs.Prelude.{◌≡◌, [], List, IfOk, OnOk};
ghost use Rattle.sdl_ast.specs.Plain.{PlainProcess, PlainBlock};
ghost use Rattle.sdl_ast.specs.Views.{process_of, block_of};
ghost use Rattle.sdl_sound.specs.Actions.{Origin};
ghost use Rattle.sdl_sound.specs.Receivers.{answers_all};
ghost use Rattle.sdl_scopes.specs.Known.{AreSenders, Knows};
ghost use Rattle.sdl_rules.specs.Backs.{Learns};

use crate::back_table::{BackTable, all_get_back};
use sdl_ast::{Action, Decision, Destination, Identifier, Sending, Statement, Transition};
use sdl_lex::Name;
use sdl_scopes::KnownSenders;
use sdl_tables::{BlockTable, NameTable, ProcessTable};
use std::alloc::{AllocError, Global};

/// Whether a signal reaches all possible senders.
pub(crate) fn all_get(
    known: &KnownSenders,
    block: &BlockTable,
    process: &ProcessTable,
    signal: Name,
) -> bool
    ensures { (os : List Origin) → Knows (block_of block.now) (process_of process.now) known.now os
        → result ≡ answers_all (block_of block.now) (process_of process.now) os signal }
{
    if known.back.contains(signal) {
        return true;
    }
    if known.lost.contains(signal) {
        return false;
    }
    all_get_back(block, process, &[], signal, &known.list)
}

/// As `all_get`, with the marks of a table that has searched the routes.
fn all_get_by(
    known: &KnownSenders,
    table: &BackTable,
    block: &BlockTable,
    process: &ProcessTable,
    signal: Name,
) -> bool
    ensures { (os : List Origin) → Learns (block_of block.now) (process_of process.now) table.now known.now os
        → result ≡ answers_all (block_of block.now) (process_of process.now) os signal }
{
    table.all_get(block, process, signal, &known.list)
}

/// Whether this is known for a signal.
fn knows(known: &KnownSenders, signal: Name) -> bool {
    known.back.contains(signal) || known.lost.contains(signal)
}

/// Whether a signal reaches all possible senders. Searches the routes if this isn't known.
fn ask(
    known: &KnownSenders,
    alloc: Global,
    table: &mut BackTable,
    block: &BlockTable,
    process: &ProcessTable,
    signal: &Identifier,
) -> Result<bool, AllocError>
    ensures { IfOk result (λ back. (os : List Origin) → Learns (block_of block.now) (process_of process.now) table.old known.now os
        → Learns (block_of block.now) (process_of process.now) table.new known.now os
        × (back ≡ answers_all (block_of block.now) (process_of process.now) os signal.now.name)) }
{
    if knows(known, signal.name) {
        return Ok(all_get(known, block, process, signal.name));
    }
    table.learn(alloc, block, process, *signal)?;
    Ok(all_get_by(known, table, block, process, signal.name))
}

/// Finds this out for a signal, unless it is known.
fn learn(
    known: &mut KnownSenders,
    alloc: Global,
    table: &mut BackTable,
    block: &BlockTable,
    process: &ProcessTable,
    signal: Identifier,
) -> Result<(), AllocError>
    ensures { OnOk result ((os : List Origin) → Learns (block_of block.now) (process_of process.now) table.old known.old os
        → Learns (block_of block.now) (process_of process.now) table.new known.new os) }
{
    let back = ask(known, alloc, table, block, process, &signal)?;
    known.keep(signal, back)?;
    Ok(())
}

/// Finds this out for each signal of these sendings.
fn learn_sendings(
    known: &mut KnownSenders,
    alloc: Global,
    table: &mut BackTable,
    block: &BlockTable,
    process: &ProcessTable,
    sendings: &[Sending],
) -> Result<(), AllocError>
    ensures { OnOk result ((os : List Origin) → Learns (block_of block.now) (process_of process.now) table.old known.old os
        → Learns (block_of block.now) (process_of process.now) table.new known.new os) }
{
    for sending in sendings {
        learn(known, alloc, table, block, process, sending.signal)?;
    }
    Ok(())
}

/// Finds this out for each signal of an OUTPUT that goes TO SENDER.
fn learn_output(
    known: &mut KnownSenders,
    alloc: Global,
    table: &mut BackTable,
    block: &BlockTable,
    process: &ProcessTable,
    to: &Option<Destination>,
    sendings: &[Sending],
) -> Result<(), AllocError>
    ensures { OnOk result ((os : List Origin) → Learns (block_of block.now) (process_of process.now) table.old known.old os
        → Learns (block_of block.now) (process_of process.now) table.new known.new os) }
{
    match to {
        Some(Destination::Sender(_)) => learn_sendings(
            known, alloc, table, block, process, sendings,
        ),
        Some(Destination::Process(_)) => Ok(()),
        None => Ok(()),
    }
}

/// Finds this out for each signal that an action sends back.
fn learn_action(
    known: &mut KnownSenders,
    alloc: Global,
    table: &mut BackTable,
    block: &BlockTable,
    process: &ProcessTable,
    action: &Action,
) -> Result<(), AllocError>
    ensures { OnOk result ((os : List Origin) → Learns (block_of block.now) (process_of process.now) table.old known.old os
        → Learns (block_of block.now) (process_of process.now) table.new known.new os) }
{
    match action {
        Action::Task(_) => Ok(()),
        Action::Output(output) => {
            learn_output(
                known,
                alloc,
                table,
                block,
                process,
                &output.to,
                &output.sendings,
            )
        }
        Action::Set(_) => Ok(()),
        Action::Reset(_) => Ok(()),
    }
}

/// Finds this out for each signal that a transition sends back.
#[cycle(learning)]
pub(crate) fn learn_transition(
    known: &mut KnownSenders,
    alloc: Global,
    table: &mut BackTable,
    block: &BlockTable,
    process: &ProcessTable,
    transition: &Transition,
) -> Result<(), AllocError>
    ensures { OnOk result ((os : List Origin) → Learns (block_of block.now) (process_of process.now) table.old known.old os
        → Learns (block_of block.now) (process_of process.now) table.new known.new os) }
{
    for statement in &transition.statements {
        learn_statement(known, alloc, table, block, process, statement)?;
    }
    Ok(())
}

/// Finds this out for each signal that a statement sends back.
#[cycle(learning)]
fn learn_statement(
    known: &mut KnownSenders,
    alloc: Global,
    table: &mut BackTable,
    block: &BlockTable,
    process: &ProcessTable,
    statement: &Statement,
) -> Result<(), AllocError>
    ensures { OnOk result ((os : List Origin) → Learns (block_of block.now) (process_of process.now) table.old known.old os
        → Learns (block_of block.now) (process_of process.now) table.new known.new os) }
{
    match statement {
        Statement::Act(action) => learn_action(known, alloc, table, block, process, action),
        Statement::Decide(decision) => learn_decision(
            known, alloc, table, block, process, decision,
        ),
    }
}

/// Finds this out for each signal that the bodies of a DECISION send back.
#[cycle(learning)]
fn learn_decision(
    known: &mut KnownSenders,
    alloc: Global,
    table: &mut BackTable,
    block: &BlockTable,
    process: &ProcessTable,
    decision: &Decision,
) -> Result<(), AllocError>
    ensures { OnOk result ((os : List Origin) → Learns (block_of block.now) (process_of process.now) table.old known.old os
        → Learns (block_of block.now) (process_of process.now) table.new known.new os) }
{
    for answer in &decision.answers {
        learn_transition(known, alloc, table, block, process, &answer.body)?;
    }
    learn_else(known, alloc, table, block, process, &decision.otherwise)?;
    Ok(())
}

/// Finds this out for each signal that the body of ELSE sends back, if there is one.
#[cycle(learning)]
fn learn_else(
    known: &mut KnownSenders,
    alloc: Global,
    table: &mut BackTable,
    block: &BlockTable,
    process: &ProcessTable,
    otherwise: &Option<Transition>,
) -> Result<(), AllocError>
    ensures { OnOk result ((os : List Origin) → Learns (block_of block.now) (process_of process.now) table.old known.old os
        → Learns (block_of block.now) (process_of process.now) table.new known.new os) }
{
    match otherwise {
        None => Ok(()),
        Some(body) => learn_transition(known, alloc, table, block, process, body),
    }
}
