//! The signals that nobody receives, statement by statement. A signal TO SENDER must reach all possible senders of what
//! starts its transition.
ghost use Rattle.std.specs.Prelude.{◌≡◌, false, List, [], ◌∷◌, Some, map, slice_get, IfOk, OnOk};
ghost use Rattle.std.specs.List.{flat_map};
ghost use Rattle.sdl_ast.specs.Views.{text_of, input_of, connection_of, process_of, block_of};
ghost use Rattle.sdl_tables.specs.Scopes.{Marks};
ghost use Rattle.sdl_sound.specs.Receivers.{without_receiver};
ghost use Rattle.sdl_rules.specs.declared.statements.StatementRule.TheVariants.{Receivers};
ghost use Rattle.sdl_sound.specs.Statements.{statements_of};
ghost use Rattle.sdl_sound.specs.Actions.{Origin, begins, in_input, in_connection, in_statements};
ghost use Rattle.sdl_rules.specs.Backs.{Brings};
ghost use Rattle.sdl_rules.specs.SenderTables.{Tells, ToldAll};
ghost use Rattle.sdl_scopes.specs.Known.{AreSenders};
ghost use Rattle.sdl_rules.specs.Reached.{AreSent};
ghost use Rattle.sdl_rules.specs.Asked.{asked, asked_all, back_statement};

use crate::back_table::BackTable;
use crate::gathered::input_senders;
use crate::known::learn_transition;
use crate::reaching::find_sent;
use crate::sender_table::{SenderTable, find_senders};
use crate::sources::start_senders;
use crate::statements::{StatementRule, in_transition};
use sdl_ast::{Connection, InputPart, Transition};
use sdl_scopes::{KnownSenders, Sender, Sent, senders_at};
use sdl_tables::{BlockTable, ProcessTable, earlier};
use std::alloc::{AllocError, Global};

/// The place of a signal in a transition that nobody receives, given the possible senders of what starts it.
fn lost_in_transition(
    alloc: Global,
    backs: &mut BackTable,
    block: &BlockTable,
    process: &ProcessTable,
    senders: Vec<Sender>,
    transition: &Transition,
) -> Result<Option<u32>, AllocError>
    requires { Brings (block_of block.now) (process_of process.now) backs.old }
    ensures place { IfOk result (λ place. (os : List Origin) → AreSenders (block_of block.now) (process_of process.now) senders.items os
        → Marks place (asked_all Receivers (block_of block.now) (process_of process.now) os (statements_of (text_of transition.now)))) }
    ensures backs { OnOk result ((os : List Origin) → AreSenders (block_of block.now) (process_of process.now) senders.items os → Brings (block_of block.now) (process_of process.now) backs.new) }
{
    let mut known = KnownSenders::new(alloc, block.key(), senders);
    learn_transition(&mut known, alloc, backs, block, process, transition)?;
    let rule = StatementRule::Receivers;
    Ok(in_transition(rule, block, process, &known, transition))
}

/// Whether a transition sends something TO SENDER.
fn sends_back(
    alloc: Global,
    block: &BlockTable,
    process: &ProcessTable,
    transition: &Transition,
) -> bool
    ensures { result ≡ false → flat_map back_statement (statements_of (text_of transition.now)) ≡ [] }
{
    let rule = StatementRule::NothingBack;
    let none = KnownSenders::none(alloc, block.key());
    match in_transition(rule, block, process, &none, transition) {
        None => false,
        Some(_) => true,
    }
}

fn lost_in_start(
    alloc: Global,
    backs: &mut BackTable,
    block: &BlockTable,
    process: &ProcessTable,
) -> Result<Option<u32>, AllocError>
    requires backs { Brings (block_of block.now) (process_of process.now) backs.old }
    ensures place { IfOk result (λ place. Marks place (flat_map (asked Receivers (block_of block.now) (process_of process.now) (begins ∷ [])) (statements_of (process_of process.now).start.text))) }
    ensures backs { OnOk result (Brings (block_of block.now) (process_of process.now) backs.new) }
{
    let senders = start_senders(alloc)?;
    let transition = &process.process().start.transition;
    let lost = lost_in_transition(alloc, backs, block, process, senders, transition)?;
    Ok(lost)
}

/// The place of a signal in the transition of an INPUT that nobody receives.
fn lost_in_input(
    alloc: Global,
    backs: &mut BackTable,
    block: &BlockTable,
    process: &ProcessTable,
    table: &SenderTable,
    input: &InputPart,
) -> Result<Option<u32>, AllocError>
    requires tells { Tells (block_of block.now) (process_of process.now) table.now }
    requires backs { Brings (block_of block.now) (process_of process.now) backs.old }
    ensures place { IfOk result (λ place. Marks place (in_input (asked Receivers (block_of block.now) (process_of process.now)) (input_of input.now))) }
    ensures backs { OnOk result (Brings (block_of block.now) (process_of process.now) backs.new) }
{
    let senders = input_senders(alloc, block, process, table, input)?;
    let transition = &input.transition;
    let lost = lost_in_transition(alloc, backs, block, process, senders, transition)?;
    Ok(lost)
}

fn lost_in_inputs(
    alloc: Global,
    backs: &mut BackTable,
    block: &BlockTable,
    process: &ProcessTable,
    table: &SenderTable,
    inputs: &[&InputPart],
) -> Result<Option<u32>, AllocError>
    requires tells { Tells (block_of block.now) (process_of process.now) table.now }
    requires backs { Brings (block_of block.now) (process_of process.now) backs.old }
    ensures place { IfOk result (λ place. Marks place (flat_map (in_input (asked Receivers (block_of block.now) (process_of process.now))) (map (λ i. input_of i.now) inputs.now))) }
    ensures backs { OnOk result (Brings (block_of block.now) (process_of process.now) backs.new) }
{
    let mut place = None;
    for input in inputs {
        place = earlier(
            place,
            lost_in_input(alloc, backs, block, process, table, input)?,
        );
    }
    Ok(place)
}

/// The place of a signal in a connection that nobody receives. TO SENDER concerns every transition that leads there;
/// the possible senders of what starts these are gathered only if the connection sends something TO SENDER.
fn lost_in_connection(
    alloc: Global,
    backs: &mut BackTable,
    block: &BlockTable,
    process: &ProcessTable,
    sent: &[Sent],
    number: usize,
    connection: &Connection,
) -> Result<Option<u32>, AllocError>
    requires sent { AreSent (block_of block.now) (process_of process.now) sent.now }
    requires connection { slice_get (process_of process.now).connections number ≡ Some (connection_of connection.now) }
    requires backs { Brings (block_of block.now) (process_of process.now) backs.old }
    ensures place { IfOk result (λ place. Marks place (in_connection (asked Receivers (block_of block.now) (process_of process.now)) (process_of process.now) (connection_of connection.now))) }
    ensures backs { OnOk result (Brings (block_of block.now) (process_of process.now) backs.new) }
{
    let transition = &connection.transition;
    if sends_back(alloc, block, process, transition) {
        let senders = senders_at(alloc, sent, number)?;
        let lost = lost_in_transition(alloc, backs, block, process, senders, transition)?;
        return Ok(lost);
    }
    let rule = StatementRule::Receivers;
    let none = KnownSenders::none(alloc, block.key());
    Ok(in_transition(rule, block, process, &none, transition))
}

fn lost_in_connections(
    alloc: Global,
    backs: &mut BackTable,
    block: &BlockTable,
    process: &ProcessTable,
    table: &SenderTable,
    connections: &[Connection],
) -> Result<Option<u32>, AllocError>
    requires table { ToldAll (block_of block.now) (process_of process.now) table.now }
    requires connections { map connection_of connections.now ≡ (process_of process.now).connections }
    requires backs { Brings (block_of block.now) (process_of process.now) backs.old }
    ensures place { IfOk result (λ place. Marks place (flat_map (in_connection (asked Receivers (block_of block.now) (process_of process.now)) (process_of process.now)) (map connection_of connections.now))) }
    ensures backs { OnOk result (Brings (block_of block.now) (process_of process.now) backs.new) }
{
    let sent = find_sent(alloc, process, table)?;
    let mut place = None;
    for (number, connection) in connections.iter().enumerate() {
        let lost = lost_in_connection(alloc, backs, block, process, &sent, number, connection)?;
        place = earlier(place, lost);
    }
    Ok(place)
}

fn lost_in_process(
    alloc: Global,
    block: &BlockTable,
    process: &ProcessTable,
) -> Result<Option<u32>, AllocError>
    ensures { IfOk result (λ place. Marks place (in_statements (asked Receivers (block_of block.now) (process_of process.now)) (process_of process.now))) }
{
    let table = find_senders(alloc, block, process)?;
    let mut backs = BackTable::new(alloc, block.key());
    let start = lost_in_start(alloc, &mut backs, block, process)?;
    let inputs = lost_in_inputs(alloc, &mut backs, block, process, &table, process.parts())?;
    let connections = &process.process().connections;
    let beyond = earlier(
        inputs,
        lost_in_connections(alloc, &mut backs, block, process, &table, connections)?,
    );
    Ok(earlier(start, beyond))
}

fn lost_in_processes(
    alloc: Global,
    block: &BlockTable,
    processes: &[ProcessTable],
) -> Result<Option<u32>, AllocError>
    ensures { IfOk result (λ place. Marks place (flat_map (λ p. in_statements (asked Receivers (block_of block.now) p) p) (map process_of processes.now))) }
{
    let mut place = None;
    for process in processes {
        place = earlier(place, lost_in_process(alloc, block, process)?);
    }
    Ok(place)
}

/// The place of a signal in an OUTPUT that nobody receives, or `None`. (S5; Z.100: output, signal route.)
pub fn lost_output(alloc: Global, block: &BlockTable) -> Result<Option<u32>, AllocError>
    ensures { IfOk result (λ place. Marks place (without_receiver (block_of block.now))) }
{
    lost_in_processes(alloc, block, block.tables())
}
