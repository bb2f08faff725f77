//! The walks of transitions: through statements, DECISIONs and JOINs.
ghost use Rattle.std.specs.Prelude.{◌≡◌, [], false, map, slice_get, option_and_then, IfOk};
ghost use Rattle.std.specs.Option.{option_map};
ghost use Rattle.sdl_ast.specs.Plain.{PlainBlock, falls};
ghost use Rattle.sdl_ast.specs.Views.{statement_of, choice_of, text_of, action_of, connection_of, process_of};
ghost use Rattle.sdl_tables.specs.Names.{number_of, variables_of, connector_names, is_state, states_of};
ghost use Rattle.sdl_sound.specs.Paths.{reads, action_events};
ghost use Rattle.sdl_sound.specs.Chances.{last_chances, event_chances};
ghost use Rattle.sdl_sound.specs.Names.{process_unknown};
ghost use Rattle.sdl_sound.specs.Actions.{in_statements};
ghost use Rattle.sdl_sound.specs.Decisions.{statement_unanswered};
ghost use Rattle.sdl_sound.specs.Orders.{IsOrder};
ghost use Rattle.sdl_unset.specs.Flows.{Stands, Walked, AreTold, AreJoined, text_doings, choice_doings, end_doings};

use crate::flow::{action_flow, expression_flow, is_quoted};
use crate::walker::{Walker, idle_walkers};
use sdl_ast::{Action, Connection, Decision, End, Statement, Transition};
use sdl_lex::Name;
use sdl_tables::ProcessTable;
use std::alloc::{AllocError, Global};

/// The walker of the connection with this name.
fn joined_walker<'a>(table: &ProcessTable, walkers: &'a [Walker], name: Name) -> Option<&'a Walker>
    ensures { option_map (λ w. w.now) result ≡ option_and_then (slice_get walkers.now) (number_of (connector_names (process_of table.now)) name) }
{
    match table.connectors().number(name) {
        None => None,
        Some(number) => walkers.get(number),
    }
}

/// Walks a JOIN: goes on with the walks of its connection.
fn walk_join(table: &ProcessTable, walkers: &[Walker], walker: &mut Walker, name: Name)
    ensures { (told : _) → AreTold (process_of table.now) told walkers.now
        → Walked (process_of table.now) (λ x q. told x q name) walker.old walker.new }
{
    match joined_walker(table, walkers, name) {
        None => walker.stop(),
        Some(other) => walker.join(other),
    }
}

/// Walks a NEXTSTATE: the walks end in the state with this name.
fn walk_next(table: &ProcessTable, walker: &mut Walker, name: Name)
    ensures { Walked (process_of table.now) (λ x q. record { reads = false; leaves = false; enters = is_state (states_of (process_of table.now)) q name })
        walker.old walker.new }
{
    match table.states().number(name) {
        None => walker.stop(),
        Some(state) => walker.enter(state),
    }
}

/// Walks the end of a transition. No walk goes on after STOP.
fn walk_end(table: &ProcessTable, walkers: &[Walker], walker: &mut Walker, end: End)
    ensures { (told : _) → AreTold (process_of table.now) told walkers.now
        → Walked (process_of table.now) (end_doings (process_of table.now) told end) walker.old walker.new }
{
    match end {
        End::NextState(next) => walk_next(table, walker, next.state.name),
        End::Stop(_) => walker.stop(),
        End::Join(join) => walk_join(table, walkers, walker, join.connector.name),
    }
}

/// Walks an action. A TASK that holds only quoted text reads and sets nothing, and so changes nothing.
fn walk_action(table: &ProcessTable, walker: &mut Walker, action: &Action)
    ensures { Walked (process_of table.now) (λ x q. event_chances (action_events (action_of action.now)) x) walker.old walker.new }
{
    if is_quoted(action) {
        return;
    }
    walker.pass(action_flow(table, action));
}

/// Walks a transition from its first statement to its end, if it has one.
#[cycle(walking)]
pub(crate) fn walk_transition(
    table: &ProcessTable,
    walkers: &[Walker],
    walker: &mut Walker,
    transition: &Transition,
)
    ensures { (told : _) → AreTold (process_of table.now) told walkers.now
        → Walked (process_of table.now) (text_doings (process_of table.now) told (text_of transition.now)) walker.old walker.new }
{
    for statement in &transition.statements {
        walk_statement(table, walkers, walker, statement);
    }
    match transition.end {
        None => {}
        Some(end) => walk_end(table, walkers, walker, end),
    }
}

/// Walks a statement: an action, or the question and the answers of a DECISION.
#[cycle(walking)]
fn walk_statement(
    table: &ProcessTable,
    walkers: &[Walker],
    walker: &mut Walker,
    statement: &Statement,
)
    ensures { (told : _) → AreTold (process_of table.now) told walkers.now
        → Walked (process_of table.now) (text_doings (process_of table.now) told (statement_of statement.now falls)) walker.old walker.new }
{
    match statement {
        Statement::Act(action) => walk_action(table, walker, action),
        Statement::Decide(decision) => {
            walker.pass(expression_flow(table, &decision.question));
            walk_decision(table, walkers, walker, decision);
        }
    }
}

/// Walks the answers of a DECISION.
#[cycle(walking)]
fn walk_decision(table: &ProcessTable, walkers: &[Walker], walker: &mut Walker, decision: &Decision)
    ensures { (told : _) → AreTold (process_of table.now) told walkers.now
        → Walked (process_of table.now) (choice_doings (process_of table.now) told (choice_of decision.now)) walker.old walker.new }
{
    let before = walker.leaves;
    let mut after = 0;
    for answer in &decision.answers {
        walk_transition(table, walkers, walker, &answer.body);
        after |= walker.leaves;
        walker.leaves = before;
    }
    match &decision.otherwise {
        None => {}
        Some(body) => {
            walk_transition(table, walkers, walker, body);
            after |= walker.leaves;
        }
    }
    walker.leaves = after;
}

/// The walker at the end of a connection's text, after which nothing follows.
fn connection_walker(
    alloc: Global,
    table: &ProcessTable,
    walkers: &[Walker],
    connection: &Connection,
) -> Result<Walker, AllocError>
    ensures { IfOk result (λ w. (told : _) → AreTold (process_of table.now) told walkers.now
        → Stands (process_of table.now) (λ x q. last_chances (text_doings (process_of table.now) told (text_of connection.now.transition) x q)) w) }
{
    let mut walker = Walker::at_start(alloc, table.states().len())?;
    walk_transition(table, walkers, &mut walker, &connection.transition);
    walker.stop();
    Ok(walker)
}

/// The connections of a process.
fn connections_in<'a>(table: &ProcessTable<'a>) -> &'a [Connection]
    ensures { map connection_of result.now ≡ (process_of table.now).connections }
{
    &table.process().connections
}

/// The walkers of all connections, by number. In this order each connection comes after those that it joins.
pub(crate) fn connection_walkers(
    alloc: Global,
    table: &ProcessTable,
    order: &[usize],
) -> Result<Vec<Walker>, AllocError>
    requires known { (b : PlainBlock) × (process_unknown b (process_of table.now) ≡ []) }
    requires answered { in_statements (λ from. statement_unanswered (variables_of (process_of table.now))) (process_of table.now) ≡ [] }
    requires order { IsOrder (process_of table.now) order.now }
    ensures { IfOk result (λ ws. AreJoined (process_of table.now) ws.items) }
{
    let connections = connections_in(table);
    let mut walkers = idle_walkers(alloc, table.states().len(), connections.len())?;
    for number in order {
        let walker = connection_walker(alloc, table, &walkers, &connections[*number])?;
        walkers[*number] = walker;
    }
    Ok(walkers)
}
