//! The possible senders of what starts the transitions that lead to a connection. For each sender one search starts
//! from all connections that the INPUTs of its signals join.
ghost use Rattle.std.specs.Prelude.{◌≡◌, ◌<◌, [], length, map, All, IfOk};
ghost use Rattle.sdl_ast.specs.Plain.{PlainBlock};
ghost use Rattle.sdl_ast.specs.Views.{input_of, process_of};
ghost use Rattle.sdl_tables.specs.Names.{connector_names, input_parts};
ghost use Rattle.sdl_tables.specs.Scopes.{repeats};
ghost use Rattle.sdl_measures.specs.Links.{graph_in, IsGraph};
ghost use Rattle.sdl_sound.specs.Orders.{links_of};
ghost use Rattle.sdl_rules.specs.declared.sender_table.SenderTable as told;
ghost use Rattle.sdl_rules.specs.SenderTables.{ToldAll};
ghost use Rattle.sdl_scopes.specs.Reaches.{sent_of, senders_in};
ghost use Rattle.sdl_rules.specs.Reached.{joining_of, input_joining, takes_one, starts_with, sent_reach, AreSent};

use crate::back_table::is_there;
use crate::distinct::{MarkedRow, distinct_senders, mark_rows, rows_with};
use crate::sender_table::SenderTable;
use sdl_ast::InputPart;
use sdl_measures::{find_links, reached_from, reached_in, targets_in};
use sdl_scopes::{Sender, Sent};
use sdl_tables::ProcessTable;
use std::alloc::{AllocError, Global};

/// An INPUT: for each signal and timer that it takes, the row in the table of possible senders; and the numbers of the
/// connections that its transition joins.
#[derive(Drop)]
struct Joining {
    rows: Vec<Option<usize>>,
    targets: Vec<usize>,
}

fn look_at(
    alloc: Global,
    process: &ProcessTable,
    table: &SenderTable,
    input: &InputPart,
) -> Result<Joining, AllocError>
    ensures joining { IfOk result (λ j. joining_of j ≡ input_joining table.now.names (process_of process.now) (input_of input.now)) }
    ensures within { IfOk result (λ j. All (λ n. n < length (process_of process.now).connections) j.targets.items) }
{
    let rows = table.rows_of(alloc, &input.stimuli)?;
    let targets = targets_in(alloc, process, &input.transition)?;
    Ok(Joining { rows, targets })
}

/// The INPUTs of a process.
fn find_joinings(
    alloc: Global,
    process: &ProcessTable,
    table: &SenderTable,
) -> Result<Vec<Joining>, AllocError>
    ensures joinings { IfOk result (λ v. map joining_of v.items ≡ map (input_joining table.now.names (process_of process.now)) (input_parts (process_of process.now))) }
    ensures within { IfOk result (λ v. All (λ j. All (λ n. n < length (process_of process.now).connections) j.targets.items) v.items) }
{
    let mut joinings = Vec::new(alloc);
    for input in process.parts() {
        let joining = look_at(alloc, process, table, input)?;
        joinings.push(joining)?;
    }
    Ok(joinings)
}

/// Whether one of these rows has a mark.
fn takes_one(marks: &[bool], rows: &[Option<usize>]) -> bool
    ensures { result ≡ takes_one marks.now rows.now }
{
    for row in rows {
        if is_there(marks, *row) {
            return true;
        }
    }
    false
}

/// The connections that INPUTs with a marked row join.
fn starts_with(
    alloc: Global,
    joinings: &[Joining],
    marks: &[bool],
) -> Result<Vec<usize>, AllocError>
    ensures { IfOk result (λ v. v.items ≡ starts_with marks.now (map joining_of joinings.now)) }
{
    let mut starts = Vec::new(alloc);
    for joining in joinings {
        if takes_one(marks, &joining.rows) {
            starts.extend_from_slice(&joining.targets)?;
        }
    }
    Ok(starts)
}

/// A mark for each connection to which an INPUT of this sender's signals leads.
fn reached_by(
    alloc: Global,
    process: &ProcessTable,
    links: &[Vec<usize>],
    joinings: &[Joining],
    rows: &[MarkedRow],
    sender: &Sender,
) -> Result<Vec<bool>, AllocError>
    requires links { graph_in links.now ≡ links_of (process_of process.now) }
    requires graph { IsGraph (graph_in links.now) }
    requires distinct { repeats [] (connector_names (process_of process.now)) ≡ [] }
    requires within { All (λ j. All (λ n. n < length (process_of process.now).connections) j.targets.items) joinings.now }
    ensures { IfOk result (λ v. (t : told.SenderTable) → map (λ m. m.row.now) rows.now ≡ t.rows.items
        → map joining_of joinings.now ≡ map (input_joining t.names (process_of process.now)) (input_parts (process_of process.now))
        → v.items ≡ sent_reach (process_of process.now) t sender.now) }
{
    let marks = rows_with(alloc, rows, sender)?;
    let starts = starts_with(alloc, joinings, &marks)?;
    let reached = reached_from(alloc, links, &starts)?;
    Ok(reached)
}

/// Each possible sender of what starts the transitions of a process: nobody for START, then the senders for its INPUTs.
pub(crate) fn find_sent(
    alloc: Global,
    process: &ProcessTable,
    table: &SenderTable,
) -> Result<Vec<Sent>, AllocError>
    ensures { IfOk result (λ v. (b : PlainBlock) → ToldAll b (process_of process.now) table.now → AreSent b (process_of process.now) v.items) }
{
    let links = find_links(alloc, process)?;
    let joinings = find_joinings(alloc, process, table)?;
    let senders = distinct_senders(alloc, table.rows())?;
    let rows = mark_rows(alloc, table.rows())?;
    let mut all = Vec::new(alloc);
    let reached = reached_in(alloc, process, &links, &process.process().start.transition)?;
    let sender = Sender::Nobody;
    all.push(Sent { sender, reached })?;
    for sender in &senders {
        let reached = reached_by(alloc, process, &links, &joinings, &rows, sender)?;
        let sender = *sender;
        all.push(Sent { sender, reached })?;
    }
    Ok(all)
}
