//! Finds JOINs, and the connections that transitions reach by them.
ghost use Rattle.std.specs.Prelude.{◌≡◌, List, [], ◌++◌, ◌<◌, All, map, length, IfOk, OnOk};
ghost use Rattle.std.specs.List.{list_any};
ghost use Rattle.sdl_ast.specs.declared.tree.Join.{Join};
ghost use Rattle.sdl_ast.specs.Plain.{Text, PlainProcess};
ghost use Rattle.sdl_ast.specs.Views.{end_text, text_of, statement_of, choice_of, connection_of, process_of};
ghost use Rattle.sdl_tables.specs.Names.{connector_names};
ghost use Rattle.sdl_tables.specs.Scopes.{repeats};
ghost use Rattle.sdl_sound.specs.Statements.{joins_of};
ghost use Rattle.sdl_sound.specs.Joins.{comes, reaches};
ghost use Rattle.sdl_measures.specs.JoinLists.{text_joins, choice_joins};
ghost use Rattle.sdl_measures.specs.Links.{graph_in, IsGraph};
ghost use Rattle.sdl_sound.specs.Orders.{targets_of, links_of, joins_in};

use crate::graph::marks_from;
use sdl_ast::{Connection, Decision, End, Join, Statement, Transition};
use sdl_tables::{NameTable, ProcessTable};
use std::alloc::{AllocError, Global};

/// Appends the JOIN that ends a transition, if there is one.
fn push_end(joins: &mut Vec<Join>, end: Option<End>) -> Result<(), AllocError>
    ensures { OnOk result (joins.new.items ≡ joins.old.items ++ text_joins (end_text end)) }
{
    match end {
        None => Ok(()),
        Some(End::NextState(_)) => Ok(()),
        Some(End::Stop(_)) => Ok(()),
        Some(End::Join(join)) => Ok(joins.push(join)?),
    }
}

/// Appends the JOINs of a transition.
#[cycle(joining)]
fn push_joins(joins: &mut Vec<Join>, transition: &Transition) -> Result<(), AllocError>
    ensures { OnOk result (joins.new.items ≡ joins.old.items ++ text_joins (text_of transition.now)) }
{
    for statement in &transition.statements {
        push_in_statement(joins, statement)?;
    }
    push_end(joins, transition.end)
}

/// Appends the JOINs of a statement. An action has none.
#[cycle(joining)]
fn push_in_statement(joins: &mut Vec<Join>, statement: &Statement) -> Result<(), AllocError>
    ensures { OnOk result ((rest : Text) → joins.new.items ++ text_joins rest ≡ joins.old.items ++ text_joins (statement_of statement.now rest)) }
{
    match statement {
        Statement::Act(_) => Ok(()),
        Statement::Decide(decision) => push_in_decision(joins, decision),
    }
}

/// Appends the JOINs in the bodies of a DECISION.
#[cycle(joining)]
fn push_in_decision(joins: &mut Vec<Join>, decision: &Decision) -> Result<(), AllocError>
    ensures { OnOk result (joins.new.items ≡ joins.old.items ++ choice_joins (choice_of decision.now)) }
{
    for answer in &decision.answers {
        push_joins(joins, &answer.body)?;
    }
    match &decision.otherwise {
        Some(body) => push_joins(joins, body),
        None => Ok(()),
    }
}

/// Collects the JOINs of a transition, in the order of the text.
pub(crate) fn find_joins(alloc: Global, transition: &Transition) -> Result<Vec<Join>, AllocError>
    ensures { IfOk result (λ v. v.items ≡ joins_of (text_of transition.now)) }
{
    let mut joins = Vec::new(alloc);
    push_joins(&mut joins, transition)?;
    Ok(joins)
}

/// The numbers of the connections to which these JOINs lead.
pub(crate) fn find_targets(
    alloc: Global,
    connectors: &NameTable,
    joins: &[Join],
) -> Result<Vec<usize>, AllocError>
    ensures targets { IfOk result (λ v. v.items ≡ joins_in connectors.now joins.now) }
    ensures within { IfOk result (λ v. All (λ n. n < length connectors.now) v.items) }
{
    let mut targets = Vec::new(alloc);
    for join in joins {
        match connectors.number(join.connector.name) {
            Some(number) => targets.push(number)?,
            None => {}
        }
    }
    Ok(targets)
}

/// For each of these connections, the numbers of the connections to which its JOINs lead.
fn links_in(
    alloc: Global,
    connectors: &NameTable,
    connections: &[Connection],
) -> Result<Vec<Vec<usize>>, AllocError>
    ensures links { IfOk result (λ v. graph_in v.items ≡ map (λ c. joins_in connectors.now (joins_of c.text)) (map connection_of connections.now)) }
    ensures within { IfOk result (λ v. All (λ ts. All (λ n. n < length connectors.now) ts) (graph_in v.items)) }
{
    let mut links = Vec::new(alloc);
    for connection in connections {
        let joins = find_joins(alloc, &connection.transition)?;
        links.push(find_targets(alloc, connectors, &joins)?)?;
    }
    Ok(links)
}

/// For each connection of a process, by number, the numbers of the connections to which its JOINs lead.
pub fn find_links(alloc: Global, process: &ProcessTable) -> Result<Vec<Vec<usize>>, AllocError>
    ensures links { IfOk result (λ v. graph_in v.items ≡ links_of (process_of process.now)) }
    ensures graph { IfOk result (λ v. IsGraph (graph_in v.items)) }
    ensures distinct { repeats [] (connector_names (process_of process.now)) ≡ [] }
{
    links_in(alloc, process.connectors(), &process.process().connections)
}

/// The numbers of the connections to which the JOINs in the text of a transition lead.
pub fn targets_in(
    alloc: Global,
    process: &ProcessTable,
    transition: &Transition,
) -> Result<Vec<usize>, AllocError>
    ensures targets { IfOk result (λ v. v.items ≡ targets_of (process_of process.now) (joins_of (text_of transition.now))) }
    ensures within { IfOk result (λ v. All (λ n. n < length (process_of process.now).connections) v.items) }
{
    let joins = find_joins(alloc, transition)?;
    let targets = find_targets(alloc, process.connectors(), &joins)?;
    Ok(targets)
}

/// For each connection of a process, by number, whether it is reachable from one of `starts`. `links` are those of the
/// connections, and `starts` the numbers of the connections to which some JOINs lead.
pub fn reached_from(
    alloc: Global,
    links: &[Vec<usize>],
    starts: &[usize],
) -> Result<Vec<bool>, AllocError>
    requires graph { IsGraph (graph_in links.now) }
    requires within { All (λ n. n < length links.now) starts.now }
    ensures { IfOk result (λ marks. (p : PlainProcess) (joins : List Join) → graph_in links.now ≡ links_of p → repeats [] (connector_names p) ≡ []
        → starts.now ≡ targets_of p joins → marks.items ≡ map (λ c. list_any (λ j. comes p j.connector.name c.name.name) joins) p.connections) }
{
    let marks = marks_from(alloc, links, starts)?;
    Ok(marks)
}

/// For each connection of a process, by number, whether a transition reaches it. `links` are those of the connections.
pub fn reached_in(
    alloc: Global,
    process: &ProcessTable,
    links: &[Vec<usize>],
    transition: &Transition,
) -> Result<Vec<bool>, AllocError>
    requires links { graph_in links.now ≡ links_of (process_of process.now) }
    requires graph { IsGraph (graph_in links.now) }
    requires distinct { repeats [] (connector_names (process_of process.now)) ≡ [] }
    ensures { IfOk result (λ marks. marks.items ≡ map (λ c. reaches (process_of process.now) (text_of transition.now) c.name.name) (process_of process.now).connections) }
{
    let starts = targets_in(alloc, process, transition)?;
    let marks = reached_from(alloc, links, &starts)?;
    Ok(marks)
}
