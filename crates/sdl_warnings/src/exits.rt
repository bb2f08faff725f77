//! The states in which a transition may end.
ghost use Rattle.std.specs.Prelude.{◌≡◌, ◌||◌, ◌++◌, if◌then◌else◌, ℕ, [], map, length, IfOk, OnOk};
ghost use Rattle.std.specs.List.{list_any, flat_map};
ghost use Rattle.sdl_ast.specs.Views.{text_of, connection_of, process_of};
ghost use Rattle.sdl_tables.specs.Names.{states_of, is_state, connector_names};
ghost use Rattle.sdl_tables.specs.Scopes.{repeats};
ghost use Rattle.sdl_sound.specs.Orders.{links_of};
ghost use Rattle.sdl_measures.specs.Links.{graph_in, IsGraph};
ghost use Rattle.sdl_warnings.specs.Standing.{part_of};
ghost use Rattle.sdl_warnings.specs.Ways.{end_states, statement_states, text_states, exits};
ghost use Rattle.sdl_warnings.specs.Marked.{is_marked, marked_only};

use crate::parts::{Part, parts_of};
use sdl_ast::{Connection, End, Identifier, Transition};
use sdl_measures::reached_in;
use sdl_tables::{NameTable, ProcessTable};
use std::alloc::{AllocError, Global};

/// Appends the state that an end names if it is a NEXTSTATE.
fn push_end(ids: &mut Vec<Identifier>, end: &End) -> Result<(), AllocError>
    ensures { OnOk result (ids.new.items ≡ ids.old.items ++ end_states end.now) }
{
    match end {
        End::NextState(next) => Ok(ids.push(next.state)?),
        End::Stop(_) => Ok(()),
        End::Join(_) => Ok(()),
    }
}

/// Appends the state that a statement names if it is a NEXTSTATE.
fn push_state(ids: &mut Vec<Identifier>, part: &Part<'_>) -> Result<(), AllocError>
    ensures { OnOk result (ids.new.items ≡ ids.old.items ++ statement_states (part_of part.now)) }
{
    match part {
        Part::Finish(end) => push_end(ids, end),
        Part::Act(_) => Ok(()),
        Part::Ask(_) => Ok(()),
        Part::Cover(_, _) => Ok(()),
    }
}

/// Appends the states that statements name by NEXTSTATE.
fn push_states(ids: &mut Vec<Identifier>, parts: &[Part<'_>]) -> Result<(), AllocError>
    ensures { OnOk result (ids.new.items ≡ ids.old.items ++ flat_map statement_states (map part_of parts.now)) }
{
    for part in parts {
        push_state(ids, part)?;
    }
    Ok(())
}

/// Appends the states that the NEXTSTATEs of a transition name.
fn push_text(
    alloc: Global,
    ids: &mut Vec<Identifier>,
    transition: &Transition,
) -> Result<(), AllocError>
    ensures { OnOk result (ids.new.items ≡ ids.old.items ++ text_states (text_of transition.now)) }
{
    let parts = parts_of(alloc, transition)?;
    push_states(ids, &parts)
}

/// Appends the states that the NEXTSTATEs of a connection name if it is marked.
fn push_if(
    alloc: Global,
    ids: &mut Vec<Identifier>,
    connection: &Connection,
    mark: bool,
) -> Result<(), AllocError>
    ensures { OnOk result (ids.new.items ≡ ids.old.items ++ (if mark then text_states (connection_of connection.now).text else [])) }
{
    if mark {
        push_text(alloc, ids, &connection.transition)
    } else {
        Ok(())
    }
}

/// Appends the states that the NEXTSTATEs of the marked connections name.
fn push_connections(
    alloc: Global,
    ids: &mut Vec<Identifier>,
    connections: &[Connection],
    marks: &[bool],
) -> Result<(), AllocError>
    ensures { OnOk result (ids.new.items ≡ ids.old.items ++ flat_map (λ c. text_states c.text) (marked_only marks.now (map connection_of connections.now))) }
{
    for number in 0..connections.len() {
        push_if(alloc, ids, &connections[number], is_marked(marks, number))?;
    }
    Ok(())
}

/// The states in which a transition may end. `links` are those of the connections.
pub(crate) fn exits_of(
    alloc: Global,
    process: &ProcessTable,
    links: &[Vec<usize>],
    transition: &Transition,
) -> Result<Vec<Identifier>, AllocError>
    requires links { graph_in links.now ≡ links_of (process_of process.now) }
    requires graph { IsGraph (graph_in links.now) }
    requires distinct { repeats [] (connector_names (process_of process.now)) ≡ [] }
    ensures { IfOk result (λ v. v.items ≡ exits (process_of process.now) (text_of transition.now)) }
{
    let mut ids = Vec::new(alloc);
    push_text(alloc, &mut ids, transition)?;
    let marks = reached_in(alloc, process, links, transition)?;
    push_connections(alloc, &mut ids, &process.process().connections, &marks)?;
    Ok(ids)
}

/// Whether a number has a mark.
pub(crate) fn is_marked(marks: &[bool], number: usize) -> bool
    ensures { result ≡ is_marked marks.now number }
{
    match marks.get(number) {
        Some(mark) => *mark,
        None => false,
    }
}

/// Marks the state with a name.
fn mark_state(marks: &mut Vec<bool>, states: &NameTable, id: Identifier)
    requires { length marks.old.items ≡ length states.now }
    ensures len { length marks.new.items ≡ length marks.old.items }
    ensures marks { (n : ℕ) → is_marked marks.new.items n ≡ (is_marked marks.old.items n || is_state states.now n id.name) }
{
    match states.number(id.name) {
        Some(number) => marks[number] = true,
        None => {}
    }
}

/// Marks the states with these names.
pub(crate) fn mark_states(marks: &mut Vec<bool>, states: &NameTable, ids: &[Identifier])
    requires { length marks.old.items ≡ length states.now }
    ensures len { length marks.new.items ≡ length marks.old.items }
    ensures marks { (n : ℕ) → is_marked marks.new.items n ≡ (is_marked marks.old.items n || list_any (λ id. is_state states.now n id.name) ids.now) }
{
    for id in ids {
        mark_state(marks, states, *id);
    }
}
