//! A10: connections to which no JOIN leads from START or an INPUT.
ghost use Rattle.std.specs.Prelude.{◌≡◌, ◌++◌, ◌<◌, List, All, [], map, length, IfOk, OnOk};
ghost use Rattle.std.specs.List.{list_any, flat_map};
ghost use Rattle.sdl_ast.specs.Views.{input_of, text_of, connection_of, process_of};
ghost use Rattle.sdl_sound.specs.Orders.{targets_of, links_of};
ghost use Rattle.sdl_sound.specs.Statements.{joins_of};
ghost use Rattle.sdl_warnings.specs.Marked.{is_marked};
ghost use Rattle.sdl_warnings.specs.Warned.{outer_joins, is_joined, unreached_connections};

use crate::exits::is_marked;
use crate::warning::{Kind, Warning, push_unless};
use sdl_ast::InputPart;
use sdl_measures::{find_links, reached_from, targets_in};
use sdl_tables::ProcessTable;
use std::alloc::{AllocError, Global};

/// Appends the connections that INPUTs join.
fn push_targets(
    alloc: Global,
    targets: &mut Vec<usize>,
    process: &ProcessTable,
    inputs: &[&InputPart],
) -> Result<(), AllocError>
    requires { All (λ n. n < length (process_of process.now).connections) targets.old.items }
    ensures targets { OnOk result (targets.new.items ≡ targets.old.items ++ targets_of (process_of process.now) (flat_map (λ i. joins_of i.text) (map (λ i. input_of i.now) inputs.now))) }
    ensures within { OnOk result (All (λ n. n < length (process_of process.now).connections) targets.new.items) }
{
    for input in inputs {
        let more = targets_in(alloc, process, &input.transition)?;
        targets.extend_from_slice(&more)?;
    }
    Ok(())
}

/// The connections that the transitions of a process join.
fn outer_targets(alloc: Global, process: &ProcessTable) -> Result<Vec<usize>, AllocError>
    ensures targets { IfOk result (λ v. v.items ≡ targets_of (process_of process.now) (outer_joins (process_of process.now))) }
    ensures within { IfOk result (λ v. All (λ n. n < length (process_of process.now).connections) v.items) }
{
    let start = &process.process().start.transition;
    let mut targets = targets_in(alloc, process, start)?;
    push_targets(alloc, &mut targets, process, process.parts())?;
    Ok(targets)
}

/// A mark for each connection to which transitions come.
fn joined_marks(alloc: Global, process: &ProcessTable) -> Result<Vec<bool>, AllocError>
    ensures { IfOk result (λ v. v.items ≡ map (is_joined (process_of process.now)) (process_of process.now).connections) }
{
    let links = find_links(alloc, process)?;
    let targets = outer_targets(alloc, process)?;
    let marks = reached_from(alloc, &links, &targets)?;
    Ok(marks)
}

/// Appends the warnings of connections that aren't marked.
fn push_all_unmarked(
    found: &mut Vec<Warning>,
    process: &ProcessTable,
    marks: &[bool],
) -> Result<(), AllocError>
    requires { marks.now ≡ map (is_joined (process_of process.now)) (process_of process.now).connections }
    ensures { OnOk result (found.new.items ≡ found.old.items ++ unreached_connections (process_of process.now)) }
{
    let connections = process.process().connections.as_slice();
    for number in 0..connections.len() {
        let connection = &connections[number];
        let kind = Kind::UnreachedConnection(connection.name.name);
        push_unless(found, is_marked(marks, number), connection.at, kind)?;
    }
    Ok(())
}

/// Appends the warnings of connections to which no transition comes.
pub(crate) fn push_connections(
    alloc: Global,
    found: &mut Vec<Warning>,
    process: &ProcessTable,
) -> Result<(), AllocError>
    ensures { OnOk result (found.new.items ≡ found.old.items ++ unreached_connections (process_of process.now)) }
{
    let marks = joined_marks(alloc, process)?;
    push_all_unmarked(found, process, &marks)
}
