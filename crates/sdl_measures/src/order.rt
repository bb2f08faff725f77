//! S7: finds a JOIN that leads back to its own connection. If there is none, finds an order of the connections in which
//! each comes after all that it joins.
ghost use Rattle.std.specs.Prelude.{◌≡◌, ◌<◌, [], List, map, length, Some, IfOk};
ghost use Rattle.std.specs.List.{flat_map};
ghost use Rattle.sdl_ast.specs.Plain.{PlainConnection};
ghost use Rattle.sdl_ast.specs.Views.{process_of, block_of};
ghost use Rattle.sdl_tables.specs.Names.{number_of, connector_names, processes_of};
ghost use Rattle.sdl_tables.specs.Scopes.{Marks};
ghost use Rattle.sdl_sound.specs.Joins.{comes_back, process_cycles};
ghost use Rattle.sdl_measures.specs.Links.{graph_in, IsGraph};
ghost use Rattle.sdl_sound.specs.Orders.{links_of, IsOrdered, AreOrdered};

use crate::graph::{marks_from, order_nodes};
use crate::joins::{find_joins, find_links};
use sdl_ast::Join;
use sdl_tables::{BlockTable, ProcessTable, earlier};
use std::alloc::{AllocError, Global};

/// The place of a JOIN, if it leads back to the connection with this number.
fn place_back(
    alloc: Global,
    process: &ProcessTable,
    links: &[Vec<usize>],
    own: usize,
    join: Join,
) -> Result<Option<u32>, AllocError>
    requires links { graph_in links.now ≡ links_of (process_of process.now) }
    requires graph { IsGraph (graph_in links.now) }
    requires within { own < length links.now }
    ensures { IfOk result (λ place. (c : PlainConnection) → number_of (connector_names (process_of process.now)) c.name.name ≡ Some own
        → Marks place (comes_back (process_of process.now) c join)) }
{
    match process.connectors().number(join.connector.name) {
        None => Ok(None),
        Some(target) => {
            let marks = marks_from(alloc, links, &[target])?;
            if marks[own] {
                Ok(Some(join.at))
            } else {
                Ok(None)
            }
        }
    }
}

/// The place of the first of a connection's JOINs that leads back to it. The JOINs are in text order.
fn place_in_joins(
    alloc: Global,
    process: &ProcessTable,
    links: &[Vec<usize>],
    own: usize,
    joins: &[Join],
) -> Result<Option<u32>, AllocError>
    requires links { graph_in links.now ≡ links_of (process_of process.now) }
    requires graph { IsGraph (graph_in links.now) }
    requires within { own < length links.now }
    ensures { IfOk result (λ place. (c : PlainConnection) → number_of (connector_names (process_of process.now)) c.name.name ≡ Some own
        → Marks place (flat_map (comes_back (process_of process.now) c) joins.now)) }
{
    for join in joins {
        if let Some(at) = place_back(alloc, process, links, own, *join)? {
            return Ok(Some(at));
        }
    }
    Ok(None)
}

/// The place of the first JOIN that leads back to its connection. The connections are in text order.
fn place_in_process(
    alloc: Global,
    process: &ProcessTable,
    links: &[Vec<usize>],
) -> Result<Option<u32>, AllocError>
    requires links { graph_in links.now ≡ links_of (process_of process.now) }
    requires graph { IsGraph (graph_in links.now) }
    ensures { IfOk result (λ place. Marks place (process_cycles (process_of process.now))) }
{
    for (own, connection) in process.process().connections.iter().enumerate() {
        let joins = find_joins(alloc, &connection.transition)?;
        let place = place_in_joins(alloc, process, links, own, &joins)?;
        match place {
            None => {}
            Some(at) => return Ok(Some(at)),
        }
    }
    Ok(None)
}

/// An order of the connections of a process, or the place of a JOIN that leads back to its connection.
fn order_process(
    alloc: Global,
    process: &ProcessTable,
) -> Result<Result<Vec<usize>, Option<u32>>, AllocError>
    ensures { IfOk result (IsOrdered (process_of process.now)) }
{
    let links = find_links(alloc, process)?;
    match order_nodes(alloc, &links)? {
        Some(order) => Ok(Ok(order)),
        None => Ok(Err(place_in_process(alloc, process, &links)?)),
    }
}

/// An order of the connections of each process, or the first place of a JOIN that leads back to its connection.
pub fn find_orders(
    alloc: Global,
    block: &BlockTable,
) -> Result<Result<Vec<Vec<usize>>, u32>, AllocError>
    ensures { IfOk result (AreOrdered (block_of block.now)) }
{
    let mut orders = Vec::new(alloc);
    let mut place = None;
    let processes = block.tables();
    for process in processes {
        match order_process(alloc, process)? {
            Ok(order) => orders.push(order)?,
            Err(back) => place = earlier(place, back),
        }
    }
    match place {
        None => Ok(Ok(orders)),
        Some(at) => Ok(Err(at)),
    }
}
