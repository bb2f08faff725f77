//! Finds the nodes of a graph from which a way leads to a node.
ghost use Rattle.std.specs.Prelude.{◌≡◌, ◌||◌, ◌<◌, ℕ, length, nat_eq, IfOk};
ghost use Rattle.std.specs.List.{list_any};
ghost use Rattle.sdl_measures.specs.Links.{nexts, goes, graph_in};
ghost use Rattle.sdl_warnings.specs.Marked.{is_marked};
ghost use Rattle.sdl_warnings.specs.Reaches.{is_way_in};

use crate::exits::is_marked;
use std::alloc::{AllocError, Global};

/// Whether one of these numbers has a mark.
fn any_marked(marks: &[bool], numbers: &[usize]) -> bool
    ensures { result ≡ list_any (is_marked marks.now) numbers.now }
{
    let mut any = false;
    for number in numbers {
        any |= is_marked(marks, *number);
    }
    any
}

/// Marks of which only one is set.
fn only(alloc: Global, count: usize, number: usize) -> Result<Vec<bool>, AllocError>
    requires { number < count }
    ensures len { IfOk result (λ v. length v.items ≡ count) }
    ensures only { IfOk result (λ v. (n : ℕ) → is_marked v.items n ≡ nat_eq n number) }
{
    let mut marks = vec![in alloc; false; count]?;
    marks[number] = true;
    Ok(marks)
}

/// Whether the node is the target, or one of its links leads to a marked node.
fn is_near(graph: &[Vec<usize>], marks: &[bool], target: usize, node: usize) -> bool
    requires { node < length graph.now }
    ensures { result ≡ (nat_eq node target || list_any (is_marked marks.now) (nexts (graph_in graph.now) node)) }
{
    node == target || any_marked(marks, &graph[node])
}

/// Marks the target, and the nodes from which a link leads to a marked one.
fn step(
    alloc: Global,
    graph: &[Vec<usize>],
    target: usize,
    marks: &[bool],
) -> Result<Vec<bool>, AllocError>
    ensures len { IfOk result (λ v. length v.items ≡ length graph.now) }
    ensures marks { IfOk result (λ v. (n : ℕ) → n < length graph.now
        → is_marked v.items n ≡ (nat_eq n target || list_any (is_marked marks.now) (nexts (graph_in graph.now) n))) }
{
    let mut next = Vec::new(alloc);
    for node in 0..graph.len() {
        next.push(is_near(graph, marks, target, node))?;
    }
    Ok(next)
}

/// Marks the target and the nodes from which a way leads to it.
fn from_where(alloc: Global, graph: &[Vec<usize>], target: usize) -> Result<Vec<bool>, AllocError>
    requires { target < length graph.now }
    ensures { IfOk result (λ v. (n : ℕ) → is_marked v.items n ≡ goes (graph_in graph.now) n target) }
{
    let mut marks = only(alloc, graph.len(), target)?;
    for _round in 0..graph.len() {
        marks = step(alloc, graph, target, &marks)?;
    }
    Ok(marks)
}

/// For each node, marks itself and the nodes from which a way leads to it.
pub(crate) fn find_ways(alloc: Global, graph: &[Vec<usize>]) -> Result<Vec<Vec<bool>>, AllocError>
    ensures { IfOk result (λ v. (n m : ℕ) → m < length graph.now → is_way_in v.items n m ≡ goes (graph_in graph.now) n m) }
{
    let mut ways = Vec::new(alloc);
    for target in 0..graph.len() {
        ways.push(from_where(alloc, graph, target)?)?;
    }
    Ok(ways)
}
