//! Graphs of numbered nodes: for each node, the nodes to which its links lead.
ghost use Rattle.std.specs.Prelude.{◌≡◌, ◌∷◌, ◌++◌, ◌<◌, ◌≤◌, ◌+◌, ◌-◌, ℕ, [], true, false, All, length, map, take, slice_get, slice_set, Some, IfOk, OnOk, IfSome, IfNone};
ghost use Rattle.std.specs.Option.{option_map_or};
ghost use Rattle.sdl_measures.specs.Links.{nexts, graph_in, IsGraph, IsOrderOf, Returns};
ghost use Rattle.sdl_measures.specs.Searched.{AreFound, Finds, Follows, AreMarks, is_new, is_done, IsSearch, Advances, Visits};
ghost use Rattle.sdl_measures.specs.declared.graph.Mark.TheVariants.{Open, Done};

use std::alloc::{AllocError, Global};

/// How far the search for an order is with a node.
#[derive(Clone, Copy)]
enum Mark {
    /// The search hasn't visited the node.
    New,
    /// The node is open, at this depth of the path.
    Open(usize),
    /// The node is in the order, at this index.
    Done(usize),
}

/// An open node, and how many of its links have been followed to nodes in the order.
#[derive(Clone, Copy)]
struct Frame {
    node: usize,
    next: usize,
}

/// The nodes to which a node leads.
fn links(graph: &[Vec<usize>], node: usize) -> &[usize]
    requires { node < length graph.now }
    ensures { result.now ≡ nexts (graph_in graph.now) node }
{
    &graph[node]
}

/// Adds a node to those found, unless it is marked.
fn see(node: usize, marks: &mut Vec<bool>, found: &mut Vec<usize>) -> Result<(), AllocError>
    requires within { node < length marks.old.items }
    requires found { AreFound marks.old.items found.old.items }
    ensures { OnOk result (Finds (node ∷ []) marks.old.items found.old.items marks.new.items found.new.items) }
{
    if !marks[node] {
        found.push(node)?;
        marks[node] = true;
    }
    Ok(())
}

/// Adds these nodes to those found, except marked ones.
fn see_all(nodes: &[usize], marks: &mut Vec<bool>, found: &mut Vec<usize>) -> Result<(), AllocError>
    requires within { All (λ n. n < length marks.old.items) nodes.now }
    requires found { AreFound marks.old.items found.old.items }
    ensures { OnOk result (Finds nodes.now marks.old.items found.old.items marks.new.items found.new.items) }
{
    for node in nodes {
        see(*node, marks, found)?;
    }
    Ok(())
}

/// Marks each node that is reachable from one of these nodes.
pub(crate) fn marks_from(
    alloc: Global,
    graph: &[Vec<usize>],
    starts: &[usize],
) -> Result<Vec<bool>, AllocError>
    requires graph { IsGraph (graph_in graph.now) }
    requires starts { All (λ s. s < length graph.now) starts.now }
    ensures { IfOk result (λ marks. AreMarks (graph_in graph.now) starts.now marks.items) }
{
    let mut marks = vec![in alloc; false; graph.len()]?;
    let mut found = Vec::new(alloc);
    see_all(starts, &mut marks, &mut found)?;
    follow(graph, &mut marks, &mut found)?;
    Ok(marks)
}

/// Continues the search from the nodes found until no new one is found.
fn follow(
    graph: &[Vec<usize>],
    marks: &mut Vec<bool>,
    found: &mut Vec<usize>,
) -> Result<(), AllocError>
    requires graph { IsGraph (graph_in graph.now) }
    requires count { length marks.old.items ≡ length graph.now }
    requires found { AreFound marks.old.items found.old.items }
    ensures { OnOk result (Follows (graph_in graph.now) marks.old.items found.old.items marks.new.items) }
{
    let mut next = 0;
    while next < found.len() {
        let node = found[next];
        see_all(links(graph, node), marks, found)?;
        next += 1;
    }
    Ok(())
}

/// Whether the search hasn't visited a node.
fn is_new(marks: &[Mark], node: usize) -> bool
    requires { node < length marks.now }
    ensures { result ≡ option_map_or is_new (slice_get marks.now node) false }
{
    match marks[node] {
        Mark::New => true,
        Mark::Open(_) => false,
        Mark::Done(_) => false,
    }
}

/// Whether a node is in the order.
fn is_done(marks: &[Mark], node: usize) -> bool
    requires { node < length marks.now }
    ensures { result ≡ option_map_or is_done (slice_get marks.now node) false }
{
    match marks[node] {
        Mark::New => false,
        Mark::Open(_) => false,
        Mark::Done(_) => true,
    }
}

/// The first index, from `from` on, of a node that isn't in the order yet.
fn skip(nodes: &[usize], marks: &[Mark], from: usize) -> usize
    requires { All (λ n. n < length marks.now) nodes.now }
    ensures passed { (k n : ℕ) → from ≤ k → k < result → slice_get nodes.now k ≡ Some n
        → option_map_or is_done (slice_get marks.now n) false ≡ true }
    ensures stop { (n : ℕ) → slice_get nodes.now result ≡ Some n → option_map_or is_done (slice_get marks.now n) false ≡ false }
{
    let mut next = from;
    while next < nodes.len() && is_done(marks, nodes[next]) {
        next += 1;
    }
    next
}

/// Opens a node at the end of the path.
fn enter(node: usize, marks: &mut Vec<Mark>, path: &mut Vec<Frame>) -> Result<(), AllocError>
    requires { node < length marks.old.items }
    ensures marks { OnOk result (marks.new.items ≡ slice_set marks.old.items node (Open (length path.old.items))) }
    ensures path { OnOk result (path.new.items ≡ path.old.items ++ record { node = node; next = 0 } ∷ []) }
{
    marks[node] = Mark::Open(path.len());
    path.push(Frame { node, next: 0 })?;
    Ok(())
}

/// Closes the last open node and appends it to the order.
fn finish(
    node: usize,
    marks: &mut Vec<Mark>,
    path: &mut Vec<Frame>,
    order: &mut Vec<usize>,
) -> Result<(), AllocError>
    requires { node < length marks.old.items }
    ensures marks { OnOk result (marks.new.items ≡ slice_set marks.old.items node (Done (length order.old.items))) }
    ensures path { OnOk result (path.new.items ≡ take (length path.old.items - 1) path.old.items) }
    ensures order { OnOk result (order.new.items ≡ order.old.items ++ node ∷ []) }
{
    marks[node] = Mark::Done(order.len());
    path.pop();
    order.push(node)?;
    Ok(())
}

/// Makes a step at the last open node. Returns `false` if it leads to an open node.
fn advance(
    graph: &[Vec<usize>],
    marks: &mut Vec<Mark>,
    path: &mut Vec<Frame>,
    order: &mut Vec<usize>,
) -> Result<bool, AllocError>
    requires graph { IsGraph (graph_in graph.now) }
    requires search { IsSearch (graph_in graph.now) marks.old.items path.old.items order.old.items }
    requires open { 0 < length path.old.items }
    ensures on { IfOk result (λ on. on ≡ true → Advances (graph_in graph.now) marks.old.items path.old.items marks.new.items path.new.items order.new.items) }
    ensures back { IfOk result (λ on. on ≡ false → (n : ℕ) × Returns (graph_in graph.now) n) }
{
    let last = path.len() - 1;
    let frame = path[last];
    let node = frame.node;
    let nodes = links(graph, node);
    let next = skip(nodes, marks, frame.next);
    if next >= nodes.len() {
        finish(node, marks, path, order)?;
        return Ok(true);
    }
    let target = nodes[next];
    if !is_new(marks, target) {
        return Ok(false);
    }
    path[last] = Frame { node, next };
    enter(target, marks, path)?;
    Ok(true)
}

/// Visits a node and all nodes reachable from it. Returns `false` if a path leads from a node back to it.
fn visit(
    graph: &[Vec<usize>],
    root: usize,
    marks: &mut Vec<Mark>,
    path: &mut Vec<Frame>,
    order: &mut Vec<usize>,
) -> Result<bool, AllocError>
    requires graph { IsGraph (graph_in graph.now) }
    requires root { root < length graph.now }
    requires search { IsSearch (graph_in graph.now) marks.old.items path.old.items order.old.items }
    requires done { path.old.items ≡ [] }
    ensures on { IfOk result (λ on. on ≡ true → Visits (graph_in graph.now) root marks.old.items marks.new.items path.new.items order.new.items) }
    ensures back { IfOk result (λ on. on ≡ false → (n : ℕ) × Returns (graph_in graph.now) n) }
{
    if is_new(marks, root) {
        enter(root, marks, path)?;
    }
    while !path.is_empty() {
        if !advance(graph, marks, path, order)? {
            return Ok(false);
        }
    }
    Ok(true)
}

/// The nodes in an order in which each comes after those to which it leads, or `None` if the graph has a cycle.
pub(crate) fn order_nodes(
    alloc: Global,
    graph: &[Vec<usize>],
) -> Result<Option<Vec<usize>>, AllocError>
    requires { IsGraph (graph_in graph.now) }
    ensures order { IfOk result (λ o. IfSome o (λ order. IsOrderOf (graph_in graph.now) order.items)) }
    ensures none { IfOk result (λ o. IfNone o ((n : ℕ) × Returns (graph_in graph.now) n)) }
{
    let mut marks = vec![in alloc; Mark::New; graph.len()]?;
    let mut path = Vec::new(alloc);
    let mut order = Vec::new(alloc);
    for root in 0..graph.len() {
        if !visit(graph, root, &mut marks, &mut path, &mut order)? {
            return Ok(None);
        }
    }
    Ok(Some(order))
}
