//! The nodes and the edges of a state diagram as they are written.
use crate::labels::{Label, Look, push_way};
use crate::nodes::{Gone, Node, NodeWays, joining, push_node_id};
use draw_text::{Kind, Part, push_bytes};
use sdl_lex::Name;
use std::alloc::{AllocError, Global};

/// The largest number of nodes with ways to the circle of a connection; with more, a circle is drawn beside each node.
const MOST_JOINING: usize = 2;

/// Adds the ways from a state back to itself: those with an effect, or those without.
fn add_loops(
    alloc: Global,
    label: &mut Label,
    node: &NodeWays<'_>,
    state: &[u8],
    with_effect: bool,
) -> Result<(), AllocError> {
    for gone in &node.gone {
        if gone.ends_with(Kind::NextState, state) && gone.has_effect() == with_effect {
            let look = if with_effect {
                Look::Input
            } else {
                Look::Quiet
            };
            push_way(alloc, label, gone, look)?;
        }
    }
    Ok(())
}

/// Adds the SAVEs of a state.
fn add_saves(alloc: Global, label: &mut Label, node: &NodeWays<'_>) -> Result<(), AllocError> {
    for gone in &node.gone {
        if is_save(gone) {
            push_way(alloc, label, gone, Look::Save)?;
        }
    }
    Ok(())
}

/// Whether a way is a SAVE.
fn is_save(gone: &Gone<'_>) -> bool {
    match gone.last() {
        Some(part) => part.kind == Kind::Save,
        None => false,
    }
}

/// The content of a state's box below its name: its SAVEs, and the ways that lead back to it.
fn inside(alloc: Global, node: &NodeWays<'_>, state: &[u8]) -> Result<Label, AllocError> {
    let mut label = Label::new(alloc);
    add_saves(alloc, &mut label, node)?;
    add_loops(alloc, &mut label, node, state, true)?;
    add_loops(alloc, &mut label, node, state, false)?;
    Ok(label)
}

/// Appends the box of a state to `text`.
fn push_state(
    alloc: Global,
    text: &mut Vec<u8>,
    node: &NodeWays<'_>,
    name: Name,
) -> Result<(), AllocError> {
    let label = inside(alloc, node, name.as_bytes())?;
    push_bytes(text, b"  ")?;
    push_node_id(text, node.node)?;
    push_bytes(
        text,
        b" [label=<<table border=\"0\" cellborder=\"0\" cellspacing=\"0\"><tr><td><b>",
    )?;
    push_bytes(text, name.as_bytes())?;
    push_bytes(text, b"</b></td></tr>")?;
    if !label.is_empty() {
        push_bytes(
            text,
            b"<hr/><tr><td align=\"left\" balign=\"left\"><font point-size=\"9\">",
        )?;
        push_bytes(text, label.as_bytes())?;
        push_bytes(text, b"</font></td></tr>")?;
    }
    push_bytes(text, b"</table>>];\n")
}

/// Appends a node to `text`.
pub(crate) fn push_node(
    alloc: Global,
    text: &mut Vec<u8>,
    node: &NodeWays<'_>,
) -> Result<(), AllocError> {
    match node.node {
        Node::Start => push_bytes(
            text,
            b"  start [shape=circle, fillcolor=\"#000000\", label=\"\", width=0.2];\n",
        ),
        Node::State(name) => push_state(alloc, text, node, name),
        Node::Connection(name) => {
            push_bytes(text, b"  ")?;
            push_node_id(text, node.node)?;
            push_bytes(
                text,
                b" [shape=circle, fillcolor=\"#ffffff\", margin=0.02, label=\"",
            )?;
            push_bytes(text, name.as_bytes())?;
            push_bytes(text, b"\"];\n")
        }
    }
}

/// Whether two ways end at the same node.
fn is_same_end(one: &Gone<'_>, other: &Gone<'_>) -> bool {
    match one.last() {
        Some(part) => other.ends_with(part.kind, &part.text),
        None => other.last().is_none(),
    }
}

/// Whether one of these ways ends at the same node as this one.
fn is_seen(before: &[Gone<'_>], gone: &Gone<'_>) -> bool {
    for other in before {
        if is_same_end(other, gone) {
            return true;
        }
    }
    false
}

/// The lines of all ways that end at the same node as this one.
fn lines_of(alloc: Global, node: &NodeWays<'_>, gone: &Gone<'_>) -> Result<Label, AllocError> {
    let mut label = Label::new(alloc);
    for other in &node.gone {
        if is_same_end(gone, other) {
            push_way(alloc, &mut label, other, Look::Input)?;
        }
    }
    Ok(label)
}

/// Appends the identifier of a connection's circle beside a node to `text`.
fn push_beside(text: &mut Vec<u8>, node: Node, connection: &[u8]) -> Result<(), AllocError> {
    push_bytes(text, b"o_")?;
    push_bytes(text, connection)?;
    push_bytes(text, b"_")?;
    push_node_id(text, node)
}

/// Appends the node of a STOP, or of a connection's circle beside a node, if the edge needs one.
fn push_own_target(
    text: &mut Vec<u8>,
    nodes: &[NodeWays<'_>],
    node: Node,
    last: &Part,
) -> Result<(), AllocError> {
    match last.kind {
        Kind::Join if joining(nodes, &last.text) > MOST_JOINING => {
            push_bytes(text, b"  ")?;
            push_beside(text, node, &last.text)?;
            push_bytes(
                text,
                b" [shape=circle, fillcolor=\"#ffffff\", margin=0.02, label=\"",
            )?;
            push_bytes(text, &last.text)?;
            push_bytes(text, b"\"];\n")
        }
        Kind::Stop => push_bytes(text, b"  x_ [shape=plain, style=\"\", label=\"X\"];\n"),
        _ => Ok(()),
    }
}

/// Appends the identifier of the node at which ways end to `text`.
fn push_target(
    text: &mut Vec<u8>,
    nodes: &[NodeWays<'_>],
    node: Node,
    last: &Part,
) -> Result<(), AllocError> {
    match last.kind {
        Kind::Join if joining(nodes, &last.text) > MOST_JOINING => {
            push_beside(text, node, &last.text)
        }
        Kind::Join => {
            push_bytes(text, b"c_")?;
            push_bytes(text, &last.text)
        }
        Kind::Stop => push_bytes(text, b"x_"),
        _ => {
            push_bytes(text, b"s_")?;
            push_bytes(text, &last.text)
        }
    }
}

/// Appends the edge of all ways of a node that end at the same node as this one to `text`.
fn push_edge(
    alloc: Global,
    text: &mut Vec<u8>,
    nodes: &[NodeWays<'_>],
    node: &NodeWays<'_>,
    gone: &Gone<'_>,
    last: &Part,
) -> Result<(), AllocError> {
    let label = lines_of(alloc, node, gone)?;
    push_own_target(text, nodes, node.node, last)?;
    push_bytes(text, b"  ")?;
    push_node_id(text, node.node)?;
    push_bytes(text, b" -> ")?;
    push_target(text, nodes, node.node, last)?;
    push_bytes(text, b" [label=<")?;
    push_bytes(text, label.as_bytes())?;
    push_bytes(text, b">];\n")
}

/// Whether ways that end with this symbol are written in the box of the node.
fn is_inside(node: Node, last: &Part) -> bool {
    match (node, last.kind) {
        (_, Kind::Save) => true,
        (Node::State(name), Kind::NextState) => last.text.as_slice() == name.as_bytes(),
        _ => false,
    }
}

/// Appends the edges of a node to `text`, in the order of their first ways.
pub(crate) fn push_edges(
    alloc: Global,
    text: &mut Vec<u8>,
    nodes: &[NodeWays<'_>],
    node: &NodeWays<'_>,
) -> Result<(), AllocError> {
    let all = node.gone.as_slice();
    for index in 0..all.len() {
        let gone = &all[index];
        if let Some(last) = gone.last() {
            if !is_inside(node.node, last) && !is_seen(&all[..index], gone) {
                push_edge(alloc, text, nodes, node, gone, last)?;
            }
        }
    }
    Ok(())
}
