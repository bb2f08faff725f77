//! The state diagram of a process.
use crate::nodes::{NodeWays, nodes_of};
use crate::state_edges::{push_edges, push_node};
use crate::state_pieces::pieces_of;
use draw_text::{Names, push_bytes};
use sdl_lex::Name;
use std::alloc::{AllocError, Global};

/// Appends the text that a diagram begins with to `text`.
fn push_head(text: &mut Vec<u8>, process: Name) -> Result<(), AllocError> {
    push_bytes(
        text,
        b"digraph {\n  graph [labelloc=t, fontname=\"DejaVu Sans\", fontsize=16, label=<<b>PROCESS ",
    )?;
    push_bytes(text, process.as_bytes())?;
    push_bytes(text, b"</b>>];\n")?;
    push_bytes(
        text,
        b"  node [shape=box, style=\"rounded,filled\", fillcolor=\"#eef3ff\", fontsize=12,",
    )?;
    push_bytes(
        text,
        b" fontname=\"DejaVu Sans\"];\n  edge [fontsize=9, arrowsize=0.7, fontname=\"DejaVu Sans\"];\n",
    )
}

/// Appends the nodes to `text`.
fn push_nodes(alloc: Global, text: &mut Vec<u8>, nodes: &[NodeWays<'_>]) -> Result<(), AllocError> {
    for node in nodes {
        push_node(alloc, text, node)?;
    }
    Ok(())
}

/// Appends the edges of all nodes to `text`.
fn push_all_edges(
    alloc: Global,
    text: &mut Vec<u8>,
    nodes: &[NodeWays<'_>],
) -> Result<(), AllocError> {
    for node in nodes {
        push_edges(alloc, text, nodes, node)?;
    }
    Ok(())
}

/// Returns the state diagram of a process in Graphviz's language: START, its states in the order of the text, and its
/// connections. An edge from one to another has a line for each way. Ways from a state to itself are in its box. For a
/// transition with more than 64 ways, a line has only the answers that lead to an end, and `..` for the rest.
pub fn draw_states(alloc: Global, names: &Names<'_, '_>) -> Result<Vec<u8>, AllocError> {
    let pieces = pieces_of(alloc, names)?;
    let nodes = nodes_of(alloc, names, &pieces)?;
    let mut text = Vec::new(alloc);
    push_head(&mut text, names.process.process().name.name)?;
    push_nodes(alloc, &mut text, &nodes)?;
    push_all_edges(alloc, &mut text, &nodes)?;
    push_bytes(&mut text, b"}\n")?;
    Ok(text)
}
