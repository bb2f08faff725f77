//! The block diagram of a set.
ghost use Rattle.std.specs.Prelude.{◌≡◌, ◌++◌, IfOk, OnOk};
ghost use Rattle.sdl_ast.specs.Views.{block_of};
ghost use Rattle.draw_text.specs.BlockDiagram.{graph_style, title_text, node_style, edge_style, head_text, block_text};

use crate::block_edges::{push_edges, push_nodes};
use crate::parties::parties_of;
use crate::push_bytes;
use sdl_tables::BlockTable;
use std::alloc::{AllocError, Global};

/// Appends the text that a diagram begins with, up to its title, to `text`.
#[tactic(auto, unfolding(crate::specs::BlockDiagram::graph_style))]
fn push_graph_style(text: &mut Vec<u8>) -> Result<(), AllocError>
    ensures { OnOk result (text.new.items ≡ text.old.items ++ graph_style) }
{
    push_bytes(
        text,
        b"digraph {\n  graph [labelloc=t, fontname=\"DejaVu Sans\", fontsize=16, label=<",
    )
}

/// Appends the title of a diagram to `text`.
fn push_title(text: &mut Vec<u8>, block: &BlockTable<'_>) -> Result<(), AllocError>
    ensures { OnOk result (text.new.items ≡ text.old.items ++ title_text (block_of block.now)) }
{
    let name = block.block().name.name;
    push_graph_style(text)?;
    push_bytes(text, b"<b>BLOCK ")?;
    push_bytes(text, name.as_bytes())?;
    push_bytes(text, b"</b>>];\n")
}

/// Appends the attributes of nodes to `text`.
#[tactic(auto, unfolding(crate::specs::BlockDiagram::node_style))]
fn push_node_style(text: &mut Vec<u8>) -> Result<(), AllocError>
    ensures { OnOk result (text.new.items ≡ text.old.items ++ node_style) }
{
    push_bytes(
        text,
        b"  node [shape=octagon, style=filled, fillcolor=\"#eef3ff\", fontsize=12,",
    )
}

/// Appends the attributes of edges to `text`.
#[tactic(auto, unfolding(crate::specs::BlockDiagram::edge_style))]
fn push_edge_style(text: &mut Vec<u8>) -> Result<(), AllocError>
    ensures { OnOk result (text.new.items ≡ text.old.items ++ edge_style) }
{
    push_bytes(
        text,
        b" fontname=\"DejaVu Sans\"];\n  edge [fontsize=9, arrowsize=0.7,",
    )
}

/// Appends the head of a diagram to `text`: its attributes and its title.
fn push_head(text: &mut Vec<u8>, block: &BlockTable<'_>) -> Result<(), AllocError>
    ensures { OnOk result (text.new.items ≡ text.old.items ++ head_text (block_of block.now)) }
{
    push_title(text, block)?;
    push_node_style(text)?;
    push_edge_style(text)?;
    push_bytes(text, b" fontname=\"DejaVu Sans\"];\n")
}

/// Returns the block diagram of a block in Graphviz's language: an octagon for each process, and an edge with its
/// signals for each pair of which a route carries a signal from one to the other. Each process also has a list of the
/// signals that come from the environment, and one of those that go there. Processes and signals are in the order of
/// the text.
pub fn draw_block(alloc: Global, block: &BlockTable<'_>) -> Result<Vec<u8>, AllocError>
    ensures { IfOk result (λ v. v.items ≡ block_text (block_of block.now)) }
{
    let parties = parties_of(alloc, block)?;
    let mut text = Vec::new(alloc);
    push_head(&mut text, block)?;
    push_nodes(&mut text, block, block.tables())?;
    push_edges(alloc, &mut text, block, &parties)?;
    push_bytes(&mut text, b"}\n")?;
    Ok(text)
}
