//! The nodes of a block diagram, and the edges between them.
ghost use Rattle.std.specs.Prelude.{◌≡◌, ◌++◌, map, OnOk, codes};
ghost use Rattle.std.specs.List.{flat_map};
ghost use Rattle.sdl_ast.specs.Views.{block_of, process_of};
ghost use Rattle.draw_text.specs.Statements.{party_text, sort_text, arguments_text};
ghost use Rattle.draw_text.specs.BlockEdges.{signal_text, sorts_text, signal_lines, source_text, target_text, ends_text, label_text, outer_text, is_outer, joined_text, edge_text, node_text};

use crate::parties::signals_between;
use crate::{push_bytes, push_name, sort_word};
use sdl_ast::{Identifier, Name, Party, Sort};
use sdl_tables::{BlockTable, ProcessTable};
use std::alloc::{AllocError, Global};

/// Appends the name of a party to `text`.
fn push_party(text: &mut Vec<u8>, block: &BlockTable<'_>, party: &Party) -> Result<(), AllocError>
    ensures { OnOk result (text.new.items ≡ text.old.items ++ party_text (block_of block.now) party.now) }
{
    match party {
        Party::Environment => push_bytes(text, b"ENV"),
        Party::Process(id) => push_name(text, block.processes(), id.name),
    }
}

/// Appends further sorts to `text`, a comma before each.
fn push_more_sorts(text: &mut Vec<u8>, sorts: &[Sort]) -> Result<(), AllocError>
    ensures { OnOk result (text.new.items ≡ text.old.items ++ flat_map (λ s. codes ", " ++ sort_text s) sorts.now) }
{
    for sort in sorts {
        push_bytes(text, b", ")?;
        push_bytes(text, sort_word(*sort))?;
    }
    Ok(())
}

/// Appends sorts in parentheses to `text`; nothing if there are none.
fn push_sorts(text: &mut Vec<u8>, sorts: &[Sort]) -> Result<(), AllocError>
    ensures { OnOk result (text.new.items ≡ text.old.items ++ arguments_text sort_text sorts.now) }
{
    match sorts.split_first() {
        Some((first, others)) => {
            push_bytes(text, b"(")?;
            push_bytes(text, sort_word(*first))?;
            push_more_sorts(text, others)?;
            push_bytes(text, b")")
        }
        None => Ok(()),
    }
}

/// Appends the sorts of a signal's parameters, in parentheses, to `text`.
fn push_signal_sorts(
    text: &mut Vec<u8>,
    block: &BlockTable<'_>,
    signal: Name,
) -> Result<(), AllocError>
    ensures { OnOk result (text.new.items ≡ text.old.items ++ sorts_text (block_of block.now) signal) }
{
    match block.signal(signal) {
        Some(declared) => push_sorts(text, &declared.parameters),
        None => Ok(()),
    }
}

/// Appends a signal with its sorts, on its own line, to `text`.
fn push_signal(text: &mut Vec<u8>, block: &BlockTable<'_>, signal: Name) -> Result<(), AllocError>
    ensures { OnOk result (text.new.items ≡ text.old.items ++ signal_text (block_of block.now) signal) }
{
    push_name(text, block.signals(), signal)?;
    push_signal_sorts(text, block, signal)?;
    push_bytes(text, b"\\l")
}

/// Appends the signals of a list to `text`, each on its own line.
fn push_signals(
    text: &mut Vec<u8>,
    block: &BlockTable<'_>,
    signals: &[Identifier],
) -> Result<(), AllocError>
    ensures { OnOk result (text.new.items ≡ text.old.items ++ signal_lines (block_of block.now) signals.now) }
{
    for id in signals {
        push_signal(text, block, id.name)?;
    }
    Ok(())
}

/// Appends the node where an edge starts to `text`.
fn push_source(
    text: &mut Vec<u8>,
    block: &BlockTable<'_>,
    from: &Party,
    to: &Party,
) -> Result<(), AllocError>
    ensures { OnOk result (text.new.items ≡ text.old.items ++ source_text (block_of block.now) from.now to.now) }
{
    match from {
        Party::Environment => {
            push_bytes(text, b"i_")?;
            push_party(text, block, to)
        }
        Party::Process(_) => {
            push_bytes(text, b"p_")?;
            push_party(text, block, from)
        }
    }
}

/// Appends the node where an edge ends to `text`.
fn push_target(
    text: &mut Vec<u8>,
    block: &BlockTable<'_>,
    from: &Party,
    to: &Party,
) -> Result<(), AllocError>
    ensures { OnOk result (text.new.items ≡ text.old.items ++ target_text (block_of block.now) from.now to.now) }
{
    match to {
        Party::Environment => {
            push_bytes(text, b"e_")?;
            push_party(text, block, from)
        }
        Party::Process(_) => {
            push_bytes(text, b"p_")?;
            push_party(text, block, to)
        }
    }
}

/// Appends both ends of an edge to `text`.
fn push_ends(
    text: &mut Vec<u8>,
    block: &BlockTable<'_>,
    from: &Party,
    to: &Party,
) -> Result<(), AllocError>
    ensures { OnOk result (text.new.items ≡ text.old.items ++ ends_text (block_of block.now) from.now to.now) }
{
    push_source(text, block, from, to)?;
    push_bytes(text, b" -> ")?;
    push_target(text, block, from, to)
}

/// Appends a label with the signals, and the end of the line, to `text`.
fn push_label(
    text: &mut Vec<u8>,
    block: &BlockTable<'_>,
    signals: &[Identifier],
) -> Result<(), AllocError>
    ensures { OnOk result (text.new.items ≡ text.old.items ++ label_text (block_of block.now) signals.now) }
{
    push_bytes(text, b"label=\"")?;
    push_signals(text, block, signals)?;
    push_bytes(text, b"\"];\n")
}

/// Appends the node that lists the signals from or to the environment to `text`.
fn push_outer(
    text: &mut Vec<u8>,
    block: &BlockTable<'_>,
    from: &Party,
    to: &Party,
) -> Result<(), AllocError>
    ensures { OnOk result (text.new.items ≡ text.old.items ++ outer_text (block_of block.now) from.now to.now) }
{
    match from {
        Party::Environment => {
            push_bytes(text, b"{rank=source; ")?;
            push_source(text, block, from, to)
        }
        Party::Process(_) => {
            push_bytes(text, b"{rank=sink; ")?;
            push_target(text, block, from, to)
        }
    }
}

/// Returns whether one of the two parties is the environment.
fn is_outer(from: &Party, to: &Party) -> bool
    ensures { result ≡ is_outer from.now to.now }
{
    match (from, to) {
        (Party::Process(_), Party::Process(_)) => false,
        _ => true,
    }
}

/// Appends an edge with its signals to `text`; signals from or to the environment are listed in a node of their own.
fn push_joined(
    text: &mut Vec<u8>,
    block: &BlockTable<'_>,
    from: &Party,
    to: &Party,
    signals: &[Identifier],
) -> Result<(), AllocError>
    ensures { OnOk result (text.new.items ≡ text.old.items ++ joined_text (block_of block.now) from.now to.now signals.now) }
{
    push_bytes(text, b"  ")?;
    if is_outer(from, to) {
        push_outer(text, block, from, to)?;
        push_bytes(text, b" [shape=plain, style=\"\", fontsize=9, ")?;
        push_label(text, block, signals)?;
        push_bytes(text, b"  }\n  ")?;
        push_ends(text, block, from, to)?;
        push_bytes(text, b";\n")
    } else {
        push_ends(text, block, from, to)?;
        push_bytes(text, b" [")?;
        push_label(text, block, signals)
    }
}

/// Appends the edge from one party to another to `text`; nothing if no route carries a signal between them.
fn push_edge(
    alloc: Global,
    text: &mut Vec<u8>,
    block: &BlockTable<'_>,
    from: &Party,
    to: &Party,
) -> Result<(), AllocError>
    ensures { OnOk result (text.new.items ≡ text.old.items ++ edge_text (block_of block.now) from.now to.now) }
{
    let signals = signals_between(alloc, block, from, to)?;
    if signals.len() == 0 {
        return Ok(());
    }
    push_joined(text, block, from, to, &signals)
}

/// Appends the edges from one party to each of `parties` to `text`.
fn push_edges_from(
    alloc: Global,
    text: &mut Vec<u8>,
    block: &BlockTable<'_>,
    from: &Party,
    parties: &[Party],
) -> Result<(), AllocError>
    ensures { OnOk result (text.new.items ≡ text.old.items ++ flat_map (edge_text (block_of block.now) from.now) parties.now) }
{
    for to in parties {
        push_edge(alloc, text, block, from, to)?;
    }
    Ok(())
}

/// Appends the edges from each of these parties to each of them to `text`.
pub(crate) fn push_edges(
    alloc: Global,
    text: &mut Vec<u8>,
    block: &BlockTable<'_>,
    parties: &[Party],
) -> Result<(), AllocError>
    ensures { OnOk result (text.new.items ≡ text.old.items ++ flat_map (λ from. flat_map (edge_text (block_of block.now) from) parties.now) parties.now) }
{
    for from in parties {
        push_edges_from(alloc, text, block, from, parties)?;
    }
    Ok(())
}

/// Appends the node of a process to `text`.
fn push_node(text: &mut Vec<u8>, block: &BlockTable<'_>, process: Name) -> Result<(), AllocError>
    ensures { OnOk result (text.new.items ≡ text.old.items ++ node_text (block_of block.now) process) }
{
    push_bytes(text, b"  p_")?;
    push_name(text, block.processes(), process)?;
    push_bytes(text, b" [label=<<b>")?;
    push_name(text, block.processes(), process)?;
    push_bytes(text, b"</b>>];\n")
}

/// Appends the nodes of processes to `text`.
pub(crate) fn push_nodes(
    text: &mut Vec<u8>,
    block: &BlockTable<'_>,
    processes: &[ProcessTable<'_>],
) -> Result<(), AllocError>
    ensures { OnOk result (text.new.items ≡ text.old.items ++ flat_map (λ p. node_text (block_of block.now) p.name.name) (map process_of processes.now)) }
{
    for process in processes {
        push_node(text, block, process.process().name.name)?;
    }
    Ok(())
}
