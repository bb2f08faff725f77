//! The nodes of a state diagram, each with the ways that begin there.
use crate::state_pieces::{Owner, Piece};
use draw_text::{Identifier, Kind, NameTable, Names, Part, Way, push_bytes};
use sdl_lex::Name;
use std::alloc::{AllocError, Global};

/// The start of ways.
#[derive(Clone, Copy)]
pub(crate) enum Node {
    /// START.
    Start,
    /// A state.
    State(Name),
    /// A connection.
    Connection(Name),
}

/// A way, and the parts that it passes.
#[derive(Clone, Copy)]
pub(crate) struct Gone<'a> {
    pub(crate) parts: &'a [Part],
    pub(crate) way: &'a Way,
}

/// A node with its ways, in the order of the text.
#[derive(Drop)]
pub(crate) struct NodeWays<'a> {
    pub(crate) node: Node,
    pub(crate) gone: Vec<Gone<'a>>,
}

impl Gone<'_> {
    /// The symbol at the end of the way.
    pub(crate) fn last(&self) -> Option<&Part> {
        match self.way.symbols.last() {
            Some(index) => self.parts.get(*index),
            None => None,
        }
    }

    /// Whether the way ends with a symbol of this kind and this text.
    pub(crate) fn ends_with(&self, kind: Kind, text: &[u8]) -> bool {
        match self.last() {
            Some(part) => part.kind == kind && part.text.as_slice() == text,
            None => false,
        }
    }

    /// Whether the way has an effect.
    pub(crate) fn has_effect(&self) -> bool {
        if self.way.is_short {
            return true;
        }
        for index in &self.way.symbols {
            if let Some(part) = self.parts.get(*index) {
                if does_something(part) {
                    return true;
                }
            }
        }
        false
    }
}

/// Whether a part has an effect. A TASK that has only quoted texts has none, and its symbol is empty.
fn does_something(part: &Part) -> bool {
    match part.kind {
        Kind::Task | Kind::Output => !part.text.is_empty(),
        _ => false,
    }
}

/// Whether this name is one of these.
fn has_name(ids: &[Identifier], name: Name) -> bool {
    for id in ids {
        if id.name.folded() == name.folded() {
            return true;
        }
    }
    false
}

/// Whether an owner's ways begin at a node.
fn is_owner(owner: &Owner<'_>, node: &Node) -> bool {
    match owner {
        Owner::Start => match node {
            Node::Start => true,
            _ => false,
        },
        Owner::States(part) => match node {
            Node::State(name) => has_name(&part.names, *name),
            _ => false,
        },
        Owner::Connection(one) => match node {
            Node::Connection(other) => one.folded() == other.folded(),
            _ => false,
        },
    }
}

/// Adds the ways of a piece, if they begin at the node.
fn add_gone<'a>(
    gone: &mut Vec<Gone<'a>>,
    piece: &'a Piece<'_>,
    node: &Node,
) -> Result<(), AllocError> {
    if !is_owner(&piece.owner, node) {
        return Ok(());
    }
    for way in &piece.ways {
        gone.push(Gone {
            parts: &piece.parts,
            way,
        })?;
    }
    Ok(())
}

/// A node with its ways.
fn node_ways<'a>(
    alloc: Global,
    pieces: &'a [Piece<'_>],
    node: Node,
) -> Result<NodeWays<'a>, AllocError> {
    let mut gone = Vec::new(alloc);
    for piece in pieces {
        add_gone(&mut gone, piece, &node)?;
    }
    Ok(NodeWays { node, gone })
}

/// Adds the states.
fn add_states<'a>(
    alloc: Global,
    nodes: &mut Vec<NodeWays<'a>>,
    pieces: &'a [Piece<'_>],
    states: &NameTable,
) -> Result<(), AllocError> {
    for number in 0..states.len() {
        let node = node_ways(alloc, pieces, Node::State(states.name(number).name))?;
        nodes.push(node)?;
    }
    Ok(())
}

/// Adds the connections.
fn add_connections<'a>(
    alloc: Global,
    nodes: &mut Vec<NodeWays<'a>>,
    pieces: &'a [Piece<'_>],
    connections: &NameTable,
) -> Result<(), AllocError> {
    for number in 0..connections.len() {
        let node = node_ways(
            alloc,
            pieces,
            Node::Connection(connections.name(number).name),
        )?;
        nodes.push(node)?;
    }
    Ok(())
}

/// START, the states and the connections of a process.
pub(crate) fn nodes_of<'a>(
    alloc: Global,
    names: &Names<'_, '_>,
    pieces: &'a [Piece<'_>],
) -> Result<Vec<NodeWays<'a>>, AllocError> {
    let start = node_ways(alloc, pieces, Node::Start)?;
    let mut nodes = Vec::new(alloc);
    nodes.push(start)?;
    add_states(alloc, &mut nodes, pieces, names.process.states())?;
    add_connections(alloc, &mut nodes, pieces, names.process.connectors())?;
    Ok(nodes)
}

/// Whether a way of the node ends at a connection.
fn joins(node: &NodeWays<'_>, connection: &[u8]) -> bool {
    for gone in &node.gone {
        if gone.ends_with(Kind::Join, connection) {
            return true;
        }
    }
    false
}

/// The number of nodes with a way that ends at a connection.
pub(crate) fn joining(nodes: &[NodeWays<'_>], connection: &[u8]) -> usize {
    let mut count: usize = 0;
    for node in nodes {
        if joins(node, connection) {
            count = count.saturating_add(1);
        }
    }
    count
}

/// Appends the identifier of a node to `text`.
pub(crate) fn push_node_id(text: &mut Vec<u8>, node: Node) -> Result<(), AllocError> {
    match node {
        Node::Start => push_bytes(text, b"start"),
        Node::State(name) => {
            push_bytes(text, b"s_")?;
            push_bytes(text, name.as_bytes())
        }
        Node::Connection(name) => {
            push_bytes(text, b"c_")?;
            push_bytes(text, name.as_bytes())
        }
    }
}
