//! The parts of a process, tree by tree, each with the ways through it.
use draw_text::{
    Connection, Names, Part, StatePart, Way, next_branch, push_connection, push_start, push_state,
    ways_from,
};
use sdl_lex::Name;
use std::alloc::{AllocError, Global};

/// The owner of ways.
#[derive(Clone, Copy)]
pub(crate) enum Owner<'a> {
    /// START.
    Start,
    /// The states of a STATE part.
    States(&'a StatePart),
    /// A CONNECTION.
    Connection(Name),
}

/// Parts with the ways through them.
#[derive(Drop)]
pub(crate) struct Piece<'a> {
    pub(crate) owner: Owner<'a>,
    pub(crate) parts: Vec<Part>,
    pub(crate) ways: Vec<Way>,
}

/// Appends further ways to `ways`.
fn add_ways(ways: &mut Vec<Way>, more: Vec<Way>) -> Result<(), AllocError> {
    for way in more {
        ways.push(way)?;
    }
    Ok(())
}

/// The ways of the branches of a STATE part, one branch after another.
fn branch_ways(alloc: Global, parts: &[Part]) -> Result<Vec<Way>, AllocError> {
    let mut ways = Vec::new(alloc);
    // after the names of the states, and the fork
    let mut from: usize = 2;
    for _ in 0..parts.len() {
        let Some(branch) = next_branch(parts, from) else {
            return Ok(ways);
        };
        from = branch.saturating_add(1);
        let to = next_branch(parts, from).unwrap_or(parts.len());
        let more = ways_from(alloc, parts, from, to)?;
        add_ways(&mut ways, more)?;
    }
    Ok(ways)
}

/// START.
fn start_piece<'a>(alloc: Global, names: &Names<'_, 'a>) -> Result<Piece<'a>, AllocError> {
    let mut parts = Vec::new(alloc);
    push_start(alloc, &mut parts, names, &names.process.process().start)?;
    let ways = ways_from(alloc, &parts, 1, parts.len())?;
    Ok(Piece {
        owner: Owner::Start,
        parts,
        ways,
    })
}

/// A STATE part.
fn state_piece<'a>(
    alloc: Global,
    names: &Names<'_, 'a>,
    state: &'a StatePart,
) -> Result<Piece<'a>, AllocError> {
    let mut parts = Vec::new(alloc);
    push_state(alloc, &mut parts, names, state)?;
    let ways = branch_ways(alloc, &parts)?;
    Ok(Piece {
        owner: Owner::States(state),
        parts,
        ways,
    })
}

/// A CONNECTION.
fn connection_piece<'a>(
    alloc: Global,
    names: &Names<'_, 'a>,
    connection: &Connection,
) -> Result<Piece<'a>, AllocError> {
    let mut parts = Vec::new(alloc);
    push_connection(alloc, &mut parts, names, connection)?;
    let ways = ways_from(alloc, &parts, 1, parts.len())?;
    Ok(Piece {
        owner: Owner::Connection(connection.name.name),
        parts,
        ways,
    })
}

/// Adds the STATE parts of a process.
fn add_states<'a>(
    alloc: Global,
    pieces: &mut Vec<Piece<'a>>,
    names: &Names<'_, 'a>,
    states: &'a [StatePart],
) -> Result<(), AllocError> {
    for state in states {
        let piece = state_piece(alloc, names, state)?;
        pieces.push(piece)?;
    }
    Ok(())
}

/// Adds the CONNECTIONs of a process.
fn add_connections<'a>(
    alloc: Global,
    pieces: &mut Vec<Piece<'a>>,
    names: &Names<'_, 'a>,
    connections: &[Connection],
) -> Result<(), AllocError> {
    for connection in connections {
        let piece = connection_piece(alloc, names, connection)?;
        pieces.push(piece)?;
    }
    Ok(())
}

/// START, the STATE parts and the CONNECTIONs of a process.
pub(crate) fn pieces_of<'a>(
    alloc: Global,
    names: &Names<'_, 'a>,
) -> Result<Vec<Piece<'a>>, AllocError> {
    let process = names.process.process();
    let start = start_piece(alloc, names)?;
    let mut pieces = Vec::new(alloc);
    pieces.push(start)?;
    add_states(alloc, &mut pieces, names, &process.states)?;
    add_connections(alloc, &mut pieces, names, &process.connections)?;
    Ok(pieces)
}
