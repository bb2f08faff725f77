//! The ways through the parts of a transition, in the order of the text.
use crate::{Kind, Part};
use std::alloc::{AllocError, Global};

/// The largest number of ways through one transition that are listed in full.
pub(crate) const MOST_WAYS: usize = 64;

/// The largest number of steps that the search for them takes.
const MOST_STEPS: u32 = 100_000;

/// A way through a transition: the indices of the symbols that it passes, including the last one. If a transition has
/// more than `MOST_WAYS` ways, each way is short: only the questions and answers that lead to its end, and the end.
#[derive(Drop)]
pub struct Way {
    pub symbols: Vec<usize>,
    pub is_short: bool,
}

/// A branch to walk later: where it begins, and how many symbols of the path stand before it.
#[derive(Clone, Copy)]
struct Turn {
    at: usize,
    kept: usize,
}

/// Whether a symbol ends a transition, or is a SAVE.
pub(crate) fn is_end(kind: Kind) -> bool {
    match kind {
        Kind::NextState | Kind::Join | Kind::Stop | Kind::Save => true,
        _ => false,
    }
}

/// The place after the end of the innermost fork that encloses a place.
fn behind_fork(parts: &[Part], from: usize) -> usize {
    let mut depth: usize = 0;
    for (index, part) in parts.iter().enumerate().skip(from) {
        match part.kind {
            Kind::Fork => depth = depth.saturating_add(1),
            Kind::Meet => {
                if depth == 0 {
                    return index.saturating_add(1);
                }
                depth = depth.saturating_sub(1);
            }
            _ => {}
        }
    }
    parts.len()
}

/// Returns where the next branch begins after the one that contains a place; none if that one is the last.
pub fn next_branch(parts: &[Part], from: usize) -> Option<usize> {
    let mut depth: usize = 0;
    for (index, part) in parts.iter().enumerate().skip(from) {
        match part.kind {
            Kind::Fork => depth = depth.saturating_add(1),
            Kind::Meet => {
                if depth == 0 {
                    return None;
                }
                depth = depth.saturating_sub(1);
            }
            Kind::Branch if depth == 0 => return Some(index),
            _ => {}
        }
    }
    None
}

/// A walk along all ways.
#[derive(Drop)]
struct Walk {
    at: usize,
    path: Vec<usize>,
    turns: Vec<Turn>,
    ways: Vec<Way>,
}

impl Walk {
    /// Goes back to the last branch that is still to be walked. Returns whether there was one.
    fn turn_back(&mut self, parts: &[Part]) -> Result<bool, AllocError> {
        match self.turns.pop() {
            Some(turn) => {
                self.path.truncate(turn.kept);
                self.enter(parts, turn.at)?;
                Ok(true)
            }
            None => Ok(false),
        }
    }

    /// Enters the branch that begins at a place; the branches after it are walked later.
    fn enter(&mut self, parts: &[Part], branch: usize) -> Result<(), AllocError> {
        let inside = branch.saturating_add(1);
        if let Some(next) = next_branch(parts, inside) {
            let kept = self.path.len();
            self.turns.push(Turn { at: next, kept })?;
        }
        self.at = inside;
        Ok(())
    }

    /// Keeps the path just walked as a way.
    fn keep(&mut self, alloc: Global) -> Result<(), AllocError> {
        let symbols = Vec::from_slice(alloc, &self.path)?;
        self.ways.push(Way {
            symbols,
            is_short: false,
        })?;
        Ok(())
    }

    /// Takes one step. Returns whether anything is left to walk.
    fn step(&mut self, alloc: Global, parts: &[Part]) -> Result<bool, AllocError> {
        let Some(part) = parts.get(self.at) else {
            return self.turn_back(parts);
        };
        match part.kind {
            Kind::Fork => {
                self.enter(parts, self.at.saturating_add(1))?;
                Ok(true)
            }
            Kind::Branch | Kind::Meet => {
                self.at = behind_fork(parts, self.at);
                Ok(true)
            }
            kind => {
                self.path.push(self.at)?;
                self.at = self.at.saturating_add(1);
                if is_end(kind) {
                    self.keep(alloc)?;
                    return self.turn_back(parts);
                }
                Ok(true)
            }
        }
    }

    /// Walks all ways. Returns whether it reached the end of each and they are not more than `MOST_WAYS`.
    fn go(&mut self, alloc: Global, parts: &[Part]) -> Result<bool, AllocError> {
        for _ in 0..MOST_STEPS {
            if self.ways.len() > MOST_WAYS {
                return Ok(false);
            }
            if !self.step(alloc, parts)? {
                return Ok(self.ways.len() <= MOST_WAYS);
            }
        }
        Ok(false)
    }
}

/// Returns all ways from a place on; none if there are too many.
fn all_ways(alloc: Global, parts: &[Part], from: usize) -> Result<Option<Vec<Way>>, AllocError> {
    let mut walk = Walk {
        at: from,
        path: Vec::new(alloc),
        turns: Vec::new(alloc),
        ways: Vec::new(alloc),
    };
    let is_done = walk.go(alloc, parts)?;
    let Walk {
        at: _at,
        path: _path,
        turns: _turns,
        ways,
    } = walk;
    Ok(if is_done { Some(ways) } else { None })
}

/// Returns, for each end from one place to another, the questions and answers that lead to it.
fn short_ways(
    alloc: Global,
    parts: &[Part],
    from: usize,
    to: usize,
) -> Result<Vec<Way>, AllocError> {
    let mut ways = Vec::new(alloc);
    let mut path: Vec<usize> = Vec::new(alloc);
    for (index, part) in parts.iter().enumerate().take(to).skip(from) {
        match part.kind {
            Kind::Input | Kind::Question | Kind::Answer => path.push(index)?,
            Kind::Branch => drop_answer(&mut path, parts),
            Kind::Meet => drop_question(&mut path, parts),
            kind if is_end(kind) => {
                let mut symbols = Vec::from_slice(alloc, &path)?;
                symbols.push(index)?;
                ways.push(Way {
                    symbols,
                    is_short: true,
                })?;
            }
            _ => {}
        }
    }
    Ok(ways)
}

/// Takes the answer off the end of a path, if one is there.
fn drop_answer(path: &mut Vec<usize>, parts: &[Part]) {
    if ends_with(path, parts, Kind::Answer) {
        path.pop();
    }
}

/// Takes a question and its answer off the end of a path.
fn drop_question(path: &mut Vec<usize>, parts: &[Part]) {
    drop_answer(path, parts);
    if ends_with(path, parts, Kind::Question) {
        path.pop();
    }
}

/// Whether the last symbol of a path is of a kind.
fn ends_with(path: &[usize], parts: &[Part], kind: Kind) -> bool {
    match path.last() {
        Some(index) => match parts.get(*index) {
            Some(part) => part.kind == kind,
            None => false,
        },
        None => false,
    }
}

/// Returns the ways from one place to another: all of them, or short ways if there are too many.
pub fn ways_from(
    alloc: Global,
    parts: &[Part],
    from: usize,
    to: usize,
) -> Result<Vec<Way>, AllocError> {
    match all_ways(alloc, parts, from)? {
        Some(ways) => Ok(ways),
        None => short_ways(alloc, parts, from, to),
    }
}
