//! The room that columns and forks take, in SVG units.
use crate::sizes::size_of_part;
use draw_text::{Kind, Part};
use std::alloc::{AllocError, Global};

/// The gap between a symbol and the next one below it.
pub(crate) const ROW_GAP: u32 = 14;

/// The gap between two columns.
pub(crate) const COLUMN_GAP: u32 = 16;

/// The gap above an answer.
pub(crate) const ANSWER_GAP: u32 = 4;

/// The gap between branches and where they meet.
pub(crate) const MEET_GAP: u32 = 10;

/// The room to the left and to the right of an axis, and the height.
#[derive(Clone, Copy, Debug, PartialEq, Eq)]
pub(crate) struct Extent {
    pub(crate) left: u32,
    pub(crate) right: u32,
    pub(crate) height: u32,
}

/// No room.
pub(crate) const NO_ROOM: Extent = Extent {
    left: 0,
    right: 0,
    height: 0,
};

/// A column, and the fork that it is a branch of, measured from the last part backwards.
#[derive(Clone, Copy)]
struct Level {
    column: Extent,
    /// How far the first branch so far reaches to the left.
    first: u32,
    /// How far the last branch reaches to the right.
    last: u32,
    /// The width of the branches, with the gaps between them.
    across: u32,
    /// The height of the highest branch.
    height: u32,
    has_branch: bool,
}

/// An empty column, in a fork without branches.
const NO_BRANCH: Level = Level {
    column: NO_ROOM,
    first: 0,
    last: 0,
    across: 0,
    height: 0,
    has_branch: false,
};

impl Level {
    /// The level with another part on top of its column.
    fn under(self, extent: Extent) -> Level {
        Level {
            column: Extent {
                left: self.column.left.max(extent.left),
                right: self.column.right.max(extent.right),
                height: self.column.height.saturating_add(extent.height),
            },
            ..self
        }
    }

    /// The level with its column added as a branch.
    fn with_branch(self) -> Level {
        let column = self.column;
        let own = column.left.saturating_add(column.right);
        let across = if self.has_branch {
            self.across.saturating_add(COLUMN_GAP).saturating_add(own)
        } else {
            own
        };
        Level {
            column: NO_ROOM,
            first: column.left,
            last: if self.has_branch {
                self.last
            } else {
                column.right
            },
            across,
            height: self.height.max(column.height),
            has_branch: true,
        }
    }

    /// The room that the fork takes. Its axis is in the middle between the axes of its first and its last branch.
    fn fork(self) -> Extent {
        let last_axis = self.across.saturating_sub(self.last);
        let left = self.first.saturating_add(last_axis) / 2;
        Extent {
            left,
            right: self.across.saturating_sub(left),
            height: self.height.saturating_add(ROW_GAP).saturating_add(MEET_GAP),
        }
    }
}

/// The room that a symbol takes, with the gap above it.
fn symbol_extent(part: &Part) -> Extent {
    let size = size_of_part(part);
    let gap = match part.kind {
        Kind::Answer => ANSWER_GAP,
        _ => ROW_GAP,
    };
    Extent {
        left: size.width / 2,
        right: size.width / 2,
        height: size.height.saturating_add(gap),
    }
}

/// The measurements so far, from the last part backwards.
#[derive(Drop)]
struct Measuring {
    outer: Vec<Level>,
    level: Level,
}

impl Measuring {
    /// Measures the part before those already measured. Returns the room that it takes; for a branch, and for the head
    /// of a tree, that of its whole column.
    fn take(&mut self, part: &Part) -> Result<Extent, AllocError> {
        match part.kind {
            Kind::Meet => {
                self.outer.push(self.level)?;
                self.level = NO_BRANCH;
                Ok(NO_ROOM)
            }
            Kind::Branch => {
                let column = self.level.column;
                self.level = self.level.with_branch();
                Ok(column)
            }
            Kind::Fork => {
                let extent = self.level.fork();
                self.level = self.outer.pop().unwrap_or(NO_BRANCH).under(extent);
                Ok(extent)
            }
            Kind::Start | Kind::State | Kind::Connector => {
                let column = self.level.under(symbol_extent(part)).column;
                self.level = NO_BRANCH;
                Ok(column)
            }
            _ => {
                let extent = symbol_extent(part);
                self.level = self.level.under(extent);
                Ok(extent)
            }
        }
    }
}

/// The room that each part takes, that of the last part first.
pub(crate) fn measure(alloc: Global, parts: &[Part]) -> Result<Vec<Extent>, AllocError> {
    let mut extents = Vec::new(alloc);
    let mut measuring = Measuring {
        outer: Vec::new(alloc),
        level: NO_BRANCH,
    };
    for part in parts.iter().rev() {
        let extent = measuring.take(part)?;
        extents.push(extent)?;
    }
    Ok(extents)
}
