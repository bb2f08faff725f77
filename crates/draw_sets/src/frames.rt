//! The layout of columns and forks, with the lines between symbols.
use crate::measures::{ANSWER_GAP, COLUMN_GAP, Extent, ROW_GAP};
use crate::page::Page;
use crate::sizes::{Size, size_of_part};
use draw_text::{Kind, Part};
use std::alloc::{AllocError, Global};

/// The place of a symbol: its box, its horizontal middle, and the baseline of its first line of text. A part that is no
/// symbol has no width.
#[derive(Clone, Copy, Debug, PartialEq, Eq)]
pub struct Placed {
    pub left: u32,
    pub top: u32,
    pub width: u32,
    pub height: u32,
    pub middle: u32,
    pub base: u32,
}

/// The place of a part that is no symbol.
const NOWHERE: Placed = Placed {
    left: 0,
    top: 0,
    width: 0,
    height: 0,
    middle: 0,
    base: 0,
};

/// A line from one point to another.
#[derive(Clone, Copy, Debug, PartialEq, Eq)]
pub struct Line {
    pub x: u32,
    pub y: u32,
    pub to_x: u32,
    pub to_y: u32,
}

/// A column as far as it is laid out.
#[derive(Clone, Copy)]
struct Column {
    axis: u32,
    y: u32,
    /// Whether the column goes on from there.
    is_open: bool,
}

/// A fork as far as it is laid out.
#[derive(Clone, Copy)]
struct Fork {
    /// The axis of the column that forks.
    axis: u32,
    /// The x coordinate where the next branch begins.
    next: u32,
    /// The y coordinates where the branches part and where they meet.
    rail: u32,
    meet: u32,
    /// The range of x coordinates over which they part.
    low: u32,
    high: u32,
    /// The range of x coordinates over which they meet, and whether any do.
    meet_low: u32,
    meet_high: u32,
    meets: bool,
}

/// A fork without branches.
const NO_FORK: Fork = Fork {
    axis: 0,
    next: 0,
    rail: 0,
    meet: 0,
    low: 0,
    high: 0,
    meet_low: 0,
    meet_high: 0,
    meets: false,
};

/// The layout so far.
#[derive(Drop)]
pub(crate) struct Frames {
    page: Page,
    column: Column,
    fork: Fork,
    outer: Vec<Fork>,
    lines: Vec<Line>,
}

/// Whether a column goes on after a symbol.
fn goes_on(kind: Kind) -> bool {
    match kind {
        Kind::NextState | Kind::Join | Kind::Stop | Kind::Save => false,
        _ => true,
    }
}

impl Frames {
    /// An empty layout.
    pub(crate) fn new(alloc: Global) -> Frames {
        Frames {
            page: Page::new(),
            column: Column {
                axis: 0,
                y: 0,
                is_open: false,
            },
            fork: NO_FORK,
            outer: Vec::new(alloc),
            lines: Vec::new(alloc),
        }
    }

    /// The lines, and the width and the height of the page.
    pub(crate) fn into_parts(self) -> (Vec<Line>, u32, u32) {
        let Frames {
            page,
            column: _column,
            fork: _fork,
            outer: _outer,
            lines,
        } = self;
        (lines, page.across(), page.along())
    }

    /// Adds a line down the axis of the column, if the column goes on there.
    fn go_down(&mut self, to_y: u32) -> Result<(), AllocError> {
        let Column { axis, y, is_open } = self.column;
        if is_open {
            self.lines.push(Line {
                x: axis,
                y,
                to_x: axis,
                to_y,
            })?;
        }
        Ok(())
    }

    /// Adds a horizontal line.
    fn go_across(&mut self, y: u32, from: u32, to: u32) -> Result<(), AllocError> {
        self.lines.push(Line {
            x: from,
            y,
            to_x: to,
            to_y: y,
        })?;
        Ok(())
    }

    /// Begins a fork of the column.
    fn begin_fork(&mut self, extent: Extent) -> Result<(), AllocError> {
        let Column { axis, y, .. } = self.column;
        let rail = y.saturating_add(ROW_GAP);
        self.go_down(rail)?;
        self.outer.push(self.fork)?;
        self.fork = Fork {
            axis,
            next: axis.saturating_sub(extent.left),
            rail,
            meet: y.saturating_add(extent.height),
            low: axis,
            high: axis,
            meet_low: axis,
            meet_high: axis,
            meets: false,
        };
        self.column.is_open = false;
        Ok(())
    }

    /// Ends a branch where it meets the others, if it goes on there.
    fn end_branch(&mut self) -> Result<(), AllocError> {
        self.go_down(self.fork.meet)?;
        if self.column.is_open {
            self.fork.meet_low = self.fork.meet_low.min(self.column.axis);
            self.fork.meet_high = self.fork.meet_high.max(self.column.axis);
            self.fork.meets = true;
        }
        Ok(())
    }

    /// Begins the next branch.
    fn begin_branch(&mut self, extent: Extent) -> Result<(), AllocError> {
        self.end_branch()?;
        let axis = self.fork.next.saturating_add(extent.left);
        self.fork.next = axis.saturating_add(extent.right).saturating_add(COLUMN_GAP);
        self.fork.low = self.fork.low.min(axis);
        self.fork.high = self.fork.high.max(axis);
        self.column = Column {
            axis,
            y: self.fork.rail,
            is_open: true,
        };
        Ok(())
    }

    /// Joins the branches of a fork.
    fn end_fork(&mut self) -> Result<(), AllocError> {
        self.end_branch()?;
        let fork = self.fork;
        self.go_across(fork.rail, fork.low, fork.high)?;
        if fork.meets {
            self.go_across(fork.meet, fork.meet_low, fork.meet_high)?;
        }
        self.column = Column {
            axis: fork.axis,
            y: fork.meet,
            is_open: fork.meets,
        };
        self.fork = self.outer.pop().unwrap_or(NO_FORK);
        Ok(())
    }

    /// Puts a symbol below the last one of the column.
    fn put_symbol(&mut self, kind: Kind, size: Size) -> Result<Placed, AllocError> {
        let gap = match kind {
            Kind::Answer => ANSWER_GAP,
            _ => ROW_GAP,
        };
        let top = self.column.y.saturating_add(gap);
        self.go_down(top)?;
        self.column.y = top.saturating_add(size.height);
        self.column.is_open = goes_on(kind);
        Ok(Placed {
            left: self.column.axis.saturating_sub(size.width / 2),
            top,
            width: size.width,
            height: size.height,
            middle: self.column.axis,
            base: top.saturating_add(size.base),
        })
    }

    /// Lays out the next part, with the room that it takes. Returns its place.
    pub(crate) fn put(&mut self, part: &Part, extent: Extent) -> Result<Placed, AllocError> {
        match part.kind {
            Kind::Fork => {
                self.begin_fork(extent)?;
                Ok(NOWHERE)
            }
            Kind::Branch => {
                self.begin_branch(extent)?;
                Ok(NOWHERE)
            }
            Kind::Meet => {
                self.end_fork()?;
                Ok(NOWHERE)
            }
            Kind::Start | Kind::State | Kind::Connector => {
                let (axis, y) = self.page.place(extent);
                self.column = Column {
                    axis,
                    y,
                    is_open: false,
                };
                self.put_symbol(part.kind, size_of_part(part))
            }
            _ => self.put_symbol(part.kind, size_of_part(part)),
        }
    }
}
