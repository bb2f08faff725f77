//! The places of the trees of a drawing.
use crate::measures::Extent;

/// The width of the margins.
const MARGIN: u32 = 20;

/// The y coordinate of the first row, below the title.
const FIRST_ROW: u32 = 40;

/// The largest width of a row, unless a single tree is wider.
const MOST_ACROSS: u32 = 1500;

/// The gap between two trees, and between two rows.
const TREE_GAP: u32 = 32;

/// Trees in rows, and the size of the page.
#[derive(Clone, Copy)]
pub(crate) struct Page {
    /// The x coordinate where the next tree begins.
    left: u32,
    /// The y coordinate where the row begins.
    top: u32,
    /// The height of the row so far.
    height: u32,
    /// How far the rows reach to the right.
    right: u32,
}

impl Page {
    /// A page without trees.
    pub(crate) fn new() -> Page {
        Page {
            left: MARGIN,
            top: FIRST_ROW,
            height: 0,
            right: 200,
        }
    }

    /// The page with a new row below the last one, if a tree has no room in that.
    fn with_room(self, across: u32) -> Page {
        let right = self.left.saturating_add(across);
        if self.left == MARGIN || right <= MOST_ACROSS {
            return self;
        }
        Page {
            left: MARGIN,
            top: self
                .top
                .saturating_add(self.height)
                .saturating_add(TREE_GAP),
            height: 0,
            right: self.right,
        }
    }

    /// Places a tree. Returns the tree's axis, and the y coordinate where it begins.
    pub(crate) fn place(&mut self, extent: Extent) -> (u32, u32) {
        let across = extent.left.saturating_add(extent.right);
        let page = self.with_room(across);
        let right = page.left.saturating_add(across);
        *self = Page {
            left: right.saturating_add(TREE_GAP),
            top: page.top,
            height: page.height.max(extent.height),
            right: page.right.max(right),
        };
        (page.left.saturating_add(extent.left), page.top)
    }

    /// The width of the page.
    pub(crate) fn across(&self) -> u32 {
        self.right.saturating_add(MARGIN)
    }

    /// The height of the page.
    pub(crate) fn along(&self) -> u32 {
        self.top.saturating_add(self.height).saturating_add(MARGIN)
    }
}
