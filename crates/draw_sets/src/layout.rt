//! The parts of a drawing with their places.
ghost use Rattle.std.specs.Prelude.{◌≡◌, map, IfOk};
ghost use Rattle.draw_text.specs.Parts.{part_of};
ghost use Rattle.draw_sets.specs.Drawing.{part_drawn};

use crate::frames::{Frames, Line, Placed};
use crate::measures::{NO_ROOM, measure};
use draw_text::Part;
use std::alloc::{AllocError, Global};

/// A part with its place.
#[derive(Clone, Copy)]
pub(crate) struct Drawn<'a> {
    pub(crate) part: &'a Part,
    pub(crate) place: Placed,
}

/// Parts with their places, lines, and the width and the height of the page.
#[derive(Drop)]
pub(crate) struct Layout<'a> {
    pub(crate) drawn: Vec<Drawn<'a>>,
    pub(crate) lines: Vec<Line>,
    pub(crate) across: u32,
    pub(crate) along: u32,
}

/// Returns the parts with their places, in their order.
pub(crate) fn lay_out<'a>(alloc: Global, parts: &'a [Part]) -> Result<Layout<'a>, AllocError>
    ensures { IfOk result (λ l. map part_drawn l.drawn.items ≡ map part_of parts.now) }
{
    let mut extents = measure(alloc, parts)?;
    let mut frames = Frames::new(alloc);
    let mut drawn = Vec::new(alloc);
    for part in parts {
        let extent = extents.pop().unwrap_or(NO_ROOM);
        let place = frames.put(part, extent)?;
        drawn.push(Drawn { part, place })?;
    }
    let (lines, across, along) = frames.into_parts();
    Ok(Layout {
        drawn,
        lines,
        across,
        along,
    })
}
