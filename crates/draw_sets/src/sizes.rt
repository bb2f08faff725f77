//! The sizes of symbols, in SVG units.
use draw_text::{Kind, Part};

/// The width of a character.
const CHARACTER: u32 = 7;

/// The height of a line.
pub(crate) const LINE: u32 = 14;

/// The width and height of a symbol, and the baseline of its first line below its top.
#[derive(Clone, Copy, Debug, PartialEq, Eq)]
pub(crate) struct Size {
    /// The width, an even number.
    pub(crate) width: u32,
    pub(crate) height: u32,
    pub(crate) base: u32,
}

/// The number of characters of the longest line, and the number of lines.
#[derive(Clone, Copy)]
struct Written {
    longest: u32,
    lines: u32,
}

/// The size of the text in a symbol, in characters and lines.
fn text_size(text: &[u8]) -> Written {
    let mut longest: u32 = 0;
    let mut here: u32 = 0;
    let mut lines: u32 = 1;
    for byte in text {
        if *byte == b'\n' {
            here = 0;
            lines = lines.saturating_add(1);
        } else {
            here = here.saturating_add(1);
            longest = longest.max(here);
        }
    }
    Written { longest, lines }
}

/// The margins of a symbol's text: left and right together, and above and below together.
#[derive(Clone, Copy)]
struct Margins {
    across: u32,
    along: u32,
}

/// The margins of a kind of symbol.
fn margins_of(kind: Kind) -> Margins {
    match kind {
        Kind::Start => Margins {
            across: 56,
            along: 10,
        },
        Kind::State | Kind::NextState => Margins {
            across: 24,
            along: 10,
        },
        Kind::Input | Kind::Output | Kind::Save => Margins {
            across: 40,
            along: 10,
        },
        Kind::Question => Margins {
            across: 40,
            along: 26,
        },
        Kind::Connector | Kind::Join | Kind::Stop => Margins {
            across: 16,
            along: 10,
        },
        Kind::Task => Margins {
            across: 16,
            along: 10,
        },
        Kind::Answer | Kind::Fork | Kind::Branch | Kind::Meet => Margins {
            across: 0,
            along: 0,
        },
    }
}

/// Whether a symbol is as high as it is wide.
fn is_round(kind: Kind) -> bool {
    match kind {
        Kind::Connector | Kind::Join | Kind::Stop => true,
        _ => false,
    }
}

/// The extra width of a symbol whose sides slant.
fn slant(kind: Kind, across: u32) -> u32 {
    match kind {
        Kind::Question => across / 2,
        _ => 0,
    }
}

/// The size of a symbol.
pub(crate) fn size_of_part(part: &Part) -> Size {
    let written = text_size(&part.text);
    let margins = margins_of(part.kind);
    let text_width = written.longest.saturating_mul(CHARACTER);
    let across = text_width
        .saturating_add(slant(part.kind, text_width))
        .saturating_add(margins.across);
    let width = across.saturating_add(across % 2).max(24);
    let text_height = written.lines.saturating_mul(LINE);
    let height = if is_round(part.kind) {
        width
    } else {
        text_height.saturating_add(margins.along)
    };
    let base = (height.saturating_sub(text_height) / 2).saturating_add(11);
    Size {
        width,
        height,
        base,
    }
}
