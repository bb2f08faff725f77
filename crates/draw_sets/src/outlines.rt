//! Symbols and lines in SVG.
ghost use Rattle.std.specs.Prelude.{◌≡◌, ◌++◌, ◌/◌, ◌-◌, OnOk};
ghost use Rattle.std.specs.List.{flat_map};
ghost use Rattle.draw_sets.specs.Outlines.{numbered, corner_text, box_text, input_text, pointed_text, output_text, save_text, upper_text, lower_text, question_text, stop_text, outline_text, letter, written_text, line_text};

use crate::frames::{Line, Placed};
use draw_text::{Kind, push_bytes, push_entity, push_number};
use std::alloc::{AllocError, Global};

/// Appends a text and a number to `text`.
pub(crate) fn push_numbered(
    alloc: Global,
    text: &mut Vec<u8>,
    before: &[u8],
    number: u32,
) -> Result<(), AllocError>
    ensures { OnOk result (text.new.items ≡ text.old.items ++ numbered before.now number) }
{
    push_bytes(text, before)?;
    push_number(alloc, text, number)
}

/// Appends the point where an outline begins to `text`.
fn push_corner(
    alloc: Global,
    text: &mut Vec<u8>,
    head: &[u8],
    place: &Placed,
) -> Result<(), AllocError>
    ensures { OnOk result (text.new.items ≡ text.old.items ++ corner_text head.now place.now) }
{
    push_bytes(text, head)?;
    push_numbered(alloc, text, b"M", place.left)?;
    push_numbered(alloc, text, b" ", place.top)
}

/// Appends a box with rounded corners to `text`.
fn push_box(
    alloc: Global,
    text: &mut Vec<u8>,
    head: &[u8],
    place: &Placed,
    round: u32,
) -> Result<(), AllocError>
    ensures { OnOk result (text.new.items ≡ text.old.items ++ box_text head.now place.now round) }
{
    push_numbered(alloc, text, head, place.left)?;
    push_numbered(alloc, text, b"\" y=\"", place.top)?;
    push_numbered(alloc, text, b"\" width=\"", place.width)?;
    push_numbered(alloc, text, b"\" height=\"", place.height)?;
    push_numbered(alloc, text, b"\" rx=\"", round)?;
    push_bytes(text, b"\"/>\n")
}

/// Appends a box with a notch on its right to `text`.
fn push_input(alloc: Global, text: &mut Vec<u8>, place: &Placed) -> Result<(), AllocError>
    ensures { OnOk result (text.new.items ≡ text.old.items ++ input_text place.now) }
{
    push_corner(alloc, text, b"<path class=\"input\" d=\"", place)?;
    push_numbered(alloc, text, b"h", place.width)?;
    push_numbered(alloc, text, b"l-10 ", place.height / 2)?;
    push_numbered(alloc, text, b"l10 ", place.height / 2)?;
    push_numbered(alloc, text, b"h-", place.width)?;
    push_bytes(text, b"z\"/>\n")
}

/// Appends a box of this width, with a point on its right side, to `text`.
#[tactic(auto, unfolding(crate::specs::Outlines::pointed_text))]
fn push_pointed(
    alloc: Global,
    text: &mut Vec<u8>,
    place: &Placed,
    across: u32,
) -> Result<(), AllocError>
    ensures { OnOk result (text.new.items ≡ text.old.items ++ pointed_text place.now across) }
{
    push_corner(alloc, text, b"<path class=\"output\" d=\"", place)?;
    push_numbered(alloc, text, b"h", across)?;
    push_numbered(alloc, text, b"l10 ", place.height / 2)?;
    push_numbered(alloc, text, b"l-10 ", place.height / 2)?;
    push_numbered(alloc, text, b"h-", across)?;
    push_bytes(text, b"z\"/>\n")
}

/// Appends a box with a point on its right side to `text`.
fn push_output(alloc: Global, text: &mut Vec<u8>, place: &Placed) -> Result<(), AllocError>
    ensures { OnOk result (text.new.items ≡ text.old.items ++ output_text place.now) }
{
    push_pointed(alloc, text, place, place.width.saturating_sub(10))
}

/// Appends a box with slanted sides to `text`.
fn push_save(alloc: Global, text: &mut Vec<u8>, place: &Placed) -> Result<(), AllocError>
    ensures { OnOk result (text.new.items ≡ text.old.items ++ save_text place.now) }
{
    let across = place.width.saturating_sub(10);
    push_corner(alloc, text, b"<path class=\"save\" d=\"", place)?;
    push_numbered(alloc, text, b"l10 ", place.height)?;
    push_numbered(alloc, text, b"h", across)?;
    push_numbered(alloc, text, b"l-10 -", place.height)?;
    push_bytes(text, b"z\"/>\n")
}

/// Appends the upper sides of a box that stands on a corner to `text`.
#[tactic(auto, unfolding(crate::specs::Outlines::upper_text))]
fn push_upper(alloc: Global, text: &mut Vec<u8>, place: &Placed) -> Result<(), AllocError>
    ensures { OnOk result (text.new.items ≡ text.old.items ++ upper_text place.now) }
{
    push_corner(alloc, text, b"<path class=\"question\" d=\"", place)?;
    push_numbered(alloc, text, b"m0 ", place.height / 2)?;
    push_numbered(alloc, text, b"l", place.width / 2)?;
    push_numbered(alloc, text, b" -", place.height / 2)
}

/// Appends the lower sides of a box that stands on a corner to `text`.
#[tactic(auto, unfolding(crate::specs::Outlines::lower_text))]
fn push_lower(alloc: Global, text: &mut Vec<u8>, place: &Placed) -> Result<(), AllocError>
    ensures { OnOk result (text.new.items ≡ text.old.items ++ lower_text place.now) }
{
    push_numbered(alloc, text, b"l", place.width / 2)?;
    push_numbered(alloc, text, b" ", place.height / 2)?;
    push_numbered(alloc, text, b"l-", place.width / 2)?;
    push_numbered(alloc, text, b" ", place.height / 2)?;
    push_bytes(text, b"z\"/>\n")
}

/// Appends a box that stands on a corner to `text`.
fn push_question(alloc: Global, text: &mut Vec<u8>, place: &Placed) -> Result<(), AllocError>
    ensures { OnOk result (text.new.items ≡ text.old.items ++ question_text place.now) }
{
    push_upper(alloc, text, place)?;
    push_lower(alloc, text, place)
}

/// Appends two crossed lines to `text`.
fn push_stop(alloc: Global, text: &mut Vec<u8>, place: &Placed) -> Result<(), AllocError>
    ensures { OnOk result (text.new.items ≡ text.old.items ++ stop_text place.now) }
{
    push_corner(alloc, text, b"<path class=\"stop\" d=\"", place)?;
    push_numbered(alloc, text, b"l", place.width)?;
    push_numbered(alloc, text, b" ", place.height)?;
    push_numbered(alloc, text, b"m0 -", place.height)?;
    push_numbered(alloc, text, b"l-", place.width)?;
    push_numbered(alloc, text, b" ", place.height)?;
    push_bytes(text, b"\"/>\n")
}

/// Appends the outline of a symbol to `text`.
fn push_outline(
    alloc: Global,
    text: &mut Vec<u8>,
    kind: Kind,
    place: &Placed,
) -> Result<(), AllocError>
    ensures { OnOk result (text.new.items ≡ text.old.items ++ outline_text kind place.now) }
{
    match kind {
        Kind::Start | Kind::State | Kind::NextState => {
            push_box(alloc, text, b"<rect class=\"state\" x=\"", place, 12)
        }
        Kind::Connector | Kind::Join => push_box(
            alloc,
            text,
            b"<rect class=\"join\" x=\"",
            place,
            place.width / 2,
        ),
        Kind::Task => push_box(alloc, text, b"<rect class=\"task\" x=\"", place, 0),
        Kind::Input => push_input(alloc, text, place),
        Kind::Output => push_output(alloc, text, place),
        Kind::Save => push_save(alloc, text, place),
        Kind::Question => push_question(alloc, text, place),
        Kind::Stop => push_stop(alloc, text, place),
        Kind::Answer | Kind::Fork | Kind::Branch | Kind::Meet => Ok(()),
    }
}

/// Appends a byte of the words in a symbol to `text`; a line feed begins a new line.
fn push_letter(alloc: Global, text: &mut Vec<u8>, middle: u32, byte: u8) -> Result<(), AllocError>
    ensures { OnOk result (text.new.items ≡ text.old.items ++ letter middle byte) }
{
    if byte == b'\n' {
        push_numbered(alloc, text, b"</tspan><tspan x=\"", middle)?;
        push_bytes(text, b"\" dy=\"14\">")
    } else {
        push_entity(text, byte)
    }
}

/// Appends the words in a symbol to `text`, byte by byte.
fn push_letters(
    alloc: Global,
    text: &mut Vec<u8>,
    middle: u32,
    bytes: &[u8],
) -> Result<(), AllocError>
    ensures { OnOk result (text.new.items ≡ text.old.items ++ flat_map (letter middle) bytes.now) }
{
    for byte in bytes {
        push_letter(alloc, text, middle, *byte)?;
    }
    Ok(())
}

/// Appends the words in a symbol to `text`.
fn push_written(
    alloc: Global,
    text: &mut Vec<u8>,
    place: &Placed,
    bytes: &[u8],
) -> Result<(), AllocError>
    ensures { OnOk result (text.new.items ≡ text.old.items ++ written_text place.now bytes.now) }
{
    push_numbered(alloc, text, b"<text y=\"", place.base)?;
    push_numbered(alloc, text, b"\"><tspan x=\"", place.middle)?;
    push_bytes(text, b"\">")?;
    push_letters(alloc, text, place.middle, bytes)?;
    push_bytes(text, b"</tspan></text>\n")
}

/// Appends a symbol, with the words in it, to `text`.
pub(crate) fn push_drawn(
    alloc: Global,
    text: &mut Vec<u8>,
    kind: Kind,
    place: &Placed,
    bytes: &[u8],
) -> Result<(), AllocError>
    ensures { OnOk result (text.new.items ≡ text.old.items ++ (outline_text kind place.now ++ written_text place.now bytes.now)) }
{
    push_outline(alloc, text, kind, place)?;
    push_written(alloc, text, place, bytes)
}

/// Appends a line to `text`.
#[tactic(auto, unfolding(crate::specs::Outlines::line_text))]
fn push_line(alloc: Global, text: &mut Vec<u8>, line: &Line) -> Result<(), AllocError>
    ensures { OnOk result (text.new.items ≡ text.old.items ++ line_text line.now) }
{
    push_numbered(alloc, text, b"<path class=\"line\" d=\"M", line.x)?;
    push_numbered(alloc, text, b" ", line.y)?;
    push_numbered(alloc, text, b"L", line.to_x)?;
    push_numbered(alloc, text, b" ", line.to_y)?;
    push_bytes(text, b"\"/>\n")
}

/// Appends lines to `text`.
pub(crate) fn push_lines(
    alloc: Global,
    text: &mut Vec<u8>,
    lines: &[Line],
) -> Result<(), AllocError>
    ensures { OnOk result (text.new.items ≡ text.old.items ++ flat_map line_text lines.now) }
{
    for line in lines {
        push_line(alloc, text, line)?;
    }
    Ok(())
}
