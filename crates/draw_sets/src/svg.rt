//! The drawing of a process.
ghost use Rattle.std.specs.Prelude.{◌≡◌, ◌++◌, map, OnOk, IfOk, IfSome};
ghost use Rattle.std.specs.List.{flat_map};
ghost use Rattle.draw_text.specs.Views.{block_of, process_of};
ghost use Rattle.draw_sets.specs.Drawing.{drawn_of, drawn_text, svg_text, view_text, head_text, page_text, title_style, title_text, drawing_text, IsDrawing};

use crate::apart::all_apart;
use crate::layout::{Drawn, Layout, lay_out};
use crate::outlines::{push_drawn, push_lines, push_numbered};
use draw_text::{Names, is_symbol, process_parts, push_bytes};
use sdl_lex::Name;
use std::alloc::{AllocError, Global};

/// The style of symbols.
const STYLE: &[u8] = b"<style>
text { font: 11px 'DejaVu Sans Mono', monospace; text-anchor: middle; fill: #000 }
rect, path { stroke: #222; fill: #fff }
.page { stroke: none }
.title { font-size: 16px; font-weight: bold; text-anchor: start }
.line, .stop { fill: none }
.state { fill: #eef3ff }
.input { fill: #fff6dd }
.save { fill: #f1e8f8 }
.output { fill: #e6f5e6 }
.question { fill: #fdeaea }
</style>
";

/// Appends a part of the drawing to `text`, if it is a symbol.
#[tactic(auto, unfolding(crate::specs::Drawing::drawn_text))]
fn push_part(alloc: Global, text: &mut Vec<u8>, drawn: &Drawn<'_>) -> Result<(), AllocError>
    ensures { OnOk result (text.new.items ≡ text.old.items ++ drawn_text (drawn_of drawn.now)) }
{
    if is_symbol(drawn.part.kind) {
        push_drawn(alloc, text, drawn.part.kind, &drawn.place, &drawn.part.text)
    } else {
        Ok(())
    }
}

/// Appends the symbols of a drawing to `text`.
fn push_parts(alloc: Global, text: &mut Vec<u8>, drawn: &[Drawn<'_>]) -> Result<(), AllocError>
    ensures { OnOk result (text.new.items ≡ text.old.items ++ flat_map drawn_text (map drawn_of drawn.now)) }
{
    for one in drawn {
        push_part(alloc, text, one)?;
    }
    Ok(())
}

/// Appends the text that a drawing begins with to `text`.
#[tactic(auto, unfolding(crate::specs::Drawing::svg_text))]
fn push_svg(text: &mut Vec<u8>) -> Result<(), AllocError>
    ensures { OnOk result (text.new.items ≡ text.old.items ++ svg_text) }
{
    push_bytes(text, b"<svg xmlns=\"http://www.w3.org/2000/svg\"")
}

/// Appends the visible area to `text`: the whole page.
#[tactic(auto, unfolding(crate::specs::Drawing::view_text))]
fn push_view(alloc: Global, text: &mut Vec<u8>, across: u32, along: u32) -> Result<(), AllocError>
    ensures { OnOk result (text.new.items ≡ text.old.items ++ view_text across along) }
{
    push_numbered(alloc, text, b"\" viewBox=\"0 0 ", across)?;
    push_numbered(alloc, text, b" ", along)?;
    push_bytes(text, b"\">\n")
}

/// Appends the size of a drawing to `text`.
#[tactic(auto, unfolding(crate::specs::Drawing::head_text))]
fn push_size(alloc: Global, text: &mut Vec<u8>, across: u32, along: u32) -> Result<(), AllocError>
    ensures { OnOk result (text.new.items ≡ text.old.items ++ head_text across along) }
{
    push_svg(text)?;
    push_numbered(alloc, text, b" width=\"", across)?;
    push_numbered(alloc, text, b"\" height=\"", along)?;
    push_view(alloc, text, across, along)
}

/// Appends the background of the page to `text`.
#[tactic(auto, unfolding(crate::specs::Drawing::page_text))]
fn push_page(text: &mut Vec<u8>) -> Result<(), AllocError>
    ensures { OnOk result (text.new.items ≡ text.old.items ++ page_text) }
{
    push_bytes(
        text,
        b"<rect class=\"page\" width=\"100%\" height=\"100%\"/>\n",
    )
}

/// Appends the markup before the name of the process to `text`.
#[tactic(auto, unfolding(crate::specs::Drawing::title_style))]
fn push_title_style(text: &mut Vec<u8>) -> Result<(), AllocError>
    ensures { OnOk result (text.new.items ≡ text.old.items ++ title_style) }
{
    push_bytes(text, b"<text class=\"title\" x=\"20\" y=\"26\">PROCESS ")
}

/// Appends the name of the process to `text`.
#[tactic(auto, unfolding(crate::specs::Drawing::title_text))]
fn push_title(text: &mut Vec<u8>, process: Name) -> Result<(), AllocError>
    ensures { OnOk result (text.new.items ≡ text.old.items ++ title_text process) }
{
    push_page(text)?;
    push_title_style(text)?;
    push_bytes(text, process.as_bytes())?;
    push_bytes(text, b"</text>\n")
}

/// A layout as SVG, with symbols in this style.
fn drawing_of(
    alloc: Global,
    style: &[u8],
    process: Name,
    layout: &Layout<'_>,
) -> Result<Vec<u8>, AllocError>
    ensures { IfOk result (λ v. v.items ≡ drawing_text style.now process layout.now.across layout.now.along layout.now.lines.items (map drawn_of layout.now.drawn.items)) }
{
    let mut text = Vec::new(alloc);
    push_size(alloc, &mut text, layout.across, layout.along)?;
    push_bytes(&mut text, style)?;
    push_title(&mut text, process)?;
    push_lines(alloc, &mut text, &layout.lines)?;
    push_parts(alloc, &mut text, &layout.drawn)?;
    push_bytes(&mut text, b"</svg>\n")?;
    Ok(text)
}

/// Returns a process as SDL-GR draws it, in SVG: START, the STATE parts and the CONNECTIONs, each with a symbol for
/// each statement, in the order of the text. Returns none if two symbols of the layout overlap.
pub fn draw_flow(alloc: Global, names: &Names<'_, '_>) -> Result<Option<Vec<u8>>, AllocError>
    ensures { IfOk result (λ o. IfSome o (λ v. IsDrawing (block_of names.now.block.now) (process_of names.now.process.now) v.items)) }
{
    let parts = process_parts(alloc, names)?;
    let layout = lay_out(alloc, &parts)?;
    if !all_apart(&layout.drawn) {
        return Ok(None);
    }
    let name = names.process.process().name.name;
    let text = drawing_of(alloc, STYLE, name, &layout)?;
    Ok(Some(text))
}
