//! The command `draw`.
ghost use Rattle.std.specs.Prelude.{◌≡◌, ◌⊎◌};

use crate::pictures::{Picture, draw_tables};
use draw_text::{Block, BlockTable};
use plain_text::{FAILED, MOST_BYTES, TextRead, line_at_limit, read_text};
use script_check::{SetFault, SetWord, write_refusal};
use sdl_lex::{LexFault, tokens};
use sdl_tree::parse;
use std::alloc::Global;
use std::io::{Read, Write};
use std::str;
use turn_verify::{LoadFault, load};

/// Draws a picture of a block as it is written. Returns the exit status.
fn draw_tree<W: Write>(alloc: Global, block: &Block, picture: &Picture<'_>, writer: &mut W) -> u8
    ensures { (result ≡ 0) ⊎ (result ≡ 2) ⊎ (result ≡ 4) }
{
    match BlockTable::new(alloc, block) {
        Ok(table) => draw_tables(alloc, &table, picture, writer),
        Err(_) => FAILED,
    }
}

/// Draws a picture of the block of an accepted text. Returns the exit status.
fn draw_accepted<W: Write>(alloc: Global, text: &str, picture: &Picture<'_>, writer: &mut W) -> u8
    ensures { (result ≡ 0) ⊎ (result ≡ 2) ⊎ (result ≡ 4) }
{
    match tokens(alloc, text) {
        Ok(tokens) => match parse(alloc, &tokens) {
            Ok(block) => draw_tree(alloc, &block, picture, writer),
            Err(_) => FAILED,
        },
        Err(_) => FAILED,
    }
}

/// Draws a picture of the block of a text, or writes why the text is refused. Returns the exit status.
fn draw_from_text<W: Write>(alloc: Global, text: &str, picture: &Picture<'_>, writer: &mut W) -> u8
    ensures { (result ≡ 0) ⊎ (result ≡ 2) ⊎ (result ≡ 4) }
{
    match load(alloc, text) {
        Ok(_) => draw_accepted(alloc, text, picture, writer),
        Err(fault) => write_refusal(alloc, writer, &SetFault::Load(fault)),
    }
}

/// Draws a picture of the block of a text that was read, or writes why it is refused. Returns the exit status.
fn draw_read<W: Write>(alloc: Global, read: &TextRead, picture: &Picture<'_>, writer: &mut W) -> u8
    ensures { (result ≡ 0) ⊎ (result ≡ 2) ⊎ (result ≡ 4) }
{
    if !read.is_text {
        return write_refusal(alloc, writer, &SetFault::NotText);
    }
    if read.is_too_long() {
        let fault = LoadFault::Lex {
            fault: LexFault::TooLong(MOST_BYTES as u32),
            line: line_at_limit(&read.kept),
        };
        return write_refusal(alloc, writer, &SetFault::Load(fault));
    }
    match str::from_utf8(&read.kept) {
        Ok(text) => draw_from_text(alloc, text, picture, writer),
        Err(_) => write_refusal(alloc, writer, &SetFault::NotText),
    }
}

/// Draws a picture of a process set, or of one of its processes, in one write, after reading the whole text.
///
/// Returns the exit status. 0: the picture was written. 2: only a line was written: `refused CODE Name ..` as `check`
/// prints it, or `refused B10 NoActor` if no process has that name. 4: out of memory, or a read or write failed.
pub fn draw<R: Read + Drop, W: Write>(
    alloc: Global,
    set: SetWord<R>,
    picture: &Picture<'_>,
    writer: &mut W,
) -> u8
    ensures { (result ≡ 0) ⊎ (result ≡ 2) ⊎ (result ≡ 4) }
{
    match set.own() {
        Ok(own) => draw_from_text(alloc, own.text(), picture, writer),
        Err(mut reader) => match read_text(alloc, &mut reader) {
            Ok(read) => draw_read(alloc, &read, picture, writer),
            Err(_) => FAILED,
        },
    }
}
