//! Pictures of a block, as it is written.
ghost use Rattle.std.specs.Prelude.{◌≡◌, ◌⊎◌};
ghost use Rattle.std.specs.Io.KnownBytes.{Appends};
ghost use Rattle.draw_text.specs.Views.{block_of};
ghost use Rattle.draw_text.specs.BlockDiagram.{block_text};

use crate::state_diagram::draw_states;
use crate::svg::draw_flow;
use draw_text::{BlockTable, Names, ProcessTable, draw_block};
use plain_text::{DONE, FAILED, refuse};
use sdl_lex::Name;
use std::alloc::Global;
use std::io::Write;

/// The picture to draw.
#[derive(Clone, Copy, PartialEq, Eq, Debug)]
pub enum Picture<'a> {
    /// The processes of the set, and the signals that routes carry between them.
    Block,
    /// The process with this name, as SDL-GR draws it.
    Flow(&'a str),
    /// The states of the process with this name, and the ways from one to another.
    States(&'a str),
}

/// Writes a picture. Returns the exit status.
fn write_picture<W: Write>(writer: &mut W, picture: &[u8]) -> u8
    ensures printed { result ≡ 0 → Appends (W.contents writer.old) (W.contents writer.new) picture.now }
    ensures status { (result ≡ 0) ⊎ (result ≡ 4) }
{
    match writer.write_all(picture) {
        Ok(()) => DONE,
        Err(_) => FAILED,
    }
}

/// The process with a name.
fn process_named<'a, 'b>(table: &'a BlockTable<'b>, word: &str) -> Option<&'a ProcessTable<'b>> {
    let name = Name::new(word.as_bytes())?;
    let number = table.processes().number(name)?;
    table.tables().get(number)
}

/// Draws a process as SDL-GR does. Returns the exit status.
fn flow_of<W: Write>(alloc: Global, names: &Names<'_, '_>, writer: &mut W) -> u8
    ensures { (result ≡ 0) ⊎ (result ≡ 4) }
{
    match draw_flow(alloc, names) {
        Ok(Some(picture)) => write_picture(writer, &picture),
        Ok(None) => FAILED,
        Err(_) => FAILED,
    }
}

/// Draws the states of a process. Returns the exit status.
fn states_of<W: Write>(alloc: Global, names: &Names<'_, '_>, writer: &mut W) -> u8
    ensures { (result ≡ 0) ⊎ (result ≡ 4) }
{
    match draw_states(alloc, names) {
        Ok(picture) => write_picture(writer, &picture),
        Err(_) => FAILED,
    }
}

/// Draws a block. Returns the exit status.
fn block_picture<W: Write>(alloc: Global, table: &BlockTable<'_>, writer: &mut W) -> u8
    ensures printed { result ≡ 0 → Appends (W.contents writer.old) (W.contents writer.new) (block_text (block_of table.now)) }
    ensures status { (result ≡ 0) ⊎ (result ≡ 4) }
{
    match draw_block(alloc, table) {
        Ok(picture) => write_picture(writer, &picture),
        Err(_) => FAILED,
    }
}

/// Writes that no process has the name. Returns the exit status.
fn no_process<W: Write>(alloc: Global, writer: &mut W) -> u8
    ensures { (result ≡ 2) ⊎ (result ≡ 4) }
{
    refuse(alloc, writer, &"refused B10 NoActor")
}

/// Draws the process with a name as SDL-GR does, or writes that there is none. Returns the exit status.
fn flow_picture<W: Write>(alloc: Global, table: &BlockTable<'_>, word: &str, writer: &mut W) -> u8
    ensures { (result ≡ 0) ⊎ (result ≡ 2) ⊎ (result ≡ 4) }
{
    match process_named(table, word) {
        Some(process) => {
            let names = Names {
                block: table,
                process,
            };
            flow_of(alloc, &names, writer)
        }
        None => no_process(alloc, writer),
    }
}

/// Draws the states of the process with a name, or writes that there is none. Returns the exit status.
fn states_picture<W: Write>(alloc: Global, table: &BlockTable<'_>, word: &str, writer: &mut W) -> u8
    ensures { (result ≡ 0) ⊎ (result ≡ 2) ⊎ (result ≡ 4) }
{
    match process_named(table, word) {
        Some(process) => {
            let names = Names {
                block: table,
                process,
            };
            states_of(alloc, &names, writer)
        }
        None => no_process(alloc, writer),
    }
}

/// Draws a picture of a block as it is written. Returns the exit status.
pub(crate) fn draw_tables<W: Write>(
    alloc: Global,
    table: &BlockTable<'_>,
    picture: &Picture<'_>,
    writer: &mut W,
) -> u8
    ensures { (result ≡ 0) ⊎ (result ≡ 2) ⊎ (result ≡ 4) }
{
    match picture {
        Picture::Block => block_picture(alloc, table, writer),
        Picture::Flow(word) => flow_picture(alloc, table, word, writer),
        Picture::States(word) => states_picture(alloc, table, word, writer),
    }
}
