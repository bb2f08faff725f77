//! The command `line`.
ghost use Rattle.std.specs.Prelude.{◌≡◌, ◌⊎◌, None, Some};
ghost use Rattle.script_check.specs.Checked.{given};
ghost use Rattle.mtp2_words.specs.Own.{text_of};
ghost use Rattle.mtp2_play.specs.Sets.{own_text_of, word_text};
ghost use Rattle.mtp2_play.specs.Printed.{IsSpoken};

use crate::line::running::run_line as run_on;
use crate::text::sets::own_set;
use mtp2_words::{LineEnd, Named, OwnSet};
use plain_text::{FAILED, NamedReader, Teller};
use script_check::SetWord;
use std::fs::{self, File};
use std::io::{Read, Write};
use std::rt::Files;
use std::thread::Threads;
use std::time::Clock;

/// Runs a terminal for a set on a line.
fn line_on<
    H: Files<File = File> + Threads + Eprint + Clock + AllocGlobal,
    S: Read + Drop,
    R: Read,
    W: Write,
>(
    host: &H,
    teller: &Teller<'_, H>,
    named: &Named<'_>,
    end: &LineEnd<'_>,
    set: SetWord<S>,
    reader: &mut R,
    writer: &mut W,
) -> u8
    ensures { IsSpoken (word_text named.now) (given S.remaining set) end.now result
        (record { read = R.remaining reader.old; written = W.contents writer.old })
        (record { read = R.remaining reader.new; written = W.contents writer.new }) }
{
    run_on(host, teller, named, end, set, reader, writer)
}

/// Runs a terminal for a set whose text comes from a reader on a line.
fn line_text<
    H: Files<File = File> + Threads + Eprint + Clock + AllocGlobal,
    S: Read + Drop,
    R: Read,
    W: Write,
>(
    host: &H,
    teller: &Teller<'_, H>,
    named: &Named<'_>,
    end: &LineEnd<'_>,
    text: S,
    reader: &mut R,
    writer: &mut W,
) -> u8
    ensures { IsSpoken (word_text named.now) None end.now result
        (record { read = R.remaining reader.old; written = W.contents writer.old })
        (record { read = R.remaining reader.new; written = W.contents writer.new }) }
{
    line_on(
        host,
        teller,
        named,
        end,
        SetWord::Text(text),
        reader,
        writer,
    )
}

/// Runs a terminal for a built-in set on a line.
fn line_own<H: Files<File = File> + Threads + Eprint + Clock + AllocGlobal, R: Read, W: Write>(
    host: &H,
    teller: &Teller<'_, H>,
    set: &Named<'_>,
    own: OwnSet,
    end: &LineEnd<'_>,
    reader: &mut R,
    writer: &mut W,
) -> u8
    ensures { IsSpoken (word_text set.now) (Some (text_of own)) end.now result
        (record { read = R.remaining reader.old; written = W.contents writer.old })
        (record { read = R.remaining reader.new; written = W.contents writer.new }) }
{
    line_on(host, teller, set, end, own_set(own), reader, writer)
}

/// Runs `line`: it reads line octets from a reader, and writes them to a writer. Returns the exit status: 0 at the end
/// of the line or at the order `quit`; 2 if the text is refused or lacks a name; 4 if memory, a file, a read or a write
/// fails. Standard input is the line: a request for it as a text, which no command line makes, returns 4 too.
pub fn run_line<H: Files<File = File> + Threads + Eprint + Clock + AllocGlobal, R: Read, W: Write>(
    host: &H,
    teller: &Teller<'_, H>,
    set: &Named<'_>,
    end: &LineEnd<'_>,
    reader: &mut R,
    writer: &mut W,
) -> u8
    ensures { IsSpoken (word_text set.now) (own_text_of set.now) end.now result
        (record { read = R.remaining reader.old; written = W.contents writer.old })
        (record { read = R.remaining reader.new; written = W.contents writer.new }) }
{
    match set {
        Named::File(path) => match fs::open(host, path) {
            Ok(file) => {
                let text = NamedReader::new(teller, path, file);
                line_text(host, teller, set, end, text, reader, writer)
            }
            Err(error) => teller.fail(path, &error),
        },
        Named::Own(own) => line_own(host, teller, set, *own, end, reader, writer),
        Named::Stdin => FAILED,
    }
}
