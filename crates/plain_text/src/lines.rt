//! Exit statuses, and the writing of lines.
ghost use Rattle.std.specs.Prelude.{◌≡◌, ◌⊎◌, ◌++◌, ◌∷◌, [], OnOk, IfSome};
ghost use Rattle.std.specs.Io.KnownBytes.{Appends};
ghost use Rattle.plain_text.specs.Lines.{line_of};

use std::alloc::Global;
use std::fmt::Display;
use std::io::{self, Write};

/// The exit status of a command that did what it was asked.
pub const DONE: u8 = 0;

/// The exit status if a text, a script or octets were refused.
pub const REFUSED: u8 = 2;

/// The exit status if the program has no such command line.
pub const USAGE: u8 = 3;

/// The exit status if memory, a file, a read or a write failed.
pub const FAILED: u8 = 4;

/// Writes one whole line, in one call if the writer takes all of it. If the printed text of the line is known, the
/// writer's contents grow by that text and a line feed.
pub fn write_line<W: Write, L: Display>(alloc: Global, writer: &mut W, line: &L) -> io::Result<()>
    ensures { OnOk result (IfSome (L.output line.now) (λ text. Appends (W.contents writer.old) (W.contents writer.new) (text ++ 10 ∷ []))) }
{
    let text = format!(in alloc; "{line}\n")?;
    writer.write_all(text.as_bytes())
}

/// Writes one line that says why something was refused. Returns the exit status: 2, or 4 if the line isn't written.
pub fn refuse<W: Write, L: Display>(alloc: Global, writer: &mut W, fault: &L) -> u8
    ensures printed { result ≡ 2 → IfSome (L.output fault.now) (λ text. Appends (W.contents writer.old) (W.contents writer.new) (line_of text)) }
    ensures status { (result ≡ 2) ⊎ (result ≡ 4) }
{
    match write_line(alloc, writer, fault) {
        Ok(()) => REFUSED,
        Err(_) => FAILED,
    }
}
