//! The command `text`.
ghost use Rattle.std.specs.Prelude.{◌≡◌, ◌⊎◌};
ghost use Rattle.std.specs.Io.KnownBytes.{Appends};
ghost use Rattle.mtp2_play.specs.Printed.{IsPrinted};

use mtp2_words::OwnSet;
use plain_text::{DONE, FAILED};
use std::io::Write;

/// Prints a text. Returns the exit status.
fn print_text<W: Write>(text: &str, writer: &mut W) -> u8
    ensures held { result ≡ 0 → Appends (W.contents writer.old) (W.contents writer.new) text.now }
    ensures ends { (result ≡ 0) ⊎ (result ≡ 4) }
{
    match writer.write_all(text.as_bytes()) {
        Ok(()) => DONE,
        Err(_) => FAILED,
    }
}

/// Prints the text of a built-in set. Returns the exit status: 0, or 4 if a write fails.
pub fn print_own<W: Write>(set: OwnSet, writer: &mut W) -> u8
    ensures { IsPrinted set result (W.contents writer.old) (W.contents writer.new) }
{
    print_text(set.text(), writer)
}
