//! The printer of a script's lines, which keeps the last line.
ghost use Rattle.std.specs.Prelude.{◌≡◌, ◌↔◌, ℕ, List, Some, OnOk, true};
ghost use Rattle.std.specs.Io.KnownBytes.{Appends};
ghost use Rattle.plain_text.specs.Lines.{line_of};
ghost use Rattle.script_book.specs.Played.{last_in};

use std::io::{self, Write};

/// The line printed last, if any was.
#[derive(Drop)]
pub struct Printer {
    pub last: Option<Vec<u8>>,
}

impl Printer {
    /// Whether this is the line printed last.
    pub fn has_printed(&self, text: &[u8]) -> bool
        ensures { (result ≡ true) ↔ (last_in self.now ≡ Some text.now) }
    {
        match &self.last {
            Some(last) => last.as_slice() == text,
            None => false,
        }
    }

    /// Writes a line with its end in one write, and keeps it as the last line.
    ///
    /// # Errors
    ///
    /// If memory runs out, or the write fails, which may have written a part. The last line is unchanged then.
    pub fn print<W: Write>(&mut self, mut line: Vec<u8>, writer: &mut W) -> io::Result<()>
        ensures last { OnOk result (last_in self.new ≡ Some line.items) }
        ensures written { OnOk result (Appends (W.contents writer.old) (W.contents writer.new) (line_of line.items)) }
    {
        let length = line.len();
        line.push(b'\n')?;
        writer.write_all(&line)?;
        line.truncate(length);
        self.last = Some(line);
        Ok(())
    }
}
