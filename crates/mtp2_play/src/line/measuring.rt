//! The measurements of a terminal on a line.
ghost use Rattle.std.specs.Prelude.{◌≡◌, OnOk};
ghost use Rattle.std.specs.Io.KnownBytes.{Appends};
ghost use Rattle.std.specs.List.{flat_map};
ghost use Rattle.mtp2_play.specs.Measured.{line_text, measures_text};

use line_play::measured_lines;
use link_term::Terminal;
use plain_text::write_line;
use std::alloc::Global;
use std::io::{self, Write};

/// Writes all measurements, in their order, as lines `NAME N`.
pub fn write_measures<W: Write>(
    alloc: Global,
    writer: &mut W,
    terminal: &Terminal,
) -> io::Result<()>
    ensures { OnOk result (Appends (W.contents writer.old) (W.contents writer.new) (measures_text terminal.now)) }
{
    let lines = measured_lines(alloc, terminal)?;
    write_lines(alloc, writer, &lines)?;
    Ok(())
}

/// Writes lines.
fn write_lines<W: Write>(alloc: Global, writer: &mut W, lines: &[String]) -> io::Result<()>
    ensures { OnOk result (Appends (W.contents writer.old) (W.contents writer.new) (flat_map line_text lines.now)) }
{
    for line in lines {
        write_line(alloc, writer, &format_args!("{line}"))?;
    }
    Ok(())
}
