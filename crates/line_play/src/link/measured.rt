//! The measurements of a terminal, as lines.
ghost use Rattle.std.specs.Prelude.{◌≡◌, IfOk, map, string_bytes};
ghost use Rattle.line_play.specs.Measured.{measured_line, aborted_line, measured_lines};

use link_transceiver::Measures;
use script_ends::{Measure, Terminal, all_measures};
use std::alloc::{AllocError, Global};

/// The line of a measurement.
fn measured_line(alloc: Global, measures: &Measures, measure: Measure) -> Result<String, AllocError>
    ensures { IfOk result (λ line. string_bytes line ≡ measured_line measures.now measure) }
{
    let name = measure.word();
    let count = measures.count(measure);
    format!(in alloc; "{name} {count}")
}

/// The line for the number of aborted proving periods.
fn aborted_line(alloc: Global, terminal: &Terminal) -> Result<String, AllocError>
    ensures { IfOk result (λ line. string_bytes line ≡ aborted_line terminal.now) }
{
    let count = terminal.aborted();
    format!(in alloc; "aborted_periods {count}")
}

/// The lines of these measurements.
fn lines_of(alloc: Global, measures: &Measures, all: &[Measure]) -> Result<Vec<String>, AllocError>
    ensures { IfOk result (λ lines. map string_bytes lines.items ≡ map (measured_line measures.now) all.now) }
{
    let mut lines = Vec::new(alloc);
    for measure in all {
        let line = measured_line(alloc, measures, *measure)?;
        lines.push(line)?;
    }
    Ok(lines)
}

/// Returns all measurements of a terminal (Q.752) as lines `NAME N`, in the order of the names.
///
/// # Errors
///
/// Out of memory.
pub fn measured_lines(alloc: Global, terminal: &Terminal) -> Result<Vec<String>, AllocError>
    ensures { IfOk result (λ lines. map string_bytes lines.items ≡ measured_lines terminal.now) }
{
    let measures = terminal.measures();
    let all = all_measures();
    let mut lines = lines_of(alloc, &measures, &all)?;
    let last = aborted_line(alloc, terminal)?;
    lines.push(last)?;
    Ok(lines)
}
