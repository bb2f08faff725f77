//! The line numbers of places in a text.
ghost use Rattle.std.specs.Prelude.{◌≡◌, ◌==◌, ◌+◌, ℕ, List, if◌then◌else◌, length, IfOk};
ghost use Rattle.script_covered.specs.Lcov.{AreLines, line_at};

use std::alloc::{AllocError, Global};

/// The line number of each place of a text, from 1, including that of its end.
pub(crate) fn lines_of(alloc: Global, text: &[u8]) -> Result<Vec<u32>, AllocError>
    ensures { IfOk result (λ v. AreLines text.now v.items) }
{
    let mut lines = Vec::new(alloc);
    let mut line: u32 = 1;
    for octet in text {
        lines.push(line)?;
        line = line_behind(line, *octet)?;
    }
    lines.push(line)?;
    Ok(lines)
}

/// The line number after an octet.
fn line_behind(line: u32, octet: u8) -> Result<u32, AllocError>
    ensures { IfOk result (λ n. n ≡ (if octet == 10 then line + 1 else line)) }
{
    if octet != b'\n' {
        return Ok(line);
    }
    match line.checked_add(1) {
        Some(next) => Ok(next),
        None => Err(AllocError),
    }
}

/// The line number of a place; past the end, that of the end.
pub(crate) fn line_at(lines: &[u32], at: u32) -> u64
    ensures { (text : List ℕ) → AreLines text lines.now → result ≡ line_at text at }
{
    match lines.get(at as usize) {
        Some(line) => u64::from(*line),
        None => last_line(lines),
    }
}

/// The number of the last line.
fn last_line(lines: &[u32]) -> u64
    ensures { (text : List ℕ) → AreLines text lines.now → result ≡ line_at text (length text) }
{
    match lines.last() {
        Some(line) => u64::from(*line),
        None => 0,
    }
}

/// The number of line numbers, 0 included.
pub(crate) fn line_count(lines: &[u32]) -> usize
    ensures { (text : List ℕ) → AreLines text lines.now → result ≡ line_at text (length text) + 1 }
{
    match lines.last() {
        Some(line) => *line as usize + 1,
        None => 1,
    }
}
