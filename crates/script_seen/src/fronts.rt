//! The echo of a script's lines.
ghost use Rattle.std.specs.Prelude.{◌≡◌, ◌++◌, ◌∷◌, [], ℕ, List, length, map, drop, codes, OnOk, IfOk};
ghost use Rattle.std.specs.List.{flat_map};
ghost use Rattle.std.specs.Io.KnownBytes.{Appends};
ghost use Rattle.script_lines.specs.Lines.{texts, plain_line};
ghost use Rattle.plain_text.specs.Lines.{line_of};
ghost use Rattle.script_seen.specs.Shown.{parted, IsLine};

use script_lines::Line;
use std::alloc::{AllocError, Global};
use std::io::{self, ErrorKind, Write};

/// Appends words, separated by one space.
fn push_parted(text: &mut Vec<u8>, words: &[&str]) -> Result<(), AllocError>
    ensures { OnOk result (text.new.items ≡ text.old.items ++ parted (texts words.now)) }
{
    let [first, more @ ..] = words else {
        return Ok(());
    };
    text.extend_from_slice(first.as_bytes())?;
    push_spaced(text, more)
}

/// Appends words, with a space before each.
fn push_spaced(text: &mut Vec<u8>, words: &[&str]) -> Result<(), AllocError>
    ensures { OnOk result (text.new.items ≡ text.old.items ++ flat_map (λ w. 32 ∷ w) (texts words.now)) }
{
    for word in words {
        text.push(b' ')?;
        text.extend_from_slice(word.as_bytes())?;
    }
    Ok(())
}

/// Returns `> ` and words separated by one space, with the end of the line.
pub fn front_of(alloc: Global, words: &[&str]) -> Result<Vec<u8>, AllocError>
    ensures { IfOk result (λ v. v.items ≡ line_of (codes "> " ++ parted (texts words.now))) }
{
    let mut front = Vec::from_slice(alloc, b"> ")?;
    push_parted(&mut front, words)?;
    front.push(b'\n')?;
    Ok(front)
}

/// The index of the first command's line; the commands are the last `commands` lines of the script.
pub(crate) fn first_of(lines: &[Line<'_>], commands: usize) -> usize {
    lines.len().saturating_sub(commands)
}

/// Echoes the line with this number, which is at index `place` of the script's lines.
///
/// # Errors
///
/// There is no such line at this index, memory runs out, or the write fails.
pub(crate) fn show_line<W: Write>(
    alloc: Global,
    lines: &[Line<'_>],
    place: usize,
    number: usize,
    writer: &mut W,
) -> io::Result<()>
    ensures { OnOk result ((front : List ℕ) × IsLine (map plain_line lines.now) number front × Appends (W.contents writer.old) (W.contents writer.new) front) }
{
    let Some(line) = lines.get(place) else {
        return Err(io::Error::from(ErrorKind::Other));
    };
    if line.number != number {
        return Err(io::Error::from(ErrorKind::Other));
    }
    let front = front_of(alloc, &line.words)?;
    writer.write_all(&front)?;
    Ok(())
}

/// Writes the octets that follow the first `before` ones.
#[tactic(auto, using(std::proofs::lemmas::List::drop_min))]
pub(crate) fn write_behind<W: Write>(
    before: usize,
    printed: &[u8],
    writer: &mut W,
) -> io::Result<()>
    ensures { OnOk result (Appends (W.contents writer.old) (W.contents writer.new) (drop before printed.now)) }
{
    let from = before.min(printed.len());
    writer.write_all(&printed[from..])?;
    Ok(())
}

/// The number of octets.
pub(crate) fn length_of(octets: &[u8]) -> usize
    ensures { result ≡ length octets.now }
{
    octets.len()
}

/// Empty output.
pub(crate) fn no_octets(alloc: Global) -> Vec<u8>
    ensures { result.items ≡ [] }
{
    Vec::new(alloc)
}
