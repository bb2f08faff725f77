//! Shows a word of a text with its line, and carets under it.
ghost use Rattle.std.specs.Prelude.{◌≡◌, ◌+◌, ◌++◌, ◌∷◌, [], ◌≤◌, length, map, min, string_bytes, IfOk, OnOk};
ghost use Rattle.std.specs.List.{filter};
ghost use Rattle.std.specs.Fmt.{decimal};
ghost use Rattle.script_point.specs.Pointed.{begins, blank, shown_byte, carets_under, one_or_more, margin, after, head_text, bare_text, source_text, caret_text, hint_text, IsHead, IsPointed};

use crate::lines::{begins, characters, line_at, line_begin, line_end};
use crate::notes::Notes;
use std::alloc::{AllocError, Global};

/// A word of a text: its bytes from `start` up to `end`, exclusive.
#[derive(Clone, Copy, Debug, PartialEq, Eq)]
pub struct Word {
    pub start: usize,
    pub end: usize,
}

/// A byte as it is shown: a control character other than a tab becomes a space.
fn shown_byte(byte: u8) -> u8
    ensures { result ≡ shown_byte byte }
{
    if byte == b'\t' {
        return byte;
    }
    if byte < 32 || byte == 127 { b' ' } else { byte }
}

/// The character under the first byte of a character, in the line of the carets: a tab under a tab, else a space.
fn blank(byte: u8) -> u8
    ensures { result ≡ blank byte }
{
    if byte == b'\t' { byte } else { b' ' }
}

/// The blanks under these bytes, left of the carets.
fn blanks(alloc: Global, before: &[u8]) -> Result<Vec<u8>, AllocError>
    ensures { IfOk result (λ v. v.items ≡ map blank (filter begins before.now)) }
{
    before
        .iter()
        .filter(|byte| begins(**byte))
        .map(|byte| blank(*byte))
        .collect(alloc)
}

/// These carets, or one caret if there are none.
fn one_or_more(alloc: Global, carets: Vec<u8>) -> Result<Vec<u8>, AllocError>
    ensures { IfOk result (λ v. v.items ≡ one_or_more carets.items) }
{
    if !carets.as_slice().is_empty() {
        return Ok(carets);
    }
    let mut one = Vec::new(alloc);
    one.push(b'^')?;
    Ok(one)
}

/// A caret for each of these characters.
fn marks(alloc: Global, word: &[u8]) -> Result<Vec<u8>, AllocError>
    ensures { IfOk result (λ v. v.items ≡ map (λ b. 94) (filter begins word.now)) }
{
    word.iter()
        .filter(|byte| begins(**byte))
        .map(|_byte| b'^')
        .collect(alloc)
}

/// A caret for each of these characters, and at least one.
fn carets(alloc: Global, word: &[u8]) -> Result<Vec<u8>, AllocError>
    ensures { IfOk result (λ v. v.items ≡ carets_under word.now) }
{
    let carets = marks(alloc, word)?;
    one_or_more(alloc, carets)
}

/// As many spaces as a number has digits.
fn margin(alloc: Global, line: usize) -> Result<Vec<u8>, AllocError>
    ensures { IfOk result (λ v. v.items ≡ margin line) }
{
    let number = format!(in alloc; "{line}")?;
    number.as_bytes().iter().map(|_digit| b' ').collect(alloc)
}

/// Appends a sign and the text, or nothing if the text is empty.
fn push_after(lines: &mut Vec<u8>, sign: &str, text: &str) -> Result<(), AllocError>
    ensures { OnOk result (lines.new.items ≡ lines.old.items ++ after sign.now text.now) }
{
    if text.is_empty() {
        return Ok(());
    }
    lines.extend_from_slice(sign.as_bytes())?;
    lines.extend_from_slice(text.as_bytes())
}

/// The place of a fault and its name: `:LINE:COLUMN: FAULT: SAID`.
fn head(
    alloc: Global,
    line: usize,
    column: usize,
    fault: &str,
    said: &str,
) -> Result<Vec<u8>, AllocError>
    ensures { IfOk result (λ v. v.items ≡ head_text line column fault.now said.now) }
{
    let place = format!(in alloc; ":{line}:{column}: ")?;
    let mut head = Vec::new(alloc);
    head.extend_from_slice(place.as_bytes())?;
    head.extend_from_slice(fault.as_bytes())?;
    push_after(&mut head, ": ", said)?;
    head.push(b'\n')?;
    Ok(head)
}

/// Appends the line itself: `LINE | text`.
fn push_source(
    alloc: Global,
    lines: &mut Vec<u8>,
    line: usize,
    source: &[u8],
) -> Result<(), AllocError>
    ensures { OnOk result (lines.new.items ≡ lines.old.items ++ source_text line source.now) }
{
    let number = format!(in alloc; "{line} | ")?;
    let shown: Vec<u8> = source.iter().map(|byte| shown_byte(*byte)).collect(alloc)?;
    lines.extend_from_slice(number.as_bytes())?;
    lines.extend_from_slice(&shown)?;
    lines.push(b'\n')?;
    Ok(())
}

/// Appends the line of the carets, with the note under the word.
fn push_carets(
    alloc: Global,
    lines: &mut Vec<u8>,
    line: usize,
    before: &[u8],
    word: &[u8],
    under: &str,
) -> Result<(), AllocError>
    ensures { OnOk result (lines.new.items ≡ lines.old.items ++ caret_text line before.now word.now under.now) }
{
    let margin = margin(alloc, line)?;
    let blanks = blanks(alloc, before)?;
    let carets = carets(alloc, word)?;
    lines.extend_from_slice(&margin)?;
    lines.extend_from_slice(b" | ")?;
    lines.extend_from_slice(&blanks)?;
    lines.extend_from_slice(&carets)?;
    push_after(lines, " ", under)?;
    lines.push(b'\n')?;
    Ok(())
}

/// Appends the hint as a line, if there is one.
fn push_hint(alloc: Global, lines: &mut Vec<u8>, line: usize, hint: &str) -> Result<(), AllocError>
    ensures { OnOk result (lines.new.items ≡ lines.old.items ++ hint_text line hint.now) }
{
    if hint.is_empty() {
        return Ok(());
    }
    let margin = margin(alloc, line)?;
    lines.extend_from_slice(&margin)?;
    lines.extend_from_slice(b" = ")?;
    lines.extend_from_slice(hint.as_bytes())?;
    lines.push(b'\n')?;
    Ok(())
}

/// Points at a word of a text, for a fault with a name; the caller puts the file name before the result. First
/// `:LINE:COLUMN: FAULT` with its note, then the line in which the word begins, then carets under the word up to the
/// end of the line, then a hint if there is one. Lines and columns count from 1; a tab is one column.
pub fn point(
    alloc: Global,
    text: &[u8],
    word: Word,
    fault: &str,
    notes: &Notes,
) -> Result<Vec<u8>, AllocError>
    ensures { IfOk result (λ v. IsPointed text.now word fault.now notes.now v.items) }
{
    let place = word.start.min(text.len());
    let line = line_at(text, place);
    let begin = line_begin(text, place);
    let end = line_end(text, place);
    let last = word.end.min(end).max(place);
    let before = &text[begin..place];
    let column = characters(before) + 1;
    let mut lines = head(alloc, line, column, fault, &notes.said)?;
    push_source(alloc, &mut lines, line, &text[begin..end])?;
    push_carets(
        alloc,
        &mut lines,
        line,
        before,
        &text[place..last],
        &notes.under,
    )?;
    push_hint(alloc, &mut lines, line, &notes.hint)?;
    Ok(lines)
}

/// The line of a fault that has no place, with its note: `: FAULT: SAID`, to follow the name of the text's file.
pub fn point_nowhere(alloc: Global, fault: &str, said: &str) -> Result<Vec<u8>, AllocError>
    ensures { IfOk result (λ v. v.items ≡ bare_text fault.now said.now) }
{
    let mut head = Vec::new(alloc);
    head.extend_from_slice(b": ")?;
    head.extend_from_slice(fault.as_bytes())?;
    push_after(&mut head, ": ", said)?;
    head.push(b'\n')?;
    Ok(head)
}

/// The line of a fault at a place, without the source line: `:LINE:COLUMN: FAULT: SAID`, to follow the file's name.
pub fn point_head(
    alloc: Global,
    text: &[u8],
    place: usize,
    fault: &str,
    said: &str,
) -> Result<Vec<u8>, AllocError>
    ensures { IfOk result (λ v. IsHead text.now (min place (length text.now)) fault.now said.now v.items) }
{
    let place = place.min(text.len());
    let line = line_at(text, place);
    let begin = line_begin(text, place);
    head(
        alloc,
        line,
        characters(&text[begin..place]) + 1,
        fault,
        said,
    )
}
