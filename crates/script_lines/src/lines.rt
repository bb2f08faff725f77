//! The lines of a script that are neither blank nor comments.
ghost use Rattle.std.specs.Prelude.{◌≡◌, ◌++◌, OnOk, IfOk, map};
ghost use Rattle.std.specs.Str.Lines.{lines};
ghost use Rattle.script_lines.specs.Words.{words_of};
ghost use Rattle.script_lines.specs.Lines.{texts, plain_line, is_silent, said, spoken, lines_of};

use crate::words::words_in;
use std::alloc::{AllocError, Global};

/// A line that is neither blank nor a comment.
#[derive(Drop)]
pub struct Line<'a> {
    /// Its number among all lines of the text, from 1.
    pub number: usize,
    /// Its words, at least one.
    pub words: Vec<&'a str>,
}

/// Whether the words are those of a blank line or of a comment.
fn is_silent(words: &[&str]) -> bool
    ensures { result ≡ is_silent (texts words.now) }
{
    match words.first() {
        Some(word) => word.as_bytes().first() == Some(&b'#'),
        None => true,
    }
}

/// Appends a line, unless it is blank or a comment.
fn push_line<'a>(
    alloc: Global,
    lines: &mut Vec<Line<'a>>,
    number: usize,
    text: &'a str,
) -> Result<(), AllocError>
    ensures { OnOk result (map plain_line lines.new.items ≡ map plain_line lines.old.items ++ said number (words_of text.now)) }
{
    let words = words_in(alloc, text)?;
    if !is_silent(&words) {
        lines.push(Line { number, words })?;
    }
    Ok(())
}

/// All lines of a text, in order.
fn all_lines<'a>(alloc: Global, text: &'a str) -> Result<Vec<&'a str>, AllocError>
    ensures { IfOk result (λ v. map (λ l. l.now) v.items ≡ lines text.now) }
{
    text.lines().collect(alloc)
}

/// The lines that are neither blank nor comments, with their numbers.
fn spoken<'a>(alloc: Global, all: &[&'a str]) -> Result<Vec<Line<'a>>, AllocError>
    ensures { IfOk result (λ v. map plain_line v.items ≡ spoken 1 (texts all.now)) }
{
    let mut lines = Vec::new(alloc);
    for (index, text) in all.iter().enumerate() {
        push_line(alloc, &mut lines, index + 1, text)?;
    }
    Ok(lines)
}

/// The lines of a text that are neither blank nor comments, with their numbers. A line ends with a line feed or with
/// carriage return and line feed; the last line needs no end. A line whose first character after spaces is `#` is a
/// comment. After a command, `#` is part of a word.
pub fn lines_in<'a>(alloc: Global, text: &'a str) -> Result<Vec<Line<'a>>, AllocError>
    ensures { IfOk result (λ v. map plain_line v.items ≡ lines_of text.now) }
{
    let all = all_lines(alloc, text)?;
    spoken(alloc, &all)
}
