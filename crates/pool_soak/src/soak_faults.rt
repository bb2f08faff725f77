//! Explains to a person why a line doesn't belong in a script of `soak`.
ghost use Rattle.std.specs.Prelude.{◌≡◌, ◌∷◌, ℕ, Bool, List, None, IfSome, codes};
ghost use Rattle.script_lines.specs.Commands.{verb_of};
ghost use Rattle.script_lines.specs.Lines.{texts};
ghost use Rattle.script_lines.specs.LineFaults.{IsSo};
ghost use Rattle.pool_soak.specs.Faults.{is_no_step};

use crate::script::links_in;
use plain_text::{MOST_BYTES, write_line};
use script_lines::{
    LineFault, ScriptFault, Verb, lines_in, number_fault, verb_fault, verb_in, words_fault,
};
use std::alloc::{AllocError, Global};
use std::io::Write;

/// The greatest count.
const MOST: u32 = 2_147_483_647;

/// The fault of a line that should have one number after its word.
fn count_fault<'a>(word: &'a str, more: &[&'a str], least: u32, most: u32) -> Option<LineFault<'a>>
    ensures { (p : List ℕ → Bool) → IfSome result (IsSo p (word.now ∷ texts more.now)) }
{
    match more {
        [number] => number_fault(number, least, most),
        _ => words_fault(word, more, 1, 1),
    }
}

/// Returns why the words of a line don't belong in a script of `soak`, if a reason is known.
pub fn soak_line_fault<'a>(words: &[&'a str]) -> Option<LineFault<'a>>
    ensures { IfSome result (IsSo is_no_step (texts words.now)) }
{
    let [word, more @ ..] = words else {
        return None;
    };
    if links_in(words).is_some() {
        return Some(LineFault::Late { word });
    }
    if *word == "links" {
        return count_fault(word, more, 1, 16);
    }
    if *word == "on" {
        return count_fault(word, more, 0, MOST);
    }
    match verb_in(word) {
        Some(Verb::Offer) => verb_fault(Verb::Offer, word, more),
        Some(Verb::Tick) => verb_fault(Verb::Tick, word, more),
        _ => Some(LineFault::NoCommand {
            word,
            script: "a script of soak",
        }),
    }
}

/// Writes why the line with this number is bad.
fn explain_line<E: Write>(
    alloc: Global,
    text: &str,
    number: usize,
    errors: &mut E,
) -> Result<(), AllocError> {
    let lines = lines_in(alloc, text)?;
    for line in &lines {
        if line.number == number {
            if let Some(fault) = soak_line_fault(&line.words) {
                let told = format_args!("mtp2_play: line {number}: {fault}");
                let _told = write_line(alloc, errors, &told);
                return Ok(());
            }
        }
    }
    let told = format_args!("mtp2_play: line {number}: no line 'links N' stands before it");
    let _told = write_line(alloc, errors, &told);
    Ok(())
}

/// Writes why a text is no script of `soak`.
pub fn explain<E: Write>(alloc: Global, text: &str, fault: ScriptFault, errors: &mut E) {
    if let ScriptFault::BadLine(number) = fault {
        let _told = explain_line(alloc, text, number, errors);
    }
}

/// Writes that a text is too long for a script.
pub fn explain_length<E: Write>(alloc: Global, number: usize, errors: &mut E) {
    let told = format_args!("mtp2_play: line {number}: a script has {MOST_BYTES} octets at most");
    let _told = write_line(alloc, errors, &told);
}
