//! Sections of the report: lines, with the number of lines.
ghost use Rattle.std.specs.Prelude.{◌≡◌, ◌∷◌, ◌++◌, [], ◌+◌, ℕ, List, if◌then◌else◌, OnOk, IfOk};
ghost use Rattle.std.specs.Fmt.{decimal};
ghost use Rattle.script_covered.specs.Lcov.{counted, named_line, summary, IsSection};

use std::alloc::{AllocError, Global};

/// A section under way: its lines, their number, and the number of those with a count above 0.
#[derive(Drop)]
pub(crate) struct Section {
    text: Vec<u8>,
    found: u64,
    hit: u64,
}

/// A number, plus one if `more` is true.
fn one_if(number: u64, more: bool) -> Result<u64, AllocError>
    ensures { IfOk result (λ n. n ≡ (if more then number + 1 else number)) }
{
    if !more {
        return Ok(number);
    }
    match number.checked_add(1) {
        Some(next) => Ok(next),
        None => Err(AllocError),
    }
}

/// Appends a number in decimal.
pub(crate) fn push_number(alloc: Global, text: &mut Vec<u8>, number: u64) -> Result<(), AllocError>
    ensures { OnOk result (text.new.items ≡ text.old.items ++ decimal number) }
{
    let digits = format!(in alloc; "{number}")?;
    Ok(text.extend_from_slice(digits.as_bytes())?)
}

/// Appends a word and a number as a line.
fn push_counted(
    alloc: Global,
    text: &mut Vec<u8>,
    word: &str,
    number: u64,
) -> Result<(), AllocError>
    ensures { OnOk result (text.new.items ≡ text.old.items ++ counted word.now number) }
{
    text.extend_from_slice(word.as_bytes())?;
    push_number(alloc, text, number)?;
    Ok(text.push(b'\n')?)
}

/// Appends a word, a number and a name as a line.
pub(crate) fn push_named(
    alloc: Global,
    text: &mut Vec<u8>,
    word: &str,
    number: u64,
    name: &[u8],
) -> Result<(), AllocError>
    ensures { OnOk result (text.new.items ≡ text.old.items ++ named_line word.now number name.now) }
{
    text.extend_from_slice(word.as_bytes())?;
    push_number(alloc, text, number)?;
    text.push(b',')?;
    text.extend_from_slice(name)?;
    Ok(text.push(b'\n')?)
}

impl Section {
    /// An empty section.
    pub(crate) fn new(alloc: Global) -> Section
        ensures { IsSection [] [] result }
    {
        Section {
            text: Vec::new(alloc),
            found: 0,
            hit: 0,
        }
    }

    /// Adds the line of an item that was taken `times` times.
    pub(crate) fn push(&mut self, line: &[u8], times: u64) -> Result<(), AllocError>
        ensures { OnOk result ((text ns : List ℕ) → IsSection text ns self.old → IsSection (text ++ line.now) (ns ++ times ∷ []) self.new) }
    {
        self.text.extend_from_slice(line)?;
        self.found = one_if(self.found, true)?;
        self.hit = one_if(self.hit, 0 < times)?;
        Ok(())
    }

    /// Appends the lines to a text, followed by their two numbers, each after its word.
    pub(crate) fn push_to(
        &self,
        alloc: Global,
        text: &mut Vec<u8>,
        found: &str,
        hit: &str,
    ) -> Result<(), AllocError>
        ensures { OnOk result ((lines ns : List ℕ) → IsSection lines ns self.now → text.new.items ≡ text.old.items ++ (lines ++ summary found.now hit.now ns)) }
    {
        text.extend_from_slice(&self.text)?;
        push_counted(alloc, text, found, self.found)?;
        push_counted(alloc, text, hit, self.hit)
    }
}
