//! The coverage of a text in the format of lcov.
ghost use Rattle.std.specs.Prelude.{◌≡◌, ◌∷◌, ◌++◌, [], ℕ, List, None, Some, codes, map, max, slice_index, slice_index_or, slice_set, unwrap_or, option_to_list, OnOk, IfOk};
ghost use Rattle.std.specs.List.{flat_map};
ghost use Rattle.sdl_ast.specs.Views.{block_of};
ghost use Rattle.turn_machine.specs.Turn.{Turn};
ghost use Rattle.script_covered.specs.Covered.{Covers};
ghost use Rattle.script_covered.specs.Lcov.{row_of, AreLines, line_at, place_line, turns_line, rows_text, taken_word, branch_line, mark_line, mark_times, answers_text, Sees, line_counts, count_line, count_lines, lines_text, IsSection, lcov_text};

use crate::coverage::{Counts, Coverage};
use crate::line_numbers::{line_at, line_count, lines_of};
use crate::marks::{Mark, block_marks};
use crate::rows::{Row, block_rows};
use crate::sections::{Section, push_named, push_number};
use sdl_tables::BlockTable;
use std::alloc::{AllocError, Global};

/// Appends the lines with the places of transitions.
fn push_places(
    alloc: Global,
    out: &mut Vec<u8>,
    lines: &[u32],
    rows: &[Row],
) -> Result<(), AllocError>
    ensures { OnOk result ((text : List ℕ) → AreLines text lines.now → out.new.items ≡ out.old.items ++ flat_map (place_line text) (map row_of rows.now)) }
{
    for row in rows {
        push_named(alloc, out, "FN:", line_at(lines, row.at), &row.name)?;
    }
    Ok(())
}

/// The lines with the numbers of turns of transitions.
fn turns_section(alloc: Global, rows: &[Row]) -> Result<Section, AllocError>
    ensures { IfOk result (IsSection (flat_map turns_line (map row_of rows.now)) (map (λ r. r.turns) (map row_of rows.now))) }
{
    let mut section = Section::new(alloc);
    for row in rows {
        let mut line = Vec::new(alloc);
        push_named(alloc, &mut line, "FNDA:", row.turns, &row.name)?;
        section.push(&line, row.turns)?;
    }
    Ok(section)
}

/// Appends how often an answer was taken; a dash if its DECISION was never asked.
fn push_taken(alloc: Global, line: &mut Vec<u8>, asked: u64, times: u64) -> Result<(), AllocError>
    ensures { OnOk result (line.new.items ≡ line.old.items ++ taken_word asked times) }
{
    if 0 < asked {
        push_number(alloc, line, times)
    } else {
        Ok(line.push(b'-')?)
    }
}

/// The line of an answer: line number, DECISION, number of the answer, and its count or a dash.
fn branch_line(
    alloc: Global,
    at: u64,
    decision: u64,
    number: u64,
    asked: u64,
    times: u64,
) -> Result<Vec<u8>, AllocError>
    ensures { IfOk result (λ v. v.items ≡ branch_line at decision number (taken_word asked times)) }
{
    let mut line = Vec::new(alloc);
    line.extend_from_slice(b"BRDA:")?;
    push_number(alloc, &mut line, at)?;
    line.push(b',')?;
    push_number(alloc, &mut line, decision)?;
    line.push(b',')?;
    push_number(alloc, &mut line, number)?;
    line.push(b',')?;
    push_taken(alloc, &mut line, asked, times)?;
    line.push(b'\n')?;
    Ok(line)
}

/// Adds the answer with this number of the DECISION at a place; it was taken `times` times.
fn push_answer(
    alloc: Global,
    section: &mut Section,
    lines: &[u32],
    counts: &Counts,
    decision: u32,
    number: usize,
    times: u64,
) -> Result<(), AllocError>
    ensures { OnOk result ((text : List ℕ) (said ns : List ℕ) → AreLines text lines.now → IsSection said ns section.old
        → IsSection (said ++ branch_line (line_at text decision) decision number (taken_word (slice_index counts.now.begun.times.items decision) times)) (ns ++ times ∷ []) section.new) }
{
    let line = branch_line(
        alloc,
        line_at(lines, decision),
        u64::from(decision),
        number as u64,
        counts.times(decision),
        times,
    )?;
    section.push(&line, times)
}

/// Adds the line of a mark, if it is an answer.
fn push_mark(
    alloc: Global,
    section: &mut Section,
    lines: &[u32],
    counts: &Counts,
    mark: Mark,
) -> Result<(), AllocError>
    ensures { OnOk result ((text : List ℕ) (said ns : List ℕ) → AreLines text lines.now → IsSection said ns section.old
        → IsSection (said ++ mark_line text (slice_index counts.now.begun.times.items) (slice_index counts.now.others.times.items) mark)
        (ns ++ mark_times (slice_index counts.now.begun.times.items) (slice_index counts.now.others.times.items) mark) section.new) }
{
    match mark {
        Mark::Begins(_) => Ok(()),
        Mark::Answer {
            at,
            decision,
            number,
        } => push_answer(
            alloc,
            section,
            lines,
            counts,
            decision,
            number,
            counts.times(at),
        ),
        Mark::Else { decision, number } => push_answer(
            alloc,
            section,
            lines,
            counts,
            decision,
            number,
            counts.others(decision),
        ),
    }
}

/// The lines of all answers.
fn answers_section(
    alloc: Global,
    lines: &[u32],
    counts: &Counts,
    marks: &[Mark],
) -> Result<Section, AllocError>
    ensures { IfOk result (λ s. (text : List ℕ) → AreLines text lines.now
        → IsSection (flat_map (mark_line text (slice_index counts.now.begun.times.items) (slice_index counts.now.others.times.items)) marks.now)
        (flat_map (mark_times (slice_index counts.now.begun.times.items) (slice_index counts.now.others.times.items)) marks.now) s) }
{
    let mut section = Section::new(alloc);
    for mark in marks {
        push_mark(alloc, &mut section, lines, counts, *mark)?;
    }
    Ok(section)
}

/// The greater of the count seen so far, if any, and another count.
fn more_of(seen: Option<u64>, times: u64) -> u64
    ensures { result ≡ max (unwrap_or seen 0) times }
{
    match seen {
        Some(most) => most.max(times),
        None => times,
    }
}

/// Records a count on a line.
fn see(seen: &mut Vec<Option<u64>>, line: u64, times: u64)
    ensures { seen.new.items ≡ slice_set seen.old.items line (Some (max (unwrap_or (slice_index_or seen.old.items line None) 0) times)) }
{
    let line = line as usize;
    if line < seen.len() {
        let most = more_of(seen[line], times);
        seen[line] = Some(most);
    }
}

/// Records the count of a mark on its line, if it has a place.
fn see_mark(seen: &mut Vec<Option<u64>>, lines: &[u32], counts: &Counts, mark: Mark)
    ensures { (text : List ℕ) → AreLines text lines.now → Sees text (slice_index counts.now.begun.times.items) mark seen.old.items seen.new.items }
{
    match mark {
        Mark::Begins(at) => see(seen, line_at(lines, at), counts.times(at)),
        Mark::Answer { at, .. } => see(seen, line_at(lines, at), counts.times(at)),
        Mark::Else { .. } => {}
    }
}

/// The count of each line, from line 0 on; none if nothing begins on it.
fn line_counts(
    alloc: Global,
    lines: &[u32],
    counts: &Counts,
    marks: &[Mark],
) -> Result<Vec<Option<u64>>, AllocError>
    ensures { IfOk result (λ v. (text : List ℕ) → AreLines text lines.now → v.items ≡ line_counts text (slice_index counts.now.begun.times.items) marks.now) }
{
    let nothing: Option<u64> = None;
    let mut seen = vec![in alloc; nothing; line_count(lines)]?;
    for mark in marks {
        see_mark(&mut seen, lines, counts, *mark);
    }
    Ok(seen)
}

/// The report's line for a text line with this count.
fn count_line(alloc: Global, line: u64, times: u64) -> Result<Vec<u8>, AllocError>
    ensures { IfOk result (λ v. v.items ≡ count_line line (Some times)) }
{
    let mut text = Vec::new(alloc);
    text.extend_from_slice(b"DA:")?;
    push_number(alloc, &mut text, line)?;
    text.push(b',')?;
    push_number(alloc, &mut text, times)?;
    text.push(b'\n')?;
    Ok(text)
}

/// Adds the report's line for a text line, if something begins on it.
fn push_count(
    alloc: Global,
    section: &mut Section,
    line: usize,
    count: Option<u64>,
) -> Result<(), AllocError>
    ensures { OnOk result ((said ns : List ℕ) → IsSection said ns section.old → IsSection (said ++ count_line line count) (ns ++ option_to_list count) section.new) }
{
    match count {
        Some(times) => {
            let text = count_line(alloc, line as u64, times)?;
            section.push(&text, times)
        }
        None => Ok(()),
    }
}

/// The report's lines for the lines of the text.
fn lines_section(alloc: Global, seen: &[Option<u64>]) -> Result<Section, AllocError>
    ensures { IfOk result (IsSection (count_lines 0 seen.now) (flat_map option_to_list seen.now)) }
{
    let mut section = Section::new(alloc);
    for (line, count) in seen.iter().enumerate() {
        push_count(alloc, &mut section, line, *count)?;
    }
    Ok(section)
}

/// Appends the report on transitions.
fn push_rows(
    alloc: Global,
    out: &mut Vec<u8>,
    lines: &[u32],
    rows: &[Row],
) -> Result<(), AllocError>
    ensures { OnOk result ((text : List ℕ) → AreLines text lines.now → out.new.items ≡ out.old.items ++ rows_text text (map row_of rows.now)) }
{
    push_places(alloc, out, lines, rows)?;
    let section = turns_section(alloc, rows)?;
    section.push_to(alloc, out, "FNF:", "FNH:")
}

/// Appends the report on answers.
fn push_answers(
    alloc: Global,
    out: &mut Vec<u8>,
    lines: &[u32],
    counts: &Counts,
    marks: &[Mark],
) -> Result<(), AllocError>
    ensures { OnOk result ((text : List ℕ) → AreLines text lines.now
        → out.new.items ≡ out.old.items ++ answers_text text (slice_index counts.now.begun.times.items) (slice_index counts.now.others.times.items) marks.now) }
{
    let section = answers_section(alloc, lines, counts, marks)?;
    section.push_to(alloc, out, "BRF:", "BRH:")
}

/// Appends the report on lines.
fn push_lines(
    alloc: Global,
    out: &mut Vec<u8>,
    lines: &[u32],
    counts: &Counts,
    marks: &[Mark],
) -> Result<(), AllocError>
    ensures { OnOk result ((text : List ℕ) → AreLines text lines.now
        → out.new.items ≡ out.old.items ++ lines_text (line_counts text (slice_index counts.now.begun.times.items) marks.now)) }
{
    let seen = line_counts(alloc, lines, counts, marks)?;
    let section = lines_section(alloc, &seen)?;
    section.push_to(alloc, out, "LF:", "LH:")
}

/// Appends the reports on transitions, answers and lines.
fn push_report(
    alloc: Global,
    out: &mut Vec<u8>,
    text: &[u8],
    rows: &[Row],
    counts: &Counts,
    marks: &[Mark],
) -> Result<(), AllocError>
    ensures { OnOk result (out.new.items ≡ out.old.items ++ (rows_text text.now (map row_of rows.now)
        ++ answers_text text.now (slice_index counts.now.begun.times.items) (slice_index counts.now.others.times.items) marks.now
        ++ lines_text (line_counts text.now (slice_index counts.now.begun.times.items) marks.now))) }
{
    let lines = lines_of(alloc, text)?;
    push_rows(alloc, out, &lines, rows)?;
    push_answers(alloc, out, &lines, counts, marks)?;
    push_lines(alloc, out, &lines, counts, marks)
}

/// The head of the report, with the file name of the text.
fn head(alloc: Global, name: &str) -> Result<Vec<u8>, AllocError>
    ensures { IfOk result (λ v. v.items ≡ codes "TN:scripts\nSF:" ++ name.now ++ codes "\n") }
{
    let mut out = Vec::new(alloc);
    out.extend_from_slice(b"TN:scripts\nSF:")?;
    out.extend_from_slice(name.as_bytes())?;
    out.push(b'\n')?;
    Ok(out)
}

/// Returns the coverage of a block's text in the format of lcov; `name` is the file name of the text in it.
///
/// # Errors
///
/// Out of memory, or a count exceeds 64 bits.
pub(crate) fn lcov_text(
    alloc: Global,
    name: &str,
    text: &str,
    block: &BlockTable<'_>,
    coverage: &Coverage,
) -> Result<Vec<u8>, AllocError>
    ensures { IfOk result (λ v. (ts : List Turn) → Covers (block_of block.now) ts coverage.now → v.items ≡ lcov_text name.now text.now (block_of block.now) ts) }
{
    let counts = coverage.counts();
    if counts.is_over() {
        return Err(AllocError);
    }
    let rows = block_rows(alloc, block, coverage.turns())?;
    let marks = block_marks(alloc, block)?;
    let mut out = head(alloc, name)?;
    push_report(alloc, &mut out, text.as_bytes(), &rows, counts, &marks)?;
    out.extend_from_slice(b"end_of_record\n")?;
    Ok(out)
}
