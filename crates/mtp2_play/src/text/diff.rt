//! The command `diff` on the sets that the command line names.
ghost use Rattle.std.specs.Prelude.{◌≡◌, ◌⊎◌, ◌++◌, true, [], None, Some, IfErr, IfOk, OnOk, codes, string_bytes};
ghost use Rattle.std.specs.Io.KnownBytes.{Appends};
ghost use Rattle.draw_sets.specs.Noting.{AreNoted};
ghost use Rattle.script_check.specs.Checked.{given, IsGiven, IsRefusal, IsSetOf};
ghost use Rattle.script_check.specs.Fronts.{in_front};
ghost use Rattle.script_check.specs.Printed.{refusal_line};
ghost use Rattle.mtp2_play.specs.Compared.{same_text, terminal_text, way_lines, AreAlike, AreFound, IsCompared, IsSummary, PrintsDifference, PrintsSide, SaysTerminal};
ghost use Rattle.mtp2_words.specs.Own.{text_of};
ghost use Rattle.mtp2_play.specs.Sets.{own_text_of};

use crate::text::sets::{STDIN, own_set, set_word};
use draw_diff::{Difference, compare, lines_in, ways_in};
use draw_sets::with_statements;
use link_term::Names;
use mtp2_words::{Named, OwnSet};
use plain_text::{DONE, FAILED, NamedReader, REFUSED, Teller, read_text};
use script_check::{Refusal, SetWord, find_set, in_front, refuse_set};
use std::alloc::{AllocError, Global};
use std::io::{self, Read, Write};
use std::rt::Runtime;
use std::{fs, str};
use turn_check::Verified;

/// The exit status if two sets differ.
const DIFFERENT: u8 = 1;

/// Octets that are no text.
const NO_TEXT: &[u8] = b"\xFF";

/// The name of one of the two texts: its side and its own name.
#[derive(Clone, Copy)]
struct SideName<'a> {
    /// OLD or NEW.
    side: &'a str,
    /// The name of the text.
    name: &'a str,
}

/// Writes lines with the name of one side before each.
fn write_side<W: Write>(alloc: Global, side: &str, lines: &[u8], writer: &mut W) -> io::Result<()>
    ensures { OnOk result (Appends (W.contents writer.old) (W.contents writer.new) (in_front side.now true lines.now)) }
{
    let named = in_front(alloc, side, lines)?;
    writer.write_all(&named)
}

/// Writes why one of the sets is refused. Returns the exit status.
fn refuse_side<H: Eprint, W: Write>(
    alloc: Global,
    teller: &Teller<'_, H>,
    named: SideName<'_>,
    refusal: &Refusal,
    writer: &mut W,
) -> u8
    ensures refused { result ≡ 2 → IsRefusal refusal.now.fault }
    ensures printed { result ≡ 2 → Appends (W.contents writer.old) (W.contents writer.new) (in_front named.entry.side.now true (refusal_line refusal.now.fault)) }
    ensures status { (result ≡ 2) ⊎ (result ≡ 4) }
{
    let mut lines: Vec<u8> = Vec::new(alloc);
    if refuse_set(alloc, named.name, refusal, &mut lines, &mut teller.errors()) == FAILED {
        return FAILED;
    }
    match write_side(alloc, named.side, &lines, writer) {
        Ok(()) => REFUSED,
        Err(_) => FAILED,
    }
}

/// One of the two sides: its set and its text.
#[derive(Drop)]
struct Side {
    set: Verified,
    text: Vec<u8>,
}

/// Returns a set with its text, or the exit status if it is refused.
fn with_text<H: Eprint, S: Read + Drop, W: Write>(
    alloc: Global,
    teller: &Teller<'_, H>,
    named: SideName<'_>,
    set: SetWord<S>,
    text: &[u8],
    writer: &mut W,
) -> Result<Side, u8>
    ensures set { IfOk result (λ side. IsGiven (given S.remaining set) (λ bytes. IsSetOf bytes side.set)) }
    ensures kept { IfOk result (λ _. W.contents writer.new ≡ W.contents writer.old) }
    ensures refused { IfErr result (λ s. s ≡ 2 → IsGiven (given S.remaining set) (PrintsSide named.entry.side.now (W.contents writer.old) (W.contents writer.new))) }
    ensures status { IfErr result (λ s. (s ≡ 2) ⊎ (s ≡ 4)) }
{
    match find_set(alloc, set) {
        Ok(found) => match Vec::from_slice(alloc, text) {
            Ok(text) => Ok(Side {
                set: found.set,
                text,
            }),
            Err(_) => Err(FAILED),
        },
        Err(refusal) => Err(refuse_side(alloc, teller, named, &refusal, writer)),
    }
}

/// Returns the set of a text of these octets, or the exit status if it is refused.
fn octets_side<H: Eprint, W: Write>(
    alloc: Global,
    teller: &Teller<'_, H>,
    named: SideName<'_>,
    octets: &[u8],
    writer: &mut W,
) -> Result<Side, u8>
    ensures set { IfOk result (λ side. IsGiven (Some octets.now) (λ bytes. IsSetOf bytes side.set)) }
    ensures kept { IfOk result (λ _. W.contents writer.new ≡ W.contents writer.old) }
    ensures refused { IfErr result (λ s. s ≡ 2 → IsGiven (Some octets.now) (PrintsSide named.entry.side.now (W.contents writer.old) (W.contents writer.new))) }
    ensures status { IfErr result (λ s. (s ≡ 2) ⊎ (s ≡ 4)) }
{
    with_text(alloc, teller, named, SetWord::Text(octets), octets, writer)
}

/// Returns the set of the text from a reader, or the exit status if there is none.
fn read_side<H: Eprint, S: Read + Drop, W: Write>(
    alloc: Global,
    teller: &Teller<'_, H>,
    named: SideName<'_>,
    mut reader: S,
    writer: &mut W,
) -> Result<Side, u8>
    ensures set { IfOk result (λ side. IsGiven None (λ bytes. IsSetOf bytes side.set)) }
    ensures kept { IfOk result (λ _. W.contents writer.new ≡ W.contents writer.old) }
    ensures refused { IfErr result (λ s. s ≡ 2 → IsGiven None (PrintsSide named.entry.side.now (W.contents writer.old) (W.contents writer.new))) }
    ensures status { IfErr result (λ s. (s ≡ 2) ⊎ (s ≡ 4)) }
{
    match read_text(alloc, &mut reader) {
        Ok(read) => {
            if read.is_text {
                octets_side(alloc, teller, named, read.kept.as_slice(), writer)
            } else {
                octets_side(alloc, teller, named, NO_TEXT, writer)
            }
        }
        Err(_) => Err(FAILED),
    }
}

/// Returns a built-in set, or the exit status if there is none.
fn own_side<H: Eprint, W: Write>(
    alloc: Global,
    teller: &Teller<'_, H>,
    named: SideName<'_>,
    own: OwnSet,
    writer: &mut W,
) -> Result<Side, u8>
    ensures set { IfOk result (λ side. IsGiven (Some (text_of own)) (λ bytes. IsSetOf bytes side.set)) }
    ensures kept { IfOk result (λ _. W.contents writer.new ≡ W.contents writer.old) }
    ensures refused { IfErr result (λ s. s ≡ 2 → IsGiven (Some (text_of own)) (PrintsSide named.entry.side.now (W.contents writer.old) (W.contents writer.new))) }
    ensures status { IfErr result (λ s. (s ≡ 2) ⊎ (s ≡ 4)) }
{
    let text = own.text().as_bytes();
    with_text(alloc, teller, named, own_set(own), text, writer)
}

/// Returns one of the sets that the command line names, or the exit status if there is none.
fn named_side<R: Runtime + AllocGlobal, H: Eprint, W: Write>(
    rt: &R,
    teller: &Teller<'_, H>,
    side: &str,
    set: Named<'_>,
    writer: &mut W,
) -> Result<Side, u8>
    ensures set { IfOk result (λ side. IsGiven (own_text_of set.entry) (λ bytes. IsSetOf bytes side.set)) }
    ensures kept { IfOk result (λ _. W.contents writer.new ≡ W.contents writer.old) }
    ensures refused { IfErr result (λ s. s ≡ 2 → IsGiven (own_text_of set.entry) (PrintsSide side.now (W.contents writer.old) (W.contents writer.new))) }
    ensures status { IfErr result (λ s. (s ≡ 2) ⊎ (s ≡ 4)) }
{
    let name = set_word(&set);
    let named = SideName { side, name };
    match set {
        Named::Own(own) => own_side(rt.alloc(), teller, named, own, writer),
        Named::Stdin => {
            let reader = NamedReader::new(teller, STDIN, rt.reader());
            read_side(rt.alloc(), teller, named, reader, writer)
        }
        Named::File(path) => match fs::open(rt, path) {
            Ok(file) => {
                let reader = NamedReader::new(teller, path, file);
                read_side(rt.alloc(), teller, named, reader, writer)
            }
            Err(error) => Err(teller.fail(path, &error)),
        },
    }
}

/// Whether a terminal finds its names in a set: `yes`, or `no` with the first missing one.
fn terminal_word(alloc: Global, set: &Verified) -> Result<String, AllocError>
    ensures { IfOk result (λ t. SaysTerminal set.now (string_bytes t)) }
{
    match Names::find(set) {
        Ok(_) => String::from_str(alloc, "yes"),
        Err(name) => format!(in alloc; "no {name}"),
    }
}

/// The line with the number of transitions that mean the same.
fn same_line(
    alloc: Global,
    old: &Verified,
    new: &Verified,
    found: &Difference,
) -> Result<String, AllocError>
    requires { AreFound old.now new.now found.now }
    ensures { IfOk result (λ t. string_bytes t ≡ same_text old.now new.now) }
{
    let known = ways_in(alloc, old.draft())?;
    let same = known.saturating_sub(lines_in(&found.olds));
    let all = known.saturating_add(lines_in(&found.news));
    format!(in alloc; "same {same} of {all}\n")
}

/// The line on terminals for the two sets, if the two answers differ.
fn changed_line(alloc: Global, before: &str, after: &str) -> Result<String, AllocError>
    ensures { IfOk result (λ t. string_bytes t ≡ codes "terminal " ++ before.now ++ codes " -> " ++ after.now ++ codes "\n") }
{
    let mut text = String::from_str(alloc, "terminal ")?;
    text.push_str(before)?;
    text.push_str(" -> ")?;
    text.push_str(after)?;
    text.push_str("\n")?;
    Ok(text)
}

/// The line on terminals for the two sets, from the two answers.
fn terminal_line(alloc: Global, before: &str, after: &str) -> Result<String, AllocError>
    ensures { IfOk result (λ t. string_bytes t ≡ terminal_text before.now after.now) }
{
    if before == after {
        format!(in alloc; "terminal {before}\n")
    } else {
        changed_line(alloc, before, after)
    }
}

/// The last two lines: the number of transitions that mean the same, and whether terminals find their names.
fn summary(
    alloc: Global,
    old: &Verified,
    new: &Verified,
    found: &Difference,
) -> Result<String, AllocError>
    requires { AreFound old.now new.now found.now }
    ensures { IfOk result (λ t. IsSummary old.now new.now (string_bytes t)) }
{
    let mut text = same_line(alloc, old, new, found)?;
    let before = terminal_word(alloc, old)?;
    let after = terminal_word(alloc, new)?;
    let line = terminal_line(alloc, &before, &after)?;
    text.push_str(&line)?;
    Ok(text)
}

/// Lines of transitions with the statements in which they differ; only the lines if one of the two is no text.
#[tactic(auto, using(draw_sets::proofs::NotedLines::unnoted))]
fn noted(alloc: Global, old: &[u8], new: &[u8], lines: Vec<u8>) -> Result<Vec<u8>, AllocError>
    ensures { IfOk result (λ v. AreNoted lines.items v.items) }
{
    let Ok(old_text) = str::from_utf8(old) else {
        return Ok(lines);
    };
    let Ok(new_text) = str::from_utf8(new) else {
        return Ok(lines);
    };
    with_statements(alloc, old_text, new_text, &lines)
}

/// The lines of transitions that differ, with the statements in which they differ.
fn way_lines(
    alloc: Global,
    old: &Side,
    new: &Side,
    found: &Difference,
) -> Result<Vec<u8>, AllocError>
    requires { AreFound old.now.set new.now.set found.now }
    ensures { IfOk result (λ v. AreNoted (way_lines old.now.set new.now.set) v.items) }
{
    let mut lines = Vec::new(alloc);
    lines.extend_from_slice(&found.olds)?;
    lines.extend_from_slice(&found.news)?;
    noted(alloc, &old.text, &new.text, lines)
}

/// Writes the differences of two sets, in one write.
fn write_difference<W: Write>(
    alloc: Global,
    old: &Side,
    new: &Side,
    found: &Difference,
    writer: &mut W,
) -> io::Result<()>
    requires { AreFound old.now.set new.now.set found.now }
    ensures { OnOk result (PrintsDifference (W.contents writer.old) (W.contents writer.new) old.now.set new.now.set) }
{
    let ways = way_lines(alloc, old, new, found)?;
    let end = summary(alloc, &old.set, &new.set, found)?;
    let mut text = Vec::new(alloc);
    text.extend_from_slice(&found.items)?;
    text.extend_from_slice(&ways)?;
    text.extend_from_slice(end.as_bytes())?;
    writer.write_all(&text)
}

/// The differences of two sets.
fn found_in(alloc: Global, old: &Verified, new: &Verified) -> Result<Difference, AllocError>
    ensures { IfOk result (λ found. AreFound old.now new.now found) }
{
    let found = compare(alloc, old.draft(), new.draft())?;
    Ok(found)
}

/// The exit status of a difference.
fn status_of(found: &Difference) -> u8
    ensures alike { result ≡ 0 → (found.now.items.items ≡ []) × (found.now.olds.items ≡ []) × (found.now.news.items ≡ []) }
    ensures differ { result ≡ 1 → (found.now.items.items ≡ []) × (found.now.olds.items ≡ []) × (found.now.news.items ≡ []) → ⊥ }
    ensures status { (result ≡ 0) ⊎ (result ≡ 1) }
{
    if found.items.is_empty() && found.olds.is_empty() && found.news.is_empty() {
        DONE
    } else {
        DIFFERENT
    }
}

/// Writes the differences of two sets. Returns the exit status: 0 if nothing is removed, added or changed, 1 if
/// something is, 4 if memory runs out or the write fails.
fn compare_sides<W: Write>(alloc: Global, old: &Side, new: &Side, writer: &mut W) -> u8
    ensures alike { result ≡ 0 → AreAlike old.now.set new.now.set }
    ensures differ { result ≡ 1 → AreAlike old.now.set new.now.set → ⊥ }
    ensures printed { (result ≡ 0) ⊎ (result ≡ 1) → PrintsDifference (W.contents writer.old) (W.contents writer.new) old.now.set new.now.set }
    ensures status { (result ≡ 0) ⊎ (result ≡ 1) ⊎ (result ≡ 4) }
{
    match found_in(alloc, &old.set, &new.set) {
        Ok(found) => match write_difference(alloc, old, new, &found, writer) {
            Ok(()) => status_of(&found),
            Err(_) => FAILED,
        },
        Err(_) => FAILED,
    }
}

/// Runs `diff` on the two sets that the command line names. Returns the exit status: 0 if they are alike, 1 if they
/// differ, 2 after a line with the side before it if one is refused, 4 if memory, a file, a read or a write fails.
pub fn run_diff<R: Runtime + AllocGlobal, H: Eprint, W: Write>(
    rt: &R,
    teller: &Teller<'_, H>,
    old: Named<'_>,
    new: Named<'_>,
    writer: &mut W,
) -> u8
    ensures compared { IsCompared (own_text_of old.entry) (own_text_of new.entry) result (W.contents writer.old) (W.contents writer.new) }
    ensures status { (result ≡ 0) ⊎ (result ≡ 1) ⊎ (result ≡ 2) ⊎ (result ≡ 4) }
{
    match named_side(rt, teller, "OLD", old, writer) {
        Ok(old) => match named_side(rt, teller, "NEW", new, writer) {
            Ok(new) => compare_sides(rt.alloc(), &old, &new, writer),
            Err(status) => status,
        },
        Err(status) => status,
    }
}
