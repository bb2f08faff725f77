//! The command `check` for one set or several.
ghost use Rattle.std.specs.Prelude.{◌≡◌, ◌⊎◌, None, Some};
ghost use Rattle.script_check.specs.Checked.{IsGiven, PrintsCosts, PrintsRefusal};
ghost use Rattle.mtp2_words.specs.Own.{text_of};
ghost use Rattle.mtp2_play.specs.Checking.{IsCheckedPlainly};
ghost use Rattle.mtp2_play.specs.Printed.{AreCheckedAll, IsChecked};
ghost use Rattle.mtp2_play.specs.Sets.{own_text_of};

use crate::text::sets::{STDIN, own_set, set_word};
use crate::text::told::run_told;
use mtp2_words::{Named, OwnSet, Warned};
use plain_text::{DONE, FAILED, NamedReader, Teller};
use script_check::{SetWord, check_telling, in_front};
use std::alloc::Global;
use std::fs;
use std::io::{self, Read, Write};
use std::rt::Runtime;

/// Runs `check` on a built-in set.
fn check_own<H: Eprint, W: Write>(
    alloc: Global,
    teller: &Teller<'_, H>,
    own: OwnSet,
    writer: &mut W,
) -> u8
    ensures costs { result ≡ 0 → IsGiven (Some (text_of own)) (PrintsCosts (W.contents writer.old) (W.contents writer.new)) }
    ensures refusal { result ≡ 2 → IsGiven (Some (text_of own)) (PrintsRefusal (W.contents writer.old) (W.contents writer.new)) }
    ensures status { (result ≡ 0) ⊎ (result ≡ 2) ⊎ (result ≡ 4) }
{
    check_telling(
        alloc,
        own_set(own),
        own.word(),
        writer,
        &mut teller.errors(),
    )
}

/// Runs `check` on a text from a reader.
#[tactic(auto, using(crate::proofs::Known::costs, crate::proofs::Known::refusal))]
fn check_text<H: Eprint, S: Read + Drop, W: Write>(
    alloc: Global,
    teller: &Teller<'_, H>,
    name: &str,
    text: S,
    writer: &mut W,
) -> u8
    ensures costs { result ≡ 0 → IsGiven None (PrintsCosts (W.contents writer.old) (W.contents writer.new)) }
    ensures refusal { result ≡ 2 → IsGiven None (PrintsRefusal (W.contents writer.old) (W.contents writer.new)) }
    ensures status { (result ≡ 0) ⊎ (result ≡ 2) ⊎ (result ≡ 4) }
{
    check_telling(
        alloc,
        SetWord::Text(text),
        name,
        writer,
        &mut teller.errors(),
    )
}

/// Runs `check` on the set that the command line names.
fn run_plain<R: Runtime + AllocGlobal, H: Eprint, W: Write>(
    rt: &R,
    teller: &Teller<'_, H>,
    set: Named<'_>,
    writer: &mut W,
) -> u8
    ensures printed { IsCheckedPlainly (own_text_of set.entry) result (W.contents writer.old) (W.contents writer.new) }
    ensures status { (result ≡ 0) ⊎ (result ≡ 2) ⊎ (result ≡ 4) }
{
    match set {
        Named::Own(own) => check_own(rt.alloc(), teller, own, writer),
        Named::Stdin => {
            let text = NamedReader::new(teller, STDIN, rt.reader());
            check_text(rt.alloc(), teller, set_word(&set), text, writer)
        }
        Named::File(path) => match fs::open(rt, path) {
            Ok(file) => {
                let text = NamedReader::new(teller, path, file);
                check_text(rt.alloc(), teller, path, text, writer)
            }
            Err(error) => teller.fail(path, &error),
        },
    }
}

/// Runs `check` on the set that the command line names. Adds the lines of its warnings if it is accepted and they are
/// requested.
fn run_either<R: Runtime + AllocGlobal, H: Eprint, W: Write>(
    rt: &R,
    teller: &Teller<'_, H>,
    set: Named<'_>,
    warned: Warned,
    writer: &mut W,
    told: &mut Vec<u8>,
) -> u8
    ensures { IsChecked set.entry warned result (W.contents writer.old) (W.contents writer.new) }
{
    match warned {
        Warned::Unsaid => run_plain(rt, teller, set, writer),
        Warned::Told => run_told(rt, teller, set, warned, writer, told),
        Warned::Counted => run_told(rt, teller, set, warned, writer, told),
    }
}

/// Prints the lines of warnings. Returns the exit status: this one, or 4 if they can't be printed.
fn tell_warnings<H: Eprint>(teller: &Teller<'_, H>, told: &[u8], status: u8) -> u8
    ensures { (result ≡ status) ⊎ (result ≡ 4) }
{
    if told.is_empty() {
        return status;
    }
    match teller.errors().write_all(told) {
        Ok(()) => status,
        Err(_) => FAILED,
    }
}

/// Runs `check` on the set that the command line names, and prints its warnings if they are requested.
fn run_check<R: Runtime + AllocGlobal, H: Eprint, W: Write>(
    rt: &R,
    teller: &Teller<'_, H>,
    set: Named<'_>,
    warned: Warned,
    writer: &mut W,
) -> u8
    ensures { IsChecked set.entry warned result (W.contents writer.old) (W.contents writer.new) }
{
    let mut told = Vec::new(rt.alloc());
    let status = run_either(rt, teller, set, warned, writer, &mut told);
    tell_warnings(teller, &told, status)
}

/// Writes the lines of one of several sets, with its name before each.
fn write_beside<W: Write>(
    alloc: Global,
    name: &str,
    lines: &[u8],
    writer: &mut W,
) -> io::Result<()> {
    let named = in_front(alloc, name, lines)?;
    writer.write_all(&named)
}

/// Runs `check` on one of several sets, and writes its lines with its name before each. Returns the exit status of that
/// set. On status 4 nothing is written; it is also 4 if the lines can't be written, or memory runs out.
#[tactic(auto, using(crate::proofs::CheckedSets::ends_told))]
fn check_beside<R: Runtime + AllocGlobal, H: Eprint, W: Write>(
    rt: &R,
    teller: &Teller<'_, H>,
    set: Named<'_>,
    warned: Warned,
    writer: &mut W,
) -> u8
    ensures { (result ≡ 0) ⊎ (result ≡ 1) ⊎ (result ≡ 2) ⊎ (result ≡ 4) }
{
    let mut lines: Vec<u8> = Vec::new(rt.alloc());
    let mut told = Vec::new(rt.alloc());
    let status = run_either(rt, teller, set, warned, &mut lines, &mut told);
    if status == FAILED {
        return FAILED;
    }
    match write_beside(rt.alloc(), set_word(&set), &lines, writer) {
        Ok(()) => tell_warnings(teller, &told, status),
        Err(_) => FAILED,
    }
}

/// The greater of two exit statuses.
fn greater(one: u8, other: u8) -> u8
    ensures { (result ≡ one) ⊎ (result ≡ other) }
{
    if one < other { other } else { one }
}

/// Runs `check` on several sets, in turn. Returns the greatest exit status.
fn check_each<R: Runtime + AllocGlobal, H: Eprint, W: Write>(
    rt: &R,
    teller: &Teller<'_, H>,
    sets: &[Named<'_>],
    warned: Warned,
    writer: &mut W,
) -> u8
    ensures { (result ≡ 0) ⊎ (result ≡ 1) ⊎ (result ≡ 2) ⊎ (result ≡ 4) }
{
    let mut status = DONE;
    for set in sets {
        let one = check_beside(rt, teller, *set, warned, writer);
        status = greater(status, one);
    }
    status
}

/// Runs `check` on the sets that the command line names: on one, or on several with the name of each before its lines.
#[tactic(auto, using(crate::proofs::InTurn::alone, crate::proofs::InTurn::in_turn))]
pub fn run_checks<R: Runtime + AllocGlobal, H: Eprint, W: Write>(
    rt: &R,
    teller: &Teller<'_, H>,
    sets: &[Named<'_>],
    warned: Warned,
    writer: &mut W,
) -> u8
    ensures printed { AreCheckedAll sets.now warned result (W.contents writer.old) (W.contents writer.new) }
    ensures status { (result ≡ 0) ⊎ (result ≡ 1) ⊎ (result ≡ 2) ⊎ (result ≡ 4) }
{
    if sets.len() == 1 {
        run_check(rt, teller, sets[0], warned, writer)
    } else {
        check_each(rt, teller, sets, warned, writer)
    }
}
