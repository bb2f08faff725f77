//! The command `check` with warnings.
ghost use Rattle.std.specs.Prelude.{◌≡◌, ◌⊎◌, List, ℕ, None, Some, IfOk, IsUtf8};
ghost use Rattle.plain_text.specs.Reading.{IsReading};
ghost use Rattle.script_check.specs.Checked.{IsFaultOf, IsTooLong, PrintsRefusal};
ghost use Rattle.turn_verify.specs.Loaded.{IsRefused};
ghost use Rattle.mtp2_play.specs.Checking.{IsCheckedBytes, IsUnwarned, IsWarned, warned_status};
ghost use Rattle.mtp2_play.specs.Sets.{own_text_of};
ghost use Rattle.mtp2_words.specs.declared.requests.Warned.TheVariants.{Counted};

use crate::text::sets::{STDIN, set_word};
use crate::text::warned::push_warnings;
use mtp2_words::{Named, Warned};
use plain_text::{
    DONE, FAILED, MOST_BYTES, NamedReader, Teller, TextRead, line_at_limit, read_text,
};
use script_check::{Refusal, SetFault, SetWord, check_telling, refuse_set};
use script_point::{point_head, point_nowhere};
use sdl_lex::LexFault;
use std::alloc::{AllocError, Global};
use std::io::{Read, Write};
use std::rt::Runtime;
use std::{fs, str};
use turn_verify::LoadFault;

/// The exit status for an accepted set with a warning, if warnings count.
const WARNED: u8 = 1;

/// The exit status for an accepted set, by whether it has a warning.
fn warned_status(warned: Warned, some: bool) -> u8
    ensures { result ≡ warned_status warned some }
{
    match warned {
        Warned::Unsaid => DONE,
        Warned::Told => DONE,
        Warned::Counted => { if some { WARNED } else { DONE } }
    }
}

/// Adds the lines of the warnings of an accepted text. Returns the exit status.
#[tactic(auto, using(crate::proofs::Warnings::asked_by, crate::proofs::Warnings::counted_by, crate::proofs::Warnings::clean_by, crate::proofs::Warnings::ended_by))]
fn add_warnings(alloc: Global, name: &str, text: &str, warned: Warned, told: &mut Vec<u8>) -> u8
    ensures asked { result ≡ 1 → warned ≡ Counted }
    ensures counted { result ≡ 1 → IsWarned text.now }
    ensures clean { warned ≡ Counted → result ≡ 0 → IsUnwarned text.now }
    ensures status { (result ≡ 0) ⊎ (result ≡ 1) ⊎ (result ≡ 4) }
{
    match push_warnings(alloc, told, name, text) {
        Ok(some) => warned_status(warned, some),
        Err(_) => FAILED,
    }
}

/// Runs `check` on a text, and adds the lines of its warnings if it is accepted.
fn check_told<H: Eprint, W: Write>(
    alloc: Global,
    teller: &Teller<'_, H>,
    name: &str,
    text: &str,
    warned: Warned,
    writer: &mut W,
    told: &mut Vec<u8>,
) -> u8
    ensures { IsCheckedBytes (Some text.now) warned result (W.contents writer.old) (W.contents writer.new) }
{
    let word = SetWord::Text(text.as_bytes());
    let status = check_telling(alloc, word, name, writer, &mut teller.errors());
    if status == DONE {
        add_warnings(alloc, name, text, warned, told)
    } else {
        status
    }
}

/// The refusal of bytes that aren't UTF-8.
fn no_text(alloc: Global) -> Result<Refusal, AllocError>
    ensures { IfOk result (λ r. (bytes : List ℕ) → (IsUtf8 bytes → ⊥) → IsFaultOf bytes r.fault) }
{
    let pointed = point_nowhere(alloc, "F1 NotText", "")?;
    Ok(Refusal {
        fault: SetFault::NotText,
        pointed,
    })
}

/// The fault of a text that is too long and begins with these bytes.
fn fault_of_long(kept: &[u8]) -> LoadFault
    ensures { (bytes : List ℕ) → IsTooLong bytes kept.now → IsRefused bytes result }
{
    LoadFault::Lex {
        fault: LexFault::TooLong(MOST_BYTES as u32),
        line: line_at_limit(kept),
    }
}

/// The refusal of a text that is too long and begins with these bytes.
fn too_long(alloc: Global, kept: &[u8]) -> Result<Refusal, AllocError>
    ensures { IfOk result (λ r. (bytes : List ℕ) → IsUtf8 bytes → IsTooLong bytes kept.now → IsFaultOf bytes r.fault) }
{
    let said = "a text has 262144 octets at most";
    let pointed = point_head(alloc, kept, MOST_BYTES, "L3 TooLong", said)?;
    Ok(Refusal {
        fault: SetFault::Load(fault_of_long(kept)),
        pointed,
    })
}

/// Prints a refusal.
fn refuse_read<H: Eprint, W: Write>(
    alloc: Global,
    teller: &Teller<'_, H>,
    name: &str,
    refusal: Result<Refusal, AllocError>,
    writer: &mut W,
) -> u8
    ensures printed { (bytes : List ℕ) → IfOk refusal (λ r. IsFaultOf bytes r.fault) → result ≡ 2
        → PrintsRefusal (W.contents writer.old) (W.contents writer.new) bytes }
    ensures status { (result ≡ 2) ⊎ (result ≡ 4) }
{
    match refusal {
        Ok(refusal) => refuse_set(alloc, name, &refusal, writer, &mut teller.errors()),
        Err(_) => FAILED,
    }
}

/// Runs `check` on a text that was read, and adds the lines of its warnings if it is accepted.
#[tactic(auto, using(crate::proofs::CheckedSets::failed))]
fn check_read<H: Eprint, W: Write>(
    alloc: Global,
    teller: &Teller<'_, H>,
    name: &str,
    read: &TextRead,
    warned: Warned,
    writer: &mut W,
    told: &mut Vec<u8>,
) -> u8
    requires { IsReading None read.now }
    ensures { IsCheckedBytes None warned result (W.contents writer.old) (W.contents writer.new) }
{
    if !read.is_text {
        return refuse_read(alloc, teller, name, no_text(alloc), writer);
    }
    if read.is_too_long() {
        let refusal = too_long(alloc, &read.kept);
        return refuse_read(alloc, teller, name, refusal, writer);
    }
    match str::from_utf8(&read.kept) {
        Ok(text) => check_told(alloc, teller, name, text, warned, writer, told),
        Err(_) => FAILED,
    }
}

/// Runs `check` on a text from a reader, and adds the lines of its warnings if it is accepted.
#[tactic(auto, using(crate::proofs::CheckedSets::read_of_some, crate::proofs::CheckedSets::failed))]
fn check_all<H: Eprint, S: Read + Drop, W: Write>(
    alloc: Global,
    teller: &Teller<'_, H>,
    name: &str,
    mut text: S,
    warned: Warned,
    writer: &mut W,
    told: &mut Vec<u8>,
) -> u8
    ensures { IsCheckedBytes None warned result (W.contents writer.old) (W.contents writer.new) }
{
    match read_text(alloc, &mut text) {
        Ok(read) => check_read(alloc, teller, name, &read, warned, writer, told),
        Err(_) => FAILED,
    }
}

/// Runs `check` on the set that the command line names, and adds the lines of its warnings if it is accepted.
#[tactic(auto, using(crate::proofs::CheckedSets::of_own, crate::proofs::CheckedSets::failed))]
pub fn run_told<R: Runtime + AllocGlobal, H: Eprint, W: Write>(
    rt: &R,
    teller: &Teller<'_, H>,
    set: Named<'_>,
    warned: Warned,
    writer: &mut W,
    told: &mut Vec<u8>,
) -> u8
    ensures { IsCheckedBytes (own_text_of set.entry) warned result (W.contents writer.old) (W.contents writer.new) }
{
    let alloc = rt.alloc();
    match set {
        Named::Own(own) => check_told(alloc, teller, own.word(), own.text(), warned, writer, told),
        Named::Stdin => {
            let text = NamedReader::new(teller, STDIN, rt.reader());
            check_all(alloc, teller, set_word(&set), text, warned, writer, told)
        }
        Named::File(path) => match fs::open(rt, path) {
            Ok(file) => {
                let text = NamedReader::new(teller, path, file);
                check_all(alloc, teller, path, text, warned, writer, told)
            }
            Err(error) => teller.fail(path, &error),
        },
    }
}
