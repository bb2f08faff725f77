//! The command `play` with a report at its end on the coverage of the set's text, in the format of lcov.
ghost use Rattle.std.specs.Prelude.{◌≡◌, ◌⊎◌, ℕ, List, IfSome, Option as Maybe, Some};
ghost use Rattle.plain_text.specs.Reading.{Keeps, IsReading};
ghost use Rattle.sdl_ast.specs.Views.{block_of};
ghost use Rattle.script_check.specs.Checked.{given, IsAccepted};
ghost use Rattle.script_covered.specs.Texts.{IsTextOf};
ghost use Rattle.script_play.specs.Played.{IsNotRun, IsOnSet, IsRefused};
ghost use Rattle.script_play.specs.Seen.{IsPlayTold, IsPlayToldInPart, IsCoveredBy, IsTextCovered, IsTextCoveredInPart};

use crate::turns::turns_are_as_read;
use crate::watching::{tell, watch_text};
use actor_machine::ActorName;
use mtp2_text::TextLimits;
use plain_text::{FAILED, TextRead, read_text, write_line};
use script_check::{SetWord, find_set, refuse_set};
use script_covered::{BlockTable, TextCoverage, expand, parse, tokens};
use script_seen::{Ended, Item, Watcher};
use sdl_ast::Block;
use std::alloc::Global;
use std::io::{self, Read, Write};
use std::str;
use turn_check::Verified;
use turn_code::StateNumber;

/// A watcher that keeps the coverage of a text.
#[derive(Drop)]
struct Covering<'a, 'b> {
    coverage: TextCoverage<'a, 'b>,
}

impl Watcher for Covering<'_, '_> {
    ghost use Rattle.script_covered.specs.Texts.{IsCovering};
    ghost use Rattle.script_play.specs.Seen.{turns_run};

    ghost knows = { λ d ns c. IsCovering (turns_run ns) c.coverage };

    fn end(&mut self, _alloc: Global, _set: &Verified, ended: &Ended) -> io::Result<()> {
        Ok(self.coverage.take(&ended.done)?)
    }

    fn throw(
        &mut self,
        _alloc: Global,
        _set: &Verified,
        _me: ActorName,
        _state: StateNumber,
        _item: &Item,
    ) -> io::Result<()> {
        Ok(())
    }
}

/// Runs the script of a text that was read, and reports the coverage of its set's text, which has these tables.
fn cover_block<T: Write, W: Write, E: Write>(
    alloc: Global,
    set: &Verified,
    text: &str,
    name: &str,
    block: &BlockTable<'_>,
    limits: TextLimits,
    read: &TextRead,
    out: &mut T,
    writer: &mut W,
    errors: &mut E,
) -> u8
    requires { IsTextOf text.now (block_of block.now) }
    ensures held { result ≡ 0 → (bytes : List ℕ) → Keeps bytes read.now
        → IsPlayTold limits (W.contents writer.old) (W.contents writer.new) (IsCoveredBy name.now text.now (T.contents out.old) (T.contents out.new)) set.now bytes }
    ensures missed { result ≡ 1 → (bytes : List ℕ) → Keeps bytes read.now
        → IsPlayToldInPart limits (W.contents writer.old) (W.contents writer.new) (IsCoveredBy name.now text.now (T.contents out.old) (T.contents out.new)) set.now bytes }
    ensures refused { result ≡ 2 → (bytes : List ℕ) → Keeps bytes read.now → IsNotRun limits (W.contents writer.old) (W.contents writer.new) set.now bytes }
    ensures status { (result ≡ 0) ⊎ (result ≡ 1) ⊎ (result ≡ 2) ⊎ (result ≡ 4) }
{
    match TextCoverage::new(alloc, text, block) {
        Ok(coverage) => {
            let mut covering = Covering { coverage };
            let status = watch_text(alloc, set, limits, read, &mut covering, writer, errors);
            let told = covering.coverage.report(alloc, name, text);
            tell(status, told, out)
        }
        Err(_) => FAILED,
    }
}

/// Reports the coverage of the block that the text means.
fn cover_tree<T: Write, W: Write, E: Write>(
    alloc: Global,
    set: &Verified,
    text: &str,
    name: &str,
    block: &Block,
    limits: TextLimits,
    read: &TextRead,
    out: &mut T,
    writer: &mut W,
    errors: &mut E,
) -> u8
    requires { IsTextOf text.now (block_of block.now) }
    ensures held { result ≡ 0 → (bytes : List ℕ) → Keeps bytes read.now
        → IsPlayTold limits (W.contents writer.old) (W.contents writer.new) (IsCoveredBy name.now text.now (T.contents out.old) (T.contents out.new)) set.now bytes }
    ensures missed { result ≡ 1 → (bytes : List ℕ) → Keeps bytes read.now
        → IsPlayToldInPart limits (W.contents writer.old) (W.contents writer.new) (IsCoveredBy name.now text.now (T.contents out.old) (T.contents out.new)) set.now bytes }
    ensures refused { result ≡ 2 → (bytes : List ℕ) → Keeps bytes read.now → IsNotRun limits (W.contents writer.old) (W.contents writer.new) set.now bytes }
    ensures status { (result ≡ 0) ⊎ (result ≡ 1) ⊎ (result ≡ 2) ⊎ (result ≡ 4) }
{
    match BlockTable::new(alloc, block) {
        Ok(table) => cover_block(
            alloc, set, text, name, &table, limits, read, out, writer, errors,
        ),
        Err(_) => FAILED,
    }
}

/// Runs the script of a text that was read, and reports the coverage of its set's text.
fn cover<T: Write, W: Write, E: Write>(
    alloc: Global,
    set: &Verified,
    text: &str,
    name: &str,
    limits: TextLimits,
    read: &TextRead,
    out: &mut T,
    writer: &mut W,
    errors: &mut E,
) -> u8
    ensures held { result ≡ 0 → (bytes : List ℕ) → Keeps bytes read.now
        → IsPlayTold limits (W.contents writer.old) (W.contents writer.new) (IsCoveredBy name.now text.now (T.contents out.old) (T.contents out.new)) set.now bytes }
    ensures missed { result ≡ 1 → (bytes : List ℕ) → Keeps bytes read.now
        → IsPlayToldInPart limits (W.contents writer.old) (W.contents writer.new) (IsCoveredBy name.now text.now (T.contents out.old) (T.contents out.new)) set.now bytes }
    ensures refused { result ≡ 2 → (bytes : List ℕ) → Keeps bytes read.now → IsNotRun limits (W.contents writer.old) (W.contents writer.new) set.now bytes }
    ensures status { (result ≡ 0) ⊎ (result ≡ 1) ⊎ (result ≡ 2) ⊎ (result ≡ 4) }
{
    match tokens(alloc, text) {
        Ok(tokens) => match parse(alloc, &tokens) {
            Ok(tree) => match expand(alloc, &tree) {
                Ok(expansion) => cover_tree(
                    alloc,
                    set,
                    text,
                    name,
                    &expansion.block,
                    limits,
                    read,
                    out,
                    writer,
                    errors,
                ),
                Err(_) => FAILED,
            },
            Err(_) => FAILED,
        },
        Err(_) => FAILED,
    }
}

/// Runs the script of a text that was read, and reports the coverage of its set's text, which has these bytes.
fn cover_set<T: Write, W: Write, E: Write>(
    alloc: Global,
    set: &Verified,
    bytes: &[u8],
    name: &str,
    limits: TextLimits,
    read: &TextRead,
    out: &mut T,
    writer: &mut W,
    errors: &mut E,
) -> u8
    ensures held { result ≡ 0 → (said : List ℕ) → Keeps said read.now
        → IsPlayTold limits (W.contents writer.old) (W.contents writer.new) (IsCoveredBy name.now bytes.now (T.contents out.old) (T.contents out.new)) set.now said }
    ensures missed { result ≡ 1 → (said : List ℕ) → Keeps said read.now
        → IsPlayToldInPart limits (W.contents writer.old) (W.contents writer.new) (IsCoveredBy name.now bytes.now (T.contents out.old) (T.contents out.new)) set.now said }
    ensures refused { result ≡ 2 → (said : List ℕ) → Keeps said read.now → IsNotRun limits (W.contents writer.old) (W.contents writer.new) set.now said }
    ensures status { (result ≡ 0) ⊎ (result ≡ 1) ⊎ (result ≡ 2) ⊎ (result ≡ 4) }
{
    match str::from_utf8(bytes) {
        Ok(text) => cover(alloc, set, text, name, limits, read, out, writer, errors),
        Err(_) => FAILED,
    }
}

/// Runs a script on the set of a text, which has these bytes, and reports the text's coverage. Returns the exit status.
fn cover_bytes<R: Read + Drop, T: Write, W: Write, E: Write>(
    alloc: Global,
    bytes: &[u8],
    name: &str,
    mut script: R,
    out: &mut T,
    writer: &mut W,
    errors: &mut E,
) -> u8
    ensures accepted { (result ≡ 0) ⊎ (result ≡ 1) → IsAccepted bytes.now }
    ensures held { result ≡ 0 → IsOnSet (Some bytes.now) (R.remaining script)
        (λ limits. IsTextCovered name.now (Some bytes.now) limits (W.contents writer.old) (W.contents writer.new) (T.contents out.old) (T.contents out.new)) }
    ensures missed { result ≡ 1 → IsOnSet (Some bytes.now) (R.remaining script)
        (λ limits. IsTextCoveredInPart name.now (Some bytes.now) limits (W.contents writer.old) (W.contents writer.new) (T.contents out.old) (T.contents out.new)) }
    ensures refused { result ≡ 2 → IsRefused (Some bytes.now) (R.remaining script) (W.contents writer.old) (W.contents writer.new) }
    ensures status { (result ≡ 0) ⊎ (result ≡ 1) ⊎ (result ≡ 2) ⊎ (result ≡ 4) }
{
    let set = find_set(alloc, SetWord::Text(bytes));
    let read = read_text(alloc, &mut script);
    match set {
        Ok(found) => match read {
            Ok(read) => {
                turns_are_as_read(&found.set);
                cover_set(
                    alloc,
                    &found.set,
                    bytes,
                    name,
                    found.limits,
                    &read,
                    out,
                    writer,
                    errors,
                )
            }
            Err(_) => FAILED,
        },
        Err(refusal) => refuse_set(alloc, name, &refusal, writer, errors),
    }
}

/// Runs a script on the set of a built-in text, and reports the text's coverage. Returns the exit status.
fn cover_own<R: Read + Drop, T: Write, W: Write, E: Write>(
    alloc: Global,
    text: &str,
    name: &str,
    script: R,
    out: &mut T,
    writer: &mut W,
    errors: &mut E,
) -> u8
    ensures accepted { (result ≡ 0) ⊎ (result ≡ 1) → IsAccepted text.now }
    ensures held { result ≡ 0 → IsOnSet (Some text.now) (R.remaining script)
        (λ limits. IsTextCovered name.now (Some text.now) limits (W.contents writer.old) (W.contents writer.new) (T.contents out.old) (T.contents out.new)) }
    ensures missed { result ≡ 1 → IsOnSet (Some text.now) (R.remaining script)
        (λ limits. IsTextCoveredInPart name.now (Some text.now) limits (W.contents writer.old) (W.contents writer.new) (T.contents out.old) (T.contents out.new)) }
    ensures refused { result ≡ 2 → IsRefused (Some text.now) (R.remaining script) (W.contents writer.old) (W.contents writer.new) }
    ensures status { (result ≡ 0) ⊎ (result ≡ 1) ⊎ (result ≡ 2) ⊎ (result ≡ 4) }
{
    let bytes = text.as_bytes();
    cover_bytes(alloc, bytes, name, script, out, writer, errors)
}

/// Writes that a text has more octets than allowed. Returns the exit status.
fn tell_too_long<E: Write>(alloc: Global, name: &str, errors: &mut E) -> u8
    ensures { result ≡ 4 }
{
    let _name = errors.write_all(name.as_bytes());
    let _told = write_line(alloc, errors, &": a text has 262144 octets at most");
    FAILED
}

/// Runs a script on the set of a text that was read, and reports the text's coverage. Returns the exit status.
fn cover_read<R: Read + Drop, T: Write, W: Write, E: Write>(
    alloc: Global,
    of_set: &TextRead,
    name: &str,
    script: R,
    out: &mut T,
    writer: &mut W,
    errors: &mut E,
) -> u8
    ensures accepted { (result ≡ 0) ⊎ (result ≡ 1) → (known : Maybe (List ℕ)) → IsReading known of_set.now → IfSome known IsAccepted }
    ensures held { result ≡ 0 → (known : Maybe (List ℕ)) → IsReading known of_set.now → IsOnSet known (R.remaining script)
        (λ limits. IsTextCovered name.now known limits (W.contents writer.old) (W.contents writer.new) (T.contents out.old) (T.contents out.new)) }
    ensures missed { result ≡ 1 → (known : Maybe (List ℕ)) → IsReading known of_set.now → IsOnSet known (R.remaining script)
        (λ limits. IsTextCoveredInPart name.now known limits (W.contents writer.old) (W.contents writer.new) (T.contents out.old) (T.contents out.new)) }
    ensures refused { result ≡ 2 → (known : Maybe (List ℕ)) → IsReading known of_set.now
        → IsRefused known (R.remaining script) (W.contents writer.old) (W.contents writer.new) }
    ensures status { (result ≡ 0) ⊎ (result ≡ 1) ⊎ (result ≡ 2) ⊎ (result ≡ 4) }
{
    if of_set.is_too_long() {
        return tell_too_long(alloc, name, errors);
    }
    cover_bytes(alloc, &of_set.kept, name, script, out, writer, errors)
}

/// Runs a script of a book or of a terminal as `play` does without an echo. At its end, or at an expectation that
/// fails, it reports the coverage of the set's text in the format of lcov; `name` is the file name of the text in it.
///
/// Returns the exit status, as `play` does. It is also 4 if the write to `out` fails, if a terminal's journal restarts
/// within a command (after 32,768 events), for a script of a link set, and if the text has more octets than allowed.
pub(crate) fn play_covered<S: Read + Drop, R: Read + Drop, T: Write, W: Write, E: Write>(
    alloc: Global,
    set: SetWord<S>,
    name: &str,
    script: R,
    out: &mut T,
    writer: &mut W,
    errors: &mut E,
) -> u8
    ensures accepted { (result ≡ 0) ⊎ (result ≡ 1) → IfSome (given S.remaining set) IsAccepted }
    ensures held { result ≡ 0 → IsOnSet (given S.remaining set) (R.remaining script)
        (λ limits. IsTextCovered name.now (given S.remaining set) limits (W.contents writer.old) (W.contents writer.new) (T.contents out.old) (T.contents out.new)) }
    ensures missed { result ≡ 1 → IsOnSet (given S.remaining set) (R.remaining script)
        (λ limits. IsTextCoveredInPart name.now (given S.remaining set) limits (W.contents writer.old) (W.contents writer.new) (T.contents out.old) (T.contents out.new)) }
    ensures refused { result ≡ 2
        → IsRefused (given S.remaining set) (R.remaining script) (W.contents writer.old) (W.contents writer.new) }
    ensures status { (result ≡ 0) ⊎ (result ≡ 1) ⊎ (result ≡ 2) ⊎ (result ≡ 4) }
{
    match set.own() {
        Ok(own) => cover_own(alloc, own.text(), name, script, out, writer, errors),
        Err(mut reader) => match read_text(alloc, &mut reader) {
            Ok(of_set) => cover_read(alloc, &of_set, name, script, out, writer, errors),
            Err(_) => FAILED,
        },
    }
}
