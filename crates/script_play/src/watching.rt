//! The command `play` with a report at its end: a chart, or the signals discarded.
ghost use Rattle.std.specs.Prelude.{◌≡◌, ◌⊎◌, ℕ, [], List, IfSome};
ghost use Rattle.plain_text.specs.Reading.{Keeps};
ghost use Rattle.script_check.specs.Checked.{given, IsAccepted};
ghost use Rattle.script_links.specs.TermScripts.{plain_any_script, IsInRange};
ghost use Rattle.script_links.specs.GroupScripts.{plain_play_script, IsFit};
ghost use Rattle.script_play.specs.Played.{IsOtherObeyed, IsObeyed, IsOtherMissed, IsMissedIn, HasNoOther, HasNoTerminal, IsNotRun, IsOnSet, IsRefused};
ghost use Rattle.script_play.specs.Seen.{IsOtherTold, AreTold, IsOtherToldInPart, AreToldInPart, IsPlayTold, IsPlayToldInPart, IsToldTo, Grew, told_of};
ghost use Rattle.script_play.specs.Charted.{charted_of};
ghost use Rattle.script_play.specs.Thrown.{thrown_of};

use crate::charts::{Chart, Cut};
use crate::limits::usual_over;
use crate::playing::{explain, explain_length, refuse_script};
use crate::thrown::Thrown;
use crate::turns::turns_are_as_read;
use mtp2_text::TextLimits;
use plain_text::{DONE, FAILED, TextRead, line_at_limit, read_text, refuse, write_line};
use resend_store::RoundLimits;
use script_book::MISSED;
use script_check::{SetWord, find_set, refuse_limit, refuse_set};
use script_lines::ScriptFault;
use script_links::{AnyScript, PlayScript, play_script_in};
use script_seen::{Watcher, watch_book, watch_terminal};
use std::alloc::{AllocError, Global};
use std::io::{Read, Write};
use std::str;
use turn_check::Verified;

/// Runs a script of a book or of a terminal, and notifies a watcher of its events. Returns the exit status.
fn watch_other<N: Watcher, W: Write, E: Write>(
    alloc: Global,
    set: &Verified,
    usual: RoundLimits,
    script: &AnyScript<'_>,
    watcher: &mut N,
    writer: &mut W,
    errors: &mut E,
) -> u8
    requires { IsInRange script.now }
    ensures held { result ≡ 0 → IsOtherObeyed usual set.now (plain_any_script script.now) (W.contents writer.old) (W.contents writer.new) }
    ensures missed { result ≡ 1 → IsOtherMissed usual set.now (plain_any_script script.now) (W.contents writer.old) (W.contents writer.new) }
    ensures watched { result ≡ 0 → N.knows set.now [] watcher.old → IsOtherTold usual set.now (plain_any_script script.now) (λ ns. N.knows set.now ns watcher.new) }
    ensures in_part { result ≡ 1 → N.knows set.now [] watcher.old → IsOtherToldInPart usual set.now (plain_any_script script.now) (λ ns. N.knows set.now ns watcher.new) }
    ensures refused { result ≡ 2 → HasNoOther set.now (plain_any_script script.now) (W.contents writer.old) (W.contents writer.new) }
    ensures status { (result ≡ 0) ⊎ (result ≡ 1) ⊎ (result ≡ 2) ⊎ (result ≡ 4) }
{
    match script {
        AnyScript::Book(script) => watch_book(alloc, set, script, watcher, writer, errors),
        AnyScript::Terminal(script) => watch_terminal(alloc, set, usual, script, watcher, writer),
    }
}

/// Writes that a script of a link set has no report at its end. Returns the exit status.
fn lacks_watcher<E: Write>(alloc: Global, errors: &mut E) -> u8
    ensures { result ≡ 4 }
{
    let _told = write_line(
        alloc,
        errors,
        &"mtp2_play: a chart, coverage, and what is thrown away, are told of a script of a book or a terminal",
    );
    FAILED
}

/// Runs a script, and notifies a watcher of its events. Returns the exit status.
fn watch_script<N: Watcher, W: Write, E: Write>(
    alloc: Global,
    set: &Verified,
    usual: RoundLimits,
    script: &PlayScript<'_>,
    watcher: &mut N,
    writer: &mut W,
    errors: &mut E,
) -> u8
    requires { IsFit script.now }
    ensures held { result ≡ 0 → IsObeyed usual set.now (plain_play_script script.now) (W.contents writer.old) (W.contents writer.new) }
    ensures missed { result ≡ 1 → IsMissedIn usual set.now (plain_play_script script.now) (W.contents writer.old) (W.contents writer.new) }
    ensures watched { result ≡ 0 → N.knows set.now [] watcher.old → AreTold usual set.now (plain_play_script script.now) (λ ns. N.knows set.now ns watcher.new) }
    ensures in_part { result ≡ 1 → N.knows set.now [] watcher.old → AreToldInPart usual set.now (plain_play_script script.now) (λ ns. N.knows set.now ns watcher.new) }
    ensures refused { result ≡ 2 → HasNoTerminal set.now (plain_play_script script.now) (W.contents writer.old) (W.contents writer.new) }
    ensures status { (result ≡ 0) ⊎ (result ≡ 1) ⊎ (result ≡ 2) ⊎ (result ≡ 4) }
{
    match script {
        PlayScript::Other(script) => {
            watch_other(alloc, set, usual, script, watcher, writer, errors)
        }
        PlayScript::Group(_) => lacks_watcher(alloc, errors),
    }
}

/// Runs the script of a text that was read, and notifies a watcher of its events. Returns the exit status.
pub(crate) fn watch_text<N: Watcher, W: Write, E: Write>(
    alloc: Global,
    set: &Verified,
    limits: TextLimits,
    read: &TextRead,
    watcher: &mut N,
    writer: &mut W,
    errors: &mut E,
) -> u8
    ensures held { result ≡ 0 → N.knows set.now [] watcher.old → (bytes : List ℕ) → Keeps bytes read.now
        → IsPlayTold limits (W.contents writer.old) (W.contents writer.new) (λ ns. N.knows set.now ns watcher.new) set.now bytes }
    ensures missed { result ≡ 1 → N.knows set.now [] watcher.old → (bytes : List ℕ) → Keeps bytes read.now
        → IsPlayToldInPart limits (W.contents writer.old) (W.contents writer.new) (λ ns. N.knows set.now ns watcher.new) set.now bytes }
    ensures refused { result ≡ 2 → (bytes : List ℕ) → Keeps bytes read.now → IsNotRun limits (W.contents writer.old) (W.contents writer.new) set.now bytes }
    ensures status { (result ≡ 0) ⊎ (result ≡ 1) ⊎ (result ≡ 2) ⊎ (result ≡ 4) }
{
    if !read.is_text {
        return refuse(alloc, writer, &"refused F1 NotText");
    }
    if read.is_too_long() {
        let line = line_at_limit(&read.kept);
        explain_length(alloc, line, errors);
        return refuse_script(alloc, writer, ScriptFault::BadLine(line));
    }
    match str::from_utf8(&read.kept) {
        Ok(text) => match play_script_in(alloc, text) {
            Ok(script) => match usual_over(limits, &script) {
                Ok(usual) => watch_script(alloc, set, usual, &script, watcher, writer, errors),
                Err(limit) => refuse_limit(alloc, writer, limit),
            },
            Err(fault) => {
                explain(alloc, text, fault, errors);
                refuse_script(alloc, writer, fault)
            }
        },
        Err(_) => refuse(alloc, writer, &"refused F1 NotText"),
    }
}

/// Writes the report of a run that came to its end, or to an expectation that failed. Returns the exit status.
pub(crate) fn tell<T: Write>(status: u8, told: Result<Vec<u8>, AllocError>, out: &mut T) -> u8
    ensures status { (result ≡ status) ⊎ (result ≡ 4) }
    ensures told { (result ≡ 0) ⊎ (result ≡ 1) → IsToldTo told (T.contents out.old) (T.contents out.new) }
{
    if status != DONE && status != MISSED {
        return status;
    }
    match told {
        Ok(text) => match out.write_all(&text) {
            Ok(()) => status,
            Err(_) => FAILED,
        },
        Err(_) => FAILED,
    }
}

/// Runs the script of a text that was read, and reports the signals discarded. Returns the exit status.
fn tell_thrown<T: Write, W: Write, E: Write>(
    alloc: Global,
    set: &Verified,
    limits: TextLimits,
    read: &TextRead,
    out: &mut T,
    writer: &mut W,
    errors: &mut E,
) -> u8
    ensures held { result ≡ 0 → (bytes : List ℕ) → Keeps bytes read.now
        → IsPlayTold limits (W.contents writer.old) (W.contents writer.new) (Grew thrown_of set.now (T.contents out.old) (T.contents out.new)) set.now bytes }
    ensures missed { result ≡ 1 → (bytes : List ℕ) → Keeps bytes read.now
        → IsPlayToldInPart limits (W.contents writer.old) (W.contents writer.new) (Grew thrown_of set.now (T.contents out.old) (T.contents out.new)) set.now bytes }
    ensures refused { result ≡ 2 → (bytes : List ℕ) → Keeps bytes read.now → IsNotRun limits (W.contents writer.old) (W.contents writer.new) set.now bytes }
    ensures status { (result ≡ 0) ⊎ (result ≡ 1) ⊎ (result ≡ 2) ⊎ (result ≡ 4) }
{
    let mut thrown = Thrown::new(alloc);
    let status = watch_text(alloc, set, limits, read, &mut thrown, writer, errors);
    tell(status, thrown.text(alloc, set), out)
}

/// Runs the script of a text that was read, and draws a chart of its turns. Returns the exit status.
fn tell_chart<T: Write, W: Write, E: Write>(
    alloc: Global,
    set: &Verified,
    limits: TextLimits,
    read: &TextRead,
    cut: Cut,
    out: &mut T,
    writer: &mut W,
    errors: &mut E,
) -> u8
    ensures held { result ≡ 0 → (bytes : List ℕ) → Keeps bytes read.now
        → IsPlayTold limits (W.contents writer.old) (W.contents writer.new) (Grew (charted_of cut) set.now (T.contents out.old) (T.contents out.new)) set.now bytes }
    ensures missed { result ≡ 1 → (bytes : List ℕ) → Keeps bytes read.now
        → IsPlayToldInPart limits (W.contents writer.old) (W.contents writer.new) (Grew (charted_of cut) set.now (T.contents out.old) (T.contents out.new)) set.now bytes }
    ensures refused { result ≡ 2 → (bytes : List ℕ) → Keeps bytes read.now → IsNotRun limits (W.contents writer.old) (W.contents writer.new) set.now bytes }
    ensures status { (result ≡ 0) ⊎ (result ≡ 1) ⊎ (result ≡ 2) ⊎ (result ≡ 4) }
{
    let mut chart = Chart::new(alloc, cut);
    let status = watch_text(alloc, set, limits, read, &mut chart, writer, errors);
    tell(status, chart.text(alloc, set, cut), out)
}

/// The report at the end of a run.
#[derive(Clone, Copy, PartialEq, Eq, Debug)]
pub enum RunSummary {
    /// A chart of these turns.
    Chart(Cut),
    /// The signals and timers discarded, by state, and how often.
    Thrown,
}

/// Runs the script of a text that was read, and writes this report. Returns the exit status.
fn tell_run<T: Write, W: Write, E: Write>(
    alloc: Global,
    set: &Verified,
    limits: TextLimits,
    read: &TextRead,
    told: RunSummary,
    out: &mut T,
    writer: &mut W,
    errors: &mut E,
) -> u8
    ensures held { result ≡ 0 → (bytes : List ℕ) → Keeps bytes read.now
        → IsPlayTold limits (W.contents writer.old) (W.contents writer.new) (Grew (told_of told) set.now (T.contents out.old) (T.contents out.new)) set.now bytes }
    ensures missed { result ≡ 1 → (bytes : List ℕ) → Keeps bytes read.now
        → IsPlayToldInPart limits (W.contents writer.old) (W.contents writer.new) (Grew (told_of told) set.now (T.contents out.old) (T.contents out.new)) set.now bytes }
    ensures refused { result ≡ 2 → (bytes : List ℕ) → Keeps bytes read.now → IsNotRun limits (W.contents writer.old) (W.contents writer.new) set.now bytes }
    ensures status { (result ≡ 0) ⊎ (result ≡ 1) ⊎ (result ≡ 2) ⊎ (result ≡ 4) }
{
    match told {
        RunSummary::Chart(cut) => tell_chart(alloc, set, limits, read, cut, out, writer, errors),
        RunSummary::Thrown => tell_thrown(alloc, set, limits, read, out, writer, errors),
    }
}

/// Runs a script of a book or of a terminal as `play` does without an echo. At its end, or at an expectation that
/// fails, it writes a report to `out`: a chart of its turns in mscgen's language; or the signals and timers discarded,
/// by state, a line `PROCESS STATE/SIGNAL N` for each with its count, in the order of first occurrence.
///
/// Returns the exit status, as `play` does. It is also 4 if the write to `out` fails, if a terminal's journal restarts
/// within a command (after 32,768 events), and for a script of a link set.
pub(crate) fn play_told<S: Read + Drop, R: Read + Drop, T: Write, W: Write, E: Write>(
    alloc: Global,
    set: SetWord<S>,
    name: &str,
    mut script: R,
    told: RunSummary,
    out: &mut T,
    writer: &mut W,
    errors: &mut E,
) -> u8
    ensures accepted { (result ≡ 0) ⊎ (result ≡ 1) → IfSome (given S.remaining set) IsAccepted }
    ensures held { result ≡ 0 → IsOnSet (given S.remaining set) (R.remaining script)
        (λ limits d. IsPlayTold limits (W.contents writer.old) (W.contents writer.new) (Grew (told_of told) d (T.contents out.old) (T.contents out.new)) d) }
    ensures missed { result ≡ 1 → IsOnSet (given S.remaining set) (R.remaining script)
        (λ limits d. IsPlayToldInPart limits (W.contents writer.old) (W.contents writer.new) (Grew (told_of told) d (T.contents out.old) (T.contents out.new)) d) }
    ensures refused { result ≡ 2
        → IsRefused (given S.remaining set) (R.remaining script) (W.contents writer.old) (W.contents writer.new) }
    ensures status { (result ≡ 0) ⊎ (result ≡ 1) ⊎ (result ≡ 2) ⊎ (result ≡ 4) }
{
    let set = find_set(alloc, set);
    let read = read_text(alloc, &mut script);
    match set {
        Ok(found) => match read {
            Ok(read) => {
                turns_are_as_read(&found.set);
                tell_run(
                    alloc,
                    &found.set,
                    found.limits,
                    &read,
                    told,
                    out,
                    writer,
                    errors,
                )
            }
            Err(_) => FAILED,
        },
        Err(refusal) => refuse_set(alloc, name, &refusal, writer, errors),
    }
}
