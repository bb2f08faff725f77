//! The command `play` with a trace.
ghost use Rattle.std.specs.Prelude.{◌≡◌, ◌⊎◌, List, ℕ, IfSome};
ghost use Rattle.plain_text.specs.Reading.{Keeps};
ghost use Rattle.script_check.specs.Checked.{given, IsAccepted};
ghost use Rattle.script_links.specs.TermScripts.{plain_any_script, IsInRange};
ghost use Rattle.script_links.specs.GroupScripts.{plain_play_script, IsFit};
ghost use Rattle.script_lines.specs.Lines.{lines_of};
ghost use Rattle.script_play.specs.Played.{IsOtherObeyed, IsObeyed, IsOtherMissed, IsMissedIn, HasNoOther, HasNoTerminal, IsNotRun, IsOnSet, IsRefused};
ghost use Rattle.script_play.specs.Traced.{IsOtherTraced, AreTraced, IsPlayTraced, IsOtherTracedInPart, AreTracedInPart, IsPlayTracedInPart};

use crate::limits::usual_over;
use crate::playing::{explain, explain_length, refuse_script};
use crate::turns::turns_are_as_read;
use mtp2_text::TextLimits;
use plain_text::{FAILED, TextRead, line_at_limit, read_text, refuse};
use resend_store::RoundLimits;
use script_check::{SetWord, find_set, refuse_limit, refuse_set};
use script_lines::ScriptFault;
use script_links::{AnyScript, PlayScript, play_script_in};
use script_seen::{trace_book, trace_group, trace_terminal};
use std::alloc::Global;
use std::io::{Read, Write};
use std::str;
use turn_check::Verified;

/// Runs a script of a book or of a terminal, and traces it. Returns the exit status.
fn trace_other<W: Write, T: Write, E: Write>(
    alloc: Global,
    set: &Verified,
    usual: RoundLimits,
    script: &AnyScript<'_>,
    text: &str,
    every: bool,
    trace: &mut T,
    writer: &mut W,
    errors: &mut E,
) -> u8
    requires { IsInRange script.now }
    ensures held { result ≡ 0 → IsOtherObeyed usual set.now (plain_any_script script.now) (W.contents writer.old) (W.contents writer.new) }
    ensures missed { result ≡ 1 → IsOtherMissed usual set.now (plain_any_script script.now) (W.contents writer.old) (W.contents writer.new) }
    ensures traced { result ≡ 0
        → IsOtherTraced usual every (lines_of text.now) set.now (plain_any_script script.now) (T.contents trace.old) (T.contents trace.new) }
    ensures in_part { result ≡ 1
        → IsOtherTracedInPart usual every (lines_of text.now) set.now (plain_any_script script.now) (T.contents trace.old) (T.contents trace.new) }
    ensures refused { result ≡ 2 → HasNoOther set.now (plain_any_script script.now) (W.contents writer.old) (W.contents writer.new) }
    ensures status { (result ≡ 0) ⊎ (result ≡ 1) ⊎ (result ≡ 2) ⊎ (result ≡ 4) }
{
    match script {
        AnyScript::Book(script) => {
            trace_book(alloc, set, script, text, every, trace, writer, errors)
        }
        AnyScript::Terminal(script) => {
            trace_terminal(alloc, set, usual, script, text, every, trace, writer)
        }
    }
}

/// Runs a script, and traces it. Returns the exit status.
fn trace_script<W: Write, T: Write, E: Write>(
    alloc: Global,
    set: &Verified,
    usual: RoundLimits,
    script: &PlayScript<'_>,
    text: &str,
    every: bool,
    trace: &mut T,
    writer: &mut W,
    errors: &mut E,
) -> u8
    requires { IsFit script.now }
    ensures held { result ≡ 0 → IsObeyed usual set.now (plain_play_script script.now) (W.contents writer.old) (W.contents writer.new) }
    ensures missed { result ≡ 1 → IsMissedIn usual set.now (plain_play_script script.now) (W.contents writer.old) (W.contents writer.new) }
    ensures traced { result ≡ 0
        → AreTraced usual every (lines_of text.now) set.now (plain_play_script script.now) (T.contents trace.old) (T.contents trace.new) }
    ensures in_part { result ≡ 1
        → AreTracedInPart usual every (lines_of text.now) set.now (plain_play_script script.now) (T.contents trace.old) (T.contents trace.new) }
    ensures refused { result ≡ 2 → HasNoTerminal set.now (plain_play_script script.now) (W.contents writer.old) (W.contents writer.new) }
    ensures status { (result ≡ 0) ⊎ (result ≡ 1) ⊎ (result ≡ 2) ⊎ (result ≡ 4) }
{
    match script {
        PlayScript::Other(script) => {
            trace_other(
                alloc, set, usual, script, text, every, trace, writer, errors,
            )
        }
        PlayScript::Group(script) => {
            trace_group(alloc, set, usual, script, text, every, trace, writer)
        }
    }
}

/// Runs the script of a text that was read, and traces it. Returns the exit status.
fn trace_text<W: Write, T: Write, E: Write>(
    alloc: Global,
    set: &Verified,
    limits: TextLimits,
    read: &TextRead,
    every: bool,
    trace: &mut T,
    writer: &mut W,
    errors: &mut E,
) -> u8
    ensures held { result ≡ 0 → (bytes : List ℕ) → Keeps bytes read.now
        → IsPlayTraced limits every (W.contents writer.old) (W.contents writer.new) (T.contents trace.old) (T.contents trace.new) set.now bytes }
    ensures missed { result ≡ 1 → (bytes : List ℕ) → Keeps bytes read.now
        → IsPlayTracedInPart limits every (W.contents writer.old) (W.contents writer.new) (T.contents trace.old) (T.contents trace.new) set.now bytes }
    ensures refused { result ≡ 2 → (bytes : List ℕ) → Keeps bytes read.now → IsNotRun limits (W.contents writer.old) (W.contents writer.new) set.now bytes }
    ensures status { (result ≡ 0) ⊎ (result ≡ 1) ⊎ (result ≡ 2) ⊎ (result ≡ 4) }
{
    if !read.is_text {
        return refuse(alloc, writer, &"refused F1 NotText");
    }
    if read.is_too_long() {
        let line = line_at_limit(&read.kept);
        explain_length(alloc, line, errors);
        return refuse_script(alloc, writer, ScriptFault::BadLine(line));
    }
    match str::from_utf8(&read.kept) {
        Ok(text) => match play_script_in(alloc, text) {
            Ok(script) => match usual_over(limits, &script) {
                Ok(usual) => trace_script(
                    alloc, set, usual, &script, text, every, trace, writer, errors,
                ),
                Err(limit) => refuse_limit(alloc, writer, limit),
            },
            Err(fault) => {
                explain(alloc, text, fault, errors);
                refuse_script(alloc, writer, fault)
            }
        },
        Err(_) => refuse(alloc, writer, &"refused F1 NotText"),
    }
}

/// Runs a script as `play` does without an echo, and traces it to `trace`: each command's line of the script, except
/// for `state`, `value`, `measure NAME` and `expect`, followed by a line for each event that it caused, in the order of
/// the journal. If `every` is true, discarded signals and dull turns (same state, no effect) have lines too.
///
/// Returns the exit status, as `play` does. It is also 4 if a write to `trace` fails, or if the journal of a terminal,
/// or of a link of a set, restarts within a command.
pub(crate) fn play_traced<S: Read + Drop, R: Read + Drop, W: Write, T: Write, E: Write>(
    alloc: Global,
    set: SetWord<S>,
    name: &str,
    mut script: R,
    every: bool,
    trace: &mut T,
    writer: &mut W,
    errors: &mut E,
) -> u8
    ensures accepted { (result ≡ 0) ⊎ (result ≡ 1) → IfSome (given S.remaining set) IsAccepted }
    ensures held { result ≡ 0
        → IsOnSet (given S.remaining set) (R.remaining script)
        (λ limits. IsPlayTraced limits every (W.contents writer.old) (W.contents writer.new) (T.contents trace.old) (T.contents trace.new)) }
    ensures missed { result ≡ 1
        → IsOnSet (given S.remaining set) (R.remaining script)
        (λ limits. IsPlayTracedInPart limits every (W.contents writer.old) (W.contents writer.new) (T.contents trace.old) (T.contents trace.new)) }
    ensures refused { result ≡ 2
        → IsRefused (given S.remaining set) (R.remaining script) (W.contents writer.old) (W.contents writer.new) }
    ensures status { (result ≡ 0) ⊎ (result ≡ 1) ⊎ (result ≡ 2) ⊎ (result ≡ 4) }
{
    let set = find_set(alloc, set);
    let read = read_text(alloc, &mut script);
    match set {
        Ok(found) => match read {
            Ok(read) => {
                turns_are_as_read(&found.set);
                trace_text(
                    alloc,
                    &found.set,
                    found.limits,
                    &read,
                    every,
                    trace,
                    writer,
                    errors,
                )
            }
            Err(_) => FAILED,
        },
        Err(refusal) => refuse_set(alloc, name, &refusal, writer, errors),
    }
}
