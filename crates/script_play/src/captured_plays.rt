//! The command `play` with a capture of the signal units sent and received.
ghost use Rattle.std.specs.Prelude.{◌≡◌, ◌⊎◌, List, ℕ, IfSome};
ghost use Rattle.plain_text.specs.Reading.{Keeps};
ghost use Rattle.script_check.specs.Checked.{given, IsAccepted};
ghost use Rattle.script_links.specs.TermScripts.{plain_any_script, IsInRange};
ghost use Rattle.script_links.specs.GroupScripts.{plain_play_script, IsFit};
ghost use Rattle.script_play.specs.Played.{IsOtherObeyed, IsObeyed, IsOtherMissed, IsMissedIn, HasNoOther, HasNoTerminal, IsNotRun, IsOnSet, IsRefused};
ghost use Rattle.script_play.specs.Seen.{IsOtherCaptured, AreCaptured, IsOtherCapturedInPart, AreCapturedInPart, IsPlayCaptured, IsPlayCapturedInPart};

use crate::captured_groups::capture_group;
use crate::captured_terminals::capture_terminal;
use crate::limits::usual_over;
use crate::playing::{explain, explain_length, refuse_script};
use crate::turns::turns_are_as_read;
use mtp2_text::TextLimits;
use plain_text::{FAILED, TextRead, line_at_limit, read_text, refuse, write_line};
use resend_store::RoundLimits;
use script_check::{SetWord, find_set, refuse_limit, refuse_set};
use script_lines::ScriptFault;
use script_links::{AnyScript, PlayScript, play_script_in};
use std::alloc::Global;
use std::io::{Read, Write};
use std::str;
use turn_check::Verified;

/// Writes that a book's script has no signal units. Returns the exit status.
fn lacks_units<E: Write>(alloc: Global, errors: &mut E) -> u8
    ensures { result ≡ 4 }
{
    let _told = write_line(
        alloc,
        errors,
        &"mtp2_play: a script of a book has no units to capture",
    );
    FAILED
}

/// Runs a script of a book or of a terminal, and captures its link. Returns the exit status.
fn capture_other<T: Write, W: Write, E: Write>(
    alloc: Global,
    set: &Verified,
    usual: RoundLimits,
    script: &AnyScript<'_>,
    every: bool,
    out: &mut T,
    writer: &mut W,
    errors: &mut E,
) -> u8
    requires { IsInRange script.now }
    ensures held { result ≡ 0 → IsOtherObeyed usual set.now (plain_any_script script.now) (W.contents writer.old) (W.contents writer.new) }
    ensures missed { result ≡ 1 → IsOtherMissed usual set.now (plain_any_script script.now) (W.contents writer.old) (W.contents writer.new) }
    ensures captured { result ≡ 0 → IsOtherCaptured usual every set.now (plain_any_script script.now) (T.contents out.old) (T.contents out.new) }
    ensures in_part { result ≡ 1 → IsOtherCapturedInPart usual every set.now (plain_any_script script.now) (T.contents out.old) (T.contents out.new) }
    ensures refused { result ≡ 2 → HasNoOther set.now (plain_any_script script.now) (W.contents writer.old) (W.contents writer.new) }
    ensures status { (result ≡ 0) ⊎ (result ≡ 1) ⊎ (result ≡ 2) ⊎ (result ≡ 4) }
{
    match script {
        AnyScript::Book(_) => lacks_units(alloc, errors),
        AnyScript::Terminal(script) => {
            capture_terminal(alloc, set, usual, script, every, out, writer)
        }
    }
}

/// Runs a script, and captures its links. Returns the exit status.
fn capture_script<T: Write, W: Write, E: Write>(
    alloc: Global,
    set: &Verified,
    usual: RoundLimits,
    script: &PlayScript<'_>,
    every: bool,
    out: &mut T,
    writer: &mut W,
    errors: &mut E,
) -> u8
    requires { IsFit script.now }
    ensures held { result ≡ 0 → IsObeyed usual set.now (plain_play_script script.now) (W.contents writer.old) (W.contents writer.new) }
    ensures missed { result ≡ 1 → IsMissedIn usual set.now (plain_play_script script.now) (W.contents writer.old) (W.contents writer.new) }
    ensures captured { result ≡ 0 → AreCaptured usual every set.now (plain_play_script script.now) (T.contents out.old) (T.contents out.new) }
    ensures in_part { result ≡ 1 → AreCapturedInPart usual every set.now (plain_play_script script.now) (T.contents out.old) (T.contents out.new) }
    ensures refused { result ≡ 2 → HasNoTerminal set.now (plain_play_script script.now) (W.contents writer.old) (W.contents writer.new) }
    ensures status { (result ≡ 0) ⊎ (result ≡ 1) ⊎ (result ≡ 2) ⊎ (result ≡ 4) }
{
    match script {
        PlayScript::Other(script) => {
            capture_other(alloc, set, usual, script, every, out, writer, errors)
        }
        PlayScript::Group(script) => {
            capture_group(alloc, set, usual, script, every, out, writer)
        }
    }
}

/// Runs the script of a text that was read, and captures its links. Returns the exit status.
fn capture_text<T: Write, W: Write, E: Write>(
    alloc: Global,
    set: &Verified,
    limits: TextLimits,
    read: &TextRead,
    every: bool,
    out: &mut T,
    writer: &mut W,
    errors: &mut E,
) -> u8
    ensures held { result ≡ 0 → (bytes : List ℕ) → Keeps bytes read.now
        → IsPlayCaptured limits every (W.contents writer.old) (W.contents writer.new) (T.contents out.old) (T.contents out.new) set.now bytes }
    ensures missed { result ≡ 1 → (bytes : List ℕ) → Keeps bytes read.now
        → IsPlayCapturedInPart limits every (W.contents writer.old) (W.contents writer.new) (T.contents out.old) (T.contents out.new) set.now bytes }
    ensures refused { result ≡ 2 → (bytes : List ℕ) → Keeps bytes read.now → IsNotRun limits (W.contents writer.old) (W.contents writer.new) set.now bytes }
    ensures status { (result ≡ 0) ⊎ (result ≡ 1) ⊎ (result ≡ 2) ⊎ (result ≡ 4) }
{
    if !read.is_text {
        return refuse(alloc, writer, &"refused F1 NotText");
    }
    if read.is_too_long() {
        let line = line_at_limit(&read.kept);
        explain_length(alloc, line, errors);
        return refuse_script(alloc, writer, ScriptFault::BadLine(line));
    }
    match str::from_utf8(&read.kept) {
        Ok(text) => match play_script_in(alloc, text) {
            Ok(script) => match usual_over(limits, &script) {
                Ok(usual) => capture_script(alloc, set, usual, &script, every, out, writer, errors),
                Err(limit) => refuse_limit(alloc, writer, limit),
            },
            Err(fault) => {
                explain(alloc, text, fault, errors);
                refuse_script(alloc, writer, fault)
            }
        },
        Err(_) => refuse(alloc, writer, &"refused F1 NotText"),
    }
}

/// Runs a script of a terminal or of a link set as `play` does without an echo, and captures its links in pcap's
/// format. A tick is a millisecond. The capture has the signal units that `out` prints and those received without
/// error, but repeated ones only if `every` is true. Each record is one write.
///
/// Returns the exit status, as `play` does: also 4 if a write to `out` fails, or for a book's script (it has no units).
pub(crate) fn play_captured<S: Read + Drop, R: Read + Drop, W: Write, T: Write, E: Write>(
    alloc: Global,
    set: SetWord<S>,
    name: &str,
    mut script: R,
    every: bool,
    out: &mut T,
    writer: &mut W,
    errors: &mut E,
) -> u8
    ensures accepted { (result ≡ 0) ⊎ (result ≡ 1) → IfSome (given S.remaining set) IsAccepted }
    ensures held { result ≡ 0
        → IsOnSet (given S.remaining set) (R.remaining script)
        (λ limits. IsPlayCaptured limits every (W.contents writer.old) (W.contents writer.new) (T.contents out.old) (T.contents out.new)) }
    ensures missed { result ≡ 1
        → IsOnSet (given S.remaining set) (R.remaining script)
        (λ limits. IsPlayCapturedInPart limits every (W.contents writer.old) (W.contents writer.new) (T.contents out.old) (T.contents out.new)) }
    ensures refused { result ≡ 2
        → IsRefused (given S.remaining set) (R.remaining script) (W.contents writer.old) (W.contents writer.new) }
    ensures status { (result ≡ 0) ⊎ (result ≡ 1) ⊎ (result ≡ 2) ⊎ (result ≡ 4) }
{
    let set = find_set(alloc, set);
    let read = read_text(alloc, &mut script);
    match set {
        Ok(found) => match read {
            Ok(read) => {
                turns_are_as_read(&found.set);
                capture_text(
                    alloc,
                    &found.set,
                    found.limits,
                    &read,
                    every,
                    out,
                    writer,
                    errors,
                )
            }
            Err(_) => FAILED,
        },
        Err(refusal) => refuse_set(alloc, name, &refusal, writer, errors),
    }
}
