//! The command `play`.
ghost use Rattle.std.specs.Prelude.{◌≡◌, ◌⊎◌, List, ℕ, IfSome};
ghost use Rattle.plain_text.specs.Reading.{Keeps};
ghost use Rattle.script_check.specs.Checked.{given, IsAccepted};
ghost use Rattle.script_links.specs.TermScripts.{plain_any_script, IsInRange};
ghost use Rattle.script_links.specs.GroupScripts.{plain_play_script, IsFit};
ghost use Rattle.script_lines.specs.Lines.{lines_of};
ghost use Rattle.script_play.specs.Played.{IsOtherShown, IsOtherShownMissed, AreShown, AreShownMissed, IsObeyedAs, IsMissedAs, IsOtherObeyed, IsObeyed, IsPlayed, IsOtherMissed, IsMissedIn, IsPlayedInPart, HasNoOther, HasNoTerminal, IsNotRun, PrintsFault, IsOnSet, IsRefused};

use crate::limits::usual_over;
use crate::turns::turns_are_as_read;
use mtp2_text::TextLimits;
use plain_text::{FAILED, MOST_BYTES, TextRead, line_at_limit, read_text, refuse, write_line};
use resend_store::RoundLimits;
use script_book::play_book;
use script_check::{SetWord, find_set, refuse_limit, refuse_set};
use script_lines::ScriptFault;
use script_links::{AnyScript, PlayScript, play_fault, play_script_in};
use script_seen::{play_group, play_terminal, show_book, show_group, show_terminal};
use std::alloc::Global;
use std::io::{Read, Write};
use std::str;
use turn_check::Verified;

/// Runs a script on a process set, and prints a line for each command except `on` and `expect`, and for each signal
/// unit sent. If its first line is `terminal basic`, `terminal cyclic` or `terminal cyclic N1 N2`, it runs on a
/// signalling link terminal that runs the set. If that is `group basic N` or `group cyclic N`, it runs on N links
/// between two points with such terminals.
///
/// The limits of forced retransmission are those of a first line `terminal cyclic N1 N2`, else those of the set's text,
/// else 127 messages and 8,192 octets.
///
/// If `echo` is true, each command's line precedes its output: `> ` and its words, separated by one space.
///
/// Both texts are read whole, the set and then the script, before anything is written. A refusal of the set comes
/// before one of the script. A bad line of the script is refused before anything runs; then, for a script of a terminal
/// or of links, a limit of the text that applies and is out of its range, then a set that lacks a name that a terminal
/// needs. Each line is one write.
///
/// Returns the exit status. 0: each command ran and its line was written. 1: an expectation failed (`failed line N`).
/// 2: the set or the script was refused (only `refused CODE Name ..`). 4: out of memory, or a read or a write failed.
/// Nothing is written after a write that failed. `errors` gets a line for each reason why a line is bad (X1) or a
/// signal is refused (B3); only tests show that. For a refused set it gets what `check` writes there.
pub fn play_telling<S: Read + Drop, R: Read + Drop, W: Write, E: Write>(
    alloc: Global,
    set: SetWord<S>,
    name: &str,
    mut script: R,
    echo: bool,
    writer: &mut W,
    errors: &mut E,
) -> u8
    ensures accepted { (result ≡ 0) ⊎ (result ≡ 1) → IfSome (given S.remaining set) IsAccepted }
    ensures held { result ≡ 0
        → IsOnSet (given S.remaining set) (R.remaining script) (λ limits. IsPlayed limits echo (W.contents writer.old) (W.contents writer.new)) }
    ensures missed { result ≡ 1
        → IsOnSet (given S.remaining set) (R.remaining script) (λ limits. IsPlayedInPart limits echo (W.contents writer.old) (W.contents writer.new)) }
    ensures refused { result ≡ 2
        → IsRefused (given S.remaining set) (R.remaining script) (W.contents writer.old) (W.contents writer.new) }
    ensures status { (result ≡ 0) ⊎ (result ≡ 1) ⊎ (result ≡ 2) ⊎ (result ≡ 4) }
{
    let set = find_set(alloc, set);
    let read = read_text(alloc, &mut script);
    match set {
        Ok(found) => match read {
            Ok(read) => {
                turns_are_as_read(&found.set);
                play_text(alloc, &found.set, found.limits, &read, echo, writer, errors)
            }
            Err(_) => FAILED,
        },
        Err(refusal) => refuse_set(alloc, name, &refusal, writer, errors),
    }
}

/// Writes the fault of a script. Returns the exit status.
pub(crate) fn refuse_script<W: Write>(alloc: Global, writer: &mut W, fault: ScriptFault) -> u8
    ensures printed { result ≡ 2 → PrintsFault fault (W.contents writer.old) (W.contents writer.new) }
    ensures status { (result ≡ 2) ⊎ (result ≡ 4) }
{
    match fault {
        ScriptFault::BadLine(_) => refuse(alloc, writer, &format_args!("refused {fault}")),
        ScriptFault::NoMemory => FAILED,
    }
}

/// Writes why a line of a text doesn't belong in a script.
pub(crate) fn explain<E: Write>(alloc: Global, text: &str, fault: ScriptFault, errors: &mut E) {
    let ScriptFault::BadLine(line) = fault else {
        return;
    };
    if let Ok(Some(fault)) = play_fault(alloc, text, line) {
        let _told = write_line(
            alloc,
            errors,
            &format_args!("mtp2_play: line {line}: {fault}"),
        );
    }
}

/// Writes that a text is too long for a script.
pub(crate) fn explain_length<E: Write>(alloc: Global, line: usize, errors: &mut E) {
    let _told = write_line(
        alloc,
        errors,
        &format_args!("mtp2_play: line {line}: a script has {MOST_BYTES} octets at most"),
    );
}

/// Runs the script of a text that was read. Returns the exit status.
fn play_text<W: Write, E: Write>(
    alloc: Global,
    set: &Verified,
    limits: TextLimits,
    read: &TextRead,
    echo: bool,
    writer: &mut W,
    errors: &mut E,
) -> u8
    ensures held { result ≡ 0 → (bytes : List ℕ) → Keeps bytes read.now → IsPlayed limits echo (W.contents writer.old) (W.contents writer.new) set.now bytes }
    ensures missed { result ≡ 1 → (bytes : List ℕ) → Keeps bytes read.now
        → IsPlayedInPart limits echo (W.contents writer.old) (W.contents writer.new) set.now bytes }
    ensures refused { result ≡ 2 → (bytes : List ℕ) → Keeps bytes read.now → IsNotRun limits (W.contents writer.old) (W.contents writer.new) set.now bytes }
    ensures status { (result ≡ 0) ⊎ (result ≡ 1) ⊎ (result ≡ 2) ⊎ (result ≡ 4) }
{
    if !read.is_text {
        return refuse(alloc, writer, &"refused F1 NotText");
    }
    if read.is_too_long() {
        let line = line_at_limit(&read.kept);
        explain_length(alloc, line, errors);
        return refuse_script(alloc, writer, ScriptFault::BadLine(line));
    }
    match str::from_utf8(&read.kept) {
        Ok(text) => match play_script_in(alloc, text) {
            Ok(script) => match usual_over(limits, &script) {
                Ok(usual) => run_script(alloc, set, usual, &script, text, echo, writer, errors),
                Err(limit) => refuse_limit(alloc, writer, limit),
            },
            Err(fault) => {
                explain(alloc, text, fault, errors);
                refuse_script(alloc, writer, fault)
            }
        },
        Err(_) => refuse(alloc, writer, &"refused F1 NotText"),
    }
}

/// Runs a script of a book or of a terminal. Returns the exit status.
fn play_other<W: Write, E: Write>(
    alloc: Global,
    set: &Verified,
    usual: RoundLimits,
    script: &AnyScript<'_>,
    writer: &mut W,
    errors: &mut E,
) -> u8
    requires { IsInRange script.now }
    ensures held { result ≡ 0 → IsOtherObeyed usual set.now (plain_any_script script.now) (W.contents writer.old) (W.contents writer.new) }
    ensures missed { result ≡ 1 → IsOtherMissed usual set.now (plain_any_script script.now) (W.contents writer.old) (W.contents writer.new) }
    ensures refused { result ≡ 2 → HasNoOther set.now (plain_any_script script.now) (W.contents writer.old) (W.contents writer.new) }
    ensures status { (result ≡ 0) ⊎ (result ≡ 1) ⊎ (result ≡ 2) ⊎ (result ≡ 4) }
{
    match script {
        AnyScript::Book(script) => play_book(alloc, set, script, writer, errors),
        AnyScript::Terminal(script) => play_terminal(alloc, set, usual, script, writer),
    }
}

/// Runs a script. Returns the exit status.
fn play_script<W: Write, E: Write>(
    alloc: Global,
    set: &Verified,
    usual: RoundLimits,
    script: &PlayScript<'_>,
    writer: &mut W,
    errors: &mut E,
) -> u8
    requires { IsFit script.now }
    ensures held { result ≡ 0 → IsObeyed usual set.now (plain_play_script script.now) (W.contents writer.old) (W.contents writer.new) }
    ensures missed { result ≡ 1 → IsMissedIn usual set.now (plain_play_script script.now) (W.contents writer.old) (W.contents writer.new) }
    ensures refused { result ≡ 2 → HasNoTerminal set.now (plain_play_script script.now) (W.contents writer.old) (W.contents writer.new) }
    ensures status { (result ≡ 0) ⊎ (result ≡ 1) ⊎ (result ≡ 2) ⊎ (result ≡ 4) }
{
    match script {
        PlayScript::Other(script) => play_other(alloc, set, usual, script, writer, errors),
        PlayScript::Group(script) => play_group(alloc, set, usual, script, writer),
    }
}

/// Runs a script of a book or of a terminal, and echoes the lines of its text. Returns the exit status.
fn show_other<W: Write, E: Write>(
    alloc: Global,
    set: &Verified,
    usual: RoundLimits,
    script: &AnyScript<'_>,
    text: &str,
    writer: &mut W,
    errors: &mut E,
) -> u8
    requires { IsInRange script.now }
    ensures held { result ≡ 0 → IsOtherShown usual (lines_of text.now) set.now (plain_any_script script.now) (W.contents writer.old) (W.contents writer.new) }
    ensures missed { result ≡ 1
        → IsOtherShownMissed usual (lines_of text.now) set.now (plain_any_script script.now) (W.contents writer.old) (W.contents writer.new) }
    ensures refused { result ≡ 2 → HasNoOther set.now (plain_any_script script.now) (W.contents writer.old) (W.contents writer.new) }
    ensures status { (result ≡ 0) ⊎ (result ≡ 1) ⊎ (result ≡ 2) ⊎ (result ≡ 4) }
{
    match script {
        AnyScript::Book(script) => show_book(alloc, set, script, text, writer, errors),
        AnyScript::Terminal(script) => show_terminal(alloc, set, usual, script, text, writer),
    }
}

/// Runs a script, and echoes the lines of its text. Returns the exit status.
fn show_script<W: Write, E: Write>(
    alloc: Global,
    set: &Verified,
    usual: RoundLimits,
    script: &PlayScript<'_>,
    text: &str,
    writer: &mut W,
    errors: &mut E,
) -> u8
    requires { IsFit script.now }
    ensures held { result ≡ 0 → AreShown usual (lines_of text.now) set.now (plain_play_script script.now) (W.contents writer.old) (W.contents writer.new) }
    ensures missed { result ≡ 1
        → AreShownMissed usual (lines_of text.now) set.now (plain_play_script script.now) (W.contents writer.old) (W.contents writer.new) }
    ensures refused { result ≡ 2 → HasNoTerminal set.now (plain_play_script script.now) (W.contents writer.old) (W.contents writer.new) }
    ensures status { (result ≡ 0) ⊎ (result ≡ 1) ⊎ (result ≡ 2) ⊎ (result ≡ 4) }
{
    match script {
        PlayScript::Other(script) => show_other(alloc, set, usual, script, text, writer, errors),
        PlayScript::Group(script) => show_group(alloc, set, usual, script, text, writer),
    }
}

/// Runs the script of a text, and echoes its lines if `echo` is true. Returns the exit status.
fn run_script<W: Write, E: Write>(
    alloc: Global,
    set: &Verified,
    usual: RoundLimits,
    script: &PlayScript<'_>,
    text: &str,
    echo: bool,
    writer: &mut W,
    errors: &mut E,
) -> u8
    requires { IsFit script.now }
    ensures held { result ≡ 0
        → IsObeyedAs usual echo (lines_of text.now) set.now (plain_play_script script.now) (W.contents writer.old) (W.contents writer.new) }
    ensures missed { result ≡ 1
        → IsMissedAs usual echo (lines_of text.now) set.now (plain_play_script script.now) (W.contents writer.old) (W.contents writer.new) }
    ensures refused { result ≡ 2 → HasNoTerminal set.now (plain_play_script script.now) (W.contents writer.old) (W.contents writer.new) }
    ensures status { (result ≡ 0) ⊎ (result ≡ 1) ⊎ (result ≡ 2) ⊎ (result ≡ 4) }
{
    if echo {
        show_script(alloc, set, usual, script, text, writer, errors)
    } else {
        play_script(alloc, set, usual, script, writer, errors)
    }
}
