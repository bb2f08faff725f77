//! Runs terminals' scripts and echoes their lines.
ghost use Rattle.std.specs.Prelude.{◌≡◌, ◌⊎◌, ◌++◌, ◌∷◌, [], List, ℕ, Option, None, Some, map, IfOk, true, false};
ghost use Rattle.script_lines.specs.Lines.{plain_line, lines_of};
ghost use Rattle.script_links.specs.TermScripts.{PlainTermSaid, plain_term_said};
ghost use Rattle.script_ends.specs.Term.{Term};
ghost use Rattle.script_ends.specs.TermRuns.{last_of, IsOfNew, LacksName};
ghost use Rattle.script_seen.specs.Kinds.{IsTermShown, IsTermShownBy, IsTermShownMissed, IsTermShownMissedBy, TermShowing, TermMissing};

use crate::fronts::{first_of, length_of, no_octets, show_line, write_behind};
use plain_text::{DONE, FAILED};
use script_ends::{MISSED, TermPlayer, Terminal, asks_told, new_player, refuse_set};
use script_lines::{Line, lines_in};
use script_links::{RoundLimits, TermSaid, TermScript};
use std::alloc::Global;
use std::io::{self, Write};
use turn_check::Verified;

/// Echoes the line of a command, at index `place` of `lines`, and obeys it. Returns whether the run goes on.
fn show_next<W: Write>(
    alloc: Global,
    player: &mut TermPlayer,
    said: &TermSaid<'_>,
    lines: &[Line<'_>],
    place: usize,
    keeps: bool,
    printed: &mut Vec<u8>,
    writer: &mut W,
) -> io::Result<bool>
    ensures goes { IfOk result (λ on. on ≡ true → (t : Term) (before : List PlainTermSaid) (first : Option (List ℕ))
        → TermShowing keeps (map plain_line lines.now) t before first (W.contents writer.old) printed.old.items player.old.terminal (last_of player.old)
        → TermShowing keeps (map plain_line lines.now) t (before ++ plain_term_said said.now ∷ []) first (W.contents writer.new) printed.new.items player.new.terminal (last_of player.new)) }
    ensures missed { IfOk result (λ on. on ≡ false → (t : Term) (before : List PlainTermSaid) (first : Option (List ℕ))
        → TermShowing keeps (map plain_line lines.now) t before first (W.contents writer.old) printed.old.items player.old.terminal (last_of player.old)
        → TermMissing keeps (map plain_line lines.now) t before (plain_term_said said.now) first (W.contents writer.new)) }
{
    show_line(alloc, lines, place, said.line, writer)?;
    let before = length_of(printed.as_slice());
    let on = player.obey(alloc, said, keeps, printed)?;
    write_behind(before, printed.as_slice(), writer)?;
    Ok(on)
}

/// Obeys and echoes commands up to an expectation that fails. Returns the exit status: 0, or 1 if one failed.
fn show_each<W: Write>(
    alloc: Global,
    player: &mut TermPlayer,
    commands: &[TermSaid<'_>],
    lines: &[Line<'_>],
    keeps: bool,
    writer: &mut W,
) -> io::Result<u8>
    ensures held { IfOk result (λ status. status ≡ 0 → last_of player.old ≡ None
        → IsTermShownBy keeps (map plain_line lines.now) (map plain_term_said commands.now) (W.contents writer.old) (W.contents writer.new) player.old.terminal) }
    ensures missed { IfOk result (λ status. status ≡ 1 → last_of player.old ≡ None
        → IsTermShownMissedBy keeps (map plain_line lines.now) (map plain_term_said commands.now) (W.contents writer.old) (W.contents writer.new) player.old.terminal) }
    ensures status { IfOk result (λ status. (status ≡ 0) ⊎ (status ≡ 1)) }
{
    let mut printed = no_octets(alloc);
    let mut place = first_of(lines, commands.len());
    for said in commands {
        if !show_next(
            alloc,
            player,
            said,
            lines,
            place,
            keeps,
            &mut printed,
            writer,
        )? {
            return Ok(MISSED);
        }
        place = place.saturating_add(1);
    }
    Ok(DONE)
}

/// Obeys and echoes the commands. Returns the exit status: 4 if memory runs out or a write fails.
fn show_lines<W: Write>(
    alloc: Global,
    player: &mut TermPlayer,
    commands: &[TermSaid<'_>],
    lines: &[Line<'_>],
    writer: &mut W,
) -> u8
    ensures held { result ≡ 0 → last_of player.old ≡ None
        → IsTermShown (map plain_line lines.now) (map plain_term_said commands.now) (W.contents writer.old) (W.contents writer.new) player.old.terminal }
    ensures missed { result ≡ 1 → last_of player.old ≡ None
        → IsTermShownMissed (map plain_line lines.now) (map plain_term_said commands.now) (W.contents writer.old) (W.contents writer.new) player.old.terminal }
    ensures status { (result ≡ 0) ⊎ (result ≡ 1) ⊎ (result ≡ 4) }
{
    let keeps = asks_told(commands);
    match show_each(alloc, player, commands, lines, keeps, writer) {
        Ok(status) => status,
        Err(_) => FAILED,
    }
}

/// Obeys the commands and echoes the lines of a text. Returns the exit status.
fn show_all<W: Write>(
    alloc: Global,
    player: &mut TermPlayer,
    commands: &[TermSaid<'_>],
    text: &str,
    writer: &mut W,
) -> u8
    ensures held { result ≡ 0 → last_of player.old ≡ None
        → IsTermShown (lines_of text.now) (map plain_term_said commands.now) (W.contents writer.old) (W.contents writer.new) player.old.terminal }
    ensures missed { result ≡ 1 → last_of player.old ≡ None
        → IsTermShownMissed (lines_of text.now) (map plain_term_said commands.now) (W.contents writer.old) (W.contents writer.new) player.old.terminal }
    ensures status { (result ≡ 0) ⊎ (result ≡ 1) ⊎ (result ≡ 4) }
{
    match lines_in(alloc, text) {
        Ok(lines) => show_lines(alloc, player, commands, &lines, writer),
        Err(_) => FAILED,
    }
}

/// Obeys and echoes the commands of a script on a new terminal. Returns the exit status.
fn show_on<W: Write>(
    alloc: Global,
    terminal: Terminal,
    script: &TermScript<'_>,
    text: &str,
    writer: &mut W,
) -> u8
    ensures held { result ≡ 0
        → IsTermShown (lines_of text.now) (map plain_term_said script.now.commands.items) (W.contents writer.old) (W.contents writer.new) terminal }
    ensures missed { result ≡ 1
        → IsTermShownMissed (lines_of text.now) (map plain_term_said script.now.commands.items) (W.contents writer.old) (W.contents writer.new) terminal }
    ensures status { (result ≡ 0) ⊎ (result ≡ 1) ⊎ (result ≡ 4) }
{
    let mut player = new_player(terminal);
    show_all(alloc, &mut player, &script.commands, text, writer)
}

/// Runs a terminal's script as `play_terminal` does, and writes each command's line of the script before its output.
///
/// Returns the exit status. 0: each command ran and all was written. 1: an expectation failed, and `failed line N` was
/// written. 2: the process set lacks a name that a terminal needs; only `refused X2 NoName NAME` was written. 4: out of
/// memory, or a write failed.
pub fn show_terminal<W: Write>(
    alloc: Global,
    set: &Verified,
    usual: RoundLimits,
    script: &TermScript<'_>,
    text: &str,
    writer: &mut W,
) -> u8
    ensures held { result ≡ 0
        → IsOfNew set.now usual script.now.head (IsTermShown (lines_of text.now) (map plain_term_said script.now.commands.items) (W.contents writer.old) (W.contents writer.new)) }
    ensures missed { result ≡ 1
        → IsOfNew set.now usual script.now.head (IsTermShownMissed (lines_of text.now) (map plain_term_said script.now.commands.items) (W.contents writer.old) (W.contents writer.new)) }
    ensures refused { result ≡ 2 → LacksName set.now (W.contents writer.old) (W.contents writer.new) }
    ensures status { (result ≡ 0) ⊎ (result ≡ 1) ⊎ (result ≡ 2) ⊎ (result ≡ 4) }
{
    let limits = script.head.limits_over(usual);
    match Terminal::of_set_within(alloc, limits, script.head.mode, set) {
        Ok(terminal) => show_on(alloc, terminal, script, text, writer),
        Err(error) => refuse_set(alloc, writer, error),
    }
}
