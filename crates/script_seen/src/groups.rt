//! Runs link sets' scripts and echoes their lines.
ghost use Rattle.std.specs.Prelude.{◌≡◌, ◌⊎◌, ◌++◌, ◌∷◌, [], List, ℕ, Option, None, Some, map, IfOk, true, false};
ghost use Rattle.script_lines.specs.Lines.{plain_line, lines_of};
ghost use Rattle.script_links.specs.GroupScripts.{PlainGroupSaid, plain_group_said, IsFew};
ghost use Rattle.script_ends.specs.TermRuns.{LacksName};
ghost use Rattle.script_ends.specs.GroupAnswers.{Playing};
ghost use Rattle.script_ends.specs.GroupRuns.{playing_of, last_of, IsOfNewSet};
ghost use Rattle.script_seen.specs.Kinds.{IsGroupShown, IsGroupShownMissed, GroupShowing, GroupMissing};

use crate::fronts::{first_of, length_of, no_octets, show_line, write_behind};
use plain_text::{DONE, FAILED};
use script_ends::{GroupPlayer, MISSED, open_group, refuse_set};
use script_lines::{Line, lines_in};
use script_links::{GroupSaid, GroupScript, RoundLimits};
use std::alloc::Global;
use std::io::{self, Write};
use turn_check::Verified;

/// Echoes the line of a command, at index `place` of `lines`, and obeys it. Returns whether the run goes on.
fn show_next<W: Write>(
    alloc: Global,
    player: &mut GroupPlayer,
    said: &GroupSaid<'_>,
    lines: &[Line<'_>],
    place: usize,
    printed: &mut Vec<u8>,
    writer: &mut W,
) -> io::Result<bool>
    ensures goes { IfOk result (λ on. on ≡ true → (p : Playing) (before : List PlainGroupSaid) (first : Option (List ℕ))
        → GroupShowing (map plain_line lines.now) p before first (W.contents writer.old) printed.old.items (playing_of player.old) (last_of player.old)
        → GroupShowing (map plain_line lines.now) p (before ++ plain_group_said said.now ∷ []) first (W.contents writer.new) printed.new.items (playing_of player.new) (last_of player.new)) }
    ensures missed { IfOk result (λ on. on ≡ false → (p : Playing) (before : List PlainGroupSaid) (first : Option (List ℕ))
        → GroupShowing (map plain_line lines.now) p before first (W.contents writer.old) printed.old.items (playing_of player.old) (last_of player.old)
        → GroupMissing (map plain_line lines.now) p before (plain_group_said said.now) first (W.contents writer.new)) }
{
    show_line(alloc, lines, place, said.line, writer)?;
    let before = length_of(printed.as_slice());
    let on = player.obey(alloc, said, printed)?;
    write_behind(before, printed.as_slice(), writer)?;
    Ok(on)
}

/// Obeys and echoes commands up to an expectation that fails. Returns the exit status: 0, or 1 if one failed.
fn show_each<W: Write>(
    alloc: Global,
    player: &mut GroupPlayer,
    commands: &[GroupSaid<'_>],
    lines: &[Line<'_>],
    writer: &mut W,
) -> io::Result<u8>
    ensures held { IfOk result (λ status. status ≡ 0 → last_of player.old ≡ None
        → IsGroupShown (map plain_line lines.now) (map plain_group_said commands.now) (W.contents writer.old) (W.contents writer.new) (playing_of player.old)) }
    ensures missed { IfOk result (λ status. status ≡ 1 → last_of player.old ≡ None
        → IsGroupShownMissed (map plain_line lines.now) (map plain_group_said commands.now) (W.contents writer.old) (W.contents writer.new) (playing_of player.old)) }
    ensures status { IfOk result (λ status. (status ≡ 0) ⊎ (status ≡ 1)) }
{
    let mut printed = no_octets(alloc);
    let mut place = first_of(lines, commands.len());
    for said in commands {
        if !show_next(alloc, player, said, lines, place, &mut printed, writer)? {
            return Ok(MISSED);
        }
        place = place.saturating_add(1);
    }
    Ok(DONE)
}

/// Obeys and echoes the commands. Returns the exit status: 4 if memory runs out or a write fails.
fn show_lines<W: Write>(
    alloc: Global,
    player: &mut GroupPlayer,
    commands: &[GroupSaid<'_>],
    lines: &[Line<'_>],
    writer: &mut W,
) -> u8
    ensures held { result ≡ 0 → last_of player.old ≡ None
        → IsGroupShown (map plain_line lines.now) (map plain_group_said commands.now) (W.contents writer.old) (W.contents writer.new) (playing_of player.old) }
    ensures missed { result ≡ 1 → last_of player.old ≡ None
        → IsGroupShownMissed (map plain_line lines.now) (map plain_group_said commands.now) (W.contents writer.old) (W.contents writer.new) (playing_of player.old) }
    ensures status { (result ≡ 0) ⊎ (result ≡ 1) ⊎ (result ≡ 4) }
{
    match show_each(alloc, player, commands, lines, writer) {
        Ok(status) => status,
        Err(_) => FAILED,
    }
}

/// Obeys the commands and echoes the lines of a text. Returns the exit status.
fn show_all<W: Write>(
    alloc: Global,
    player: &mut GroupPlayer,
    commands: &[GroupSaid<'_>],
    text: &str,
    writer: &mut W,
) -> u8
    ensures held { result ≡ 0 → last_of player.old ≡ None
        → IsGroupShown (lines_of text.now) (map plain_group_said commands.now) (W.contents writer.old) (W.contents writer.new) (playing_of player.old) }
    ensures missed { result ≡ 1 → last_of player.old ≡ None
        → IsGroupShownMissed (lines_of text.now) (map plain_group_said commands.now) (W.contents writer.old) (W.contents writer.new) (playing_of player.old) }
    ensures status { (result ≡ 0) ⊎ (result ≡ 1) ⊎ (result ≡ 4) }
{
    match lines_in(alloc, text) {
        Ok(lines) => show_lines(alloc, player, commands, &lines, writer),
        Err(_) => FAILED,
    }
}

/// Runs a link set's script as `play_group` does, and writes each command's line of the script before its output.
///
/// Returns the exit status. 0: each command ran and all was written. 1: an expectation failed, and `failed line N` was
/// written. 2: the process set lacks a name that a terminal needs; only `refused X2 NoName NAME` was written. 4: out of
/// memory, or a write failed.
pub fn show_group<W: Write>(
    alloc: Global,
    set: &Verified,
    limits: RoundLimits,
    script: &GroupScript<'_>,
    text: &str,
    writer: &mut W,
) -> u8
    requires { IsFew script.now.head.links }
    ensures held { result ≡ 0
        → IsOfNewSet set.now limits script.now.head (IsGroupShown (lines_of text.now) (map plain_group_said script.now.commands.items) (W.contents writer.old) (W.contents writer.new)) }
    ensures missed { result ≡ 1
        → IsOfNewSet set.now limits script.now.head (IsGroupShownMissed (lines_of text.now) (map plain_group_said script.now.commands.items) (W.contents writer.old) (W.contents writer.new)) }
    ensures refused { result ≡ 2 → LacksName set.now (W.contents writer.old) (W.contents writer.new) }
    ensures status { (result ≡ 0) ⊎ (result ≡ 1) ⊎ (result ≡ 2) ⊎ (result ≡ 4) }
{
    match open_group(alloc, set, limits, script.head) {
        Ok(player) => {
            let mut player = player;
            show_all(alloc, &mut player, &script.commands, text, writer)
        }
        Err(error) => refuse_set(alloc, writer, error),
    }
}
