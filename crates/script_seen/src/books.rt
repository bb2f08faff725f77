//! Runs book scripts and echoes their lines.
ghost use Rattle.std.specs.Prelude.{◌≡◌, ◌⊎◌, ◌++◌, ◌∷◌, [], List, ℕ, Option, None, Some, map, IfOk, true, false};
ghost use Rattle.script_lines.specs.Lines.{plain_line, lines_of};
ghost use Rattle.script_lines.specs.Scripts.{AreInRange, PlainSaid, plain_said, plain_script};
ghost use Rattle.actor_machine.specs.Ledger.{Ledger};
ghost use Rattle.script_ends.specs.Played.{first_book, last_of};
ghost use Rattle.script_seen.specs.Kinds.{IsBookShown, IsBookShownMissed, BookShowing, BookMissing};

use crate::fronts::{first_of, length_of, no_octets, show_line, write_behind};
use plain_text::{DONE, FAILED};
use script_ends::{MISSED, Player, open_player};
use script_lines::{Line, Said, Script, lines_in};
use std::alloc::Global;
use std::io::{self, Write};
use turn_check::Verified;

/// Echoes the line of a command, at index `place` of `lines`, and obeys it. Returns whether the run goes on.
fn show_next<W: Write>(
    alloc: Global,
    player: &mut Player,
    said: &Said<'_>,
    lines: &[Line<'_>],
    place: usize,
    printed: &mut Vec<u8>,
    writer: &mut W,
) -> io::Result<bool>
    ensures goes { IfOk result (λ on. on ≡ true → (b : Ledger) (before : List PlainSaid) (first : Option (List ℕ))
        → BookShowing (map plain_line lines.now) b before first (W.contents writer.old) printed.old.items player.old.book (last_of player.old)
        → BookShowing (map plain_line lines.now) b (before ++ plain_said said.now ∷ []) first (W.contents writer.new) printed.new.items player.new.book (last_of player.new)) }
    ensures missed { IfOk result (λ on. on ≡ false → (b : Ledger) (before : List PlainSaid) (first : Option (List ℕ))
        → BookShowing (map plain_line lines.now) b before first (W.contents writer.old) printed.old.items player.old.book (last_of player.old)
        → BookMissing (map plain_line lines.now) b before (plain_said said.now) first (W.contents writer.new)) }
{
    show_line(alloc, lines, place, said.line, writer)?;
    let before = length_of(printed.as_slice());
    let on = player.obey(alloc, said, printed)?;
    write_behind(before, printed.as_slice(), writer)?;
    Ok(on)
}

/// Obeys and echoes commands up to an expectation that fails. Returns the exit status: 0, or 1 if one failed.
fn show_each<W: Write, E: Write>(
    alloc: Global,
    player: &mut Player,
    commands: &[Said<'_>],
    lines: &[Line<'_>],
    writer: &mut W,
    errors: &mut E,
) -> io::Result<u8>
    ensures held { IfOk result (λ status. status ≡ 0 → last_of player.old ≡ None
        → IsBookShown (map plain_line lines.now) player.old.book (map plain_said commands.now) (W.contents writer.old) (W.contents writer.new)) }
    ensures missed { IfOk result (λ status. status ≡ 1 → last_of player.old ≡ None
        → IsBookShownMissed (map plain_line lines.now) player.old.book (map plain_said commands.now) (W.contents writer.old) (W.contents writer.new)) }
    ensures status { IfOk result (λ status. (status ≡ 0) ⊎ (status ≡ 1)) }
{
    let mut printed = no_octets(alloc);
    let mut place = first_of(lines, commands.len());
    for said in commands {
        if !show_next(alloc, player, said, lines, place, &mut printed, writer)? {
            return Ok(MISSED);
        }
        player.explain(alloc, said, errors);
        place = place.saturating_add(1);
    }
    Ok(DONE)
}

/// Obeys and echoes the commands. Returns the exit status: 4 if memory runs out or a write fails.
fn show_lines<W: Write, E: Write>(
    alloc: Global,
    player: &mut Player,
    commands: &[Said<'_>],
    lines: &[Line<'_>],
    writer: &mut W,
    errors: &mut E,
) -> u8
    ensures held { result ≡ 0 → last_of player.old ≡ None
        → IsBookShown (map plain_line lines.now) player.old.book (map plain_said commands.now) (W.contents writer.old) (W.contents writer.new) }
    ensures missed { result ≡ 1 → last_of player.old ≡ None
        → IsBookShownMissed (map plain_line lines.now) player.old.book (map plain_said commands.now) (W.contents writer.old) (W.contents writer.new) }
    ensures status { (result ≡ 0) ⊎ (result ≡ 1) ⊎ (result ≡ 4) }
{
    match show_each(alloc, player, commands, lines, writer, errors) {
        Ok(status) => status,
        Err(_) => FAILED,
    }
}

/// Obeys the commands and echoes the lines of a text. Returns the exit status.
fn show_all<W: Write, E: Write>(
    alloc: Global,
    player: &mut Player,
    commands: &[Said<'_>],
    text: &str,
    writer: &mut W,
    errors: &mut E,
) -> u8
    ensures held { result ≡ 0 → last_of player.old ≡ None
        → IsBookShown (lines_of text.now) player.old.book (map plain_said commands.now) (W.contents writer.old) (W.contents writer.new) }
    ensures missed { result ≡ 1 → last_of player.old ≡ None
        → IsBookShownMissed (lines_of text.now) player.old.book (map plain_said commands.now) (W.contents writer.old) (W.contents writer.new) }
    ensures status { (result ≡ 0) ⊎ (result ≡ 1) ⊎ (result ≡ 4) }
{
    match lines_in(alloc, text) {
        Ok(lines) => show_lines(alloc, player, commands, &lines, writer, errors),
        Err(_) => FAILED,
    }
}

/// Runs a book script as `play_book` does, and writes each command's line of the script's text before its output.
///
/// Returns the exit status. 0: each command ran and all was written. 1: an expectation failed, and `failed line N` was
/// written. 4: out of memory, or a write failed.
pub fn show_book<W: Write, E: Write>(
    alloc: Global,
    set: &Verified,
    script: &Script<'_>,
    text: &str,
    writer: &mut W,
    errors: &mut E,
) -> u8
    requires { AreInRange script.now.settings }
    ensures held { result ≡ 0
        → IsBookShown (lines_of text.now) (first_book set.now script.now.settings) (plain_script script.now).commands (W.contents writer.old) (W.contents writer.new) }
    ensures missed { result ≡ 1
        → IsBookShownMissed (lines_of text.now) (first_book set.now script.now.settings) (plain_script script.now).commands (W.contents writer.old) (W.contents writer.new) }
    ensures status { (result ≡ 0) ⊎ (result ≡ 1) ⊎ (result ≡ 4) }
{
    let Ok(mut player) = open_player(alloc, set, script.settings) else {
        return FAILED;
    };
    show_all(alloc, &mut player, &script.commands, text, writer, errors)
}
