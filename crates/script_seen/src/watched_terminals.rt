//! Runs terminals' scripts with a watcher.
ghost use Rattle.std.specs.Prelude.{◌≡◌, ◌⊎◌, ◌++◌, ◌∷◌, [], List, ℕ, Option, None, map, IfOk, true, false};
ghost use Rattle.actor_machine.specs.Kept.{opened_book};
ghost use Rattle.plain_laws.specs.Limits.{MOST_PORT, MOST_ENVIRONMENT, MOST_JOURNAL};
ghost use Rattle.script_links.specs.TermScripts.{PlainTermSaid, plain_term_said, asks_told};
ghost use Rattle.script_ends.specs.Term.{Term};
ghost use Rattle.script_ends.specs.TermRuns.{last_of, IsTermRun, IsTermWritten, IsTermMissed, IsTermFailed, IsTermMissedBy, IsOfNew, LacksName};
ghost use Rattle.script_seen.specs.TracedKinds.{book_in, IsAtStart};
ghost use Rattle.script_seen.specs.WatchedKinds.{TermWatching, IsTermWatched, IsTermWatchedInPart};

use crate::traced_terminals::open_tracer;
use crate::tracing::Tracer;
use crate::watching::Watcher;
use plain_text::{DONE, FAILED};
use script_ends::{MISSED, TermPlayer, Terminal, asks_told, new_player, refuse_set};
use script_links::{RoundLimits, TermSaid, TermScript};
use std::alloc::Global;
use std::io::{self, Write};
use turn_check::Verified;

/// Obeys a command, and notifies a watcher of its events. Returns whether the run goes on.
fn watch_next<N: Watcher, W: Write>(
    alloc: Global,
    player: &mut TermPlayer,
    said: &TermSaid<'_>,
    keeps: bool,
    tracer: &mut Tracer,
    watcher: &mut N,
    writer: &mut W,
) -> io::Result<bool>
    ensures goes { IfOk result (λ on. on ≡ true → (t : Term) (before : List PlainTermSaid) (first : Option (List ℕ))
        → IsTermRun keeps t before first (W.contents writer.old) player.old.terminal (last_of player.old)
        → IsTermRun keeps t (before ++ plain_term_said said.now ∷ []) first (W.contents writer.new) player.new.terminal (last_of player.new)) }
    ensures missed { IfOk result (λ on. on ≡ false → IsTermMissedBy (plain_term_said said.now) (last_of player.old) (W.contents writer.old) (W.contents writer.new)) }
    ensures watched { IfOk result (λ on. on ≡ true → (t : Term) (before : List PlainTermSaid) (first : Option (List ℕ))
        → IsTermRun keeps t before first (W.contents writer.old) player.old.terminal (last_of player.old)
        → TermWatching keeps t before (λ ns. N.knows (book_in t).set ns watcher.old) tracer.old
        → TermWatching keeps t (before ++ plain_term_said said.now ∷ []) (λ ns. N.knows (book_in t).set ns watcher.new) tracer.new) }
    ensures unwatched { IfOk result (λ on. on ≡ false → watcher.new ≡ watcher.old) }
{
    if !player.obey(alloc, said, keeps, writer)? {
        return Ok(false);
    }
    tracer.watch(alloc, player.terminal.book(), watcher)?;
    Ok(true)
}

/// Obeys the commands, in order, up to an expectation that fails, and notifies a watcher. Returns the exit status: 0,
/// or 1 if one failed.
fn watch_each<N: Watcher, W: Write>(
    alloc: Global,
    player: &mut TermPlayer,
    commands: &[TermSaid<'_>],
    keeps: bool,
    tracer: &mut Tracer,
    watcher: &mut N,
    writer: &mut W,
) -> io::Result<u8>
    ensures held { IfOk result (λ status. status ≡ 0 → last_of player.old ≡ None
        → (now : Term) × (last : Option (List ℕ)) × IsTermRun keeps player.old.terminal (map plain_term_said commands.now) (W.contents writer.old) (W.contents writer.new) now last) }
    ensures missed { IfOk result (λ status. status ≡ 1 → last_of player.old ≡ None
        → IsTermMissed keeps (map plain_term_said commands.now) (W.contents writer.old) (W.contents writer.new) player.old.terminal) }
    ensures watched { IfOk result (λ status. status ≡ 0 → last_of player.old ≡ None → IsAtStart (book_in player.old.terminal) tracer.old
        → N.knows (book_in player.old.terminal).set [] watcher.old
        → IsTermWatched keeps player.old.terminal (map plain_term_said commands.now) (λ ns. N.knows (book_in player.old.terminal).set ns watcher.new)) }
    ensures in_part { IfOk result (λ status. status ≡ 1 → last_of player.old ≡ None → IsAtStart (book_in player.old.terminal) tracer.old
        → N.knows (book_in player.old.terminal).set [] watcher.old
        → IsTermWatchedInPart keeps player.old.terminal (map plain_term_said commands.now) (λ ns. N.knows (book_in player.old.terminal).set ns watcher.new)) }
    ensures status { IfOk result (λ status. (status ≡ 0) ⊎ (status ≡ 1)) }
{
    for said in commands {
        if !watch_next(alloc, player, said, keeps, tracer, watcher, writer)? {
            return Ok(MISSED);
        }
    }
    Ok(DONE)
}

/// Obeys a script on a new terminal, and notifies a watcher. Returns the exit status: 0, or 1 if an expectation failed.
fn watch_on<N: Watcher, W: Write>(
    alloc: Global,
    set: &Verified,
    terminal: Terminal,
    script: &TermScript<'_>,
    watcher: &mut N,
    writer: &mut W,
) -> io::Result<u8>
    ensures held { IfOk result (λ status. status ≡ 0
        → IsTermWritten (map plain_term_said script.now.commands.items) (W.contents writer.old) (W.contents writer.new) terminal) }
    ensures missed { IfOk result (λ status. status ≡ 1
        → IsTermFailed (map plain_term_said script.now.commands.items) (W.contents writer.old) (W.contents writer.new) terminal) }
    ensures watched { IfOk result (λ status. status ≡ 0 → book_in terminal ≡ opened_book set.now MOST_PORT MOST_ENVIRONMENT MOST_JOURNAL
        → N.knows set.now [] watcher.old
        → IsTermWatched (asks_told (map plain_term_said script.now.commands.items)) terminal (map plain_term_said script.now.commands.items) (λ ns. N.knows set.now ns watcher.new)) }
    ensures in_part { IfOk result (λ status. status ≡ 1 → book_in terminal ≡ opened_book set.now MOST_PORT MOST_ENVIRONMENT MOST_JOURNAL
        → N.knows set.now [] watcher.old
        → IsTermWatchedInPart (asks_told (map plain_term_said script.now.commands.items)) terminal (map plain_term_said script.now.commands.items) (λ ns. N.knows set.now ns watcher.new)) }
    ensures status { IfOk result (λ status. (status ≡ 0) ⊎ (status ≡ 1)) }
{
    let mut tracer = open_tracer(alloc, set, false)?;
    let mut player = new_player(terminal);
    let commands = script.commands.as_slice();
    let keeps = asks_told(commands);
    let status = watch_each(
        alloc,
        &mut player,
        commands,
        keeps,
        &mut tracer,
        watcher,
        writer,
    )?;
    Ok(status)
}

/// Obeys a script on a new terminal, and notifies a watcher. Returns the exit status: 4 if memory or a write fails.
fn watch_new<N: Watcher, W: Write>(
    alloc: Global,
    set: &Verified,
    terminal: Terminal,
    script: &TermScript<'_>,
    watcher: &mut N,
    writer: &mut W,
) -> u8
    ensures held { result ≡ 0
        → IsTermWritten (map plain_term_said script.now.commands.items) (W.contents writer.old) (W.contents writer.new) terminal }
    ensures missed { result ≡ 1
        → IsTermFailed (map plain_term_said script.now.commands.items) (W.contents writer.old) (W.contents writer.new) terminal }
    ensures watched { result ≡ 0 → book_in terminal ≡ opened_book set.now MOST_PORT MOST_ENVIRONMENT MOST_JOURNAL → N.knows set.now [] watcher.old
        → IsTermWatched (asks_told (map plain_term_said script.now.commands.items)) terminal (map plain_term_said script.now.commands.items) (λ ns. N.knows set.now ns watcher.new) }
    ensures in_part { result ≡ 1 → book_in terminal ≡ opened_book set.now MOST_PORT MOST_ENVIRONMENT MOST_JOURNAL → N.knows set.now [] watcher.old
        → IsTermWatchedInPart (asks_told (map plain_term_said script.now.commands.items)) terminal (map plain_term_said script.now.commands.items) (λ ns. N.knows set.now ns watcher.new) }
    ensures status { (result ≡ 0) ⊎ (result ≡ 1) ⊎ (result ≡ 4) }
{
    match watch_on(alloc, set, terminal, script, watcher, writer) {
        Ok(status) => status,
        Err(_) => FAILED,
    }
}

/// Runs a terminal's script as `play_terminal` does, and notifies a watcher of the events of its processes.
///
/// Returns the exit status. 0: each command ran and all was written. 1: an expectation failed, and `failed line N` was
/// written. 2: the process set lacks a name that a terminal needs; only `refused X2 NoName NAME` was written. 4: out of
/// memory, a write failed, or one command caused more events than the terminal's journal holds.
pub fn watch_terminal<N: Watcher, W: Write>(
    alloc: Global,
    set: &Verified,
    usual: RoundLimits,
    script: &TermScript<'_>,
    watcher: &mut N,
    writer: &mut W,
) -> u8
    ensures held { result ≡ 0
        → IsOfNew set.now usual script.now.head (IsTermWritten (map plain_term_said script.now.commands.items) (W.contents writer.old) (W.contents writer.new)) }
    ensures missed { result ≡ 1
        → IsOfNew set.now usual script.now.head (IsTermFailed (map plain_term_said script.now.commands.items) (W.contents writer.old) (W.contents writer.new)) }
    ensures watched { result ≡ 0 → N.knows set.now [] watcher.old
        → IsOfNew set.now usual script.now.head (λ t. IsTermWatched (asks_told (map plain_term_said script.now.commands.items)) t
        (map plain_term_said script.now.commands.items) (λ ns. N.knows set.now ns watcher.new)) }
    ensures in_part { result ≡ 1 → N.knows set.now [] watcher.old
        → IsOfNew set.now usual script.now.head (λ t. IsTermWatchedInPart (asks_told (map plain_term_said script.now.commands.items)) t
        (map plain_term_said script.now.commands.items) (λ ns. N.knows set.now ns watcher.new)) }
    ensures refused { result ≡ 2 → LacksName set.now (W.contents writer.old) (W.contents writer.new) }
    ensures status { (result ≡ 0) ⊎ (result ≡ 1) ⊎ (result ≡ 2) ⊎ (result ≡ 4) }
{
    let limits = script.head.limits_over(usual);
    match Terminal::of_set_within(alloc, limits, script.head.mode, set) {
        Ok(terminal) => watch_new(alloc, set, terminal, script, watcher, writer),
        Err(error) => refuse_set(alloc, writer, error),
    }
}
