//! Runs book scripts with a watcher.
ghost use Rattle.std.specs.Prelude.{◌≡◌, ◌⊎◌, ◌++◌, ◌∷◌, [], List, ℕ, Option, None, map, IfOk, true, false};
ghost use Rattle.script_lines.specs.Scripts.{AreInRange, PlainSaid, plain_said, plain_script};
ghost use Rattle.actor_machine.specs.Ledger.{Ledger};
ghost use Rattle.script_ends.specs.Played.{first_book, last_of, IsRun, IsWritten, IsMissed, IsMissedBy};
ghost use Rattle.script_seen.specs.TracedKinds.{IsAtStart};
ghost use Rattle.script_seen.specs.WatchedKinds.{BookWatching, IsBookWatched, IsBookWatchedInPart};

use crate::traced_books::open_tracer;
use crate::tracing::Tracer;
use crate::watching::Watcher;
use plain_text::{DONE, FAILED};
use script_ends::{MISSED, Player, open_player};
use script_lines::{Said, Script};
use std::alloc::Global;
use std::io::{self, Write};
use turn_check::Verified;

/// Obeys a command, and notifies a watcher of its events. Returns whether the run goes on.
fn watch_next<N: Watcher, W: Write>(
    alloc: Global,
    player: &mut Player,
    said: &Said<'_>,
    tracer: &mut Tracer,
    watcher: &mut N,
    writer: &mut W,
) -> io::Result<bool>
    ensures goes { IfOk result (λ on. on ≡ true → (b : Ledger) (before : List PlainSaid) (first : Option (List ℕ))
        → IsRun b before first (W.contents writer.old) player.old.book (last_of player.old)
        → IsRun b (before ++ plain_said said.now ∷ []) first (W.contents writer.new) player.new.book (last_of player.new)) }
    ensures missed { IfOk result (λ on. on ≡ false → IsMissedBy (plain_said said.now) (last_of player.old) (W.contents writer.old) (W.contents writer.new)) }
    ensures watched { IfOk result (λ on. on ≡ true → (b : Ledger) (before : List PlainSaid) (first : Option (List ℕ))
        → IsRun b before first (W.contents writer.old) player.old.book (last_of player.old)
        → BookWatching b before (λ ns. N.knows b.set ns watcher.old) tracer.old
        → BookWatching b (before ++ plain_said said.now ∷ []) (λ ns. N.knows b.set ns watcher.new) tracer.new) }
    ensures unwatched { IfOk result (λ on. on ≡ false → watcher.new ≡ watcher.old) }
{
    if !player.obey(alloc, said, writer)? {
        return Ok(false);
    }
    tracer.watch(alloc, &player.book, watcher)?;
    Ok(true)
}

/// Obeys the commands, in order, up to an expectation that fails, and notifies a watcher. Returns the exit status: 0,
/// or 1 if one failed.
fn watch_each<N: Watcher, W: Write, E: Write>(
    alloc: Global,
    player: &mut Player,
    commands: &[Said<'_>],
    tracer: &mut Tracer,
    watcher: &mut N,
    writer: &mut W,
    errors: &mut E,
) -> io::Result<u8>
    ensures held { IfOk result (λ status. status ≡ 0 → last_of player.old ≡ None
        → IsWritten player.old.book (map plain_said commands.now) (W.contents writer.old) (W.contents writer.new)) }
    ensures missed { IfOk result (λ status. status ≡ 1 → last_of player.old ≡ None
        → IsMissed player.old.book (map plain_said commands.now) (W.contents writer.old) (W.contents writer.new)) }
    ensures watched { IfOk result (λ status. status ≡ 0 → last_of player.old ≡ None → IsAtStart player.old.book tracer.old
        → N.knows player.old.book.set [] watcher.old
        → IsBookWatched player.old.book (map plain_said commands.now) (λ ns. N.knows player.old.book.set ns watcher.new)) }
    ensures in_part { IfOk result (λ status. status ≡ 1 → last_of player.old ≡ None → IsAtStart player.old.book tracer.old
        → N.knows player.old.book.set [] watcher.old
        → IsBookWatchedInPart player.old.book (map plain_said commands.now) (λ ns. N.knows player.old.book.set ns watcher.new)) }
    ensures status { IfOk result (λ status. (status ≡ 0) ⊎ (status ≡ 1)) }
{
    for said in commands {
        if !watch_next(alloc, player, said, tracer, watcher, writer)? {
            return Ok(MISSED);
        }
        player.explain(alloc, said, errors);
    }
    Ok(DONE)
}

/// Obeys a script on a new link, and notifies a watcher. Returns the exit status: 0, or 1 if an expectation failed.
fn watch_link<N: Watcher, W: Write, E: Write>(
    alloc: Global,
    set: &Verified,
    script: &Script<'_>,
    watcher: &mut N,
    writer: &mut W,
    errors: &mut E,
) -> io::Result<u8>
    requires { AreInRange script.now.settings }
    ensures held { IfOk result (λ status. status ≡ 0
        → IsWritten (first_book set.now script.now.settings) (plain_script script.now).commands (W.contents writer.old) (W.contents writer.new)) }
    ensures missed { IfOk result (λ status. status ≡ 1
        → IsMissed (first_book set.now script.now.settings) (plain_script script.now).commands (W.contents writer.old) (W.contents writer.new)) }
    ensures watched { IfOk result (λ status. status ≡ 0 → N.knows set.now [] watcher.old
        → IsBookWatched (first_book set.now script.now.settings) (plain_script script.now).commands (λ ns. N.knows set.now ns watcher.new)) }
    ensures in_part { IfOk result (λ status. status ≡ 1 → N.knows set.now [] watcher.old
        → IsBookWatchedInPart (first_book set.now script.now.settings) (plain_script script.now).commands (λ ns. N.knows set.now ns watcher.new)) }
    ensures status { IfOk result (λ status. (status ≡ 0) ⊎ (status ≡ 1)) }
{
    let mut tracer = open_tracer(alloc, set, script.settings, false)?;
    let mut player = open_player(alloc, set, script.settings)?;
    let status = watch_each(
        alloc,
        &mut player,
        &script.commands,
        &mut tracer,
        watcher,
        writer,
        errors,
    )?;
    Ok(status)
}

/// Runs a book script on a process set, as `play_book` does, and notifies a watcher of its events.
///
/// Returns the exit status. 0: each command ran and all was written. 1: an expectation failed, and `failed line N` was
/// written. 4: out of memory, or a write failed.
pub fn watch_book<N: Watcher, W: Write, E: Write>(
    alloc: Global,
    set: &Verified,
    script: &Script<'_>,
    watcher: &mut N,
    writer: &mut W,
    errors: &mut E,
) -> u8
    requires { AreInRange script.now.settings }
    ensures held { result ≡ 0
        → IsWritten (first_book set.now script.now.settings) (plain_script script.now).commands (W.contents writer.old) (W.contents writer.new) }
    ensures missed { result ≡ 1
        → IsMissed (first_book set.now script.now.settings) (plain_script script.now).commands (W.contents writer.old) (W.contents writer.new) }
    ensures watched { result ≡ 0 → N.knows set.now [] watcher.old
        → IsBookWatched (first_book set.now script.now.settings) (plain_script script.now).commands (λ ns. N.knows set.now ns watcher.new) }
    ensures in_part { result ≡ 1 → N.knows set.now [] watcher.old
        → IsBookWatchedInPart (first_book set.now script.now.settings) (plain_script script.now).commands (λ ns. N.knows set.now ns watcher.new) }
    ensures status { (result ≡ 0) ⊎ (result ≡ 1) ⊎ (result ≡ 4) }
{
    match watch_link(alloc, set, script, watcher, writer, errors) {
        Ok(status) => status,
        Err(_) => FAILED,
    }
}
