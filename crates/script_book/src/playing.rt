//! Whole book scripts.
ghost use Rattle.std.specs.Prelude.{◌≡◌, ◌⊎◌, ◌++◌, List, ℕ, Option, map};
ghost use Rattle.actor_machine.specs.Ledger.{Ledger};
ghost use Rattle.script_lines.specs.Scripts.{AreInRange, PlainSaid, plain_said, plain_script};
ghost use Rattle.script_book.specs.Played.{first_book, last_of, IsRun, IsWritten, IsMissed};

use crate::player::Player;
use crate::printer::Printer;
use actor_book::{Book, Limits};
use plain_text::FAILED;
use script_lines::{Said, Script, Settings};
use std::alloc::Global;
use std::io::Write;
use turn_check::Verified;

/// The limits of a link that a script sets.
pub(crate) fn limits_of(settings: Settings) -> Limits
    requires { AreInRange settings }
    ensures { result ≡ record { port = settings.ports; env = settings.env; journal = settings.journal } }
{
    let limits = Limits::new(
        settings.ports as usize,
        settings.env as usize,
        settings.journal as usize,
    );
    match limits {
        Some(limits) => limits,
        None => unreachable!(),
    }
}

/// Obeys commands in order, up to an expectation that fails. Returns the exit status: 4 if memory or a write fails.
fn run_all<W: Write, E: Write>(
    alloc: Global,
    player: &mut Player,
    commands: &[Said<'_>],
    writer: &mut W,
    errors: &mut E,
) -> u8
    ensures held { result ≡ 0 → (b : Ledger) (before : List PlainSaid) (first : Option (List ℕ))
        → IsRun b before first (W.contents writer.old) player.old.book (last_of player.old)
        → IsRun b (before ++ map plain_said commands.now) first (W.contents writer.new) player.new.book (last_of player.new) }
    ensures missed { result ≡ 1 → (b : Ledger) (before : List PlainSaid) (first : Option (List ℕ))
        → IsRun b before first (W.contents writer.old) player.old.book (last_of player.old)
        → IsMissed b (before ++ map plain_said commands.now) first (W.contents writer.new) }
    ensures status { (result ≡ 0) ⊎ (result ≡ 1) ⊎ (result ≡ 4) }
{
    match player.run(alloc, commands, writer, errors) {
        Ok(status) => status,
        Err(_) => FAILED,
    }
}

/// Runs a book script on the processes of a set, and prints a line for each command except `expect`.
///
/// Returns 0 if each command ran and its line was written, 1 after `failed line N` if an expectation failed, 4 if
/// memory or a write fails, after which nothing is written. `errors` gets the reasons of refusals by B3 (only tested).
pub fn play_book<W: Write, E: Write>(
    alloc: Global,
    set: &Verified,
    script: &Script<'_>,
    writer: &mut W,
    errors: &mut E,
) -> u8
    requires { AreInRange script.now.settings }
    ensures held { result ≡ 0
        → IsWritten (first_book set.now script.now.settings) (plain_script script.now).commands (W.contents writer.old) (W.contents writer.new) }
    ensures missed { result ≡ 1
        → IsMissed (first_book set.now script.now.settings) (plain_script script.now).commands (W.contents writer.old) (W.contents writer.new) }
    ensures status { (result ≡ 0) ⊎ (result ≡ 1) ⊎ (result ≡ 4) }
{
    let limits = limits_of(script.settings);
    let Ok(book) = Book::open(alloc, set, limits) else {
        return FAILED;
    };
    let printer = Printer { last: None };
    let mut player = Player { book, printer };
    run_all(alloc, &mut player, &script.commands, writer, errors)
}
