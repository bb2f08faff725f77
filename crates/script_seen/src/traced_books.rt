//! Runs book scripts with a trace.
ghost use Rattle.std.specs.Prelude.{◌≡◌, ◌⊎◌, ◌++◌, ◌∷◌, [], List, ℕ, Option, None, map, OnOk, IfOk, true, false};
ghost use Rattle.script_lines.specs.Lines.{plain_line, lines_of};
ghost use Rattle.script_lines.specs.Commands.{plain_command};
ghost use Rattle.script_lines.specs.Scripts.{AreInRange, PlainSaid, plain_said, plain_script};
ghost use Rattle.actor_machine.specs.Ledger.{Ledger};
ghost use Rattle.script_ends.specs.Played.{first_book, last_of, IsRun, IsWritten, IsMissed, IsMissedBy};
ghost use Rattle.std.specs.Io.KnownBytes.{Appends};
ghost use Rattle.script_seen.specs.Traced.{IsFront};
ghost use Rattle.script_seen.specs.TracedKinds.{is_state, only_asks, IsAtStart, BookTracing, IsBookTraced, IsBookTracedInPart};

use crate::fronts::{first_of, show_line};
use crate::tracing::{Tracer, new_tracer};
use actor_book::Limits;
use plain_text::{DONE, FAILED};
use script_ends::{MISSED, Player, open_player};
use script_lines::{Call, Command, Line, Said, Script, Settings, lines_in};
use std::alloc::{AllocError, Global};
use std::io::{self, Write};
use turn_check::Verified;

/// Whether a call is a question.
fn is_state(call: Call) -> bool
    ensures { result ≡ is_state call }
{
    match call {
        Call::Begin | Call::Finish | Call::Skip => false,
        Call::State => true,
    }
}

/// Whether a command is a question, which causes no event.
fn only_asks(command: &Command<'_>) -> bool
    ensures { result ≡ only_asks (plain_command command.now) }
{
    match command {
        Command::Call(call, _) => is_state(*call),
        Command::Value(_, _) | Command::Expect(_) => true,
        Command::Offer(_)
        | Command::Flood(_, _)
        | Command::Tick(_)
        | Command::Env
        | Command::Rest => false,
    }
}

/// Writes the line of a command, at index `place` of the script's lines; nothing for a question.
fn show_front<T: Write>(
    alloc: Global,
    said: &Said<'_>,
    lines: &[Line<'_>],
    place: usize,
    trace: &mut T,
) -> io::Result<()>
    ensures { OnOk result ((front : List ℕ) × IsFront (only_asks (plain_command said.now.command)) (map plain_line lines.now) said.now.line front
        × Appends (T.contents trace.old) (T.contents trace.new) front) }
{
    if only_asks(&said.command) {
        return Ok(());
    }
    show_line(alloc, lines, place, said.line, trace)
}

/// Obeys a command, and traces its events. Returns whether the run goes on.
fn trace_next<W: Write, T: Write>(
    alloc: Global,
    player: &mut Player,
    said: &Said<'_>,
    lines: &[Line<'_>],
    place: usize,
    tracer: &mut Tracer,
    trace: &mut T,
    writer: &mut W,
) -> io::Result<bool>
    ensures goes { IfOk result (λ on. on ≡ true → (b : Ledger) (before : List PlainSaid) (first : Option (List ℕ))
        → IsRun b before first (W.contents writer.old) player.old.book (last_of player.old)
        → IsRun b (before ++ plain_said said.now ∷ []) first (W.contents writer.new) player.new.book (last_of player.new)) }
    ensures missed { IfOk result (λ on. on ≡ false → IsMissedBy (plain_said said.now) (last_of player.old) (W.contents writer.old) (W.contents writer.new)) }
    ensures traced { IfOk result (λ on. on ≡ true → (b : Ledger) (before : List PlainSaid) (first begun : Option (List ℕ))
        → IsRun b before first (W.contents writer.old) player.old.book (last_of player.old)
        → BookTracing (map plain_line lines.now) b before begun (T.contents trace.old) tracer.old
        → BookTracing (map plain_line lines.now) b (before ++ plain_said said.now ∷ []) begun (T.contents trace.new) tracer.new) }
    ensures every { OnOk result (tracer.new.every ≡ tracer.old.every) }
    ensures untraced { IfOk result (λ on. on ≡ false → T.contents trace.new ≡ T.contents trace.old) }
{
    if !player.obey(alloc, said, writer)? {
        return Ok(false);
    }
    show_front(alloc, said, lines, place, trace)?;
    tracer.follow(alloc, &player.book, trace)?;
    Ok(true)
}

/// Obeys and traces commands up to an expectation that fails. Returns the exit status: 0, or 1 if one failed.
fn trace_each<W: Write, T: Write, E: Write>(
    alloc: Global,
    player: &mut Player,
    commands: &[Said<'_>],
    lines: &[Line<'_>],
    tracer: &mut Tracer,
    trace: &mut T,
    writer: &mut W,
    errors: &mut E,
) -> io::Result<u8>
    ensures held { IfOk result (λ status. status ≡ 0 → last_of player.old ≡ None
        → IsWritten player.old.book (map plain_said commands.now) (W.contents writer.old) (W.contents writer.new)) }
    ensures missed { IfOk result (λ status. status ≡ 1 → last_of player.old ≡ None
        → IsMissed player.old.book (map plain_said commands.now) (W.contents writer.old) (W.contents writer.new)) }
    ensures traced { IfOk result (λ status. status ≡ 0 → last_of player.old ≡ None → IsAtStart player.old.book tracer.old
        → IsBookTraced tracer.old.every (map plain_line lines.now) player.old.book (map plain_said commands.now) (T.contents trace.old) (T.contents trace.new)) }
    ensures in_part { IfOk result (λ status. status ≡ 1 → last_of player.old ≡ None → IsAtStart player.old.book tracer.old
        → IsBookTracedInPart tracer.old.every (map plain_line lines.now) player.old.book (map plain_said commands.now) (T.contents trace.old) (T.contents trace.new)) }
    ensures status { IfOk result (λ status. (status ≡ 0) ⊎ (status ≡ 1)) }
{
    let mut place = first_of(lines, commands.len());
    for said in commands {
        if !trace_next(alloc, player, said, lines, place, tracer, trace, writer)? {
            return Ok(MISSED);
        }
        player.explain(alloc, said, errors);
        place = place.saturating_add(1);
    }
    Ok(DONE)
}

/// The sizes of a link's stores, as a script sets them.
fn limits_of(settings: Settings) -> Limits
    requires { AreInRange settings }
    ensures { result ≡ record { port = settings.ports; env = settings.env; journal = settings.journal } }
{
    let limits = Limits::new(
        settings.ports as usize,
        settings.env as usize,
        settings.journal as usize,
    );
    match limits {
        Some(limits) => limits,
        None => unreachable!(),
    }
}

/// The tracer for a script with these settings.
pub(crate) fn open_tracer(
    alloc: Global,
    set: &Verified,
    settings: Settings,
    every: bool,
) -> Result<Tracer, AllocError>
    requires { AreInRange settings }
    ensures every { IfOk result (λ t. t.every ≡ every) }
    ensures start { IfOk result (IsAtStart (first_book set.now settings)) }
{
    let tracer = new_tracer(alloc, set, limits_of(settings), every)?;
    Ok(tracer)
}

/// Obeys and traces a script on a new link. Returns the exit status: 0, or 1 if an expectation failed.
fn trace_link<W: Write, T: Write, E: Write>(
    alloc: Global,
    set: &Verified,
    script: &Script<'_>,
    text: &str,
    every: bool,
    trace: &mut T,
    writer: &mut W,
    errors: &mut E,
) -> io::Result<u8>
    requires { AreInRange script.now.settings }
    ensures held { IfOk result (λ status. status ≡ 0
        → IsWritten (first_book set.now script.now.settings) (plain_script script.now).commands (W.contents writer.old) (W.contents writer.new)) }
    ensures missed { IfOk result (λ status. status ≡ 1
        → IsMissed (first_book set.now script.now.settings) (plain_script script.now).commands (W.contents writer.old) (W.contents writer.new)) }
    ensures traced { IfOk result (λ status. status ≡ 0
        → IsBookTraced every (lines_of text.now) (first_book set.now script.now.settings) (plain_script script.now).commands (T.contents trace.old) (T.contents trace.new)) }
    ensures in_part { IfOk result (λ status. status ≡ 1
        → IsBookTracedInPart every (lines_of text.now) (first_book set.now script.now.settings) (plain_script script.now).commands (T.contents trace.old) (T.contents trace.new)) }
    ensures status { IfOk result (λ status. (status ≡ 0) ⊎ (status ≡ 1)) }
{
    let lines = lines_in(alloc, text)?;
    let mut tracer = open_tracer(alloc, set, script.settings, every)?;
    let mut player = open_player(alloc, set, script.settings)?;
    let status = trace_each(
        alloc,
        &mut player,
        &script.commands,
        &lines,
        &mut tracer,
        trace,
        writer,
        errors,
    )?;
    Ok(status)
}

/// Runs a book script on a process set, as `play_book` does, and traces it: each command's line of the script's text,
/// except for `state`, `value` and `expect`, followed by a line for each event that it caused.
///
/// Returns the exit status. 0: each command ran and all was written. 1: an expectation failed, and `failed line N` was
/// written. 4: out of memory, or a write failed.
pub fn trace_book<W: Write, T: Write, E: Write>(
    alloc: Global,
    set: &Verified,
    script: &Script<'_>,
    text: &str,
    every: bool,
    trace: &mut T,
    writer: &mut W,
    errors: &mut E,
) -> u8
    requires { AreInRange script.now.settings }
    ensures held { result ≡ 0
        → IsWritten (first_book set.now script.now.settings) (plain_script script.now).commands (W.contents writer.old) (W.contents writer.new) }
    ensures missed { result ≡ 1
        → IsMissed (first_book set.now script.now.settings) (plain_script script.now).commands (W.contents writer.old) (W.contents writer.new) }
    ensures traced { result ≡ 0
        → IsBookTraced every (lines_of text.now) (first_book set.now script.now.settings) (plain_script script.now).commands (T.contents trace.old) (T.contents trace.new) }
    ensures in_part { result ≡ 1
        → IsBookTracedInPart every (lines_of text.now) (first_book set.now script.now.settings) (plain_script script.now).commands (T.contents trace.old) (T.contents trace.new) }
    ensures status { (result ≡ 0) ⊎ (result ≡ 1) ⊎ (result ≡ 4) }
{
    match trace_link(alloc, set, script, text, every, trace, writer, errors) {
        Ok(status) => status,
        Err(_) => FAILED,
    }
}
