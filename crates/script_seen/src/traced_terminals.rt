//! Runs terminals' scripts with a trace.
ghost use Rattle.std.specs.Prelude.{◌≡◌, ◌⊎◌, ◌++◌, ◌∷◌, [], List, ℕ, Option, None, map, OnOk, IfOk, true, false};
ghost use Rattle.std.specs.Io.KnownBytes.{Appends};
ghost use Rattle.actor_machine.specs.Kept.{opened_book};
ghost use Rattle.script_lines.specs.Lines.{plain_line, lines_of};
ghost use Rattle.script_links.specs.TermCommands.{plain_term_command};
ghost use Rattle.script_links.specs.TermScripts.{PlainTermSaid, plain_term_said, asks_told};
ghost use Rattle.plain_laws.specs.Limits.{MOST_PORT, MOST_ENVIRONMENT, MOST_JOURNAL};
ghost use Rattle.script_ends.specs.Term.{Term};
ghost use Rattle.script_ends.specs.TermRuns.{last_of, IsTermRun, IsTermWritten, IsTermMissed, IsTermFailed, IsTermMissedBy, IsOfNew, LacksName};
ghost use Rattle.script_seen.specs.Traced.{IsFront};
ghost use Rattle.script_seen.specs.TracedKinds.{term_only_asks, book_in, IsAtStart, TermTracing, IsTermTraced, IsTermTracedInPart};

use crate::fronts::{first_of, show_line};
use crate::tracing::{Tracer, new_tracer};
use actor_book::Limits;
use plain_text::{DONE, FAILED};
use script_ends::{MISSED, TermPlayer, Terminal, asks_told, new_player, refuse_set};
use script_lines::{Line, lines_in};
use script_links::{RoundLimits, TermCommand, TermSaid, TermScript};
use std::alloc::{AllocError, Global};
use std::io::{self, Write};
use turn_check::Verified;

/// The largest number of signals in a port of a terminal.
const PORT: usize = 64;

/// The largest number of signals that wait for its environment.
const ENVIRONMENT: usize = 1_024;

/// The largest number of events in its journal.
const JOURNAL: usize = 65_536;

/// Whether a command is a question, which causes no event.
fn only_asks(command: &TermCommand<'_>) -> bool
    ensures { result ≡ term_only_asks (plain_term_command command.now) }
{
    match command {
        TermCommand::Measure(_)
        | TermCommand::Aborted
        | TermCommand::State(_)
        | TermCommand::Value(_, _)
        | TermCommand::Expect(_) => true,
        TermCommand::Order(_)
        | TermCommand::Unit(_)
        | TermCommand::Units(_, _)
        | TermCommand::Errors(_)
        | TermCommand::Line(_)
        | TermCommand::Msu(_)
        | TermCommand::Out(_)
        | TermCommand::Tick(_)
        | TermCommand::Told
        | TermCommand::Accepted
        | TermCommand::Retrieve(_)
        | TermCommand::Reset => false,
    }
}

/// Writes the line of a command, at index `place` of the script's lines; nothing for a question.
fn show_front<T: Write>(
    alloc: Global,
    said: &TermSaid<'_>,
    lines: &[Line<'_>],
    place: usize,
    trace: &mut T,
) -> io::Result<()>
    ensures { OnOk result ((front : List ℕ) × IsFront (term_only_asks (plain_term_command said.now.command)) (map plain_line lines.now) said.now.line front
        × Appends (T.contents trace.old) (T.contents trace.new) front) }
{
    if only_asks(&said.command) {
        return Ok(());
    }
    show_line(alloc, lines, place, said.line, trace)
}

/// Obeys a command, and traces its events. Returns whether the run goes on.
fn trace_next<W: Write, T: Write>(
    alloc: Global,
    player: &mut TermPlayer,
    said: &TermSaid<'_>,
    lines: &[Line<'_>],
    place: usize,
    keeps: bool,
    tracer: &mut Tracer,
    trace: &mut T,
    writer: &mut W,
) -> io::Result<bool>
    ensures goes { IfOk result (λ on. on ≡ true → (t : Term) (before : List PlainTermSaid) (first : Option (List ℕ))
        → IsTermRun keeps t before first (W.contents writer.old) player.old.terminal (last_of player.old)
        → IsTermRun keeps t (before ++ plain_term_said said.now ∷ []) first (W.contents writer.new) player.new.terminal (last_of player.new)) }
    ensures missed { IfOk result (λ on. on ≡ false → IsTermMissedBy (plain_term_said said.now) (last_of player.old) (W.contents writer.old) (W.contents writer.new)) }
    ensures traced { IfOk result (λ on. on ≡ true → (t : Term) (before : List PlainTermSaid) (first begun : Option (List ℕ))
        → IsTermRun keeps t before first (W.contents writer.old) player.old.terminal (last_of player.old)
        → TermTracing keeps (map plain_line lines.now) t before begun (T.contents trace.old) tracer.old
        → TermTracing keeps (map plain_line lines.now) t (before ++ plain_term_said said.now ∷ []) begun (T.contents trace.new) tracer.new) }
    ensures every { OnOk result (tracer.new.every ≡ tracer.old.every) }
    ensures untraced { IfOk result (λ on. on ≡ false → T.contents trace.new ≡ T.contents trace.old) }
{
    if !player.obey(alloc, said, keeps, writer)? {
        return Ok(false);
    }
    show_front(alloc, said, lines, place, trace)?;
    tracer.follow(alloc, player.terminal.book(), trace)?;
    Ok(true)
}

/// Obeys and traces commands up to an expectation that fails. Returns the exit status: 0, or 1 if one failed.
fn trace_each<W: Write, T: Write>(
    alloc: Global,
    player: &mut TermPlayer,
    commands: &[TermSaid<'_>],
    lines: &[Line<'_>],
    keeps: bool,
    tracer: &mut Tracer,
    trace: &mut T,
    writer: &mut W,
) -> io::Result<u8>
    ensures held { IfOk result (λ status. status ≡ 0 → last_of player.old ≡ None
        → (now : Term) × (last : Option (List ℕ)) × IsTermRun keeps player.old.terminal (map plain_term_said commands.now) (W.contents writer.old) (W.contents writer.new) now last) }
    ensures missed { IfOk result (λ status. status ≡ 1 → last_of player.old ≡ None
        → IsTermMissed keeps (map plain_term_said commands.now) (W.contents writer.old) (W.contents writer.new) player.old.terminal) }
    ensures traced { IfOk result (λ status. status ≡ 0 → last_of player.old ≡ None → IsAtStart (book_in player.old.terminal) tracer.old
        → IsTermTraced tracer.old.every keeps (map plain_line lines.now) player.old.terminal (map plain_term_said commands.now) (T.contents trace.old) (T.contents trace.new)) }
    ensures in_part { IfOk result (λ status. status ≡ 1 → last_of player.old ≡ None → IsAtStart (book_in player.old.terminal) tracer.old
        → IsTermTracedInPart tracer.old.every keeps (map plain_line lines.now) player.old.terminal (map plain_term_said commands.now) (T.contents trace.old) (T.contents trace.new)) }
    ensures status { IfOk result (λ status. (status ≡ 0) ⊎ (status ≡ 1)) }
{
    let mut place = first_of(lines, commands.len());
    for said in commands {
        if !trace_next(
            alloc, player, said, lines, place, keeps, tracer, trace, writer,
        )? {
            return Ok(MISSED);
        }
        place = place.saturating_add(1);
    }
    Ok(DONE)
}

/// The sizes of the stores of a terminal's book.
fn terminal_limits() -> Limits
    ensures { result ≡ record { port = MOST_PORT; env = MOST_ENVIRONMENT; journal = MOST_JOURNAL } }
{
    match Limits::new(PORT, ENVIRONMENT, JOURNAL) {
        Some(limits) => limits,
        None => unreachable!(),
    }
}

/// Returns a tracer of a new terminal that runs a process set. With `every` it traces skips and dull turns too.
pub fn open_tracer(alloc: Global, set: &Verified, every: bool) -> Result<Tracer, AllocError>
    ensures every { IfOk result (λ t. t.every ≡ every) }
    ensures start { IfOk result (IsAtStart (opened_book set.now MOST_PORT MOST_ENVIRONMENT MOST_JOURNAL)) }
{
    let tracer = new_tracer(alloc, set, terminal_limits(), every)?;
    Ok(tracer)
}

/// Obeys and traces a script on a new terminal. Returns the exit status: 0, or 1 if an expectation failed.
fn trace_on<W: Write, T: Write>(
    alloc: Global,
    set: &Verified,
    terminal: Terminal,
    script: &TermScript<'_>,
    text: &str,
    every: bool,
    trace: &mut T,
    writer: &mut W,
) -> io::Result<u8>
    ensures held { IfOk result (λ status. status ≡ 0
        → IsTermWritten (map plain_term_said script.now.commands.items) (W.contents writer.old) (W.contents writer.new) terminal) }
    ensures missed { IfOk result (λ status. status ≡ 1
        → IsTermFailed (map plain_term_said script.now.commands.items) (W.contents writer.old) (W.contents writer.new) terminal) }
    ensures traced { IfOk result (λ status. status ≡ 0 → book_in terminal ≡ opened_book set.now MOST_PORT MOST_ENVIRONMENT MOST_JOURNAL
        → IsTermTraced every (asks_told (map plain_term_said script.now.commands.items)) (lines_of text.now) terminal (map plain_term_said script.now.commands.items) (T.contents trace.old) (T.contents trace.new)) }
    ensures in_part { IfOk result (λ status. status ≡ 1 → book_in terminal ≡ opened_book set.now MOST_PORT MOST_ENVIRONMENT MOST_JOURNAL
        → IsTermTracedInPart every (asks_told (map plain_term_said script.now.commands.items)) (lines_of text.now) terminal (map plain_term_said script.now.commands.items) (T.contents trace.old) (T.contents trace.new)) }
    ensures status { IfOk result (λ status. (status ≡ 0) ⊎ (status ≡ 1)) }
{
    let lines = lines_in(alloc, text)?;
    let mut tracer = open_tracer(alloc, set, every)?;
    let mut player = new_player(terminal);
    let commands = script.commands.as_slice();
    let keeps = asks_told(commands);
    let status = trace_each(
        alloc,
        &mut player,
        commands,
        &lines,
        keeps,
        &mut tracer,
        trace,
        writer,
    )?;
    Ok(status)
}

/// Obeys and traces a script on a new terminal. Returns the exit status: 4 if memory runs out or a write fails.
fn trace_new<W: Write, T: Write>(
    alloc: Global,
    set: &Verified,
    terminal: Terminal,
    script: &TermScript<'_>,
    text: &str,
    every: bool,
    trace: &mut T,
    writer: &mut W,
) -> u8
    ensures held { result ≡ 0
        → IsTermWritten (map plain_term_said script.now.commands.items) (W.contents writer.old) (W.contents writer.new) terminal }
    ensures missed { result ≡ 1
        → IsTermFailed (map plain_term_said script.now.commands.items) (W.contents writer.old) (W.contents writer.new) terminal }
    ensures traced { result ≡ 0 → book_in terminal ≡ opened_book set.now MOST_PORT MOST_ENVIRONMENT MOST_JOURNAL
        → IsTermTraced every (asks_told (map plain_term_said script.now.commands.items)) (lines_of text.now) terminal (map plain_term_said script.now.commands.items) (T.contents trace.old) (T.contents trace.new) }
    ensures in_part { result ≡ 1 → book_in terminal ≡ opened_book set.now MOST_PORT MOST_ENVIRONMENT MOST_JOURNAL
        → IsTermTracedInPart every (asks_told (map plain_term_said script.now.commands.items)) (lines_of text.now) terminal (map plain_term_said script.now.commands.items) (T.contents trace.old) (T.contents trace.new) }
    ensures status { (result ≡ 0) ⊎ (result ≡ 1) ⊎ (result ≡ 4) }
{
    match trace_on(alloc, set, terminal, script, text, every, trace, writer) {
        Ok(status) => status,
        Err(_) => FAILED,
    }
}

/// Runs a terminal's script as `play_terminal` does, and traces the events of its processes as `trace_book` does.
///
/// Returns the exit status. 0: each command ran and all was written. 1: an expectation failed, and `failed line N` was
/// written. 2: the process set lacks a name that a terminal needs; only `refused X2 NoName NAME` was written. 4: out of
/// memory, a write failed, or the terminal's journal, once more than half full, restarts within a command.
pub fn trace_terminal<W: Write, T: Write>(
    alloc: Global,
    set: &Verified,
    usual: RoundLimits,
    script: &TermScript<'_>,
    text: &str,
    every: bool,
    trace: &mut T,
    writer: &mut W,
) -> u8
    ensures held { result ≡ 0
        → IsOfNew set.now usual script.now.head (IsTermWritten (map plain_term_said script.now.commands.items) (W.contents writer.old) (W.contents writer.new)) }
    ensures missed { result ≡ 1
        → IsOfNew set.now usual script.now.head (IsTermFailed (map plain_term_said script.now.commands.items) (W.contents writer.old) (W.contents writer.new)) }
    ensures traced { result ≡ 0
        → IsOfNew set.now usual script.now.head (λ t. IsTermTraced every (asks_told (map plain_term_said script.now.commands.items)) (lines_of text.now) t
        (map plain_term_said script.now.commands.items) (T.contents trace.old) (T.contents trace.new)) }
    ensures in_part { result ≡ 1
        → IsOfNew set.now usual script.now.head (λ t. IsTermTracedInPart every (asks_told (map plain_term_said script.now.commands.items)) (lines_of text.now) t
        (map plain_term_said script.now.commands.items) (T.contents trace.old) (T.contents trace.new)) }
    ensures refused { result ≡ 2 → LacksName set.now (W.contents writer.old) (W.contents writer.new) }
    ensures status { (result ≡ 0) ⊎ (result ≡ 1) ⊎ (result ≡ 2) ⊎ (result ≡ 4) }
{
    let limits = script.head.limits_over(usual);
    match Terminal::of_set_within(alloc, limits, script.head.mode, set) {
        Ok(terminal) => trace_new(alloc, set, terminal, script, text, every, trace, writer),
        Err(error) => refuse_set(alloc, writer, error),
    }
}
