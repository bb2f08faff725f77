//! Runs link sets' scripts with a trace.
ghost use Rattle.std.specs.Prelude.{◌≡◌, ◌⊎◌, ◌++◌, ◌∷◌, [], List, ℕ, Option, None, Some, map, slice_get, length, codes, OnOk, IfOk, true, false, Bool, All};
ghost use Rattle.std.specs.Fmt.{decimal};
ghost use Rattle.std.specs.Io.KnownBytes.{Appends};
ghost use Rattle.turn_code.specs.declared.draft.Draft.{Draft};
ghost use Rattle.actor_machine.specs.Ledger.{Ledger};
ghost use Rattle.script_lines.specs.Lines.{plain_line, lines_of};
ghost use Rattle.script_links.specs.GroupCommands.{plain_group_command};
ghost use Rattle.script_links.specs.GroupScripts.{PlainGroupSaid, plain_group_said, IsFew};
ghost use Rattle.plain_text.specs.Lines.{line_of};
ghost use Rattle.script_ends.specs.TermRuns.{LacksName};
ghost use Rattle.script_ends.specs.GroupAnswers.{Playing};
ghost use Rattle.script_ends.specs.GroupRuns.{playing_of, last_of, IsGroupRun, IsGroupMissedBy, IsGroupWritten, IsGroupMissed, IsOfNewSet};
ghost use Rattle.script_seen.specs.Traced.{IsFront, since, told_text};
ghost use Rattle.script_seen.specs.TracedGroups.{word_only_asks, group_only_asks, Reached, reached_at, IsReached, AreReached, reach, all_reach, books_of, clock_in, links_text, under_name, IsNewBook, AreNewLinks, IsGroupTraced, IsGroupTracedInPart};
ghost use Rattle.script_seen.specs.TracingGroups.{is_expectation, IsAtLink, AreAtLinks, IsToldBehind, IsGroupTracing};

use crate::changeovers::changeover_text;
use crate::fronts::{first_of, show_line};
use crate::traced_terminals::open_tracer;
use crate::tracing::{Tracer, lost};
use plain_text::{DONE, FAILED};
use script_ends::{GroupPlayer, MISSED, open_group, refuse_set, text_line};
use script_lines::{Line, lines_in};
use script_links::{GroupCommand, GroupSaid, GroupScript, GroupWord, RoundLimits};
use std::alloc::{AllocError, Global};
use std::io::{self, Write};
use turn_check::Verified;

/// Whether a command of one word is a question, which causes no event.
fn word_only_asks(word: GroupWord) -> bool
    ensures { result ≡ word_only_asks word }
{
    match word {
        GroupWord::Table | GroupWord::Held | GroupWord::Unsure | GroupWord::Link => true,
        GroupWord::Fail
        | GroupWord::Retrieve
        | GroupWord::Abandon
        | GroupWord::Divert
        | GroupWord::Rebalance => false,
    }
}

/// Whether a command is a question, which causes no event.
fn only_asks(command: &GroupCommand<'_>) -> bool
    ensures { result ≡ group_only_asks (plain_group_command command.now) }
{
    match command {
        GroupCommand::State(_)
        | GroupCommand::Value(_, _)
        | GroupCommand::Expect(_)
        | GroupCommand::On(_) => true,
        GroupCommand::Own(word) => word_only_asks(*word),
        GroupCommand::Order(_)
        | GroupCommand::Unit(_)
        | GroupCommand::Line(_)
        | GroupCommand::Out(_)
        | GroupCommand::Tick(_)
        | GroupCommand::Send(_)
        | GroupCommand::Bound(_)
        | GroupCommand::Message(_)
        | GroupCommand::Admit(_) => false,
    }
}

/// Whether a command is an expectation.
fn is_expectation(command: &GroupCommand<'_>) -> bool
    ensures { result ≡ is_expectation (plain_group_command command.now) }
{
    match command {
        GroupCommand::Expect(_) => true,
        GroupCommand::Order(_)
        | GroupCommand::Unit(_)
        | GroupCommand::Line(_)
        | GroupCommand::Out(_)
        | GroupCommand::Tick(_)
        | GroupCommand::State(_)
        | GroupCommand::Value(_, _)
        | GroupCommand::On(_)
        | GroupCommand::Send(_)
        | GroupCommand::Bound(_)
        | GroupCommand::Message(_)
        | GroupCommand::Admit(_)
        | GroupCommand::Own(_) => false,
    }
}

/// Writes the line of a command, at index `place` of the script's lines; nothing for a question.
fn show_front<T: Write>(
    alloc: Global,
    said: &GroupSaid<'_>,
    lines: &[Line<'_>],
    place: usize,
    trace: &mut T,
) -> io::Result<()>
    ensures { OnOk result ((front : List ℕ) × IsFront (group_only_asks (plain_group_command said.now.command)) (map plain_line lines.now) said.now.line front
        × Appends (T.contents trace.old) (T.contents trace.new) front) }
{
    if only_asks(&said.command) {
        return Ok(());
    }
    show_line(alloc, lines, place, said.line, trace)
}

/// Returns a tracer for each of `links` links that run a process set.
fn open_tracers(
    alloc: Global,
    set: &Verified,
    links: u32,
    every: bool,
) -> Result<Vec<Tracer>, AllocError>
    ensures { IfOk result (λ ts. (bs : List Ledger) → length bs ≡ links → All (IsNewBook set.now) bs → AreAtLinks every set.now (map reached_at bs) ts.items) }
{
    let mut tracers = Vec::new(alloc);
    for _link in 0..links {
        let tracer = open_tracer(alloc, set, every)?;
        tracers.push(tracer)?;
    }
    Ok(tracers)
}

/// Returns the ticks of a link set, whose links share one clock.
pub fn clock_of(player: &GroupPlayer) -> u64
    ensures { result ≡ clock_in (books_of (playing_of player.now)) }
{
    match player.group.book(0) {
        Some(book) => book.clock(),
        None => 0,
    }
}

/// The line that names a link.
fn name_line(alloc: Global, link: usize) -> Result<Vec<u8>, AllocError>
    ensures { IfOk result (λ v. v.items ≡ line_of (codes "on " ++ decimal link)) }
{
    let mut line = text_line(alloc, &format_args!("on {link}"))?;
    line.push(b'\n')?;
    Ok(line)
}

/// Writes the trace of a link after a line that names the link; nothing if the trace is empty.
fn write_under<T: Write>(alloc: Global, link: usize, text: &[u8], trace: &mut T) -> io::Result<()>
    ensures { OnOk result (Appends (T.contents trace.old) (T.contents trace.new) (under_name link text.now)) }
{
    if text.is_empty() {
        return Ok(());
    }
    let name = name_line(alloc, link)?;
    trace.write_all(&name)?;
    trace.write_all(text)?;
    Ok(())
}

/// Traces the events of a link since the last call, after a line that names the link.
fn trace_one<T: Write>(
    alloc: Global,
    player: &GroupPlayer,
    link: usize,
    tracer: &mut Tracer,
    trace: &mut T,
) -> io::Result<()>
    ensures traced { OnOk result ((d : Draft) (r : Reached) → IsAtLink d r tracer.old → (b : Ledger) × (slice_get (books_of (playing_of player.now)) link ≡ Some b)
        × IsReached d r b × IsAtLink d (reach d r b) tracer.new
        × Appends (T.contents trace.old) (T.contents trace.new) (under_name link (told_text tracer.old.every d r.core (since r.place b)))) }
    ensures every { OnOk result (tracer.new.every ≡ tracer.old.every) }
{
    let Some(book) = player.group.book(link) else {
        return Err(lost());
    };
    let mut text = Vec::new(alloc);
    tracer.follow(alloc, book, &mut text)?;
    write_under(alloc, link, &text, trace)?;
    Ok(())
}

/// Traces the events of all links since the last call, each link's after a line that names it.
fn trace_links<T: Write>(
    alloc: Global,
    player: &GroupPlayer,
    tracers: &mut [Tracer],
    trace: &mut T,
) -> io::Result<()>
    ensures { OnOk result ((every : Bool) (d : Draft) (rs : List Reached) → AreAtLinks every d rs tracers.old
        → AreReached d rs (books_of (playing_of player.now)) × AreAtLinks every d (all_reach d rs (books_of (playing_of player.now))) tracers.new
        × Appends (T.contents trace.old) (T.contents trace.new) (links_text every d 0 rs (books_of (playing_of player.now)))) }
{
    if player.group.len() != tracers.len() {
        return Err(lost());
    }
    for link in 0..tracers.len() {
        trace_one(alloc, player, link, &mut tracers[link], trace)?;
    }
    Ok(())
}

/// Traces a command that was obeyed: its line and its events.
fn trace_behind<T: Write>(
    alloc: Global,
    player: &GroupPlayer,
    said: &GroupSaid<'_>,
    lines: &[Line<'_>],
    place: usize,
    tracers: &mut [Tracer],
    trace: &mut T,
) -> io::Result<()>
    ensures { OnOk result ((every : Bool) (d : Draft) (rs : List Reached) → AreAtLinks every d rs tracers.old
        → IsToldBehind every (map plain_line lines.now) d (plain_group_said said.now) (playing_of player.now) (last_of player.now) rs
        (T.contents trace.old) (T.contents trace.new) tracers.new) }
{
    show_front(alloc, said, lines, place, trace)?;
    let clock = clock_of(player);
    let told = changeover_text(alloc, clock, &said.command, &player.printer.last)?;
    trace.write_all(&told)?;
    trace_links(alloc, player, tracers, trace)?;
    Ok(())
}

/// Obeys a command, and traces its events. Returns whether the run goes on.
fn trace_next<W: Write, T: Write>(
    alloc: Global,
    player: &mut GroupPlayer,
    said: &GroupSaid<'_>,
    lines: &[Line<'_>],
    place: usize,
    tracers: &mut [Tracer],
    trace: &mut T,
    writer: &mut W,
) -> io::Result<bool>
    ensures goes { IfOk result (λ on. on ≡ true → (p : Playing) (before : List PlainGroupSaid) (first : Option (List ℕ))
        → IsGroupRun p before first (W.contents writer.old) (playing_of player.old) (last_of player.old)
        → IsGroupRun p (before ++ plain_group_said said.now ∷ []) first (W.contents writer.new) (playing_of player.new) (last_of player.new)) }
    ensures missed { IfOk result (λ on. on ≡ false → IsGroupMissedBy (plain_group_said said.now) (last_of player.old) (W.contents writer.old) (W.contents writer.new)) }
    ensures traced { IfOk result (λ on. on ≡ true → (every : Bool) (d : Draft) (p : Playing) (before : List PlainGroupSaid) (begun : Option (List ℕ))
        → IsGroupTracing every (map plain_line lines.now) d p before begun (T.contents trace.old) (playing_of player.old) (last_of player.old) tracers.old
        → IsGroupTracing every (map plain_line lines.now) d p (before ++ plain_group_said said.now ∷ []) begun (T.contents trace.new) (playing_of player.new)
        (last_of player.new) tracers.new) }
    ensures untraced { IfOk result (λ on. on ≡ false → T.contents trace.new ≡ T.contents trace.old) }
{
    if !player.obey(alloc, said, writer)? {
        return Ok(false);
    }
    if is_expectation(&said.command) {
        return Ok(true);
    }
    trace_behind(alloc, player, said, lines, place, tracers, trace)?;
    Ok(true)
}

/// Obeys and traces commands up to an expectation that fails. Returns the exit status: 0, or 1 if one failed.
fn trace_each<W: Write, T: Write>(
    alloc: Global,
    player: &mut GroupPlayer,
    commands: &[GroupSaid<'_>],
    lines: &[Line<'_>],
    tracers: &mut [Tracer],
    trace: &mut T,
    writer: &mut W,
) -> io::Result<u8>
    ensures held { IfOk result (λ status. status ≡ 0 → last_of player.old ≡ None
        → IsGroupWritten (map plain_group_said commands.now) (W.contents writer.old) (W.contents writer.new) (playing_of player.old)) }
    ensures missed { IfOk result (λ status. status ≡ 1 → last_of player.old ≡ None
        → IsGroupMissed (map plain_group_said commands.now) (W.contents writer.old) (W.contents writer.new) (playing_of player.old)) }
    ensures traced { IfOk result (λ status. status ≡ 0 → last_of player.old ≡ None → (every : Bool) (d : Draft)
        → AreAtLinks every d (map reached_at (books_of (playing_of player.old))) tracers.old
        → IsGroupTraced every (map plain_line lines.now) d (map plain_group_said commands.now) (T.contents trace.old) (T.contents trace.new) (playing_of player.old)) }
    ensures in_part { IfOk result (λ status. status ≡ 1 → last_of player.old ≡ None → (every : Bool) (d : Draft)
        → AreAtLinks every d (map reached_at (books_of (playing_of player.old))) tracers.old
        → IsGroupTracedInPart every (map plain_line lines.now) d (map plain_group_said commands.now) (T.contents trace.old) (T.contents trace.new) (playing_of player.old)) }
    ensures status { IfOk result (λ status. (status ≡ 0) ⊎ (status ≡ 1)) }
{
    let mut place = first_of(lines, commands.len());
    for said in commands {
        if !trace_next(alloc, player, said, lines, place, tracers, trace, writer)? {
            return Ok(MISSED);
        }
        place = place.saturating_add(1);
    }
    Ok(DONE)
}

/// Obeys and traces a script on a new link set. Returns the exit status: 0, or 1 if an expectation failed.
fn trace_set<W: Write, T: Write>(
    alloc: Global,
    set: &Verified,
    player: &mut GroupPlayer,
    script: &GroupScript<'_>,
    text: &str,
    every: bool,
    trace: &mut T,
    writer: &mut W,
) -> io::Result<u8>
    ensures held { IfOk result (λ status. status ≡ 0 → last_of player.old ≡ None
        → IsGroupWritten (map plain_group_said script.now.commands.items) (W.contents writer.old) (W.contents writer.new) (playing_of player.old)) }
    ensures missed { IfOk result (λ status. status ≡ 1 → last_of player.old ≡ None
        → IsGroupMissed (map plain_group_said script.now.commands.items) (W.contents writer.old) (W.contents writer.new) (playing_of player.old)) }
    ensures traced { IfOk result (λ status. status ≡ 0 → last_of player.old ≡ None → AreNewLinks set.now script.now.head (playing_of player.old)
        → IsGroupTraced every (lines_of text.now) set.now (map plain_group_said script.now.commands.items) (T.contents trace.old) (T.contents trace.new) (playing_of player.old)) }
    ensures in_part { IfOk result (λ status. status ≡ 1 → last_of player.old ≡ None → AreNewLinks set.now script.now.head (playing_of player.old)
        → IsGroupTracedInPart every (lines_of text.now) set.now (map plain_group_said script.now.commands.items) (T.contents trace.old) (T.contents trace.new) (playing_of player.old)) }
    ensures status { IfOk result (λ status. (status ≡ 0) ⊎ (status ≡ 1)) }
{
    let lines = lines_in(alloc, text)?;
    let mut tracers = open_tracers(alloc, set, script.head.links, every)?;
    let status = trace_each(
        alloc,
        player,
        &script.commands,
        &lines,
        &mut tracers,
        trace,
        writer,
    )?;
    Ok(status)
}

/// Obeys and traces a script on a new link set. Returns the exit status: 4 if memory runs out or a write fails.
fn trace_all<W: Write, T: Write>(
    alloc: Global,
    set: &Verified,
    player: &mut GroupPlayer,
    script: &GroupScript<'_>,
    text: &str,
    every: bool,
    trace: &mut T,
    writer: &mut W,
) -> u8
    ensures held { result ≡ 0 → last_of player.old ≡ None
        → IsGroupWritten (map plain_group_said script.now.commands.items) (W.contents writer.old) (W.contents writer.new) (playing_of player.old) }
    ensures missed { result ≡ 1 → last_of player.old ≡ None
        → IsGroupMissed (map plain_group_said script.now.commands.items) (W.contents writer.old) (W.contents writer.new) (playing_of player.old) }
    ensures traced { result ≡ 0 → last_of player.old ≡ None → AreNewLinks set.now script.now.head (playing_of player.old)
        → IsGroupTraced every (lines_of text.now) set.now (map plain_group_said script.now.commands.items) (T.contents trace.old) (T.contents trace.new) (playing_of player.old) }
    ensures in_part { result ≡ 1 → last_of player.old ≡ None → AreNewLinks set.now script.now.head (playing_of player.old)
        → IsGroupTracedInPart every (lines_of text.now) set.now (map plain_group_said script.now.commands.items) (T.contents trace.old) (T.contents trace.new) (playing_of player.old) }
    ensures status { (result ≡ 0) ⊎ (result ≡ 1) ⊎ (result ≡ 4) }
{
    match trace_set(alloc, set, player, script, text, every, trace, writer) {
        Ok(status) => status,
        Err(_) => FAILED,
    }
}

/// Runs a link set's script on links whose terminals run a process set, as `play_group` does, and traces it as
/// `trace_terminal` does. Each command's line is followed by its changeover messages, in words. Then comes, for each
/// link in the order of numbers, a line `on L` and the events on that link, if there were any.
///
/// Returns the exit status. 0: each command ran and all was written. 1: an expectation failed, and `failed line N` was
/// written. 2: the process set lacks a name that a terminal needs; only `refused X2 NoName NAME` was written. 4: out of
/// memory, a write failed, or one command caused more events on a link than its journal holds.
pub fn trace_group<W: Write, T: Write>(
    alloc: Global,
    set: &Verified,
    limits: RoundLimits,
    script: &GroupScript<'_>,
    text: &str,
    every: bool,
    trace: &mut T,
    writer: &mut W,
) -> u8
    requires { IsFew script.now.head.links }
    ensures held { result ≡ 0
        → IsOfNewSet set.now limits script.now.head (IsGroupWritten (map plain_group_said script.now.commands.items) (W.contents writer.old) (W.contents writer.new)) }
    ensures missed { result ≡ 1
        → IsOfNewSet set.now limits script.now.head (IsGroupMissed (map plain_group_said script.now.commands.items) (W.contents writer.old) (W.contents writer.new)) }
    ensures traced { result ≡ 0
        → IsOfNewSet set.now limits script.now.head (IsGroupTraced every (lines_of text.now) set.now (map plain_group_said script.now.commands.items) (T.contents trace.old) (T.contents trace.new)) }
    ensures in_part { result ≡ 1
        → IsOfNewSet set.now limits script.now.head (IsGroupTracedInPart every (lines_of text.now) set.now (map plain_group_said script.now.commands.items) (T.contents trace.old) (T.contents trace.new)) }
    ensures refused { result ≡ 2 → LacksName set.now (W.contents writer.old) (W.contents writer.new) }
    ensures status { (result ≡ 0) ⊎ (result ≡ 1) ⊎ (result ≡ 2) ⊎ (result ≡ 4) }
{
    match open_group(alloc, set, limits, script.head) {
        Ok(player) => {
            let mut player = player;
            trace_all(alloc, set, &mut player, script, text, every, trace, writer)
        }
        Err(error) => refuse_set(alloc, writer, error),
    }
}
