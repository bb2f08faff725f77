//! Runs terminals' scripts with a capture.
ghost use Rattle.std.specs.Prelude.{◌≡◌, ◌⊎◌, ◌++◌, ◌∷◌, [], ℕ, Bool, List, Option, None, map, IfOk, OnOk, true, false};
ghost use Rattle.line_streams.specs.declared.seen.Seen.{Seen as OneSeen};
ghost use Rattle.script_links.specs.TermCommands.{plain_term_command};
ghost use Rattle.script_links.specs.TermScripts.{PlainTermSaid, plain_term_said, asks_told};
ghost use Rattle.link_term.specs.Term.{Term};
ghost use Rattle.script_seen.specs.TermAnswers.{next_of, behind_next, unit_line};
ghost use Rattle.script_seen.specs.TermRuns.{last_of, HasPrinted, HasGivenOut, IsTermRun, IsTermWritten, IsTermMissed, IsTermFailed, IsTermMissedBy, IsOfNew, LacksName};
ghost use Rattle.script_play.specs.Captured.{time_of, repeated, IsComing, is_noted, Hears, Sends, IsCapturing, IsTermCapturing, IsCaptured, IsCapturedInPart};

use crate::capturing::{LinkSeen, begin, lost, time_of};
use link_term::Terminal;
use plain_text::{DONE, FAILED};
use resend_store::RoundLimits;
use script_book::{MISSED, text_line};
use script_links::{TermCommand, TermSaid, TermScript};
use script_seen::{TermPlayer, asks_told, line_of_unit, new_player, refuse_set};
use std::alloc::{AllocError, Global};
use std::io::{self, Write};
use su_octets::Unit;
use turn_check::Verified;

/// The octets received for a signal unit in error: two flags with an octet of 0s between them.
const ERRORED: [u8; 3] = [0x7E, 0, 0x7E];

/// The line of a signal unit that is sent, or `silent`.
pub(crate) fn line_of(alloc: Global, given: &Option<Unit>) -> Result<Vec<u8>, AllocError>
    ensures { IfOk result (λ line. line.items ≡ unit_line given.now) }
{
    match given {
        Some(unit) => text_line(alloc, unit),
        None => Vec::from_slice(alloc, b"silent"),
    }
}

/// Takes the next signal unit and prints its line or `silent`; then clears the buffers if the text requires it.
fn next_out<W: Write>(
    alloc: Global,
    player: &mut TermPlayer,
    writer: &mut W,
) -> io::Result<Option<Unit>>
    ensures unit { IfOk result (λ unit. unit ≡ (next_of player.old.terminal).unit) }
    ensures goes { OnOk result (player.new.terminal ≡ behind_next player.old.terminal) }
    ensures printed { OnOk result (HasPrinted (W.contents writer.old) (W.contents writer.new) (last_of player.old) (last_of player.new)
        (unit_line (next_of player.old.terminal).unit ∷ [])) }
{
    let given = player.terminal.unit_out()?;
    let _cleared = player.terminal.obey_clear();
    let line = line_of(alloc, &given)?;
    player.printer.print(line, writer)?;
    Ok(given)
}

/// Sends `units` signal units and captures them; prints one line `silent` when there is none.
fn give_out<T: Write, W: Write>(
    alloc: Global,
    player: &mut TermPlayer,
    at: u64,
    units: u32,
    link: &mut LinkSeen,
    out: &mut T,
    writer: &mut W,
) -> io::Result<()>
    ensures given { OnOk result (HasGivenOut units (W.contents writer.old) (W.contents writer.new) (last_of player.old) (last_of player.new)
        player.old.terminal player.new.terminal) }
    ensures captured { OnOk result ((every : Bool) (came : List ℕ) (ss : List OneSeen) (begun : Option (List ℕ))
        → IsCapturing 0 every came ss begun (T.contents out.old) link.old
        → (last : List OneSeen) × Sends 0 at units player.old.terminal ss player.new.terminal last
        × IsCapturing 0 every came last begun (T.contents out.new) link.new) }
{
    for gone in 0..units {
        match next_out(alloc, player, writer)? {
            Some(unit) => link.send(0, at, &unit, out)?,
            None => return Ok(()),
        }
    }
    Ok(())
}

/// The octets that a command delivers, and the number of repetitions.
#[derive(Drop)]
pub(crate) struct Coming {
    pub(crate) octets: Vec<u8>,
    pub(crate) times: u32,
}

/// The octets that a command delivers; the command is neither `out` nor an expectation.
fn come_by(alloc: Global, command: &TermCommand<'_>) -> io::Result<Coming>
    ensures noted { OnOk result (is_noted (plain_term_command command.now) ≡ true) }
    ensures coming { IfOk result (λ c. IsComing (plain_term_command command.now) (repeated c.times c.octets.items)) }
{
    match command {
        TermCommand::Unit(octets) => {
            let octets = line_of_unit(alloc, octets)?;
            Ok(Coming { octets, times: 1 })
        }
        TermCommand::Units(times, octets) => {
            let octets = line_of_unit(alloc, octets)?;
            Ok(Coming {
                octets,
                times: *times,
            })
        }
        TermCommand::Errors(times) => {
            let octets = Vec::from_slice(alloc, &ERRORED)?;
            Ok(Coming {
                octets,
                times: *times,
            })
        }
        TermCommand::Line(octets) => {
            let octets = Vec::from_slice(alloc, octets)?;
            Ok(Coming { octets, times: 1 })
        }
        TermCommand::Out(_) | TermCommand::Expect(_) => Err(lost()),
        TermCommand::Order(_)
        | TermCommand::Msu(_)
        | TermCommand::Tick(_)
        | TermCommand::Told
        | TermCommand::Accepted
        | TermCommand::Retrieve(_)
        | TermCommand::Measure(_)
        | TermCommand::Aborted
        | TermCommand::Reset
        | TermCommand::State(_)
        | TermCommand::Value(_, _) => Ok(Coming {
            octets: Vec::new(alloc),
            times: 0,
        }),
    }
}

/// Captures the octets that a command delivers; the command is neither `out` nor an expectation.
fn note<T: Write>(
    alloc: Global,
    command: &TermCommand<'_>,
    at: u64,
    link: &mut LinkSeen,
    out: &mut T,
) -> io::Result<()>
    ensures noted { OnOk result (is_noted (plain_term_command command.now) ≡ true) }
    ensures heard { OnOk result ((come : List ℕ) × IsComing (plain_term_command command.now) come
        × ((every : Bool) (came : List ℕ) (ss : List OneSeen) (begun : Option (List ℕ))
        → IsCapturing 0 every came ss begun (T.contents out.old) link.old
        → (last : List OneSeen) × Hears 0 at came come ss last × IsCapturing 0 every (came ++ come) last begun (T.contents out.new) link.new)) }
{
    let coming = come_by(alloc, command)?;
    link.hear_times(0, at, &coming.octets, coming.times, out)?;
    Ok(())
}

/// Obeys a command, and captures the signal units that it delivers and sends. Returns whether the run goes on.
fn capture_next<T: Write, W: Write>(
    alloc: Global,
    player: &mut TermPlayer,
    said: &TermSaid<'_>,
    keeps: bool,
    link: &mut LinkSeen,
    out: &mut T,
    writer: &mut W,
) -> io::Result<bool>
    ensures goes { IfOk result (λ on. on ≡ true → (t : Term) (before : List PlainTermSaid) (first : Option (List ℕ))
        → IsTermRun keeps t before first (W.contents writer.old) player.old.terminal (last_of player.old)
        → IsTermRun keeps t (before ++ plain_term_said said.now ∷ []) first (W.contents writer.new) player.new.terminal (last_of player.new)) }
    ensures missed { IfOk result (λ on. on ≡ false → IsTermMissedBy (plain_term_said said.now) (last_of player.old) (W.contents writer.old) (W.contents writer.new)) }
    ensures captured { IfOk result (λ on. on ≡ true → (every : Bool) (t : Term) (before : List PlainTermSaid) (begun : Option (List ℕ))
        → IsTermCapturing every keeps t before begun (T.contents out.old) player.old.terminal (last_of player.old) link.old
        → IsTermCapturing every keeps t (before ++ plain_term_said said.now ∷ []) begun (T.contents out.new) player.new.terminal (last_of player.new) link.new) }
    ensures uncaptured { IfOk result (λ on. on ≡ false → T.contents out.new ≡ T.contents out.old) }
{
    let at = time_of(player.terminal.book().clock())?;
    match &said.command {
        TermCommand::Out(units) => {
            give_out(alloc, player, at, *units, link, out, writer)?;
            Ok(true)
        }
        TermCommand::Expect(_) => player.obey(alloc, said, keeps, writer),
        command => {
            note(alloc, command, at, link, out)?;
            player.obey(alloc, said, keeps, writer)
        }
    }
}

/// Obeys and captures the commands, in order, up to an expectation that fails. Returns the exit status: 0, or 1 if one
/// failed.
fn capture_each<T: Write, W: Write>(
    alloc: Global,
    player: &mut TermPlayer,
    commands: &[TermSaid<'_>],
    keeps: bool,
    link: &mut LinkSeen,
    out: &mut T,
    writer: &mut W,
) -> io::Result<u8>
    ensures held { IfOk result (λ status. status ≡ 0 → last_of player.old ≡ None
        → (now : Term) × (last : Option (List ℕ)) × IsTermRun keeps player.old.terminal (map plain_term_said commands.now) (W.contents writer.old) (W.contents writer.new) now last) }
    ensures missed { IfOk result (λ status. status ≡ 1 → last_of player.old ≡ None
        → IsTermMissed keeps (map plain_term_said commands.now) (W.contents writer.old) (W.contents writer.new) player.old.terminal) }
    ensures captured { IfOk result (λ status. status ≡ 0 → last_of player.old ≡ None → (every : Bool) (begun : Option (List ℕ))
        → IsCapturing 0 every [] [] begun (T.contents out.old) link.old
        → IsCaptured every keeps player.old.terminal (map plain_term_said commands.now) begun (T.contents out.new)) }
    ensures in_part { IfOk result (λ status. status ≡ 1 → last_of player.old ≡ None → (every : Bool) (begun : Option (List ℕ))
        → IsCapturing 0 every [] [] begun (T.contents out.old) link.old
        → IsCapturedInPart every keeps player.old.terminal (map plain_term_said commands.now) begun (T.contents out.new)) }
    ensures status { IfOk result (λ status. (status ≡ 0) ⊎ (status ≡ 1)) }
{
    for said in commands {
        if !capture_next(alloc, player, said, keeps, link, out, writer)? {
            return Ok(MISSED);
        }
    }
    Ok(DONE)
}

/// Obeys and captures a script on a new terminal. Returns the exit status: 0, or 1 if an expectation failed.
fn capture_on<T: Write, W: Write>(
    alloc: Global,
    terminal: Terminal,
    script: &TermScript<'_>,
    every: bool,
    out: &mut T,
    writer: &mut W,
) -> io::Result<u8>
    ensures held { IfOk result (λ status. status ≡ 0
        → IsTermWritten (map plain_term_said script.now.commands.items) (W.contents writer.old) (W.contents writer.new) terminal) }
    ensures missed { IfOk result (λ status. status ≡ 1
        → IsTermFailed (map plain_term_said script.now.commands.items) (W.contents writer.old) (W.contents writer.new) terminal) }
    ensures captured { IfOk result (λ status. status ≡ 0
        → IsCaptured every (asks_told (map plain_term_said script.now.commands.items)) terminal (map plain_term_said script.now.commands.items) (T.contents out.old) (T.contents out.new)) }
    ensures in_part { IfOk result (λ status. status ≡ 1
        → IsCapturedInPart every (asks_told (map plain_term_said script.now.commands.items)) terminal (map plain_term_said script.now.commands.items) (T.contents out.old) (T.contents out.new)) }
    ensures status { IfOk result (λ status. (status ≡ 0) ⊎ (status ≡ 1)) }
{
    let mut link = LinkSeen::new(every);
    let mut player = new_player(terminal);
    let commands = script.commands.as_slice();
    let keeps = asks_told(commands);
    begin(out)?;
    let status = capture_each(alloc, &mut player, commands, keeps, &mut link, out, writer)?;
    Ok(status)
}

/// Obeys and captures a script on a new terminal. Returns the exit status: 4 if memory runs out or a write fails.
fn capture_new<T: Write, W: Write>(
    alloc: Global,
    terminal: Terminal,
    script: &TermScript<'_>,
    every: bool,
    out: &mut T,
    writer: &mut W,
) -> u8
    ensures held { result ≡ 0
        → IsTermWritten (map plain_term_said script.now.commands.items) (W.contents writer.old) (W.contents writer.new) terminal }
    ensures missed { result ≡ 1
        → IsTermFailed (map plain_term_said script.now.commands.items) (W.contents writer.old) (W.contents writer.new) terminal }
    ensures captured { result ≡ 0
        → IsCaptured every (asks_told (map plain_term_said script.now.commands.items)) terminal (map plain_term_said script.now.commands.items) (T.contents out.old) (T.contents out.new) }
    ensures in_part { result ≡ 1
        → IsCapturedInPart every (asks_told (map plain_term_said script.now.commands.items)) terminal (map plain_term_said script.now.commands.items) (T.contents out.old) (T.contents out.new) }
    ensures status { (result ≡ 0) ⊎ (result ≡ 1) ⊎ (result ≡ 4) }
{
    match capture_on(alloc, terminal, script, every, out, writer) {
        Ok(status) => status,
        Err(_) => FAILED,
    }
}

/// Runs a terminal's script on a terminal that runs a process set, as `play_terminal` does, and captures its link.
///
/// Returns the exit status. 0: each command ran and all was written. 1: an expectation failed (`failed line N`). 2: the
/// set lacks a name that a terminal needs (only `refused X2 NoName NAME` is written). 4: memory or a write failed.
pub(crate) fn capture_terminal<T: Write, W: Write>(
    alloc: Global,
    set: &Verified,
    usual: RoundLimits,
    script: &TermScript<'_>,
    every: bool,
    out: &mut T,
    writer: &mut W,
) -> u8
    ensures held { result ≡ 0
        → IsOfNew set.now usual script.now.head (IsTermWritten (map plain_term_said script.now.commands.items) (W.contents writer.old) (W.contents writer.new)) }
    ensures missed { result ≡ 1
        → IsOfNew set.now usual script.now.head (IsTermFailed (map plain_term_said script.now.commands.items) (W.contents writer.old) (W.contents writer.new)) }
    ensures captured { result ≡ 0
        → IsOfNew set.now usual script.now.head (λ t. IsCaptured every (asks_told (map plain_term_said script.now.commands.items)) t
        (map plain_term_said script.now.commands.items) (T.contents out.old) (T.contents out.new)) }
    ensures in_part { result ≡ 1
        → IsOfNew set.now usual script.now.head (λ t. IsCapturedInPart every (asks_told (map plain_term_said script.now.commands.items)) t
        (map plain_term_said script.now.commands.items) (T.contents out.old) (T.contents out.new)) }
    ensures refused { result ≡ 2 → LacksName set.now (W.contents writer.old) (W.contents writer.new) }
    ensures status { (result ≡ 0) ⊎ (result ≡ 1) ⊎ (result ≡ 2) ⊎ (result ≡ 4) }
{
    let limits = script.head.limits_over(usual);
    match Terminal::of_set_within(alloc, limits, script.head.mode, set) {
        Ok(terminal) => capture_new(alloc, terminal, script, every, out, writer),
        Err(error) => refuse_set(alloc, writer, error),
    }
}
