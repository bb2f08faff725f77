//! Runs link sets' scripts with a capture.
ghost use Rattle.std.specs.Prelude.{◌≡◌, ◌⊎◌, ◌<◌, ◌^◌, ◌++◌, ◌∷◌, [], ℕ, Bool, List, Option, None, Some, map, length, slice_get, IfOk, OnOk, true, false};
ghost use Rattle.std.specs.Io.KnownBytes.{Appends};
ghost use Rattle.line_streams.specs.Records.{HEADER};
ghost use Rattle.line_streams.specs.declared.seen.Seen.{Seen as OneSeen};
ghost use Rattle.actor_machine.specs.Ledger.{Ledger};
ghost use Rattle.script_seen.specs.SetLines.{ByLink};
ghost use Rattle.script_seen.specs.Doing.{Sent};
ghost use Rattle.script_links.specs.GroupCommands.{plain_group_command};
ghost use Rattle.script_links.specs.GroupScripts.{PlainGroupSaid, plain_group_said, IsFew};
ghost use Rattle.script_seen.specs.TermAnswers.{unit_line};
ghost use Rattle.script_seen.specs.TermRuns.{HasPrinted, LacksName};
ghost use Rattle.script_seen.specs.GroupAnswers.{Playing};
ghost use Rattle.script_seen.specs.GroupRuns.{playing_of, last_of, HasGivenOut, IsGroupRun, IsGroupWritten, IsGroupMissed, IsGroupMissedBy, IsOfNewSet};
ghost use Rattle.script_play.specs.Captured.{repeated, Hears, IsCapturing};
ghost use Rattle.script_seen.specs.TracedGroups.{books_of};
ghost use Rattle.script_play.specs.CapturedSets.{IsComing, is_noted, SendsOn, Goes, AreHeard, IsCapturedThere, IsSetCapturing, IsSetCaptured, IsSetCapturedInPart};

use crate::captured_terminals::{Coming, line_of};
use crate::capturing::{LinkSeen, begin, lost, time_of};
use plain_text::{DONE, FAILED};
use resend_store::RoundLimits;
use script_book::MISSED;
use script_links::{GroupCommand, GroupSaid, GroupScript};
use script_seen::{GroupPlayer, clock_of, line_of_unit, open_group, refuse_set};
use std::alloc::{AllocError, Global};
use std::io::{self, Write};
use su_octets::Unit;
use turn_check::Verified;

/// Returns this many links of which no signal unit was seen. `every`: whether every unit is recorded.
fn new_links(alloc: Global, count: u32, every: bool) -> Result<Vec<LinkSeen>, AllocError>
    ensures { IfOk result (λ v. (bs : List Ledger) → length bs ≡ count → AreHeard every [] 0 (map (λ b. []) bs) v.items) }
{
    let mut links = Vec::new(alloc);
    for _link in 0..count {
        let link = LinkSeen::new(every);
        links.push(link)?;
    }
    Ok(links)
}

/// Takes the next signal unit to send on the addressed link, and prints its line, or `silent`.
fn next_on<W: Write>(
    alloc: Global,
    player: &mut GroupPlayer,
    writer: &mut W,
) -> io::Result<Option<Unit>>
    ensures sent { IfOk result (λ unit. ByLink (Sent unit) player.old.on player.old.group player.new.group) }
    ensures on { player.new.on ≡ player.old.on }
    ensures printed { IfOk result (λ unit. HasPrinted (W.contents writer.old) (W.contents writer.new) (last_of player.old) (last_of player.new) (unit_line unit ∷ [])) }
{
    let Ok(given) = player.group.unit_out(player.on) else {
        return Err(lost());
    };
    let line = line_of(alloc, &given)?;
    player.printer.print(line, writer)?;
    Ok(given)
}

/// Sends `units` signal units on the addressed link, and captures them; prints one line `silent` when there is none.
fn give_out<T: Write, W: Write>(
    alloc: Global,
    player: &mut GroupPlayer,
    at: u64,
    units: u32,
    link: &mut LinkSeen,
    out: &mut T,
    writer: &mut W,
) -> io::Result<()>
    requires there { player.old.on < length player.old.group.links }
    requires few { player.old.on < 2 ^ 16 }
    ensures given { OnOk result (HasGivenOut player.old.on units (W.contents writer.old) (W.contents writer.new) (last_of player.old) (last_of player.new)
        player.old.group player.new.group) }
    ensures captured { OnOk result ((every : Bool) (came : List ℕ) (ss : List OneSeen) (begun : Option (List ℕ))
        → IsCapturing player.old.on every came ss begun (T.contents out.old) link.old
        → (last : List OneSeen) × SendsOn player.old.on at units player.old.group ss player.new.group last
        × IsCapturing player.old.on every came last begun (T.contents out.new) link.new) }
    ensures on { player.new.on ≡ player.old.on }
{
    let number = player.on as u16;
    for gone in 0..units {
        match next_on(alloc, player, writer)? {
            Some(unit) => link.send(number, at, &unit, out)?,
            None => return Ok(()),
        }
    }
    Ok(())
}

/// The octets that a command delivers; the command is neither `out` nor an expectation.
fn come_on(alloc: Global, command: &GroupCommand<'_>) -> io::Result<Coming>
    ensures noted { OnOk result (is_noted (plain_group_command command.now) ≡ true) }
    ensures coming { IfOk result (λ c. IsComing (plain_group_command command.now) (repeated c.times c.octets.items)) }
{
    match command {
        GroupCommand::Unit(octets) => {
            let octets = line_of_unit(alloc, octets)?;
            Ok(Coming { octets, times: 1 })
        }
        GroupCommand::Line(octets) => {
            let octets = Vec::from_slice(alloc, octets)?;
            Ok(Coming { octets, times: 1 })
        }
        GroupCommand::Out(_) | GroupCommand::Expect(_) => Err(lost()),
        GroupCommand::Order(_)
        | GroupCommand::Tick(_)
        | GroupCommand::State(_)
        | GroupCommand::Value(_, _)
        | GroupCommand::On(_)
        | GroupCommand::Send(_)
        | GroupCommand::Bound(_)
        | GroupCommand::Message(_)
        | GroupCommand::Admit(_)
        | GroupCommand::Own(_) => Ok(Coming {
            octets: Vec::new(alloc),
            times: 0,
        }),
    }
}

/// Captures the octets that a command delivers on this link; the command is neither `out` nor an expectation.
fn note<T: Write>(
    alloc: Global,
    command: &GroupCommand<'_>,
    number: u16,
    at: u64,
    link: &mut LinkSeen,
    out: &mut T,
) -> io::Result<()>
    ensures noted { OnOk result (is_noted (plain_group_command command.now) ≡ true) }
    ensures heard { OnOk result ((come : List ℕ) × IsComing (plain_group_command command.now) come
        × ((every : Bool) (came : List ℕ) (ss : List OneSeen) (begun : Option (List ℕ))
        → IsCapturing number every came ss begun (T.contents out.old) link.old
        → (last : List OneSeen) × Hears number at came come ss last × IsCapturing number every (came ++ come) last begun (T.contents out.new) link.new)) }
{
    let coming = come_on(alloc, command)?;
    link.hear_times(number, at, &coming.octets, coming.times, out)?;
    Ok(())
}

/// Obeys a command on the addressed link, whose state is `link`, and captures the signal units that it delivers and
/// sends. Returns whether the run goes on.
fn capture_there<T: Write, W: Write>(
    alloc: Global,
    player: &mut GroupPlayer,
    said: &GroupSaid<'_>,
    link: &mut LinkSeen,
    out: &mut T,
    writer: &mut W,
) -> io::Result<bool>
    requires there { player.old.on < length player.old.group.links }
    requires few { player.old.on < 2 ^ 16 }
    ensures goes { IfOk result (λ on. on ≡ true → (p : Playing) (before : List PlainGroupSaid) (first : Option (List ℕ))
        → IsGroupRun p before first (W.contents writer.old) (playing_of player.old) (last_of player.old)
        → IsGroupRun p (before ++ plain_group_said said.now ∷ []) first (W.contents writer.new) (playing_of player.new) (last_of player.new)) }
    ensures missed { IfOk result (λ on. on ≡ false → IsGroupMissedBy (plain_group_said said.now) (last_of player.old) (W.contents writer.old) (W.contents writer.new)) }
    ensures captured { IfOk result (λ on. on ≡ true → (every : Bool) (p : Playing) (before : List PlainGroupSaid) (all : List (List ℕ)) (came : List ℕ) (seen : List OneSeen) (begun : Option (List ℕ))
        → Goes p before (playing_of player.old) (last_of player.old) all seen → slice_get all player.old.on ≡ Some came
        → IsCapturing player.old.on every came seen begun (T.contents out.old) link.old
        → IsCapturedThere every p (before ++ plain_group_said said.now ∷ []) (playing_of player.new) (last_of player.new) all player.old.on seen begun
        (T.contents out.new) link.new) }
    ensures uncaptured { IfOk result (λ on. on ≡ false → T.contents out.new ≡ T.contents out.old) }
{
    let at = time_of(clock_of(player))?;
    match &said.command {
        GroupCommand::Out(units) => {
            give_out(alloc, player, at, *units, link, out, writer)?;
            Ok(true)
        }
        GroupCommand::Expect(_) => player.obey(alloc, said, writer),
        command => {
            note(alloc, command, player.on as u16, at, link, out)?;
            player.obey(alloc, said, writer)
        }
    }
}

/// Obeys a command, and captures the signal units that it delivers and sends. Returns whether the run goes on.
fn capture_next<T: Write, W: Write>(
    alloc: Global,
    player: &mut GroupPlayer,
    said: &GroupSaid<'_>,
    links: &mut [LinkSeen],
    out: &mut T,
    writer: &mut W,
) -> io::Result<bool>
    ensures goes { IfOk result (λ on. on ≡ true → (p : Playing) (before : List PlainGroupSaid) (first : Option (List ℕ))
        → IsGroupRun p before first (W.contents writer.old) (playing_of player.old) (last_of player.old)
        → IsGroupRun p (before ++ plain_group_said said.now ∷ []) first (W.contents writer.new) (playing_of player.new) (last_of player.new)) }
    ensures missed { IfOk result (λ on. on ≡ false → IsGroupMissedBy (plain_group_said said.now) (last_of player.old) (W.contents writer.old) (W.contents writer.new)) }
    ensures captured { IfOk result (λ on. on ≡ true → (every : Bool) (p : Playing) (before : List PlainGroupSaid) (begun : Option (List ℕ))
        → IsSetCapturing every p before begun (T.contents out.old) (playing_of player.old) (last_of player.old) links.old
        → IsSetCapturing every p (before ++ plain_group_said said.now ∷ []) begun (T.contents out.new) (playing_of player.new) (last_of player.new) links.new) }
    ensures uncaptured { IfOk result (λ on. on ≡ false → T.contents out.new ≡ T.contents out.old) }
{
    let on = player.on;
    let count = links.len();
    if count != player.group.len() || 65_535 < count {
        return Err(lost());
    }
    if on < count {
        return capture_there(alloc, player, said, &mut links[on], out, writer);
    }
    player.obey(alloc, said, writer)
}

/// Obeys and captures the commands, in order, up to an expectation that fails. Returns the exit status: 0, or 1 if one
/// failed.
fn capture_each<T: Write, W: Write>(
    alloc: Global,
    player: &mut GroupPlayer,
    commands: &[GroupSaid<'_>],
    links: &mut [LinkSeen],
    out: &mut T,
    writer: &mut W,
) -> io::Result<u8>
    ensures held { IfOk result (λ status. status ≡ 0 → last_of player.old ≡ None
        → IsGroupWritten (map plain_group_said commands.now) (W.contents writer.old) (W.contents writer.new) (playing_of player.old)) }
    ensures missed { IfOk result (λ status. status ≡ 1 → last_of player.old ≡ None
        → IsGroupMissed (map plain_group_said commands.now) (W.contents writer.old) (W.contents writer.new) (playing_of player.old)) }
    ensures captured { IfOk result (λ status. status ≡ 0 → last_of player.old ≡ None → (every : Bool) (begun : Option (List ℕ))
        → AreHeard every [] 0 (map (λ b. []) (books_of (playing_of player.old))) links.old → Appends begun (T.contents out.old) HEADER
        → IsSetCaptured every (map plain_group_said commands.now) begun (T.contents out.new) (playing_of player.old)) }
    ensures in_part { IfOk result (λ status. status ≡ 1 → last_of player.old ≡ None → (every : Bool) (begun : Option (List ℕ))
        → AreHeard every [] 0 (map (λ b. []) (books_of (playing_of player.old))) links.old → Appends begun (T.contents out.old) HEADER
        → IsSetCapturedInPart every (map plain_group_said commands.now) begun (T.contents out.new) (playing_of player.old)) }
    ensures status { IfOk result (λ status. (status ≡ 0) ⊎ (status ≡ 1)) }
{
    for said in commands {
        if !capture_next(alloc, player, said, links, out, writer)? {
            return Ok(MISSED);
        }
    }
    Ok(DONE)
}

/// Obeys and captures a script on a new link set. Returns the exit status: 0, or 1 if an expectation failed.
fn capture_set<T: Write, W: Write>(
    alloc: Global,
    player: &mut GroupPlayer,
    script: &GroupScript<'_>,
    every: bool,
    out: &mut T,
    writer: &mut W,
) -> io::Result<u8>
    ensures held { IfOk result (λ status. status ≡ 0 → last_of player.old ≡ None
        → IsGroupWritten (map plain_group_said script.now.commands.items) (W.contents writer.old) (W.contents writer.new) (playing_of player.old)) }
    ensures missed { IfOk result (λ status. status ≡ 1 → last_of player.old ≡ None
        → IsGroupMissed (map plain_group_said script.now.commands.items) (W.contents writer.old) (W.contents writer.new) (playing_of player.old)) }
    ensures captured { IfOk result (λ status. status ≡ 0 → last_of player.old ≡ None → length (books_of (playing_of player.old)) ≡ script.now.head.links
        → IsSetCaptured every (map plain_group_said script.now.commands.items) (T.contents out.old) (T.contents out.new) (playing_of player.old)) }
    ensures in_part { IfOk result (λ status. status ≡ 1 → last_of player.old ≡ None → length (books_of (playing_of player.old)) ≡ script.now.head.links
        → IsSetCapturedInPart every (map plain_group_said script.now.commands.items) (T.contents out.old) (T.contents out.new) (playing_of player.old)) }
    ensures status { IfOk result (λ status. (status ≡ 0) ⊎ (status ≡ 1)) }
{
    let mut links = new_links(alloc, script.head.links, every)?;
    begin(out)?;
    let status = capture_each(alloc, player, &script.commands, &mut links, out, writer)?;
    Ok(status)
}

/// Obeys and captures a script on a new link set. Returns the exit status: 4 if memory runs out or a write fails.
fn capture_all<T: Write, W: Write>(
    alloc: Global,
    player: &mut GroupPlayer,
    script: &GroupScript<'_>,
    every: bool,
    out: &mut T,
    writer: &mut W,
) -> u8
    ensures held { result ≡ 0 → last_of player.old ≡ None
        → IsGroupWritten (map plain_group_said script.now.commands.items) (W.contents writer.old) (W.contents writer.new) (playing_of player.old) }
    ensures missed { result ≡ 1 → last_of player.old ≡ None
        → IsGroupMissed (map plain_group_said script.now.commands.items) (W.contents writer.old) (W.contents writer.new) (playing_of player.old) }
    ensures captured { result ≡ 0 → last_of player.old ≡ None → length (books_of (playing_of player.old)) ≡ script.now.head.links
        → IsSetCaptured every (map plain_group_said script.now.commands.items) (T.contents out.old) (T.contents out.new) (playing_of player.old) }
    ensures in_part { result ≡ 1 → last_of player.old ≡ None → length (books_of (playing_of player.old)) ≡ script.now.head.links
        → IsSetCapturedInPart every (map plain_group_said script.now.commands.items) (T.contents out.old) (T.contents out.new) (playing_of player.old) }
    ensures status { (result ≡ 0) ⊎ (result ≡ 1) ⊎ (result ≡ 4) }
{
    match capture_set(alloc, player, script, every, out, writer) {
        Ok(status) => status,
        Err(_) => FAILED,
    }
}

/// Runs a link set's script on links whose terminals run a process set, as `play_group` does, and captures these links.
///
/// Returns the exit status. 0: each command ran and all was written. 1: an expectation failed (`failed line N`). 2: the
/// set lacks a name that a terminal needs (only `refused X2 NoName NAME` is written). 4: memory or a write failed.
pub(crate) fn capture_group<T: Write, W: Write>(
    alloc: Global,
    set: &Verified,
    limits: RoundLimits,
    script: &GroupScript<'_>,
    every: bool,
    out: &mut T,
    writer: &mut W,
) -> u8
    requires { IsFew script.now.head.links }
    ensures held { result ≡ 0
        → IsOfNewSet set.now limits script.now.head (IsGroupWritten (map plain_group_said script.now.commands.items) (W.contents writer.old) (W.contents writer.new)) }
    ensures missed { result ≡ 1
        → IsOfNewSet set.now limits script.now.head (IsGroupMissed (map plain_group_said script.now.commands.items) (W.contents writer.old) (W.contents writer.new)) }
    ensures captured { result ≡ 0
        → IsOfNewSet set.now limits script.now.head (IsSetCaptured every (map plain_group_said script.now.commands.items) (T.contents out.old) (T.contents out.new)) }
    ensures in_part { result ≡ 1
        → IsOfNewSet set.now limits script.now.head (IsSetCapturedInPart every (map plain_group_said script.now.commands.items) (T.contents out.old) (T.contents out.new)) }
    ensures refused { result ≡ 2 → LacksName set.now (W.contents writer.old) (W.contents writer.new) }
    ensures status { (result ≡ 0) ⊎ (result ≡ 1) ⊎ (result ≡ 2) ⊎ (result ≡ 4) }
{
    match open_group(alloc, set, limits, script.head) {
        Ok(player) => {
            let mut player = player;
            capture_all(alloc, &mut player, script, every, out, writer)
        }
        Err(error) => refuse_set(alloc, writer, error),
    }
}
