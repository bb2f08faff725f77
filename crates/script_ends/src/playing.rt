//! Complete scripts of link sets.
ghost use Rattle.std.specs.Prelude.{◌≡◌, ◌⊎◌, ◌++◌, [], List, ℕ, Option, map};
ghost use Rattle.script_links.specs.GroupScripts.{PlainGroupSaid, plain_group_said, IsFew};
ghost use Rattle.script_ends.specs.TermRuns.{LacksName};
ghost use Rattle.script_ends.specs.GroupAnswers.{Playing};
ghost use Rattle.script_ends.specs.GroupRuns.{begun, playing_of, last_of, IsGroupRun, IsGroupWritten, IsGroupMissed, IsOfNewSet};

use crate::opening::open_set;
use crate::player::GroupPlayer;
use crate::terminals::refuse_set;
use link_group::Group;
use resend_store::RoundLimits;
use script_book::{FAILED, Printer};
use script_links::{GroupSaid, GroupScript};
use std::alloc::Global;
use std::io::Write;
use turn_check::Verified;

/// Obeys commands in order, up to an expectation that fails. Returns the exit status: 4 if memory or a write fails.
fn run_all<W: Write>(
    alloc: Global,
    player: &mut GroupPlayer,
    commands: &[GroupSaid<'_>],
    writer: &mut W,
) -> u8
    ensures held { result ≡ 0 → (p : Playing) (before : List PlainGroupSaid) (first : Option (List ℕ))
        → IsGroupRun p before first (W.contents writer.old) (playing_of player.old) (last_of player.old)
        → IsGroupRun p (before ++ map plain_group_said commands.now) first (W.contents writer.new) (playing_of player.new) (last_of player.new) }
    ensures missed { result ≡ 1 → (p : Playing) (before : List PlainGroupSaid) (first : Option (List ℕ))
        → IsGroupRun p before first (W.contents writer.old) (playing_of player.old) (last_of player.old)
        → IsGroupMissed (before ++ map plain_group_said commands.now) first (W.contents writer.new) p }
    ensures status { (result ≡ 0) ⊎ (result ≡ 1) ⊎ (result ≡ 4) }
{
    match player.run(alloc, commands, writer) {
        Ok(status) => status,
        Err(_) => FAILED,
    }
}

/// Runs commands on a new set. Returns the exit status.
fn play_set<W: Write>(alloc: Global, group: Group, commands: &[GroupSaid<'_>], writer: &mut W) -> u8
    ensures held { result ≡ 0 → IsGroupWritten (map plain_group_said commands.now) (W.contents writer.old) (W.contents writer.new) (begun group) }
    ensures missed { result ≡ 1 → IsGroupMissed (map plain_group_said commands.now) (W.contents writer.old) (W.contents writer.new) (begun group) }
    ensures status { (result ≡ 0) ⊎ (result ≡ 1) ⊎ (result ≡ 4) }
{
    let printer = Printer { last: None };
    let mut player = GroupPlayer {
        group,
        on: 0,
        printer,
    };
    run_all(alloc, &mut player, commands, writer)
}

/// Runs a link set's script on links with new terminals over a process set. It prints one line for each command except
/// `on` and `expect`; `out` prints one for each unit. The first line sets the number of terminals and their error
/// correction, `limits` those of forced retransmission. This end's point code is 1, the other end's 2.
///
/// Returns the exit status: 0 if each command ran and its lines were written, 1 after `failed line N` if an expectation
/// failed, 2 after only `refused X2 NoName NAME` if the set lacks a name that a terminal uses, 4 if memory or a write
/// fails. Nothing is written after a failed write.
pub fn play_group<W: Write>(
    alloc: Global,
    set: &Verified,
    limits: RoundLimits,
    script: &GroupScript<'_>,
    writer: &mut W,
) -> u8
    requires { IsFew script.now.head.links }
    ensures held { result ≡ 0
        → IsOfNewSet set.now limits script.now.head (IsGroupWritten (map plain_group_said script.now.commands.items) (W.contents writer.old) (W.contents writer.new)) }
    ensures missed { result ≡ 1
        → IsOfNewSet set.now limits script.now.head (IsGroupMissed (map plain_group_said script.now.commands.items) (W.contents writer.old) (W.contents writer.new)) }
    ensures refused { result ≡ 2 → LacksName set.now (W.contents writer.old) (W.contents writer.new) }
    ensures status { (result ≡ 0) ⊎ (result ≡ 1) ⊎ (result ≡ 2) ⊎ (result ≡ 4) }
{
    match open_set(alloc, set, limits, script.head) {
        Ok(group) => play_set(alloc, group, &script.commands, writer),
        Err(error) => refuse_set(alloc, writer, error),
    }
}
