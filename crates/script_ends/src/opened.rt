//! A link set that obeys commands of a script one at a time.
ghost use Rattle.std.specs.Prelude.{◌≡◌, [], None, IfOk, IfErr};
ghost use Rattle.turn_code.specs.declared.draft.Draft.{Draft};
ghost use Rattle.link_group.specs.Set.{LinkSet};
ghost use Rattle.script_links.specs.GroupScripts.{IsFew};
ghost use Rattle.script_ends.specs.GroupRuns.{begun, playing_of, last_of, IsNewSet, LacksOne};

use crate::opening::open_set;
use crate::player::GroupPlayer;
use link_group::Group;
use link_term::OpenError;
use resend_store::RoundLimits;
use script_book::Printer;
use script_links::GroupHead;
use std::alloc::Global;
use turn_check::Verified;

/// A set for which nothing is printed yet.
fn player_of(group: Group) -> GroupPlayer
    ensures playing { playing_of result ≡ begun group }
    ensures last { last_of result ≡ None }
{
    GroupPlayer {
        group,
        on: 0,
        printer: Printer { last: None },
    }
}

/// The links that a script's first line states, with these limits of forced retransmission, as the script begins.
pub fn open_group(
    alloc: Global,
    set: &Verified,
    limits: RoundLimits,
    head: GroupHead,
) -> Result<GroupPlayer, OpenError>
    requires { IsFew head.links }
    ensures ok { IfOk result (λ p. (c : LinkSet) × IsNewSet set.now limits head c × (playing_of p ≡ begun c)) }
    ensures last { IfOk result (λ p. last_of p ≡ None) }
    ensures err { IfErr result (LacksOne set.now) }
{
    match open_set(alloc, set, limits, head) {
        Ok(group) => Ok(player_of(group)),
        Err(error) => Err(error),
    }
}
