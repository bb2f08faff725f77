//! The link set in which a script begins.
ghost use Rattle.std.specs.Prelude.{◌≡◌, ◌++◌, ◌∷◌, [], IfOk, IfErr, OnOk};
ghost use Rattle.link_term.specs.Opening.{IsOverWithin};
ghost use Rattle.link_term.specs.Term.{Term};
ghost use Rattle.script_links.specs.GroupScripts.{IsFew};
ghost use Rattle.script_ends.specs.GroupRuns.{AreNew, IsNewSet, LacksOne};

use link_group::Group;
use link_term::{OpenError, Terminal};
use resend_store::{Mode, RoundLimits};
use script_links::GroupHead;
use std::alloc::Global;
use turn_check::Verified;

/// The point codes of this end and of the other end.
const OWN_POINT: u16 = 1;

const OTHER_POINT: u16 = 2;

/// Appends a new terminal over a process set.
fn push_terminal(
    alloc: Global,
    set: &Verified,
    limits: RoundLimits,
    mode: Mode,
    terminals: &mut Vec<Terminal>,
) -> Result<(), OpenError>
    ensures ok { OnOk result ((t : Term) × IsOverWithin set.now limits mode t × (terminals.new.items ≡ terminals.old.items ++ t ∷ [])) }
    ensures err { IfErr result (LacksOne set.now) }
{
    if terminals.reserve(1).is_err() {
        return Err(OpenError::NoMemory);
    }
    match Terminal::of_set_within(alloc, limits, mode, set) {
        Ok(terminal) => {
            terminals.push_reserved(terminal);
            Ok(())
        }
        Err(error) => Err(error),
    }
}

/// New terminals over a process set, as many as the first line states.
fn terminals(
    alloc: Global,
    set: &Verified,
    limits: RoundLimits,
    head: GroupHead,
) -> Result<Vec<Terminal>, OpenError>
    ensures ok { IfOk result (λ v. AreNew set.now limits head v.items) }
    ensures err { IfErr result (LacksOne set.now) }
{
    let mut terminals = Vec::new(alloc);
    for made in 0..head.links {
        match push_terminal(alloc, set, limits, head.mode, &mut terminals) {
            Ok(()) => {}
            Err(error) => return Err(error),
        }
    }
    Ok(terminals)
}

/// A link set with new terminals over a process set, between this point and the other one.
pub(crate) fn open_set(
    alloc: Global,
    set: &Verified,
    limits: RoundLimits,
    head: GroupHead,
) -> Result<Group, OpenError>
    requires { IsFew head.links }
    ensures ok { IfOk result (IsNewSet set.now limits head) }
    ensures err { IfErr result (LacksOne set.now) }
{
    let terminals = match terminals(alloc, set, limits, head) {
        Ok(terminals) => terminals,
        Err(error) => return Err(error),
    };
    match Group::new(alloc, OWN_POINT, OTHER_POINT, terminals) {
        Ok(group) => Ok(group),
        Err(_) => Err(OpenError::NoMemory),
    }
}
