//! A link set whose terminals run the processes named on the command line.
ghost use Rattle.std.specs.Prelude.{◌≡◌, ◌⊎◌, ◌++◌, ◌∷◌, [], All, IfOk, IfErr, OnOk};
ghost use Rattle.script_check.specs.Checked.{given, IsGiven};
ghost use Rattle.script_ends.specs.Opening.{IsOverWithin};
ghost use Rattle.script_ends.specs.Term.{Term};
ghost use Rattle.script_ends.specs.TermRuns.{LacksName};
ghost use Rattle.link_group.specs.New.{new_set};
ghost use Rattle.line_tending.specs.Tended.{IsNewTended};
ghost use Rattle.line_play.specs.Opening.{IsNoSet};
ghost use Rattle.line_play.specs.SetOpening.{IsEmpty, LacksOne, AreNewTerminals, IsNewTenderOf, IsNewTenderOver};

use crate::link::opening::{ChosenLimits, refuse_name, refuse_text};
use line_tending::{Ends, TendedSet};
use link_group::Group;
use plain_text::FAILED;
use script_check::{SetWord, find_set, refuse_limit};
use script_ends::{Mode, OpenError, RoundLimits, Terminal};
use std::alloc::Global;
use std::io::{Read, Write};
use turn_check::Verified;

/// The parameters with which a link set is opened.
#[derive(Clone, Copy, Debug)]
pub struct SetPlan {
    /// The error correction method.
    pub mode: Mode,
    /// The limits of forced retransmission that are chosen.
    pub limits: ChosenLimits,
    /// The signalling points, and the network indicator of the set's own messages.
    pub ends: Ends,
    /// The number of links, 1 to 16.
    pub links: usize,
    /// Whether links are tested.
    pub tests: bool,
}

/// Adds one more terminal that runs a process set.
fn push_terminal(
    alloc: Global,
    plan: SetPlan,
    limits: RoundLimits,
    set: &Verified,
    terminals: &mut Vec<Terminal>,
) -> Result<(), OpenError>
    ensures ok { OnOk result ((t : Term) × IsOverWithin set.now limits plan.mode t × (terminals.new.items ≡ terminals.old.items ++ t ∷ [])) }
    ensures err { IfErr result (LacksOne set.now) }
{
    if terminals.reserve(1).is_err() {
        return Err(OpenError::NoMemory);
    }
    match Terminal::of_set_within(alloc, limits, plan.mode, set) {
        Ok(terminal) => {
            terminals.push_reserved(terminal);
            Ok(())
        }
        Err(error) => Err(error),
    }
}

/// Opens as many new terminals as planned.
fn open_terminals(
    alloc: Global,
    plan: SetPlan,
    limits: RoundLimits,
    set: &Verified,
) -> Result<Vec<Terminal>, OpenError>
    ensures ok { IfOk result (λ v. AreNewTerminals set.now limits plan.mode plan.links v.items) }
    ensures err { IfErr result (LacksOne set.now) }
{
    let mut terminals = Vec::new(alloc);
    for _made in 0..plan.links {
        match push_terminal(alloc, plan, limits, set, &mut terminals) {
            Ok(()) => {}
            Err(error) => return Err(error),
        }
    }
    Ok(terminals)
}

/// Makes a link set of these terminals, tended from now on.
fn tend(alloc: Global, plan: SetPlan, terminals: Vec<Terminal>) -> Result<TendedSet, u8>
    requires { All IsEmpty terminals.items }
    ensures ok { IfOk result (IsNewTended plan.ends plan.tests (new_set plan.ends.own plan.ends.peer terminals.items)) }
    ensures err { IfErr result (λ status. status ≡ 4) }
{
    let Ends { own, peer, .. } = plan.ends;
    if terminals.len() < 1 || 16 < terminals.len() {
        return Err(FAILED);
    }
    if own >= 16_384 || peer >= 16_384 {
        return Err(FAILED);
    }
    match Group::new(alloc, own, peer, terminals) {
        Ok(group) => Ok(TendedSet::new(alloc, plan.ends, plan.tests, group)),
        Err(_terminals) => Err(FAILED),
    }
}

/// Opens a link set whose terminals run a process set. If that lacks a name that a terminal needs, a line says which.
fn open_over<E: Write>(
    alloc: Global,
    plan: SetPlan,
    limits: RoundLimits,
    set: &Verified,
    errors: &mut E,
) -> Result<TendedSet, u8>
    ensures ok { IfOk result (IsNewTenderOf plan limits set.now) }
    ensures refused { IfErr result (λ status. status ≡ 2 → LacksName set.now (E.contents errors.old) (E.contents errors.new)) }
    ensures status { IfErr result (λ status. (status ≡ 2) ⊎ (status ≡ 4)) }
{
    match open_terminals(alloc, plan, limits, set) {
        Ok(terminals) => tend(alloc, plan, terminals),
        Err(error) => Err(refuse_name(alloc, errors, error)),
    }
}

/// Opens a new link set whose terminals run these processes. The limits of forced retransmission are those that are
/// chosen, else those of the set's text.
///
/// # Errors
///
/// The exit status. 2: the text is refused, has a limit out of its range, or lacks a name that a terminal needs;
/// `errors` then has the lines about it, for a refused text those that point at the place too. 4: out of memory, or a
/// read or that write failed.
pub fn open_tender<S: Read + Drop, E: Write>(
    alloc: Global,
    plan: SetPlan,
    name: &str,
    set: SetWord<S>,
    errors: &mut E,
) -> Result<TendedSet, u8>
    ensures ok { IfOk result (λ t. IsGiven (given S.remaining set) (IsNewTenderOver plan t)) }
    ensures refused { IfErr result (λ status. status ≡ 2 → IsGiven (given S.remaining set) (IsNoSet name.now plan.limits plan.mode (E.contents errors.old) (E.contents errors.new))) }
    ensures status { IfErr result (λ status. (status ≡ 2) ⊎ (status ≡ 4)) }
{
    match find_set(alloc, set) {
        Ok(found) => match found
            .limits
            .within(plan.mode, plan.limits.messages, plan.limits.octets)
        {
            Ok(limits) => open_over(alloc, plan, limits, &found.set, errors),
            Err(limit) => Err(refuse_limit(alloc, errors, limit)),
        },
        Err(refusal) => Err(refuse_text(alloc, name, errors, &refusal)),
    }
}
