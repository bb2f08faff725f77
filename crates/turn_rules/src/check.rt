//! The check of one transition.

ghost use Rattle.std.specs.Prelude.{◌≡◌, ◌<◌, ◌≤◌, length, IfOk, IfErr, Some, option_copied, slice_get};
ghost use Rattle.turn_code.specs.Rules.{KeepsSetLimits};
ghost use Rattle.turn_code.specs.Valid.{IsValidTransition, Keeps};
ghost use Rattle.turn_rules.specs.Seen.{seen};
ghost use Rattle.turn_rules.specs.First.{EachBefore, NoneBefore};
ghost use Rattle.turn_rules.specs.Parts.{AllEntries, HasParts};
ghost use Rattle.plain_laws.specs.Limits.{MOST_INSTRUCTIONS, MOST_VARIABLES};

use crate::entry::check_entry;
use crate::indexed::IndexedDraft;
use crate::places::check_place;
use crate::transition::Transition;
use turn_code::{Instruction, PlaceFacts, Rule};

/// A rule that a transition breaks, and the place where it does.
#[derive(Clone, Copy)]
pub struct Broken {
    /// The rule.
    pub rule: Rule,
    /// The place in the code, from 0; also 0 if the transition as a whole breaks the rule.
    pub place: usize,
}

/// Checks a transition against V1 to V9, as a whole and then place by place. The draft must keep the limits of a set.
pub fn check_transition(draft: &IndexedDraft<'_>, transition: &Transition<'_>) -> Result<(), Broken>
    requires limits { KeepsSetLimits draft.now }
    requires process { transition.now.number.0 < length draft.now.processes }
    requires variables { length transition.now.process.now.variables ≤ MOST_VARIABLES }
    ensures ok { IfOk result (λ _. IsValidTransition draft.now (seen transition.now)) }
    ensures err { IfErr result (λ e. Keeps e.rule draft.now (seen transition.now) e.place → ⊥) }
    ensures first { IfErr result (λ e. NoneBefore draft.now (seen transition.now) e.rule e.place) }
{
    if let Err(rule) = check_entry(draft.plain(), transition) {
        return Err(Broken { rule, place: 0 });
    }
    for place in 0..transition.piece.code.len() {
        if let Err(rule) = check_at(draft, transition, place) {
            return Err(Broken { rule, place });
        }
    }
    Ok(())
}

/// `Err` with the first rule that is broken at a place, if the code has that place.
fn check_at(draft: &IndexedDraft<'_>, transition: &Transition<'_>, place: usize) -> Result<(), Rule>
    requires limits { KeepsSetLimits draft.now }
    requires process { transition.now.number.0 < length draft.now.processes }
    requires place { place < MOST_INSTRUCTIONS }
    requires variables { length transition.now.process.now.variables ≤ MOST_VARIABLES }
    ensures ok { IfOk result (λ _. HasParts draft.now (seen transition.now) place) }
    ensures err { IfErr result (λ rule. Keeps rule draft.now (seen transition.now) place → ⊥) }
    ensures first { IfErr result (λ rule. AllEntries draft.now (seen transition.now)
        → EachBefore (λ r. Keeps r draft.now (seen transition.now) place) rule) }
{
    match instruction_at(transition, place) {
        Some(instruction) => check_with(draft, transition, place, instruction),
        None => Ok(()),
    }
}

/// `Err` with the first rule that this instruction breaks at a place, if the place has facts.
fn check_with(
    draft: &IndexedDraft<'_>,
    transition: &Transition<'_>,
    place: usize,
    instruction: Instruction,
) -> Result<(), Rule>
    requires limits { KeepsSetLimits draft.now }
    requires process { transition.now.number.0 < length draft.now.processes }
    requires place { place < MOST_INSTRUCTIONS }
    requires variables { length transition.now.process.now.variables ≤ MOST_VARIABLES }
    requires code { slice_get transition.now.piece.now.code place ≡ Some instruction }
    ensures ok { IfOk result (λ _. HasParts draft.now (seen transition.now) place) }
    ensures err { IfErr result (λ rule. Keeps rule draft.now (seen transition.now) place → ⊥) }
    ensures first { IfErr result (λ rule. AllEntries draft.now (seen transition.now)
        → EachBefore (λ r. Keeps r draft.now (seen transition.now) place) rule) }
{
    match facts_at(transition, place) {
        Some(facts) => check_place(draft, transition, place, instruction, facts),
        None => Ok(()),
    }
}

/// The instruction at a place of the code.
fn instruction_at(transition: &Transition<'_>, place: usize) -> Option<Instruction>
    ensures { result ≡ slice_get transition.now.piece.now.code place }
{
    match transition.piece.code.as_slice().get(place) {
        Some(instruction) => Some(*instruction),
        None => None,
    }
}

/// The facts claimed of a place of the code.
fn facts_at<'a>(transition: &Transition<'a>, place: usize) -> Option<&'a PlaceFacts>
    ensures { option_copied result ≡ slice_get transition.now.piece.now.facts place }
{
    match transition.piece.facts.as_slice().get(place) {
        Some(facts) => Some(facts),
        None => None,
    }
}
