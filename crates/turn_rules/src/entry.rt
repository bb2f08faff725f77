//! The rules on a transition as a whole.

ghost use Rattle.std.specs.Prelude.{◌≡◌, None, ◌<◌, ◌↔◌, length, All, IsTrue, IfOk, IfErr, slice_get};
ghost use Rattle.turn_code.specs.declared.draft.Draft.{Draft};
ghost use Rattle.turn_code.specs.declared.draft.PlaceFacts.{PlaceFacts};
ghost use Rattle.turn_code.specs.declared.rule.Rule.TheVariants.{Jump};
ghost use Rattle.turn_code.specs.Rules.{StartsRight, HasTrigger, HasSaves, IsThere, KeepsProcessLimits, KeepsPieceLimits, KeepsCertificate, greatest, depths};
ghost use Rattle.turn_rules.specs.Seen.{seen};
ghost use Rattle.turn_rules.specs.First.{EachBefore};
ghost use Rattle.turn_rules.specs.Parts.{Entry, AllEntries, FirstPlace, HasShapes, LimitsEntry};

use crate::places::counts_in;
use crate::transition::Transition;
use turn_code::{
    Draft, DraftPiece, DraftProcess, DraftSignal, DraftState, DraftVariable, PlaceFacts, Rule,
    Trigger, VariableSet,
};

/// `Err` with the first rule that a transition as a whole breaks.
pub(crate) fn check_entry(draft: &Draft, transition: &Transition<'_>) -> Result<(), Rule>
    ensures ok { IfOk result (λ _. AllEntries draft.now (seen transition.now)) }
    ensures err { IfErr result (λ rule. Entry rule draft.now (seen transition.now) → ⊥) }
    ensures first { IfErr result (λ rule. EachBefore (λ r. Entry r draft.now (seen transition.now)) rule) }
{
    if !keeps_limits(transition) {
        return Err(Rule::Limit);
    }
    if !has_names(draft.signals.as_slice(), transition) {
        return Err(Rule::Number);
    }
    if !starts_right(transition) {
        return Err(Rule::Sort);
    }
    check_first_place(transition)
}

/// `Err` with the first rule that the first place or the certificate breaks.
fn check_first_place(transition: &Transition<'_>) -> Result<(), Rule>
    ensures ok { IfOk result (λ _. FirstPlace (seen transition.now)) }
    ensures err { IfErr result (λ rule. (d : Draft) → Entry rule d (seen transition.now) → ⊥) }
    ensures first { IfErr result (λ rule. (d : Draft) → EachBefore (λ r. Entry r d (seen transition.now)) Jump
        → EachBefore (λ r. Entry r d (seen transition.now)) rule) }
{
    if transition.piece.code.is_empty() {
        return Err(Rule::Jump);
    }
    if !has_shapes(transition.piece) {
        return Err(Rule::Shape);
    }
    if !begins_with(transition.piece.facts.as_slice(), transition.entry) {
        return Err(Rule::Unset);
    }
    if !keeps_certificate(transition.piece) {
        return Err(Rule::Budget);
    }
    Ok(())
}

/// Whether each place has facts, and the first place has no operand.
fn has_shapes(piece: &DraftPiece) -> bool
    ensures { IsTrue result ↔ HasShapes piece.now }
{
    let facts = piece.facts.as_slice();
    facts.len() == piece.code.len()
        && match facts.first() {
            Some(first) => first.shape.is_empty(),
            None => true,
        }
}

/// Whether exactly the variables in `entry` are set at the first place.
fn begins_with(facts: &[PlaceFacts], entry: VariableSet) -> bool
    ensures { IsTrue result ↔ ((f : PlaceFacts) → slice_get facts.now 0 ≡ Some f → f.set ≡ entry) }
{
    match facts.first() {
        Some(first) => first.set == entry,
        None => true,
    }
}

/// Whether the certificate has the counts of the first place and the greatest depth.
fn keeps_certificate(piece: &DraftPiece) -> bool
    ensures { IsTrue result ↔ KeepsCertificate piece.now }
{
    let facts = piece.facts.as_slice();
    let (budget, effects) = counts_in(facts, 0);
    piece.certificate.budget == budget
        && piece.certificate.effects == effects
        && u64::from(piece.certificate.depth) == deepest(facts)
}

/// The greatest number of operands at a place.
fn deepest(facts: &[PlaceFacts]) -> u64
    ensures { result ≡ greatest (depths facts.now) }
{
    let mut most = 0;
    for place in facts {
        most = most.max(place.shape.len() as u64);
    }
    most
}

/// Whether the transition keeps the limits of a piece, and at START those of a process.
fn keeps_limits(transition: &Transition<'_>) -> bool
    ensures { IsTrue result ↔ LimitsEntry (seen transition.now) }
{
    piece_keeps_limits(transition.piece)
        && (transition.trigger.is_some() || process_keeps_limits(transition.process))
}

/// Whether the piece keeps its limits.
fn piece_keeps_limits(piece: &DraftPiece) -> bool
    ensures { IsTrue result ↔ KeepsPieceLimits piece.now }
{
    piece.certificate.depth <= 16 && piece.certificate.effects <= 32 && piece.code.len() <= 512
}

/// Whether the process keeps its limits.
pub fn process_keeps_limits(process: &DraftProcess) -> bool
    ensures { IsTrue result ↔ KeepsProcessLimits process.now }
{
    1 <= process.instances
        && process.instances <= 8
        && process.states.len() <= 64
        && process.variables.len() <= 32
        && process.timers.len() <= 8
}

/// Whether the trigger of a transition is declared, and at START each trigger that a state of its process saves.
fn has_names(signals: &[DraftSignal], transition: &Transition<'_>) -> bool
    ensures { IsTrue result ↔ ((HasTrigger signals.now transition.now.process.now transition.now.trigger)
        × (transition.now.trigger ≡ None → All (HasSaves signals.now transition.now.process.now) transition.now.process.now.states)) }
{
    match transition.trigger {
        Some(trigger) => is_there(signals, transition.process, trigger),
        None => have_saves(
            signals,
            transition.process,
            transition.process.states.as_slice(),
        ),
    }
}

/// Whether a signal, or a timer of a process, is declared.
fn is_there(signals: &[DraftSignal], process: &DraftProcess, trigger: Trigger) -> bool
    ensures { IsTrue result ↔ IsThere signals.now process.now trigger }
{
    match trigger {
        Trigger::Signal(signal) => usize::from(signal.0) < signals.len(),
        Trigger::Timer(timer) => usize::from(timer.0) < process.timers.len(),
    }
}

/// Whether each trigger that these states save is declared.
fn have_saves(signals: &[DraftSignal], process: &DraftProcess, states: &[DraftState]) -> bool
    ensures { IsTrue result ↔ All (HasSaves signals.now process.now) states.now }
{
    states.iter().all(|state| all_there(signals, process, state.saves.as_slice()))
}

/// Whether each of these triggers is declared.
fn all_there(signals: &[DraftSignal], process: &DraftProcess, triggers: &[Trigger]) -> bool
    ensures { IsTrue result ↔ All (IsThere signals.now process.now) triggers.now }
{
    triggers
        .iter()
        .all(|trigger| is_there(signals, process, *trigger))
}

/// Whether each initial value has its variable's sort, which is required only at START.
fn starts_right(transition: &Transition<'_>) -> bool
    ensures { IsTrue result ↔ (transition.now.trigger ≡ None → All StartsRight transition.now.process.now.variables) }
{
    transition.trigger.is_some() || all_start_right(transition.process.variables.as_slice())
}

/// Whether each initial value has its variable's sort.
fn all_start_right(variables: &[DraftVariable]) -> bool
    ensures { IsTrue result ↔ All StartsRight variables.now }
{
    for variable in variables {
        if !starts_with_its_sort(variable) {
            return false;
        }
    }
    true
}

/// Whether the initial value, if there is one, has the variable's sort.
fn starts_with_its_sort(variable: &DraftVariable) -> bool
    ensures { IsTrue result ↔ StartsRight variable.now }
{
    match variable.initial {
        Some(value) => value.sort() == variable.sort,
        None => true,
    }
}
