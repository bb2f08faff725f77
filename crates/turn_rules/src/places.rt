//! The rules at one place of a piece.

ghost use Rattle.std.specs.Prelude.{◌≡◌, ◌<◌, ◌≤◌, ◌↔◌, ◌∷◌, ◌++◌, ◌+◌, ℕ, map, length, Contains, option_to_list, All, IsTrue, IfOk, IfErr, Some, slice_get};
ghost use Rattle.turn_code.specs.Sets.{Has, IsWithin};
ghost use Rattle.turn_code.specs.Code.{takes, gives, shape_left, reads, sets, states_in, jumps, behind, successors};
ghost use Rattle.turn_code.specs.Rules.{AtEach, Agree, KeepsSetLimits, greatest, count_in, effects_in};
ghost use Rattle.turn_code.specs.declared.draft.PlaceFacts.{PlaceFacts};
ghost use Rattle.turn_code.specs.declared.draft.DraftState.{DraftState};
ghost use Rattle.turn_code.specs.declared.draft.DraftSignal.{DraftSignal};
ghost use Rattle.turn_rules.specs.Seen.{seen};
ghost use Rattle.turn_rules.specs.First.{EachBefore};
ghost use Rattle.turn_rules.specs.Parts.{Part, NextPart, AllParts, AllNexts, NumbersPart, CountsPart, SetsHold, ShapesPart};
ghost use Rattle.plain_laws.specs.Limits.{MOST_INSTRUCTIONS, MOST_PARAMETERS, MOST_VARIABLES};

use crate::indexed::IndexedDraft;
use crate::routes::keeps_sending;
use crate::tables::{
    effects_given, given_sort, jump_places, next_places, place_behind, set_behind, taken_sorts,
};
use crate::transition::Transition;
use turn_code::{DraftSignal, DraftState, Instruction, PlaceFacts, Rule, Sort, VariableSet};

/// `Err` with the first rule that is broken at a place with this instruction and these facts.
pub(crate) fn check_place(
    draft: &IndexedDraft<'_>,
    transition: &Transition<'_>,
    place: usize,
    instruction: Instruction,
    facts: &PlaceFacts,
) -> Result<(), Rule>
    requires limits { KeepsSetLimits draft.now }
    requires process { transition.now.number.0 < length draft.now.processes }
    requires place { place < MOST_INSTRUCTIONS }
    requires variables { length transition.now.process.now.variables ≤ MOST_VARIABLES }
    ensures ok { IfOk result (λ _. AllParts draft.now (seen transition.now) place instruction facts.now) }
    ensures err { IfErr result (λ rule. Part rule draft.now (seen transition.now) place instruction facts.now → ⊥) }
    ensures first { IfErr result (λ rule. EachBefore (λ r. Part r draft.now (seen transition.now) place instruction facts.now) rule) }
{
    if !names_what_is_there(draft, transition, instruction) {
        return Err(Rule::Number);
    }
    if !ends_in_a_state(instruction, transition.process.states.as_slice()) {
        return Err(Rule::State);
    }
    let signals = draft.plain().signals.as_slice();
    let variables = transition.process.variables.as_slice();
    let taken = taken_sorts(instruction, signals, variables);
    if taken.len() > facts.shape.len() {
        return Err(Rule::Under);
    }
    if !agree(taken.as_slice(), facts.shape.as_slice()) {
        return Err(Rule::Sort);
    }
    check_successors(signals, transition, place, instruction, facts)
}

/// `Err` with the first rule that is broken by the places where the code goes on, or by the state where it ends.
fn check_successors(
    signals: &[DraftSignal],
    transition: &Transition<'_>,
    place: usize,
    instruction: Instruction,
    facts: &PlaceFacts,
) -> Result<(), Rule>
    requires few { All (λ (s : DraftSignal). length s.parameters ≤ MOST_PARAMETERS) signals.now }
    requires place { place < MOST_INSTRUCTIONS }
    requires variables { length transition.now.process.now.variables ≤ MOST_VARIABLES }
    requires number { All (λ v. v < length transition.now.process.now.variables) (sets instruction) }
    requires under { length (takes signals.now transition.now.process.now.variables instruction) ≤ length facts.now.shape }
    ensures ok { IfOk result (λ _. AllNexts signals.now (seen transition.now) place instruction facts.now) }
    ensures err { IfErr result (λ rule. NextPart rule signals.now (seen transition.now) place instruction facts.now → ⊥) }
    ensures first { IfErr result (λ rule. EachBefore (λ r. NextPart r signals.now (seen transition.now) place instruction facts.now) rule) }
{
    let nexts = next_places(instruction, place);
    if !are_inside(nexts.as_slice(), transition.piece.code.len()) {
        return Err(Rule::Jump);
    }
    if !shapes_are_left(
        signals,
        transition,
        place,
        instruction,
        facts.shape.as_slice(),
    ) {
        return Err(Rule::Shape);
    }
    if !sets_are_left(transition, nexts.as_slice(), instruction, facts.set) {
        return Err(Rule::Unset);
    }
    if !counts_are_right(transition, place, nexts.as_slice(), instruction, facts) {
        return Err(Rule::Budget);
    }
    Ok(())
}

/// Whether the numbers that an instruction names are declared, its divisor is 1 or more, and its output has a receiver.
fn names_what_is_there(
    draft: &IndexedDraft<'_>,
    transition: &Transition<'_>,
    instruction: Instruction,
) -> bool
    requires limits { KeepsSetLimits draft.now }
    requires process { transition.now.number.0 < length draft.now.processes }
    ensures { IsTrue result ↔ NumbersPart draft.now (seen transition.now) instruction }
{
    match instruction {
        Instruction::Load(variable) | Instruction::Store(variable) => {
            usize::from(variable.0) < transition.process.variables.len()
        }
        Instruction::Param(place) => usize::from(place) < transition.parameters.len(),
        Instruction::Set(timer) | Instruction::Reset(timer) => {
            usize::from(timer.0) < transition.process.timers.len()
        }
        Instruction::Div(divisor) => divisor >= 1,
        Instruction::Mod(divisor) => divisor >= 1,
        Instruction::Rem(divisor) => divisor >= 1,
        Instruction::Output(signal, receiver, count) => {
            keeps_sending(draft, transition, signal, receiver, count)
        }
        _ => true,
    }
}

/// Whether the state where an instruction ends is declared; true if it doesn't end in a state.
fn ends_in_a_state(instruction: Instruction, states: &[DraftState]) -> bool
    ensures { IsTrue result ↔ All (λ q. q < length states.now) (states_in instruction) }
{
    match instruction {
        Instruction::Next(state) => usize::from(state.0) < states.len(),
        _ => true,
    }
}

/// Whether two lists of sorts agree as far as both go.
fn agree(wanted: &[Sort], found: &[Sort]) -> bool
    ensures { IsTrue result ↔ Agree wanted.now found.now }
{
    match wanted {
        [] => true,
        [first, wanted @ ..] => match found {
            [] => true,
            [other, found @ ..] => *other == *first && agree(wanted, found),
        },
    }
}

/// Whether each place is inside code of this length.
fn are_inside(places: &[usize], length: usize) -> bool
    ensures { IsTrue result ↔ All (λ j. j < length) places.now }
{
    places.iter().all(|place| *place < length)
}

/// Whether two lists of sorts are equal.
fn same_sorts(left: &[Sort], right: &[Sort]) -> bool
    ensures { IsTrue result ↔ (left.now ≡ right.now) }
{
    match (left, right) {
        ([], []) => true,
        ([first, left @ ..], [other, right @ ..]) => *first == *other && same_sorts(left, right),
        _ => false,
    }
}

/// Whether the shape is `given` on top of `rest`.
fn is_shape(shape: &[Sort], given: Option<Sort>, rest: &[Sort]) -> bool
    ensures { IsTrue result ↔ (shape.now ≡ option_to_list given ++ rest.now) }
{
    match given {
        None => same_sorts(shape, rest),
        Some(sort) => match shape {
            [first, others @ ..] => *first == sort && same_sorts(others, rest),
            [] => false,
        },
    }
}

/// Whether the next place has the shape that the instruction leaves there, and each place where it jumps to has
/// the shape without its operands.
fn shapes_are_left(
    signals: &[DraftSignal],
    transition: &Transition<'_>,
    place: usize,
    instruction: Instruction,
    shape: &[Sort],
) -> bool
    requires few { All (λ (s : DraftSignal). length s.parameters ≤ MOST_PARAMETERS) signals.now }
    requires place { place < MOST_INSTRUCTIONS }
    requires under { length (takes signals.now transition.now.process.now.variables instruction) ≤ length shape.now }
    ensures { IsTrue result ↔ ShapesPart signals.now (seen transition.now) place instruction shape.now }
{
    let rest = operands_left(signals, transition, instruction, shape);
    shape_is_behind(transition, place, instruction, rest)
        && shape_is_jumped_to(transition, instruction, rest)
}

/// The operands that stay when an instruction takes its own.
fn operands_left<'a>(
    signals: &[DraftSignal],
    transition: &Transition<'_>,
    instruction: Instruction,
    shape: &'a [Sort],
) -> &'a [Sort]
    requires few { All (λ (s : DraftSignal). length s.parameters ≤ MOST_PARAMETERS) signals.now }
    requires under { length (takes signals.now transition.now.process.now.variables instruction) ≤ length shape.now }
    ensures { result.now ≡ shape_left signals.now transition.now.process.now.variables instruction shape.now }
{
    let variables = transition.process.variables.as_slice();
    let taken = taken_sorts(instruction, signals, variables).len();
    &shape[taken..]
}

/// Whether the next place has the value that the instruction puts on top of `rest`.
fn shape_is_behind(
    transition: &Transition<'_>,
    place: usize,
    instruction: Instruction,
    rest: &[Sort],
) -> bool
    requires { place < MOST_INSTRUCTIONS }
    ensures { IsTrue result ↔ AtEach transition.now.piece.now (behind instruction place)
        (λ g. g.shape ≡ gives transition.now.process.now.variables transition.now.parameters.now instruction ++ rest.now) }
{
    let facts = transition.piece.facts.as_slice();
    let variables = transition.process.variables.as_slice();
    let given = given_sort(instruction, variables, transition.parameters);
    places_have_shape(
        facts,
        place_behind(instruction, place).as_slice(),
        given,
        rest,
    )
}

/// Whether each place where the instruction jumps to has the shape `rest`.
fn shape_is_jumped_to(transition: &Transition<'_>, instruction: Instruction, rest: &[Sort]) -> bool
    ensures { IsTrue result ↔ AtEach transition.now.piece.now (jumps instruction) (λ g. g.shape ≡ rest.now) }
{
    let facts = transition.piece.facts.as_slice();
    places_have_shape(facts, jump_places(instruction).as_slice(), None, rest)
}

/// Whether the shape at each of these places is `given` on top of `rest`.
fn places_have_shape(
    facts: &[PlaceFacts],
    nexts: &[usize],
    given: Option<Sort>,
    rest: &[Sort],
) -> bool
    ensures { IsTrue result ↔ ((j : ℕ) (g : PlaceFacts) → Contains nexts.now j → slice_get facts.now j ≡ Some g → g.shape ≡ option_to_list given ++ rest.now) }
{
    for next in nexts {
        if let Some(there) = facts.get(*next) {
            if !is_shape(there.shape.as_slice(), given, rest) {
                return false;
            }
        }
    }
    true
}

/// Whether only variables that are set after the instruction are called set at the places where the code goes on and
/// in the state where it ends; and whether a variable that it reads is set before it.
fn sets_are_left(
    transition: &Transition<'_>,
    nexts: &[usize],
    instruction: Instruction,
    set: VariableSet,
) -> bool
    requires variables { length transition.now.process.now.variables ≤ MOST_VARIABLES }
    requires number { All (λ v. v < length transition.now.process.now.variables) (sets instruction) }
    ensures { IsTrue result ↔ SetsHold (seen transition.now) nexts.now instruction set }
{
    let behind = set_behind(instruction, set);
    reads_what_is_set(instruction, set)
        && places_have(transition.piece.facts.as_slice(), nexts, behind)
        && state_has(transition.process.states.as_slice(), instruction, behind)
}

/// Whether the variable that an instruction reads is in the set.
fn reads_what_is_set(instruction: Instruction, set: VariableSet) -> bool
    ensures { IsTrue result ↔ All (Has set) (reads instruction) }
{
    match instruction {
        Instruction::Load(variable) => set.has(variable),
        _ => true,
    }
}

/// Whether the facts at each of these places call only variables in `set` set.
fn places_have(facts: &[PlaceFacts], nexts: &[usize], set: VariableSet) -> bool
    ensures { IsTrue result ↔ ((j : ℕ) (g : PlaceFacts) → Contains nexts.now j → slice_get facts.now j ≡ Some g → IsWithin g.set set) }
{
    for next in nexts {
        if let Some(there) = facts.get(*next) {
            if !there.set.is_within(set) {
                return false;
            }
        }
    }
    true
}

/// Whether the state where an instruction ends calls only variables in `set` set.
fn state_has(states: &[DraftState], instruction: Instruction, set: VariableSet) -> bool
    ensures { IsTrue result ↔ ((q : ℕ) (s : DraftState) → Contains (states_in instruction) q → slice_get states.now q ≡ Some s → IsWithin s.set set) }
{
    match instruction {
        Instruction::Next(state) => match states.get(usize::from(state.0)) {
            Some(there) => there.set.is_within(set),
            None => true,
        },
        _ => true,
    }
}

/// The count and the effects that the facts of a place claim; 0 if it has none.
pub(crate) fn counts_in(facts: &[PlaceFacts], place: usize) -> (u32, u32)
    ensures count { result.0 ≡ count_in (slice_get facts.now place) }
    ensures effects { result.1 ≡ effects_in (slice_get facts.now place) }
{
    match facts.get(place) {
        Some(there) => (there.count, there.effects),
        None => (0, 0),
    }
}

/// The greatest count and the greatest number of effects at these places.
fn greatest_counts(facts: &[PlaceFacts], places: &[usize]) -> (u32, u32)
    ensures count { result.0 ≡ greatest (map (λ j. count_in (slice_get facts.now j)) places.now) }
    ensures effects { result.1 ≡ greatest (map (λ j. effects_in (slice_get facts.now j)) places.now) }
{
    match places {
        [] => (0, 0),
        [first, others @ ..] => {
            let (count, effects) = counts_in(facts, *first);
            let (other_count, other_effects) = greatest_counts(facts, others);
            (count.max(other_count), effects.max(other_effects))
        }
    }
}

/// Whether the count is one more than the greatest where the code goes on, and the effects fit likewise.
fn counts_are_right(
    transition: &Transition<'_>,
    place: usize,
    nexts: &[usize],
    instruction: Instruction,
    here: &PlaceFacts,
) -> bool
    requires { nexts.now ≡ successors instruction place }
    ensures { IsTrue result ↔ CountsPart (seen transition.now) place instruction here.now }
{
    let (count, effects) = greatest_counts(transition.piece.facts.as_slice(), nexts);
    u64::from(here.count) == u64::from(count) + 1
        && u64::from(here.effects) == u64::from(effects) + u64::from(effects_given(instruction))
}
