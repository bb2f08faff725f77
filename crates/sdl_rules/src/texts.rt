//! The rules on a text: on its meaning, and on its declarations of synonyms.
ghost use Rattle.std.specs.Prelude.{◌≡◌, None, IfOk, IfErr, IfSome, IsNone, Contains, ◌++◌, List, ℕ};
ghost use Rattle.sdl_ast.specs.Plain.{PlainBlock};
ghost use Rattle.sdl_tables.specs.Scopes.{Marks};
ghost use Rattle.sdl_sound.specs.Sound.{Sound};
ghost use Rattle.sdl_sound.specs.Refusals.{IsDistinct, IsKnown, IsSorted, IsAnswered, IsDivided, Refuses};
ghost use Rattle.sdl_sound.specs.declared.fault.RuleFault.TheVariants.{UnknownName, WrongSort, BadDivisor};
ghost use Rattle.sdl_rules.specs.Expansion.{expanded};
ghost use Rattle.sdl_rules.specs.Texts.{SoundText, RefusesText, AreDeclared, AreDistinct, AreKnown, AreSorted, AreDivided, IsExpansion};

use crate::expansion::{Expansion, Misdeclared};
use crate::resolved::{Resolved, resolve};
use sdl_sound::RuleFault;
use std::alloc::Global;

/// S1, if two synonyms have the same name.
fn double_declared(declared: &Misdeclared) -> Option<RuleFault>
    ensures some { IfSome result (λ e. (b : PlainBlock) → AreDeclared b declared.now → RefusesText b e) }
    ensures none { IsNone result → (b : PlainBlock) → AreDeclared b declared.now → IsDistinct (expanded b) → AreDistinct b }
{
    match declared.double {
        Some(at) => Some(RuleFault::DoubleName(at)),
        None => None,
    }
}

/// S2, if a name is no synonym, for a text that keeps S1.
fn unknown_used(declared: &Misdeclared) -> Option<RuleFault>
    ensures some { IfSome result (λ e. (b : PlainBlock) → AreDeclared b declared.now → AreDistinct b → RefusesText b e) }
    ensures none { IsNone result → (b : PlainBlock) → AreDeclared b declared.now → AreDistinct b → IsKnown (expanded b) → AreKnown b }
{
    match declared.strays.unknown {
        Some(at) => Some(RuleFault::UnknownName(at)),
        None => None,
    }
}

/// S3, if a sort is wrong, for a text that keeps S1 and S2.
fn wrong_used(declared: &Misdeclared) -> Option<RuleFault>
    ensures some { IfSome result (λ e. (b : PlainBlock) → AreDeclared b declared.now → AreKnown b → RefusesText b e) }
    ensures none { IsNone result → (b : PlainBlock) → AreDeclared b declared.now → AreKnown b → IsSorted (expanded b) → AreSorted b }
{
    match declared.strays.wrong {
        Some(at) => Some(RuleFault::WrongSort(at)),
        None => None,
    }
}

/// S9, if a divisor is wrong, for a text that keeps S1 to S3 and whose meaning keeps S4 to S8.
fn divisor_used(declared: &Misdeclared) -> Option<RuleFault>
    ensures some { IfSome result (λ e. (b : PlainBlock) → AreDeclared b declared.now → AreSorted b → IsAnswered (expanded b) → RefusesText b e) }
    ensures none { IsNone result → (b : PlainBlock) → AreDeclared b declared.now → AreSorted b → IsDivided (expanded b) → AreDivided b }
{
    match declared.strays.divisor {
        Some(at) => Some(RuleFault::BadDivisor(at)),
        None => None,
    }
}

/// S1 or S2 of the declarations, if the text with values keeps S1.
fn unknown_declared(declared: &Misdeclared) -> Option<RuleFault>
    ensures some { IfSome result (λ e. (b : PlainBlock) → AreDeclared b declared.now → IsDistinct (expanded b) → RefusesText b e) }
    ensures none { IsNone result → (b : PlainBlock) → AreDeclared b declared.now → IsKnown (expanded b) → AreKnown b }
{
    match double_declared(declared) {
        Some(fault) => Some(fault),
        None => unknown_used(declared),
    }
}

/// S1, S2 or S3 of the declarations, if the text with values keeps S1 and S2.
fn wrong_declared(declared: &Misdeclared) -> Option<RuleFault>
    ensures some { IfSome result (λ e. (b : PlainBlock) → AreDeclared b declared.now → IsKnown (expanded b) → RefusesText b e) }
    ensures none { IsNone result → (b : PlainBlock) → AreDeclared b declared.now → IsSorted (expanded b) → AreSorted b }
{
    match unknown_declared(declared) {
        Some(fault) => Some(fault),
        None => wrong_used(declared),
    }
}

/// S1, S2, S3 or S9 of the declarations, if the text with values keeps S1 to S8.
fn divisor_declared(declared: &Misdeclared) -> Option<RuleFault>
    ensures some { IfSome result (λ e. (b : PlainBlock) → AreDeclared b declared.now → IsAnswered (expanded b) → RefusesText b e) }
    ensures none { IsNone result → (b : PlainBlock) → AreDeclared b declared.now → IsDivided (expanded b) → AreDivided b }
{
    match wrong_declared(declared) {
        Some(fault) => Some(fault),
        None => divisor_used(declared),
    }
}

/// The lesser of two places, of which the second may be none.
fn first(at: u32, other: Option<u32>) -> u32
    ensures { (xs ys : List ℕ) → Contains xs at → Marks other ys → Contains (xs ++ ys) result }
{
    match other {
        Some(other) => { if other < at { other } else { at } }
        None => at,
    }
}

/// The refusal of a text whose meaning has an unknown name at this place, and no two of one name.
fn unknown_name(at: u32, declared: &Misdeclared) -> RuleFault
    ensures { (b : PlainBlock) → AreDeclared b declared.now → Refuses (expanded b) (UnknownName at) → RefusesText b result }
{
    match double_declared(declared) {
        Some(lower) => lower,
        None => RuleFault::UnknownName(first(at, declared.strays.unknown)),
    }
}

/// The refusal of a text whose meaning has a wrong sort at this place, and keeps S1 and S2.
fn wrong_sort(at: u32, declared: &Misdeclared) -> RuleFault
    ensures { (b : PlainBlock) → AreDeclared b declared.now → Refuses (expanded b) (WrongSort at) → RefusesText b result }
{
    match unknown_declared(declared) {
        Some(lower) => lower,
        None => RuleFault::WrongSort(first(at, declared.strays.wrong)),
    }
}

/// The refusal of a text whose meaning has a wrong divisor at this place, and keeps S1 to S8.
fn bad_divisor(at: u32, declared: &Misdeclared) -> RuleFault
    ensures { (b : PlainBlock) → AreDeclared b declared.now → Refuses (expanded b) (BadDivisor at) → RefusesText b result }
{
    match wrong_declared(declared) {
        Some(lower) => lower,
        None => RuleFault::BadDivisor(first(at, declared.strays.divisor)),
    }
}

/// The refusal of a text whose meaning keeps S1 to S3, if the text keeps these and has this refusal, or breaks one of
/// them.
fn after_sorts(fault: RuleFault, declared: &Misdeclared) -> RuleFault
    ensures { (b : PlainBlock) → AreDeclared b declared.now → IsSorted (expanded b) → (AreSorted b → RefusesText b fault) → RefusesText b result }
{
    match wrong_declared(declared) {
        Some(lower) => lower,
        None => fault,
    }
}

/// The refusal of a text whose meaning keeps S1 to S9, if the text keeps these and has this refusal, or breaks one of
/// them.
fn after_divisors(fault: RuleFault, declared: &Misdeclared) -> RuleFault
    ensures { (b : PlainBlock) → AreDeclared b declared.now → IsDivided (expanded b) → (AreDivided b → RefusesText b fault) → RefusesText b result }
{
    match divisor_declared(declared) {
        Some(lower) => lower,
        None => fault,
    }
}

/// The refusal of a text, if the text with values has this refusal.
fn refusal(fault: RuleFault, declared: &Misdeclared) -> RuleFault
    ensures { (b : PlainBlock) → AreDeclared b declared.now → Refuses (expanded b) fault → RefusesText b result }
{
    match fault {
        RuleFault::NoMemory => RuleFault::NoMemory,
        RuleFault::DoubleName(at) => RuleFault::DoubleName(first(at, declared.double)),
        RuleFault::UnknownName(at) => unknown_name(at, declared),
        RuleFault::WrongSort(at) => wrong_sort(at, declared),
        RuleFault::NoState(at) => after_sorts(RuleFault::NoState(at), declared),
        RuleFault::NoReceiver(at) => after_sorts(RuleFault::NoReceiver(at), declared),
        RuleFault::TwoReceivers(at) => after_sorts(RuleFault::TwoReceivers(at), declared),
        RuleFault::JoinCycle(at) => after_sorts(RuleFault::JoinCycle(at), declared),
        RuleFault::NoAnswer(at) => after_sorts(RuleFault::NoAnswer(at), declared),
        RuleFault::BadDivisor(at) => bad_divisor(at, declared),
        RuleFault::Limit(limit) => after_divisors(RuleFault::Limit(limit), declared),
        RuleFault::Unset { variable, path } => {
            after_divisors(RuleFault::Unset { variable, path }, declared)
        }
    }
}

/// The text with values and its tables, which is sound, if the declarations break no rule.
fn accepted<'a>(resolved: Resolved<'a>, declared: &Misdeclared) -> Result<Resolved<'a>, RuleFault>
    ensures block { IfOk result (λ r. r ≡ resolved.entry) }
    ensures sound { IfOk result (λ _. (b : PlainBlock) → AreDeclared b declared.now → Sound (expanded b) → SoundText b) }
    ensures refused { IfErr result (λ e. (b : PlainBlock) → AreDeclared b declared.now → Sound (expanded b) → RefusesText b e) }
{
    match divisor_declared(declared) {
        Some(fault) => Err(fault),
        None => Ok(resolved),
    }
}

impl Expansion {
    /// Returns the text with values and its tables if the text is sound, else the rule that it breaks and the place: in
    /// its meaning, or in its declarations of synonyms.
    ///
    /// Of several broken rules the one with the least number is named; the places are those of [`resolve`].
    /// If memory runs out, the answer is [`RuleFault::NoMemory`] instead.
    pub fn resolve(&self, alloc: Global) -> Result<Resolved<'_>, RuleFault>
        ensures block { IfOk result (λ r. r ≡ self.now.block) }
        ensures sound { IfOk result (λ r. (b : PlainBlock) → IsExpansion b self.now → SoundText b) }
        ensures refused { IfErr result (λ e. (b : PlainBlock) → IsExpansion b self.now → RefusesText b e) }
    {
        match resolve(alloc, &self.block) {
            Ok(resolved) => accepted(resolved, &self.declared),
            Err(fault) => Err(refusal(fault, &self.declared)),
        }
    }
}
