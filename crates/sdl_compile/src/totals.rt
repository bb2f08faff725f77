//! The counts at each place of a piece.
ghost use Rattle.std.specs.Prelude.{◌≡◌, ℕ, ◌<◌, ◌≤◌, length as length_of, replicate, All, Contains, IfOk};
ghost use Rattle.sdl_ast.specs.Views.{text_of};
ghost use Rattle.sdl_compile.specs.declared.counts.Counted.TheVariants.{Instructions, Effects};
ghost use Rattle.sdl_compile.specs.PlaceCounts.{weight, number_at, AreCounts, AreWithin};
ghost use Rattle.sdl_compile.specs.Counts.{measured, piece_count};
ghost use Rattle.sdl_sound.specs.Longest.{piece_budget, piece_effects};
ghost use Rattle.sdl_meaning.specs.Code.{ArePlaced, place_in, connections_place, piece_code};
ghost use Rattle.sdl_emit.specs.Scopes.{scope_in, piece_in, places_by};
ghost use Rattle.sdl_compile.specs.Settings.{IsSetting, IsReadyPiece};
ghost use Rattle.plain_laws.specs.Limits.{MOST_INSTRUCTIONS};

use crate::counts::{Counted, count_places};
use crate::setting::Setting;
use sdl_ast::{Identifier, Transition};
use sdl_emit::Measure;
use std::alloc::{AllocError, Global};
use turn_code::Instruction;

/// How many instructions may run from each place on, and how many effects they may have.
#[derive(Drop)]
pub struct Counts {
    pub counts: Vec<u32>,
    pub effects: Vec<u32>,
}

/// The connections in a piece, and the place of each.
#[derive(Drop)]
pub struct Layout<'a> {
    pub numbers: &'a [usize],
    pub targets: &'a [usize],
}

/// The known count of a connection.
fn measured(counted: Counted, measures: &[Measure], number: usize) -> u32
    ensures { result ≡ measured counted measures.now number }
{
    match measures.get(number) {
        Some(measure) => match counted {
            Counted::Instructions => measure.budget,
            Counted::Effects => measure.effects,
        },
        None => 0,
    }
}

/// The place of the connection with this number; 0 if none is known.
fn target(targets: &[usize], number: usize) -> usize
    ensures { result ≡ places_by targets.now number }
{
    match targets.get(number) {
        Some(place) => *place,
        None => 0,
    }
}

/// The counts of the connections, each at its place; 0 elsewhere.
fn known_counts(
    alloc: Global,
    measures: &[Measure],
    layout: &Layout,
    counted: Counted,
    length: usize,
) -> Result<Vec<u32>, AllocError>
    requires inside { All (λ n. places_by layout.now.targets.now n < length) layout.now.numbers.now }
    requires apart { (n m : ℕ) → Contains layout.now.numbers.now n → Contains layout.now.numbers.now m → places_by layout.now.targets.now n ≡ places_by layout.now.targets.now m → n ≡ m }
    requires small { All (λ n. measured counted measures.now n ≤ MOST_INSTRUCTIONS) layout.now.numbers.now }
    ensures size { IfOk result (λ ns. length_of ns.items ≡ length) }
    ensures few { IfOk result (λ ns. AreWithin MOST_INSTRUCTIONS ns.items) }
    ensures known { IfOk result (λ ns. (n : ℕ) → Contains layout.now.numbers.now n → number_at ns.items (places_by layout.now.targets.now n) ≡ measured counted measures.now n) }
{
    let mut known = vec![in alloc; 0; length]?;
    for number in layout.numbers {
        known[target(layout.targets, *number)] = measured(counted, measures, *number);
    }
    Ok(known)
}

/// One count for each place of a piece.
fn count_piece(
    alloc: Global,
    setting: &Setting,
    places: &[Option<Identifier>],
    transition: &Transition,
    layout: &Layout,
    counted: Counted,
    code: &[Instruction],
) -> Result<Vec<u32>, AllocError>
    requires setting { IsSetting setting.now }
    requires ready { IsReadyPiece (scope_in setting.now.names.now) (piece_in places.now transition.now) setting.now.parameters.now }
    requires placed { ArePlaced (scope_in setting.now.names.now) (text_of transition.now) layout.now.numbers.now }
    requires targets { (n : ℕ) → places_by layout.now.targets.now n ≡ place_in (scope_in setting.now.names.now) (connections_place (scope_in setting.now.names.now) (piece_in places.now transition.now)) layout.now.numbers.now n }
    requires code { code.now ≡ piece_code (scope_in setting.now.names.now) (piece_in places.now transition.now) layout.now.numbers.now }
    requires short { length_of code.now ≤ MOST_INSTRUCTIONS }
    ensures counts { IfOk result (λ ns. AreCounts (weight counted) code.now ns.items) }
    ensures first { IfOk result (λ ns. number_at ns.items 0 ≡ piece_count counted (scope_in setting.now.names.now).process (piece_in places.now transition.now)) }
{
    let known = known_counts(alloc, setting.measures, layout, counted, code.len())?;
    Ok(count_places(counted, code, known))
}

/// The counts at each place of a piece: instructions and effects. Fails only if memory runs out.
pub fn piece_counts(
    alloc: Global,
    setting: &Setting,
    places: &[Option<Identifier>],
    transition: &Transition,
    layout: &Layout,
    code: &[Instruction],
) -> Result<Counts, AllocError>
    requires setting { IsSetting setting.now }
    requires ready { IsReadyPiece (scope_in setting.now.names.now) (piece_in places.now transition.now) setting.now.parameters.now }
    requires placed { ArePlaced (scope_in setting.now.names.now) (text_of transition.now) layout.now.numbers.now }
    requires targets { (n : ℕ) → places_by layout.now.targets.now n ≡ place_in (scope_in setting.now.names.now) (connections_place (scope_in setting.now.names.now) (piece_in places.now transition.now)) layout.now.numbers.now n }
    requires code { code.now ≡ piece_code (scope_in setting.now.names.now) (piece_in places.now transition.now) layout.now.numbers.now }
    requires short { length_of code.now ≤ MOST_INSTRUCTIONS }
    ensures counts { IfOk result (λ x. AreCounts (weight Instructions) code.now x.counts.items) }
    ensures effects { IfOk result (λ x. AreCounts (weight Effects) code.now x.effects.items) }
    ensures longest { IfOk result (λ x. number_at x.counts.items 0 ≡ piece_budget (scope_in setting.now.names.now).process (piece_in places.now transition.now)) }
    ensures most { IfOk result (λ x. number_at x.effects.items 0 ≡ piece_effects (scope_in setting.now.names.now).process (piece_in places.now transition.now)) }
{
    let counts = count_piece(
        alloc,
        setting,
        places,
        transition,
        layout,
        Counted::Instructions,
        code,
    )?;
    let effects = count_piece(
        alloc,
        setting,
        places,
        transition,
        layout,
        Counted::Effects,
        code,
    )?;
    Ok(Counts { counts, effects })
}
