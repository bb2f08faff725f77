//! Compiles a transition to a piece.
ghost use Rattle.std.specs.Prelude.{◌≡◌, ◌≤◌, length, Option, IfOk};
ghost use Rattle.sdl_ast.specs.declared.expression.Identifier as tree_identifier;
ghost use Rattle.sdl_ast.specs.Views.{text_of};
ghost use Rattle.sdl_emit.specs.Bodies.{IsBody};
ghost use Rattle.sdl_emit.specs.Scopes.{scope_in, piece_in};
ghost use Rattle.sdl_meaning.specs.Named.{AnswersAll};
ghost use Rattle.sdl_sound.specs.Longest.{places_cost};
ghost use Rattle.sdl_compile.specs.Drafts.{MeansPiece};
ghost use Rattle.sdl_compile.specs.Made.{IsPieceOf};
ghost use Rattle.sdl_compile.specs.Settings.{IsSetting, IsReadyPiece, count_from, effects_from};
ghost use Rattle.plain_laws.specs.Limits.{MOST_PARAMETERS};

use crate::entries::{PieceSets, place_sets};
use crate::facts::{Marks, greatest_depth, place_facts};
use crate::setting::Setting;
use crate::totals::{Layout, piece_counts};
use sdl_ast::{Identifier, Transition};
use sdl_emit::{Body, connection_places, emit_piece, place_connections, text_size};
use std::alloc::{AllocError, Global};
use turn_code::{Cert, DraftPiece, PlaceFacts, Sequence};

/// How many instructions the places of INPUT have.
fn places_length(places: &[Option<Identifier>]) -> usize
    requires { length places.now ≤ MOST_PARAMETERS }
    ensures { result ≡ places_cost places.now }
{
    let mut length = 0;
    for place in places {
        if place.is_some() {
            length += 2;
        }
    }
    length
}

/// The count of the first place, which is that of the whole piece.
fn first_count(facts: &[PlaceFacts]) -> u32
    ensures { result ≡ count_from facts.now }
{
    match facts.first() {
        Some(place) => place.count,
        None => 0,
    }
}

/// The effects of the first place, which are those of the whole piece.
fn first_effects(facts: &[PlaceFacts]) -> u32
    ensures { result ≡ effects_from facts.now }
{
    match facts.first() {
        Some(place) => place.effects,
        None => 0,
    }
}

/// The piece of a transition: the places of INPUT (START has none), and then its text.
fn make_piece(
    alloc: Global,
    setting: &Setting,
    places: &[Option<Identifier>],
    body: &Body,
) -> Result<DraftPiece, AllocError>
    requires body { IsBody body.now }
    requires setting { IsSetting setting.now }
    requires ready { IsReadyPiece (scope_in setting.now.names.now) (piece_in places.now body.now.whole.now) setting.now.parameters.now }
    ensures { IfOk result (λ d. IsPieceOf (scope_in setting.now.names.now) setting.now.parameters.now setting.now.entry (piece_in places.now body.now.whole.now) d) }
{
    let names = setting.names;
    let copies = setting.copies;
    let numbers = place_connections(alloc, names, copies, body)?;
    let start = places_length(places) + text_size(names.process, body);
    let targets = connection_places(alloc, names, setting.measures, start, &numbers)?;
    let code = emit_piece(alloc, names, copies, places, body, &numbers, &targets)?;
    let standing = PieceSets {
        places,
        entry: setting.entry,
        order: setting.order,
        copies,
        numbers: &numbers,
    };
    let sets = place_sets(alloc, names, &standing, body)?;
    let layout = Layout {
        numbers: &numbers,
        targets: &targets,
    };
    let counted = piece_counts(alloc, setting, places, body.whole, &layout, &code)?;
    let marks = Marks {
        sets: &sets,
        counts: &counted.counts,
        effects: &counted.effects,
    };
    let facts = place_facts(alloc, setting, &code, &marks)?;
    let certificate = Cert {
        budget: first_count(&facts),
        depth: greatest_depth(&facts) as u32,
        effects: first_effects(&facts),
    };
    Ok(DraftPiece {
        code: Sequence::from(code),
        facts: Sequence::from(facts),
        certificate,
    })
}

/// Compiles a transition: the places of INPUT (START has none), and then its text.
///
/// On every input from a possible sender, the run of the piece is the meaning of the transition: its effects, its
/// variables, its end and its count. The certificate names the longest path. Fails only if memory runs out.
pub fn compile_transition(
    alloc: Global,
    setting: &Setting,
    places: &[Option<Identifier>],
    body: &Body,
) -> Result<DraftPiece, AllocError>
    requires body { IsBody body.now }
    requires setting { IsSetting setting.now }
    requires ready { IsReadyPiece (scope_in setting.now.names.now) (piece_in places.now body.now.whole.now) setting.now.parameters.now }
    ensures means { IfOk result (λ d. (from : Option tree_identifier.Identifier) → AnswersAll (scope_in setting.now.names.now) from (text_of body.now.whole.now) → MeansPiece (scope_in setting.now.names.now) from (piece_in places.now body.now.whole.now) d) }
    ensures made { IfOk result (λ d. IsPieceOf (scope_in setting.now.names.now) setting.now.parameters.now setting.now.entry (piece_in places.now body.now.whole.now) d) }
{
    let piece = make_piece(alloc, setting, places, body)?;
    Ok(piece)
}
