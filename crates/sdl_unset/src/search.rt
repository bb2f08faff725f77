//! The variables of a process that a control path reads before they are set, and which of them the error names.
ghost use Rattle.std.specs.Prelude.{◌≡◌, ◌⊎◌, [], ℕ, List, ◌≤◌, true, false, Some, length, IfOk, IfSome, IfNone};
ghost use Rattle.sdl_unset.specs.Order.{NotAfter};
ghost use Rattle.sdl_ast.specs.Plain.{PlainBlock};
ghost use Rattle.sdl_ast.specs.Views.{process_of};
ghost use Rattle.sdl_sound.specs.Names.{process_unknown};
ghost use Rattle.sdl_sound.specs.Actions.{in_statements};
ghost use Rattle.sdl_sound.specs.Decisions.{statement_unanswered};
ghost use Rattle.sdl_sound.specs.Orders.{IsOrder};
ghost use Rattle.sdl_tables.specs.Names.{variables_of};
ghost use Rattle.sdl_unset.specs.Flows.{AreJoined};
ghost use Rattle.sdl_unset.specs.Fates.{AreFates, AreSet, IsUnsetAt, fate_path, HasFirst};
ghost use Rattle.plain_laws.specs.Limits.{MOST_VARIABLES};

use crate::order::is_before;
use crate::paths::{Fate, first_unset};
use crate::summaries::graph_of;
use crate::walker::Walker;
use sdl_tables::ProcessTable;
use std::alloc::{AllocError, Global};

/// The fate of each variable of a process, by number. The walkers are those of its connections.
pub(crate) fn find_fates(
    alloc: Global,
    table: &ProcessTable,
    walkers: &[Walker],
) -> Result<Vec<Fate>, AllocError>
    requires few { length (variables_of (process_of table.now)) ≤ MOST_VARIABLES }
    requires known { (b : PlainBlock) × (process_unknown b (process_of table.now) ≡ []) }
    requires answered { in_statements (λ from. statement_unanswered (variables_of (process_of table.now))) (process_of table.now) ≡ [] }
    requires order { (order : List ℕ) × IsOrder (process_of table.now) order }
    requires joined { AreJoined (process_of table.now) walkers.now }
    ensures { IfOk result (λ v. AreFates (process_of table.now) v.items) }
{
    let graph = graph_of(alloc, table, walkers)?;
    let mut fates = Vec::new(alloc);
    for variable in 0..table.rows().len() {
        fates.push(first_unset(alloc, &graph, variable as u32)?)?;
    }
    Ok(fates)
}

/// The path that reads a variable unset; empty if there is none.
pub(crate) fn path_at(fates: &[Fate], variable: usize) -> &[crate::paths::Step]
    ensures { result.now ≡ fate_path fates.now variable }
{
    match fates.get(variable) {
        Some(Fate::Unset(path)) => path,
        Some(Fate::Set(_)) => &[],
        None => &[],
    }
}

/// The place that reads a variable unset; `None` if no path does.
fn place_at(places: &[Option<u32>], variable: usize) -> Option<u32> {
    match places.get(variable) {
        Some(place) => *place,
        None => None,
    }
}

/// Whether the first variable is named before the other. Its path comes before the other's, or neither path comes first
/// and it is read unset earlier in the text.
fn comes_first(fates: &[Fate], places: &[Option<u32>], one: usize, other: usize) -> bool
    ensures first { result ≡ true → NotAfter (fate_path fates.now one) (fate_path fates.now other) }
    ensures last { result ≡ false → NotAfter (fate_path fates.now other) (fate_path fates.now one) }
{
    let path = path_at(fates, one);
    let other_path = path_at(fates, other);
    if is_before(path, other_path) {
        return true;
    }
    if is_before(other_path, path) {
        return false;
    }
    place_at(places, one) < place_at(places, other)
}

/// The one of two variables that is named: its path isn't after the path of either.
fn first_of(fates: &[Fate], places: &[Option<u32>], best: Option<usize>, other: usize) -> usize
    ensures one { (result ≡ other) ⊎ (best ≡ Some result) }
    ensures other { NotAfter (fate_path fates.now result) (fate_path fates.now other) }
    ensures best { IfSome best (λ one. NotAfter (fate_path fates.now result) (fate_path fates.now one)) }
{
    match best {
        None => other,
        Some(one) => {
            if comes_first(fates, places, other, one) {
                other
            } else {
                one
            }
        }
    }
}

/// The variable that is named, if any is read unset.
pub(crate) fn find_first(fates: &[Fate], places: &[Option<u32>]) -> Option<usize>
    ensures found { IfSome result (IsUnsetAt fates.now) }
    ensures first { IfSome result (HasFirst fates.now) }
    ensures none { IfNone result (AreSet fates.now) }
{
    let mut best = None;
    for (variable, fate) in fates.iter().enumerate() {
        match fate {
            Fate::Set(_) => {}
            Fate::Unset(_) => best = Some(first_of(fates, places, best, variable)),
        }
    }
    best
}
