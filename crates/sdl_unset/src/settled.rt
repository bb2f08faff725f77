//! Whether control paths read variables before they are set; if none does, the variables that are set in each state.
ghost use Rattle.std.specs.Prelude.{◌≡◌, ◌⊎◌, ◌<◌, ◌≤◌, [], Some, length, IfOk, IfSome};
ghost use Rattle.sdl_ast.specs.Views.{process_of, block_of};
ghost use Rattle.sdl_tables.specs.Names.{variables_of, processes_of};
ghost use Rattle.sdl_sound.specs.Names.{process_unknown};
ghost use Rattle.sdl_sound.specs.Actions.{in_statements};
ghost use Rattle.sdl_sound.specs.Decisions.{statement_unanswered};
ghost use Rattle.sdl_sound.specs.Orders.{IsOrder, AreOrders};
ghost use Rattle.sdl_sound.specs.Refusals.{IsWithin};
ghost use Rattle.sdl_unset.specs.Fates.{AreFates};
ghost use Rattle.sdl_unset.specs.Surveys.{IsSurvey, AreSurveys};
ghost use Rattle.plain_laws.specs.Limits.{MOST_VARIABLES};

use crate::paths::Fate;
use crate::places::read_places;
use crate::search::{find_fates, find_first, path_at};
use crate::sets::sets_in;
use crate::spelled::named_path;
use crate::walks::connection_walkers;
use sdl_lex::Name;
use sdl_sound::ControlPath;
use sdl_tables::{BlockTable, ProcessTable};
use std::alloc::{AllocError, Global};

/// A variable that a control path reads before it is set.
#[derive(Drop)]
pub struct Unset {
    pub variable: Name,
    pub path: ControlPath,
}

/// The set variables of each state of a process, or else the variable that is named as read unset, given their fates.
fn survey_fates(
    alloc: Global,
    block: &BlockTable,
    table: &ProcessTable,
    fates: &[Fate],
    places: &[Option<u32>],
) -> Result<Result<Vec<u32>, Unset>, AllocError>
    requires few { length (variables_of (process_of table.now)) ≤ MOST_VARIABLES }
    requires known { process_unknown (block_of block.now) (process_of table.now) ≡ [] }
    requires fates { AreFates (process_of table.now) fates.now }
    ensures { IfOk result (IsSurvey (block_of block.now) (process_of table.now)) }
{
    match find_first(fates, places) {
        None => {
            let sets = sets_in(alloc, fates, table.states().len())?;
            Ok(Ok(sets))
        }
        Some(number) => {
            let variable = table.variables().name(number).name;
            let path = named_path(alloc, block, table, path_at(fates, number))?;
            Ok(Err(Unset { variable, path }))
        }
    }
}

/// The set variables of each state of a process, or else the variable that is named as read unset.
fn survey(
    alloc: Global,
    block: &BlockTable,
    table: &ProcessTable,
    order: &[usize],
) -> Result<Result<Vec<u32>, Unset>, AllocError>
    requires few { length (variables_of (process_of table.now)) ≤ MOST_VARIABLES }
    requires known { process_unknown (block_of block.now) (process_of table.now) ≡ [] }
    requires answered { in_statements (λ from. statement_unanswered (variables_of (process_of table.now))) (process_of table.now) ≡ [] }
    requires order { IsOrder (process_of table.now) order.now }
    ensures { IfOk result (IsSurvey (block_of block.now) (process_of table.now)) }
{
    let walkers = connection_walkers(alloc, table, order)?;
    let fates = find_fates(alloc, table, &walkers)?;
    let places = read_places(alloc, table, &walkers, &fates)?;
    survey_fates(alloc, block, table, &fates, &places)
}

/// Of two variables that are read unset: the one whose path has fewer transitions, or else the first.
fn shorter(best: Option<Unset>, other: Unset) -> Unset
    ensures one { ((result ≡ other) × IfSome best (λ one. length other.path.steps.items < length one.path.steps.items)) ⊎ (best ≡ Some result) }
    ensures fewer { length result.path.steps.items ≤ length other.path.steps.items }
    ensures best { IfSome best (λ one. length result.path.steps.items ≤ length one.path.steps.items) }
{
    match best {
        None => other,
        Some(one) => {
            if other.path.steps.len() < one.path.steps.len() {
                other
            } else {
                one
            }
        }
    }
}

/// The variables set in each state of each process, or else a variable read unset (S11; Z.100: a variable is undefined
/// until it is assigned). Each order lists the connections of a process, each after those that it joins.
pub fn settle(
    alloc: Global,
    block: &BlockTable,
    orders: &[Vec<usize>],
) -> Result<Result<Vec<Vec<u32>>, Unset>, AllocError>
    requires within { IsWithin (block_of block.now) }
    requires orders { AreOrders (processes_of (block_of block.now)) orders.now }
    ensures { IfOk result (AreSurveys (block_of block.now)) }
{
    let mut sets = Vec::new(alloc);
    let mut best: Option<Unset> = None;
    let tables = block.tables();
    for (number, table) in tables.iter().enumerate() {
        match survey(alloc, block, table, &orders[number])? {
            Ok(set) => sets.push(set)?,
            Err(unset) => best = Some(shorter(best, unset)),
        }
    }
    match best {
        None => Ok(Ok(sets)),
        Some(unset) => Ok(Err(unset)),
    }
}
