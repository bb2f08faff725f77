//! A1: states to which no way leads from START.
ghost use Rattle.std.specs.Prelude.{◌≡◌, ◌++◌, ◌<◌, length, map, OnOk};
ghost use Rattle.sdl_ast.specs.Views.{process_of};
ghost use Rattle.sdl_tables.specs.Names.{states_of};
ghost use Rattle.sdl_warnings.specs.Standing.{AreWays};
ghost use Rattle.sdl_warnings.specs.Warned.{unreached_state, unreached_states};

use crate::warning::{Kind, Warning, push_unless};
use crate::ways::{Ways, is_entered};
use sdl_tables::ProcessTable;
use std::alloc::AllocError;

/// Appends the warning of a state if no way leads there.
fn push_unreached(
    found: &mut Vec<Warning>,
    process: &ProcessTable,
    ways: &Ways,
    number: usize,
) -> Result<(), AllocError>
    requires within { number < length (states_of (process_of process.now)) }
    requires ways { AreWays (process_of process.now) ways.now }
    ensures { OnOk result (found.new.items ≡ found.old.items ++ unreached_state (process_of process.now) number) }
{
    let id = process.states().name(number);
    let entered = is_entered(ways, number);
    push_unless(found, entered, id.at, Kind::UnreachedState(id.name))
}

/// Appends the warnings of states to which no way leads.
pub(crate) fn push_states(
    found: &mut Vec<Warning>,
    process: &ProcessTable,
    ways: &Ways,
) -> Result<(), AllocError>
    requires { AreWays (process_of process.now) ways.now }
    ensures { OnOk result (found.new.items ≡ found.old.items ++ unreached_states (process_of process.now)) }
{
    for number in 0..process.states().len() {
        push_unreached(found, process, ways, number)?;
    }
    Ok(())
}
