//! A control path with its names spelled as in their declarations.
ghost use Rattle.std.specs.Prelude.{◌≡◌, ◌<◌, true, length, map, IfOk, All};
ghost use Rattle.std.specs.List.{AllZip};
ghost use Rattle.std.specs.Option.{option_map_or};
ghost use Rattle.sdl_ast.specs.Views.{process_of, block_of};
ghost use Rattle.sdl_tables.specs.Names.{same_name, inputs_by_state};
ghost use Rattle.sdl_tables.specs.Rows.{rows_inputs};
ghost use Rattle.sdl_unset.specs.Fates.{IsStep, IsNamed, timer_named, declared_name, IsSpelled};
ghost use Rattle.sdl_unset.specs.declared.paths.Step.TheVariants.{Input as By};

use sdl_lex::Name;
use sdl_sound::{ControlPath, Step};
use sdl_tables::{BlockTable, InputRow, ProcessTable};
use std::alloc::{AllocError, Global};

/// The name of a timer as it is declared, or `name` itself if no timer has it.
fn timer_name(table: &ProcessTable, name: Name) -> Name
    ensures same { same_name result name ≡ true }
    ensures declared { result ≡ option_map_or (λ id. id.name) (timer_named (process_of table.now) name) name }
{
    let timers = table.timers();
    match timers.number(name) {
        None => name,
        Some(number) => timers.name(number).name,
    }
}

/// The name of a signal or timer as it is declared, or `name` itself if neither has it.
fn declared_name(block: &BlockTable, table: &ProcessTable, name: Name) -> Name
    ensures same { same_name result name ≡ true }
    ensures declared { result ≡ declared_name (block_of block.now) (process_of table.now) name }
{
    match block.signal(name) {
        None => timer_name(table, name),
        Some(signal) => signal.name.name,
    }
}

/// The transition of an input, with the names as they are declared.
fn named_input(
    block: &BlockTable,
    table: &ProcessTable,
    inputs: &[Vec<InputRow>],
    state: usize,
    number: usize,
) -> Step
    requires inputs { map rows_inputs inputs.now ≡ inputs_by_state (process_of table.now) }
    requires within { state < length inputs.now }
    requires step { IsStep (process_of table.now) (By state number) }
    ensures named { IsNamed (process_of table.now) (By state number) result }
    ensures spelled { IsSpelled (block_of block.now) (process_of table.now) (By state number) result }
{
    let name = table.states().name(state).name;
    let rows = &inputs[state];
    let row = rows[number];
    let signal = declared_name(block, table, row.stimulus.name.name);
    Step::Input {
        state: name,
        signal,
    }
}

/// START, or the transition of an input, with the names as they are declared.
fn named_step(
    block: &BlockTable,
    table: &ProcessTable,
    inputs: &[Vec<InputRow>],
    step: crate::paths::Step,
) -> Step
    requires inputs { map rows_inputs inputs.now ≡ inputs_by_state (process_of table.now) }
    requires step { IsStep (process_of table.now) step }
    ensures named { IsNamed (process_of table.now) step result }
    ensures spelled { IsSpelled (block_of block.now) (process_of table.now) step result }
{
    match step {
        crate::paths::Step::Start => Step::Start,
        crate::paths::Step::Input(state, number) => {
            named_input(block, table, inputs, state, number)
        }
    }
}

/// A path with the names as they are declared.
pub(crate) fn named_path(
    alloc: Global,
    block: &BlockTable,
    table: &ProcessTable,
    path: &[crate::paths::Step],
) -> Result<ControlPath, AllocError>
    requires { All (IsStep (process_of table.now)) path.now }
    ensures named { IfOk result (λ c. AllZip (IsNamed (process_of table.now)) path.now c.steps.items) }
    ensures spelled { IfOk result (λ c. AllZip (IsSpelled (block_of block.now) (process_of table.now)) path.now c.steps.items) }
{
    let inputs = table.inputs(alloc)?;
    let mut steps = Vec::new(alloc);
    for step in path {
        steps.push(named_step(block, table, &inputs, *step))?;
    }
    Ok(ControlPath { steps })
}
