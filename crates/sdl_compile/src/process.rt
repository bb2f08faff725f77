//! Compiles a process.
ghost use Rattle.std.specs.Prelude.{◌≡◌, ◌≤◌, [], length, map, None, IfOk};
ghost use Rattle.sdl_ast.specs.Views.{block_of, process_of};
ghost use Rattle.std.specs.List.{AllZip};
ghost use Rattle.sdl_tables.specs.Names.{process_names, states_of, inputs_by_state, saves_by_state};
ghost use Rattle.sdl_sound.specs.Settled.{AreSettled};
ghost use Rattle.sdl_sound.specs.Orders.{IsOrder};
ghost use Rattle.sdl_emit.specs.Measures.{AreMeasures};
ghost use Rattle.sdl_meaning.specs.Act.{scope_of};
ghost use Rattle.sdl_emit.specs.Scopes.{scope_in};
ghost use Rattle.sdl_emit.specs.Uses.{IsUseTable};
ghost use Rattle.sdl_compile.specs.Contexts.{IsContext};
ghost use Rattle.sdl_meaning.specs.Declarations.{drafted_signals};
ghost use Rattle.turn_code.specs.Sets.{initial_set};
ghost use Rattle.sdl_sound.specs.Longest.{start_piece};
ghost use Rattle.sdl_compile.specs.Made.{IsPieceOf};
ghost use Rattle.sdl_compile.specs.Drafts.{IsReadyProcess, MeansPiece, MatchesProcess, IsProcessOf, AllReady, AllTriggers, IsNamedAs, SavesAll, AreInputsOf, sets_of};
ghost use Rattle.plain_laws.specs.Limits.{MOST_PROCESSES};

use crate::piece::compile_transition;
use crate::setting::Setting;
use crate::state::{Context, compile_states, draft_name};
use crate::variables::compile_variables;
use sdl_emit::{Body, Names, UseTable, find_uses, trim_connections, trim_transition};
use sdl_rules::Measure;
use sdl_sound::standing_inputs;
use sdl_tables::{BlockTable, NameTable, ProcessTable};
use std::alloc::{AllocError, Global};
use turn_code::{DraftPiece, DraftProcess, DraftSignal, DraftState, Name, Sequence, set_at_start};

/// The names of timers.
fn compile_timers(alloc: Global, table: &NameTable) -> Result<Vec<Name>, AllocError>
    ensures { IfOk result (λ v. v.items ≡ map (λ id. id.name) table.now) }
{
    let mut timers = Vec::new(alloc);
    for number in 0..table.len() {
        timers.push(draft_name(&table.name(number).name))?;
    }
    Ok(timers)
}

/// Compiles START, which has no parameters. Variables with an initial value are set as it begins.
fn compile_start(alloc: Global, context: &Context) -> Result<DraftPiece, AllocError>
    requires ready { IsReadyProcess (scope_in context.now.names.now) }
    requires context { IsContext context.now }
    ensures means { IfOk result (λ d. MeansPiece (scope_in context.now.names.now) None (start_piece (process_of context.now.names.now.process.now)) d) }
    ensures made { IfOk result (λ d. IsPieceOf (scope_in context.now.names.now) [] (initial_set context.now.variables.now) (start_piece (process_of context.now.names.now.process.now)) d) }
{
    let process = context.names.process.process();
    let start = &process.start.transition;
    let copy = trim_transition(alloc, start)?;
    let setting = Setting {
        names: context.names,
        variables: context.variables,
        signals: context.signals,
        parameters: &[],
        entry: set_at_start(context.variables),
        order: context.order,
        measures: context.measures,
        copies: context.copies,
    };
    let body = Body {
        whole: start,
        copy: &copy,
    };
    let first = compile_transition(alloc, &setting, &[], &body)?;
    Ok(first)
}

/// The states of a process, with all their inputs and saves.
fn compile_all(
    alloc: Global,
    context: &Context,
    sets: &[u32],
) -> Result<Vec<DraftState>, AllocError>
    requires sets { length sets.now ≡ length (states_of (process_of context.now.names.now.process.now)) }
    requires ready { AllReady (scope_in context.now.names.now) (inputs_by_state (process_of context.now.names.now.process.now)) }
    requires saved { AllTriggers (scope_in context.now.names.now) (saves_by_state (process_of context.now.names.now.process.now)) }
    requires context { IsContext context.now }
    ensures names { IfOk result (λ ds. AllZip IsNamedAs (states_of (process_of context.now.names.now.process.now)) ds.items) }
    ensures saves { IfOk result (λ ds. AllZip (SavesAll (scope_in context.now.names.now)) (saves_by_state (process_of context.now.names.now.process.now)) ds.items) }
    ensures made { IfOk result (λ ds. AllZip (AreInputsOf (scope_in context.now.names.now)) (inputs_by_state (process_of context.now.names.now.process.now)) ds.items) }
    ensures sets { IfOk result (λ ds. sets_of ds.items ≡ sets.now) }
{
    let process = context.names.process;
    let saves = process.saves(alloc)?;
    let inputs = standing_inputs(alloc, process)?;
    compile_states(alloc, context, &saves, &inputs, sets)
}

/// The meanings of the names in the transitions of a process, each looked up once.
fn use_table<'a>(
    alloc: Global,
    block: &'a BlockTable<'a>,
    table: &'a ProcessTable<'a>,
) -> Result<UseTable, AllocError>
    requires ready { IsReadyProcess (scope_of (block_of block.now) (process_of table.now)) }
    requires few { length (process_names (block_of block.now)) ≤ MOST_PROCESSES }
    ensures { IfOk result (IsUseTable (scope_of (block_of block.now) (process_of table.now))) }
{
    let none = UseTable::empty(alloc);
    let names = Names {
        block: &*block,
        process: &*table,
        uses: &none,
    };
    let uses = find_uses(alloc, &names)?;
    Ok(uses)
}

/// The findings of the rules for a process. `sets` has for each state the variables that are set whenever the process
/// is in it. `order` has each connection after all those that it joins; `measures` are those of the connections.
#[derive(Drop)]
pub struct Survey<'a> {
    pub sets: &'a [u32],
    pub order: &'a [usize],
    pub measures: &'a [Measure],
}

/// Compiles a process of a block with these signals.
///
/// It has as many instances. Its variables, timers, states, inputs and saves have their names and numbers in the order
/// of the text. Each piece does what its transition means, and each certificate names the longest path. Fails only if
/// memory runs out.
pub fn compile_process<'a>(
    alloc: Global,
    block: &'a BlockTable<'a>,
    table: &'a ProcessTable<'a>,
    survey: &'a Survey<'a>,
    signals: &'a [DraftSignal],
) -> Result<DraftProcess, AllocError>
    requires ready { IsReadyProcess (scope_of (block_of block.now) (process_of table.now)) }
    requires few { length (process_names (block_of block.now)) ≤ MOST_PROCESSES }
    requires signals { signals.now ≡ drafted_signals (block_of block.now) }
    requires settled { AreSettled (process_of table.now) survey.now.sets.now }
    requires ordered { IsOrder (process_of table.now) survey.now.order.now }
    requires measured { AreMeasures (process_of table.now) survey.now.measures.now }
    ensures matches { IfOk result (λ d. MatchesProcess (block_of block.now) (process_of table.now) d) }
    ensures made { IfOk result (λ d. IsProcessOf (block_of block.now) (process_of table.now) d) }
{
    let variables = compile_variables(alloc, table.rows())?;
    let timers = compile_timers(alloc, table.timers())?;
    let uses = use_table(alloc, block, table)?;
    let names = Names {
        block: &*block,
        process: &*table,
        uses: &uses,
    };
    let process = table.process();
    let copies = trim_connections(alloc, &process.connections)?;
    let context = Context {
        names: &names,
        variables: &variables,
        signals: &*signals,
        order: survey.order,
        measures: survey.measures,
        copies: &copies,
    };
    let first = compile_start(alloc, &context)?;
    let states = compile_all(alloc, &context, survey.sets)?;
    Ok(DraftProcess {
        name: draft_name(&process.name.name),
        instances: process.instances,
        variables: Sequence::from(variables),
        timers: Sequence::from(timers),
        start: first,
        states: Sequence::from(states),
    })
}
