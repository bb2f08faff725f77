//! From a block to the same block with its tables, known to be sound.
ghost use Rattle.std.specs.Prelude.{◌≡◌, List, map, IfOk, IfErr};
ghost use Rattle.sdl_ast.specs.Views.{signal_of, route_of, process_of, block_of};
ghost use Rattle.sdl_tables.specs.Names.{signal_names, signals_of, process_names, processes_of, routes_of};
ghost use Rattle.sdl_sound.specs.Orders.{AreOrders};
ghost use Rattle.sdl_measures.specs.Measures.{AllMeasures};
ghost use Rattle.sdl_unset.specs.Surveys.{AllSettled};
ghost use Rattle.sdl_sound.specs.Sound.{Sound};
ghost use Rattle.sdl_sound.specs.Refusals.{IsDistinct, IsSingle, IsJoined, IsDivided, IsWithin, Refuses};

use crate::lost::lost_output;
use crate::statements::{bad_divisor, doubtful_output, missing_answer, unknown_name, wrong_sort};
use sdl_ast::{Block, Route, SignalDeclaration};
use sdl_measures::{Measure, find_orders, first_limit, measure_all};
use sdl_scopes::stray_end;
use sdl_sound::RuleFault;
use sdl_tables::{BlockTable, NameTable, ProcessTable};
use sdl_unset::{Unset, settle};
use std::alloc::Global;
use std::marker::Model;

/// A sound block with its tables. For each process it has the variables that are set in each state, an order of the
/// connections, and the measures of each connection. Contracts see it as the block.
#[derive(Drop)]
pub struct Resolved<'a> {
    table: BlockTable<'a>,
    sets: Vec<Vec<u32>>,
    orders: Vec<Vec<usize>>,
    measures: Vec<Vec<Measure>>,
}

impl<'a> Model for Resolved<'a> {
    ghost use Rattle.sdl_ast.specs.declared.tree.Block as the_block;
    ghost use Rattle.sdl_ast.specs.contracts.tree.Block as the_contract;
    ghost use Rattle.sdl_rules.specs.Resolving.{IsResolved};

    ghost Value = { the_block.Block };

    ghost coded = { the_contract.the_row.coded };

    ghost view = { λ r. r.table };

    ghost invariant = { IsResolved };
}

/// The rules on names, sorts, ends and receivers.
fn check_names(alloc: Global, block: &BlockTable) -> Result<(), RuleFault>
    requires { IsDistinct (block_of block.now) }
    ensures kept { IfOk result (λ _. IsSingle (block_of block.now)) }
    ensures refused { IfErr result (λ e. Refuses (block_of block.now) e) }
{
    if let Some(at) = unknown_name(alloc, block) {
        return Err(RuleFault::UnknownName(at));
    }
    if let Some(at) = wrong_sort(alloc, block) {
        return Err(RuleFault::WrongSort(at));
    }
    if let Some(at) = stray_end(block) {
        return Err(RuleFault::NoState(at));
    }
    if let Some(at) = lost_output(alloc, block)? {
        return Err(RuleFault::NoReceiver(at));
    }
    if let Some(at) = doubtful_output(alloc, block) {
        return Err(RuleFault::TwoReceivers(at));
    }
    Ok(())
}

/// The rule on JOINs, which finds an order of the connections of each process.
fn check_joins(alloc: Global, block: &BlockTable) -> Result<Vec<Vec<usize>>, RuleFault>
    requires { IsSingle (block_of block.now) }
    ensures kept { IfOk result (λ orders. IsJoined (block_of block.now)) }
    ensures orders { IfOk result (λ orders. AreOrders (processes_of (block_of block.now)) orders.items) }
    ensures refused { IfErr result (λ e. Refuses (block_of block.now) e) }
{
    match find_orders(alloc, block)? {
        Ok(orders) => Ok(orders),
        Err(at) => Err(RuleFault::JoinCycle(at)),
    }
}

/// The rules on answers and divisors.
fn check_answers(alloc: Global, block: &BlockTable) -> Result<(), RuleFault>
    requires { IsJoined (block_of block.now) }
    ensures kept { IfOk result (λ _. IsDivided (block_of block.now)) }
    ensures refused { IfErr result (λ e. Refuses (block_of block.now) e) }
{
    if let Some(at) = missing_answer(alloc, block) {
        return Err(RuleFault::NoAnswer(at));
    }
    if let Some(at) = bad_divisor(alloc, block) {
        return Err(RuleFault::BadDivisor(at));
    }
    Ok(())
}

/// The limits, which need the measures of the connections of each process.
fn check_limits(
    alloc: Global,
    block: &BlockTable,
    orders: &[Vec<usize>],
) -> Result<Vec<Vec<Measure>>, RuleFault>
    requires kept { IsDivided (block_of block.now) }
    requires orders { AreOrders (processes_of (block_of block.now)) orders.now }
    ensures kept { IfOk result (λ measures. IsWithin (block_of block.now)) }
    ensures measures { IfOk result (λ measures. AllMeasures (processes_of (block_of block.now)) measures.items) }
    ensures refused { IfErr result (λ e. Refuses (block_of block.now) e) }
{
    let measures = measure_all(alloc, block, orders)?;
    match first_limit(alloc, block, &measures)? {
        None => Ok(measures),
        Some(which) => Err(RuleFault::Limit(which)),
    }
}

/// What the rules find out about a sound block.
#[derive(Drop)]
struct Findings {
    sets: Vec<Vec<u32>>,
    orders: Vec<Vec<usize>>,
    measures: Vec<Vec<Measure>>,
}

/// All rules, one after another.
fn check_rules(alloc: Global, block: &BlockTable) -> Result<Findings, RuleFault>
    requires { IsDistinct (block_of block.now) }
    ensures sound { IfOk result (λ _. Sound (block_of block.now)) }
    ensures sets { IfOk result (λ f. AllSettled (processes_of (block_of block.now)) f.sets.items) }
    ensures orders { IfOk result (λ f. AreOrders (processes_of (block_of block.now)) f.orders.items) }
    ensures measures { IfOk result (λ f. AllMeasures (processes_of (block_of block.now)) f.measures.items) }
    ensures refused { IfErr result (λ e. Refuses (block_of block.now) e) }
{
    check_names(alloc, block)?;
    let orders = check_joins(alloc, block)?;
    check_answers(alloc, block)?;
    let measures = check_limits(alloc, block, &orders)?;
    match settle(alloc, block, &orders)? {
        Ok(sets) => Ok(Findings {
            sets,
            orders,
            measures,
        }),
        Err(Unset { variable, path }) => Err(RuleFault::Unset { variable, path }),
    }
}

/// Returns a block with its tables if it is sound, or else the rule that it breaks and where.
///
/// Of several broken rules it names the one whose code has the least number. If memory runs out it returns
/// [`RuleFault::NoMemory`] instead of any other fault. If control paths read a variable before it is set, it names one
/// with the fewest transitions, over all processes and variables. Of several processes with such a path it takes the
/// first in the text. Of several such paths of this process it takes the first in the order of its transitions in the
/// text (START, then the inputs of each state, states in the order of their first STATE). Only tests show the rest. Of
/// several places of one rule it names the first in the text. Of several variables with that path it names the one that
/// a walk of the last transition reads unset first in the text.
pub fn resolve<'a>(alloc: Global, block: &'a Block) -> Result<Resolved<'a>, RuleFault>
    ensures block { IfOk result (λ r. r ≡ block.now) }
    ensures sound { IfOk result (λ r. Sound (block_of block.now)) }
    ensures refused { IfErr result (λ e. Refuses (block_of block.now) e) }
{
    let table = BlockTable::new(alloc, block)?;
    match check_rules(alloc, &table) {
        Ok(
            Findings {
                sets,
                orders,
                measures,
            },
        ) => Ok(Resolved {
            table,
            sets,
            orders,
            measures,
        }),
        Err(fault) => Err(fault),
    }
}

impl<'a> Resolved<'a> {
    /// The block, which is sound.
    pub fn block(&self) -> &'a Block
        ensures block { result.now ≡ self.now }
        ensures sound { Sound (block_of self.now) }
    {
        self.table.block()
    }

    /// The block with its tables.
    pub fn table(&self) -> &BlockTable<'a>
        ensures { result.now ≡ self.now }
    {
        &self.table
    }

    /// The names of its signals, by number.
    pub fn signals(&self) -> &NameTable
        ensures { result.now ≡ signal_names (block_of self.now) }
    {
        self.table.signals()
    }

    /// Its signals, by number.
    pub fn signal_rows(&self) -> &[&'a SignalDeclaration]
        ensures { map (λ s. signal_of s.now) result.now ≡ signals_of (block_of self.now) }
    {
        self.table.rows()
    }

    /// The names of its processes, by number.
    pub fn processes(&self) -> &NameTable
        ensures { result.now ≡ process_names (block_of self.now) }
    {
        self.table.processes()
    }

    /// Its processes with their tables, by number.
    pub fn tables(&self) -> &[ProcessTable<'a>]
        ensures { map process_of result.now ≡ processes_of (block_of self.now) }
    {
        self.table.tables()
    }

    /// Its routes, in the order of the text.
    pub fn routes(&self) -> &[&'a Route]
        ensures { map (λ r. route_of r.now) result.now ≡ routes_of (block_of self.now) }
    {
        self.table.routes()
    }

    /// For each process, by number: the variables that are set whenever it is in a state. There is a number for each
    /// state, in which bit v stands for variable v.
    pub fn sets(&self) -> &[Vec<u32>]
        ensures { AllSettled (processes_of (block_of self.now)) result.now }
    {
        &self.sets
    }

    /// For each process, by number: an order of its connections. Each comes after all that its JOINs lead to.
    pub fn orders(&self) -> &[Vec<usize>]
        ensures { AreOrders (processes_of (block_of self.now)) result.now }
    {
        &self.orders
    }

    /// For each process, by number: the measures of its connections, by number.
    pub fn measures(&self) -> &[Vec<Measure>]
        ensures { AllMeasures (processes_of (block_of self.now)) result.now }
    {
        &self.measures
    }
}
