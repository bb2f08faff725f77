//! The tables of a block.
ghost use Rattle.std.specs.Prelude.{◌≡◌, [], map, IfOk, IfErr};
ghost use Rattle.std.specs.Option.{option_map};
ghost use Rattle.sdl_ast.specs.Views.{signal_of, route_of, process_of, block_of};
ghost use Rattle.sdl_tables.specs.Names.{signal_names, process_names, signals_of, processes_of, routes_of, signal_named};
ghost use Rattle.sdl_tables.specs.Routes.{carries, receivers, senders, parties_once};
ghost use Rattle.sdl_tables.specs.Scopes.{double_names, IsDouble};

use crate::block_parts::{first_double, table_processes, table_routes, table_signals};
use crate::fault::TableFault;
use crate::name_key::NameKey;
use crate::name_table::NameTable;
use crate::process_table::ProcessTable;
use crate::route_index::RouteIndex;
use sdl_ast::{Block, Name, Party, Route, SignalDeclaration};
use std::alloc::Global;
use std::marker::Model;

/// A block with its tables: signals and processes by name and by number, and the receivers and senders of signals.
/// Contracts see the block.
#[derive(Drop)]
pub struct BlockTable<'a> {
    block: &'a Block,
    key: NameKey,
    signals: NameTable,
    rows: Vec<&'a SignalDeclaration>,
    routes: Vec<&'a Route>,
    index: RouteIndex,
    processes: NameTable,
    tables: Vec<ProcessTable<'a>>,
}

impl<'a> Model for BlockTable<'a> {
    ghost use Rattle.sdl_ast.specs.declared.tree.Block as the_block;
    ghost use Rattle.sdl_ast.specs.contracts.tree.Block as the_contract;

    ghost Value = { the_block.Block };

    ghost coded = { the_contract.the_row.coded };

    ghost use Rattle.sdl_tables.specs.BlockTables.{HasBlockTables};

    ghost view = { λ t. t.block.now };

    ghost invariant = { HasBlockTables };
}

impl<'a> BlockTable<'a> {
    /// Builds the tables of a block. `DoubleName` if a name is a duplicate, `NoMemory` if memory runs out.
    pub fn new(alloc: Global, block: &'a Block) -> Result<Self, TableFault>
        ensures table { IfOk result (λ t. t ≡ block.now) }
        ensures double { IfErr result (λ e. IsDouble e (double_names (block_of block.now))) }
    {
        let key = NameKey::of(block);
        let signals = table_signals(alloc, key, block)?;
        let routes = table_routes(alloc, key, block)?;
        let processes = table_processes(alloc, key, block, &signals.names)?;
        let double = first_double(
            signals.double,
            routes.double,
            processes.double,
            processes.inside,
            processes.shared,
        );
        match double {
            Some(at) => Err(TableFault::DoubleName(at)),
            None => Ok(BlockTable {
                block,
                key,
                signals: signals.names,
                rows: signals.rows,
                routes: routes.rows,
                index: routes.index,
                processes: processes.names,
                tables: processes.tables,
            }),
        }
    }

    /// The block.
    pub fn block(&self) -> &'a Block
        ensures block { result.now ≡ self.now }
        ensures distinct { double_names (block_of self.now) ≡ [] }
    {
        let _ = &self.signals;
        self.block
    }

    /// The key with which its tables hash names.
    pub fn key(&self) -> NameKey {
        self.key
    }

    /// The names of its signals, by number.
    pub fn signals(&self) -> &NameTable
        ensures { result.now ≡ signal_names (block_of self.now) }
    {
        &self.signals
    }

    /// Its signals, by number.
    pub fn rows(&self) -> &[&'a SignalDeclaration]
        ensures { map (λ s. signal_of s.now) result.now ≡ signals_of (block_of self.now) }
    {
        &self.rows
    }

    /// Its routes, in the order of the text.
    pub fn routes(&self) -> &[&'a Route]
        ensures { map (λ r. route_of r.now) result.now ≡ routes_of (block_of self.now) }
    {
        &self.routes
    }

    /// Whether some path of its routes carries a signal from one party to another.
    pub fn carries(&self, from: &Party, to: &Party, signal: Name) -> bool
        ensures { result ≡ carries (block_of self.now) from.now to.now signal }
    {
        self.index.carries(from, to, signal)
    }

    /// The parties to which paths carry a signal from a party, without duplicates and in the order of the text.
    pub fn receivers(&self, from: &Party, signal: Name) -> &[Party]
        ensures { result.now ≡ receivers (block_of self.now) from.now signal }
    {
        self.index.receivers(from, signal)
    }

    /// The parties from which paths carry a signal to a party, without duplicates and in the order of the text.
    pub fn senders(&self, to: &Party, signal: Name) -> &[Party]
        ensures { result.now ≡ parties_once (senders (block_of self.now) to.now signal) }
    {
        self.index.senders(to, signal)
    }

    /// The names of its processes, by number.
    pub fn processes(&self) -> &NameTable
        ensures { result.now ≡ process_names (block_of self.now) }
    {
        &self.processes
    }

    /// Its processes with their tables, by number.
    pub fn tables(&self) -> &[ProcessTable<'a>]
        ensures { map process_of result.now ≡ processes_of (block_of self.now) }
    {
        &self.tables
    }

    /// The declaration of the signal with a name, if there is one.
    pub fn signal(&self, name: Name) -> Option<&'a SignalDeclaration>
        ensures { option_map (λ s. signal_of s.now) result ≡ signal_named (block_of self.now) name }
    {
        let rows = self.rows();
        match self.signals().number(name) {
            None => None,
            Some(number) => {
                if number < rows.len() {
                    Some(rows[number])
                } else {
                    None
                }
            }
        }
    }
}
