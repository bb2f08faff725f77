//! A process with its statements.
ghost use Rattle.std.specs.Prelude.{◌≡◌, ◌++◌, map, IfOk, OnOk};
ghost use Rattle.std.specs.List.{flat_map};
ghost use Rattle.sdl_ast.specs.Views.{input_of, connection_of, process_of, block_of};
ghost use Rattle.sdl_sound.specs.Statements.{statements_of};
ghost use Rattle.sdl_tables.specs.Names.{processes_of};
ghost use Rattle.sdl_warnings.specs.Standing.{part_of};
ghost use Rattle.sdl_warnings.specs.Stated.{process_statements};

use crate::parts::{Part, push_parts};
use sdl_ast::{Connection, InputPart};
use sdl_tables::{BlockTable, ProcessTable};
use std::alloc::{AllocError, Global};
use std::marker::Model;

/// A process with its tables and its statements. Contracts see the process.
#[derive(Drop)]
pub(crate) struct Told<'t, 'a> {
    table: &'t ProcessTable<'a>,
    parts: Vec<Part<'a>>,
}

impl<'t, 'a> Model for Told<'t, 'a> {
    ghost use Rattle.sdl_ast.specs.declared.tree.Process as the_process;
    ghost use Rattle.sdl_ast.specs.contracts.tree.Process as the_contract;
    ghost use Rattle.sdl_warnings.specs.Standing.{IsTold};

    ghost Value = { the_process.Process };

    ghost coded = { the_contract.the_row.coded };

    ghost view = { λ t. t.table.now };

    ghost invariant = { IsTold };
}

/// Appends the statements of INPUTs.
fn push_inputs<'a>(parts: &mut Vec<Part<'a>>, inputs: &[&'a InputPart]) -> Result<(), AllocError>
    ensures { OnOk result (map part_of parts.new.items
        ≡ map part_of parts.old.items ++ flat_map (λ i. statements_of i.text) (map (λ i. input_of i.now) inputs.now)) }
{
    for input in inputs {
        push_parts(parts, &input.transition)?;
    }
    Ok(())
}

/// Appends the statements of connections.
fn push_connections<'a>(
    parts: &mut Vec<Part<'a>>,
    connections: &'a [Connection],
) -> Result<(), AllocError>
    ensures { OnOk result (map part_of parts.new.items
        ≡ map part_of parts.old.items ++ flat_map (λ c. statements_of c.text) (map connection_of connections.now)) }
{
    for connection in connections {
        push_parts(parts, &connection.transition)?;
    }
    Ok(())
}

/// The statements of a process.
fn process_parts<'a>(alloc: Global, table: &ProcessTable<'a>) -> Result<Vec<Part<'a>>, AllocError>
    ensures { IfOk result (λ v. map part_of v.items ≡ process_statements (process_of table.now)) }
{
    let process = table.process();
    let mut parts = Vec::new(alloc);
    push_parts(&mut parts, &process.start.transition)?;
    push_inputs(&mut parts, table.parts())?;
    push_connections(&mut parts, &process.connections)?;
    Ok(parts)
}

impl<'t, 'a> Told<'t, 'a> {
    /// A process with its statements.
    fn new(alloc: Global, table: &'t ProcessTable<'a>) -> Result<Self, AllocError>
        ensures { IfOk result (λ t. t ≡ table.now) }
    {
        let parts = process_parts(alloc, table)?;
        Ok(Told { table, parts })
    }

    /// The process with its tables.
    pub(crate) fn table(&self) -> &'t ProcessTable<'a>
        ensures { result.now ≡ self.now }
    {
        self.table
    }

    /// Its statements.
    pub(crate) fn parts(&self) -> &[Part<'a>]
        ensures { map part_of result.now ≡ process_statements (process_of self.now) }
    {
        &self.parts
    }
}

/// The processes of a block with their statements.
pub(crate) fn tell_all<'t, 'a>(
    alloc: Global,
    block: &'t BlockTable<'a>,
) -> Result<Vec<Told<'t, 'a>>, AllocError>
    ensures { IfOk result (λ v. map process_of v.items ≡ processes_of (block_of block.now)) }
{
    let mut all = Vec::new(alloc);
    for table in block.tables() {
        all.push(Told::new(alloc, table)?)?;
    }
    Ok(all)
}
