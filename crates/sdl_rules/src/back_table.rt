//! Which parties the signals that a process sends back can reach. The routes are searched once for each signal.
ghost use Rattle.std.specs.Prelude.{◌≡◌, false, All, IfOk, OnOk, IfSome};
ghost use Rattle.std.specs.List.{list_all};
ghost use Rattle.std.specs.Option.{option_map_or};
ghost use Rattle.sdl_ast.specs.Plain.{PlainBlock, PlainProcess};
ghost use Rattle.sdl_ast.specs.Views.{process_of, block_of};
ghost use Rattle.sdl_scopes.specs.Parties.{IsSender, gets_back};
ghost use Rattle.sdl_scopes.specs.Reaches.{is_marked};
ghost use Rattle.sdl_rules.specs.Backs.{GetThere, Brings};

use crate::sender_table::{party_number, party_of};
use crate::sources::mark;
use sdl_ast::Identifier;
use sdl_lex::Name;
use sdl_scopes::{Sender, is_marked};
use sdl_tables::{BlockTable, NameKey, NameTable, ProcessTable};
use std::alloc::{AllocError, Global};

/// A mark for each party, by number, that a signal from the process can reach.
fn find_marks(
    alloc: Global,
    block: &BlockTable,
    process: &ProcessTable,
    signal: Name,
) -> Result<Vec<bool>, AllocError>
    ensures { IfOk result (λ v. GetThere (block_of block.now) (process_of process.now) signal v.items) }
{
    let own = party_of(process);
    let count = block.processes().len().saturating_add(1);
    let mut marks = vec![in alloc; false; count]?;
    for party in block.receivers(&own, signal) {
        let _ = mark(&mut marks, party_number(block, party));
    }
    Ok(marks)
}

/// Whether there is a number and it has a mark.
pub(crate) fn is_there(marks: &[bool], number: Option<usize>) -> bool
    ensures { result ≡ option_map_or (is_marked marks.now) number false }
{
    match number {
        None => false,
        Some(number) => is_marked(marks, number),
    }
}

/// Whether a signal reaches the sender of what started a transition. It reaches the marked parties; the routes are
/// searched only for the others.
fn gets_back(
    block: &BlockTable,
    process: &ProcessTable,
    marks: &[bool],
    signal: Name,
    sender: &Sender,
) -> bool
    ensures { GetThere (block_of block.now) (process_of process.now) signal marks.now → IsSender (block_of block.now) sender.now
        → result ≡ gets_back (block_of block.now) (process_of process.now) signal sender.now }
{
    match sender {
        Sender::Nobody => false,
        Sender::Party(to) => {
            is_there(marks, to.number) || block.carries(&party_of(process), &to.party, signal)
        }
    }
}

/// Whether a signal reaches all of these senders.
pub(crate) fn all_get_back(
    block: &BlockTable,
    process: &ProcessTable,
    marks: &[bool],
    signal: Name,
    from: &[Sender],
) -> bool
    ensures { GetThere (block_of block.now) (process_of process.now) signal marks.now → All (IsSender (block_of block.now)) from.now
        → result ≡ list_all (gets_back (block_of block.now) (process_of process.now) signal) from.now }
{
    for sender in from {
        if !gets_back(block, process, marks, signal, sender) {
            return false;
        }
    }
    true
}

/// The parties that some signals of a process can reach.
#[derive(Drop)]
pub(crate) struct BackTable {
    names: NameTable,
    rows: Vec<Vec<bool>>,
}

impl BackTable {
    /// A table without signals, which hashes by this key.
    pub(crate) fn new(alloc: Global, key: NameKey) -> Self
        ensures { (b : PlainBlock) (p : PlainProcess) → Brings b p result }
    {
        BackTable {
            names: NameTable::new(alloc, key),
            rows: Vec::new(alloc),
        }
    }

    /// The marks of a signal, if the table has it.
    fn get(&self, signal: Name) -> Option<&[bool]>
        ensures { IfSome result (λ marks. (b : PlainBlock) (p : PlainProcess) → Brings b p self.now → GetThere b p signal marks.now) }
    {
        let number = self.names.number(signal)?;
        match self.rows.get(number) {
            Some(marks) => Some(marks.as_slice()),
            None => None,
        }
    }

    /// Searches the routes of a signal, unless the table has it.
    pub(crate) fn learn(
        &mut self,
        alloc: Global,
        block: &BlockTable,
        process: &ProcessTable,
        signal: Identifier,
    ) -> Result<(), AllocError>
        ensures { OnOk result (Brings (block_of block.now) (process_of process.now) self.old → Brings (block_of block.now) (process_of process.now) self.new) }
    {
        if self.names.contains(signal.name) {
            return Ok(());
        }
        let marks = find_marks(alloc, block, process, signal.name)?;
        self.rows.push(marks)?;
        self.names.add(signal)?;
        Ok(())
    }

    /// Whether a signal reaches all of these senders.
    pub(crate) fn all_get(
        &self,
        block: &BlockTable,
        process: &ProcessTable,
        signal: Name,
        from: &[Sender],
    ) -> bool
        ensures { Brings (block_of block.now) (process_of process.now) self.now → All (IsSender (block_of block.now)) from.now
            → result ≡ list_all (gets_back (block_of block.now) (process_of process.now) signal) from.now }
    {
        match self.get(signal) {
            Some(marks) => all_get_back(block, process, marks, signal, from),
            None => all_get_back(block, process, &[], signal, from),
        }
    }
}
