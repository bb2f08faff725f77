//! The possible senders of each signal and timer that a process takes. The routes are searched once for each.
ghost use Rattle.std.specs.Prelude.{◌≡◌, ◌∷◌, [], map, fold, IfOk, OnOk, IfSome, List, ℕ};
ghost use Rattle.sdl_ast.specs.Plain.{PlainBlock, PlainProcess};
ghost use Rattle.sdl_ast.specs.Views.{stimulus_of, input_of, process_of, block_of};
ghost use Rattle.sdl_tables.specs.Names.{number_of, add_name};
ghost use Rattle.sdl_sound.specs.Receivers.{party_of};
ghost use Rattle.sdl_scopes.specs.declared.sender.Sender.TheVariants as sent_by;
ghost use Rattle.sdl_scopes.specs.Parties.{party_number};
ghost use Rattle.sdl_rules.specs.SenderTables.{numbered, AreSendersOf, stimulus_rows, Tells, add_stimulus, add_input, ToldAll};

use sdl_ast::{Identifier, InputPart, Party, Stimulus};
use sdl_lex::Name;
use sdl_scopes::{Numbered, Sender, nobody};
use sdl_tables::{BlockTable, NameKey, NameTable, ProcessTable};
use std::alloc::{AllocError, Global};

/// A process as a party.
pub(crate) fn party_of(process: &ProcessTable) -> Party
    ensures { result ≡ party_of (process_of process.now) }
{
    Party::Process(process.process().name)
}

/// The number of a party: that of its process, or the number of processes for the environment; `None` for no process.
pub(crate) fn party_number(block: &BlockTable, party: &Party) -> Option<usize>
    ensures { result ≡ party_number (block_of block.now) party.now }
{
    match party {
        Party::Environment => Some(block.processes().len()),
        Party::Process(process) => block.processes().number(process.name),
    }
}

/// Parties with their numbers, as senders.
fn number_parties(
    alloc: Global,
    block: &BlockTable,
    parties: &[Party],
) -> Result<Vec<Sender>, AllocError>
    ensures { IfOk result (λ v. v.items ≡ map (λ q. sent_by.Party (numbered (block_of block.now) q)) parties.now) }
{
    let mut rows = Vec::new(alloc);
    for party in parties {
        let number = party_number(block, party);
        rows.push(Sender::Party(Numbered {
            party: *party,
            number,
        }))?;
    }
    Ok(rows)
}

/// The possible senders of a signal to a process: nobody, if it is a timer.
pub(crate) fn senders_of(
    alloc: Global,
    block: &BlockTable,
    process: &ProcessTable,
    name: Name,
) -> Result<Vec<Sender>, AllocError>
    ensures { IfOk result (λ v. AreSendersOf (block_of block.now) (process_of process.now) name v.items) }
{
    if process.timers().contains(name) {
        let nobody = nobody(alloc)?;
        return Ok(nobody);
    }
    let own = party_of(process);
    let senders = number_parties(alloc, block, block.senders(&own, name))?;
    Ok(senders)
}

/// The possible senders of some signals and timers to a process.
#[derive(Drop)]
pub(crate) struct SenderTable {
    names: NameTable,
    rows: Vec<Vec<Sender>>,
}

impl SenderTable {
    /// A table without signals and timers, which hashes by this key.
    fn new(alloc: Global, key: NameKey) -> Self
        ensures names { result.names ≡ [] }
        ensures tells { (b : PlainBlock) (p : PlainProcess) → Tells b p result }
    {
        SenderTable {
            names: NameTable::new(alloc, key),
            rows: Vec::new(alloc),
        }
    }

    /// How many rows there are.
    pub(crate) fn len(&self) -> usize {
        self.names.len()
    }

    /// The possible senders of each signal and timer, by number.
    pub(crate) fn rows(&self) -> &[Vec<Sender>]
        ensures { result.now ≡ self.now.rows.items }
    {
        &self.rows
    }

    /// The number of the row of each of these signals and timers.
    pub(crate) fn rows_of(
        &self,
        alloc: Global,
        stimuli: &[Stimulus],
    ) -> Result<Vec<Option<usize>>, AllocError>
        ensures { IfOk result (λ v. v.items ≡ stimulus_rows self.now.names stimuli.now) }
    {
        let mut rows = Vec::new(alloc);
        for stimulus in stimuli {
            rows.push(self.names.number(stimulus.name.name))?;
        }
        Ok(rows)
    }

    /// The row with this number.
    pub(crate) fn get(&self, number: Option<usize>) -> Option<&[Sender]>
        ensures { IfSome result (λ row. (b : PlainBlock) (p : PlainProcess) (name : List ℕ) → Tells b p self.now
            → number ≡ number_of self.now.names name → AreSendersOf b p name row.now) }
    {
        let number = number?;
        match self.rows.get(number) {
            Some(row) => Some(row.as_slice()),
            None => None,
        }
    }

    /// Finds the possible senders of a signal, unless the table has them.
    fn learn(
        &mut self,
        alloc: Global,
        block: &BlockTable,
        process: &ProcessTable,
        signal: Identifier,
    ) -> Result<(), AllocError>
        ensures names { OnOk result (self.new.names ≡ add_name self.old.names signal) }
        ensures tells { OnOk result (Tells (block_of block.now) (process_of process.now) self.old → Tells (block_of block.now) (process_of process.now) self.new) }
    {
        if self.names.contains(signal.name) {
            return Ok(());
        }
        let row = senders_of(alloc, block, process, signal.name)?;
        self.rows.push(row)?;
        self.names.add(signal)?;
        Ok(())
    }

    /// Finds the possible senders of the signals and timers of an INPUT, each unless the table has them.
    fn learn_stimuli(
        &mut self,
        alloc: Global,
        block: &BlockTable,
        process: &ProcessTable,
        stimuli: &[Stimulus],
    ) -> Result<(), AllocError>
        ensures names { OnOk result (self.new.names ≡ fold add_stimulus self.old.names (map stimulus_of stimuli.now)) }
        ensures tells { OnOk result (Tells (block_of block.now) (process_of process.now) self.old → Tells (block_of block.now) (process_of process.now) self.new) }
    {
        for stimulus in stimuli {
            self.learn(alloc, block, process, stimulus.name)?;
        }
        Ok(())
    }

    /// Finds the possible senders of the signals and timers of these INPUTs, each unless the table has them.
    fn learn_inputs(
        &mut self,
        alloc: Global,
        block: &BlockTable,
        process: &ProcessTable,
        inputs: &[&InputPart],
    ) -> Result<(), AllocError>
        ensures names { OnOk result (self.new.names ≡ fold add_input self.old.names (map (λ i. input_of i.now) inputs.now)) }
        ensures tells { OnOk result (Tells (block_of block.now) (process_of process.now) self.old → Tells (block_of block.now) (process_of process.now) self.new) }
    {
        for input in inputs {
            self.learn_stimuli(alloc, block, process, &input.stimuli)?;
        }
        Ok(())
    }
}

/// The possible senders of each signal and timer that a process takes.
pub(crate) fn find_senders(
    alloc: Global,
    block: &BlockTable,
    process: &ProcessTable,
) -> Result<SenderTable, AllocError>
    ensures { IfOk result (ToldAll (block_of block.now) (process_of process.now)) }
{
    let mut table = SenderTable::new(alloc, block.key());
    table.learn_inputs(alloc, block, process, process.parts())?;
    Ok(table)
}
