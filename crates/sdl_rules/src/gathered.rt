//! The possible senders of the signals that an INPUT takes.
ghost use Rattle.std.specs.Prelude.{◌≡◌, ◌&&◌, true, ℕ, Bool, List, None, map, slice_get, IfOk, OnOk};
ghost use Rattle.std.specs.Option.{option_map_or};
ghost use Rattle.sdl_ast.specs.Plain.{PlainBlock, PlainProcess};
ghost use Rattle.sdl_ast.specs.Views.{input_of, stimulus_of, process_of, block_of};
ghost use Rattle.sdl_tables.specs.Names.{number_of};
ghost use Rattle.sdl_sound.specs.Actions.{takes, input_origins};
ghost use Rattle.sdl_sound.specs.Receivers.{answers, answers_all};
ghost use Rattle.sdl_rules.specs.SenderTables.{stimulus_rows, Tells};
ghost use Rattle.sdl_scopes.specs.Known.{AreSenders};
ghost use Rattle.sdl_rules.specs.Sources.{Asks};

use crate::sender_table::SenderTable;
use crate::sources::{Senders, mark};
use sdl_ast::{InputPart, Stimulus};
use sdl_scopes::Sender;
use sdl_tables::{BlockTable, ProcessTable};
use std::alloc::{AllocError, Global};

/// The number of the row of the signal at a place, if it has one.
fn row_at(rows: &[Option<usize>], place: usize) -> Option<usize>
    ensures { result ≡ option_map_or (λ row. row) (slice_get rows.now place) None }
{
    match rows.get(place) {
        None => None,
        Some(row) => *row,
    }
}

/// The possible senders of some signals. Each row of the table is added once.
#[derive(Drop)]
pub(crate) struct Gathered {
    /// The rows that have been added, by number.
    asked: Vec<bool>,
    senders: Senders,
}

impl Gathered {
    /// No senders yet, and no row of the table.
    fn new(alloc: Global, block: &BlockTable, table: &SenderTable) -> Result<Self, AllocError>
        ensures { IfOk result (λ g. (b : PlainBlock) (p : PlainProcess) → Asks b p table.now.names g (λ s. true)) }
    {
        let asked = vec![in alloc; false; table.len()]?;
        let senders = Senders::new(alloc, block)?;
        Ok(Gathered { asked, senders })
    }

    /// Adds the possible senders of a signal or timer, unless its row has been added.
    fn add_row(
        &mut self,
        alloc: Global,
        block: &BlockTable,
        process: &ProcessTable,
        table: &SenderTable,
        stimulus: &Stimulus,
        row: Option<usize>,
    ) -> Result<(), AllocError>
        requires tells { Tells (block_of block.now) (process_of process.now) table.now }
        requires row { row ≡ number_of table.now.names stimulus.now.name.name }
        ensures { OnOk result ((f : List ℕ → Bool) → Asks (block_of block.now) (process_of process.now) table.now.names self.old f
            → Asks (block_of block.now) (process_of process.now) table.now.names self.new
            (λ s. f s && answers (block_of block.now) (process_of process.now) s stimulus.now.name.name)) }
    {
        if mark(&mut self.asked, row) {
            self.senders
                .add_row(alloc, block, process, table, stimulus, row)?;
        }
        Ok(())
    }

    /// Adds the possible senders of the signals and timers of an INPUT, each unless its row has been added.
    fn add_stimuli(
        &mut self,
        alloc: Global,
        block: &BlockTable,
        process: &ProcessTable,
        table: &SenderTable,
        stimuli: &[Stimulus],
        rows: &[Option<usize>],
    ) -> Result<(), AllocError>
        requires tells { Tells (block_of block.now) (process_of process.now) table.now }
        requires rows { rows.now ≡ stimulus_rows table.now.names stimuli.now }
        ensures { OnOk result ((f : List ℕ → Bool) → Asks (block_of block.now) (process_of process.now) table.now.names self.old f
            → Asks (block_of block.now) (process_of process.now) table.now.names self.new
            (λ s. f s && answers_all (block_of block.now) (process_of process.now) (map takes (map stimulus_of stimuli.now)) s)) }
    {
        for (place, stimulus) in stimuli.iter().enumerate() {
            let row = row_at(rows, place);
            self.add_row(alloc, block, process, table, stimulus, row)?;
        }
        Ok(())
    }
}

/// The possible senders of the signals that an INPUT takes.
pub(crate) fn input_senders(
    alloc: Global,
    block: &BlockTable,
    process: &ProcessTable,
    table: &SenderTable,
    input: &InputPart,
) -> Result<Vec<Sender>, AllocError>
    requires { Tells (block_of block.now) (process_of process.now) table.now }
    ensures { IfOk result (λ v. AreSenders (block_of block.now) (process_of process.now) v.items (input_origins (input_of input.now))) }
{
    let rows = table.rows_of(alloc, &input.stimuli)?;
    let mut gathered = Gathered::new(alloc, block, table)?;
    gathered.add_stimuli(alloc, block, process, table, &input.stimuli, &rows)?;
    let senders = gathered.senders;
    Ok(senders.list)
}
