//! The coverage of a text that reads as a block.
ghost use Rattle.std.specs.Prelude.{◌≡◌, ◌∷◌, ◌++◌, [], List, IfOk, OnOk, map, slice_get};
ghost use Rattle.std.specs.Option.{option_map};
ghost use Rattle.sdl_ast.specs.Views.{block_of, process_of};
ghost use Rattle.sdl_tables.specs.Names.{inputs_by_state};
ghost use Rattle.sdl_tables.specs.Rows.{rows_inputs};
ghost use Rattle.turn_machine.specs.Turn.{Turn};
ghost use Rattle.script_covered.specs.Texts.{IsTextOf, inputs_in, IsCovering, IsLcov};

use crate::coverage::Coverage;
use crate::lcov::lcov_text;
use sdl_tables::{BlockTable, InputRow, ProcessTable};
use std::alloc::{AllocError, Global};
use turn_machine::Done;

/// The coverage of a text.
#[derive(Drop)]
pub struct TextCoverage<'a, 'b> {
    text: &'b str,
    block: &'b BlockTable<'a>,
    /// The inputs of each state of each process.
    inputs: Vec<Vec<Vec<InputRow<'a>>>>,
    coverage: Coverage,
}

/// The process with this number, if there is one.
fn process_at<'a, 'b>(tables: &'b [ProcessTable<'a>], number: usize) -> Option<&'b ProcessTable<'a>>
    ensures { option_map (λ p. process_of p.now) result ≡ slice_get (map process_of tables.now) number }
{
    tables.get(number)
}

/// The inputs of the states of the process with this number, if there is one.
fn inputs_at<'a, 'b>(
    inputs: &'b [Vec<Vec<InputRow<'a>>>],
    number: usize,
) -> Option<&'b [Vec<InputRow<'a>>]>
    ensures { option_map (λ v. map rows_inputs v.now) result ≡ slice_get (map inputs_in inputs.now) number }
{
    match inputs.get(number) {
        Some(states) => Some(states),
        None => None,
    }
}

/// The inputs of each state of each process.
fn all_inputs<'a>(
    alloc: Global,
    tables: &[ProcessTable<'a>],
) -> Result<Vec<Vec<Vec<InputRow<'a>>>>, AllocError>
    ensures { IfOk result (λ v. map inputs_in v.items ≡ map inputs_by_state (map process_of tables.now)) }
{
    let mut all = Vec::new(alloc);
    for process in tables {
        let inputs = process.inputs(alloc)?;
        all.push(inputs)?;
    }
    Ok(all)
}

impl<'a, 'b> TextCoverage<'a, 'b> {
    /// Returns empty coverage of a text; `block` holds the tables of the block that the text reads as.
    ///
    /// # Errors
    ///
    /// Out of memory.
    pub fn new(
        alloc: Global,
        text: &'b str,
        block: &'b BlockTable<'a>,
    ) -> Result<TextCoverage<'a, 'b>, AllocError>
        requires { IsTextOf text.now (block_of block.now) }
        ensures { IfOk result (IsCovering []) }
    {
        let inputs = all_inputs(alloc, block.tables())?;
        let coverage = Coverage::new(alloc, text.len())?;
        Ok(TextCoverage {
            text,
            block,
            inputs,
            coverage,
        })
    }

    /// Counts a turn that ran.
    ///
    /// # Errors
    ///
    /// Out of memory, the block has no such process, or a transition has more turns than 64 bits can count.
    pub fn take(&mut self, done: &Done) -> Result<(), AllocError>
        ensures { OnOk result ((ts : List Turn) → IsCovering ts self.old → IsCovering (ts ++ done.now ∷ []) self.new) }
    {
        let job = done.job();
        let number = usize::from(job.process().0);
        match process_at(self.block.tables(), number) {
            Some(process) => match inputs_at(&self.inputs, number) {
                Some(inputs) => self.coverage.take(process, inputs, job),
                None => Err(AllocError),
            },
            None => Err(AllocError),
        }
    }

    /// Returns the coverage of a text in the format of lcov; `name` is the file name of the text in it.
    ///
    /// # Errors
    ///
    /// `text` is a different text, memory runs out, or a count exceeds 64 bits.
    pub fn report(&self, alloc: Global, name: &str, text: &str) -> Result<Vec<u8>, AllocError>
        ensures { IfOk result (λ v. (ts : List Turn) → IsCovering ts self.now → IsLcov name.now text.now ts v.items) }
    {
        if self.text != text {
            return Err(AllocError);
        }
        lcov_text(alloc, name, text, self.block, &self.coverage)
    }
}
