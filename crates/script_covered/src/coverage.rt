//! The parts of a text that turns took: transitions, statements and answers.
ghost use Rattle.std.specs.Prelude.{◌≡◌, ◌∷◌, ◌++◌, [], ◌+◌, ◌<◌, ◌||◌, ℕ, List, Some, map, length, position, slice_get, slice_index, IfSome, IfOk, OnOk};
ghost use Rattle.std.specs.Option.{option_map};
ghost use Rattle.sdl_ast.specs.Plain.{PlainBlock};
ghost use Rattle.sdl_ast.specs.Views.{process_of};
ghost use Rattle.sdl_tables.specs.Names.{inputs_by_state, processes_of};
ghost use Rattle.sdl_tables.specs.Rows.{row_input, rows_inputs};
ghost use Rattle.turn_code.specs.declared.input.Place.TheVariants.{Start};
ghost use Rattle.turn_machine.specs.Turn.{Turn};
ghost use Rattle.script_covered.specs.Ways.{Taken, at, else_of};
ghost use Rattle.script_covered.specs.Covered.{state_in, same_state, is_known, known_turns, counted_turn, one_more, HasTurns, HasCounts, HasTaken, Covers, input_at, taken_input, taken_at};
ghost use Rattle.script_covered.specs.declared.coverage.Turns.{Turns as Known};

use crate::ways::pass;
use sdl_tables::{InputRow, ProcessTable};
use std::alloc::{AllocError, Global};
use turn_code::{Input, Place, StateNumber};
use turn_machine::Job;

/// The number of turns of a transition: of a process, at START or in a state, on an input.
#[derive(Clone, Copy, PartialEq, Eq, Debug)]
pub(crate) struct Turns {
    process: usize,
    state: Option<usize>,
    input: usize,
    times: u64,
}

/// The number of turns of each transition, in the order of their first turns.
#[derive(Drop)]
pub(crate) struct TurnCounts {
    turns: Vec<Turns>,
}

/// How often the part at each place of a text was taken: a count for each octet of the text.
#[derive(Drop)]
pub(crate) struct Places {
    times: Vec<u64>,
    /// Whether a count overflowed, or a place was outside the text.
    over: bool,
}

/// The counts of a text.
#[derive(Drop)]
pub(crate) struct Counts {
    /// Counts of statements, answers, INPUTs and STARTs, by the places where they begin.
    begun: Places,
    /// Counts of ELSEs, by the places of their DECISIONs.
    others: Places,
}

/// The turns of transitions, and the parts that they took.
#[derive(Drop)]
pub(crate) struct Coverage {
    turns: TurnCounts,
    counts: Counts,
}

/// Whether two states are the same, or both are START.
fn same_state(one: Option<usize>, other: Option<usize>) -> bool
    ensures { result ≡ same_state one other }
{
    match one {
        None => match other {
            None => true,
            Some(_) => false,
        },
        Some(one) => match other {
            None => false,
            Some(other) => one == other,
        },
    }
}

/// The state of a turn's place; none at START.
fn state_in(place: Place) -> Option<usize>
    ensures { result ≡ state_in place }
{
    match place {
        Place::Start => None,
        Place::State(StateNumber(state)) => Some(usize::from(state)),
    }
}

impl Turns {
    /// Whether these are the turns of this transition.
    fn is_of(&self, process: usize, state: Option<usize>, input: usize) -> bool
        ensures { result ≡ is_known self.now process state input }
    {
        self.process == process && same_state(self.state, state) && self.input == input
    }

    /// One more turn; an error if the count exceeds 64 bits.
    fn once_more(&self) -> Result<Turns, AllocError>
        ensures { IfOk result (λ t. t ≡ record self.now { times = self.now.times + 1 }) }
    {
        let Some(times) = self.times.checked_add(1) else {
            return Err(AllocError);
        };
        Ok(Turns {
            process: self.process,
            state: self.state,
            input: self.input,
            times,
        })
    }
}

impl TurnCounts {
    /// No turns.
    fn new(alloc: Global) -> TurnCounts
        ensures { HasTurns [] result }
    {
        TurnCounts {
            turns: Vec::new(alloc),
        }
    }

    /// The index of a transition's turns, if it had any.
    fn number(&self, process: usize, state: Option<usize>, input: usize) -> Option<usize>
        ensures first { result ≡ position (λ (t : Known). is_known t process state input) self.now.turns.items }
        ensures within { IfSome result (λ n. n < length self.now.turns.items) }
    {
        self.turns
            .iter()
            .position(|known| known.is_of(process, state, input))
    }

    /// Counts one more turn of a transition; an error if memory runs out or the count exceeds 64 bits.
    fn count(
        &mut self,
        process: usize,
        state: Option<usize>,
        input: usize,
    ) -> Result<(), AllocError>
        ensures { OnOk result (self.new.turns.items ≡ counted_turn process state input self.old.turns.items) }
    {
        match self.number(process, state, input) {
            Some(number) => {
                let again = self.turns[number].once_more()?;
                self.turns[number] = again;
                Ok(())
            }
            None => {
                let turns = Turns {
                    process,
                    state,
                    input,
                    times: 1,
                };
                Ok(self.turns.push(turns)?)
            }
        }
    }

    /// The number of turns of a transition.
    pub(crate) fn times(&self, process: usize, state: Option<usize>, input: usize) -> u64
        ensures { result ≡ known_turns self.now.turns.items process state input }
    {
        match self.number(process, state, input) {
            Some(number) => self.turns[number].times,
            None => 0,
        }
    }
}

impl Places {
    /// Zero counts for a text of this length.
    fn new(alloc: Global, length: usize) -> Result<Places, AllocError>
        ensures { IfOk result (HasCounts (λ k. 0)) }
    {
        let times = vec![in alloc; 0; length]?;
        Ok(Places { times, over: false })
    }

    /// The count at a place, plus one; none if there is no such place or the count overflows.
    fn more(&self, place: usize) -> Option<u64>
        ensures { IfSome result (λ n. (place < length self.now.times.items) × (n ≡ slice_index self.now.times.items place + 1)) }
    {
        match self.times.get(place) {
            Some(times) => times.checked_add(1),
            None => None,
        }
    }

    /// Counts the part that begins at a place.
    fn take(&mut self, at: u32)
        ensures { (f : ℕ → ℕ) → HasCounts f self.old → HasCounts (one_more at f) self.new }
    {
        let place = at as usize;
        match self.more(place) {
            Some(times) => self.times[place] = times,
            None => self.over = true,
        }
    }

    /// How often the part at a place was taken.
    fn times(&self, at: u32) -> u64
        ensures { result ≡ slice_index self.now.times.items at }
    {
        match self.times.get(at as usize) {
            Some(times) => *times,
            None => 0,
        }
    }
}

impl Counts {
    /// Zero counts for a text of this length.
    fn new(alloc: Global, length: usize) -> Result<Counts, AllocError>
        ensures { IfOk result (HasTaken []) }
    {
        let begun = Places::new(alloc, length)?;
        let others = Places::new(alloc, length)?;
        Ok(Counts { begun, others })
    }

    /// Counts the part that begins at a place.
    pub(crate) fn take_at(&mut self, place: u32)
        ensures { (xs : List Taken) → HasTaken xs self.old → HasTaken (xs ++ at place ∷ []) self.new }
    {
        self.begun.take(place);
    }

    /// Counts the ELSE of the DECISION at a place.
    pub(crate) fn take_else(&mut self, place: u32)
        ensures { (xs : List Taken) → HasTaken xs self.old → HasTaken (xs ++ else_of place ∷ []) self.new }
    {
        self.others.take(place);
    }

    /// Whether a count overflowed, or a place was outside the text.
    pub(crate) fn is_over(&self) -> bool
        ensures { result ≡ (self.now.begun.over || self.now.others.over) }
    {
        self.begun.over || self.others.over
    }

    /// How often the part at a place was taken.
    pub(crate) fn times(&self, at: u32) -> u64
        ensures { result ≡ slice_index self.now.begun.times.items at }
    {
        self.begun.times(at)
    }

    /// How often the ELSE of the DECISION at a place was taken.
    pub(crate) fn others(&self, at: u32) -> u64
        ensures { result ≡ slice_index self.now.others.times.items at }
    {
        self.others.times(at)
    }

    /// Counts the parts that a turn at START takes.
    fn take_start(&mut self, process: &ProcessTable<'_>, input: &Input)
        ensures { (xs : List Taken) → HasTaken xs self.old → HasTaken (xs ++ taken_at (process_of process.now) Start 0 input.now) self.new }
    {
        let start = &process.process().start;
        self.take_at(start.at);
        pass(process, self, &start.transition, &[], input);
    }

    /// Counts the parts that a turn on an input of a state takes.
    fn take_row(&mut self, process: &ProcessTable<'_>, row: &InputRow<'_>, input: &Input)
        ensures { (xs : List Taken) → HasTaken xs self.old
            → HasTaken (xs ++ taken_input (process_of process.now) (Some (row_input row.now)) input.now) self.new }
    {
        self.take_at(row.input.at);
        pass(
            process,
            self,
            &row.input.transition,
            &row.stimulus.places,
            input,
        );
    }

    /// Counts the parts that a turn takes; `inputs` holds the inputs of each state of its process.
    fn take_turn(
        &mut self,
        process: &ProcessTable<'_>,
        inputs: &[Vec<InputRow<'_>>],
        place: Place,
        number: usize,
        input: &Input,
    )
        ensures { (xs : List Taken) → map rows_inputs inputs.now ≡ inputs_by_state (process_of process.now) → HasTaken xs self.old
            → HasTaken (xs ++ taken_at (process_of process.now) place number input.now) self.new }
    {
        match place {
            Place::Start => self.take_start(process, input),
            Place::State(StateNumber(state)) => {
                match row_at(inputs, usize::from(state), number) {
                    Some(row) => self.take_row(process, row, input),
                    None => {}
                }
            }
        }
    }
}

/// An input of a state, if there is one.
fn row_at<'a, 'b>(
    inputs: &'b [Vec<InputRow<'a>>],
    state: usize,
    number: usize,
) -> Option<&'b InputRow<'a>>
    ensures { option_map (λ r. row_input r.now) result ≡ input_at (slice_get (map rows_inputs inputs.now) state) number }
{
    inputs.get(state)?.get(number)
}

impl Coverage {
    /// Coverage without turns, for a text of this length.
    pub(crate) fn new(alloc: Global, length: usize) -> Result<Coverage, AllocError>
        ensures { (b : PlainBlock) → IfOk result (Covers b []) }
    {
        let counts = Counts::new(alloc, length)?;
        Ok(Coverage {
            turns: TurnCounts::new(alloc),
            counts,
        })
    }

    /// The number of turns of each transition.
    pub(crate) fn turns(&self) -> &TurnCounts
        ensures { result.now ≡ self.now.turns }
    {
        &self.turns
    }

    /// The counts of parts taken.
    pub(crate) fn counts(&self) -> &Counts
        ensures { result.now ≡ self.now.counts }
    {
        &self.counts
    }

    /// Counts a turn that ran; `inputs` holds the inputs of each state of its process.
    ///
    /// # Errors
    ///
    /// Out of memory, or a transition has more turns than 64 bits can count.
    pub(crate) fn take(
        &mut self,
        process: &ProcessTable<'_>,
        inputs: &[Vec<InputRow<'_>>],
        job: &Job,
    ) -> Result<(), AllocError>
        ensures { OnOk result ((b : PlainBlock) (ts : List Turn) → slice_get (processes_of b) job.now.process.0 ≡ Some (process_of process.now)
            → map rows_inputs inputs.now ≡ inputs_by_state (process_of process.now) → Covers b ts self.old → Covers b (ts ++ job.now ∷ []) self.new) }
    {
        self.turns.count(
            usize::from(job.process().0),
            state_in(job.place()),
            job.input_number(),
        )?;
        self.counts.take_turn(
            process,
            inputs,
            job.place(),
            job.input_number(),
            job.input(),
        );
        Ok(())
    }
}
