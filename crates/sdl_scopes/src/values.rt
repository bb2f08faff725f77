//! The rule on sorts (S3) in declarations, INPUTs and answers: initial values, places of INPUTs, values of answers.
ghost use Rattle.std.specs.Prelude.{◌≡◌, map, slice_get, zip, []};
ghost use Rattle.std.specs.List.{flat_map};
ghost use Rattle.std.specs.Option.{option_map_or};
ghost use Rattle.sdl_ast.specs.Views.{tree_of, stimulus_of, input_of, process_of, block_of};
ghost use Rattle.sdl_tables.specs.Names.{variables_of};
ghost use Rattle.sdl_tables.specs.Rows.{variable_of};
ghost use Rattle.sdl_tables.specs.Scopes.{Marks};
ghost use Rattle.sdl_sound.specs.Sorts.{wrong_place, too_many_places, wrong_stimulus, wrong_input, literal_sort, is_constant, answers_truth, answers_number, range_place, wrong_answer, wrong_constant, wrong_initial, wrong_declarations};

use crate::divisors::place;
use crate::operands::parameter_sorts;
use crate::sorts::{has_sort, is_truth, same_sort, variable_sort};
use sdl_ast::{Constant, Expression, Identifier, InputPart, Literal, Range, Sort, Stimulus};
use sdl_tables::{BlockTable, ProcessTable, Variable, earlier};

/// The place of the variable in a place of an INPUT, if it doesn't have this sort.
fn wrong_place(process: &ProcessTable, want: Sort, place: Option<Identifier>) -> Option<u32>
    ensures { Marks result (wrong_place (variables_of (process_of process.now)) (want, place)) }
{
    match place {
        None => None,
        Some(id) => {
            if has_sort(want, variable_sort(process, id.name)) {
                None
            } else {
                Some(id.at)
            }
        }
    }
}

/// The place of the variable in the INPUT's place with this number, if it doesn't have the declared sort.
fn wrong_place_at(
    process: &ProcessTable,
    sorts: &[Sort],
    number: usize,
    place: Option<Identifier>,
) -> Option<u32>
    ensures { Marks result (option_map_or (λ want. wrong_place (variables_of (process_of process.now)) (want, place)) (slice_get sorts.now number) []) }
{
    if number < sorts.len() {
        wrong_place(process, sorts[number], place)
    } else {
        None
    }
}

/// The place of a variable in an INPUT's places that doesn't have the sort of its parameter.
fn wrong_places(
    process: &ProcessTable,
    sorts: &[Sort],
    places: &[Option<Identifier>],
) -> Option<u32>
    ensures { Marks result (flat_map (wrong_place (variables_of (process_of process.now))) (zip sorts.now places.now)) }
{
    let mut found = None;
    for (number, place) in places.iter().enumerate() {
        found = earlier(found, wrong_place_at(process, sorts, number, *place));
    }
    found
}

/// The place of the signal's name, if it is followed by more places than the signal has parameters.
fn too_many_places(sorts: &[Sort], stimulus: &Stimulus) -> Option<u32>
    ensures { Marks result (too_many_places sorts.now (stimulus_of stimulus.now)) }
{
    if sorts.len() < stimulus.places.len() {
        Some(stimulus.name.at)
    } else {
        None
    }
}

/// The place of a wrong sort or of too many places, in one signal of an INPUT.
fn wrong_stimulus(block: &BlockTable, process: &ProcessTable, stimulus: &Stimulus) -> Option<u32>
    ensures { Marks result (wrong_stimulus (block_of block.now) (variables_of (process_of process.now)) (stimulus_of stimulus.now)) }
{
    let sorts = parameter_sorts(block, stimulus.name.name);
    let number = too_many_places(sorts, stimulus);
    earlier(number, wrong_places(process, sorts, &stimulus.places))
}

/// The place of a wrong sort or of too many places, in the signals of an INPUT.
fn wrong_in_stimuli(block: &BlockTable, process: &ProcessTable, stimuli: &[Stimulus]) -> Option<u32>
    ensures { Marks result (flat_map (wrong_stimulus (block_of block.now) (variables_of (process_of process.now))) (map stimulus_of stimuli.now)) }
{
    let mut place = None;
    for stimulus in stimuli {
        place = earlier(place, wrong_stimulus(block, process, stimulus));
    }
    place
}

/// The place of a wrong sort or of too many places in these INPUTs.
fn wrong_in_inputs(block: &BlockTable, process: &ProcessTable, inputs: &[&InputPart]) -> Option<u32>
    ensures { Marks result (flat_map (wrong_input (block_of block.now) (variables_of (process_of process.now))) (map (λ i. input_of i.now) inputs.now)) }
{
    let mut place = None;
    for input in inputs {
        place = earlier(place, wrong_in_stimuli(block, process, &input.stimuli));
    }
    place
}

/// The sort of a literal.
fn literal_sort(literal: Literal) -> Sort
    ensures { result ≡ literal_sort literal }
{
    match literal {
        Literal::Integer(_) => Sort::Integer,
        Literal::Boolean(_) => Sort::Boolean,
    }
}

/// Whether a constant has this sort.
fn is_constant(want: Sort, constant: Constant) -> bool
    ensures { result ≡ is_constant want constant }
{
    same_sort(want, literal_sort(constant.value))
}

/// Whether a range is a single TRUE or FALSE.
fn answers_truth(range: &Range) -> bool
    ensures { result ≡ answers_truth range.now }
{
    match range {
        Range::Value(constant) => is_constant(Sort::Boolean, *constant),
        Range::Compared { .. } => false,
        Range::Between(_, _) => false,
    }
}

/// Whether a range has only Integers.
fn answers_number(range: &Range) -> bool
    ensures { result ≡ answers_number range.now }
{
    match range {
        Range::Value(constant) => is_constant(Sort::Integer, *constant),
        Range::Compared { constant, .. } => is_constant(Sort::Integer, *constant),
        Range::Between(low, high) => {
            let first = is_constant(Sort::Integer, *low);
            first && is_constant(Sort::Integer, *high)
        }
    }
}

/// The place of a range: that of its relation, or of its first constant.
fn range_place(range: &Range) -> u32
    ensures { result ≡ range_place range.now }
{
    match range {
        Range::Value(constant) => constant.at,
        Range::Compared { at, .. } => *at,
        Range::Between(low, _) => low.at,
    }
}

/// The place of a range that doesn't fit its question.
fn wrong_answer(process: &ProcessTable, question: &Expression, range: &Range) -> Option<u32>
    ensures { Marks result (wrong_answer (variables_of (process_of process.now)) (tree_of question.now) range.now) }
{
    let fits = if is_truth(process, question) {
        answers_truth(range)
    } else {
        answers_number(range)
    };
    if fits { None } else { Some(range_place(range)) }
}

/// The place of a value in an answer that doesn't fit its question. (S3; Z.100: range condition.)
pub fn wrong_in_ranges(
    process: &ProcessTable,
    question: &Expression,
    ranges: &[Range],
) -> Option<u32>
    ensures { Marks result (flat_map (wrong_answer (variables_of (process_of process.now)) (tree_of question.now)) ranges.now) }
{
    let mut place = None;
    for range in ranges {
        place = earlier(place, wrong_answer(process, question, range));
    }
    place
}

/// The place of an initial value that doesn't have this sort.
fn wrong_constant(want: Sort, constant: Option<Constant>) -> Option<u32>
    ensures { Marks result (wrong_constant want constant) }
{
    match constant {
        None => None,
        Some(constant) => {
            if same_sort(want, literal_sort(constant.value)) {
                None
            } else {
                Some(constant.at)
            }
        }
    }
}

/// The place of an initial value that doesn't have the sort of its variable.
fn wrong_initials(variables: &[Variable]) -> Option<u32>
    ensures { Marks result (flat_map wrong_initial (map variable_of variables.now)) }
{
    let mut place = None;
    for variable in variables {
        place = earlier(place, wrong_constant(variable.sort, variable.initial));
    }
    place
}

/// The place of a wrong sort in the declarations of a process, or in the places of its INPUTs.
fn wrong_in_process(block: &BlockTable, process: &ProcessTable) -> Option<u32>
    ensures { Marks result (wrong_declarations (block_of block.now) (process_of process.now)) }
{
    let initials = wrong_initials(process.rows());
    earlier(initials, wrong_in_inputs(block, process, process.parts()))
}

/// The place of a wrong sort in declarations or in a place of an INPUT. (S3; Z.100: variable definition, input.)
pub fn wrong_declaration(block: &BlockTable, processes: &[ProcessTable]) -> Option<u32>
    ensures { Marks result (flat_map (wrong_declarations (block_of block.now)) (map process_of processes.now)) }
{
    let mut place = None;
    for process in processes {
        place = earlier(place, wrong_in_process(block, process));
    }
    place
}
