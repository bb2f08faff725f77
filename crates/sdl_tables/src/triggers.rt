//! Finds names that a state consumes or saves twice.
//!
//! A STATE part may apply to many states, and have many names. So the names of each state aren't listed: each part has
//! its names once, by number, and each state has the numbers of its parts.
ghost use Rattle.std.specs.Prelude.{◌≡◌, ◌<◌, ◌++◌, ◌∷◌, ◌==◌, [], ℕ, true, List, Some, if◌then◌else◌, map, length, not, IfOk, IfSome, OnOk, vec_len};
ghost use Rattle.std.specs.List.{flat_map, AllByRecursion};
ghost use Rattle.sdl_ast.specs.declared.expression.Identifier as the_id;
ghost use Rattle.sdl_ast.specs.Views.{state_of, process_of};
ghost use Rattle.sdl_tables.specs.Names.{is_in, number_of, given_to, states_of, part_triggers, triggers_by_state};
ghost use Rattle.sdl_tables.specs.Rows.{row_at};
ghost use Rattle.sdl_tables.specs.Scopes.{Marks, repeats};
ghost use Rattle.sdl_tables.specs.Triggers.{trigger_ids, taken_by, taken_in, AreTaken, IsNumbered, AreNumbered, Keeps, Stamped, AreBelow, Covers};

use crate::name_key::NameKey;
use crate::name_table::NameTable;
use crate::scope::{earlier, marked};
use crate::state_names::part_triggers;
use sdl_ast::{Identifier, Process, StatePart};
use std::alloc::{AllocError, Global};

/// A name that a part consumes or saves, and its number among all such names of the process.
#[derive(Clone, Copy)]
struct Trigger {
    id: Identifier,
    number: usize,
}

/// The number of a name, which is added if it is new.
fn number_in(names: &mut NameTable, id: Identifier) -> Result<usize, AllocError>
    ensures number { IfOk result (λ n. number_of names.new id.name ≡ Some n) }
    ensures keeps { OnOk result (Keeps names.old names.new) }
{
    match names.number(id.name) {
        Some(number) => Ok(number),
        None => {
            let number = names.len();
            names.add(id)?;
            Ok(number)
        }
    }
}

/// Numbers names. New names are added.
fn number_ids(
    alloc: Global,
    names: &mut NameTable,
    ids: &[Identifier],
) -> Result<Vec<Trigger>, AllocError>
    ensures ids { IfOk result (λ v. trigger_ids v ≡ ids.now) }
    ensures numbered { IfOk result (λ v. AllByRecursion (IsNumbered names.new) v.items) }
    ensures keeps { OnOk result (Keeps names.old names.new) }
{
    let mut triggers = Vec::new(alloc);
    for id in ids {
        let number = number_in(names, *id)?;
        triggers.push(Trigger { id: *id, number })?;
    }
    Ok(triggers)
}

/// Numbers the names that a STATE part consumes and saves.
fn number_part(
    alloc: Global,
    names: &mut NameTable,
    part: &StatePart,
) -> Result<Vec<Trigger>, AllocError>
    ensures ids { IfOk result (λ v. trigger_ids v ≡ part_triggers (state_of part.now)) }
    ensures numbered { IfOk result (λ v. AllByRecursion (IsNumbered names.new) v.items) }
    ensures keeps { OnOk result (Keeps names.old names.new) }
{
    let ids = part_triggers(alloc, part)?;
    number_ids(alloc, names, &ids)
}

/// Numbers the names that each part consumes and saves.
fn number_parts(
    alloc: Global,
    names: &mut NameTable,
    parts: &[StatePart],
) -> Result<Vec<Vec<Trigger>>, AllocError>
    ensures ids { IfOk result (λ v. map trigger_ids v.items ≡ map part_triggers (map state_of parts.now)) }
    ensures numbered { IfOk result (λ v. AreNumbered names.new v.items) }
{
    let mut rows = Vec::new(alloc);
    for part in parts {
        rows.push(number_part(alloc, names, part)?)?;
    }
    Ok(rows)
}

/// An empty list of parts for each of `count` states.
fn empty_rows(alloc: Global, count: usize) -> Result<Vec<Vec<usize>>, AllocError>
    ensures len { IfOk result (λ v. vec_len v ≡ count) }
    ensures empty { IfOk result (λ v. (of_part : ℕ → List the_id.Identifier) (s : ℕ) → row_at (taken_in of_part) v.items s ≡ []) }
{
    let mut rows = Vec::new(alloc);
    for _state in 0..count {
        rows.push(Vec::new(alloc))?;
    }
    Ok(rows)
}

/// Appends a part to one state.
fn push_state(rows: &mut Vec<Vec<usize>>, state: usize, part: usize) -> Result<(), AllocError>
    requires { state < vec_len rows.old }
    ensures len { OnOk result (vec_len rows.new ≡ vec_len rows.old) }
    ensures rows { OnOk result ((of_part : ℕ → List the_id.Identifier) (s : ℕ) → row_at (taken_in of_part) rows.new.items s
        ≡ row_at (taken_in of_part) rows.old.items s ++ (if state == s then of_part part else [])) }
{
    let row = &mut rows[state];
    row.push(part)?;
    Ok(())
}

/// Appends a part to each state that it names.
fn push_states(
    rows: &mut Vec<Vec<usize>>,
    states: &NameTable,
    number: usize,
    part: &StatePart,
) -> Result<(), AllocError>
    requires { vec_len rows.old ≡ length states.now }
    ensures len { OnOk result (vec_len rows.new ≡ vec_len rows.old) }
    ensures rows { OnOk result ((of_part : ℕ → List the_id.Identifier) (s : ℕ) → s < vec_len rows.old
        → row_at (taken_in of_part) rows.new.items s
        ≡ row_at (taken_in of_part) rows.old.items s ++ given_to (λ _. of_part number) states.now s (state_of part.now)) }
{
    for id in &part.names {
        if let Some(state) = states.number(id.name) {
            push_state(rows, state, number)?;
        }
    }
    Ok(())
}

/// Collects the numbers of the parts of each state.
fn collect_parts(
    alloc: Global,
    parts: &[StatePart],
    states: &NameTable,
) -> Result<Vec<Vec<usize>>, AllocError>
    ensures len { IfOk result (λ v. vec_len v ≡ length states.now) }
    ensures rows { IfOk result (λ v. (of_part : ℕ → List the_id.Identifier) → AreTaken of_part (map state_of parts.now) → (s : ℕ) → s < length states.now
        → row_at (taken_in of_part) v.items s ≡ flat_map (given_to part_triggers states.now s) (map state_of parts.now)) }
{
    let mut rows = empty_rows(alloc, states.len())?;
    for (number, part) in parts.iter().enumerate() {
        push_states(&mut rows, states, number, part)?;
    }
    Ok(rows)
}

/// Whether a name is new, if those before it have this stamp. It is stamped too.
fn stamp_one(seen: &mut Vec<usize>, stamp: usize, trigger: &Trigger) -> bool
    ensures new { (names before : List the_id.Identifier) → Stamped names seen.old.items stamp before → IsNumbered names trigger.now
        → result ≡ not (is_in before trigger.now.id.name) }
    ensures stamped { (names before : List the_id.Identifier) → Stamped names seen.old.items stamp before → IsNumbered names trigger.now
        → Stamped names seen.new.items stamp (before ++ trigger.now.id ∷ []) }
    ensures below { (bound : ℕ) → stamp < bound → AreBelow seen.old.items bound → AreBelow seen.new.items bound }
    ensures len { vec_len seen.new ≡ vec_len seen.old }
{
    if trigger.number < seen.len() {
        let new = seen[trigger.number] != stamp;
        seen[trigger.number] = stamp;
        new
    } else {
        true
    }
}

/// The first name that occurred before. All names are stamped.
fn stamp_part(seen: &mut Vec<usize>, stamp: usize, triggers: &[Trigger]) -> Option<u32>
    ensures double { (names before : List the_id.Identifier) → Stamped names seen.old.items stamp before → AllByRecursion (IsNumbered names) triggers.now
        → Marks result (repeats before (map (λ t. t.id) triggers.now)) }
    ensures stamped { (names before : List the_id.Identifier) → Stamped names seen.old.items stamp before → AllByRecursion (IsNumbered names) triggers.now
        → Stamped names seen.new.items stamp (before ++ map (λ t. t.id) triggers.now) }
    ensures below { (bound : ℕ) → stamp < bound → AreBelow seen.old.items bound → AreBelow seen.new.items bound }
    ensures len { vec_len seen.new ≡ vec_len seen.old }
{
    let mut double = None;
    for trigger in triggers {
        let new = stamp_one(seen, stamp, trigger);
        double = marked(double, new, trigger.id.at);
    }
    double
}

/// The first name of the part with this number that occurred before. All its names are stamped.
fn stamp_number(
    seen: &mut Vec<usize>,
    stamp: usize,
    parts: &[Vec<Trigger>],
    number: usize,
) -> Option<u32>
    ensures double { (names before : List the_id.Identifier) → Stamped names seen.old.items stamp before → AreNumbered names parts.now
        → Marks result (repeats before (taken_by parts.now number)) }
    ensures stamped { (names before : List the_id.Identifier) → Stamped names seen.old.items stamp before → AreNumbered names parts.now
        → Stamped names seen.new.items stamp (before ++ taken_by parts.now number) }
    ensures below { (bound : ℕ) → stamp < bound → AreBelow seen.old.items bound → AreBelow seen.new.items bound }
    ensures len { vec_len seen.new ≡ vec_len seen.old }
{
    match parts.get(number) {
        None => None,
        Some(triggers) => stamp_part(seen, stamp, triggers),
    }
}

/// The place of the first name, if there is one.
fn first_at(triggers: &[Trigger]) -> Option<u32>
    ensures { Marks result (map (λ t. t.id.at) triggers.now) }
{
    match triggers {
        [] => None,
        [first, ..] => Some(first.id.at),
    }
}

/// The place of the first name of the part with a number, if it has one.
fn first_of(parts: &[Vec<Trigger>], number: usize) -> Option<u32>
    ensures { Marks result (map (λ id. id.at) (taken_by parts.now number)) }
{
    match parts.get(number) {
        None => None,
        Some(triggers) => first_at(triggers),
    }
}

/// The first name of a part that occurred before. If the preceding part is the same, it is the first name of the part.
fn stamp_next(
    seen: &mut Vec<usize>,
    stamp: usize,
    parts: &[Vec<Trigger>],
    last: Option<usize>,
    number: usize,
) -> Option<u32>
    ensures double { (names before : List the_id.Identifier) → Stamped names seen.old.items stamp before → AreNumbered names parts.now
        → IfSome last (λ k. Covers before (taken_by parts.now k)) → Marks result (repeats before (taken_by parts.now number)) }
    ensures stamped { (names before : List the_id.Identifier) → Stamped names seen.old.items stamp before → AreNumbered names parts.now
        → IfSome last (λ k. Covers before (taken_by parts.now k)) → Stamped names seen.new.items stamp (before ++ taken_by parts.now number) }
    ensures below { (bound : ℕ) → stamp < bound → AreBelow seen.old.items bound → AreBelow seen.new.items bound }
    ensures len { vec_len seen.new ≡ vec_len seen.old }
{
    match last {
        None => stamp_number(seen, stamp, parts, number),
        Some(same) => {
            if same == number {
                first_of(parts, number)
            } else {
                stamp_number(seen, stamp, parts, number)
            }
        }
    }
}

/// The first name that a state with these parts has twice.
fn state_double(
    seen: &mut Vec<usize>,
    stamp: usize,
    parts: &[Vec<Trigger>],
    numbers: &[usize],
) -> Option<u32>
    ensures double { (names : List the_id.Identifier) → Stamped names seen.old.items stamp [] → AreNumbered names parts.now
        → Marks result (repeats [] (flat_map (taken_by parts.now) numbers.now)) }
    ensures below { (bound : ℕ) → stamp < bound → AreBelow seen.old.items bound → AreBelow seen.new.items bound }
    ensures len { vec_len seen.new ≡ vec_len seen.old }
{
    let mut double = None;
    let mut last = None;
    for number in numbers {
        double = earlier(double, stamp_next(seen, stamp, parts, last, *number));
        last = Some(*number);
    }
    double
}

/// The first duplicate so far, after one more state. A state with the same parts as the preceding one adds nothing.
fn next_double(
    seen: &mut Vec<usize>,
    stamp: usize,
    parts: &[Vec<Trigger>],
    double: Option<u32>,
    before: &[usize],
    numbers: &[usize],
) -> Option<u32>
    ensures double { (names : List the_id.Identifier) → Stamped names seen.old.items stamp [] → AreNumbered names parts.now → (places : List ℕ)
        → Marks double (places ++ repeats [] (flat_map (taken_by parts.now) before.now))
        → Marks result ((places ++ repeats [] (flat_map (taken_by parts.now) before.now)) ++ repeats [] (flat_map (taken_by parts.now) numbers.now)) }
    ensures below { (bound : ℕ) → stamp < bound → AreBelow seen.old.items bound → AreBelow seen.new.items bound }
    ensures len { vec_len seen.new ≡ vec_len seen.old }
{
    if before == numbers {
        double
    } else {
        earlier(double, state_double(seen, stamp, parts, numbers))
    }
}

/// No stamp for any of `count` names.
fn unseen(alloc: Global, count: usize) -> Result<Vec<usize>, AllocError>
    ensures len { IfOk result (λ v. vec_len v ≡ count) }
    ensures below { IfOk result (λ v. AreBelow v.items 1) }
{
    let mut seen = Vec::new(alloc);
    for _name in 0..count {
        seen.push(0)?;
    }
    Ok(seen)
}

/// The first name that a state has twice, given the number of all names.
fn rows_double(
    alloc: Global,
    count: usize,
    parts: &[Vec<Trigger>],
    rows: &[Vec<usize>],
) -> Result<Option<u32>, AllocError>
    ensures { IfOk result (λ double. (names : List the_id.Identifier) → length names ≡ count → AreNumbered names parts.now
        → Marks double (flat_map (repeats []) (map (taken_in (taken_by parts.now)) rows.now))) }
{
    let mut seen = unseen(alloc, count)?;
    let mut double = None;
    let mut before: &[usize] = &[];
    for (state, numbers) in rows.iter().enumerate() {
        double = next_double(&mut seen, state + 1, parts, double, before, numbers);
        before = numbers;
    }
    Ok(double)
}

/// The place of the first name that a state consumes or saves twice.
pub(crate) fn trigger_double(
    alloc: Global,
    key: NameKey,
    process: &Process,
    states: &NameTable,
) -> Result<Option<u32>, AllocError>
    requires { states.now ≡ states_of (process_of process.now) }
    ensures { IfOk result (λ double. Marks double (flat_map (repeats []) (triggers_by_state (process_of process.now)))) }
{
    let mut names = NameTable::new(alloc, key);
    let parts = number_parts(alloc, &mut names, &process.states)?;
    let rows = collect_parts(alloc, &process.states, states)?;
    let double = rows_double(alloc, names.len(), &parts, &rows)?;
    Ok(double)
}
