//! Collects the names that each state of a process consumes or saves.
ghost use Rattle.std.specs.Prelude.{◌≡◌, ◌++◌, [], ℕ, ◌<◌, ◌==◌, if◌then◌else◌, map, length, IfOk, OnOk, vec_len};
ghost use Rattle.std.specs.List.{flat_map};
ghost use Rattle.sdl_ast.specs.Views.{clause_of, state_of, process_of, stimulus_of};
ghost use Rattle.sdl_tables.specs.Names.{states_of, given_to, by_state, part_triggers};
ghost use Rattle.sdl_tables.specs.Rows.{row_names, names_at, clause_names, part_names};

use crate::name_table::NameTable;
use sdl_ast::{Identifier, Process, StateClause, StatePart, Stimulus};
use std::alloc::{AllocError, Global};

/// Which names of a state to collect.
#[derive(Clone, Copy)]
pub(crate) enum Which {
    /// The names that it saves.
    Saves,
    /// The names that it consumes or saves.
    Triggers,
}

/// Appends names.
pub(crate) fn push_ids(names: &mut Vec<Identifier>, ids: &[Identifier]) -> Result<(), AllocError>
    ensures { OnOk result (names.new.items ≡ names.old.items ++ ids.now) }
{
    for id in ids {
        names.push(*id)?;
    }
    Ok(())
}

/// Appends the names of the stimuli of an INPUT.
fn push_stimuli(names: &mut Vec<Identifier>, stimuli: &[Stimulus]) -> Result<(), AllocError>
    ensures { OnOk result (names.new.items ≡ names.old.items ++ map (λ s. s.name) (map stimulus_of stimuli.now)) }
{
    for stimulus in stimuli {
        names.push(stimulus.name)?;
    }
    Ok(())
}

/// Appends the names of an INPUT or a SAVE that are to be collected.
fn push_clause(
    names: &mut Vec<Identifier>,
    which: Which,
    clause: &StateClause,
) -> Result<(), AllocError>
    ensures { OnOk result (names.new.items ≡ names.old.items ++ clause_names which (clause_of clause.now)) }
{
    match (which, clause) {
        (Which::Saves, StateClause::Input(_)) => Ok(()),
        (Which::Triggers, StateClause::Input(input)) => push_stimuli(names, &input.stimuli),
        (_, StateClause::Save(ids)) => push_ids(names, ids),
    }
}

/// Appends the names of a STATE part that are to be collected.
fn push_part(names: &mut Vec<Identifier>, which: Which, part: &StatePart) -> Result<(), AllocError>
    ensures { OnOk result (names.new.items ≡ names.old.items ++ part_names which (state_of part.now)) }
{
    for clause in &part.clauses {
        push_clause(names, which, clause)?;
    }
    Ok(())
}

/// An empty list of names for each of `count` states.
fn empty_names(alloc: Global, count: usize) -> Result<Vec<Vec<Identifier>>, AllocError>
    ensures len { IfOk result (λ v. vec_len v ≡ count) }
    ensures empty { IfOk result (λ v. (s : ℕ) → names_at v.items s ≡ []) }
{
    let mut states = Vec::new(alloc);
    for _i in 0..count {
        states.push(Vec::new(alloc))?;
    }
    Ok(states)
}

/// Appends the names of a part to one state.
fn push_state(
    states: &mut Vec<Vec<Identifier>>,
    number: usize,
    which: Which,
    part: &StatePart,
) -> Result<(), AllocError>
    requires { number < vec_len states.old }
    ensures len { OnOk result (vec_len states.new ≡ vec_len states.old) }
    ensures names { OnOk result ((s : ℕ) → names_at states.new.items s
        ≡ names_at states.old.items s ++ (if number == s then part_names which (state_of part.now) else [])) }
{
    let names = &mut states[number];
    push_part(names, which, part)?;
    Ok(())
}

/// Appends the names of a part to each state that it names.
fn push_states(
    states: &mut Vec<Vec<Identifier>>,
    ids: &NameTable,
    which: Which,
    part: &StatePart,
) -> Result<(), AllocError>
    requires { vec_len states.old ≡ length ids.now }
    ensures len { OnOk result (vec_len states.new ≡ vec_len states.old) }
    ensures names { OnOk result ((s : ℕ) → s < vec_len states.old
        → names_at states.new.items s ≡ names_at states.old.items s ++ given_to (part_names which) ids.now s (state_of part.now)) }
{
    for id in &part.names {
        if let Some(number) = ids.number(id.name) {
            push_state(states, number, which, part)?;
        }
    }
    Ok(())
}

/// Collects the names of each state, by number.
pub(crate) fn collect_names(
    alloc: Global,
    process: &Process,
    ids: &NameTable,
    which: Which,
) -> Result<Vec<Vec<Identifier>>, AllocError>
    requires { ids.now ≡ states_of (process_of process.now) }
    ensures { IfOk result (λ v. map row_names v.items ≡ by_state (part_names which) (process_of process.now)) }
{
    let mut states = empty_names(alloc, ids.len())?;
    for part in &process.states {
        push_states(&mut states, ids, which, part)?;
    }
    Ok(states)
}

/// The names that a STATE part consumes and saves.
pub(crate) fn part_triggers(alloc: Global, part: &StatePart) -> Result<Vec<Identifier>, AllocError>
    ensures { IfOk result (λ v. v.items ≡ part_triggers (state_of part.now)) }
{
    let mut names = Vec::new(alloc);
    push_part(&mut names, Which::Triggers, part)?;
    Ok(names)
}
