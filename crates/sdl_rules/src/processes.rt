//! The parts of a process with values in place of synonyms.
ghost use Rattle.std.specs.Prelude.{◌≡◌, map, IfOk};
ghost use Rattle.std.specs.Option.{option_map};
ghost use Rattle.sdl_ast.specs.Views.{input_of, clause_of, state_of, connection_of, start_of, group_of, declaration_of, process_of};
ghost use Rattle.sdl_rules.specs.Expansion.{expanded_input, expanded_clause, expanded_state, expanded_start, expanded_connection, expanded_group, expanded_declaration, expanded_in};
ghost use Rattle.sdl_rules.specs.Synonyms.{expanded_constant};
ghost use Rattle.sdl_rules.specs.Views.{sight_of};

use crate::copies::copy_stimuli;
use crate::sight::Sight;
use crate::transitions::expand_transition;
use crate::values::expand_constant;
use sdl_ast::{
    Connection, Constant, Declaration, Group, InputPart, Process, Start, StateClause, StatePart,
};
use std::alloc::{AllocError, Global};

/// An initial value with a value in place of its synonym.
fn expand_initial(sight: &Sight, initial: Option<Constant>) -> Option<Constant>
    ensures { result ≡ option_map (expanded_constant (sight_of sight.now)) initial }
{
    match initial {
        None => None,
        Some(constant) => Some(expand_constant(sight, constant)),
    }
}

/// The groups of a DCL.
fn expand_groups(alloc: Global, sight: &Sight, given: &[Group]) -> Result<Vec<Group>, AllocError>
    ensures { IfOk result (λ copy. map group_of copy.items ≡ map (expanded_group (sight_of sight.now)) (map group_of given.now)) }
{
    let mut copies = Vec::new(alloc);
    for group in given {
        let names = Vec::from_slice(alloc, group.names.as_slice())?;
        let initial = expand_initial(sight, group.initial);
        copies.push(Group {
            names,
            sort: group.sort,
            initial,
        })?;
    }
    Ok(copies)
}

/// The declarations of a process; its SYNONYMs are left empty.
fn expand_declaration(
    alloc: Global,
    sight: &Sight,
    given: &Declaration,
) -> Result<Declaration, AllocError>
    ensures { IfOk result (λ copy. declaration_of copy ≡ expanded_declaration (sight_of sight.now) (declaration_of given.now)) }
{
    match given {
        Declaration::Variables(groups) => {
            let groups = expand_groups(alloc, sight, groups)?;
            Ok(Declaration::Variables(groups))
        }
        Declaration::Timers(names) => Ok(Declaration::Timers(Vec::from_slice(
            alloc,
            names.as_slice(),
        )?)),
        Declaration::Synonyms(_) => Ok(Declaration::Synonyms(Vec::new(alloc))),
    }
}

fn expand_declarations(
    alloc: Global,
    sight: &Sight,
    given: &[Declaration],
) -> Result<Vec<Declaration>, AllocError>
    ensures { IfOk result (λ copy. map declaration_of copy.items ≡ map (expanded_declaration (sight_of sight.now)) (map declaration_of given.now)) }
{
    let mut copies = Vec::new(alloc);
    for declaration in given {
        copies.push(expand_declaration(alloc, sight, declaration)?)?;
    }
    Ok(copies)
}

/// An INPUT.
fn expand_input(alloc: Global, sight: &Sight, given: &InputPart) -> Result<InputPart, AllocError>
    ensures { IfOk result (λ copy. input_of copy ≡ expanded_input (sight_of sight.now) (input_of given.now)) }
{
    let stimuli = copy_stimuli(alloc, &given.stimuli)?;
    let transition = expand_transition(alloc, sight, &given.transition)?;
    Ok(InputPart {
        at: given.at,
        stimuli,
        transition,
    })
}

/// An INPUT or a SAVE.
fn expand_clause(
    alloc: Global,
    sight: &Sight,
    given: &StateClause,
) -> Result<StateClause, AllocError>
    ensures { IfOk result (λ copy. clause_of copy ≡ expanded_clause (sight_of sight.now) (clause_of given.now)) }
{
    match given {
        StateClause::Input(input) => {
            let copy = expand_input(alloc, sight, input)?;
            Ok(StateClause::Input(copy))
        }
        StateClause::Save(names) => Ok(StateClause::Save(Vec::from_slice(
            alloc,
            names.as_slice(),
        )?)),
    }
}

fn expand_clauses(
    alloc: Global,
    sight: &Sight,
    given: &[StateClause],
) -> Result<Vec<StateClause>, AllocError>
    ensures { IfOk result (λ copy. map clause_of copy.items ≡ map (expanded_clause (sight_of sight.now)) (map clause_of given.now)) }
{
    let mut copies = Vec::new(alloc);
    for clause in given {
        copies.push(expand_clause(alloc, sight, clause)?)?;
    }
    Ok(copies)
}

/// The STATE parts of a process.
fn expand_states(
    alloc: Global,
    sight: &Sight,
    given: &[StatePart],
) -> Result<Vec<StatePart>, AllocError>
    ensures { IfOk result (λ copy. map state_of copy.items ≡ map (expanded_state (sight_of sight.now)) (map state_of given.now)) }
{
    let mut copies = Vec::new(alloc);
    for part in given {
        let names = Vec::from_slice(alloc, part.names.as_slice())?;
        let clauses = expand_clauses(alloc, sight, &part.clauses)?;
        copies.push(StatePart { names, clauses })?;
    }
    Ok(copies)
}

/// The CONNECTIONs of a process.
fn expand_connections(
    alloc: Global,
    sight: &Sight,
    given: &[Connection],
) -> Result<Vec<Connection>, AllocError>
    ensures { IfOk result (λ copy. map connection_of copy.items ≡ map (expanded_connection (sight_of sight.now)) (map connection_of given.now)) }
{
    let mut copies = Vec::new(alloc);
    for connection in given {
        copies.push(Connection {
            at: connection.at,
            name: connection.name,
            transition: expand_transition(alloc, sight, &connection.transition)?,
        })?;
    }
    Ok(copies)
}

/// START.
fn expand_start(alloc: Global, sight: &Sight, given: &Start) -> Result<Start, AllocError>
    ensures { IfOk result (λ copy. start_of copy ≡ expanded_start (sight_of sight.now) (start_of given.now)) }
{
    Ok(Start {
        at: given.at,
        transition: expand_transition(alloc, sight, &given.transition)?,
    })
}

/// A process with values in place of synonyms.
pub(crate) fn expand_process(
    alloc: Global,
    sight: &Sight,
    given: &Process,
) -> Result<Process, AllocError>
    ensures { IfOk result (λ copy. process_of copy ≡ expanded_in (sight_of sight.now) (process_of given.now)) }
{
    let declarations = expand_declarations(alloc, sight, &given.declarations)?;
    let start = expand_start(alloc, sight, &given.start)?;
    let connections = expand_connections(alloc, sight, &given.connections)?;
    let states = expand_states(alloc, sight, &given.states)?;
    Ok(Process {
        name: given.name,
        instances: given.instances,
        declarations,
        start,
        states,
        connections,
    })
}
