//! A4: variables that nothing reads.
ghost use Rattle.std.specs.Prelude.{◌≡◌, ◌++◌, Option, map, OnOk};
ghost use Rattle.std.specs.List.{list_any, flat_map};
ghost use Rattle.std.specs.Option.{option_to_list};
ghost use Rattle.sdl_ast.specs.Views.{stimulus_of, input_of, process_of};
ghost use Rattle.sdl_tables.specs.Names.{same_name, is_in};
ghost use Rattle.sdl_sound.specs.Names.{place_names};
ghost use Rattle.sdl_warnings.specs.Warned.{stimulus_assigns, input_assigns, is_assigned, variable_kind, unread_variable};

use crate::reads::{assigns_in_parts, reads_in_parts, same_name};
use crate::told::Told;
use crate::warning::{Kind, Warning, push_unless};
use sdl_ast::{Identifier, InputPart, Name, Stimulus};
use sdl_tables::Variable;
use std::alloc::AllocError;

/// Whether a place is this variable.
fn is_variable(place: Option<Identifier>, name: Name) -> bool
    ensures { result ≡ is_in (option_to_list place) name }
{
    match place {
        Some(id) => same_name(name, id.name),
        None => false,
    }
}

/// Whether one of these places is this variable.
fn is_place(places: &[Option<Identifier>], name: Name) -> bool
    ensures { result ≡ is_in (place_names places.now) name }
{
    let mut any = false;
    for place in places {
        any |= is_variable(*place, name);
    }
    any
}

/// Whether a place of one of these signals is this variable.
fn assigns_in_stimuli(stimuli: &[Stimulus], name: Name) -> bool
    ensures { result ≡ list_any (stimulus_assigns name) (map stimulus_of stimuli.now) }
{
    let mut any = false;
    for stimulus in stimuli {
        any |= is_place(&stimulus.places, name);
    }
    any
}

/// Whether a place of one of these INPUTs is this variable.
fn assigns_in_inputs(inputs: &[&InputPart], name: Name) -> bool
    ensures { result ≡ list_any (input_assigns name) (map (λ i. input_of i.now) inputs.now) }
{
    let mut any = false;
    for input in inputs {
        any |= assigns_in_stimuli(&input.stimuli, name);
    }
    any
}

/// Whether a process assigns a variable.
fn is_assigned(process: &Told<'_, '_>, name: Name) -> bool
    ensures { result ≡ is_assigned (process_of process.now) name }
{
    assigns_in_parts(process.parts(), name) || assigns_in_inputs(process.table().parts(), name)
}

/// The warning of a variable that is never read.
fn kind_of(process: &Told<'_, '_>, name: Name) -> Kind
    ensures { result ≡ variable_kind (is_assigned (process_of process.now) name) name }
{
    if is_assigned(process, name) {
        Kind::AssignedVariable(name)
    } else {
        Kind::UnusedVariable(name)
    }
}

/// Appends the warning of a variable if nothing reads it.
fn push_variable(
    found: &mut Vec<Warning>,
    process: &Told<'_, '_>,
    variable: Identifier,
) -> Result<(), AllocError>
    ensures { OnOk result (found.new.items ≡ found.old.items ++ unread_variable (process_of process.now) variable) }
{
    let is_read = reads_in_parts(process.parts(), variable.name);
    let kind = kind_of(process, variable.name);
    push_unless(found, is_read, variable.at, kind)
}

/// Appends the warnings of these variables.
pub(crate) fn push_variables(
    found: &mut Vec<Warning>,
    process: &Told<'_, '_>,
    variables: &[Variable],
) -> Result<(), AllocError>
    ensures { OnOk result (found.new.items ≡ found.old.items ++ flat_map (unread_variable (process_of process.now)) (map (λ v. v.name) variables.now)) }
{
    for variable in variables {
        push_variable(found, process, variable.name)?;
    }
    Ok(())
}
