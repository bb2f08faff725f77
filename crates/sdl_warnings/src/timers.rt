//! A3: timers that are set and never an input, or an input and never set.
ghost use Rattle.std.specs.Prelude.{◌≡◌, ◌++◌, map, OnOk};
ghost use Rattle.std.specs.List.{list_any, flat_map};
ghost use Rattle.sdl_sound.specs.Statements.{acts};
ghost use Rattle.sdl_ast.specs.Views.{action_of, stimulus_of, input_of, declaration_of, process_of};
ghost use Rattle.sdl_tables.specs.Names.{same_name};
ghost use Rattle.sdl_warnings.specs.Standing.{part_of};
ghost use Rattle.sdl_warnings.specs.Warned.{sets_timer, names_stimulus, idle_timer, idle_in_declaration};

use crate::parts::Part;
use crate::reads::same_name;
use crate::told::Told;
use crate::warning::{Kind, Warning, push_unless};
use sdl_ast::{Action, Declaration, Identifier, InputPart, Name, Stimulus};
use std::alloc::AllocError;

/// Whether an action sets a timer.
fn sets_in_action(action: &Action, timer: Name) -> bool
    ensures { result ≡ sets_timer timer (acts (action_of action.now)) }
{
    match action {
        Action::Task(_) => false,
        Action::Output(_) => false,
        Action::Set(set) => same_name(timer, set.timer.name),
        Action::Reset(_) => false,
    }
}

/// Whether a statement sets a timer.
fn sets_in_part(part: &Part<'_>, timer: Name) -> bool
    ensures { result ≡ sets_timer timer (part_of part.now) }
{
    match part {
        Part::Act(action) => sets_in_action(action, timer),
        Part::Ask(_) => false,
        Part::Cover(_, _) => false,
        Part::Finish(_) => false,
    }
}

/// Whether one of these statements sets a timer.
fn sets_in_parts(parts: &[Part<'_>], timer: Name) -> bool
    ensures { result ≡ list_any (sets_timer timer) (map part_of parts.now) }
{
    let mut any = false;
    for part in parts {
        any |= sets_in_part(part, timer);
    }
    any
}

/// Whether a name is one of these.
fn names_one(stimuli: &[Stimulus], name: Name) -> bool
    ensures { result ≡ list_any (λ s. same_name name s.name.name) (map stimulus_of stimuli.now) }
{
    let mut any = false;
    for stimulus in stimuli {
        any |= same_name(name, stimulus.name.name);
    }
    any
}

/// Whether one of these INPUTs names a signal or timer.
fn is_input(inputs: &[&InputPart], name: Name) -> bool
    ensures { result ≡ list_any (names_stimulus name) (map (λ i. input_of i.now) inputs.now) }
{
    let mut any = false;
    for input in inputs {
        any |= names_one(&input.stimuli, name);
    }
    any
}

/// Appends the warning of a timer if it is set and never an input, or an input and never set.
fn push_timer(
    found: &mut Vec<Warning>,
    process: &Told<'_, '_>,
    timer: Identifier,
) -> Result<(), AllocError>
    ensures { OnOk result (found.new.items ≡ found.old.items ++ idle_timer (process_of process.now) timer) }
{
    let is_set = sets_in_parts(process.parts(), timer.name);
    let is_taken = is_input(process.table().parts(), timer.name);
    let untaken = Kind::UntakenTimer(timer.name);
    push_unless(found, is_taken || !is_set, timer.at, untaken)?;
    let unset = Kind::UnsetTimer(timer.name);
    push_unless(found, is_set || !is_taken, timer.at, unset)
}

/// Appends the warnings of these timers.
fn push_names(
    found: &mut Vec<Warning>,
    process: &Told<'_, '_>,
    timers: &[Identifier],
) -> Result<(), AllocError>
    ensures { OnOk result (found.new.items ≡ found.old.items ++ flat_map (idle_timer (process_of process.now)) timers.now) }
{
    for timer in timers {
        push_timer(found, process, *timer)?;
    }
    Ok(())
}

/// Appends the warnings of the timers of a declaration.
fn push_declaration(
    found: &mut Vec<Warning>,
    process: &Told<'_, '_>,
    declaration: &Declaration,
) -> Result<(), AllocError>
    ensures { OnOk result (found.new.items ≡ found.old.items ++ idle_in_declaration (process_of process.now) (declaration_of declaration.now)) }
{
    match declaration {
        Declaration::Variables(_) => Ok(()),
        Declaration::Timers(timers) => push_names(found, process, timers),
        Declaration::Synonyms(_) => Ok(()),
    }
}

/// Appends the warnings of the timers of these declarations.
pub(crate) fn push_timers(
    found: &mut Vec<Warning>,
    process: &Told<'_, '_>,
    declarations: &[Declaration],
) -> Result<(), AllocError>
    ensures { OnOk result (found.new.items ≡ found.old.items ++ flat_map (idle_in_declaration (process_of process.now)) (map declaration_of declarations.now)) }
{
    for declaration in declarations {
        push_declaration(found, process, declaration)?;
    }
    Ok(())
}
