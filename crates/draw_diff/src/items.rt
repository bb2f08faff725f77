//! The declarations of a set.
ghost use Rattle.std.specs.Prelude.{◌≡◌, ◌++◌, ◌∷◌, [], map, OnOk, IfOk, codes};
ghost use Rattle.std.specs.List.{flat_map};
ghost use Rattle.draw_diff.specs.Items.{item, item_of, items_of, own_head, process_item, process_items, route_item, route_items, save_item, signal_item, state_items, timer_item, variable_item};

use crate::pieces::{
    push_bytes, push_initial, push_instances, push_parameters, push_party, push_trigger,
    signal_word, sort_word,
};
use std::alloc::{AllocError, Global};
use turn_code::{
    Draft, DraftProcess, DraftRoute, DraftSignal, DraftState, DraftVariable, Name, SignalNumber,
    Trigger,
};

/// An item that a set declares.
#[derive(Drop)]
pub(crate) struct Item {
    /// The head: the keyword of the declaration, and its names.
    pub(crate) head: Vec<u8>,
    /// The tail: sorts, initial values, instances.
    pub(crate) tail: Vec<u8>,
}

/// Appends an item to `items`.
fn push_item(items: &mut Vec<Item>, head: Vec<u8>, tail: Vec<u8>) -> Result<(), AllocError>
    ensures { OnOk result (map item_of items.new.items ≡ map item_of items.old.items ++ item head.items tail.items ∷ []) }
{
    items.push(Item { head, tail })?;
    Ok(())
}

/// Appends a signal.
fn push_signal(alloc: Global, items: &mut Vec<Item>, signal: &DraftSignal) -> Result<(), AllocError>
    ensures { OnOk result (map item_of items.new.items ≡ map item_of items.old.items ++ signal_item signal.now ∷ []) }
{
    let mut head = Vec::new(alloc);
    let mut tail = Vec::new(alloc);
    push_bytes(&mut head, b"SIGNAL ")?;
    push_bytes(&mut head, signal.name.as_bytes())?;
    push_parameters(&mut tail, signal.parameters.as_slice())?;
    push_item(items, head, tail)
}

/// Appends signals.
fn push_signals(
    alloc: Global,
    items: &mut Vec<Item>,
    signals: &[DraftSignal],
) -> Result<(), AllocError>
    ensures { OnOk result (map item_of items.new.items ≡ map item_of items.old.items ++ map signal_item signals.now) }
{
    for signal in signals {
        push_signal(alloc, items, signal)?;
    }
    Ok(())
}

/// Appends a signal that a route carries.
fn push_carried(
    alloc: Global,
    items: &mut Vec<Item>,
    draft: &Draft,
    route: &DraftRoute,
    signal: SignalNumber,
) -> Result<(), AllocError>
    ensures { OnOk result (map item_of items.new.items ≡ map item_of items.old.items ++ route_item draft.now route.now signal ∷ []) }
{
    let mut head = Vec::new(alloc);
    push_bytes(&mut head, b"ROUTE ")?;
    push_party(&mut head, draft, route.from)?;
    push_bytes(&mut head, b" TO ")?;
    push_party(&mut head, draft, route.to)?;
    push_bytes(&mut head, b" WITH ")?;
    push_bytes(&mut head, signal_word(draft, signal))?;
    push_item(items, head, Vec::new(alloc))
}

/// Appends signals that a route carries.
fn push_all_carried(
    alloc: Global,
    items: &mut Vec<Item>,
    draft: &Draft,
    route: &DraftRoute,
    signals: &[SignalNumber],
) -> Result<(), AllocError>
    ensures { OnOk result (map item_of items.new.items ≡ map item_of items.old.items ++ map (route_item draft.now route.now) signals.now) }
{
    for signal in signals {
        push_carried(alloc, items, draft, route, *signal)?;
    }
    Ok(())
}

/// Appends all signals of a route.
fn push_route(
    alloc: Global,
    items: &mut Vec<Item>,
    draft: &Draft,
    route: &DraftRoute,
) -> Result<(), AllocError>
    ensures { OnOk result (map item_of items.new.items ≡ map item_of items.old.items ++ route_items draft.now route.now) }
{
    push_all_carried(alloc, items, draft, route, route.signals.as_slice())
}

/// Appends all signals of routes.
fn push_routes(
    alloc: Global,
    items: &mut Vec<Item>,
    draft: &Draft,
    routes: &[DraftRoute],
) -> Result<(), AllocError>
    ensures { OnOk result (map item_of items.new.items ≡ map item_of items.old.items ++ flat_map (route_items draft.now) routes.now) }
{
    for route in routes {
        push_route(alloc, items, draft, route)?;
    }
    Ok(())
}

/// Returns a keyword, the name of a process, and a name declared in that process.
fn own_head(
    alloc: Global,
    word: &[u8],
    process: &DraftProcess,
    name: &[u8],
) -> Result<Vec<u8>, AllocError>
    ensures { IfOk result (λ v. v.items ≡ own_head word.now process.now name.now) }
{
    let mut head = Vec::new(alloc);
    push_bytes(&mut head, word)?;
    push_bytes(&mut head, process.name.as_bytes())?;
    push_bytes(&mut head, b" ")?;
    push_bytes(&mut head, name)?;
    Ok(head)
}

/// Appends a variable.
fn push_variable(
    alloc: Global,
    items: &mut Vec<Item>,
    process: &DraftProcess,
    variable: &DraftVariable,
) -> Result<(), AllocError>
    ensures { OnOk result (map item_of items.new.items ≡ map item_of items.old.items ++ variable_item process.now variable.now ∷ []) }
{
    let head = own_head(alloc, b"DCL ", process, variable.name.as_bytes())?;
    let mut tail = Vec::new(alloc);
    push_bytes(&mut tail, b" ")?;
    push_bytes(&mut tail, sort_word(variable.sort))?;
    push_initial(alloc, &mut tail, variable.initial)?;
    push_item(items, head, tail)
}

/// Appends variables.
fn push_variables(
    alloc: Global,
    items: &mut Vec<Item>,
    process: &DraftProcess,
    variables: &[DraftVariable],
) -> Result<(), AllocError>
    ensures { OnOk result (map item_of items.new.items ≡ map item_of items.old.items ++ map (variable_item process.now) variables.now) }
{
    for variable in variables {
        push_variable(alloc, items, process, variable)?;
    }
    Ok(())
}

/// Appends a timer.
fn push_timer(
    alloc: Global,
    items: &mut Vec<Item>,
    process: &DraftProcess,
    timer: &Name,
) -> Result<(), AllocError>
    ensures { OnOk result (map item_of items.new.items ≡ map item_of items.old.items ++ timer_item process.now timer.now ∷ []) }
{
    let head = own_head(alloc, b"TIMER ", process, timer.as_bytes())?;
    push_item(items, head, Vec::new(alloc))
}

/// Appends timers.
fn push_timers(
    alloc: Global,
    items: &mut Vec<Item>,
    process: &DraftProcess,
    timers: &[Name],
) -> Result<(), AllocError>
    ensures { OnOk result (map item_of items.new.items ≡ map item_of items.old.items ++ map (timer_item process.now) timers.now) }
{
    for timer in timers {
        push_timer(alloc, items, process, timer)?;
    }
    Ok(())
}

/// Appends a signal or timer that a state saves.
fn push_save(
    alloc: Global,
    items: &mut Vec<Item>,
    draft: &Draft,
    process: &DraftProcess,
    state: &DraftState,
    trigger: Trigger,
) -> Result<(), AllocError>
    ensures { OnOk result (map item_of items.new.items ≡ map item_of items.old.items ++ save_item draft.now process.now state.now trigger ∷ []) }
{
    let mut head = own_head(alloc, b"SAVE ", process, state.name.as_bytes())?;
    push_bytes(&mut head, b" ")?;
    push_trigger(&mut head, draft, process, trigger)?;
    push_item(items, head, Vec::new(alloc))
}

/// Appends the signals and timers that a state saves.
fn push_saves(
    alloc: Global,
    items: &mut Vec<Item>,
    draft: &Draft,
    process: &DraftProcess,
    state: &DraftState,
    saves: &[Trigger],
) -> Result<(), AllocError>
    ensures { OnOk result (map item_of items.new.items ≡ map item_of items.old.items ++ map (save_item draft.now process.now state.now) saves.now) }
{
    for trigger in saves {
        push_save(alloc, items, draft, process, state, *trigger)?;
    }
    Ok(())
}

/// Appends a state and the signals and timers that it saves.
fn push_state(
    alloc: Global,
    items: &mut Vec<Item>,
    draft: &Draft,
    process: &DraftProcess,
    state: &DraftState,
) -> Result<(), AllocError>
    ensures { OnOk result (map item_of items.new.items ≡ map item_of items.old.items ++ state_items draft.now process.now state.now) }
{
    let head = own_head(alloc, b"STATE ", process, state.name.as_bytes())?;
    push_item(items, head, Vec::new(alloc))?;
    push_saves(alloc, items, draft, process, state, state.saves.as_slice())
}

/// Appends states, each with the signals and timers that it saves.
fn push_states(
    alloc: Global,
    items: &mut Vec<Item>,
    draft: &Draft,
    process: &DraftProcess,
    states: &[DraftState],
) -> Result<(), AllocError>
    ensures { OnOk result (map item_of items.new.items ≡ map item_of items.old.items ++ flat_map (state_items draft.now process.now) states.now) }
{
    for state in states {
        push_state(alloc, items, draft, process, state)?;
    }
    Ok(())
}

/// Appends the process itself.
fn push_own(alloc: Global, items: &mut Vec<Item>, process: &DraftProcess) -> Result<(), AllocError>
    ensures { OnOk result (map item_of items.new.items ≡ map item_of items.old.items ++ process_item process.now ∷ []) }
{
    let mut head = Vec::new(alloc);
    let mut tail = Vec::new(alloc);
    push_bytes(&mut head, b"PROCESS ")?;
    push_bytes(&mut head, process.name.as_bytes())?;
    push_instances(alloc, &mut tail, process.instances)?;
    push_item(items, head, tail)
}

/// Appends a process with its declarations.
fn push_process(
    alloc: Global,
    items: &mut Vec<Item>,
    draft: &Draft,
    process: &DraftProcess,
) -> Result<(), AllocError>
    ensures { OnOk result (map item_of items.new.items ≡ map item_of items.old.items ++ process_items draft.now process.now) }
{
    push_own(alloc, items, process)?;
    push_variables(alloc, items, process, process.variables.as_slice())?;
    push_timers(alloc, items, process, process.timers.as_slice())?;
    push_states(alloc, items, draft, process, process.states.as_slice())
}

/// Appends processes with their declarations.
fn push_processes(
    alloc: Global,
    items: &mut Vec<Item>,
    draft: &Draft,
    processes: &[DraftProcess],
) -> Result<(), AllocError>
    ensures { OnOk result (map item_of items.new.items ≡ map item_of items.old.items ++ flat_map (process_items draft.now) processes.now) }
{
    for process in processes {
        push_process(alloc, items, draft, process)?;
    }
    Ok(())
}

/// Returns all declarations of a set.
pub(crate) fn items_of(alloc: Global, draft: &Draft) -> Result<Vec<Item>, AllocError>
    ensures { IfOk result (λ v. map item_of v.items ≡ items_of draft.now) }
{
    let mut items = Vec::new(alloc);
    push_signals(alloc, &mut items, draft.signals.as_slice())?;
    push_routes(alloc, &mut items, draft, draft.routes.as_slice())?;
    push_processes(alloc, &mut items, draft, draft.processes.as_slice())?;
    Ok(items)
}
