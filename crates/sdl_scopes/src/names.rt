//! The rule on names (S2): finds the first name that isn't declared in its class and scope.
ghost use Rattle.std.specs.Prelude.{◌≡◌, ◌++◌, ◌∷◌, [], List, Option, map, if◌then◌else◌};
ghost use Rattle.std.specs.List.{flat_map};
ghost use Rattle.std.specs.Option.{option_to_list};
ghost use Rattle.sdl_ast.specs.Plain.{output};
ghost use Rattle.sdl_ast.specs.Views.{tree_of, assignment_of, sending_of, action_of, clause_of, state_of, stimulus_of, input_of, path_of, route_of, entity_of, process_of, block_of};
ghost use Rattle.sdl_tables.specs.Names.{is_in, variable_names, timers_of, connector_names, clause_saves, routes_in, routes_of};
ghost use Rattle.sdl_tables.specs.Scopes.{Marks};
ghost use Rattle.sdl_sound.specs.Names.{unknown, party_names, path_unknown, route_unknown, tree_names, assignment_names, sending_unknown, destination_names, action_unknown, end_connectors, trigger_names, saves_unknown, place_names, stimulus_unknown, input_unknown};

use sdl_ast::{
    Action, Assignment, Destination, End, Entity, Expression, Identifier, InputPart, Output, Party,
    Path, Sending, SetTimer, StateClause, StatePart, Stimulus,
};
use sdl_tables::{BlockTable, NameTable, ProcessTable, earlier};

/// The place of a name that isn't in a table.
fn missing(names: &NameTable, id: Identifier) -> Option<u32>
    ensures { Marks result (if is_in names.now id.name then [] else id.at ∷ []) }
{
    if names.contains(id.name) {
        None
    } else {
        Some(id.at)
    }
}

/// The place of the first of these names that isn't in a table.
fn first_unknown(names: &NameTable, ids: &[Identifier]) -> Option<u32>
    ensures { Marks result (unknown names.now ids.now) }
{
    let mut place = None;
    for id in ids {
        place = earlier(place, missing(names, *id));
    }
    place
}

/// The place of a party whose process isn't in the table. The environment is always known.
fn unknown_party(names: &NameTable, party: Party) -> Option<u32>
    ensures { Marks result (unknown names.now (party_names party)) }
{
    match party {
        Party::Environment => None,
        Party::Process(id) => missing(names, id),
    }
}

/// The place of an undeclared process or signal in a path.
fn unknown_in_path(block: &BlockTable, path: &Path) -> Option<u32>
    ensures { Marks result (path_unknown (block_of block.now) (path_of path.now)) }
{
    let processes = block.processes();
    let from = unknown_party(processes, path.from);
    let parties = earlier(from, unknown_party(processes, path.to));
    earlier(parties, first_unknown(block.signals(), &path.signals))
}

/// The place of an undeclared process or signal in paths.
fn unknown_in_paths(block: &BlockTable, paths: &[Path]) -> Option<u32>
    ensures { Marks result (flat_map (path_unknown (block_of block.now)) (map path_of paths.now)) }
{
    let mut place = None;
    for path in paths {
        place = earlier(place, unknown_in_path(block, path));
    }
    place
}

/// The place of an undeclared process or signal in the routes among these entities.
fn unknown_in_routes(block: &BlockTable, entities: &[Entity]) -> Option<u32>
    ensures { Marks result (flat_map (route_unknown (block_of block.now)) (flat_map routes_in (map entity_of entities.now))) }
{
    let mut place = None;
    for entity in entities {
        match entity {
            Entity::Signals(_) => {}
            Entity::Route(route) => place = earlier(place, unknown_in_paths(block, &route.paths)),
            Entity::Connect(_) => {}
            Entity::Synonyms(_) => {}
            Entity::Process(_) => {}
        }
    }
    place
}

/// The place of an undeclared variable in an expression.
pub fn unknown_in_expression(names: &NameTable, expression: &Expression) -> Option<u32>
    ensures { Marks result (unknown names.now (tree_names (tree_of expression.now))) }
{
    match expression {
        Expression::Number { .. } => None,
        Expression::Truth { .. } => None,
        Expression::Variable { name, .. } => missing(names, *name),
        Expression::Unary { operand, .. } => unknown_in_expression(names, operand),
        Expression::Binary { left, right, .. } => {
            let first = unknown_in_expression(names, left);
            earlier(first, unknown_in_expression(names, right))
        }
    }
}

/// The place of an undeclared variable in an assignment.
fn unknown_in_assignment(names: &NameTable, assignment: &Assignment) -> Option<u32>
    ensures { Marks result (unknown names.now (assignment_names (assignment_of assignment.now))) }
{
    let variable = missing(names, assignment.variable);
    earlier(variable, unknown_in_expression(names, &assignment.value))
}

/// The place of an undeclared variable in assignments.
fn unknown_in_assignments(names: &NameTable, assignments: &[Assignment]) -> Option<u32>
    ensures { Marks result (unknown names.now (flat_map assignment_names (map assignment_of assignments.now))) }
{
    let mut place = None;
    for assignment in assignments {
        place = earlier(place, unknown_in_assignment(names, assignment));
    }
    place
}

/// The place of an undeclared variable in expressions.
fn unknown_in_expressions(names: &NameTable, expressions: &[Expression]) -> Option<u32>
    ensures { Marks result (unknown names.now (flat_map tree_names (map tree_of expressions.now))) }
{
    let mut place = None;
    for expression in expressions {
        place = earlier(place, unknown_in_expression(names, expression));
    }
    place
}

/// The place of an undeclared signal or variable in a sending.
fn unknown_in_sending(block: &BlockTable, process: &ProcessTable, sending: &Sending) -> Option<u32>
    ensures { Marks result (sending_unknown (block_of block.now) (process_of process.now) (sending_of sending.now)) }
{
    let signal = missing(block.signals(), sending.signal);
    earlier(
        signal,
        unknown_in_expressions(process.variables(), &sending.parameters),
    )
}

/// The place of an undeclared signal or variable in sendings.
fn unknown_in_sendings(
    block: &BlockTable,
    process: &ProcessTable,
    sendings: &[Sending],
) -> Option<u32>
    ensures { Marks result (flat_map (sending_unknown (block_of block.now) (process_of process.now)) (map sending_of sendings.now)) }
{
    let mut place = None;
    for sending in sendings {
        place = earlier(place, unknown_in_sending(block, process, sending));
    }
    place
}

/// The place of an undeclared process after TO.
fn unknown_destination(processes: &NameTable, to: Option<Destination>) -> Option<u32>
    ensures { Marks result (unknown processes.now (destination_names to)) }
{
    match to {
        None => None,
        Some(Destination::Sender(_)) => None,
        Some(Destination::Process(id)) => missing(processes, id),
    }
}

/// The place of an undeclared name in an OUTPUT.
fn unknown_in_output(block: &BlockTable, process: &ProcessTable, sent: &Output) -> Option<u32>
    ensures { Marks result (action_unknown (block_of block.now) (process_of process.now) (output sent.now.at (map sending_of sent.now.sendings.items) sent.now.to)) }
{
    let sendings = unknown_in_sendings(block, process, &sent.sendings);
    earlier(sendings, unknown_destination(block.processes(), sent.to))
}

/// The place of an undeclared variable or timer in a SET.
fn unknown_in_set(process: &ProcessTable, set: &SetTimer) -> Option<u32>
    ensures { Marks result (unknown (variable_names (process_of process.now)) (tree_names (tree_of set.now.delay))
        ++ unknown (timers_of (process_of process.now)) (set.now.timer ∷ [])) }
{
    let delay = unknown_in_expression(process.variables(), &set.delay);
    earlier(delay, missing(process.timers(), set.timer))
}

/// The place of an undeclared name in an action. (S2; Z.100: visibility.)
pub fn unknown_in_action(block: &BlockTable, process: &ProcessTable, action: &Action) -> Option<u32>
    ensures { Marks result (action_unknown (block_of block.now) (process_of process.now) (action_of action.now)) }
{
    match action {
        Action::Task(task) => unknown_in_assignments(process.variables(), &task.assignments),
        Action::Output(output) => unknown_in_output(block, process, output),
        Action::Set(set) => unknown_in_set(process, set),
        Action::Reset(reset) => missing(process.timers(), reset.timer),
    }
}

/// The place of an undeclared connector in a JOIN. (S2; Z.100: join.)
pub fn unknown_connector(process: &ProcessTable, end: End) -> Option<u32>
    ensures { Marks result (unknown (connector_names (process_of process.now)) (end_connectors end)) }
{
    match end {
        End::NextState(_) => None,
        End::Stop(_) => None,
        End::Join(join) => missing(process.connectors(), join.connector),
    }
}

/// The place of a name that is neither a signal nor a timer of the process.
fn missing_trigger(block: &BlockTable, process: &ProcessTable, id: Identifier) -> Option<u32>
    ensures { Marks result (if is_in (trigger_names (block_of block.now) (process_of process.now)) id.name then [] else id.at ∷ []) }
{
    if process.timers().contains(id.name) {
        None
    } else {
        missing(block.signals(), id)
    }
}

/// The place of a name among these that is neither a signal nor a timer of the process.
fn unknown_in_triggers(
    block: &BlockTable,
    process: &ProcessTable,
    ids: &[Identifier],
) -> Option<u32>
    ensures { Marks result (unknown (trigger_names (block_of block.now) (process_of process.now)) ids.now) }
{
    let mut place = None;
    for id in ids {
        place = earlier(place, missing_trigger(block, process, *id));
    }
    place
}

/// The place of a name in the SAVEs of a STATE part that is neither a signal nor a timer of the process.
fn unknown_in_saves(
    block: &BlockTable,
    process: &ProcessTable,
    clauses: &[StateClause],
) -> Option<u32>
    ensures { Marks result (unknown (trigger_names (block_of block.now) (process_of process.now)) (flat_map clause_saves (map clause_of clauses.now))) }
{
    let mut place = None;
    for clause in clauses {
        match clause {
            StateClause::Input(_) => {}
            StateClause::Save(ids) => {
                place = earlier(place, unknown_in_triggers(block, process, ids));
            }
        }
    }
    place
}

/// The place of an undeclared name in the SAVEs of STATE parts.
pub fn unknown_in_parts(
    block: &BlockTable,
    process: &ProcessTable,
    parts: &[StatePart],
) -> Option<u32>
    ensures { Marks result (flat_map (saves_unknown (block_of block.now) (process_of process.now)) (map state_of parts.now)) }
{
    let mut place = None;
    for part in parts {
        place = earlier(place, unknown_in_saves(block, process, &part.clauses));
    }
    place
}

/// The place of an undeclared variable in a place of an INPUT.
fn unknown_place(names: &NameTable, place: Option<Identifier>) -> Option<u32>
    ensures { Marks result (unknown names.now (option_to_list place)) }
{
    match place {
        None => None,
        Some(id) => missing(names, id),
    }
}

/// The place of an undeclared variable in the places of an INPUT.
fn unknown_in_places(names: &NameTable, places: &[Option<Identifier>]) -> Option<u32>
    ensures { Marks result (unknown names.now (place_names places.now)) }
{
    let mut found = None;
    for place in places {
        found = earlier(found, unknown_place(names, *place));
    }
    found
}

/// The place of an undeclared name in one signal of an INPUT and its places.
fn unknown_in_stimulus(
    block: &BlockTable,
    process: &ProcessTable,
    stimulus: &Stimulus,
) -> Option<u32>
    ensures { Marks result (stimulus_unknown (block_of block.now) (process_of process.now) (stimulus_of stimulus.now)) }
{
    let signal = missing_trigger(block, process, stimulus.name);
    earlier(
        signal,
        unknown_in_places(process.variables(), &stimulus.places),
    )
}

/// The place of an undeclared name in the signals of an INPUT and their places.
fn unknown_in_stimuli(
    block: &BlockTable,
    process: &ProcessTable,
    stimuli: &[Stimulus],
) -> Option<u32>
    ensures { Marks result (flat_map (stimulus_unknown (block_of block.now) (process_of process.now)) (map stimulus_of stimuli.now)) }
{
    let mut place = None;
    for stimulus in stimuli {
        place = earlier(place, unknown_in_stimulus(block, process, stimulus));
    }
    place
}

/// The place of an undeclared name in the heads of INPUTs. Their transitions aren't checked here.
pub fn unknown_in_inputs(
    block: &BlockTable,
    process: &ProcessTable,
    inputs: &[&InputPart],
) -> Option<u32>
    ensures { Marks result (flat_map (input_unknown (block_of block.now) (process_of process.now)) (map (λ i. input_of i.now) inputs.now)) }
{
    let mut place = None;
    for input in inputs {
        place = earlier(place, unknown_in_stimuli(block, process, &input.stimuli));
    }
    place
}

/// The place of an undeclared name in the routes.
pub fn unknown_in_block(block: &BlockTable) -> Option<u32>
    ensures { Marks result (flat_map (route_unknown (block_of block.now)) (routes_of (block_of block.now))) }
{
    unknown_in_routes(block, &block.block().entities)
}
