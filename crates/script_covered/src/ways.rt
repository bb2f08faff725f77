//! The path of a turn through its text.
ghost use Rattle.std.specs.Prelude.{◌≡◌, ◌++◌, List, Option as Maybe, map, slice_get, slice_set};
ghost use Rattle.std.specs.Option.{option_map};
ghost use Rattle.sdl_ast.specs.Plain.{falls};
ghost use Rattle.sdl_ast.specs.declared.tree.Decision.{out-Decision};
ghost use Rattle.sdl_ast.specs.Views.{action_of, assignment_of, choice_of, connection_of, decision_of, end_text, process_of, statement_of, text_of};
ghost use Rattle.sdl_ast.specs.declared.expression.Identifier.{Identifier};
ghost use Rattle.turn_code.specs.declared.value.Value.{Value as OneValue};
ghost use Rattle.script_covered.specs.Ways.{Taken, action_place, end_place, put, assigned, behind_action, taken_in, stands, way_of, chosen_way, connection_at, joined_at, through};
ghost use Rattle.script_covered.specs.Covered.{HasTaken, passed};
ghost use Rattle.script_covered.specs.OnWay.{IsOnWay};

use crate::coverage::Counts;
use crate::values::answers;
use arrayvec::ArrayVec;
use sdl_ast::{Action, Assignment, Connection, Decision, End, Identifier, Statement, Transition};
use sdl_meaning::evaluate;
use sdl_tables::{NameTable, ProcessTable};
use turn_code::{Input, Value, copied_variables};

/// The values of a process's variables; none for a variable that isn't set.
type Values = ArrayVec<Option<Value>, 32>;

/// Where an action begins.
pub(crate) fn action_place(action: &Action) -> u32
    ensures { result ≡ action_place (action_of action.now) }
{
    match action {
        Action::Task(task) => task.at,
        Action::Output(output) => output.at,
        Action::Set(set) => set.at,
        Action::Reset(reset) => reset.at,
    }
}

/// Where the end of a transition begins.
pub(crate) fn end_place(end: &End) -> u32
    ensures { result ≡ end_place end.now }
{
    match end {
        End::NextState(next) => next.at,
        End::Stop(at) => *at,
        End::Join(join) => join.at,
    }
}

/// Gives the variable with a number a value, if there is one.
fn put_at(values: &mut Values, number: usize, value: Option<Value>)
    ensures { values.new.items ≡ slice_set values.old.items number value }
{
    if number < values.len() {
        values[number] = value;
    }
}

/// Gives a variable a value.
fn put(names: &NameTable, values: &mut Values, variable: &Identifier, value: Option<Value>)
    ensures { values.new.items ≡ put names.now variable.now value values.old.items }
{
    match names.number(variable.name) {
        Some(number) => put_at(values, number, value),
        None => {}
    }
}

/// Does the assignments of a TASK.
fn assign_all(names: &NameTable, values: &mut Values, assignments: &[Assignment])
    ensures { values.new.items ≡ assigned names.now (map assignment_of assignments.now) values.old.items }
{
    for assignment in assignments {
        let value = evaluate(names, values.as_slice(), &assignment.value);
        put(names, values, &assignment.variable, value);
    }
}

/// Updates the variables for an action.
fn act(names: &NameTable, values: &mut Values, action: &Action)
    ensures { values.new.items ≡ behind_action names.now (action_of action.now) values.old.items }
{
    match action {
        Action::Task(task) => assign_all(names, values, &task.assignments),
        Action::Output(_) => {}
        Action::Set(_) => {}
        Action::Reset(_) => {}
    }
}

/// Where an end begins, if there is one.
fn place_of(end: &Option<End>) -> Option<u32>
    ensures { result ≡ option_map end_place end.now }
{
    match end {
        Some(end) => Some(end_place(end)),
        None => None,
    }
}

/// Counts the end of a transition, if it has one, and returns it.
fn finish(counts: &mut Counts, end: Option<End>) -> Option<End>
    ensures { (ids : List Identifier) (vs : List (Maybe OneValue)) → IsOnWay (way_of ids (end_text end) vs) (stands result vs) counts.old counts.new }
{
    match place_of(&end) {
        Some(place) => {
            counts.take_at(place);
            end
        }
        None => end,
    }
}

/// Takes the answer of a DECISION for a value, or its ELSE. Returns the end of the transition, if it is reached.
#[cycle(walking)]
fn choose(
    names: &NameTable,
    values: &mut Values,
    counts: &mut Counts,
    decision: &Decision,
    value: Value,
) -> Option<End>
    ensures { IsOnWay (chosen_way names.now (out-Decision decision.now).at (choice_of decision.now) value values.old.items) (stands result values.new.items) counts.old counts.new }
{
    for answer in &decision.answers {
        if answers(&answer.ranges, value) {
            counts.take_at(answer.at);
            return walk(names, values, counts, &answer.body);
        }
    }
    match &decision.otherwise {
        Some(body) => {
            counts.take_else(decision.at);
            walk(names, values, counts, body)
        }
        None => None,
    }
}

/// Takes a DECISION. Returns the end of the transition, if it is reached.
#[cycle(walking)]
fn decide(
    names: &NameTable,
    values: &mut Values,
    counts: &mut Counts,
    decision: &Decision,
) -> Option<End>
    ensures { IsOnWay (way_of names.now (decision_of decision.now falls) values.old.items) (stands result values.new.items) counts.old counts.new }
{
    counts.take_at(decision.at);
    match evaluate(names, values.as_slice(), &decision.question) {
        Some(value) => choose(names, values, counts, decision, value),
        None => None,
    }
}

/// Takes a statement. Returns the end of the transition, if it is reached.
#[cycle(walking)]
fn go_by(
    names: &NameTable,
    values: &mut Values,
    counts: &mut Counts,
    statement: &Statement,
) -> Option<End>
    ensures { IsOnWay (way_of names.now (statement_of statement.now falls) values.old.items) (stands result values.new.items) counts.old counts.new }
{
    match statement {
        Statement::Act(action) => {
            counts.take_at(action_place(action));
            act(names, values, action);
            None
        }
        Statement::Decide(decision) => decide(names, values, counts, decision),
    }
}

/// Takes a transition, or a body of a DECISION. Returns its end, if it is reached.
#[cycle(walking)]
fn walk(
    names: &NameTable,
    values: &mut Values,
    counts: &mut Counts,
    transition: &Transition,
) -> Option<End>
    ensures { IsOnWay (way_of names.now (text_of transition.now) values.old.items) (stands result values.new.items) counts.old counts.new }
{
    for statement in &transition.statements {
        match go_by(names, values, counts, statement) {
            Some(end) => return Some(end),
            None => {}
        }
    }
    finish(counts, transition.end)
}

/// The connections of a process.
fn connections_in<'a>(process: &ProcessTable<'a>) -> &'a [Connection]
    ensures { map connection_of result.now ≡ (process_of process.now).connections }
{
    &process.process().connections
}

/// The connection with a name.
fn connection_at<'a>(process: &ProcessTable<'a>, name: &Identifier) -> Option<&'a Connection>
    ensures { option_map (λ k. connection_of k.now) result ≡ connection_at (process_of process.now) name.now.name }
{
    match process.connectors().number(name.name) {
        Some(number) => connections_in(process).get(number),
        None => None,
    }
}

/// The connection to which an end jumps.
fn joined_at<'a>(process: &ProcessTable<'a>, end: Option<End>) -> Option<&'a Connection>
    ensures { option_map (λ k. connection_of k.now) result ≡ joined_at (process_of process.now) end }
{
    match end {
        Some(end) => match end {
            End::NextState(_) => None,
            End::Stop(_) => None,
            End::Join(join) => connection_at(process, &join.connector),
        },
        None => None,
    }
}

/// The parameter at a place, if there is one.
fn parameter_at(parameters: &[Value], number: usize) -> Option<Value>
    ensures { result ≡ slice_get parameters.now number }
{
    match parameters.get(number) {
        Some(value) => Some(*value),
        None => None,
    }
}

/// Stores the parameters of an input in variables.
fn take_parameters(
    names: &NameTable,
    values: &mut Values,
    places: &[Option<Identifier>],
    parameters: &[Value],
)
    ensures { values.new.items ≡ taken_in names.now parameters.now 0 places.now values.old.items }
{
    for (number, place) in places.iter().enumerate() {
        match place {
            Some(variable) => put(names, values, variable, parameter_at(parameters, number)),
            None => {}
        }
    }
}

/// Takes a transition, and the connections that it joins, at most `joins` of them.
fn go(
    process: &ProcessTable<'_>,
    values: &mut Values,
    counts: &mut Counts,
    transition: &Transition,
    joins: usize,
)
    ensures { (xs : List Taken) → HasTaken xs counts.old
        → HasTaken (xs ++ through (process_of process.now) joins (text_of transition.now) values.old.items) counts.new }
{
    let end = walk(process.variables(), values, counts, transition);
    if joins == 0 {
        return;
    }
    match joined_at(process, end) {
        Some(connection) => go(process, values, counts, &connection.transition, joins - 1),
        None => {}
    }
}

/// Counts what a turn takes after its START or INPUT; `places` are the places of its signal, if it has one.
pub(crate) fn pass(
    process: &ProcessTable<'_>,
    counts: &mut Counts,
    transition: &Transition,
    places: &[Option<Identifier>],
    input: &Input,
)
    ensures { (xs : List Taken) → HasTaken xs counts.old
        → HasTaken (xs ++ passed (process_of process.now) places.now (text_of transition.now) input.now) counts.new }
{
    let mut values = copied_variables(&input.variables);
    take_parameters(process.variables(), &mut values, places, &input.parameters);
    let joins = connections_in(process).len();
    go(process, &mut values, counts, transition, joins);
}
