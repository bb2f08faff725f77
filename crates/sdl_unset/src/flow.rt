//! The variables that a part of a transition reads before it sets them, and those that it doesn't set.
ghost use Rattle.std.specs.Prelude.{◌≡◌, ◌++◌, ◌∷◌, [], List, map};
ghost use Rattle.std.specs.List.{flat_map};
ghost use Rattle.std.specs.Option.{option_to_list};
ghost use Rattle.sdl_ast.specs.Plain.{PlainProcess};
ghost use Rattle.sdl_ast.specs.Views.{tree_of, assignment_of, sending_of, action_of, process_of};
ghost use Rattle.sdl_tables.specs.Names.{same_name, variable_names};
ghost use Rattle.sdl_tables.specs.Rows.{variable_of};
ghost use Rattle.sdl_sound.specs.Paths.{Event, reads, sets, tree_events, assignment_events, sending_events, action_events, initial_sets};
ghost use Rattle.sdl_unset.specs.Flows.{Tells, Does, is_quoted, place_events};

use crate::firsts::Firsts;
use sdl_ast::{Action, Assignment, Expression, Identifier, Sending};
use sdl_lex::Name;
use sdl_tables::{ProcessTable, Variable};

/// The variables that a part of a transition reads and sets. Bit v stands for variable v.
#[derive(Clone, Copy)]
pub(crate) struct Flow {
    /// The variables that it reads before it sets them.
    pub reads: u32,
    /// The variables that it doesn't set.
    pub keeps: u32,
    /// The first place that reads each of them so.
    pub firsts: Firsts,
}

impl Flow {
    /// The flow of a part that reads and sets nothing.
    fn empty() -> Flow
        ensures { (p : PlainProcess) → Does p [] result }
    {
        Flow {
            reads: 0,
            keeps: u32::MAX,
            firsts: Firsts::none(),
        }
    }

    /// The flow of this part and of the next one together.
    fn followed_by(self, next: Flow) -> Flow
        ensures { (p : PlainProcess) (xs ys : List Event) → Does p xs self → Does p ys next → Does p (xs ++ ys) result }
    {
        Flow {
            reads: self.reads | (self.keeps & next.reads),
            keeps: self.keeps & next.keeps,
            firsts: self
                .firsts
                .followed_by(self.keeps & next.reads, &next.firsts),
        }
    }
}

/// The bit of the variable with this name, or 0 if no such variable is among the first 32. The process table guarantees
/// that no two variables have the same name.
fn bit(table: &ProcessTable, name: Name) -> u32
    ensures { Tells (variable_names (process_of table.now)) (λ x. same_name x name) result }
{
    let _distinct = table.process();
    match table.variables().number(name) {
        None => 0,
        Some(number) => { if number < 32 { 1 << number } else { 0 } }
    }
}

/// The flow of reading a variable.
fn read(table: &ProcessTable, id: Identifier) -> Flow
    ensures { Does (process_of table.now) (reads id.name ∷ []) result }
{
    let reads = bit(table, id.name);
    Flow {
        reads,
        keeps: u32::MAX,
        firsts: Firsts::read(reads, id.at),
    }
}

/// The flow of setting a variable.
fn set(table: &ProcessTable, name: Name) -> Flow
    ensures { Does (process_of table.now) (sets name ∷ []) result }
{
    Flow {
        reads: 0,
        keeps: !bit(table, name),
        firsts: Firsts::none(),
    }
}

/// The flow of an expression, which reads its variables from left to right.
pub(crate) fn expression_flow(table: &ProcessTable, expression: &Expression) -> Flow
    ensures { Does (process_of table.now) (tree_events (tree_of expression.now)) result }
{
    match expression {
        Expression::Number { .. } => Flow::empty(),
        Expression::Truth { .. } => Flow::empty(),
        Expression::Variable { name, .. } => read(table, *name),
        Expression::Unary { operand, .. } => expression_flow(table, operand),
        Expression::Binary { left, right, .. } => {
            expression_flow(table, left).followed_by(expression_flow(table, right))
        }
    }
}

/// The flow of an assignment, which reads the variables of its value and then sets its own.
fn assignment_flow(table: &ProcessTable, assignment: &Assignment) -> Flow
    ensures { Does (process_of table.now) (assignment_events (assignment_of assignment.now)) result }
{
    let value = expression_flow(table, &assignment.value);
    value.followed_by(set(table, assignment.variable.name))
}

/// The flow of assignments, one after another.
fn assignments_flow(table: &ProcessTable, assignments: &[Assignment]) -> Flow
    ensures { Does (process_of table.now) (flat_map assignment_events (map assignment_of assignments.now)) result }
{
    let mut flow = Flow::empty();
    for assignment in assignments {
        flow = flow.followed_by(assignment_flow(table, assignment));
    }
    flow
}

/// The flow of the parameters of a signal, which are read one after another.
fn parameters_flow(table: &ProcessTable, parameters: &[Expression]) -> Flow
    ensures { Does (process_of table.now) (flat_map tree_events (map tree_of parameters.now)) result }
{
    let mut flow = Flow::empty();
    for parameter in parameters {
        flow = flow.followed_by(expression_flow(table, parameter));
    }
    flow
}

/// The flow of sendings, whose parameters are read one after another.
fn sendings_flow(table: &ProcessTable, sendings: &[Sending]) -> Flow
    ensures { Does (process_of table.now) (flat_map sending_events (map sending_of sendings.now)) result }
{
    let mut flow = Flow::empty();
    for sending in sendings {
        flow = flow.followed_by(parameters_flow(table, &sending.parameters));
    }
    flow
}

/// The flow of an action. RESET reads and sets nothing.
pub(crate) fn action_flow(table: &ProcessTable, action: &Action) -> Flow
    ensures { Does (process_of table.now) (action_events (action_of action.now)) result }
{
    match action {
        Action::Task(task) => assignments_flow(table, &task.assignments),
        Action::Output(output) => sendings_flow(table, &output.sendings),
        Action::Set(set) => expression_flow(table, &set.delay),
        Action::Reset(_) => Flow::empty(),
    }
}

/// Whether an action is a TASK that holds only quoted text.
pub(crate) fn is_quoted(action: &Action) -> bool
    ensures { result ≡ is_quoted (action_of action.now) }
{
    match action {
        Action::Task(task) => task.assignments.is_empty(),
        Action::Output(_) => false,
        Action::Set(_) => false,
        Action::Reset(_) => false,
    }
}

/// The flow of a variable at the start of its process, which sets it if it has an initial value.
fn initial_flow(table: &ProcessTable, variable: &Variable) -> Flow
    ensures { Does (process_of table.now) (initial_sets (variable_of variable.now)) result }
{
    match variable.initial {
        None => Flow::empty(),
        Some(_) => set(table, variable.name.name),
    }
}

/// The flow of the initial values, which set their variables.
pub(crate) fn initials_flow(table: &ProcessTable, variables: &[Variable]) -> Flow
    ensures { Does (process_of table.now) (flat_map initial_sets (map variable_of variables.now)) result }
{
    let mut flow = Flow::empty();
    for variable in variables {
        flow = flow.followed_by(initial_flow(table, variable));
    }
    flow
}

/// The flow of a place of an INPUT, which sets its variable if it names one.
fn place_flow(table: &ProcessTable, place: Option<Identifier>) -> Flow
    ensures { Does (process_of table.now) (map (λ id. sets id.name) (option_to_list place)) result }
{
    match place {
        None => Flow::empty(),
        Some(id) => set(table, id.name),
    }
}

/// The flow of the places of an INPUT, which set their variables one after another.
pub(crate) fn places_flow(table: &ProcessTable, places: &[Option<Identifier>]) -> Flow
    ensures { Does (process_of table.now) (place_events places.now) result }
{
    let mut flow = Flow::empty();
    for place in places {
        flow = flow.followed_by(place_flow(table, *place));
    }
    flow
}
