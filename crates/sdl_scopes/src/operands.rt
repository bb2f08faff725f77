//! The rule on sorts (S3) in expressions and actions: finds the first place with a sort other than the required one.
ghost use Rattle.std.specs.Prelude.{◌≡◌, map, slice_get, zip, []};
ghost use Rattle.std.specs.List.{flat_map};
ghost use Rattle.std.specs.Option.{option_map_or};
ghost use Rattle.sdl_ast.specs.Views.{tree_of, assignment_of, sending_of, action_of, process_of, block_of};
ghost use Rattle.sdl_tables.specs.Names.{variables_of};
ghost use Rattle.sdl_tables.specs.Scopes.{Marks};
ghost use Rattle.sdl_sound.specs.Sorts.{misfit, wrong_operands, wrong_in, wrong_for, wrong_variable, wrong_assignment, parameter_sorts, wrong_parameter, wrong_number, wrong_sending, wrong_action};

use crate::divisors::place;
use crate::sorts::{have_one_sort, operand_sort, sort_in, unary_sort, variable_sort};
use sdl_ast::{Action, Assignment, BinaryOperator, Expression, Sending, Sort};
use sdl_lex::Name;
use sdl_tables::{BlockTable, ProcessTable, earlier};

/// The place of an expression, if it doesn't have the expected sort.
fn misfit(process: &ProcessTable, want: Option<Sort>, expression: &Expression) -> Option<u32>
    ensures { Marks result (misfit (variables_of (process_of process.now)) want (tree_of expression.now)) }
{
    if have_one_sort(want, sort_in(process, expression)) {
        None
    } else {
        Some(place(expression))
    }
}

/// The place of an operand that doesn't have the sort that its operator requires.
fn wrong_operands(
    process: &ProcessTable,
    operator: BinaryOperator,
    left: &Expression,
    right: &Expression,
) -> Option<u32>
    ensures { Marks result (wrong_operands (variables_of (process_of process.now)) operator (tree_of left.now) (tree_of right.now)) }
{
    let want = operand_sort(operator, sort_in(process, left));
    let first = misfit(process, want, left);
    earlier(first, misfit(process, want, right))
}

/// The place of a wrong operand in an expression. (S3; Z.100: expressions.)
pub fn wrong_in(process: &ProcessTable, expression: &Expression) -> Option<u32>
    ensures { Marks result (wrong_in (variables_of (process_of process.now)) (tree_of expression.now)) }
{
    match expression {
        Expression::Number { .. } => None,
        Expression::Truth { .. } => None,
        Expression::Variable { .. } => None,
        Expression::Unary {
            operator,
            operand,
            ..
        } => {
            let inside = wrong_in(process, operand);
            earlier(
                inside,
                misfit(process, Some(unary_sort(*operator)), operand),
            )
        }
        Expression::Binary {
            operator,
            left,
            right,
            ..
        } => {
            let first = wrong_in(process, left);
            let second = wrong_in(process, right);
            let beyond = earlier(second, wrong_operands(process, *operator, left, right));
            earlier(first, beyond)
        }
    }
}

/// The place of a wrong operand in an expression, or of the expression if it has another sort than this.
fn wrong_for(process: &ProcessTable, want: Sort, expression: &Expression) -> Option<u32>
    ensures { Marks result (wrong_for (variables_of (process_of process.now)) want (tree_of expression.now)) }
{
    let inside = wrong_in(process, expression);
    earlier(inside, misfit(process, Some(want), expression))
}

/// The place of an assignment's variable, if its value has another sort.
fn wrong_variable(process: &ProcessTable, assignment: &Assignment) -> Option<u32>
    ensures { Marks result (wrong_variable (variables_of (process_of process.now)) (assignment_of assignment.now)) }
{
    let want = variable_sort(process, assignment.variable.name);
    if have_one_sort(want, sort_in(process, &assignment.value)) {
        None
    } else {
        Some(assignment.variable.at)
    }
}

/// The place of a wrong sort in an assignment.
fn wrong_assignment(process: &ProcessTable, assignment: &Assignment) -> Option<u32>
    ensures { Marks result (wrong_assignment (variables_of (process_of process.now)) (assignment_of assignment.now)) }
{
    let value = wrong_in(process, &assignment.value);
    earlier(value, wrong_variable(process, assignment))
}

/// The place of a wrong sort in assignments.
fn wrong_in_assignments(process: &ProcessTable, assignments: &[Assignment]) -> Option<u32>
    ensures { Marks result (flat_map (wrong_assignment (variables_of (process_of process.now))) (map assignment_of assignments.now)) }
{
    let mut place = None;
    for assignment in assignments {
        place = earlier(place, wrong_assignment(process, assignment));
    }
    place
}

/// The sorts of the parameters of a signal. A name that isn't a signal has none.
pub(crate) fn parameter_sorts<'a>(block: &BlockTable<'a>, name: Name) -> &'a [Sort]
    ensures { result.now ≡ parameter_sorts (block_of block.now) name }
{
    match block.signal(name) {
        None => &[],
        Some(signal) => &signal.parameters,
    }
}

/// The place of a signal that is sent with fewer or more parameters than it has.
fn wrong_number(sorts: &[Sort], sending: &Sending) -> Option<u32>
    ensures { Marks result (wrong_number sorts.now (sending_of sending.now)) }
{
    if sorts.len() == sending.parameters.len() {
        None
    } else {
        Some(sending.signal.at)
    }
}

/// The place of a wrong operand in parameters.
fn wrong_in_all(process: &ProcessTable, parameters: &[Expression]) -> Option<u32>
    ensures { Marks result (flat_map (wrong_in (variables_of (process_of process.now))) (map tree_of parameters.now)) }
{
    let mut place = None;
    for parameter in parameters {
        place = earlier(place, wrong_in(process, parameter));
    }
    place
}

/// The place of the parameter with this number, if it doesn't have the declared sort.
fn wrong_parameter(
    process: &ProcessTable,
    sorts: &[Sort],
    number: usize,
    parameter: &Expression,
) -> Option<u32>
    ensures { Marks result (option_map_or (λ want. wrong_parameter (variables_of (process_of process.now)) (want, tree_of parameter.now)) (slice_get sorts.now number) []) }
{
    if number < sorts.len() {
        misfit(process, Some(sorts[number]), parameter)
    } else {
        None
    }
}

/// The place of a parameter with a wrong sort. Loops over the parameters sent: a signal may have far more.
fn wrong_parameters(
    process: &ProcessTable,
    sorts: &[Sort],
    parameters: &[Expression],
) -> Option<u32>
    ensures { Marks result (flat_map (wrong_parameter (variables_of (process_of process.now))) (zip sorts.now (map tree_of parameters.now))) }
{
    let mut place = None;
    for (number, parameter) in parameters.iter().enumerate() {
        place = earlier(place, wrong_parameter(process, sorts, number, parameter));
    }
    place
}

/// The place of a wrong sort or a wrong number of parameters in a sending.
fn wrong_sending(block: &BlockTable, process: &ProcessTable, sending: &Sending) -> Option<u32>
    ensures { Marks result (wrong_sending (block_of block.now) (variables_of (process_of process.now)) (sending_of sending.now)) }
{
    let sorts = parameter_sorts(block, sending.signal.name);
    let number = wrong_number(sorts, sending);
    let inside = wrong_in_all(process, &sending.parameters);
    let beyond = earlier(
        inside,
        wrong_parameters(process, sorts, &sending.parameters),
    );
    earlier(number, beyond)
}

/// The place of a wrong sort or a wrong number of parameters in sendings.
fn wrong_in_sendings(
    block: &BlockTable,
    process: &ProcessTable,
    sendings: &[Sending],
) -> Option<u32>
    ensures { Marks result (flat_map (wrong_sending (block_of block.now) (variables_of (process_of process.now))) (map sending_of sendings.now)) }
{
    let mut place = None;
    for sending in sendings {
        place = earlier(place, wrong_sending(block, process, sending));
    }
    place
}

/// The place of a wrong sort in an action. (S3; Z.100: task, output, set.)
pub fn wrong_in_action(block: &BlockTable, process: &ProcessTable, action: &Action) -> Option<u32>
    ensures { Marks result (wrong_action (block_of block.now) (variables_of (process_of process.now)) (action_of action.now)) }
{
    match action {
        Action::Task(task) => wrong_in_assignments(process, &task.assignments),
        Action::Output(output) => wrong_in_sendings(block, process, &output.sendings),
        Action::Set(set) => wrong_for(process, Sort::Integer, &set.delay),
        Action::Reset(_) => None,
    }
}
