//! The instructions of expressions, actions and places of an INPUT.
ghost use Rattle.std.specs.Prelude.{◌≡◌, [], ◌∷◌, ◌++◌, OnOk, IfOk, map, length, ◌≤◌, pos};
ghost use Rattle.turn_code.specs.Values.{wrap};
ghost use Rattle.sdl_ast.specs.Views.{tree_of, assignment_of, sending_of, action_of};
ghost use Rattle.sdl_ast.specs.declared.expression.BinaryOperator.TheVariants.{Equal as EqualSign, NotEqual as NotEqualSign};
ghost use Rattle.sdl_sound.specs.Longest.{is_division};
ghost use Rattle.sdl_emit.specs.Scopes.{scope_in};
ghost use Rattle.sdl_meaning.specs.Act.{divisor_of};
ghost use Rattle.sdl_meaning.specs.Named.{NamedTree, NamedTrees, NamedTasks, NamedSending, NamedSendings, NamedAction, NamedPlaces};
ghost use Rattle.sdl_meaning.specs.Code.{tree_code, trees_code, tasks_code, sendings_code, action_code, places_code, unary_code, binary_code, division_code};
ghost use Rattle.plain_laws.specs.Limits.{MOST_PARAMETERS};

use crate::landing::put;
use crate::names::Names;
use sdl_ast::{
    Action, Assignment, BinaryOperator, Destination, Expression, Identifier, Sending, UnaryOperator,
};
use sdl_sound::is_division;
use std::alloc::AllocError;
use turn_code::{Instruction, Relation};

/// The instruction of an operator with one operand.
fn unary(operator: UnaryOperator) -> Instruction
    ensures { result ≡ unary_code operator }
{
    match operator {
        UnaryOperator::Negate => Instruction::Neg,
        UnaryOperator::Not => Instruction::Not,
    }
}

/// The instruction of `=`, of Booleans if `truth`, else of Integers.
fn equal(truth: bool) -> Instruction
    ensures { result ≡ binary_code truth EqualSign }
{
    if truth {
        Instruction::Same
    } else {
        Instruction::Compare(Relation::Equal)
    }
}

/// The instruction of `/=`, of Booleans if `truth`, else of Integers.
fn unequal(truth: bool) -> Instruction
    ensures { result ≡ binary_code truth NotEqualSign }
{
    if truth {
        Instruction::Xor
    } else {
        Instruction::Compare(Relation::NotEqual)
    }
}

/// The instruction of an operator. `truth` says whether its left operand is a Boolean.
fn binary(truth: bool, operator: BinaryOperator) -> Instruction
    ensures { result ≡ binary_code truth operator }
{
    match operator {
        BinaryOperator::Or => Instruction::Or,
        BinaryOperator::Xor => Instruction::Xor,
        BinaryOperator::And => Instruction::And,
        BinaryOperator::Equal => equal(truth),
        BinaryOperator::NotEqual => unequal(truth),
        BinaryOperator::Less => Instruction::Compare(Relation::Less),
        BinaryOperator::LessEqual => Instruction::Compare(Relation::LessEqual),
        BinaryOperator::Greater => Instruction::Compare(Relation::Greater),
        BinaryOperator::GreaterEqual => Instruction::Compare(Relation::GreaterEqual),
        BinaryOperator::Add => Instruction::Add,
        BinaryOperator::Subtract => Instruction::Sub,
        BinaryOperator::Multiply => Instruction::Mul,
        BinaryOperator::Divide => Instruction::Div(0),
        BinaryOperator::Modulo => Instruction::Mod(0),
        BinaryOperator::Remainder => Instruction::Rem(0),
    }
}

/// The instruction of a division by this number.
fn division(operator: BinaryOperator, divisor: i32) -> Instruction
    ensures { result ≡ division_code operator divisor }
{
    match operator {
        BinaryOperator::Divide => Instruction::Div(divisor),
        BinaryOperator::Modulo => Instruction::Mod(divisor),
        _ => Instruction::Rem(divisor),
    }
}

/// The Integer of a number in a text.
fn integer(value: u32) -> i32
    ensures { result ≡ wrap (pos value) }
{
    value.cast_signed()
}

/// The divisor of a division: the number, or 0 if it is another expression.
fn divisor(expression: &Expression) -> i32
    ensures { result ≡ divisor_of (tree_of expression.now) }
{
    match expression {
        Expression::Number { value, .. } => integer(*value),
        _ => 0,
    }
}

/// Adds an expression: the operands from left to right, each before its operator.
pub fn emit_expression(
    code: &mut Vec<Instruction>,
    names: &Names,
    expression: &Expression,
) -> Result<(), AllocError>
    requires { NamedTree (scope_in names.now) (tree_of expression.now) }
    ensures { OnOk result (code.new.items ≡ code.old.items ++ tree_code (scope_in names.now) (tree_of expression.now)) }
{
    match expression {
        Expression::Number { value, .. } => put(code, Instruction::Int(integer(*value))),
        Expression::Truth { value, .. } => put(code, Instruction::Bool(*value)),
        Expression::Variable { name, .. } => put(code, Instruction::Load(names.variable(name))),
        Expression::Unary {
            operator,
            operand,
            ..
        } => {
            emit_expression(code, names, operand)?;
            put(code, unary(*operator))
        }
        Expression::Binary {
            operator,
            left,
            right,
            ..
        } => {
            emit_expression(code, names, left)?;
            if is_division(*operator) {
                put(code, division(*operator, divisor(right)))
            } else {
                emit_expression(code, names, right)?;
                put(code, binary(names.is_truth(left), *operator))
            }
        }
    }
}

/// Adds the value of an assignment, and the store to its variable.
fn emit_assignment(
    code: &mut Vec<Instruction>,
    names: &Names,
    assignment: &Assignment,
) -> Result<(), AllocError>
    requires { NamedTasks (scope_in names.now) (assignment_of assignment.now ∷ []) }
    ensures { OnOk result (code.new.items ≡ code.old.items ++ tasks_code (scope_in names.now) (assignment_of assignment.now ∷ [])) }
{
    emit_expression(code, names, &assignment.value)?;
    put(
        code,
        Instruction::Store(names.variable(&assignment.variable)),
    )
}

/// Adds assignments, one after another.
fn emit_assignments(
    code: &mut Vec<Instruction>,
    names: &Names,
    assignments: &[Assignment],
) -> Result<(), AllocError>
    requires { NamedTasks (scope_in names.now) (map assignment_of assignments.now) }
    ensures { OnOk result (code.new.items ≡ code.old.items ++ tasks_code (scope_in names.now) (map assignment_of assignments.now)) }
{
    for assignment in assignments {
        emit_assignment(code, names, assignment)?;
    }
    Ok(())
}

/// Adds the parameters of a signal, one after another.
fn emit_parameters(
    code: &mut Vec<Instruction>,
    names: &Names,
    parameters: &[Expression],
) -> Result<(), AllocError>
    requires { NamedTrees (scope_in names.now) (map tree_of parameters.now) }
    ensures { OnOk result (code.new.items ≡ code.old.items ++ trees_code (scope_in names.now) (map tree_of parameters.now)) }
{
    for parameter in parameters {
        emit_expression(code, names, parameter)?;
    }
    Ok(())
}

/// Adds the parameters of a signal, and the OUTPUT of the signal.
fn emit_sending(
    code: &mut Vec<Instruction>,
    names: &Names,
    to: &Option<Destination>,
    sending: &Sending,
) -> Result<(), AllocError>
    requires { NamedSending (scope_in names.now) to.now (sending_of sending.now) }
    ensures { OnOk result (code.new.items ≡ code.old.items ++ sendings_code (scope_in names.now) to.now (sending_of sending.now ∷ [])) }
{
    emit_parameters(code, names, &sending.parameters)?;
    let signal = names.signal(&sending.signal);
    let receiver = names.receiver(to, &sending.signal);
    let count = sending.parameters.len() as u8;
    put(code, Instruction::Output(signal, receiver, count))
}

/// Adds the sendings of an OUTPUT, one after another.
fn emit_sendings(
    code: &mut Vec<Instruction>,
    names: &Names,
    to: &Option<Destination>,
    sendings: &[Sending],
) -> Result<(), AllocError>
    requires { NamedSendings (scope_in names.now) to.now (map sending_of sendings.now) }
    ensures { OnOk result (code.new.items ≡ code.old.items ++ sendings_code (scope_in names.now) to.now (map sending_of sendings.now)) }
{
    for sending in sendings {
        emit_sending(code, names, to, sending)?;
    }
    Ok(())
}

/// Adds the instructions of an action.
pub fn emit_action(
    code: &mut Vec<Instruction>,
    names: &Names,
    action: &Action,
) -> Result<(), AllocError>
    requires { NamedAction (scope_in names.now) (action_of action.now) }
    ensures { OnOk result (code.new.items ≡ code.old.items ++ action_code (scope_in names.now) (action_of action.now)) }
{
    match action {
        Action::Task(task) => emit_assignments(code, names, &task.assignments),
        Action::Output(output) => emit_sendings(code, names, &output.to, &output.sendings),
        Action::Set(set) => {
            emit_expression(code, names, &set.delay)?;
            put(code, Instruction::Set(names.timer(&set.timer)))
        }
        Action::Reset(reset) => put(code, Instruction::Reset(names.timer(&reset.timer))),
    }
}

/// Adds the instructions that store the parameters of a signal in the variables of the places of INPUT.
pub fn emit_places(
    code: &mut Vec<Instruction>,
    names: &Names,
    places: &[Option<Identifier>],
) -> Result<(), AllocError>
    requires named { NamedPlaces (scope_in names.now) places.now }
    requires few { length places.now ≤ MOST_PARAMETERS }
    ensures { OnOk result (code.new.items ≡ code.old.items ++ places_code (scope_in names.now) 0 places.now) }
{
    for (j, place) in places.iter().enumerate() {
        if let Some(id) = place {
            put(code, Instruction::Param(j as u8))?;
            put(code, Instruction::Store(names.variable(id)))?;
        }
    }
    Ok(())
}
