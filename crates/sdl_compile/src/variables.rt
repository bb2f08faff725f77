//! Compiles the variables of a process.
ghost use Rattle.std.specs.Prelude.{◌≡◌, map, IfOk};
ghost use Rattle.sdl_tables.specs.Rows.{variable_of};
ghost use Rattle.sdl_meaning.specs.Declarations.{drafted, constant_value, sort_of_tree};

use crate::state::draft_name;
use sdl_ast::{Constant, Literal};
use sdl_tables::Variable;
use std::alloc::{AllocError, Global};
use turn_code::{DraftVariable, Sort, Value};

/// The value of a constant.
fn value(constant: Constant) -> Value
    ensures { result ≡ constant_value constant }
{
    match constant.value {
        Literal::Integer(number) => Value::Int(number),
        Literal::Boolean(truth) => Value::Bool(truth),
    }
}

/// The sort of the draft for a declared sort.
pub(crate) fn sort(declared: sdl_ast::Sort) -> Sort
    ensures { result ≡ sort_of_tree declared }
{
    match declared {
        sdl_ast::Sort::Integer => Sort::Integer,
        sdl_ast::Sort::Boolean => Sort::Boolean,
    }
}

/// A variable with its name, its sort and its initial value, if it has one.
fn make_variable(row: &Variable) -> DraftVariable
    ensures { result ≡ drafted (variable_of row.now) }
{
    DraftVariable {
        name: draft_name(&row.name.name),
        sort: sort(row.sort),
        initial: match row.initial {
            Some(constant) => Some(value(constant)),
            None => None,
        },
    }
}

/// Compiles the variables of a process, in the order of the text: their names, sorts and initial values. Fails only if
/// memory runs out.
pub fn compile_variables(alloc: Global, rows: &[Variable]) -> Result<Vec<DraftVariable>, AllocError>
    ensures { IfOk result (λ v. v.items ≡ map drafted (map variable_of rows.now)) }
{
    let mut variables = Vec::new(alloc);
    for row in rows {
        variables.push(make_variable(row))?;
    }
    Ok(variables)
}
