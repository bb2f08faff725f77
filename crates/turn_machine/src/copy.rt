//! Copies that allocate no memory.

ghost use Rattle.std.specs.Prelude.{◌≡◌, ◌≤◌, length};
ghost use Rattle.plain_laws.specs.Limits.{MOST_INSTRUCTIONS};

use arrayvec::ArrayVec;
use turn_code::{Effect, Input, Instruction, Value};

/// A copy of the instructions.
pub(crate) fn copied_code(code: &[Instruction]) -> ArrayVec<Instruction, 512>
    requires { length code.now ≤ MOST_INSTRUCTIONS }
    ensures { result.items ≡ code.now }
{
    let mut copy = ArrayVec::new();
    copy.try_extend_from_slice(code).unwrap();
    copy
}

/// Replaces the instructions by a copy of `code`.
pub(crate) fn copy_code(to: &mut ArrayVec<Instruction, 512>, code: &[Instruction])
    requires { length code.now ≤ MOST_INSTRUCTIONS }
    ensures { to.new.items ≡ code.now }
{
    to.clear();
    to.try_extend_from_slice(code).unwrap();
}

/// Replaces the variables by a copy of `variables`.
fn copy_variables(to: &mut ArrayVec<Option<Value>, 32>, variables: &ArrayVec<Option<Value>, 32>)
    ensures { to.new.items ≡ variables.now.items }
{
    to.clear();
    to.try_extend_from_slice(variables.as_slice()).unwrap();
}

/// Replaces the parameters by a copy of `parameters`.
fn copy_parameters(to: &mut ArrayVec<Value, 4>, parameters: &ArrayVec<Value, 4>)
    ensures { to.new.items ≡ parameters.now.items }
{
    to.clear();
    to.try_extend_from_slice(parameters.as_slice()).unwrap();
}

/// Replaces the input by a copy of `input`.
pub(crate) fn copy_input(to: &mut Input, input: &Input)
    ensures { to.new ≡ input.now }
{
    copy_variables(&mut to.variables, &input.variables);
    copy_parameters(&mut to.parameters, &input.parameters);
    to.sender = input.sender;
}

/// A copy of the effects.
pub(crate) fn copied_effects(effects: &ArrayVec<Effect, 32>) -> ArrayVec<Effect, 32>
    ensures { result.items ≡ effects.now.items }
{
    let mut copy = ArrayVec::new();
    for effect in effects.as_slice() {
        copy.push(effect.copy());
    }
    copy
}
