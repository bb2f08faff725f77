//! The place where a transition begins, and the input that it runs on.

ghost use Rattle.std.specs.Prelude.{◌≡◌, ⊤};

use crate::numbers::{InstanceNumber, ProcessNumber, StateNumber};
use crate::value::Value;
use arrayvec::ArrayVec;
use std::alloc::AllocError;

/// Where a process is: at START, or in a state.
#[derive(Clone, Copy, PartialEq, Eq, Debug)]
pub enum Place {
    /// Before its START transition.
    Start,
    /// In a state.
    State(StateNumber),
}

/// An end of a route.
#[derive(Clone, Copy, PartialEq, Eq, Debug)]
pub enum Party {
    /// The environment, ENV.
    Environment,
    /// A process of the set.
    Process(ProcessNumber),
}

/// The sender or the receiver of a signal.
#[derive(Clone, Copy, PartialEq, Eq, Debug)]
pub struct Address {
    /// ENV, or the process.
    pub party: Party,
    /// The instance of the process; none for ENV, and if no instance is named.
    pub instance: Option<InstanceNumber>,
}

/// The input of a transition: variables, parameters and sender.
#[derive(Drop)]
pub struct Input {
    /// The value of each variable of the process; none for a variable that isn't set.
    pub variables: ArrayVec<Option<Value>, 32>,
    /// The parameters of the signal.
    pub parameters: ArrayVec<Value, 4>,
    /// The sender of the signal; START and timers ignore it.
    pub sender: Option<Address>,
}

impl Input {
    /// A copy of the input. It allocates no memory.
    pub fn copy(&self) -> Input
        ensures { result ≡ self.now }
    {
        Input {
            variables: copied_variables(&self.variables),
            parameters: copied_values(&self.parameters),
            sender: self.sender,
        }
    }
}

impl Clone for Input {
    ghost is_clone = { λ x y. y ≡ x };

    ghost is_infallible = { λ _. ⊤ };

    fn clone(&self) -> Result<Input, AllocError> {
        Ok(self.copy())
    }
}

/// A copy of the variables. It allocates no memory.
pub fn copied_variables(variables: &ArrayVec<Option<Value>, 32>) -> ArrayVec<Option<Value>, 32>
    ensures { result ≡ variables.now }
{
    match ArrayVec::try_from(variables.as_slice()) {
        Ok(copy) => copy,
        Err(_) => unreachable!(),
    }
}

/// A copy of the values. It allocates no memory.
pub fn copied_values(values: &ArrayVec<Value, 4>) -> ArrayVec<Value, 4>
    ensures { result ≡ values.now }
{
    match ArrayVec::try_from(values.as_slice()) {
        Ok(copy) => copy,
        Err(_) => unreachable!(),
    }
}
