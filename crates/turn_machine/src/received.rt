//! The signal that an input brings.

ghost use Rattle.std.specs.Prelude.{◌≡◌, ◌↔◌, IsTrue, ⊤};

use arrayvec::ArrayVec;
use std::alloc::AllocError;
use turn_code::{Address, Value, copied_values, same_values};

/// The parameters and the sender that an input brings to a transition.
#[derive(Drop)]
pub struct Received {
    /// The parameters of the signal; none at START.
    pub parameters: ArrayVec<Value, 4>,
    /// The sender of the signal; START and timers ignore it.
    pub sender: Option<Address>,
}

impl Received {
    /// A copy. It allocates no memory.
    pub fn copy(&self) -> Received
        ensures { result ≡ self.now }
    {
        Received {
            parameters: copied_values(&self.parameters),
            sender: self.sender,
        }
    }

    /// Whether both have equal parameters and the same sender.
    pub fn same(&self, other: &Received) -> bool
        ensures { IsTrue result ↔ (self.now ≡ other.now) }
    {
        same_values(self.parameters.as_slice(), other.parameters.as_slice())
            && self.sender == other.sender
    }
}

impl Clone for Received {
    ghost is_clone = { λ x y. y ≡ x };

    ghost is_infallible = { λ _. ⊤ };

    fn clone(&self) -> Result<Received, AllocError> {
        Ok(self.copy())
    }
}
