//! What a transition means on an input, the code of a transition, and laws. Code of this shape does what the transition
//! means, and its places are as far apart as the definitions count. `evaluate` gives the value of an expression.
#![tactic(auto)]

mod laws;
mod values;

pub use laws::values_law;
pub use values::evaluate;
