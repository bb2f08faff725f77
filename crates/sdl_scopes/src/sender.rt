//! The sender of the input that begins a transition.
ghost use Rattle.std.specs.Prelude.{◌≡◌, ◌∷◌, [], IfOk};
ghost use Rattle.sdl_scopes.specs.declared.sender.Sender.TheVariants as sent_by;

use sdl_ast::Party;
use std::alloc::{AllocError, Global};

/// A party with its number. Two parties with the same number are the same.
#[derive(Clone, Copy)]
pub struct Numbered {
    pub party: Party,
    /// The number of its process, or the number of processes for the environment; `None` if there is no such process.
    pub number: Option<usize>,
}

/// The sender of the input that begins a transition.
#[derive(Clone, Copy)]
pub enum Sender {
    /// No sender: the transition begins with START or a timer.
    Nobody,
    /// A party that sends by a route.
    Party(Numbered),
}

/// A list with `Nobody` as the only sender.
pub fn nobody(alloc: Global) -> Result<Vec<Sender>, AllocError>
    ensures { IfOk result (λ v. v.items ≡ sent_by.Nobody ∷ []) }
{
    Ok(vec![in alloc; Sender::Nobody]?)
}
