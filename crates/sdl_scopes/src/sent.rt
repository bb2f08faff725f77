//! Senders of the inputs that begin transitions, and the connections that those transitions reach.
ghost use Rattle.std.specs.Prelude.{◌≡◌, map, IfOk};
ghost use Rattle.sdl_scopes.specs.Reaches.{is_marked, sent_of, senders_in};

use crate::sender::Sender;
use std::alloc::{AllocError, Global};

/// Whether there is a mark at this index, and it is set.
pub fn is_marked(marks: &[bool], number: usize) -> bool
    ensures { result ≡ is_marked marks.now number }
{
    match marks.get(number) {
        Some(mark) => *mark,
        None => false,
    }
}

/// A possible sender of inputs, and a mark for each connection that the transitions of those inputs reach.
#[derive(Drop)]
pub struct Sent {
    pub sender: Sender,
    pub reached: Vec<bool>,
}

/// The possible senders of the inputs whose transitions reach a connection.
pub fn senders_at(alloc: Global, sent: &[Sent], number: usize) -> Result<Vec<Sender>, AllocError>
    ensures { IfOk result (λ v. v.items ≡ senders_in (map sent_of sent.now) number) }
{
    let mut senders = Vec::new(alloc);
    for one in sent {
        if is_marked(&one.reached, number) {
            senders.push(one.sender)?;
        }
    }
    Ok(senders)
}
