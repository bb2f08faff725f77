//! Retrieved messages of a link.
ghost use Rattle.std.specs.Prelude.{◌≡◌, [], All, length};
ghost use Rattle.resend_store.specs.Messages.{IsMessage};

use resend_store::Msu;
use std::alloc::Global;
use std::collections::VecDeque;
use std::marker::Model;
use std::mem;

/// A link's hand: the messages that it retrieved and that aren't diverted yet, in order (Q.704, retrieval).
#[derive(Drop)]
pub struct Hand {
    messages: VecDeque<Msu>,
}

impl Model for Hand {
    ghost use Rattle.std.specs.Prelude.{List, All};
    ghost use Rattle.resend_store.specs.Messages.{IsMessage};
    ghost use Rattle.resend_store.specs.declared.messages.Msu.{Msu as PlainMsu};

    ghost Value = { List PlainMsu };

    ghost view = { λ h. h.messages.items };

    ghost invariant = { λ h. All IsMessage h.messages.items };
}

impl Hand {
    /// An empty hand.
    pub(crate) fn empty(alloc: Global) -> Hand
        ensures { result ≡ [] }
    {
        Hand {
            messages: VecDeque::new(alloc),
        }
    }

    /// A hand with these messages.
    pub(crate) fn of(messages: VecDeque<Msu>) -> Hand
        requires { All IsMessage messages.items }
        ensures { result ≡ messages.items }
    {
        Hand { messages }
    }

    /// How many messages there are.
    pub fn len(&self) -> usize
        ensures { result ≡ length self.now }
    {
        self.messages.len()
    }

    /// Takes all messages out.
    pub(crate) fn take(&mut self) -> VecDeque<Msu>
        ensures messages { result.items ≡ self.old }
        ensures whole { All IsMessage result.items }
        ensures left { self.new ≡ [] }
    {
        let empty = VecDeque::new(*self.messages.allocator());
        mem::replace(&mut self.messages, empty)
    }
}
