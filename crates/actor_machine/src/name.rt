//! The names of actors.

ghost use Rattle.std.specs.Prelude.{◌≡◌};
ghost use Rattle.actor_machine.specs.Names.{same_actor, address_of};

use turn_code::{Address, InstanceNumber, Party, ProcessNumber};

/// The name of an actor: its process and the number of its instance.
#[derive(Clone, Copy, PartialEq, Eq, Debug)]
pub struct ActorName {
    pub process: ProcessNumber,
    pub instance: InstanceNumber,
}

impl ActorName {
    /// Whether both names are of the same actor.
    pub fn same(self, other: ActorName) -> bool
        ensures { result ≡ same_actor self other }
    {
        if self.process.0 == other.process.0 {
            self.instance.0 == other.instance.0
        } else {
            false
        }
    }

    /// The actor as the sender or the receiver of a signal.
    pub fn address(self) -> Address
        ensures { result ≡ address_of self }
    {
        Address {
            party: Party::Process(self.process),
            instance: Some(self.instance),
        }
    }
}
