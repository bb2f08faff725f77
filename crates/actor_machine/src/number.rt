//! Actors by number.

ghost use Rattle.std.specs.Prelude.{◌≡◌, ◌≤◌, ◌<◌, ◌*◌, Some, length};
ghost use Rattle.actor_machine.specs.Names.{named, actors_of, place_of};
ghost use Rattle.plain_laws.specs.Limits.{MOST_INSTANCES};

use crate::name::ActorName;
use turn_check::Verified;
use turn_code::ProcessNumber;

/// The number of an actor of a set, from 0; none if there is no such actor.
pub fn number_of(set: &Verified, name: ActorName) -> Option<u16>
    ensures { result ≡ place_of name (actors_of set.now.processes) }
{
    let _valid = set.draft();
    let instance = name.instance.0;
    if instance < 1 {
        return None;
    }
    let most = set.instances(name.process);
    let wanted = u32::from(instance);
    if most < wanted {
        return None;
    }
    Some(first_of(set, name.process) + u16::from(instance) - 1)
}

/// The number of the first instance of a process of a set.
pub fn first_of(set: &Verified, process: ProcessNumber) -> u16
    requires { process.0 < length set.now.processes }
    ensures number { place_of (named process.0 1) (actors_of set.now.processes) ≡ Some result }
    ensures few { result ≤ MOST_INSTANCES * process.0 }
{
    let _valid = set.draft();
    let mut count = 0;
    for number in 0..process.0 {
        count += set.instances(ProcessNumber(number)) as u16;
    }
    count
}
