//! Words that name actors.

ghost use Rattle.std.specs.Prelude.{◌≡◌, option_map};
ghost use Rattle.turn_check.specs.Named.{process_names};
ghost use Rattle.script_lines.specs.ActorWords.{number_of, process_part, instance_part, actor_at, called_by, actor_called};

use crate::numbers::count;
use actor_machine::{ActorName, number_of};
use turn_check::Verified;
use turn_code::{InstanceNumber, ProcessNumber};

/// An actor, by its name and its number.
#[derive(Clone, Copy, PartialEq, Eq, Debug)]
pub struct Called {
    pub name: ActorName,
    pub number: u16,
}

/// The name of a process in a word: the part before its first `.`, or the whole word.
fn process_part(word: &str) -> &str
    ensures { result.now ≡ process_part word.now }
{
    match word.split_once('.') {
        Some((process, _)) => process,
        None => word,
    }
}

/// The instance that a word names: the number after its first `.`, if one follows; 1 if there is no `.`.
fn instance_part(word: &str) -> Option<u32>
    ensures { result ≡ instance_part word.now }
{
    match word.split_once('.') {
        Some((_, instance)) => count(instance),
        None => Some(1),
    }
}

/// The first process with this name, without regard to case.
fn process_named(set: &Verified, name: &str) -> Option<ProcessNumber>
    ensures { option_map (λ p. p.0) result ≡ number_of (process_names set.now) name.now }
{
    set.process_of(name)
}

/// The actor that is an instance of a process, if it exists.
fn actor_at(set: &Verified, process: ProcessNumber, instance: u32) -> Option<Called>
    ensures { result ≡ actor_at set.now process.0 instance }
{
    let most = set.instances(process);
    if most < instance {
        return None;
    }
    let name = ActorName {
        process,
        instance: InstanceNumber(instance as u8),
    };
    match number_of(set, name) {
        Some(number) => Some(Called { name, number }),
        None => None,
    }
}

/// The actor of a process and an instance, if both are given and it exists.
fn called_by(
    set: &Verified,
    process: Option<ProcessNumber>,
    instance: Option<u32>,
) -> Option<Called>
    ensures { result ≡ called_by set.now (option_map (λ p. p.0) process) instance }
{
    match process {
        Some(process) => match instance {
            Some(instance) => actor_at(set, process, instance),
            None => None,
        },
        None => None,
    }
}

/// The actor of a set that a word names. `P.k` is instance k of the first process named P, in upper or lower case; k
/// may have leading zeros. `P` is `P.1`.
pub fn actor_called(set: &Verified, word: &str) -> Option<Called>
    ensures { result ≡ actor_called set.now word.now }
{
    called_by(
        set,
        process_named(set, process_part(word)),
        instance_part(word),
    )
}
