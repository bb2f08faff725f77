//! Opening and copying a link.

ghost use Rattle.std.specs.Prelude.{◌≡◌, ◌≤◌, ◌<◌, ◌+◌, ◌++◌, [], length, map, sum_by, IfOk, OnOk};
ghost use Rattle.std.specs.List.{AllByRecursion};
ghost use Rattle.actor_machine.specs.Names.{instances_from};
ghost use Rattle.actor_machine.specs.Kept.{opened, opened_actor, opened_from};
ghost use Rattle.turn_code.specs.declared.draft.DraftProcess.{DraftProcess as PlainProcess};
ghost use Rattle.actor_state.specs.Opening.{HasFew};
ghost use Rattle.plain_laws.specs.Limits.{LEAST_PORT, MOST_ACTORS, MOST_PORT, MOST_PROCESSES};

use crate::link_actors::LinkActors;
use crate::ring::Ring;
use actor_machine::{Actor, ActorName, Given, Standing};
use input_port::Port;
use std::alloc::{AllocError, Global};
use tick_wheel::Wheel;
use turn_check::{Verified, initial_values_of};
use turn_code::{DraftProcess, InstanceNumber, Place, ProcessNumber, copied_variables};

/// An actor of a process before its START, with a port for `port` signals. `AllocError` if memory runs out.
fn opened_actor(
    alloc: Global,
    process: &DraftProcess,
    name: ActorName,
    port: usize,
) -> Result<Actor, AllocError>
    requires least { LEAST_PORT ≤ port }
    requires most { port ≤ MOST_PORT }
    requires few { HasFew process.now }
    ensures { IfOk result (λ actor. actor ≡ opened_actor port process.now name) }
{
    Ok(Actor {
        name,
        standing: Standing::At(Place::Start),
        variables: initial_values_of(process.variables.as_slice()),
        port: Port::new(alloc, port)?,
        given: None,
    })
}

/// A copy of an actor's turn, if it has one out.
pub(crate) fn copied_given(given: &Option<Given>) -> Option<Given>
    ensures { result ≡ given.now }
{
    match given {
        Some(given) => Some(Given {
            turn: given.turn,
            number: given.number,
            input: given.input.copy(),
        }),
        None => None,
    }
}

/// An equal actor, or `AllocError` if memory runs out.
fn copied_actor(actor: &Actor) -> Result<Actor, AllocError>
    ensures { IfOk result (λ copy. copy ≡ actor.now) }
{
    Ok(Actor {
        name: actor.name,
        standing: actor.standing,
        variables: copied_variables(&actor.variables),
        port: actor.port.copy()?,
        given: copied_given(&actor.given),
    })
}

/// Adds the actors of one process: each of its instances before its START, with a port for `port` signals.
fn open_process(
    alloc: Global,
    actors: &mut Vec<Actor>,
    number: u8,
    process: &DraftProcess,
    port: usize,
) -> Result<(), AllocError>
    requires least { LEAST_PORT ≤ port }
    requires most { port ≤ MOST_PORT }
    requires few { HasFew process.now }
    ensures { OnOk result (actors.new.items ≡ actors.old.items ++ map (opened_actor port process.now) (instances_from number 1 process.now.instances)) }
{
    let count = process.instances as u8;
    for done in 0..count {
        let name = ActorName {
            process: ProcessNumber(number),
            instance: InstanceNumber(done + 1),
        };
        actors.push(opened_actor(alloc, process, name, port)?)?;
    }
    Ok(())
}

/// The number of instances of all processes.
fn count_actors(processes: &[DraftProcess]) -> usize
    requires few { AllByRecursion HasFew processes.now }
    requires count { length processes.now ≤ MOST_PROCESSES }
    ensures { result ≡ sum_by (λ (p : PlainProcess). p.instances) processes.now }
{
    let mut count = 0;
    for process in processes {
        count += process.instances as usize;
    }
    count
}

/// The actors of all processes before their START, with a port for `port` signals each. The list is allocated at once.
fn opened_actors(
    alloc: Global,
    processes: &[DraftProcess],
    port: usize,
) -> Result<Vec<Actor>, AllocError>
    requires least { LEAST_PORT ≤ port }
    requires most { port ≤ MOST_PORT }
    requires few { AllByRecursion HasFew processes.now }
    requires count { length processes.now ≤ MOST_PROCESSES }
    ensures actors { IfOk result (λ actors. actors.items ≡ opened_from port 0 processes.now) }
    ensures few { IfOk result (λ actors. length actors.items ≤ MOST_ACTORS) }
{
    let mut actors = Vec::with_capacity(alloc, count_actors(processes))?;
    let mut number = 0;
    for process in processes {
        open_process(alloc, &mut actors, number, process, port)?;
        number += 1;
    }
    Ok(actors)
}

/// Equal actors, or `AllocError` if memory runs out.
fn copied_actors(alloc: Global, actors: &[Actor]) -> Result<Vec<Actor>, AllocError>
    ensures { IfOk result (λ copy. copy.items ≡ actors.now) }
{
    let mut copy = Vec::with_capacity(alloc, actors.len())?;
    for actor in actors {
        copy.push(copied_actor(actor)?)?;
    }
    Ok(copy)
}

/// The processes of a set.
fn processes_of(set: &Verified) -> &[DraftProcess]
    ensures value { result.now ≡ set.now.processes }
    ensures few { AllByRecursion HasFew result.now }
    ensures count { length result.now ≤ MOST_PROCESSES }
{
    set.draft().processes.as_slice()
}

impl LinkActors {
    /// The opened link of a set: each instance of each process is an actor before its START, with a port for `port`
    /// signals. There is room for `env` signals to the environment. `AllocError` if memory runs out.
    pub fn open(
        alloc: Global,
        set: &Verified,
        port: usize,
        env: usize,
    ) -> Result<LinkActors, AllocError>
        requires least { LEAST_PORT ≤ port }
        requires most { port ≤ MOST_PORT }
        ensures { IfOk result (λ link. link ≡ opened set.now port env) }
    {
        let actors = opened_actors(alloc, processes_of(set), port)?;
        let wheel = Wheel::new(alloc)?;
        let ring = Ring::new(alloc, env)?;
        Ok(LinkActors {
            actors,
            wheel,
            ring,
            turns: 0,
            finishes: 0,
            instructions: 0,
        })
    }

    /// An equal link, or `AllocError` if memory runs out.
    pub fn copy(&self) -> Result<LinkActors, AllocError>
        ensures { IfOk result (λ link. link ≡ self.now) }
    {
        let alloc = *self.actors.allocator();
        let actors = copied_actors(alloc, &self.actors)?;
        let wheel = self.wheel.copy()?;
        let ring = self.ring.copy()?;
        Ok(LinkActors {
            actors,
            wheel,
            ring,
            turns: self.turns,
            finishes: self.finishes,
            instructions: self.instructions,
        })
    }
}
