//! Laws that follow from the definitions. A call does nothing at run time.

ghost use Rattle.actor_machine.specs.NameLaws.{ActorsLaw};

/// There are as many actors as processes have instances. They are numbered by process, then by instance. An actor's
/// number is the only place of its name. If each process has one instance, an actor has the number of its process.
pub fn actors_law()
    ensures { ActorsLaw }
{}
