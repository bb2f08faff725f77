//! Laws that follow from the definitions. Each is a function without code.

ghost use Rattle.tick_wheel.specs.Timers.{DueLaw};

/// The timers due at a clock, in any map, are those whose deadline is at most the clock, each once, by deadline, then
/// by actor, then by number.
pub fn due_law()
    ensures { DueLaw }
{}
