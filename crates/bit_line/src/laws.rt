//! Laws over the definitions that the contracts of this crate cite. Each is the contract of a function without code.
ghost use Rattle.bit_line.specs.Laws.{OneEvents, StandsHaveEvents, EventsDecode, ClosingsArePaced, PassesThrough};

/// Line bits have one list of events.
pub fn one_events()
    ensures { OneEvents }
{}

/// Line bits that a deframer has taken have events.
pub fn stands_have_events()
    ensures { StandsHaveEvents }
{}

/// The octets of each unit that is reported for line bits are those of a signal unit.
pub fn events_decode()
    ensures { EventsDecode }
{}

/// Line bits close at most one content for each eight bits, and one for the rest: an octet closes at most one.
pub fn closings_are_paced()
    ensures { ClosingsArePaced }
{}

/// A deframer in normal mode, whose last bit ended a flag, reports exactly the units that a fresh stuffer puts on the
/// line after it.
pub fn passes_through()
    ensures { PassesThrough }
{}
