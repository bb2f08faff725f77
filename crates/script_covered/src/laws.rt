//! Laws that follow from the definitions. A call costs nothing at run time.
ghost use Rattle.script_covered.specs.Meant.{WayLaw};

/// If a turn ends by the meaning of its text, its path through the text comes to the same end with the same variables.
pub fn way_law()
    ensures { WayLaw }
{}
