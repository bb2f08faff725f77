//! Laws that follow from the definitions. A call costs nothing at run time.
ghost use Rattle.draw_diff.specs.Runs.{RunsLaw};

/// Renamed code runs the same on all inputs that differ only in numbers: the same effects in the same order, the same
/// values of variables, the same count, and the same end, all compared by names.
pub fn runs_law()
    ensures { RunsLaw }
{}
