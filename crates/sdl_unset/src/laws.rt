//! What follows from the definitions only. The call costs nothing.
ghost use Rattle.sdl_sound.specs.Laws.{ChancesLaw};

/// Whatever the statements of a transition of a sound process, taken one after another, may do to a variable, some walk
/// of the transition does.
pub fn chances_law()
    ensures { ChancesLaw }
{}
