//! What follows from the definitions only. The call costs nothing.

ghost use Rattle.sdl_compile.specs.Meaning.{MeaningLaw};
ghost use Rattle.sdl_compile.specs.Meant.{SetLaw};

/// In the draft of a sound block, on each input that fits, the run of each transition is the meaning of the text: its
/// effects, its variables, its end and its count.
pub fn meaning_law()
    ensures { MeaningLaw }
{}

/// The draft of a sound block means what the block means, as a function of the place and the input. Each certificate
/// names the longest path of the block's transition at the same place.
pub fn set_law()
    ensures { SetLaw }
{}
