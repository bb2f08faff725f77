//! Laws that follow from the definitions. Their calls cost nothing.
ghost use Rattle.sdl_meaning.specs.Valued.{ValuesLaw};

/// Law: in a turn an expression has its value by the values of the variables.
pub fn values_law()
    ensures { ValuesLaw }
{}
