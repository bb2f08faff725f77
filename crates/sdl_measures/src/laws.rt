//! What follows from the definitions only. The call costs nothing.
ghost use Rattle.sdl_sound.specs.Laws.{BudgetLaw};

/// No walk through a transition costs more instructions than its code has, if no JOIN leads back to its connection.
pub fn budget_law()
    ensures { BudgetLaw }
{}
