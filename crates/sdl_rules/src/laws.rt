//! Laws that follow from the definitions. Their calls cost nothing.
ghost use Rattle.sdl_rules.specs.Laws.{PlainLaw, SynonymsLaw};

/// Law: a text without synonyms means what is written, and is accepted and refused as that.
pub fn plain_law()
    ensures { PlainLaw }
{}

/// Law: if the declarations of a text break no rule, each synonym has the value of its expression.
pub fn synonyms_law()
    ensures { SynonymsLaw }
{}
