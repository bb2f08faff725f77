//! The verbs of the commands that only a terminal's script has.
ghost use Rattle.std.specs.Prelude.{◌≡◌};
ghost use Rattle.script_links.specs.TermCommands.{term_verb_of};

/// The kind of a command that only a terminal's script has.
#[derive(Clone, Copy, PartialEq, Eq, Debug)]
pub enum TermVerb {
    /// `command`.
    Order,
    /// `unit`.
    Unit,
    /// `line`.
    Line,
    /// `msu`.
    Msu,
    /// `out`.
    Out,
    /// `errors`.
    Errors,
    /// `retrieve`.
    Retrieve,
    /// `measure`.
    Measure,
}

/// The command that a word begins; the case of letters matters.
pub fn term_verb_in(word: &str) -> Option<TermVerb>
    ensures { result ≡ term_verb_of word.now }
{
    match word {
        "command" => Some(TermVerb::Order),
        "unit" => Some(TermVerb::Unit),
        "line" => Some(TermVerb::Line),
        "msu" => Some(TermVerb::Msu),
        "out" => Some(TermVerb::Out),
        "errors" => Some(TermVerb::Errors),
        "retrieve" => Some(TermVerb::Retrieve),
        "measure" => Some(TermVerb::Measure),
        _ => None,
    }
}
