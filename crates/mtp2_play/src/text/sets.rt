//! The built-in sets, and the names of sets.
ghost use Rattle.std.specs.Prelude.{◌≡◌};
ghost use Rattle.script_check.specs.Checked.{own_word};
ghost use Rattle.mtp2_play.specs.Sets.{word_text};

use mtp2_words::{Named, OwnSet};
use script_check::SetWord;

/// The name of standard input in the report of a failed read.
pub const STDIN: &str = "standard input";

/// Returns a built-in set, which needs no reader.
pub fn own_set<'a>(own: OwnSet) -> SetWord<&'a [u8]>
    ensures { result ≡ own_word own }
{
    SetWord::of_own(own)
}

/// The word that names a set.
pub fn set_word<'a>(set: &Named<'a>) -> &'a str
    ensures { result.now ≡ word_text set.now }
{
    match set {
        Named::Own(own) => own.word(),
        Named::Stdin => "stdin",
        Named::File(path) => path,
    }
}
