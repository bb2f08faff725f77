//! The views of a run, from the command line.
ghost use Rattle.std.specs.Prelude.{IfSome, IsNone};
ghost use Rattle.mtp2_words.specs.Asked.{given_by, AsksSeen, SaysNoSeeing};

use crate::flags::is_given;
use crate::seeing::{Seeing, SeeingWords, seen_by};
use clap::ArgMatches;

/// The views of a run, from the matches of `play`.
pub(crate) fn seen_of<'a>(given: &ArgMatches<'a>) -> Option<Seeing<'a>>
    ensures some { IfSome result (AsksSeen (given_by given.now)) }
    ensures none { IsNone result → SaysNoSeeing (given_by given.now) }
{
    seen_by(&SeeingWords {
        echo: is_given(given.get_str("echo")),
        trace: given.get_str("trace"),
        chart: given.get_str("chart"),
        turns: given.get_str("turns"),
        coverage: given.get_str("coverage"),
        thrown: given.get_str("thrown"),
        capture: given.get_str("capture"),
        every: is_given(given.get_str("every")),
    })
}
