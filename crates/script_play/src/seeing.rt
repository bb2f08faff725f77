//! The command `play` with a view of its run in a file.
ghost use Rattle.std.specs.Prelude.{◌≡◌, ◌⊎◌, IfSome};
ghost use Rattle.script_check.specs.Checked.{given, IsAccepted};
ghost use Rattle.script_play.specs.Played.{IsOnSet, IsRefused};
ghost use Rattle.script_play.specs.Seen.{IsPlaySeen, IsPlaySeenInPart, IsTextCovered, IsTextCoveredInPart};
ghost use Rattle.script_play.specs.declared.seeing.Wanted.TheVariants.{Coverage as Covers};

use crate::captured_plays::play_captured;
use crate::covering::play_covered;
use crate::tracing::play_traced;
use crate::watching::{RunSummary, play_told};
use script_check::SetWord;
use std::alloc::Global;
use std::io::{Read, Write};

/// The view of a run that goes to a file.
#[derive(Clone, Copy, PartialEq, Eq, Debug)]
pub enum Wanted {
    /// A trace of events; `true`: also of those without effect.
    Trace(bool),
    /// A capture of the signal units sent and received; `true`: of every unit.
    Capture(bool),
    /// A report at the end.
    AtEnd(RunSummary),
    /// The coverage of the set's text, in the format of lcov.
    Coverage,
}

/// Runs a script as `play` does without an echo, and writes a view of the run to `out`. A trace or a capture is written
/// as the script runs. A chart, a report of discarded items, or the coverage of the set's text is written at the end,
/// or at an expectation that fails; `name` is the file name of the set's text.
///
/// Returns the exit status, as `play` does. It is also 4 in these cases: a write to `out` fails; a terminal's journal
/// restarts within a command (after 32,768 events); a link set's script has a view other than a capture; a book's
/// script has a capture; the set's text has more octets than allowed, with coverage.
pub fn play_seen<S: Read + Drop, R: Read + Drop, T: Write, W: Write, E: Write>(
    alloc: Global,
    set: SetWord<S>,
    name: &str,
    script: R,
    wanted: Wanted,
    out: &mut T,
    writer: &mut W,
    errors: &mut E,
) -> u8
    ensures accepted { (result ≡ 0) ⊎ (result ≡ 1) → IfSome (given S.remaining set) IsAccepted }
    ensures held { result ≡ 0
        → IsOnSet (given S.remaining set) (R.remaining script)
        (λ limits. IsPlaySeen limits wanted (W.contents writer.old) (W.contents writer.new) (T.contents out.old) (T.contents out.new)) }
    ensures missed { result ≡ 1
        → IsOnSet (given S.remaining set) (R.remaining script)
        (λ limits. IsPlaySeenInPart limits wanted (W.contents writer.old) (W.contents writer.new) (T.contents out.old) (T.contents out.new)) }
    ensures covered { result ≡ 0 → wanted ≡ Covers
        → IsOnSet (given S.remaining set) (R.remaining script)
        (λ limits. IsTextCovered name.now (given S.remaining set) limits (W.contents writer.old) (W.contents writer.new) (T.contents out.old) (T.contents out.new)) }
    ensures covered_in_part { result ≡ 1 → wanted ≡ Covers
        → IsOnSet (given S.remaining set) (R.remaining script)
        (λ limits. IsTextCoveredInPart name.now (given S.remaining set) limits (W.contents writer.old) (W.contents writer.new) (T.contents out.old) (T.contents out.new)) }
    ensures refused { result ≡ 2
        → IsRefused (given S.remaining set) (R.remaining script) (W.contents writer.old) (W.contents writer.new) }
    ensures status { (result ≡ 0) ⊎ (result ≡ 1) ⊎ (result ≡ 2) ⊎ (result ≡ 4) }
{
    match wanted {
        Wanted::Trace(every) => {
            play_traced(alloc, set, name, script, every, out, writer, errors)
        }
        Wanted::Capture(every) => {
            play_captured(alloc, set, name, script, every, out, writer, errors)
        }
        Wanted::Coverage => play_covered(alloc, set, name, script, out, writer, errors),
        Wanted::AtEnd(told) => { play_told(alloc, set, name, script, told, out, writer, errors) }
    }
}
