//! The command `play` without the lines beside its output.
ghost use Rattle.std.specs.Prelude.{◌≡◌, ◌⊎◌, IfSome, false};
ghost use Rattle.script_check.specs.Checked.{given, IsAccepted};
ghost use Rattle.script_play.specs.Played.{IsPlayed, IsPlayedInPart, IsOnSet, IsRefused};

use crate::playing::play_telling;
use script_check::SetWord;
use std::alloc::Global;
use std::io::{self, Read, Write};

/// As [`play_telling`], without the script's lines in the output, and without a reason for a refusal.
pub fn play<S: Read + Drop, R: Read + Drop, W: Write>(
    alloc: Global,
    set: SetWord<S>,
    script: R,
    writer: &mut W,
) -> u8
    ensures accepted { (result ≡ 0) ⊎ (result ≡ 1) → IfSome (given S.remaining set) IsAccepted }
    ensures held { result ≡ 0
        → IsOnSet (given S.remaining set) (R.remaining script) (λ limits. IsPlayed limits false (W.contents writer.old) (W.contents writer.new)) }
    ensures missed { result ≡ 1
        → IsOnSet (given S.remaining set) (R.remaining script) (λ limits. IsPlayedInPart limits false (W.contents writer.old) (W.contents writer.new)) }
    ensures refused { result ≡ 2
        → IsRefused (given S.remaining set) (R.remaining script) (W.contents writer.old) (W.contents writer.new) }
    ensures status { (result ≡ 0) ⊎ (result ≡ 1) ⊎ (result ≡ 2) ⊎ (result ≡ 4) }
{
    play_telling(alloc, set, "", script, false, writer, &mut io::sink())
}
