//! The command `check`: whether a text is accepted, and what its transitions cost.
ghost use Rattle.std.specs.Prelude.{◌≡◌, ◌⊎◌, ◌++◌, IfSome, OnOk};
ghost use Rattle.std.specs.Io.KnownBytes.{Appends};
ghost use Rattle.script_check.specs.Checked.{given, IsGiven, IsAccepted, IsNotAccepted, IsRefusal, PrintsCosts, PrintsPointed, PrintsRefusal};
ghost use Rattle.script_check.specs.Printed.{limit_line, refusal_line};

use crate::costs::write_set;
use crate::sets::{Refusal, SetFault, SetWord, find_set};
use plain_text::{DONE, FAILED, REFUSED, refuse};
use script_point::LimitName;
use std::alloc::Global;
use std::io::{self, Read, Write};

/// As [`check_telling`], but says nowhere which place of a refused text is at fault.
pub fn check<R: Read + Drop, W: Write>(alloc: Global, set: SetWord<R>, writer: &mut W) -> u8
    ensures held { result ≡ 0 → IfSome (given R.remaining set) IsAccepted }
    ensures refused { result ≡ 2 → IfSome (given R.remaining set) IsNotAccepted }
    ensures costs { result ≡ 0 → IsGiven (given R.remaining set) (PrintsCosts (W.contents writer.old) (W.contents writer.new)) }
    ensures refusal { result ≡ 2 → IsGiven (given R.remaining set) (PrintsRefusal (W.contents writer.old) (W.contents writer.new)) }
    ensures status { (result ≡ 0) ⊎ (result ≡ 2) ⊎ (result ≡ 4) }
{
    check_telling(alloc, set, "", writer, &mut io::sink())
}

/// Prints the cost of each transition, then `accepted`. Each process has a line `PROCESS START budget B depth D effects
/// E`, then a line `PROCESS STATE/INPUT ..` for each input of its states, in the order of the text. The whole text is
/// read before any output; each line is one write. If the text is refused, its name and the lines that point at the
/// place go to `errors` in one write.
///
/// Returns the exit status: 0 if every line was written; 2 after only a line `refused CODE Name ..`, with ` line N` if
/// the fault has a place; 4 if memory runs out or a read or write fails. Nothing is written after a failed write.
pub fn check_telling<R: Read + Drop, W: Write, E: Write>(
    alloc: Global,
    set: SetWord<R>,
    name: &str,
    writer: &mut W,
    errors: &mut E,
) -> u8
    ensures held { result ≡ 0 → IfSome (given R.remaining set) IsAccepted }
    ensures refused { result ≡ 2 → IfSome (given R.remaining set) IsNotAccepted }
    ensures costs { result ≡ 0 → IsGiven (given R.remaining set) (PrintsCosts (W.contents writer.old) (W.contents writer.new)) }
    ensures refusal { result ≡ 2 → IsGiven (given R.remaining set) (PrintsRefusal (W.contents writer.old) (W.contents writer.new)) }
    ensures pointed { result ≡ 2 → IsGiven (given R.remaining set)
        (PrintsPointed name.now (W.contents writer.old) (W.contents writer.new) (E.contents errors.old) (E.contents errors.new)) }
    ensures status { (result ≡ 0) ⊎ (result ≡ 2) ⊎ (result ≡ 4) }
{
    match find_set(alloc, set) {
        Ok(found) => match write_set(alloc, writer, &found.set) {
            Ok(()) => DONE,
            Err(_) => FAILED,
        },
        Err(refusal) => refuse_set(alloc, name, &refusal, writer, errors),
    }
}

/// Writes a refusal's line, then the lines that point at it. Returns 2, or 4 if no text is refused or a write fails.
pub fn refuse_set<W: Write, E: Write>(
    alloc: Global,
    name: &str,
    refusal: &Refusal,
    writer: &mut W,
    errors: &mut E,
) -> u8
    ensures refused { result ≡ 2 → IsRefusal refusal.now.fault }
    ensures printed { result ≡ 2 → Appends (W.contents writer.old) (W.contents writer.new) (refusal_line refusal.now.fault) }
    ensures told { result ≡ 2 → Appends (E.contents errors.old) (E.contents errors.new) (name.now ++ refusal.now.pointed.items) }
    ensures status { (result ≡ 2) ⊎ (result ≡ 4) }
{
    if write_refusal(alloc, writer, &refusal.fault) != REFUSED {
        return FAILED;
    }
    match tell_refusal(alloc, errors, name, refusal) {
        Ok(()) => REFUSED,
        Err(_) => FAILED,
    }
}

/// Writes where a named text is refused, in one write.
pub fn tell_refusal<E: Write>(
    alloc: Global,
    errors: &mut E,
    name: &str,
    refusal: &Refusal,
) -> io::Result<()>
    ensures { OnOk result (Appends (E.contents errors.old) (E.contents errors.new) (name.now ++ refusal.now.pointed.items)) }
{
    let mut lines = Vec::new(alloc);
    lines.extend_from_slice(name.as_bytes())?;
    lines.extend_from_slice(&refusal.pointed)?;
    errors.write_all(&lines)
}

/// Writes the line of a refusal. Returns the exit status: 2, or 4 if no text is refused or the write fails.
pub fn write_refusal<W: Write>(alloc: Global, writer: &mut W, fault: &SetFault) -> u8
    ensures refused { result ≡ 2 → IsRefusal fault.now }
    ensures printed { result ≡ 2 → Appends (W.contents writer.old) (W.contents writer.new) (refusal_line fault.now) }
    ensures status { (result ≡ 2) ⊎ (result ≡ 4) }
{
    if fault.is_failure() {
        return FAILED;
    }
    refuse(alloc, writer, &format_args!("refused {fault}"))
}

/// Writes that a limit of forced retransmission of a text is out of its range: `refused X2 NoName N1`. Returns the exit
/// status.
pub fn refuse_limit<W: Write>(alloc: Global, writer: &mut W, limit: LimitName) -> u8
    ensures printed { result ≡ 2 → Appends (W.contents writer.old) (W.contents writer.new) (limit_line limit) }
    ensures status { (result ≡ 2) ⊎ (result ≡ 4) }
{
    refuse(alloc, writer, &format_args!("refused X2 NoName {limit}"))
}
