//! A terminal that runs the processes named on the command line.
ghost use Rattle.std.specs.Prelude.{◌≡◌, ◌⊎◌, ◌++◌, IfOk, IfErr};
ghost use Rattle.script_check.specs.Checked.{given, IsGiven, IsRefusal};
ghost use Rattle.script_ends.specs.Opening.{IsOverWithin};
ghost use Rattle.script_ends.specs.TermRuns.{LacksName, PrintsLacking};
ghost use Rattle.line_play.specs.Opening.{IsNewOver, IsNoSet, IsRefusalTold};

use plain_text::{FAILED, REFUSED, refuse};
use script_check::{Refusal, SetWord, find_set, refuse_limit, tell_refusal, write_refusal};
use script_ends::{Mode, OpenError, RoundLimits, Terminal};
use std::alloc::Global;
use std::io::{Read, Write};
use turn_check::Verified;

/// Writes why no terminal can be made from a process set. Returns the exit status.
pub(crate) fn refuse_name<E: Write>(alloc: Global, errors: &mut E, error: OpenError) -> u8
    ensures printed { result ≡ 2 → PrintsLacking error (E.contents errors.old) (E.contents errors.new) }
    ensures status { (result ≡ 2) ⊎ (result ≡ 4) }
{
    match error {
        OpenError::NoName(_) => refuse(alloc, errors, &format_args!("refused {error}")),
        OpenError::NoMemory => FAILED,
    }
}

/// Writes why a text is refused, and then the lines that point at the place, after the text's name. Returns the exit
/// status.
pub(crate) fn refuse_text<E: Write>(
    alloc: Global,
    name: &str,
    errors: &mut E,
    refusal: &Refusal,
) -> u8
    ensures refused { result ≡ 2 → IsRefusal refusal.now.fault }
    ensures told { result ≡ 2 → IsRefusalTold refusal.now.fault (name.now ++ refusal.now.pointed.items) (E.contents errors.old) (E.contents errors.new) }
    ensures status { (result ≡ 2) ⊎ (result ≡ 4) }
{
    if write_refusal(alloc, errors, &refusal.fault) != REFUSED {
        return FAILED;
    }
    match tell_refusal(alloc, errors, name, refusal) {
        Ok(()) => REFUSED,
        Err(_) => FAILED,
    }
}

/// Returns a terminal that runs a process set, with these limits.
fn open_within<E: Write>(
    alloc: Global,
    limits: RoundLimits,
    mode: Mode,
    set: &Verified,
    errors: &mut E,
) -> Result<Terminal, u8>
    ensures ok { IfOk result (IsOverWithin set.now limits mode) }
    ensures refused { IfErr result (λ status. status ≡ 2 → LacksName set.now (E.contents errors.old) (E.contents errors.new)) }
    ensures status { IfErr result (λ status. (status ≡ 2) ⊎ (status ≡ 4)) }
{
    match Terminal::of_set_within(alloc, limits, mode, set) {
        Ok(terminal) => Ok(terminal),
        Err(error) => Err(refuse_name(alloc, errors, error)),
    }
}

/// The chosen limits of forced retransmission.
#[derive(Clone, Copy, Debug, PartialEq, Eq)]
pub struct ChosenLimits {
    /// N1, 1 to 127 messages, if it is chosen.
    pub messages: Option<u8>,
    /// N2, 300 to 8,192 octets, if it is chosen.
    pub octets: Option<u16>,
}

/// Returns a terminal that runs a process set, out of service and before power-on. The limits of forced retransmission
/// are those that are chosen, else those of the set's text. They apply only with preventive cyclic retransmission.
///
/// # Errors
///
/// The exit status. 2: the text is refused, has a limit out of its range, or lacks a name that a terminal needs;
/// `errors` then has the lines about it (`refused CODE Name ..` and those that point at the place, or
/// `refused X2 NoName NAME`). 4: out of memory, or a read or that write failed.
pub fn new_terminal<S: Read + Drop, E: Write>(
    alloc: Global,
    chosen: ChosenLimits,
    mode: Mode,
    name: &str,
    set: SetWord<S>,
    errors: &mut E,
) -> Result<Terminal, u8>
    ensures ok { IfOk result (λ t. IsGiven (given S.remaining set) (IsNewOver chosen mode t)) }
    ensures refused { IfErr result (λ status. status ≡ 2 → IsGiven (given S.remaining set) (IsNoSet name.now chosen mode (E.contents errors.old) (E.contents errors.new))) }
    ensures status { IfErr result (λ status. (status ≡ 2) ⊎ (status ≡ 4)) }
{
    match find_set(alloc, set) {
        Ok(found) => match found.limits.within(mode, chosen.messages, chosen.octets) {
            Ok(limits) => open_within(alloc, limits, mode, &found.set, errors),
            Err(limit) => Err(refuse_limit(alloc, errors, limit)),
        },
        Err(refusal) => Err(refuse_text(alloc, name, errors, &refusal)),
    }
}
