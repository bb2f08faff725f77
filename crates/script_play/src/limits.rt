//! The limits of forced retransmission of a script's terminals: those of its first line, else those of the text.
ghost use Rattle.std.specs.Prelude.{◌≡◌, Some, IfOk, IfErr};
ghost use Rattle.script_links.specs.TermScripts.{plain_any_script};
ghost use Rattle.script_links.specs.GroupScripts.{plain_play_script};
ghost use Rattle.script_play.specs.Limits.{messages_by, octets_by, usual_in, usual_other, usual_over, wrong_within, wrong_other, wrong_for};

use mtp2_text::{LimitName, TextLimits};
use resend_store::{Mode, RoundLimits, USUAL_LIMITS};
use script_links::{AnyScript, PlayScript};

/// The number of messages, if limits are chosen.
fn messages_of(chosen: Option<RoundLimits>) -> Option<u8>
    ensures { result ≡ messages_by chosen }
{
    match chosen {
        Some(limits) => Some(limits.messages),
        None => None,
    }
}

/// The number of octets, if limits are chosen.
fn octets_of(chosen: Option<RoundLimits>) -> Option<u16>
    ensures { result ≡ octets_by chosen }
{
    match chosen {
        Some(limits) => Some(limits.octets),
        None => None,
    }
}

/// The chosen limits, else those of the text.
fn usual_in(
    limits: TextLimits,
    mode: Mode,
    chosen: Option<RoundLimits>,
) -> Result<RoundLimits, LimitName>
    ensures ok { IfOk result (λ usual. usual_in limits mode chosen ≡ Some usual) }
    ensures err { IfErr result (λ name. wrong_within limits mode chosen ≡ Some name) }
{
    let messages = messages_of(chosen);
    let octets = octets_of(chosen);
    limits.within(mode, messages, octets)
}

/// The limits of the terminal of a script.
fn usual_other(limits: TextLimits, script: &AnyScript<'_>) -> Result<RoundLimits, LimitName>
    ensures ok { IfOk result (λ usual. usual_other limits (plain_any_script script.now) ≡ Some usual) }
    ensures err { IfErr result (λ name. wrong_other limits (plain_any_script script.now) ≡ Some name) }
{
    match script {
        AnyScript::Book(_) => Ok(USUAL_LIMITS),
        AnyScript::Terminal(script) => usual_in(limits, script.head.mode, script.head.limits),
    }
}

/// The limits of the terminals of a script on a text that has these limits.
///
/// # Errors
///
/// The first of N1 and N2 that the script doesn't choose and is out of its range in the text, if the script's terminals
/// would have it.
pub(crate) fn usual_over(
    limits: TextLimits,
    script: &PlayScript<'_>,
) -> Result<RoundLimits, LimitName>
    ensures ok { IfOk result (λ usual. usual_over limits (plain_play_script script.now) ≡ Some usual) }
    ensures err { IfErr result (λ name. wrong_for limits (plain_play_script script.now) ≡ Some name) }
{
    match script {
        PlayScript::Other(script) => usual_other(limits, script),
        PlayScript::Group(script) => usual_in(limits, script.head.mode, None),
    }
}
