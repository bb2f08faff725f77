//! The text of answers.
ghost use Rattle.std.specs.Prelude.{◌≡◌, ◌++◌, ◌∷◌, List, ℕ, IfOk, IfSome, IsNone, codes, string_bytes};
ghost use Rattle.line_play.specs.Told.{IsAnswerOf, IsBadLine};

use line_filter::Answer;
use std::alloc::{AllocError, Global};
use std::io::{self, ErrorKind};
use std::str;

/// Why something was refused, if the line says so.
pub(crate) fn refusal_in(line: &[u8]) -> Option<&[u8]>
    ensures some { IfSome result (λ why. line.now ≡ codes "refused " ++ why.now) }
    ensures none { IsNone result → (why : List ℕ) → line.now ≡ codes "refused " ++ why → ⊥ }
{
    line.strip_prefix(b"refused ")
}

/// Octets as a text.
pub(crate) fn text_of(alloc: Global, octets: &[u8]) -> io::Result<String>
    ensures { IfOk result (λ text. string_bytes text ≡ octets.now) }
{
    match str::from_utf8(octets) {
        Ok(text) => Ok(String::from_str(alloc, text)?),
        Err(_) => Err(io::Error::from(ErrorKind::InvalidData)),
    }
}

/// The answer to a question.
fn said(alloc: Global, order: &str, line: &[u8]) -> io::Result<String>
    ensures { IfOk result (λ text. string_bytes text ≡ order.now ++ 32 ∷ line.now) }
{
    let line = text_of(alloc, line)?;
    Ok(format!(in alloc; "{order} {line}")?)
}

/// Returns the answer to an order, from the line that a script prints for it.
///
/// # Errors
///
/// Out of memory, or the line is not one that a script prints for such an order.
pub fn answer_of(alloc: Global, question: bool, order: &str, line: &[u8]) -> io::Result<Answer>
    ensures { IfOk result (λ answer. IsAnswerOf question order.now line.now answer) }
{
    match refusal_in(line) {
        Some(why) => Ok(Answer::Refused(text_of(alloc, why)?)),
        None => {
            if question {
                return Ok(Answer::Said(said(alloc, order, line)?));
            }
            if line == b"ok".as_slice() {
                return Ok(Answer::Done);
            }
            Err(io::Error::from(ErrorKind::InvalidData))
        }
    }
}

/// Returns the answer to a line that is no order.
pub fn bad_line(alloc: Global) -> Result<Answer, AllocError>
    ensures { IfOk result IsBadLine }
{
    Ok(Answer::Refused(String::from_str(alloc, "X1 BadLine")?))
}
