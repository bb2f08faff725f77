//! Points at a refusal in its text.
ghost use Rattle.std.specs.Prelude.{◌≡◌, List, Ok, IfOk};
ghost use Rattle.sdl_lex.specs.Lexed.{Answers};
ghost use Rattle.sdl_lex.specs.declared.lexemes.Token as lexeme;
ghost use Rattle.script_point.specs.Pointing.{IsPointedOut, IsShown};

use crate::notes::Explained;
use crate::shown::{point, point_nowhere};
use crate::words::{Bare, word_in};
use mtp2_text::LoadFault;
use sdl_lex::{LexFault, Token, tokens};
use std::alloc::{AllocError, Global};

/// The tokens of a text, or none if the lexis refuses it.
///
/// # Errors
///
/// `AllocError`: out of memory.
pub fn tokens_of(alloc: Global, text: &str) -> Result<Vec<Token>, AllocError>
    ensures { IfOk result (λ v. (ts : List lexeme.Token) → Answers text.now (Ok ts) → ts ≡ v.items) }
{
    match tokens(alloc, text) {
        Ok(tokens) => Ok(tokens),
        Err(LexFault::NoMemory) => Err(AllocError),
        Err(_) => Ok(Vec::new(alloc)),
    }
}

/// The lines for a refusal of a text with these tokens.
fn show(
    alloc: Global,
    text: &str,
    tokens: &[Token],
    fault: &LoadFault,
    told: &Explained,
) -> Result<Vec<u8>, AllocError>
    ensures { IfOk result (λ v. IsShown text.now tokens.now fault.now told.now v.items) }
{
    let name = format!(in alloc; "{}", Bare(fault))?;
    match word_in(tokens, fault, told.found) {
        Some(word) => point(alloc, text.as_bytes(), word, name.as_str(), &told.notes),
        None => point_nowhere(alloc, name.as_str(), told.notes.said.as_str()),
    }
}

/// Points at a refusal in its text: its place, the fault, the line of the text and carets under the word, as `point`
/// describes. The caller puts the file name before the result. If a refusal names no place (S10, S11), `point_out`
/// points at `told.found`; without that it returns one line without line and column.
pub fn point_out(
    alloc: Global,
    text: &str,
    fault: &LoadFault,
    told: &Explained,
) -> Result<Vec<u8>, AllocError>
    ensures { IfOk result (λ v. IsPointedOut text.now fault.now told.now v.items) }
{
    let tokens = tokens_of(alloc, text)?;
    show(alloc, text, &tokens, fault, told)
}
