//! The lexer for SDL texts: it turns the bytes of a text into tokens.
#![tactic(auto)]

ghost use Rattle.std.specs.Prelude.{◌≡◌, ◌+◌, ◌==◌, ◌≤◌, length, take, count_by, Ok, IfOk, IfErr};
ghost use Rattle.sdl_lex.specs.Lexed.{Lexes, Lexed, Answers, IsFirstFault, IsAnswer, IsOnlyAnswer, OneReading, OneAnswer};
ghost use Rattle.sdl_lex.specs.Limits.{LONGEST_TEXT};

mod items;
mod lexemes;
mod runs;
mod scan;
mod spelling;
mod words;

use items::{Item, item_at};
use lexemes::mark;
pub use lexemes::{LexFault, Lexeme, Symbol, Token, Word};
pub use spelling::Name;
use std::alloc::Global;

/// The greatest number of bytes in a name.
pub const MAX_NAME: usize = 32;

/// The greatest number that a text may contain.
pub const MAX_NUMBER: u32 = 2_147_483_647;

/// The greatest number of bytes in a text.
pub const MAX_TEXT: usize = 262_144;

/// Splits a text into tokens. Each is the longest that begins at its place, and between them there
/// is only white space and comments.
///
/// A fault is the first in the text. A text of more than 262,144 bytes is L3 at the first byte
/// past the limit, whatever it holds. Any call may return `LexFault::NoMemory` instead.
pub fn tokens(alloc: Global, text: &str) -> Result<Vec<Token>, LexFault>
    ensures lexed { IfOk result (λ v. Answers text.now (Ok v.items)) }
    ensures fault { IfErr result (λ e. IsAnswer text.now e) }
    ensures exact { IsOnlyAnswer text.now result }
{
    let bytes = text.as_bytes();
    if bytes.len() > MAX_TEXT {
        return Err(LexFault::TooLong(MAX_TEXT as u32));
    }
    all_tokens(alloc, bytes)
}

/// Splits a text within the length limit into tokens, which are marked.
fn all_tokens(alloc: Global, bytes: &[u8]) -> Result<Vec<Token>, LexFault>
    requires { length bytes.now ≤ LONGEST_TEXT }
    ensures lexed { IfOk result (λ v. Lexed bytes.now v.items) }
    ensures fault { IfErr result (λ e. IsFirstFault bytes.now e) }
{
    let mut tokens = bare_tokens(alloc, bytes)?;
    mark(&mut tokens);
    Ok(tokens)
}

/// Splits a text within the length limit into tokens, which aren't marked.
fn bare_tokens(alloc: Global, bytes: &[u8]) -> Result<Vec<Token>, LexFault>
    requires { length bytes.now ≤ LONGEST_TEXT }
    ensures lexed { IfOk result (λ v. Lexes bytes.now (length bytes.now) 0 v.items) }
    ensures fault { IfErr result (λ e. IsFirstFault bytes.now e) }
{
    let mut tokens = Vec::new(alloc);
    let mut at = 0;
    while at < bytes.len() {
        let Item { lexeme, end } = item_at(bytes, at)?;
        if let Some(lexeme) = lexeme {
            tokens.push(Token {
                lexeme,
                start: at as u32,
                end: end as u32,
                with_synonyms: false,
            })?;
        }
        at = end;
    }
    Ok(tokens)
}

/// The number, from 1, of the line that contains a byte offset of a text. A line feed ends its own line.
pub fn line_of(text: &str, place: u32) -> usize
    ensures { result ≡ count_by (λ b. b == 10) (take place text.now) + 1 }
{
    let bytes = text.as_bytes();
    let before = if (place as usize) < bytes.len() {
        &bytes[..place as usize]
    } else {
        bytes
    };
    before.iter().filter(|b| **b == b'\n').count() + 1
}

/// Law: a text has at most one list of tokens.
pub fn one_reading()
    ensures { OneReading }
{}

/// Law: a text has at most one answer, either its tokens or its first fault.
pub fn one_answer()
    ensures { OneAnswer }
{}
