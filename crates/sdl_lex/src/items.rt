//! The next item of a text: white space, a comment or a token.
ghost use Rattle.std.specs.Prelude.{◌≡◌, ℕ, ◌+◌, ◌==◌, ◌<◌, ◌≤◌, true, false, length, slice_index, IfOk, IfErr};
ghost use Rattle.std.specs.Char.{is_ascii_digit, is_ascii_alphabetic};
ghost use Rattle.sdl_lex.specs.Lexed.{is_white, OpensComment};
ghost use Rattle.sdl_lex.specs.Limits.{LONGEST_TEXT};
ghost use Rattle.sdl_lex.specs.Scan.{Stands, IsFaultThere};

use crate::runs::name_end;
use crate::scan::{
    byte_at, comment_end, is_white, number_end, number_of, quoted_end, symbol_of, with_equal,
    word_or_name,
};
use crate::{LexFault, Lexeme, MAX_TEXT};

/// The lexeme of a token, or `None` for white space and comments, and the place after the item.
#[derive(Clone, Copy)]
pub(crate) struct Item {
    pub(crate) lexeme: Option<Lexeme>,
    pub(crate) end: usize,
}

/// Reads the reserved word or name that begins at a place. A name of more than 32 bytes is `TooLong`.
fn word_item(bytes: &[u8], at: usize) -> Result<Item, LexFault>
    requires room { length bytes.now ≤ LONGEST_TEXT }
    requires inside { at < length bytes.now }
    requires begins { is_ascii_alphabetic (slice_index bytes.now at) ≡ true }
    ensures ok { IfOk result (λ i. Stands bytes.now at i.lexeme i.end × (at < i.end) × (i.end ≤ length bytes.now)) }
    ensures err { IfErr result (λ e. IsFaultThere bytes.now at e) }
{
    let end = name_end(bytes, at);
    match word_or_name(&bytes[at..end]) {
        Some(lexeme) => Ok(Item {
            lexeme: Some(lexeme),
            end,
        }),
        None => Err(LexFault::TooLong(at as u32)),
    }
}

/// Reads the number that begins at a place. A number above 2147483647 is `TooLong`.
fn number_item(bytes: &[u8], at: usize) -> Result<Item, LexFault>
    requires room { length bytes.now ≤ LONGEST_TEXT }
    requires inside { at < length bytes.now }
    requires begins { is_ascii_digit (slice_index bytes.now at) ≡ true }
    ensures ok { IfOk result (λ i. Stands bytes.now at i.lexeme i.end × (at < i.end) × (i.end ≤ length bytes.now)) }
    ensures err { IfErr result (λ e. IsFaultThere bytes.now at e) }
{
    let end = number_end(bytes, at);
    match number_of(&bytes[at..end]) {
        Some(n) => Ok(Item {
            lexeme: Some(Lexeme::Number(n)),
            end,
        }),
        None => Err(LexFault::TooLong(at as u32)),
    }
}

/// Reads the comment that begins at a place. A comment without an end is `OpenComment`.
fn comment_item(bytes: &[u8], at: usize) -> Result<Item, LexFault>
    requires room { length bytes.now ≤ LONGEST_TEXT }
    requires inside { at + 2 ≤ length bytes.now }
    requires opens { OpensComment bytes.now at }
    ensures ok { IfOk result (λ i. Stands bytes.now at i.lexeme i.end × (at < i.end) × (i.end ≤ length bytes.now)) }
    ensures err { IfErr result (λ e. IsFaultThere bytes.now at e) }
{
    match comment_end(bytes, at) {
        Some(end) => Ok(Item { lexeme: None, end }),
        None => Err(LexFault::OpenComment(at as u32)),
    }
}

/// Reads the quoted text that begins at a place. A quoted text without an end is `OpenComment`.
fn quoted_item(bytes: &[u8], at: usize) -> Result<Item, LexFault>
    requires room { length bytes.now ≤ LONGEST_TEXT }
    requires inside { at < length bytes.now }
    requires opens { slice_index bytes.now at ≡ 39 }
    ensures ok { IfOk result (λ i. Stands bytes.now at i.lexeme i.end × (at < i.end) × (i.end ≤ length bytes.now)) }
    ensures err { IfErr result (λ e. IsFaultThere bytes.now at e) }
{
    match quoted_end(bytes, at) {
        Some(end) => Ok(Item {
            lexeme: Some(Lexeme::Quoted),
            end,
        }),
        None => Err(LexFault::OpenComment(at as u32)),
    }
}

/// Reads the symbol that begins at a place, the longer if two match. A byte that begins none is `BadCharacter`.
fn symbol_item(bytes: &[u8], at: usize) -> Result<Item, LexFault>
    requires room { length bytes.now ≤ LONGEST_TEXT }
    requires inside { at < length bytes.now }
    requires no_letter { is_ascii_alphabetic (slice_index bytes.now at) ≡ false }
    requires no_digit { is_ascii_digit (slice_index bytes.now at) ≡ false }
    requires no_white { is_white (slice_index bytes.now at) ≡ false }
    requires no_quote { (slice_index bytes.now at == 39) ≡ false }
    requires no_comment { OpensComment bytes.now at → ⊥ }
    ensures ok { IfOk result (λ i. Stands bytes.now at i.lexeme i.end × (at < i.end) × (i.end ≤ length bytes.now)) }
    ensures err { IfErr result (λ e. IsFaultThere bytes.now at e) }
{
    let Some(symbol) = symbol_of(bytes[at]) else {
        return Err(LexFault::BadCharacter(at as u32));
    };
    if byte_at(bytes, at + 1) == b'=' {
        if let Some(longer) = with_equal(symbol) {
            return Ok(Item {
                lexeme: Some(Lexeme::Symbol(longer)),
                end: at + 2,
            });
        }
    }
    Ok(Item {
        lexeme: Some(Lexeme::Symbol(symbol)),
        end: at + 1,
    })
}

/// Reads the item that begins at a place, or returns the fault there.
pub(crate) fn item_at(bytes: &[u8], at: usize) -> Result<Item, LexFault>
    requires room { length bytes.now ≤ LONGEST_TEXT }
    requires inside { at < length bytes.now }
    ensures ok { IfOk result (λ i. Stands bytes.now at i.lexeme i.end × (at < i.end) × (i.end ≤ length bytes.now)) }
    ensures err { IfErr result (λ e. IsFaultThere bytes.now at e) }
{
    let first = bytes[at];
    if first.is_ascii_alphabetic() {
        return word_item(bytes, at);
    }
    if first.is_ascii_digit() {
        return number_item(bytes, at);
    }
    if is_white(first) {
        return Ok(Item {
            lexeme: None,
            end: at + 1,
        });
    }
    if first == b'\'' {
        return quoted_item(bytes, at);
    }
    if first == b'/' && byte_at(bytes, at + 1) == b'*' {
        return comment_item(bytes, at);
    }
    symbol_item(bytes, at)
}
