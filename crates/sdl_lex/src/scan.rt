//! Scans single items at a place of a text.
ghost use Rattle.std.specs.Prelude.{◌≡◌, ℕ, ◌+◌, ◌<◌, ◌≤◌, true, false, IsTrue, EachIndex, [], ◌∷◌, ◌++◌, length, slice_index, IfSome, IfNone, IfOk, IfErr};
ghost use Rattle.std.specs.Char.{is_ascii_digit, is_ascii_alphabetic};
ghost use Rattle.sdl_lex.specs.Spelling.{is_name_byte, is_spelled_as_name};
ghost use Rattle.sdl_lex.specs.Texts.{symbol_text};
ghost use Rattle.sdl_lex.specs.declared.lexemes.Symbol.{Symbol as TheSymbol};
ghost use Rattle.sdl_lex.specs.Lexed.{is_white, continues, OpensComment, IsComment, IsOpenComment, IsOpenQuoted, decimal, Spells, continues_symbol};
ghost use Rattle.sdl_lex.specs.Scan.{IsRun, Stands};
ghost use Rattle.sdl_lex.specs.Limits.{LONGEST_NAME, GREATEST_NUMBER};

use crate::{Lexeme, MAX_NUMBER, Name, Symbol, Word};

/// Whether a byte is white space: a space, a tab, a carriage return or a line feed.
pub(crate) fn is_white(b: u8) -> bool
    ensures { result ≡ is_white b }
{
    b == b' ' || b == b'\t' || b == b'\r' || b == b'\n'
}

/// The byte at a place, or 0 past the end.
pub(crate) fn byte_at(bytes: &[u8], at: usize) -> u8
    ensures { result ≡ slice_index bytes.now at }
{
    if at < bytes.len() { bytes[at] } else { 0 }
}

/// The place after the run of digits that begins at a place.
pub(crate) fn number_end(bytes: &[u8], at: usize) -> usize
    requires { at ≤ length bytes.now }
    ensures { IsRun is_ascii_digit bytes.now at result }
{
    let mut end = at;
    while end < bytes.len() && bytes[end].is_ascii_digit() {
        end += 1;
    }
    end
}

/// The place after the comment that begins at a place, or `None` if the comment has no end.
pub(crate) fn comment_end(bytes: &[u8], at: usize) -> Option<usize>
    requires inside { at + 2 ≤ length bytes.now }
    requires opens { OpensComment bytes.now at }
    ensures found { IfSome result (λ next. IsComment bytes.now at next × (next ≤ length bytes.now)) }
    ensures none { IfNone result (IsOpenComment bytes.now at) }
{
    for last in at + 2..bytes.len() {
        if bytes[last] == b'*' && byte_at(bytes, last + 1) == b'/' {
            return Some(last + 2);
        }
    }
    None
}

/// The place after the quoted text that begins at a place, or `None` if it has no end.
pub(crate) fn quoted_end(bytes: &[u8], at: usize) -> Option<usize>
    requires inside { at < length bytes.now }
    requires opens { slice_index bytes.now at ≡ 39 }
    ensures found { IfSome result (λ next. Stands bytes.now at (Some Lexeme.Quoted) next × (at < next) × (next ≤ length bytes.now)) }
    ensures none { IfNone result (IsOpenQuoted bytes.now at) }
{
    let mut place = at + 1;
    while place < bytes.len() {
        place = match (bytes[place], byte_at(bytes, place + 1)) {
            (b'\'', b'\'') => place + 2,
            (b'\'', _) => return Some(place + 1),
            _ => place + 1,
        };
    }
    None
}

/// The number that decimal digits stand for, or `None` if it is above 2147483647.
pub(crate) fn number_of(digits: &[u8]) -> Option<u32>
    requires { EachIndex digits.now (λ k. is_ascii_digit (slice_index digits.now k) ≡ true) }
    ensures found { IfSome result (λ n. (n ≡ decimal digits.now) × (n ≤ GREATEST_NUMBER)) }
    ensures none { IfNone result (GREATEST_NUMBER < decimal digits.now) }
{
    let mut n: u32 = 0;
    for digit in digits {
        let longer = 10 * u64::from(n) + u64::from(*digit - b'0');
        if longer > u64::from(MAX_NUMBER) {
            return None;
        }
        n = longer as u32;
    }
    Some(n)
}

/// The reserved word or the name with this spelling, or `None` if a name is longer than 32 bytes.
pub(crate) fn word_or_name(spelling: &[u8]) -> Option<Lexeme>
    requires { IsTrue (is_spelled_as_name spelling.now) }
    ensures found { IfSome result (λ lexeme. Spells spelling.now lexeme
        × ((b : ℕ) → continues lexeme b ≡ is_name_byte b)) }
    ensures none { IfNone result (LONGEST_NAME < length spelling.now) }
{
    if let Some(word) = Word::reserved(spelling) {
        return Some(Lexeme::Word(word));
    }
    let name = Name::new(spelling)?;
    Some(Lexeme::Name(name))
}

/// The symbol that consists of this one byte, if there is one.
pub(crate) fn symbol_of(b: u8) -> Option<Symbol>
    ensures found { IfSome result (λ s. symbol_text s ≡ b ∷ []) }
    ensures none { IfNone result ((s : TheSymbol) → symbol_text s ≡ b ∷ [] → ⊥) }
{
    match b {
        b';' => Some(Symbol::Semicolon),
        b',' => Some(Symbol::Comma),
        b':' => Some(Symbol::Colon),
        b'(' => Some(Symbol::Open),
        b')' => Some(Symbol::Close),
        b'+' => Some(Symbol::Plus),
        b'-' => Some(Symbol::Minus),
        b'*' => Some(Symbol::Star),
        b'/' => Some(Symbol::Slash),
        b'=' => Some(Symbol::Equal),
        b'<' => Some(Symbol::Less),
        b'>' => Some(Symbol::Greater),
        _ => None,
    }
}

/// The symbol that a one-byte symbol and a following `=` make, if there is one.
pub(crate) fn with_equal(symbol: Symbol) -> Option<Symbol>
    ensures found { IfSome result (λ s. (symbol_text s ≡ symbol_text symbol ++ 61 ∷ [])
        × ((b : ℕ) → continues_symbol s b ≡ false)) }
    ensures none { IfNone result (continues_symbol symbol 61 ≡ false) }
{
    match symbol {
        Symbol::Colon => Some(Symbol::Assign),
        Symbol::Slash => Some(Symbol::NotEqual),
        Symbol::Less => Some(Symbol::LessEqual),
        Symbol::Greater => Some(Symbol::GreaterEqual),
        _ => None,
    }
}
