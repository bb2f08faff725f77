//! Reads single parts, and repeated parts.
ghost use Rattle.std.specs.Prelude.{◌≡◌, ◌<◌, length, map, IfOk, Option, ℕ};
ghost use Rattle.sdl_lex.specs.declared.lexemes.Token.{Token};
ghost use Rattle.sdl_productions.specs.Readings.{At, Shortens, NeverLonger, separated, many, list_in_parentheses, behind_comma, separated_from};
ghost use Rattle.sdl_productions.specs.Tokens.{begins};
ghost use Rattle.sdl_productions.specs.Mirrors.{Mirrors};

use sdl_lex::{Symbol, Token};
use sdl_productions::{Stop, push, stands_next, take};
use std::alloc::Global;

/// A part of the tree that can be read from tokens.
pub(crate) trait Production: Drop {
    ghost Plain: { Type 0 };

    ghost view: { Self → Plain };

    ghost reading: { At Plain };

    /// Reads one from the beginning of the tokens. Returns it and the remaining tokens.
    fn read<'a>(alloc: Global, tokens: &'a [Token]) -> Result<(Self, &'a [Token]), Stop<'a>>
        ensures { Mirrors view result (reading tokens.now) };

    ghost never_longer: { NeverLonger reading };
}

/// A part of the tree that can be repeated. Its first token tells whether another one follows.
pub(crate) trait Listed: Production {
    ghost starts: { Token → Option ℕ };

    /// Whether the next token begins another one.
    fn is_next(tokens: &[Token]) -> bool
        ensures { result ≡ begins starts tokens.now };

    ghost shortens: { Shortens Self.reading };
}

/// Reads a comma and one more item.
fn read_behind_comma<'a, T: Production>(
    alloc: Global,
    tokens: &'a [Token],
) -> Result<(T, &'a [Token]), Stop<'a>>
    ensures { Mirrors T.view result (behind_comma T.reading tokens.now) }
{
    let (_, rest) = take(tokens, Symbol::Comma)?;
    T::read(alloc, rest)
}

/// Reads the items after the first item of `p {, p}`.
pub(crate) fn read_more<'a, T: Production>(
    alloc: Global,
    first: T,
    tokens: &'a [Token],
) -> Result<(Vec<T>, &'a [Token]), Stop<'a>>
    ensures { Mirrors (λ v. map T.view v.items) result (separated_from (T.view first) T.reading tokens.now) }
{
    let mut items = Vec::new(alloc);
    push(&mut items, first)?;
    let mut rest = tokens;
    'rows: while stands_next(rest, Symbol::Comma) {
        let (item, after) = read_behind_comma::<T>(alloc, rest)?;
        push(&mut items, item)?;
        rest = after;
    }
    Ok((items, rest))
}

/// Reads `p {, p}`.
pub(crate) fn read_separated<'a, T: Production>(
    alloc: Global,
    tokens: &'a [Token],
) -> Result<(Vec<T>, &'a [Token]), Stop<'a>>
    ensures { Mirrors (λ v. map T.view v.items) result (separated T.reading tokens.now) }
{
    let (first, rest) = T::read(alloc, tokens)?;
    read_more(alloc, first, rest)
}

/// Reads repeated items for as long as the next token begins one.
pub(crate) fn read_many<'a, T: Listed>(
    alloc: Global,
    tokens: &'a [Token],
) -> Result<(Vec<T>, &'a [Token]), Stop<'a>>
    ensures { Mirrors (λ v. map T.view v.items) result (many T.starts T.reading tokens.now) }
{
    let mut items = Vec::new(alloc);
    let mut rest = tokens;
    'rows: while T::is_next(rest) {
        let (item, after) = T::read(alloc, rest)?;
        push(&mut items, item)?;
        rest = after;
    }
    Ok((items, rest))
}

/// Reads `( p {, p} )`, or nothing if the next token isn't a parenthesis.
pub(crate) fn read_in_parentheses<'a, T: Production>(
    alloc: Global,
    tokens: &'a [Token],
) -> Result<(Vec<T>, &'a [Token]), Stop<'a>>
    ensures { Mirrors (λ v. map T.view v.items) result (list_in_parentheses T.reading tokens.now) }
{
    if !stands_next(tokens, Symbol::Open) {
        return Ok((Vec::new(alloc), tokens));
    }
    let (_, rest) = take(tokens, Symbol::Open)?;
    let (items, rest) = read_separated::<T>(alloc, rest)?;
    let (_, rest) = take(rest, Symbol::Close)?;
    Ok((items, rest))
}
