//! Reads the ends of statements and of groups of statements.
ghost use Rattle.std.specs.Prelude.{◌≡◌, Option};
ghost use Rattle.sdl_lex.specs.declared.lexemes.Word.TheVariants as words;
ghost use Rattle.sdl_productions.specs.Readings.{token, optional};
ghost use Rattle.sdl_productions.specs.Productions.{closing_at};
ghost use Rattle.sdl_productions.specs.DeclarationProductions.{comment_at, terminator_at};
ghost use Rattle.sdl_productions.specs.Tokens.{a_name, a_word, a_closing};
ghost use Rattle.sdl_productions.specs.Mirrors.{Mirrors, same};

use crate::attempt::attempt;
use sdl_ast::Identifier;
use sdl_lex::{Name, Symbol, Token, Word};
use sdl_productions::{AnyName, AnyQuoted, Closing, Stop, stands_next, take};

/// Reads `COMMENT quoted`.
#[tactic(auto, unfolding(sdl_productions::specs::DeclarationProductions::comment_at))]
fn read_comment<'a>(tokens: &'a [Token]) -> Result<(u32, &'a [Token]), Stop<'a>>
    ensures { Mirrors same result (comment_at tokens.now) }
{
    let (_, rest) = attempt!(take(tokens, Word::Comment));
    take(rest, AnyQuoted)
}

/// Reads `[ COMMENT quoted ]`.
fn read_optional_comment<'a>(tokens: &'a [Token]) -> Result<(Option<u32>, &'a [Token]), Stop<'a>>
    ensures { Mirrors same result (optional (a_word words.Comment) comment_at tokens.now) }
{
    if !stands_next(tokens, Word::Comment) {
        return Ok((None, tokens));
    }
    let (found, rest) = attempt!(read_comment(tokens));
    Ok((Some(found), rest))
}

/// Reads `[ COMMENT quoted ] ;`.
#[tactic(auto, unfolding(sdl_productions::specs::DeclarationProductions::terminator_at))]
pub(crate) fn terminator<'a>(tokens: &'a [Token]) -> Result<(u32, &'a [Token]), Stop<'a>>
    ensures { Mirrors same result (terminator_at tokens.now) }
{
    let (_, rest) = attempt!(read_optional_comment(tokens));
    take(rest, Symbol::Semicolon)
}

/// Reads `[name]`. The name must be the given one, in upper or lower case.
fn read_optional_closing<'a>(
    tokens: &'a [Token],
    opened: Name,
) -> Result<(Option<Identifier>, &'a [Token]), Stop<'a>>
    ensures { Mirrors same result (optional a_name (token (a_closing opened)) tokens.now) }
{
    if !stands_next(tokens, AnyName) {
        return Ok((None, tokens));
    }
    let (found, rest) = attempt!(take(tokens, Closing(opened)));
    Ok((Some(found), rest))
}

/// Reads `[name] ;`. The name must be the given one, in upper or lower case.
#[tactic(auto, unfolding(sdl_productions::specs::Productions::closing_at))]
pub(crate) fn read_closing<'a>(
    tokens: &'a [Token],
    opened: Name,
) -> Result<(Option<Identifier>, &'a [Token]), Stop<'a>>
    ensures { Mirrors same result (closing_at opened tokens.now) }
{
    let (found, rest) = attempt!(read_optional_closing(tokens, opened));
    let (_, rest) = attempt!(terminator(rest));
    Ok((found, rest))
}
