//! Reads single tokens. Each kind (a word, a symbol, a name, a number) defines once which value a token of it has. One
//! function tests whether the next token is of a kind, and one reads it.
ghost use Rattle.std.specs.Prelude.{◌≡◌, Option};
ghost use Rattle.sdl_lex.specs.declared.lexemes.Token.{Token};
ghost use Rattle.sdl_productions.specs.Readings.{token};
ghost use Rattle.sdl_productions.specs.Tokens.{begins};
ghost use Rattle.sdl_productions.specs.Mirrors.{Mirrors, same};

use crate::stop::Stop;
use sdl_lex::Token;

/// A kind of token.
pub trait Kind: Copy {
    type Value: Copy;

    ghost stands: { Self → Token → Option Self.Value };

    /// The value of a token, if it is of this kind.
    fn value(self, token: &Token) -> Option<Self::Value>
        ensures { result ≡ stands self token.now };
}

/// Whether the next token is of this kind.
pub fn stands_next<K: Kind>(tokens: &[Token], kind: K) -> bool
    ensures { result ≡ begins (K.stands kind) tokens.now }
{
    match tokens.split_first() {
        Some((token, _)) => kind.value(token).is_some(),
        None => false,
    }
}

/// Reads a token of this kind. Returns its value and the remaining tokens, or `Unexpected` with all tokens.
pub fn take<'a, K: Kind>(tokens: &'a [Token], kind: K) -> Result<(K::Value, &'a [Token]), Stop<'a>>
    ensures { Mirrors same result (token (K.stands kind) tokens.now) }
{
    let Some((token, rest)) = tokens.split_first() else {
        return Err(Stop::Unexpected(tokens));
    };
    match kind.value(token) {
        Some(found) => Ok((found, rest)),
        None => Err(Stop::Unexpected(tokens)),
    }
}
