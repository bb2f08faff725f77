//! Laws that follow from the definitions. Their calls cost nothing.
ghost use Rattle.turn_verify.specs.AsWritten.{AsWritten};

use sdl_compile::plain_law;
use sdl_lex::Token;
use sdl_tree::reads_plain;

/// Law: a text without the word SYNONYM means what is written, and is accepted and refused as that.
pub fn as_written(tokens: &[Token])
    ensures { AsWritten tokens.now }
{
    plain_law();
    reads_plain(tokens);
}
