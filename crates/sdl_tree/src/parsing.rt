//! Parses tokens into a tree.
ghost use Rattle.std.specs.Prelude.{◌≡◌, IfOk, IfErr};
ghost use Rattle.sdl_tree.specs.PlainTokens.{PlainReading};
ghost use Rattle.sdl_tree.specs.Refusals.{Answers, Refuses};
ghost use Rattle.sdl_ast.specs.Plain.{PlainBlock};
ghost use Rattle.sdl_tree.specs.Settled.{Settled};
ghost use Rattle.sdl_tree.specs.Syntax.{Reads};
ghost use Rattle.sdl_ast.specs.Views.{block_of};

use crate::blocks::read_block;
use crate::fault::ParseFault;
use sdl_ast::Block;
use sdl_lex::Token;
use sdl_productions::{Marked, Stop};
use std::alloc::Global;

/// The tree of all tokens, or the reason why there is none.
fn read_text(alloc: Global, tokens: &[Token]) -> Result<Block, ParseFault>
    ensures { Settled tokens.now result }
{
    let (block, rest) = match read_block(alloc, tokens) {
        Ok(found) => found,
        Err(Stop::Unexpected(left)) => {
            return Err(ParseFault::Unexpected(tokens.len().saturating_sub(left.len())));
        }
        Err(Stop::NoMemory) => return Err(ParseFault::NoMemory),
    };
    if !rest.is_empty() {
        return Err(ParseFault::Unexpected(tokens.len().saturating_sub(rest.len())));
    }
    match block {
        Marked::Kept(block) => Ok(block),
        Marked::TooHigh(at) => Err(ParseFault::TooDeep(at)),
    }
}

/// Parses all tokens of a text into its tree.
///
/// # Errors
///
/// - [`ParseFault::Unexpected`] if and only if the tokens read as no tree, however high the part before the fault is.
///   It holds the index of the first token that doesn't fit, or the number of tokens if they end too early.
/// - [`ParseFault::TooDeep`] if and only if the tokens read as a tree with a TASK, OUTPUT, SET, DECISION or synonym higher
///   than [`MAX_HEIGHT`](crate::MAX_HEIGHT). It holds the place, in bytes, of the first one; of a synonym that of its
///   name. A DECISION is one higher than the highest of its question and its answers.
/// - [`ParseFault::NoMemory`] if memory ran out, instead of any other answer.
pub fn parse(alloc: Global, tokens: &[Token]) -> Result<Block, ParseFault>
    // a tree that is returned is one that the tokens read as
    ensures found { IfOk result (λ block. Reads tokens.now (block_of block)) }
    // a tree that the tokens read as is returned, or refused if it is too high
    ensures exact { (b : PlainBlock) → Reads tokens.now b → Answers result b }
    // no text that reads agrees with the tokens up to and including an unexpected one
    ensures refused { IfErr result (λ fault. Refuses tokens.now fault) }
    // the unexpected token is the first at which the grammar, read from the front, stops; the place of TooDeep is that
    // of the first statement that is too high, from the front
    ensures settled { Settled tokens.now result }
{
    read_text(alloc, tokens)
}

/// Law: tokens read as at most one tree.
pub fn reads_once(tokens: &[Token])
    ensures { (b c : PlainBlock) → Reads tokens.now b → Reads tokens.now c → b ≡ c }
{
    let _ = tokens;
}

/// Law: if no token is the word SYNONYM, or is in a text with it, the text has no synonyms.
pub fn reads_plain(tokens: &[Token])
    ensures { PlainReading tokens.now }
{
    let _ = tokens;
}
