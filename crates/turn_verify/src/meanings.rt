//! What a written block means, and the values of its synonyms.

ghost use Rattle.std.specs.Prelude.{◌≡◌, IfOk};
ghost use Rattle.sdl_ast.specs.Views.{block_of};
ghost use Rattle.sdl_compile.specs.Expansion.{block_known};
ghost use Rattle.turn_verify.specs.Meanings.{integer_known, integer_of, meaning_of, synonyms_of};

use sdl_ast::Block;
use sdl_compile::{Expansion, Known, expand};
use sdl_lex::Name;
use std::alloc::{AllocError, Global};
use turn_code::Value;

/// The block with values in place of its synonyms.
pub fn meaning(alloc: Global, block: &Block) -> Result<Block, AllocError>
    ensures { IfOk result (λ copy. block_of copy ≡ meaning_of (block_of block.now)) }
{
    let Expansion {
        block: meant,
        known: _,
        declared: _,
    } = expand(alloc, block)?;
    Ok(meant)
}

/// The synonyms of a block with their values.
#[derive(Drop)]
pub struct BlockSynonyms {
    known: Known,
}

impl BlockSynonyms {
    /// Evaluates the synonyms of a block.
    pub fn new(alloc: Global, block: &Block) -> Result<Self, AllocError>
        ensures { IfOk result (λ s. synonyms_of s ≡ block_known (block_of block.now)) }
    {
        let Expansion {
            block: _,
            known,
            declared: _,
        } = expand(alloc, block)?;
        Ok(Self { known })
    }

    /// The value of the Integer synonym with a name.
    pub fn integer(&self, name: Name) -> Option<i32>
        ensures { result ≡ integer_known (synonyms_of self.now) name }
    {
        match self.known.value(name) {
            Some(value) => integer(value),
            None => None,
        }
    }
}

/// The number, if a value is one.
fn integer(value: Value) -> Option<i32>
    ensures { result ≡ integer_of value }
{
    match value {
        Value::Int(number) => Some(number),
        Value::Bool(_) => None,
    }
}
