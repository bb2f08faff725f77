//! Compiles a sound block.
ghost use Rattle.std.specs.Prelude.{IfOk};
ghost use Rattle.sdl_ast.specs.Views.{block_of};
ghost use Rattle.turn_code.specs.Valid.{IsValid};
ghost use Rattle.sdl_compile.specs.Blocks.{MatchesBlock};
ghost use Rattle.sdl_compile.specs.Meaning.{RunsAsMeant};

use crate::block::{Surveys, compile_block};
use sdl_rules::Resolved;
use std::alloc::{AllocError, Global};
use turn_code::Draft;

/// Compiles a sound block.
///
/// The draft has the names and numbers of the block's signals, paths, processes, variables, states and inputs, in the
/// order of the text. On every input that fits a transition of the draft, the run of its piece is what the transition
/// at the same place of the block means. Its certificate names the longest path. The draft is valid. Fails only if
/// memory runs out.
pub fn compile(alloc: Global, resolved: &Resolved) -> Result<Draft, AllocError>
    ensures means { IfOk result (λ d. MatchesBlock (block_of resolved.now) d) }
    ensures runs { IfOk result (λ d. RunsAsMeant (block_of resolved.now) d) }
    ensures valid { IfOk result (λ d. IsValid d) }
{
    let _sound = resolved.block();
    let surveys = Surveys {
        sets: resolved.sets(),
        orders: resolved.orders(),
        measures: resolved.measures(),
    };
    compile_block(alloc, resolved.table(), &surveys)
}
