//! A transition with its copy, which leaves out the TASKs that hold only quoted text and so has the same code.
ghost use Rattle.std.specs.Prelude.{◌≡◌, ◌≤◌};
ghost use Rattle.sdl_ast.specs.Views.{text_of, process_of};
ghost use Rattle.sdl_tables.specs.Names.{variables_of};
ghost use Rattle.sdl_sound.specs.Longest.{size};
ghost use Rattle.sdl_emit.specs.Bodies.{IsBody};
ghost use Rattle.plain_laws.specs.Limits.{MOST_INSTRUCTIONS};

use sdl_ast::Transition;
use sdl_measures::code_size;
use sdl_tables::ProcessTable;

/// A transition, and its copy.
#[derive(Drop)]
pub struct Body<'a> {
    pub whole: &'a Transition,
    pub copy: &'a Transition,
}

/// How many instructions a transition has, without those of connections.
pub fn text_size(process: &ProcessTable, body: &Body) -> usize
    requires body { IsBody body.now }
    requires short { size (variables_of (process_of process.now)) (text_of body.now.whole.now) ≤ MOST_INSTRUCTIONS }
    ensures { result ≡ size (variables_of (process_of process.now)) (text_of body.now.whole.now) }
{
    code_size(process, body.copy) as usize
}
