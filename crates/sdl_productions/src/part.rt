//! Expressions while they are read. None is higher than the height limit by more than 1.
ghost use Rattle.std.specs.Prelude.{◌≡◌, ◌≤◌, ◌+◌, IfOk};
ghost use Rattle.sdl_ast.specs.Limits.{GREATEST_HEIGHT};
ghost use Rattle.sdl_ast.specs.Heights.{tree_height};
ghost use Rattle.sdl_ast.specs.Views.{tree_of};

use sdl_ast::Expression;

/// An expression with its height, which exceeds the limit of a tree by at most 1. It is on the heap, so that an empty
/// slot for one is small.
#[derive(Drop)]
pub(crate) struct Part {
    pub(crate) tree: Box<Expression>,
    pub(crate) height: u32,
    ghost right: { height ≡ tree_height (tree_of tree.value) },
    ghost low: { height ≤ GREATEST_HEIGHT + 1 },
}
