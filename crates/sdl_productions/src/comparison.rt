//! The relation that an answer compares with.
use sdl_ast::Relation;

/// A relation, with its place.
#[derive(Clone, Copy)]
pub struct Comparison {
    pub at: u32,
    pub relation: Relation,
}
