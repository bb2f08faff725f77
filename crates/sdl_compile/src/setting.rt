//! The setting of the transitions of a process.

use sdl_ast::Transition;
use sdl_emit::{Measure, Names};
use turn_code::{DraftSignal, DraftVariable, Sort, VariableSet};

/// The setting of a transition: the names that may occur, the variables of the process, the signals of the block, the
/// sorts of the parameters, and the variables set as it begins. `order` has each connection of the process after those
/// that it joins; `measures` and `copies` are those of the connections.
#[derive(Drop)]
pub struct Setting<'a> {
    pub names: &'a Names<'a>,
    pub variables: &'a [DraftVariable],
    pub signals: &'a [DraftSignal],
    pub parameters: &'a [Sort],
    pub entry: VariableSet,
    pub order: &'a [usize],
    pub measures: &'a [Measure],
    pub copies: &'a [Transition],
}
