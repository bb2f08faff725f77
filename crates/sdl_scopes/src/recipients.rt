//! The receivers of a signal by the routes.
ghost use Rattle.sdl_ast.specs.Views.{block_of};
ghost use Rattle.sdl_sound.specs.Receivers.{receivers};
ghost use Rattle.sdl_scopes.specs.Founds.{Counts};

use sdl_ast::Party;
use sdl_lex::Name;
use sdl_tables::BlockTable;

/// The receivers of a signal by the routes.
#[derive(Clone, Copy, Debug, PartialEq, Eq)]
pub enum Recipients {
    /// No path carries it.
    Nobody,
    /// One party, however many paths carry it there.
    One(Party),
    /// Two or more parties.
    Several,
}

/// The receivers of a signal that a party sends without a destination.
pub fn find_receivers(block: &BlockTable, from: &Party, signal: Name) -> Recipients
    ensures { Counts result (receivers (block_of block.now) from.now signal) }
{
    match block.receivers(from, signal) {
        [] => Recipients::Nobody,
        [one] => Recipients::One(*one),
        _ => Recipients::Several,
    }
}
