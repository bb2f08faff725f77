//! Where a reader stops.
ghost use Rattle.std.specs.Prelude.{◌≡◌, [], ◌∷◌, ◌++◌, OnOk, IfErr};

use sdl_lex::Token;

/// Why a reader stops.
#[derive(Clone, Copy)]
pub enum Stop<'a> {
    /// The first of these tokens, which are those that remain, is unexpected. If none remains, the end is
    /// unexpected.
    Unexpected(&'a [Token]),
    /// Memory ran out.
    NoMemory,
}

/// Appends an item to others. `NoMemory` if memory runs out.
pub fn push<'a, T: Drop>(items: &mut Vec<T>, item: T) -> Result<(), Stop<'a>>
    ensures ok { OnOk result (items.new.items ≡ items.old.items ++ item ∷ []) }
    ensures err { IfErr result (λ stop. stop ≡ Stop.NoMemory) }
{
    match items.push(item) {
        Ok(()) => Ok(()),
        Err(_) => Err(Stop::NoMemory),
    }
}
