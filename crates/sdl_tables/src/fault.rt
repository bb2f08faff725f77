//! The reasons why a block has no tables.
ghost use Rattle.std.specs.Prelude.{◌≡◌};
ghost use Rattle.sdl_tables.specs.declared.fault.TableFault.TheVariants.{NoMemory};

use std::alloc::AllocError;

/// Why tables can't be built.
#[derive(Clone, Copy, Debug)]
pub enum TableFault {
    /// A name is a duplicate. Holds the place of the second occurrence, in bytes.
    DoubleName(u32),
    /// Memory ran out.
    NoMemory,
}

impl From<AllocError> for TableFault {
    ghost from_gives = { λ _ e. e ≡ NoMemory };

    fn from(_e: AllocError) -> TableFault {
        TableFault::NoMemory
    }
}
