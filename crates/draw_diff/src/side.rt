//! The two sides of a difference.
ghost use Rattle.std.specs.Prelude.{◌≡◌};
ghost use Rattle.draw_diff.specs.Items.{sign_of};

/// The side whose transitions or items are walked, each next to those of the other side.
#[derive(Clone, Copy)]
pub(crate) enum Side {
    /// The old set: its items are removed or changed.
    Old,
    /// The new set: its items are added.
    New,
}

impl Side {
    /// The sign before the line of an item that only this side has.
    pub(crate) fn sign(self) -> &'static [u8]
        ensures { result.now ≡ sign_of self }
    {
        match self {
            Self::Old => b"- ",
            Self::New => b"+ ",
        }
    }
}
