//! Names as the text writes them.

ghost use Rattle.std.specs.Prelude.{◌≡◌, ◌≤◌, ◌↔◌, length, IsSome, IfSome};
ghost use Rattle.plain_laws.specs.Limits.{LONGEST_NAME};

use arrayvec::ArrayVec;
use std::marker::Model;

/// The octets of a name as the text first writes it, at most 32.
#[derive(Drop)]
pub struct Name {
    bytes: ArrayVec<u8, 32>,
}

impl Model for Name {
    ghost use Rattle.std.specs.Prelude.{List, ℕ};

    ghost Value = { List ℕ };

    ghost view = { λ n. n.bytes.items };
}

impl Name {
    /// The name with these octets, or none if there are more than 32.
    pub fn from_bytes(bytes: &[u8]) -> Option<Name>
        ensures fits { IsSome result ↔ (length bytes.now ≤ LONGEST_NAME) }
        ensures value { IfSome result (λ n. n ≡ bytes.now) }
    {
        match ArrayVec::try_from(bytes) {
            Ok(bytes) => Some(Name { bytes }),
            Err(_) => None,
        }
    }

    /// The octets of the name.
    pub fn as_bytes(&self) -> &[u8]
        ensures { result.now ≡ self.now }
    {
        self.bytes.as_slice()
    }

    /// A copy of the name. It allocates no memory.
    pub fn copy(&self) -> Name
        ensures { result ≡ self.now }
    {
        match ArrayVec::try_from(self.bytes.as_slice()) {
            Ok(bytes) => Name { bytes },
            Err(_) => unreachable!(),
        }
    }
}
