//! Names as they are written, and how they are compared.
ghost use Rattle.std.specs.Prelude.{◌≡◌, ◌↔◌, Some, IsSome, IfSome, bytes_eq, IsTrue};
ghost use Rattle.std.specs.Hash as fed;
ghost use Rattle.std.specs.Cmp.{on_equiv, on_per, partial_equiv_from_equiv};
ghost use Rattle.std.specs.Cmp.Lexicographic.{nat_list_eq_equiv};
ghost use Rattle.std.specs.Cmp.Rules.{hashing};
ghost use Rattle.std.proofs.Common.{rules};
ghost use Rattle.std.specs.List.{list_all};
ghost use Rattle.sdl_lex.specs.Spelling.{IsName, is_name_byte, is_spelled_as_name, folded};

use crate::MAX_NAME;
use crate::runs::is_name_byte;
use std::convert::AsStr;
use std::hash::{Hash, Hasher};
use std::marker::Model;
use std::{fmt, str};

/// A name as it is written: 1 to 32 ASCII letters, digits and `_`, the first of them a letter.
///
/// Contracts see a name as the list of its bytes. `==` compares spellings. Names that differ only
/// in case are one name, so compare and look up the result of [`Name::folded`].
#[derive(Clone, Copy)]
pub struct Name {
    // the spelling, followed by zeros
    bytes: [u8; MAX_NAME],
    used: usize,
}

impl Model for Name {
    ghost use Rattle.std.specs.Prelude.{◌≡◌, ℕ, ◌-◌, ◌≤◌, List, ◌++◌, length, take, replicate};
    ghost use Rattle.std.proofs.Common.{arith, length-take-le};
    ghost use Rattle.sdl_lex.specs.Spelling.{IsName};
    ghost use Rattle.plain_laws.proofs.Refilling.{refilled};

    ghost Value = { List ℕ };

    ghost view = { λ n. take n.used n.bytes };

    ghost invariant = { λ n. (n.used ≤ 32) × (length n.bytes ≡ 32)
        × (n.bytes ≡ take n.used n.bytes ++ replicate (32 - n.used) 0) × IsName (take n.used n.bytes) };

    ghost inverse = { λ bs. record { bytes = bs ++ replicate (32 - length bs) 0; used = length bs } };

    ghost inverse_ok = { λ n h i. record {
      bytes = refilled n.used n.bytes h.0 h.1 h.2 i;
      used = length-take-le n.used n.bytes (omega (arith, h.0, h.1)) i;
    } };
}

/// Whether each byte may follow the first byte of a name.
fn are_name_bytes(bytes: &[u8]) -> bool
    ensures { result ≡ list_all is_name_byte bytes.now }
{
    bytes.iter().all(|b| is_name_byte(*b))
}

/// Whether the bytes are a letter, followed by any number of letters, digits and `_`.
fn is_spelled_as_name(bytes: &[u8]) -> bool
    ensures { result ≡ is_spelled_as_name bytes.now }
{
    match bytes {
        [] => false,
        [first, rest @ ..] => first.is_ascii_alphabetic() && are_name_bytes(rest),
    }
}

impl Name {
    /// The name with this spelling, or `None` if the bytes aren't 1 to 32 bytes spelled as a name.
    pub fn new(spelling: &[u8]) -> Option<Name>
        ensures name { IsSome result ↔ IsName spelling.now }
        ensures spelled { IfSome result (λ n. n ≡ spelling.now) }
    {
        if spelling.len() > MAX_NAME || !is_spelled_as_name(spelling) {
            return None;
        }
        let mut bytes = [0; MAX_NAME];
        bytes[..spelling.len()].copy_from_slice(spelling);
        Some(Name {
            bytes,
            used: spelling.len(),
        })
    }

    /// The bytes of the name as it is written.
    pub fn as_bytes(&self) -> &[u8]
        ensures bytes { result.now ≡ self.now }
        ensures name { IsName self.now }
    {
        &self.bytes[..self.used]
    }

    /// The name as it is written.
    pub fn as_str(&self) -> &str
        ensures text { result.now ≡ self.now }
        ensures name { IsName self.now }
    {
        match str::from_utf8(self.as_bytes()) {
            Ok(text) => text,
            Err(_) => unreachable!(),
        }
    }

    /// The name in lower case. Two spellings are the same name exactly if their results are equal.
    pub fn folded(self) -> Name
        ensures { result ≡ folded self }
    {
        let mut bytes = self.bytes;
        bytes.make_ascii_lowercase();
        Name {
            bytes,
            used: self.used,
        }
    }
}

impl AsStr for Name {
    ghost text = { λ n. n };

    fn as_str(&self) -> &str {
        Name::as_str(self)
    }
}

impl PartialEq for Name {
    ghost eq = { bytes_eq };

    ghost laws = { on_per (λ n. n) (partial_equiv_from_equiv nat_list_eq_equiv) };

    fn eq(&self, other: &Name) -> bool {
        self.as_bytes() == other.as_bytes()
    }
}

impl Eq for Name {
    ghost laws = { on_equiv (λ n. n) nat_list_eq_equiv };
}

impl Hash for Name {
    ghost hash_input = { λ n. fed.str n };

    ghost respects_eq = { Prim.search (hashing, rules) };

    fn hash<H: Hasher>(&self, state: &mut H) {
        self.as_str().hash(state);
    }
}

impl fmt::Display for Name {
    ghost output = { λ n. Some n };

    fn fmt<W: fmt::Write>(&self, f: &mut fmt::Formatter<W>) -> fmt::Result {
        fmt::Display::fmt(&self.as_str(), f)
    }
}

impl fmt::Debug for Name {
    fn fmt<W: fmt::Write>(&self, f: &mut fmt::Formatter<W>) -> fmt::Result {
        fmt::Debug::fmt(&self.as_str(), f)
    }
}
