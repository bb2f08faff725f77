//! Checks whether bytes that arrive in parts are UTF-8.
ghost use Rattle.std.specs.Prelude.{◌≡◌, ◌↔◌, ◌<◌, ◌≤◌, ◌-◌, [], ◌∷◌, ◌++◌, List, ℕ, length, replicate, IsTrue, IsUtf8};

use arrayvec::ArrayVec;
use simdutf8::Checker;
use std::simd::prelude::*;

/// How many bytes are checked at once.
const BLOCK: usize = 64;

/// At most 64 bytes, filled up with zeros to a block.
fn block_of(bytes: &[u8]) -> u8x64
    requires { length bytes.now ≤ 64 }
    ensures { result ≡ bytes.now ++ replicate (64 - length bytes.now) 0 }
{
    let mut block = [0; BLOCK];
    block[..bytes.len()].copy_from_slice(bytes);
    u8x64::from_array(block)
}

/// A check of the bytes so far for UTF-8.
#[derive(Drop)]
pub struct TextCheck {
    checker: Checker,
    /// Bytes that wait until the block is full.
    waiting: ArrayVec<u8, 64>,
    ghost short: { length waiting.items < 64 },
}

impl TextCheck {
    ghost use Rattle.plain_text.specs.Reading.{HasTaken};

    /// A check without bytes.
    pub fn new() -> TextCheck
        ensures { HasTaken result [] }
    {
        TextCheck {
            checker: Checker::new(),
            waiting: ArrayVec::new(),
        }
    }

    /// Adds one byte.
    fn push(&mut self, byte: u8)
        ensures { (bytes : List ℕ) → HasTaken self.old bytes → HasTaken self.new (bytes ++ byte ∷ []) }
    {
        self.waiting.push(byte);
        if self.waiting.len() == BLOCK {
            self.checker = self.checker.step(block_of(self.waiting.as_slice()));
            self.waiting.clear();
        }
    }

    /// Adds the bytes of a part.
    pub fn push_all(&mut self, part: &[u8])
        ensures { (bytes : List ℕ) → HasTaken self.old bytes → HasTaken self.new (bytes ++ part.now) }
    {
        for byte in part {
            self.push(*byte);
        }
    }

    /// Whether all bytes are UTF-8.
    pub fn is_text(&self) -> bool
        ensures { (bytes : List ℕ) → HasTaken self.now bytes → (IsTrue result ↔ IsUtf8 bytes) }
    {
        self.checker
            .step(block_of(self.waiting.as_slice()))
            .finish()
    }
}
