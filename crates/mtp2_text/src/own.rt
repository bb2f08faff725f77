//! The sets in the program: their words, their texts, and the loaded sets.

ghost use Rattle.std.specs.Prelude.{◌≡◌, List, IfOk, IfErr, IfSome, IsNone, IsUtf8};
ghost use Rattle.sdl_lex.specs.declared.lexemes.Token as lexeme;
ghost use Rattle.sdl_ast.specs.Plain.{PlainBlock};
ghost use Rattle.turn_verify.specs.Blocks.{MatchesBlock};
ghost use Rattle.turn_verify.specs.Meant.{IsSetOfBlock};
ghost use Rattle.turn_verify.specs.Loaded.{IsLoaded, IsRead, IsSoundText, Gives, IsRefused};
ghost use Rattle.mtp2_text.specs.Own.{text_of, word_of, NamesNone};

use crate::monitors_text::MONITORS;
use crate::q703_text::Q703;
use crate::standard_text::STANDARD;
use std::alloc::Global;
use turn_verify::{LoadFault, Verified, load};

/// The set of a text.
fn set_of(alloc: Global, text: &str) -> Result<Verified, LoadFault>
    ensures utf8 { IsUtf8 text.now }
    ensures accepted { IfOk result (IsLoaded text.now) }
    ensures exact { (ts : List lexeme.Token) (b : PlainBlock) → IsSoundText text.now ts b → Gives result (MatchesBlock b) }
    ensures every { (ts : List lexeme.Token) (b : PlainBlock) → IsRead text.now ts b → IfOk result (IsSetOfBlock b) }
    ensures refused { IfErr result (IsRefused text.now) }
{
    load(alloc, text)
}

/// A set of processes that is part of the program.
#[derive(Clone, Copy, PartialEq, Eq, Debug)]
pub enum OwnSet {
    /// `standard`: the signalling link terminal (Q.703), as a profile.
    Standard,
    /// `q703`: the signalling link terminal by the letter of Q.703.
    Q703,
    /// `monitors`: the two error rate monitors (Q.703, 10).
    Monitors,
}

impl OwnSet {
    /// The set that a word names; `None` if it names none of them.
    #[tactic(auto, using(crate::proofs::Naming::names_none))]
    pub fn named(word: &str) -> Option<OwnSet>
        ensures some { IfSome result (λ set. word.now ≡ word_of set) }
        ensures none { IsNone result → NamesNone word.now }
    {
        match word {
            "standard" => Some(Self::Standard),
            "q703" => Some(Self::Q703),
            "monitors" => Some(Self::Monitors),
            _ => None,
        }
    }

    /// The word that names the set.
    pub fn word(self) -> &'static str
        ensures { result.now ≡ word_of self }
    {
        match self {
            Self::Standard => "standard",
            Self::Q703 => "q703",
            Self::Monitors => "monitors",
        }
    }

    /// The text of the set.
    pub fn text(self) -> &'static str
        ensures { result.now ≡ text_of self }
    {
        match self {
            Self::Standard => STANDARD,
            Self::Q703 => Q703,
            Self::Monitors => MONITORS,
        }
    }

    /// The set of the text.
    ///
    /// # Errors
    ///
    /// Only [`LoadFault::NoMemory`] occurs: `load` accepts the text, as the table of texts shows.
    pub fn load(self, alloc: Global) -> Result<Verified, LoadFault>
        ensures utf8 { IsUtf8 (text_of self) }
        ensures accepted { IfOk result (IsLoaded (text_of self)) }
        ensures exact { (ts : List lexeme.Token) (b : PlainBlock) → IsSoundText (text_of self) ts b → Gives result (MatchesBlock b) }
        ensures every { (ts : List lexeme.Token) (b : PlainBlock) → IsRead (text_of self) ts b → IfOk result (IsSetOfBlock b) }
        ensures refused { IfErr result (IsRefused (text_of self)) }
    {
        set_of(alloc, self.text())
    }
}
