//! The process texts that are part of the program, and their sets.
#![tactic(auto)]

ghost use Rattle.std.specs.Prelude.{List, IfOk, IfErr, IsUtf8};
ghost use Rattle.sdl_lex.specs.declared.lexemes.Token as lexeme;
ghost use Rattle.sdl_ast.specs.Plain.{PlainBlock};
ghost use Rattle.turn_verify.specs.Blocks.{MatchesBlock};
ghost use Rattle.turn_verify.specs.Meant.{IsSetOfBlock};
ghost use Rattle.turn_verify.specs.Loaded.{IsLoaded, IsRead, IsSoundText, Gives, IsRefused};

mod limits;
mod monitors_text;
mod own;
mod q703_text;
mod standard_text;

pub use limits::{LimitName, NO_LIMITS, TextLimits, text_limits};
pub use monitors_text::MONITORS;
pub use own::OwnSet;
pub use q703_text::Q703;
pub use standard_text::STANDARD;
use std::alloc::Global;
use turn_verify::Verified;
pub use turn_verify::{LoadFault, load};

/// The set of the text [`STANDARD`].
///
/// # Errors
///
/// Only [`LoadFault::NoMemory`] occurs: `load` accepts the text, as the table of texts shows.
pub fn standard(alloc: Global) -> Result<Verified, LoadFault>
    ensures utf8 { IsUtf8 STANDARD.now }
    ensures accepted { IfOk result (λ v. IsLoaded STANDARD.now v) }
    ensures exact { (ts : List lexeme.Token) (b : PlainBlock) → IsSoundText STANDARD.now ts b → Gives result (MatchesBlock b) }
    ensures every { (ts : List lexeme.Token) (b : PlainBlock) → IsRead STANDARD.now ts b → IfOk result (IsSetOfBlock b) }
    ensures refused { IfErr result (λ e. IsRefused STANDARD.now e) }
{
    OwnSet::Standard.load(alloc)
}

/// The set of the text [`Q703`].
///
/// # Errors
///
/// Only [`LoadFault::NoMemory`] occurs: `load` accepts the text, as the table of texts shows.
pub fn q703(alloc: Global) -> Result<Verified, LoadFault>
    ensures utf8 { IsUtf8 Q703.now }
    ensures accepted { IfOk result (λ v. IsLoaded Q703.now v) }
    ensures exact { (ts : List lexeme.Token) (b : PlainBlock) → IsSoundText Q703.now ts b → Gives result (MatchesBlock b) }
    ensures every { (ts : List lexeme.Token) (b : PlainBlock) → IsRead Q703.now ts b → IfOk result (IsSetOfBlock b) }
    ensures refused { IfErr result (λ e. IsRefused Q703.now e) }
{
    OwnSet::Q703.load(alloc)
}

/// The set of the text [`MONITORS`].
///
/// # Errors
///
/// Only [`LoadFault::NoMemory`] occurs: `load` accepts the text, as the table of texts shows.
pub fn monitors(alloc: Global) -> Result<Verified, LoadFault>
    ensures utf8 { IsUtf8 MONITORS.now }
    ensures accepted { IfOk result (λ v. IsLoaded MONITORS.now v) }
    ensures exact { (ts : List lexeme.Token) (b : PlainBlock) → IsSoundText MONITORS.now ts b → Gives result (MatchesBlock b) }
    ensures every { (ts : List lexeme.Token) (b : PlainBlock) → IsRead MONITORS.now ts b → IfOk result (IsSetOfBlock b) }
    ensures refused { IfErr result (λ e. IsRefused MONITORS.now e) }
{
    OwnSet::Monitors.load(alloc)
}
