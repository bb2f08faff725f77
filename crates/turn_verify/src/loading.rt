//! Loads a text to a valid set.

ghost use Rattle.std.specs.Prelude.{◌≡◌, ◌↔◌, List, Some, option_map, IsTrue, Ok, IfOk, IfErr, IsOkUnless};
ghost use Rattle.sdl_lex.specs.Lexed as lexis;
ghost use Rattle.sdl_lex.specs.declared.lexemes.Token as lexeme;
ghost use Rattle.sdl_ast.specs.Plain.{PlainBlock};
ghost use Rattle.sdl_ast.specs.Views.{block_of};
ghost use Rattle.sdl_compile.specs.Expansion.{expanded};
ghost use Rattle.sdl_compile.specs.Texts.{IsExpansion, RefusesText, SoundText};
ghost use Rattle.sdl_compile.specs.Blocks.{MatchesBlock};
ghost use Rattle.sdl_compile.specs.Meaning.{RunsAsMeant};
ghost use Rattle.sdl_compile.specs.Meant.{IsSetOfBlock};
ghost use Rattle.turn_verify.specs.Printed.{fault_text, place_text};
ghost use Rattle.turn_verify.specs.Loaded.{IsLoaded, IsSoundText, IsWritten, IsRead, Gives, IsRefused, line_at, token_place, rule_place};

use sdl_ast::Block;
use sdl_compile::{Expansion, Resolved, compile, expand, set_law};
use sdl_lex::{LexFault, Token, line_of, tokens};
use sdl_sound::RuleFault;
use sdl_tree::{ParseFault, parse};
use std::alloc::Global;
use std::fmt;
use thiserror::Error;
use turn_check::{Verified, verify};

/// Why the first layer that refuses a text does so, with the line of the place, from 1. A line ends with its line feed.
#[derive(Debug, Drop, Error)]
pub enum LoadFault {
    /// The text has no tokens (L1 to L3). The line is that of the byte where the fault begins.
    Lex {
        fault: LexFault,
        line: usize,
    },
    /// The tokens read as no tree (P1), or as one that is too high (P2). The line is that of the token, of the last
    /// token if they end too early, or 1 if there are none. For P2 it is that of the statement.
    Parse {
        fault: ParseFault,
        line: usize,
    },
    /// The tree breaks a rule (S1 to S11). Limits (S10), and variables that are read before they are set (S11), have no
    /// line.
    Rule {
        fault: RuleFault,
        line: Option<usize>,
    },
    /// Memory ran out.
    NoMemory,
}

impl LoadFault {
    /// Whether memory ran out, so that the text isn't refused.
    pub fn wants_memory(&self) -> bool
        ensures { IsTrue result ↔ (self.now ≡ LoadFault.NoMemory) }
    {
        match self {
            LoadFault::NoMemory => true,
            LoadFault::Lex { .. } | LoadFault::Parse { .. } | LoadFault::Rule { .. } => false,
        }
    }
}

/// The line that is printed after a refusal, if there is one.
#[derive(Clone, Copy)]
struct AtLine(Option<usize>);

impl fmt::Display for AtLine {
    ghost output = { λ l. Some (place_text l.0) };

    fn fmt<W: fmt::Write>(&self, f: &mut fmt::Formatter<W>) -> fmt::Result {
        match self.0 {
            Some(line) => write!(f, " line {line}"),
            None => Ok(()),
        }
    }
}

impl fmt::Display for LoadFault {
    ghost output = { λ e. Some (fault_text e) };

    fn fmt<W: fmt::Write>(&self, f: &mut fmt::Formatter<W>) -> fmt::Result {
        match self {
            Self::Lex { fault, line } => write!(f, "{fault} line {line}"),
            Self::Parse { fault, line } => write!(f, "{fault} line {line}"),
            Self::Rule { fault, line } => {
                let place = AtLine(*line);
                write!(f, "{fault}{place}")
            }
            Self::NoMemory => f.write_str("out of memory"),
        }
    }
}

/// Loads a text: its tokens, their tree, the values of its synonyms, the rules, the code of its transitions, and the
/// check of that code.
///
/// It accepts exactly a text that has tokens, reads as a tree at most 32 high, and breaks no rule. On every input that
/// fits a transition of the set, its run is what the text's transition at the same place means. Each certificate names
/// the longest path of the text's transition.
///
/// # Errors
///
/// Returns the fault of the first layer that has one. Of several broken rules it names the one with the least number.
/// Any call may return [`LoadFault::NoMemory`] instead.
pub fn load(alloc: Global, text: &str) -> Result<Verified, LoadFault>
    // An accepted text is sound, and the result is its set.
    ensures accepted { IfOk result (λ v. IsLoaded text.now v) }
    // Each sound text is accepted, unless memory runs out.
    ensures exact { (ts : List lexeme.Token) (b : PlainBlock) → IsSoundText text.now ts b
        → Gives result (MatchesBlock b) }
    // For each block that the text means, the result is the set of that block.
    ensures every { (ts : List lexeme.Token) (b : PlainBlock) → IsRead text.now ts b
        → IfOk result (λ v. IsSetOfBlock b v) }
    // A refusal names a fault of the text, and its line.
    ensures refused { IfErr result (λ e. IsRefused text.now e) }
{
    let tokens = tokens_of(alloc, text)?;
    let block = block_in(alloc, text, &tokens)?;
    set_of(alloc, text, &block)
}

/// The tokens of the text.
fn tokens_of(alloc: Global, text: &str) -> Result<Vec<Token>, LoadFault>
    ensures lexed { IfOk result (λ v. lexis.Answers text.now (Ok v.items)) }
    ensures exact { (ts : List lexeme.Token) → lexis.Answers text.now (Ok ts) → Gives result (λ v. ts ≡ v.items) }
    ensures refused { IfErr result (λ e. IsRefused text.now e) }
{
    match tokens(alloc, text) {
        Ok(tokens) => Ok(tokens),
        Err(LexFault::NoMemory) => Err(LoadFault::NoMemory),
        Err(fault) => Err(LoadFault::Lex {
            fault,
            line: line_of(text, lex_place(fault)),
        }),
    }
}

/// The tree that these tokens of the text read as.
fn block_in(alloc: Global, text: &str, tokens: &[Token]) -> Result<Block, LoadFault>
    requires { lexis.Answers text.now (Ok tokens.now) }
    ensures read { IfOk result (λ block. IsWritten text.now tokens.now (block_of block)) }
    ensures exact { (b : PlainBlock) → IsWritten text.now tokens.now b → Gives result (λ block. block_of block ≡ b) }
    ensures refused { IfErr result (λ e. IsRefused text.now e) }
{
    match parse(alloc, tokens) {
        Ok(block) => Ok(block),
        Err(ParseFault::NoMemory) => Err(LoadFault::NoMemory),
        Err(ParseFault::Unexpected(index)) => Err(LoadFault::Parse {
            fault: ParseFault::Unexpected(index),
            line: line_of(text, token_place(tokens, index)),
        }),
        Err(ParseFault::TooDeep(place)) => Err(LoadFault::Parse {
            fault: ParseFault::TooDeep(place),
            line: line_of(text, place),
        }),
    }
}

/// The set of a tree of the text.
fn set_of(alloc: Global, text: &str, block: &Block) -> Result<Verified, LoadFault>
    ensures sound { IfOk result (λ v. SoundText (block_of block.now)) }
    ensures matches { IfOk result (λ v. MatchesBlock (expanded (block_of block.now)) v) }
    ensures runs { IfOk result (λ v. RunsAsMeant (expanded (block_of block.now)) v) }
    ensures set { IfOk result (λ v. IsSetOfBlock (expanded (block_of block.now)) v) }
    ensures exact { SoundText (block_of block.now) → Gives result (MatchesBlock (expanded (block_of block.now))) }
    ensures refused { IfErr result (λ e. (ts : List lexeme.Token) → IsWritten text.now ts (block_of block.now)
        → IsRefused text.now e) }
{
    match expand(alloc, block) {
        Ok(expansion) => set_meant(alloc, text, &expansion),
        Err(_) => Err(LoadFault::NoMemory),
    }
}

/// The set of what a tree of the text means.
fn set_meant(alloc: Global, text: &str, expansion: &Expansion) -> Result<Verified, LoadFault>
    ensures sound { IfOk result (λ v. (b : PlainBlock) → IsExpansion b expansion.now → SoundText b) }
    ensures matches { IfOk result (λ v. (b : PlainBlock) → IsExpansion b expansion.now → MatchesBlock (expanded b) v) }
    ensures runs { IfOk result (λ v. (b : PlainBlock) → IsExpansion b expansion.now → RunsAsMeant (expanded b) v) }
    ensures set { IfOk result (λ v. (b : PlainBlock) → IsExpansion b expansion.now → IsSetOfBlock (expanded b) v) }
    ensures exact { (b : PlainBlock) → IsExpansion b expansion.now → SoundText b → Gives result (MatchesBlock (expanded b)) }
    ensures refused { IfErr result (λ e. (b : PlainBlock) (ts : List lexeme.Token) → IsExpansion b expansion.now
        → IsWritten text.now ts b → IsRefused text.now e) }
{
    match expansion.resolve(alloc) {
        Ok(resolved) => verified(alloc, &resolved),
        Err(fault) => Err(rule_refusal(text, fault)),
    }
}

/// The refusal of a text for a rule that it breaks.
fn rule_refusal(text: &str, fault: RuleFault) -> LoadFault
    ensures memory { fault ≡ RuleFault.NoMemory → result ≡ LoadFault.NoMemory }
    ensures refused { (b : PlainBlock) (ts : List lexeme.Token) → RefusesText b fault → IsWritten text.now ts b
        → IsRefused text.now result }
{
    if wants_memory(&fault) {
        return LoadFault::NoMemory;
    }
    let line = rule_line(text, &fault);
    LoadFault::Rule { fault, line }
}

/// The set of a sound tree. Fails only if memory runs out.
fn verified(alloc: Global, resolved: &Resolved) -> Result<Verified, LoadFault>
    ensures matches { IfOk result (λ v. MatchesBlock (block_of resolved.now) v) }
    ensures runs { IfOk result (λ v. RunsAsMeant (block_of resolved.now) v) }
    ensures set { IfOk result (λ v. IsSetOfBlock (block_of resolved.now) v) }
    ensures memory { IsOkUnless result LoadFault.NoMemory }
{
    set_law();
    let _sound = resolved.block();
    match compile(alloc, resolved) {
        Ok(draft) => match verify(draft) {
            Ok(verified) => Ok(verified),
            Err(_) => unreachable!(),
        },
        Err(_) => Err(LoadFault::NoMemory),
    }
}

/// The place of a lexical fault.
fn lex_place(fault: LexFault) -> u32
    ensures { result ≡ lexis.place_of fault }
{
    match fault {
        LexFault::BadCharacter(place) | LexFault::OpenComment(place) | LexFault::TooLong(place) => {
            place
        }
        LexFault::NoMemory => 0,
    }
}

/// The place of the token with this index; of the last token if there are fewer; 0 if there are none.
fn token_place(tokens: &[Token], index: usize) -> u32
    ensures { result ≡ token_place tokens.now index }
{
    match tokens.get(index.min(tokens.len().saturating_sub(1))) {
        Some(token) => token.start,
        None => 0,
    }
}

/// Whether memory ran out, so that no rule is broken.
fn wants_memory(fault: &RuleFault) -> bool
    ensures { IsTrue result ↔ (fault.now ≡ RuleFault.NoMemory) }
{
    match fault {
        RuleFault::NoMemory => true,
        _ => false,
    }
}

/// The line of the place of a broken rule, if the fault has a place.
fn rule_line(text: &str, fault: &RuleFault) -> Option<usize>
    ensures { result ≡ option_map (line_at text.now) (rule_place fault.now) }
{
    match fault {
        RuleFault::DoubleName(place)
        | RuleFault::UnknownName(place)
        | RuleFault::WrongSort(place)
        | RuleFault::NoState(place)
        | RuleFault::NoReceiver(place)
        | RuleFault::TwoReceivers(place)
        | RuleFault::JoinCycle(place)
        | RuleFault::NoAnswer(place)
        | RuleFault::BadDivisor(place) => Some(line_of(text, *place)),
        RuleFault::Limit(_) | RuleFault::Unset { .. } | RuleFault::NoMemory => None,
    }
}
