//! The warnings of an accepted text, as lines that point at it.
ghost use Rattle.std.specs.Prelude.{◌≡◌, ◌≤◌, ◌++◌, ◌∷◌, [], Ok, IfOk, OnOk, IsTrue, IsFalse, length, string_bytes};
ghost use Rattle.sdl_lex.specs.Lexed.{Answers};
ghost use Rattle.sdl_tree.specs.Syntax.{Reads};
ghost use Rattle.sdl_ast.specs.Views.{block_of};
ghost use Rattle.script_point.specs.Pointing.{token_end};
ghost use Rattle.turn_verify.specs.Meanings.{meaning_of};
ghost use Rattle.mtp2_play.specs.Warned.{IsLong, IsShort, IsWarning, PointsWhole, AreTold, WarnsOf};
ghost use Rattle.sdl_warnings.specs.Printed.{kind_text};

use script_point::{Notes, Word, line_begin, line_end, point, point_head};
use sdl_lex::{Token, tokens};
use sdl_tables::BlockTable;
use sdl_tree::{Block, parse};
use sdl_warnings::{Warning, warnings};
use std::alloc::{AllocError, Global};
use turn_verify::meaning;

/// The most octets of a line that is printed with a warning.
const MOST_SHOWN: usize = 1000;

/// Where the token ends that begins at a place; one byte further if none does.
#[tactic(auto, using(script_point::proofs::TokenEnds::skipped, script_point::proofs::TokenEnds::found))]
fn token_end(tokens: &[Token], place: u32) -> usize
    ensures { result ≡ token_end tokens.now place }
{
    for token in tokens {
        if token.start == place {
            return token.end as usize;
        }
    }
    place as usize + 1
}

/// Whether the line in which a place lies is too long to be printed with a warning.
#[tactic(auto, using(crate::proofs::Warnings::is_long, crate::proofs::Warnings::is_short))]
fn is_long(text: &[u8], place: usize) -> bool
    requires { place ≤ length text.now }
    ensures long { IsTrue result → IsLong text.now place }
    ensures short { IsFalse result → IsShort text.now place }
{
    let begin = line_begin(text, place);
    let end = line_end(text, place);
    end - begin > MOST_SHOWN
}

/// The lines that point at a warning with this sentence: its place, the line, and carets under the word.
fn point_whole(
    alloc: Global,
    text: &[u8],
    tokens: &[Token],
    warning: Warning,
    said: String,
) -> Result<Vec<u8>, AllocError>
    ensures { string_bytes said ≡ kind_text warning.kind → IfOk result (λ v. PointsWhole text.now tokens.now warning v.items) }
{
    let notes = Notes {
        said,
        under: String::new(alloc),
        hint: String::new(alloc),
    };
    let word = Word {
        start: warning.at as usize,
        end: token_end(tokens, warning.at),
    };
    point(alloc, text, word, warning.kind.name(), &notes)
}

/// The lines that point at a warning of a text with these tokens; only the first of them if the word's line is too long.
fn point_at(
    alloc: Global,
    text: &str,
    tokens: &[Token],
    warning: Warning,
) -> Result<Vec<u8>, AllocError>
    ensures { IfOk result (λ v. IsWarning text.now tokens.now warning v.items) }
{
    let bytes = text.as_bytes();
    let start = (warning.at as usize).min(bytes.len());
    let said = format!(in alloc; "{}", warning.kind)?;
    if is_long(bytes, start) {
        return point_head(alloc, bytes, start, warning.kind.name(), said.as_str());
    }
    point_whole(alloc, bytes, tokens, warning, said)
}

/// These lines after a name.
fn named(alloc: Global, name: &str, lines: &[u8]) -> Result<Vec<u8>, AllocError>
    ensures { IfOk result (λ v. v.items ≡ name.now ++ lines.now) }
{
    let mut all = Vec::new(alloc);
    all.extend_from_slice(name.as_bytes())?;
    all.extend_from_slice(lines)?;
    Ok(all)
}

/// Appends a name and the lines that point at a warning. When memory runs out it appends nothing.
fn push_warning(
    alloc: Global,
    told: &mut Vec<u8>,
    name: &str,
    text: &str,
    tokens: &[Token],
    warning: Warning,
) -> Result<(), AllocError>
    ensures { OnOk result (AreTold name.now text.now tokens.now (warning ∷ []) told.old.items told.new.items) }
{
    let lines = point_at(alloc, text, tokens, warning)?;
    let all = named(alloc, name, &lines)?;
    told.extend_from_slice(&all)?;
    Ok(())
}

/// Appends the lines of these warnings.
#[tactic(auto, using(crate::proofs::Warnings::none_told, crate::proofs::Warnings::more_told, crate::proofs::Warnings::all_told))]
fn push_all(
    alloc: Global,
    told: &mut Vec<u8>,
    name: &str,
    text: &str,
    tokens: &[Token],
    found: &[Warning],
) -> Result<(), AllocError>
    ensures { OnOk result (AreTold name.now text.now tokens.now found.now told.old.items told.new.items) }
{
    for warning in found {
        push_warning(alloc, told, name, text, tokens, *warning)?;
    }
    Ok(())
}

/// Appends the lines of the warnings of a text with these tokens that reads as a block and means another one. Returns
/// whether there is one.
fn push_of_tables(
    alloc: Global,
    told: &mut Vec<u8>,
    name: &str,
    text: &str,
    tokens: &[Token],
    written: &BlockTable,
    meant: &BlockTable,
) -> Result<bool, AllocError>
    requires lexed { Answers text.now (Ok tokens.now) }
    requires reads { Reads tokens.now (block_of written.now) }
    requires means { block_of meant.now ≡ meaning_of (block_of written.now) }
    ensures { IfOk result (λ some. WarnsOf name.now text.now told.old.items told.new.items some) }
{
    let found = warnings(alloc, written, meant)?;
    push_all(alloc, told, name, text, tokens, &found)?;
    let none = found.as_slice().is_empty();
    Ok(!none)
}

/// A block with its tables, or `AllocError` if a name is a duplicate.
fn table_of<'a>(alloc: Global, block: &'a Block) -> Result<BlockTable<'a>, AllocError>
    ensures { IfOk result (λ t. t ≡ block.now) }
{
    match BlockTable::new(alloc, block) {
        Ok(table) => Ok(table),
        Err(_) => Err(AllocError),
    }
}

/// Appends the lines of the warnings of a text with these tokens that reads as this block. Returns whether there is one.
fn push_of_block(
    alloc: Global,
    told: &mut Vec<u8>,
    name: &str,
    text: &str,
    tokens: &[Token],
    block: &Block,
) -> Result<bool, AllocError>
    requires lexed { Answers text.now (Ok tokens.now) }
    requires reads { Reads tokens.now (block_of block.now) }
    ensures { IfOk result (λ some. WarnsOf name.now text.now told.old.items told.new.items some) }
{
    let meaning = meaning(alloc, block)?;
    let written = table_of(alloc, block)?;
    let meant = table_of(alloc, &meaning)?;
    push_of_tables(alloc, told, name, text, tokens, &written, &meant)
}

/// Appends the lines of the warnings of an accepted text, each after the text's name. Returns whether there is one.
///
/// # Errors
///
/// When memory runs out, or the text isn't accepted.
pub fn push_warnings(
    alloc: Global,
    told: &mut Vec<u8>,
    name: &str,
    text: &str,
) -> Result<bool, AllocError>
    ensures { IfOk result (λ some. WarnsOf name.now text.now told.old.items told.new.items some) }
{
    match tokens(alloc, text) {
        Ok(tokens) => match parse(alloc, &tokens) {
            Ok(block) => push_of_block(alloc, told, name, text, &tokens, &block),
            Err(_) => Err(AllocError),
        },
        Err(_) => Err(AllocError),
    }
}
