//! Notes for a refusal, and the place where it was found if it names none or names only a beginning.
ghost use Rattle.std.specs.Prelude.{List, Ok, IfOk, IfSome, IsTrue};
ghost use Rattle.sdl_lex.specs.Lexed.{Answers};
ghost use Rattle.sdl_lex.specs.declared.lexemes.Token as lexeme;
ghost use Rattle.script_check.specs.Telling.{Fits, FitsRule, IsNameAt, IsNamed, IsTokenAt};

use crate::answers::no_answer;
use crate::ends::no_end;
use crate::limits::tell_over;
use crate::operands::Side;
use crate::receivers::{no_receiver, two_receivers};
use crate::sort_notes::explain;
use crate::sorts::{Cause, wrong_sort};
use crate::synonym_sorts::wrong_synonym;
use script_point::{
    Explained, Notes, Reading, add_notes, process_at, push_all, tokens_of, unset_read,
};
use sdl_lex::{Lexeme, Name, Symbol, Token, Word};
use sdl_sound::{RuleFault, Step};
use sdl_tables::{BlockTable, ProcessTable, TableFault};
use sdl_tree::{Block, ParseFault, Sort, UnaryOperator, parse};
use std::alloc::{AllocError, Global};
use turn_verify::{LoadFault, meaning};

/// The most tokens of a process that are parsed again with each token that might follow them.
const MOST_TRIED: usize = 4096;

/// Notes where a variable is read unset.
fn of_unset(
    alloc: Global,
    told: &mut Explained,
    block: &BlockTable,
    path: &[Step],
    variable: Name,
) -> Result<(), AllocError> {
    match unset_read(alloc, block, path, variable)? {
        Some((process, place)) => {
            told.found = Some(place);
            let words = [process.as_str(), " reads ", variable.as_str()];
            push_all(&mut told.notes.said, &words)?;
            told.notes
                .said
                .push_str(", which nothing has set on this way")
        }
        None => Ok(()),
    }
}

/// Whether a token may be the last one of an operand.
fn ends_operand(read: &Reading<'_>, index: usize) -> bool {
    match read.tokens.get(index) {
        Some(token) => match token.lexeme {
            Lexeme::Number(_) | Lexeme::Name(_) | Lexeme::Symbol(Symbol::Close) => true,
            Lexeme::Word(word) => word == Word::True || word == Word::False,
            _ => false,
        },
        None => false,
    }
}

/// Why a name after a minus is wrong: it is a Boolean.
fn negated(read: &Reading<'_>, index: usize) -> Option<Cause> {
    let sign = index.saturating_sub(1);
    if !read.is_name(index)
        || read.symbol(sign) != Some(Symbol::Minus)
        || ends_operand(read, sign.saturating_sub(1))
    {
        return None;
    }
    Some(Cause::Operand {
        side: Side::Behind(UnaryOperator::Negate),
        want: Some(Sort::Integer),
        found: Some(Sort::Boolean),
        is_denied: false,
    })
}

/// Adds the notes for a rule that is broken at a place of a process.
fn of_place(
    alloc: Global,
    told: &mut Explained,
    block: &BlockTable<'_>,
    process: &ProcessTable<'_>,
    read: &Reading<'_>,
    fault: &RuleFault,
) -> Result<(), AllocError> {
    match fault {
        RuleFault::WrongSort(at) => {
            let cause = match negated(read, read.index_at(*at)) {
                Some(cause) => Some(cause),
                None => wrong_sort(block, process, *at),
            };
            match cause {
                Some(cause) => explain(alloc, &mut told.notes, &cause),
                None => Ok(()),
            }
        }
        RuleFault::NoReceiver(at) => {
            no_receiver(alloc, &mut told.notes, block, process, read.text, *at)
        }
        RuleFault::TwoReceivers(at) => two_receivers(alloc, &mut told.notes, block, process, *at),
        RuleFault::NoAnswer(at) => no_answer(&mut told.notes, process, *at),
        RuleFault::NoState(at) => no_end(told, process, read, *at),
        _ => Ok(()),
    }
}

/// The place of a fault about which the syntax tree yields notes.
fn place_of(fault: &RuleFault) -> Option<u32> {
    match fault {
        RuleFault::WrongSort(at)
        | RuleFault::NoState(at)
        | RuleFault::NoReceiver(at)
        | RuleFault::TwoReceivers(at)
        | RuleFault::NoAnswer(at) => Some(*at),
        _ => None,
    }
}

/// Adds the notes for a rule that a block with these tables breaks.
fn of_block(
    alloc: Global,
    told: &mut Explained,
    block: &BlockTable<'_>,
    read: &Reading<'_>,
    fault: &RuleFault,
) -> Result<(), AllocError> {
    match fault {
        RuleFault::Limit(limit) => tell_over(alloc, told, block, *limit),
        RuleFault::Unset { variable, path } => of_unset(alloc, told, block, &path.steps, *variable),
        _ => {
            let Some(at) = place_of(fault) else {
                return Ok(());
            };
            let Some(process) = process_at(block, at) else {
                return Ok(());
            };
            of_place(alloc, told, block, process, read, fault)
        }
    }
}

/// Adds the notes for a rule that a block breaks.
fn of_tree(
    alloc: Global,
    told: &mut Explained,
    block: &Block,
    read: &Reading<'_>,
    fault: &RuleFault,
) -> Result<(), AllocError> {
    match BlockTable::new(alloc, block) {
        Ok(table) => of_block(alloc, told, &table, read, fault),
        Err(TableFault::NoMemory) => Err(AllocError),
        Err(TableFault::DoubleName(_)) => Ok(()),
    }
}

/// Whether a synonym of a block as it is written has an expression of a wrong sort, and the note on it.
fn of_synonyms(
    alloc: Global,
    notes: &mut Notes,
    block: &Block,
    fault: &RuleFault,
) -> Result<bool, AllocError> {
    let RuleFault::WrongSort(at) = fault else {
        return Ok(false);
    };
    match wrong_synonym(alloc, block, *at)? {
        Some(cause) => {
            explain(alloc, notes, &cause)?;
            Ok(true)
        }
        None => Ok(false),
    }
}

/// Adds the notes that the syntax tree of a text yields for a rule that it breaks.
fn add_of_tree(
    alloc: Global,
    told: &mut Explained,
    read: &Reading<'_>,
    fault: &RuleFault,
) -> Result<(), AllocError> {
    match parse(alloc, read.tokens) {
        Ok(block) => {
            if of_synonyms(alloc, &mut told.notes, &block, fault)? {
                return Ok(());
            }
            let meant = meaning(alloc, &block)?;
            of_tree(alloc, told, &meant, read, fault)
        }
        Err(ParseFault::NoMemory) => Err(AllocError),
        Err(_) => Ok(()),
    }
}

/// Whether a token is this name, without regard to case.
fn is_named(token: &Token, name: Name) -> bool
    ensures { IsTrue result → IsNamed name token.now.lexeme }
{
    match token.lexeme {
        Lexeme::Name(other) => other.folded() == name.folded(),
        _ => false,
    }
}

/// The place, if a token there is this name; else none.
fn name_at(tokens: &[Token], name: Name, place: u32) -> Option<u32>
    ensures { IfSome result (IsNameAt tokens.now name) }
{
    for token in tokens {
        if token.start == place && is_named(token, name) {
            return Some(place);
        }
    }
    None
}

/// The place, if a token begins there; else none.
fn token_at(tokens: &[Token], place: u32) -> Option<u32>
    ensures { IfSome result (IsTokenAt tokens.now) }
{
    for token in tokens {
        if token.start == place {
            return Some(place);
        }
    }
    None
}

/// The place where a broken rule was found, if the token there fits the rule.
fn fitting_rule(tokens: &[Token], fault: &RuleFault, place: u32) -> Option<u32>
    ensures { IfSome result (FitsRule tokens.now fault.now) }
{
    match fault {
        RuleFault::NoState(_) | RuleFault::Limit(_) => token_at(tokens, place),
        RuleFault::Unset { variable, .. } => name_at(tokens, *variable, place),
        _ => None,
    }
}

/// The place where a refusal was found, if the token there fits the refusal.
fn fitting(tokens: &[Token], fault: &LoadFault, found: Option<u32>) -> Option<u32>
    ensures { IfSome result (Fits tokens.now fault.now) }
{
    match found {
        None => None,
        Some(place) => match fault {
            LoadFault::Rule { fault, .. } => fitting_rule(tokens, fault, place),
            _ => None,
        },
    }
}

/// The index of a token that the parser can't accept, if its process has too many tokens before it to try candidates.
fn far_token(read: &Reading<'_>, fault: &LoadFault) -> Option<usize> {
    let LoadFault::Parse {
        fault: ParseFault::Unexpected(index),
        ..
    } = fault
    else {
        return None;
    };
    let before = index.saturating_sub(read.process(*index));
    (before > MOST_TRIED).then_some(*index)
}

/// Adds the note for such a token, without the tokens that might stand there.
fn of_far(notes: &mut Notes, read: &Reading<'_>, index: usize) -> Result<(), AllocError> {
    if index < read.tokens.len() {
        let words = ["`", read.spelled(index), "` can't stand here"];
        push_all(&mut notes.said, &words)
    } else {
        notes.said.push_str("the text ends here")
    }
}

/// Adds the notes that the tokens of a text yield for a refusal.
fn add_of_tokens(
    alloc: Global,
    notes: &mut Notes,
    read: &Reading<'_>,
    fault: &LoadFault,
) -> Result<(), AllocError> {
    match far_token(read, fault) {
        Some(index) => of_far(notes, read, index),
        None => add_notes(alloc, notes, read, fault),
    }
}

/// Adds the notes for a refusal of a text, and its place if it may name none.
fn say(
    alloc: Global,
    told: &mut Explained,
    read: &Reading<'_>,
    fault: &LoadFault,
) -> Result<(), AllocError> {
    add_of_tokens(alloc, &mut told.notes, read, fault)?;
    match fault {
        LoadFault::Rule { fault, .. } => add_of_tree(alloc, told, read, fault),
        _ => Ok(()),
    }
}

/// The notes for a refusal of a text, and the place where it was found if it names none.
pub(crate) fn told_of(alloc: Global, text: &str, fault: &LoadFault) -> Result<Explained, AllocError>
    ensures { IfOk result (λ told. (ts : List lexeme.Token) → Answers text.now (Ok ts) → IfSome told.found (Fits ts fault.now)) }
{
    let tokens = tokens_of(alloc, text)?;
    let read = Reading {
        text,
        tokens: tokens.as_slice(),
    };
    let mut told = Explained {
        notes: Notes::new(alloc),
        found: None,
    };
    say(alloc, &mut told, &read, fault)?;
    told.found = fitting(&tokens, fault, told.found);
    Ok(told)
}
