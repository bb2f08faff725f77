//! The tokens with which the text could go on at a syntax fault (P1).
use crate::notes::Notes;
use crate::reading::{Reading, text_of};
use crate::saying::{ListedWord, push_all, push_items};
use sdl_lex::{LexFault, Lexeme, Symbol, Token, Word, tokens};
use sdl_tree::{ParseFault, parse};
use std::alloc::{AllocError, Global};

/// Every symbol and reserved word that may continue a text, and a sample name, number and quoted text.
const CANDIDATES: &str =
    "NOT ( - TRUE FALSE NOW Some_other_name_0 2147483646 '' TASK OUTPUT SET RESET DECISION NEXTSTATE STOP JOIN
    = /= < <= > >= + * / MOD REM AND OR XOR ; , : := )
    BLOCK ENDBLOCK SIGNAL SIGNALROUTE FROM TO WITH ENV CONNECT SYNONYM PROCESS ENDPROCESS DCL TIMER START STATE ENDSTATE INPUT SAVE
    CONNECTION ENDCONNECTION SENDER ELSE ENDDECISION INTEGER BOOLEAN";

/// The candidate that represents any name.
const NAME: &str = "Some_other_name_0";

/// The candidate that represents any number.
const NUMBER: &str = "2147483646";

/// The tokens with which an expression may begin.
const OPERANDS: [&str; 7] = ["NOT", "(", "-", "TRUE", "FALSE", NAME, NUMBER];

/// The tokens with which a statement may begin, or a transition end.
const STATEMENTS: [&str; 8] = [
    "TASK",
    "OUTPUT",
    "SET",
    "RESET",
    "DECISION",
    "NEXTSTATE",
    "STOP",
    "JOIN",
];

/// The operators between two operands.
const OPERATORS: [&str; 15] = [
    "=", "/=", "<", "<=", ">", ">=", "+", "-", "*", "/", "MOD", "REM", "AND", "OR", "XOR",
];

/// The groups of which every token would be accepted.
#[derive(Clone, Copy)]
struct Groups {
    operands: bool,
    statements: bool,
    operators: bool,
}

impl Groups {
    /// The groups of which every token is in `wanted`.
    fn of(wanted: &[&str]) -> Groups {
        Groups {
            operands: has_all(wanted, &OPERANDS),
            statements: has_all(wanted, &STATEMENTS),
            operators: has_all(wanted, &OPERATORS),
        }
    }

    /// Whether the name of a group covers this accepted token.
    fn name(self, one: &str) -> bool {
        (self.operands && has(&OPERANDS, one))
            || (self.statements && has(&STATEMENTS, one))
            || (self.operators && has(&OPERATORS, one))
    }
}

/// Whether a list contains this text.
fn has(all: &[&str], one: &str) -> bool {
    all.iter().any(|it| *it == one)
}

/// Whether every token of a group is accepted.
fn has_all(wanted: &[&str], group: &[&str]) -> bool {
    group.iter().all(|one| has(wanted, *one))
}

/// The tokens of the candidates, in order.
fn candidates(alloc: Global) -> Result<Vec<Token>, AllocError> {
    match tokens(alloc, CANDIDATES) {
        Ok(tokens) => Ok(tokens),
        Err(LexFault::NoMemory) => Err(AllocError),
        Err(_) => Ok(Vec::new(alloc)),
    }
}

/// Whether some text begins with these tokens.
fn begins_text(alloc: Global, row: &[Token]) -> Result<bool, AllocError> {
    match parse(alloc, row) {
        Ok(_) => Ok(true),
        Err(ParseFault::Unexpected(index)) => Ok(index >= row.len()),
        Err(ParseFault::TooDeep(_)) => Ok(true),
        Err(ParseFault::NoMemory) => Err(AllocError),
    }
}

/// Whether a signal, a route, a CONNECT or a process begins with a word.
fn begins_entity(word: Option<Word>) -> bool {
    matches!(
        word,
        Some(Word::Signal) | Some(Word::SignalRoute) | Some(Word::Connect) | Some(Word::Process)
    )
}

/// The index of the word that begins the last signal, route, CONNECT or process before `index`; `index` if there is
/// none.
fn entity(read: &Reading<'_>, index: usize) -> usize {
    for at in (0..index).rev() {
        if begins_entity(read.word(at)) {
            return at;
        }
    }
    index
}

/// The tokens before an index that decide what may follow: the head of the block, and the last entity before it.
fn row_before(alloc: Global, read: &Reading<'_>, index: usize) -> Result<Vec<Token>, AllocError> {
    let begins = entity(read, index);
    let head = if begins < index {
        block_head(read, begins)
    } else {
        index
    };
    let mut row = Vec::new(alloc);
    row.extend_from_slice(read.tokens.get(..head).unwrap_or(&[]))?;
    row.extend_from_slice(read.tokens.get(begins..index).unwrap_or(&[]))?;
    Ok(row)
}

/// The number of tokens in the head of the block: up to the first semicolon.
fn block_head(read: &Reading<'_>, before: usize) -> usize {
    for at in 0..before {
        if read.symbol(at) == Some(Symbol::Semicolon) {
            return at.saturating_add(1);
        }
    }
    before
}

/// Whether the word SYNONYM is in the text of these tokens.
fn with_synonyms(row: &[Token]) -> bool {
    match row.first() {
        Some(token) => token.with_synonyms,
        None => false,
    }
}

/// The candidates that may follow these tokens, as they are spelled.
fn accepted(alloc: Global, row: &mut Vec<Token>) -> Result<Vec<&'static str>, AllocError> {
    let candidates = candidates(alloc)?;
    let with_synonyms = with_synonyms(row.as_slice());
    let mut wanted = Vec::new(alloc);
    for candidate in &candidates {
        let mut token = *candidate;
        token.with_synonyms = with_synonyms;
        row.push(token)?;
        if begins_text(alloc, row.as_slice())? {
            wanted.push(text_of(CANDIDATES, candidate))?;
        }
        let _last = row.pop();
    }
    Ok(wanted)
}

/// The reserved word that this word closes.
fn opened_by(word: Word) -> Option<Word> {
    match word {
        Word::EndBlock => Some(Word::Block),
        Word::EndProcess => Some(Word::Process),
        Word::EndState => Some(Word::State),
        Word::EndConnection => Some(Word::Connection),
        _ => None,
    }
}

/// The index of a token of the text that may be required again: a closing name, or the number of instances.
fn repeated(read: &Reading<'_>, index: usize) -> Option<usize> {
    let before = index.checked_sub(1)?;
    if read.symbol(before) == Some(Symbol::Comma) {
        return before.checked_sub(1);
    }
    let word = read.word(before)?;
    let opened = opened_by(word)?;
    let at = read.last_word(before, opened)?;
    Some(at.saturating_add(1))
}

/// The token of the text itself that may stand there, if there is one.
fn repeated_text<'a>(
    alloc: Global,
    read: &Reading<'a>,
    row: &mut Vec<Token>,
    index: usize,
) -> Result<Option<&'a str>, AllocError> {
    let Some(found) = repeated(read, index) else {
        return Ok(None);
    };
    let Some(token) = read.tokens.get(found) else {
        return Ok(None);
    };
    row.push(*token)?;
    if begins_text(alloc, row.as_slice())? {
        Ok(Some(read.spelled(found)))
    } else {
        Ok(None)
    }
}

/// An accepted token as the note names it.
fn item_of<'a>(one: &'a str, is_number: bool) -> ListedWord<'a> {
    let text = if one == NAME {
        "a name"
    } else if one == NUMBER && is_number {
        "a number of 1 or more"
    } else if one == NUMBER {
        "a number"
    } else if one == "''" {
        "a quoted text"
    } else {
        return ListedWord {
            text: one,
            is_sign: true,
        };
    };
    ListedWord {
        text,
        is_sign: false,
    }
}

/// Adds a word to the items if it is wanted.
fn push_group(
    items: &mut Vec<ListedWord<'_>>,
    is_wanted: bool,
    text: &'static str,
) -> Result<(), AllocError> {
    if is_wanted {
        items.push(ListedWord {
            text,
            is_sign: false,
        })?;
    }
    Ok(())
}

/// Adds the accepted tokens to the items: a whole group by one name, other tokens singly.
fn push_wanted(
    items: &mut Vec<ListedWord<'_>>,
    wanted: &[&'static str],
    is_number: bool,
) -> Result<(), AllocError> {
    let groups = Groups::of(wanted);
    push_group(items, groups.operands, "an expression")?;
    push_group(items, groups.statements, "a statement")?;
    push_group(items, groups.operators, "an operator")?;
    for one in wanted {
        if !groups.name(*one) {
            items.push(item_of(*one, is_number))?;
        }
    }
    Ok(())
}

/// Adds the description of a token to the text.
fn push_called(text: &mut String, read: &Reading<'_>, index: usize) -> Result<(), AllocError> {
    let own = read.spelled(index);
    match read.lexeme(index) {
        Some(Lexeme::Name(_)) => push_all(text, &["the name ", own]),
        Some(Lexeme::Word(_)) => push_all(text, &["the reserved word ", own]),
        Some(Lexeme::Number(_)) => text.push_str("a number"),
        Some(Lexeme::Symbol(_)) => push_all(text, &["`", own, "`"]),
        Some(Lexeme::Quoted) => text.push_str("a quoted text"),
        None => Ok(()),
    }
}

/// Adds the token of the text itself that may stand there; the end of the text if there is no other item.
fn push_repeated<'a>(
    alloc: Global,
    items: &mut Vec<ListedWord<'a>>,
    read: &Reading<'a>,
    row: &mut Vec<Token>,
    index: usize,
) -> Result<(), AllocError> {
    match repeated_text(alloc, read, row, index)? {
        Some(text) => {
            items.push(ListedWord {
                text,
                is_sign: true,
            })?;
            Ok(())
        }
        None => {
            let is_first = items.is_empty();
            push_group(items, is_first, "the end of the text")
        }
    }
}

/// What may follow these tokens; the text has the token with this index next, or its end.
fn items_behind<'a>(
    alloc: Global,
    read: &Reading<'a>,
    row: &mut Vec<Token>,
    index: usize,
) -> Result<Vec<ListedWord<'a>>, AllocError> {
    let wanted = accepted(alloc, row)?;
    let is_number = matches!(read.lexeme(index), Some(Lexeme::Number(_)));
    let mut items = Vec::new(alloc);
    push_wanted(&mut items, &wanted, is_number)?;
    if !has(&wanted, NAME) && !has(&wanted, NUMBER) {
        push_repeated(alloc, &mut items, read, row, index)?;
    }
    Ok(items)
}

/// Adds what may stand at the token with this index, or after the last token.
fn push_items_at(
    alloc: Global,
    text: &mut String,
    read: &Reading<'_>,
    index: usize,
) -> Result<(), AllocError> {
    let mut row = row_before(alloc, read, index)?;
    let items = items_behind(alloc, read, &mut row, index)?;
    push_items(text, &items, "", " or ")
}

/// Notes for P1: the token with this index, and the tokens accepted there or after the last token.
pub fn unexpected(
    alloc: Global,
    notes: &mut Notes,
    read: &Reading<'_>,
    index: usize,
) -> Result<(), AllocError> {
    push_items_at(alloc, &mut notes.under, read, index)?;
    notes.under.push_str(" is expected")?;
    if index < read.tokens.len() {
        push_called(&mut notes.said, read, index)?;
        return notes.said.push_str(" can't stand here");
    }
    if read.tokens.is_empty() {
        return notes.said.push_str("there is no text");
    }
    notes.under.push_str(" after it")?;
    notes.said.push_str("the text ends here")
}
