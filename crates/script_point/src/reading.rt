//! A text with its tokens, accessed by index.
use sdl_lex::{Lexeme, Symbol, Token, Word, line_of};
use std::str;

/// A token of a text as it is written, or "" if the text doesn't contain it.
pub fn text_of<'a>(text: &'a str, token: &Token) -> &'a str {
    match text
        .as_bytes()
        .get(token.start as usize..token.end as usize)
    {
        None => "",
        Some(bytes) => match str::from_utf8(bytes) {
            Ok(text) => text,
            Err(_) => "",
        },
    }
}

/// A text with its tokens.
#[derive(Clone, Copy)]
pub struct Reading<'a> {
    pub text: &'a str,
    pub tokens: &'a [Token],
}

impl<'a> Reading<'a> {
    /// A token as it is written, or "" if there is no token with this index.
    pub fn spelled(&self, index: usize) -> &'a str {
        match self.tokens.get(index) {
            Some(token) => text_of(self.text, token),
            None => "",
        }
    }

    /// The lexeme of a token.
    pub fn lexeme(&self, index: usize) -> Option<Lexeme> {
        match self.tokens.get(index) {
            Some(token) => Some(token.lexeme),
            None => None,
        }
    }

    /// The reserved word that a token is, if it is one.
    pub fn word(&self, index: usize) -> Option<Word> {
        match self.lexeme(index) {
            Some(Lexeme::Word(word)) => Some(word),
            _ => None,
        }
    }

    /// The symbol that a token is, if it is one.
    pub fn symbol(&self, index: usize) -> Option<Symbol> {
        match self.lexeme(index) {
            Some(Lexeme::Symbol(symbol)) => Some(symbol),
            _ => None,
        }
    }

    /// Whether a token is a name.
    pub fn is_name(&self, index: usize) -> bool {
        matches!(self.lexeme(index), Some(Lexeme::Name(_)))
    }

    /// Whether two tokens are spelled alike, without regard to case.
    pub fn same(&self, one: usize, other: usize) -> bool {
        self.spelled(one).eq_ignore_ascii_case(self.spelled(other))
    }

    /// The index of the token that begins at a place, or the number of tokens if none does.
    pub fn index_at(&self, place: u32) -> usize {
        match self.tokens.iter().position(|token| token.start == place) {
            Some(index) => index,
            None => self.tokens.len(),
        }
    }

    /// The line of a token, from 1.
    pub fn line(&self, index: usize) -> usize {
        match self.tokens.get(index) {
            Some(token) => line_of(self.text, token.start),
            None => 1,
        }
    }

    /// The index of the last token before `before` that is this word.
    pub fn last_word(&self, before: usize, wanted: Word) -> Option<usize> {
        for at in (0..before).rev() {
            if self.word(at) == Some(wanted) {
                return Some(at);
            }
        }
        None
    }

    /// The index of the name of the process that contains a token, or 0 outside processes.
    pub fn process(&self, index: usize) -> usize {
        match self.last_word(index, Word::Process) {
            Some(at) => at.saturating_add(1),
            None => 0,
        }
    }
}
