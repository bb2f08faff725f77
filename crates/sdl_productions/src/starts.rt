//! The tokens that begin an entity, declaration, section, clause, action, end or answer. Their value is their place.
ghost use Rattle.sdl_productions.specs.Tokens.{an_entity, a_declaration, a_section, a_clause, an_action, an_end, a_choice};

use crate::tokens::Kind;
use sdl_lex::{Lexeme, Symbol, Token, Word};

/// A word that begins an entity of a block.
#[derive(Clone, Copy)]
pub struct AnyEntity;

impl Kind for AnyEntity {
    type Value = u32;

    ghost stands = { λ k. an_entity };

    fn value(self, token: &Token) -> Option<u32> {
        match token.lexeme {
            Lexeme::Word(Word::Signal) => Some(token.start),
            Lexeme::Word(Word::SignalRoute) => Some(token.start),
            Lexeme::Word(Word::Connect) => Some(token.start),
            Lexeme::Word(Word::Synonym) => Some(token.start),
            Lexeme::Word(Word::Process) => Some(token.start),
            _ => None,
        }
    }
}

/// The word DCL, TIMER or SYNONYM.
#[derive(Clone, Copy)]
pub struct AnyDeclaration;

impl Kind for AnyDeclaration {
    type Value = u32;

    ghost stands = { λ k. a_declaration };

    fn value(self, token: &Token) -> Option<u32> {
        match token.lexeme {
            Lexeme::Word(Word::Dcl) => Some(token.start),
            Lexeme::Word(Word::Timer) => Some(token.start),
            Lexeme::Word(Word::Synonym) => Some(token.start),
            _ => None,
        }
    }
}

/// The word STATE or CONNECTION.
#[derive(Clone, Copy)]
pub struct AnySection;

impl Kind for AnySection {
    type Value = u32;

    ghost stands = { λ k. a_section };

    fn value(self, token: &Token) -> Option<u32> {
        match token.lexeme {
            Lexeme::Word(Word::State) => Some(token.start),
            Lexeme::Word(Word::Connection) => Some(token.start),
            _ => None,
        }
    }
}

/// The word INPUT or SAVE.
#[derive(Clone, Copy)]
pub struct AnyClause;

impl Kind for AnyClause {
    type Value = u32;

    ghost stands = { λ k. a_clause };

    fn value(self, token: &Token) -> Option<u32> {
        match token.lexeme {
            Lexeme::Word(Word::Input) => Some(token.start),
            Lexeme::Word(Word::Save) => Some(token.start),
            _ => None,
        }
    }
}

/// A word that begins an action.
#[derive(Clone, Copy)]
pub struct AnyAction;

impl Kind for AnyAction {
    type Value = u32;

    ghost stands = { λ k. an_action };

    fn value(self, token: &Token) -> Option<u32> {
        match token.lexeme {
            Lexeme::Word(Word::Task) => Some(token.start),
            Lexeme::Word(Word::Output) => Some(token.start),
            Lexeme::Word(Word::Set) => Some(token.start),
            Lexeme::Word(Word::Reset) => Some(token.start),
            _ => None,
        }
    }
}

/// A word that begins the end of a transition.
#[derive(Clone, Copy)]
pub struct AnyEnd;

impl Kind for AnyEnd {
    type Value = u32;

    ghost stands = { λ k. an_end };

    fn value(self, token: &Token) -> Option<u32> {
        match token.lexeme {
            Lexeme::Word(Word::NextState) => Some(token.start),
            Lexeme::Word(Word::Stop) => Some(token.start),
            Lexeme::Word(Word::Join) => Some(token.start),
            _ => None,
        }
    }
}

/// The parenthesis that begins an answer, or the word ELSE.
#[derive(Clone, Copy)]
pub struct AnyChoice;

impl Kind for AnyChoice {
    type Value = u32;

    ghost stands = { λ k. a_choice };

    fn value(self, token: &Token) -> Option<u32> {
        match token.lexeme {
            Lexeme::Symbol(Symbol::Open) => Some(token.start),
            Lexeme::Word(Word::Else) => Some(token.start),
            _ => None,
        }
    }
}
