//! The kinds of tokens: words, symbols, names, numbers, and the alternatives that one token may have in a production.
ghost use Rattle.std.specs.Prelude.{◌≡◌};
ghost use Rattle.sdl_productions.specs.Tokens.{same_word, same_symbol, a_word, a_symbol, a_number, a_name, a_sort, a_truth, environment, a_party, a_destination, a_synonym, a_constant, a_negated, synonym_constant, a_count, the_number, a_closing, a_quoted, a_relation, relation_value, sender_value, literal_value};

use crate::comparison::Comparison;
use crate::tokens::Kind;
use sdl_ast::{Constant, Destination, Identifier, Literal, Party, Relation, Sort};
use sdl_lex::{Lexeme, MAX_NUMBER, Name, Symbol, Token, Word};

/// Whether a word is the expected one.
fn is_same_word(found: Word, wanted: Word) -> bool
    ensures { result ≡ same_word found wanted }
{
    found == wanted
}

/// Whether a symbol is the expected one.
fn is_same_symbol(found: Symbol, wanted: Symbol) -> bool
    ensures { result ≡ same_symbol found wanted }
{
    found == wanted
}

/// This word. Its value is its place.
impl Kind for Word {
    type Value = u32;

    ghost stands = { a_word };

    fn value(self, token: &Token) -> Option<u32> {
        match token.lexeme {
            Lexeme::Word(found) => is_same_word(found, self).then_some(token.start),
            _ => None,
        }
    }
}

/// This symbol. Its value is its place.
impl Kind for Symbol {
    type Value = u32;

    ghost stands = { a_symbol };

    fn value(self, token: &Token) -> Option<u32> {
        match token.lexeme {
            Lexeme::Symbol(found) => is_same_symbol(found, self).then_some(token.start),
            _ => None,
        }
    }
}

/// The name that a token is, with its place.
fn name_of(token: &Token) -> Option<Identifier>
    ensures { result ≡ a_name token.now }
{
    match token.lexeme {
        Lexeme::Name(name) => Some(Identifier {
            name,
            at: token.start,
        }),
        _ => None,
    }
}

/// Any name, with its place.
#[derive(Clone, Copy)]
pub struct AnyName;

impl Kind for AnyName {
    type Value = Identifier;

    ghost stands = { λ k. a_name };

    fn value(self, token: &Token) -> Option<Identifier> {
        name_of(token)
    }
}

/// This name, in upper or lower case.
#[derive(Clone, Copy)]
pub struct Closing(pub Name);

impl Kind for Closing {
    type Value = Identifier;

    ghost stands = { λ k. a_closing k.0 };

    fn value(self, token: &Token) -> Option<Identifier> {
        match name_of(token) {
            Some(found) => (found.name.folded() == self.0.folded()).then_some(found),
            None => None,
        }
    }
}

/// The value of a token that is a number within the limit.
fn number_of(token: &Token) -> Option<u32>
    ensures { result ≡ a_number token.now }
{
    match token.lexeme {
        Lexeme::Number(value) => (value <= MAX_NUMBER).then_some(value),
        _ => None,
    }
}

/// Any number.
#[derive(Clone, Copy)]
pub struct AnyNumber;

impl Kind for AnyNumber {
    type Value = u32;

    ghost stands = { λ k. a_number };

    fn value(self, token: &Token) -> Option<u32> {
        number_of(token)
    }
}

/// Any number of 1 or more.
#[derive(Clone, Copy)]
pub struct AnyCount;

impl Kind for AnyCount {
    type Value = u32;

    ghost stands = { λ k. a_count };

    fn value(self, token: &Token) -> Option<u32> {
        match number_of(token) {
            Some(value) => (1 <= value).then_some(value),
            None => None,
        }
    }
}

/// This number, in any spelling.
#[derive(Clone, Copy)]
pub struct ThatNumber(pub u32);

impl Kind for ThatNumber {
    type Value = u32;

    ghost stands = { λ k. the_number k.0 };

    fn value(self, token: &Token) -> Option<u32> {
        match number_of(token) {
            Some(value) => (value == self.0).then_some(value),
            None => None,
        }
    }
}

/// Any sort.
#[derive(Clone, Copy)]
pub struct AnySort;

impl Kind for AnySort {
    type Value = Sort;

    ghost stands = { λ k. a_sort };

    fn value(self, token: &Token) -> Option<Sort> {
        match token.lexeme {
            Lexeme::Word(Word::Integer) => Some(Sort::Integer),
            Lexeme::Word(Word::Boolean) => Some(Sort::Boolean),
            _ => None,
        }
    }
}

/// ENV, if a token is this word.
fn environment_of(token: &Token) -> Option<Party>
    ensures { result ≡ environment token.now }
{
    match token.lexeme {
        Lexeme::Word(Word::Env) => Some(Party::Environment),
        _ => None,
    }
}

/// ENV, or the name of a process.
#[derive(Clone, Copy)]
pub struct AnyParty;

impl Kind for AnyParty {
    type Value = Party;

    ghost stands = { λ k. a_party };

    fn value(self, token: &Token) -> Option<Party> {
        match environment_of(token) {
            Some(party) => Some(party),
            None => match name_of(token) {
                Some(name) => Some(Party::Process(name)),
                None => None,
            },
        }
    }
}

/// SENDER with its place, if a token is this word.
fn sender_of(token: &Token) -> Option<Destination>
    ensures { result ≡ sender_value token.now.start token.now.lexeme }
{
    match token.lexeme {
        Lexeme::Word(Word::Sender) => Some(Destination::Sender(token.start)),
        _ => None,
    }
}

/// SENDER, or the name of a process.
#[derive(Clone, Copy)]
pub struct AnyDestination;

impl Kind for AnyDestination {
    type Value = Destination;

    ghost stands = { λ k. a_destination };

    fn value(self, token: &Token) -> Option<Destination> {
        match sender_of(token) {
            Some(destination) => Some(destination),
            None => match name_of(token) {
                Some(name) => Some(Destination::Process(name)),
                None => None,
            },
        }
    }
}

/// The truth value of a token that is TRUE or FALSE.
fn truth_of(token: &Token) -> Option<bool>
    ensures { result ≡ a_truth token.now }
{
    match token.lexeme {
        Lexeme::Word(Word::True) => Some(true),
        Lexeme::Word(Word::False) => Some(false),
        _ => None,
    }
}

/// The literal that a token is.
fn literal_of(token: &Token) -> Option<Literal>
    ensures { result ≡ literal_value (a_number token.now) (a_truth token.now) }
{
    match number_of(token) {
        Some(value) => Some(Literal::Integer(value as i32)),
        None => match truth_of(token) {
            Some(value) => Some(Literal::Boolean(value)),
            None => None,
        },
    }
}

/// The name that a token is, if it may stand for a constant.
fn synonym_of(token: &Token) -> Option<Identifier>
    ensures { result ≡ a_synonym token.now }
{
    if token.with_synonyms {
        name_of(token)
    } else {
        None
    }
}

/// A synonym as a constant: the number 0 until the synonym's value replaces it.
fn synonym_at(at: u32, is_negated: bool, name: Identifier) -> Constant
    ensures { result ≡ synonym_constant at is_negated name }
{
    Constant {
        at,
        value: Literal::Integer(0),
        is_negated,
        synonym: Some(name),
    }
}

/// A number, TRUE, FALSE or the name of a synonym, as a constant.
#[derive(Clone, Copy)]
pub struct AnyConstant;

impl Kind for AnyConstant {
    type Value = Constant;

    ghost stands = { λ k. a_constant };

    fn value(self, token: &Token) -> Option<Constant> {
        match literal_of(token) {
            Some(value) => Some(Constant {
                at: token.start,
                value,
                is_negated: false,
                synonym: None,
            }),
            None => match synonym_of(token) {
                Some(name) => Some(synonym_at(token.start, false, name)),
                None => None,
            },
        }
    }
}

/// A number or the name of a synonym, after a minus at this place.
#[derive(Clone, Copy)]
pub struct Negated(pub u32);

impl Kind for Negated {
    type Value = Constant;

    ghost stands = { λ k. a_negated k.0 };

    fn value(self, token: &Token) -> Option<Constant> {
        match number_of(token) {
            Some(value) => Some(Constant {
                at: self.0,
                value: Literal::Integer(-(value as i32)),
                is_negated: false,
                synonym: None,
            }),
            None => match synonym_of(token) {
                Some(name) => Some(synonym_at(self.0, true, name)),
                None => None,
            },
        }
    }
}

/// The relation that a token is.
fn relation_of(token: &Token) -> Option<Relation>
    ensures { result ≡ relation_value token.now.lexeme }
{
    match token.lexeme {
        Lexeme::Symbol(Symbol::Equal) => Some(Relation::Equal),
        Lexeme::Symbol(Symbol::NotEqual) => Some(Relation::NotEqual),
        Lexeme::Symbol(Symbol::Less) => Some(Relation::Less),
        Lexeme::Symbol(Symbol::LessEqual) => Some(Relation::LessEqual),
        Lexeme::Symbol(Symbol::Greater) => Some(Relation::Greater),
        Lexeme::Symbol(Symbol::GreaterEqual) => Some(Relation::GreaterEqual),
        _ => None,
    }
}

/// Any relation, with its place.
#[derive(Clone, Copy)]
pub struct AnyRelation;

impl Kind for AnyRelation {
    type Value = Comparison;

    ghost stands = { λ k. a_relation };

    fn value(self, token: &Token) -> Option<Comparison> {
        match relation_of(token) {
            Some(relation) => Some(Comparison {
                at: token.start,
                relation,
            }),
            None => None,
        }
    }
}

/// A quoted text. Its value is its place.
#[derive(Clone, Copy)]
pub struct AnyQuoted;

impl Kind for AnyQuoted {
    type Value = u32;

    ghost stands = { λ k. a_quoted };

    fn value(self, token: &Token) -> Option<u32> {
        match token.lexeme {
            Lexeme::Quoted => Some(token.start),
            _ => None,
        }
    }
}
