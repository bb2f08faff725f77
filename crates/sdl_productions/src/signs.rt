//! The roles of tokens in an expression.
ghost use Rattle.std.specs.Prelude.{◌≡◌};
ghost use Rattle.sdl_productions.specs.Expressions.{symbol_sign, word_sign, lexeme_sign};
ghost use Rattle.sdl_productions.specs.Stacks.{sign_view, next_sign};

use crate::level::Level;
use sdl_ast::{BinaryOperator, Identifier};
use sdl_lex::{Lexeme, MAX_NUMBER, Symbol, Token, Word};

/// The role of a token in an expression.
#[derive(Clone, Copy)]
pub(crate) enum Sign {
    Number { at: u32, value: u32 },
    Truth { at: u32, value: bool },
    Variable { at: u32, name: Identifier },
    Joins(Level, BinaryOperator),
    Minus(u32),
    Denies(u32),
    Opens(u32),
    Closes,
    Other,
}

/// The role of a symbol in an expression.
fn symbol_sign(at: u32, symbol: Symbol) -> Sign
    ensures { sign_view result ≡ symbol_sign at symbol }
{
    match symbol {
        Symbol::Equal => Sign::Joins(Level::Relations, BinaryOperator::Equal),
        Symbol::NotEqual => Sign::Joins(Level::Relations, BinaryOperator::NotEqual),
        Symbol::Less => Sign::Joins(Level::Relations, BinaryOperator::Less),
        Symbol::LessEqual => Sign::Joins(Level::Relations, BinaryOperator::LessEqual),
        Symbol::Greater => Sign::Joins(Level::Relations, BinaryOperator::Greater),
        Symbol::GreaterEqual => Sign::Joins(Level::Relations, BinaryOperator::GreaterEqual),
        Symbol::Plus => Sign::Joins(Level::Sums, BinaryOperator::Add),
        Symbol::Minus => Sign::Minus(at),
        Symbol::Star => Sign::Joins(Level::Products, BinaryOperator::Multiply),
        Symbol::Slash => Sign::Joins(Level::Products, BinaryOperator::Divide),
        Symbol::Open => Sign::Opens(at),
        Symbol::Close => Sign::Closes,
        _ => Sign::Other,
    }
}

/// The role of a reserved word in an expression.
fn word_sign(at: u32, word: Word) -> Sign
    ensures { sign_view result ≡ word_sign at word }
{
    match word {
        Word::Or => Sign::Joins(Level::Disjunctions, BinaryOperator::Or),
        Word::Xor => Sign::Joins(Level::Disjunctions, BinaryOperator::Xor),
        Word::And => Sign::Joins(Level::Conjunctions, BinaryOperator::And),
        Word::Mod => Sign::Joins(Level::Products, BinaryOperator::Modulo),
        Word::Rem => Sign::Joins(Level::Products, BinaryOperator::Remainder),
        Word::Not => Sign::Denies(at),
        Word::True => Sign::Truth { at, value: true },
        Word::False => Sign::Truth { at, value: false },
        _ => Sign::Other,
    }
}

/// The role of a token in an expression. A number above 2147483647 or a quoted text has no role.
fn token_sign(token: &Token) -> Sign
    ensures { sign_view result ≡ lexeme_sign token.now.start token.now.lexeme }
{
    let at = token.start;
    match token.lexeme {
        Lexeme::Name(name) => Sign::Variable {
            at,
            name: Identifier { name, at },
        },
        Lexeme::Number(value) => {
            if value <= MAX_NUMBER {
                Sign::Number { at, value }
            } else {
                Sign::Other
            }
        }
        Lexeme::Word(word) => word_sign(at, word),
        Lexeme::Symbol(symbol) => symbol_sign(at, symbol),
        Lexeme::Quoted => Sign::Other,
    }
}

/// The role of the next token, or `Other` if there is none.
#[tactic(auto, unfolding(crate::specs::Expressions::sign))]
pub(crate) fn sign_of(tokens: &[Token]) -> Sign
    ensures { sign_view result ≡ next_sign tokens.now }
{
    match tokens.split_first() {
        Some((token, _)) => token_sign(token),
        None => Sign::Other,
    }
}
