//! Tokens, and the faults for which a text has none.
ghost use Rattle.std.specs.Prelude.{◌≡◌};
ghost use Rattle.std.specs.List.{list_any};
ghost use Rattle.sdl_lex.specs.declared.lexemes.LexFault.TheVariants.{NoMemory};
ghost use Rattle.sdl_lex.specs.Lexed.{is_synonym, marked, all_marked};

use crate::Name;
use std::alloc::AllocFailed;
use std::fmt;
use thiserror::Error;

/// A reserved word. A text may write it in upper or lower case.
#[derive(Clone, Copy, Debug, PartialEq, Eq)]
pub enum Word {
    Block,
    EndBlock,
    Signal,
    SignalRoute,
    From,
    To,
    With,
    Env,
    Connect,
    Process,
    EndProcess,
    Dcl,
    Timer,
    Start,
    State,
    EndState,
    Input,
    Save,
    Connection,
    EndConnection,
    Task,
    Output,
    Sender,
    Set,
    Reset,
    Now,
    Decision,
    Else,
    EndDecision,
    NextState,
    Stop,
    Join,
    Comment,
    Not,
    And,
    Or,
    Xor,
    Mod,
    Rem,
    Integer,
    Boolean,
    True,
    False,
    Procedure,
    EndProcedure,
    Call,
    Fpar,
    In,
    Return,
    Synonym,
}

/// A symbol of one or two characters.
#[derive(Clone, Copy, Debug, PartialEq, Eq)]
pub enum Symbol {
    /// `;`
    Semicolon,
    /// `,`
    Comma,
    /// `:`
    Colon,
    /// `:=`
    Assign,
    /// `(`
    Open,
    /// `)`
    Close,
    /// `+`
    Plus,
    /// `-`
    Minus,
    /// `*`
    Star,
    /// `/`
    Slash,
    /// `=`
    Equal,
    /// `/=`
    NotEqual,
    /// `<`
    Less,
    /// `<=`
    LessEqual,
    /// `>`
    Greater,
    /// `>=`
    GreaterEqual,
}

/// What a token is.
#[derive(Clone, Copy, Debug, PartialEq, Eq)]
pub enum Lexeme {
    /// A name that isn't a reserved word.
    Name(Name),
    /// A number from 0 to 2147483647.
    Number(u32),
    /// A reserved word.
    Word(Word),
    /// A symbol.
    Symbol(Symbol),
    /// A quoted text, with its quotes. It has no effect, so its contents aren't kept.
    Quoted,
}

/// A token and its place: the text's bytes from `start` up to, but not including, `end`.
#[derive(Clone, Copy, Debug, PartialEq, Eq)]
pub struct Token {
    pub lexeme: Lexeme,
    pub start: u32,
    pub end: u32,
    /// Whether the word SYNONYM is in the token's text. Only then may a name stand for a constant.
    pub with_synonyms: bool,
}

impl Token {
    /// Whether this is the word SYNONYM.
    fn is_synonym(&self) -> bool
        ensures { result ≡ is_synonym self.now }
    {
        match self.lexeme {
            Lexeme::Word(Word::Synonym) => true,
            _ => false,
        }
    }

    /// Returns this token, marked with whether the word SYNONYM is in its text.
    fn marked(&self, with_synonyms: bool) -> Token
        ensures { result ≡ marked with_synonyms self.now }
    {
        Token {
            lexeme: self.lexeme,
            start: self.start,
            end: self.end,
            with_synonyms,
        }
    }
}

/// Whether the word SYNONYM is among the tokens.
fn has_synonym(tokens: &[Token]) -> bool
    ensures { result ≡ list_any is_synonym tokens.now }
{
    tokens.iter().any(|token| token.is_synonym())
}

/// Marks each token with whether the word SYNONYM is among them.
pub(crate) fn mark(tokens: &mut [Token])
    ensures { tokens.new ≡ all_marked tokens.old }
{
    let with_synonyms = has_synonym(tokens);
    for token in tokens.iter_mut() {
        *token = token.marked(with_synonyms);
    }
}

/// Why a text has no tokens, with the byte offset, from 0, at which the fault begins.
#[derive(Clone, Copy, Debug, PartialEq, Eq, Drop, Error)]
pub enum LexFault {
    /// A byte that begins no token, white space or comment.
    BadCharacter(u32),
    /// A comment or a quoted text without end.
    OpenComment(u32),
    /// A name of more than 32 bytes, a number above 2147483647, or the first byte past the limit of
    /// 262,144 bytes per text.
    TooLong(u32),
    /// Memory ran out.
    NoMemory,
}

impl fmt::Display for LexFault {
    ghost use Rattle.std.specs.Prelude.{Some};
    ghost use Rattle.sdl_lex.specs.Printed.{fault_text};

    ghost output = { λ e. Some (fault_text e) };

    fn fmt<W: fmt::Write>(&self, f: &mut fmt::Formatter<W>) -> fmt::Result {
        f.write_str(match self {
            Self::BadCharacter(_) => "L1 BadCharacter",
            Self::OpenComment(_) => "L2 OpenComment",
            Self::TooLong(_) => "L3 TooLong",
            Self::NoMemory => "out of memory",
        })
    }
}

impl<T: Drop> From<AllocFailed<T>> for LexFault {
    ghost from_gives = { λ _ e. e ≡ NoMemory };

    fn from(_failed: AllocFailed<T>) -> LexFault {
        LexFault::NoMemory
    }
}
