//! What kind of thing the name at a place denotes, judged by the words around it.
use crate::reading::Reading;
use sdl_lex::{Symbol, Word};

/// What kind of thing a name denotes.
#[derive(Clone, Copy, PartialEq, Eq)]
pub enum Class {
    Signal,
    Timer,
    /// A signal, or a timer of the process.
    Stimulus,
    Variable,
    /// A synonym of the block.
    Synonym,
    /// A synonym of the process.
    OwnSynonym,
    Process,
    State,
    Connection,
    Route,
}

impl Class {
    /// The name of the kind.
    pub fn text(self) -> &'static str {
        match self {
            Class::Signal => "SIGNAL",
            Class::Timer => "TIMER",
            Class::Stimulus => "SIGNAL or TIMER",
            Class::Variable => "variable",
            Class::Synonym | Class::OwnSynonym => "SYNONYM",
            Class::Process => "PROCESS",
            Class::State => "STATE",
            Class::Connection => "CONNECTION",
            Class::Route => "SIGNALROUTE",
        }
    }

    /// Whether each process has its own names of this kind.
    pub fn is_local(self) -> bool {
        !matches!(
            self,
            Class::Signal | Class::Process | Class::Route | Class::Synonym
        )
    }

    /// Whether a name used as this kind may be declared as the other kind.
    pub fn takes(self, other: Class) -> bool {
        self == other
            || (self == Class::Stimulus && other.is_stimulus())
            || (self == Class::Synonym && other == Class::OwnSynonym)
            || (self == Class::Variable && other.is_synonym())
    }

    /// Whether it is a synonym.
    fn is_synonym(self) -> bool {
        matches!(self, Class::Synonym | Class::OwnSynonym)
    }

    /// Whether an INPUT takes this kind.
    fn is_stimulus(self) -> bool {
        matches!(self, Class::Signal | Class::Timer)
    }

    /// Whether no two names of these kinds may be equal.
    pub fn clashes(self, other: Class) -> bool {
        self == other
            || (self.is_stimulus() && other.is_stimulus())
            || (self == Class::Variable && other == Class::OwnSynonym)
            || (self == Class::OwnSynonym && other == Class::Variable)
    }
}

/// The word that governs a token, and whether the token is in parentheses after it.
struct Governing {
    word: Word,
    inside: bool,
}

/// Whether a word governs the names after it.
fn governs(word: Word) -> bool {
    matches!(
        word,
        Word::Join
            | Word::Output
            | Word::To
            | Word::From
            | Word::With
            | Word::Set
            | Word::Reset
            | Word::Input
            | Word::Save
            | Word::Task
            | Word::Decision
            | Word::NextState
            | Word::Dcl
            | Word::Synonym
    )
}

/// The word that governs a token, if any does.
fn governing_word(read: &Reading<'_>, index: usize) -> Option<Governing> {
    let mut closed: usize = 0;
    let mut inside = false;
    for at in (0..index).rev() {
        match read.symbol(at) {
            Some(Symbol::Close) => closed = closed.saturating_add(1),
            Some(Symbol::Open) if closed == 0 => inside = true,
            Some(Symbol::Open) => closed = closed.saturating_sub(1),
            _ => {}
        }
        if let Some(word) = read.word(at) {
            if governs(word) {
                return Some(Governing { word, inside });
            }
        }
    }
    None
}

/// Whether a token is the last item in parentheses, after a comma.
fn is_last(read: &Reading<'_>, index: usize) -> bool {
    read.symbol(index.saturating_add(1)) == Some(Symbol::Close)
        && read.symbol(index.saturating_sub(1)) == Some(Symbol::Comma)
}

/// Whether a token is in the parentheses of an answer, which a colon follows.
fn is_in_answer(read: &Reading<'_>, index: usize) -> bool {
    for at in index..read.tokens.len() {
        match read.symbol(at) {
            Some(Symbol::Close) => {
                return read.symbol(at.saturating_add(1)) == Some(Symbol::Colon);
            }
            Some(Symbol::Open) | Some(Symbol::Semicolon) => return false,
            _ => {}
        }
    }
    false
}

/// The kind of thing that the name with this index denotes.
pub fn class_of(read: &Reading<'_>, index: usize) -> Class {
    let Some(Governing { word, inside }) = governing_word(read, index) else {
        return Class::Variable;
    };
    if matches!(word, Word::Dcl | Word::Synonym) || is_in_answer(read, index) {
        return Class::Synonym;
    }
    match word {
        Word::Join => Class::Connection,
        Word::NextState => Class::State,
        Word::To | Word::From => Class::Process,
        Word::With => Class::Signal,
        Word::Output if !inside => Class::Signal,
        Word::Input if !inside => Class::Stimulus,
        Word::Save => Class::Stimulus,
        Word::Reset => Class::Timer,
        Word::Set if is_last(read, index) => Class::Timer,
        _ => Class::Variable,
    }
}
