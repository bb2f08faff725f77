//! The words of a text at which refusals point.
ghost use Rattle.std.specs.Prelude.{◌≡◌, option_map, Some};
ghost use Rattle.mtp2_text.specs.Loaded.{token_place, rule_place};
ghost use Rattle.script_point.specs.Pointing.{token_end, token_word, lex_word, parse_word, word_of, runs_off, is_found_elsewhere, named_word, word_in, name_text};

use crate::shown::Word;
use mtp2_text::LoadFault;
use sdl_lex::{LexFault, Token};
use sdl_sound::RuleFault;
use sdl_tree::ParseFault;
use std::fmt;

/// The end of the token that begins at a place, or `place + 1` if none does.
#[tactic(auto, using(crate::proofs::TokenEnds::skipped, crate::proofs::TokenEnds::found))]
fn token_end(tokens: &[Token], place: u32) -> usize
    ensures { result ≡ token_end tokens.now place }
{
    for token in tokens {
        if token.start == place {
            return token.end as usize;
        }
    }
    place as usize + 1
}

/// The token that begins at a place.
fn token_word(tokens: &[Token], place: u32) -> Word
    ensures { result ≡ token_word tokens.now place }
{
    Word {
        start: place as usize,
        end: token_end(tokens, place),
    }
}

/// The place of the token with this index; of the last token if the index is too high; 0 if there are none.
fn token_place(tokens: &[Token], index: usize) -> u32
    ensures { result ≡ token_place tokens.now index }
{
    match tokens.get(index.min(tokens.len().saturating_sub(1))) {
        Some(token) => token.start,
        None => 0,
    }
}

/// The byte at which a fault of the lexis begins.
fn lex_word(fault: LexFault) -> Option<Word>
    ensures { result ≡ lex_word fault }
{
    match fault {
        LexFault::BadCharacter(place) | LexFault::OpenComment(place) | LexFault::TooLong(place) => {
            Some(Word {
                start: place as usize,
                end: place as usize + 1,
            })
        }
        LexFault::NoMemory => None,
    }
}

/// The token that the parser can't accept, or the first one of a statement that is nested too deep.
fn parse_word(tokens: &[Token], fault: ParseFault) -> Option<Word>
    ensures { result ≡ parse_word tokens.now fault }
{
    match fault {
        ParseFault::Unexpected(index) => Some(token_word(tokens, token_place(tokens, index))),
        ParseFault::TooDeep(place) => Some(token_word(tokens, place)),
        ParseFault::NoMemory => None,
    }
}

/// The token where a rule is broken, if the fault has a place.
fn rule_word(tokens: &[Token], fault: &RuleFault) -> Option<Word>
    ensures { result ≡ option_map (token_word tokens.now) (rule_place fault.now) }
{
    match fault {
        RuleFault::DoubleName(place)
        | RuleFault::UnknownName(place)
        | RuleFault::WrongSort(place)
        | RuleFault::NoState(place)
        | RuleFault::NoReceiver(place)
        | RuleFault::TwoReceivers(place)
        | RuleFault::JoinCycle(place)
        | RuleFault::NoAnswer(place)
        | RuleFault::BadDivisor(place) => Some(token_word(tokens, *place)),
        RuleFault::Limit(_) | RuleFault::Unset { .. } | RuleFault::NoMemory => None,
    }
}

/// The word at which a refusal of a text with these tokens points, if the refusal has a place.
fn word_of(tokens: &[Token], fault: &LoadFault) -> Option<Word>
    ensures { result ≡ word_of tokens.now fault.now }
{
    match fault {
        LoadFault::Lex { fault, .. } => lex_word(*fault),
        LoadFault::Parse { fault, .. } => parse_word(tokens, *fault),
        LoadFault::Rule { fault, .. } => rule_word(tokens, fault),
        LoadFault::NoMemory => None,
    }
}

/// Whether the fault is S4: it names where a transition begins, but may be found where the transition runs off.
fn runs_off(fault: &RuleFault) -> bool
    ensures { result ≡ runs_off fault.now }
{
    match fault {
        RuleFault::NoState(_) => true,
        RuleFault::DoubleName(_)
        | RuleFault::UnknownName(_)
        | RuleFault::WrongSort(_)
        | RuleFault::NoReceiver(_)
        | RuleFault::TwoReceivers(_)
        | RuleFault::JoinCycle(_)
        | RuleFault::NoAnswer(_)
        | RuleFault::BadDivisor(_)
        | RuleFault::Limit(_)
        | RuleFault::Unset { .. }
        | RuleFault::NoMemory => false,
    }
}

/// Whether a refusal may be found at another place than the one that it names.
fn is_found_elsewhere(fault: &LoadFault) -> bool
    ensures { result ≡ is_found_elsewhere fault.now }
{
    match fault {
        LoadFault::Rule { fault, .. } => runs_off(fault),
        LoadFault::Lex { .. } | LoadFault::Parse { .. } | LoadFault::NoMemory => false,
    }
}

/// The word at the place that a refusal names; none if the refusal is found elsewhere.
fn named_word(tokens: &[Token], fault: &LoadFault, found: Option<u32>) -> Option<Word>
    ensures { result ≡ named_word tokens.now fault.now found }
{
    if is_found_elsewhere(fault) && found.is_some() {
        return None;
    }
    word_of(tokens, fault)
}

/// The word at which a refusal points: at the place that it names, else at `found`. For S4 `found` comes first.
pub fn word_in(tokens: &[Token], fault: &LoadFault, found: Option<u32>) -> Option<Word>
    ensures { result ≡ word_in tokens.now fault.now found }
{
    match (named_word(tokens, fault, found), found) {
        (Some(word), _) => Some(word),
        (None, Some(place)) => Some(token_word(tokens, place)),
        (None, None) => None,
    }
}

/// A refusal printed without its line number.
#[derive(Clone, Copy)]
pub struct Bare<'a>(pub &'a LoadFault);

impl fmt::Display for Bare<'_> {
    ghost output = { λ b. Some (name_text b.0.now) };

    fn fmt<W: fmt::Write>(&self, f: &mut fmt::Formatter<W>) -> fmt::Result {
        match self.0 {
            LoadFault::Lex { fault, .. } => fmt::Display::fmt(fault, f),
            LoadFault::Parse { fault, .. } => fmt::Display::fmt(fault, f),
            LoadFault::Rule { fault, .. } => fmt::Display::fmt(fault, f),
            LoadFault::NoMemory => f.write_str("out of memory"),
        }
    }
}
