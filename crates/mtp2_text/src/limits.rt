//! The limits of forced retransmission (Q.703, 6.4) of a text: the Integer synonyms N1 and N2 of its block.

ghost use Rattle.std.specs.Prelude.{◌≡◌, ◌≤◌, List, Some, IfOk, IfErr};
ghost use Rattle.resend_store.specs.Limits.{N1 as MOST_N1, N2 as MOST_N2, LEAST_N2};
ghost use Rattle.resend_store.specs.Messages.{usual_limits};
ghost use Rattle.sdl_lex.specs.declared.lexemes.Token as lexeme;
ghost use Rattle.sdl_lex.specs.Spelling.{IsName};
ghost use Rattle.sdl_ast.specs.Plain.{PlainBlock};
ghost use Rattle.sdl_ast.specs.Heights.{Height};
ghost use Rattle.sdl_ast.specs.Limits.{GREATEST_HEIGHT};
ghost use Rattle.sdl_ast.specs.Views.{block_of};
ghost use Rattle.sdl_tree.specs.Syntax.{Reads};
ghost use Rattle.turn_verify.specs.Loaded.{IsWritten};
ghost use Rattle.turn_verify.specs.Meanings.{integer_known, synonyms_of};
ghost use Rattle.mtp2_text.specs.TextLimits.{within, in_range, own_or, messages_over, octets_over, limits_over, limits_in, wrong_limit, wrong_in, limit_text, no_limits, AreLimitsOf};

use resend_store::{Mode, RoundLimits, USUAL_LIMITS};
use sdl_lex::{LexFault, Name, Token, tokens};
use sdl_tree::{Block, ParseFault, parse};
use std::alloc::{AllocError, Global};
use std::fmt;
use turn_verify::BlockSynonyms;

/// The values of the Integer synonyms N1 and N2 of a text's block, if it has them.
#[derive(Clone, Copy, Debug, PartialEq, Eq)]
pub struct TextLimits {
    /// N1.
    pub messages: Option<i32>,
    /// N2.
    pub octets: Option<i32>,
}

/// No limits: if none are chosen, 127 messages and 8,192 octets hold.
pub const NO_LIMITS: TextLimits = TextLimits {
    messages: None,
    octets: None,
};

/// A limit of a text that is out of its range.
#[derive(Clone, Copy, Debug, PartialEq, Eq)]
pub enum LimitName {
    /// N1, whose range is 1 to 127.
    N1,
    /// N2, whose range is 300 to 8,192.
    N2,
}

impl fmt::Display for LimitName {
    ghost output = { λ n. Some (limit_text n) };

    fn fmt<W: fmt::Write>(&self, f: &mut fmt::Formatter<W>) -> fmt::Result {
        match self {
            Self::N1 => f.write_str("N1"),
            Self::N2 => f.write_str("N2"),
        }
    }
}

/// A number of messages, if it is in N1's range.
fn messages_of(number: u8) -> Option<u8>
    ensures { result ≡ within 1 MOST_N1 number }
{
    if number < 1 {
        return None;
    }
    if 127 < number {
        return None;
    }
    Some(number)
}

/// As `messages_of`, for an Integer.
fn messages_in(number: i32) -> Option<u8>
    ensures { result ≡ in_range 1 MOST_N1 number }
{
    match u8::try_from(number) {
        Ok(number) => messages_of(number),
        Err(_) => None,
    }
}

/// A number of octets, if it is in N2's range.
fn octets_of(number: u16) -> Option<u16>
    ensures { result ≡ within LEAST_N2 MOST_N2 number }
{
    if number < 300 {
        return None;
    }
    if 8192 < number {
        return None;
    }
    Some(number)
}

/// As `octets_of`, for an Integer.
fn octets_in(number: i32) -> Option<u16>
    ensures { result ≡ in_range LEAST_N2 MOST_N2 number }
{
    match u16::try_from(number) {
        Ok(number) => octets_of(number),
        Err(_) => None,
    }
}

impl TextLimits {
    /// The text's N1, else 127; none if the text's is out of its range.
    fn own_messages(self) -> Option<u8>
        ensures { result ≡ own_or 1 MOST_N1 usual_limits.messages self.messages }
    {
        match self.messages {
            Some(number) => messages_in(number),
            None => Some(USUAL_LIMITS.messages),
        }
    }

    /// The text's N2, else 8,192; none if the text's is out of its range.
    fn own_octets(self) -> Option<u16>
        ensures { result ≡ own_or LEAST_N2 MOST_N2 usual_limits.octets self.octets }
    {
        match self.octets {
            Some(number) => octets_in(number),
            None => Some(USUAL_LIMITS.octets),
        }
    }

    /// The chosen N1, else the text's, else 127; none if the text's applies and is out of its range.
    fn messages_over(self, chosen: Option<u8>) -> Option<u8>
        ensures { result ≡ messages_over self.messages chosen }
    {
        match chosen {
            Some(number) => Some(number),
            None => self.own_messages(),
        }
    }

    /// The chosen N2, else the text's, else 8,192; none if the text's applies and is out of its range.
    fn octets_over(self, chosen: Option<u16>) -> Option<u16>
        ensures { result ≡ octets_over self.octets chosen }
    {
        match chosen {
            Some(number) => Some(number),
            None => self.own_octets(),
        }
    }

    /// The limits in cyclic error correction: the chosen ones, else the text's, else 127 and 8,192.
    fn over(self, messages: Option<u8>, octets: Option<u16>) -> Result<RoundLimits, LimitName>
        ensures ok { IfOk result (λ limits. limits_over self messages octets ≡ Some limits) }
        ensures err { IfErr result (λ name. wrong_limit self messages octets ≡ Some name) }
    {
        let Some(messages) = self.messages_over(messages) else {
            return Err(LimitName::N1);
        };
        match self.octets_over(octets) {
            Some(octets) => Ok(RoundLimits { messages, octets }),
            None => Err(LimitName::N2),
        }
    }

    /// The limits of a terminal that runs the text: the chosen ones, else the text's, else 127 and 8,192. With basic error
    /// correction, which uses none, these are 127 and 8,192, whatever is chosen.
    ///
    /// # Errors
    ///
    /// The first of N1 and N2 that isn't chosen and is out of its range in the text: 1 to 127, and 300 to 8,192.
    pub fn within(
        self,
        mode: Mode,
        messages: Option<u8>,
        octets: Option<u16>,
    ) -> Result<RoundLimits, LimitName>
        ensures ok { IfOk result (λ limits. limits_in mode self messages octets ≡ Some limits) }
        ensures err { IfErr result (λ name. wrong_in mode self messages octets ≡ Some name) }
    {
        match mode {
            Mode::Basic => Ok(USUAL_LIMITS),
            Mode::Cyclic => self.over(messages, octets),
        }
    }
}

/// The value of the Integer synonym with a name.
fn integer_named(synonyms: &BlockSynonyms, name: &str) -> Option<i32>
    requires { IsName name.now }
    ensures { result ≡ integer_known (synonyms_of synonyms.now) name.now }
{
    let name = Name::new(name.as_bytes())?;
    synonyms.integer(name)
}

/// The limits of a block.
fn block_limits(alloc: Global, block: &Block) -> Result<TextLimits, AllocError>
    ensures { IfOk result (λ limits. AreLimitsOf (block_of block.now) limits) }
{
    let synonyms = BlockSynonyms::new(alloc, block)?;
    let messages = integer_named(&synonyms, "N1");
    let octets = integer_named(&synonyms, "N2");
    Ok(TextLimits { messages, octets })
}

/// The limits of the block as which tokens read; none if they read as no block.
fn read_limits(alloc: Global, tokens: &[Token]) -> Result<TextLimits, AllocError>
    ensures read { IfOk result (λ limits. (b : PlainBlock) → Reads tokens.now b → Height b ≤ GREATEST_HEIGHT → AreLimitsOf b limits) }
    ensures unread { IfOk result (λ limits. ((b : PlainBlock) → Reads tokens.now b → Height b ≤ GREATEST_HEIGHT → ⊥) → limits ≡ no_limits) }
{
    match parse(alloc, tokens) {
        Ok(block) => block_limits(alloc, &block),
        Err(ParseFault::NoMemory) => Err(AllocError),
        Err(ParseFault::Unexpected(_)) => Ok(NO_LIMITS),
        Err(ParseFault::TooDeep(_)) => Ok(NO_LIMITS),
    }
}

/// The limits of a text without tokens: none, unless memory ran out.
fn unlexed_limits(fault: LexFault) -> Result<TextLimits, AllocError>
    ensures other { IfOk result (λ limits. fault ≡ LexFault.NoMemory → ⊥) }
    ensures none { IfOk result (λ limits. limits ≡ no_limits) }
{
    match fault {
        LexFault::NoMemory => Err(AllocError),
        _ => Ok(NO_LIMITS),
    }
}

/// The limits of a text; none if it reads as no block.
///
/// # Errors
///
/// If memory runs out.
pub fn text_limits(alloc: Global, text: &str) -> Result<TextLimits, AllocError>
    ensures read { IfOk result (λ limits. (ts : List lexeme.Token) (b : PlainBlock) → IsWritten text.now ts b → AreLimitsOf b limits) }
    ensures unread { IfOk result (λ limits. ((ts : List lexeme.Token) (b : PlainBlock) → IsWritten text.now ts b → ⊥) → limits ≡ no_limits) }
{
    match tokens(alloc, text) {
        Ok(tokens) => read_limits(alloc, &tokens),
        Err(fault) => unlexed_limits(fault),
    }
}
