//! The reserved words and their spellings.
ghost use Rattle.std.specs.Prelude.{◌≡◌, IfSome, IfNone, EachIndex, slice_index_or};
ghost use Rattle.sdl_lex.specs.declared.lexemes.Word.{Word as TheWord};
ghost use Rattle.sdl_lex.specs.Spelling.{SameName};
ghost use Rattle.sdl_lex.specs.Texts.{word_text};

use crate::Word;

const WORDS: [Word; 50] = [
    Word::Block,
    Word::EndBlock,
    Word::Signal,
    Word::SignalRoute,
    Word::From,
    Word::To,
    Word::With,
    Word::Env,
    Word::Connect,
    Word::Process,
    Word::EndProcess,
    Word::Dcl,
    Word::Timer,
    Word::Start,
    Word::State,
    Word::EndState,
    Word::Input,
    Word::Save,
    Word::Connection,
    Word::EndConnection,
    Word::Task,
    Word::Output,
    Word::Sender,
    Word::Set,
    Word::Reset,
    Word::Now,
    Word::Decision,
    Word::Else,
    Word::EndDecision,
    Word::NextState,
    Word::Stop,
    Word::Join,
    Word::Comment,
    Word::Not,
    Word::And,
    Word::Or,
    Word::Xor,
    Word::Mod,
    Word::Rem,
    Word::Integer,
    Word::Boolean,
    Word::True,
    Word::False,
    Word::Procedure,
    Word::EndProcedure,
    Word::Call,
    Word::Fpar,
    Word::In,
    Word::Return,
    Word::Synonym,
];

impl Word {
    /// The spelling of the word in upper case.
    pub fn text(self) -> &'static str
        ensures { result.now ≡ word_text self }
    {
        match self {
            Word::Block => "BLOCK",
            Word::EndBlock => "ENDBLOCK",
            Word::Signal => "SIGNAL",
            Word::SignalRoute => "SIGNALROUTE",
            Word::From => "FROM",
            Word::To => "TO",
            Word::With => "WITH",
            Word::Env => "ENV",
            Word::Connect => "CONNECT",
            Word::Process => "PROCESS",
            Word::EndProcess => "ENDPROCESS",
            Word::Dcl => "DCL",
            Word::Timer => "TIMER",
            Word::Start => "START",
            Word::State => "STATE",
            Word::EndState => "ENDSTATE",
            Word::Input => "INPUT",
            Word::Save => "SAVE",
            Word::Connection => "CONNECTION",
            Word::EndConnection => "ENDCONNECTION",
            Word::Task => "TASK",
            Word::Output => "OUTPUT",
            Word::Sender => "SENDER",
            Word::Set => "SET",
            Word::Reset => "RESET",
            Word::Now => "NOW",
            Word::Decision => "DECISION",
            Word::Else => "ELSE",
            Word::EndDecision => "ENDDECISION",
            Word::NextState => "NEXTSTATE",
            Word::Stop => "STOP",
            Word::Join => "JOIN",
            Word::Comment => "COMMENT",
            Word::Not => "NOT",
            Word::And => "AND",
            Word::Or => "OR",
            Word::Xor => "XOR",
            Word::Mod => "MOD",
            Word::Rem => "REM",
            Word::Integer => "INTEGER",
            Word::Boolean => "BOOLEAN",
            Word::True => "TRUE",
            Word::False => "FALSE",
            Word::Procedure => "PROCEDURE",
            Word::EndProcedure => "ENDPROCEDURE",
            Word::Call => "CALL",
            Word::Fpar => "FPAR",
            Word::In => "IN",
            Word::Return => "RETURN",
            Word::Synonym => "SYNONYM",
        }
    }

    /// The reserved word that these bytes spell, in upper or lower case.
    pub fn reserved(spelling: &[u8]) -> Option<Word>
        ensures found { IfSome result (λ w. SameName spelling.now (word_text w)) }
        ensures none { IfNone result ((w : TheWord) → SameName spelling.now (word_text w) → ⊥) }
    {
        first_spelled(&WORDS, spelling)
    }
}

/// The first of these words that the bytes spell.
fn first_spelled(words: &[Word], spelling: &[u8]) -> Option<Word>
    ensures found { IfSome result (λ w. SameName spelling.now (word_text w)) }
    ensures none { IfNone result (EachIndex words.now
        (λ k. SameName spelling.now (word_text (slice_index_or words.now k Word.Block)) → ⊥)) }
{
    for word in words {
        if spelling.eq_ignore_ascii_case(word.text().as_bytes()) {
            return Some(*word);
        }
    }
    None
}
