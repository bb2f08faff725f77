//! Names of actors, signals and variables, without regard to case.
ghost use Rattle.std.specs.Prelude.{◌≡◌, option_map};
ghost use Rattle.script_book.specs.Answers.{actor_named, signal_named, variable_named};

use actor_book::Book;
use script_lines::{Called, actor_called};
use turn_code::{ProcessNumber, SignalNumber, VariableNumber};

/// The actor that a word names: `P.k`, or `P`, which is `P.1`.
pub fn actor_named(book: &Book, word: &str) -> Option<Called>
    ensures { result ≡ actor_named book.now word.now }
{
    actor_called(book.set(), word)
}

/// The signal with this name.
pub fn signal_named(book: &Book, name: &str) -> Option<SignalNumber>
    ensures { option_map (λ s. s.0) result ≡ signal_named book.now name.now }
{
    book.set().signal_of(name)
}

/// The variable of a process with this name.
pub fn variable_named(book: &Book, process: ProcessNumber, name: &str) -> Option<VariableNumber>
    ensures { option_map (λ x. x.0) result ≡ variable_named book.now process.0 name.now }
{
    book.set().variable_of(process, name)
}
