//! The word that a command begins with.
ghost use Rattle.std.specs.Prelude.{◌≡◌};
ghost use Rattle.script_lines.specs.Commands.{verb_of};

/// A call that takes only a process.
#[derive(Clone, Copy, PartialEq, Eq, Debug)]
pub enum Call {
    /// `begin P`: the next turn of P begins.
    Begin,
    /// `finish P`: the current turn of P is finished.
    Finish,
    /// `skip P`: P's next signal is dropped, if the state has no INPUT for it.
    Skip,
    /// `state P`: the state of P is printed.
    State,
}

/// The kind of a command.
#[derive(Clone, Copy, PartialEq, Eq, Debug)]
pub enum Verb {
    /// `offer`.
    Offer,
    /// `begin`, `finish`, `skip`, `state`.
    Call(Call),
    /// `tick`.
    Tick,
    /// `env`.
    Env,
    /// `rest`.
    Rest,
    /// `flood`.
    Flood,
    /// `value`.
    Value,
    /// `expect`.
    Expect,
}

/// The command that a word begins; the case of letters matters.
pub fn verb_in(word: &str) -> Option<Verb>
    ensures { result ≡ verb_of word.now }
{
    match word {
        "offer" => Some(Verb::Offer),
        "begin" => Some(Verb::Call(Call::Begin)),
        "finish" => Some(Verb::Call(Call::Finish)),
        "skip" => Some(Verb::Call(Call::Skip)),
        "state" => Some(Verb::Call(Call::State)),
        "tick" => Some(Verb::Tick),
        "env" => Some(Verb::Env),
        "rest" => Some(Verb::Rest),
        "flood" => Some(Verb::Flood),
        "value" => Some(Verb::Value),
        "expect" => Some(Verb::Expect),
        _ => None,
    }
}
