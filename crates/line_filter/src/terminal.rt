//! The terminal at the end of a line.
ghost use Rattle.std.specs.Prelude.{ℕ, List, Option, None, Some, IfOk, OnOk, IfSome, option_map, string_bytes};
ghost use Rattle.su_octets.specs.Whole.{IsWhole};
ghost use Rattle.line_filter.specs.Acts.{Act, asked, heard, passed, reported, obeyed};

use std::alloc::Global;
use std::io;
use su_octets::Unit;

/// The answer to an order.
#[derive(Debug, Drop, PartialEq, Eq)]
pub enum Answer {
    /// It was obeyed, and the answer has no text.
    Done,
    /// It was obeyed, and this text is the answer.
    Said(String),
    /// It was obeyed, and these lines are the answer; each is reported after the words of the order.
    Listed(Vec<String>),
    /// It was refused, with this code and name. Nothing changed.
    Refused(String),
}

/// A terminal on a line.
pub trait LineTerminal {
    // how each act changes it
    ghost acts: { Self → Act → Self → Type 0 };

    /// Its next signal unit, if it has one to send. Fails if memory runs out.
    fn unit_out(&mut self) -> io::Result<Option<Unit>>
        ensures act { IfOk result (λ unit. acts self.old (asked unit) self.new) }
        ensures whole { IfOk result (λ unit. IfSome unit IsWhole) };

    /// Takes an octet of the line, with its first bit lowest. Fails if it can't take it, which ends the run.
    fn line_in(&mut self, octet: u8) -> io::Result<()>
        ensures { OnOk result (acts self.old (heard octet) self.new) };

    /// Lets a millisecond pass. Fails if the terminal can't.
    fn tick(&mut self) -> io::Result<()>
        ensures { OnOk result (acts self.old passed self.new) };

    /// The next report, if there is one: a line without its end.
    fn report(&mut self, alloc: Global) -> io::Result<Option<String>>
        ensures { IfOk result (λ text. acts self.old (reported (option_map string_bytes text)) self.new) };

    /// Obeys an order. A refusal is an answer and no failure; it fails if memory runs out.
    fn obey(&mut self, alloc: Global, order: &str) -> io::Result<Answer>
        ensures { IfOk result (λ answer. acts self.old (obeyed order.now answer) self.new) };
}
