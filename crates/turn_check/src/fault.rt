//! Why a draft is refused.

ghost use Rattle.std.specs.Prelude.{◌≡◌, Some};
ghost use Rattle.turn_check.specs.Faults.{rule_of, spot_of};
ghost use Rattle.turn_check.specs.Printed.{state_text, spot_text, rule_text, verify_fault_text};

use std::fmt;
use thiserror::Error;
use turn_code::{Place, ProcessNumber, Rule};

/// A place of the code of a transition.
#[derive(Clone, Copy, PartialEq, Eq, Debug)]
pub struct Spot {
    /// The process.
    pub process: ProcessNumber,
    /// START, or the state.
    pub state: Place,
    /// The input of the state, from 0; 0 at START.
    pub input: usize,
    /// The place in the code, from 0; also 0 if the transition as a whole breaks the rule.
    pub place: usize,
}

/// A place of a process as it is printed: START, or a state and its input.
#[derive(Clone, Copy)]
struct InputAt(Place, usize);

impl fmt::Display for InputAt {
    ghost output = { λ a. Some (state_text a.0 a.1) };

    fn fmt<W: fmt::Write>(&self, f: &mut fmt::Formatter<W>) -> fmt::Result {
        match self.0 {
            Place::Start => f.write_str(" START"),
            Place::State(state) => {
                let (state, input) = (state.0, self.1);
                write!(f, " state {state} input {input}")
            }
        }
    }
}

impl fmt::Display for Spot {
    ghost output = { λ s. Some (spot_text s) };

    fn fmt<W: fmt::Write>(&self, f: &mut fmt::Formatter<W>) -> fmt::Result {
        let process = self.process.0;
        let state = InputAt(self.state, self.input);
        let place = self.place;
        write!(f, "process {process}{state} place {place}")
    }
}

/// The rule that a draft breaks, and the spot where it does.
#[derive(Debug, Drop, Error, Clone, Copy, PartialEq, Eq)]
pub enum VerifyFault {
    /// A place where the code goes on is outside the code.
    Jump(Spot),
    /// A place has another shape than a way to it leaves, the first place has operands, or a place has no facts.
    Shape(Spot),
    /// Too few operands.
    Under(Spot),
    /// An operand, or at START an initial value, has the wrong sort.
    Sort(Spot),
    /// A variable that is read, or called set, isn't set on every way; or the first place doesn't have the set of
    /// variables of its entry.
    Unset(Spot),
    /// A state isn't declared.
    State(Spot),
    /// An instruction, the input of the transition or a save names something that isn't declared; an output has another
    /// number of parameters than its signal; a division is by less than 1.
    Number(Spot),
    /// A limit is exceeded. A limit of a process is broken at its START, a limit of the whole set at the START of
    /// process 0.
    Limit(Spot),
    /// The counts of a place don't fit those where the code goes on (as in a loop), or the certificate doesn't fit the
    /// counts.
    Budget(Spot),
}

/// The code and the name of a rule.
fn rule_name<'a>(rule: Rule) -> &'a str
    ensures { result.now ≡ rule_text rule }
{
    match rule {
        Rule::Jump => "V1 Jump",
        Rule::Shape => "V2 Shape",
        Rule::Under => "V3 Under",
        Rule::Sort => "V4 Sort",
        Rule::Unset => "V5 Unset",
        Rule::State => "V6 State",
        Rule::Number => "V7 Number",
        Rule::Limit => "V8 Limit",
        Rule::Budget => "V9 Budget",
    }
}

impl fmt::Display for VerifyFault {
    ghost output = { λ e. Some (verify_fault_text e) };

    fn fmt<W: fmt::Write>(&self, f: &mut fmt::Formatter<W>) -> fmt::Result {
        let rule = rule_name(self.rule());
        let spot = self.spot();
        write!(f, "{rule} {spot}")
    }
}

impl VerifyFault {
    /// The fault that a rule is broken at a spot.
    pub(crate) fn new(rule: Rule, spot: Spot) -> VerifyFault
        ensures rule { rule_of result ≡ rule }
        ensures spot { spot_of result ≡ spot }
    {
        match rule {
            Rule::Jump => VerifyFault::Jump(spot),
            Rule::Shape => VerifyFault::Shape(spot),
            Rule::Under => VerifyFault::Under(spot),
            Rule::Sort => VerifyFault::Sort(spot),
            Rule::Unset => VerifyFault::Unset(spot),
            Rule::State => VerifyFault::State(spot),
            Rule::Number => VerifyFault::Number(spot),
            Rule::Limit => VerifyFault::Limit(spot),
            Rule::Budget => VerifyFault::Budget(spot),
        }
    }

    /// The rule that is broken.
    pub fn rule(self) -> Rule
        ensures { result ≡ rule_of self }
    {
        match self {
            VerifyFault::Jump(_) => Rule::Jump,
            VerifyFault::Shape(_) => Rule::Shape,
            VerifyFault::Under(_) => Rule::Under,
            VerifyFault::Sort(_) => Rule::Sort,
            VerifyFault::Unset(_) => Rule::Unset,
            VerifyFault::State(_) => Rule::State,
            VerifyFault::Number(_) => Rule::Number,
            VerifyFault::Limit(_) => Rule::Limit,
            VerifyFault::Budget(_) => Rule::Budget,
        }
    }

    /// The spot where it is broken.
    pub fn spot(self) -> Spot
        ensures { result ≡ spot_of self }
    {
        match self {
            VerifyFault::Jump(spot)
            | VerifyFault::Shape(spot)
            | VerifyFault::Under(spot)
            | VerifyFault::Sort(spot)
            | VerifyFault::Unset(spot)
            | VerifyFault::State(spot)
            | VerifyFault::Number(spot)
            | VerifyFault::Limit(spot)
            | VerifyFault::Budget(spot) => spot,
        }
    }
}
