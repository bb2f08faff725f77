//! The rules that a valid draft keeps.

/// A rule that a valid draft keeps.
#[derive(Clone, Copy, PartialEq, Eq, Debug)]
pub enum Rule {
    /// V1: a place where the code goes on is outside the code.
    Jump,
    /// V2: a place with another shape than a way to it leaves, operands at the first place, or a place without facts.
    Shape,
    /// V3: too few operands.
    Under,
    /// V4: an operand, or an initial value, of the wrong sort.
    Sort,
    /// V5: a variable that is read, or called set, isn't set on every way; or the first place doesn't have the set of
    /// variables of its entry.
    Unset,
    /// V6: a state that isn't declared.
    State,
    /// V7: an instruction, the input of the transition or a save names something that isn't declared; an output has
    /// another number of parameters than its signal; a division is by less than 1.
    Number,
    /// V8: more than a limit allows.
    Limit,
    /// V9: the counts of a place don't fit those where the code goes on (as in a loop), or the certificate doesn't fit
    /// the counts.
    Budget,
}
