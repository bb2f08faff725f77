//! The kinds of trouble in which code gets stuck.

/// Why code can't go on.
#[derive(Clone, Copy, PartialEq, Eq, Debug)]
pub enum Trouble {
    /// A variable isn't set, or isn't declared.
    Unset,
    /// An operand has the wrong sort, or a divisor is below 1.
    WrongSort,
    /// An operand or a parameter is missing.
    Underflow,
    /// A state isn't declared. Only a tree gets stuck so, never code.
    NoState,
    /// A signal has no receiver.
    NoReceiver,
    /// A DECISION has no answer. Only a tree gets stuck so, never code.
    NoAnswer,
    /// The place is outside the code.
    Outside,
}
