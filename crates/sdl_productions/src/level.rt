//! Precedence levels of operators.

/// A precedence level of binary operators, from the loosest to the tightest.
#[derive(Clone, Copy, Debug, PartialEq, Eq)]
pub(crate) enum Level {
    /// OR and XOR.
    Disjunctions,
    /// AND.
    Conjunctions,
    /// `=`, `/=`, `<`, `<=`, `>` and `>=`.
    Relations,
    /// `+` and `-`.
    Sums,
    /// `*`, `/`, MOD and REM.
    Products,
}
