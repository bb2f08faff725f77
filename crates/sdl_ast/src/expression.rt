//! Names at their places, and expressions.
use sdl_lex::Name;

/// A name and the place of its first byte in the text.
#[derive(Clone, Copy, Debug, PartialEq, Eq)]
pub struct Identifier {
    /// The name as it is written.
    pub name: Name,
    /// Its place in the text, in bytes from 0.
    pub at: u32,
}

/// A unary operator, which is written before its operand.
#[derive(Clone, Copy, Debug, PartialEq, Eq)]
pub enum UnaryOperator {
    /// `-`
    Negate,
    /// NOT
    Not,
}

/// A binary operator, which is written between its operands.
#[derive(Clone, Copy, Debug, PartialEq, Eq)]
pub enum BinaryOperator {
    /// OR
    Or,
    /// XOR
    Xor,
    /// AND
    And,
    /// `=`
    Equal,
    /// `/=`
    NotEqual,
    /// `<`
    Less,
    /// `<=`
    LessEqual,
    /// `>`
    Greater,
    /// `>=`
    GreaterEqual,
    /// `+`
    Add,
    /// `-`
    Subtract,
    /// `*`
    Multiply,
    /// `/`
    Divide,
    /// MOD
    Modulo,
    /// REM
    Remainder,
}

/// An expression. Of parentheses only the place is kept: `at` is the place in the text, in bytes,
/// of the expression's first token, which may be an opening parenthesis.
#[derive(Debug, Drop)]
pub enum Expression {
    /// A number. The value of a synonym that is below 0 is kept as the number that is 2^32 more.
    Number {
        at: u32,
        value: u32,
    },
    /// TRUE or FALSE.
    Truth {
        at: u32,
        value: bool,
    },
    /// A variable, or a synonym until its value replaces it.
    Variable {
        at: u32,
        name: Identifier,
    },
    /// An operator and its operand.
    Unary {
        at: u32,
        operator: UnaryOperator,
        operand: Box<Expression>,
    },
    /// An operator with two operands. Operators of one precedence level group to the left.
    Binary {
        at: u32,
        operator: BinaryOperator,
        left: Box<Expression>,
        right: Box<Expression>,
    },
}
