//! The syntax tree of a text: its types, their views as plain records and lists, and its height.
#![tactic(auto)]

mod expression;
mod height;
mod tree;

pub use expression::{BinaryOperator, Expression, Identifier, UnaryOperator};
pub use height::{high_in_action, high_in_decision, high_in_synonyms};
pub use sdl_lex::Name;
pub use tree::{
    Action, Answer, Assignment, Block, Connect, Connection, Constant, Decision, Declaration,
    Destination, End, Entity, Group, InputPart, Join, Literal, NextState, Output, Party, Path,
    Process, Range, Relation, ResetTimer, Route, Sending, SetTimer, SignalDeclaration, Sort, Start,
    StateClause, StatePart, Statement, Stimulus, Synonym, Task, Transition,
};

/// The greatest height of a tree that is accepted.
pub const MAX_HEIGHT: u32 = 32;
