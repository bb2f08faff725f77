//! The productions of process texts, each read from the first tokens on, and the parser, held against the
//! grammar.
#![tactic(auto)]

mod actions;
mod answers;
mod attempt;
mod blocks;
mod declarations;
mod endings;
mod fault;
mod parsing;
mod production;
mod sections;
mod statements;
mod transitions;

pub use fault::ParseFault;
pub use parsing::{parse, reads_once, reads_plain};
pub use sdl_ast::{
    Action, Answer, Assignment, BinaryOperator, Block, Decision, Declaration, Destination, End,
    Entity, Expression, Identifier, Literal, Output, Party, Process, Range, Sending,
    SignalDeclaration, Sort, StateClause, Statement, Stimulus, Synonym, Transition, UnaryOperator,
};
