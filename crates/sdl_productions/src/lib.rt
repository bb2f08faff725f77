//! Reads single tokens and expressions, keeps the state of a transition that is being read, and defines each production
//! as a reading of tokens. `sdl_tree` reads the productions.
#![tactic(auto)]

mod bodies;
mod comparison;
mod frames;
mod kinds;
mod level;
mod marked;
mod operands;
mod operators;
mod part;
mod signs;
mod starts;
mod stop;
mod tokens;

pub use bodies::{
    Body, Branching, Head, Move, Question, Reached, closed, ended, limited_action, with_answer,
    with_else,
};
pub use kinds::{
    AnyConstant, AnyCount, AnyDestination, AnyName, AnyNumber, AnyParty, AnyQuoted, AnyRelation,
    AnySort, Closing, Negated, ThatNumber,
};
pub use marked::{Marked, gathered, limited_own_synonyms, limited_synonyms, more};
pub use operands::expression;
pub use starts::{AnyAction, AnyChoice, AnyClause, AnyDeclaration, AnyEnd, AnyEntity, AnySection};
pub use stop::{Stop, push};
pub use tokens::{stands_next, take};
