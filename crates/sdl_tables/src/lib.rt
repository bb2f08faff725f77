//! Tables of the names of a block and of its processes. Each name has a number.
#![tactic(auto)]

mod block_parts;
mod block_table;
mod fault;
mod input_rows;
mod name_key;
mod name_table;
mod party_table;
mod process_table;
mod route_index;
mod scope;
mod state_names;
mod triggers;

pub use block_table::BlockTable;
pub use fault::TableFault;
pub use name_key::NameKey;
pub use name_table::NameTable;
pub use party_table::PartyTable;
pub use process_table::{InputRow, ProcessTable, Variable};
pub use scope::{Scope, earlier, index_names};
pub use sdl_ast::{BinaryOperator, InputPart, StateClause, StatePart};
