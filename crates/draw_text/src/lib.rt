//! Building blocks for pictures of a process text: names as declared, expressions and statements as written, the parts
//! of a process in the order of the text, and the ways through them. It also draws the block diagram of a set.
#![tactic(auto)]

mod block_diagram;
mod block_edges;
mod bytes;
mod constants;
mod expressions;
mod names;
mod parties;
mod parts;
mod pieces;
mod statements;
mod transitions;
mod ways;

pub use block_diagram::draw_block;
pub use bytes::{push_bytes, push_entity, push_escaped, push_number};
pub use constants::{push_ranges, sort_word};
pub use expressions::push_expression;
pub use names::{Names, push_name, push_names, spelled};
pub use parts::{Kind, Part, is_symbol, push_mark, push_symbol};
pub use pieces::{process_parts, push_connection, push_start, push_state};
pub use sdl_ast::{Block, Connection, Identifier, StatePart};
pub use sdl_tables::{BlockTable, NameTable, ProcessTable};
pub use statements::{
    push_assignment, push_delay, push_receiver, push_sending, push_stimuli, push_timer,
    push_triggers,
};
pub use ways::{Way, next_branch, ways_from};
