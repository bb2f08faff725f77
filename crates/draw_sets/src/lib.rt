//! The command `draw`: pictures of a process set and of its processes. It draws a process as SDL-GR does (Z.100), in
//! SVG, laid out in whole numbers with a fixed-width font, or by its states, in Graphviz's language.
#![tactic(auto)]

mod apart;
mod below;
mod drawing;
mod frames;
mod joins;
mod labels;
mod layout;
mod measures;
mod nodes;
mod notes;
mod outlines;
mod page;
mod pictures;
mod rows;
mod sizes;
mod state_diagram;
mod state_edges;
mod state_pieces;
mod svg;

pub use drawing::draw;
pub use notes::with_statements;
pub use pictures::Picture;
pub use state_diagram::draw_states;
pub use svg::draw_flow;
