//! Separates the parts of the body of a process into STATE parts and CONNECTIONs.
ghost use Rattle.std.specs.Prelude.{◌≡◌, ◌++◌, map, OnOk, IfOk, IfErr};
ghost use Rattle.std.specs.List.{filter_map};
ghost use Rattle.std.specs.Option.{option_to_list};
ghost use Rattle.sdl_productions.specs.MarkedParts.{marked_state_in, marked_connection_in};
ghost use Rattle.sdl_ast.specs.Views.{state_of, connection_of};
ghost use Rattle.sdl_productions.specs.BodyViews.{marked_view};
ghost use Rattle.sdl_tree.specs.SectionViews.{section_of};

use crate::transitions::Section;
use sdl_ast::{Connection, StatePart};
use sdl_productions::{Marked, Stop, push};
use std::alloc::Global;

/// The STATE parts and the CONNECTIONs of a process, each in the order of the text.
#[derive(Drop)]
pub(crate) struct Sections {
    pub(crate) states: Vec<Marked<StatePart>>,
    pub(crate) connections: Vec<Marked<Connection>>,
}

/// Appends a part to those of its kind.
fn file<'a>(
    states: &mut Vec<Marked<StatePart>>,
    connections: &mut Vec<Marked<Connection>>,
    section: Section,
) -> Result<(), Stop<'a>>
    ensures states { OnOk result (map (marked_view state_of) states.new.items ≡ map (marked_view state_of) states.old.items ++ option_to_list (marked_state_in (section_of section))) }
    ensures connections { OnOk result (map (marked_view connection_of) connections.new.items ≡ map (marked_view connection_of) connections.old.items ++ option_to_list (marked_connection_in (section_of section))) }
    ensures err { IfErr result (λ stop. stop ≡ Stop.NoMemory) }
{
    match section {
        Section::State(state) => push(states, state),
        Section::Connection(connection) => push(connections, connection),
    }
}

/// Separates the parts by kind and keeps their order. `NoMemory` if memory runs out.
pub(crate) fn parted<'a>(alloc: Global, sections: Vec<Section>) -> Result<Sections, Stop<'a>>
    ensures states { IfOk result (λ found. map (marked_view state_of) found.states.items ≡ filter_map marked_state_in (map section_of sections.items)) }
    ensures connections { IfOk result (λ found. map (marked_view connection_of) found.connections.items ≡ filter_map marked_connection_in (map section_of sections.items)) }
    ensures err { IfErr result (λ stop. stop ≡ Stop.NoMemory) }
{
    let mut states = Vec::new(alloc);
    let mut connections = Vec::new(alloc);
    'rows: for section in sections {
        file(&mut states, &mut connections, section)?;
    }
    Ok(Sections {
        states,
        connections,
    })
}
