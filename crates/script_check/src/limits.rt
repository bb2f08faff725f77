//! Notes for an exceeded limit (S10): which item exceeds it, by how much, and where.
use crate::extents::{count_places, extent_of, size_of};
use script_point::{Explained, Notes, push_all, push_number};
use sdl_lex::Name;
use sdl_measures::{Measure, find_orders, measure_all};
use sdl_sound::Limit;
use sdl_tables::{BlockTable, InputPart, NameTable, ProcessTable, StateClause, StatePart};
use sdl_tree::{Identifier, SignalDeclaration, Transition};
use std::alloc::{AllocError, Global};

/// The owner of the items that exceed a limit.
#[derive(Clone, Copy)]
enum Owner {
    /// A block, a process or a signal.
    Named(Name),
    /// The transition of a process's START.
    Start(Name),
    /// The transition of a process for a state and an input.
    Input(Name, Name, Name),
}

/// An exceeded limit: the owner, the number of items, and the place.
#[derive(Clone, Copy)]
struct Over {
    owner: Owner,
    number: usize,
    place: u32,
}

/// The greatest number that a limit allows.
fn most(limit: Limit) -> usize {
    match limit {
        Limit::Processes => 16,
        Limit::States => 64,
        Limit::Variables => 32,
        Limit::Timers => 8,
        Limit::Signals => 128,
        Limit::Params => 4,
        Limit::Pieces => 4096,
        Limit::Piece => 512,
        Limit::Depth => 16,
        Limit::Effects => 32,
        Limit::Instances => 8,
    }
}

/// The name of the items that a limit counts.
fn counted(limit: Limit) -> &'static str {
    match limit {
        Limit::Processes => " processes, ",
        Limit::States => " states, ",
        Limit::Variables => " variables, ",
        Limit::Timers => " timers, ",
        Limit::Signals => " signals, ",
        Limit::Params => " parameters, ",
        Limit::Pieces => " transitions, ",
        Limit::Piece => " instructions, ",
        Limit::Depth => " operands at once, ",
        Limit::Effects => " effects, ",
        Limit::Instances => " instances, ",
    }
}

/// Appends the owner to a text.
fn push_owner(text: &mut String, owner: &Owner) -> Result<(), AllocError> {
    match owner {
        Owner::Named(name) => text.push_str(name.as_str()),
        Owner::Start(process) => push_all(text, &[process.as_str(), " START"]),
        Owner::Input(process, state, signal) => {
            let names = [process.as_str(), " ", state.as_str(), "/", signal.as_str()];
            push_all(text, &names)
        }
    }
}

/// Notes the owner and its number of items, with the limit.
fn add_over(
    alloc: Global,
    notes: &mut Notes,
    owner: &Owner,
    number: usize,
    limit: Limit,
) -> Result<(), AllocError> {
    push_owner(&mut notes.said, owner)?;
    notes.said.push_str(" has ")?;
    push_number(alloc, &mut notes.said, number)?;
    notes.said.push_str(counted(limit))?;
    push_number(alloc, &mut notes.said, most(limit))?;
    notes.said.push_str(" at most")
}

/// The place of the name with this number, or `other` if there is none.
fn place_of(names: &NameTable, number: usize, other: u32) -> u32 {
    match names.get(number) {
        Some(id) => id.at,
        None => other,
    }
}

/// How many items of the kind that the limit counts a process has.
fn count_in(process: &ProcessTable, limit: Limit) -> usize {
    match limit {
        Limit::States => process.states().len(),
        Limit::Variables => process.variables().len(),
        Limit::Timers => process.timers().len(),
        Limit::Instances => process.process().instances as usize,
        _ => 0,
    }
}

/// The place of the first item beyond the limit in a process.
fn place_in(process: &ProcessTable, limit: Limit) -> u32 {
    let own = process.process().name.at;
    match limit {
        Limit::States => place_of(process.states(), 64, own),
        Limit::Variables => place_of(process.variables(), 32, own),
        Limit::Timers => place_of(process.timers(), 8, own),
        _ => own,
    }
}

/// The first process that exceeds the limit.
fn over_in_process(block: &BlockTable, limit: Limit) -> Option<Over> {
    for process in block.tables() {
        let number = count_in(process, limit);
        if number > most(limit) {
            return Some(Over {
                owner: Owner::Named(process.process().name.name),
                number,
                place: place_in(process, limit),
            });
        }
    }
    None
}

/// The first signal that has too many parameters.
fn over_in_signal(rows: &[&SignalDeclaration]) -> Option<Over> {
    for row in rows {
        let number = row.parameters.len();
        if number > most(Limit::Params) {
            return Some(Over {
                owner: Owner::Named(row.name.name),
                number,
                place: row.name.at,
            });
        }
    }
    None
}

/// A block that exceeds the limit, given the table of the counted names.
fn over_in_block(block: &BlockTable, names: &NameTable, limit: Limit) -> Option<Over> {
    let name = block.block().name;
    Some(Over {
        owner: Owner::Named(name.name),
        number: names.len(),
        place: place_of(names, most(limit), name.at),
    })
}

/// The number of transitions of a process: that of START, and one for each input of each state.
fn count_pieces(alloc: Global, process: &ProcessTable) -> Result<usize, AllocError> {
    let inputs = process.inputs(alloc)?;
    let mut count: usize = 1;
    for rows in &inputs {
        count = count.saturating_add(rows.len());
    }
    Ok(count)
}

/// A block with too many transitions, at the process that exceeds the limit.
fn over_in_all(alloc: Global, block: &BlockTable) -> Result<Option<Over>, AllocError> {
    let name = block.block().name;
    let mut number: usize = 0;
    let mut place = name.at;
    for process in block.tables() {
        if number <= most(Limit::Pieces) {
            place = process.process().name.at;
        }
        number = number.saturating_add(count_pieces(alloc, process)?);
    }
    Ok(Some(Over {
        owner: Owner::Named(name.name),
        number,
        place,
    }))
}

/// The context in which the transitions of a process are measured.
#[derive(Clone, Copy)]
struct Measuring<'a, 'b> {
    block: &'a BlockTable<'b>,
    process: &'a ProcessTable<'b>,
    measures: &'a [Measure],
    limit: Limit,
}

impl Measuring<'_, '_> {
    /// The measure of a transition that the limit counts, without the places of its INPUT.
    fn own(&self, alloc: Global, transition: &Transition) -> Result<u32, AllocError> {
        let extent = extent_of(self.process, self.measures, transition, 0);
        match self.limit {
            Limit::Piece => size_of(alloc, self.process, self.measures, transition),
            Limit::Depth => Ok(extent.depth),
            _ => Ok(extent.effects),
        }
    }

    /// That measure with the places of its INPUT.
    fn with_places(&self, own: u32, places: &[Option<Identifier>]) -> usize {
        let count = count_places(places);
        let number = match self.limit {
            Limit::Piece => own.saturating_add(count.saturating_mul(2)),
            Limit::Depth => own.max(count.min(1)),
            _ => own,
        };
        number as usize
    }

    /// The transition, if it exceeds the limit.
    fn passing(&self, owner: Owner, number: usize, place: u32) -> Option<Over> {
        let over = Over {
            owner,
            number,
            place,
        };
        (number > most(self.limit)).then_some(over)
    }

    /// START, if its transition exceeds the limit.
    fn start(&self, alloc: Global) -> Result<Option<Over>, AllocError> {
        let process = self.process.process();
        let own = self.own(alloc, &process.start.transition)?;
        let owner = Owner::Start(process.name.name);
        Ok(self.passing(owner, own as usize, process.start.at))
    }

    /// The owner of an input of a state, with the name of the signal or timer as it is declared.
    fn input_owner(&self, state: Name, name: Name) -> Owner {
        let signal = spelled(self.block.signals(), spelled(self.process.timers(), name));
        Owner::Input(self.process.process().name.name, state, signal)
    }

    /// The first signal of an INPUT of a state whose transition exceeds the limit.
    fn input(
        &self,
        alloc: Global,
        state: Name,
        part: &InputPart,
    ) -> Result<Option<Over>, AllocError> {
        let own = self.own(alloc, &part.transition)?;
        let mut found = None;
        for stimulus in &part.stimuli {
            let number = self.with_places(own, &stimulus.places);
            let owner = self.input_owner(state, stimulus.name.name);
            found = first_of(found, self.passing(owner, number, part.at));
        }
        Ok(found)
    }

    /// The first INPUT of a STATE part whose transition exceeds the limit.
    fn part(
        &self,
        alloc: Global,
        state: Name,
        clauses: &[StateClause],
    ) -> Result<Option<Over>, AllocError> {
        let mut found = None;
        for clause in clauses {
            if found.is_some() {
                return Ok(found);
            }
            if let StateClause::Input(input) = clause {
                found = self.input(alloc, state, input)?;
            }
        }
        Ok(found)
    }

    /// The first transition of STATE parts that exceeds the limit.
    fn parts(&self, alloc: Global, parts: &[StatePart]) -> Result<Option<Over>, AllocError> {
        let mut found = None;
        for part in parts {
            if found.is_some() {
                return Ok(found);
            }
            if let Some(first) = part.names.first() {
                let state = spelled(self.process.states(), first.name);
                found = self.part(alloc, state, &part.clauses)?;
            }
        }
        Ok(found)
    }

    /// The first transition of a process that exceeds the limit: START, then in the order of the text.
    fn first(&self, alloc: Global) -> Result<Option<Over>, AllocError> {
        match self.start(alloc)? {
            Some(over) => Ok(Some(over)),
            None => self.parts(alloc, &self.process.process().states),
        }
    }
}

/// The first of two, if there is one, else the second.
fn first_of(one: Option<Over>, other: Option<Over>) -> Option<Over> {
    match one {
        Some(over) => Some(over),
        None => other,
    }
}

/// A name as it is declared, or as it is written if it isn't declared.
fn spelled(names: &NameTable, name: Name) -> Name {
    match names.number(name) {
        None => name,
        Some(number) => match names.get(number) {
            Some(id) => id.name,
            None => name,
        },
    }
}

/// The measures of the connections of each process; none if the JOINs form a cycle.
fn measures_of(alloc: Global, block: &BlockTable) -> Result<Vec<Vec<Measure>>, AllocError> {
    match find_orders(alloc, block)? {
        Ok(orders) => measure_all(alloc, block, &orders),
        Err(_) => Ok(Vec::new(alloc)),
    }
}

/// The first transition of a block that exceeds the limit.
fn over_in_transition(
    alloc: Global,
    block: &BlockTable<'_>,
    limit: Limit,
) -> Result<Option<Over>, AllocError> {
    let all = measures_of(alloc, block)?;
    let mut found = None;
    for (process, measures) in block.tables().iter().zip(all.iter()) {
        let measuring = Measuring {
            block,
            process,
            measures: measures.as_slice(),
            limit,
        };
        found = first_of(found, measuring.first(alloc)?);
    }
    Ok(found)
}

/// The item of a block that exceeds the limit; of several the first in the text.
fn over_limit(
    alloc: Global,
    block: &BlockTable<'_>,
    limit: Limit,
) -> Result<Option<Over>, AllocError> {
    match limit {
        Limit::Processes => Ok(over_in_block(block, block.processes(), limit)),
        Limit::Signals => Ok(over_in_block(block, block.signals(), limit)),
        Limit::Params => Ok(over_in_signal(block.rows())),
        Limit::Pieces => over_in_all(alloc, block),
        Limit::Piece | Limit::Depth | Limit::Effects => over_in_transition(alloc, block, limit),
        _ => Ok(over_in_process(block, limit)),
    }
}

/// Notes the item that exceeds a limit, and its place. (A pattern names the fields: with `over.place` the kit's borrow
/// checker doesn't know where `Owner` lives, and refuses the function.)
pub(crate) fn tell_over(
    alloc: Global,
    told: &mut Explained,
    block: &BlockTable,
    limit: Limit,
) -> Result<(), AllocError> {
    match over_limit(alloc, block, limit)? {
        Some(
            Over {
                owner,
                number,
                place,
            },
        ) => {
            told.found = Some(place);
            add_over(alloc, &mut told.notes, &owner, number, limit)
        }
        None => Ok(()),
    }
}
