//! The key with which the tables of a block hash names.
ghost use Rattle.core.specs.Hash.DefaultHasher.{with_keys};

use core::hash::keyed_hasher;
use sdl_ast::{
    Block, Connection, Declaration, Entity, Group, Identifier, Name, Party, Path, Process, Route,
    SignalDeclaration, StateClause, StatePart, Stimulus, Synonym,
};
use sha2::{Digest, Sha256};
use std::hash::{BuildHasher, DefaultHasher};

/// The key with which the tables of a block hash names: octets of a digest of the names that enter the tables, and of
/// the routes with both parties. The key of a text is always the same. Names changed so that they collide under the key
/// of a text lead to another key.
///
/// No contract mentions a key.
#[derive(Clone, Copy)]
pub struct NameKey {
    key0: u64,
    key1: u64,
}

impl BuildHasher for NameKey {
    type Hasher = DefaultHasher;

    ghost build_hasher = { λ k. with_keys k.key0 k.key1 };

    fn build_hasher(&self) -> DefaultHasher {
        keyed_hasher(self.key0, self.key1)
    }
}

impl NameKey {
    /// The key of a block.
    pub fn of(block: &Block) -> NameKey {
        let mut digest = Sha256::new();
        feed_entities(&mut digest, &block.entities);
        let octets: [u8; 32] = digest.finalize();
        let mut first = [0; 8];
        first.copy_from_slice(&octets[..8]);
        let mut second = [0; 8];
        second.copy_from_slice(&octets[8..16]);
        NameKey {
            key0: u64::from_le_bytes(first),
            key1: u64::from_le_bytes(second),
        }
    }
}

/// Feeds a name as it is written, and a comma, which no name contains.
fn feed(digest: &mut Sha256, name: Name) {
    digest.update(name.as_bytes());
    digest.update(b",");
}

/// Feeds several names, in order.
fn feed_ids(digest: &mut Sha256, ids: &[Identifier]) {
    for id in ids {
        feed(digest, id.name);
    }
}

/// Feeds the entities of a block, except CONNECTs.
fn feed_entities(digest: &mut Sha256, entities: &[Entity]) {
    for entity in entities {
        match entity {
            Entity::Signals(declared) => feed_signals(digest, declared),
            Entity::Route(route) => feed_route(digest, route),
            Entity::Connect(_) => {}
            Entity::Synonyms(list) => feed_synonyms(digest, list),
            Entity::Process(process) => feed_process(digest, process),
        }
    }
}

/// Feeds the names of synonyms.
fn feed_synonyms(digest: &mut Sha256, synonyms: &[Synonym]) {
    for synonym in synonyms {
        feed(digest, synonym.name.name);
    }
}

/// Feeds the names of signals.
fn feed_signals(digest: &mut Sha256, declared: &[SignalDeclaration]) {
    for signal in declared {
        feed(digest, signal.name.name);
    }
}

/// Feeds a route: its name, its parties and the signals that it carries.
fn feed_route(digest: &mut Sha256, route: &Route) {
    feed(digest, route.name.name);
    for path in &route.paths {
        feed_path(digest, path);
    }
}

/// Feeds a path: both parties and its signals.
fn feed_path(digest: &mut Sha256, path: &Path) {
    feed_party(digest, &path.from);
    feed_party(digest, &path.to);
    feed_ids(digest, &path.signals);
}

/// Feeds a party. The environment is fed as an empty name.
fn feed_party(digest: &mut Sha256, party: &Party) {
    match party {
        Party::Environment => digest.update(b","),
        Party::Process(id) => feed(digest, id.name),
    }
}

/// Feeds the names of a process: its own, its variables and timers, its states, the signals and timers of INPUTs and
/// SAVEs, and its connections.
fn feed_process(digest: &mut Sha256, process: &Process) {
    feed(digest, process.name.name);
    feed_declarations(digest, &process.declarations);
    feed_states(digest, &process.states);
    feed_connections(digest, &process.connections);
}

/// Feeds the names of variables, timers and synonyms.
fn feed_declarations(digest: &mut Sha256, declarations: &[Declaration]) {
    for declaration in declarations {
        match declaration {
            Declaration::Variables(groups) => feed_groups(digest, groups),
            Declaration::Timers(ids) => feed_ids(digest, ids),
            Declaration::Synonyms(list) => feed_synonyms(digest, list),
        }
    }
}

/// Feeds the names of variables.
fn feed_groups(digest: &mut Sha256, groups: &[Group]) {
    for group in groups {
        feed_ids(digest, &group.names);
    }
}

/// Feeds the names of STATE parts, and of the signals and timers that they consume and save.
fn feed_states(digest: &mut Sha256, states: &[StatePart]) {
    for part in states {
        feed_ids(digest, &part.names);
        feed_clauses(digest, &part.clauses);
    }
}

/// Feeds the names of the signals and timers of INPUTs and SAVEs.
fn feed_clauses(digest: &mut Sha256, clauses: &[StateClause]) {
    for clause in clauses {
        match clause {
            StateClause::Input(input) => feed_stimuli(digest, &input.stimuli),
            StateClause::Save(ids) => feed_ids(digest, ids),
        }
    }
}

/// Feeds the names of the signals and timers of an INPUT.
fn feed_stimuli(digest: &mut Sha256, stimuli: &[Stimulus]) {
    for stimulus in stimuli {
        feed(digest, stimulus.name.name);
    }
}

/// Feeds the names of connections.
fn feed_connections(digest: &mut Sha256, connections: &[Connection]) {
    for connection in connections {
        feed(digest, connection.name.name);
    }
}
