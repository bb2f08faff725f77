//! The tables of a process.
ghost use Rattle.std.specs.Prelude.{◌≡◌, ◌++◌, [], ℕ, ◌<◌, ◌==◌, if◌then◌else◌, List, map, fold, length, IfOk, IfErr, OnOk, IfSome, IfNone, slice_get, vec_len};
ghost use Rattle.std.specs.List.{flat_map};
ghost use Rattle.sdl_ast.specs.Views.{group_of, declaration_of, state_of, input_of, connection_of, process_of};
ghost use Rattle.sdl_tables.specs.Names.{variable_names, variables_of, group_variables, declared_variables, named_states, timers_in, timers_of, connector_names, states_of, names_once, add_name, inputs_by_state, saves_by_state, triggers_by_state, clause_parts, input_parts};
ghost use Rattle.sdl_tables.specs.Scopes.{Marks, repeats, process_scopes, shared, IsDouble};
ghost use Rattle.sdl_tables.specs.Tables.{HasDeclared, HasStanding};
ghost use Rattle.sdl_tables.specs.Rows.{variable_of, rows_inputs, row_names};

use crate::fault::TableFault;
use crate::input_rows::collect_inputs;
use crate::name_key::NameKey;
use crate::name_table::NameTable;
use crate::scope::{Scope, add_names, earlier, first_shared, index_names};
use crate::state_names::{Which, collect_names, push_ids};
use crate::triggers::trigger_double;
use sdl_ast::{
    Connection, Constant, Declaration, Group, Identifier, InputPart, Name, Process, Sort,
    StateClause, StatePart, Stimulus,
};
use std::alloc::{AllocError, Global};
use std::marker::Model;

/// A variable of a process: its name as declared, its sort, and the initial value that its group has.
#[derive(Clone, Copy, Debug, PartialEq, Eq)]
pub struct Variable {
    pub name: Identifier,
    pub sort: Sort,
    pub initial: Option<Constant>,
}

/// An input of a state: an INPUT, and one of the signals or timers that it names.
#[derive(Clone, Copy)]
pub struct InputRow<'a> {
    pub input: &'a InputPart,
    pub stimulus: &'a Stimulus,
}

/// Appends the variables of a group.
fn push_group(rows: &mut Vec<Variable>, group: &Group) -> Result<(), AllocError>
    ensures { OnOk result (map variable_of rows.new.items ≡ map variable_of rows.old.items ++ group_variables (group_of group.now)) }
{
    for name in &group.names {
        rows.push(Variable {
            name: *name,
            sort: group.sort,
            initial: group.initial,
        })?;
    }
    Ok(())
}

/// Appends the variables of groups.
fn push_groups(rows: &mut Vec<Variable>, groups: &[Group]) -> Result<(), AllocError>
    ensures { OnOk result (map variable_of rows.new.items ≡ map variable_of rows.old.items ++ flat_map group_variables (map group_of groups.now)) }
{
    for group in groups {
        push_group(rows, group)?;
    }
    Ok(())
}

/// Collects the variables of a process, in the order of the text.
fn collect_variables(
    alloc: Global,
    declarations: &[Declaration],
) -> Result<Vec<Variable>, AllocError>
    ensures { IfOk result (λ rows. map variable_of rows.items ≡ flat_map declared_variables (map declaration_of declarations.now)) }
{
    let mut rows = Vec::new(alloc);
    for declaration in declarations {
        match declaration {
            Declaration::Variables(groups) => push_groups(&mut rows, groups)?,
            Declaration::Timers(_) => {}
            Declaration::Synonyms(_) => {}
        }
    }
    Ok(rows)
}

/// Collects the timers of a process, in the order of the text.
fn collect_timers(
    alloc: Global,
    declarations: &[Declaration],
) -> Result<Vec<Identifier>, AllocError>
    ensures { IfOk result (λ rows. rows.items ≡ flat_map timers_in (map declaration_of declarations.now)) }
{
    let mut rows = Vec::new(alloc);
    for declaration in declarations {
        match declaration {
            Declaration::Variables(_) => {}
            Declaration::Timers(names) => push_ids(&mut rows, names)?,
            Declaration::Synonyms(_) => {}
        }
    }
    Ok(rows)
}

/// The place of the first timer whose name is in the table.
pub(crate) fn shared_declared(among: &NameTable, declarations: &[Declaration]) -> Option<u32>
    ensures { Marks result (shared among.now (flat_map timers_in (map declaration_of declarations.now))) }
{
    let mut place = None;
    for declaration in declarations {
        match declaration {
            Declaration::Variables(_) => {}
            Declaration::Timers(names) => place = earlier(place, first_shared(among, names)),
            Declaration::Synonyms(_) => {}
        }
    }
    place
}

/// The names of variables.
fn variable_ids(alloc: Global, rows: &[Variable]) -> Result<Vec<Identifier>, AllocError>
    ensures { IfOk result (λ ids. ids.items ≡ map (λ row. row.name) rows.now) }
{
    rows.iter().map(|row| row.name).collect(alloc)
}

/// The names of connections.
fn connector_ids(alloc: Global, connections: &[Connection]) -> Result<Vec<Identifier>, AllocError>
    ensures { IfOk result (λ ids. ids.items ≡ map (λ c. c.name) (map connection_of connections.now)) }
{
    let mut ids = Vec::new(alloc);
    for connection in connections {
        ids.push(connection.name)?;
    }
    Ok(ids)
}

/// Collects the names of states, in the order of their first STATE.
fn collect_states(alloc: Global, key: NameKey, parts: &[StatePart]) -> Result<NameTable, AllocError>
    ensures { IfOk result (λ names. names ≡ names_once (flat_map (λ part. part.names) (map state_of parts.now))) }
{
    let mut names = NameTable::new(alloc, key);
    for part in parts {
        add_names(&mut names, &part.names)?;
    }
    Ok(names)
}

/// Appends the INPUTs of a STATE part.
fn push_parts<'a>(parts: &mut Vec<&'a InputPart>, part: &'a StatePart) -> Result<(), AllocError>
    ensures { OnOk result (map (λ i. input_of i.now) parts.new.items
        ≡ map (λ i. input_of i.now) parts.old.items ++ flat_map clause_parts (state_of part.now).clauses) }
{
    for clause in &part.clauses {
        match clause {
            StateClause::Input(input) => parts.push(input)?,
            StateClause::Save(_) => {}
        }
    }
    Ok(())
}

/// Collects the INPUTs of STATE parts, in the order of the text.
fn collect_parts<'a>(
    alloc: Global,
    states: &'a [StatePart],
) -> Result<Vec<&'a InputPart>, AllocError>
    ensures { IfOk result (λ parts. map (λ i. input_of i.now) parts.items
        ≡ flat_map (λ part. flat_map clause_parts part.clauses) (map state_of states.now)) }
{
    let mut parts: Vec<&'a InputPart> = Vec::new(alloc);
    for part in states {
        push_parts(&mut parts, part)?;
    }
    Ok(parts)
}

/// The variables of a process, and the place of the first duplicate name.
#[derive(Drop)]
struct Variables {
    names: NameTable,
    rows: Vec<Variable>,
    double: Option<u32>,
}

/// Numbers the variables of a process, and finds the first duplicate name.
fn index_variables(alloc: Global, key: NameKey, process: &Process) -> Result<Variables, AllocError>
    ensures names { IfOk result (λ v. v.names ≡ names_once (variable_names (process_of process.now))) }
    ensures rows { IfOk result (λ v. map variable_of v.rows.items ≡ variables_of (process_of process.now)) }
    ensures double { IfOk result (λ v. Marks v.double (repeats [] (variable_names (process_of process.now)))) }
{
    let rows = collect_variables(alloc, &process.declarations)?;
    let ids = variable_ids(alloc, &rows)?;
    let Scope { names, double } = index_names(alloc, key, &ids)?;
    Ok(Variables {
        names,
        rows,
        double,
    })
}

/// Numbers the timers of a process, and finds the first duplicate name.
fn index_timers(alloc: Global, key: NameKey, process: &Process) -> Result<Scope, AllocError>
    ensures names { IfOk result (λ s. s.names ≡ names_once (timers_of (process_of process.now))) }
    ensures double { IfOk result (λ s. Marks s.double (repeats [] (timers_of (process_of process.now)))) }
{
    let ids = collect_timers(alloc, &process.declarations)?;
    let scope = index_names(alloc, key, &ids)?;
    Ok(scope)
}

/// Numbers the connections of a process, and finds the first duplicate name.
fn index_connectors(alloc: Global, key: NameKey, process: &Process) -> Result<Scope, AllocError>
    ensures names { IfOk result (λ s. s.names ≡ names_once (connector_names (process_of process.now))) }
    ensures double { IfOk result (λ s. Marks s.double (repeats [] (connector_names (process_of process.now)))) }
{
    let ids = connector_ids(alloc, &process.connections)?;
    let scope = index_names(alloc, key, &ids)?;
    Ok(scope)
}

/// The variables, timers and connections of a process, and the place of the first duplicate name.
#[derive(Drop)]
struct Declared {
    variables: NameTable,
    rows: Vec<Variable>,
    timers: NameTable,
    connectors: NameTable,
    double: Option<u32>,
}

/// Numbers the declarations of a process, and finds the first duplicate name.
fn index_declared(alloc: Global, key: NameKey, process: &Process) -> Result<Declared, AllocError>
    ensures declared { IfOk result (λ d. HasDeclared (process_of process.now) d) }
{
    let Variables {
        names,
        rows,
        double,
    } = index_variables(alloc, key, process)?;
    let timers = index_timers(alloc, key, process)?;
    let connectors = index_connectors(alloc, key, process)?;
    Ok(Declared {
        variables: names,
        rows,
        timers: timers.names,
        connectors: connectors.names,
        double: earlier(double, earlier(timers.double, connectors.double)),
    })
}

/// The states and INPUTs of a process, and the place of the first name that a state consumes or saves twice.
#[derive(Drop)]
struct Standing<'a> {
    states: NameTable,
    parts: Vec<&'a InputPart>,
    double: Option<u32>,
}

/// Collects the states and INPUTs of a process, and finds the first name that a state consumes or saves twice.
fn index_standing<'a>(
    alloc: Global,
    key: NameKey,
    process: &'a Process,
) -> Result<Standing<'a>, AllocError>
    ensures standing { IfOk result (λ t. HasStanding (process_of process.now) t) }
{
    let states = collect_states(alloc, key, &process.states)?;
    let double = trigger_double(alloc, key, process, &states)?;
    let parts = collect_parts(alloc, &process.states)?;
    Ok(Standing {
        states,
        parts,
        double,
    })
}

/// A process with its tables: variables, timers, connectors and states by name and by number. Contracts see the
/// process.
#[derive(Drop)]
pub struct ProcessTable<'a> {
    process: &'a Process,
    variables: NameTable,
    rows: Vec<Variable>,
    timers: NameTable,
    connectors: NameTable,
    states: NameTable,
    parts: Vec<&'a InputPart>,
}

impl<'a> Model for ProcessTable<'a> {
    ghost use Rattle.sdl_ast.specs.declared.tree.Process as the_process;
    ghost use Rattle.sdl_ast.specs.contracts.tree.Process as the_contract;

    ghost Value = { the_process.Process };

    ghost coded = { the_contract.the_row.coded };

    ghost use Rattle.sdl_tables.specs.Tables.{HasTables};

    ghost view = { λ t. t.process.now };

    ghost invariant = { HasTables };
}

impl<'a> ProcessTable<'a> {
    /// Builds the tables of a process, which hash with this key. `DoubleName` if a name is a duplicate.
    pub fn new(alloc: Global, key: NameKey, process: &'a Process) -> Result<Self, TableFault>
        ensures table { IfOk result (λ t. t ≡ process.now) }
        ensures distinct { OnOk result (flat_map (repeats []) (process_scopes (process_of process.now)) ≡ []) }
        ensures double { IfErr result (λ e. IsDouble e (flat_map (repeats []) (process_scopes (process_of process.now)))) }
    {
        let declared = index_declared(alloc, key, process)?;
        let standing = index_standing(alloc, key, process)?;
        match earlier(declared.double, standing.double) {
            Some(at) => Err(TableFault::DoubleName(at)),
            None => Ok(ProcessTable {
                process,
                variables: declared.variables,
                rows: declared.rows,
                timers: declared.timers,
                connectors: declared.connectors,
                states: standing.states,
                parts: standing.parts,
            }),
        }
    }

    /// The process.
    pub fn process(&self) -> &'a Process
        ensures process { result.now ≡ self.now }
        ensures distinct { flat_map (repeats []) (process_scopes (process_of self.now)) ≡ [] }
    {
        let _ = &self.variables;
        self.process
    }

    /// The names of its variables, by number.
    pub fn variables(&self) -> &NameTable
        ensures { result.now ≡ variable_names (process_of self.now) }
    {
        &self.variables
    }

    /// Its variables, by number.
    pub fn rows(&self) -> &[Variable]
        ensures { map variable_of result.now ≡ variables_of (process_of self.now) }
    {
        &self.rows
    }

    /// The names of its timers, by number.
    pub fn timers(&self) -> &NameTable
        ensures { result.now ≡ timers_of (process_of self.now) }
    {
        &self.timers
    }

    /// The names of its connections, by number.
    pub fn connectors(&self) -> &NameTable
        ensures { result.now ≡ connector_names (process_of self.now) }
    {
        &self.connectors
    }

    /// The names of its states, by number.
    pub fn states(&self) -> &NameTable
        ensures { result.now ≡ states_of (process_of self.now) }
    {
        &self.states
    }

    /// The inputs of each of its states by number, in the order of the text. They are built on each call. There is a
    /// row for each state and each signal that it consumes, so the result can be much longer than the text.
    pub fn inputs(&self, alloc: Global) -> Result<Vec<Vec<InputRow<'a>>>, AllocError>
        ensures { IfOk result (λ v. map rows_inputs v.items ≡ inputs_by_state (process_of self.now)) }
    {
        collect_inputs(alloc, self.process, &self.states)
    }

    /// The names that each of its states saves by number, in the order of the text. They are built on each call. There
    /// is a name for each state and each signal that it saves, so the result can be much longer than the text.
    pub fn saves(&self, alloc: Global) -> Result<Vec<Vec<Identifier>>, AllocError>
        ensures { IfOk result (λ v. map row_names v.items ≡ saves_by_state (process_of self.now)) }
    {
        collect_names(alloc, self.process, &self.states, Which::Saves)
    }

    /// Its INPUTs, each one once even if its STATE part names several states.
    pub fn parts(&self) -> &[&'a InputPart]
        ensures { map (λ i. input_of i.now) result.now ≡ input_parts (process_of self.now) }
    {
        &self.parts
    }
}
