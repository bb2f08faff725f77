//! The meanings of the names in the transitions of a process.
ghost use Rattle.std.specs.Prelude.{◌≡◌, ◌<◌, length, Some, OnOk, IfOk, IfSome};
ghost use Rattle.sdl_ast.specs.Views.{block_of, process_of};
ghost use Rattle.sdl_sound.specs.Receivers.{party_of, receivers};
ghost use Rattle.sdl_tables.specs.Names.{number_of, connector_names, variable_names, signal_names, process_names};
ghost use Rattle.sdl_meaning.specs.Act.{numbered, the_one};
ghost use Rattle.sdl_meaning.specs.Outcomes.{Scope};
ghost use Rattle.sdl_emit.specs.Scopes.{scope_in};
ghost use Rattle.sdl_emit.specs.Uses.{IsUse, AreUses, IsUseTable};

use crate::names::Names;
use sdl_ast::{
    Action, Assignment, Decision, Destination, End, Expression, Identifier, Output, Sending,
    StateClause, Statement, Transition,
};
use sdl_lex::MAX_TEXT;
use sdl_scopes::{Recipients, find_receivers};
use std::alloc::{AllocError, Global};
use turn_code::{Party, ProcessNumber, SignalNumber, VariableNumber};

/// The meaning of a name.
#[derive(Clone, Copy)]
pub(crate) enum Meant {
    /// A connection, by its number.
    Connection(usize),
    /// A variable.
    Variable(VariableNumber),
    /// A process that TO names.
    Process(ProcessNumber),
    /// A signal and, if it has only one receiver without TO, this receiver.
    Signal(SignalNumber, Option<Party>),
}

/// A name at a place in the text, and its meaning.
#[derive(Clone, Copy)]
pub(crate) struct Use {
    id: Identifier,
    meant: Meant,
}

/// The uses, each name in the slot of its place.
type Uses = Vec<Option<Use>>;

/// The meanings of the names in the transitions of a process. Each name is looked up once, and afterwards found by its
/// place in the text.
#[derive(Drop)]
pub struct UseTable {
    uses: Uses,
}

/// The slot of a name. Two names are more than one octet apart, so each has a slot to itself.
fn slot(id: &Identifier) -> usize {
    (id.at / 2) as usize
}

impl UseTable {
    /// A table without names.
    pub fn empty(alloc: Global) -> UseTable
        ensures { (c : Scope) → IsUseTable c result }
    {
        UseTable {
            uses: Vec::new(alloc),
        }
    }

    /// The meaning of a name, if it is known.
    fn look_up(&self, id: &Identifier) -> Option<Meant>
        ensures { (c : Scope) → IsUseTable c self.now → IfSome result (IsUse c id.now.name) }
    {
        match self.uses.get(slot(id)) {
            Some(Some(known)) if known.id.name == id.name => Some(known.meant),
            _ => None,
        }
    }

    /// The number of the connection that a JOIN names, if it is known.
    pub(crate) fn connection(&self, id: &Identifier) -> Option<usize>
        ensures { (c : Scope) → IsUseTable c self.now → IfSome result (λ n. number_of (connector_names c.process) id.now.name ≡ Some n) }
    {
        match self.look_up(id) {
            Some(Meant::Connection(number)) => Some(number),
            _ => None,
        }
    }

    /// The variable that a name stands for, if it is known.
    pub(crate) fn variable(&self, id: &Identifier) -> Option<VariableNumber>
        ensures { (c : Scope) → IsUseTable c self.now → IfSome result (λ n. number_of (variable_names c.process) id.now.name ≡ Some n.0) }
    {
        match self.look_up(id) {
            Some(Meant::Variable(number)) => Some(number),
            _ => None,
        }
    }

    /// The process that a name stands for, if it is known.
    pub(crate) fn process(&self, id: &Identifier) -> Option<ProcessNumber>
        ensures { (c : Scope) → IsUseTable c self.now → IfSome result (λ n. number_of (process_names c.block) id.now.name ≡ Some n.0) }
    {
        match self.look_up(id) {
            Some(Meant::Process(number)) => Some(number),
            _ => None,
        }
    }

    /// The signal that a name stands for, if it is known.
    pub(crate) fn signal(&self, id: &Identifier) -> Option<SignalNumber>
        ensures { (c : Scope) → IsUseTable c self.now → IfSome result (λ n. number_of (signal_names c.block) id.now.name ≡ Some n.0) }
    {
        match self.look_up(id) {
            Some(Meant::Signal(number, _)) => Some(number),
            _ => None,
        }
    }

    /// The receiver of a signal that is sent without TO, if it is known.
    pub(crate) fn recipient(&self, id: &Identifier) -> Option<Party>
        ensures { (c : Scope) → IsUseTable c self.now → IfSome result (λ q. the_one c (receivers c.block (party_of c.process) id.now.name) ≡ Some q) }
    {
        match self.look_up(id) {
            Some(Meant::Signal(_, party)) => party,
            _ => None,
        }
    }
}

/// Adds empty slots up to `last`.
fn grow(uses: &mut Uses, last: usize) -> Result<(), AllocError>
    ensures kept { (c : Scope) → AreUses c uses.old.items → OnOk result (AreUses c uses.new.items) }
    ensures there { OnOk result (last < length uses.new.items) }
{
    while uses.len() <= last {
        uses.push(None)?;
    }
    Ok(())
}

/// Adds a name, unless its slot is at `MAX_TEXT` or later. A tree made by hand may have places past any text.
fn add_use(uses: &mut Uses, names: &Names, id: &Identifier, meant: Meant) -> Result<(), AllocError>
    requires known { AreUses (scope_in names.now) uses.old.items }
    requires is { IsUse (scope_in names.now) id.now.name meant }
    ensures { OnOk result (AreUses (scope_in names.now) uses.new.items) }
{
    let place = slot(id);
    if place < MAX_TEXT {
        grow(uses, place)?;
        uses[place] = Some(Use { id: *id, meant });
    }
    Ok(())
}

/// Adds the name of a connection.
fn add_connection(uses: &mut Uses, names: &Names, id: &Identifier) -> Result<(), AllocError>
    requires { AreUses (scope_in names.now) uses.old.items }
    ensures { OnOk result (AreUses (scope_in names.now) uses.new.items) }
{
    match names.process.connectors().number(id.name) {
        Some(number) => add_use(uses, names, id, Meant::Connection(number)),
        None => Ok(()),
    }
}

/// Adds the name of a variable.
fn add_variable(uses: &mut Uses, names: &Names, id: &Identifier) -> Result<(), AllocError>
    requires { AreUses (scope_in names.now) uses.old.items }
    ensures { OnOk result (AreUses (scope_in names.now) uses.new.items) }
{
    match names.process.variables().number(id.name) {
        Some(number) => {
            let variable = VariableNumber(number as u8);
            add_use(uses, names, id, Meant::Variable(variable))
        }
        None => Ok(()),
    }
}

/// Adds the name of a process that TO names.
fn add_process(uses: &mut Uses, names: &Names, id: &Identifier) -> Result<(), AllocError>
    requires { AreUses (scope_in names.now) uses.old.items }
    ensures { OnOk result (AreUses (scope_in names.now) uses.new.items) }
{
    match names.block.processes().number(id.name) {
        Some(number) => {
            let process = ProcessNumber(number as u8);
            add_use(uses, names, id, Meant::Process(process))
        }
        None => Ok(()),
    }
}

/// A party by its number, if the block has it.
fn party_at(names: &Names, party: &sdl_ast::Party) -> Option<Party>
    ensures { result ≡ numbered (scope_in names.now) party.now }
{
    match party {
        sdl_ast::Party::Environment => Some(Party::Environment),
        sdl_ast::Party::Process(id) => match names.block.processes().number(id.name) {
            Some(number) => Some(Party::Process(ProcessNumber(number as u8))),
            None => None,
        },
    }
}

/// The receiver of a signal that is sent without TO, if there is only one.
fn only_recipient(names: &Names, signal: &Identifier) -> Option<Party>
    ensures { IfSome result (λ q. the_one (scope_in names.now) (receivers (block_of names.now.block.now) (party_of (process_of names.now.process.now)) signal.now.name) ≡ Some q) }
{
    let own = sdl_ast::Party::Process(names.process.process().name);
    match find_receivers(names.block, &own, signal.name) {
        Recipients::One(party) => party_at(names, &party),
        Recipients::Nobody | Recipients::Several => None,
    }
}

/// Adds the name of a signal that is sent.
fn add_signal(uses: &mut Uses, names: &Names, id: &Identifier) -> Result<(), AllocError>
    requires { AreUses (scope_in names.now) uses.old.items }
    ensures { OnOk result (AreUses (scope_in names.now) uses.new.items) }
{
    match names.block.signals().number(id.name) {
        Some(number) => {
            let signal = SignalNumber(number as u8);
            let party = only_recipient(names, id);
            add_use(uses, names, id, Meant::Signal(signal, party))
        }
        None => Ok(()),
    }
}

/// Adds the variables of an expression.
fn add_expression(uses: &mut Uses, names: &Names, expression: &Expression) -> Result<(), AllocError>
    requires { AreUses (scope_in names.now) uses.old.items }
    ensures { OnOk result (AreUses (scope_in names.now) uses.new.items) }
{
    match expression {
        Expression::Number { .. } | Expression::Truth { .. } => Ok(()),
        Expression::Variable { name, .. } => add_variable(uses, names, name),
        Expression::Unary { operand, .. } => add_expression(uses, names, operand),
        Expression::Binary { left, right, .. } => {
            add_expression(uses, names, left)?;
            add_expression(uses, names, right)
        }
    }
}

/// Adds the variables of some expressions.
fn add_expressions(
    uses: &mut Uses,
    names: &Names,
    expressions: &[Expression],
) -> Result<(), AllocError>
    requires { AreUses (scope_in names.now) uses.old.items }
    ensures { OnOk result (AreUses (scope_in names.now) uses.new.items) }
{
    for expression in expressions {
        add_expression(uses, names, expression)?;
    }
    Ok(())
}

/// Adds the variables of assignments.
fn add_assignments(
    uses: &mut Uses,
    names: &Names,
    assignments: &[Assignment],
) -> Result<(), AllocError>
    requires { AreUses (scope_in names.now) uses.old.items }
    ensures { OnOk result (AreUses (scope_in names.now) uses.new.items) }
{
    for assignment in assignments {
        add_variable(uses, names, &assignment.variable)?;
        add_expression(uses, names, &assignment.value)?;
    }
    Ok(())
}

/// Adds the signals of an OUTPUT, and the variables of their parameters.
fn add_sendings(uses: &mut Uses, names: &Names, sendings: &[Sending]) -> Result<(), AllocError>
    requires { AreUses (scope_in names.now) uses.old.items }
    ensures { OnOk result (AreUses (scope_in names.now) uses.new.items) }
{
    for sending in sendings {
        add_signal(uses, names, &sending.signal)?;
        add_expressions(uses, names, &sending.parameters)?;
    }
    Ok(())
}

/// Adds the process that TO names, if it names one.
fn add_recipient(uses: &mut Uses, names: &Names, to: &Option<Destination>) -> Result<(), AllocError>
    requires { AreUses (scope_in names.now) uses.old.items }
    ensures { OnOk result (AreUses (scope_in names.now) uses.new.items) }
{
    match to {
        Some(Destination::Process(id)) => add_process(uses, names, id),
        Some(Destination::Sender(_)) | None => Ok(()),
    }
}

/// Adds the names in an OUTPUT.
fn add_output(uses: &mut Uses, names: &Names, output: &Output) -> Result<(), AllocError>
    requires { AreUses (scope_in names.now) uses.old.items }
    ensures { OnOk result (AreUses (scope_in names.now) uses.new.items) }
{
    add_recipient(uses, names, &output.to)?;
    add_sendings(uses, names, &output.sendings)
}

/// Adds the names in an action, except those of timers, which are few.
fn add_action(uses: &mut Uses, names: &Names, action: &Action) -> Result<(), AllocError>
    requires { AreUses (scope_in names.now) uses.old.items }
    ensures { OnOk result (AreUses (scope_in names.now) uses.new.items) }
{
    match action {
        Action::Task(task) => add_assignments(uses, names, &task.assignments),
        Action::Output(output) => add_output(uses, names, output),
        Action::Set(set) => add_expression(uses, names, &set.delay),
        Action::Reset(_) => Ok(()),
    }
}

/// Adds the names in a DECISION.
#[cycle(uses)]
fn add_decision(uses: &mut Uses, names: &Names, decision: &Decision) -> Result<(), AllocError>
    requires { AreUses (scope_in names.now) uses.old.items }
    ensures { OnOk result (AreUses (scope_in names.now) uses.new.items) }
{
    add_expression(uses, names, &decision.question)?;
    for answer in &decision.answers {
        add_transition(uses, names, &answer.body)?;
    }
    match &decision.otherwise {
        Some(body) => add_transition(uses, names, body),
        None => Ok(()),
    }
}

/// Adds the names in a statement.
#[cycle(uses)]
fn add_statement(uses: &mut Uses, names: &Names, statement: &Statement) -> Result<(), AllocError>
    requires { AreUses (scope_in names.now) uses.old.items }
    ensures { OnOk result (AreUses (scope_in names.now) uses.new.items) }
{
    match statement {
        Statement::Act(action) => add_action(uses, names, action),
        Statement::Decide(decision) => add_decision(uses, names, decision),
    }
}

/// Adds the names in a transition.
#[cycle(uses)]
fn add_transition(uses: &mut Uses, names: &Names, transition: &Transition) -> Result<(), AllocError>
    requires { AreUses (scope_in names.now) uses.old.items }
    ensures { OnOk result (AreUses (scope_in names.now) uses.new.items) }
{
    for statement in &transition.statements {
        add_statement(uses, names, statement)?;
    }
    if let Some(End::Join(join)) = &transition.end {
        add_connection(uses, names, &join.connector)?;
    }
    Ok(())
}

/// Adds the names in the transition of an INPUT.
fn add_clause(uses: &mut Uses, names: &Names, clause: &StateClause) -> Result<(), AllocError>
    requires { AreUses (scope_in names.now) uses.old.items }
    ensures { OnOk result (AreUses (scope_in names.now) uses.new.items) }
{
    match clause {
        StateClause::Input(input) => add_transition(uses, names, &input.transition),
        StateClause::Save(_) => Ok(()),
    }
}

/// Adds the names in the transitions of a STATE part.
fn add_clauses(uses: &mut Uses, names: &Names, clauses: &[StateClause]) -> Result<(), AllocError>
    requires { AreUses (scope_in names.now) uses.old.items }
    ensures { OnOk result (AreUses (scope_in names.now) uses.new.items) }
{
    for clause in clauses {
        add_clause(uses, names, clause)?;
    }
    Ok(())
}

/// The table of the names in all transitions except that of START, whose names are looked up as they are used.
pub fn find_uses(alloc: Global, names: &Names) -> Result<UseTable, AllocError>
    ensures { IfOk result (IsUseTable (scope_in names.now)) }
{
    let mut uses = Vec::new(alloc);
    let tree = names.process.process();
    for part in &tree.states {
        add_clauses(&mut uses, names, &part.clauses)?;
    }
    for connection in &tree.connections {
        add_transition(&mut uses, names, &connection.transition)?;
    }
    Ok(UseTable { uses })
}
