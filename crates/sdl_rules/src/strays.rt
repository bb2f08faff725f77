//! The places where the constants of a process break rules on synonyms.
ghost use Rattle.std.specs.Prelude.{◌≡◌, [], ◌∷◌, map};
ghost use Rattle.std.specs.List.{flat_map};
ghost use Rattle.sdl_ast.specs.Views.{text_of, else_choice, plain_statement, plain_decision, plain_answer, group_of, declaration_of, clause_of, state_of, connection_of, process_of};
ghost use Rattle.sdl_tables.specs.Scopes.{Marks};
ghost use Rattle.sdl_rules.specs.Faults.{Places, AreOf, no_places, both, unseen, is_boolean, negated_boolean, constant_places, constants_places, range_constants, group_constants, text_constants, choice_constants, statement_constants, answer_constants, declaration_constants, clause_constants, state_constants, connection_constants, process_constants};
ghost use Rattle.sdl_rules.specs.Views.{sight_of};

use crate::sight::Sight;
use crate::values::is_of_sort;
use sdl_ast::{
    Answer, Connection, Constant, Decision, Declaration, Group, Identifier, Process, Range, Sort,
    StateClause, StatePart, Statement, Transition,
};
use sdl_tables::earlier;

/// A place of each rule that synonyms may break: a name that is unknown, a wrong sort, a wrong divisor.
#[derive(Clone, Copy)]
pub struct Strays {
    pub unknown: Option<u32>,
    pub wrong: Option<u32>,
    pub divisor: Option<u32>,
}

/// No place.
pub(crate) fn no_strays() -> Strays
    ensures { AreOf no_places result }
{
    Strays {
        unknown: None,
        wrong: None,
        divisor: None,
    }
}

/// The first of two places of each rule.
pub(crate) fn first_of(one: Strays, other: Strays) -> Strays
    ensures { (p q : Places) → AreOf p one → AreOf q other → AreOf (both p q) result }
{
    Strays {
        unknown: earlier(one.unknown, other.unknown),
        wrong: earlier(one.wrong, other.wrong),
        divisor: earlier(one.divisor, other.divisor),
    }
}

/// The place of a name that is no synonym.
pub(crate) fn unseen(sight: &Sight, id: &Identifier) -> Option<u32>
    ensures { Marks result (unseen (sight_of sight.now) id.now) }
{
    match sight.value(id.name) {
        Some(_) => None,
        None => Some(id.at),
    }
}

/// Whether a name stands for a Boolean.
fn is_boolean(sight: &Sight, id: &Identifier) -> bool
    ensures { result ≡ is_boolean (sight_of sight.now) id.now }
{
    match sight.value(id.name) {
        Some(value) => is_of_sort(Sort::Boolean, value),
        None => false,
    }
}

/// The place of a Boolean after a minus.
fn negated_boolean(sight: &Sight, is_negated: bool, synonym: &Identifier) -> Option<u32>
    ensures { Marks result (negated_boolean (sight_of sight.now) is_negated synonym.now) }
{
    if !is_negated {
        return None;
    }
    if is_boolean(sight, synonym) {
        Some(synonym.at)
    } else {
        None
    }
}

/// The faults of a constant.
fn strays_in_constant(sight: &Sight, constant: &Constant) -> Strays
    ensures { AreOf (constant_places (sight_of sight.now) constant.now) result }
{
    match &constant.synonym {
        None => no_strays(),
        Some(synonym) => Strays {
            unknown: unseen(sight, synonym),
            wrong: negated_boolean(sight, constant.is_negated, synonym),
            divisor: None,
        },
    }
}

/// The faults of a single constant.
fn strays_in_one(sight: &Sight, constant: Constant) -> Strays
    ensures { AreOf (constants_places (sight_of sight.now) (constant ∷ [])) result }
{
    strays_in_constant(sight, &constant)
}

/// The faults of two constants.
fn strays_in_two(sight: &Sight, low: Constant, high: Constant) -> Strays
    ensures { AreOf (constants_places (sight_of sight.now) (low ∷ high ∷ [])) result }
{
    let first = strays_in_one(sight, low);
    let second = strays_in_one(sight, high);
    first_of(first, second)
}

/// The faults of the constants of a range.
fn strays_in_range(sight: &Sight, range: &Range) -> Strays
    ensures { AreOf (constants_places (sight_of sight.now) (range_constants range.now)) result }
{
    match range {
        Range::Value(constant) => strays_in_one(sight, *constant),
        Range::Compared { constant, .. } => strays_in_one(sight, *constant),
        Range::Between(low, high) => strays_in_two(sight, *low, *high),
    }
}

/// The faults of the constants of ranges.
fn strays_in_ranges(sight: &Sight, ranges: &[Range]) -> Strays
    ensures { AreOf (constants_places (sight_of sight.now) (flat_map range_constants ranges.now)) result }
{
    let mut found = no_strays();
    for range in ranges {
        found = first_of(found, strays_in_range(sight, range));
    }
    found
}

/// The faults of the constants of a transition.
#[cycle(straying)]
fn strays_in_transition(sight: &Sight, transition: &Transition) -> Strays
    ensures { AreOf (constants_places (sight_of sight.now) (text_constants (text_of transition.now))) result }
{
    let mut found = no_strays();
    for statement in &transition.statements {
        found = first_of(found, strays_in_statement(sight, statement));
    }
    found
}

#[cycle(straying)]
fn strays_in_statement(sight: &Sight, statement: &Statement) -> Strays
    ensures { AreOf (constants_places (sight_of sight.now) (statement_constants (plain_statement statement.now))) result }
{
    match statement {
        Statement::Act(_) => no_strays(),
        Statement::Decide(decision) => strays_in_decision(sight, decision),
    }
}

#[cycle(straying)]
fn strays_in_decision(sight: &Sight, decision: &Decision) -> Strays
    ensures { AreOf (constants_places (sight_of sight.now) (statement_constants (plain_decision decision.now))) result }
{
    let mut found = no_strays();
    for answer in &decision.answers {
        found = first_of(found, strays_in_answer(sight, answer));
    }
    first_of(found, strays_in_else(sight, &decision.otherwise))
}

#[cycle(straying)]
fn strays_in_answer(sight: &Sight, answer: &Answer) -> Strays
    ensures { AreOf (constants_places (sight_of sight.now) (answer_constants (plain_answer answer.now))) result }
{
    let ranges = strays_in_ranges(sight, &answer.ranges);
    let body = strays_in_transition(sight, &answer.body);
    first_of(ranges, body)
}

#[cycle(straying)]
fn strays_in_else(sight: &Sight, otherwise: &Option<Transition>) -> Strays
    ensures { AreOf (constants_places (sight_of sight.now) (choice_constants (else_choice otherwise.now))) result }
{
    match otherwise {
        None => no_strays(),
        Some(body) => strays_in_transition(sight, body),
    }
}

/// The faults of an initial value.
fn strays_in_group(sight: &Sight, group: &Group) -> Strays
    ensures { AreOf (constants_places (sight_of sight.now) (group_constants (group_of group.now))) result }
{
    match group.initial {
        None => no_strays(),
        Some(constant) => strays_in_one(sight, constant),
    }
}

/// The faults of the initial values of a DCL.
fn strays_in_groups(sight: &Sight, groups: &[Group]) -> Strays
    ensures { AreOf (constants_places (sight_of sight.now) (flat_map group_constants (map group_of groups.now))) result }
{
    let mut found = no_strays();
    for group in groups {
        found = first_of(found, strays_in_group(sight, group));
    }
    found
}

/// The faults of the constants of a declaration.
fn strays_in_declaration(sight: &Sight, declaration: &Declaration) -> Strays
    ensures { AreOf (constants_places (sight_of sight.now) (declaration_constants (declaration_of declaration.now))) result }
{
    match declaration {
        Declaration::Variables(groups) => strays_in_groups(sight, groups),
        Declaration::Timers(_) => no_strays(),
        Declaration::Synonyms(_) => no_strays(),
    }
}

/// The faults of the constants of declarations.
fn strays_in_declarations(sight: &Sight, declarations: &[Declaration]) -> Strays
    ensures { AreOf (constants_places (sight_of sight.now) (flat_map declaration_constants (map declaration_of declarations.now))) result }
{
    let mut found = no_strays();
    for declaration in declarations {
        found = first_of(found, strays_in_declaration(sight, declaration));
    }
    found
}

/// The faults of the constants of an INPUT or a SAVE.
fn strays_in_clause(sight: &Sight, clause: &StateClause) -> Strays
    ensures { AreOf (constants_places (sight_of sight.now) (clause_constants (clause_of clause.now))) result }
{
    match clause {
        StateClause::Input(input) => strays_in_transition(sight, &input.transition),
        StateClause::Save(_) => no_strays(),
    }
}

/// The faults of the constants of a STATE part.
fn strays_in_clauses(sight: &Sight, clauses: &[StateClause]) -> Strays
    ensures { AreOf (constants_places (sight_of sight.now) (flat_map clause_constants (map clause_of clauses.now))) result }
{
    let mut found = no_strays();
    for clause in clauses {
        found = first_of(found, strays_in_clause(sight, clause));
    }
    found
}

/// The faults of the constants of STATE parts.
fn strays_in_states(sight: &Sight, parts: &[StatePart]) -> Strays
    ensures { AreOf (constants_places (sight_of sight.now) (flat_map state_constants (map state_of parts.now))) result }
{
    let mut found = no_strays();
    for part in parts {
        found = first_of(found, strays_in_clauses(sight, &part.clauses));
    }
    found
}

/// The faults of the constants of CONNECTIONs.
fn strays_in_connections(sight: &Sight, connections: &[Connection]) -> Strays
    ensures { AreOf (constants_places (sight_of sight.now) (flat_map connection_constants (map connection_of connections.now))) result }
{
    let mut found = no_strays();
    for connection in connections {
        found = first_of(found, strays_in_transition(sight, &connection.transition));
    }
    found
}

/// The faults of the constants of a process.
pub(crate) fn strays_in_process(sight: &Sight, process: &Process) -> Strays
    ensures { AreOf (constants_places (sight_of sight.now) (process_constants (process_of process.now))) result }
{
    let declared = strays_in_declarations(sight, &process.declarations);
    let start = strays_in_transition(sight, &process.start.transition);
    let states = strays_in_states(sight, &process.states);
    let connections = strays_in_connections(sight, &process.connections);
    let bodies = first_of(states, connections);
    let rest = first_of(start, bodies);
    first_of(declared, rest)
}
