//! The rules for each single statement of a process: on names, sorts, receivers, answers and divisors.
ghost use Rattle.std.specs.Prelude.{◌≡◌, false, List, [], ◌∷◌, map};
ghost use Rattle.std.specs.List.{flat_map};
ghost use Rattle.sdl_ast.specs.Plain.{Tree, PlainBlock};
ghost use Rattle.sdl_ast.specs.Views.{tree_of, action_of, text_of, else_choice, input_of, connection_of, process_of, block_of};
ghost use Rattle.sdl_tables.specs.Scopes.{Marks};
ghost use Rattle.sdl_sound.specs.Names.{process_unknown, unknown_names};
ghost use Rattle.sdl_sound.specs.Sorts.{wrong_sorts};
ghost use Rattle.sdl_sound.specs.Receivers.{with_two_receivers};
ghost use Rattle.sdl_sound.specs.Decisions.{unanswered};
ghost use Rattle.sdl_sound.specs.Divisors.{bad_divisors};
ghost use Rattle.sdl_sound.specs.Statements.{acts, covers, finishes, statements_of, choice_statements};
ghost use Rattle.sdl_sound.specs.Actions.{Origin, begins, in_input, in_connection, in_statements};
ghost use Rattle.sdl_scopes.specs.Known.{Knows};
ghost use Rattle.sdl_sound.specs.Parts.{statement_parts, question_of, decision_parts, answer_parts, end_parts};
ghost use Rattle.sdl_rules.specs.Asked.{asked, asked_all, asks_origin};

use crate::receivers::{back_in_action, doubtful_in_action, lost_in_action};
use sdl_ast::{
    Action, Connection, Decision, End, Expression, InputPart, Range, Statement, Transition,
};
use sdl_scopes::{
    KnownSenders, bad_in, bad_in_action, unanswered_decision, unknown_connector, unknown_in_action,
    unknown_in_block, unknown_in_expression, unknown_in_inputs, unknown_in_parts,
    wrong_declaration, wrong_in, wrong_in_action, wrong_in_ranges,
};
use sdl_tables::{BlockTable, ProcessTable, earlier};
use std::alloc::Global;

/// A rule on statements.
#[derive(Clone, Copy)]
pub(crate) enum StatementRule {
    /// Each name is declared.
    Names,
    /// Each operand and each answer has the sort that it needs.
    Sorts,
    /// Some party receives each signal sent.
    Receivers,
    /// No two parties receive it.
    OneReceiver,
    /// Each value of a question has an answer.
    Answers,
    /// Each divisor is a literal of 1 or more.
    Divisors,
    /// Nothing goes TO SENDER. This is no rule of the language, but if it holds, the senders don't matter.
    NothingBack,
}

/// The place at which an action breaks a rule, given the possible senders of what starts its transition.
fn in_action(
    rule: StatementRule,
    block: &BlockTable,
    process: &ProcessTable,
    from: &KnownSenders,
    action: &Action,
) -> Option<u32>
    ensures { (os : List Origin) → Knows (block_of block.now) (process_of process.now) from.now os
        → Marks result (asked rule (block_of block.now) (process_of process.now) os (acts (action_of action.now))) }
{
    match rule {
        StatementRule::Names => unknown_in_action(block, process, action),
        StatementRule::Sorts => wrong_in_action(block, process, action),
        StatementRule::Receivers => lost_in_action(block, process, from, action),
        StatementRule::OneReceiver => doubtful_in_action(block, process, action),
        StatementRule::Answers => None,
        StatementRule::Divisors => bad_in_action(action),
        StatementRule::NothingBack => back_in_action(action),
    }
}

/// The place at which the question of a DECISION breaks a rule.
fn in_question(rule: StatementRule, process: &ProcessTable, decision: &Decision) -> Option<u32>
    ensures { (b : PlainBlock) (from : List Origin) → Marks result (asked rule b (process_of process.now) from (question_of decision.now)) }
{
    match rule {
        StatementRule::Names => unknown_in_expression(process.variables(), &decision.question),
        StatementRule::Sorts => wrong_in(process, &decision.question),
        StatementRule::Receivers => None,
        StatementRule::OneReceiver => None,
        StatementRule::Answers => unanswered_decision(process, decision),
        StatementRule::Divisors => bad_in(&decision.question),
        StatementRule::NothingBack => None,
    }
}

/// The place at which the values of an answer break a rule.
fn in_ranges(
    rule: StatementRule,
    process: &ProcessTable,
    question: &Expression,
    ranges: &[Range],
) -> Option<u32>
    ensures { (b : PlainBlock) (from : List Origin) → Marks result (asked rule b (process_of process.now) from (covers (tree_of question.now) ranges.now)) }
{
    match rule {
        StatementRule::Names => None,
        StatementRule::Sorts => wrong_in_ranges(process, question, ranges),
        StatementRule::Receivers => None,
        StatementRule::OneReceiver => None,
        StatementRule::Answers => None,
        StatementRule::Divisors => None,
        StatementRule::NothingBack => None,
    }
}

/// The place at which an end breaks a rule. For ends there are only rules on names.
fn at_end(rule: StatementRule, process: &ProcessTable, end: End) -> Option<u32>
    ensures { (b : PlainBlock) (from : List Origin) → Marks result (asked rule b (process_of process.now) from (finishes end)) }
{
    match rule {
        StatementRule::Names => unknown_connector(process, end),
        StatementRule::Sorts => None,
        StatementRule::Receivers => None,
        StatementRule::OneReceiver => None,
        StatementRule::Answers => None,
        StatementRule::Divisors => None,
        StatementRule::NothingBack => None,
    }
}

/// The place at which the end of a transition breaks a rule, if it has one.
fn in_end(rule: StatementRule, process: &ProcessTable, end: Option<End>) -> Option<u32>
    ensures { (b : PlainBlock) (from : List Origin) → Marks result (asked_all rule b (process_of process.now) from (end_parts end)) }
{
    match end {
        None => None,
        Some(end) => at_end(rule, process, end),
    }
}

/// The least place at which a transition breaks a rule, given the possible senders of what starts it.
#[cycle(statements)]
pub(crate) fn in_transition(
    rule: StatementRule,
    block: &BlockTable,
    process: &ProcessTable,
    from: &KnownSenders,
    transition: &Transition,
) -> Option<u32>
    ensures { (os : List Origin) → Knows (block_of block.now) (process_of process.now) from.now os
        → Marks result (asked_all rule (block_of block.now) (process_of process.now) os (statements_of (text_of transition.now))) }
{
    let mut place = None;
    for statement in &transition.statements {
        place = earlier(place, in_statement(rule, block, process, from, statement));
    }
    earlier(place, in_end(rule, process, transition.end))
}

/// The least place at which a statement breaks a rule, given the possible senders of what starts its transition.
#[cycle(statements)]
fn in_statement(
    rule: StatementRule,
    block: &BlockTable,
    process: &ProcessTable,
    from: &KnownSenders,
    statement: &Statement,
) -> Option<u32>
    ensures { (os : List Origin) → Knows (block_of block.now) (process_of process.now) from.now os
        → Marks result (asked_all rule (block_of block.now) (process_of process.now) os (statement_parts statement.now)) }
{
    match statement {
        Statement::Act(action) => in_action(rule, block, process, from, action),
        Statement::Decide(decision) => in_decision(rule, block, process, from, decision),
    }
}

/// The least place at which a DECISION breaks a rule, by itself or in its bodies.
#[cycle(statements)]
fn in_decision(
    rule: StatementRule,
    block: &BlockTable,
    process: &ProcessTable,
    from: &KnownSenders,
    decision: &Decision,
) -> Option<u32>
    ensures { (os : List Origin) → Knows (block_of block.now) (process_of process.now) from.now os
        → Marks result (asked_all rule (block_of block.now) (process_of process.now) os (decision_parts decision.now)) }
{
    let question = in_question(rule, process, decision);
    let mut place = None;
    for answer in &decision.answers {
        let values = in_ranges(rule, process, &decision.question, &answer.ranges);
        let body = in_transition(rule, block, process, from, &answer.body);
        place = earlier(place, earlier(values, body));
    }
    let bodies = earlier(
        place,
        in_else(rule, block, process, from, &decision.otherwise),
    );
    earlier(question, bodies)
}

/// The least place at which the body of ELSE breaks a rule, if there is one.
#[cycle(statements)]
fn in_else(
    rule: StatementRule,
    block: &BlockTable,
    process: &ProcessTable,
    from: &KnownSenders,
    otherwise: &Option<Transition>,
) -> Option<u32>
    ensures { (q : Tree) (os : List Origin) → Knows (block_of block.now) (process_of process.now) from.now os
        → Marks result (asked_all rule (block_of block.now) (process_of process.now) os (choice_statements q (else_choice otherwise.now))) }
{
    match otherwise {
        None => None,
        Some(body) => in_transition(rule, block, process, from, body),
    }
}

/// The least place at which the transition of START breaks a rule.
fn in_start(
    alloc: Global,
    rule: StatementRule,
    block: &BlockTable,
    process: &ProcessTable,
) -> Option<u32>
    requires { asks_origin rule ≡ false }
    ensures { Marks result (flat_map (asked rule (block_of block.now) (process_of process.now) (begins ∷ [])) (statements_of (process_of process.now).start.text)) }
{
    let transition = &process.process().start.transition;
    let from = KnownSenders::none(alloc, block.key());
    in_transition(rule, block, process, &from, transition)
}

/// The least place at which the transition of an INPUT breaks a rule that doesn't depend on senders.
fn in_input(
    alloc: Global,
    rule: StatementRule,
    block: &BlockTable,
    process: &ProcessTable,
    input: &InputPart,
) -> Option<u32>
    requires { asks_origin rule ≡ false }
    ensures { Marks result (in_input (asked rule (block_of block.now) (process_of process.now)) (input_of input.now)) }
{
    let from = KnownSenders::none(alloc, block.key());
    in_transition(rule, block, process, &from, &input.transition)
}

/// The least place at which the transitions of these INPUTs break a rule.
fn in_inputs(
    alloc: Global,
    rule: StatementRule,
    block: &BlockTable,
    process: &ProcessTable,
    inputs: &[&InputPart],
) -> Option<u32>
    requires { asks_origin rule ≡ false }
    ensures { Marks result (flat_map (in_input (asked rule (block_of block.now) (process_of process.now))) (map (λ i. input_of i.now) inputs.now)) }
{
    let mut place = None;
    for input in inputs {
        place = earlier(place, in_input(alloc, rule, block, process, input));
    }
    place
}

/// The least place at which a connection breaks a rule.
fn in_connection(
    alloc: Global,
    rule: StatementRule,
    block: &BlockTable,
    process: &ProcessTable,
    connection: &Connection,
) -> Option<u32>
    requires { asks_origin rule ≡ false }
    ensures { Marks result (in_connection (asked rule (block_of block.now) (process_of process.now)) (process_of process.now) (connection_of connection.now)) }
{
    let from = KnownSenders::none(alloc, block.key());
    in_transition(rule, block, process, &from, &connection.transition)
}

fn in_connections(
    alloc: Global,
    rule: StatementRule,
    block: &BlockTable,
    process: &ProcessTable,
    connections: &[Connection],
) -> Option<u32>
    requires { asks_origin rule ≡ false }
    ensures { Marks result (flat_map (in_connection (asked rule (block_of block.now) (process_of process.now)) (process_of process.now)) (map connection_of connections.now)) }
{
    let mut place = None;
    for connection in connections {
        place = earlier(
            place,
            in_connection(alloc, rule, block, process, connection),
        );
    }
    place
}

/// The least place at which a process breaks a rule.
fn in_process(
    alloc: Global,
    rule: StatementRule,
    block: &BlockTable,
    process: &ProcessTable,
) -> Option<u32>
    requires { asks_origin rule ≡ false }
    ensures { Marks result (in_statements (asked rule (block_of block.now) (process_of process.now)) (process_of process.now)) }
{
    let start = in_start(alloc, rule, block, process);
    let inputs = in_inputs(alloc, rule, block, process, process.parts());
    let connections = &process.process().connections;
    let beyond = earlier(
        inputs,
        in_connections(alloc, rule, block, process, connections),
    );
    earlier(start, beyond)
}

fn in_processes(
    alloc: Global,
    rule: StatementRule,
    block: &BlockTable,
    processes: &[ProcessTable],
) -> Option<u32>
    requires { asks_origin rule ≡ false }
    ensures { Marks result (flat_map (λ p. in_statements (asked rule (block_of block.now) p) p) (map process_of processes.now)) }
{
    let mut place = None;
    for process in processes {
        place = earlier(place, in_process(alloc, rule, block, process));
    }
    place
}

/// The place of a name in a process that isn't declared in its class and scope.
fn unknown_in_process(alloc: Global, block: &BlockTable, process: &ProcessTable) -> Option<u32>
    ensures { Marks result (process_unknown (block_of block.now) (process_of process.now)) }
{
    let inputs = unknown_in_inputs(block, process, process.parts());
    let saves = unknown_in_parts(block, process, &process.process().states);
    let beyond = earlier(
        saves,
        in_process(alloc, StatementRule::Names, block, process),
    );
    earlier(inputs, beyond)
}

fn unknown_in_processes(
    alloc: Global,
    block: &BlockTable,
    processes: &[ProcessTable],
) -> Option<u32>
    ensures { Marks result (flat_map (process_unknown (block_of block.now)) (map process_of processes.now)) }
{
    let mut place = None;
    for process in processes {
        place = earlier(place, unknown_in_process(alloc, block, process));
    }
    place
}

/// The place of a name that isn't declared in its class and scope, or `None`.
pub fn unknown_name(alloc: Global, block: &BlockTable) -> Option<u32>
    ensures { Marks result (unknown_names (block_of block.now)) }
{
    let routes = unknown_in_block(block);
    earlier(routes, unknown_in_processes(alloc, block, block.tables()))
}

/// The place of a wrong sort, or of a signal with a wrong number of parameters or too many places; or `None`.
pub fn wrong_sort(alloc: Global, block: &BlockTable) -> Option<u32>
    ensures { Marks result (wrong_sorts (block_of block.now)) }
{
    let declared = wrong_declaration(block, block.tables());
    earlier(
        declared,
        in_processes(alloc, StatementRule::Sorts, block, block.tables()),
    )
}

/// The place of a signal in an OUTPUT that two or more parties receive, or `None`. (S6; Z.100: output.)
pub fn doubtful_output(alloc: Global, block: &BlockTable) -> Option<u32>
    ensures { Marks result (with_two_receivers (block_of block.now)) }
{
    in_processes(alloc, StatementRule::OneReceiver, block, block.tables())
}

/// The place of an Integer DECISION without ELSE, or a Boolean one without TRUE or FALSE once. (S8; Z.100: decision.)
pub fn missing_answer(alloc: Global, block: &BlockTable) -> Option<u32>
    ensures { Marks result (unanswered (block_of block.now)) }
{
    in_processes(alloc, StatementRule::Answers, block, block.tables())
}

/// The place of a divisor that is no literal of 1 or more, or `None`.
pub fn bad_divisor(alloc: Global, block: &BlockTable) -> Option<u32>
    ensures { Marks result (bad_divisors (block_of block.now)) }
{
    in_processes(alloc, StatementRule::Divisors, block, block.tables())
}
