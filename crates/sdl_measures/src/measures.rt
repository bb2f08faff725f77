//! The measures of connections and transitions: operands at once, instructions and effects on a walk, and the size.
ghost use Rattle.std.specs.Prelude.{◌≡◌, ◌+◌, ◌&&◌, ◌||◌, ℕ, max, if◌then◌else◌, length, IfOk};
ghost use Rattle.sdl_ast.specs.Plain.{Text, Choice, does, otherwise};
ghost use Rattle.sdl_ast.specs.Views.{action_of, end_text, text_of, statement_of, decision_of, choice_of, answer_of, process_of, block_of};
ghost use Rattle.sdl_sound.specs.Longest.{tests_budget, size};
ghost use Rattle.sdl_measures.specs.Counting.{measure_named, IsBehind, IsMeasured, AreMeasured};
ghost use Rattle.sdl_tables.specs.Names.{variables_of, processes_of};
ghost use Rattle.sdl_measures.specs.Measures.{capped, AreMeasures, AllMeasures};
ghost use Rattle.sdl_sound.specs.Orders.{IsOrder, AreOrders};

use crate::counts;
use sdl_ast::{Action, Answer, Decision, End, Identifier, Range, Statement, Transition};
use sdl_scopes::is_truth;
use sdl_sound::{both, one_of};
use sdl_tables::{BlockTable, ProcessTable};
use std::alloc::{AllocError, Global};

/// The measures of a connection, each up to 4,294,967,295. `budget`, `depth` and `effects` also count the
/// connections that its JOINs lead to; `size` counts only the connection's own text.
#[derive(Clone, Copy, Debug)]
pub struct Measure {
    /// The greatest cost of a walk.
    pub budget: u32,
    /// The most operands at once.
    pub depth: u32,
    /// The most outputs, settings and resettings of timers on a walk.
    pub effects: u32,
    /// How many instructions the text has.
    pub size: u32,
    /// Whether the text may run off its end. No connection's text does if the rules hold.
    pub goes_on: bool,
}

/// The measure of nothing.
pub(crate) const NOTHING: Measure = Measure {
    budget: 0,
    depth: 0,
    effects: 0,
    size: 0,
    goes_on: false,
};

/// The measure of an end of a transition other than a JOIN.
const LAST: Measure = Measure {
    budget: 1,
    depth: 0,
    effects: 0,
    size: 1,
    goes_on: false,
};

/// The measure of the connection with this name.
fn measure_named(process: &ProcessTable, measures: &[Measure], connector: Identifier) -> Measure
    ensures { result ≡ measure_named (process_of process.now) measures.now connector.name }
{
    match process.connectors().number(connector.name) {
        None => NOTHING,
        Some(number) => match measures.get(number) {
            None => NOTHING,
            Some(measure) => *measure,
        },
    }
}

/// The measure of an end of a transition, if `behind` follows a transition without an end.
fn measure_end(
    process: &ProcessTable,
    measures: &[Measure],
    end: Option<End>,
    behind: Measure,
) -> Measure
    ensures { (k e : ℕ) → IsBehind k e behind → IsMeasured (process_of process.now) measures.now (end_text end) k e result }
{
    match end {
        None => Measure {
            budget: behind.budget,
            depth: 0,
            effects: behind.effects,
            size: 0,
            goes_on: true,
        },
        Some(End::NextState(_)) => LAST,
        Some(End::Stop(_)) => LAST,
        Some(End::Join(join)) => {
            let joined = measure_named(process, measures, join.connector);
            Measure {
                budget: joined.budget.saturating_add(1),
                depth: joined.depth,
                effects: joined.effects,
                size: 1,
                goes_on: false,
            }
        }
    }
}

/// The measure of an action and of the rest that follows it.
fn measure_action(
    process: &ProcessTable,
    measures: &[Measure],
    action: &Action,
    rest: Measure,
) -> Measure
    ensures { (t : Text) (k e : ℕ) → IsMeasured (process_of process.now) measures.now t k e rest
        → IsMeasured (process_of process.now) measures.now (does (action_of action.now) t) k e result }
{
    let cost = counts::action_cost(action);
    Measure {
        budget: cost.saturating_add(rest.budget),
        depth: counts::action_depth(action).max(rest.depth),
        effects: counts::action_effects(action).saturating_add(rest.effects),
        size: cost.saturating_add(rest.size),
        goes_on: rest.goes_on,
    }
}

/// 1 if the test holds, else 0.
fn one_if(test: bool) -> u32
    ensures { result ≡ (if test then 1 else 0) }
{
    if test { 1 } else { 0 }
}

/// The size of the jump at the end of a body: 1 if the body goes on, else 0.
fn jump_size(goes_on: bool) -> u32
    ensures { result ≡ (if goes_on then 1 else 0) }
{
    one_if(goes_on)
}

/// The cost of the tests of an answer. The ranges are tested in turn; when one holds, the body is next.
fn tests_budget(ranges: &[Range], body: u32, others: u32) -> u32
    ensures { (b o : ℕ) → body ≡ capped b → others ≡ capped o → result ≡ capped (tests_budget ranges.now b o) }
{
    let mut most = others;
    for _range in ranges {
        most = body.max(most).saturating_add(1);
    }
    most
}

/// How many ranges there are.
fn count_ranges(ranges: &[Range]) -> u32
    ensures { result ≡ capped (length ranges.now) }
{
    let mut count: u32 = 0;
    for _range in ranges {
        count = count.saturating_add(1);
    }
    count
}

/// What an answer and the others cost together. An answer to a Boolean question costs only its body.
fn answer_budget(truth: bool, ranges: &[Range], body: u32, others: u32) -> u32
    ensures { (b o : ℕ) → body ≡ capped b → others ≡ capped o → result ≡ capped (if truth then max b o else tests_budget ranges.now b o) }
{
    if truth {
        body.max(others)
    } else {
        tests_budget(ranges, body, others)
    }
}

/// How many tests an answer has: one for each range, or none if the question is a Boolean one.
fn answer_tests(truth: bool, ranges: &[Range]) -> u32
    ensures { result ≡ capped (if truth then 0 else length ranges.now) }
{
    if truth { 0 } else { count_ranges(ranges) }
}

/// The measure of a transition. If it runs off its end, it goes on with the budget and the effects of `behind`.
/// A JOIN counts the measure of its connection.
#[cycle(measuring)]
pub(crate) fn measure_transition(
    process: &ProcessTable,
    measures: &[Measure],
    transition: &Transition,
    behind: Measure,
) -> Measure
    ensures { (k e : ℕ) → IsBehind k e behind → IsMeasured (process_of process.now) measures.now (text_of transition.now) k e result }
{
    let mut total = measure_end(process, measures, transition.end, behind);
    let mut left = transition.statements.len();
    while left > 0 {
        left -= 1;
        total = measure_statement(process, measures, &transition.statements[left], total);
    }
    total
}

/// The measure of a statement and of the rest that follows it.
#[cycle(measuring)]
fn measure_statement(
    process: &ProcessTable,
    measures: &[Measure],
    statement: &Statement,
    rest: Measure,
) -> Measure
    ensures { (t : Text) (k e : ℕ) → IsMeasured (process_of process.now) measures.now t k e rest
        → IsMeasured (process_of process.now) measures.now (statement_of statement.now t) k e result }
{
    match statement {
        Statement::Act(action) => measure_action(process, measures, action, rest),
        Statement::Decide(decision) => measure_decision(process, measures, decision, rest),
    }
}

/// The measure of a DECISION and of the rest, which follows the jump of each body that goes on.
#[cycle(measuring)]
fn measure_decision(
    process: &ProcessTable,
    measures: &[Measure],
    decision: &Decision,
    rest: Measure,
) -> Measure
    ensures { (t : Text) (k e : ℕ) → IsMeasured (process_of process.now) measures.now t k e rest
        → IsMeasured (process_of process.now) measures.now (decision_of decision.now t) k e result }
{
    let truth = is_truth(process, &decision.question);
    let behind = Measure {
        budget: rest.budget.saturating_add(1),
        depth: 0,
        effects: rest.effects,
        size: 0,
        goes_on: true,
    };
    let answers = measure_answers(process, measures, truth, decision, behind);
    let question = counts::cost(&decision.question).saturating_add(one_if(truth));
    Measure {
        budget: question.saturating_add(answers.budget),
        depth: counts::depth(&decision.question).max(answers.depth.max(rest.depth)),
        effects: answers.effects,
        size: question
            .saturating_add(answers.size)
            .saturating_add(rest.size),
        goes_on: both(answers.goes_on, rest.goes_on),
    }
}

/// The measure of the answers to a Boolean or an Integer question.
#[cycle(measuring)]
fn measure_answers(
    process: &ProcessTable,
    measures: &[Measure],
    truth: bool,
    decision: &Decision,
    behind: Measure,
) -> Measure
    ensures { (k e : ℕ) → IsBehind (1 + k) e behind → AreMeasured (process_of process.now) measures.now truth (choice_of decision.now) k e result }
{
    let mut total = match &decision.otherwise {
        None => NOTHING,
        Some(body) => measure_else(process, measures, truth, body, behind),
    };
    let mut left = decision.answers.len();
    while left > 0 {
        left -= 1;
        total = measure_answer(
            process,
            measures,
            truth,
            &decision.answers[left],
            behind,
            total,
        );
    }
    total
}

/// The measure of the body of ELSE. An Integer question is dropped before it.
#[cycle(measuring)]
fn measure_else(
    process: &ProcessTable,
    measures: &[Measure],
    truth: bool,
    body: &Transition,
    behind: Measure,
) -> Measure
    ensures { (k e : ℕ) → IsBehind (1 + k) e behind → AreMeasured (process_of process.now) measures.now truth (otherwise (text_of body.now)) k e result }
{
    let drop = one_if(!truth);
    let inside = measure_transition(process, measures, body, behind);
    Measure {
        budget: inside.budget.saturating_add(drop),
        depth: inside.depth,
        effects: inside.effects,
        size: inside
            .size
            .saturating_add(jump_size(inside.goes_on))
            .saturating_add(drop),
        goes_on: inside.goes_on,
    }
}

/// The measure of an answer and of the answers that follow it.
#[cycle(measuring)]
fn measure_answer(
    process: &ProcessTable,
    measures: &[Measure],
    truth: bool,
    answer: &Answer,
    behind: Measure,
    others: Measure,
) -> Measure
    ensures { (c : Choice) (k e : ℕ) → IsBehind (1 + k) e behind → AreMeasured (process_of process.now) measures.now truth c k e others
        → AreMeasured (process_of process.now) measures.now truth (answer_of answer.now c) k e result }
{
    let inside = measure_transition(process, measures, &answer.body, behind);
    let size = inside.size.saturating_add(jump_size(inside.goes_on));
    let tests = answer_tests(truth, &answer.ranges);
    Measure {
        budget: answer_budget(truth, &answer.ranges, inside.budget, others.budget),
        depth: inside.depth.max(others.depth),
        effects: inside.effects.max(others.effects),
        size: size.saturating_add(tests).saturating_add(others.size),
        goes_on: one_of(inside.goes_on, others.goes_on),
    }
}

/// Returns how many instructions a transition has without those of its connections, up to 4,294,967,295.
pub fn code_size(process: &ProcessTable, transition: &Transition) -> u32
    ensures { result ≡ capped (size (variables_of (process_of process.now)) (text_of transition.now)) }
{
    measure_transition(process, &[], transition, NOTHING).size
}

/// The measures of the connections of a process, which are measured in this order.
fn measure_process(
    alloc: Global,
    process: &ProcessTable,
    order: &[usize],
) -> Result<Vec<Measure>, AllocError>
    requires { IsOrder (process_of process.now) order.now }
    ensures { IfOk result (λ measures. AreMeasures (process_of process.now) measures.items) }
{
    let connections = &process.process().connections;
    let mut measures = vec![in alloc; NOTHING; connections.len()]?;
    for number in order {
        let transition = &connections[*number].transition;
        measures[*number] = measure_transition(process, &measures, transition, NOTHING);
    }
    Ok(measures)
}

/// Returns the measures of the connections of each process, measured in these orders. Fails only if memory runs out.
pub fn measure_all(
    alloc: Global,
    block: &BlockTable,
    orders: &[Vec<usize>],
) -> Result<Vec<Vec<Measure>>, AllocError>
    requires { AreOrders (processes_of (block_of block.now)) orders.now }
    ensures { IfOk result (λ rows. AllMeasures (processes_of (block_of block.now)) rows.items) }
{
    let mut rows = Vec::new(alloc);
    for (place, process) in block.tables().iter().enumerate() {
        rows.push(measure_process(alloc, process, &orders[place])?)?;
    }
    Ok(rows)
}
