//! The connections whose code follows the text of a piece, and their places.
ghost use Rattle.std.specs.Prelude.{◌≡◌, ◌+◌, ◌≤◌, ◌<◌, ◌++◌, ℕ, [], fold, length, replicate, All, IsSome, OnOk, IfOk};
ghost use Rattle.std.specs.List.{list_any, sum_by};
ghost use Rattle.sdl_ast.specs.Views.{text_of, end_text, statement_of, choice_of, else_choice, process_of};
ghost use Rattle.sdl_measures.specs.Counting.{measure_at};
ghost use Rattle.sdl_measures.specs.Measures.{AreMeasures};
ghost use Rattle.sdl_emit.specs.Trimmed.{AreTrimmed};
ghost use Rattle.sdl_emit.specs.Bodies.{IsBody};
ghost use Rattle.sdl_emit.specs.Scopes.{scope_in, places_by};
ghost use Rattle.sdl_emit.specs.Placing.{decision_joins, numbers_of, HaveNumbers, AreMarked};
ghost use Rattle.sdl_meaning.specs.Named.{NamedText, NamedConnections};
ghost use Rattle.sdl_meaning.specs.Outcomes.{Scope, connector_at};
ghost use Rattle.sdl_meaning.specs.Code.{number_or_zero, code_joins, else_joins, answers_joins, add_number, joined, text_at, size_at, place_in, ArePlaced};
ghost use Rattle.plain_laws.specs.Limits.{MOST_INSTRUCTIONS};

use crate::bodies::Body;
use crate::marks::add_once;
use crate::names::Names;
use sdl_ast::{Decision, End, Join, Statement, Transition};
use sdl_measures::Measure;
use std::alloc::{AllocError, Global};

/// Adds the JOIN that ends a text, if one does.
fn collect_end(found: &mut Vec<Join>, end: Option<End>) -> Result<(), AllocError>
    ensures { OnOk result ((c : Scope) → found.new.items ≡ found.old.items ++ code_joins c (end_text end)) }
{
    match end {
        None => Ok(()),
        Some(End::NextState(_)) => Ok(()),
        Some(End::Stop(_)) => Ok(()),
        Some(End::Join(join)) => Ok(found.push(join)?),
    }
}

/// Adds the JOINs of the bodies of the answers of a DECISION.
#[cycle(placing)]
fn collect_answers(
    found: &mut Vec<Join>,
    names: &Names,
    decision: &Decision,
) -> Result<(), AllocError>
    ensures { OnOk result (found.new.items ≡ found.old.items ++ answers_joins (scope_in names.now) (choice_of decision.now)) }
{
    for answer in &decision.answers {
        collect_joins(found, names, &answer.body)?;
    }
    Ok(())
}

/// Adds the JOINs of the body of ELSE, if there is one.
#[cycle(placing)]
fn collect_else(
    found: &mut Vec<Join>,
    names: &Names,
    otherwise: &Option<Transition>,
) -> Result<(), AllocError>
    ensures { OnOk result (found.new.items ≡ found.old.items ++ else_joins (scope_in names.now) (else_choice otherwise.now)) }
{
    match otherwise {
        Some(body) => collect_joins(found, names, body),
        None => Ok(()),
    }
}

/// Adds the JOINs of a DECISION. In an Integer one the bodies of the answers follow that of ELSE.
#[cycle(placing)]
fn collect_decision(
    found: &mut Vec<Join>,
    names: &Names,
    decision: &Decision,
) -> Result<(), AllocError>
    ensures { OnOk result (found.new.items ≡ found.old.items ++ decision_joins (scope_in names.now) decision.now) }
{
    if names.is_truth(&decision.question) {
        collect_answers(found, names, decision)?;
        collect_else(found, names, &decision.otherwise)
    } else {
        collect_else(found, names, &decision.otherwise)?;
        collect_answers(found, names, decision)
    }
}

/// Adds the JOINs of a statement. An action has none.
#[cycle(placing)]
fn collect_statement(
    found: &mut Vec<Join>,
    names: &Names,
    statement: &Statement,
) -> Result<(), AllocError>
    ensures { OnOk result ((rest : _) → found.new.items ++ code_joins (scope_in names.now) rest ≡ found.old.items ++ code_joins (scope_in names.now) (statement_of statement.now rest)) }
{
    match statement {
        Statement::Act(_) => Ok(()),
        Statement::Decide(decision) => collect_decision(found, names, decision),
    }
}

/// Adds the JOINs of a text in the order of its code.
#[cycle(placing)]
fn collect_joins(
    found: &mut Vec<Join>,
    names: &Names,
    transition: &Transition,
) -> Result<(), AllocError>
    ensures { OnOk result (found.new.items ≡ found.old.items ++ code_joins (scope_in names.now) (text_of transition.now)) }
{
    for statement in &transition.statements {
        collect_statement(found, names, statement)?;
    }
    collect_end(found, transition.end)
}

/// Adds a connection, unless its mark says that it is placed already.
fn place_one(
    placed: &mut Vec<usize>,
    marks: &mut Vec<bool>,
    names: &Names,
    join: &Join,
) -> Result<(), AllocError>
    requires named { IsSome (connector_at (scope_in names.now) join.now.connector) }
    requires marks { AreMarked (scope_in names.now) placed.old.items marks.old.items }
    ensures placed { OnOk result (placed.new.items ≡ add_number placed.old.items (number_or_zero (connector_at (scope_in names.now) join.now.connector))) }
    ensures marks { OnOk result (AreMarked (scope_in names.now) placed.new.items marks.new.items) }
{
    let number = names.connector(&join.connector);
    add_once(placed, marks, number)
}

/// Adds the connections to which these JOINs lead, in their order, each unless it is placed already.
fn place_each(
    placed: &mut Vec<usize>,
    marks: &mut Vec<bool>,
    names: &Names,
    joins: &[Join],
) -> Result<(), AllocError>
    requires named { HaveNumbers (scope_in names.now) joins.now }
    requires marks { AreMarked (scope_in names.now) placed.old.items marks.old.items }
    ensures placed { OnOk result (placed.new.items ≡ fold add_number placed.old.items (numbers_of (scope_in names.now) joins.now)) }
    ensures marks { OnOk result (AreMarked (scope_in names.now) placed.new.items marks.new.items) }
{
    for join in joins {
        place_one(placed, marks, names, join)?;
    }
    Ok(())
}

/// Adds the connections that a text joins. `found` keeps its memory from one text to the next.
fn place_joined(
    found: &mut Vec<Join>,
    placed: &mut Vec<usize>,
    marks: &mut Vec<bool>,
    names: &Names,
    transition: &Transition,
) -> Result<(), AllocError>
    requires text { NamedText (scope_in names.now) (text_of transition.now) }
    requires marks { AreMarked (scope_in names.now) placed.old.items marks.old.items }
    ensures placed { OnOk result (placed.new.items ≡ fold add_number placed.old.items (joined (scope_in names.now) (text_of transition.now))) }
    ensures marks { OnOk result (AreMarked (scope_in names.now) placed.new.items marks.new.items) }
{
    found.clear();
    collect_joins(found, names, transition)?;
    place_each(placed, marks, names, found)
}

/// Adds the connections that a placed one joins.
fn place_more(
    found: &mut Vec<Join>,
    placed: &mut Vec<usize>,
    marks: &mut Vec<bool>,
    names: &Names,
    copies: &[Transition],
    number: usize,
) -> Result<(), AllocError>
    requires copied { AreTrimmed (process_of names.now.process.now).connections copies.now }
    requires connections { NamedConnections (scope_in names.now) }
    requires there { number < length (process_of names.now.process.now).connections }
    requires marks { AreMarked (scope_in names.now) placed.old.items marks.old.items }
    ensures placed { OnOk result (placed.new.items ≡ fold add_number placed.old.items (joined (scope_in names.now) (text_at (scope_in names.now) number))) }
    ensures marks { OnOk result (AreMarked (scope_in names.now) placed.new.items marks.new.items) }
{
    let copy = &copies[number];
    place_joined(found, placed, marks, names, copy)
}

/// Marks for all connections, of which none is placed yet.
fn no_marks(alloc: Global, names: &Names) -> Result<Vec<bool>, AllocError>
    ensures { IfOk result (λ marks. AreMarked (scope_in names.now) [] marks.items) }
{
    let count = names.process.process().connections.len();
    let marks = vec![in alloc; false; count]?;
    Ok(marks)
}

/// The numbers of the connections that a text or one of these connections joins, in the order in which the code first
/// joins them. `copies` has the copy of each connection. Fails only if memory runs out.
pub fn place_connections(
    alloc: Global,
    names: &Names,
    copies: &[Transition],
    body: &Body,
) -> Result<Vec<usize>, AllocError>
    requires body { IsBody body.now }
    requires text { NamedText (scope_in names.now) (text_of body.now.whole.now) }
    requires copied { AreTrimmed (process_of names.now.process.now).connections copies.now }
    requires connections { NamedConnections (scope_in names.now) }
    ensures { IfOk result (λ ns. ArePlaced (scope_in names.now) (text_of body.now.whole.now) ns.items) }
{
    let mut found = Vec::new(alloc);
    let mut placed = Vec::new(alloc);
    let mut marks = no_marks(alloc, names)?;
    place_joined(&mut found, &mut placed, &mut marks, names, body.copy)?;
    let mut next = 0;
    while next < placed.len() {
        let number = placed[next];
        place_more(&mut found, &mut placed, &mut marks, names, copies, number)?;
        next += 1;
    }
    Ok(placed)
}

/// How many instructions the text of the connection with this number has; 0 if it has no measure.
fn measured_size(measures: &[Measure], number: usize) -> u32
    ensures { result ≡ (measure_at measures.now number).size }
{
    match measures.get(number) {
        Some(measure) => measure.size,
        None => 0,
    }
}

/// How many instructions the connection with this number has, which is its measured size.
fn connection_size(names: &Names, measures: &[Measure], number: usize) -> usize
    requires measured { AreMeasures (process_of names.now.process.now) measures.now }
    requires there { number < length (process_of names.now.process.now).connections }
    requires short { size_at (scope_in names.now) number ≤ MOST_INSTRUCTIONS }
    ensures { result ≡ size_at (scope_in names.now) number }
{
    measured_size(measures, number) as usize
}

/// How many instructions these connections have together.
fn total_size(names: &Names, measures: &[Measure], placed: &[usize]) -> usize
    requires measured { AreMeasures (process_of names.now.process.now) measures.now }
    requires there { All (λ n. n < length (process_of names.now.process.now).connections) placed.now }
    requires short { sum_by (size_at (scope_in names.now)) placed.now ≤ MOST_INSTRUCTIONS }
    ensures { result ≡ sum_by (size_at (scope_in names.now)) placed.now }
{
    let mut total = 0;
    for number in placed {
        total += connection_size(names, measures, *number);
    }
    total
}

/// The places of connections that follow one another from `start` on, by number; 0 for a connection that isn't placed.
pub fn connection_places(
    alloc: Global,
    names: &Names,
    measures: &[Measure],
    start: usize,
    placed: &[usize],
) -> Result<Vec<usize>, AllocError>
    requires measured { AreMeasures (process_of names.now.process.now) measures.now }
    requires there { All (λ n. n < length (process_of names.now.process.now).connections) placed.now }
    requires short { start + sum_by (size_at (scope_in names.now)) placed.now ≤ MOST_INSTRUCTIONS }
    ensures places { IfOk result (λ ps. (n : ℕ) → places_by ps.items n ≡ place_in (scope_in names.now) start placed.now n) }
    ensures low { IfOk result (λ ps. All (λ p. p ≤ MOST_INSTRUCTIONS) ps.items) }
{
    let count = names.process.process().connections.len();
    let mut places = vec![in alloc; 0; count]?;
    let mut place = start + total_size(names, measures, placed);
    let mut left = placed.len();
    while left > 0 {
        left -= 1;
        let number = placed[left];
        place -= connection_size(names, measures, number);
        places[number] = place;
    }
    Ok(places)
}
