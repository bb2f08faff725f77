//! The variables that are set at each place of a text, and at the JOINs in it.
ghost use Rattle.std.specs.Prelude.{◌≡◌, [], ◌∷◌, ◌++◌, ◌&&◌, ◌||◌, IsSome, OnOk, IfOk};
ghost use Rattle.sdl_ast.specs.Plain.{Text, falls};
ghost use Rattle.sdl_ast.specs.Views.{text_of, statement_of, choice_of, else_choice};
ghost use Rattle.sdl_sound.specs.Going.{goes_on, choice_goes_on};
ghost use Rattle.sdl_ast.specs.declared.tree.Decision.{out-Decision};
ghost use Rattle.sdl_emit.specs.Scopes.{scope_in, question_in, NamedElse};
ghost use Rattle.sdl_meaning.specs.Act.{is_truth};
ghost use Rattle.sdl_meaning.specs.Outcomes.{connector_at};
ghost use Rattle.sdl_meaning.specs.Code.{number_or_zero};
ghost use Rattle.sdl_meaning.specs.Named.{NamedEnd, NamedText, NamedChoice};
ghost use Rattle.sdl_compile.specs.Reads.{everything, meet, left, answers_left, else_left, choice_left};
ghost use Rattle.sdl_compile.specs.Entries.{met_at, end_met, met, answers_met, else_met, choice_met};
ghost use Rattle.sdl_compile.specs.Facts.{leave_sets, text_sets, else_sets, answers_sets, decision_sets};

use crate::sets::{everything, mark, mark_action, mark_expression, mark_tests, meet};
use sdl_ast::{Decision, End, Join, Statement, Transition};
use sdl_emit::Names;
use sdl_sound::{both, one_of};
use std::alloc::AllocError;
use turn_code::VariableSet;

/// Meets one more JOIN to a connection, at which these variables are set.
fn meet_entry(entries: &mut Vec<VariableSet>, number: usize, set: VariableSet)
    ensures { entries.new.items ≡ met_at entries.old.items number set }
{
    if number < entries.len() {
        entries[number] = meet(entries[number], set);
    }
}

/// Meets one more JOIN, if there are entries for connections. Only then it looks up the connection.
#[tactic(auto, using(crate::proofs::Unchanged::none_met))]
fn meet_join(entries: &mut Vec<VariableSet>, names: &Names, join: &Join, set: VariableSet)
    requires { IsSome (connector_at (scope_in names.now) join.now.connector) }
    ensures { entries.new.items ≡ met_at entries.old.items (number_or_zero (connector_at (scope_in names.now) join.now.connector)) set }
{
    if !entries.is_empty() {
        meet_entry(entries, names.connector(&join.connector), set);
    }
}

/// Adds the set at an end. Nothing follows an end.
fn mark_end(
    sets: &mut Vec<VariableSet>,
    entries: &mut Vec<VariableSet>,
    names: &Names,
    end: &End,
    set: VariableSet,
) -> Result<VariableSet, AllocError>
    requires { NamedEnd (scope_in names.now) end.now }
    ensures sets { OnOk result (sets.new.items ≡ sets.old.items ++ set ∷ []) }
    ensures entries { OnOk result (entries.new.items ≡ end_met (scope_in names.now) set end.now entries.old.items) }
    ensures behind { IfOk result (λ m. m ≡ everything) }
{
    mark(sets, set)?;
    if let End::Join(join) = end {
        meet_join(entries, names, join, set);
    }
    Ok(everything())
}

/// The end of a text: the variables that are set there, and whether the text may run off its end.
#[derive(Clone, Copy)]
pub(crate) struct Behind {
    set: VariableSet,
    goes_on: bool,
}

/// Adds the sets of a body and, if it goes on, of its jump.
#[cycle(marks)]
fn mark_body(
    sets: &mut Vec<VariableSet>,
    entries: &mut Vec<VariableSet>,
    names: &Names,
    body: &Transition,
    set: VariableSet,
) -> Result<Behind, AllocError>
    requires { NamedText (scope_in names.now) (text_of body.now) }
    ensures sets { OnOk result (sets.new.items ≡ sets.old.items ++ (text_sets (scope_in names.now) set (text_of body.now) ++ leave_sets (left (scope_in names.now) set (text_of body.now)) (text_of body.now))) }
    ensures entries { OnOk result (entries.new.items ≡ met (scope_in names.now) set (text_of body.now) entries.old.items) }
    ensures behind { IfOk result (λ m. m.set ≡ left (scope_in names.now) set (text_of body.now)) }
    ensures goes { IfOk result (λ m. m.goes_on ≡ goes_on (text_of body.now)) }
{
    let behind = mark_text(sets, entries, names, body, set)?;
    if behind.goes_on {
        mark(sets, behind.set)?;
    }
    Ok(behind)
}

/// Adds the sets of the body of ELSE, if there is one. Returns what is set after it.
#[cycle(marks)]
fn mark_else(
    sets: &mut Vec<VariableSet>,
    entries: &mut Vec<VariableSet>,
    names: &Names,
    otherwise: &Option<Transition>,
    set: VariableSet,
) -> Result<Behind, AllocError>
    requires { NamedElse (scope_in names.now) otherwise.now }
    ensures sets { OnOk result (sets.new.items ≡ sets.old.items ++ else_sets (scope_in names.now) set (else_choice otherwise.now)) }
    ensures entries { OnOk result (entries.new.items ≡ else_met (scope_in names.now) set (else_choice otherwise.now) entries.old.items) }
    ensures behind { IfOk result (λ m. m.set ≡ else_left (scope_in names.now) set (else_choice otherwise.now)) }
    ensures goes { IfOk result (λ m. m.goes_on ≡ choice_goes_on (else_choice otherwise.now)) }
{
    match otherwise {
        Some(body) => mark_body(sets, entries, names, body, set),
        None => Ok(Behind {
            set: everything(),
            goes_on: false,
        }),
    }
}

/// Adds the sets of the bodies of the answers. Returns what is set after all of them.
#[cycle(marks)]
fn mark_answers(
    sets: &mut Vec<VariableSet>,
    entries: &mut Vec<VariableSet>,
    names: &Names,
    decision: &Decision,
    set: VariableSet,
) -> Result<Behind, AllocError>
    requires { NamedChoice (scope_in names.now) (question_in decision.now) (choice_of decision.now) }
    ensures sets { OnOk result (sets.new.items ≡ sets.old.items ++ answers_sets (scope_in names.now) set (choice_of decision.now)) }
    ensures entries { OnOk result (entries.new.items ≡ answers_met (scope_in names.now) set (choice_of decision.now) entries.old.items) }
    ensures behind { IfOk result (λ m. m.set ≡ answers_left (scope_in names.now) set everything (choice_of decision.now)) }
    ensures goes { IfOk result (λ m. (m.goes_on || choice_goes_on (else_choice (out-Decision decision.now).otherwise)) ≡ choice_goes_on (choice_of decision.now)) }
{
    let mut all = everything();
    let mut goes = false;
    for answer in &decision.answers {
        let behind = mark_body(sets, entries, names, &answer.body, set)?;
        all = meet(all, behind.set);
        goes = one_of(goes, behind.goes_on);
    }
    Ok(Behind {
        set: all,
        goes_on: goes,
    })
}

/// What is set after a DECISION, from what is set after its answers and after ELSE.
fn behind_all(answered: Behind, otherwise: Behind) -> Behind
    ensures set { result.set ≡ meet answered.set otherwise.set }
    ensures goes { result.goes_on ≡ (answered.goes_on || otherwise.goes_on) }
{
    Behind {
        set: meet(answered.set, otherwise.set),
        goes_on: one_of(answered.goes_on, otherwise.goes_on),
    }
}

/// Adds the sets of a DECISION. Returns what is set after it.
#[cycle(marks)]
fn mark_decision(
    sets: &mut Vec<VariableSet>,
    entries: &mut Vec<VariableSet>,
    names: &Names,
    decision: &Decision,
    set: VariableSet,
) -> Result<Behind, AllocError>
    requires { NamedChoice (scope_in names.now) (question_in decision.now) (choice_of decision.now) }
    ensures sets { OnOk result (sets.new.items ≡ sets.old.items ++ decision_sets (scope_in names.now) set (question_in decision.now) (choice_of decision.now)) }
    ensures entries { OnOk result (entries.new.items ≡ choice_met (scope_in names.now) (is_truth (scope_in names.now) (question_in decision.now)) set (choice_of decision.now) entries.old.items) }
    ensures behind { IfOk result (λ m. m.set ≡ choice_left (scope_in names.now) set (choice_of decision.now)) }
    ensures goes { IfOk result (λ m. m.goes_on ≡ choice_goes_on (choice_of decision.now)) }
{
    mark_expression(sets, &decision.question, set)?;
    if names.is_truth(&decision.question) {
        mark(sets, set)?;
        let answered = mark_answers(sets, entries, names, decision, set)?;
        let otherwise = mark_else(sets, entries, names, &decision.otherwise, set)?;
        Ok(behind_all(answered, otherwise))
    } else {
        mark_tests(sets, decision, set)?;
        let otherwise = mark_else(sets, entries, names, &decision.otherwise, set)?;
        let answered = mark_answers(sets, entries, names, decision, set)?;
        Ok(behind_all(answered, otherwise))
    }
}

/// Adds the sets of one statement. Returns what is set after it.
#[cycle(marks)]
fn mark_statement(
    sets: &mut Vec<VariableSet>,
    entries: &mut Vec<VariableSet>,
    names: &Names,
    statement: &Statement,
    set: VariableSet,
) -> Result<Behind, AllocError>
    requires { NamedText (scope_in names.now) (statement_of statement.now falls) }
    ensures sets { OnOk result (sets.new.items ≡ sets.old.items ++ text_sets (scope_in names.now) set (statement_of statement.now falls)) }
    ensures entries { OnOk result (entries.new.items ≡ met (scope_in names.now) set (statement_of statement.now falls) entries.old.items) }
    ensures behind { IfOk result (λ m. m.set ≡ left (scope_in names.now) set (statement_of statement.now falls)) }
    ensures goes { IfOk result (λ m. (rest : Text) → goes_on (statement_of statement.now rest) ≡ (m.goes_on && goes_on rest)) }
{
    match statement {
        Statement::Act(action) => {
            let set = mark_action(sets, names, action, set)?;
            Ok(Behind { set, goes_on: true })
        }
        Statement::Decide(decision) => mark_decision(sets, entries, names, decision, set),
    }
}

/// Adds the sets at each place of a transition that begins with `set`. Returns what is set after it. Cuts the set of
/// each connection that it joins down to what is set there.
#[cycle(marks)]
pub(crate) fn mark_text(
    sets: &mut Vec<VariableSet>,
    entries: &mut Vec<VariableSet>,
    names: &Names,
    transition: &Transition,
    set: VariableSet,
) -> Result<Behind, AllocError>
    requires { NamedText (scope_in names.now) (text_of transition.now) }
    ensures sets { OnOk result (sets.new.items ≡ sets.old.items ++ text_sets (scope_in names.now) set (text_of transition.now)) }
    ensures entries { OnOk result (entries.new.items ≡ met (scope_in names.now) set (text_of transition.now) entries.old.items) }
    ensures behind { IfOk result (λ m. m.set ≡ left (scope_in names.now) set (text_of transition.now)) }
    ensures goes { IfOk result (λ m. m.goes_on ≡ goes_on (text_of transition.now)) }
{
    let mut set = set;
    let mut goes = true;
    for statement in &transition.statements {
        let behind = mark_statement(sets, entries, names, statement, set)?;
        set = behind.set;
        goes = both(goes, behind.goes_on);
    }
    match &transition.end {
        Some(end) => {
            let set = mark_end(sets, entries, names, end, set)?;
            Ok(Behind {
                set,
                goes_on: false,
            })
        }
        None => Ok(Behind { set, goes_on: goes }),
    }
}
