//! The instructions of transitions with their DECISIONs and JOINs. Targets are places in the whole piece. Those of
//! connections are known beforehand, those in a DECISION after its bodies, so each body is emitted once.
ghost use Rattle.std.specs.Prelude.{◌≡◌, ◌+◌, ◌≤◌, ◌++◌, ◌&&◌, true, false, ℕ, OnOk, IfOk, All, length, sum_by};
ghost use Rattle.sdl_ast.specs.Plain.{Text, falls};
ghost use Rattle.sdl_ast.specs.Views.{text_of, statement_of, decision_of, choice_of, process_of};
ghost use Rattle.sdl_tables.specs.Names.{variables_of};
ghost use Rattle.sdl_sound.specs.Longest.{size};
ghost use Rattle.sdl_sound.specs.Going.{goes_on, choice_goes_on};
ghost use Rattle.sdl_emit.specs.Trimmed.{AreTrimmed};
ghost use Rattle.sdl_emit.specs.Bodies.{IsBody};
ghost use Rattle.sdl_emit.specs.Scopes.{scope_in, places_by, question_in, piece_in};
ghost use Rattle.sdl_meaning.specs.Named.{NamedEnd, NamedText, NamedChoice, NamedPiece};
ghost use Rattle.sdl_meaning.specs.Code.{end_code, leave_code, body_size, else_size, answers_size, after_choice, text_code, else_code, answers_code, truth_code, integer_code, text_at, size_at, connections_place, place_in, connections_code, piece_code};
ghost use Rattle.sdl_emit.specs.Landing.{leave_place, answers_leave, else_leave, starts_from};
ghost use Rattle.plain_laws.specs.Limits.{MOST_INSTRUCTIONS, MOST_PARAMETERS};

use crate::bodies::Body;
use crate::emit::{emit_action, emit_expression, emit_places};
use crate::landing::{
    choose, fill_places, has_any, keep_places, land_jumps, leave, put, tests_length,
};
use crate::names::Names;
use crate::ranges::emit_tests;
use sdl_ast::{Decision, End, Identifier, Statement, Transition};
use sdl_sound::both;
use std::alloc::{AllocError, Global};
use turn_code::{CodePlace, Instruction};

/// A place of code, which the limit of a piece keeps within 16 bits.
fn code_place(place: usize) -> CodePlace
    requires { place ≤ MOST_INSTRUCTIONS }
    ensures { result.0 ≡ place }
{
    CodePlace(place as u16)
}

/// The place of the connection with this number; 0 if it has none.
fn place_of(places: &[usize], number: usize) -> usize
    requires { All (λ p. p ≤ MOST_INSTRUCTIONS) places.now }
    ensures place { result ≡ places_by places.now number }
    ensures low { result ≤ MOST_INSTRUCTIONS }
{
    match places.get(number) {
        Some(place) => *place,
        None => 0,
    }
}

/// Adds the end of a transition: its next state, STOP, or the jump to the connection of a JOIN.
fn emit_end(
    code: &mut Vec<Instruction>,
    names: &Names,
    places: &[usize],
    end: &End,
) -> Result<(), AllocError>
    requires named { NamedEnd (scope_in names.now) end.now }
    requires low { All (λ p. p ≤ MOST_INSTRUCTIONS) places.now }
    ensures { OnOk result (code.new.items ≡ code.old.items ++ end_code (scope_in names.now) (places_by places.now) end.now) }
{
    match end {
        End::NextState(next) => put(code, Instruction::Next(names.state(&next.state))),
        End::Stop(_) => put(code, Instruction::Stop),
        End::Join(join) => {
            let place = place_of(places, names.connector(&join.connector));
            put(code, Instruction::Jump(code_place(place)))
        }
    }
}

/// Adds a body and, if it goes on, its jump. Records the place of the jump, whose target has no place yet.
#[cycle(texts)]
fn emit_body(
    alloc: Global,
    code: &mut Vec<Instruction>,
    jumps: &mut Vec<usize>,
    names: &Names,
    places: &[usize],
    body: &Transition,
) -> Result<(), AllocError>
    requires named { NamedText (scope_in names.now) (text_of body.now) }
    requires fits { length code.now.items + body_size (scope_in names.now) (text_of body.now) ≤ MOST_INSTRUCTIONS }
    requires low { All (λ p. p ≤ MOST_INSTRUCTIONS) places.now }
    ensures code { OnOk result (code.new.items ≡ code.old.items ++ (text_code (scope_in names.now) (places_by places.now) (length code.old.items) (text_of body.now) ++ leave_code 0 (text_of body.now))) }
    ensures jumps { OnOk result (jumps.new.items ≡ jumps.old.items ++ leave_place (scope_in names.now) (places_by places.now) (length code.old.items) (text_of body.now)) }
{
    let goes = emit_text(alloc, code, names, places, body)?;
    leave(code, jumps, goes)
}

/// Adds the body of ELSE, if there is one.
#[cycle(texts)]
fn emit_else(
    alloc: Global,
    code: &mut Vec<Instruction>,
    jumps: &mut Vec<usize>,
    names: &Names,
    places: &[usize],
    decision: &Decision,
) -> Result<(), AllocError>
    requires named { NamedChoice (scope_in names.now) (question_in decision.now) (choice_of decision.now) }
    requires fits { length code.now.items + else_size (scope_in names.now) (choice_of decision.now) ≤ MOST_INSTRUCTIONS }
    requires low { All (λ p. p ≤ MOST_INSTRUCTIONS) places.now }
    ensures code { OnOk result (code.new.items ≡ code.old.items ++ else_code (scope_in names.now) (places_by places.now) (length code.old.items) 0 (choice_of decision.now)) }
    ensures jumps { OnOk result (jumps.new.items ≡ jumps.old.items ++ else_leave (scope_in names.now) (places_by places.now) (length code.old.items) (choice_of decision.now)) }
{
    match &decision.otherwise {
        Some(body) => emit_body(alloc, code, jumps, names, places, body),
        None => Ok(()),
    }
}

/// Adds the bodies of the answers, one after another, and records where they begin.
#[cycle(texts)]
fn emit_answers(
    alloc: Global,
    code: &mut Vec<Instruction>,
    jumps: &mut Vec<usize>,
    starts: &mut Vec<CodePlace>,
    names: &Names,
    places: &[usize],
    decision: &Decision,
) -> Result<(), AllocError>
    requires named { NamedChoice (scope_in names.now) (question_in decision.now) (choice_of decision.now) }
    requires fits { length code.now.items + answers_size (scope_in names.now) (choice_of decision.now) ≤ MOST_INSTRUCTIONS }
    requires low { All (λ p. p ≤ MOST_INSTRUCTIONS) places.now }
    ensures code { OnOk result (code.new.items ≡ code.old.items ++ answers_code (scope_in names.now) (places_by places.now) (length code.old.items) 0 (choice_of decision.now)) }
    ensures jumps { OnOk result (jumps.new.items ≡ jumps.old.items ++ answers_leave (scope_in names.now) (places_by places.now) (length code.old.items) (choice_of decision.now)) }
    ensures starts { OnOk result (starts.new.items ≡ starts.old.items ++ starts_from (scope_in names.now) (length code.old.items) (choice_of decision.now)) }
{
    for answer in &decision.answers {
        starts.push(code_place(code.len()))?;
        emit_body(alloc, code, jumps, names, places, &answer.body)?;
    }
    Ok(())
}

/// Adds a Boolean DECISION after its question: the choice, and the bodies in the order of the text.
#[cycle(texts)]
fn emit_truth(
    alloc: Global,
    code: &mut Vec<Instruction>,
    names: &Names,
    places: &[usize],
    decision: &Decision,
) -> Result<bool, AllocError>
    requires named { NamedChoice (scope_in names.now) (question_in decision.now) (choice_of decision.now) }
    requires fits { after_choice (scope_in names.now) true (length code.now.items) (choice_of decision.now) ≤ MOST_INSTRUCTIONS }
    requires low { All (λ p. p ≤ MOST_INSTRUCTIONS) places.now }
    ensures code { OnOk result (code.new.items ≡ code.old.items ++ truth_code (scope_in names.now) (places_by places.now) (length code.old.items) (choice_of decision.now)) }
    ensures goes { IfOk result (λ b. b ≡ choice_goes_on (choice_of decision.now)) }
{
    let mut jumps = Vec::new(alloc);
    let mut starts = Vec::new(alloc);
    let choice = code.len();
    put(code, Instruction::Drop)?;
    emit_answers(
        alloc,
        code,
        &mut jumps,
        &mut starts,
        names,
        places,
        decision,
    )?;
    let otherwise = code_place(code.len());
    emit_else(alloc, code, &mut jumps, names, places, decision)?;
    land_jumps(code, &jumps, code_place(code.len()));
    choose(code, choice, decision, &starts, otherwise);
    Ok(has_any(&jumps))
}

/// Adds an Integer DECISION after its question: the tests, the drop, the body of ELSE, and the bodies of the answers.
#[cycle(texts)]
fn emit_integer(
    alloc: Global,
    code: &mut Vec<Instruction>,
    names: &Names,
    places: &[usize],
    decision: &Decision,
) -> Result<bool, AllocError>
    requires named { NamedChoice (scope_in names.now) (question_in decision.now) (choice_of decision.now) }
    requires fits { after_choice (scope_in names.now) false (length code.now.items) (choice_of decision.now) ≤ MOST_INSTRUCTIONS }
    requires low { All (λ p. p ≤ MOST_INSTRUCTIONS) places.now }
    ensures code { OnOk result (code.new.items ≡ code.old.items ++ integer_code (scope_in names.now) (places_by places.now) (length code.old.items) (choice_of decision.now)) }
    ensures goes { IfOk result (λ b. b ≡ choice_goes_on (choice_of decision.now)) }
{
    let mut jumps = Vec::new(alloc);
    let mut starts = Vec::new(alloc);
    let mut tests = Vec::new(alloc);
    let first = code.len();
    keep_places(code, tests_length(decision))?;
    emit_else(alloc, code, &mut jumps, names, places, decision)?;
    emit_answers(
        alloc,
        code,
        &mut jumps,
        &mut starts,
        names,
        places,
        decision,
    )?;
    land_jumps(code, &jumps, code_place(code.len()));
    emit_tests(&mut tests, decision, &starts)?;
    fill_places(code, first, &tests);
    Ok(has_any(&jumps))
}

/// Adds a DECISION: its question, and the code after that. Returns whether one of the bodies goes on.
#[cycle(texts)]
fn emit_decision(
    alloc: Global,
    code: &mut Vec<Instruction>,
    names: &Names,
    places: &[usize],
    decision: &Decision,
) -> Result<bool, AllocError>
    requires named { NamedText (scope_in names.now) (decision_of decision.now falls) }
    requires fits { length code.now.items + size (variables_of (scope_in names.now).process) (decision_of decision.now falls) ≤ MOST_INSTRUCTIONS }
    requires low { All (λ p. p ≤ MOST_INSTRUCTIONS) places.now }
    ensures code { OnOk result (code.new.items ≡ code.old.items ++ text_code (scope_in names.now) (places_by places.now) (length code.old.items) (decision_of decision.now falls)) }
    ensures goes { IfOk result (λ b. b ≡ choice_goes_on (choice_of decision.now)) }
{
    emit_expression(code, names, &decision.question)?;
    if names.is_truth(&decision.question) {
        emit_truth(alloc, code, names, places, decision)
    } else {
        emit_integer(alloc, code, names, places, decision)
    }
}

/// Adds one statement. Returns whether the statements after it may be reached.
#[cycle(texts)]
fn emit_statement(
    alloc: Global,
    code: &mut Vec<Instruction>,
    names: &Names,
    places: &[usize],
    statement: &Statement,
) -> Result<bool, AllocError>
    requires named { NamedText (scope_in names.now) (statement_of statement.now falls) }
    requires fits { length code.now.items + size (variables_of (scope_in names.now).process) (statement_of statement.now falls) ≤ MOST_INSTRUCTIONS }
    requires low { All (λ p. p ≤ MOST_INSTRUCTIONS) places.now }
    ensures code { OnOk result (code.new.items ≡ code.old.items ++ text_code (scope_in names.now) (places_by places.now) (length code.old.items) (statement_of statement.now falls)) }
    ensures goes { IfOk result (λ b. (rest : Text) → goes_on (statement_of statement.now rest) ≡ (b && goes_on rest)) }
{
    match statement {
        Statement::Act(action) => {
            emit_action(code, names, action)?;
            Ok(true)
        }
        Statement::Decide(decision) => emit_decision(alloc, code, names, places, decision),
    }
}

/// Adds the instructions of a transition. Returns whether it may run off its end.
#[cycle(texts)]
pub(crate) fn emit_text(
    alloc: Global,
    code: &mut Vec<Instruction>,
    names: &Names,
    places: &[usize],
    transition: &Transition,
) -> Result<bool, AllocError>
    requires named { NamedText (scope_in names.now) (text_of transition.now) }
    requires fits { length code.now.items + size (variables_of (scope_in names.now).process) (text_of transition.now) ≤ MOST_INSTRUCTIONS }
    requires low { All (λ p. p ≤ MOST_INSTRUCTIONS) places.now }
    ensures code { OnOk result (code.new.items ≡ code.old.items ++ text_code (scope_in names.now) (places_by places.now) (length code.old.items) (text_of transition.now)) }
    ensures goes { IfOk result (λ b. b ≡ goes_on (text_of transition.now)) }
{
    let mut goes = true;
    for statement in &transition.statements {
        let passes = emit_statement(alloc, code, names, places, statement)?;
        goes = both(goes, passes);
    }
    match &transition.end {
        Some(end) => {
            emit_end(code, names, places, end)?;
            Ok(false)
        }
        None => Ok(goes),
    }
}

/// Adds the text of the connection with this number.
fn emit_connection(
    alloc: Global,
    code: &mut Vec<Instruction>,
    names: &Names,
    copies: &[Transition],
    places: &[usize],
    number: usize,
) -> Result<(), AllocError>
    requires copied { AreTrimmed (process_of names.now.process.now).connections copies.now }
    requires named { NamedText (scope_in names.now) (text_at (scope_in names.now) number) }
    requires fits { length code.now.items + size_at (scope_in names.now) number ≤ MOST_INSTRUCTIONS }
    requires low { All (λ p. p ≤ MOST_INSTRUCTIONS) places.now }
    ensures { OnOk result (code.new.items ≡ code.old.items ++ text_code (scope_in names.now) (places_by places.now) (length code.old.items) (text_at (scope_in names.now) number)) }
{
    match copies.get(number) {
        Some(copy) => {
            emit_text(alloc, code, names, places, copy)?;
            Ok(())
        }
        None => Ok(()),
    }
}

/// Adds the texts of connections by number, one after another. `copies` has the copy of each.
pub(crate) fn emit_connections(
    alloc: Global,
    code: &mut Vec<Instruction>,
    names: &Names,
    copies: &[Transition],
    places: &[usize],
    numbers: &[usize],
) -> Result<(), AllocError>
    requires copied { AreTrimmed (process_of names.now.process.now).connections copies.now }
    requires named { (n : ℕ) → NamedText (scope_in names.now) (text_at (scope_in names.now) n) }
    requires fits { length code.now.items + sum_by (size_at (scope_in names.now)) numbers.now ≤ MOST_INSTRUCTIONS }
    requires low { All (λ p. p ≤ MOST_INSTRUCTIONS) places.now }
    ensures { OnOk result (code.new.items ≡ code.old.items ++ connections_code (scope_in names.now) (places_by places.now) (length code.old.items) numbers.now) }
{
    for number in numbers {
        emit_connection(alloc, code, names, copies, places, *number)?;
    }
    Ok(())
}

/// The instructions of a transition: the places of its INPUT, its text, and the connections with these numbers.
/// `targets` has the place of each connection by its number. Fails only if memory runs out.
pub fn emit_piece(
    alloc: Global,
    names: &Names,
    copies: &[Transition],
    places: &[Option<Identifier>],
    body: &Body,
    numbers: &[usize],
    targets: &[usize],
) -> Result<Vec<Instruction>, AllocError>
    requires body { IsBody body.now }
    requires named { NamedPiece (scope_in names.now) (piece_in places.now body.now.whole.now) }
    requires copied { AreTrimmed (process_of names.now.process.now).connections copies.now }
    requires few { length places.now ≤ MOST_PARAMETERS }
    requires fits { connections_place (scope_in names.now) (piece_in places.now body.now.whole.now) + sum_by (size_at (scope_in names.now)) numbers.now ≤ MOST_INSTRUCTIONS }
    requires low { All (λ p. p ≤ MOST_INSTRUCTIONS) targets.now }
    requires placed { (n : ℕ) → places_by targets.now n ≡ place_in (scope_in names.now) (connections_place (scope_in names.now) (piece_in places.now body.now.whole.now)) numbers.now n }
    ensures { IfOk result (λ code. code.items ≡ piece_code (scope_in names.now) (piece_in places.now body.now.whole.now) numbers.now) }
{
    let mut code = Vec::new(alloc);
    emit_places(&mut code, names, places)?;
    emit_text(alloc, &mut code, names, targets, body.copy)?;
    emit_connections(alloc, &mut code, names, copies, targets, numbers)?;
    Ok(code)
}
