//! The rule on ends (S4): finds the first place at which a list of actions runs off its end, leads to an unknown state,
//! or continues after a DECISION that no body continues past.
ghost use Rattle.std.specs.Prelude.{◌≡◌, ℕ, List, ◌∷◌, [], map, if◌then◌else◌};
ghost use Rattle.std.specs.List.{flat_map};
ghost use Rattle.sdl_ast.specs.declared.expression.Identifier as id;
ghost use Rattle.sdl_ast.specs.Plain.{Text, does, decides, Choice, Tree};
ghost use Rattle.sdl_ast.specs.Views.{action_of, end_text, text_of, statement_of, choice_of, else_choice, input_of, connection_of, process_of, block_of};
ghost use Rattle.sdl_tables.specs.Names.{is_in};
ghost use Rattle.sdl_tables.specs.Scopes.{Marks};
ghost use Rattle.sdl_sound.specs.Going.{choice_goes_on};
ghost use Rattle.sdl_sound.specs.Ends.{action_place, end_place, stray_end, strays, choice_strays, input_strays, connection_strays, process_strays, stray_ends};
ghost use Rattle.sdl_scopes.specs.Rests.{IsRest};

use crate::going::a_body_goes_on;
use sdl_ast::{Action, Connection, Decision, End, Identifier, InputPart, Statement, Transition};
use sdl_tables::{BlockTable, NameTable, ProcessTable, earlier};

/// The bad ends from some statement of a list on.
#[derive(Clone, Copy)]
pub(crate) struct Rest {
    /// The place of the first statement.
    first: Option<u32>,
    /// The first bad end, if running off the end is reported.
    named: Option<u32>,
    /// The first bad end, if running off the end is allowed.
    free: Option<u32>,
}

/// The place of an action.
fn action_place(action: &Action) -> u32
    ensures { result ≡ action_place (action_of action.now) }
{
    match action {
        Action::Task(task) => task.at,
        Action::Output(output) => output.at,
        Action::Set(set) => set.at,
        Action::Reset(reset) => reset.at,
    }
}

/// The place of an end.
fn end_place(end: &End) -> u32
    ensures { result ≡ end_place end.now }
{
    match end {
        End::NextState(next) => next.at,
        End::Stop(at) => *at,
        End::Join(join) => join.at,
    }
}

/// The place of an end that leads to an unknown state.
fn end_astray(states: &NameTable, end: &End) -> Option<u32>
    ensures { Marks result (stray_end states.now end.now) }
{
    match end {
        End::NextState(next) => missing_state(states, next.at, next.state),
        End::Stop(_) => None,
        End::Join(_) => None,
    }
}

/// The place, unless there is a state with this name.
fn missing_state(states: &NameTable, at: u32, state: Identifier) -> Option<u32>
    ensures { Marks result (if is_in states.now state.name then [] else at ∷ []) }
{
    if states.contains(state.name) {
        None
    } else {
        Some(at)
    }
}

/// The bad ends after all statements. Running off the end is reported at `at`.
fn from_end(states: &NameTable, at: u32, end: &Option<End>) -> Rest
    ensures { IsRest states.now at (end_text end.now) result }
{
    match end {
        None => Rest {
            first: None,
            named: Some(at),
            free: None,
        },
        Some(end) => {
            let astray = end_astray(states, end);
            Rest {
                first: Some(end_place(end)),
                named: astray,
                free: astray,
            }
        }
    }
}

/// Prepends an action to the rest.
fn from_action(action: &Action, rest: Rest) -> Rest
    ensures { (ids : List id.Identifier) (at : ℕ) (t : Text) → IsRest ids at t rest → IsRest ids at (does (action_of action.now) t) result }
{
    Rest {
        first: Some(action_place(action)),
        named: rest.named,
        free: rest.free,
    }
}

/// Prepends a DECISION. If a body continues past it, the rest counts unchanged; else a statement after it is a fault.
fn from_decision(place: u32, bodies: Option<u32>, passes: bool, rest: Rest) -> Rest
    ensures { (ids : List id.Identifier) (at : ℕ) (q : Tree) (c : Choice) (t : Text) → Marks bodies (choice_strays ids c) → passes ≡ choice_goes_on c → IsRest ids at t rest → IsRest ids at (decides place q c t) result }
{
    if passes {
        Rest {
            first: Some(place),
            named: earlier(bodies, rest.named),
            free: earlier(bodies, rest.free),
        }
    } else {
        let astray = earlier(bodies, earlier(rest.first, rest.free));
        Rest {
            first: Some(place),
            named: astray,
            free: astray,
        }
    }
}

/// The bad ends of a transition. Running off its end is reported at `at`.
#[cycle(strays)]
fn in_transition(states: &NameTable, at: u32, transition: &Transition) -> Rest
    ensures { IsRest states.now at (text_of transition.now) result }
{
    let mut rest = from_end(states, at, &transition.end);
    let count = transition.statements.len();
    for behind in 0..count {
        rest = from_statement(states, &transition.statements[count - 1 - behind], rest);
    }
    rest
}

/// Prepends a statement to the rest.
#[cycle(strays)]
fn from_statement(states: &NameTable, statement: &Statement, rest: Rest) -> Rest
    ensures { (at : ℕ) (t : Text) → IsRest states.now at t rest → IsRest states.now at (statement_of statement.now t) result }
{
    match statement {
        Statement::Act(action) => from_action(action, rest),
        Statement::Decide(decision) => {
            let bodies = in_bodies(states, decision);
            from_decision(decision.at, bodies, a_body_goes_on(decision), rest)
        }
    }
}

/// The first bad end in the bodies of a DECISION, each of which may run off its end.
#[cycle(strays)]
fn in_bodies(states: &NameTable, decision: &Decision) -> Option<u32>
    ensures { Marks result (choice_strays states.now (choice_of decision.now)) }
{
    let mut place = None;
    for answer in &decision.answers {
        place = earlier(place, in_transition(states, 0, &answer.body).free);
    }
    earlier(place, in_else(states, &decision.otherwise))
}

/// The first bad end in the body of ELSE, which may run off its end.
#[cycle(strays)]
fn in_else(states: &NameTable, otherwise: &Option<Transition>) -> Option<u32>
    ensures { Marks result (choice_strays states.now (else_choice otherwise.now)) }
{
    match otherwise {
        None => None,
        Some(body) => in_transition(states, 0, body).free,
    }
}

/// The first bad end of a transition. Running off its end is reported at `at`.
fn stray(states: &NameTable, at: u32, transition: &Transition) -> Option<u32>
    ensures { Marks result (strays states.now (at ∷ []) (text_of transition.now)) }
{
    in_transition(states, at, transition).named
}

/// The first bad end of these INPUTs.
fn stray_in_inputs(process: &ProcessTable, inputs: &[&InputPart]) -> Option<u32>
    ensures { Marks result (flat_map (input_strays (process_of process.now)) (map (λ i. input_of i.now) inputs.now)) }
{
    let mut place = None;
    for input in inputs {
        place = earlier(place, stray(process.states(), input.at, &input.transition));
    }
    place
}

/// The first bad end of these connections.
fn stray_in_connections(process: &ProcessTable, connections: &[Connection]) -> Option<u32>
    ensures { Marks result (flat_map (connection_strays (process_of process.now)) (map connection_of connections.now)) }
{
    let mut place = None;
    for connection in connections {
        let transition = &connection.transition;
        place = earlier(place, stray(process.states(), connection.at, transition));
    }
    place
}

/// The first bad end of a process.
fn stray_in_process(process: &ProcessTable) -> Option<u32>
    ensures { Marks result (process_strays (process_of process.now)) }
{
    let text = process.process();
    let first = stray(process.states(), text.start.at, &text.start.transition);
    let inputs = stray_in_inputs(process, process.parts());
    let beyond = earlier(inputs, stray_in_connections(process, &text.connections));
    earlier(first, beyond)
}

/// The first bad end of these processes.
fn stray_in_processes(processes: &[ProcessTable]) -> Option<u32>
    ensures { Marks result (flat_map process_strays (map process_of processes.now)) }
{
    let mut place = None;
    for process in processes {
        place = earlier(place, stray_in_process(process));
    }
    place
}

/// The place of a NEXTSTATE to a state that no STATE names, of a START, INPUT or CONNECTION whose actions run off their
/// end, or of a statement after a DECISION that no body continues past. (S4; Z.100: terminator, nextstate.)
pub fn stray_end(block: &BlockTable) -> Option<u32>
    ensures { Marks result (stray_ends (block_of block.now)) }
{
    stray_in_processes(block.tables())
}
