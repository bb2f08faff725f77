//! Where the last transition of a control path reads a variable that nothing on the path has set (S11).
use sdl_lex::Name;
use sdl_sound::Step;
use sdl_tables::{BlockTable, InputRow, ProcessTable, earlier};
use sdl_tree::{
    Action, Assignment, Decision, End, Expression, Identifier, Sending, Statement, Transition,
};
use std::alloc::{AllocError, Global};

/// Whether two names are equal, without regard to case.
fn same(one: Name, other: Name) -> bool {
    one.folded() == other.folded()
}

/// The first place where an expression reads a variable.
fn read_in(expression: &Expression, variable: Name) -> Option<u32> {
    match expression {
        Expression::Number { .. } => None,
        Expression::Truth { .. } => None,
        Expression::Variable { name, .. } => same(name.name, variable).then_some(name.at),
        Expression::Unary { operand, .. } => read_in(operand, variable),
        Expression::Binary { left, right, .. } => {
            earlier(read_in(left, variable), read_in(right, variable))
        }
    }
}

/// The effect of an action on a variable that is unset before it.
#[derive(Clone, Copy)]
struct Doing {
    /// The first place where the action reads it, if any.
    read: Option<u32>,
    /// Whether the action sets it.
    sets: bool,
}

/// The effect of assignments, one after another, on an unset variable.
fn assignments_doing(assignments: &[Assignment], variable: Name) -> Doing {
    let mut read = None;
    for assignment in assignments {
        read = earlier(read, read_in(&assignment.value, variable));
        if same(assignment.variable.name, variable) {
            return Doing { read, sets: true };
        }
    }
    Doing { read, sets: false }
}

/// The first place where the parameters of a signal read a variable.
fn read_in_parameters(parameters: &[Expression], variable: Name) -> Option<u32> {
    let mut read = None;
    for parameter in parameters {
        read = earlier(read, read_in(parameter, variable));
    }
    read
}

/// The first place where the signals of an OUTPUT read a variable.
fn read_in_sendings(sendings: &[Sending], variable: Name) -> Option<u32> {
    let mut read = None;
    for sending in sendings {
        read = earlier(read, read_in_parameters(&sending.parameters, variable));
    }
    read
}

/// The effect of an action on an unset variable.
fn action_doing(action: &Action, variable: Name) -> Doing {
    match action {
        Action::Task(task) => assignments_doing(&task.assignments, variable),
        Action::Output(output) => Doing {
            read: read_in_sendings(&output.sendings, variable),
            sets: false,
        },
        Action::Set(set) => Doing {
            read: read_in(&set.delay, variable),
            sets: false,
        },
        Action::Reset(_) => Doing {
            read: None,
            sets: false,
        },
    }
}

/// What paths through a transition reach with the variable still unset.
#[derive(Drop)]
struct Reach {
    /// The least place where they read it.
    read: Option<u32>,
    /// For each connection by number: whether a JOIN reaches it with the variable unset.
    joined: Vec<bool>,
    /// For each state by number: whether a path enters it with the variable unset.
    entered: Vec<bool>,
}

/// `count` marks, none of them set.
fn no_marks(alloc: Global, count: usize) -> Result<Vec<bool>, AllocError> {
    let mut marks = Vec::new(alloc);
    for _ in 0..count {
        marks.push(false)?;
    }
    Ok(marks)
}

/// Sets the mark with a number, if it exists.
fn mark(marks: &mut Vec<bool>, number: Option<usize>) {
    if let Some(number) = number {
        if let Some(mark) = marks.get_mut(number) {
            *mark = true;
        }
    }
}

/// Whether the mark with a number is set.
fn is_marked(marks: &[bool], number: usize) -> bool {
    match marks.get(number) {
        Some(mark) => *mark,
        None => false,
    }
}

/// Records where the end of a transition leads.
fn reach_end(reach: &mut Reach, process: &ProcessTable, end: End) {
    match end {
        End::NextState(next) => mark(&mut reach.entered, process.states().number(next.state.name)),
        End::Join(join) => mark(
            &mut reach.joined,
            process.connectors().number(join.connector.name),
        ),
        End::Stop(_) => {}
    }
}

/// Walks a transition; returns whether a path goes on after it with the variable unset.
#[cycle(reaching)]
fn reach_transition(
    reach: &mut Reach,
    process: &ProcessTable,
    transition: &Transition,
    variable: Name,
) -> bool {
    for statement in &transition.statements {
        if !reach_statement(reach, process, statement, variable) {
            return false;
        }
    }
    match transition.end {
        None => true,
        Some(end) => {
            reach_end(reach, process, end);
            false
        }
    }
}

/// Walks a statement; returns whether a path goes on after it with the variable unset.
#[cycle(reaching)]
fn reach_statement(
    reach: &mut Reach,
    process: &ProcessTable,
    statement: &Statement,
    variable: Name,
) -> bool {
    match statement {
        Statement::Act(action) => {
            let doing = action_doing(action, variable);
            reach.read = earlier(reach.read, doing.read);
            !doing.sets
        }
        Statement::Decide(decision) => {
            reach.read = earlier(reach.read, read_in(&decision.question, variable));
            reach_bodies(reach, process, decision, variable)
        }
    }
}

/// Walks the bodies of a DECISION; returns whether a path goes on after it with the variable unset.
#[cycle(reaching)]
fn reach_bodies(
    reach: &mut Reach,
    process: &ProcessTable,
    decision: &Decision,
    variable: Name,
) -> bool {
    let mut goes_on = false;
    for answer in &decision.answers {
        goes_on |= reach_transition(reach, process, &answer.body, variable);
    }
    match &decision.otherwise {
        None => goes_on,
        Some(body) => reach_transition(reach, process, body, variable) || goes_on,
    }
}

/// Walks the connections that are joined but not yet walked; returns whether there were any.
fn reach_connections(
    reach: &mut Reach,
    walked: &mut Vec<bool>,
    process: &ProcessTable,
    variable: Name,
) -> bool {
    let mut any = false;
    for (number, connection) in process.process().connections.iter().enumerate() {
        if is_marked(&reach.joined, number) && !is_marked(walked, number) {
            mark(walked, Some(number));
            let _goes_on = reach_transition(reach, process, &connection.transition, variable);
            any = true;
        }
    }
    any
}

/// All that paths through a transition and its connections reach with the variable unset.
fn reach_of(
    alloc: Global,
    process: &ProcessTable,
    transition: &Transition,
    variable: Name,
) -> Result<Reach, AllocError> {
    let count = process.process().connections.len();
    let joined = no_marks(alloc, count)?;
    let mut walked = no_marks(alloc, count)?;
    let entered = no_marks(alloc, process.states().len())?;
    let mut reach = Reach {
        read: None,
        joined,
        entered,
    };
    let _goes_on = reach_transition(&mut reach, process, transition, variable);
    for _ in 0..count {
        if !reach_connections(&mut reach, &mut walked, process, variable) {
            return Ok(reach);
        }
    }
    Ok(reach)
}

/// Whether an INPUT stores a parameter in a variable.
fn is_given(places: &[Option<Identifier>], variable: Name) -> bool {
    for place in places {
        if let Some(id) = place {
            if same(id.name, variable) {
                return true;
            }
        }
    }
    false
}

/// Whether a variable of a process has no initial value.
fn begins_unset(process: &ProcessTable, variable: Name) -> bool {
    match process.variables().number(variable) {
        None => false,
        Some(number) => match process.rows().get(number) {
            Some(row) => row.initial.is_none(),
            None => false,
        },
    }
}

/// The transition of a step, unless the variable is set when it begins.
fn step_transition<'a>(
    process: &ProcessTable<'a>,
    inputs: &[Vec<InputRow<'a>>],
    step: &Step,
    variable: Name,
) -> Option<&'a Transition> {
    match step {
        Step::Start => begins_unset(process, variable).then_some(
            &process.process().start.transition,
        ),
        Step::Input { state, signal } => {
            let number = process.states().number(*state)?;
            let rows = inputs.get(number)?;
            input_transition(rows, *signal, variable)
        }
    }
}

/// The transition of the input that takes a signal, unless the input sets the variable.
fn input_transition<'a>(
    rows: &[InputRow<'a>],
    signal: Name,
    variable: Name,
) -> Option<&'a Transition> {
    for row in rows {
        if same(row.stimulus.name.name, signal) {
            return (!is_given(&row.stimulus.places, variable)).then_some(&row.input.transition);
        }
    }
    None
}

/// Whether a step follows from what the step before it reaches; the first step does if it is START.
fn leads_on(process: &ProcessTable, before: &Option<Reach>, step: &Step) -> bool {
    match (before, step) {
        (None, Step::Start) => true,
        (Some(reach), Step::Input { state, .. }) => match process.states().number(*state) {
            Some(number) => is_marked(&reach.entered, number),
            None => false,
        },
        _ => false,
    }
}

/// Where the last step of a control path reads a variable that nothing on it has set; none if it isn't such a path.
fn read_on(
    alloc: Global,
    process: &ProcessTable,
    path: &[Step],
    variable: Name,
) -> Result<Option<u32>, AllocError> {
    let inputs = process.inputs(alloc)?;
    let mut before = None;
    for step in path {
        if !leads_on(process, &before, step) {
            return Ok(None);
        }
        let Some(transition) = step_transition(process, &inputs, step, variable) else {
            return Ok(None);
        };
        before = Some(reach_of(alloc, process, transition, variable)?);
    }
    match before {
        None => Ok(None),
        Some(reach) => Ok(reach.read),
    }
}

/// The first process of a block that reads the variable unset on this path, and where it reads it.
pub fn unset_read(
    alloc: Global,
    block: &BlockTable<'_>,
    path: &[Step],
    variable: Name,
) -> Result<Option<(Name, u32)>, AllocError> {
    for process in block.tables() {
        if let Some(place) = read_on(alloc, process, path, variable)? {
            return Ok(Some((process.process().name.name, place)));
        }
    }
    Ok(None)
}
