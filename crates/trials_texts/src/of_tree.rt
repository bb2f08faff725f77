//! The trees of texts, as `Debug` shows them with all places, worked out by hand; how operators bind, and how deeply
//! decisions may be nested.
use crate::texts::{COUNTER, read};
use sdl_ast::{Action, Block, Entity, Expression, Statement};
use sdl_lex::{Token, tokens};
use sdl_tree::{ParseFault, parse};
use std::alloc::{AllocError, Global};

/// The text before a part, and the text after it.
type Around = (&'static str, &'static str);

/// A part of a text, and what `Debug` shows of it.
type Row = (&'static str, &'static str);

const NOTHING: Around = ("", "");

/// A text with one TASK that assigns a value, at byte 37.
const TASK: Around = (
    "BLOCK B; PROCESS P; START; TASK x := ",
    "; ENDPROCESS; ENDBLOCK;",
);

const TASK_SHOWN: Around = (
    "Block { name: Identifier { name: \"B\", at: 6 }, entities: [Process(Process { name: Identifier { name: \"P\", at: 17 }, instances: 1, \
declarations: [], start: Start { at: 20, transition: Transition { statements: [Act(Task(Task { at: 27, assignments: [Assignment \
{ variable: Identifier { name: \"x\", at: 32 }, value: ",
    " }] }))], end: None } }, states: [], connections: [] })] }",
);

/// A text with one DECISION, which has one answer with one range, at byte 40.
const ANSWER: Around = (
    "BLOCK B; PROCESS P; START; DECISION 1; (",
    "): ENDDECISION; ENDPROCESS; ENDBLOCK;",
);

const ANSWER_SHOWN: Around = (
    "Block { name: Identifier { name: \"B\", at: 6 }, entities: [Process(Process { name: Identifier { name: \"P\", at: 17 }, instances: 1, \
declarations: [], start: Start { at: 20, transition: Transition { statements: [Decide(Decision { at: 27, question: Number { at: \
36, value: 1 }, answers: [Answer { at: 39, ranges: [",
    "], body: Transition { statements: [], end: None } }], otherwise: None })], end: None } }, states: [], connections: [] })] }",
);

/// The counter; alternating states and connections; answers in order, and ELSE.
const WHOLE: [Row; 3] = [
    (
        COUNTER,
        "Block { name: Identifier { name: \"B\", at: 6 }, entities: [Signals([SignalDeclaration { name: Identifier { name: \"Up\", at: \
16 }, parameters: [Integer] }]), Route(Route { name: Identifier { name: \"r\", at: 41 }, paths: [Path { from: Environment, to: \
Process(Identifier { name: \"P\", at: 55 }), signals: [Identifier { name: \"Up\", at: 62 }] }] }), Process(Process { name: \
Identifier { name: \"P\", at: 74 }, instances: 1, declarations: [Variables([Group { names: [Identifier { name: \"n\", at: 87 }, Identifier { \
name: \"total\", at: 90 }], sort: Integer, initial: None }])], start: Start { at: 105, transition: Transition { statements: \
[Act(Task(Task { at: 112, assignments: [Assignment { variable: Identifier { name: \"total\", at: 117 }, value: Number { at: \
126, value: 0 } }] }))], end: Some(NextState(NextState { at: 129, state: Identifier { name: \"Run\", at: 139 } })) } }, states: \
[StatePart { names: [Identifier { name: \"Run\", at: 150 }], clauses: [Input(InputPart { at: 155, stimuli: [Stimulus { name: \
Identifier { name: \"Up\", at: 161 }, places: [Some(Identifier { name: \"n\", at: 164 })] }], transition: Transition { \
statements: [Act(Task(Task { at: 168, assignments: [Assignment { variable: Identifier { name: \"total\", at: 173 }, value: \
Binary { at: 182, operator: Add, left: Variable { at: 182, name: Identifier { name: \"total\", at: 182 } }, right: Variable { \
at: 190, name: Identifier { name: \"n\", at: 190 } } } }] }))], end: Some(NextState(NextState { at: 193, state: Identifier { \
name: \"Run\", at: 203 } })) } })] }], connections: [] })] }",
    ),
    (
        "BLOCK b; PROCESS p; START; STATE s; CONNECTION c: STOP; STATE t, u; CONNECTION d: JOIN c; ENDPROCESS; ENDBLOCK;",
        "Block { name: Identifier { name: \"b\", at: 6 }, entities: [Process(Process { name: Identifier { name: \"p\", at: 17 }, instances: 1, \
declarations: [], start: Start { at: 20, transition: Transition { statements: [], end: None } }, states: [StatePart { names: \
[Identifier { name: \"s\", at: 33 }], clauses: [] }, StatePart { names: [Identifier { name: \"t\", at: 62 }, Identifier { name: \
\"u\", at: 65 }], clauses: [] }], connections: [Connection { at: 36, name: Identifier { name: \"c\", at: 47 }, transition: \
Transition { statements: [], end: Some(Stop(50)) } }, Connection { at: 68, name: Identifier { name: \"d\", at: 79 }, \
transition: Transition { statements: [], end: Some(Join(Join { at: 82, connector: Identifier { name: \"c\", at: 87 } })) } }] \
})] }",
    ),
    (
        "BLOCK B; PROCESS P; START; DECISION x; (1): STOP; (2, 3): JOIN c; ELSE: TASK y := 1; ENDDECISION; STOP; ENDPROCESS; ENDBLOCK;",
        "Block { name: Identifier { name: \"B\", at: 6 }, entities: [Process(Process { name: Identifier { name: \"P\", at: 17 }, instances: 1, \
declarations: [], start: Start { at: 20, transition: Transition { statements: [Decide(Decision { at: 27, question: Variable { \
at: 36, name: Identifier { name: \"x\", at: 36 } }, answers: [Answer { at: 39, ranges: [Value(Constant { at: 40, value: \
Integer(1), is_negated: false, synonym: None })], body: Transition { statements: [], end: Some(Stop(44)) } }, Answer { at: 50, ranges: [Value(Constant { at: 51, \
value: Integer(2), is_negated: false, synonym: None }), Value(Constant { at: 54, value: Integer(3), is_negated: false, synonym: None })], body: Transition { statements: [], end: Some(Join(Join { \
at: 58, connector: Identifier { name: \"c\", at: 63 } })) } }], otherwise: Some(Transition { statements: [Act(Task(Task { at: \
72, assignments: [Assignment { variable: Identifier { name: \"y\", at: 77 }, value: Number { at: 82, value: 1 } }] }))], end: \
None }) })], end: Some(Stop(98)) } }, states: [], connections: [] })] }",
    ),
];

/// A tree in parentheses has the place of the parenthesis.
const VALUES: [Row; 2] = [
    (
        "-((1) + 2)",
        "Unary { at: 37, operator: Negate, \
operand: Binary { at: 38, operator: Add, left: Number { at: 39, value: 1 }, right: Number { at: 45, value: 2 } } }",
    ),
    (
        "NOT (TRUE)",
        "Unary { at: 37, operator: Not, operand: Truth { at: 41, value: true } }",
    ),
];

const RANGES: [Row; 10] = [
    (
        "7",
        "Value(Constant { at: 40, value: Integer(7), is_negated: false, synonym: None })",
    ),
    (
        "-7",
        "Value(Constant { at: 40, value: Integer(-7), is_negated: false, synonym: None })",
    ),
    (
        "TRUE",
        "Value(Constant { at: 40, value: Boolean(true), is_negated: false, synonym: None })",
    ),
    (
        "1:-2",
        "Between(Constant { at: 40, value: Integer(1), is_negated: false, synonym: None }, Constant { at: 42, value: Integer(-2), is_negated: false, synonym: None })",
    ),
    (
        "=1",
        "Compared { at: 40, relation: Equal, constant: Constant { at: 41, value: Integer(1), is_negated: false, synonym: None } }",
    ),
    (
        "/=1",
        "Compared { at: 40, relation: NotEqual, constant: Constant { at: 42, value: Integer(1), is_negated: false, synonym: None } }",
    ),
    (
        "<1",
        "Compared { at: 40, relation: Less, constant: Constant { at: 41, value: Integer(1), is_negated: false, synonym: None } }",
    ),
    (
        "<=1",
        "Compared { at: 40, relation: LessEqual, constant: Constant { at: 42, value: Integer(1), is_negated: false, synonym: None } }",
    ),
    (
        ">1",
        "Compared { at: 40, relation: Greater, constant: Constant { at: 41, value: Integer(1), is_negated: false, synonym: None } }",
    ),
    (
        ">= -1",
        "Compared { at: 40, relation: GreaterEqual, constant: Constant { at: 43, value: Integer(-1), is_negated: false, synonym: None } }",
    ),
];

/// A part, with the text around it.
fn whole(alloc: Global, around: &Around, part: &str) -> Option<String> {
    format!(in alloc; "{}{part}{}", around.0, around.1).ok()
}

/// What `Debug` shows of the tree of a text.
fn shown(alloc: Global, text: &str) -> Option<String> {
    let block = read(alloc, text)?;
    format!(in alloc; "{block:?}").ok()
}

/// What `Debug` shows of a part of a text, with the text around it.
fn shown_within(alloc: Global, around: &Around, part: &str) -> Option<String> {
    shown(alloc, whole(alloc, around, part)?.as_str())
}

/// Whether `Debug` shows the tree that a row has.
fn is_shown(alloc: Global, text: &Around, told: &Around, row: &Row) -> Option<bool> {
    let found = shown_within(alloc, text, row.0)?;
    let wanted = whole(alloc, told, row.1)?;
    Some(found.as_str() == wanted.as_str())
}

/// The number of the first row with another tree.
fn first_other(alloc: Global, text: &Around, told: &Around, rows: &[Row]) -> Option<usize> {
    for (number, row) in rows.iter().enumerate() {
        if is_shown(alloc, text, told, row) != Some(true) {
            return Some(number);
        }
    }
    None
}

#[test]
fn trees_have_all_that_stands_there_with_its_place(rt: HostRuntime) {
    assert_eq!(rt; first_other(rt.alloc(), &NOTHING, &NOTHING, &WHOLE), None);
    assert_eq!(rt; first_other(rt.alloc(), &TASK, &TASK_SHOWN, &VALUES), None);
    assert_eq!(rt;
        first_other(rt.alloc(), &ANSWER, &ANSWER_SHOWN, &RANGES),
        None
    );
}

/// The first expression that the START of the first entity assigns.
fn first_value(block: &Block) -> Option<&Expression> {
    match block.entities.first()? {
        Entity::Process(process) => match process.start.transition.statements.first()? {
            Statement::Act(Action::Task(task)) => Some(&task.assignments.first()?.value),
            _ => None,
        },
        _ => None,
    }
}

/// Writes an expression with a pair of parentheses for each operator.
fn group(text: &mut String, tree: &Expression) -> Result<(), AllocError> {
    match tree {
        Expression::Number { value, .. } => write!(text, "{value}"),
        Expression::Truth { value, .. } => write!(text, "{value}"),
        Expression::Variable { name, .. } => text.push_str(name.name.as_str()),
        Expression::Unary {
            operator,
            operand,
            ..
        } => {
            write!(text, "({operator:?} ")?;
            group(text, operand)?;
            text.push(')')
        }
        Expression::Binary {
            operator,
            left,
            right,
            ..
        } => {
            text.push('(')?;
            group(text, left)?;
            write!(text, " {operator:?} ")?;
            group(text, right)?;
            text.push(')')
        }
    }
}

/// The expression with parentheses, as a text.
fn grouped(alloc: Global, tree: &Expression) -> Option<String> {
    let mut text = String::new(alloc);
    group(&mut text, tree).ok()?;
    Some(text)
}

/// An expression in a text, with parentheses.
fn grouped_value(alloc: Global, value: &str) -> Option<String> {
    let block = read(alloc, whole(alloc, &TASK, value)?.as_str())?;
    grouped(alloc, first_value(&block)?)
}

/// Expressions, and their grouping.
const GROUPS: [Row; 6] = [
    (
        "a OR b AND NOT c = d + e * -f",
        "(a Or (b And ((Not c) Equal (d Add (e Multiply (Negate f))))))",
    ),
    (
        "a * b + c < d AND TRUE XOR FALSE",
        "(((((a Multiply b) Add c) Less d) And true) Xor false)",
    ),
    ("a OR b XOR c OR d", "(((a Or b) Xor c) Or d)"),
    ("1 - 2 - 3 + 4", "(((1 Subtract 2) Subtract 3) Add 4)"),
    (
        "a / b MOD c REM d * e",
        "((((a Divide b) Modulo c) Remainder d) Multiply e)",
    ),
    (
        "a >= b AND c <= d AND (e > f) /= (g = h)",
        "(((a GreaterEqual b) And (c LessEqual d)) And ((e Greater f) NotEqual (g Equal h)))",
    ),
];

/// Whether an expression has this grouping.
fn is_grouped(alloc: Global, value: &str, wanted: &str) -> bool {
    match grouped_value(alloc, value) {
        Some(found) => found.as_str() == wanted,
        None => false,
    }
}

/// The number of the first row with another grouping.
fn first_grouped_otherwise(alloc: Global, rows: &[Row]) -> Option<usize> {
    for (number, (value, wanted)) in rows.iter().enumerate() {
        if !is_grouped(alloc, value, wanted) {
            return Some(number);
        }
    }
    None
}

#[test]
fn groups_as_operators_bind(rt: HostRuntime) {
    assert_eq!(rt; first_grouped_otherwise(rt.alloc(), &GROUPS), None);
}

/// Appends the tokens of a part of a text `times` times.
fn repeat(found: &mut Vec<Token>, alloc: Global, part: &str, times: usize) -> Option<()> {
    let row = tokens(alloc, part).ok()?;
    for _ in 0..times {
        found.extend_from_slice(&row).ok()?;
    }
    Some(())
}

/// The tokens of a text with `times` nested decisions, of which `closed` are closed.
fn nested(alloc: Global, times: usize, closed: usize) -> Option<Vec<Token>> {
    let mut found = Vec::new(alloc);
    repeat(&mut found, alloc, "BLOCK B; PROCESS P; START;", 1)?;
    repeat(&mut found, alloc, "       DECISION 1; (1):", times)?;
    repeat(&mut found, alloc, "ENDDECISION;", closed)?;
    repeat(&mut found, alloc, "ENDPROCESS; ENDBLOCK;", 1)?;
    Some(found)
}

/// Why these tokens have no tree, if they have none.
fn nested_fault(alloc: Global, times: usize, closed: usize) -> Option<Option<ParseFault>> {
    let found = nested(alloc, times, closed)?;
    Some(parse(alloc, found.as_slice()).err())
}

/// The number of nested decisions, the number of those that are closed, and the fault.
const NESTED: [(usize, usize, Option<ParseFault>); 5] = [
    (31, 31, None),
    (32, 32, Some(ParseFault::TooDeep(7))),
    (20_000, 20_000, Some(ParseFault::TooDeep(7))),
    (20_000, 19_999, Some(ParseFault::Unexpected(180_006))),
    (2, 3, Some(ParseFault::Unexpected(26))),
];

/// The number of the first row with another fault.
fn first_other_fault(alloc: Global, rows: &[(usize, usize, Option<ParseFault>)]) -> Option<usize> {
    for (number, (times, closed, fault)) in rows.iter().enumerate() {
        if nested_fault(alloc, *times, *closed) != Some(*fault) {
            return Some(number);
        }
    }
    None
}

#[test]
fn a_decision_is_one_level(rt: HostRuntime) {
    assert_eq!(rt; first_other_fault(rt.alloc(), &NESTED), None);
}
