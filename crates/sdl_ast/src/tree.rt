//! The syntax tree of a text, in the order of the text. Every `at` is a place in the text: the byte
//! offset, from 0, of the first token of the part it belongs to.
use crate::expression::{Expression, Identifier};

/// A text: one block with its entities.
#[derive(Debug, Drop)]
pub struct Block {
    pub name: Identifier,
    pub entities: Vec<Entity>,
}

/// An entity of a block.
#[derive(Debug, Drop)]
pub enum Entity {
    /// The signals of one SIGNAL.
    Signals(Vec<SignalDeclaration>),
    /// A SIGNALROUTE.
    Route(Route),
    /// A CONNECT, which has no effect.
    Connect(Connect),
    /// The synonyms of one SYNONYM.
    Synonyms(Vec<Synonym>),
    /// A PROCESS.
    Process(Process),
}

/// The declaration of a signal, with the sorts of its parameters.
#[derive(Debug, Drop)]
pub struct SignalDeclaration {
    pub name: Identifier,
    pub parameters: Vec<Sort>,
}

/// The sort (data type) of a variable or a parameter.
#[derive(Clone, Copy, Debug, PartialEq, Eq)]
pub enum Sort {
    /// Whole numbers of 32 bits.
    Integer,
    /// TRUE and FALSE.
    Boolean,
}

/// A synonym: a name for the value of an expression, and the sort of that value if it is written.
#[derive(Debug, Drop)]
pub struct Synonym {
    pub name: Identifier,
    pub sort: Option<Sort>,
    pub value: Expression,
}

/// A SIGNALROUTE with its paths.
#[derive(Debug, Drop)]
pub struct Route {
    pub name: Identifier,
    pub paths: Vec<Path>,
}

/// A CONNECT: the channels and the routes that it names. It has no effect.
#[derive(Debug, Drop)]
pub struct Connect {
    pub channels: Vec<Identifier>,
    pub routes: Vec<Identifier>,
}

/// One direction of a route, and the signals that it carries.
#[derive(Debug, Drop)]
pub struct Path {
    pub from: Party,
    pub to: Party,
    pub signals: Vec<Identifier>,
}

/// An end of a path.
#[derive(Clone, Copy, Debug, PartialEq, Eq)]
pub enum Party {
    /// The outside of the block: ENV.
    Environment,
    /// The process with this name.
    Process(Identifier),
}

/// A PROCESS.
#[derive(Debug, Drop)]
pub struct Process {
    pub name: Identifier,
    /// The number of instances that run, 1 or more in a text.
    pub instances: u32,
    pub declarations: Vec<Declaration>,
    pub start: Start,
    pub states: Vec<StatePart>,
    pub connections: Vec<Connection>,
}

/// A declaration of a process.
#[derive(Debug, Drop)]
pub enum Declaration {
    /// The groups of one DCL.
    Variables(Vec<Group>),
    /// The timers of one TIMER.
    Timers(Vec<Identifier>),
    /// The synonyms of one SYNONYM.
    Synonyms(Vec<Synonym>),
}

/// Variables of one sort. Each of them has the initial value, if there is one.
#[derive(Debug, Drop)]
pub struct Group {
    pub names: Vec<Identifier>,
    pub sort: Sort,
    pub initial: Option<Constant>,
}

/// A constant and its place.
#[derive(Clone, Copy, Debug, PartialEq, Eq)]
pub struct Constant {
    pub at: u32,
    /// Its value. For a synonym it is the number 0 until the synonym's value replaces it.
    pub value: Literal,
    /// Whether it is a synonym after a minus.
    pub is_negated: bool,
    /// The synonym that it is, if it is one.
    pub synonym: Option<Identifier>,
}

/// The value of a constant.
#[derive(Clone, Copy, Debug, PartialEq, Eq)]
pub enum Literal {
    /// A number, with its sign.
    Integer(i32),
    /// TRUE or FALSE.
    Boolean(bool),
}

/// START and its transition. The place is that of the word START.
#[derive(Debug, Drop)]
pub struct Start {
    pub at: u32,
    pub transition: Transition,
}

/// A STATE part: the reactions of the states that it names.
#[derive(Debug, Drop)]
pub struct StatePart {
    pub names: Vec<Identifier>,
    pub clauses: Vec<StateClause>,
}

/// A clause of a STATE part.
#[derive(Debug, Drop)]
pub enum StateClause {
    /// An INPUT with its transition.
    Input(InputPart),
    /// The signals and timers of a SAVE.
    Save(Vec<Identifier>),
}

/// An INPUT with its transition. The place is that of the word INPUT.
#[derive(Debug, Drop)]
pub struct InputPart {
    pub at: u32,
    pub stimuli: Vec<Stimulus>,
    pub transition: Transition,
}

/// A signal that an INPUT consumes, and for each parameter the variable that receives it, or `None`
/// if the parameter is discarded. Without parentheses there are no places. `A()` has one empty
/// place.
#[derive(Debug, Drop)]
pub struct Stimulus {
    pub name: Identifier,
    pub places: Vec<Option<Identifier>>,
}

/// A transition. Without an end it runs off the end of its text.
#[cycle(tree)]
#[derive(Debug, Drop)]
pub struct Transition {
    pub statements: Vec<Statement>,
    pub end: Option<End>,
}

/// A statement of a transition: an action, or a choice between continuations.
#[cycle(tree)]
#[derive(Debug, Drop)]
pub enum Statement {
    /// A TASK, OUTPUT, SET or RESET.
    Act(Action),
    /// A DECISION.
    Decide(Decision),
}

/// A DECISION: the question, the answers in order, and the body of ELSE. The place is that of the word DECISION.
#[cycle(tree)]
#[derive(Debug, Drop)]
pub struct Decision {
    pub at: u32,
    pub question: Expression,
    pub answers: Vec<Answer>,
    pub otherwise: Option<Transition>,
}

/// An answer of a DECISION: the values that it matches, and its body. The place is that of its opening parenthesis.
#[cycle(tree)]
#[derive(Debug, Drop)]
pub struct Answer {
    pub at: u32,
    pub ranges: Vec<Range>,
    pub body: Transition,
}

/// Values that an answer matches.
#[derive(Clone, Copy, Debug, PartialEq, Eq)]
pub enum Range {
    /// One value.
    Value(Constant),
    /// The values in this relation to a constant. The place is that of the relation.
    Compared {
        at: u32,
        relation: Relation,
        constant: Constant,
    },
    /// The values from one constant to another, both included.
    Between(Constant, Constant),
}

/// The relation of a value to a constant.
#[derive(Clone, Copy, Debug, PartialEq, Eq)]
pub enum Relation {
    /// `=`
    Equal,
    /// `/=`
    NotEqual,
    /// `<`
    Less,
    /// `<=`
    LessEqual,
    /// `>`
    Greater,
    /// `>=`
    GreaterEqual,
}

/// A CONNECTION: a name, and the transition that a JOIN to it continues with. The place is that of the word CONNECTION.
#[derive(Debug, Drop)]
pub struct Connection {
    pub at: u32,
    pub name: Identifier,
    pub transition: Transition,
}

/// A JOIN to a connection. The place is that of the word JOIN.
#[derive(Clone, Copy, Debug, PartialEq, Eq)]
pub struct Join {
    pub at: u32,
    pub connector: Identifier,
}

/// One action of a transition.
#[derive(Debug, Drop)]
pub enum Action {
    /// A TASK.
    Task(Task),
    /// An OUTPUT.
    Output(Output),
    /// A SET.
    Set(SetTimer),
    /// A RESET.
    Reset(ResetTimer),
}

/// An OUTPUT: the signals in order, and the destination if one is written. The place is that of the word OUTPUT.
#[derive(Debug, Drop)]
pub struct Output {
    pub at: u32,
    pub sendings: Vec<Sending>,
    pub to: Option<Destination>,
}

/// A signal that an OUTPUT sends, with its parameters.
#[derive(Debug, Drop)]
pub struct Sending {
    pub signal: Identifier,
    pub parameters: Vec<Expression>,
}

/// The destination of a signal.
#[derive(Clone, Copy, Debug, PartialEq, Eq)]
pub enum Destination {
    /// SENDER, at its place: the process that sent the signal of the transition.
    Sender(u32),
    /// The process with this name.
    Process(Identifier),
}

/// A SET: the timer expires this delay after now. The place is that of the word SET.
#[derive(Debug, Drop)]
pub struct SetTimer {
    pub at: u32,
    pub delay: Expression,
    pub timer: Identifier,
}

/// A RESET: the timer is stopped. The place is that of the word RESET.
#[derive(Clone, Copy, Debug, PartialEq, Eq)]
pub struct ResetTimer {
    pub at: u32,
    pub timer: Identifier,
}

/// A TASK: its assignments. Quoted texts in it have no effect and aren't kept. The place is that of the word TASK.
#[derive(Debug, Drop)]
pub struct Task {
    pub at: u32,
    pub assignments: Vec<Assignment>,
}

/// An assignment to a variable.
#[derive(Debug, Drop)]
pub struct Assignment {
    pub variable: Identifier,
    pub value: Expression,
}

/// How a transition ends.
#[derive(Clone, Copy, Debug, PartialEq, Eq)]
pub enum End {
    /// With a NEXTSTATE.
    NextState(NextState),
    /// With a STOP, at its place.
    Stop(u32),
    /// With a JOIN.
    Join(Join),
}

/// A NEXTSTATE. The place is that of the word NEXTSTATE.
#[derive(Clone, Copy, Debug, PartialEq, Eq)]
pub struct NextState {
    pub at: u32,
    pub state: Identifier,
}
