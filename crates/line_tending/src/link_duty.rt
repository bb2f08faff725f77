//! The state that is kept of each link.
ghost use Rattle.std.specs.Prelude.{◌≡◌, Some};
ghost use Rattle.line_tending.specs.Cares.{is_order, waits, new_care, risen, fallen, desired, let_be, changing, stopped, handed_out, tested, numbered, owing, left_on, is_over, owed_by, owed_on, given_up, begun, waited, is_coming, is_due, is_emergency, lacks_emergency, is_eased, urged, is_numbered, may_say, spoken};

use group_changeover::Kind;
use link_processes::Command;

/// Q.704's T2, in ticks. This long a message about a link is owed and its answer awaited, counting only ticks in which
/// another link would take messages about it. A due Start waits this long at most.
pub const PATIENCE: u64 = 1_400;

/// Ticks after which a changeover stops waiting for another link: as long as one takes to come into service.
pub const LONGEST: u64 = 14_000;

/// Ticks after its last Down before a link may be started again (Q.704's T17).
pub const REST: u64 = 1_000;

/// A changeover message to be sent to the other point.
#[derive(Clone, Copy, Debug, PartialEq, Eq)]
pub struct Owed {
    /// The message.
    pub kind: Kind,
    /// The ticks left for which it is owed; only ticks count in which another link would take it.
    pub left: u64,
    /// The link by which it was sent, if it was.
    pub by: Option<usize>,
}

/// The state of a link's test (Q.707, 2.2).
#[derive(Clone, Copy, Debug, PartialEq, Eq)]
pub enum Testing {
    /// No test runs. The next begins at this tick.
    Rests(u64),
    /// The first test message is unanswered; it fails at this tick.
    Runs(u64),
    /// The second test message is unanswered too; it fails at this tick.
    RunsAgain(u64),
}

/// Whether a changeover message contains a sequence number.
fn is_numbered(kind: Kind) -> bool
    ensures { result ≡ is_numbered kind }
{
    match kind {
        Kind::Order(_) | Kind::Acknowledgement(_) => true,
        Kind::EmergencyOrder | Kind::EmergencyAcknowledgement => false,
    }
}

/// The last order of level 3 about a link's emergency.
#[derive(Clone, Copy, Debug, PartialEq, Eq)]
pub enum Urgency {
    /// No order.
    Open,
    /// It is an emergency.
    Emergency,
    /// It is no emergency.
    Calm,
}

/// The state that is kept of a link.
#[derive(Clone, Copy, Debug, PartialEq, Eq)]
pub struct LinkDuty {
    /// Its power was switched on.
    pub powered: bool,
    /// It is to be in service.
    pub wanted: bool,
    /// It is in service, by its last report.
    pub serves: bool,
    /// It has been in service.
    pub served: bool,
    /// It was started, and hasn't gone down since.
    pub started: bool,
    /// It was started since its last changeover began here.
    pub renewed: bool,
    /// It was stopped, and hasn't gone down since.
    pub stopping: bool,
    /// The tick from which it may be started.
    pub rested: u64,
    /// The tick at which its Start falls due, if a Start is pending.
    pub due: Option<u64>,
    /// The order about its emergency.
    pub urgency: Urgency,
    /// An emergency was declared for it, and hasn't ended since.
    pub urgent: bool,
    /// Ticks left to wait for its changeover's answer, counting those in which another link takes messages about it.
    pub patience: u64,
    /// The changeover message owed about it.
    pub owed: Option<Owed>,
    /// Its test.
    pub test: Testing,
    /// The number of tests sent, modulo 2^16.
    pub tests: u16,
    /// The number of messages last retrieved from it.
    pub handed: usize,
}

impl Owed {
    /// Whether it is an order, COO or ECO.
    pub fn is_order(self) -> bool
        ensures { result ≡ is_order self }
    {
        match self.kind {
            Kind::Order(_) | Kind::EmergencyOrder => true,
            Kind::Acknowledgement(_) | Kind::EmergencyAcknowledgement => false,
        }
    }

    /// Whether it waits for a link by which to be sent.
    pub fn waits(self) -> bool
        ensures { result ≡ waits self }
    {
        self.by.is_none()
    }

    /// The ticks left for which it is owed, one tick later.
    fn left_on(self, is_taken: bool) -> u64
        ensures { result ≡ left_on is_taken self }
    {
        if is_taken {
            self.left.saturating_sub(1)
        } else {
            self.left
        }
    }

    /// Whether it is no longer owed one tick later.
    fn is_over(self, is_taken: bool, is_open: bool) -> bool
        ensures { result ≡ is_over is_taken is_open self }
    {
        self.left_on(is_taken) == 0 || (self.is_order() && (self.waits() && !is_open))
    }

    /// The message one tick later, if it is still owed.
    fn on(self, is_taken: bool, is_open: bool) -> Option<Owed>
        ensures { result ≡ owed_by is_taken is_open (Some self) }
    {
        if self.is_over(is_taken, is_open) {
            return None;
        }
        Some(Owed {
            left: self.left_on(is_taken),
            ..self
        })
    }
}

impl LinkDuty {
    /// The state before any event.
    pub fn new() -> LinkDuty
        ensures { result ≡ new_care }
    {
        LinkDuty {
            powered: false,
            wanted: false,
            serves: false,
            served: false,
            started: false,
            renewed: false,
            stopping: false,
            rested: 0,
            due: None,
            urgency: Urgency::Open,
            urgent: false,
            patience: PATIENCE,
            owed: None,
            test: Testing::Rests(0),
            tests: 0,
            handed: 0,
        }
    }

    /// It comes into service. A message owed about it is dropped: its sequence numbers are no longer valid.
    #[tactic(auto, unfolding(crate::specs::Cares::risen))]
    pub fn risen(self, now: u64) -> LinkDuty
        ensures { result ≡ risen now self }
    {
        LinkDuty {
            serves: true,
            served: true,
            urgent: false,
            owed: None,
            test: Testing::Rests(now),
            ..self
        }
    }

    /// It goes down.
    #[tactic(auto, unfolding(crate::specs::Cares::fallen))]
    pub fn fallen(self, now: u64) -> LinkDuty
        ensures { result ≡ fallen now self }
    {
        let rested = now.saturating_add(REST);
        LinkDuty {
            serves: false,
            started: false,
            stopping: false,
            urgent: false,
            rested,
            due: if self.wanted { Some(rested) } else { None },
            ..self
        }
    }

    /// It is to be in service from now on.
    #[tactic(auto, unfolding(crate::specs::Cares::desired))]
    pub fn desired(self, now: u64) -> LinkDuty
        ensures { result ≡ desired now self }
    {
        let due = if self.serves || self.started {
            self.due
        } else {
            Some(now.max(self.rested))
        };
        LinkDuty {
            wanted: true,
            due,
            ..self
        }
    }

    /// It is no longer to be in service.
    #[tactic(auto, unfolding(crate::specs::Cares::let_be))]
    pub fn let_be(self) -> LinkDuty
        ensures { result ≡ let_be self }
    {
        LinkDuty {
            wanted: false,
            due: None,
            ..self
        }
    }

    /// It is to be in service from now on, or no longer, if the command is Start or Stop.
    pub fn asked(self, command: Command, now: u64) -> LinkDuty {
        match command {
            Command::Start => self.desired(now),
            Command::Stop => self.let_be(),
            _ => self,
        }
    }

    /// It took a command: power on, or the begin or end of its emergency.
    pub fn obeyed(self, command: Command) -> LinkDuty {
        match command {
            Command::PowerOn => LinkDuty {
                powered: true,
                ..self
            },
            Command::Emergency => LinkDuty {
                urgency: Urgency::Emergency,
                urgent: self.started,
                ..self
            },
            Command::Calm => LinkDuty {
                urgency: Urgency::Calm,
                urgent: false,
                ..self
            },
            _ => self,
        }
    }

    /// Its changeover begins.
    pub fn changing(self) -> LinkDuty
        ensures { result ≡ changing self }
    {
        LinkDuty {
            renewed: false,
            patience: PATIENCE,
            ..self
        }
    }

    /// Whether it was stopped and hasn't gone down since.
    pub fn stopped(self, stopping: bool) -> LinkDuty
        ensures { result ≡ stopped stopping self }
    {
        LinkDuty { stopping, ..self }
    }

    /// `handed` messages were retrieved from it.
    pub fn handed(self, handed: usize) -> LinkDuty
        ensures { result ≡ handed_out handed self }
    {
        LinkDuty { handed, ..self }
    }

    /// The new state of its test.
    pub fn tested(self, test: Testing) -> LinkDuty
        ensures { result ≡ tested test self }
    {
        LinkDuty { test, ..self }
    }

    /// One more test of it was sent.
    pub fn numbered(self) -> LinkDuty
        ensures { result ≡ numbered self }
    {
        LinkDuty {
            tests: self.tests.wrapping_add(1),
            ..self
        }
    }

    /// The message owed about it.
    pub fn owing(self, owed: Option<Owed>) -> LinkDuty
        ensures { result ≡ owing owed self }
    {
        LinkDuty { owed, ..self }
    }

    /// The message owed about it one tick later; `is_open`: its changeover waits for an answer.
    #[tactic(auto, unfolding(crate::specs::Cares::owed_on))]
    pub fn owed_on(self, is_taken: bool, is_open: bool) -> Option<Owed>
        ensures { result ≡ owed_on is_taken is_open self }
    {
        match self.owed {
            Some(owed) => owed.on(is_taken, is_open),
            None => None,
        }
    }

    /// Its messages were reported as unsure, so a message about it is of no use any more.
    pub fn given_up(self) -> LinkDuty
        ensures { result ≡ given_up self }
    {
        LinkDuty { owed: None, ..self }
    }

    /// It was started: a message owed about it refers to its earlier service, and is dropped.
    pub fn begun(self) -> LinkDuty
        ensures { result ≡ begun self }
    {
        LinkDuty {
            started: true,
            renewed: true,
            due: None,
            ..self.given_up()
        }
    }

    /// Whether this may be sent about it: no number from its start until its next changeover begins here.
    pub fn may_say(self, kind: Kind) -> bool
        ensures { result ≡ may_say self kind }
    {
        !(self.renewed && is_numbered(kind))
    }

    /// The message to send about it instead of this: the emergency one if no number may be sent.
    pub fn spoken(self, kind: Kind) -> Kind
        ensures { result ≡ spoken self kind }
    {
        if !self.renewed {
            return kind;
        }
        match kind {
            Kind::Order(_) | Kind::EmergencyOrder => Kind::EmergencyOrder,
            Kind::Acknowledgement(_) | Kind::EmergencyAcknowledgement => {
                Kind::EmergencyAcknowledgement
            }
        }
    }

    /// Whether it starts as an emergency: as ordered, or, without an order, if no other link is in service.
    pub fn is_emergency(self, another_serves: bool) -> bool
        ensures { result ≡ is_emergency another_serves self }
    {
        match self.urgency {
            Urgency::Open => !another_serves,
            Urgency::Emergency => true,
            Urgency::Calm => false,
        }
    }

    /// Whether an emergency has to be declared for its start: it starts as one, and none was declared.
    pub fn lacks_emergency(self, another_serves: bool) -> bool
        ensures { result ≡ lacks_emergency another_serves self }
    {
        !self.urgent && self.is_emergency(another_serves)
    }

    /// Whether its declared emergency ends: once another link carries messages, unless it was ordered.
    pub fn is_eased(self, another_carries: bool) -> bool
        ensures { result ≡ is_eased another_carries self }
    {
        match self.urgency {
            Urgency::Open | Urgency::Calm => self.urgent && another_carries,
            Urgency::Emergency => false,
        }
    }

    /// Whether an emergency is declared for it.
    pub fn urged(self, urgent: bool) -> LinkDuty
        ensures { result ≡ urged urgent self }
    {
        LinkDuty { urgent, ..self }
    }

    /// A tick passed in which the answer of its changeover could arrive.
    pub fn waited(self) -> LinkDuty
        ensures { result ≡ waited self }
    {
        LinkDuty {
            patience: self.patience.saturating_sub(1),
            ..self
        }
    }

    /// Whether it is coming into service: it was started, or its Start is pending and allowed.
    pub fn is_coming(self, may_start: bool) -> bool
        ensures { result ≡ is_coming may_start self }
    {
        self.started || (may_start && self.due.is_some())
    }

    /// The tick since which its Start has been due, if it is due.
    #[tactic(auto, unfolding(crate::specs::Cares::is_due))]
    pub fn is_due(self, now: u64) -> Option<u64>
        ensures { result ≡ is_due now self }
    {
        match self.due {
            Some(due) if due <= now && self.wanted && self.powered && !self.started => Some(due),
            _ => None,
        }
    }
}
