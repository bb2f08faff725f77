//! The state that a link set keeps for each link.
ghost use Rattle.std.specs.Prelude.{◌≡◌};
ghost use Rattle.group_changeover.specs.Availability.{changeover_begins, first_known, told, fewer_by, fewer, waited_behind, back_again, waits, with_retrieval, ended, serves, takes_part, admits};

/// The number of signalling link selections.
pub const SELECTIONS: usize = 16;

/// After so many ticks a changeover proceeds without an answer (Q.704's T2).
pub const T2: u64 = 1_400;

/// Until so many ticks after a link came into service again, an order may be a late one of its last changeover.
pub const LATE: u64 = 1_400;

/// What the far side reported of a link that failed.
#[derive(Clone, Copy, Debug, PartialEq, Eq)]
pub enum Answer {
    /// It accepted so many of the messages that the link holds.
    Accepted(usize),
    /// It isn't known how many it accepted.
    Unknown,
}

/// The state of a link since its last changeover began.
#[derive(Clone, Copy, Debug, PartialEq, Eq)]
pub enum Behind {
    /// No changeover has begun.
    Nothing,
    /// The link hasn't come into service again.
    Out,
    /// The link came into service again, the last time so many ticks ago; the count stays at its greatest value.
    Back(u64),
}

impl Behind {
    /// Ticks pass.
    fn waits(self, ticks: u64) -> Behind
        ensures { result ≡ waited_behind ticks self }
    {
        match self {
            Behind::Back(since) => Behind::Back(since.saturating_add(ticks)),
            Behind::Out => Behind::Out,
            Behind::Nothing => Behind::Nothing,
        }
    }

    /// The link comes into service.
    fn serves(self) -> Behind
        ensures { result ≡ back_again self }
    {
        match self {
            Behind::Out | Behind::Back(_) => Behind::Back(0),
            Behind::Nothing => Behind::Nothing,
        }
    }
}

/// The changeover of a link.
#[derive(Clone, Copy, Debug, PartialEq, Eq)]
pub struct Changing {
    /// The answer of the far side: the first with a number of accepted messages, or else the last.
    pub answer: Option<Answer>,
    /// The ticks since it began; the count stays at its greatest value.
    pub waited: u64,
    /// If its messages were handed out, how many of each selection are not yet diverted.
    pub retrieval: Option<[usize; SELECTIONS]>,
}

/// The state that a link set keeps for a link.
#[derive(Clone, Copy, Debug, PartialEq, Eq)]
pub struct Availability {
    /// The link has been in service, not held, while it was admitted.
    pub served: bool,
    /// Level 3 admits the link to selections and to messages retrieved from other links.
    pub admitted: bool,
    /// The link was started while it was out of service, and hasn't come into service since.
    pub anew: bool,
    /// A changeover of the link began, and nothing was rebalanced since.
    pub failed: bool,
    /// The state of the link since its last changeover began.
    pub behind: Behind,
    /// The changeover under way, if there is one.
    pub changing: Option<Changing>,
}

/// The first answer with a number of accepted messages, or else this one.
fn first_known(was: Option<Answer>, answer: Answer) -> Answer
    ensures { result ≡ first_known was answer }
{
    match was {
        Some(Answer::Accepted(count)) => Answer::Accepted(count),
        _ => answer,
    }
}

/// The answer after `left` of the messages that it counts have left.
fn fewer_by(answer: Option<Answer>, left: usize) -> Option<Answer>
    ensures { result ≡ fewer_by left answer }
{
    match answer {
        Some(Answer::Accepted(count)) => Some(Answer::Accepted(count.saturating_sub(left))),
        _ => answer,
    }
}

impl Availability {
    /// Begins a changeover, unless one is under way.
    pub fn changeover_begins(self) -> Availability
        ensures { result ≡ changeover_begins self }
    {
        match self.changing {
            Some(_) => self,
            None => Availability {
                failed: true,
                behind: Behind::Out,
                changing: Some(Changing {
                    answer: None,
                    waited: 0,
                    retrieval: None,
                }),
                ..self
            },
        }
    }

    /// Takes an answer of the far side.
    pub fn told(self, answer: Answer) -> Availability
        ensures { result ≡ told answer self }
    {
        match self.changing {
            Some(changing) if changing.retrieval.is_none() => Availability {
                changing: Some(Changing {
                    answer: Some(first_known(changing.answer, answer)),
                    ..changing
                }),
                ..self
            },
            _ => self,
        }
    }

    /// Reduces the answer by `left` messages that have left the link, from the front.
    pub fn fewer(self, left: usize) -> Availability
        ensures { result ≡ fewer left self }
    {
        match self.changing {
            Some(changing) => Availability {
                changing: Some(Changing {
                    answer: fewer_by(changing.answer, left),
                    ..changing
                }),
                ..self
            },
            None => self,
        }
    }

    /// Ticks pass.
    pub fn waits(self, ticks: u64) -> Availability
        ensures { result ≡ waits ticks self }
    {
        let behind = self.behind.waits(ticks);
        match self.changing {
            Some(changing) => Availability {
                behind,
                changing: Some(Changing {
                    waited: changing.waited.saturating_add(ticks),
                    ..changing
                }),
                ..self
            },
            None => Availability { behind, ..self },
        }
    }

    /// Records how many messages of each selection are retrieved.
    pub fn with_retrieval(self, counts: [usize; SELECTIONS]) -> Availability
        ensures { result ≡ with_retrieval counts self }
    {
        match self.changing {
            Some(changing) => Availability {
                changing: Some(Changing {
                    retrieval: Some(counts),
                    ..changing
                }),
                ..self
            },
            None => self,
        }
    }

    /// Ends the changeover.
    pub fn ended(self) -> Availability
        ensures { result ≡ ended self }
    {
        Availability {
            changing: None,
            ..self
        }
    }

    /// The link comes into service.
    pub fn serves(self) -> Availability
        ensures { result ≡ serves self }
    {
        Availability {
            anew: false,
            behind: self.behind.serves(),
            ..self
        }
    }

    /// The link may carry selections, or may not. `served` is set from the first time that it may.
    pub fn takes_part(self, may: bool) -> Availability
        ensures { result ≡ takes_part may self }
    {
        Availability {
            served: self.served || may,
            ..self
        }
    }

    /// Level 3 admits the link, or no longer does.
    pub fn admits(self, way: bool) -> Availability
        ensures { result ≡ admits way self }
    {
        Availability {
            admitted: way,
            ..self
        }
    }
}
