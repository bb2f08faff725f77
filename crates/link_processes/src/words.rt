//! The names of the processes and signals that a terminal uses.
ghost use Rattle.std.specs.Prelude.{◌≡◌};
ghost use Rattle.link_processes.specs.Known.{process_word, signal_word, signal_sorts, option_word, option_sorts};

use turn_code::Sort;

/// A process that the environment sends signals to.
#[derive(Clone, Copy, PartialEq, Eq, Debug)]
pub enum ProcessName {
    Lsc,
    Aerm,
    Suerm,
    Txc,
    Rc,
    Cc,
}

/// A signal from or to the environment.
#[derive(Clone, Copy, PartialEq, Eq, Debug)]
pub enum SignalName {
    PowerOn,
    StartLink,
    StopLink,
    Emergency,
    Calm,
    LocalOut,
    LocalBack,
    Busy,
    Free,
    Good,
    Errored,
    AckSeen,
    Bad,
    Unit,
    MsuSent,
    Fresh,
    Take,
    Line,
    Withhold,
    InServiceNow,
    Down,
    RemoteOut,
    RemoteBack,
}

/// An optional signal between the environment and the actors: a text may lack it.
#[derive(Clone, Copy, PartialEq, Eq, Debug)]
pub enum OptionName {
    Flush,
    Continue,
    Overload,
    Deliver,
    Cleared,
    Clear,
    Odd,
    Counting,
}

impl ProcessName {
    /// The name as written in a text.
    pub fn word(self) -> &'static str
        ensures { result.now ≡ process_word self }
    {
        match self {
            ProcessName::Lsc => "LSC",
            ProcessName::Aerm => "AERM",
            ProcessName::Suerm => "SUERM",
            ProcessName::Txc => "TXC",
            ProcessName::Rc => "RC",
            ProcessName::Cc => "CC",
        }
    }
}

impl SignalName {
    /// The name as written in a text.
    pub fn word(self) -> &'static str
        ensures { result.now ≡ signal_word self }
    {
        match self {
            SignalName::PowerOn => "PowerOn",
            SignalName::StartLink => "StartLink",
            SignalName::StopLink => "StopLink",
            SignalName::Emergency => "Emergency",
            SignalName::Calm => "Calm",
            SignalName::LocalOut => "LocalOut",
            SignalName::LocalBack => "LocalBack",
            SignalName::Busy => "Busy",
            SignalName::Free => "Free",
            SignalName::Good => "Good",
            SignalName::Errored => "Errored",
            SignalName::AckSeen => "AckSeen",
            SignalName::Bad => "Bad",
            SignalName::Unit => "Unit",
            SignalName::MsuSent => "MsuSent",
            SignalName::Fresh => "Fresh",
            SignalName::Take => "Take",
            SignalName::Line => "Line",
            SignalName::Withhold => "Withhold",
            SignalName::InServiceNow => "InServiceNow",
            SignalName::Down => "Down",
            SignalName::RemoteOut => "RemoteOut",
            SignalName::RemoteBack => "RemoteBack",
        }
    }

    /// The sorts of the signal's parameters.
    pub fn sorts(self) -> &'static [Sort]
        ensures { result.now ≡ signal_sorts self }
    {
        match self {
            SignalName::AckSeen | SignalName::Take | SignalName::Withhold => &[Sort::Boolean],
            SignalName::Unit | SignalName::Line | SignalName::Down => &[Sort::Integer],
            SignalName::PowerOn
            | SignalName::StartLink
            | SignalName::StopLink
            | SignalName::Emergency
            | SignalName::Calm
            | SignalName::LocalOut
            | SignalName::LocalBack
            | SignalName::Busy
            | SignalName::Free
            | SignalName::Good
            | SignalName::Errored
            | SignalName::Bad
            | SignalName::MsuSent
            | SignalName::Fresh
            | SignalName::InServiceNow
            | SignalName::RemoteOut
            | SignalName::RemoteBack => &[],
        }
    }
}

impl OptionName {
    /// The name as written in a text.
    pub fn word(self) -> &'static str
        ensures { result.now ≡ option_word self }
    {
        match self {
            OptionName::Flush => "Flush",
            OptionName::Continue => "Continue",
            OptionName::Overload => "Overload",
            OptionName::Deliver => "Deliver",
            OptionName::Cleared => "Cleared",
            OptionName::Clear => "Clear",
            OptionName::Odd => "Odd",
            OptionName::Counting => "Counting",
        }
    }

    /// The sorts of the signal's parameters.
    pub fn sorts(self) -> &'static [Sort]
        ensures { result.now ≡ option_sorts self }
    {
        match self {
            OptionName::Deliver | OptionName::Counting => &[Sort::Boolean],
            OptionName::Odd => &[Sort::Integer],
            OptionName::Flush
            | OptionName::Continue
            | OptionName::Overload
            | OptionName::Cleared
            | OptionName::Clear => &[],
        }
    }
}
