//! Steps as they are written: `near COMMAND` and `far COMMAND` give an end a command (`power_on`, `start`, `stop`,
//! `outage`, `back`). `near_sends N`, `far_sends N`: it gets a message with a field of N octets. In an `exchange` units
//! go to the far end and then come from there; `lose` loses those to the far end. `ones N`: the near end gets N octets
//! of 1s; `wait N`: N milliseconds at both. `units N` sends N units at once at the near end and shows the number of
//! line octets; `show` shows its reports. If the first line is `cyclic`, both ends use preventive cyclic
//! retransmission.

use link_processes::Command;

/// A step with the two ends.
#[derive(Clone, Copy)]
pub enum Step {
    /// The near end gets a command.
    Near(Command),
    /// The far end gets a command.
    Far(Command),
    /// The near end gets a message of this many octets to send.
    NearSends(u16),
    /// The far end gets a message of this many octets to send.
    FarSends(u16),
    /// Units go to the far end, and then units come from there.
    Exchange,
    /// Units to the far end are lost.
    Lose,
    /// The near end gets this many octets of 1s.
    Ones(u16),
    /// The near end sends this many units at once.
    Units(u16),
    /// This many milliseconds pass at both ends.
    Wait(u16),
    /// The near end shows all its reports.
    Show,
}

/// The command of a word.
fn command_of(word: &str) -> Option<Command> {
    match word {
        "power_on" => Some(Command::PowerOn),
        "start" => Some(Command::Start),
        "stop" => Some(Command::Stop),
        "outage" => Some(Command::Outage),
        "back" => Some(Command::Back),
        _ => None,
    }
}

/// A step that gives an end a command.
fn told(word: &str, command: Command) -> Option<Step> {
    match word {
        "near" => Some(Step::Near(command)),
        "far" => Some(Step::Far(command)),
        _ => None,
    }
}

/// A step with a number.
fn counted(word: &str, number: u16) -> Option<Step> {
    match word {
        "near_sends" => Some(Step::NearSends(number)),
        "far_sends" => Some(Step::FarSends(number)),
        "ones" => Some(Step::Ones(number)),
        "units" => Some(Step::Units(number)),
        "wait" => Some(Step::Wait(number)),
        _ => None,
    }
}

/// A step of two words.
fn pair_of(word: &str, rest: &str) -> Option<Step> {
    match command_of(rest) {
        Some(command) => told(word, command),
        None => match rest.parse::<u16>() {
            Ok(number) => counted(word, number),
            Err(_) => None,
        },
    }
}

/// The step of a line, if it is one.
pub fn step_of(line: &str) -> Option<Step> {
    match line {
        "exchange" => Some(Step::Exchange),
        "lose" => Some(Step::Lose),
        "show" => Some(Step::Show),
        _ => match line.split_once(' ') {
            Some((word, rest)) => pair_of(word, rest),
            None => None,
        },
    }
}
