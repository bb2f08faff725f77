//! The next report of a line's end: the link statuses of a signal unit come before its message.
ghost use Rattle.std.specs.Prelude.{◌≡◌, ◌∷◌, None, Some};
ghost use Rattle.line_play.specs.InTurn.{IsTurn, behind, in_turn, turn_of, without_reports};

use link_transceiver::Report;
use script_ends::Terminal;

/// The report that is made now, and the message that is held after it.
#[derive(Drop)]
pub(crate) struct Turn {
    pub(crate) told: Report,
    pub(crate) held: Option<Report>,
}

/// The turn if a message is held and the terminal handed out `next` after it. A link status goes before the message.
fn turn_of(held: Report, next: Report) -> Turn
    ensures { result ≡ turn_of held next }
{
    match next {
        Report::Message(message) => Turn {
            told: held,
            held: Some(Report::Message(message)),
        },
        Report::Status(status) => Turn {
            told: Report::Status(status),
            held: Some(held),
        },
    }
}

/// The next turn if a message is held.
fn with_held(terminal: &mut Terminal, held: Report) -> Turn
    ensures turn { in_turn (Some held) terminal.old.processes.transceiver ≡ result.told ∷ in_turn result.held terminal.new.processes.transceiver }
    ensures same { without_reports terminal.new ≡ without_reports terminal.old }
{
    match terminal.report() {
        Some(next) => turn_of(held, next),
        None => Turn {
            told: held,
            held: None,
        },
    }
}

/// The next turn if nothing is held and the terminal handed out this report.
fn with_first(terminal: &mut Terminal, first: Report) -> Turn
    ensures turn { behind first terminal.old.processes.transceiver ≡ result.told ∷ in_turn result.held terminal.new.processes.transceiver }
    ensures same { without_reports terminal.new ≡ without_reports terminal.old }
{
    match first {
        Report::Message(message) => with_held(terminal, Report::Message(message)),
        Report::Status(status) => Turn {
            told: Report::Status(status),
            held: None,
        },
    }
}

/// The next turn if nothing is held; none if there is no report.
fn without_held(terminal: &mut Terminal) -> Option<Turn>
    ensures turn { IsTurn result (in_turn None terminal.old.processes.transceiver) terminal.new.processes.transceiver }
    ensures same { without_reports terminal.new ≡ without_reports terminal.old }
{
    match terminal.report() {
        Some(first) => Some(with_first(terminal, first)),
        None => None,
    }
}

/// The next turn, from the held message and the reports of the terminal; none if there is no report.
pub(crate) fn next_turn(terminal: &mut Terminal, held: Option<Report>) -> Option<Turn>
    ensures turn { IsTurn result (in_turn held terminal.old.processes.transceiver) terminal.new.processes.transceiver }
    ensures same { without_reports terminal.new ≡ without_reports terminal.old }
{
    match held {
        Some(held) => Some(with_held(terminal, held)),
        None => without_held(terminal),
    }
}
