//! A signalling link terminal at the end of a line.
ghost use Rattle.std.specs.Prelude.{◌≡◌, IfOk, OnOk, option_map, string_bytes};
ghost use Rattle.script_lines.specs.Lines.{texts};
ghost use Rattle.script_links.specs.TermCommands.{plain_term_command};
ghost use Rattle.line_play.specs.Commands.{line_command_of};
ghost use Rattle.script_lines.specs.Words.{words_of};
ghost use Rattle.line_play.specs.InTurn.{HandsOut, Tells};
ghost use Rattle.line_play.specs.LinkActs.{Hears, Passes, ObeysOne, ObeysBy, asks_all, AreListed, Lists, ObeysWords};
ghost use Rattle.line_play.specs.Lines.{end_acts};

use crate::link::measured::measured_lines;
use crate::link::orders::{is_question, line_command};
use crate::link::texts::{answer_of, bad_line};
use crate::link::turns::{Turn, next_turn};
use line_filter::{Answer, LineTerminal};
use link_transceiver::Report;
use script_ends::{Terminal, answer, report_text};
use script_lines::words_in;
use script_links::TermCommand;
use std::alloc::Global;
use std::io::{self, ErrorKind};
use su_octets::Unit;

/// A signalling link terminal at the end of a line.
#[derive(Drop)]
pub struct LinkEnd {
    /// The terminal.
    pub terminal: Terminal,
    /// A message that the terminal handed out; it is reported after the link statuses of its signal unit.
    pub held: Option<Report>,
}

/// Receives an octet of the line. If no report waits, this fails only when memory runs out. Then the buffers are
/// cleared if the text required it.
fn hear(terminal: &mut Terminal, octet: u8) -> io::Result<()>
    ensures { OnOk result (Hears terminal.old octet terminal.new) }
{
    if terminal.line_in(&[octet]) == 1 {
        let _cleared = terminal.obey_clear();
        Ok(())
    } else {
        Err(io::Error::from(ErrorKind::OutOfMemory))
    }
}

/// Lets a millisecond pass. Then the buffers are cleared if the text required it.
#[tactic(auto, unfolding(crate::specs::LinkActs::after_tick))]
fn pass(terminal: &mut Terminal) -> io::Result<()>
    ensures { OnOk result (Passes terminal.old terminal.new) }
{
    match terminal.tick(1) {
        Ok(_) => {
            let _cleared = terminal.obey_clear();
            Ok(())
        }
        Err(_) => Err(io::Error::from(ErrorKind::OutOfMemory)),
    }
}

/// Takes the next report: the link statuses of a signal unit come before its message.
fn next_report(end: &mut LinkEnd) -> Option<Report>
    ensures { HandsOut end.old result end.new }
{
    let held = end.held.take();
    match next_turn(&mut end.terminal, held) {
        Some(turn) => {
            let Turn { told, held } = turn;
            end.held = held;
            Some(told)
        }
        None => None,
    }
}

/// Returns the line of the next report.
fn hand_out(alloc: Global, end: &mut LinkEnd) -> io::Result<Option<String>>
    ensures { IfOk result (λ text. Tells end.old (option_map string_bytes text) end.new) }
{
    match next_report(end) {
        Some(report) => {
            let text = report_text(alloc, &report)?;
            Ok(Some(text))
        }
        None => Ok(None),
    }
}

/// Obeys a command.
fn obey_command(
    alloc: Global,
    terminal: &mut Terminal,
    order: &str,
    command: &TermCommand<'_>,
) -> io::Result<Answer>
    ensures { IfOk result (λ a. ObeysOne (plain_term_command command.now) terminal.old order.now a terminal.new) }
{
    let line = answer(alloc, terminal, command, true)?;
    answer_of(alloc, is_question(command), order, &line)
}

/// Obeys the words of an order other than `measure`.
fn obey_one(
    alloc: Global,
    terminal: &mut Terminal,
    order: &str,
    words: &[&str],
) -> io::Result<Answer>
    ensures { IfOk result (λ a. ObeysBy (line_command_of (texts words.now)) terminal.old order.now a terminal.new) }
{
    match line_command(alloc, words)? {
        Some(command) => obey_command(alloc, terminal, order, &command),
        None => Ok(bad_line(alloc)?),
    }
}

/// Whether the words request all measurements.
fn asks_all(words: &[&str]) -> bool
    ensures { result ≡ asks_all (texts words.now) }
{
    match words {
        [word] => *word == "measure",
        _ => false,
    }
}

/// Obeys the words of an order.
fn obey_words(
    alloc: Global,
    terminal: &mut Terminal,
    order: &str,
    words: &[&str],
) -> io::Result<Answer>
    ensures { IfOk result (λ a. ObeysWords (asks_all (texts words.now)) (texts words.now) terminal.old order.now a terminal.new) }
{
    if asks_all(words) {
        let lines = measured_lines(alloc, terminal)?;
        return Ok(Answer::Listed(lines));
    }
    obey_one(alloc, terminal, order, words)
}

/// Obeys an order.
fn obey_order(alloc: Global, terminal: &mut Terminal, order: &str) -> io::Result<Answer>
    ensures { IfOk result (λ a. ObeysWords (asks_all (words_of order.now)) (words_of order.now) terminal.old order.now a terminal.new) }
{
    let words = words_in(alloc, order)?;
    obey_words(alloc, terminal, order, &words)
}

impl LineTerminal for LinkEnd {
    ghost acts = { end_acts };

    fn unit_out(&mut self) -> io::Result<Option<Unit>> {
        let unit = self.terminal.unit_out()?;
        let _cleared = self.terminal.obey_clear();
        Ok(unit)
    }

    fn line_in(&mut self, octet: u8) -> io::Result<()> {
        hear(&mut self.terminal, octet)
    }

    fn tick(&mut self) -> io::Result<()> {
        pass(&mut self.terminal)
    }

    fn report(&mut self, alloc: Global) -> io::Result<Option<String>> {
        hand_out(alloc, self)
    }

    fn obey(&mut self, alloc: Global, order: &str) -> io::Result<Answer> {
        obey_order(alloc, &mut self.terminal, order)
    }
}
