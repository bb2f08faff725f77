//! Steps on two ends over a line without damage, and the reports of the near end.

use crate::calls::{Stopped, hear, next_report, pass, put, speak, tell};
use crate::message::message_of;
use crate::pair::{Pair, try_pair};
use crate::steps::{Step, step_of};
use link_transceiver::{LinkStatus, Report};
use link_whole::Terminal;
use resend_store::Mode;
use std::alloc::{AllocError, Global};

/// The number of units each way in an exchange, so that some of them are whole on the line.
const UNITS: usize = 3;

/// The octets of a message after its first two.
const FILLER: [u8; 270] = [0x5A; 270];

/// Gives a terminal a message of this many octets to send.
fn send(terminal: &mut Terminal, octets: u16) -> Result<(), Stopped> {
    if put(terminal, message_of((octets % 256) as u8, octets, &FILLER)) {
        Ok(())
    } else {
        Err(Stopped::Refused)
    }
}

/// Sends units from one terminal to the other.
fn carry(from: &mut Terminal, to: &mut Terminal) -> Result<(), Stopped> {
    let octets = speak(from, UNITS)?;
    if hear(to, octets.as_slice()) {
        Ok(())
    } else {
        Err(Stopped::NoMemory)
    }
}

/// Gives a terminal this many octets of 1s.
fn hear_ones(terminal: &mut Terminal, octets: u16) -> Result<(), Stopped> {
    for _ in 0..octets {
        if !hear(terminal, &[0xFF]) {
            return Err(Stopped::NoMemory);
        }
    }
    Ok(())
}

/// Writes a status of the link.
fn write_status(text: &mut String, status: LinkStatus) -> Result<(), AllocError> {
    match status {
        LinkStatus::InService => text.push_str("  in service\n"),
        LinkStatus::Down(reason) => writeln!(text, "  down {reason}"),
        LinkStatus::RemoteOut => text.push_str("  remote out\n"),
        LinkStatus::RemoteBack => text.push_str("  remote back\n"),
        LinkStatus::Cleared => text.push_str("  cleared\n"),
    }
}

/// Writes a report.
fn write_report(text: &mut String, report: Report) -> Result<(), AllocError> {
    match report {
        Report::Message(msu) => writeln!(text, "  message {}", msu.sif.len()),
        Report::Status(status) => write_status(text, status),
    }
}

/// Writes all reports of a terminal, followed by a line.
fn write_reports(text: &mut String, terminal: &mut Terminal) -> Result<(), Stopped> {
    for _ in 0..1000u32 {
        match next_report(terminal) {
            Some(report) => write_report(text, report)?,
            None => break,
        }
    }
    text.push_str("  -\n")?;
    Ok(())
}

/// Lets a terminal send this many units at once, and writes the number of their line octets.
fn write_octets(text: &mut String, terminal: &mut Terminal, units: u16) -> Result<(), Stopped> {
    let octets = speak(terminal, usize::from(units))?;
    writeln!(text, "  octets {}", octets.len())?;
    Ok(())
}

impl Pair {
    /// Sends units to the far end, and then units from there.
    fn exchange(&mut self) -> Result<(), Stopped> {
        carry(&mut self.near.terminal, &mut self.far.terminal)?;
        carry(&mut self.far.terminal, &mut self.near.terminal)
    }

    /// Lets milliseconds pass at both ends.
    fn pass(&mut self, ticks: u16) -> Result<(), Stopped> {
        pass(&mut self.near.terminal, u64::from(ticks))?;
        pass(&mut self.far.terminal, u64::from(ticks))
    }

    /// Loses the units to the far end.
    fn lose(&mut self) -> Result<(), Stopped> {
        let _lost = speak(&mut self.near.terminal, UNITS)?;
        Ok(())
    }

    /// Does a step, and writes its results.
    fn perform(&mut self, text: &mut String, step: Step) -> Result<(), Stopped> {
        match step {
            Step::Near(command) => tell(&mut self.near.terminal, command),
            Step::Far(command) => tell(&mut self.far.terminal, command),
            Step::NearSends(octets) => send(&mut self.near.terminal, octets),
            Step::FarSends(octets) => send(&mut self.far.terminal, octets),
            Step::Exchange => self.exchange(),
            Step::Lose => self.lose(),
            Step::Ones(octets) => hear_ones(&mut self.near.terminal, octets),
            Step::Units(units) => write_octets(text, &mut self.near.terminal, units),
            Step::Wait(ticks) => self.pass(ticks),
            Step::Show => write_reports(text, &mut self.near.terminal),
        }
    }
}

/// Does the steps of all lines.
pub fn do_steps(text: &mut String, pair: &mut Pair, steps: &str) -> Result<(), Stopped> {
    for line in steps.lines() {
        match step_of(line) {
            Some(step) => pair.perform(text, step)?,
            None => return Err(Stopped::BadLine),
        }
    }
    Ok(())
}

/// The error correction of both ends, and the steps: cyclic if the first line says so.
fn parts(trial: &str) -> (Mode, &str) {
    match trial.strip_prefix("cyclic\n") {
        Some(steps) => (Mode::Cyclic, steps),
        None => (Mode::Basic, trial),
    }
}

/// Does the steps of a trial with two new ends, and writes the results.
pub fn report_all(alloc: Global, text: &mut String, trial: &str) -> Result<(), Stopped> {
    let (mode, steps) = parts(trial);
    try_pair(alloc, text, mode, None, steps)
}
