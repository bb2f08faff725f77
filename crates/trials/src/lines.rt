//! Runs: messages in both directions over a line with noise.

use crate::calls::Stopped;
use crate::end::End;
use crate::noise::Noise;
use crate::pair::{Pair, try_pair};
use crate::run::{Run, run_of};
use crate::shown::write_run;
use std::alloc::Global;

/// The greatest number of rounds of a run.
const MOST_ROUNDS: u32 = 5_000;

/// The number of ticks of a round while the link comes up: proving is 10 rounds, with few units.
const ALIGNING: u64 = 900;

/// Sends this many units from one end to the other.
fn carry(from: &mut End, to: &mut End, noise: &mut Noise, units: u32) -> Result<(), Stopped> {
    for _ in 0..units {
        let octets = from.speak()?;
        to.listen(octets.as_slice(), noise)?;
    }
    Ok(())
}

impl Pair {
    /// Whether all messages came.
    fn is_done(&self, run: &Run) -> bool {
        self.near.figures.came >= run.messages && self.far.figures.came >= run.messages
    }

    /// The number of ticks of a round: in service 2 for each unit.
    fn ticks(&self, run: &Run) -> u64 {
        if self.near.terminal.in_service() && self.far.terminal.in_service() {
            u64::from(run.units) * 2
        } else {
            ALIGNING
        }
    }

    /// Lets the ticks of a round pass.
    fn wait(&mut self, run: &Run) -> Result<(), Stopped> {
        let ticks = self.ticks(run);
        self.near.wait(ticks)?;
        self.far.wait(ticks)
    }

    /// One round: new messages, units one way, units the other way, and their time.
    fn round(&mut self, run: &Run, noise: &mut Noise) -> Result<(), Stopped> {
        self.near.give(run.given, run.messages);
        self.far.give(run.given, run.messages);
        carry(&mut self.near, &mut self.far, noise, run.units)?;
        carry(&mut self.far, &mut self.near, noise, run.units)?;
        self.wait(run)
    }

    /// Makes rounds until all messages came or there were too many.
    fn make(&mut self, run: &Run, noise: &mut Noise) -> Result<(), Stopped> {
        self.near.start()?;
        self.far.start()?;
        for _ in 0..MOST_ROUNDS {
            if self.is_done(run) {
                break;
            }
            self.round(run, noise)?;
        }
        Ok(())
    }
}

/// Makes a run, and writes its results.
pub fn make_run(text: &mut String, pair: &mut Pair, run: &Run) -> Result<(), Stopped> {
    let mut noise = Noise::new(u64::from(run.seed), u64::from(run.rate));
    pair.make(run, &mut noise)?;
    write_run(
        text,
        run,
        noise.damaged,
        &pair.near.figures,
        &pair.far.figures,
    )?;
    Ok(())
}

/// Makes the run of a line, and writes its results.
fn make_line(alloc: Global, text: &mut String, line: &str) -> Result<(), Stopped> {
    match run_of(line) {
        Some(run) => try_pair(alloc, text, run.mode, Some(run), ""),
        None => Err(Stopped::BadLine),
    }
}

/// Makes runs, and writes the results of each.
pub fn make_runs(alloc: Global, text: &mut String, runs: &str) -> Result<(), Stopped> {
    for line in runs.lines() {
        make_line(alloc, text, line)?;
    }
    Ok(())
}
