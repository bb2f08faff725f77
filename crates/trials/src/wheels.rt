//! Calls of a wheel compared with those of a table of deadlines that is searched in full.

pub mod table;
mod trial;

use crate::calls::Stopped;
use crate::run::number;
use crate::wheels::trial::{Findings, first_other};
use std::alloc::Global;

/// Writes the findings of this many calls by a seed.
fn write_findings(
    text: &mut String,
    seed: u32,
    calls: u32,
    findings: Findings,
) -> Result<(), Stopped> {
    let Findings { other, due, looked } = findings;
    match other {
        None => writeln!(
            text,
            "seed {seed}: {calls} calls, {due} due, {looked} looked at, always the same"
        )?,
        Some(call) => writeln!(text, "seed {seed}: WRONG at call {call}")?,
    }
    Ok(())
}

/// Makes the calls of a line: a seed, and their number.
fn make_line(alloc: Global, text: &mut String, line: &str) -> Result<(), Stopped> {
    let mut words = line.split_whitespace();
    let (Some(seed), Some(calls)) = (number(&mut words), number(&mut words)) else {
        return Err(Stopped::BadLine);
    };
    let findings = first_other(alloc, u64::from(seed), u64::from(calls))?;
    write_findings(text, seed, calls, findings)
}

/// Makes the calls of each line, and writes the findings.
pub fn make_wheels(alloc: Global, text: &mut String, trial: &str) -> Result<(), Stopped> {
    for line in trial.lines() {
        make_line(alloc, text, line)?;
    }
    Ok(())
}
