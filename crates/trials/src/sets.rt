//! Link sets over the program's own set of processes.

use crate::calls::Stopped;
use mtp2_text::{q703, standard};
use std::alloc::Global;
use trials_groups::{Stopped as SetStopped, make_calls, run_script, run_sets, run_tended};
use turn_check::Verified;

/// Why a trial of sets stopped.
pub fn why_stopped(stopped: SetStopped) -> Stopped {
    match stopped {
        SetStopped::NoMemory => Stopped::NoMemory,
        SetStopped::Refused => Stopped::Refused,
        SetStopped::BadLine => Stopped::BadLine,
    }
}

/// The processes.
pub fn standard_set(alloc: Global) -> Result<Verified, Stopped> {
    match standard(alloc) {
        Ok(set) => Ok(set),
        Err(_) => Err(Stopped::NoMemory),
    }
}

/// Makes runs of two sets back to back, and writes the results of each.
pub fn make_sets(alloc: Global, text: &mut String, runs: &str) -> Result<(), Stopped> {
    let set = standard_set(alloc)?;
    run_sets(alloc, text, &set, runs).map_err(why_stopped)
}

/// The processes of `q703`.
fn q703_set(alloc: Global) -> Result<Verified, Stopped> {
    match q703(alloc) {
        Ok(set) => Ok(set),
        Err(_) => Err(Stopped::NoMemory),
    }
}

/// The processes of a run.
fn set_of(alloc: Global, run: &str) -> Result<Verified, Stopped> {
    for word in run.split_whitespace() {
        if word == "q703" {
            return q703_set(alloc);
        }
    }
    standard_set(alloc)
}

/// Makes runs of two sets that tend themselves, over `q703` or `standard` as a run says, and writes the results.
pub fn make_tended(alloc: Global, text: &mut String, runs: &str) -> Result<(), Stopped> {
    for run in runs.lines() {
        let set = set_of(alloc, run)?;
        run_tended(alloc, text, &set, run).map_err(why_stopped)?;
    }
    Ok(())
}

/// Follows a script of two sets, and writes the reports of both.
pub fn make_script(alloc: Global, text: &mut String, script: &str) -> Result<(), Stopped> {
    let set = standard_set(alloc)?;
    run_script(alloc, text, &set, script).map_err(why_stopped)
}

/// Makes each public call of a set, and writes its answer.
pub fn call_each(alloc: Global, text: &mut String) -> Result<(), Stopped> {
    let set = standard_set(alloc)?;
    make_calls(alloc, text, &set).map_err(why_stopped)
}
