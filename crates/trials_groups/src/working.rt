//! Runs of two sets.

use crate::calls::Stopped;
use crate::messages::Way;
use crate::opening::open_set;
use crate::pair::make_rounds;
use crate::run::{Run, run_of};
use crate::schedule::Schedule;
use crate::set_end::{MOST_MAIL, SetEnd};
use crate::shown::write_run;
use std::alloc::Global;
use std::collections::VecDeque;
use turn_check::Verified;

/// The points at the two ends.
const NEAR: u16 = 1;

const FAR: u16 = 16_383;

/// An end with a new set of a run.
fn open_end(alloc: Global, set: &Verified, run: Run, way: Way) -> Result<SetEnd, Stopped> {
    let mail = VecDeque::with_capacity(alloc, MOST_MAIL)?;
    let late = VecDeque::with_capacity(alloc, MOST_MAIL)?;
    let group = open_set(alloc, set, run.mode, run.links, way)?;
    Ok(SetEnd::new(group, way, mail, late))
}

/// Makes a run, and writes its result.
fn make_run(
    text: &mut String,
    near: &mut SetEnd,
    far: &mut SetEnd,
    run: Run,
) -> Result<(), Stopped> {
    let mut schedule = Schedule::new(run.lost, run.late);
    make_rounds(&mut schedule, near, far, run)?;
    write_run(text, run, &schedule, near, far)?;
    Ok(())
}

/// Makes a run with one end; the other is new.
fn run_with(
    alloc: Global,
    text: &mut String,
    set: &Verified,
    near: &mut SetEnd,
    run: Run,
) -> Result<(), Stopped> {
    let way = Way {
        from: FAR,
        to: NEAR,
    };
    let mut far = open_end(alloc, set, run, way)?;
    make_run(text, near, &mut far, run)
}

/// Makes the run of a line with two new sets.
fn run_line(alloc: Global, text: &mut String, set: &Verified, line: &str) -> Result<(), Stopped> {
    let Some(run) = run_of(line) else {
        return Err(Stopped::BadLine);
    };
    let way = Way {
        from: NEAR,
        to: FAR,
    };
    let mut near = open_end(alloc, set, run, way)?;
    run_with(alloc, text, set, &mut near, run)
}

/// Makes the run of each line, and writes its result: `basic` or `cyclic`, the links, the seed, the messages for each
/// end, and one in how many changeover messages is lost (0: none). `late` repeats changeover messages and fails links
/// in pairs.
///
/// # Errors
///
/// If memory runs out, a line isn't a run, or a terminal isn't made over the set or refuses a command.
pub fn run_sets(
    alloc: Global,
    text: &mut String,
    set: &Verified,
    runs: &str,
) -> Result<(), Stopped> {
    for line in runs.lines() {
        run_line(alloc, text, set, line)?;
    }
    Ok(())
}
