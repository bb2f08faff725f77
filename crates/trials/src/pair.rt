//! Two ends whose lines are tied together.

use crate::calls::Stopped;
use crate::end::End;
use crate::lines::make_run;
use crate::reports::do_steps;
use crate::run::Run;
use resend_store::Mode;
use std::alloc::Global;

/// Both ends.
#[derive(Drop)]
pub struct Pair {
    pub near: End,
    pub far: End,
}

impl Pair {
    /// Two new ends with the same error correction.
    fn new(alloc: Global, mode: Mode) -> Result<Pair, Stopped> {
        let near = End::new(alloc, mode)?;
        let far = End::new(alloc, mode)?;
        Ok(Pair { near, far })
    }
}

/// Makes a run with two ends, or does steps if there is no run, and writes the results.
fn work(text: &mut String, pair: &mut Pair, run: Option<Run>, steps: &str) -> Result<(), Stopped> {
    match run {
        Some(run) => make_run(text, pair, &run),
        None => do_steps(text, pair, steps),
    }
}

/// Makes a run with two new ends, or does steps if there is no run, and writes the results. Only this function owns
/// ends, and it does no more, since each place that may drop them is expensive to prove.
pub fn try_pair(
    alloc: Global,
    text: &mut String,
    mode: Mode,
    run: Option<Run>,
    steps: &str,
) -> Result<(), Stopped> {
    let mut pair = Pair::new(alloc, mode)?;
    work(text, &mut pair, run, steps)
}
