//! Events and rebases on a link of a text, through [`run_text`].

mod read;
mod told;

use crate::calls::Stopped;
use crate::events::read::{limits_of, steps_of};
use crate::events::told::write_answers;
use crate::texts::text_of;
use link_whole::{LoadFault, run_text};
use std::alloc::Global;

/// Writes why a text is refused.
fn write_fault(text: &mut String, fault: LoadFault) -> Result<(), Stopped> {
    match fault {
        LoadFault::NoMemory => Err(Stopped::NoMemory),
        fault => {
            writeln!(text, "refused {fault}")?;
            Ok(())
        }
    }
}

/// Makes the steps of a trial on a link of a text, and writes the answers to its events. A line `rebase` is a rebase.
fn run(alloc: Global, text: &mut String, steps: &str, source: &str) -> Result<(), Stopped> {
    let Some((first, lines)) = steps.split_once('\n') else {
        return Err(Stopped::BadLine);
    };
    let Some(limits) = limits_of(first) else {
        return Err(Stopped::BadLine);
    };
    let steps = steps_of(alloc, lines)?;
    match run_text(alloc, source, limits, &steps) {
        Ok(ran) => {
            write_answers(alloc, text, &steps, &ran.replies)?;
            Ok(())
        }
        Err(fault) => write_fault(text, fault),
    }
}

/// Makes the trial of a text, or of `standard`.
pub fn run_all(alloc: Global, text: &mut String, trial: &str) -> Result<(), Stopped> {
    match trial.split_once("\ntext\n") {
        Some((steps, source)) => run(alloc, text, steps, text_of(source)),
        None => Err(Stopped::BadLine),
    }
}
