//! Counts the transitions of a set, and the lines of a text.
ghost use Rattle.std.specs.Prelude.{◌≡◌, ◌==◌, ◌++◌, IfOk, OnOk, codes, count_by};
ghost use Rattle.std.specs.List.{flat_map};
ghost use Rattle.draw_diff.specs.Ways.{alone_process, lines_in, ways_in};

use crate::alone::push_alone_process;
use std::alloc::{AllocError, Global};
use turn_code::{Draft, DraftProcess};

/// Returns the number of line feeds in a text.
pub fn lines_in(text: &[u8]) -> usize
    ensures { result ≡ lines_in text.now }
{
    text.iter().filter(|byte| **byte == b'\n').count()
}

/// Appends the lines of all transitions of some processes to `text`.
fn push_all(
    alloc: Global,
    text: &mut Vec<u8>,
    draft: &Draft,
    processes: &[DraftProcess],
) -> Result<(), AllocError>
    ensures { OnOk result (text.new.items ≡ text.old.items ++ flat_map (alone_process (codes "") draft.now) processes.now) }
{
    for process in processes {
        push_alone_process(alloc, text, b"", draft, process)?;
    }
    Ok(())
}

/// Returns the number of transitions of a set: each has a line.
///
/// # Errors
///
/// Out of memory.
pub fn ways_in(alloc: Global, draft: &Draft) -> Result<usize, AllocError>
    ensures { IfOk result (λ n. n ≡ ways_in draft.now) }
{
    let mut text = Vec::new(alloc);
    push_all(alloc, &mut text, draft, draft.processes.as_slice())?;
    Ok(lines_in(&text))
}
