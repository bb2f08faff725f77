//! The orders that end a run.
ghost use Rattle.std.specs.Prelude.{◌≡◌, IfOk};
ghost use Rattle.script_lines.specs.Lines.{texts};
ghost use Rattle.script_lines.specs.Words.{words_of};
ghost use Rattle.line_filter.specs.Says.{is_end, ends_run};

use crate::says::is_tag;
use script_lines::words_in;
use std::alloc::{AllocError, Global};

/// Whether these words are `quit`, `leave` or `leave SECONDS`.
fn is_end(words: &[&str]) -> bool
    ensures { result ≡ is_end (texts words.now) }
{
    match words {
        [word] => *word == "quit" || *word == "leave",
        [word, _] => *word == "leave",
        _ => false,
    }
}

/// Whether an order, with or without a tag, ends a run.
///
/// # Errors
///
/// If memory runs out.
pub fn ends_run(alloc: Global, order: &str) -> Result<bool, AllocError>
    ensures { IfOk result (λ ends. ends ≡ ends_run (words_of order.now)) }
{
    let words = words_in(alloc, order)?;
    match words.as_slice() {
        [first, more @ ..] if is_tag(first) => Ok(is_end(more)),
        all => Ok(is_end(all)),
    }
}
