//! The spelling of options.
ghost use Rattle.std.specs.Prelude.{◌≡◌, string_bytes, IfOk};
ghost use Rattle.mtp2_words.specs.Words.{respelled};

use std::alloc::{AllocError, Global};

/// A word of the command line as `read` takes it: `--warn=error` is the option `--warn-error`.
///
/// # Errors
///
/// When memory runs out.
pub fn respelled(alloc: Global, word: String) -> Result<String, AllocError>
    ensures { IfOk result (λ s. string_bytes s ≡ respelled (string_bytes word)) }
{
    if word.as_str() == "--warn=error" {
        let mut other = String::new(alloc);
        other.push_str("--warn-error")?;
        return Ok(other);
    }
    Ok(word)
}
