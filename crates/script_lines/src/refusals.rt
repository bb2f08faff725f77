//! Refusals as printed lines.
ghost use Rattle.std.specs.Prelude.{◌≡◌, IfOk};
ghost use Rattle.script_lines.specs.Refused.{refused_text};

use actor_machine::Refusal;
use std::alloc::{AllocError, Global};

/// `refused CODE Name`: the line for a call that the link refused, so that nothing changed.
pub fn refused_line(alloc: Global, refusal: Refusal) -> Result<Vec<u8>, AllocError>
    ensures { IfOk result (λ v. v.items ≡ refused_text refusal) }
{
    let mut line = Vec::from_slice(alloc, b"refused ")?;
    line.extend_from_slice(refusal.name().as_bytes())?;
    Ok(line)
}
