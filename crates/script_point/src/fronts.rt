//! Lines with a name before each.
ghost use Rattle.std.specs.Prelude.{◌≡◌, ◌==◌, ◌++◌, true, IfOk, OnOk};
ghost use Rattle.script_point.specs.Fronts.{fronted, in_front};

use std::alloc::{AllocError, Global};

/// Adds a byte of a line, with the name before it if the line begins there.
fn push_fronted(out: &mut Vec<u8>, name: &str, begins: bool, byte: u8) -> Result<(), AllocError>
    ensures { OnOk result (out.new.items ≡ out.old.items ++ fronted name.now begins byte) }
{
    if !begins {
        out.push(byte)?;
        return Ok(());
    }
    out.extend_from_slice(name.as_bytes())?;
    out.extend_from_slice(b": ")?;
    out.push(byte)?;
    Ok(())
}

/// The lines with a name and a colon before each.
#[tactic(auto, using(crate::proofs::Fronting::fronted_more))]
pub fn in_front(alloc: Global, name: &str, lines: &[u8]) -> Result<Vec<u8>, AllocError>
    ensures { IfOk result (λ v. v.items ≡ in_front name.now true lines.now) }
{
    let mut out = Vec::new(alloc);
    let mut begins = true;
    for byte in lines {
        push_fronted(&mut out, name, begins, *byte)?;
        begins = *byte == b'\n';
    }
    Ok(out)
}
