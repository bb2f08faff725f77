//! A line, and indented lines below it.
ghost use Rattle.std.specs.Prelude.{◌≡◌, ◌++◌, true, All, OnOk};
ghost use Rattle.draw_sets.specs.Noting.{spaced, indented, IsBelow, IsInLine};

use draw_text::push_bytes;
use std::alloc::AllocError;

/// Appends a byte of a line, with four spaces before it if it begins the line.
fn push_spaced(text: &mut Vec<u8>, begins: bool, byte: u8) -> Result<(), AllocError>
    ensures { OnOk result (text.new.items ≡ text.old.items ++ spaced begins byte) }
{
    if begins {
        push_bytes(text, b"    ")?;
        text.push(byte)?;
        return Ok(());
    }
    text.push(byte)?;
    Ok(())
}

/// Appends lines to `text`, each with four spaces before it; the last one gets an end.
fn push_indented(text: &mut Vec<u8>, lines: &[u8]) -> Result<(), AllocError>
    ensures { OnOk result (text.new.items ≡ text.old.items ++ indented true lines.now) }
{
    let mut begins = true;
    for byte in lines {
        push_spaced(text, begins, *byte)?;
        begins = *byte == b'\n';
    }
    if begins {
        return Ok(());
    }
    text.push(b'\n')?;
    Ok(())
}

/// Appends a line, and notes below it.
pub(crate) fn push_below(text: &mut Vec<u8>, line: &[u8], notes: &[u8]) -> Result<(), AllocError>
    ensures { OnOk result (IsBelow text.old.items line.now text.new.items) }
{
    push_bytes(text, line)?;
    text.push(b'\n')?;
    push_indented(text, notes)?;
    Ok(())
}

/// Appends a byte to `text`, if it ends no line.
fn push_in_line(text: &mut Vec<u8>, byte: u8) -> Result<(), AllocError>
    ensures { OnOk result (All IsInLine text.old.items → All IsInLine text.new.items) }
{
    if byte != b'\n' {
        text.push(byte)?;
    }
    Ok(())
}

/// Appends the bytes of a name to `text`.
pub(crate) fn push_name(text: &mut Vec<u8>, name: &[u8]) -> Result<(), AllocError>
    ensures { OnOk result (All IsInLine text.old.items → All IsInLine text.new.items) }
{
    for byte in name {
        push_in_line(text, *byte)?;
    }
    Ok(())
}
