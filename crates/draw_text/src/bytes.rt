//! Functions that append bytes to a text.
ghost use Rattle.std.specs.Prelude.{◌≡◌, ◌++◌, OnOk};
ghost use Rattle.std.specs.Fmt.{decimal, signed_decimal};
ghost use Rattle.draw_text.specs.Escapes.{entity, escaped};

use std::alloc::{AllocError, Global};

/// Appends bytes to `text`.
pub fn push_bytes(text: &mut Vec<u8>, bytes: &[u8]) -> Result<(), AllocError>
    ensures { OnOk result (text.new.items ≡ text.old.items ++ bytes.now) }
{
    text.extend_from_slice(bytes)
}

/// Appends a number in decimal digits to `text`.
pub fn push_number(alloc: Global, text: &mut Vec<u8>, number: u32) -> Result<(), AllocError>
    ensures { OnOk result (text.new.items ≡ text.old.items ++ decimal number) }
{
    let digits = format!(in alloc; "{number}")?;
    push_bytes(text, digits.as_bytes())
}

/// Appends a number in decimal digits, with its sign, to `text`.
pub(crate) fn push_integer(alloc: Global, text: &mut Vec<u8>, number: i32) -> Result<(), AllocError>
    ensures { OnOk result (text.new.items ≡ text.old.items ++ signed_decimal number) }
{
    let digits = format!(in alloc; "{number}")?;
    push_bytes(text, digits.as_bytes())
}

/// Appends a byte to `text`; `&`, `<`, `>` and `"` as entities.
pub fn push_entity(text: &mut Vec<u8>, byte: u8) -> Result<(), AllocError>
    ensures { OnOk result (text.new.items ≡ text.old.items ++ entity byte) }
{
    match byte {
        b'&' => push_bytes(text, b"&amp;"),
        b'<' => push_bytes(text, b"&lt;"),
        b'>' => push_bytes(text, b"&gt;"),
        b'"' => push_bytes(text, b"&quot;"),
        _ => push_bytes(text, &[byte]),
    }
}

/// Appends bytes to `text`; `&`, `<`, `>` and `"` as entities.
pub fn push_escaped(text: &mut Vec<u8>, bytes: &[u8]) -> Result<(), AllocError>
    ensures { OnOk result (text.new.items ≡ text.old.items ++ escaped bytes.now) }
{
    for byte in bytes {
        push_entity(text, *byte)?;
    }
    Ok(())
}
