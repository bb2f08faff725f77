//! The lines for the transitions of two sets.
ghost use Rattle.std.specs.Prelude.{◌≡◌, ◌++◌, OnOk, IfOk};
ghost use Rattle.draw_diff.specs.Ways.{alone_line, cert_text, certs_text, count_text, counts_text, differs_line, input_title, start_title};

use crate::pieces::{push_bytes, push_trigger};
use std::alloc::{AllocError, Global};
use turn_code::{Cert, Draft, DraftInput, DraftPiece, DraftProcess, DraftState};

/// Appends a word and a count to `text`.
fn push_count(alloc: Global, text: &mut Vec<u8>, word: &[u8], count: u32) -> Result<(), AllocError>
    ensures { OnOk result (text.new.items ≡ text.old.items ++ count_text word.now count) }
{
    let digits = format!(in alloc; "{count}")?;
    push_bytes(text, word)?;
    push_bytes(text, digits.as_bytes())
}

/// Appends a word and a count to `text`, followed by the new count if it differs.
fn push_counts(
    alloc: Global,
    text: &mut Vec<u8>,
    word: &[u8],
    old: u32,
    new: u32,
) -> Result<(), AllocError>
    ensures { OnOk result (text.new.items ≡ text.old.items ++ counts_text word.now old new) }
{
    if old == new {
        return push_count(alloc, text, word, old);
    }
    push_count(alloc, text, word, old)?;
    push_count(alloc, text, b" -> ", new)
}

/// Appends a certificate to `text`.
fn push_cert(alloc: Global, text: &mut Vec<u8>, cert: Cert) -> Result<(), AllocError>
    ensures { OnOk result (text.new.items ≡ text.old.items ++ cert_text cert) }
{
    push_count(alloc, text, b" budget ", cert.budget)?;
    push_count(alloc, text, b" depth ", cert.depth)?;
    push_count(alloc, text, b" effects ", cert.effects)
}

/// Appends both certificates of a transition to `text`.
fn push_certs(alloc: Global, text: &mut Vec<u8>, old: Cert, new: Cert) -> Result<(), AllocError>
    ensures { OnOk result (text.new.items ≡ text.old.items ++ certs_text old new) }
{
    push_counts(alloc, text, b" budget ", old.budget, new.budget)?;
    push_counts(alloc, text, b" depth ", old.depth, new.depth)?;
    push_counts(alloc, text, b" effects ", old.effects, new.effects)
}

/// Appends the line of a transition that only one set has to `text`.
pub(crate) fn push_alone(
    alloc: Global,
    text: &mut Vec<u8>,
    sign: &[u8],
    title: &[u8],
    piece: &DraftPiece,
) -> Result<(), AllocError>
    ensures { OnOk result (text.new.items ≡ text.old.items ++ alone_line sign.now title.now piece.now) }
{
    push_bytes(text, sign)?;
    push_bytes(text, title)?;
    push_cert(alloc, text, piece.certificate)?;
    push_bytes(text, b"\n")
}

/// Appends the line of a transition whose code differs to `text`.
pub(crate) fn push_differs(
    alloc: Global,
    text: &mut Vec<u8>,
    title: &[u8],
    old: &DraftPiece,
    new: &DraftPiece,
) -> Result<(), AllocError>
    ensures { OnOk result (text.new.items ≡ text.old.items ++ differs_line title.now old.now new.now) }
{
    push_bytes(text, b"~ ")?;
    push_bytes(text, title)?;
    push_certs(alloc, text, old.certificate, new.certificate)?;
    push_bytes(text, b"\n")
}

/// Returns the title of a START.
pub(crate) fn start_title(alloc: Global, process: &DraftProcess) -> Result<Vec<u8>, AllocError>
    ensures { IfOk result (λ v. v.items ≡ start_title process.now) }
{
    let mut title = Vec::new(alloc);
    push_bytes(&mut title, process.name.as_bytes())?;
    push_bytes(&mut title, b" START")?;
    Ok(title)
}

/// Returns the title of an input of a state.
pub(crate) fn input_title(
    alloc: Global,
    draft: &Draft,
    process: &DraftProcess,
    state: &DraftState,
    input: &DraftInput,
) -> Result<Vec<u8>, AllocError>
    ensures { IfOk result (λ v. v.items ≡ input_title draft.now process.now state.now input.now) }
{
    let mut title = Vec::new(alloc);
    push_bytes(&mut title, process.name.as_bytes())?;
    push_bytes(&mut title, b" ")?;
    push_bytes(&mut title, state.name.as_bytes())?;
    push_bytes(&mut title, b"/")?;
    push_trigger(&mut title, draft, process, input.trigger)?;
    Ok(title)
}
