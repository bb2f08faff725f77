//! Names as they are declared.
ghost use Rattle.std.specs.Prelude.{◌≡◌, ◌++◌, OnOk};
ghost use Rattle.std.specs.List.{flat_map};
ghost use Rattle.draw_text.specs.Written.{spelled, names_text};

use crate::bytes::push_bytes;
use sdl_ast::{Identifier, Name};
use sdl_tables::{BlockTable, NameTable, ProcessTable};
use std::alloc::AllocError;

/// The tables that resolve the names in a process: those of the process and those of its block.
#[derive(Clone, Copy)]
pub struct Names<'a, 'b> {
    /// The block.
    pub block: &'a BlockTable<'b>,
    /// The process.
    pub process: &'a ProcessTable<'b>,
}

/// Returns a name as it is declared among `names`; if none of them is this name, as it is written.
#[tactic(auto, unfolding(crate::specs::Written::spelled))]
pub fn spelled(names: &NameTable, name: Name) -> Name
    ensures { result ≡ spelled names.now name }
{
    match names.number(name) {
        Some(number) => match names.get(number) {
            Some(declared) => declared.name,
            None => name,
        },
        None => name,
    }
}

/// Appends a name to `text`, spelled as it is declared.
pub fn push_name(text: &mut Vec<u8>, names: &NameTable, name: Name) -> Result<(), AllocError>
    ensures { OnOk result (text.new.items ≡ text.old.items ++ spelled names.now name) }
{
    push_bytes(text, spelled(names, name).as_bytes())
}

/// Appends names to `text`, with a mark between them.
pub fn push_names(
    text: &mut Vec<u8>,
    names: &NameTable,
    ids: &[Identifier],
    mark: &[u8],
) -> Result<(), AllocError>
    ensures { OnOk result (text.new.items ≡ text.old.items ++ names_text names.now mark.now ids.now) }
{
    match ids.split_first() {
        Some((first, others)) => {
            push_name(text, names, first.name)?;
            push_marked_names(text, names, others, mark)
        }
        None => Ok(()),
    }
}

/// Appends names to `text`, with the mark before each.
fn push_marked_names(
    text: &mut Vec<u8>,
    names: &NameTable,
    ids: &[Identifier],
    mark: &[u8],
) -> Result<(), AllocError>
    ensures { OnOk result (text.new.items ≡ text.old.items ++ flat_map (λ id. mark.now ++ spelled names.now id.name) ids.now) }
{
    for id in ids {
        push_bytes(text, mark)?;
        push_name(text, names, id.name)?;
    }
    Ok(())
}
