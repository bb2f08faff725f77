//! The parts of a drawing: its symbols, and where it forks.
ghost use Rattle.std.specs.Prelude.{◌≡◌, ◌++◌, ◌∷◌, [], map, OnOk};
ghost use Rattle.draw_text.specs.Parts.{part_of, mark, symbol, is_symbol};

use std::alloc::{AllocError, Global};

/// The kind of a part.
#[derive(Clone, Copy, Debug, PartialEq, Eq)]
pub enum Kind {
    /// The symbol that START begins with.
    Start,
    /// The names of a STATE part.
    State,
    /// The name of a CONNECTION.
    Connector,
    /// The stimuli of an INPUT.
    Input,
    /// The names of a SAVE.
    Save,
    /// A TASK, a SET or a RESET.
    Task,
    /// A signal of an OUTPUT, and its receiver.
    Output,
    /// The question of a DECISION.
    Question,
    /// The values that select an answer, or ELSE.
    Answer,
    /// A NEXTSTATE.
    NextState,
    /// A JOIN.
    Join,
    /// A STOP.
    Stop,
    /// No symbol: from here on, branches stand side by side.
    Fork,
    /// No symbol: a branch begins.
    Branch,
    /// No symbol: the last branch ends, and the branches that go on meet.
    Meet,
}

/// A part of a drawing. For a symbol: the place of its first byte in the text of the set, and the words written in it,
/// with line feeds between its lines.
#[derive(Drop)]
pub struct Part {
    pub kind: Kind,
    pub at: u32,
    pub text: Vec<u8>,
}

/// Appends a symbol to `parts`.
pub fn push_symbol(
    parts: &mut Vec<Part>,
    kind: Kind,
    at: u32,
    text: Vec<u8>,
) -> Result<(), AllocError>
    ensures { OnOk result (map part_of parts.new.items ≡ map part_of parts.old.items ++ symbol kind at text.items ∷ []) }
{
    parts.push(Part { kind, at, text })?;
    Ok(())
}

/// Appends a part that is no symbol to `parts`.
pub fn push_mark(alloc: Global, parts: &mut Vec<Part>, kind: Kind) -> Result<(), AllocError>
    ensures { OnOk result (map part_of parts.new.items ≡ map part_of parts.old.items ++ mark kind ∷ []) }
{
    push_symbol(parts, kind, 0, Vec::new(alloc))
}

/// Whether a part is a symbol.
pub fn is_symbol(kind: Kind) -> bool
    ensures { result ≡ is_symbol kind }
{
    match kind {
        Kind::Fork | Kind::Branch | Kind::Meet => false,
        _ => true,
    }
}
