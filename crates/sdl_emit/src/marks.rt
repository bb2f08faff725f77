//! Numbers that are kept only once.
ghost use Rattle.std.specs.Prelude.{◌≡◌, ◌<◌, length, OnOk};
ghost use Rattle.sdl_meaning.specs.Code.{add_number};
ghost use Rattle.sdl_emit.specs.Marks.{HaveMarks};

use std::alloc::AllocError;

/// Adds a number, unless its mark says that it is kept already.
pub fn add_once(
    kept: &mut Vec<usize>,
    marks: &mut Vec<bool>,
    number: usize,
) -> Result<(), AllocError>
    requires there { number < length marks.old.items }
    requires marks { HaveMarks (length marks.old.items) kept.old.items marks.old.items }
    ensures kept { OnOk result (kept.new.items ≡ add_number kept.old.items number) }
    ensures marks { OnOk result (HaveMarks (length marks.old.items) kept.new.items marks.new.items) }
{
    if !marks[number] {
        marks[number] = true;
        kept.push(number)?;
    }
    Ok(())
}
