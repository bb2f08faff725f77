//! Values and counts as they are printed.
ghost use Rattle.std.specs.Prelude.{◌≡◌, IfOk};
ghost use Rattle.script_lines.specs.Replies.{value_text};

use std::alloc::{AllocError, Global};
use std::fmt;
use turn_code::Value;

/// A value as it is printed: an Integer in decimal, `true` or `false`.
#[derive(Clone, Copy)]
pub struct Shown(pub Value);

impl fmt::Display for Shown {
    ghost use Rattle.std.specs.Prelude.{Some};
    ghost use Rattle.script_lines.specs.Replies.{value_text};

    ghost output = { λ s. Some (value_text s.0) };

    fn fmt<W: fmt::Write>(&self, f: &mut fmt::Formatter<W>) -> fmt::Result {
        match self.0 {
            Value::Int(number) => write!(f, "{number}"),
            Value::Bool(true) => f.write_str("true"),
            Value::Bool(false) => f.write_str("false"),
        }
    }
}

/// The counts of a turn: its instructions, and its lost outputs, which are printed if there are any.
#[derive(Clone, Copy)]
pub(crate) struct Counts {
    pub(crate) count: u32,
    pub(crate) lost: usize,
}

impl fmt::Display for Counts {
    ghost use Rattle.std.specs.Prelude.{Some};
    ghost use Rattle.script_lines.specs.Replies.{counts_text};

    ghost output = { λ c. Some (counts_text c.count c.lost) };

    fn fmt<W: fmt::Write>(&self, f: &mut fmt::Formatter<W>) -> fmt::Result {
        let count = self.count;
        let lost = self.lost;
        if lost == 0 {
            write!(f, " count {count}")
        } else {
            write!(f, " count {count} lost {lost}")
        }
    }
}

/// The line that shows a value.
pub fn shown_line(alloc: Global, value: Value) -> Result<Vec<u8>, AllocError>
    ensures { IfOk result (λ v. v.items ≡ value_text value) }
{
    let shown = Shown(value);
    let text = format!(in alloc; "{shown}")?;
    Vec::from_slice(alloc, text.as_bytes())
}
