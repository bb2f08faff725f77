//! Reports of counting mode.
ghost use Rattle.std.specs.Prelude.{◌≡◌, ◌<◌, ◌+◌, ◌++◌, OnOk, if◌then◌else◌};
ghost use Rattle.arrayvec.specs.ArrayVec.{array_vec_len};
ghost use Rattle.bit_line.specs.Counting.{sixteen_of};

use crate::events::{LineEvent, NoMemory};
use arrayvec::ArrayVec;

/// Appends the report of 128 complete bits, if they are complete.
pub fn put_sixteen(full: bool, events: &mut ArrayVec<LineEvent, 8>)
    requires { array_vec_len events.old < 8 }
    ensures items { events.new.items ≡ events.old.items ++ sixteen_of full }
    ensures len { array_vec_len events.new ≡ array_vec_len events.old + (if full then 1 else 0) }
{
    if full {
        events.push(LineEvent::SixteenOctets);
    }
}

/// Appends the report of 128 complete bits, if they are complete.
pub fn push_sixteen(full: bool, events: &mut Vec<LineEvent>) -> Result<(), NoMemory>
    ensures { OnOk result (events.new.items ≡ events.old.items ++ sixteen_of full) }
{
    if full {
        events.push(LineEvent::SixteenOctets)?;
    }
    Ok(())
}
