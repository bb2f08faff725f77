//! Each public call of a set of two links.

use crate::calls::Stopped;
use crate::each_call::{WAY, bring_up, change_over, fill, give_them_up};
use crate::far_end::FarEnd;
use crate::opening::open_set;
use line_tending::Group;
use resend_store::Mode;
use std::alloc::Global;
use turn_check::Verified;

/// Makes all calls, and writes their results.
fn call_each(text: &mut String, group: &mut Group) -> Result<(), Stopped> {
    let mut first = FarEnd::new();
    let mut second = FarEnd::new();
    bring_up(text, group, &mut first, &mut second)?;
    fill(text, group, &mut first)?;
    change_over(text, group)?;
    give_them_up(text, group)
}

/// Makes each public call of a set of two links with terminals over a set of processes, and writes the results. A call
/// that runs out of memory is made once more, since it changed nothing.
///
/// # Errors
///
/// If memory runs out twice, or a terminal isn't made over the set or refuses a command.
pub fn make_calls(alloc: Global, text: &mut String, set: &Verified) -> Result<(), Stopped> {
    let mut group = open_set(alloc, set, Mode::Basic, 2, WAY)?;
    call_each(text, &mut group)
}
