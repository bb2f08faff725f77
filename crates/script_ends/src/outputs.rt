//! Units sent on a link.
ghost use Rattle.std.specs.Prelude.{◌≡◌, ◌<◌, ◌∷◌, [], Option, List, ℕ, is_some, IfOk, OnOk, length};
ghost use Rattle.link_group.specs.Lines.{ByLink};
ghost use Rattle.link_group.specs.Doing.{Sent};
ghost use Rattle.script_book.specs.Played.{last_in};
ghost use Rattle.script_ends.specs.GroupAnswers.{NO_LINK};
ghost use Rattle.script_ends.specs.GroupRuns.{HasGone, HasGivenOut, HasGoneOut};

use crate::saying::no_link;
use group_changeover::LineError;
use link_group::Group;
use script_book::{Printer, text_line};
use std::alloc::{AllocError, Global};
use std::io::{self, Write};
use su_octets::Unit;

/// The next unit to send.
fn next_unit(group: &mut Group, link: usize) -> Result<Option<Unit>, AllocError>
    requires { link < length group.old.links }
    ensures { IfOk result (λ unit. ByLink (Sent unit) link group.old group.new) }
{
    match group.unit_out(link) {
        Ok(unit) => Ok(unit),
        Err(LineError::NoMemory) => Err(AllocError),
        Err(LineError::NoLink) => unreachable!(),
    }
}

/// Prints the next unit sent, or `silent`. Returns whether it was a unit.
fn print_unit<W: Write>(
    alloc: Global,
    group: &mut Group,
    link: usize,
    printer: &mut Printer,
    writer: &mut W,
) -> io::Result<bool>
    requires { link < length group.old.links }
    ensures { IfOk result (λ on. HasGone on link (W.contents writer.old) (W.contents writer.new) (last_in printer.old) (last_in printer.new) group.old group.new) }
{
    let unit = next_unit(group, link)?;
    match unit {
        Some(unit) => {
            let line = text_line(alloc, &unit)?;
            printer.print(line, writer)?;
            Ok(true)
        }
        None => {
            let line = Vec::from_slice(alloc, b"silent")?;
            printer.print(line, writer)?;
            Ok(false)
        }
    }
}

/// Prints the next `units` units sent on an existing link; if there is none, one line `silent`, which is the last.
fn print_units<W: Write>(
    alloc: Global,
    group: &mut Group,
    link: usize,
    units: u32,
    printer: &mut Printer,
    writer: &mut W,
) -> io::Result<()>
    requires { link < length group.old.links }
    ensures { OnOk result (HasGoneOut link units (W.contents writer.old) (W.contents writer.new) (last_in printer.old) (last_in printer.new) group.old group.new) }
{
    for gone in 0..units {
        if !print_unit(alloc, group, link, printer, writer)? {
            return Ok(());
        }
    }
    Ok(())
}

/// Obeys `out N`: prints a line for each unit sent, or one line if the link doesn't exist.
pub(crate) fn give_out<W: Write>(
    alloc: Global,
    group: &mut Group,
    link: usize,
    units: u32,
    printer: &mut Printer,
    writer: &mut W,
) -> io::Result<()>
    ensures { OnOk result (HasGivenOut link units (W.contents writer.old) (W.contents writer.new) (last_in printer.old) (last_in printer.new) group.old group.new) }
{
    if link >= group.len() {
        let line = no_link(alloc)?;
        printer.print(line, writer)?;
        return Ok(());
    }
    print_units(alloc, group, link, units, printer, writer)?;
    Ok(())
}
