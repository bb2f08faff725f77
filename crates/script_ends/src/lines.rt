//! Octets received on a link.
ghost use Rattle.std.specs.Prelude.{◌≡◌, ◌<◌, IfOk, OnOk, length};
ghost use Rattle.script_ends.specs.GroupAnswers.{HasReported, GivesReports, TakesPart, Listens, TakesLine, TakesUnit};

use crate::saying::{done, no_link};
use crate::unit_line::line_of_unit;
use link_group::Group;
use std::alloc::{AllocError, Global};

/// Takes the next report of a link out. Returns whether there was one.
fn drop_report(group: &mut Group, link: usize) -> bool
    requires { link < length group.old.links }
    ensures { HasReported link group.old group.new result }
{
    let Ok(report) = group.report(link) else {
        unreachable!()
    };
    report.is_some()
}

/// Takes all reports of a link out, since a script doesn't print them.
fn drop_reports(group: &mut Group, link: usize)
    requires { link < length group.old.links }
    ensures { GivesReports link group.old group.new }
{
    'reports: loop {
        if !drop_report(group, link) {
            return;
        }
    }
}

/// Has a link hear part of the line octets, then takes all its reports out. Returns the number of octets heard. If the
/// link can hear none of them, it is out of memory.
fn take_part(group: &mut Group, link: usize, octets: &[u8]) -> Result<usize, AllocError>
    requires { link < length group.old.links }
    ensures { IfOk result (λ taken. TakesPart link octets.now taken group.old group.new) }
{
    let Ok(taken) = group.line_in(link, octets) else {
        unreachable!()
    };
    if taken == 0 {
        return Err(AllocError);
    }
    drop_reports(group, link);
    Ok(taken)
}

/// Has a link hear all octets of the line.
fn listen(group: &mut Group, link: usize, octets: &[u8]) -> Result<(), AllocError>
    requires { link < length group.old.links }
    ensures { OnOk result (Listens link group.old octets.now group.new) }
{
    let mut from = 0;
    while from < octets.len() {
        from += take_part(group, link, &octets[from..])?;
    }
    Ok(())
}

/// Obeys `line HEX`.
pub(crate) fn take_line(
    alloc: Global,
    group: &mut Group,
    link: usize,
    octets: &[u8],
) -> Result<Vec<u8>, AllocError>
    ensures { IfOk result (λ v. TakesLine link octets.now group.old v.items group.new) }
{
    if link >= group.len() {
        return no_link(alloc);
    }
    listen(group, link, octets)?;
    done(alloc)
}

/// Obeys `unit HEX`.
pub(crate) fn take_unit(
    alloc: Global,
    group: &mut Group,
    link: usize,
    octets: &[u8],
) -> Result<Vec<u8>, AllocError>
    ensures { IfOk result (λ v. TakesUnit link octets.now group.old v.items group.new) }
{
    let line = line_of_unit(alloc, octets)?;
    take_line(alloc, group, link, &line)
}
