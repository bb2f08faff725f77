//! Octets received on the line.
ghost use Rattle.std.specs.Prelude.{◌≡◌, ◌≤◌, IfOk, OnOk, codes, length};
ghost use Rattle.script_ends.specs.TermAnswers.{without_reports, Listens, Hears, Takes, TakesTimes, ReceivesTimes};

use crate::unit_line::line_of_unit;
use link_term::Terminal;
use std::alloc::{AllocError, Global};

/// Takes all reports out of the terminal.
fn drop_reports(terminal: &mut Terminal)
    ensures { terminal.new ≡ without_reports terminal.old }
{
    'reports: loop {
        if terminal.report().is_none() {
            return;
        }
    }
}

/// Has the terminal hear all octets of the line, and drops its reports.
fn listen(terminal: &mut Terminal, octets: &[u8]) -> Result<(), AllocError>
    ensures { OnOk result (Listens terminal.old octets.now terminal.new) }
{
    let mut from = 0;
    while from < octets.len() {
        let taken = terminal.line_in(&octets[from..]);
        drop_reports(terminal);
        if taken == 0 {
            return Err(AllocError);
        }
        from += taken;
    }
    Ok(())
}

/// Has the terminal hear all octets of the line. Its reports are kept, unless octets remain and its messages are full.
fn hear(terminal: &mut Terminal, octets: &[u8]) -> Result<(), AllocError>
    ensures { OnOk result (Hears terminal.old octets.now terminal.new) }
{
    let mut from = terminal.line_in(octets);
    while from < octets.len() {
        if terminal.has_room() {
            return Err(AllocError);
        }
        drop_reports(terminal);
        let taken = terminal.line_in(&octets[from..]);
        if taken == 0 {
            return Err(AllocError);
        }
        from += taken;
    }
    Ok(())
}

/// Has the terminal hear all octets of the line once; `keeps` tells whether its reports are kept.
fn take_once(terminal: &mut Terminal, octets: &[u8], keeps: bool) -> Result<(), AllocError>
    ensures { OnOk result (Takes keeps terminal.old octets.now terminal.new) }
{
    if keeps {
        hear(terminal, octets)
    } else {
        listen(terminal, octets)
    }
}

/// Has the terminal hear octets of the line `times` times.
fn take_times(
    terminal: &mut Terminal,
    octets: &[u8],
    times: u32,
    keeps: bool,
) -> Result<(), AllocError>
    ensures { OnOk result (TakesTimes keeps octets.now times terminal.old terminal.new) }
{
    for taken in 0..times {
        take_once(terminal, octets, keeps)?;
    }
    Ok(())
}

/// Obeys `line HEX`: has the terminal hear all octets of the line `times` times.
pub fn take(
    alloc: Global,
    terminal: &mut Terminal,
    octets: &[u8],
    times: u32,
    keeps: bool,
) -> Result<Vec<u8>, AllocError>
    ensures text { IfOk result (λ v. v.items ≡ codes "ok") }
    ensures takes { OnOk result (TakesTimes keeps octets.now times terminal.old terminal.new) }
{
    take_times(terminal, octets, times, keeps)?;
    Vec::from_slice(alloc, b"ok")
}

/// Obeys `unit HEX`: has the terminal receive the same unit `times` times.
pub fn receive(
    alloc: Global,
    terminal: &mut Terminal,
    octets: &[u8],
    times: u32,
    keeps: bool,
) -> Result<Vec<u8>, AllocError>
    ensures text { IfOk result (λ v. v.items ≡ codes "ok") }
    ensures receives { OnOk result (ReceivesTimes keeps octets.now times terminal.old terminal.new) }
{
    let line = line_of_unit(alloc, octets)?;
    take(alloc, terminal, &line, times, keeps)
}
