//! New sets.
ghost use Rattle.std.specs.Prelude.{◌≡◌, ◌++◌, ◌∷◌, [], IfOk, OnOk};
ghost use Rattle.link_term.specs.Opening.{IsOver};
ghost use Rattle.link_term.specs.Term.{Term};
ghost use Rattle.trials_groups.specs.Opened.{AreNew};

use crate::calls::Stopped;
use crate::messages::Way;
use line_tending::Group;
use link_term::Terminal;
use resend_store::Mode;
use std::alloc::Global;
use turn_check::Verified;

/// Adds one terminal.
fn push_terminal(
    alloc: Global,
    set: &Verified,
    mode: Mode,
    terminals: &mut Vec<Terminal>,
) -> Result<(), Stopped>
    ensures { OnOk result ((t : Term) × IsOver set.now mode t × (terminals.new.items ≡ terminals.old.items ++ t ∷ [])) }
{
    if terminals.reserve(1).is_err() {
        return Err(Stopped::NoMemory);
    }
    match Terminal::of_set(alloc, mode, set) {
        Ok(terminal) => {
            terminals.push_reserved(terminal);
            Ok(())
        }
        Err(_) => Err(Stopped::NoMemory),
    }
}

/// So many new terminals.
fn terminals(
    alloc: Global,
    set: &Verified,
    mode: Mode,
    links: usize,
) -> Result<Vec<Terminal>, Stopped>
    ensures { IfOk result (λ v. AreNew set.now mode links v.items) }
{
    let mut terminals = Vec::new(alloc);
    for made in 0..links {
        match push_terminal(alloc, set, mode, &mut terminals) {
            Ok(()) => {}
            Err(stopped) => return Err(stopped),
        }
    }
    Ok(terminals)
}

/// A new set of so many links, 1 to 16, at the point from which a way leads.
pub fn open_set(
    alloc: Global,
    set: &Verified,
    mode: Mode,
    links: usize,
    way: Way,
) -> Result<Group, Stopped> {
    if links < 1 || links > 16 || way.from >= 16_384 || way.to >= 16_384 {
        return Err(Stopped::BadLine);
    }
    let terminals = match terminals(alloc, set, mode, links) {
        Ok(terminals) => terminals,
        Err(stopped) => return Err(stopped),
    };
    match Group::new(alloc, way.from, way.to, terminals) {
        Ok(group) => Ok(group),
        Err(_) => Err(Stopped::NoMemory),
    }
}
