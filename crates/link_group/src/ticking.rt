//! Ticks at a set's links.
ghost use Rattle.std.specs.Prelude.{◌≡◌, All, map, false, true, None, OnOk, OnErr};
ghost use Rattle.link_processes.specs.Machine.{is_low, tick_refusal};
ghost use Rattle.link_group.specs.Ticking.{roomy, HasRoom, LacksRoom, first_refusal, passed, due_at, all_due};

use crate::link::Link;
use actor_machine::Refusal;
use std::alloc::AllocError;

/// Makes room in the journal of a link, if needed.
fn make_room(link: &mut Link) -> Result<(), AllocError>
    ensures ok { OnOk result (link.new ≡ roomy link.old) }
    ensures err { OnErr result (link.new ≡ link.old) }
    ensures low { OnErr result (is_low link.old.terminal.processes ≡ true) }
{
    link.terminal.make_room()
}

/// Makes room in the journals of all links, if needed.
///
/// # Errors
///
/// If memory runs out at a link. The links before it have room then.
pub(crate) fn make_room_all(links: &mut [Link]) -> Result<(), AllocError>
    ensures ok { OnOk result (links.new ≡ map roomy links.old) }
    ensures err { OnErr result (LacksRoom links.old links.new) }
{
    for at in 0..links.len() {
        match make_room(&mut links[at]) {
            Ok(()) => {}
            Err(_) => return Err(AllocError),
        }
    }
    Ok(())
}

/// Why so many ticks can't pass at a link, if they can't.
fn refusal_of(link: &Link, ticks: u64) -> Option<Refusal>
    ensures { result ≡ tick_refusal ticks link.now.terminal.processes }
{
    link.terminal.advance_refusal(ticks)
}

/// Why so many ticks can't pass: the refusal of the first link that has one.
pub(crate) fn tick_refusal(links: &[Link], ticks: u64) -> Option<Refusal>
    ensures { result ≡ first_refusal ticks links.now }
{
    for link in links {
        match refusal_of(link, ticks) {
            Some(refusal) => return Some(refusal),
            None => {}
        }
    }
    None
}

/// Lets ticks pass at a link that has room for them. Returns how many timers were due.
fn pass(link: &mut Link, ticks: u64) -> usize
    requires room { is_low link.old.terminal.processes ≡ false }
    requires may { tick_refusal ticks link.old.terminal.processes ≡ None }
    ensures due { result ≡ due_at ticks link.old }
    ensures link { link.new ≡ passed ticks link.old }
{
    link.availability = link.availability.waits(ticks);
    match link.terminal.tick(ticks) {
        Ok(due) => due,
        Err(_) => unreachable!(),
    }
}

/// Lets ticks pass at all links, which have room and refuse none. Returns how many timers were due.
pub(crate) fn pass_all(links: &mut [Link], ticks: u64) -> usize
    requires room { All HasRoom links.old }
    requires may { first_refusal ticks links.old ≡ None }
    ensures due { result ≡ all_due ticks links.old }
    ensures links { links.new ≡ map (passed ticks) links.old }
{
    let mut due: usize = 0;
    for at in 0..links.len() {
        due = due.saturating_add(pass(&mut links[at], ticks));
    }
    due
}
