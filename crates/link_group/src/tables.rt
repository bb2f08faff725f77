//! The table of selections and their links.
ghost use Rattle.std.specs.Prelude.{◌≡◌, ◌<◌, false, map};
ghost use Rattle.std.specs.List.{list_any};
ghost use Rattle.group_changeover.specs.Limits.{SELECTIONS};
ghost use Rattle.group_changeover.specs.Sharing.{selections, link_of, pick};
ghost use Rattle.link_group.specs.OneLink.{is_changing};
ghost use Rattle.link_group.specs.Tables.{anew_on, any_below, in_way, forgiven};

use crate::link::Link;
use crate::open::{changing_at, held_by_any, holds_at};
use group_changeover::{Table, pick};

/// A table that shares all selections out among these links.
pub(crate) fn table_of(able: &[usize]) -> Table
    ensures { result.links ≡ map (pick able.now) selections }
{
    Table {
        links: [
            pick(able, 0),
            pick(able, 1),
            pick(able, 2),
            pick(able, 3),
            pick(able, 4),
            pick(able, 5),
            pick(able, 6),
            pick(able, 7),
            pick(able, 8),
            pick(able, 9),
            pick(able, 10),
            pick(able, 11),
            pick(able, 12),
            pick(able, 13),
            pick(able, 14),
            pick(able, 15),
        ],
    }
}

/// The link of a selection in a table that is remade.
fn anew_on(links: &[Link], table: &Table, able: &[usize], selection: u8) -> Option<usize>
    ensures { result ≡ anew_on links.now table.now.links able.now selection }
{
    let was = table.link_of(selection);
    if changing_at(links, was) {
        return was;
    }
    if held_by_any(links, selection) {
        return was;
    }
    match pick(able, selection) {
        Some(link) => Some(link),
        None => was,
    }
}

/// The table that is remade.
pub(crate) fn table_anew(links: &[Link], table: &Table, able: &[usize]) -> Table
    ensures { result.links ≡ map (anew_on links.now table.now.links able.now) selections }
{
    Table {
        links: [
            anew_on(links, table, able, 0),
            anew_on(links, table, able, 1),
            anew_on(links, table, able, 2),
            anew_on(links, table, able, 3),
            anew_on(links, table, able, 4),
            anew_on(links, table, able, 5),
            anew_on(links, table, able, 6),
            anew_on(links, table, able, 7),
            anew_on(links, table, able, 8),
            anew_on(links, table, able, 9),
            anew_on(links, table, able, 10),
            anew_on(links, table, able, 11),
            anew_on(links, table, able, 12),
            anew_on(links, table, able, 13),
            anew_on(links, table, able, 14),
            anew_on(links, table, able, 15),
        ],
    }
}

/// Whether any link is in changeover.
pub(crate) fn any_changing(links: &[Link]) -> bool
    ensures { result ≡ list_any is_changing links.now }
{
    for link in links {
        if link.availability.changing.is_some() {
            return true;
        }
    }
    false
}

/// Whether a selection would move whose link holds messages of it.
#[tactic(auto, unfolding(crate::specs::Tables::in_way))]
fn in_way(links: &[Link], table: &Table, able: &[usize], selection: u8) -> bool
    ensures { result ≡ in_way links.now table.now.links able.now selection }
{
    let Some(was) = table.link_of(selection) else {
        return false;
    };
    let Some(new) = pick(able, selection) else {
        return holds_at(links, was, selection);
    };
    if new == was {
        false
    } else {
        holds_at(links, was, selection)
    }
}

/// Whether any selection would move whose link holds messages of it.
pub(crate) fn any_in_way(links: &[Link], table: &Table, able: &[usize]) -> bool
    ensures { result ≡ any_below (in_way links.now table.now.links able.now) SELECTIONS }
{
    for selection in 0..16 {
        if in_way(links, table, able, selection) {
            return true;
        }
    }
    false
}

/// Clears the mark of a link that it failed.
fn forgive(link: &mut Link)
    ensures { link.new ≡ forgiven link.old }
{
    link.availability.failed = false;
}

/// Clears the mark of all links that they failed.
pub(crate) fn forgive_all(links: &mut [Link])
    ensures { links.new ≡ map forgiven links.old }
{
    for at in 0..links.len() {
        forgive(&mut links[at]);
    }
}
