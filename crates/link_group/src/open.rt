//! Which links may take messages, and which hold messages of a selection.
ghost use Rattle.std.specs.Prelude.{◌≡◌, ◌+◌, ◌<◌, ◌≤◌, ◌++◌, ◌∷◌, [], if◌then◌else◌, length, slice_get};
ghost use Rattle.arrayvec.specs.ArrayVec.{array_vec_len};
ghost use Rattle.group_changeover.specs.Sharing.{selection_of};
ghost use Rattle.link_group.specs.Limits.{MOST_LINKS};
ghost use Rattle.link_group.specs.OneLink.{held};
ghost use Rattle.link_group.specs.Moving.{is_so_out, is_still, is_open, eligible_links, able_links, others, anew_links, own_place, way, takers, on_by, holds, holds_at};
ghost use Rattle.link_group.specs.Tables.{changing_at, held_by_any};

use crate::link::Link;
use arrayvec::ArrayVec;
use group_changeover::selection_of;

/// Whether a link has a processor outage, or has none, as requested.
fn is_so_out(link: &Link, outage: bool) -> bool
    ensures { result ≡ is_so_out outage link.now }
{
    if outage {
        link.has_outage()
    } else {
        !link.has_outage()
    }
}

/// Whether a link isn't in changeover and, unless failed links are allowed, hasn't failed.
fn is_still(link: &Link, failed: bool) -> bool
    ensures { result ≡ is_still failed link.now }
{
    !link.availability.is_changing() && (failed || !link.availability.failed)
}

/// Whether a link carries traffic, and is of the requested kind.
pub(crate) fn is_open(link: &Link, failed: bool, outage: bool) -> bool
    ensures { result ≡ is_open failed outage link.now }
{
    link.shares() && is_so_out(link, outage) && is_still(link, failed)
}

/// Appends the number of a link if it may take messages.
fn note(able: &mut ArrayVec<usize, 16>, at: usize, may: bool)
    requires { array_vec_len able.old < MOST_LINKS }
    ensures items { able.new.items ≡ able.old.items ++ (if may then at ∷ [] else []) }
    ensures len { array_vec_len able.new ≤ array_vec_len able.old + 1 }
{
    if may {
        able.push(at);
    }
}

/// The numbers of the links of the requested kind.
fn eligible_links(links: &[Link], failed: bool, outage: bool) -> ArrayVec<usize, 16>
    requires { length links.now ≤ MOST_LINKS }
    ensures { result.items ≡ eligible_links failed outage links.now }
{
    let mut able = ArrayVec::new();
    for at in 0..links.len() {
        note(&mut able, at, is_open(&links[at], failed, outage));
    }
    able
}

/// The numbers of the links that selections may have: in service, not held, admitted, and not failed unless failed
/// links are allowed. Links with a processor outage are used only if there are no others.
#[tactic(auto, unfolding(crate::specs::Moving::able_links))]
pub(crate) fn able_links(links: &[Link], failed: bool) -> ArrayVec<usize, 16>
    requires { length links.now ≤ MOST_LINKS }
    ensures { result.items ≡ able_links failed links.now }
{
    let able = eligible_links(links, failed, false);
    if able.is_empty() {
        eligible_links(links, failed, true)
    } else {
        able
    }
}

/// The numbers of the links, with an outage or without, that never failed, else of failed ones not in changeover.
#[tactic(auto, unfolding(crate::specs::Moving::others))]
fn others(links: &[Link], outage: bool) -> ArrayVec<usize, 16>
    requires { length links.now ≤ MOST_LINKS }
    ensures { result.items ≡ others outage links.now }
{
    let able = eligible_links(links, false, outage);
    if able.is_empty() {
        eligible_links(links, true, outage)
    } else {
        able
    }
}

/// The numbers of the links for a table that is remade: those with an outage only if there are no others.
#[tactic(auto, unfolding(crate::specs::Moving::anew_links))]
pub(crate) fn anew_links(links: &[Link]) -> ArrayVec<usize, 16>
    requires { length links.now ≤ MOST_LINKS }
    ensures { result.items ≡ anew_links links.now }
{
    let able = others(links, false);
    if able.is_empty() {
        others(links, true)
    } else {
        able
    }
}

/// The number of the link itself, if it may take messages.
fn own_place(links: &[Link], at: usize, outage: bool) -> ArrayVec<usize, 16>
    ensures { result.items ≡ own_place at outage (slice_get links.now at) }
{
    let mut able = ArrayVec::new();
    match links.get(at) {
        Some(link) => note(&mut able, at, link.shares() && is_so_out(link, outage)),
        None => {}
    }
    able
}

/// The numbers of the links, with an outage or without, that may take a link's retrieved messages: others that never
/// failed, else others that aren't in changeover, else the link itself.
#[tactic(auto, unfolding(crate::specs::Moving::way))]
fn way(links: &[Link], at: usize, outage: bool) -> ArrayVec<usize, 16>
    requires { length links.now ≤ MOST_LINKS }
    ensures { result.items ≡ way at outage links.now }
{
    let able = others(links, outage);
    if able.is_empty() {
        own_place(links, at, outage)
    } else {
        able
    }
}

/// The numbers of the links that may take a link's retrieved messages: those with an outage only without others.
#[tactic(auto, unfolding(crate::specs::Moving::takers))]
pub(crate) fn takers(links: &[Link], at: usize) -> ArrayVec<usize, 16>
    requires { length links.now ≤ MOST_LINKS }
    ensures { result.items ≡ takers at links.now }
{
    let able = way(links, at, false);
    if able.is_empty() {
        way(links, at, true)
    } else {
        able
    }
}

/// Whether the held message at a place has this selection and isn't bound to the link.
fn is_on(link: &Link, place: usize, selection: u8) -> bool
    ensures { result ≡ on_by link.now.points selection (slice_get (held link.now) place) }
{
    match link.terminal.held_at(place) {
        Some(msu) => !link.points.is_bound(msu) && selection_of(msu) == selection,
        None => false,
    }
}

/// Whether a link holds messages of a selection.
#[tactic(auto, unfolding(crate::specs::Moving::holds))]
pub(crate) fn holds(link: &Link, selection: u8) -> bool
    ensures { result ≡ holds selection link.now }
{
    for place in 0..link.terminal.held() {
        if is_on(link, place, selection) {
            return true;
        }
    }
    false
}

/// Whether the link at a place, if it exists, holds messages of a selection.
pub(crate) fn holds_at(links: &[Link], at: usize, selection: u8) -> bool
    ensures { result ≡ holds_at selection (slice_get links.now at) }
{
    match links.get(at) {
        Some(link) => holds(link, selection),
        None => false,
    }
}

/// Whether any link holds messages of a selection.
#[tactic(auto, unfolding(crate::specs::Tables::held_by_any))]
pub(crate) fn held_by_any(links: &[Link], selection: u8) -> bool
    ensures { result ≡ held_by_any selection links.now }
{
    for link in links {
        if holds(link, selection) {
            return true;
        }
    }
    false
}

/// Whether the link of a selection is in changeover.
pub(crate) fn changing_at(links: &[Link], at: Option<usize>) -> bool
    ensures { result ≡ changing_at links.now at }
{
    let Some(at) = at else {
        return false;
    };
    match links.get(at) {
        Some(link) => link.availability.changing.is_some(),
        None => false,
    }
}
