//! New sets.
ghost use Rattle.std.specs.Prelude.{◌≡◌, ◌<◌, ◌≤◌, All, vec_len, IfOk, IfErr, [], map, vec_capacity};
ghost use Rattle.link_group.specs.Limits.{MOST_LINKS, POINT_CODES};
ghost use Rattle.link_group.specs.New.{IsUnused, new_set, fresh};

use crate::group::Group;
use crate::hand::Hand;
use crate::link::Link;
use crate::open::able_links;
use crate::tables::table_of;
use group_changeover::{Availability, Behind, Points};
use group_told::Told;
use link_term::Terminal;
use link_transceiver::Hold;
use std::alloc::Global;

impl Group {
    /// The set of these links, by number, between this point and the other, both with codes below 16,384. There are 1
    /// to 16 links, and none holds a message.
    ///
    /// # Errors
    ///
    /// If memory runs out. The terminals are returned.
    #[tactic(auto, unfolding(crate::specs::New::new_set))]
    pub fn new(
        alloc: Global,
        own: u16,
        peer: u16,
        terminals: Vec<Terminal>,
    ) -> Result<Group, Vec<Terminal>>
        requires own { own < POINT_CODES }
        requires peer { peer < POINT_CODES }
        requires some { 1 ≤ vec_len terminals }
        requires few { vec_len terminals ≤ MOST_LINKS }
        requires unused { All IsUnused terminals.items }
        ensures new { IfOk result (λ set. set ≡ new_set own peer terminals.items) }
        ensures back { IfErr result (λ back. back.items ≡ terminals.items) }
    {
        let links = match Vec::with_capacity(alloc, terminals.len()) {
            Ok(links) => links,
            Err(_) => return Err(terminals),
        };
        let links = all_fresh(alloc, Points { own, peer }, terminals, links);
        let table = table_of(able_links(links.as_slice(), false).as_slice());
        Ok(Group {
            own,
            peer,
            links,
            table,
            unsure: 0,
            accepted: Told::new(),
            gone: Told::new(),
        })
    }
}

/// A link over a terminal.
fn fresh(alloc: Global, points: Points, mut terminal: Terminal) -> Link
    ensures { result ≡ fresh points terminal }
{
    let _came = terminal.came_into_service();
    let _began = terminal.began_anew();
    terminal.hold(Hold::Free);
    let served = terminal.in_service();
    Link {
        points,
        terminal,
        availability: Availability {
            served,
            admitted: true,
            anew: false,
            failed: false,
            behind: Behind::Nothing,
            changing: None,
        },
        hand: Hand::empty(alloc),
    }
}

/// Links over terminals. There must be room for them.
pub(crate) fn all_fresh(
    alloc: Global,
    points: Points,
    terminals: Vec<Terminal>,
    mut links: Vec<Link>,
) -> Vec<Link>
    requires empty { links.items ≡ [] }
    requires room { vec_len terminals ≤ vec_capacity links }
    ensures { result.items ≡ map (fresh points) terminals.items }
{
    for terminal in terminals {
        links.push_reserved(fresh(alloc, points, terminal));
    }
    links
}
