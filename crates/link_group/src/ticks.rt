//! Ticks.
ghost use Rattle.std.specs.List.{list_any};
ghost use Rattle.std.specs.Prelude.{◌≡◌, ◌≤◌, length, map, None, IfOk, IfErr, OnOk};
ghost use Rattle.link_group.specs.Limits.{MOST_LINKS};
ghost use Rattle.link_group.specs.Doing.{asked, came_first};
ghost use Rattle.link_group.specs.Ticking.{all_due};
ghost use Rattle.link_group.specs.Placing.{table_if};
ghost use Rattle.link_group.specs.Ticks.{with_room, tick_fault, after_ticks, IsTickError};

use crate::doing::see_all;
use crate::group::Group;
use crate::link::Link;
use crate::placing::place_anew;
use crate::ticking::{make_room_all, pass_all, tick_refusal};
use group_changeover::Table;
use link_term::CallError;

/// Checks which links came into service. The table is remade if one may have selections for the first time.
fn see_each(links: &mut [Link], table: &mut Table)
    requires { length links.old ≤ MOST_LINKS }
    ensures links { links.new ≡ map asked links.old }
    ensures table { table.new.links ≡ table_if (list_any came_first links.old) links.new table.old.links }
{
    let first = see_all(links);
    place_anew(links, table, first);
}

impl Group {
    /// Lets so many ticks pass on all links, one per millisecond, or on none. Returns how many timers were due on all
    /// of them. Each changeover that goes on has waited for so many more ticks.
    ///
    /// # Errors
    ///
    /// Room is made on each link first, as before a command: `NoMemory` if memory runs out at a link, and the links
    /// before it have room. Then the refusal of the first link that has one (`W1 TooFar`, `W2 ClockFull`, `B8
    /// JournalFull`); all have room. Nothing else changes in either case.
    #[tactic(auto, unfolding(crate::specs::Ticks::after_ticks))]
    pub fn tick(&mut self, ticks: u64) -> Result<usize, CallError>
        ensures due { IfOk result (λ due. due ≡ all_due ticks (with_room self.old.links)) }
        ensures passes { OnOk result (tick_fault ticks self.old ≡ None) }
        ensures ok { OnOk result (self.new ≡ after_ticks ticks self.old) }
        ensures err { IfErr result (IsTickError ticks self.old self.new) }
        ensures accepted { self.new.accepted ≡ self.old.accepted }
        ensures gone { self.new.gone ≡ self.old.gone }
    {
        match make_room_all(self.links.as_mut_slice()) {
            Ok(()) => {}
            Err(_) => return Err(CallError::NoMemory),
        }
        match tick_refusal(self.links.as_slice(), ticks) {
            Some(refusal) => return Err(CallError::Refused(refusal)),
            None => {}
        }
        let due = pass_all(self.links.as_mut_slice(), ticks);
        see_each(self.links.as_mut_slice(), &mut self.table);
        Ok(due)
    }
}
