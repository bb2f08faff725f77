//! Giving links to selections.
ghost use Rattle.std.specs.Prelude.{◌≡◌, ◌≤◌, length, false, OnOk, OnErr};
ghost use Rattle.link_group.specs.Limits.{MOST_LINKS};
ghost use Rattle.group_changeover.specs.Sharing.{selections};
ghost use Rattle.link_group.specs.OneLink.{fault_of};
ghost use Rattle.link_group.specs.Moving.{able_links, anew_links};
ghost use Rattle.link_group.specs.Placing.{table_if, rebalance_fault, rebalanced};

use crate::group::Group;
use crate::link::Link;
use crate::open::{able_links, anew_links};
use crate::tables::{any_changing, any_in_way, forgive_all, table_anew, table_of};
use group_changeover::{RebalanceError, Table};

/// Remakes the table if a link may have selections for the first time. Selections whose link is in changeover, or of
/// which any link holds messages, keep their link.
#[tactic(auto, unfolding(crate::specs::Placing::table_anew))]
pub(crate) fn place_anew(links: &[Link], table: &mut Table, first: bool)
    requires { length links.now ≤ MOST_LINKS }
    ensures { table.new.links ≡ table_if first links.now table.old.links }
{
    if first {
        let able = anew_links(links);
        *table = table_anew(links, table, able.as_slice());
    }
}

impl Group {
    /// Shares all selections among the links that are in service, not held and admitted, even failed ones; those with a
    /// processor outage only if there are no others.
    ///
    /// # Errors
    ///
    /// `K2 Waiting` in a changeover, `K3 NotEmpty` if a link holds messages of a selection that moves. Nothing changes.
    #[tactic(auto, unfolding(crate::specs::Placing::rebalance_fault, crate::specs::Placing::rebalanced))]
    pub fn rebalance(&mut self) -> Result<(), RebalanceError>
        ensures fault { fault_of result ≡ rebalance_fault self.old }
        ensures ok { OnOk result (self.new ≡ rebalanced self.old) }
        ensures err { OnErr result (self.new ≡ self.old) }
        ensures accepted { self.new.accepted ≡ self.old.accepted }
        ensures gone { self.new.gone ≡ self.old.gone }
    {
        if any_changing(self.links.as_slice()) {
            return Err(RebalanceError::Waiting);
        }
        let able = able_links(self.links.as_slice(), true);
        if any_in_way(self.links.as_slice(), &self.table, able.as_slice()) {
            return Err(RebalanceError::NotEmpty);
        }
        forgive_all(self.links.as_mut_slice());
        self.table = table_of(able.as_slice());
        Ok(())
    }
}
