//! What a set does with one of its terminals.
ghost use Rattle.std.specs.Prelude.{◌≡◌, ◌++◌, ◌↔◌, ◌≤◌, ◌<◌, length, true, slice_get, IfOk, IfErr, OnOk, OnErr, Err};
ghost use Rattle.link_group.specs.Lines.{ByLink, ByCommand, after_admission, IsCommandError};
ghost use Rattle.link_group.specs.Commanding.{cleared_at};
ghost use Rattle.link_group.specs.Gone.{acknowledged, unsure, left_between, if_ok};
ghost use Rattle.link_group.specs.Laws.{held_at};
ghost use Rattle.link_group.specs.Placing.{table_if};
ghost use Rattle.link_group.specs.Limits.{MOST_LINKS};
ghost use Rattle.link_group.specs.Links.{change};
ghost use Rattle.link_group.specs.Doing.{Listened, Spoken, Sent, Reported, asked, came_by, admits_at, admits_by, low_at};

use crate::commanding::CommandError;
use crate::group::Group;
use crate::link::Link;
use crate::placing::place_anew;
use group_changeover::{LineError, LinkError, Table};
use link_processes::Command;
use link_transceiver::Report;
use su_octets::Unit;

/// Checks whether a link came into service. The table is remade if it may have selections for the first time.
#[tactic(auto, unfolding(crate::specs::Links::change))]
fn see(links: &mut [Link], table: &mut Table, at: usize)
    requires few { length links.old ≤ MOST_LINKS }
    requires there { at < length links.old }
    ensures links { links.new ≡ change links.old at asked }
    ensures table { table.new.links ≡ table_if (came_by (slice_get links.old at)) links.new table.old.links }
{
    let first = links[at].see();
    place_anew(links, table, first);
}

/// Sets whether level 3 admits a link. The table is remade if it may have selections for the first time.
#[tactic(auto, unfolding(crate::specs::Links::change))]
fn admit(links: &mut [Link], table: &mut Table, at: usize, way: bool)
    requires few { length links.old ≤ MOST_LINKS }
    requires there { at < length links.old }
    ensures links { links.new ≡ change links.old at (admits_at way) }
    ensures table { table.new.links ≡ table_if (admits_by way (slice_get links.old at)) links.new table.old.links }
{
    let first = links[at].admit(way);
    place_anew(links, table, first);
}

impl Group {
    /// Sets whether level 3 admits a link to selections and other links' retrieved messages; at first all are. The link
    /// keeps what it has. The table is remade if it is in service, not held and admitted for the first time.
    ///
    /// # Errors
    ///
    /// `K1 NoLink` if there is no such link: nothing changes.
    #[tactic(auto, unfolding(crate::specs::Lines::after_admission))]
    pub fn admit(&mut self, link: usize, way: bool) -> Result<(), LinkError>
        ensures ok { OnOk result (self.new ≡ after_admission self.old link way) }
        ensures fault { (result ≡ Err LinkError.NoLink) ↔ (length self.old.links ≤ link) }
        ensures err { OnErr result (self.new ≡ self.old) }
        ensures accepted { self.new.accepted ≡ self.old.accepted }
        ensures gone { self.new.gone ≡ self.old.gone }
    {
        if link >= self.links.len() {
            return Err(LinkError::NoLink);
        }
        admit(self.links.as_mut_slice(), &mut self.table, link, way);
        Ok(())
    }

    /// `Terminal::line_in` of a link.
    ///
    /// # Errors
    ///
    /// `K1 NoLink` if there is no such link: nothing changes.
    pub fn line_in(&mut self, link: usize, octets: &[u8]) -> Result<usize, LinkError>
        ensures ok { IfOk result (λ taken. ByLink (Listened octets.now taken) link self.old self.new) }
        ensures fault { (result ≡ Err LinkError.NoLink) ↔ (length self.old.links ≤ link) }
        ensures err { OnErr result (self.new ≡ self.old) }
        ensures accepted { self.new.accepted ≡ self.old.accepted }
        ensures gone { self.new.gone ≡ self.old.gone ++ acknowledged (left_between (held_at self.old link) (held_at self.new link)) }
    {
        if link >= self.links.len() {
            return Err(LinkError::NoLink);
        }
        let taken = self.links[link].listen(octets, &mut self.gone);
        see(self.links.as_mut_slice(), &mut self.table, link);
        Ok(taken)
    }

    /// `Terminal::line_out` of a link.
    ///
    /// # Errors
    ///
    /// `K1 NoLink` if there is no such link, or `NoMemory`: nothing changes.
    pub fn line_out(&mut self, link: usize, units: usize) -> Result<Vec<u8>, LineError>
        ensures ok { IfOk result (λ octets. ByLink (Spoken units octets.items) link self.old self.new) }
        ensures fault { (result ≡ Err LineError.NoLink) ↔ (length self.old.links ≤ link) }
        ensures err { OnErr result (self.new ≡ self.old) }
        ensures accepted { self.new.accepted ≡ self.old.accepted }
        ensures gone { self.new.gone ≡ self.old.gone }
    {
        if link >= self.links.len() {
            return Err(LineError::NoLink);
        }
        match self.links[link].speak(units) {
            Ok(octets) => {
                see(self.links.as_mut_slice(), &mut self.table, link);
                Ok(octets)
            }
            Err(_) => Err(LineError::NoMemory),
        }
    }

    /// `Terminal::unit_out` of a link.
    ///
    /// # Errors
    ///
    /// `K1 NoLink` if there is no such link, or `NoMemory` to make room in its journal: nothing changes.
    pub fn unit_out(&mut self, link: usize) -> Result<Option<Unit>, LineError>
        ensures ok { IfOk result (λ unit. ByLink (Sent unit) link self.old self.new) }
        ensures fault { (result ≡ Err LineError.NoLink) ↔ (length self.old.links ≤ link) }
        ensures err { OnErr result (self.new ≡ self.old) }
        ensures low { (result ≡ Err LineError.NoMemory) → low_at (slice_get self.old.links link) ≡ true }
        ensures accepted { self.new.accepted ≡ self.old.accepted }
        ensures gone { self.new.gone ≡ self.old.gone }
    {
        if link >= self.links.len() {
            return Err(LineError::NoLink);
        }
        match self.links[link].send() {
            Ok(unit) => {
                see(self.links.as_mut_slice(), &mut self.table, link);
                Ok(unit)
            }
            Err(_) => Err(LineError::NoMemory),
        }
    }

    /// `Terminal::report` of a link.
    ///
    /// # Errors
    ///
    /// `K1 NoLink` if there is no such link: nothing changes.
    pub fn report(&mut self, link: usize) -> Result<Option<Report>, LinkError>
        ensures ok { IfOk result (λ report. ByLink (Reported report) link self.old self.new) }
        ensures fault { (result ≡ Err LinkError.NoLink) ↔ (length self.old.links ≤ link) }
        ensures err { OnErr result (self.new ≡ self.old) }
        ensures accepted { self.new.accepted ≡ self.old.accepted }
        ensures gone { self.new.gone ≡ self.old.gone }
    {
        if link >= self.links.len() {
            return Err(LinkError::NoLink);
        }
        let report = self.links[link].tell();
        see(self.links.as_mut_slice(), &mut self.table, link);
        Ok(report)
    }

    /// `Terminal::command` of a link, after which its buffers are cleared if its text requested that (Q.703, figure
    /// 13). The cleared messages count as unsure, except those bound to the link.
    ///
    /// # Errors
    ///
    /// `K1 NoLink` if there is no such link, `K2 Waiting` for Start until its changeover's messages are retrieved:
    /// nothing changes. Else as `Terminal::command`: nothing changes except room in its journal.
    pub fn command(&mut self, link: usize, command: Command) -> Result<(), CommandError>
        ensures none { (result ≡ Err CommandError.NoLink) ↔ (length self.old.links ≤ link) }
        ensures ok { OnOk result (ByCommand command link self.old self.new) }
        ensures err { IfErr result (IsCommandError command link self.old self.new) }
        ensures accepted { self.new.accepted ≡ self.old.accepted }
        ensures gone { self.new.gone ≡ self.old.gone ++ if_ok result (unsure (cleared_at command (slice_get self.old.links link))) }
    {
        if link >= self.links.len() {
            return Err(CommandError::NoLink);
        }
        let gone = self.with_cleared(link, command);
        match self.links[link].command(command) {
            Ok(cleared) => {
                self.gone = gone;
                self.unsure = self.unsure.saturating_add(cleared as u64);
                see(self.links.as_mut_slice(), &mut self.table, link);
                Ok(())
            }
            Err(fault) => Err(fault),
        }
    }
}
