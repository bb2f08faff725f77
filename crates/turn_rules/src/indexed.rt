//! A draft with the table of its routes.

ghost use Rattle.std.specs.Prelude.{◌≡◌, ◌<◌, ◌↔◌, ℕ, true, Any, length};
ghost use Rattle.turn_code.specs.declared.input.Party.{Party as AnyParty};
ghost use Rattle.turn_code.specs.Routes.{IsPartyOf, Reaches};
ghost use Rattle.turn_code.specs.Rules.{KeepsSetLimits};
ghost use Rattle.turn_rules.specs.Parties.{seat, holds};
ghost use Rattle.turn_rules.specs.RouteTables.{ComesFrom};

use crate::party_set::PartySet;
use crate::route_table::RouteTable;
use std::marker::Model;
use turn_code::{Draft, ProcessNumber, SignalNumber};

/// A draft with a table of its routes; contracts see the draft.
#[derive(Drop)]
pub struct IndexedDraft<'a> {
    draft: &'a Draft,
    table: RouteTable,
}

impl<'a> Model for IndexedDraft<'a> {
    ghost use Rattle.turn_code.specs.declared.draft.Draft.{Draft as PlainDraft};
    ghost use Rattle.std.specs.List.{flat_map};
    ghost use Rattle.turn_rules.specs.RouteTables.{mentions_of, Tells};

    ghost Value = { PlainDraft };

    ghost view = { λ i. i.draft.now };

    ghost invariant = { λ i. Tells i.table (flat_map mentions_of i.draft.now.routes) };
}

impl<'a> IndexedDraft<'a> {
    /// The draft with its table, which is built in one pass over the routes.
    pub fn new(draft: &'a Draft) -> Self
        ensures { result ≡ draft.now }
    {
        IndexedDraft {
            draft,
            table: RouteTable::new(draft.routes.as_slice()),
        }
    }

    /// The draft without its table.
    pub fn plain(&self) -> &Draft
        ensures { result.now ≡ self.now }
    {
        self.draft
    }

    /// The declared parties to which some route takes a signal from a process.
    pub(crate) fn reached(&self, process: ProcessNumber, signal: SignalNumber) -> PartySet
        requires limits { KeepsSetLimits self.now }
        requires process { process.0 < length self.now.processes }
        ensures { (x : AnyParty) → (holds result (seat x) ≡ true) ↔ (IsPartyOf self.now.processes x × Reaches self.now.routes process.0 x signal) }
    {
        let there = PartySet::of_first(self.draft.processes.len());
        self.table.receivers.get(process, signal).and(there)
    }

    /// The parties from which some route brings a signal to a process.
    pub(crate) fn senders(&self, process: ProcessNumber, signal: SignalNumber) -> PartySet
        requires limits { KeepsSetLimits self.now }
        requires process { process.0 < length self.now.processes }
        ensures { (b : ℕ) → (holds result b ≡ true) ↔ Any (ComesFrom b process.0 signal) self.now.routes }
    {
        self.table.senders.get(process, signal)
    }
}
