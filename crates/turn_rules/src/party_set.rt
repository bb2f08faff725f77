//! Sets of parties.

ghost use Rattle.std.specs.Prelude.{◌≡◌, ◌≤◌, ◌+◌, ◌↔◌, ℕ, true, ◌&&◌, ◌||◌, eqb, ltb, IsTrue};
ghost use Rattle.turn_rules.specs.Parties.{seat, holds};
ghost use Rattle.plain_laws.specs.Limits.{MOST_PROCESSES};

use turn_code::Party;

/// A set of parties: bit 0 is the environment, bit n + 1 is process n, and the last bit is all processes from 30 on.
#[derive(Clone, Copy)]
pub(crate) struct PartySet(u32);

/// The bit of a party.
fn seat(party: Party) -> u32
    ensures value { result ≡ seat party }
    ensures small { result ≤ 31 }
{
    match party {
        Party::Environment => 0,
        Party::Process(number) => 1 + u32::from(number.0.min(30)),
    }
}

impl PartySet {
    /// The empty set.
    pub(crate) const NONE: PartySet = PartySet(0);

    /// The environment and the first `count` processes.
    pub(crate) fn of_first(count: usize) -> PartySet
        requires { count ≤ MOST_PROCESSES }
        ensures { (b : ℕ) → holds result b ≡ ltb b (1 + count) }
    {
        PartySet(u32::MAX >> (31 - count))
    }

    /// Whether a party is in the set.
    pub(crate) fn has(self, party: Party) -> bool
        ensures { result ≡ holds self (seat party) }
    {
        self.0 >> seat(party) & 1 == 1
    }

    /// The set with one more party.
    pub(crate) fn with(self, party: Party) -> PartySet
        ensures { (b : ℕ) → holds result b ≡ (holds self b || eqb (seat party) b) }
    {
        PartySet(self.0 | 1 << seat(party))
    }

    /// The parties that are in both sets.
    pub(crate) fn and(self, other: PartySet) -> PartySet
        ensures { (b : ℕ) → holds result b ≡ (holds self b && holds other b) }
    {
        PartySet(self.0 & other.0)
    }

    /// Whether each party of the set is in the other too.
    pub(crate) fn is_within(self, other: PartySet) -> bool
        ensures { IsTrue result ↔ ((b : ℕ) → holds self b ≡ true → holds other b ≡ true) }
    {
        self.0 & other.0 == self.0
    }
}
