//! The limits of a link's memory.

ghost use Rattle.std.specs.Prelude.{◌≡◌, ◌↔◌, ◌≤◌, IsSome, IfSome};
ghost use Rattle.actor_book.specs.Limits.{AreLimits};
ghost use Rattle.plain_laws.specs.Limits.{LEAST_ENVIRONMENT, LEAST_JOURNAL, LEAST_PORT, MOST_ENVIRONMENT, MOST_JOURNAL, MOST_PORT};

use std::marker::Model;

/// How many signals each port may hold (1 to 64), how many may wait for the environment (1 to 1,024), and how many events
/// the journal may hold (16 to 65,536).
#[derive(Clone, Copy, PartialEq, Eq, Debug)]
pub struct Limits {
    port: usize,
    env: usize,
    journal: usize,
}

impl Model for Limits {
    ghost use Rattle.actor_book.specs.Limits.{LimitNumbers, AreLimits};

    ghost Value = { LimitNumbers };

    ghost view = { λ l. record { port = l.port; env = l.env; journal = l.journal } };

    ghost invariant = { λ l. AreLimits l.port l.env l.journal };

    ghost inverse = { λ v. record { port = v.port; env = v.env; journal = v.journal } };
}

impl Limits {
    /// These limits, if each is in its range.
    pub fn new(port: usize, env: usize, journal: usize) -> Option<Limits>
        ensures fits { IsSome result ↔ AreLimits port env journal }
        ensures value { IfSome result (λ l. l ≡ record { port = port; env = env; journal = journal }) }
    {
        if port < 1 || port > 64 {
            return None;
        }
        if env < 1 || env > 1024 {
            return None;
        }
        if journal < 16 || journal > 65_536 {
            return None;
        }
        Some(Limits { port, env, journal })
    }

    /// How many signals each port may hold.
    pub fn port(self) -> usize
        ensures value { result ≡ self.port }
        ensures least { LEAST_PORT ≤ result }
        ensures most { result ≤ MOST_PORT }
    {
        self.port
    }

    /// How many signals may wait for the environment.
    pub fn env(self) -> usize
        ensures value { result ≡ self.env }
        ensures least { LEAST_ENVIRONMENT ≤ result }
        ensures most { result ≤ MOST_ENVIRONMENT }
    {
        self.env
    }

    /// How many events the journal may hold.
    pub fn journal(self) -> usize
        ensures value { result ≡ self.journal }
        ensures least { LEAST_JOURNAL ≤ result }
        ensures most { result ≤ MOST_JOURNAL }
    {
        self.journal
    }
}
