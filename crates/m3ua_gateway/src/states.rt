//! Where an ASP and its AS are.
ghost use Rattle.std.specs.Prelude.{◌≡◌};
ghost use Rattle.m3ua_gateway.specs.States.{asp_in, server_in, is_pending, is_active};

/// States of an ASP (RFC 4666, 4.3.1).
#[derive(Clone, Copy, Debug, PartialEq, Eq)]
pub enum Asp {
    /// ASP-DOWN.
    Down,
    /// ASP-INACTIVE.
    Inactive,
    /// ASP-ACTIVE.
    Active,
}

/// States of an application server (RFC 4666, 4.3.2).
#[derive(Clone, Copy, Debug, PartialEq, Eq)]
pub enum Server {
    /// AS-DOWN.
    Down,
    /// AS-INACTIVE.
    Inactive,
    /// AS-ACTIVE.
    Active,
    /// AS-PENDING: T(r) runs, and messages are kept.
    Pending,
}

/// The pairs of both that one ASP in one AS can reach.
#[derive(Clone, Copy, Debug, PartialEq, Eq)]
pub enum State {
    /// Both down.
    Down,
    /// Both inactive.
    Inactive,
    /// Both active.
    Active,
    /// ASP-DOWN, AS-PENDING.
    DownPending,
    /// ASP-INACTIVE, AS-PENDING.
    InactivePending,
}

impl State {
    /// The state of the ASP.
    pub fn asp(self) -> Asp
        ensures { result ≡ asp_in self }
    {
        match self {
            State::Down | State::DownPending => Asp::Down,
            State::Inactive | State::InactivePending => Asp::Inactive,
            State::Active => Asp::Active,
        }
    }

    /// The state of the AS.
    pub fn server(self) -> Server
        ensures { result ≡ server_in self }
    {
        match self {
            State::Down => Server::Down,
            State::Inactive => Server::Inactive,
            State::Active => Server::Active,
            State::DownPending | State::InactivePending => Server::Pending,
        }
    }

    /// Whether T(r) runs, and messages are kept.
    pub fn is_pending(self) -> bool
        ensures { result ≡ is_pending (server_in self) }
    {
        match self {
            State::DownPending | State::InactivePending => true,
            State::Down | State::Inactive | State::Active => false,
        }
    }
    /// Whether DATA is taken and sent.
    pub fn is_active(self) -> bool
        ensures { result ≡ is_active self }
    {
        match self {
            State::Active => true,
            State::Down | State::Inactive | State::DownPending | State::InactivePending => false,
        }
    }
}
