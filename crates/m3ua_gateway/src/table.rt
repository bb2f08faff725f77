//! The table of states.
ghost use Rattle.std.specs.Prelude.{◌≡◌};
ghost use Rattle.m3ua_gateway.specs.Asking.{is_data};
ghost use Rattle.m3ua_gateway.specs.Table.{step, on_ended, on_expired, on_up, on_down, on_beat, on_audit, on_register, on_congestion, on_error, on_other, on_refused, on_reach};

use crate::states::{Server, State};
use crate::traffic::{
    on_active, on_active_with_others, on_data, on_inactive, on_inactive_with_others, on_long_data,
    on_other_data, on_other_mode, on_refused_data, on_stray, on_stray_data,
};

/// What happens to the gateway.
#[derive(Clone, Copy, Debug, PartialEq, Eq)]
pub enum Happening {
    /// The stream ended.
    Ended,
    /// T(r) ran out.
    Expired,
    /// ASPUP.
    Up,
    /// ASPDN.
    Down,
    /// ASPAC with our routing context, or with none.
    Active,
    /// ASPAC with our routing context and others.
    ActiveWithOthers,
    /// ASPIA with our routing context, or with none.
    Inactive,
    /// ASPIA with our routing context and others.
    InactiveWithOthers,
    /// DATA with our routing context, or with none, whose protocol data is an MTP message with a service indicator of 3
    /// or more.
    Data,
    /// DATA with our routing context, or with none, whose protocol data is none because of a value in it.
    OtherData,
    /// DATA with our routing context, or with none, with more than 268 octets of user data.
    LongData,
    /// DATA with another routing context.
    StrayData,
    /// Octets with the class and the type of DATA that are no message.
    RefusedData,
    /// ASPAC or ASPIA without our routing context; DAUD or SCON with another one.
    Stray,
    /// ASPAC with our routing context, and a traffic mode that isn't override, loadshare or broadcast.
    OtherMode,
    /// BEAT.
    Beat,
    /// DAUD with our routing context, or with none.
    Audit,
    /// REG REQ.
    Register,
    /// SCON with our routing context, or with none.
    Congestion,
    /// ERR.
    Error,
    /// Any other message.
    Other,
    /// Octets that are no message, and neither those of ERR nor of DATA.
    Refused,
    /// The destinations become reached, or are no longer reached.
    Reach,
}

/// What the gateway does.
#[derive(Clone, Copy, Debug, PartialEq, Eq)]
pub enum Action {
    /// Sends ASPUP ACK.
    UpAck,
    /// Sends ASPDN ACK.
    DownAck,
    /// Sends BEAT ACK with the same parameters.
    BeatAck,
    /// Sends ASPAC ACK.
    ActiveAck,
    /// Sends ASPIA ACK.
    InactiveAck,
    /// Sends NTFY of this state of the AS.
    Notify(Server),
    /// Sends ERR with this code.
    Error(u32),
    /// Sends ERR with the code of what is wrong with the octets.
    Refuse,
    /// Sends DAVA or DUNA of each destination.
    Destinations,
    /// Sends DAVA or DUNA of each destination that was asked for.
    Audited,
    /// Sends REG RSP for each routing key.
    Registered,
    /// Takes the message into the queue of its selection.
    Take,
    /// Counts a message that was refused.
    Count,
    /// Sends what was kept.
    Release,
    /// Throws away what was kept, and counts it.
    Lose,
}

fn on_ended(state: State) -> (State, &'static [Action])
    ensures { (result.0, result.1.now) ≡ on_ended state }
{
    match state {
        State::Down => (State::Down, &[]),
        State::Inactive => (State::Down, &[]),
        State::Active => (State::DownPending, &[]),
        State::DownPending => (State::DownPending, &[]),
        State::InactivePending => (State::DownPending, &[]),
    }
}

fn on_expired(state: State) -> (State, &'static [Action])
    ensures { (result.0, result.1.now) ≡ on_expired state }
{
    match state {
        State::Down => (State::Down, &[]),
        State::Inactive => (State::Inactive, &[]),
        State::Active => (State::Active, &[]),
        State::DownPending => (State::Down, &[Action::Lose]),
        State::InactivePending => (
            State::Inactive,
            &[Action::Lose, Action::Notify(Server::Inactive)],
        ),
    }
}

fn on_up(state: State) -> (State, &'static [Action])
    ensures { (result.0, result.1.now) ≡ on_up state }
{
    match state {
        State::Down => (
            State::Inactive,
            &[Action::UpAck, Action::Notify(Server::Inactive)],
        ),
        State::Inactive => (State::Inactive, &[Action::UpAck]),
        State::Active => (
            State::InactivePending,
            &[
                Action::UpAck,
                Action::Error(6),
                Action::Notify(Server::Pending),
            ],
        ),
        State::DownPending => (
            State::InactivePending,
            &[Action::UpAck, Action::Notify(Server::Pending)],
        ),
        State::InactivePending => (State::InactivePending, &[Action::UpAck]),
    }
}

fn on_down(state: State) -> (State, &'static [Action])
    ensures { (result.0, result.1.now) ≡ on_down state }
{
    match state {
        State::Down => (State::Down, &[Action::DownAck]),
        State::Inactive => (State::Down, &[Action::DownAck]),
        State::Active => (State::DownPending, &[Action::DownAck]),
        State::DownPending => (State::DownPending, &[Action::DownAck]),
        State::InactivePending => (State::DownPending, &[Action::DownAck]),
    }
}

fn on_beat(state: State) -> (State, &'static [Action])
    ensures { (result.0, result.1.now) ≡ on_beat state }
{
    match state {
        State::Down => (State::Down, &[Action::BeatAck]),
        State::Inactive => (State::Inactive, &[Action::BeatAck]),
        State::Active => (State::Active, &[Action::BeatAck]),
        State::DownPending => (State::DownPending, &[Action::BeatAck]),
        State::InactivePending => (State::InactivePending, &[Action::BeatAck]),
    }
}

fn on_audit(state: State) -> (State, &'static [Action])
    ensures { (result.0, result.1.now) ≡ on_audit state }
{
    match state {
        State::Down => (State::Down, &[Action::Error(6)]),
        State::Inactive => (State::Inactive, &[Action::Error(6)]),
        State::Active => (State::Active, &[Action::Audited]),
        State::DownPending => (State::DownPending, &[Action::Error(6)]),
        State::InactivePending => (State::InactivePending, &[Action::Error(6)]),
    }
}

fn on_register(state: State) -> (State, &'static [Action])
    ensures { (result.0, result.1.now) ≡ on_register state }
{
    match state {
        State::Down => (State::Down, &[Action::Error(6)]),
        State::Inactive => (State::Inactive, &[Action::Registered]),
        State::Active => (State::Active, &[Action::Registered]),
        State::DownPending => (State::DownPending, &[Action::Error(6)]),
        State::InactivePending => (State::InactivePending, &[Action::Registered]),
    }
}

fn on_congestion(state: State) -> (State, &'static [Action])
    ensures { (result.0, result.1.now) ≡ on_congestion state }
{
    match state {
        State::Down => (State::Down, &[Action::Error(6)]),
        State::Inactive => (State::Inactive, &[]),
        State::Active => (State::Active, &[]),
        State::DownPending => (State::DownPending, &[Action::Error(6)]),
        State::InactivePending => (State::InactivePending, &[]),
    }
}

fn on_error(state: State) -> (State, &'static [Action])
    ensures { (result.0, result.1.now) ≡ on_error state }
{
    match state {
        State::Down => (State::Down, &[]),
        State::Inactive => (State::Inactive, &[]),
        State::Active => (State::Active, &[]),
        State::DownPending => (State::DownPending, &[]),
        State::InactivePending => (State::InactivePending, &[]),
    }
}

fn on_other(state: State) -> (State, &'static [Action])
    ensures { (result.0, result.1.now) ≡ on_other state }
{
    match state {
        State::Down => (State::Down, &[Action::Error(6)]),
        State::Inactive => (State::Inactive, &[Action::Error(6)]),
        State::Active => (State::Active, &[Action::Error(6)]),
        State::DownPending => (State::DownPending, &[Action::Error(6)]),
        State::InactivePending => (State::InactivePending, &[Action::Error(6)]),
    }
}

fn on_refused(state: State) -> (State, &'static [Action])
    ensures { (result.0, result.1.now) ≡ on_refused state }
{
    match state {
        State::Down => (State::Down, &[Action::Refuse]),
        State::Inactive => (State::Inactive, &[Action::Refuse]),
        State::Active => (State::Active, &[Action::Refuse]),
        State::DownPending => (State::DownPending, &[Action::Refuse]),
        State::InactivePending => (State::InactivePending, &[Action::Refuse]),
    }
}

fn on_reach(state: State) -> (State, &'static [Action])
    ensures { (result.0, result.1.now) ≡ on_reach state }
{
    match state {
        State::Down => (State::Down, &[]),
        State::Inactive => (State::Inactive, &[]),
        State::Active => (State::Active, &[Action::Destinations]),
        State::DownPending => (State::DownPending, &[]),
        State::InactivePending => (State::InactivePending, &[]),
    }
}

impl Happening {
    /// Whether it is DATA that carries a message for level 4.
    pub fn is_data(self) -> bool
        ensures { result ≡ is_data self }
    {
        match self {
            Happening::Data => true,
            Happening::Ended | Happening::Expired | Happening::Up | Happening::Down => false,
            Happening::Active | Happening::ActiveWithOthers | Happening::Inactive => false,
            Happening::InactiveWithOthers | Happening::OtherData | Happening::LongData => false,
            Happening::StrayData | Happening::RefusedData | Happening::Stray => false,
            Happening::OtherMode | Happening::Beat | Happening::Audit => false,
            Happening::Register | Happening::Congestion | Happening::Error => false,
            Happening::Other | Happening::Refused | Happening::Reach => false,
        }
    }
}

impl State {
    /// Where the gateway is after what happens, and what it does, in this order.
    pub fn step(self, happening: Happening) -> (State, &'static [Action])
        ensures { (result.0, result.1.now) ≡ step self happening }
    {
        match happening {
            Happening::Ended => on_ended(self),
            Happening::Expired => on_expired(self),
            Happening::Up => on_up(self),
            Happening::Down => on_down(self),
            Happening::Active => on_active(self),
            Happening::ActiveWithOthers => on_active_with_others(self),
            Happening::Inactive => on_inactive(self),
            Happening::InactiveWithOthers => on_inactive_with_others(self),
            Happening::Data => on_data(self),
            Happening::OtherData => on_other_data(self),
            Happening::LongData => on_long_data(self),
            Happening::StrayData => on_stray_data(self),
            Happening::RefusedData => on_refused_data(self),
            Happening::Stray => on_stray(self),
            Happening::OtherMode => on_other_mode(self),
            Happening::Beat => on_beat(self),
            Happening::Audit => on_audit(self),
            Happening::Register => on_register(self),
            Happening::Congestion => on_congestion(self),
            Happening::Error => on_error(self),
            Happening::Other => on_other(self),
            Happening::Refused => on_refused(self),
            Happening::Reach => on_reach(self),
        }
    }
}
