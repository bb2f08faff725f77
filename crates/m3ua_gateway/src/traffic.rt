//! The cells of the table for DATA, ASPAC and ASPIA.
ghost use Rattle.std.specs.Prelude.{◌≡◌};
ghost use Rattle.m3ua_gateway.specs.Table.{on_active, on_active_with_others, on_inactive, on_inactive_with_others, on_data, on_other_data, on_long_data, on_stray_data, on_refused_data, on_stray, on_other_mode};

use crate::states::{Server, State};
use crate::table::Action;

pub(crate) fn on_active(state: State) -> (State, &'static [Action])
    ensures { (result.0, result.1.now) ≡ on_active state }
{
    match state {
        State::Down => (State::Down, &[Action::Error(6)]),
        State::Inactive => (
            State::Active,
            &[
                Action::ActiveAck,
                Action::Notify(Server::Active),
                Action::Destinations,
            ],
        ),
        State::Active => (State::Active, &[Action::ActiveAck]),
        State::DownPending => (State::DownPending, &[Action::Error(6)]),
        State::InactivePending => (
            State::Active,
            &[
                Action::ActiveAck,
                Action::Notify(Server::Active),
                Action::Destinations,
                Action::Release,
            ],
        ),
    }
}

pub(crate) fn on_active_with_others(state: State) -> (State, &'static [Action])
    ensures { (result.0, result.1.now) ≡ on_active_with_others state }
{
    match state {
        State::Down => (State::Down, &[Action::Error(6)]),
        State::Inactive => (
            State::Active,
            &[
                Action::ActiveAck,
                Action::Error(0x19),
                Action::Notify(Server::Active),
                Action::Destinations,
            ],
        ),
        State::Active => (State::Active, &[Action::ActiveAck, Action::Error(0x19)]),
        State::DownPending => (State::DownPending, &[Action::Error(6)]),
        State::InactivePending => (
            State::Active,
            &[
                Action::ActiveAck,
                Action::Error(0x19),
                Action::Notify(Server::Active),
                Action::Destinations,
                Action::Release,
            ],
        ),
    }
}

pub(crate) fn on_inactive(state: State) -> (State, &'static [Action])
    ensures { (result.0, result.1.now) ≡ on_inactive state }
{
    match state {
        State::Down => (State::Down, &[Action::Error(6)]),
        State::Inactive => (State::Inactive, &[Action::InactiveAck]),
        State::Active => (
            State::InactivePending,
            &[Action::InactiveAck, Action::Notify(Server::Pending)],
        ),
        State::DownPending => (State::DownPending, &[Action::Error(6)]),
        State::InactivePending => (State::InactivePending, &[Action::InactiveAck]),
    }
}

pub(crate) fn on_inactive_with_others(state: State) -> (State, &'static [Action])
    ensures { (result.0, result.1.now) ≡ on_inactive_with_others state }
{
    match state {
        State::Down => (State::Down, &[Action::Error(6)]),
        State::Inactive => (State::Inactive, &[Action::InactiveAck, Action::Error(0x19)]),
        State::Active => (
            State::InactivePending,
            &[
                Action::InactiveAck,
                Action::Error(0x19),
                Action::Notify(Server::Pending),
            ],
        ),
        State::DownPending => (State::DownPending, &[Action::Error(6)]),
        State::InactivePending => (
            State::InactivePending,
            &[Action::InactiveAck, Action::Error(0x19)],
        ),
    }
}

pub(crate) fn on_data(state: State) -> (State, &'static [Action])
    ensures { (result.0, result.1.now) ≡ on_data state }
{
    match state {
        State::Down => (State::Down, &[Action::Error(6), Action::Count]),
        State::Inactive => (State::Inactive, &[Action::Error(6), Action::Count]),
        State::Active => (State::Active, &[Action::Take]),
        State::DownPending => (State::DownPending, &[Action::Error(6), Action::Count]),
        State::InactivePending => (State::InactivePending, &[Action::Error(6), Action::Count]),
    }
}

pub(crate) fn on_other_data(state: State) -> (State, &'static [Action])
    ensures { (result.0, result.1.now) ≡ on_other_data state }
{
    match state {
        State::Down => (State::Down, &[Action::Error(6), Action::Count]),
        State::Inactive => (State::Inactive, &[Action::Error(6), Action::Count]),
        State::Active => (State::Active, &[Action::Error(0x11), Action::Count]),
        State::DownPending => (State::DownPending, &[Action::Error(6), Action::Count]),
        State::InactivePending => (State::InactivePending, &[Action::Error(6), Action::Count]),
    }
}

pub(crate) fn on_long_data(state: State) -> (State, &'static [Action])
    ensures { (result.0, result.1.now) ≡ on_long_data state }
{
    match state {
        State::Down => (State::Down, &[Action::Error(6), Action::Count]),
        State::Inactive => (State::Inactive, &[Action::Error(6), Action::Count]),
        State::Active => (State::Active, &[Action::Error(0x12), Action::Count]),
        State::DownPending => (State::DownPending, &[Action::Error(6), Action::Count]),
        State::InactivePending => (State::InactivePending, &[Action::Error(6), Action::Count]),
    }
}

pub(crate) fn on_stray_data(state: State) -> (State, &'static [Action])
    ensures { (result.0, result.1.now) ≡ on_stray_data state }
{
    match state {
        State::Down => (State::Down, &[Action::Error(6), Action::Count]),
        State::Inactive => (State::Inactive, &[Action::Error(0x19), Action::Count]),
        State::Active => (State::Active, &[Action::Error(0x19), Action::Count]),
        State::DownPending => (State::DownPending, &[Action::Error(6), Action::Count]),
        State::InactivePending => (
            State::InactivePending,
            &[Action::Error(0x19), Action::Count],
        ),
    }
}

pub(crate) fn on_refused_data(state: State) -> (State, &'static [Action])
    ensures { (result.0, result.1.now) ≡ on_refused_data state }
{
    match state {
        State::Down => (State::Down, &[Action::Refuse, Action::Count]),
        State::Inactive => (State::Inactive, &[Action::Refuse, Action::Count]),
        State::Active => (State::Active, &[Action::Refuse, Action::Count]),
        State::DownPending => (State::DownPending, &[Action::Refuse, Action::Count]),
        State::InactivePending => (State::InactivePending, &[Action::Refuse, Action::Count]),
    }
}

pub(crate) fn on_stray(state: State) -> (State, &'static [Action])
    ensures { (result.0, result.1.now) ≡ on_stray state }
{
    match state {
        State::Down => (State::Down, &[Action::Error(6)]),
        State::Inactive => (State::Inactive, &[Action::Error(0x19)]),
        State::Active => (State::Active, &[Action::Error(0x19)]),
        State::DownPending => (State::DownPending, &[Action::Error(6)]),
        State::InactivePending => (State::InactivePending, &[Action::Error(0x19)]),
    }
}

pub(crate) fn on_other_mode(state: State) -> (State, &'static [Action])
    ensures { (result.0, result.1.now) ≡ on_other_mode state }
{
    match state {
        State::Down => (State::Down, &[Action::Error(6)]),
        State::Inactive => (State::Inactive, &[Action::Error(5)]),
        State::Active => (State::Active, &[Action::Error(5)]),
        State::DownPending => (State::DownPending, &[Action::Error(6)]),
        State::InactivePending => (State::InactivePending, &[Action::Error(5)]),
    }
}
