//! The rules on receivers: the first OUTPUT that no party receives, or that more than one receives.
ghost use Rattle.std.specs.Prelude.{◌≡◌, List, Some, map};
ghost use Rattle.std.specs.List.{flat_map};
ghost use Rattle.sdl_ast.specs.Views.{sending_of, action_of, process_of, block_of};
ghost use Rattle.sdl_tables.specs.Scopes.{Marks};
ghost use Rattle.sdl_sound.specs.Receivers.{party_of, arrives, lost_sending, lost_action, is_doubtful, doubtful_sending, doubtful_action};
ghost use Rattle.sdl_sound.specs.Actions.{Origin};
ghost use Rattle.sdl_scopes.specs.Known.{Knows};
ghost use Rattle.sdl_rules.specs.Asked.{back_destination, back_action};
ghost use Rattle.sdl_scopes.specs.Founds.{Counts};

use crate::known::all_get;
use crate::sender_table::party_of;
use sdl_ast::{Action, Destination, Party, Sending};
use sdl_lex::Name;
use sdl_scopes::{KnownSenders, Recipients, find_receivers};
use sdl_tables::{BlockTable, ProcessTable, earlier};

/// Whether a signal reaches the destination that it names.
fn arrives_at(
    block: &BlockTable,
    process: &ProcessTable,
    from: &KnownSenders,
    to: &Destination,
    signal: Name,
) -> bool
    ensures { (os : List Origin) → Knows (block_of block.now) (process_of process.now) from.now os
        → result ≡ arrives (block_of block.now) (process_of process.now) os (Some to.now) signal }
{
    match to {
        Destination::Sender(_) => all_get(from, block, process, signal),
        Destination::Process(id) => {
            block.carries(&party_of(process), &Party::Process(*id), signal)
        }
    }
}

/// Whether a signal reaches its destination or, if it names none, any party.
fn arrives(
    block: &BlockTable,
    process: &ProcessTable,
    from: &KnownSenders,
    to: &Option<Destination>,
    signal: Name,
) -> bool
    ensures { (os : List Origin) → Knows (block_of block.now) (process_of process.now) from.now os
        → result ≡ arrives (block_of block.now) (process_of process.now) os to.now signal }
{
    match to {
        None => match find_receivers(block, &party_of(process), signal) {
            Recipients::Nobody => false,
            Recipients::One(_) => true,
            Recipients::Several => true,
        },
        Some(to) => arrives_at(block, process, from, to, signal),
    }
}

/// The place of a signal in a sending that nobody receives.
fn lost_sending(
    block: &BlockTable,
    process: &ProcessTable,
    from: &KnownSenders,
    to: &Option<Destination>,
    sending: &Sending,
) -> Option<u32>
    ensures { (os : List Origin) → Knows (block_of block.now) (process_of process.now) from.now os
        → Marks result (lost_sending (block_of block.now) (process_of process.now) os to.now (sending_of sending.now)) }
{
    if arrives(block, process, from, to, sending.signal.name) {
        None
    } else {
        Some(sending.signal.at)
    }
}

/// The place of a signal in sendings that nobody receives.
fn lost_sendings(
    block: &BlockTable,
    process: &ProcessTable,
    from: &KnownSenders,
    to: &Option<Destination>,
    sendings: &[Sending],
) -> Option<u32>
    ensures { (os : List Origin) → Knows (block_of block.now) (process_of process.now) from.now os
        → Marks result (flat_map (lost_sending (block_of block.now) (process_of process.now) os to.now) (map sending_of sendings.now)) }
{
    let mut place = None;
    for sending in sendings {
        place = earlier(place, lost_sending(block, process, from, to, sending));
    }
    place
}

/// The place of a signal in an action that nobody receives.
pub(crate) fn lost_in_action(
    block: &BlockTable,
    process: &ProcessTable,
    from: &KnownSenders,
    action: &Action,
) -> Option<u32>
    ensures { (os : List Origin) → Knows (block_of block.now) (process_of process.now) from.now os
        → Marks result (lost_action (block_of block.now) (process_of process.now) os (action_of action.now)) }
{
    match action {
        Action::Task(_) => None,
        Action::Output(output) => {
            lost_sendings(block, process, from, &output.to, &output.sendings)
        }
        Action::Set(_) => None,
        Action::Reset(_) => None,
    }
}

/// Whether two or more parties receive a signal that names no destination.
fn is_doubtful(
    block: &BlockTable,
    process: &ProcessTable,
    to: &Option<Destination>,
    signal: Name,
) -> bool
    ensures { result ≡ is_doubtful (block_of block.now) (process_of process.now) to.now signal }
{
    match to {
        None => match find_receivers(block, &party_of(process), signal) {
            Recipients::Nobody => false,
            Recipients::One(_) => false,
            Recipients::Several => true,
        },
        Some(_) => false,
    }
}

/// The place of a signal in a sending that two or more parties receive.
fn doubtful_sending(
    block: &BlockTable,
    process: &ProcessTable,
    to: &Option<Destination>,
    sending: &Sending,
) -> Option<u32>
    ensures { Marks result (doubtful_sending (block_of block.now) (process_of process.now) to.now (sending_of sending.now)) }
{
    if is_doubtful(block, process, to, sending.signal.name) {
        Some(sending.signal.at)
    } else {
        None
    }
}

/// The place of a signal in sendings that two or more parties receive.
fn doubtful_sendings(
    block: &BlockTable,
    process: &ProcessTable,
    to: &Option<Destination>,
    sendings: &[Sending],
) -> Option<u32>
    ensures { Marks result (flat_map (doubtful_sending (block_of block.now) (process_of process.now) to.now) (map sending_of sendings.now)) }
{
    let mut place = None;
    for sending in sendings {
        place = earlier(place, doubtful_sending(block, process, to, sending));
    }
    place
}

/// The place of a signal in an action that two or more parties receive.
pub(crate) fn doubtful_in_action(
    block: &BlockTable,
    process: &ProcessTable,
    action: &Action,
) -> Option<u32>
    ensures { Marks result (doubtful_action (block_of block.now) (process_of process.now) (action_of action.now)) }
{
    match action {
        Action::Task(_) => None,
        Action::Output(output) => doubtful_sendings(block, process, &output.to, &output.sendings),
        Action::Set(_) => None,
        Action::Reset(_) => None,
    }
}

/// The place of TO SENDER, if this is the destination.
fn back_to(to: &Option<Destination>) -> Option<u32>
    ensures { Marks result (back_destination to.now) }
{
    match to {
        None => None,
        Some(Destination::Sender(at)) => Some(*at),
        Some(Destination::Process(_)) => None,
    }
}

/// The place of TO SENDER in an action, if this is its destination.
pub(crate) fn back_in_action(action: &Action) -> Option<u32>
    ensures { Marks result (back_action (action_of action.now)) }
{
    match action {
        Action::Task(_) => None,
        Action::Output(output) => back_to(&output.to),
        Action::Set(_) => None,
        Action::Reset(_) => None,
    }
}
