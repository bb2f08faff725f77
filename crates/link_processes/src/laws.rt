//! Laws of a terminal's steps. Calling one costs nothing.
ghost use Rattle.link_processes.specs.Laws.{RestLaw, MessagesLaw, KeptLaw};

use actor_book::{failed_tries_change_nothing, turns_are_of_the_least};
use link_transceiver::{
    accepted_messages_are_handed_out_in_order, unacknowledged_messages_are_kept,
};

/// A rest is a run of turns, each of the least actor that can. After each, all signals to the environment are obeyed.
pub fn rests_are_runs()
    ensures { RestLaw }
{
    turns_are_of_the_least();
    failed_tries_change_nothing();
}

/// The messages that wait to be handed out are the accepted ones, in order. No offer and no rest changes them.
pub fn accepted_messages_wait_in_order()
    ensures { MessagesLaw }
{
    accepted_messages_are_handed_out_in_order();
}

/// A received unit removes the messages that it acknowledges from those held for sending, and nothing else removes any.
pub fn unacknowledged_messages_stay()
    ensures { KeptLaw }
{
    unacknowledged_messages_are_kept();
}
