//! Laws of a terminal. Calling one costs nothing.
ghost use Rattle.link_term.specs.Laws.{CuttingsAgree, Delivers, StaysKept};

/// Octets taken in two calls have the same effect as in one.
pub fn cuttings_agree()
    ensures { CuttingsAgree }
{}

/// Octets taken add the messages that the receiver accepts, in order, to those that wait to be handed out.
pub fn accepted_messages_are_delivered()
    ensures { Delivers }
{
    link_processes::accepted_messages_wait_in_order();
}

/// Octets taken remove the messages that their units acknowledge, the oldest sent ones first, from those held for
/// sending, and nothing else.
pub fn unacknowledged_messages_stay()
    ensures { StaysKept }
{
    link_processes::unacknowledged_messages_stay();
}
