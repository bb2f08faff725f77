//! Laws over every list of calls.
ghost use Rattle.resend_store.specs.Exchange.{DeliversInOrder, RetrievalCompletes};
ghost use Rattle.resend_store.specs.Hearings.{AcceptsInTurn};
ghost use Rattle.resend_store.specs.Runs.{NewInOrder};
ghost use Rattle.resend_store.specs.Whole.{KeptIsEnough};

/// Since `Sender::new`, the last `fresh` or the last accepted `retrieve`, messages go out for the first time in order
/// and without a gap: those held right after that call, then those put since. Their numbers rise by one modulo 128,
/// from 0, or after `retrieve` from one after the last acknowledged.
pub fn new_messages_go_out_in_order()
    ensures { NewInOrder }
{}

/// The window that a sender keeps represents the window over all messages ever given to it. Over every list of calls
/// both return the same results.
pub fn kept_window_stands_for_all_messages()
    ensures { KeptIsEnough }
{}

/// Over every list of units, whatever their numbers and bits, the accepted ones carry messages. Their numbers rise by
/// one modulo 128: from 0 after `Receiver::new` and `fresh`, otherwise from one after the last accepted.
pub fn accepted_units_are_in_turn()
    ensures { AcceptsInTurn }
{}

/// Over lines that may lose and delay units but never reorder them, the accepted messages are a prefix of those that
/// the sender took: none in between is lost, none is accepted twice, and the order stays.
pub fn messages_are_delivered_in_order()
    ensures { DeliversInOrder }
{}

/// Over such lines, after both sides start over: the messages accepted and then those retrieved with the number
/// accepted last are those that the sender took, if nothing is accepted after that number is reported (a held link).
pub fn retrieval_completes_delivery()
    ensures { RetrievalCompletes }
{}
