//! Laws that hold over every list of calls.
ghost use Rattle.link_transceiver.specs.Laws.{KeepsUnacknowledged, CountsCleared, HandsOutInOrder, BusyGoesOutOnce, Withholds, HoldsBack, DiscardsBehindOdd};

/// A received unit removes exactly the messages that it acknowledges, the oldest sent ones, from those held for
/// sending. Otherwise only `retrieve` removes any: it empties the buffers and hands out the messages after its number.
/// Without a number, it hands out those not yet sent since both directions last restarted.
pub fn unacknowledged_messages_are_kept()
    ensures { KeepsUnacknowledged }
{}

/// `clear` removes all messages held for sending, and counts them; the numbers continue. No other call counts any.
pub fn cleared_messages_are_counted()
    ensures { CountsCleared }
{}

/// If `Odd` reports abnormal units, the unit after one acknowledges nothing, requests nothing and isn't accepted.
pub fn units_behind_odd_ones_are_discarded()
    ensures { DiscardsBehindOdd }
{}

/// Over every list of signals, units and reports, the messages handed out followed by those still waiting are the
/// accepted ones: none is lost, none comes twice, and their order stays.
pub fn accepted_messages_are_handed_out_in_order()
    ensures { HandsOutInOrder }
{}

/// While acknowledgement is withheld, each unit sent has the backward number and bit of when that began, whatever is
/// received. So a message accepted meanwhile isn't acknowledged, and retransmission of a lost one isn't requested.
pub fn withheld_acknowledgement_stays()
    ensures { Withholds }
{}

/// A requested busy status is sent once, and then what was sent before.
pub fn busy_goes_out_once()
    ensures { BusyGoesOutOnce }
{}

/// While level 3 holds a link, no message is sent or accepted; messages to send and the last accepted number stay.
/// Faults count as usual. Level 3 ends a hold, or, if held until then, a restart of both directions.
pub fn held_messages_stay()
    ensures { HoldsBack }
{}
