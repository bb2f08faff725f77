//! Both error corrections of Q.703 for one signalling link: the messages sent and not acknowledged, the next unit to
//! send, and the received messages to accept.
#![tactic(auto)]

mod laws;
mod measures;
mod messages;
mod numbers;
mod receiving;
mod refusals;
mod sending;
mod store;

pub use laws::{
    accepted_units_are_in_turn, kept_window_stands_for_all_messages,
    messages_are_delivered_in_order, new_messages_go_out_in_order, retrieval_completes_delivery,
};
pub use measures::{Measure, all_measures, measure_named};
pub use messages::{
    FORCED_MESSAGES, FORCED_OCTETS, LEAST_FORCED_OCTETS, MAX_KEPT, MAX_UNACKNOWLEDGED, MAX_WAITING,
    Mode, Msu, Outgoing, RoundLimits, USUAL_LIMITS, Verdict,
};
pub use receiving::Receiver;
pub use refusals::{AckError, PutError, RetrieveError, UnitError};
pub use sending::Sender;
