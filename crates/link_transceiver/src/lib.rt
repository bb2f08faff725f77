//! The transmission and reception control of a signalling link terminal, without its processes (Q.703): the
//! retransmission and receive stores, the units sent and received, abnormal units and reports to level 3.
#![tactic(auto)]

mod clearing;
mod effects;
mod faults;
mod glances;
mod hearing;
mod kept;
mod laws;
mod measures;
mod measuring;
mod offers;
mod sending;
mod signals;
mod transceiver;

pub use faults::Fault;
pub use glances::{Glance, Seen, seen_of};
pub use hearing::Offers;
pub use laws::{
    accepted_messages_are_handed_out_in_order, busy_goes_out_once, cleared_messages_are_counted,
    held_messages_stay, unacknowledged_messages_are_kept, units_behind_odd_ones_are_discarded,
    withheld_acknowledgement_stays,
};
pub use measures::{Errors, Failures, Measures, Rounds, Spells, Traffic};
pub use offers::{Notice, Offer, Party, UnitOut, counting_offers, error_offers};
pub use signals::{
    BUSY, Backward, EnvSignal, Hold, LineKind, LinkStatus, MESSAGES, Report, STATUSES,
};
pub use transceiver::Transceiver;
