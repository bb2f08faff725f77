//! The text `standard`, one part in each file. `concat!` takes only literals, so each part is a macro. It appends its
//! literal to those that it receives, and passes them on to the part named next.
mod declarations;
mod error_rate_monitors;
mod initial_alignment_control;
mod link_state_control;
mod outage_and_congestion;
mod reception_control;
mod transmission_control;

use declarations::declarations;
use error_rate_monitors::error_rate_monitors;
use initial_alignment_control::initial_alignment_control;
use link_state_control::link_state_control;
use outage_and_congestion::outage_and_congestion;
use reception_control::reception_control;
use transmission_control::transmission_control;

/// Joins the parts in order.
macro_rules! joined {
    ([$($part:literal)*]) => {
        concat!($($part),*)
    };
}

/// The signalling link terminal (Q.703) as eight processes: link state control, initial alignment control, the two error
/// rate monitors, transmission control, reception control, processor outage control and congestion control.
pub const STANDARD: &str = declarations!([]
    link_state_control
    initial_alignment_control
    error_rate_monitors
    transmission_control
    reception_control
    outage_and_congestion
    joined);
