//! Changeover of one link of a set (Q.704, section 5): labels, the four messages as octets, the state of a link in a
//! changeover and its answers, where each message is, load sharing, and the printed refusals of a link set.
#![tactic(auto)]

mod availability;
mod bound;
mod changeover;
mod errors;
mod labels;
mod laws;
mod saying;
mod sharing;
mod table;

pub use availability::{Answer, Availability, Behind, Changing, SELECTIONS, T2};
pub use bound::{Points, leave_out};
pub use changeover::{Changeover, Kind, read_changeover};
pub use errors::{
    AbandonError, BindError, DivertFault, FailError, LineError, LinkError, RebalanceError,
    RetrieveError, SendError,
};
pub use labels::{Label, label_of};
pub use laws::steps_keep_places;
pub use saying::Hearing;
pub use sharing::{Counts, count_on, counts_of, pick, selection_of};
pub use table::Table;
