//! The files and FIFOs of a line's orders, reports and captures, with a thread for each that may keep the line waiting.
//! Captures are in pcap's classic format: the units seen, which of them are recorded, and the octets of a record.
#![tactic(auto)]

mod ahead;
mod apart;
mod arrivals;
mod backlog;
mod capture;
mod closing;
mod departures;
mod ending;
mod feeds;
mod live;
mod opening;
mod outlet;
mod records;
mod repeats;
mod seen;
mod taps;
mod watch;

pub use apart::keep_apart;
pub use arrivals::Arrivals;
pub use backlog::Backlog;
pub use capture::{Capture, Kept};
pub use closing::ended;
pub use departures::Departures;
pub use feeds::{Fed, Feed};
pub use live::LiveOrders;
pub use opening::{
    Begin, OrderStream, ReportFile, ReportStream, open_both, open_orders, open_reports,
};
pub use outlet::Outlet;
pub use records::{RecordStream, open_records};
pub use repeats::Repeats;
pub use seen::{Seen, header, record};
pub use taps::{InTap, OutTap, Plan, tap};
