//! Signal units of MTP level 2 (ITU-T Q.703) as octets, and their check bits.
//!
//! `encode` writes the octets of a unit between the flags, `decode` returns the unit of such octets, and
//! `check_bits` returns the two check octets of a content. No call can fail because memory runs out.
#![tactic(auto)]

mod check;
mod frames;
pub mod laws;
mod units;

pub use check::check_bits;
pub use frames::{decode, encode, is_unit};
pub use units::{Head, Unit, UnitFault, status_name};
