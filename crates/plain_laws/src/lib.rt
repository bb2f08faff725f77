//! Laws of Booleans, options, lists and numbers that the standard library doesn't state, and the limits of sets, links
//! and pools of links. Each is stated once, for every crate above.
#![tactic(auto)]
